//! The first names in view.

ghost use Rattle.std.specs.Prelude.{◌≡◌, ◌+◌, ◌<◌, ◌^◌, ◌++◌, IfOk, length};
ghost use Rattle.std.specs.Option.{option_map};
ghost use Rattle.ioa_names.specs.OuterNames.{outer_names};
ghost use Rattle.ioa_names.specs.Views.{declared_at};

use crate::readings::Readings;
use crate::table::{DeclaredShape, NameTable};
use ioa_terms::{Name, Word};
use std::alloc::AllocError;

/// The first names in view, with their declared shapes.
#[derive(Clone, Copy)]
pub(crate) enum Outer<'a> {
    /// Words that stand outside of an entry.
    Words(&'a NameTable),
    /// The names that an invariant reads.
    Readings(&'a Readings),
    /// Words that stand in front, and behind them those that stand outside of an entry.
    Front(&'a NameTable, &'a NameTable),
}

impl<'a> Outer<'a> {
    /// How many names there are. Memory if there are more than a machine can count.
    #[tactic(auto, using(crate::proofs::Named::both))]
    pub(crate) fn len(self) -> Result<usize, AllocError>
        ensures { IfOk result (λ many. many ≡ length (outer_names self.entry)) }
    {
        match self {
            Outer::Words(table) => Ok(table.len()),
            Outer::Readings(readings) => Ok(readings.len()),
            Outer::Front(front, table) => front.len().checked_add(table.len()).ok_or(AllocError),
        }
    }

    /// The slot of a name, and its shape, if it is one of the names.
    #[tactic(auto, using(crate::proofs::Named::both))]
    pub(crate) fn look_up(self, name: &Name) -> Option<(usize, &'a DeclaredShape)>
        requires { length (outer_names self) < 2 ^ 64 }
        ensures { option_map (λ p. (p.0, p.1.now)) result ≡ declared_at name.now (outer_names self.entry) }
    {
        match self {
            Outer::Words(table) => table.look_up_name(name),
            Outer::Readings(readings) => readings.look_up(name),
            Outer::Front(front, table) => name_in_two(front, table, name),
        }
    }

    /// The slot of a word, and its shape, if it is one of the names.
    #[tactic(auto, using(crate::proofs::Named::both))]
    pub(crate) fn look_up_word(self, word: &Word) -> Option<(usize, &'a DeclaredShape)>
        requires { length (outer_names self) < 2 ^ 64 }
        ensures { option_map (λ p. (p.0, p.1.now)) result
            ≡ declared_at (Name.Word word.now) (outer_names self.entry) }
    {
        match self {
            Outer::Words(table) => table.look_up(word),
            Outer::Readings(readings) => readings.look_up_word(word),
            Outer::Front(front, table) => word_in_two(front, table, word),
        }
    }
}

/// The slot of a name in two tables, one behind the other, and its shape, if it is one of their names.
#[tactic(auto, using(crate::proofs::Named::no_word_in_two))]
fn name_in_two<'a>(
    front: &'a NameTable,
    table: &'a NameTable,
    name: &Name,
) -> Option<(usize, &'a DeclaredShape)>
    requires { length front.now + length table.now < 2 ^ 64 }
    ensures { option_map (λ p. (p.0, p.1.now)) result ≡ declared_at name.now (front.now ++ table.now) }
{
    front.words_law();
    table.words_law();
    match name {
        Name::Word(word) => word_in_two(front, table, word),
        Name::Variable { .. } => None,
        Name::Queue { .. } => None,
    }
}

/// The slot of a word in two tables, one behind the other, and its shape, if it is one of their names.
#[tactic(auto, using(crate::proofs::Named::in_two))]
fn word_in_two<'a>(
    front: &'a NameTable,
    table: &'a NameTable,
    word: &Word,
) -> Option<(usize, &'a DeclaredShape)>
    requires { length front.now + length table.now < 2 ^ 64 }
    ensures { option_map (λ p. (p.0, p.1.now)) result
        ≡ declared_at (Name.Word word.now) (front.now ++ table.now) }
{
    let found = front.look_up(word);
    if found.is_some() {
        return found;
    }
    table.look_up_behind(word, front.len())
}
