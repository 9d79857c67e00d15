//! Names in view.

ghost use Rattle.std.specs.Prelude.{◌≡◌, ◌++◌, IfOk, OnOk, take, map};
ghost use Rattle.std.specs.Option.{is_some, option_map};
ghost use Rattle.ioa_terms.specs.Sorted.{shape_named};
ghost use Rattle.ioa_names.specs.OuterNames.{outer_names};
ghost use Rattle.ioa_names.specs.Views.{declared_at, named};

use crate::outer::Outer;
use crate::readings::Readings;
use crate::table::{DeclaredShape, NameTable};
use ioa_terms::{Name, Shape, Word};
use std::alloc::AllocError;
use std::marker::Model;

/// The names that a term may read, with their declared shapes: those that stand outside, or those that an invariant
/// reads, then those that an entry declares itself, and then the text's constants. Where the condition of a choice is
/// read, the name of its value stands in front of them. The slot of a name is its index among them. A contract sees the
/// pairs of names and declared shapes.
#[derive(Drop)]
pub struct View<'a> {
    outer: Outer<'a>,
    own: &'a NameTable,
    constants: &'a NameTable,
    own_offset: usize,
    constants_offset: usize,
}

impl<'a> Model for View<'a> {
    ghost use Rattle.std.specs.Prelude.{◌++◌};
    ghost use Rattle.std.specs.Coded.{coded×, coded_list};
    ghost use Rattle.ioa_operators.specs.ShapeCode.{shape_code};
    ghost use Rattle.ioa_terms.specs.contracts.name.Name as called;
    ghost use Rattle.ioa_terms.specs.Sorted.{NameShapes};
    ghost use Rattle.ioa_names.specs.OuterNames.{outer_names};
    ghost use Rattle.ioa_names.specs.Views.{AreOffsets, AreWords};

    ghost Value = { NameShapes };

    ghost coded = { coded_list (coded× called.the_row.coded shape_code) };

    ghost view = { λ v. outer_names v.outer ++ (v.own.now ++ v.constants.now) };

    ghost invariant = { λ v. AreOffsets (outer_names v.outer) v.own.now v.constants.now v.own_offset v.constants_offset
        × AreWords v.own.now × AreWords v.constants.now };
}

impl<'a> View<'a> {
    /// The names of these tables. Memory if there are more than a machine can count.
    pub fn new(
        outer: &'a NameTable,
        own: &'a NameTable,
        constants: &'a NameTable,
    ) -> Result<Self, AllocError>
        ensures { IfOk result (λ v. v ≡ outer.now ++ (own.now ++ constants.now)) }
    {
        View::behind(Outer::Words(outer), own, constants)
    }

    /// The names that an invariant reads, and those of these tables. Memory if there are more than a machine can count.
    pub fn of_readings(
        readings: &'a Readings,
        own: &'a NameTable,
        constants: &'a NameTable,
    ) -> Result<Self, AllocError>
        ensures { IfOk result (λ v. v ≡ readings.now ++ (own.now ++ constants.now)) }
    {
        View::behind(Outer::Readings(readings), own, constants)
    }

    /// The names of a table, and behind them those in view. Memory if there are more than a machine can count, or if no
    /// room is in front of these names: there is one where a term of an entry is read, and it is taken once.
    #[tactic(auto, using(crate::proofs::Named::in_front))]
    pub fn with_front<'b>(&'b self, front: &'b NameTable) -> Result<View<'b>, AllocError>
        ensures { IfOk result (λ v. v ≡ front.now ++ self.now) }
    {
        match self.outer {
            Outer::Words(table) => View::behind(
                Outer::Front(front, table),
                self.own,
                self.constants,
            ),
            Outer::Readings(_) => Err(AllocError),
            Outer::Front(_, _) => Err(AllocError),
        }
    }

    /// The names of two tables behind others.
    fn behind(
        outer: Outer<'a>,
        own: &'a NameTable,
        constants: &'a NameTable,
    ) -> Result<Self, AllocError>
        ensures { IfOk result (λ v. v ≡ outer_names outer.entry ++ (own.now ++ constants.now)) }
    {
        own.words_law();
        constants.words_law();
        let own_offset = outer.len()?;
        let constants_offset = own_offset.checked_add(own.len()).ok_or(AllocError)?;
        let _whole = constants_offset
            .checked_add(constants.len())
            .ok_or(AllocError)?;
        Ok(View {
            outer,
            own,
            constants,
            own_offset,
            constants_offset,
        })
    }

    /// Whether a word is one of the names in view.
    #[tactic(auto, using(crate::proofs::Named::slot_or_shape))]
    pub fn declares(&self, word: &Word) -> bool
        ensures { result ≡ is_some (shape_named (Name.Word word.now) self.now) }
    {
        self.look_up(word).is_some()
    }

    /// The slot of a name, and its shape in a term, if it is in view.
    pub fn find(&self, name: &Name) -> Option<(usize, &Shape)>
        ensures { option_map (λ p. (p.0, p.1.now)) result ≡ named name.now self.now }
    {
        let (slot, shape) = self.look_up_name(name)?;
        Some((slot, shape.in_terms()))
    }

    /// The slot of a name, and its declared shape, if it is one of the first names in view, as many as are variables.
    #[tactic(auto, using(crate::proofs::Named::first_slots))]
    pub fn find_variable(&self, name: &Word, variables: usize) -> Option<(usize, &Shape)>
        ensures { option_map (λ p. (p.0, p.1.now)) result ≡ declared_at (Name.Word name.now) (take variables self.now) }
    {
        let (slot, shape) = self.look_up(name)?;
        if slot < variables {
            Some((slot, shape.as_declared()))
        } else {
            None
        }
    }

    /// The slot of a name, and its shape, if it is in view. Behind the first names are only words.
    #[tactic(auto, using(crate::proofs::Named::in_first))]
    fn look_up_name(&self, name: &Name) -> Option<(usize, &DeclaredShape)>
        ensures { option_map (λ p. (p.0, p.1.now)) result ≡ declared_at name.now self.now }
    {
        match name {
            Name::Word(word) => self.look_up(word),
            Name::Variable { .. } => self.outer.look_up(name),
            Name::Queue { .. } => self.outer.look_up(name),
        }
    }

    /// The slot of a word, and its shape, if it is in view.
    #[tactic(auto, using(crate::proofs::Named::in_three))]
    fn look_up(&self, word: &Word) -> Option<(usize, &DeclaredShape)>
        ensures { option_map (λ p. (p.0, p.1.now)) result ≡ declared_at (Name.Word word.now) self.now }
    {
        let found = self.outer.look_up_word(word);
        if found.is_some() {
            return found;
        }
        let found = self.own.look_up_behind(word, self.own_offset);
        if found.is_some() {
            return found;
        }
        self.constants.look_up_behind(word, self.constants_offset)
    }
}
