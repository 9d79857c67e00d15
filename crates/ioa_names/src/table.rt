//! Names with their shapes.

ghost use Rattle.std.specs.Prelude.{◌≡◌, ◌+◌, ◌<◌, ◌^◌, [], IfOk, length, map};
ghost use Rattle.std.specs.List.{list_all};
ghost use Rattle.std.specs.Option.{is_some, option_map};
ghost use Rattle.ioa_values.specs.Outcome.{Answers};
ghost use Rattle.ioa_terms.specs.Sorted.{shape_named};
ghost use Rattle.ioa_terms.specs.Sorted as sorted;
ghost use Rattle.ioa_names.specs.NameTables as spec;
ghost use Rattle.ioa_names.specs.Views as views;

use crate::scope::Scope;
use ioa_refusals::Refusal;
use ioa_sort_rules::shape_in_terms;
use ioa_terms::{Name, Shape, Word};
use std::alloc::{AllocError, Global};
use std::marker::Model;

/// A declared shape, and beside it the shape that a name of it has in a term. A contract sees the declared one.
pub(crate) struct DeclaredShape {
    shape: Shape,
    in_terms: Shape,
}

/// By hand, so that crates above do not prove again how the parts are let go (DECISIONS).
impl Drop for DeclaredShape {
    fn drop(self) {
        let DeclaredShape {
            shape: _,
            in_terms: _,
        } = self;
    }
}

impl Model for DeclaredShape {
    ghost use Rattle.std.specs.Prelude.{◌≡◌};
    ghost use Rattle.ioa_operators.specs.Shapes.{PlainShape};
    ghost use Rattle.ioa_operators.specs.ShapeCode.{shape_code};
    ghost use Rattle.ioa_terms.specs.Sorted.{shape_in_terms};

    ghost Value = { PlainShape };

    ghost coded = { shape_code };

    ghost view = { λ d. d.shape };

    ghost invariant = { λ d. d.in_terms ≡ shape_in_terms d.shape };
}

impl DeclaredShape {
    /// The shape as declared, with its form in terms.
    pub(crate) fn new(alloc: Global, shape: Shape) -> Result<Self, AllocError>
        ensures { IfOk result (λ d. d ≡ shape) }
    {
        let in_terms = shape_in_terms(alloc, &shape)?;
        Ok(DeclaredShape { shape, in_terms })
    }

    /// The shape as declared.
    pub(crate) fn as_declared(&self) -> &Shape
        ensures { result.now ≡ self.now }
    {
        &self.shape
    }

    /// The shape as it is in terms.
    pub(crate) fn in_terms(&self) -> &Shape
        ensures { result.now ≡ sorted.shape_in_terms self.now }
    {
        &self.in_terms
    }
}

/// Words that differ from each other, each with a declared shape. The slot of a word is its index among them. A
/// contract sees the pairs of names and declared shapes.
pub struct NameTable {
    names: Scope,
    shapes: Vec<DeclaredShape>,
}

/// By hand, so that crates above do not prove again how the parts are let go (DECISIONS).
impl Drop for NameTable {
    fn drop(self) {
        let NameTable {
            names: _,
            shapes: _,
        } = self;
    }
}

impl Model for NameTable {
    ghost use Rattle.std.specs.Prelude.{map, ◌≡◌, length};
    ghost use Rattle.std.specs.List.{zip};
    ghost use Rattle.std.specs.Coded.{coded×, coded_list};
    ghost use Rattle.ioa_operators.specs.ShapeCode.{shape_code};
    ghost use Rattle.ioa_terms.specs.declared.name.Name.TheVariants.{Word};
    ghost use Rattle.ioa_terms.specs.contracts.name.Name as called;
    ghost use Rattle.ioa_terms.specs.Sorted.{NameShapes};

    ghost Value = { NameShapes };

    ghost coded = { coded_list (coded× called.the_row.coded shape_code) };

    ghost view = { λ t. zip (map Word t.names) t.shapes.items };

    ghost invariant = { λ t. length t.names ≡ length t.shapes.items };
}

impl NameTable {
    /// No names.
    pub fn new(alloc: Global) -> Self
        ensures { result ≡ [] }
    {
        NameTable {
            names: Scope::new(alloc),
            shapes: Vec::new(alloc),
        }
    }

    /// How many names there are.
    #[tactic(auto, using(crate::proofs::Tables::many_zip))]
    pub fn len(&self) -> usize
        ensures { result ≡ length self.now }
    {
        self.shapes.len()
    }

    /// The names with one more. `Twice` (21) if it is one of them.
    pub fn with(self, alloc: Global, name: Word, shape: Shape) -> Result<Self, Refusal>
        ensures { Answers Refusal.Memory (λ t. t) result (spec.with_name self name shape) }
    {
        let NameTable {
            mut names,
            mut shapes,
        } = self;
        let shape = DeclaredShape::new(alloc, shape)?;
        if names.declare(name)? {
            shapes.push(shape)?;
            Ok(NameTable { names, shapes })
        } else {
            Err(Refusal::Twice)
        }
    }

    /// The names, if none of them is in one of two other tables. Else `Twice` (21).
    #[tactic(auto, unfolding(crate::specs::NameTables::new_or))]
    pub fn pass_new(self, outer: &NameTable, constants: &NameTable) -> Result<Self, Refusal>
        ensures { Answers Refusal.Memory (λ t. t) result (spec.new_or outer.now constants.now self) }
    {
        self.words_law();
        if are_new(self.words(), outer, constants) {
            Ok(self)
        } else {
            Err(Refusal::Twice)
        }
    }

    /// Whether a word is one of the names.
    #[tactic(auto, using(crate::proofs::Named::slot_or_shape))]
    pub fn declares(&self, word: &Word) -> bool
        ensures { result ≡ is_some (shape_named (Name.Word word.now) self.now) }
    {
        self.look_up(word).is_some()
    }

    /// The slot of a word, and its shape, if it is one of the names.
    #[tactic(auto, using(crate::proofs::Named::declared_zip))]
    pub(crate) fn look_up(&self, word: &Word) -> Option<(usize, &DeclaredShape)>
        ensures { option_map (λ p. (p.0, p.1.now)) result ≡ views.declared_at (Name.Word word.now) self.now }
    {
        match self.names.slot_of_word(word) {
            Some(slot) => at_slot(&self.shapes, slot),
            None => None,
        }
    }

    /// The slot of a name, and its shape, if it is one of the names. Each of them is a word.
    #[tactic(auto, using(crate::proofs::Named::no_word))]
    pub(crate) fn look_up_name(&self, name: &Name) -> Option<(usize, &DeclaredShape)>
        ensures { option_map (λ p. (p.0, p.1.now)) result ≡ views.declared_at name.now self.now }
    {
        self.words_law();
        match name {
            Name::Word(word) => self.look_up(word),
            Name::Variable { .. } => None,
            Name::Queue { .. } => None,
        }
    }

    /// The slot of a word behind a number of other names, and its shape, if it is one of the names.
    #[tactic(auto, using(crate::proofs::Named::slot_below))]
    pub(crate) fn look_up_behind(
        &self,
        word: &Word,
        offset: usize,
    ) -> Option<(usize, &DeclaredShape)>
        requires { offset + length self.now < 2 ^ 64 }
        ensures { option_map (λ p. (p.0, p.1.now)) result
            ≡ views.behind offset (views.declared_at (Name.Word word.now) self.now) }
    {
        let (slot, shape) = self.look_up(word)?;
        Some((offset + slot, shape))
    }

    /// What every table keeps: its names are words. Does nothing.
    #[tactic(auto, using(crate::proofs::Tables::named_by_words))]
    pub fn words_law(&self)
        ensures { views.AreWords self.now }
    {
        let _names = &self.names;
    }

    /// The names, in order.
    #[tactic(auto, using(crate::proofs::Tables::words_zip))]
    pub fn words(&self) -> &[Word]
        ensures { result.now ≡ spec.words self.now }
    {
        self.names.as_slice()
    }

    /// The names.
    #[tactic(auto, using(crate::proofs::Tables::words_zip))]
    pub fn names(&self) -> &Scope
        ensures { result.now ≡ spec.words self.now }
    {
        &self.names
    }

    /// The names alone.
    #[tactic(auto, using(crate::proofs::Tables::words_zip))]
    pub fn into_names(self) -> Scope
        ensures { result ≡ spec.words self }
    {
        let NameTable { names, shapes: _ } = self;
        names
    }
}

/// A slot with the shape that is at it.
pub(crate) fn at_slot(shapes: &Vec<DeclaredShape>, slot: usize) -> Option<(usize, &DeclaredShape)>
    ensures { option_map (λ p. (p.0, p.1.now)) result ≡ views.at_slot shapes.now.items slot }
{
    let shape = shapes.get(slot)?;
    Some((slot, shape))
}

/// Whether each of these words is in neither of two tables.
fn are_new(words: &[Word], outer: &NameTable, constants: &NameTable) -> bool
    ensures { result ≡ list_all (spec.is_new outer.now constants.now) (map Name.Word words.now) }
{
    for word in words {
        if outer.declares(word) || constants.declares(word) {
            return false;
        }
    }
    true
}
