//! The names that terms read, with their shapes.

ghost use Rattle.std.specs.Prelude.{◌≡◌, ◌++◌, [], ◌∷◌, IfOk, OnOk, OnErr, MatchBool, length, map, not};
ghost use Rattle.std.specs.List.{list_any, zip, IsDistinct};
ghost use Rattle.std.specs.Option.{option_map};
ghost use Rattle.ioa_terms.specs.Bindings.{slot_in, same_name};
ghost use Rattle.ioa_names.specs.NameTables as spec;
ghost use Rattle.ioa_names.specs.Views as views;

use crate::table::{DeclaredShape, at_slot};
use indexmap::{Equivalent, IndexSet};
use ioa_terms::{Name, Shape, Word};
use std::alloc::{AllocError, Global};
use std::marker::Model;

/// The name that a word is, for a look-up among names.
#[derive(Clone, Copy, PartialEq, Eq, Hash)]
struct WordName<'a> {
    word: &'a Word,
}

impl<'a> Equivalent<Name> for WordName<'a> {
    ghost use Rattle.ioa_terms.specs.Bindings.{same_name};
    ghost use Rattle.ioa_terms.specs.SameNames.{same_name_hashed, same_name_total};
    ghost use Rattle.ioa_terms.specs.declared.name.Name.TheVariants.{Word};

    ghost equivalent = { λ q. same_name (Word q.word.now) };

    ghost respects_hash = { λ q. same_name_hashed (Word q.word.now) };

    ghost respects_eq = { λ q. same_name_total.congr (Word q.word.now) };

    fn equivalent(&self, key: &Name) -> bool {
        is_the_word(key, self.word)
    }
}

/// Whether a name is this word.
fn is_the_word(name: &Name, word: &Word) -> bool
    ensures { result ≡ same_name (Name.Word word.now) name.now }
{
    match name {
        Name::Word(other) => word == other,
        Name::Variable { .. } => false,
        Name::Queue { .. } => false,
    }
}

/// The names that terms read: they differ from each other, and stand in the order of their first places. A contract
/// sees the list.
pub struct ReadNames {
    names: IndexSet<Name>,
}

/// By hand, so that crates above do not prove again how the parts are let go (DECISIONS).
impl Drop for ReadNames {
    fn drop(self) {
        let ReadNames { names: _ } = self;
    }
}

impl Model for ReadNames {
    ghost use Rattle.std.specs.Prelude.{List};
    ghost use Rattle.std.specs.Coded.{coded_list};
    ghost use Rattle.ioa_terms.specs.declared.name.Name.{Name};
    ghost use Rattle.ioa_terms.specs.contracts.name.Name as called;

    ghost Value = { List Name };

    ghost coded = { coded_list called.the_row.coded };

    ghost view = { λ r. r.names.keys };
}

impl ReadNames {
    /// No names.
    pub fn new(alloc: Global) -> Self
        ensures { result ≡ [] }
    {
        ReadNames {
            names: IndexSet::new(alloc),
        }
    }

    /// Puts a name behind the others if it is new, and returns whether it was. If memory runs out the names are left as
    /// they were.
    pub fn declare(&mut self, name: Name) -> Result<bool, AllocError>
        ensures ok { IfOk result (λ fresh.
            MatchBool fresh (self.new ≡ self.old ++ name ∷ []) (self.new ≡ self.old)) }
        ensures fresh { IfOk result (λ fresh. fresh ≡ not (list_any (same_name name) self.old)) }
        ensures differ { OnOk result (IsDistinct same_name self.old → IsDistinct same_name self.new) }
        ensures err { OnErr result (self.new ≡ self.old) }
    {
        let (_, fresh) = self.names.insert_full(name)?;
        Ok(fresh)
    }

    /// The names, in order.
    pub fn as_slice(&self) -> &[Name]
        ensures { result.now ≡ self.now }
    {
        self.names.as_slice()
    }

    /// The names, in order.
    pub fn into_vec(self, alloc: Global) -> Result<Vec<Name>, AllocError>
        ensures { IfOk result (λ names. names.items ≡ self) }
    {
        let ReadNames { names } = self;
        let mut all = Vec::new(alloc);
        for name in names {
            all.push(name)?;
        }
        Ok(all)
    }

    /// The slot of a name, if it is one of the names.
    #[tactic(auto, using(crate::proofs::Slots::position_slot))]
    fn slot_of(&self, name: &Name) -> Option<usize>
        ensures { result ≡ slot_in name.now self.now }
    {
        self.names.get_index_of(name)
    }

    /// The slot of the name that a word is, if it is one of the names.
    #[tactic(auto, using(crate::proofs::Slots::position_slot))]
    fn slot_of_word(&self, word: &Word) -> Option<usize>
        ensures { result ≡ slot_in (Name.Word word.now) self.now }
    {
        self.names.get_index_of(WordName { word })
    }
}

/// The names that terms read, each with a declared shape. The slot of a name is its index among them. A contract sees
/// the pairs of names and declared shapes.
pub struct Readings {
    names: ReadNames,
    shapes: Vec<DeclaredShape>,
}

/// By hand, so that crates above do not prove again how the parts are let go (DECISIONS).
impl Drop for Readings {
    fn drop(self) {
        let Readings {
            names: _,
            shapes: _,
        } = self;
    }
}

impl Model for Readings {
    ghost use Rattle.std.specs.Prelude.{◌≡◌, length};
    ghost use Rattle.std.specs.List.{zip};
    ghost use Rattle.std.specs.Coded.{coded×, coded_list};
    ghost use Rattle.ioa_operators.specs.ShapeCode.{shape_code};
    ghost use Rattle.ioa_terms.specs.contracts.name.Name as called;
    ghost use Rattle.ioa_terms.specs.Sorted.{NameShapes};

    ghost Value = { NameShapes };

    ghost coded = { coded_list (coded× called.the_row.coded shape_code) };

    ghost view = { λ r. zip r.names r.shapes.items };

    ghost invariant = { λ r. length r.names ≡ length r.shapes.items };
}

impl Readings {
    /// These names with their shapes, one by one.
    pub fn new(alloc: Global, names: ReadNames, shapes: Vec<Shape>) -> Result<Self, AllocError>
        requires { length names ≡ length shapes.items }
        ensures { IfOk result (λ r. r ≡ zip names shapes.items) }
    {
        let shapes = all_declared(alloc, shapes)?;
        Ok(Readings { names, shapes })
    }

    /// How many names there are.
    #[tactic(auto, using(crate::proofs::Tables::many_named))]
    pub fn len(&self) -> usize
        ensures { result ≡ length self.now }
    {
        self.shapes.len()
    }

    /// The slot of a name, and its shape, if it is one of the names.
    #[tactic(auto, using(crate::proofs::Named::declared_zip))]
    pub(crate) fn look_up(&self, name: &Name) -> Option<(usize, &DeclaredShape)>
        ensures { option_map (λ p. (p.0, p.1.now)) result ≡ views.declared_at name.now self.now }
    {
        match self.names.slot_of(name) {
            Some(slot) => at_slot(&self.shapes, slot),
            None => None,
        }
    }

    /// The slot of the name that a word is, and its shape, if it is one of the names.
    #[tactic(auto, using(crate::proofs::Named::declared_zip))]
    pub(crate) fn look_up_word(&self, word: &Word) -> Option<(usize, &DeclaredShape)>
        ensures { option_map (λ p. (p.0, p.1.now)) result ≡ views.declared_at (Name.Word word.now) self.now }
    {
        match self.names.slot_of_word(word) {
            Some(slot) => at_slot(&self.shapes, slot),
            None => None,
        }
    }

    /// The names, in order.
    #[tactic(auto, using(crate::proofs::Tables::names_zip))]
    pub fn into_names(self, alloc: Global) -> Result<Vec<Name>, AllocError>
        ensures { IfOk result (λ names. names.items ≡ spec.declared_names self) }
    {
        let Readings { names, shapes: _ } = self;
        names.into_vec(alloc)
    }
}

/// Each shape as declared, with its form in terms.
fn all_declared(alloc: Global, shapes: Vec<Shape>) -> Result<Vec<DeclaredShape>, AllocError>
    ensures { IfOk result (λ declared. declared.items ≡ shapes.items) }
{
    let mut declared = Vec::with_capacity(alloc, shapes.len())?;
    for shape in shapes {
        let shape = DeclaredShape::new(alloc, shape)?;
        declared.push(shape)?;
    }
    Ok(declared)
}
