//! Sorts, as a text spells them.

ghost use Rattle.std.specs.Prelude.{◌≡◌, IfOk};
ghost use Rattle.ioa_terms.specs.SameSorts.{same_sort};
ghost use Rattle.ioa_terms.specs.SortView.{sort_of};

use ioa_values::Word;
use std::alloc::{AllocError, Global};

/// A sort as a text spells it (profile).
pub enum Sort {
    /// `Bool`: the truth values.
    Bool,
    /// `Int`: the whole numbers.
    Int,
    /// `Nat`: the whole numbers from 0 on.
    Nat,
    /// `Seq[S]`: sequences.
    Seq(Box<Sort>),
    /// `Set[S]`: finite sets.
    Set(Box<Sort>),
    /// `Map[S, T]`: finite maps, the keys' sort first.
    Map(Box<Sort>, Box<Sort>),
    /// The type of a name that the text declares.
    Named(Word),
}

/// By hand, so that crates above do not prove again how the parts are let go (DECISIONS).
impl Drop for Sort {
    fn drop(self) {
        match self {
            Sort::Bool
            | Sort::Int
            | Sort::Nat
            | Sort::Seq(_)
            | Sort::Set(_)
            | Sort::Map(_, _)
            | Sort::Named(_) => {}
        }
    }
}

impl Sort {
    /// An equal sort with its own memory.
    pub fn try_copy(&self, alloc: Global) -> Result<Self, AllocError>
        ensures { IfOk result (λ s. sort_of s ≡ sort_of self.now) }
    {
        match self {
            Sort::Bool => Ok(Sort::Bool),
            Sort::Int => Ok(Sort::Int),
            Sort::Nat => Ok(Sort::Nat),
            Sort::Seq(items) => {
                let items = items.try_copy(alloc)?;
                Ok(Sort::Seq(Box::new(alloc, items)?))
            }
            Sort::Set(members) => {
                let members = members.try_copy(alloc)?;
                Ok(Sort::Set(Box::new(alloc, members)?))
            }
            Sort::Map(keys, values) => {
                let keys = keys.try_copy(alloc)?;
                let values = values.try_copy(alloc)?;
                Ok(Sort::Map(Box::new(alloc, keys)?, Box::new(alloc, values)?))
            }
            Sort::Named(name) => Ok(Sort::Named(name.try_copy(alloc)?)),
        }
    }

    /// Whether two sorts are spelled alike.
    pub fn is_same(&self, other: &Self) -> bool
        ensures { result ≡ same_sort (sort_of self.now) (sort_of other.now) }
    {
        match self {
            Sort::Bool => matches!(other, Sort::Bool),
            Sort::Int => matches!(other, Sort::Int),
            Sort::Nat => matches!(other, Sort::Nat),
            Sort::Seq(items) => match other {
                Sort::Seq(others) => items.is_same(others),
                Sort::Bool | Sort::Int | Sort::Nat | Sort::Set(_) => false,
                Sort::Map(_, _) | Sort::Named(_) => false,
            },
            Sort::Set(members) => match other {
                Sort::Set(others) => members.is_same(others),
                Sort::Bool | Sort::Int | Sort::Nat | Sort::Seq(_) => false,
                Sort::Map(_, _) | Sort::Named(_) => false,
            },
            Sort::Map(keys, values) => match other {
                Sort::Map(k, v) => keys.is_same(k) && values.is_same(v),
                Sort::Bool | Sort::Int | Sort::Nat | Sort::Seq(_) => false,
                Sort::Set(_) | Sort::Named(_) => false,
            },
            Sort::Named(name) => match other {
                Sort::Named(word) => name == word,
                Sort::Bool | Sort::Int | Sort::Nat | Sort::Seq(_) => false,
                Sort::Set(_) | Sort::Map(_, _) => false,
            },
        }
    }
}
