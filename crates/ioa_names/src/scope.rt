//! Names in view. The slot of a name is its index in the order of declaration, counted from 0.

ghost use Rattle.std.specs.Prelude.{◌≡◌, ◌++◌, [], ◌∷◌, IfOk, OnOk, OnErr, MatchBool, map, not};
ghost use Rattle.std.specs.List.{list_any, IsDistinct};
ghost use Rattle.ioa_terms.specs.Bindings.{slot_in, same_word};

use indexmap::IndexSet;
use ioa_terms::{Name, Word};
use std::alloc::{AllocError, Global};
use std::marker::Model;

/// Names that differ from each other, in the order of declaration. A contract sees the list.
pub struct Scope {
    names: IndexSet<Word>,
}

/// By hand, so that crates above do not prove again how the parts are let go (DECISIONS).
impl Drop for Scope {
    fn drop(self) {
        let Scope { names: _ } = self;
    }
}

impl Model for Scope {
    ghost use Rattle.std.specs.Prelude.{ℕ, List};

    ghost Value = { List (List ℕ) };

    ghost view = { λ s. s.names.keys };
}

impl Scope {
    /// No names.
    pub fn new(alloc: Global) -> Self
        ensures { result ≡ [] }
    {
        Scope {
            names: IndexSet::new(alloc),
        }
    }

    /// Declares a name behind the others if it is new, and returns whether it was. If memory runs
    /// out the names are left as they were.
    pub fn declare(&mut self, name: Word) -> Result<bool, AllocError>
        ensures ok { IfOk result (λ fresh.
            MatchBool fresh (self.new ≡ self.old ++ name ∷ []) (self.new ≡ self.old)) }
        ensures fresh { IfOk result (λ fresh. fresh ≡ not (list_any (same_word name) self.old)) }
        ensures differ { OnOk result (IsDistinct same_word self.old → IsDistinct same_word self.new) }
        ensures err { OnErr result (self.new ≡ self.old) }
    {
        let (_, fresh) = self.names.insert_full(name)?;
        Ok(fresh)
    }

    /// The slot of the name that a word is, if it is declared.
    #[tactic(auto, using(crate::proofs::Scopes::position_slot))]
    pub fn slot_of_word(&self, word: &Word) -> Option<usize>
        ensures { result ≡ slot_in (Name.Word word.now) (map Name.Word self.now) }
    {
        self.names.get_index_of(word)
    }

    /// The names in order.
    pub fn as_slice(&self) -> &[Word]
        ensures { result.now ≡ self.now }
    {
        self.names.as_slice()
    }

    /// The names in order, with their own memory.
    pub fn to_words(&self, alloc: Global) -> Result<Vec<Word>, AllocError>
        ensures { IfOk result (λ ws. ws.items ≡ self.now) }
    {
        let mut words = Vec::with_capacity(alloc, self.names.len())?;
        for name in self.as_slice() {
            let word = name.try_copy(alloc)?;
            words.push(word)?;
        }
        Ok(words)
    }
}
