//! An invariant of a checked system.

ghost use Rattle.std.specs.Prelude.{◌≡◌, length};
ghost use Rattle.std.specs.Arc.{arc_value};
ghost use Rattle.ioa_terms.specs.Bindings.{names_of};
ghost use Rattle.ioa_terms.specs.Resolved.{IsResolved};
ghost use Rattle.ioa_terms.specs.View.{term_of};
ghost use Rattle.ioa_system.specs.Invariants.{IsResolvedInvariant, invariant_bindings, invariant_names};
ghost use Rattle.ioa_system.specs.Invariants.{invariant_parts};

use ioa_terms::{Checked, Env, Name, NameLists, Names, Value, Word};
use std::marker::Model;
use std::sync::Arc;

/// An invariant (profile): a term that is to be true in each state. It carries the names `x@k` and `queue(i, j)` that
/// its term reads, each once, in the order of their first places; behind them it reads the text's constants. Its type
/// guarantees that each name is resolved to the slot of its value.
pub struct CheckedInvariant {
    name: Word,
    constants: Arc<Names>,
    readings: Vec<Name>,
    term: Checked,
}

/// By hand, so that crates above do not prove again how the parts are let go (DECISIONS).
impl Drop for CheckedInvariant {
    fn drop(self) {
        let CheckedInvariant {
            name: _,
            constants: _,
            readings: _,
            term: _,
        } = self;
    }
}

impl Model for CheckedInvariant {
    ghost use Rattle.std.specs.Arc.{arc_value};
    ghost use Rattle.ioa_terms.specs.View.{term_of};
    ghost use Rattle.ioa_system.specs.Invariants.{InvariantParts, IsResolvedInvariant, invariant_code};
    ghost use Rattle.ioa_system.specs.Invariants.{invariant_parts};

    ghost Value = { InvariantParts };

    ghost coded = { invariant_code };

    ghost view = { λ v. invariant_parts v.name (arc_value v.constants) v.readings.items (term_of v.term) };

    ghost invariant = { λ v. IsResolvedInvariant
        (invariant_parts v.name (arc_value v.constants) v.readings.items (term_of v.term)) };
}

impl CheckedInvariant {
    /// The invariant of these parts.
    pub fn new(name: Word, constants: Arc<Names>, readings: Vec<Name>, term: Checked) -> Self
        requires { IsResolvedInvariant (invariant_parts name (arc_value constants) readings.items (term_of term)) }
        ensures { result ≡ invariant_parts name (arc_value constants) readings.items (term_of term) }
    {
        CheckedInvariant {
            name,
            constants,
            readings,
            term,
        }
    }

    /// Its name.
    pub fn name(&self) -> &Word
        ensures { result.now ≡ self.now.name }
    {
        &self.name
    }

    /// The names `x@k` and `queue(i, j)` that its term reads.
    pub fn readings(&self) -> &[Name]
        ensures { result.now ≡ self.now.readings }
    {
        self.readings.as_slice()
    }

    /// Its term.
    pub fn term(&self) -> &Checked
        ensures value { term_of result.now ≡ self.now.term }
        ensures resolved { IsResolved (term_of result.now) (invariant_names self.now) }
    {
        &self.term
    }

    /// What its term reads, if the names that it reads have these values.
    pub fn env<'a>(&'a self, values: &'a [Value]) -> Env<'a>
        requires { length values.now ≡ length self.now.readings }
        ensures value { result ≡ invariant_bindings self.now values.now }
        ensures names { names_of result ≡ invariant_names self.now }
    {
        Env::with_constants(
            NameLists::of_readings(self.readings.as_slice()),
            values,
            self.constants.as_slice(),
        )
    }
}
