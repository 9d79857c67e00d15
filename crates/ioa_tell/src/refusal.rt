//! Why an entry of a schedule that is given is no step, and who is told of it.

use crate::fault::TellFault;
use crate::tells::Tells;
use ioa_actions::StepFault;
use ioa_reasons::{Fault, OtherConst, Place, Reason};
use ioa_terms::{Value, Word};
use ioa_transitions::Entry;
use std::alloc::Global;

/// Why an entry of a schedule that is given is no step (profile).
#[derive(Clone, Copy)]
pub enum Refusal<'a> {
    /// Its action is not enabled, for this reason.
    Missed(Reason<'a>),
    /// Its step meets a fault at a part of a term, which is written here.
    Faulted(Place<'a>, Fault<'a>),
    /// This argument is not of the sort of the parameter of this name.
    Unfit(&'a Word, &'a Value),
    /// Its node has no such action: this argument is another value than the `const` of its parameter.
    OtherConst(&'a OtherConst),
    /// Its step has this fault, of which no more is told.
    Plain(StepFault),
}

/// Who is told of a schedule that is given, and of the entry that is no step. A contract sees what a refused entry
/// makes of it.
pub trait TellsRefusal: Tells {
    ghost use Rattle.std.specs.Prelude.{ℕ, OnOk};
    ghost use Rattle.ioa_transitions.specs.Entries.{PlainEntry};
    ghost use Rattle.ioa_tell.specs.Refusals.{PlainRefusal, refusal_of};

    /// What it is after a refused entry, by what it was before.
    ghost refuses: { ℕ → PlainEntry → PlainRefusal → Self → Self → Type 0 };

    /// Takes the entry that is no step, behind so many that are. An error ends the telling.
    fn refused(
        &mut self,
        alloc: Global,
        number: usize,
        entry: &Entry,
        refusal: Refusal<'_>,
    ) -> Result<(), TellFault>
        ensures { OnOk result (refuses number entry.now (refusal_of refusal.entry) self.old self.new) };
}
