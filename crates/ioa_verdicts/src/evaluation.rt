//! What an invariant is in one state.

ghost use Rattle.std.specs.Prelude.{◌≡◌, true, IfOk, length};
ghost use Rattle.ioa_values.specs.Outcome.{Answers};
ghost use Rattle.ioa_terms.specs.Meaning.{answer};
ghost use Rattle.ioa_system.specs.Invariants.{invariant_bindings};
ghost use Rattle.ioa_verdicts.specs.Places.{places_of};
ghost use Rattle.ioa_verdicts.specs.Verdicts.{answer_in, is_true, verdict_at};

use crate::places::Place;
use crate::readings::read_all;
use crate::verdict::Verdict;
use ioa_compose::Conf;
use ioa_system::CheckedInvariant;
use ioa_terms::{TermFault, Value, eval};
use std::alloc::{AllocError, Global};

/// The verdict on an invariant in the state behind so many entries. `values` is room for what it reads.
#[tactic(auto, using(crate::proofs::Placed::read_rules), unfolding(crate::specs::Verdicts::answer_in))]
pub fn verdict_after(
    alloc: Global,
    confs: &[Conf],
    invariant: &CheckedInvariant,
    places: &[Place],
    passed: usize,
    values: &mut Vec<Value>,
) -> Result<Verdict, AllocError>
    requires { places.now ≡ places_of invariant.now confs.now }
    ensures { IfOk result (λ w. w ≡ verdict_at passed (answer_in invariant.now confs.now)) }
{
    if read_all(confs, places, values)? {
        evaluated(alloc, invariant, passed, values.as_slice())
    } else {
        Ok(Verdict::Undefined(passed))
    }
}

/// The verdict on an invariant whose readings have these values.
fn evaluated(
    alloc: Global,
    invariant: &CheckedInvariant,
    passed: usize,
    values: &[Value],
) -> Result<Verdict, AllocError>
    requires { length values.now ≡ length invariant.now.readings }
    ensures { IfOk result
        (λ w. w ≡ verdict_at passed (answer invariant.now.term (invariant_bindings invariant.now values.now))) }
{
    match eval(alloc, invariant.term(), &invariant.env(values)) {
        Ok(value) => Ok(verdict_of(&value, passed)),
        Err(TermFault::Undefined) => Ok(Verdict::Undefined(passed)),
        Err(TermFault::Range) => Ok(Verdict::Range(passed)),
        Err(TermFault::Memory) => Err(AllocError),
    }
}

/// The verdict on an invariant that has this value.
fn verdict_of(value: &Value, passed: usize) -> Verdict
    ensures { result ≡ verdict_at passed (Ok value.now) }
{
    match value.as_truth() {
        Some(true) => Verdict::Holds,
        Some(false) | None => Verdict::Fails(passed),
    }
}
