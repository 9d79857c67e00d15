//! What a run has that its reader may not want.

ghost use Rattle.std.specs.Prelude.{◌≡◌};
ghost use Rattle.std.specs.List.{list_any};
ghost use Rattle.ioa_monitor.specs.Findings as spec;

use ioa_record::Ending;
use ioa_verdicts::Verdict;

/// What a report has that its reader may not want, so that a script need not read it to find out.
#[derive(Clone, Copy, Debug, PartialEq, Eq)]
pub struct Findings {
    /// Whether a node ended with a fault.
    pub fault: bool,
    /// Whether a node ended since no attempt was left.
    pub spent: bool,
    /// Whether an invariant is not true in some state of the schedule.
    pub invariant: bool,
}

/// What these endings and these verdicts come to. A schedule that is given has no endings.
pub fn findings_of(endings: &[Ending], verdicts: &[Verdict]) -> Findings
    ensures { result ≡ spec.findings_of endings.now verdicts.now }
{
    Findings {
        fault: has_fault(endings),
        spent: has_spent(endings),
        invariant: has_failed(verdicts),
    }
}

/// Whether some node ended with a fault.
fn has_fault(endings: &[Ending]) -> bool
    ensures { result ≡ list_any spec.is_fault endings.now }
{
    endings.iter().any(|ending| is_fault(ending))
}

/// Whether some node ended since no attempt was left.
fn has_spent(endings: &[Ending]) -> bool
    ensures { result ≡ list_any spec.is_spent endings.now }
{
    endings.iter().any(|ending| is_spent(ending))
}

/// Whether some invariant is not true in some state.
fn has_failed(verdicts: &[Verdict]) -> bool
    ensures { result ≡ list_any spec.fails verdicts.now }
{
    verdicts.iter().any(|verdict| fails(verdict))
}

/// Whether a node ended with a fault.
fn is_fault(ending: &Ending) -> bool
    ensures { result ≡ spec.is_fault ending.now }
{
    match ending {
        Ending::Fault(_) => true,
        Ending::Done | Ending::Spent => false,
    }
}

/// Whether a node ended since no attempt was left.
fn is_spent(ending: &Ending) -> bool
    ensures { result ≡ spec.is_spent ending.now }
{
    match ending {
        Ending::Spent => true,
        Ending::Done | Ending::Fault(_) => false,
    }
}

/// Whether an invariant is not true in some state.
fn fails(verdict: &Verdict) -> bool
    ensures { result ≡ spec.fails verdict.now }
{
    match verdict {
        Verdict::Holds => false,
        Verdict::Fails(_) | Verdict::Undefined(_) | Verdict::Range(_) => true,
    }
}
