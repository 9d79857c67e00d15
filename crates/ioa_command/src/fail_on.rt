//! Findings by their names.

ghost use Rattle.std.specs.Prelude.{◌≡◌, Some, None};
ghost use Rattle.ioa_command.specs.FailOn as spec;
ghost use Rattle.ioa_command.specs.FailOn.{words_between};

use ioa_pipeline::Findings;

/// The findings that one or several names with commas between have; nothing if one is none of the three names.
pub(crate) fn findings_named(names: &str) -> Option<Findings>
    ensures { result ≡ spec.findings_named names.now }
{
    findings_among(names, no_findings())
}

/// No finding.
pub(crate) fn no_findings() -> Findings
    ensures { result ≡ spec.no_findings }
{
    Findings {
        fault: false,
        spent: false,
        invariant: false,
    }
}

/// The same, beside those of names that came before.
fn findings_among(names: &str, before: Findings) -> Option<Findings>
    ensures { result ≡ spec.findings_of_all (words_between names.now) before }
{
    match names.split_once(',') {
        None => with_finding(names, before),
        Some((name, more)) => findings_among(more, with_finding(name, before)?),
    }
}

/// These findings, and that of a name; nothing if it is no name of one.
fn with_finding(name: &str, before: Findings) -> Option<Findings>
    ensures { result ≡ spec.with_finding name.now before }
{
    if name == "fault" {
        Some(Findings {
            fault: true,
            ..before
        })
    } else if name == "spent" {
        Some(Findings {
            spent: true,
            ..before
        })
    } else if name == "invariant" {
        Some(Findings {
            invariant: true,
            ..before
        })
    } else {
        None
    }
}

/// Whether a finding is among those at which the status tells.
pub(crate) fn meet(fail_on: &Findings, found: &Findings) -> bool
    ensures { result ≡ spec.meet fail_on.now found.now }
{
    (fail_on.fault && found.fault)
        || (fail_on.spent && found.spent)
        || (fail_on.invariant && found.invariant)
}
