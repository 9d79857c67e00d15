//! Schedules that are explained to people, beside a text.

ghost use Rattle.std.specs.Prelude.{◌≡◌, false};
ghost use Rattle.ioa_pipeline.specs.Explaining.{ExplainsSchedule};

use crate::schedule_check::{CheckScheduleFault, system_to_check};
use ioa_explain_schedule::{ExplainLinesFault, LineFinding, explain_lines};
use ioa_streams::Out;
use std::alloc::Global;

/// Tells people what is wrong with the schedule that stands in an input, under a name, as one of the system that a text
/// describes; or `nothing wrong` exactly if [`check_text`](crate::check_text) says `execution` of it. Returns which of
/// the two it said. Returns nothing if the text has no system: then nothing was said of the schedule. `Memory` (3) if
/// memory ran out, before anything is said, and `Write` (71) if the output failed.
#[tactic(auto, using(crate::proofs::ExplainedSchedules::told_rules))]
pub fn explain_schedule<O: Out>(
    alloc: Global,
    text: &str,
    name: &str,
    schedule: &str,
    out: &mut O,
) -> Result<Option<LineFinding>, ExplainLinesFault>
    requires { O.failed out.old ≡ false }
    ensures { ExplainsSchedule text.now name.now schedule.now
        (O.bytes out.old) (O.bytes out.new) (O.failed out.new) result }
{
    match system_to_check(alloc, text) {
        Ok(system) => match explain_lines(alloc, &system, name, schedule, out) {
            Ok(finding) => Ok(Some(finding)),
            Err(fault) => Err(fault),
        },
        Err(CheckScheduleFault::Memory) => Err(ExplainLinesFault::Memory),
        Err(
            CheckScheduleFault::Front(_)
            | CheckScheduleFault::Check(_)
            | CheckScheduleFault::Schedule(_)
            | CheckScheduleFault::Write,
        ) => Ok(None),
    }
}
