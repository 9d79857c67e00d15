//! What is said of a schedule, with the verdicts on the invariants along it.

ghost use Rattle.std.specs.Prelude.{◌≡◌, ◌++◌, false, if◌then◌else◌, IfOk};
ghost use Rattle.ioa_paper.specs.Outcomes.{PutsOut};
ghost use Rattle.ioa_paper.specs.Papers.{and_text};
ghost use Rattle.ioa_monitor.specs.Judged.{judged_text, schedule_findings};
ghost use Rattle.ioa_monitor.specs.Reports.{invariant_lines};

use crate::findings::{Findings, findings_of};
use crate::invariants::put_verdicts;
use ioa_paper::{Paper, ReportFault, room};
use ioa_rawlog::RawLog;
use ioa_streams::{Out, OutFailed};
use ioa_system::System;
use ioa_transitions::Entry;
use ioa_verdicts::{Verdict, verdicts};
use std::alloc::Global;

/// Puts out a text, and behind it, if so asked, the verdicts on the invariants of a system along a schedule, as the
/// report of a run has them (profile). Returns what they come to, also if they are not told. All memory is asked for
/// before anything goes out.
pub fn judge<O: Out>(
    alloc: Global,
    system: &System,
    schedule: &RawLog<Entry>,
    head: &str,
    is_told: bool,
    out: &mut O,
) -> Result<Findings, ReportFault>
    requires { O.failed out.old ≡ false }
    ensures written { PutsOut (judged_text head.now is_told system.now schedule.now)
        (O.bytes out.old) (O.bytes out.new) (O.failed out.new) result }
    ensures found { IfOk result (λ f. f ≡ schedule_findings system.now schedule.now) }
{
    let verdicts = verdicts(alloc, system, schedule)?;
    let room = room(alloc)?;
    let mut paper = Paper::new(out, room);
    put_judged(&mut paper, system, head, is_told, &verdicts);
    let (out, outcome) = paper.finish();
    // No effect at run time. The proof reads what `out` holds from the reference that comes back.
    let _ = &*out;
    match outcome {
        Ok(()) => Ok(findings_of(&[], &verdicts)),
        Err(OutFailed) => Err(ReportFault::Write),
    }
}

/// Writes a text, and behind it, if so asked, these verdicts.
fn put_judged<O: Out>(
    paper: &mut Paper<'_, O>,
    system: &System,
    head: &str,
    is_told: bool,
    verdicts: &[Verdict],
)
    ensures { paper.new ≡ and_text paper.old
        (if is_told then head.now ++ invariant_lines system.now.invariants verdicts.now else head.now) }
{
    paper.put(head);
    if is_told {
        put_verdicts(paper, system.invariants(), verdicts);
    }
}
