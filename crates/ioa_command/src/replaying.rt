//! Schedules that are replayed and shown.

ghost use Rattle.std.specs.Prelude.{◌≡◌, false};
ghost use Rattle.ioa_streams.specs.ScheduleParts.{schedule_part};
ghost use Rattle.ioa_command.specs.Command.{IsReplayed, IsReplayedBy, ReplaysIn, output};

use crate::choice::{InputName, ReplayChoice};
use crate::faults::TextFault;
use crate::inputs::{schedule_of, text_of};
use ioa_pipeline::{Findings, Format, ReplayFault, trace_schedule};
use ioa_streams::{Out, schedule_part};
use std::alloc::Global;
use std::io::Read;
use std::rt::Files;

/// Reads a text and a schedule, and shows the replay of the schedule.
#[tactic(auto, using(crate::proofs::Replays::replayed_rules))]
pub(crate) fn replay_from<R: Files, I: Read, O: Out>(
    rt: &R,
    alloc: Global,
    choice: &ReplayChoice,
    reader: &mut I,
    out: &mut O,
) -> Result<Findings, TextFault>
    requires { O.failed out.old ≡ false }
    ensures { IsReplayed choice.now (I.remaining reader.old)
        (output (O.bytes out.old) (O.bytes out.new) (O.failed out.new)) result }
{
    let text = text_of(rt, alloc, &choice.input, reader)?;
    let format = choice.format;
    replay_apart(
        rt,
        alloc,
        text.as_str(),
        &choice.schedule,
        format,
        reader,
        out,
    )
}

/// Reads a schedule, and shows its replay in a text's system.
#[tactic(auto, using(crate::proofs::Replays::apart_rules))]
fn replay_apart<R: Files, I: Read, O: Out>(
    rt: &R,
    alloc: Global,
    text: &str,
    schedule: &InputName,
    format: Format,
    reader: &mut I,
    out: &mut O,
) -> Result<Findings, TextFault>
    requires { O.failed out.old ≡ false }
    ensures { IsReplayedBy format text.now schedule.now (I.remaining reader.old)
        (output (O.bytes out.old) (O.bytes out.new) (O.failed out.new)) result }
{
    let lines = schedule_of(rt, alloc, schedule, reader)?;
    match replay_part(alloc, text, lines.as_str(), format, out) {
        Ok(found) => Ok(found),
        Err(fault) => Err(TextFault::Replay(fault)),
    }
}

/// Shows the replay of the lines that a schedule has in an input.
fn replay_part<O: Out>(
    alloc: Global,
    text: &str,
    input: &str,
    format: Format,
    out: &mut O,
) -> Result<Findings, ReplayFault>
    requires { O.failed out.old ≡ false }
    ensures { ReplaysIn format text.now (schedule_part input.now)
        (output (O.bytes out.old) (O.bytes out.new) (O.failed out.new)) result }
{
    let lines = schedule_part(input);
    replay_lines(alloc, text, lines, format, out)
}

/// Shows the replay of lines in a text's system.
fn replay_lines<O: Out>(
    alloc: Global,
    text: &str,
    lines: &str,
    format: Format,
    out: &mut O,
) -> Result<Findings, ReplayFault>
    requires { O.failed out.old ≡ false }
    ensures { ReplaysIn format text.now lines.now
        (output (O.bytes out.old) (O.bytes out.new) (O.failed out.new)) result }
{
    trace_schedule(alloc, text, lines, format, out)
}
