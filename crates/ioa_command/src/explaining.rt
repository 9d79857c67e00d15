//! Texts and schedules that are explained.

ghost use Rattle.std.specs.Prelude.{◌≡◌, false};
ghost use Rattle.ioa_command.specs.Command.{ExplainsBeside, IsExplained, IsExplainedAlone, IsExplainedBy, output};
ghost use Rattle.ioa_command.specs.Command as spec;

use crate::choice::{ExplainChoice, InputName};
use crate::faults::TextFault;
use crate::inputs::{schedule_of, shown_name, text_of};
use ioa_explain::{ExplainFault, Finding, explain};
use ioa_pipeline::{ExplainLinesFault, LineFinding, explain_schedule};
use ioa_streams::Out;
use std::alloc::Global;
use std::io::Read;
use std::rt::Files;

/// Reads a text, and a schedule if one is named, and tells what is wrong with them.
#[tactic(auto, using(crate::proofs::Explained::explained_rules))]
pub(crate) fn explain_from<R: Files, I: Read, O: Out>(
    rt: &R,
    alloc: Global,
    choice: &ExplainChoice,
    reader: &mut I,
    out: &mut O,
) -> Result<Finding, TextFault>
    requires { O.failed out.old ≡ false }
    ensures { IsExplained choice.now (I.remaining reader.old)
        (output (O.bytes out.old) (O.bytes out.new) (O.failed out.new)) result }
{
    let text = text_of(rt, alloc, &choice.input, reader)?;
    let input = &choice.input;
    match &choice.schedule {
        None => explain_alone(alloc, input, text.as_str(), out),
        Some(schedule) => explain_apart(rt, alloc, input, text.as_str(), schedule, reader, out),
    }
}

/// Tells what is wrong with the text of an input.
#[tactic(auto, using(crate::proofs::Explained::alone_rules))]
fn explain_alone<O: Out>(
    alloc: Global,
    input: &InputName,
    text: &str,
    out: &mut O,
) -> Result<Finding, TextFault>
    requires { O.failed out.old ≡ false }
    ensures { IsExplainedAlone input.now text.now
        (output (O.bytes out.old) (O.bytes out.new) (O.failed out.new)) result }
{
    match explain(alloc, shown_name(input), text, out) {
        Ok(finding) => Ok(finding),
        Err(fault) => Err(TextFault::Explain(fault)),
    }
}

/// Reads a schedule, and tells what is wrong with it beside the text of an input.
#[tactic(auto, using(crate::proofs::Explained::beside_rules))]
fn explain_apart<R: Files, I: Read, O: Out>(
    rt: &R,
    alloc: Global,
    input: &InputName,
    text: &str,
    schedule: &InputName,
    reader: &mut I,
    out: &mut O,
) -> Result<Finding, TextFault>
    requires { O.failed out.old ≡ false }
    ensures { IsExplainedBy input.now schedule.now text.now (I.remaining reader.old)
        (output (O.bytes out.old) (O.bytes out.new) (O.failed out.new)) result }
{
    let lines = schedule_of(rt, alloc, schedule, reader)?;
    match explain_beside(alloc, input, schedule, text, lines.as_str(), out) {
        Ok(finding) => Ok(finding),
        Err(fault) => Err(TextFault::Explain(fault)),
    }
}

/// Tells what is wrong with a schedule, or with the text beside it if that has no system.
#[tactic(auto, using(crate::proofs::Explained::told_rules))]
fn explain_beside<O: Out>(
    alloc: Global,
    input: &InputName,
    schedule: &InputName,
    text: &str,
    lines: &str,
    out: &mut O,
) -> Result<Finding, ExplainFault>
    requires { O.failed out.old ≡ false }
    ensures { ExplainsBeside input.now schedule.now text.now lines.now
        (output (O.bytes out.old) (O.bytes out.new) (O.failed out.new)) result }
{
    match explain_schedule(alloc, text, shown_name(schedule), lines, out) {
        Ok(Some(finding)) => Ok(finding_of(finding)),
        Ok(None) => explain(alloc, shown_name(input), text, out),
        Err(ExplainLinesFault::Memory) => Err(ExplainFault::Memory),
        Err(ExplainLinesFault::Write) => Err(ExplainFault::Write),
    }
}

/// What is told of a schedule, as of a text.
fn finding_of(finding: LineFinding) -> Finding
    ensures { result ≡ spec.finding_of finding }
{
    match finding {
        LineFinding::NothingWrong => Finding::NothingWrong,
        LineFinding::Refused => Finding::Refused,
    }
}
