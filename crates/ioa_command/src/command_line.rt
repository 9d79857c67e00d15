//! The program as a function of its words and its streams.

ghost use Rattle.std.specs.Prelude.{◌≡◌, ◌⊎◌, false, not, codes, map, MatchResult, Result};
ghost use Rattle.std.specs.Io.KnownBytes.{Keeps};
ghost use Rattle.std.specs.String.{string_bytes};
ghost use Rattle.clap.specs.Values.{kind_of};
ghost use Rattle.ioa_streams.specs.Parts.{lines_part, text_part};
ghost use Rattle.ioa_streams.specs.ScheduleParts.{schedule_part};
ghost use Rattle.ioa_monitor.specs.declared.findings.Findings.{Findings};
ghost use Rattle.ioa_command.specs.declared.faults.TextFault.{TextFault};
ghost use Rattle.ioa_command.specs.Command.{Ends, EndsAs, Executes, Follows, IsChecked, IsCheckedBy, IsDone, Prints};
ghost use Rattle.ioa_command.specs.Command.{Tells};
ghost use Rattle.ioa_command.specs.Command.{IsFound, Shows, ShowsAsked, ShowsLine, ShowsWords, found_status};
ghost use Rattle.ioa_command.specs.Command.{no_finding, output};
ghost use Rattle.ioa_command.specs.Command.{ExplainsAs, IsExplained, IsTraced, explained_status, memory_line};
ghost use Rattle.ioa_command.specs.Command.{IsReplayed, ReplaysRefused};
ghost use Rattle.ioa_explain.specs.declared.explaining.Finding.{Finding};
ghost use Rattle.ioa_explain.specs.declared.explaining.Finding.TheVariants.{Refused};
ghost use Rattle.ioa_command.specs.Faults.{fault_line, fault_status};
ghost use Rattle.ioa_command.specs.CommandLine.{words_status};

use crate::choice::{
    CheckChoice, ExplainChoice, InputName, ReplayChoice, RunChoice, Subcommand, TraceChoice,
};
use crate::explaining::explain_from;
use crate::fail_on::meet;
use crate::faults::{FAILED, REFUSED, TextFault, fault_line, fault_status};
use crate::inputs::{schedule_of, text_of};
use crate::replaying::replay_from;
use crate::words::options;
use clap::Error;
use clap::error::ErrorKind;
use ioa_explain::Finding;
use ioa_pipeline::{Findings, Gate, Judging, judge_text, print_text, run_system, trace_text};
use ioa_streams::{Out, parts, put_all, schedule_part};
use std::alloc::{AllocError, Global};
use std::io::Read;
use std::rt::Files;
use std::sync::Wait;
use std::thread::Threads;

/// The status of a program that did what it was asked.
const DONE: u8 = 0;

/// The status if the command line was refused.
pub const BAD_WORDS: u8 = 2;

/// The status if there is what the words ask to be told.
const FOUND: u8 = 4;

/// The program (profile): `words` are those of the command line, its own name first, and choose what it does. `run`
/// reads a text, runs its system by workers in this runtime, and writes the report. `explain` reads a text and tells
/// what is wrong with it, or with a schedule that it reads too. `trace` reads a text, runs its system by one worker, and shows the run; or it reads a
/// schedule too, and shows its replay in place of a run, up to what is no step. `check` reads a text and a schedule,
/// and says whether the schedule is an execution, with the verdicts along it if the words ask for them. `print` reads a
/// text and writes it laid out anew. A text is read from the file that is named, else from `reader`. Returns the
/// status: 0 if all was done, or if the help or the version for which the words ask was shown; 1 if the text or the
/// schedule was refused; 2 if the words were refused; 3 if memory ran out, what several workers left could not be put
/// together, or reading or writing failed; and 4 if the report was written, the schedule is an execution, or the run or
/// the replay was shown whole, and has what `--fail-on` names. If it is 1, 2 or 3, `err` says why, but where `explain`
/// says it on `out`; a fault of `err` is ignored. If there is no memory for what it has to say, the status is 3 and a
/// line says so. The gate is called between the steps of `run`'s workers, so who watches the program sees how far it
/// has come.
pub fn command<'a, R: Files + Threads + Wait + Sync, G: Gate + Sync, I: Read, O: Out, E: Out>(
    rt: &R,
    alloc: Global,
    words: &'a [&'a str],
    gate: &G,
    reader: &mut I,
    out: &mut O,
    err: &mut E,
) -> u8
    // neither output has failed yet
    requires out { O.failed out.old ≡ false }
    requires err { E.failed err.old ≡ false }
    // what the status says of the output
    ensures done { result ≡ 0 → IsDone (map (λ w. w.now) words.entry.now) (I.remaining reader.old)
        (output (O.bytes out.old) (O.bytes out.new) (O.failed out.new)) }
    ensures found { result ≡ 4 → IsFound (map (λ w. w.now) words.entry.now) (I.remaining reader.old)
        (output (O.bytes out.old) (O.bytes out.new) (O.failed out.new)) }
    ensures refused { (result ≡ 1) ⊎ (result ≡ 2) → Keeps (O.bytes out.old) (O.bytes out.new)
        ⊎ (ExplainsAs Refused (map (λ w. w.now) words.entry.now) (I.remaining reader.old)
        (output (O.bytes out.old) (O.bytes out.new) (O.failed out.new))
        ⊎ ReplaysRefused (map (λ w. w.now) words.entry.now) (I.remaining reader.old)
        (output (O.bytes out.old) (O.bytes out.new) (O.failed out.new))) }
    // of which fault the status and what is shown are
    ensures ends { Ends (map (λ w. w.now) words.entry.now) (I.remaining reader.old)
        (output (O.bytes out.old) (O.bytes out.new) (O.failed out.new))
        (output (E.bytes err.old) (E.bytes err.new) (E.failed err.new)) result }
{
    execute_words(rt, alloc, words, gate, reader, out, err)
}

/// Does what the words choose, and tells of a fault.
fn execute_words<'a, R: Files + Threads + Wait + Sync, G: Gate + Sync, I: Read, O: Out, E: Out>(
    rt: &R,
    alloc: Global,
    words: &'a [&'a str],
    gate: &G,
    reader: &mut I,
    out: &mut O,
    err: &mut E,
) -> u8
    requires out { O.failed out.old ≡ false }
    requires err { E.failed err.old ≡ false }
    ensures { Ends (map (λ w. w.now) words.entry.now) (I.remaining reader.old)
        (output (O.bytes out.old) (O.bytes out.new) (O.failed out.new))
        (output (E.bytes err.old) (E.bytes err.new) (E.failed err.new)) result }
{
    match options(alloc, words) {
        Ok(subcommand) => obey(rt, alloc, &subcommand, gate, reader, out, err),
        Err(error) => show_words(alloc, &error, out, err),
    }
}

/// Does what a subcommand asks for, and tells of a fault.
fn obey<R: Files + Threads + Wait + Sync, G: Gate + Sync, I: Read, O: Out, E: Out>(
    rt: &R,
    alloc: Global,
    subcommand: &Subcommand,
    gate: &G,
    reader: &mut I,
    out: &mut O,
    err: &mut E,
) -> u8
    requires out { O.failed out.old ≡ false }
    requires err { E.failed err.old ≡ false }
    ensures { EndsAs subcommand.now (I.remaining reader.old)
        (output (O.bytes out.old) (O.bytes out.new) (O.failed out.new))
        (output (E.bytes err.old) (E.bytes err.new) (E.failed err.new)) result }
{
    match subcommand {
        Subcommand::Run(choice) => run_text(rt, alloc, choice, gate, reader, out, err),
        Subcommand::Explain(choice) => explain_inputs(rt, alloc, choice, reader, out, err),
        Subcommand::Trace(choice) => show_run(rt, alloc, choice, reader, out, err),
        Subcommand::Replay(choice) => show_replay(rt, alloc, choice, reader, out, err),
        Subcommand::Check(choice) => check_lines(rt, alloc, choice, reader, out, err),
        Subcommand::Print(input) => print_again(rt, alloc, input, reader, out, err),
    }
}

/// Runs a text, and tells of a fault or of what was found.
fn run_text<R: Files + Threads + Wait + Sync, G: Gate + Sync, I: Read, O: Out, E: Out>(
    rt: &R,
    alloc: Global,
    choice: &RunChoice,
    gate: &G,
    reader: &mut I,
    out: &mut O,
    err: &mut E,
) -> u8
    requires out { O.failed out.old ≡ false }
    requires err { E.failed err.old ≡ false }
    ensures { (outcome : Result Findings TextFault) × Executes choice.now (I.remaining reader.old)
        (output (O.bytes out.old) (O.bytes out.new) (O.failed out.new)) outcome
        × Tells (found_status choice.now.fail_on) (output (E.bytes err.old) (E.bytes err.new) (E.failed err.new))
        result outcome }
{
    let outcome = execute(rt, alloc, choice, gate, reader, out);
    match &outcome {
        Ok(found) => found_status(&choice.fail_on, found),
        Err(fault) => tell_fault(alloc, fault, err),
    }
}

/// The status of a report with these findings.
fn found_status(fail_on: &Findings, found: &Findings) -> u8
    ensures { result ≡ found_status fail_on.now found.now }
{
    if meet(fail_on, found) { FOUND } else { DONE }
}

/// Tells what is wrong with a text or a schedule, and of a fault.
fn explain_inputs<R: Files, I: Read, O: Out, E: Out>(
    rt: &R,
    alloc: Global,
    choice: &ExplainChoice,
    reader: &mut I,
    out: &mut O,
    err: &mut E,
) -> u8
    requires out { O.failed out.old ≡ false }
    requires err { E.failed err.old ≡ false }
    ensures { (outcome : Result Finding TextFault) × IsExplained choice.now (I.remaining reader.old)
        (output (O.bytes out.old) (O.bytes out.new) (O.failed out.new)) outcome
        × Tells explained_status (output (E.bytes err.old) (E.bytes err.new) (E.failed err.new)) result outcome }
{
    let outcome = explain_from(rt, alloc, choice, reader, out);
    match &outcome {
        Ok(finding) => explained_status(*finding),
        Err(fault) => tell_fault(alloc, fault, err),
    }
}

/// The status of what is told of a text or a schedule.
fn explained_status(finding: Finding) -> u8
    ensures { result ≡ explained_status finding }
{
    match finding {
        Finding::NothingWrong => DONE,
        Finding::Refused => REFUSED,
    }
}

/// Shows the run of a text, and tells of a fault or of what was found.
fn show_run<R: Files + Threads + Wait + Sync, I: Read, O: Out, E: Out>(
    rt: &R,
    alloc: Global,
    choice: &TraceChoice,
    reader: &mut I,
    out: &mut O,
    err: &mut E,
) -> u8
    requires out { O.failed out.old ≡ false }
    requires err { E.failed err.old ≡ false }
    ensures { (outcome : Result Findings TextFault) × IsTraced choice.now (I.remaining reader.old)
        (output (O.bytes out.old) (O.bytes out.new) (O.failed out.new)) outcome
        × Tells (found_status choice.now.fail_on) (output (E.bytes err.old) (E.bytes err.new) (E.failed err.new))
        result outcome }
{
    let outcome = trace_from(rt, alloc, choice, reader, out);
    match &outcome {
        Ok(found) => found_status(&choice.fail_on, found),
        Err(fault) => tell_fault(alloc, fault, err),
    }
}

/// Shows the replay of a schedule, and tells of a fault or of what was found.
fn show_replay<R: Files, I: Read, O: Out, E: Out>(
    rt: &R,
    alloc: Global,
    choice: &ReplayChoice,
    reader: &mut I,
    out: &mut O,
    err: &mut E,
) -> u8
    requires out { O.failed out.old ≡ false }
    requires err { E.failed err.old ≡ false }
    ensures { (outcome : Result Findings TextFault) × IsReplayed choice.now (I.remaining reader.old)
        (output (O.bytes out.old) (O.bytes out.new) (O.failed out.new)) outcome
        × Tells (found_status choice.now.fail_on) (output (E.bytes err.old) (E.bytes err.new) (E.failed err.new))
        result outcome }
{
    let outcome = replay_from(rt, alloc, choice, reader, out);
    match &outcome {
        Ok(found) => found_status(&choice.fail_on, found),
        Err(fault) => tell_fault(alloc, fault, err),
    }
}

/// Checks the lines of a schedule against a text, and tells of a fault or of what was found.
fn check_lines<R: Files, I: Read, O: Out, E: Out>(
    rt: &R,
    alloc: Global,
    choice: &CheckChoice,
    reader: &mut I,
    out: &mut O,
    err: &mut E,
) -> u8
    requires out { O.failed out.old ≡ false }
    requires err { E.failed err.old ≡ false }
    ensures { (outcome : Result Findings TextFault) × Follows choice.now (I.remaining reader.old)
        (output (O.bytes out.old) (O.bytes out.new) (O.failed out.new)) outcome
        × Tells (found_status choice.now.fail_on) (output (E.bytes err.old) (E.bytes err.new) (E.failed err.new))
        result outcome }
{
    let outcome = follow(rt, alloc, choice, reader, out);
    match &outcome {
        Ok(found) => found_status(&choice.fail_on, found),
        Err(fault) => tell_fault(alloc, fault, err),
    }
}

/// Lays a text out anew, and tells of a fault.
fn print_again<R: Files, I: Read, O: Out, E: Out>(
    rt: &R,
    alloc: Global,
    input: &InputName,
    reader: &mut I,
    out: &mut O,
    err: &mut E,
) -> u8
    requires out { O.failed out.old ≡ false }
    requires err { E.failed err.old ≡ false }
    ensures { (outcome : Result (Unit {0}) TextFault) × Prints input.now (I.remaining reader.old)
        (output (O.bytes out.old) (O.bytes out.new) (O.failed out.new)) outcome
        × Tells no_finding (output (E.bytes err.old) (E.bytes err.new) (E.failed err.new)) result outcome }
{
    let outcome = print_from(rt, alloc, input, reader, out);
    tell(alloc, &outcome, err)
}

/// The status of an outcome. Of a fault it shows a line.
fn tell<E: Out>(alloc: Global, outcome: &Result<(), TextFault>, err: &mut E) -> u8
    requires { E.failed err.old ≡ false }
    ensures { Tells no_finding (output (E.bytes err.old) (E.bytes err.new) (E.failed err.new)) result outcome.now }
{
    match outcome {
        Ok(()) => DONE,
        Err(fault) => tell_fault(alloc, fault, err),
    }
}

/// The status of a fault, of which it shows a line.
fn tell_fault<E: Out>(alloc: Global, fault: &TextFault, err: &mut E) -> u8
    requires { E.failed err.old ≡ false }
    ensures { ShowsLine (fault_line fault.now) (fault_status fault.now) result
        (output (E.bytes err.old) (E.bytes err.new) (E.failed err.new)) }
{
    show_line(fault_line(alloc, fault), fault_status(fault), err)
}

/// Reads a text, runs its system and writes the report.
#[tactic(auto, using(crate::proofs::Readings::run_rules))]
fn execute<R: Files + Threads + Wait + Sync, G: Gate + Sync, I: Read, O: Out>(
    rt: &R,
    alloc: Global,
    choice: &RunChoice,
    gate: &G,
    reader: &mut I,
    out: &mut O,
) -> Result<Findings, TextFault>
    requires { O.failed out.old ≡ false }
    ensures { Executes choice.now (I.remaining reader.old)
        (output (O.bytes out.old) (O.bytes out.new) (O.failed out.new)) result }
{
    let text = text_of(rt, alloc, &choice.input, reader)?;
    match run_system(rt, alloc, text.as_str(), &choice.options, gate, out) {
        Ok(found) => Ok(found),
        Err(fault) => Err(TextFault::Run(fault)),
    }
}

/// Reads a text and shows its run.
#[tactic(auto, using(crate::proofs::Readings::trace_rules))]
fn trace_from<R: Files + Threads + Wait + Sync, I: Read, O: Out>(
    rt: &R,
    alloc: Global,
    choice: &TraceChoice,
    reader: &mut I,
    out: &mut O,
) -> Result<Findings, TextFault>
    requires { O.failed out.old ≡ false }
    ensures { IsTraced choice.now (I.remaining reader.old)
        (output (O.bytes out.old) (O.bytes out.new) (O.failed out.new)) result }
{
    let text = text_of(rt, alloc, &choice.input, reader)?;
    let format = choice.format;
    match trace_text(rt, alloc, text.as_str(), &choice.options, format, out) {
        Ok(found) => Ok(found),
        Err(fault) => Err(TextFault::Trace(fault)),
    }
}

/// Reads a text and a schedule, and says whether the schedule is an execution of the text's system.
#[tactic(auto, using(crate::proofs::Readings::follow_rules))]
fn follow<R: Files, I: Read, O: Out>(
    rt: &R,
    alloc: Global,
    choice: &CheckChoice,
    reader: &mut I,
    out: &mut O,
) -> Result<Findings, TextFault>
    requires { O.failed out.old ≡ false }
    ensures { Follows choice.now (I.remaining reader.old)
        (output (O.bytes out.old) (O.bytes out.new) (O.failed out.new)) result }
{
    let input = text_of(rt, alloc, &choice.input, reader)?;
    match &choice.schedule {
        None => follow_parts(alloc, input.as_str(), choice.judging, out),
        Some(schedule) => {
            let judging = choice.judging;
            follow_apart(rt, alloc, input.as_str(), schedule, judging, reader, out)
        }
    }
}

/// Says whether the schedule behind a text is an execution of the text's system.
fn follow_parts<O: Out>(
    alloc: Global,
    input: &str,
    judging: Judging,
    out: &mut O,
) -> Result<Findings, TextFault>
    requires { O.failed out.old ≡ false }
    ensures { IsChecked judging (text_part input.now) (lines_part input.now)
        (output (O.bytes out.old) (O.bytes out.new) (O.failed out.new)) result }
{
    let (text, lines) = parts(input);
    judge_lines(alloc, text, lines, judging, out)
}

/// Says whether lines are an execution of a text's system.
#[tactic(auto, using(crate::proofs::Readings::judged_rules))]
fn judge_lines<O: Out>(
    alloc: Global,
    text: &str,
    lines: &str,
    judging: Judging,
    out: &mut O,
) -> Result<Findings, TextFault>
    requires { O.failed out.old ≡ false }
    ensures { IsChecked judging text.now lines.now
        (output (O.bytes out.old) (O.bytes out.new) (O.failed out.new)) result }
{
    match judge_text(alloc, text, lines, judging, out) {
        Ok(found) => Ok(found),
        Err(fault) => Err(TextFault::Check(fault)),
    }
}

/// Reads a schedule, and says whether it is an execution of a text's system.
#[tactic(auto, using(crate::proofs::Readings::apart_rules))]
fn follow_apart<R: Files, I: Read, O: Out>(
    rt: &R,
    alloc: Global,
    text: &str,
    schedule: &InputName,
    judging: Judging,
    reader: &mut I,
    out: &mut O,
) -> Result<Findings, TextFault>
    requires { O.failed out.old ≡ false }
    ensures { IsCheckedBy judging text.now schedule.now (I.remaining reader.old)
        (output (O.bytes out.old) (O.bytes out.new) (O.failed out.new)) result }
{
    let lines = schedule_of(rt, alloc, schedule, reader)?;
    judge_part(alloc, text, lines.as_str(), judging, out)
}

/// Says whether the lines that a schedule has in an input are an execution of a text's system.
fn judge_part<O: Out>(
    alloc: Global,
    text: &str,
    input: &str,
    judging: Judging,
    out: &mut O,
) -> Result<Findings, TextFault>
    requires { O.failed out.old ≡ false }
    ensures { IsChecked judging text.now (schedule_part input.now)
        (output (O.bytes out.old) (O.bytes out.new) (O.failed out.new)) result }
{
    let lines = schedule_part(input);
    judge_lines(alloc, text, lines, judging, out)
}

/// Reads a text and writes it laid out anew.
#[tactic(auto, using(crate::proofs::Readings::prints_unread))]
fn print_from<R: Files, I: Read, O: Out>(
    rt: &R,
    alloc: Global,
    input: &InputName,
    reader: &mut I,
    out: &mut O,
) -> Result<(), TextFault>
    requires { O.failed out.old ≡ false }
    ensures { Prints input.now (I.remaining reader.old)
        (output (O.bytes out.old) (O.bytes out.new) (O.failed out.new)) result }
{
    let text = text_of(rt, alloc, input, reader)?;
    print_text(alloc, text.as_str(), out).map_err(TextFault::Print)
}

/// The status if the words ask for a text or are refused.
fn words_status(error: &Error) -> u8
    ensures { result ≡ words_status (kind_of error.now) }
{
    match error.kind() {
        ErrorKind::DisplayHelp | ErrorKind::DisplayVersion => DONE,
        ErrorKind::OutOfMemory => FAILED,
        _ => BAD_WORDS,
    }
}

/// Shows a line, and returns its status. If there was no memory for the line, another line says so, and the status is
/// that of `Memory` (3).
fn show_line<E: Out>(line: Result<String, AllocError>, status: u8, err: &mut E) -> u8
    requires { E.failed err.old ≡ false }
    ensures { MatchResult line
        (λ s. (result ≡ status)
        × Shows (string_bytes s) (output (E.bytes err.old) (E.bytes err.new) (E.failed err.new)))
        (λ _. (result ≡ 3) × Shows memory_line (output (E.bytes err.old) (E.bytes err.new) (E.failed err.new))) }
{
    match line {
        Ok(line) => {
            show(line.as_str(), err);
            status
        }
        Err(_) => {
            show("refused 3 Memory\n", err);
            FAILED
        }
    }
}

/// Shows the text of an error of the words, and returns the status: a text that was asked for goes to `out`, and any
/// other to `err`.
fn show_words<O: Out, E: Out>(alloc: Global, error: &Error, out: &mut O, err: &mut E) -> u8
    requires out { O.failed out.old ≡ false }
    requires err { E.failed err.old ≡ false }
    ensures { ShowsWords (kind_of error.now) result
        (output (O.bytes out.old) (O.bytes out.new) (O.failed out.new))
        (output (E.bytes err.old) (E.bytes err.new) (E.failed err.new)) }
{
    let status = words_status(error);
    match format!(in alloc; "{error}") {
        Ok(text) if status == DONE => show_asked(text.as_str(), out, err),
        text => show_line(text, status, err),
    }
}

/// Shows a text that was asked for, and returns the status; if the output fails, a line says so.
fn show_asked<O: Out, E: Out>(text: &str, out: &mut O, err: &mut E) -> u8
    requires out { O.failed out.old ≡ false }
    requires err { E.failed err.old ≡ false }
    ensures { ShowsAsked result
        (output (O.bytes out.old) (O.bytes out.new) (O.failed out.new))
        (output (E.bytes err.old) (E.bytes err.new) (E.failed err.new)) }
{
    if show(text, out) {
        DONE
    } else {
        show("failed 71 Write\n", err);
        FAILED
    }
}

/// Puts out a text, and returns whether all of it went out.
fn show<O: Out>(text: &str, out: &mut O) -> bool
    requires { O.failed out.old ≡ false }
    ensures shown { Shows text.now (output (O.bytes out.old) (O.bytes out.new) (O.failed out.new)) }
    ensures failed { O.failed out.new ≡ not result }
{
    put_all(out, text.as_bytes()).is_ok()
}
