//! Why the program did not do what it was asked, as a status and as a line.

ghost use Rattle.std.specs.Prelude.{◌≡◌, ◌++◌, codes, IfOk};
ghost use Rattle.std.specs.String.{string_bytes};
ghost use Rattle.ioa_command.specs.Faults as spec;

use ioa_explain::ExplainFault;
use ioa_pipeline::{CheckScheduleFault, PrintFault, ReplayFault, RunFault, TraceFault};
use ioa_streams::InputFault;
use std::alloc::{AllocError, Global};

/// The status if the text was refused.
pub(crate) const REFUSED: u8 = 1;

/// The status if memory, finishing, reading or writing failed.
pub const FAILED: u8 = 3;

/// Why the program did not do what it was asked with a text.
#[derive(Debug, Drop)]
pub(crate) enum TextFault {
    /// An input gives no text.
    Input(InputFault),
    /// The file of this name can't be read.
    Unread(String),
    /// The text gave no report.
    Run(RunFault),
    /// It was not told what is wrong with the text.
    Explain(ExplainFault),
    /// The run of the text was not shown.
    Trace(TraceFault),
    /// The schedule was not shown to its end.
    Replay(ReplayFault),
    /// The schedule is not said to be an execution.
    Check(CheckScheduleFault),
    /// The text was not laid out anew.
    Print(PrintFault),
}

/// The status of a fault.
pub(crate) fn fault_status(fault: &TextFault) -> u8
    ensures { result ≡ spec.fault_status fault.now }
{
    match fault {
        TextFault::Input(fault) => input_status(fault),
        TextFault::Unread(_) => FAILED,
        TextFault::Run(fault) => run_status(fault),
        TextFault::Explain(_) => FAILED,
        TextFault::Trace(fault) => trace_status(fault),
        TextFault::Replay(fault) => replay_status(fault),
        TextFault::Check(fault) => check_status(fault),
        TextFault::Print(fault) => print_status(fault),
    }
}

/// The status if an input gives no text.
fn input_status(fault: &InputFault) -> u8
    ensures { result ≡ spec.input_status fault.now }
{
    match fault {
        InputFault::TooLong(_) | InputFault::BadCharacter(_) => REFUSED,
        InputFault::Read | InputFault::Memory => FAILED,
    }
}

/// The status if the text gave no report.
fn run_status(fault: &RunFault) -> u8
    ensures { result ≡ spec.run_status fault.now }
{
    match fault {
        RunFault::Front(_) | RunFault::Check(_) => REFUSED,
        RunFault::Finish(_) | RunFault::Memory | RunFault::Write => FAILED,
    }
}

/// The status if the run of the text was not shown.
fn trace_status(fault: &TraceFault) -> u8
    ensures { result ≡ spec.trace_status fault.now }
{
    match fault {
        TraceFault::Run(fault) => run_status(fault),
        TraceFault::Differs => FAILED,
    }
}

/// The status if the schedule was not shown to its end.
fn replay_status(fault: &ReplayFault) -> u8
    ensures { result ≡ spec.replay_status fault.now }
{
    match fault {
        ReplayFault::Check(fault) => check_status(fault),
        ReplayFault::NoStep(_, _) => REFUSED,
        ReplayFault::Differs => FAILED,
    }
}

/// The status if the schedule is not said to be an execution.
fn check_status(fault: &CheckScheduleFault) -> u8
    ensures { result ≡ spec.check_status fault.now }
{
    match fault {
        CheckScheduleFault::Front(_)
        | CheckScheduleFault::Check(_)
        | CheckScheduleFault::Schedule(_) => REFUSED,
        CheckScheduleFault::Memory | CheckScheduleFault::Write => FAILED,
    }
}

/// The status if the text was not laid out anew.
fn print_status(fault: &PrintFault) -> u8
    ensures { result ≡ spec.print_status fault.now }
{
    match fault {
        PrintFault::Front(_) => REFUSED,
        PrintFault::Memory | PrintFault::Write => FAILED,
    }
}

/// The line of a fault.
pub(crate) fn fault_line(alloc: Global, fault: &TextFault) -> Result<String, AllocError>
    ensures { IfOk result (λ s. string_bytes s ≡ spec.fault_line fault.now ++ codes "\n") }
{
    match fault {
        TextFault::Input(fault) => input_line(alloc, fault),
        TextFault::Unread(name) => unread_line(alloc, name),
        TextFault::Run(fault) => run_line(alloc, fault),
        TextFault::Explain(fault) => explain_line(alloc, fault),
        TextFault::Trace(fault) => trace_line(alloc, fault),
        TextFault::Replay(fault) => replay_line(alloc, fault),
        TextFault::Check(fault) => check_line(alloc, fault),
        TextFault::Print(fault) => print_line(alloc, fault),
    }
}

/// The line of an input that gives no text.
fn input_line(alloc: Global, fault: &InputFault) -> Result<String, AllocError>
    ensures { IfOk result (λ s. string_bytes s ≡ spec.input_line fault.now ++ codes "\n") }
{
    match fault {
        InputFault::Read => format!(in alloc; "failed {fault}\n"),
        InputFault::TooLong(_) | InputFault::BadCharacter(_) | InputFault::Memory => {
            format!(in alloc; "refused {fault}\n")
        }
    }
}

/// The line of a file that can't be read.
fn unread_line(alloc: Global, name: &String) -> Result<String, AllocError>
    ensures { IfOk result (λ s. string_bytes s ≡ spec.unread_line (string_bytes name.now) ++ codes "\n") }
{
    format!(in alloc; "failed 70 Read {name}\n")
}

/// The line of a text that gave no report.
fn run_line(alloc: Global, fault: &RunFault) -> Result<String, AllocError>
    ensures { IfOk result (λ s. string_bytes s ≡ spec.run_line fault.now ++ codes "\n") }
{
    match fault {
        RunFault::Front(_) | RunFault::Check(_) | RunFault::Finish(_) | RunFault::Memory => {
            format!(in alloc; "refused {fault}\n")
        }
        RunFault::Write => format!(in alloc; "failed {fault}\n"),
    }
}

/// The line if it was not told what is wrong with a text.
fn explain_line(alloc: Global, fault: &ExplainFault) -> Result<String, AllocError>
    ensures { IfOk result (λ s. string_bytes s ≡ spec.explain_line fault.now ++ codes "\n") }
{
    match fault {
        ExplainFault::Memory => format!(in alloc; "refused {fault}\n"),
        ExplainFault::Write => format!(in alloc; "failed {fault}\n"),
    }
}

/// The line of a run that was not shown.
fn trace_line(alloc: Global, fault: &TraceFault) -> Result<String, AllocError>
    ensures { IfOk result (λ s. string_bytes s ≡ spec.trace_line fault.now ++ codes "\n") }
{
    match fault {
        TraceFault::Run(fault) => run_line(alloc, fault),
        TraceFault::Differs => format!(in alloc; "refused 51 Differs\n"),
    }
}

/// The line of a schedule that was not shown to its end.
fn replay_line(alloc: Global, fault: &ReplayFault) -> Result<String, AllocError>
    ensures { IfOk result (λ s. string_bytes s ≡ spec.replay_line fault.now ++ codes "\n") }
{
    match fault {
        ReplayFault::Check(fault) => check_line(alloc, fault),
        ReplayFault::NoStep(_, _) | ReplayFault::Differs => {
            format!(in alloc; "refused {fault}\n")
        }
    }
}

/// The line of a schedule that is not said to be an execution.
fn check_line(alloc: Global, fault: &CheckScheduleFault) -> Result<String, AllocError>
    ensures { IfOk result (λ s. string_bytes s ≡ spec.check_line fault.now ++ codes "\n") }
{
    match fault {
        CheckScheduleFault::Front(_)
        | CheckScheduleFault::Check(_)
        | CheckScheduleFault::Schedule(_)
        | CheckScheduleFault::Memory => format!(in alloc; "refused {fault}\n"),
        CheckScheduleFault::Write => format!(in alloc; "failed {fault}\n"),
    }
}

/// The line of a text that was not laid out anew.
fn print_line(alloc: Global, fault: &PrintFault) -> Result<String, AllocError>
    ensures { IfOk result (λ s. string_bytes s ≡ spec.print_line fault.now ++ codes "\n") }
{
    match fault {
        PrintFault::Front(_) | PrintFault::Memory => format!(in alloc; "refused {fault}\n"),
        PrintFault::Write => format!(in alloc; "failed {fault}\n"),
    }
}
