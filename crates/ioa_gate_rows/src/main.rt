//! The program of rows with gates: it runs a system text by workers, of which a gate holds two where the words say, and
//! writes the report and whether the gate gave up.
//!
//! **A crate of its own**, since a gate that holds anybody is for rows alone: in `ioarun` there is none.
//!
//! **Must not know**: how workers run, and what a report has.
#![tactic(auto)]

ghost use Rattle.std.specs.Prelude.{◌≡◌, false};

mod fault;
mod row;

use fault::RowFault;
use ioa_pipeline::run_system;
use ioa_streams::{Out, Over, put_all, read_input};
use ioa_workers::HoldGate;
use row::{Row, row_of};
use std::env;
use std::process::ExitCode;
use std::rt::{Clock, Env};
use std::sync::Wait;
use std::thread::Threads;

fn main(rt: HostRuntime) -> ExitCode {
    let mut out = Over::new(rt.stdout());
    match play(&rt, &mut out) {
        Ok(()) => ExitCode::SUCCESS,
        Err(fault) => {
            let status = fault.status();
            let _told = rt.eprintln(fault);
            ExitCode::from(status)
        }
    }
}

/// Runs the text on standard input as the words of the command line say.
fn play<R, O>(rt: &R, out: &mut O) -> Result<(), RowFault>
where
    R: AllocGlobal + Clock + Env + Input + Threads + Wait + Sync,
    O: Out,
    requires { O.failed out.old ≡ false }
{
    let row = row_of_words(rt)?;
    let text = read_input(rt.alloc(), &mut rt.reader())?;
    run_row(rt, &row, text.as_str(), out)
}

/// What the words of the command line say.
fn row_of_words<R: AllocGlobal + Env>(rt: &R) -> Result<Row, RowFault> {
    let alloc = rt.alloc();
    let owned: Vec<String> = env::args(rt)?.collect(alloc)?;
    let words: Vec<&str> = owned.iter().map(|word| word.as_str()).collect(alloc)?;
    row_of(&words).ok_or(RowFault::Words)
}

/// Runs a text by the workers of a row, and writes the report and whether the gate gave up.
fn run_row<R, O>(rt: &R, row: &Row, text: &str, out: &mut O) -> Result<(), RowFault>
where
    R: AllocGlobal + Clock + Threads + Wait + Sync,
    O: Out,
    requires { O.failed out.old ≡ false }
{
    let gate = HoldGate::new(rt, row.held, row.other, row.count, row.turns);
    run_system(rt, rt.alloc(), text, &row.options, &gate, out)?;
    put_all(out, expiry(gate.expired()).as_bytes())?;
    Ok(())
}

/// The line that says whether the gate gave up.
fn expiry(expired: bool) -> &'static str {
    if expired {
        "expired true\n"
    } else {
        "expired false\n"
    }
}
