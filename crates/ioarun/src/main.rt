//! The program `ioarun`: a system text comes in, by a file's name or on standard input, and its report goes out.
//!
//! **A crate of its own**, since it has the runtime and the standard streams and nothing else.
//!
//! **Must not know**: what is written and when.
#![tactic(auto)]

ghost use Rattle.std.specs.Prelude.{◌≡◌, false};

mod asking;
mod watching;

use asking::Asking;
use ioa_command::{BAD_WORDS, FAILED, Gate, command};
use ioa_streams::{Out, Over};
use std::io::{IsTerminal, Read};
use std::process::ExitCode;
use std::rt::{Env, Files};
use std::sync::{Arc, Wait};
use std::thread::Threads;
use std::{env, io};
use watching::{Watched, start_watching};

fn main(rt: HostRuntime) -> ExitCode {
    let mut out = Over::new(rt.stdout());
    let mut err = Over::new(rt.stderr());
    let mut input = Asking::new(rt.stdin(), rt.stderr(), rt.stdin().is_terminal());
    let is_watched = rt.stderr().is_terminal();
    let Ok(watched) = Arc::new(rt.alloc(), Watched::new(is_watched)) else {
        return ExitCode::from(FAILED);
    };
    let watcher = if is_watched {
        start_watching(rt, rt.alloc(), &watched, rt.stderr())
    } else {
        None
    };
    let outcome = run_words(&rt, &*watched, &mut input, &mut out, &mut err);
    watched.finish();
    if let Some(watcher) = watcher {
        watcher.join(&rt);
    }
    match outcome {
        Ok(status) => ExitCode::from(status),
        Err(fault) => ExitCode::from(status_of(&fault)),
    }
}

/// The status if the command line could not be read.
fn status_of(fault: &io::Error) -> u8 {
    match fault.kind() {
        io::ErrorKind::OutOfMemory => FAILED,
        _ => BAD_WORDS,
    }
}

/// Runs the program on the words of the command line and on standard input; a fault is one of reading the words.
fn run_words<R, G, I, O, E>(
    rt: &R,
    gate: &G,
    input: &mut I,
    out: &mut O,
    err: &mut E,
) -> io::Result<u8>
where
    R: AllocGlobal + Env + Files + Threads + Wait + Sync,
    G: Gate + Sync,
    I: Read,
    O: Out,
    E: Out,
    requires out { O.failed out.old ≡ false }
    requires err { E.failed err.old ≡ false }
{
    let alloc = rt.alloc();
    let owned: Vec<String> = env::args(rt)?.collect(alloc)?;
    let words: Vec<&str> = owned.iter().map(|word| word.as_str()).collect(alloc)?;
    Ok(command(rt, alloc, &words, gate, input, out, err))
}
