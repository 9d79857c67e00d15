//! A script, read and answered.

use crate::line::{Line, line_of};
use crate::session::{CommandFault, Session};
use std::io;
use std::io::{ErrorKind, Write};

/// Writes a script out anew, with the answers that the session gives in place of those that are wanted. A command
/// that has no answer gets one line, `= line N: WHY`. If `words` (the words of the command line behind the
/// program's name) are not empty, it writes the help instead.
///
/// No clause speaks of what is written: a comparison with the script does.
pub fn answer_script<S: Session, W: Write>(
    words: &[String],
    script: &str,
    session: &mut S,
    out: &mut W,
) -> io::Result<()> {
    if !words.is_empty() {
        return writeln!(out, "{}", session.help());
    }
    for (position, line) in script.lines().enumerate() {
        answer_line(position + 1, line, session, out)?;
    }
    Ok(())
}

/// Writes a line of a script, and the answer to it if it is a command.
fn answer_line<S: Session, W: Write>(
    number: usize,
    line: &str,
    session: &mut S,
    out: &mut W,
) -> io::Result<()> {
    match line_of(line) {
        Line::Wanted => Ok(()),
        Line::Remark => writeln!(out, "{line}"),
        Line::Command => {
            writeln!(out, "{line}")?;
            match session.answer(line) {
                Ok(answer) => write_answer(&answer, out),
                Err(CommandFault::Bad(why)) => writeln!(out, "= line {number}: {why}"),
                Err(CommandFault::Memory) => Err(io::Error::from(ErrorKind::OutOfMemory)),
            }
        }
    }
}

/// Writes the lines of an answer.
fn write_answer<W: Write>(answer: &str, out: &mut W) -> io::Result<()> {
    for line in answer.lines() {
        writeln!(out, "= {line}")?;
    }
    Ok(())
}
