//! What could stand in a line where reading stopped: each candidate is put there, and the reader of lines is asked
//! whether it gets past it.

use ioa_cursor::Unread;
use ioa_lines::{entry_spelled, left_of_beginning};
use ioa_system::System;
use ioa_tokens::{CutFault, Mark, cut_line};
use ioa_values::Word;
use std::alloc::{AllocError, Global};

/// The marks of lines, in the order in which they are told.
const MARKS: [Mark; 13] = [
    Mark::OpenRound,
    Mark::CloseRound,
    Mark::OpenSquare,
    Mark::CloseSquare,
    Mark::OpenBrace,
    Mark::CloseBrace,
    Mark::Comma,
    Mark::Arrow,
    Mark::AtSign,
    Mark::Minus,
    Mark::Choose,
    Mark::True,
    Mark::False,
];

/// Behind more bytes of a line nothing is asked.
const MOST_BYTES: usize = 10_000;

/// So many names of a kind are asked for at most.
const MOST_ASKED: usize = 1_000;

/// So many names of a kind are told at most.
const MOST_TOLD: usize = 8;

/// What is said if nothing could stand there: the reader goes past a collection, and past a constant within a value,
/// before it refuses it.
const REFUSED_VALUE: &str =
    "The value in front of it is of another sort, or its members or keys do not ascend.";

/// What could stand in a line behind its beginning in place of what is found there, or for what this is refused if such
/// a token could stand there, or that the value in front of it is refused; empty if none of this is known.
pub(crate) fn candidates(
    alloc: Global,
    system: &System,
    before: &str,
    found: &str,
) -> Result<String, AllocError> {
    let mut line = String::new(alloc);
    if before.len() > MOST_BYTES {
        return Ok(line);
    }
    line.push_str(remark_on(alloc, system, before, found)?)?;
    if line.is_empty() {
        push_candidates(alloc, system, before, &mut line)?;
        if !found.is_empty() && is_line(alloc, system, before)? {
            push_item(&mut line, "the end of the line")?;
        }
    }
    if line.is_empty() && asks_all(system) {
        line.push_str(REFUSED_VALUE)?;
    }
    Ok(line)
}

/// Whether each constant of a system is asked for.
fn asks_all(system: &System) -> bool {
    system.names().as_slice().len() <= MOST_ASKED
}

/// What is said of a token that is found where such a token could stand: a number and a name are then refused for the
/// node that the line's end tells. Empty if none could.
fn remark_on(
    alloc: Global,
    system: &System,
    before: &str,
    found: &str,
) -> Result<&'static str, AllocError> {
    let is_number = found
        .as_bytes()
        .first()
        .is_some_and(|byte| byte.is_ascii_digit());
    match cut_line(alloc, found) {
        Err(CutFault::NumberTooLarge(_)) => return Ok("A number is at most 9223372036854775807."),
        Err(CutFault::Memory) => return Err(AllocError),
        Ok(_) | Err(CutFault::BadCharacter(_)) => {}
    }
    if found.is_empty() || !fits(alloc, system, before, found)? {
        Ok("")
    } else if is_number {
        Ok("There is no such node.")
    } else {
        Ok("The node has no such action.")
    }
}

/// Adds what could stand behind the beginning of a line.
fn push_candidates(
    alloc: Global,
    system: &System,
    before: &str,
    line: &mut String,
) -> Result<(), AllocError> {
    for mark in MARKS.iter() {
        if fits(alloc, system, before, mark.as_str())? {
            push_quoted(line, mark.as_str())?;
        }
    }
    if fits(alloc, system, before, "0")? {
        push_item(line, "a number")?;
    }
    push_actions(alloc, system, before, line)?;
    push_names(alloc, system, before, system.names().as_slice(), line)
}

/// Whether a token could stand behind the beginning of a line.
fn fits(alloc: Global, system: &System, before: &str, token: &str) -> Result<bool, AllocError> {
    let asked = format!(in alloc; "{before} {token}")?;
    match cut_line(alloc, asked.as_str()) {
        Ok(tokens) => Ok(left_of_beginning(alloc, system, &tokens)? == 0),
        Err(CutFault::Memory) => Err(AllocError),
        Err(_) => Ok(false),
    }
}

/// Whether a name could stand behind the beginning of a line, and something behind it: the reader goes past a name
/// before it looks for its constant.
fn fits_name(alloc: Global, system: &System, before: &str, name: &str) -> Result<bool, AllocError> {
    if !fits(alloc, system, before, name)? {
        return Ok(false);
    }
    let asked = format!(in alloc; "{before} {name}")?;
    for mark in MARKS.iter() {
        if fits(alloc, system, asked.as_str(), mark.as_str())? {
            return Ok(true);
        }
    }
    Ok(false)
}

/// Whether a text is a line of a system.
fn is_line(alloc: Global, system: &System, text: &str) -> Result<bool, AllocError> {
    match cut_line(alloc, text) {
        Ok(tokens) => match entry_spelled(alloc, system, &tokens) {
            Ok(_) => Ok(true),
            Err(Unread::Memory) => Err(AllocError),
            Err(_) => Ok(false),
        },
        Err(CutFault::Memory) => Err(AllocError),
        Err(_) => Ok(false),
    }
}

/// Adds the names of actions that could stand behind the beginning of a line.
fn push_actions(
    alloc: Global,
    system: &System,
    before: &str,
    line: &mut String,
) -> Result<(), AllocError> {
    let mut names = Vec::new(alloc);
    for program in system.programs() {
        for rule in program.automaton().rules() {
            let name = rule.entry.name.try_copy(alloc)?;
            if !names.contains(&name) {
                names.push(name)?;
            }
        }
    }
    push_names(alloc, system, before, &names, line)
}

/// Adds those of these names that could stand there, and `..` if there are more than are told.
fn push_names(
    alloc: Global,
    system: &System,
    before: &str,
    names: &[Word],
    line: &mut String,
) -> Result<(), AllocError> {
    let mut told = 0;
    for name in names.iter().take(MOST_ASKED) {
        if fits_name(alloc, system, before, name.as_str())? {
            if told == MOST_TOLD {
                return push_item(line, "..");
            }
            push_quoted(line, name.as_str())?;
            told = told.saturating_add(1);
        }
    }
    Ok(())
}

/// Adds an item in quotes.
fn push_quoted(line: &mut String, item: &str) -> Result<(), AllocError> {
    push_item(line, "`")?;
    line.push_str(item)?;
    line.push_str("`")
}

/// Adds an item to a line, behind what the line begins with, or behind a comma.
fn push_item(line: &mut String, item: &str) -> Result<(), AllocError> {
    if line.is_empty() {
        line.push_str("here could stand: ")?;
    } else {
        line.push_str(", ")?;
    }
    line.push_str(item)
}
