//! The line for which a schedule is refused, and the part of it that is marked.

use ioa_lines::LineSpan;
use ioa_place::{digits_at, token_at, token_length};
use ioa_streams::is_report;
use ioa_tokens::{CutFault, LocatedToken, cut_line_into};
use std::alloc::{AllocError, Global};

/// The line of a text for which its schedule is refused.
#[derive(Clone, Copy)]
pub(crate) struct RefusedLine<'a> {
    /// Where it begins in the text.
    pub start: usize,
    /// What it says.
    pub line: &'a str,
    /// Where reading stopped in it, if it spells no entry.
    pub stop: Option<usize>,
}

/// A part of a line.
#[derive(Clone, Copy)]
pub(crate) struct Part {
    /// Where it begins.
    pub offset: usize,
    /// Where it ends.
    pub end: usize,
}

/// The line of a text at a span of the schedule that is in it; an empty one if there is no span.
pub(crate) fn refused_line<'a>(text: &'a str, span: Option<LineSpan>) -> RefusedLine<'a> {
    let Some(span) = span else {
        return RefusedLine {
            start: 0,
            line: "",
            stop: None,
        };
    };
    let begin = start_of_schedule(text);
    let start = begin.saturating_add(span.start);
    let end = begin.saturating_add(span.end);
    RefusedLine {
        start,
        line: text.get(start..end).unwrap_or(""),
        stop: span.stop.map(|stop| stop.saturating_sub(span.start)),
    }
}

/// Where the schedule begins in a text: behind the first line of a report.
fn start_of_schedule(text: &str) -> usize {
    match text.split_once('\n') {
        Some((first, _)) if is_report(text) => first.len().saturating_add(1),
        _ => 0,
    }
}

/// The part of a line that is marked: the token at which reading stopped, or what is no token there, or the place behind
/// the last token if the line ends too early; else all from the first token on to the last.
pub(crate) fn marked_part(alloc: Global, refused: RefusedLine<'_>) -> Result<Part, AllocError> {
    let line = refused.line;
    let tokens = tokens_of(alloc, line)?;
    let all = all_of(alloc, line, &tokens)?;
    let Some(stop) = refused.stop else {
        return Ok(all);
    };
    match token_at(&tokens, stop).and_then(|place| tokens.get(place)) {
        Some(token) => part_of(alloc, line, token),
        None if stop < line.len() => Ok(stray_part(line, stop)),
        None => Ok(Part {
            offset: all.end,
            end: all.end,
        }),
    }
}

/// The tokens of a line, up to what is no token.
fn tokens_of<'a>(alloc: Global, line: &'a str) -> Result<Vec<LocatedToken<'a>>, AllocError> {
    let mut tokens = Vec::new(alloc);
    match cut_line_into(line, &mut tokens) {
        Err(CutFault::Memory) => Err(AllocError),
        Ok(()) | Err(_) => Ok(tokens),
    }
}

/// The part of a line from its first token on to its last.
fn all_of(alloc: Global, line: &str, tokens: &[LocatedToken<'_>]) -> Result<Part, AllocError> {
    match (tokens.first(), tokens.last()) {
        (Some(first), Some(last)) => {
            let end = part_of(alloc, line, last)?.end;
            Ok(Part {
                offset: first.offset,
                end,
            })
        }
        _ => Ok(Part { offset: 0, end: 0 }),
    }
}

/// The part of a line that a token is.
fn part_of(alloc: Global, line: &str, token: &LocatedToken<'_>) -> Result<Part, AllocError> {
    let offset = token.offset;
    let length = token_length(alloc, line, &token.token, offset)?;
    Ok(Part {
        offset,
        end: offset.saturating_add(length),
    })
}

/// What stands at an offset of a line and is no token: a number that is too large, or a character.
fn stray_part(line: &str, offset: usize) -> Part {
    let stray = line.get(offset..).and_then(|rest| rest.chars().next());
    let length = match stray {
        Some(character) => character.len_utf8().max(digits_at(line, offset)),
        None => 0,
    };
    Part {
        offset,
        end: offset.saturating_add(length),
    }
}
