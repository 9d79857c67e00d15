//! A text gone through line by line.

ghost use Rattle.std.specs.Prelude.{◌≡◌, ◌<◌, ◌≤◌, ◌∷◌, IfOk, IfSome, length};
ghost use Rattle.ioa_values.specs.Outcome.{Answers};
ghost use Rattle.ioa_tokens.specs.LineTokens.{line_tokens};
ghost use Rattle.ioa_lines.specs.Lines as spec;
ghost use Rattle.ioa_lines.specs.Lines.{bytes_behind, lines_behind, lines_left, lines_of};

use crate::entry::entry_spelled;
use crate::fault::LineFault;
use crate::stops::left_from_name;
use ioa_cursor::{Unread, offset_of};
use ioa_system::System;
use ioa_tokens::{CutFault, LocatedToken, cut_line_into};
use ioa_transitions::Entry;
use std::alloc::Global;
use std::marker::Model;

/// A line of a text, by offsets in the text.
#[derive(Clone, Copy, Debug, PartialEq, Eq)]
pub struct LineSpan {
    /// Where the line begins.
    pub start: usize,
    /// Where it ends, in front of its line feed.
    pub end: usize,
    /// If it spells no entry, where reading stopped: at the token that does not fit, or at what is no token, or at the
    /// end if the line ends too early.
    pub stop: Option<usize>,
}

/// The lines of a text that are still to be read, and how many with tokens came before them. All lines are cut into one
/// list of tokens, so that no line takes memory but for its entry. A contract sees the lines and the number.
#[derive(Drop)]
pub struct ScheduleLines<'a> {
    /// The text behind the lines that were read; nothing behind the last line.
    rest: Option<&'a str>,
    /// The tokens of the line that was read last.
    tokens: Vec<LocatedToken<'a>>,
    /// How many lines with tokens were read.
    count: usize,
    /// How many bytes the text has.
    length: usize,
    /// The line that was read last; nothing before the first.
    line: &'a str,
    /// Where it begins in the text.
    start: usize,
    /// Where reading stopped in it, if it spells no entry.
    stop: Option<usize>,
}

impl<'a> Model for ScheduleLines<'a> {
    ghost use Rattle.ioa_lines.specs.Lines.{LinesLeft, lines_behind, lines_left};

    ghost Value = { LinesLeft };

    ghost view = { λ l. lines_left l.count (lines_behind l.rest) };

    ghost use Rattle.std.specs.Prelude.{◌+◌, ◌<◌, ◌^◌};
    ghost use Rattle.ioa_lines.specs.Lines.{bytes_behind};

    ghost invariant = { λ l. l.count + bytes_behind l.rest < 2 ^ 64 };
}

/// The first line of a text, and the text behind it, if the line ends with a line feed.
fn first_line(text: &str) -> (&str, Option<&str>)
    ensures lines { lines_of text.now ≡ result.0.now ∷ lines_behind result.1 }
    ensures fewer { bytes_behind result.1 ≤ length text.now }
{
    match text.split_once('\n') {
        Some((line, rest)) => (line, Some(rest)),
        None => (text, None),
    }
}

/// The entry that a line spells, behind `count` others that have tokens; nothing if it has no token. If it spells none,
/// it says where reading stopped.
fn line_entry<'a>(
    alloc: Global,
    system: &System,
    count: usize,
    line: &'a str,
    tokens: &mut Vec<LocatedToken<'a>>,
    stop: &mut Option<usize>,
) -> Result<Option<Entry>, LineFault>
    ensures { Answers LineFault.Memory (λ o. o) result
        (spec.cut_entry system.now count (line_tokens line.now)) }
{
    match cut_line_into(line, tokens) {
        Ok(()) => {}
        Err(CutFault::Memory) => return Err(LineFault::Memory),
        Err(CutFault::BadCharacter(offset) | CutFault::NumberTooLarge(offset)) => {
            *stop = Some(offset);
            return Err(LineFault::BadLine(count));
        }
    }
    if tokens.is_empty() {
        return Ok(None);
    }
    match entry_spelled(alloc, system, tokens) {
        Ok(entry) => Ok(Some(entry)),
        Err(Unread::Memory) => Err(LineFault::Memory),
        Err(Unread::Unexpected(left) | Unread::TooDeep(left) | Unread::LeftOut(_, left)) => {
            let left = left_from_name(system.names(), tokens, left);
            *stop = Some(offset_of(tokens, left, line.len()));
            Err(LineFault::BadLine(count))
        }
    }
}

/// Where reading stopped in a text, by where it stopped in a line of it.
fn stop_within(start: usize, end: usize, stop: Option<usize>) -> Option<usize>
    requires { start ≤ end }
    ensures { IfSome result (λ at. (start ≤ at) × (at ≤ end)) }
{
    match stop {
        Some(offset) => Some(start.saturating_add(offset).min(end)),
        None => None,
    }
}

impl<'a> ScheduleLines<'a> {
    /// The lines of a text.
    pub fn new(alloc: Global, text: &'a str) -> Self
        ensures { result ≡ lines_left 0 (lines_of text.now) }
    {
        ScheduleLines {
            rest: Some(text),
            tokens: Vec::new(alloc),
            count: 0,
            length: text.len(),
            line: "",
            start: 0,
            stop: None,
        }
    }

    /// How many lines with tokens were read.
    pub fn count(&self) -> usize
        ensures { result ≡ self.now.count }
    {
        self.count
    }

    /// The line that was read last, and where reading stopped in it if it spells no entry.
    pub fn last_line(&self) -> LineSpan
        ensures order { result.start ≤ result.end }
        ensures stop { IfSome result.stop (λ at. (result.start ≤ at) × (at ≤ result.end)) }
    {
        let end = self.start.saturating_add(self.line.len());
        LineSpan {
            start: self.start,
            end,
            stop: stop_within(self.start, end, self.stop),
        }
    }

    /// Reads on up to the next line that has tokens, and returns the entry of the system that it spells. None at the
    /// end. Returns `BadLine` (61), with how many lines with tokens came before, if the line spells no entry of the
    /// system, and `Memory` (3) if memory runs out; then it is not said what is left.
    pub fn next(&mut self, alloc: Global, system: &System) -> Result<Option<Entry>, LineFault>
        ensures answer { Answers LineFault.Memory (λ o. (o, self.new)) result (spec.next_answer system.now self.old) }
        ensures entries { spec.TellsEntries system.now self.old result self.new }
        ensures fewer { IfOk result (λ o. IfSome o (λ _. length self.new.lines < length self.old.lines)) }
    {
        self.read_on(alloc, system)
    }

    /// Reads on up to the next line that has tokens.
    #[tactic(auto, unfolding(crate::specs::Lines::next_answer))]
    fn read_on(&mut self, alloc: Global, system: &System) -> Result<Option<Entry>, LineFault>
        ensures { Answers LineFault.Memory (λ o. (o, self.new)) result (spec.next_answer system.now self.old) }
    {
        while let Some(text) = self.rest {
            let (line, rest) = first_line(text);
            self.rest = rest;
            self.line = line;
            self.start = self.length.saturating_sub(text.len());
            self.stop = None;
            let (tokens, stop) = (&mut self.tokens, &mut self.stop);
            if let Some(entry) = line_entry(alloc, system, self.count, line, tokens, stop)? {
                self.count += 1;
                return Ok(Some(entry));
            }
        }
        Ok(None)
    }
}

/// The entries that the lines of a text spell, first to last. Returns `BadLine` (61) at the first line that spells no
/// entry of the system, and `Memory` (3) if memory runs out.
#[tactic(auto, using(crate::proofs::Left::behind_rules))]
pub fn entries_of(alloc: Global, system: &System, text: &str) -> Result<Vec<Entry>, LineFault>
    ensures { Answers LineFault.Memory (λ v. v.items) result (spec.lines_answer system.now text.now) }
{
    let mut lines = ScheduleLines::new(alloc, text);
    let mut entries = Vec::new(alloc);
    while let Some(entry) = lines.next(alloc, system)? {
        entries.push(entry)?;
    }
    Ok(entries)
}
