//! The next step of a schedule that is given as lines.

ghost use Rattle.std.specs.Prelude.{◌≡◌, ◌⊎◌, ◌<◌, IfOk, IfSome, length};
ghost use Rattle.ioa_values.specs.Outcome.{Answers};
ghost use Rattle.ioa_actions.specs.declared.fault.StepFault.TheVariants as step;
ghost use Rattle.ioa_lines.specs.Lines.{entries_left};
ghost use Rattle.ioa_schedule_check.specs.Schedules as spec;
ghost use Rattle.ioa_schedule_check.specs.Schedules.{all_read};
ghost use Rattle.ioa_schedule_check.specs.Taken as taken;
ghost use Rattle.ioa_schedule_check.specs.Taken.{MovesNext, RefusesNext, TakesNext};

use crate::fault::{ScheduleFault, fault_at};
use ioa_actions::StepFault;
use ioa_course::Course;
use ioa_lines::{LineFault, LineSpan, ScheduleLines};
use ioa_system::System;
use ioa_transitions::Entry;
use std::alloc::Global;

/// For what lines are refused.
#[derive(Drop)]
pub(crate) struct Culprit {
    /// The line.
    pub line: Option<LineSpan>,
    /// The entry that it spells, if it spells one.
    pub entry: Option<Entry>,
}

impl Culprit {
    /// None yet.
    pub(crate) fn none() -> Self {
        Culprit {
            line: None,
            entry: None,
        }
    }
}

/// Takes the step of the entry that the next line with tokens spells, and returns the entry; none if no line is left.
/// If that is no step, the lines behind it are still read, since a line that spells no entry is told before it. With a
/// refusal it says for which line the lines are refused, and for which entry, if for one.
pub(crate) fn go_on(
    alloc: Global,
    system: &System,
    course: &mut Course,
    lines: &mut ScheduleLines<'_>,
    refused: &mut Culprit,
) -> Result<Option<Entry>, ScheduleFault>
    ensures next { TakesNext system.now lines.old course.old result lines.new course.new }
    ensures refused { RefusesNext system.now lines.old course.old result lines.new course.new refused.new.entry }
    ensures moves { MovesNext course.old result course.new }
    ensures fewer { IfOk result (λ o. IfSome o (λ _. length lines.new.lines < length lines.old.lines)) }
{
    let place = lines.count();
    let entry = match lines.next(alloc, system) {
        Ok(Some(entry)) => entry,
        Ok(None) => return Ok(None),
        Err(fault) => {
            *refused = Culprit {
                line: Some(lines.last_line()),
                entry: None,
            };
            return Err(ScheduleFault::from(fault));
        }
    };
    match course.advance(alloc, &entry) {
        Ok(()) => Ok(Some(entry)),
        Err(fault) => {
            let line = lines.last_line();
            let fault = refusal(alloc, system, lines, place, fault);
            *refused = culprit_of(fault, entry, line, lines.last_line());
            Err(fault)
        }
    }
}

/// For what lines are refused with this fault: for this entry in its line, or for the line that was read last.
fn culprit_of(fault: ScheduleFault, entry: Entry, line: LineSpan, last: LineSpan) -> Culprit
    ensures { result.entry ≡ taken.refused_for fault entry }
{
    let entry = refused_for(fault, entry);
    let line = if entry.is_some() { line } else { last };
    Culprit {
        line: Some(line),
        entry,
    }
}

/// The entry, if lines that are refused with this fault are refused for an entry.
fn refused_for(fault: ScheduleFault, entry: Entry) -> Option<Entry>
    ensures { result ≡ taken.refused_for fault entry }
{
    match fault {
        ScheduleFault::Undefined(_) | ScheduleFault::Range(_) | ScheduleFault::NotStep(_) => {
            Some(entry)
        }
        ScheduleFault::Memory | ScheduleFault::BadLine(_) => None,
    }
}

/// The refusal of lines of which the one at a place spells an entry with this fault. If memory ran out at it, no line
/// behind it is read.
fn refusal(
    alloc: Global,
    system: &System,
    lines: &mut ScheduleLines<'_>,
    place: usize,
    fault: StepFault,
) -> ScheduleFault
    ensures told { (result ≡ ScheduleFault.Memory)
        ⊎ (result ≡ spec.fault_or_line (spec.fault_at place fault) (entries_left system.now lines.old)) }
    ensures memory { fault ≡ step.Memory → result ≡ ScheduleFault.Memory }
{
    match fault {
        StepFault::Memory => ScheduleFault::Memory,
        fault => fault_or_line(alloc, system, lines, fault_at(place, fault)),
    }
}

/// The refusal of lines of which one has a fault that is no fault of reading: that fault, unless a line behind it
/// spells no entry.
fn fault_or_line(
    alloc: Global,
    system: &System,
    lines: &mut ScheduleLines<'_>,
    fault: ScheduleFault,
) -> ScheduleFault
    ensures { (result ≡ ScheduleFault.Memory)
        ⊎ (result ≡ spec.fault_or_line fault (entries_left system.now lines.old)) }
{
    match read_all(alloc, system, lines) {
        Ok(()) => fault,
        Err(line) => ScheduleFault::from(line),
    }
}

/// Reads all lines that are left.
fn read_all(alloc: Global, system: &System, lines: &mut ScheduleLines<'_>) -> Result<(), LineFault>
    ensures { Answers LineFault.Memory (λ u. u) result (all_read (entries_left system.now lines.old)) }
{
    while let Some(_entry) = lines.next(alloc, system)? {}
    Ok(())
}
