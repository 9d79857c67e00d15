//! A schedule that is given, told step by step.

ghost use Rattle.std.specs.Prelude.{◌≡◌, OnOk, Ok};
ghost use Rattle.std.specs.Option.{option_copied};
ghost use Rattle.ioa_compose.specs.Composition.{joint_answer};
ghost use Rattle.ioa_tell.specs.Schedules.{HearsRefusedIf, HearsStep, HearsSteps, HearsTakenTo};
ghost use Rattle.ioa_tell.specs.Schedules.{TellsSchedule};

use crate::event::Event;
use crate::fault::TellFault;
use crate::refusal::TellsRefusal;
use crate::refused::tell_refused;
use crate::standing::{node_at, node_copied, queue_at};
use crate::tells::Tells;
use ioa_actions::StepFault;
use ioa_compose::Conf;
use ioa_course::Course;
use ioa_rawlog::RawLog;
use ioa_system::System;
use ioa_transitions::Entry;
use std::alloc::Global;

/// Tells the steps by the entries of a schedule from the start of a system, one after another, and then the entry that
/// is no step from the state that they leave, if one is given, with the reason for which it is none. What it takes of
/// memory does not grow with the steps.
///
/// `Differs` (51) if an entry of the schedule is no step after all, or if the one that is given as none is one.
/// `Memory` (3) if memory runs out. A fault of who is told ends it too. After a fault the contract says nothing of what
/// was told.
pub fn tell_schedule<T: TellsRefusal>(
    alloc: Global,
    system: &System,
    taken: &RawLog<Entry>,
    refused: Option<&Entry>,
    out: &mut T,
) -> Result<(), TellFault>
    ensures told { OnOk result (TellsSchedule T.hears T.refuses system.now taken.now (option_copied refused.entry)
        out.old out.new) }
{
    let mut course = Course::start(alloc, system)?;
    tell_steps(alloc, &mut course, taken, out)?;
    tell_refused_if(alloc, &mut course, taken.len(), refused, out)
}

/// Tells the entry that is no step from where a course stands, behind so many that are, if one is given.
fn tell_refused_if<T: TellsRefusal>(
    alloc: Global,
    course: &mut Course,
    number: usize,
    refused: Option<&Entry>,
    out: &mut T,
) -> Result<(), TellFault>
    ensures { OnOk result (HearsRefusedIf T.refuses course.old number (option_copied refused.entry) out.old out.new) }
{
    match refused {
        None => Ok(()),
        Some(entry) => tell_refused(alloc, course, number, entry, out),
    }
}

/// Tells the steps by the entries of a schedule, one after another, from where a course stands.
fn tell_steps<T: Tells>(
    alloc: Global,
    course: &mut Course,
    schedule: &RawLog<Entry>,
    out: &mut T,
) -> Result<(), TellFault>
    ensures { OnOk result (HearsSteps T.hears course.old course.new schedule.now out.old out.new) }
{
    let mut number = 0;
    for entry in schedule.walk() {
        tell_step(alloc, course, number, entry, out)?;
        number += 1;
    }
    Ok(())
}

/// Takes the step by an entry, behind so many, and tells it.
fn tell_step<T: Tells>(
    alloc: Global,
    course: &mut Course,
    number: usize,
    entry: &Entry,
    out: &mut T,
) -> Result<(), TellFault>
    ensures { OnOk result (HearsStep T.hears course.old course.new number entry.now out.old out.new) }
{
    let before = node_copied(alloc, course, entry)?;
    step(alloc, course, entry)?;
    tell_taken(alloc, course, number, entry, &before, out)
}

/// Tells the step by an entry that led to where a course stands, behind so many, whose node was so before.
fn tell_taken<T: Tells>(
    alloc: Global,
    course: &Course,
    number: usize,
    entry: &Entry,
    before: &Conf,
    out: &mut T,
) -> Result<(), TellFault>
    ensures { OnOk result (HearsTakenTo T.hears course.now number entry.now before.now out.old out.new) }
{
    let Some(after) = node_at(course, entry) else {
        return Err(TellFault::Differs);
    };
    let queue = queue_at(course, entry);
    let event = Event::Taken {
        number,
        entry,
        before,
        after,
        queue,
    };
    out.event(alloc, event)
}

/// Takes the step by an entry. `Differs` (51) if it is none.
fn step(alloc: Global, course: &mut Course, entry: &Entry) -> Result<(), TellFault>
    ensures { OnOk result (joint_answer entry.now course.old ≡ Ok course.new) }
{
    match course.advance(alloc, entry) {
        Ok(()) => Ok(()),
        Err(StepFault::Memory) => Err(TellFault::Memory),
        Err(_) => Err(TellFault::Differs),
    }
}
