//! What there is of a schedule that is given as lines.

ghost use Rattle.std.specs.Prelude.{◌≡◌, ◌∷◌, ◌++◌, [], IfOk, OnOk, Some};
ghost use Rattle.ioa_values.specs.Outcome.{Answers};
ghost use Rattle.ioa_compose.specs.Executions.{replay};
ghost use Rattle.ioa_compose.specs.Start.{start};
ghost use Rattle.ioa_schedule_check.specs.Schedules.{schedule_answer};
ghost use Rattle.ioa_schedule_check.specs.Taken.{IsRefusedIf, IsWholeIf, MovesAll, RefusesAll, TakesAll, answer_by};
ghost use Rattle.ioa_schedule_check.specs.Taken.{refused_left, refused_of, steps_left, taken_left, taken_of};

use crate::fault::ScheduleFault;
use crate::going::{Culprit, go_on};
use ioa_course::Course;
use ioa_lines::{LineSpan, ScheduleLines};
use ioa_rawlog::{RawLog, Spare};
use ioa_system::System;
use ioa_transitions::Entry;
use std::alloc::{AllocError, Global};

/// What there is of a schedule that is given as lines: the steps that it takes and where they lead, why the lines are
/// no execution, and the line and the entry for which they are refused.
#[derive(Drop)]
pub struct GivenSchedule {
    /// The entries that are steps one after another from the start, up to the first line that spells none, and the
    /// first entry that is no step.
    pub taken: RawLog<Entry>,
    /// Why the lines are no execution; nothing if they are one.
    pub refusal: Option<ScheduleFault>,
    /// The entry that is no step, or of which the runtime can't tell, if the lines are refused for it. It stands behind
    /// those taken. None if the lines are an execution, or if a line spells no entry.
    pub refused: Option<Entry>,
    /// The line for which the lines are refused, in their text; nothing if they are an execution.
    pub line: Option<LineSpan>,
    /// The configurations to which the steps taken lead from the start.
    pub course: Course,
}

/// The steps that the lines of a text take from the start of a system, and the refusal of the lines, which is that of
/// `check_schedule`, with the entry that is refused. If they are an execution, the steps are all that the lines spell.
/// What it takes of memory grows with the steps.
pub fn given_schedule(
    alloc: Global,
    system: &System,
    text: &str,
) -> Result<GivenSchedule, AllocError>
    ensures taken { IfOk result (λ g. g.taken ≡ taken_of system.now text.now) }
    ensures answer { IfOk result (λ g. answer_by g.refusal ≡ schedule_answer system.now text.now) }
    ensures whole { IfOk result (λ g. IsWholeIf g.refusal system.now text.now g.taken) }
    ensures refused { IfOk result (λ g. IsRefusedIf g.refusal system.now text.now g.taken g.refused) }
    ensures reached { IfOk result (λ g. replay g.taken (start system.now) ≡ Some g.course) }
{
    gather(alloc, system, text)
}

/// The same, by the order in which lines are read and steps are taken.
#[tactic(auto, unfolding(crate::specs::refused_of, crate::specs::schedule_answer, crate::specs::steps_left, crate::specs::taken_of))]
fn gather(alloc: Global, system: &System, text: &str) -> Result<GivenSchedule, AllocError>
    ensures taken { IfOk result (λ g. g.taken ≡ taken_of system.now text.now) }
    ensures answer { IfOk result (λ g. answer_by g.refusal ≡ schedule_answer system.now text.now) }
    ensures refused { IfOk result (λ g. g.refused ≡ refused_of system.now text.now) }
    ensures reached { IfOk result (λ g. replay g.taken (start system.now) ≡ Some g.course) }
{
    let mut course = Course::start(alloc, system)?;
    let mut lines = ScheduleLines::new(alloc, text);
    let mut taken = RawLog::new();
    let mut refused = Culprit::none();
    match take_all(
        alloc,
        system,
        &mut course,
        &mut lines,
        &mut taken,
        &mut refused,
    ) {
        Ok(()) => Ok(GivenSchedule {
            taken,
            refusal: None,
            refused: None,
            line: None,
            course,
        }),
        Err(ScheduleFault::Memory) => Err(AllocError),
        Err(fault) => Ok(GivenSchedule {
            taken,
            refusal: Some(fault),
            refused: refused.entry,
            line: refused.line,
            course,
        }),
    }
}

/// Takes the steps by the entries that the lines that are left spell, and puts each behind those taken before. If the
/// lines are refused, it says for which line, and for which entry, if for one.
fn take_all(
    alloc: Global,
    system: &System,
    course: &mut Course,
    lines: &mut ScheduleLines<'_>,
    taken: &mut RawLog<Entry>,
    refused: &mut Culprit,
) -> Result<(), ScheduleFault>
    ensures answer { Answers ScheduleFault.Memory (λ u. u) result (steps_left system.now lines.old course.old) }
    ensures taken { TakesAll result taken.old taken.new (taken_left system.now lines.old course.old) }
    ensures moved { MovesAll result taken.old course.old taken.new course.new }
    ensures refused { RefusesAll result refused.new.entry (refused_left system.now lines.old course.old) }
{
    while let Some(entry) = go_on(alloc, system, course, lines, refused)? {
        put(alloc, taken, entry)?;
    }
    Ok(())
}

/// Puts an entry behind the others of a log.
fn put(alloc: Global, log: &mut RawLog<Entry>, entry: Entry) -> Result<(), AllocError>
    ensures { OnOk result (log.new ≡ log.old ++ entry ∷ []) }
{
    // no log is so long
    if log.len() == usize::MAX {
        return Err(AllocError);
    }
    let spare = spare_for(alloc, log)?;
    match log.push(entry, spare) {
        Ok(_left) => Ok(()),
        Err(_refused) => Err(AllocError),
    }
}

/// A spare, if the next entry needs one.
fn spare_for(alloc: Global, log: &RawLog<Entry>) -> Result<Option<Spare<Entry>>, AllocError> {
    if log.needs_spare() {
        Ok(Some(Spare::make(alloc)?))
    } else {
        Ok(None)
    }
}
