//! Schedules that are given as lines, gone through from the start of a system.

ghost use Rattle.std.specs.Prelude.{◌≡◌, IfOk};
ghost use Rattle.ioa_values.specs.Outcome.{Answers};
ghost use Rattle.ioa_schedule_check.specs.Schedules.{IsExecutionSpelled, schedule_answer};
ghost use Rattle.ioa_schedule_check.specs.Taken.{steps_left};

use crate::fault::ScheduleFault;
use crate::going::{Culprit, go_on};
use ioa_course::Course;
use ioa_lines::ScheduleLines;
use ioa_system::System;
use std::alloc::Global;

/// Whether the lines of a text are an execution of a system (Lynch 8.1): each line that has tokens spells an action and
/// what its effect chose, and one after another they are joint steps from the start. If not, the first line that spells
/// none is told, `BadLine` (61); if each does, the first that is no step, `NotStep` (60), or of which the runtime can't
/// tell, `Undefined` (1) or `Range` (2). `Memory` (3) if memory runs out. The lines are read once, and no state is kept
/// but the last: so what it takes of memory does not grow with their number.
pub fn check_schedule(alloc: Global, system: &System, text: &str) -> Result<(), ScheduleFault>
    ensures exact { Answers ScheduleFault.Memory (λ u. u) result (schedule_answer system.now text.now) }
    ensures execution { IfOk result (λ _. IsExecutionSpelled system.now text.now) }
{
    go_through(alloc, system, text)
}

/// The same, by the order in which lines are read and steps are taken.
#[tactic(auto, unfolding(crate::specs::Schedules::schedule_answer, crate::specs::Taken::steps_left))]
fn go_through(alloc: Global, system: &System, text: &str) -> Result<(), ScheduleFault>
    ensures { Answers ScheduleFault.Memory (λ u. u) result (schedule_answer system.now text.now) }
{
    let mut course = Course::start(alloc, system)?;
    let mut lines = ScheduleLines::new(alloc, text);
    follow(alloc, system, &mut course, &mut lines)
}

/// Takes the steps by the entries that the lines that are left spell.
fn follow(
    alloc: Global,
    system: &System,
    course: &mut Course,
    lines: &mut ScheduleLines<'_>,
) -> Result<(), ScheduleFault>
    ensures { Answers ScheduleFault.Memory (λ u. u) result (steps_left system.now lines.old course.old) }
{
    let mut refused = Culprit::none();
    while let Some(_entry) = go_on(alloc, system, course, lines, &mut refused)? {}
    Ok(())
}
