//! Schedules that are refused.

ghost use Rattle.std.specs.Prelude.{◌≡◌, IfOk};
ghost use Rattle.ioa_explain_schedule.specs.Pages as spec;

use crate::candidates::candidates;
use crate::line::{marked_part, refused_line};
use crate::page::{page_with, push_if_any};
use crate::reason::reason_of;
use ioa_schedule_check::{GivenSchedule, ScheduleFault};
use ioa_system::System;
use std::alloc::{AllocError, Global};

/// What is told of the schedule in a text that is refused with this fault.
pub(crate) fn refused_page(
    alloc: Global,
    system: &System,
    name: &str,
    text: &str,
    fault: ScheduleFault,
    given: &mut GivenSchedule,
) -> Result<Vec<u8>, AllocError>
    ensures kept { given.new.refusal ≡ given.old.refusal }
    ensures told { IfOk result (λ page. spec.TellsRefused name.now text.now fault page.items) }
{
    let refused = refused_line(text, given.line);
    let part = marked_part(alloc, refused)?;
    let details = match refused.stop {
        Some(stop) => {
            let before = refused.line.get(..stop).unwrap_or("");
            let found = refused.line.get(part.offset..part.end).unwrap_or("");
            details_of_stop(alloc, system, before, found)?
        }
        None => details_of_entry(alloc, system, given)?,
    };
    let offset = refused.start.saturating_add(part.offset);
    let end = refused.start.saturating_add(part.end);
    page_with(alloc, name, text, fault, offset, end, &details)
}

/// What is told of an entry that is no step: why it is none.
fn details_of_entry(
    alloc: Global,
    system: &System,
    given: &mut GivenSchedule,
) -> Result<Vec<u8>, AllocError>
    ensures { given.new.refusal ≡ given.old.refusal }
{
    let mut details = Vec::new(alloc);
    if let Some(reason) = reason_of(alloc, system.names(), given)? {
        push_if_any(&mut details, reason.as_str())?;
    }
    Ok(details)
}

/// What is told of a place in a line at which reading stopped, by what stands before it and what is found there: this,
/// and what could stand there instead.
fn details_of_stop(
    alloc: Global,
    system: &System,
    before: &str,
    found: &str,
) -> Result<Vec<u8>, AllocError> {
    let could_stand = candidates(alloc, system, before, found)?;
    let mut details = Vec::new(alloc);
    if found.is_empty() {
        push_if_any(&mut details, "The line ends here.")?;
    } else {
        let found_words = format!(in alloc; "found `{found}`")?;
        push_if_any(&mut details, found_words.as_str())?;
    }
    push_if_any(&mut details, could_stand.as_str())?;
    Ok(details)
}
