//! Why an entry is no step, kept as a text.

ghost use Rattle.std.specs.Prelude.{◌≡◌, IfOk, Some};
ghost use Rattle.ioa_explain_schedule.specs.Reasons.{IsReasonIf};

use ioa_course::Course;
use ioa_schedule_check::GivenSchedule;
use ioa_tell::{Event, Refusal, TellFault, Tells, TellsRefusal, tell_refused};
use ioa_tell_text::{KeptText, reason_text};
use ioa_transitions::Entry;
use ioa_values::Names;
use std::alloc::{AllocError, Global};

/// Why the entry is no step for which a schedule is refused, in the words of `trace`; none if it is refused for no
/// entry. It is told where the steps before the entry lead.
#[tactic(auto, using(crate::proofs::Reasons::reason_kept))]
pub fn reason_of(
    alloc: Global,
    names: &Names,
    given: &mut GivenSchedule,
) -> Result<Option<KeptText>, AllocError>
    ensures taken { given.new.taken ≡ given.old.taken }
    ensures refusal { given.new.refusal ≡ given.old.refusal }
    ensures refused { given.new.refused ≡ given.old.refused }
    ensures told { IfOk result (IsReasonIf given.old.course names.now given.old.refused) }
{
    let number = given.taken.len();
    let (course, refused) = (&mut given.course, &given.refused);
    match refused {
        None => Ok(None),
        Some(entry) => reason_for(alloc, names, course, number, entry),
    }
}

/// Why an entry is no step where a course stands, behind so many that are; none if it is one.
fn reason_for(
    alloc: Global,
    names: &Names,
    course: &mut Course,
    number: usize,
    entry: &Entry,
) -> Result<Option<KeptText>, AllocError>
    ensures { IfOk result (λ o. IsReasonIf course.old names.now (Some entry.now) o) }
{
    let mut kept = Reason { names, text: None };
    match tell_refused(alloc, course, number, entry, &mut kept) {
        Ok(()) => Ok(kept.text),
        Err(TellFault::Differs) => Ok(None),
        Err(TellFault::Memory) => Err(AllocError),
    }
}

/// Who keeps the reason of which it is told, by these names of constants.
#[derive(Drop)]
struct Reason<'a> {
    names: &'a Names,
    text: Option<KeptText>,
}

impl<'a> Tells for Reason<'a> {
    ghost use Rattle.std.specs.Prelude.{◌≡◌};

    ghost hears = { λ event old new. new ≡ old };

    fn event(&mut self, _alloc: Global, _event: Event<'_>) -> Result<(), TellFault> {
        Ok(())
    }
}

impl<'a> TellsRefusal for Reason<'a> {
    ghost use Rattle.std.specs.Prelude.{◌≡◌, Some};
    ghost use Rattle.ioa_tell_text.specs.Refusals.{refusal_text};

    ghost refuses = { λ number entry refusal old new. new.text ≡ Some (refusal_text old.names.now refusal) };

    fn refused(
        &mut self,
        alloc: Global,
        _number: usize,
        _entry: &Entry,
        refusal: Refusal<'_>,
    ) -> Result<(), TellFault> {
        self.text = Some(reason_text(alloc, self.names, refusal)?);
        Ok(())
    }
}
