//! Explanations: from a schedule to what is wrong with it.

ghost use Rattle.std.specs.Prelude.{◌≡◌, false, IfOk, codes};
ghost use Rattle.ioa_schedule_check.specs.Taken.{answer_by};
ghost use Rattle.ioa_explain_schedule.specs.Explanations as spec;
ghost use Rattle.ioa_explain_schedule.specs.Explanations.{answer_of};
ghost use Rattle.ioa_explain_schedule.specs.Pages.{Tells};

use crate::fault::ExplainLinesFault;
use crate::refused::refused_page;
use ioa_schedule_check::{GivenSchedule, given_schedule};
use ioa_streams::{Out, OutFailed, put_all, schedule_part};
use ioa_system::System;
use std::alloc::{AllocError, Global};

/// What is told of lines that are an execution.
const NOTHING_WRONG: &[u8] = b"nothing wrong\n";

/// What an explanation says of a schedule.
#[derive(Clone, Copy, Debug, PartialEq, Eq)]
pub enum LineFinding {
    /// Its lines are an execution.
    NothingWrong,
    /// Its lines are refused.
    Refused,
}

/// Tells people what is wrong with the schedule in a text, which is a report or has the lines alone, or `nothing wrong`
/// if it is an execution. The first line has the name of the text as it is given, the line and the column of the place,
/// and the number and the name of the refusal, which is that of the check. Below stands the line with carets. If the
/// line spells no entry, the token that does not fit is marked, and it is told what could stand there; if its entry is
/// no step, the line is, and it is told why.
pub fn explain_lines<O: Out>(
    alloc: Global,
    system: &System,
    name: &str,
    text: &str,
    out: &mut O,
) -> Result<LineFinding, ExplainLinesFault>
    requires { O.failed out.old ≡ false }
    ensures found { IfOk result (λ f. spec.IsFindingOn f (answer_of system.now text.now)) }
    ensures told { spec.Explains name.now text.now (answer_of system.now text.now)
        (O.bytes out.old) (O.bytes out.new) (O.failed out.new) result }
{
    match explanation_of(alloc, system, name, text) {
        Ok(explanation) => put_explanation(out, &explanation),
        Err(AllocError) => Err(ExplainLinesFault::Memory),
    }
}

/// What is wrong with a schedule, and what is told of it.
#[derive(Drop)]
struct Explanation {
    /// Whether its lines are refused.
    finding: LineFinding,
    /// What is told of it.
    page: Vec<u8>,
}

/// Puts out an explanation.
fn put_explanation<O: Out>(
    out: &mut O,
    explanation: &Explanation,
) -> Result<LineFinding, ExplainLinesFault>
    requires { O.failed out.old ≡ false }
    ensures finding { IfOk result (λ f. f ≡ explanation.now.finding) }
    ensures put { spec.Puts explanation.now.page.items
        (O.bytes out.old) (O.bytes out.new) (O.failed out.new) result }
{
    match put_all(out, &explanation.page) {
        Ok(()) => Ok(explanation.finding),
        Err(OutFailed) => Err(ExplainLinesFault::Write),
    }
}

/// What is wrong with the schedule in a text, and what is told of it.
fn explanation_of(
    alloc: Global,
    system: &System,
    name: &str,
    text: &str,
) -> Result<Explanation, AllocError>
    ensures found { IfOk result (λ e. spec.IsFindingOn e.finding (answer_of system.now text.now)) }
    ensures told { IfOk result (λ e. Tells name.now text.now (answer_of system.now text.now) e.page.items) }
{
    let mut given = given_schedule(alloc, system, schedule_part(text))?;
    let page = page_of(alloc, system, name, text, &mut given)?;
    let finding = finding_of(&given);
    Ok(Explanation { finding, page })
}

/// Whether a schedule is refused.
fn finding_of(given: &GivenSchedule) -> LineFinding
    ensures { result ≡ spec.finding_of given.now.refusal }
{
    match given.refusal {
        None => LineFinding::NothingWrong,
        Some(_) => LineFinding::Refused,
    }
}

/// What is told of the schedule in a text.
fn page_of(
    alloc: Global,
    system: &System,
    name: &str,
    text: &str,
    given: &mut GivenSchedule,
) -> Result<Vec<u8>, AllocError>
    ensures kept { given.new.refusal ≡ given.old.refusal }
    ensures told { IfOk result (λ page. Tells name.now text.now (answer_by given.old.refusal) page.items) }
{
    match given.refusal {
        None => good_page(alloc),
        Some(fault) => refused_page(alloc, system, name, text, fault, given),
    }
}

/// What is told of lines that are an execution.
fn good_page(alloc: Global) -> Result<Vec<u8>, AllocError>
    ensures { IfOk result (λ page. page.items ≡ codes "nothing wrong\n") }
{
    let mut page = Vec::new(alloc);
    page.extend_from_slice(NOTHING_WRONG)?;
    Ok(page)
}
