//! Where statements meet a fault.

ghost use Rattle.std.specs.Prelude.{◌≡◌, [], IfOk, IfSome, length, map};
ghost use Rattle.ioa_terms.specs.PlainTerm.{assign, statements_of};
ghost use Rattle.ioa_terms.specs.Resolved.{AreAllResolved, IsResolved, IsResolvedStatement};
ghost use Rattle.ioa_terms.specs.View.{statement_of, target_of, term_of};
ghost use Rattle.ioa_terms.specs.Views.{IsNamed, names_in_view, own_names};
ghost use Rattle.ioa_reasons.specs.PlainReasons.{statement_place_of};
ghost use Rattle.ioa_reasons.specs.Stops.{IsFaultyIn, IsStopIn, ReadsAll};

use crate::chosen::{is_performed, stop_in_choice};
use crate::faulty::faulty_part;
use crate::misfits::misfit_in_assignment;
use crate::reason::StatementPlace;
use ioa_terms::{
    Callee, Checked, Choice, Shape, Statement, Target, TermFault, View, evaluate_test,
    perform_assignment,
};
use ioa_values::Value;
use std::alloc::{AllocError, Global};

/// What statements come to.
#[derive(Clone, Copy)]
pub(crate) enum Stop<'a> {
    /// They were performed.
    Passed,
    /// They met a fault at no part that is told.
    Unknown,
    /// They met a fault at this part, which has no value.
    At(StatementPlace<'a>, &'a Checked),
    /// They met a fault at this part, whose value has not the shape of its place.
    Misfit(StatementPlace<'a>, &'a Checked),
    /// They met a fault behind the value that this choice yields.
    Behind(&'a Choice<usize, Callee, Shape>),
}

/// What statements come to. The values that they assign are then those at the fault.
#[cycle(stopping)]
pub(crate) fn stop_of_all<'a>(
    alloc: Global,
    statements: &'a [Statement<usize, Callee, Shape>],
    view: &View,
    values: &mut Vec<Value>,
) -> Result<Stop<'a>, AllocError>
    requires resolved { AreAllResolved (statements_of (map statement_of statements.now))
        (own_names view.now (length values.old.items)) (names_in_view view.now) }
    requires named { IsNamed view.now values.old.items }
    requires front { view.now.front.now ≡ [] }
    ensures stop { IfOk result (λ s. IsStopIn view.now values.new.items s) }
    ensures kept { length values.new.items ≡ length values.old.items }
{
    for statement in statements {
        match stop_of(alloc, statement, view, values)? {
            Stop::Passed => {}
            stop => return Ok(stop),
        }
    }
    Ok(Stop::Passed)
}

/// The same of one statement.
#[cycle(stopping)]
fn stop_of<'a>(
    alloc: Global,
    statement: &'a Statement<usize, Callee, Shape>,
    view: &View,
    values: &mut Vec<Value>,
) -> Result<Stop<'a>, AllocError>
    requires resolved { IsResolvedStatement (statement_of statement.now)
        (own_names view.now (length values.old.items)) (names_in_view view.now) }
    requires named { IsNamed view.now values.old.items }
    requires front { view.now.front.now ≡ [] }
    ensures stop { IfOk result (λ s. IsStopIn view.now values.new.items s) }
    ensures kept { length values.new.items ≡ length values.old.items }
{
    match statement {
        Statement::Assign(target, term) => stop_of_assignment(alloc, target, term, view, values),
        Statement::If(arms, rest) => {
            for arm in arms {
                match evaluate_test(alloc, &arm.test, view, values) {
                    Ok(true) => return stop_of_all(alloc, &arm.body, view, values),
                    Ok(false) => {}
                    Err(_) => {
                        let place = StatementPlace::Tested(&arm.test);
                        return stop_at(alloc, place, &arm.test, view, values);
                    }
                }
            }
            stop_of_all(alloc, rest, view, values)
        }
        Statement::While(_, _) | Statement::Fire(_) => Ok(Stop::Unknown),
        Statement::Choose(choice) => {
            if is_performed(alloc, statement, view, values)? {
                Ok(Stop::Passed)
            } else {
                stop_in_choice(alloc, choice, view, values)
            }
        }
    }
}

/// The same of an assignment. After a fault the values are what they were.
fn stop_of_assignment<'a>(
    alloc: Global,
    target: &'a Target<usize, Callee, Shape>,
    term: &'a Checked,
    view: &View,
    values: &mut Vec<Value>,
) -> Result<Stop<'a>, AllocError>
    requires resolved { IsResolvedStatement (assign (target_of target.now) (term_of term.now))
        (own_names view.now (length values.old.items)) (names_in_view view.now) }
    requires named { IsNamed view.now values.old.items }
    ensures stop { IfOk result (λ s. IsStopIn view.now values.new.items s) }
    ensures kept { length values.new.items ≡ length values.old.items }
{
    match perform_assignment(alloc, target, term, view, values) {
        Ok(()) => Ok(Stop::Passed),
        Err(TermFault::Memory) => Err(AllocError),
        Err(_) => stop_in_assignment(alloc, target, term, view, values),
    }
}

/// Where an assignment stops: at a part that has no value, of the key first, or else at one whose value has not the
/// shape of its place.
pub(crate) fn stop_in_assignment<'a>(
    alloc: Global,
    target: &'a Target<usize, Callee, Shape>,
    term: &'a Checked,
    view: &View,
    values: &[Value],
) -> Result<Stop<'a>, AllocError>
    requires resolved { IsResolvedStatement (assign (target_of target.now) (term_of term.now))
        (own_names view.now (length values.now)) (names_in_view view.now) }
    requires named { IsNamed view.now values.now }
    ensures stop { IfOk result (λ s. IsStopIn view.now values.now s) }
{
    match faulty_in_assignment(alloc, target, term, view, values)? {
        Some(part) => Ok(Stop::At(StatementPlace::Assigned(target, term), part)),
        None => misfit_in_assignment(alloc, target, term, view, values),
    }
}

/// The part of an assignment that has no value: of the key first.
pub(crate) fn faulty_in_assignment<'a>(
    alloc: Global,
    target: &'a Target<usize, Callee, Shape>,
    term: &'a Checked,
    view: &View,
    values: &[Value],
) -> Result<Option<&'a Checked>, AllocError>
    requires resolved { IsResolvedStatement (assign (target_of target.now) (term_of term.now))
        (own_names view.now (length values.now)) (names_in_view view.now) }
    requires named { IsNamed view.now values.now }
    ensures { IfOk result (λ o. IfSome o (λ t. IsFaultyIn view.now values.now (term_of t.now))) }
{
    match target {
        Target::At(_, _, _, key) => match faulty_in(alloc, key, view, values)? {
            Some(part) => Ok(Some(part)),
            None => faulty_in(alloc, term, view, values),
        },
        Target::Variable(_, _, _) => faulty_in(alloc, term, view, values),
        Target::Field(_, _, _, _) => faulty_in(alloc, term, view, values),
    }
}

/// Where a statement stops at a term in it: at the part that has no value.
pub(crate) fn stop_at<'a>(
    alloc: Global,
    place: StatementPlace<'a>,
    term: &'a Checked,
    view: &View,
    values: &[Value],
) -> Result<Stop<'a>, AllocError>
    requires there { ReadsAll view.now values.now (statement_place_of place) }
    requires named { IsNamed view.now values.now }
    requires resolved { IsResolved (term_of term.now) (names_in_view view.now) }
    ensures stop { IfOk result (λ s. IsStopIn view.now values.now s) }
{
    match faulty_in(alloc, term, view, values)? {
        Some(part) => Ok(Stop::At(place, part)),
        None => Ok(Stop::Unknown),
    }
}

/// The part of a term that has no value.
#[tactic(auto, using(crate::proofs::FaultyTerms::part_is_faulty))]
pub(crate) fn faulty_in<'a>(
    alloc: Global,
    term: &'a Checked,
    view: &View,
    values: &[Value],
) -> Result<Option<&'a Checked>, AllocError>
    requires named { IsNamed view.now values.now }
    requires resolved { IsResolved (term_of term.now) (names_in_view view.now) }
    ensures { IfOk result (λ o. IfSome o (λ t. IsFaultyIn view.now values.now (term_of t.now))) }
{
    match faulty_part(alloc, term, &view.env(values))? {
        Some(part) => Ok(Some(part)),
        None => Ok(None),
    }
}
