//! Rounds of a `while` that change nothing, counted at once.

ghost use Rattle.std.specs.Prelude.{◌≡◌, ◌<◌, ◌≤◌, ℕ, IfSome, Ok, Some, length, map, true};
ghost use Rattle.ioa_operators.specs.declared.shape.Shape.{Shape};
ghost use Rattle.ioa_terms.specs.declared.callee.Callee.{Callee};
ghost use Rattle.ioa_terms.specs.PlainTerm.{PlainStatements, PlainTerm, arms_of, loop, statement};
ghost use Rattle.ioa_terms.specs.Resolved.{AreAllResolved, IsResolved, IsResolvedStatement};
ghost use Rattle.ioa_terms.specs.Stepwise.{stepwise_test};
ghost use Rattle.ioa_terms.specs.View.{arm_of, statement_of, term_of};
ghost use Rattle.ioa_terms.specs.Views.{IsNamed, environment_of, names_in_view, own_names};
ghost use Rattle.ioa_schedules.specs.Positions.{statements_in};
ghost use Rattle.ioa_schedules.specs.Rounds as spec;
ghost use Rattle.ioa_schedules.specs.Rounds.{quiet_all, quiet_one};
ghost use Rattle.ioa_schedules.specs.TurnsByStep.{stepwise_turn};

use ioa_terms::{Arm, Callee, Checked, Shape, Statement, Value, View, evaluate_test};
use std::alloc::Global;

/// How many of `left` statements of a turn are left at a `while` with this body, whose test is true, once whole rounds
/// that change nothing are counted. At least one is left.
#[inline(always)]
#[tactic(auto, using(crate::proofs::WholeRounds::rounds_left, crate::proofs::WholeRounds::rest_fewer))]
pub(crate) fn left_over(
    alloc: Global,
    body: &[Statement<usize, Callee, Shape>],
    view: &View,
    values: &[Value],
    left: usize,
) -> usize
    requires some { 0 < left }
    requires named { IsNamed view.now values.now }
    requires resolved { AreAllResolved (statements_in body.now)
        (own_names view.now (length values.now)) (names_in_view view.now) }
    ensures some { 0 < result }
    ensures fewer { result ≤ left }
    ensures same { (t : PlainTerm ℕ Callee Shape) (rest : PlainStatements ℕ Callee Shape)
        → stepwise_test t (environment_of view.now values.now) ≡ Ok true
        → stepwise_turn (statement (loop t (statements_in body.now)) rest) left (environment_of view.now values.now)
        ≡ stepwise_turn (statement (loop t (statements_in body.now)) rest) result
        (environment_of view.now values.now) }
{
    match round_length(alloc, body, view, values) {
        None => left,
        Some(length) => (left - 1) % length + 1,
    }
}

/// How many statements one round of a `while` with this body takes, if its test is true and the round changes nothing.
/// It is found only where an assignment or a `fire` may not come first.
#[inline(always)]
fn round_length(
    alloc: Global,
    body: &[Statement<usize, Callee, Shape>],
    view: &View,
    values: &[Value],
) -> Option<usize>
    requires named { IsNamed view.now values.now }
    requires resolved { AreAllResolved (statements_in body.now)
        (own_names view.now (length values.now)) (names_in_view view.now) }
    ensures length { IfSome result
        (λ n. quiet_all (statements_in body.now) 1 (environment_of view.now values.now) ≡ Some n) }
    ensures above { IfSome result (λ n. 0 < n) }
{
    if may_be_quiet(body) {
        quiet_length(alloc, body, view, values, 1)
    } else {
        None
    }
}

/// Whether statements may change nothing, by what comes first on each way.
#[inline(always)]
fn may_be_quiet(body: &[Statement<usize, Callee, Shape>]) -> bool
    ensures { result ≡ spec.may_be_quiet (statements_in body.now) }
{
    match body {
        [] => true,
        [Statement::Assign(..), ..] => false,
        [Statement::If(arms, others), ..] => choice_begins_quietly(arms, others),
        [Statement::While(..), ..] => true,
        [Statement::Fire(..), ..] => false,
        [Statement::Choose(..), ..] => false,
    }
}

/// The same of those with which an `if` goes on.
fn choice_begins_quietly(
    arms: &[Arm<usize, Callee, Shape>],
    others: &[Statement<usize, Callee, Shape>],
) -> bool
    ensures { result ≡ spec.choice_begins_quietly (arms_of (map arm_of arms.now))
        (spec.begins_quietly (statements_in others.now)) }
{
    for arm in arms {
        if begins_quietly(&arm.body) {
            return true;
        }
    }
    begins_quietly(others)
}

/// Whether the first statement of a list may be one that changes nothing.
fn begins_quietly(body: &[Statement<usize, Callee, Shape>]) -> bool
    ensures { result ≡ spec.begins_quietly (statements_in body.now) }
{
    match body {
        [] => true,
        [Statement::Assign(..), ..] => false,
        [Statement::If(..), ..] => true,
        [Statement::While(..), ..] => true,
        [Statement::Fire(..), ..] => false,
        [Statement::Choose(..), ..] => false,
    }
}

/// Whether a test is true, if it has a truth value and memory is left.
fn is_true(alloc: Global, test: &Checked, view: &View, values: &[Value]) -> Option<bool>
    requires named { IsNamed view.now values.now }
    requires resolved { IsResolved (term_of test.now) (names_in_view view.now) }
    ensures { IfSome result
        (λ b. stepwise_test (term_of test.now) (environment_of view.now values.now) ≡ Ok b) }
{
    match evaluate_test(alloc, test, view, values) {
        Ok(truth) => Some(truth),
        Err(_) => None,
    }
}

/// How many statements are taken up to the end of these, if `taken` are taken before, and these change nothing. None if
/// a test has no truth value or no memory is left.
#[inline(never)]
#[cycle(counting)]
fn quiet_length(
    alloc: Global,
    statements: &[Statement<usize, Callee, Shape>],
    view: &View,
    values: &[Value],
    taken: usize,
) -> Option<usize>
    requires named { IsNamed view.now values.now }
    requires resolved { AreAllResolved (statements_in statements.now)
        (own_names view.now (length values.now)) (names_in_view view.now) }
    ensures { IfSome result (λ n. quiet_all (statements_in statements.now) taken
        (environment_of view.now values.now) ≡ Some n) }
{
    let mut count = taken;
    for statement in statements {
        count = quiet_count(alloc, statement, view, values, count)?;
    }
    Some(count)
}

/// The same of one statement, with those that it becomes.
#[cycle(counting)]
fn quiet_count(
    alloc: Global,
    statement: &Statement<usize, Callee, Shape>,
    view: &View,
    values: &[Value],
    taken: usize,
) -> Option<usize>
    requires named { IsNamed view.now values.now }
    requires resolved { IsResolvedStatement (statement_of statement.now)
        (own_names view.now (length values.now)) (names_in_view view.now) }
    ensures { IfSome result (λ n. quiet_one (statement_of statement.now) taken
        (environment_of view.now values.now) ≡ Some n) }
{
    let count = taken.checked_add(1)?;
    match statement {
        Statement::Assign(_, _) => None,
        Statement::If(arms, others) => {
            for arm in arms {
                if is_true(alloc, &arm.test, view, values)? {
                    return quiet_length(alloc, &arm.body, view, values, count);
                }
            }
            quiet_length(alloc, others, view, values, count)
        }
        Statement::While(test, _) => {
            if is_true(alloc, test, view, values)? {
                None
            } else {
                Some(count)
            }
        }
        Statement::Fire(_) => None,
        Statement::Choose(_) => None,
    }
}
