//! One statement of a block, taken.

ghost use Rattle.std.specs.Prelude.{◌≡◌, ◌<◌, ◌≤◌, IfOk, OnOk, length, map};
ghost use Rattle.ioa_values.specs.Outcome.{Answers};
ghost use Rattle.ioa_terms.specs.PlainTerm.{arms_of, branch, loop, no_statements, statement};
ghost use Rattle.ioa_terms.specs.Resolved.{AreArmsResolved, IsResolvedStatement};
ghost use Rattle.ioa_terms.specs.View.{arm_of, statement_of, term_of};
ghost use Rattle.ioa_terms.specs.Views.{IsNamed, environment_of, names_in_view, own_names};
ghost use Rattle.ioa_schedules.specs.Positions.{IsEndOf, statements_in};
ghost use Rattle.ioa_schedules.specs.States.{bottom_in, todo_in, values_in};
ghost use Rattle.ioa_schedules.specs.Turns as spec;
ghost use Rattle.ioa_schedules.specs.Turns.{following_statements};
ghost use Rattle.ioa_schedules.specs.TurnsByStep.{stepwise_choice, stepwise_first, stepwise_step, stepwise_turn};
ghost use Rattle.ioa_schedules.specs.Views.{AreResolvedIn};

use crate::rounds::left_over;
use crate::state::State;
use ioa_terms::{
    Arm, Callee, Checked, Shape, Statement, TermFault, Value, View, evaluate_test,
    perform_assignment,
};
use std::alloc::Global;

/// Whether a statement is a `fire`.
pub(crate) fn is_fire(statement: &Statement<usize, Callee, Shape>) -> bool
    ensures { result ≡ spec.is_fire (statement_of statement.now) }
{
    match statement {
        Statement::Assign(_, _) => false,
        Statement::If(_, _) => false,
        Statement::While(_, _) => false,
        Statement::Fire(_) => true,
        Statement::Choose(_) => false,
    }
}

/// The statements with which an `if` goes on.
fn choice<'a>(
    alloc: Global,
    view: &View,
    arms: &'a [Arm<usize, Callee, Shape>],
    others: &'a [Statement<usize, Callee, Shape>],
    values: &[Value],
) -> Result<&'a [Statement<usize, Callee, Shape>], TermFault>
    requires named { IsNamed view.now values.now }
    requires resolved { AreArmsResolved (arms_of (map arm_of arms.now))
        (own_names view.now (length values.now)) (names_in_view view.now) }
    ensures { Answers TermFault.Memory (λ body. statements_in body.now) result
        (stepwise_choice (arms_of (map arm_of arms.now)) (statements_in others.now)
        (environment_of view.now values.now)) }
{
    for arm in arms {
        if evaluate_test(alloc, &arm.test, view, values)? {
            return Ok(&arm.body);
        }
    }
    Ok(others)
}

/// Takes the first statement of a block, of `left` that may be taken still. Returns of how many it is the first one:
/// whole rounds that change nothing are counted before it. `Undefined (1)` if there is none, or if it is a `fire` or a
/// choice: none is taken.
#[inline(always)]
#[tactic(auto, using(crate::proofs::Firsts::first_rules))]
pub(crate) fn take_first<'a>(
    alloc: Global,
    view: &View,
    state: &mut State<'a>,
    left: usize,
) -> Result<usize, TermFault>
    requires some { 0 < left }
    requires named { IsNamed view.now (values_in state.old) }
    requires resolved { AreResolvedIn view.now (length (values_in state.old)) (todo_in state.old) }
    ensures after { Answers TermFault.Memory
        (λ _. (todo_in state.new, environment_of view.now (values_in state.new))) result
        (stepwise_first (todo_in state.old) (environment_of view.now (values_in state.old))) }
    ensures same { IfOk result
        (λ n. stepwise_turn (todo_in state.old) left (environment_of view.now (values_in state.old))
        ≡ stepwise_turn (todo_in state.old) n (environment_of view.now (values_in state.old))) }
    ensures some { IfOk result (λ n. 0 < n) }
    ensures fewer { IfOk result (λ n. n ≤ left) }
    ensures kept { length (values_in state.new) ≡ length (values_in state.old) }
    ensures end { OnOk result (IsEndOf (bottom_in state.new) (bottom_in state.old)) }
{
    match state.position.first() {
        None => Err(TermFault::Undefined),
        Some(first) => take_statement(alloc, view, state, first, left),
    }
}

/// Takes the first statement of a block, which is `first`.
#[inline(always)]
fn take_statement<'a>(
    alloc: Global,
    view: &View,
    state: &mut State<'a>,
    first: &'a Statement<usize, Callee, Shape>,
    left: usize,
) -> Result<usize, TermFault>
    requires first { todo_in state.old
        ≡ statement (statement_of first.now) (following_statements (todo_in state.old)) }
    requires some { 0 < left }
    requires named { IsNamed view.now (values_in state.old) }
    requires resolved { IsResolvedStatement (statement_of first.now)
        (own_names view.now (length (values_in state.old))) (names_in_view view.now) }
    ensures after { Answers TermFault.Memory
        (λ _. (todo_in state.new, environment_of view.now (values_in state.new))) result
        (stepwise_step (statement_of first.now) (following_statements (todo_in state.old))
        (environment_of view.now (values_in state.old))) }
    ensures same { IfOk result
        (λ n. stepwise_turn (todo_in state.old) left (environment_of view.now (values_in state.old))
        ≡ stepwise_turn (todo_in state.old) n (environment_of view.now (values_in state.old))) }
    ensures some { IfOk result (λ n. 0 < n) }
    ensures fewer { IfOk result (λ n. n ≤ left) }
    ensures kept { length (values_in state.new) ≡ length (values_in state.old) }
    ensures end { OnOk result (IsEndOf (bottom_in state.new) (bottom_in state.old)) }
{
    match first {
        Statement::Assign(target, term) => {
            perform_assignment(alloc, target, term, view, &mut state.variables)?;
            state.position.advance();
            Ok(left)
        }
        Statement::If(arms, others) => {
            take_branch(alloc, view, state, arms, others)?;
            Ok(left)
        }
        Statement::While(test, body) => take_loop(alloc, view, state, test, body, left),
        Statement::Fire(_) => Err(TermFault::Undefined),
        Statement::Choose(_) => Err(TermFault::Undefined),
    }
}

/// Takes an `if`, which comes first.
fn take_branch<'a>(
    alloc: Global,
    view: &View,
    state: &mut State<'a>,
    arms: &'a [Arm<usize, Callee, Shape>],
    others: &'a [Statement<usize, Callee, Shape>],
) -> Result<(), TermFault>
    requires some { todo_in state.old ≡ no_statements → ⊥ }
    requires named { IsNamed view.now (values_in state.old) }
    requires resolved { IsResolvedStatement (branch (arms_of (map arm_of arms.now)) (statements_in others.now))
        (own_names view.now (length (values_in state.old))) (names_in_view view.now) }
    ensures after { Answers TermFault.Memory
        (λ _. (todo_in state.new, environment_of view.now (values_in state.new))) result
        (stepwise_step (branch (arms_of (map arm_of arms.now)) (statements_in others.now))
        (following_statements (todo_in state.old)) (environment_of view.now (values_in state.old))) }
    ensures kept { values_in state.new ≡ values_in state.old }
    ensures end { OnOk result (IsEndOf (bottom_in state.new) (bottom_in state.old)) }
{
    let body = choice(alloc, view, arms, others, &state.variables)?;
    state.position.enter(body)?;
    Ok(())
}

/// Takes a `while`, which comes first, of `left` statements that may be taken still. Returns of how many it is the
/// first one.
#[inline(always)]
fn take_loop<'a>(
    alloc: Global,
    view: &View,
    state: &mut State<'a>,
    test: &Checked,
    body: &'a [Statement<usize, Callee, Shape>],
    left: usize,
) -> Result<usize, TermFault>
    requires first { todo_in state.old ≡ statement (loop (term_of test.now) (statements_in body.now))
        (following_statements (todo_in state.old)) }
    requires some { 0 < left }
    requires named { IsNamed view.now (values_in state.old) }
    requires resolved { IsResolvedStatement (loop (term_of test.now) (statements_in body.now))
        (own_names view.now (length (values_in state.old))) (names_in_view view.now) }
    ensures after { Answers TermFault.Memory
        (λ _. (todo_in state.new, environment_of view.now (values_in state.new))) result
        (stepwise_step (loop (term_of test.now) (statements_in body.now))
        (following_statements (todo_in state.old)) (environment_of view.now (values_in state.old))) }
    ensures same { IfOk result
        (λ n. stepwise_turn (todo_in state.old) left (environment_of view.now (values_in state.old))
        ≡ stepwise_turn (todo_in state.old) n (environment_of view.now (values_in state.old))) }
    ensures some { IfOk result (λ n. 0 < n) }
    ensures fewer { IfOk result (λ n. n ≤ left) }
    ensures kept { values_in state.new ≡ values_in state.old }
    ensures end { OnOk result (IsEndOf (bottom_in state.new) (bottom_in state.old)) }
{
    if evaluate_test(alloc, test, view, &state.variables)? {
        let rest = left_over(alloc, body, view, &state.variables, left);
        state.position.enter_before(body)?;
        Ok(rest)
    } else {
        state.position.advance();
        Ok(left)
    }
}
