//! The turns of a block that runs.

ghost use Rattle.std.specs.Prelude.{◌≡◌, ◌<◌, IfErr, IfOk, IfSome, IsTrue, MatchOption, MatchResult, None, OnErr, OnOk};
ghost use Rattle.std.specs.Prelude.{Ok};
ghost use Rattle.std.specs.Prelude.{Some, false, length, true};
ghost use Rattle.ioa_values.specs.Outcome.{Answers, and_then};
ghost use Rattle.ioa_terms.specs.PlainTerm.{fire, terms_of};
ghost use Rattle.ioa_terms.specs.Resolved.{AreTermsResolved};
ghost use Rattle.ioa_terms.specs.Stepwise.{stepwise_answers};
ghost use Rattle.ioa_terms.specs.View.{firing_of, statement_of};
ghost use Rattle.ioa_schedules.specs.Controls.{arguments_of, kept_of, state_before, state_of, todo_of, values_of};
ghost use Rattle.ioa_schedules.specs.Turns as spec;
ghost use Rattle.ioa_schedules.specs.Positions.{IsEndOf, statements_in};
ghost use Rattle.ioa_schedules.specs.States.{bottom_in, plain_state, todo_in, values_in};
ghost use Rattle.ioa_schedules.specs.Turns.{IsAtFire, IsAtFiring, fires, following_statements, turn_answer, turn_limit};
ghost use Rattle.ioa_schedules.specs.Turns.{turn_result};
ghost use Rattle.ioa_schedules.specs.TurnsByStep.{LeadsOn, stepwise_turn};
ghost use Rattle.ioa_schedules.specs.Views.{AreResolvedIn, StandsAt, turn_of};
ghost use Rattle.ioa_terms.specs.Views.{IsNamed, environment_of, names_in_view};

use crate::arguments::evaluate_arguments;
use crate::control::Control;
use crate::position::Position;
use crate::state::State;
use crate::step::take_first;
use crate::turn::{TURN_LIMIT, Turn};
use ioa_terms::{Callee, Firing, Shape, Statement, TermFault, Value, View};
use ioa_values::copies;
use std::alloc::{AllocError, Global};
use std::mem;

impl<'a> Control<'a> {
    /// The block before its first turn: all of it is to do, and its variables have these initial values.
    pub fn start(
        alloc: Global,
        statements: &'a [Statement<usize, Callee, Shape>],
        initial: &[Value],
    ) -> Result<Control<'a>, AllocError>
        ensures todo { IfOk result (λ c. todo_of c ≡ statements_in statements.now) }
        ensures values { IfOk result (λ c. values_of c ≡ initial.now) }
    {
        let variables = copies(alloc, initial)?;
        Ok(Control {
            state: State {
                position: Position::start(alloc, statements),
                variables,
            },
            copy: State {
                position: Position::start(alloc, statements),
                variables: Vec::new(alloc),
            },
            is_moved: false,
            arguments: Vec::new(alloc),
        })
    }

    /// The values of the arguments of the `fire` at which the last turn ended, if it ended at one.
    pub fn arguments(&self) -> &[Value]
        ensures { result.now ≡ arguments_of self.now }
    {
        &self.arguments
    }

    /// Whether the block is again what it was before its last turn, in which it took statements. It is told only of a
    /// block that stands in its own list of statements then, and not in the body of an `if` or a `while`. It costs what
    /// comparing the values of the block's own variables does.
    pub fn has_come_back(&self) -> bool
        ensures { IsTrue result → kept_of self.now ≡ Some (state_of self.now) }
    {
        self.is_moved && self.state.is_back_at(&self.copy)
    }
}

/// The next turn of a block (profile). The block takes at most `TURN_LIMIT` statements, until it stands at a
/// `fire` or has nothing left to do; a block that stands at a `fire` stays there until it is moved past it.
/// The first fault is returned: `Undefined (1)` if a term has no value, a test has no truth value, or a new
/// value has not the variable's shape, `Range (2)` if a number lies outside 64 bits, an intermediate one too,
/// and `Memory (3)` if no memory is left. The values of the block's own variables are copied only where the
/// turn takes a statement, and its statements never. Whole rounds of a `while` that change nothing are counted
/// and not taken. The arguments of a `fire` are written over those of the one before, in the room that the control
/// keeps for them.
#[inline(always)]
#[tactic(auto, using(crate::proofs::Firsts::turn_ends, crate::proofs::ByStep::stepwise_turn_is))]
pub fn next<'a>(
    alloc: Global,
    control: &mut Control<'a>,
    view: &View,
) -> Result<Turn<'a>, TermFault>
    requires named { IsNamed view.now (values_of control.old) }
    requires resolved { AreResolvedIn view.now (length (values_of control.old)) (todo_of control.old) }
    ensures turn { Answers TermFault.Memory
        (turn_of (todo_of control.new) (environment_of view.now (values_of control.new)) (arguments_of control.new))
        result (turn_answer (todo_of control.old) turn_limit (environment_of view.now (values_of control.old))) }
    ensures stands { IfOk result (StandsAt (todo_of control.new)) }
    ensures resolved { AreResolvedIn view.now (length (values_of control.new)) (todo_of control.new) }
    ensures kept { length (values_of control.new) ≡ length (values_of control.old) }
    ensures state { OnErr result (state_of control.new ≡ state_of control.old) }
    ensures before { OnOk result (IfSome (kept_of control.new) (λ s. s ≡ state_of control.old)) }
{
    move_on(alloc, view, control)?;
    turn_here(alloc, view, control)
}

/// Takes the statements that a turn takes. If there are any, the block is copied before. After a fault the block is as
/// it was.
#[inline(always)]
#[tactic(auto, using(crate::proofs::Firsts::turn_ends))]
fn move_on<'a>(alloc: Global, view: &View, control: &mut Control<'a>) -> Result<(), TermFault>
    requires named { IsNamed view.now (values_of control.old) }
    requires resolved { AreResolvedIn view.now (length (values_of control.old)) (todo_of control.old) }
    ensures after { LeadsOn TermFault.Memory
        (λ _. stepwise_turn (todo_of control.new) 0 (environment_of view.now (values_of control.new))) result
        (stepwise_turn (todo_of control.old) turn_limit (environment_of view.now (values_of control.old))) }
    ensures resolved { AreResolvedIn view.now (length (values_of control.new)) (todo_of control.new) }
    ensures kept { length (values_of control.new) ≡ length (values_of control.old) }
    ensures before { MatchResult result (λ _. plain_state (state_before control.new) ≡ state_of control.old)
        (λ _. state_of control.new ≡ state_of control.old) }
{
    control.is_moved = false;
    if control.state.ends_turn() {
        return Ok(());
    }
    run_copied(alloc, view, control)
}

/// Copies the block, and takes the statements that a turn takes. After a fault the block is as it was.
#[inline(always)]
fn run_copied<'a>(alloc: Global, view: &View, control: &mut Control<'a>) -> Result<(), TermFault>
    requires not_moved { control.old.is_moved ≡ false }
    requires named { IsNamed view.now (values_of control.old) }
    requires resolved { AreResolvedIn view.now (length (values_of control.old)) (todo_of control.old) }
    ensures after { LeadsOn TermFault.Memory
        (λ _. stepwise_turn (todo_of control.new) 0 (environment_of view.now (values_of control.new))) result
        (stepwise_turn (todo_of control.old) turn_limit (environment_of view.now (values_of control.old))) }
    ensures resolved { AreResolvedIn view.now (length (values_of control.new)) (todo_of control.new) }
    ensures kept { length (values_of control.new) ≡ length (values_of control.old) }
    ensures before { MatchResult result (λ _. plain_state control.new.copy ≡ state_of control.old)
        (λ _. state_of control.new ≡ state_of control.old) }
    ensures moved { OnOk result (control.new.is_moved ≡ true) }
{
    control.copy.copy_from(alloc, &control.state)?;
    match run(alloc, view, &mut control.state) {
        Ok(()) => {
            control.is_moved = true;
            Ok(())
        }
        Err(fault) => {
            put_back(control);
            Err(fault)
        }
    }
}

/// Puts the block back to its copy.
#[inline(never)]
fn put_back(control: &mut Control)
    ensures { control.new.state ≡ control.old.copy }
{
    control.is_moved = false;
    mem::swap(&mut control.state, &mut control.copy);
}

/// Moves a block past the `fire` at which it stands (profile), as it does after a turn that ended there. Takes
/// no memory.
#[inline(always)]
#[tactic(auto, using(crate::proofs::Ends::end_of_end))]
pub fn passed(control: &mut Control)
    requires { IsAtFire (todo_of control.old) }
    ensures todo { todo_of control.new ≡ following_statements (todo_of control.old) }
    ensures values { values_of control.new ≡ values_of control.old }
    ensures kept { kept_of control.new ≡ kept_of control.old }
{
    control.state.position.advance();
}

/// Takes the statements that a turn takes.
#[inline(always)]
#[tactic(auto, using(crate::proofs::Firsts::turn_ends, crate::proofs::Ends::own_end, crate::proofs::Ends::end_of_end))]
fn run<'a>(alloc: Global, view: &View, state: &mut State<'a>) -> Result<(), TermFault>
    requires named { IsNamed view.now (values_in state.old) }
    requires resolved { AreResolvedIn view.now (length (values_in state.old)) (todo_in state.old) }
    ensures after { LeadsOn TermFault.Memory
        (λ _. stepwise_turn (todo_in state.new) 0 (environment_of view.now (values_in state.new))) result
        (stepwise_turn (todo_in state.old) turn_limit (environment_of view.now (values_in state.old))) }
    ensures resolved { IfOk result
        (λ _. AreResolvedIn view.now (length (values_in state.new)) (todo_in state.new)) }
    ensures kept { length (values_in state.new) ≡ length (values_in state.old) }
    ensures end { OnOk result (IsEndOf (bottom_in state.new) (bottom_in state.old)) }
{
    let mut left = TURN_LIMIT;
    while left > 0 {
        if state.ends_turn() {
            return Ok(());
        }
        left = take_some(alloc, view, state, left)?;
    }
    Ok(())
}

/// Takes a statement of a turn, of `left` that may be taken still, behind whole rounds that change nothing. Returns how
/// many may be taken then.
#[inline(always)]
#[tactic(auto, using(crate::proofs::Runs::on_rules))]
fn take_some<'a>(
    alloc: Global,
    view: &View,
    state: &mut State<'a>,
    left: usize,
) -> Result<usize, TermFault>
    requires goes_on { spec.ends_turn (todo_in state.old) ≡ false }
    requires some { 0 < left }
    requires named { IsNamed view.now (values_in state.old) }
    requires resolved { AreResolvedIn view.now (length (values_in state.old)) (todo_in state.old) }
    ensures after { LeadsOn TermFault.Memory
        (λ n. stepwise_turn (todo_in state.new) n (environment_of view.now (values_in state.new))) result
        (stepwise_turn (todo_in state.old) left (environment_of view.now (values_in state.old))) }
    ensures fewer { IfOk result (λ n. n < left) }
    ensures resolved { IfOk result
        (λ _. AreResolvedIn view.now (length (values_in state.new)) (todo_in state.new)) }
    ensures kept { length (values_in state.new) ≡ length (values_in state.old) }
    ensures end { OnOk result (IsEndOf (bottom_in state.new) (bottom_in state.old)) }
{
    let rest = take_first(alloc, view, state, left)?;
    Ok(rest - 1)
}

/// The turn that takes no statement: what a turn comes to once it has taken all that it may. After a fault the block is
/// put back to its copy, if it has taken any.
#[inline(always)]
#[tactic(auto, using(crate::proofs::Firsts::here_rules))]
fn turn_here<'a>(
    alloc: Global,
    view: &View,
    control: &mut Control<'a>,
) -> Result<Turn<'a>, TermFault>
    requires named { IsNamed view.now (values_of control.old) }
    requires resolved { AreResolvedIn view.now (length (values_of control.old)) (todo_of control.old) }
    ensures turn { Answers TermFault.Memory
        (turn_of (todo_of control.old) (environment_of view.now (values_of control.old)) (arguments_of control.new))
        result (stepwise_turn (todo_of control.old) 0 (environment_of view.now (values_of control.old))) }
    ensures stands { IfOk result (StandsAt (todo_of control.old)) }
    ensures state { MatchResult result (λ _. control.new.state ≡ control.old.state)
        (λ _. control.new.state ≡ state_before control.old) }
    ensures kept { OnOk result (kept_of control.new ≡ kept_of control.old) }
{
    match control.state.position.first() {
        None => Ok(Turn::Done),
        Some(first) => match firing_in(first) {
            None => Ok(Turn::Idle),
            Some(firing) => fired(alloc, view, control, firing),
        },
    }
}

/// The same of a block that stands at this `fire`.
#[inline(always)]
fn fired<'a>(
    alloc: Global,
    view: &View,
    control: &mut Control<'a>,
    firing: &'a Firing<usize, Callee, Shape>,
) -> Result<Turn<'a>, TermFault>
    requires named { IsNamed view.now (values_of control.old) }
    requires resolved { AreTermsResolved (terms_of (firing_of firing.now).arguments) (names_in_view view.now) }
    requires stands { IsAtFiring (firing_of firing.now) (todo_of control.old) }
    ensures turn { Answers TermFault.Memory
        (turn_of (todo_of control.old) (environment_of view.now (values_of control.old)) (arguments_of control.new))
        result (and_then (stepwise_answers (terms_of (firing_of firing.now).arguments)
        (environment_of view.now (values_of control.old)))
        (λ vs. Ok (turn_result (fires (firing_of firing.now).kind (firing_of firing.now).action vs)
        (todo_of control.old) (environment_of view.now (values_of control.old))))) }
    ensures stands { IfOk result (StandsAt (todo_of control.old)) }
    ensures state { MatchResult result (λ _. control.new.state ≡ control.old.state)
        (λ _. control.new.state ≡ state_before control.old) }
    ensures kept { OnOk result (kept_of control.new ≡ kept_of control.old) }
{
    let found = evaluate_arguments(
        alloc,
        &firing.arguments,
        view,
        &control.state.variables,
        &mut control.arguments,
    );
    match found {
        Ok(()) => Ok(Turn::Fire(firing)),
        Err(fault) => {
            if control.is_moved {
                put_back(control);
            }
            Err(fault)
        }
    }
}

/// What a statement fires, if it is a `fire`.
fn firing_in(statement: &Statement<usize, Callee, Shape>) -> Option<&Firing<usize, Callee, Shape>>
    ensures { MatchOption result (spec.is_fire (statement_of statement.now) ≡ false)
        (λ f. statement_of statement.now ≡ fire (firing_of f.now)) }
{
    match statement {
        Statement::Assign(_, _) => None,
        Statement::If(_, _) => None,
        Statement::While(_, _) => None,
        Statement::Fire(firing) => Some(firing),
        Statement::Choose(_) => None,
    }
}
