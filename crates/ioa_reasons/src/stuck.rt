//! The part at which the turn of a block stops.

ghost use Rattle.std.specs.Prelude.{IfOk, IfSome, length, map};
ghost use Rattle.ioa_commits.specs.Versions.{read_confs};
ghost use Rattle.ioa_terms.specs.PlainTerm.{arms_of, fire};
ghost use Rattle.ioa_terms.specs.Resolved.{AreArmsResolved, IsResolvedStatement};
ghost use Rattle.ioa_terms.specs.View.{arm_of, firing_of, statement_of};
ghost use Rattle.ioa_terms.specs.Views.{IsNamed, environment_of, names_in_view, own_names};
ghost use Rattle.ioa_turns.specs.NodeTurns.{progress_of};
ghost use Rattle.ioa_turns.specs.Sights.{sight_of};
ghost use Rattle.ioa_reasons.specs.PlainReasons.{statement_place_of};
ghost use Rattle.ioa_reasons.specs.FoundFaults.{fault_found};
ghost use Rattle.ioa_reasons.specs.Stopping.{StopsAt};
ghost use Rattle.ioa_reasons.specs.Stops.{IsStopIn};
ghost use Rattle.ioa_reasons.specs.Stuck.{IsStuckIn, IsStuckOn};

use crate::found::{StatementFault, fault_by};
use crate::reason::StatementPlace;
use crate::stops::{Stop, faulty_in, stop_at, stop_in_assignment};
use ioa_book::Snapshot;
use ioa_schedules::TURN_LIMIT;
use ioa_sharing::Origin;
use ioa_terms::{Arm, Callee, Firing, Shape, Statement, TermFault, View, evaluate_test};
use ioa_turns::{BlockSteps, Progress};
use ioa_values::Value;
use std::alloc::{AllocError, Global};

/// The part at which the next turn of a node's block stops on a look, for whoever tells why the node ended by a fault
/// of its block. The node stays as it is. None if none is found, or if the look shows nothing that may be the node's.
/// `AllocError` if memory runs out.
pub fn find_stuck<'a, O: Origin>(
    alloc: Global,
    look: &'a Snapshot<O>,
    node: &'a Progress<'_>,
) -> Result<Option<StatementFault<'a>>, AllocError>
    ensures { IfOk result (λ o. IfSome o (λ f. IsStuckOn (progress_of node.now).program
        (read_confs look.now.reads) (statement_place_of f.place) (fault_found f.fault))) }
{
    match node.block_steps(alloc, look)? {
        None => Ok(None),
        Some(steps) => stuck_on_way(alloc, steps),
    }
}

/// The same of a block that is gone through, for as many statements as a turn has.
fn stuck_on_way<'a>(
    alloc: Global,
    steps: BlockSteps<'a>,
) -> Result<Option<StatementFault<'a>>, AllocError>
    ensures { IfOk result (λ o. IfSome o
        (λ f. IsStuckIn (sight_of steps.entry) (statement_place_of f.place) (fault_found f.fault))) }
{
    let mut steps = steps;
    for _taken in 0..TURN_LIMIT {
        match stuck_at_first(alloc, &steps)? {
            Some(stuck) => return Ok(Some(stuck)),
            None => {}
        }
        steps = match steps.behind_first(alloc) {
            Ok(rest) => rest,
            Err(TermFault::Memory) => return Err(AllocError),
            Err(_) => return Ok(None),
        };
    }
    stuck_at_first(alloc, &steps)
}

/// The same of the first statement of a block.
fn stuck_at_first<'a>(
    alloc: Global,
    steps: &BlockSteps<'a>,
) -> Result<Option<StatementFault<'a>>, AllocError>
    ensures { IfOk result (λ o. IfSome o
        (λ f. IsStuckIn (sight_of steps.now) (statement_place_of f.place) (fault_found f.fault))) }
{
    match steps.first() {
        None => Ok(None),
        Some(first) => stuck_at(alloc, first, &steps.view(), steps.own()),
    }
}

/// The same of a statement, if the block's own variables have these values.
fn stuck_at<'a>(
    alloc: Global,
    statement: &'a Statement<usize, Callee, Shape>,
    view: &View,
    own: &[Value],
) -> Result<Option<StatementFault<'a>>, AllocError>
    requires resolved { IsResolvedStatement (statement_of statement.now)
        (own_names view.now (length own.now)) (names_in_view view.now) }
    requires named { IsNamed view.now own.now }
    ensures { IfOk result (λ o. IfSome o (λ f. StopsAt (statement_place_of f.place)
        (environment_of view.now own.now) (fault_found f.fault))) }
{
    let stop = stop_in_statement(alloc, statement, view, own)?;
    fault_by(alloc, stop, view, own)
}

/// Where a statement of a block stops, before any statement that it has in it. No block has a choice.
fn stop_in_statement<'a>(
    alloc: Global,
    statement: &'a Statement<usize, Callee, Shape>,
    view: &View,
    own: &[Value],
) -> Result<Stop<'a>, AllocError>
    requires resolved { IsResolvedStatement (statement_of statement.now)
        (own_names view.now (length own.now)) (names_in_view view.now) }
    requires named { IsNamed view.now own.now }
    ensures { IfOk result (λ s. IsStopIn view.now own.now s) }
{
    match statement {
        Statement::Assign(target, term) => stop_in_assignment(alloc, target, term, view, own),
        Statement::If(arms, _) => stop_in_arms(alloc, arms, view, own),
        Statement::While(test, _) => {
            stop_at(alloc, StatementPlace::Repeated(test), test, view, own)
        }
        Statement::Fire(firing) => stop_in_firing(alloc, firing, view, own),
        Statement::Choose(_) => Ok(Stop::Unknown),
    }
}

/// Where the tests of an `if` stop, up to the first that is true.
fn stop_in_arms<'a>(
    alloc: Global,
    arms: &'a [Arm<usize, Callee, Shape>],
    view: &View,
    own: &[Value],
) -> Result<Stop<'a>, AllocError>
    requires resolved { AreArmsResolved (arms_of (map arm_of arms.now))
        (own_names view.now (length own.now)) (names_in_view view.now) }
    requires named { IsNamed view.now own.now }
    ensures { IfOk result (λ s. IsStopIn view.now own.now s) }
{
    for arm in arms {
        match evaluate_test(alloc, &arm.test, view, own) {
            Ok(true) => return Ok(Stop::Passed),
            Ok(false) => {}
            Err(_) => {
                return stop_at(
                    alloc,
                    StatementPlace::Tested(&arm.test),
                    &arm.test,
                    view,
                    own,
                );
            }
        }
    }
    Ok(Stop::Passed)
}

/// At which part of the arguments of a `fire` there is no value, of the first one that has such a part.
fn stop_in_firing<'a>(
    alloc: Global,
    firing: &'a Firing<usize, Callee, Shape>,
    view: &View,
    own: &[Value],
) -> Result<Stop<'a>, AllocError>
    requires resolved { IsResolvedStatement (fire (firing_of firing.now))
        (own_names view.now (length own.now)) (names_in_view view.now) }
    requires named { IsNamed view.now own.now }
    ensures { IfOk result (λ s. IsStopIn view.now own.now s) }
{
    for term in &firing.arguments {
        match faulty_in(alloc, term, view, own)? {
            Some(part) => return Ok(Stop::At(StatementPlace::Fired(firing), part)),
            None => {}
        }
    }
    Ok(Stop::Passed)
}
