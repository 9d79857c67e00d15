//! Visits of a node, once more.

ghost use Rattle.std.specs.Prelude.{◌≡◌, ◌⊎◌, [], ◌∷◌, ◌++◌, OnOk, Ok, Err};
ghost use Rattle.ioa_actions.specs.declared.fault.StepFault.{StepFault};
ghost use Rattle.ioa_actions.specs.ActionParts.{node_of};
ghost use Rattle.ioa_book.specs.Looks.{IsLookAt};
ghost use Rattle.ioa_book.specs.Proposals.{proposal_answer};
ghost use Rattle.ioa_commits.specs.Versions.{read_confs};
ghost use Rattle.ioa_compose.specs.Composition.{find_conf};
ghost use Rattle.ioa_compose.specs.Participants.{participants_of};
ghost use Rattle.ioa_schedules.specs.Turns.{IsAtFire, IsAtFiring};
ghost use Rattle.ioa_terms.specs.View.{firing_of};
ghost use Rattle.ioa_turns.specs.Fired.{action_fired};
ghost use Rattle.ioa_turns.specs.NodeTurns.{arguments_in, progress_of, with_ending};
ghost use Rattle.ioa_reasons.specs.Faulted.{IsFaulted};
ghost use Rattle.ioa_reasons.specs.Found.{false_part_found};
ghost use Rattle.ioa_reasons.specs.FoundFaults.{fault_found};
ghost use Rattle.ioa_reasons.specs.PlainReasons as told;
ghost use Rattle.ioa_reasons.specs.Reasons.{IsReason, queue_among};
ghost use Rattle.ioa_reasons.specs.Stuck.{IsStuckOn};
ghost use Rattle.ioa_reasons.specs.Tests.{IsFalsified, IsNodeReason};
ghost use Rattle.ioa_reasons.specs.Unfit.{IsUnfit};
ghost use Rattle.ioa_tell.specs.Attempts.{IsAfterFault, IsAfterFire, IsAttempt, IsTried, IsVisit, stops};
ghost use Rattle.ioa_tell.specs.Marks as mark;
ghost use Rattle.ioa_tell.specs.Nodes.{progress_in};
ghost use Rattle.ioa_tell.specs.Told.{TellsOn, TellsSuch};

use crate::event::Event;
use crate::fault::TellFault;
use crate::steps::{refresh, take};
use crate::tells::Tells;
use crate::visited::Visited;
use ioa_actions::{Action, Component, StepFault};
use ioa_book::{Book, Proposal, Snapshot};
use ioa_rawlog::{Spare, Walk};
use ioa_reasons::{
    Falsified, Faulted, Reason, StatementFault, Unfit, find_falsified, find_faulted, find_stuck,
    find_unfit, reason_of,
};
use ioa_record::{Ending, NodeFault};
use ioa_schedules::Turn;
use ioa_sharing::Origin;
use ioa_terms::{Callee, Firing, Shape};
use ioa_transitions::Entry;
use ioa_turns::{Progress, fault_of_step, turn_of};
use std::alloc::Global;

/// A visit of a node, unless it has an ending. If the node comes to its end, that is told too.
pub(crate) fn visit_unless_ended<O: Origin, T: Tells>(
    alloc: Global,
    book: &mut Book<O>,
    node: &mut Visited<O>,
    left: &mut Walk<'_, Entry>,
    spare: &mut Option<Spare<Entry>>,
    out: &mut T,
) -> Result<(), TellFault>
    ensures { OnOk result (TellsSuch T.hears book.old book.new left.old left.new out.old out.new
        (IsVisit book.old.start (book.old.log ++ left.old) book.old.log
        (progress_in node.old) (progress_in node.new))) }
{
    match node.progress.ending {
        Some(_) => Ok(()),
        None => {
            let Visited { progress, look } = node;
            visit(alloc, book, progress, look, left, spare, out)?;
            tell_stopped(alloc, book, progress, out)
        }
    }
}

/// Tells that a node stopped, if it has an ending.
fn tell_stopped<O: Origin, T: Tells>(
    alloc: Global,
    book: &Book<O>,
    node: &Progress,
    out: &mut T,
) -> Result<(), TellFault>
    ensures { OnOk result (TellsOn T.hears book.now book.now [] [] out.old out.new
        (stops (progress_of node.now))) }
{
    match node.ending {
        None => Ok(()),
        Some(_) => {
            let number = book.log().len();
            let node = node.program().node();
            out.event(alloc, Event::Stopped { number, node })
        }
    }
}

/// One visit of a node that has no ending: an attempt, if one is left; else the node is spent. The look is one at the
/// node.
fn visit<O: Origin, T: Tells>(
    alloc: Global,
    book: &mut Book<O>,
    node: &mut Progress,
    look: &mut Snapshot<O>,
    left: &mut Walk<'_, Entry>,
    spare: &mut Option<Spare<Entry>>,
    out: &mut T,
) -> Result<(), TellFault>
    ensures { OnOk result (TellsSuch T.hears book.old book.new left.old left.new out.old out.new
        (IsTried book.old.start (book.old.log ++ left.old) book.old.log
        (progress_of node.old) (progress_of node.new))) }
{
    if node.attempts == 0 {
        node.ending = Some(Ending::Spent);
        return Ok(());
    }
    node.attempts -= 1;
    refresh(book, look)?;
    if node.program().node() != look.node() {
        return Err(TellFault::Differs);
    }
    attempt(alloc, book, node, look, left, spare, out)
}

/// One attempt of a node on a look at it: its turn, and what follows from that.
fn attempt<O: Origin, T: Tells>(
    alloc: Global,
    book: &mut Book<O>,
    node: &mut Progress,
    look: &mut Snapshot<O>,
    left: &mut Walk<'_, Entry>,
    spare: &mut Option<Spare<Entry>>,
    out: &mut T,
) -> Result<(), TellFault>
    requires fresh { IsLookAt book.old look.old.node look.old }
    requires own { (progress_of node.old).program.node ≡ look.old.node }
    ensures { OnOk result (TellsSuch T.hears book.old book.new left.old left.new out.old out.new
        (IsAttempt book.old.start (book.old.log ++ left.old) book.old.log
        (progress_of node.old) (progress_of node.new))) }
{
    match turn_of(alloc, look, node) {
        Ok(Turn::Done) => {
            node.ending = Some(Ending::Done);
            Ok(())
        }
        Ok(Turn::Idle) => tell_idle(alloc, book, look, out),
        Ok(Turn::Fire(firing)) => go_past(alloc, book, node, look, firing, left, spare, out),
        Err(fault) => {
            tell_stuck(alloc, book, node, look, fault, out)?;
            end_by_fault(node, fault)
        }
    }
}

/// Tells at which part of its block the turn of a node stopped, if one is found.
fn tell_stuck<O: Origin, T: Tells>(
    alloc: Global,
    book: &Book<O>,
    node: &Progress,
    look: &Snapshot<O>,
    fault: NodeFault,
    out: &mut T,
) -> Result<(), TellFault>
    requires fresh { IsLookAt book.now look.now.node look.now }
    requires own { (progress_of node.now).program.node ≡ look.now.node }
    ensures { OnOk result (TellsOn T.hears book.now book.now [] [] out.old out.new []) }
{
    match fault {
        NodeFault::Undefined | NodeFault::Range => tell_own_stuck(alloc, book, node, look, out),
        _ => Ok(()),
    }
}

/// The same, where it is sought.
fn tell_own_stuck<O: Origin, T: Tells>(
    alloc: Global,
    book: &Book<O>,
    node: &Progress,
    look: &Snapshot<O>,
    out: &mut T,
) -> Result<(), TellFault>
    requires fresh { IsLookAt book.now look.now.node look.now }
    requires own { (progress_of node.now).program.node ≡ look.now.node }
    ensures { OnOk result (TellsOn T.hears book.now book.now [] [] out.old out.new []) }
{
    match find_stuck(alloc, look, node)? {
        None => Ok(()),
        Some(found) => tell_stuck_at(alloc, book, node, look, &found, out),
    }
}

/// Tells that the turn of a node's block met a fault at this part.
fn tell_stuck_at<O: Origin, T: Tells>(
    alloc: Global,
    book: &Book<O>,
    node: &Progress,
    look: &Snapshot<O>,
    found: &StatementFault<'_>,
    out: &mut T,
) -> Result<(), TellFault>
    requires fresh { IsLookAt book.now look.now.node look.now }
    requires own { (progress_of node.now).program.node ≡ look.now.node }
    requires found { IsStuckOn (progress_of node.now).program (read_confs look.now.reads)
        (told.statement_place_of found.now.place) (fault_found found.now.fault) }
    ensures { OnOk result (TellsOn T.hears book.now book.now [] [] out.old out.new []) }
{
    let event = Event::Stuck {
        number: look.length(),
        node: look.node(),
        place: found.place,
        fault: found.fault.told(),
    };
    out.event(alloc, event)
}

/// Tells that a turn of the node that was looked at was idle.
fn tell_idle<O: Origin, T: Tells>(
    alloc: Global,
    book: &Book<O>,
    look: &Snapshot<O>,
    out: &mut T,
) -> Result<(), TellFault>
    requires { IsLookAt book.now look.now.node look.now }
    ensures { OnOk result (TellsOn T.hears book.now book.now [] [] out.old out.new
        (mark.waited look.now.node ∷ [])) }
{
    let event = Event::Idle {
        number: look.length(),
        node: look.node(),
    };
    out.event(alloc, event)
}

/// Ends a node by a fault. `Memory` (3) ends the telling.
fn end_by_fault(node: &mut Progress, fault: NodeFault) -> Result<(), TellFault>
    ensures memory { OnOk result (fault ≡ NodeFault.Memory → ⊥) }
    ensures ended { OnOk result (progress_of node.new ≡ with_ending (Ending.Fault fault) (progress_of node.old)) }
{
    match fault {
        NodeFault::Memory => Err(TellFault::Memory),
        fault => {
            node.ending = Some(Ending::Fault(fault));
            Ok(())
        }
    }
}

/// What follows from the fire at which a node stands: the action is proposed, and its entry is taken or it is missed.
#[tactic(auto, using(ioa_schedules::proofs::Firsts::firing_stands))]
fn go_past<O: Origin, T: Tells>(
    alloc: Global,
    book: &mut Book<O>,
    node: &mut Progress,
    look: &mut Snapshot<O>,
    firing: &Firing<usize, Callee, Shape>,
    left: &mut Walk<'_, Entry>,
    spare: &mut Option<Spare<Entry>>,
    out: &mut T,
) -> Result<(), TellFault>
    requires fresh { IsLookAt book.old look.old.node look.old }
    requires stands { IsAtFiring (firing_of firing.now) (progress_of node.old).todo }
    ensures { OnOk result (TellsSuch T.hears book.old book.new left.old left.new out.old out.new
        (IsAfterFire look.old (book.old.log ++ left.old) book.old.log
        (progress_of node.old) (progress_of node.new)
        (action_fired (progress_of node.old).program (firing_of firing.now).action (arguments_in node.old)))) }
{
    let entry = node.action_fired(alloc, firing)?;
    match look.propose(alloc, &entry) {
        Ok(proposal) => fire(alloc, book, node, look, proposal, left, spare, out),
        Err(fault) => after_fault(alloc, book, node, look, entry.action(), fault, out),
    }
}

/// Takes the next entry of the record, which is to be that of the proposal. If none is left, the node ends, since the
/// schedule was full.
fn fire<O: Origin, T: Tells>(
    alloc: Global,
    book: &mut Book<O>,
    node: &mut Progress,
    look: &mut Snapshot<O>,
    proposal: Proposal<O>,
    left: &mut Walk<'_, Entry>,
    spare: &mut Option<Spare<Entry>>,
    out: &mut T,
) -> Result<(), TellFault>
    requires fresh { IsLookAt book.old look.old.node look.old }
    requires stands { IsAtFire (progress_of node.old).todo }
    requires proposed { proposal_answer proposal.entry.action look.old ≡ Ok proposal }
    ensures { OnOk result (TellsSuch T.hears book.old book.new left.old left.new out.old out.new
        (IsAfterFire look.old (book.old.log ++ left.old) book.old.log
        (progress_of node.old) (progress_of node.new) proposal.entry.action)) }
{
    match left.next() {
        Some(entry) => {
            take(alloc, book, look, entry, proposal, spare, out)?;
            node.pass();
            Ok(())
        }
        None => end_full(book, node),
    }
}

/// Ends a node that fires an action behind the last entry, if the book is full. If it is not, the run would have taken
/// the action.
fn end_full<O: Origin>(book: &Book<O>, node: &mut Progress) -> Result<(), TellFault>
    ensures { OnOk result (progress_of node.new ≡ with_ending (Ending.Fault NodeFault.Full) (progress_of node.old)) }
{
    if book.log().len() < book.limit() {
        return Err(TellFault::Differs);
    }
    node.ending = Some(Ending::Fault(NodeFault::Full));
    Ok(())
}

/// What follows from a step that an action has not: one that is not enabled is missed, and any other fault ends the
/// node, but that memory ran out.
fn after_fault<O: Origin, T: Tells>(
    alloc: Global,
    book: &Book<O>,
    node: &mut Progress,
    look: &Snapshot<O>,
    action: &Action,
    fault: StepFault,
    out: &mut T,
) -> Result<(), TellFault>
    requires fresh { IsLookAt book.now look.now.node look.now }
    requires stands { IsAtFire (progress_of node.old).todo }
    requires failed { (fault ≡ StepFault.Memory) ⊎ (proposal_answer action.now look.now ≡ Err fault) }
    ensures { OnOk result (TellsSuch T.hears book.now book.now [] [] out.old out.new
        (IsAfterFault look.now (progress_of node.old) (progress_of node.new) action.now)) }
{
    match fault_of_step(fault) {
        None => {
            tell_missed(alloc, book, look, action, out)?;
            node.pass();
            Ok(())
        }
        Some(fault) => {
            tell_fault(alloc, book, look, action, fault, out)?;
            end_by_fault(node, fault)
        }
    }
}

/// Tells which argument of an action does not fit, or at which part its step stopped, if one is found.
fn tell_fault<O: Origin, T: Tells>(
    alloc: Global,
    book: &Book<O>,
    look: &Snapshot<O>,
    action: &Action,
    fault: NodeFault,
    out: &mut T,
) -> Result<(), TellFault>
    requires fresh { IsLookAt book.now look.now.node look.now }
    ensures { OnOk result (TellsOn T.hears book.now book.now [] [] out.old out.new []) }
{
    match fault {
        NodeFault::Undefined | NodeFault::Range | NodeFault::NoChoice => {
            tell_own_fault(alloc, book, look, action, out)
        }
        _ => Ok(()),
    }
}

/// The same of an action of the node that was looked at.
fn tell_own_fault<O: Origin, T: Tells>(
    alloc: Global,
    book: &Book<O>,
    look: &Snapshot<O>,
    action: &Action,
    out: &mut T,
) -> Result<(), TellFault>
    requires fresh { IsLookAt book.now look.now.node look.now }
    ensures { OnOk result (TellsOn T.hears book.now book.now [] [] out.old out.new []) }
{
    if action.node() != look.node() {
        return Ok(());
    }
    match find_unfit(alloc, look, action)? {
        None => tell_step_fault(alloc, book, look, action, out),
        Some(found) => tell_unfit(alloc, book, look, action, &found, out),
    }
}

/// Tells that an argument of an action is not of the sort of its parameter.
fn tell_unfit<O: Origin, T: Tells>(
    alloc: Global,
    book: &Book<O>,
    look: &Snapshot<O>,
    action: &Action,
    found: &Unfit<'_>,
    out: &mut T,
) -> Result<(), TellFault>
    requires fresh { IsLookAt book.now look.now.node look.now }
    requires own { node_of action.now ≡ look.now.node }
    requires found { IsUnfit (find_conf (Component.Node (node_of action.now))
        (read_confs look.now.reads)) action.now found.now.name.now found.now.value }
    ensures { OnOk result (TellsOn T.hears book.now book.now [] [] out.old out.new []) }
{
    let event = Event::Unfit {
        number: look.length(),
        action,
        name: found.name,
        value: &found.value,
    };
    out.event(alloc, event)
}

/// Tells at which part the step of an action whose arguments fit stopped, if one is found.
fn tell_step_fault<O: Origin, T: Tells>(
    alloc: Global,
    book: &Book<O>,
    look: &Snapshot<O>,
    action: &Action,
    out: &mut T,
) -> Result<(), TellFault>
    requires fresh { IsLookAt book.now look.now.node look.now }
    requires own { node_of action.now ≡ look.now.node }
    ensures { OnOk result (TellsOn T.hears book.now book.now [] [] out.old out.new []) }
{
    match find_faulted(alloc, look, action)? {
        None => Ok(()),
        Some(found) => tell_faulted(alloc, book, look, action, &found, out),
    }
}

/// Tells that the step of an action met a fault at this part.
fn tell_faulted<O: Origin, T: Tells>(
    alloc: Global,
    book: &Book<O>,
    look: &Snapshot<O>,
    action: &Action,
    found: &Faulted<'_>,
    out: &mut T,
) -> Result<(), TellFault>
    requires fresh { IsLookAt book.now look.now.node look.now }
    requires own { node_of action.now ≡ look.now.node }
    requires found { IsFaulted (find_conf (Component.Node (node_of action.now))
        (read_confs look.now.reads)) action.now (told.place_of found.now.place)
        (fault_found found.now.fault) }
    ensures { OnOk result (TellsOn T.hears book.now book.now [] [] out.old out.new []) }
{
    let event = Event::Faulted {
        number: look.length(),
        action,
        place: found.place,
        fault: found.fault.told(),
    };
    out.event(alloc, event)
}

/// Tells that an action was not enabled.
fn tell_missed<O: Origin, T: Tells>(
    alloc: Global,
    book: &Book<O>,
    look: &Snapshot<O>,
    action: &Action,
    out: &mut T,
) -> Result<(), TellFault>
    requires fresh { IsLookAt book.now look.now.node look.now }
    requires missed { proposal_answer action.now look.now ≡ Err StepFault.NotEnabled }
    ensures { OnOk result (TellsOn T.hears book.now book.now [] [] out.old out.new
        (mark.missed action.now ∷ [])) }
{
    match reason_of(look, action) {
        Reason::Empty(queue) => {
            tell_reason(alloc, book, look, action, Reason::Empty(queue), out)
        }
        Reason::First(queue, front) => {
            tell_reason(alloc, book, look, action, Reason::First(queue, front), out)
        }
        Reason::Absent(queue) => {
            tell_reason(alloc, book, look, action, Reason::Absent(queue), out)
        }
        Reason::Node | Reason::False(_, _, _) => { tell_refused(alloc, book, look, action, out) }
    }
}

/// Tells that a node did not let an action pass.
fn tell_refused<O: Origin, T: Tells>(
    alloc: Global,
    book: &Book<O>,
    look: &Snapshot<O>,
    action: &Action,
    out: &mut T,
) -> Result<(), TellFault>
    requires fresh { IsLookAt book.now look.now.node look.now }
    requires missed { proposal_answer action.now look.now ≡ Err StepFault.NotEnabled }
    ensures { OnOk result (TellsOn T.hears book.now book.now [] [] out.old out.new
        (mark.missed action.now ∷ [])) }
{
    match find_falsified(alloc, look, action)? {
        None => tell_reason(alloc, book, look, action, Reason::Node, out),
        Some(found) => tell_false(alloc, book, look, action, &found, out),
    }
}

/// Tells that this part of a test was false.
fn tell_false<O: Origin, T: Tells>(
    alloc: Global,
    book: &Book<O>,
    look: &Snapshot<O>,
    action: &Action,
    found: &Falsified<'_>,
    out: &mut T,
) -> Result<(), TellFault>
    requires fresh { IsLookAt book.now look.now.node look.now }
    requires missed { proposal_answer action.now look.now ≡ Err StepFault.NotEnabled }
    requires found { IsFalsified (find_conf (Component.Node (node_of action.now))
        (read_confs look.now.reads)) action.now (false_part_found found.now) }
    ensures { OnOk result (TellsOn T.hears book.now book.now [] [] out.old out.new
        (mark.missed action.now ∷ [])) }
{
    let reason = Reason::False(found.test, found.part, found.values.as_slice());
    tell_reason(alloc, book, look, action, reason, out)
}

/// Tells that an action was not enabled, for this reason.
fn tell_reason<O: Origin, T: Tells>(
    alloc: Global,
    book: &Book<O>,
    look: &Snapshot<O>,
    action: &Action,
    reason: Reason<'_>,
    out: &mut T,
) -> Result<(), TellFault>
    requires fresh { IsLookAt book.now look.now.node look.now }
    requires missed { proposal_answer action.now look.now ≡ Err StepFault.NotEnabled }
    requires queue { IsReason (queue_among (participants_of action.now) (read_confs look.now.reads))
        action.now (told.reason_of reason) }
    requires node { IsNodeReason (find_conf (Component.Node (node_of action.now))
        (read_confs look.now.reads)) action.now (told.reason_of reason) }
    ensures { OnOk result (TellsOn T.hears book.now book.now [] [] out.old out.new
        (mark.missed action.now ∷ [])) }
{
    let number = look.length();
    out.event(
        alloc,
        Event::Missed {
            number,
            action,
            reason,
        },
    )
}
