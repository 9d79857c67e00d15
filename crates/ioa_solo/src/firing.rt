//! The commit of what a node fires.

ghost use Rattle.std.specs.Prelude.{◌≡◌, ◌<◌, ◌+◌, IfErr, IfOk, None, OnErr, OnOk, false, length, true};
ghost use Rattle.ioa_actions.specs.ActionParts.{node_of};
ghost use Rattle.ioa_solo.specs.Settled.{HasComeBack};
ghost use Rattle.ioa_schedules.specs.Turns.{IsAtFire};
ghost use Rattle.ioa_held.specs.Attempts.{IsMissed, IsTaken, commits};
ghost use Rattle.ioa_turns.specs.Faults as faults;
ghost use Rattle.ioa_turns.specs.NodeTurns.{kept_in, progress_of};
ghost use Rattle.ioa_solo.specs.Fires.{IsAfterFire, IsProposedIn, failed_by, missed_by, refused_by};
ghost use Rattle.ioa_solo.specs.Hands.{GainsAt};
ghost use Rattle.ioa_solo.specs.Solo.{IsEndedBy};
ghost use Rattle.ioa_solo.specs.SomeVisits.{IsCommitted, MissesAtSome, TakesAtSome};
ghost use Rattle.ioa_solo.specs.Told.{IsToldTo, WorksOn};

use crate::hand::Hand;
use ioa_actions::StepFault;
use ioa_boards::{Board, Gate};
use ioa_book::{CommitRefusal, Proposal, Rooms};
use ioa_held::{Miss, Missed, Taken};
use ioa_rawlog::Spare;
use ioa_receipts::{Receipt, Receipts};
use ioa_record::{Ending, NodeFault};
use ioa_sharing::Origin;
use ioa_transitions::Entry;
use ioa_turns::{Progress, fault_of_refusal, fault_of_step};
use std::alloc::{AllocError, Global};
use std::sync::ledger::Ledger;

/// The commit of a proposal of a node. If it is made, the block moves past the fire. A stale proposal ends the attempt,
/// and any other fault the node. Memory for the receipt and the log is asked for before, so that only then it can run
/// out. Returns false: whatever comes of it, the node is not settled.
#[inline(always)]
pub(crate) fn commit<O: Origin, L: Ledger, B: Board<O, L>, G: Gate>(
    alloc: Global,
    board: &mut B,
    gate: &G,
    worker: usize,
    proposal: Proposal<O>,
    node: &mut Progress,
    hand: &mut Hand<L>,
    spare: &mut Option<Spare<Entry>>,
    rooms: &mut Rooms<O>,
) -> Result<bool, AllocError>
    requires stands { IsAtFire (progress_of node.old).todo }
    requires own { node_of proposal.entry.action ≡ (progress_of node.old).program.node }
    requires under_way { node.old.ending ≡ None }
    ensures gained { GainsAt (progress_of node.old).program.node 1 0 hand.old hand.new }
    ensures kept { node.new.attempts ≡ node.old.attempts }
    ensures same { (progress_of node.new).program ≡ (progress_of node.old).program }
    ensures stopped { OnErr result (node.new.ending ≡ None) }
    ensures stays { B.told ≡ true → OnErr result (B.tells board.new ≡ B.tells board.old) }
    ensures goes { IsToldTo B.told (B.tells board.old) hand.old.pass →
        IsProposedIn (B.tells board.old) (progress_of node.old).program.node proposal →
        WorksOn (B.tells board.old) hand.old (B.tells board.new) hand.new }
    ensures fired { IsToldTo B.told (B.tells board.old) hand.old.pass →
        IsProposedIn (B.tells board.old) (progress_of node.old).program.node proposal →
        OnOk result (IsAfterFire (B.tells board.old) (progress_of node.old) proposal.entry.action
        (B.tells board.new) (progress_of node.new)) }
    ensures committed { OnOk result
        (IsCommitted B.opened proposal (progress_of node.old) (progress_of node.new)) }
    ensures unsettled { IfOk result (λ b. b ≡ false) }
{
    make_ready(alloc, &mut hand.receipts, spare)?;
    gate.before_commit(worker);
    let mut offer = Some(proposal);
    match board.attempt_quickly(&mut offer, &mut hand.pass, &mut hand.share) {
        Some(taken) => {
            let Taken {
                receipt,
                queue,
                node: participant,
            } = taken;
            rooms.keep(queue, participant);
            hand.receipts.put(receipt);
            gate.after_commit(worker);
            node.pass();
            Ok(false)
        }
        None => match offer {
            Some(proposal) => commit_tested(
                alloc, board, gate, worker, proposal, node, hand, spare, rooms,
            ),
            None => unreachable!(),
        },
    }
}

/// The same commit, of which nothing was told quickly.
#[inline(never)]
fn commit_tested<O: Origin, L: Ledger, B: Board<O, L>, G: Gate>(
    alloc: Global,
    board: &mut B,
    gate: &G,
    worker: usize,
    proposal: Proposal<O>,
    node: &mut Progress,
    hand: &mut Hand<L>,
    spare: &mut Option<Spare<Entry>>,
    rooms: &mut Rooms<O>,
) -> Result<bool, AllocError>
    requires stands { IsAtFire (progress_of node.old).todo }
    requires own { node_of proposal.entry.action ≡ (progress_of node.old).program.node }
    requires under_way { node.old.ending ≡ None }
    ensures gained { GainsAt (progress_of node.old).program.node 1 0 hand.old hand.new }
    ensures kept { node.new.attempts ≡ node.old.attempts }
    ensures same { (progress_of node.new).program ≡ (progress_of node.old).program }
    ensures stopped { OnErr result (node.new.ending ≡ None) }
    ensures stays { B.told ≡ true → OnErr result (B.tells board.new ≡ B.tells board.old) }
    ensures goes { IsToldTo B.told (B.tells board.old) hand.old.pass →
        IsProposedIn (B.tells board.old) (progress_of node.old).program.node proposal →
        WorksOn (B.tells board.old) hand.old (B.tells board.new) hand.new }
    ensures fired { IsToldTo B.told (B.tells board.old) hand.old.pass →
        IsProposedIn (B.tells board.old) (progress_of node.old).program.node proposal →
        OnOk result (IsAfterFire (B.tells board.old) (progress_of node.old) proposal.entry.action
        (B.tells board.new) (progress_of node.new)) }
    ensures committed { OnOk result
        (IsCommitted B.opened proposal (progress_of node.old) (progress_of node.new)) }
    ensures unsettled { IfOk result (λ b. b ≡ false) }
{
    let block = block_for(alloc, &mut hand.receipts, spare)?;
    match attempt(board, proposal, block, hand, spare, rooms) {
        Ok(receipt) => {
            hand.receipts.put(receipt);
            gate.after_commit(worker);
            node.pass();
            Ok(false)
        }
        Err(miss) => {
            after_miss(node, miss);
            Ok(false)
        }
    }
}

/// Makes room for a receipt, and a spare if there is none.
#[inline(always)]
fn make_ready(
    alloc: Global,
    receipts: &mut Receipts,
    spare: &mut Option<Spare<Entry>>,
) -> Result<(), AllocError>
    ensures room { OnOk result (length receipts.new.all < receipts.new.room) }
    ensures kept { receipts.new.all ≡ receipts.old.all }
{
    receipts.make_room()?;
    if spare.is_none() {
        *spare = Some(Spare::make(alloc)?);
    }
    Ok(())
}

/// A block for a commit, and room for its receipt.
fn block_for(
    alloc: Global,
    receipts: &mut Receipts,
    spare: &mut Option<Spare<Entry>>,
) -> Result<Spare<Entry>, AllocError>
    ensures room { OnOk result (length receipts.new.all < receipts.new.room) }
    ensures kept { receipts.new.all ≡ receipts.old.all }
{
    receipts.make_room()?;
    spare_of(alloc, spare)
}

/// The spare that is there, or else a new one.
fn spare_of(alloc: Global, spare: &mut Option<Spare<Entry>>) -> Result<Spare<Entry>, AllocError> {
    match spare.take() {
        Some(block) => Ok(block),
        None => Spare::make(alloc),
    }
}

/// The attempt of a proposal with a block: its receipt, or why it is missed. What was read and is held no longer is
/// room for the next proposal.
fn attempt<O: Origin, L: Ledger, B: Board<O, L>>(
    board: &mut B,
    proposal: Proposal<O>,
    block: Spare<Entry>,
    hand: &mut Hand<L>,
    spare: &mut Option<Spare<Entry>>,
    rooms: &mut Rooms<O>,
) -> Result<Receipt, Miss>
    ensures share { hand.new.share ≡ hand.old.share + commits result }
    ensures receipts { hand.new.receipts ≡ hand.old.receipts }
    ensures entry { IfOk result (λ r. r.entry ≡ proposal.entry) }
    ensures takes { OnOk result (TakesAtSome B.opened proposal) }
    ensures misses { IfErr result (λ m. MissesAtSome B.opened proposal m) }
    ensures taken { B.told ≡ true → IfOk result (λ r.
        IsTaken (B.tells board.old) proposal hand.old.pass r.index r.entry (B.tells board.new) hand.new.pass) }
    ensures missed { B.told ≡ true → IfErr result (λ m.
        IsMissed (B.tells board.old) proposal hand.old.pass m proposal (B.tells board.new) hand.new.pass) }
{
    match attempt_with(board, proposal, block, hand, spare) {
        Ok(taken) => {
            let Taken {
                receipt,
                queue,
                node,
            } = taken;
            rooms.keep(queue, node);
            Ok(receipt)
        }
        Err(missed) => Err(missed.why),
    }
}

/// The same with all that comes of it. What it leaves of the block is the next one's.
fn attempt_with<O: Origin, L: Ledger, B: Board<O, L>>(
    board: &mut B,
    proposal: Proposal<O>,
    block: Spare<Entry>,
    hand: &mut Hand<L>,
    spare: &mut Option<Spare<Entry>>,
) -> Result<Taken<O>, Missed<O>>
    ensures share { hand.new.share ≡ hand.old.share + commits result }
    ensures receipts { hand.new.receipts ≡ hand.old.receipts }
    ensures entry { IfOk result (λ t. t.receipt.entry ≡ proposal.entry) }
    ensures takes { OnOk result (TakesAtSome B.opened proposal) }
    ensures misses { IfErr result (λ m. MissesAtSome B.opened proposal m.why) }
    ensures taken { B.told ≡ true → IfOk result (λ t. IsTaken (B.tells board.old) proposal hand.old.pass
        t.receipt.index t.receipt.entry (B.tells board.new) hand.new.pass) }
    ensures missed { B.told ≡ true → IfErr result (λ m.
        IsMissed (B.tells board.old) proposal hand.old.pass m.why m.proposal (B.tells board.new) hand.new.pass) }
{
    let (result, left) = board.attempt(proposal, block, &mut hand.pass, &mut hand.share);
    *spare = left;
    result
}

/// What follows from a proposal that was missed.
#[inline(never)]
fn after_miss(node: &mut Progress, miss: Miss)
    ensures kept { node.new.attempts ≡ node.old.attempts }
    ensures same { (progress_of node.new).program ≡ (progress_of node.old).program }
    ensures missed { progress_of node.new ≡ missed_by miss (progress_of node.old) }
{
    match miss {
        Miss::Older(_) => node.ending = Some(Ending::Fault(NodeFault::Older)),
        Miss::Refused(refusal) => after_refusal(node, refusal),
    }
}

/// What follows from a proposal that the book refused: nothing, if it was stale.
fn after_refusal(node: &mut Progress, refusal: CommitRefusal)
    ensures kept { node.new.attempts ≡ node.old.attempts }
    ensures same { (progress_of node.new).program ≡ (progress_of node.old).program }
    ensures refused { progress_of node.new ≡ refused_by refusal (progress_of node.old) }
{
    if let Some(fault) = fault_of_refusal(refusal) {
        node.ending = Some(Ending::Fault(fault));
    }
}

/// What follows from a step that an action has not: the block moves past an action that is not enabled, and any other
/// fault ends the node, but that memory ran out. Returns whether the block has come back to where it was before its
/// turn.
pub(crate) fn after_fault(node: &mut Progress, fault: StepFault) -> Result<bool, AllocError>
    requires { IsAtFire (progress_of node.old).todo }
    ensures kept { node.new.attempts ≡ node.old.attempts }
    ensures same { (progress_of node.new).program ≡ (progress_of node.old).program }
    ensures failed { OnOk result (progress_of node.new ≡ failed_by fault (progress_of node.old)) }
    ensures real { OnOk result (fault ≡ StepFault.Memory → ⊥) }
    ensures unchanged { OnErr result (node.new.ending ≡ node.old.ending) }
    ensures back { IfOk result (λ b. b ≡ true →
        HasComeBack (faults.fault_of_step fault) (kept_in node.old) (progress_of node.new)) }
{
    match fault_of_step(fault) {
        None => {
            node.pass();
            Ok(node.has_come_back())
        }
        Some(fault) => {
            end_by_fault(node, fault)?;
            Ok(false)
        }
    }
}

/// Ends a node by a fault. `Memory` (3) ends no single node.
#[inline(never)]
pub(crate) fn end_by_fault(node: &mut Progress, fault: NodeFault) -> Result<(), AllocError>
    ensures kept { node.new.attempts ≡ node.old.attempts }
    ensures same { (progress_of node.new).program ≡ (progress_of node.old).program }
    ensures ended { OnOk result (IsEndedBy fault (progress_of node.old) (progress_of node.new)) }
    ensures unchanged { OnErr result (node.new.ending ≡ node.old.ending) }
{
    match fault {
        NodeFault::Memory => Err(AllocError),
        fault => {
            node.ending = Some(Ending::Fault(fault));
            Ok(())
        }
    }
}
