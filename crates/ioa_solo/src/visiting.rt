//! Visits of a node.

ghost use Rattle.std.specs.Prelude.{◌≡◌, ◌⊎◌, IfErr, IfOk, IfSome, None, OnErr, OnOk, Some, false, is_some, true};
ghost use Rattle.ioa_boards.specs.Places.{IsSeenAgain, PutsSome};
ghost use Rattle.ioa_book.specs.Looks.{IsLookAt, snapshot_after};
ghost use Rattle.ioa_book.specs.Proposals.{proposal_answer};
ghost use Rattle.ioa_commits.specs.Books.{PlainBook, held_of, states_held};
ghost use Rattle.ioa_commits.specs.Versions.{read_confs};
ghost use Rattle.ioa_schedules.specs.Turns.{IsAtFiring, fires, idle};
ghost use Rattle.ioa_schedules.specs.Views.{StandsAt};
ghost use Rattle.ioa_terms.specs.View.{firing_of};
ghost use Rattle.ioa_turns.specs.Fired.{action_fired};
ghost use Rattle.ioa_turns.specs.NodeTurns.{arguments_in, block_of, end_of, kept_in, progress_of, turn_at};
ghost use Rattle.ioa_values.specs.Outcome.{Answers};
ghost use Rattle.ioa_solo.specs.Fires as spec;
ghost use Rattle.ioa_solo.specs.Fires.{Comes, IsAfterEnd, IsAfterFire};
ghost use Rattle.ioa_solo.specs.Hands.{GainsAt};
ghost use Rattle.ioa_solo.specs.Settled.{IsSettled, IsSettledIn, IsTurned};
ghost use Rattle.ioa_solo.specs.Solo.{IsEndedBy, attempt, visit};
ghost use Rattle.ioa_solo.specs.SomeVisits.{IsAfterEndOn, IsAttemptOn, IsProposed, IsSomeAttempt, IsSomeVisit};
ghost use Rattle.ioa_solo.specs.Told.{IsToldTo, IsUpTo, WorksOn};

use crate::firing::{after_fault, commit, end_by_fault};
use crate::hand::Hand;
use ioa_actions::Component;
use ioa_boards::{Board, Gate, Place};
use ioa_book::{Rooms, Snapshot};
use ioa_passes::{Pass, ViewFault};
use ioa_rawlog::Spare;
use ioa_record::{Ending, NodeFault};
use ioa_schedules::Turn;
use ioa_sharing::Origin;
use ioa_terms::{Callee, Firing, Shape};
use ioa_transitions::Entry;
use ioa_turns::{Progress, turn_of};
use std::alloc::{AllocError, Global};
use std::sync::ledger::Ledger;

/// One visit of a node that has no ending: an attempt, if one is left; else the node is spent. `is_settled` says that
/// the node is settled on the look in its place; what is returned says whether it is now.
#[inline(always)]
pub(crate) fn visit<O: Origin, L: Ledger, B: Board<O, L>, G: Gate>(
    alloc: Global,
    board: &mut B,
    gate: &G,
    worker: usize,
    node: &mut Progress,
    look: &mut Place<O>,
    is_settled: bool,
    hand: &mut Hand<L>,
    spare: &mut Option<Spare<Entry>>,
    rooms: &mut Rooms<O>,
) -> Result<bool, AllocError>
    requires under_way { node.old.ending ≡ None }
    requires settled { is_settled ≡ true → IsSettledIn (progress_of node.old) look.old }
    ensures gained { GainsAt (progress_of node.old).program.node node.old.attempts node.new.attempts
        hand.old hand.new }
    ensures same { (progress_of node.new).program ≡ (progress_of node.old).program }
    ensures stopped { OnErr result (node.new.ending ≡ None) }
    ensures stays { B.told ≡ true → OnErr result (B.tells board.new ≡ B.tells board.old) }
    ensures goes { IsToldTo B.told (B.tells board.old) hand.old.pass →
        WorksOn (B.tells board.old) hand.old (B.tells board.new) hand.new }
    ensures visited { IsToldTo B.told (B.tells board.old) hand.old.pass → OnOk result
        (Comes visit (B.tells board.old) (progress_of node.old) (B.tells board.new) (progress_of node.new)) }
    ensures passed { OnOk result (IsSomeVisit B.opened (progress_of node.old) (progress_of node.new)) }
    ensures settled { IfOk result (λ b. b ≡ true → IsSettledIn (progress_of node.new) look.new) }
{
    if node.attempts == 0 {
        node.ending = Some(Ending::Spent);
        return Ok(false);
    }
    node.attempts -= 1;
    attempt(
        alloc, board, gate, worker, node, look, is_settled, hand, spare, rooms,
    )
}

/// One attempt of a node: a look at it, and what follows from that. A node that is not there has no turn. One that is
/// settled, and of which the look shows the same as before, has no more to do.
#[inline(always)]
fn attempt<O: Origin, L: Ledger, B: Board<O, L>, G: Gate>(
    alloc: Global,
    board: &mut B,
    gate: &G,
    worker: usize,
    node: &mut Progress,
    look: &mut Place<O>,
    is_settled: bool,
    hand: &mut Hand<L>,
    spare: &mut Option<Spare<Entry>>,
    rooms: &mut Rooms<O>,
) -> Result<bool, AllocError>
    requires under_way { node.old.ending ≡ None }
    requires settled { is_settled ≡ true → IsSettledIn (progress_of node.old) look.old }
    ensures gained { GainsAt (progress_of node.old).program.node 1 0 hand.old hand.new }
    ensures kept { node.new.attempts ≡ node.old.attempts }
    ensures same { (progress_of node.new).program ≡ (progress_of node.old).program }
    ensures stopped { OnErr result (node.new.ending ≡ None) }
    ensures stays { B.told ≡ true → OnErr result (B.tells board.new ≡ B.tells board.old) }
    ensures goes { IsToldTo B.told (B.tells board.old) hand.old.pass →
        WorksOn (B.tells board.old) hand.old (B.tells board.new) hand.new }
    ensures attempted { IsToldTo B.told (B.tells board.old) hand.old.pass → OnOk result
        (Comes attempt (B.tells board.old) (progress_of node.old) (B.tells board.new) (progress_of node.new)) }
    ensures some { OnOk result (IsSomeAttempt B.opened (progress_of node.old) (progress_of node.new)) }
    ensures settled { IfOk result (λ b. b ≡ true → IsSettledIn (progress_of node.new) look.new) }
{
    let number = node.program().node();
    match look_at(alloc, board, number, look, &mut hand.pass) {
        Ok(is_same) => {
            gate.looked(worker, number);
            attempt_unless_settled(
                alloc,
                board,
                gate,
                worker,
                node,
                look,
                is_same & is_settled,
                hand,
                spare,
                rooms,
            )
        }
        Err(fault) => end_attempt(node, fault_of_view(fault)),
    }
}

/// Ends a node by a fault, as of [`end_by_fault`]. It is not settled then.
#[inline(never)]
fn end_attempt(node: &mut Progress, fault: NodeFault) -> Result<bool, AllocError>
    ensures kept { node.new.attempts ≡ node.old.attempts }
    ensures same { (progress_of node.new).program ≡ (progress_of node.old).program }
    ensures ended { OnOk result (IsEndedBy fault (progress_of node.old) (progress_of node.new)) }
    ensures unchanged { OnErr result (node.new.ending ≡ node.old.ending) }
    ensures unsettled { IfOk result (λ b. b ≡ false) }
{
    end_by_fault(node, fault)?;
    Ok(false)
}

/// The same attempt on a look at the node, unless the node is settled on that.
#[inline(always)]
fn attempt_unless_settled<O: Origin, L: Ledger, B: Board<O, L>, G: Gate>(
    alloc: Global,
    board: &mut B,
    gate: &G,
    worker: usize,
    node: &mut Progress,
    look: &Place<O>,
    is_settled: bool,
    hand: &mut Hand<L>,
    spare: &mut Option<Spare<Entry>>,
    rooms: &mut Rooms<O>,
) -> Result<bool, AllocError>
    requires seen { is_some look.now ≡ true }
    requires own { IfSome look.now (λ s. s.node ≡ (progress_of node.old).program.node) }
    requires under_way { node.old.ending ≡ None }
    requires settled { is_settled ≡ true → IsSettledIn (progress_of node.old) look.now }
    ensures gained { GainsAt (progress_of node.old).program.node 1 0 hand.old hand.new }
    ensures kept { node.new.attempts ≡ node.old.attempts }
    ensures same { (progress_of node.new).program ≡ (progress_of node.old).program }
    ensures stopped { OnErr result (node.new.ending ≡ None) }
    ensures stays { B.told ≡ true → OnErr result (B.tells board.new ≡ B.tells board.old) }
    ensures goes { IsToldTo B.told (B.tells board.old) hand.old.pass →
        look.now ≡ Some (snapshot_after (progress_of node.old).program.node (B.tells board.old).start
        (B.tells board.old).log) →
        WorksOn (B.tells board.old) hand.old (B.tells board.new) hand.new }
    ensures attempted { IsToldTo B.told (B.tells board.old) hand.old.pass →
        look.now ≡ Some (snapshot_after (progress_of node.old).program.node (B.tells board.old).start
        (B.tells board.old).log) → OnOk result
        (Comes attempt (B.tells board.old) (progress_of node.old) (B.tells board.new) (progress_of node.new)) }
    ensures on_look { OnOk result (IfSome look.now
        (λ t. IsAttemptOn B.opened t (progress_of node.old) (progress_of node.new))) }
    ensures settled { IfOk result (λ b. b ≡ true → IsSettledIn (progress_of node.new) look.now) }
{
    if is_settled {
        Ok(true)
    } else {
        attempt_seen(alloc, board, gate, worker, node, look, hand, spare, rooms)
    }
}

/// The fault with which a node ends for want of a look.
pub(crate) fn fault_of_view(fault: ViewFault) -> NodeFault
    ensures { result ≡ spec.fault_of_view fault }
{
    match fault {
        ViewFault::Memory => NodeFault::Memory,
        ViewFault::Unknown => NodeFault::Unknown,
        ViewFault::Older(_) => NodeFault::Older,
    }
}

/// Looks at a node, in the place of the last look at it. Returns whether that showed the same.
#[inline(always)]
pub(crate) fn look_at<O: Origin, L: Ledger, B: Board<O, L>>(
    alloc: Global,
    board: &mut B,
    node: i64,
    look: &mut Place<O>,
    pass: &mut Pass,
) -> Result<bool, ViewFault>
    ensures some { PutsSome B.opened pass.old node look.new pass.new result }
    ensures seen { OnOk result (is_some look.new ≡ true) }
    ensures own { OnOk result (IfSome look.new (λ s. s.node ≡ node)) }
    ensures told { IsToldTo B.told (B.tells board.old) pass.old →
        OnOk result (look.new ≡ Some (snapshot_after node (B.tells board.old).start (B.tells board.old).log)) }
    ensures fault { IsToldTo B.told (B.tells board.old) pass.old →
        IfErr result (λ f. (f ≡ ViewFault.Memory) ⊎ ((f ≡ ViewFault.Unknown)
        × (is_some (held_of (B.tells board.old) (Component.Node node)) ≡ false))) }
    ensures again { IfOk result (λ b. b ≡ true → IsSeenAgain look.old look.new) }
    ensures same { B.told ≡ true → B.tells board.new ≡ B.tells board.old }
    ensures not_ahead { IsToldTo B.told (B.tells board.old) pass.old → IsUpTo (B.tells board.old) pass.new }
{
    board.look(alloc, look, pass, node)
}

/// The same attempt on a look at the node.
#[inline(always)]
fn attempt_seen<O: Origin, L: Ledger, B: Board<O, L>, G: Gate>(
    alloc: Global,
    board: &mut B,
    gate: &G,
    worker: usize,
    node: &mut Progress,
    look: &Place<O>,
    hand: &mut Hand<L>,
    spare: &mut Option<Spare<Entry>>,
    rooms: &mut Rooms<O>,
) -> Result<bool, AllocError>
    requires seen { is_some look.now ≡ true }
    requires own { IfSome look.now (λ s. s.node ≡ (progress_of node.old).program.node) }
    requires under_way { node.old.ending ≡ None }
    ensures gained { GainsAt (progress_of node.old).program.node 1 0 hand.old hand.new }
    ensures kept { node.new.attempts ≡ node.old.attempts }
    ensures same { (progress_of node.new).program ≡ (progress_of node.old).program }
    ensures stopped { OnErr result (node.new.ending ≡ None) }
    ensures stays { B.told ≡ true → OnErr result (B.tells board.new ≡ B.tells board.old) }
    ensures goes { IsToldTo B.told (B.tells board.old) hand.old.pass →
        look.now ≡ Some (snapshot_after (progress_of node.old).program.node (B.tells board.old).start
        (B.tells board.old).log) →
        WorksOn (B.tells board.old) hand.old (B.tells board.new) hand.new }
    ensures attempted { IsToldTo B.told (B.tells board.old) hand.old.pass →
        look.now ≡ Some (snapshot_after (progress_of node.old).program.node (B.tells board.old).start
        (B.tells board.old).log) → OnOk result
        (Comes attempt (B.tells board.old) (progress_of node.old) (B.tells board.new) (progress_of node.new)) }
    ensures on_look { OnOk result (IfSome look.now
        (λ t. IsAttemptOn B.opened t (progress_of node.old) (progress_of node.new))) }
    ensures settled { IfOk result (λ b. b ≡ true → IsSettledIn (progress_of node.new) look.now) }
{
    match look.look() {
        Some(snapshot) => attempt_on(
            alloc, board, gate, worker, snapshot, node, hand, spare, rooms,
        ),
        None => unreachable!(),
    }
}

/// An attempt of a node on a look at it: its turn on what the look shows, and the step of the action that it fires.
#[inline(always)]
#[tactic(auto, using(crate::proofs::SettledNodes::turned_before))]
fn attempt_on<O: Origin, L: Ledger, B: Board<O, L>, G: Gate>(
    alloc: Global,
    board: &mut B,
    gate: &G,
    worker: usize,
    snapshot: &Snapshot<O>,
    node: &mut Progress,
    hand: &mut Hand<L>,
    spare: &mut Option<Spare<Entry>>,
    rooms: &mut Rooms<O>,
) -> Result<bool, AllocError>
    requires own { snapshot.now.node ≡ (progress_of node.old).program.node }
    requires under_way { node.old.ending ≡ None }
    ensures gained { GainsAt (progress_of node.old).program.node 1 0 hand.old hand.new }
    ensures kept { node.new.attempts ≡ node.old.attempts }
    ensures same { (progress_of node.new).program ≡ (progress_of node.old).program }
    ensures stopped { OnErr result (node.new.ending ≡ None) }
    ensures stays { B.told ≡ true → OnErr result (B.tells board.new ≡ B.tells board.old) }
    ensures goes { IsToldTo B.told (B.tells board.old) hand.old.pass →
        IsLookAt (B.tells board.old) (progress_of node.old).program.node snapshot.now →
        WorksOn (B.tells board.old) hand.old (B.tells board.new) hand.new }
    ensures attempted { IsToldTo B.told (B.tells board.old) hand.old.pass →
        IsLookAt (B.tells board.old) (progress_of node.old).program.node snapshot.now → OnOk result
        (Comes attempt (B.tells board.old) (progress_of node.old) (B.tells board.new) (progress_of node.new)) }
    ensures on_look { OnOk result
        (IsAttemptOn B.opened snapshot.now (progress_of node.old) (progress_of node.new)) }
    ensures settled { IfOk result (λ b. b ≡ true → IsSettled (progress_of node.new) snapshot.now) }
{
    match turn_on(alloc, snapshot, node) {
        Ok(turn) => after_turn(
            alloc, board, gate, worker, snapshot, node, turn, hand, spare, rooms,
        ),
        Err(fault) => end_attempt(node, fault),
    }
}

/// What follows from the turn of a node on a look at it.
#[inline(always)]
fn after_turn<O: Origin, L: Ledger, B: Board<O, L>, G: Gate>(
    alloc: Global,
    board: &mut B,
    gate: &G,
    worker: usize,
    snapshot: &Snapshot<O>,
    node: &mut Progress,
    turn: Turn,
    hand: &mut Hand<L>,
    spare: &mut Option<Spare<Entry>>,
    rooms: &mut Rooms<O>,
) -> Result<bool, AllocError>
    requires stands { StandsAt (progress_of node.old).todo turn }
    requires turned { IsTurned (kept_in node.old) snapshot.now (progress_of node.old)
        (end_of (arguments_in node.old) turn) }
    requires own { snapshot.now.node ≡ (progress_of node.old).program.node }
    requires under_way { node.old.ending ≡ None }
    ensures gained { GainsAt (progress_of node.old).program.node 1 0 hand.old hand.new }
    ensures kept { node.new.attempts ≡ node.old.attempts }
    ensures same { (progress_of node.new).program ≡ (progress_of node.old).program }
    ensures stopped { OnErr result (node.new.ending ≡ None) }
    ensures stays { B.told ≡ true → OnErr result (B.tells board.new ≡ B.tells board.old) }
    ensures goes { IsToldTo B.told (B.tells board.old) hand.old.pass →
        IsLookAt (B.tells board.old) (progress_of node.old).program.node snapshot.now →
        WorksOn (B.tells board.old) hand.old (B.tells board.new) hand.new }
    ensures came { IsToldTo B.told (B.tells board.old) hand.old.pass →
        IsLookAt (B.tells board.old) (progress_of node.old).program.node snapshot.now →
        OnOk result (IsAfterEnd (B.tells board.old) (progress_of node.old) (end_of (arguments_in node.old) turn.entry)
        (B.tells board.new) (progress_of node.new)) }
    ensures ended { OnOk result (IsAfterEndOn B.opened snapshot.now (progress_of node.old)
        (end_of (arguments_in node.old) turn.entry) (progress_of node.new)) }
    ensures settled { IfOk result (λ b. b ≡ true → IsSettled (progress_of node.new) snapshot.now) }
{
    match turn {
        Turn::Done => {
            node.ending = Some(Ending::Done);
            Ok(false)
        }
        Turn::Idle => Ok(is_settled_idle(snapshot, node)),
        Turn::Fire(firing) => {
            go_past(
                alloc, board, gate, worker, snapshot, node, firing, hand, spare, rooms,
            )
        }
    }
}

/// Whether a node whose turn was idle is settled on the look.
#[tactic(auto, using(crate::proofs::SettledNodes::settled_idle))]
fn is_settled_idle<O: Origin>(snapshot: &Snapshot<O>, node: &Progress) -> bool
    requires { IsTurned (kept_in node.now) snapshot.now (progress_of node.now) idle }
    ensures { result ≡ true → IsSettled (progress_of node.now) snapshot.now }
{
    node.has_come_back()
}

/// The turn of a node on a look at it. It uses no attempt.
#[inline(always)]
fn turn_on<'a, O: Origin>(
    alloc: Global,
    snapshot: &Snapshot<O>,
    node: &mut Progress<'a>,
) -> Result<Turn<'a>, NodeFault>
    ensures told { (b : PlainBook) → IsLookAt b (progress_of node.old).program.node snapshot.now →
        Answers NodeFault.Memory (λ t. (end_of (arguments_in node.new) t, progress_of node.new)) result
        (turn_at (states_held b) (progress_of node.old)) }
    ensures seen { Answers NodeFault.Memory (λ t. (end_of (arguments_in node.new) t, progress_of node.new)) result
        (turn_at (read_confs snapshot.now.reads) (progress_of node.old)) }
    ensures stands { IfOk result (StandsAt (progress_of node.new).todo) }
    ensures before { OnOk result (IfSome (kept_in node.new) (λ s. s ≡ block_of (progress_of node.old))) }
    ensures kept { node.new.attempts ≡ node.old.attempts }
    ensures same_program { (progress_of node.new).program ≡ (progress_of node.old).program }
    ensures same_ending { node.new.ending ≡ node.old.ending }
    ensures unchanged { OnErr result (progress_of node.new ≡ progress_of node.old) }
{
    turn_of(alloc, snapshot, node)
}

/// What follows from the fire at which a node stands: the action is proposed and committed.
#[inline(always)]
#[tactic(auto, using(ioa_schedules::proofs::Firsts::firing_stands))]
fn go_past<O: Origin, L: Ledger, B: Board<O, L>, G: Gate>(
    alloc: Global,
    board: &mut B,
    gate: &G,
    worker: usize,
    snapshot: &Snapshot<O>,
    node: &mut Progress,
    firing: &Firing<usize, Callee, Shape>,
    hand: &mut Hand<L>,
    spare: &mut Option<Spare<Entry>>,
    rooms: &mut Rooms<O>,
) -> Result<bool, AllocError>
    requires stands { IsAtFiring (firing_of firing.now) (progress_of node.old).todo }
    requires turned { IsTurned (kept_in node.old) snapshot.now (progress_of node.old)
        (fires (firing_of firing.now).kind (firing_of firing.now).action (arguments_in node.old)) }
    requires own { snapshot.now.node ≡ (progress_of node.old).program.node }
    requires under_way { node.old.ending ≡ None }
    ensures gained { GainsAt (progress_of node.old).program.node 1 0 hand.old hand.new }
    ensures kept { node.new.attempts ≡ node.old.attempts }
    ensures same { (progress_of node.new).program ≡ (progress_of node.old).program }
    ensures stopped { OnErr result (node.new.ending ≡ None) }
    ensures stays { B.told ≡ true → OnErr result (B.tells board.new ≡ B.tells board.old) }
    ensures goes { IsToldTo B.told (B.tells board.old) hand.old.pass →
        IsLookAt (B.tells board.old) (progress_of node.old).program.node snapshot.now →
        WorksOn (B.tells board.old) hand.old (B.tells board.new) hand.new }
    ensures passed { IsToldTo B.told (B.tells board.old) hand.old.pass →
        IsLookAt (B.tells board.old) (progress_of node.old).program.node snapshot.now →
        OnOk result (IsAfterFire (B.tells board.old) (progress_of node.old)
        (action_fired (progress_of node.old).program (firing_of firing.now).action (arguments_in node.old))
        (B.tells board.new) (progress_of node.new)) }
    ensures proposed { OnOk result (IsProposed B.opened (proposal_answer (action_fired (progress_of node.old).program
        (firing_of firing.now).action (arguments_in node.old)) snapshot.now) (progress_of node.old)
        (progress_of node.new)) }
    ensures settled { IfOk result (λ b. b ≡ true → IsSettled (progress_of node.new) snapshot.now) }
{
    let fired = node.action_fired(alloc, firing)?;
    match snapshot.propose_in(alloc, fired, Some(firing.rule), rooms) {
        Ok(proposal) => commit(
            alloc, board, gate, worker, proposal, node, hand, spare, rooms,
        ),
        Err(fault) => after_fault(node, fault),
    }
}
