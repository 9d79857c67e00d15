//! Rounds of a worker.

ghost use Rattle.std.specs.Prelude.{◌≡◌, ◌⊎◌, ◌+◌, None, OnErr, OnOk, map, true};
ghost use Rattle.std.specs.List.{AllByRecursion, AllZip, list_all, list_any};
ghost use Rattle.ioa_solo.specs.Fires.{Comes};
ghost use Rattle.ioa_solo.specs.Hands.{Gains, GainsAt};
ghost use Rattle.ioa_solo.specs.Solo as spec;
ghost use Rattle.ioa_solo.specs.Solo.{IsCutShort, IsRoundCut, course_of, ending_of, ending_then, has_ended};
ghost use Rattle.ioa_solo.specs.Solo.{is_under_way, round, rounds, short_of_memory, visit_unless_ended};
ghost use Rattle.ioa_solo.specs.SomeVisits.{HasAtMost, IsEnded, IsLeft, IsOver, IsPassedBy, IsSomeVisit};
ghost use Rattle.ioa_solo.specs.Told.{IsToldTo, WorksOn};
ghost use Rattle.ioa_solo.specs.Visits.{attempts_left, number_in, numbers_of, progress_in};

use crate::hand::Hand;
use crate::visited::Visited;
use crate::visiting::visit;
use ioa_boards::{Board, Gate};
use ioa_rawlog::Spare;
use ioa_record::{Ending, NodeFault};
use ioa_sharing::Origin;
use ioa_transitions::Entry;
use std::alloc::{AllocError, Global};
use std::sync::ledger::Ledger;

/// Goes round the nodes, which have at most so many attempts each, until each has an ending. If memory runs out, each
/// node without an ending gets that fault.
pub(crate) fn go_on<O: Origin, L: Ledger, B: Board<O, L>, G: Gate>(
    alloc: Global,
    board: &mut B,
    gate: &G,
    worker: usize,
    attempts: u64,
    nodes: &mut [Visited<O>],
    hand: &mut Hand<L>,
)
    ensures gained { Gains (attempts_left nodes.old) (λ _. 0) hand.old hand.new }
    ensures numbers { numbers_of nodes.new ≡ numbers_of nodes.old }
    ensures ended { AllByRecursion (HasAtMost attempts) (map progress_in nodes.old) →
        AllZip (IsEnded B.opened) (map progress_in nodes.old) (map progress_in nodes.new) }
    ensures goes { IsToldTo B.told (B.tells board.old) hand.old.pass →
        WorksOn (B.tells board.old) hand.old (B.tells board.new) hand.new }
    ensures solo { IsToldTo B.told (B.tells board.old) hand.old.pass →
        (IsCutShort (B.tells board.old).limit (attempts + 1) (course_of (B.tells board.old))
        (map progress_in nodes.old) (course_of (B.tells board.new)) (map ending_of (map progress_in nodes.new)))
        ⊎ ((course_of (B.tells board.new), map progress_in nodes.new)
        ≡ rounds (B.tells board.old).limit (attempts + 1) (course_of (B.tells board.old))
        (map progress_in nodes.old)) }
{
    let mut spare = None;
    match go_rounds(
        alloc, board, gate, worker, attempts, nodes, hand, &mut spare,
    ) {
        Ok(()) => (),
        Err(AllocError) => end_all(nodes),
    }
}

/// Goes round the nodes until each has an ending, or memory runs out: once for each attempt, and once more. Rests after
/// a round in which nothing was committed.
fn go_rounds<O: Origin, L: Ledger, B: Board<O, L>, G: Gate>(
    alloc: Global,
    board: &mut B,
    gate: &G,
    worker: usize,
    attempts: u64,
    nodes: &mut [Visited<O>],
    hand: &mut Hand<L>,
    spare: &mut Option<Spare<Entry>>,
) -> Result<(), AllocError>
    ensures gained { Gains (attempts_left nodes.old) (attempts_left nodes.new) hand.old hand.new }
    ensures numbers { numbers_of nodes.new ≡ numbers_of nodes.old }
    ensures stopped { OnErr result (list_any is_under_way (map progress_in nodes.new) ≡ true) }
    ensures over { AllByRecursion (HasAtMost attempts) (map progress_in nodes.old) → OnOk result
        (AllZip (IsOver B.opened) (map progress_in nodes.old) (map progress_in nodes.new)) }
    ensures left { OnErr result
        (AllZip (IsLeft B.opened) (map progress_in nodes.old) (map progress_in nodes.new)) }
    ensures goes { IsToldTo B.told (B.tells board.old) hand.old.pass →
        WorksOn (B.tells board.old) hand.old (B.tells board.new) hand.new }
    ensures rounds { IsToldTo B.told (B.tells board.old) hand.old.pass → OnOk result
        ((course_of (B.tells board.new), map progress_in nodes.new)
        ≡ rounds (B.tells board.old).limit (attempts + 1) (course_of (B.tells board.old))
        (map progress_in nodes.old)) }
    ensures cut { IsToldTo B.told (B.tells board.old) hand.old.pass → OnErr result
        (IsCutShort (B.tells board.old).limit (attempts + 1) (course_of (B.tells board.old))
        (map progress_in nodes.old) (course_of (B.tells board.new)) (map ending_then (map progress_in nodes.new))) }
{
    for _round in 0..attempts {
        let committed = hand.share.count();
        go_round(alloc, board, gate, worker, nodes, hand, spare)?;
        if have_all_ended(nodes) {
            return Ok(());
        }
        rest_if_idle(board, committed, hand);
    }
    go_round(alloc, board, gate, worker, nodes, hand, spare)
}

/// Rests, if the worker has made no more commits than these.
#[inline(always)]
fn rest_if_idle<O: Origin, L: Ledger, B: Board<O, L>>(board: &B, committed: u64, hand: &Hand<L>) {
    if hand.share.count() == committed {
        board.rest();
    }
}

/// Visits each node that has no ending, in order, until memory runs out at one.
fn go_round<O: Origin, L: Ledger, B: Board<O, L>, G: Gate>(
    alloc: Global,
    board: &mut B,
    gate: &G,
    worker: usize,
    nodes: &mut [Visited<O>],
    hand: &mut Hand<L>,
    spare: &mut Option<Spare<Entry>>,
) -> Result<(), AllocError>
    ensures gained { Gains (attempts_left nodes.old) (attempts_left nodes.new) hand.old hand.new }
    ensures numbers { numbers_of nodes.new ≡ numbers_of nodes.old }
    ensures stopped { OnErr result (list_any is_under_way (map progress_in nodes.new) ≡ true) }
    ensures passed { OnOk result
        (AllZip (IsPassedBy B.opened) (map progress_in nodes.old) (map progress_in nodes.new)) }
    ensures left { OnErr result
        (AllZip (IsLeft B.opened) (map progress_in nodes.old) (map progress_in nodes.new)) }
    ensures goes { IsToldTo B.told (B.tells board.old) hand.old.pass →
        WorksOn (B.tells board.old) hand.old (B.tells board.new) hand.new }
    ensures round { IsToldTo B.told (B.tells board.old) hand.old.pass → OnOk result
        ((course_of (B.tells board.new), map progress_in nodes.new)
        ≡ round (B.tells board.old).limit (course_of (B.tells board.old)) (map progress_in nodes.old)) }
    ensures cut { IsToldTo B.told (B.tells board.old) hand.old.pass → OnErr result
        (IsRoundCut (B.tells board.old).limit (course_of (B.tells board.old)) (map progress_in nodes.old)
        (course_of (B.tells board.new)) (map ending_then (map progress_in nodes.new))) }
{
    for position in 0..nodes.len() {
        visit_unless_ended(
            alloc,
            board,
            gate,
            worker,
            &mut nodes[position],
            hand,
            spare,
        )?;
    }
    Ok(())
}

/// A visit of a node, unless it has an ending.
#[inline(always)]
fn visit_unless_ended<O: Origin, L: Ledger, B: Board<O, L>, G: Gate>(
    alloc: Global,
    board: &mut B,
    gate: &G,
    worker: usize,
    node: &mut Visited<O>,
    hand: &mut Hand<L>,
    spare: &mut Option<Spare<Entry>>,
) -> Result<(), AllocError>
    ensures gained { GainsAt (number_in node.old) node.old.progress.attempts node.new.progress.attempts
        hand.old hand.new }
    ensures same { number_in node.new ≡ number_in node.old }
    ensures number { node.new.number ≡ node.old.number }
    ensures began { OnErr result (node.old.progress.ending ≡ None) }
    ensures stopped { OnErr result (node.new.progress.ending ≡ None) }
    ensures stays { B.told ≡ true → OnErr result (B.tells board.new ≡ B.tells board.old) }
    ensures passed { OnOk result (IsPassedBy B.opened (progress_in node.old) (progress_in node.new)) }
    ensures goes { IsToldTo B.told (B.tells board.old) hand.old.pass →
        WorksOn (B.tells board.old) hand.old (B.tells board.new) hand.new }
    ensures visited { IsToldTo B.told (B.tells board.old) hand.old.pass → OnOk result
        (Comes visit_unless_ended (B.tells board.old) (progress_in node.old) (B.tells board.new)
        (progress_in node.new)) }
{
    match node.progress.ending {
        Some(_) => Ok(()),
        None => visit_under_way(alloc, board, gate, worker, node, hand, spare),
    }
}

/// A visit of a node that has no ending.
#[inline(always)]
fn visit_under_way<O: Origin, L: Ledger, B: Board<O, L>, G: Gate>(
    alloc: Global,
    board: &mut B,
    gate: &G,
    worker: usize,
    node: &mut Visited<O>,
    hand: &mut Hand<L>,
    spare: &mut Option<Spare<Entry>>,
) -> Result<(), AllocError>
    requires { node.old.progress.ending ≡ None }
    ensures gained { GainsAt (number_in node.old) node.old.progress.attempts node.new.progress.attempts
        hand.old hand.new }
    ensures same { number_in node.new ≡ number_in node.old }
    ensures number { node.new.number ≡ node.old.number }
    ensures stopped { OnErr result (node.new.progress.ending ≡ None) }
    ensures stays { B.told ≡ true → OnErr result (B.tells board.new ≡ B.tells board.old) }
    ensures passed { OnOk result (IsSomeVisit B.opened (progress_in node.old) (progress_in node.new)) }
    ensures goes { IsToldTo B.told (B.tells board.old) hand.old.pass →
        WorksOn (B.tells board.old) hand.old (B.tells board.new) hand.new }
    ensures visited { IsToldTo B.told (B.tells board.old) hand.old.pass → OnOk result
        (Comes spec.visit (B.tells board.old) (progress_in node.old) (B.tells board.new) (progress_in node.new)) }
{
    let was_settled = node.is_settled;
    node.is_settled = false;
    let Visited {
        progress,
        look,
        rooms,
        is_settled,
        ..
    } = node;
    *is_settled = visit(
        alloc,
        board,
        gate,
        worker,
        progress,
        look,
        was_settled,
        hand,
        spare,
        rooms,
    )?;
    Ok(())
}

/// Whether each node has an ending.
#[inline(always)]
fn have_all_ended<O: Origin>(nodes: &[Visited<O>]) -> bool
    ensures { result ≡ list_all has_ended (map progress_in nodes.now) }
{
    for node in nodes {
        if node.progress.ending.is_none() {
            return false;
        }
    }
    true
}

/// Ends each node that has no ending with the fault `Memory` (3).
fn end_all<O: Origin>(nodes: &mut [Visited<O>])
    ensures ended { map progress_in nodes.new ≡ map short_of_memory (map progress_in nodes.old) }
    ensures numbers { numbers_of nodes.new ≡ numbers_of nodes.old }
{
    for position in 0..nodes.len() {
        end_for_memory(&mut nodes[position]);
    }
}

/// Ends a node with the fault `Memory` (3), if it has no ending yet.
fn end_for_memory<O: Origin>(node: &mut Visited<O>)
    ensures ended { progress_in node.new ≡ short_of_memory (progress_in node.old) }
    ensures number { node.new.number ≡ node.old.number }
{
    if node.progress.ending.is_none() {
        node.is_settled = false;
        node.progress.ending = Some(Ending::Fault(NodeFault::Memory));
    }
}
