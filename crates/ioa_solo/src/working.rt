//! The work of a worker.

ghost use Rattle.std.specs.Prelude.{◌≡◌, ◌⊎◌, ◌≤◌, ◌+◌, ◌*◌, ◌++◌, ◌∷◌, [], ℤ, Bool, IfOk, IfSome, OnOk, Some};
ghost use Rattle.std.specs.Prelude.{filter, length, map, true};
ghost use Rattle.std.specs.Option.{option_copied};
ghost use Rattle.ioa_commits.specs.Books.{states_held};
ghost use Rattle.ioa_sharing.specs.Named.{shared_of_value};
ghost use Rattle.ioa_turns.specs.NodeTurns.{progress_at};
ghost use Rattle.ioa_solo.specs.Hands.{Earns};
ghost use Rattle.ioa_solo.specs.Meets.{met_in};
ghost use Rattle.ioa_solo.specs.SomeVisits.{AreBegun, AreEndingsOf, IsMet};
ghost use Rattle.ioa_solo.specs.Told.{IsToldTo, IsUpTo, WorksOn};
ghost use Rattle.ioa_solo.specs.Visits.{attempts_left, number_in, progress_in, visited_of};
ghost use Rattle.ioa_solo.specs.Works as spec;
ghost use Rattle.ioa_solo.specs.Works.{IsAlone, IsSoloWork, all_met, met_first};

use crate::endings::{Endings, GREATEST_NODES};
use crate::going::go_on;
use crate::hand::Hand;
use crate::meeting::meet;
use crate::visited::Visited;
use ioa_boards::{Board, Gate};
use ioa_record::{Ending, NodeFault};
use ioa_sharing::{Origin, SharedOf};
use ioa_system::{Program, System};
use std::alloc::{AllocError, Global};
use std::sync::ledger::Ledger;

/// What a worker does (profile). Its nodes are given by their numbers. A node that the board doesn't show with the
/// program that the system has for it ends with the fault `Differs` (51). Then the worker goes round its nodes in order
/// until each has an ending. A visit of a node that has no attempt left ends it; else one attempt is used: a look at
/// the node on the board, one turn on what it shows, and the commit of the action that the turn fires. A receipt is
/// kept for each commit. If memory runs out, each node without an ending gets that fault. The gate is called between
/// the steps of a visit.
///
/// Returns an ending for each node. The share rises by the number of receipts that are added behind those that were
/// there. Of each node's actions there are at most as many among them as it has attempts, and of no other node's any.
pub fn work<O: Origin, L: Ledger, B: Board<O, L>, G: Gate>(
    alloc: Global,
    system: &SharedOf<O, System, Global>,
    board: &mut B,
    gate: &G,
    worker: usize,
    nodes: &[i64],
    attempts: u64,
    hand: &mut Hand<L>,
) -> Endings
    requires { length nodes.now ≤ GREATEST_NODES }
    ensures ended { length result ≡ length nodes.now }
    ensures earned { Earns attempts nodes.now hand.old hand.new }
    ensures each { AreEndingsOf B.opened attempts (shared_of_value system.now).programs nodes.now result }
    ensures goes { IsToldTo B.told (B.tells board.old) hand.old.pass →
        WorksOn (B.tells board.old) hand.old (B.tells board.new) hand.new }
    ensures solo { IsAlone B.told (B.tells board.old) hand.old.pass (shared_of_value system.now) nodes.now →
        IsSoloWork (shared_of_value system.now) attempts (B.tells board.old).limit (B.tells board.new) result }
{
    let mut visited = nodes_of(alloc, system, board, nodes, attempts, hand);
    go_on(alloc, board, gate, worker, attempts, &mut visited, hand);
    endings_of(system.get(), nodes, &visited)
}

/// The nodes before the first visit, each of which is met; none, if there is no memory for them.
fn nodes_of<'a, O: Origin, L: Ledger, B: Board<O, L>>(
    alloc: Global,
    system: &'a SharedOf<O, System, Global>,
    board: &mut B,
    nodes: &[i64],
    attempts: u64,
    hand: &mut Hand<L>,
) -> Vec<Visited<'a, O>>
    ensures few { (those : ℤ → Bool) → attempts_left result.items those ≤ attempts * length (filter those nodes.now) }
    ensures begun { AreBegun B.opened attempts (shared_of_value system.now).programs result.items }
    ensures share { hand.new.share ≡ hand.old.share }
    ensures receipts { hand.new.receipts ≡ hand.old.receipts }
    ensures same { B.told ≡ true → B.tells board.new ≡ B.tells board.old }
    ensures not_ahead { IsToldTo B.told (B.tells board.old) hand.old.pass →
        IsUpTo (B.tells board.old) hand.new.pass }
    ensures met { IsToldTo B.told (B.tells board.old) hand.old.pass → (result.items ≡ [])
        ⊎ (map visited_of result.items
        ≡ all_met (shared_of_value system.now).programs attempts (states_held (B.tells board.old)) nodes.now) }
{
    match start_nodes(alloc, system, board, nodes, attempts, hand) {
        Ok(visited) => visited,
        Err(AllocError) => Vec::new(alloc),
    }
}

/// The nodes before the first visit, but for those that the system lacks.
fn start_nodes<'a, O: Origin, L: Ledger, B: Board<O, L>>(
    alloc: Global,
    system: &'a SharedOf<O, System, Global>,
    board: &mut B,
    nodes: &[i64],
    attempts: u64,
    hand: &mut Hand<L>,
) -> Result<Vec<Visited<'a, O>>, AllocError>
    ensures few { (those : ℤ → Bool) →
        IfOk result (λ v. attempts_left v.items those ≤ attempts * length (filter those nodes.now)) }
    ensures begun { IfOk result (λ v. AreBegun B.opened attempts (shared_of_value system.now).programs v.items) }
    ensures share { hand.new.share ≡ hand.old.share }
    ensures receipts { hand.new.receipts ≡ hand.old.receipts }
    ensures same { B.told ≡ true → B.tells board.new ≡ B.tells board.old }
    ensures not_ahead { IsToldTo B.told (B.tells board.old) hand.old.pass →
        IsUpTo (B.tells board.old) hand.new.pass }
    ensures met { IsToldTo B.told (B.tells board.old) hand.old.pass → IfOk result (λ v. map visited_of v.items
        ≡ all_met (shared_of_value system.now).programs attempts (states_held (B.tells board.old)) nodes.now) }
{
    let mut visited = Vec::new(alloc);
    for node in nodes {
        start_node(alloc, system, board, *node, attempts, hand, &mut visited)?;
    }
    Ok(visited)
}

/// Puts a node behind the others, if the system has it.
fn start_node<'a, O: Origin, L: Ledger, B: Board<O, L>>(
    alloc: Global,
    system: &'a SharedOf<O, System, Global>,
    board: &mut B,
    node: i64,
    attempts: u64,
    hand: &mut Hand<L>,
    visited: &mut Vec<Visited<'a, O>>,
) -> Result<(), AllocError>
    ensures few { (those : ℤ → Bool) → OnOk result (attempts_left visited.new.items those
        ≤ attempts_left visited.old.items those + attempts * length (filter those (node ∷ []))) }
    ensures begun { AreBegun B.opened attempts (shared_of_value system.now).programs visited.old.items → OnOk result
        (AreBegun B.opened attempts (shared_of_value system.now).programs visited.new.items) }
    ensures share { hand.new.share ≡ hand.old.share }
    ensures receipts { hand.new.receipts ≡ hand.old.receipts }
    ensures same { B.told ≡ true → B.tells board.new ≡ B.tells board.old }
    ensures not_ahead { IsToldTo B.told (B.tells board.old) hand.old.pass →
        IsUpTo (B.tells board.old) hand.new.pass }
    ensures met { IsToldTo B.told (B.tells board.old) hand.old.pass → OnOk result
        (map visited_of visited.new.items ≡ map visited_of visited.old.items
        ++ met_first attempts (states_held (B.tells board.old))
        (spec.program_of node (shared_of_value system.now).programs)) }
{
    match own_program(system, node) {
        Some(program) => {
            let first = first_visited(alloc, system, program, board, attempts, hand)?;
            visited.push(first)?;
            Ok(())
        }
        None => Ok(()),
    }
}

/// The node of a program of the system before the first visit, once it is met.
fn first_visited<'a, O: Origin, L: Ledger, B: Board<O, L>>(
    alloc: Global,
    system: &SharedOf<O, System, Global>,
    program: &'a Program,
    board: &mut B,
    attempts: u64,
    hand: &mut Hand<L>,
) -> Result<Visited<'a, O>, AllocError>
    requires own { spec.program_of program.now.node (shared_of_value system.now).programs ≡ Some program.now }
    ensures all { IfOk result (λ n. n.progress.attempts ≡ attempts) }
    ensures program { IfOk result (λ n. number_in n ≡ program.now.node) }
    ensures begun { IfOk result (λ n. IsMet B.opened (progress_at attempts program.now) (progress_in n)) }
    ensures share { hand.new.share ≡ hand.old.share }
    ensures receipts { hand.new.receipts ≡ hand.old.receipts }
    ensures number { IfOk result (λ n. n.number ≡ program.now.node) }
    ensures same { B.told ≡ true → B.tells board.new ≡ B.tells board.old }
    ensures not_ahead { IsToldTo B.told (B.tells board.old) hand.old.pass →
        IsUpTo (B.tells board.old) hand.new.pass }
    ensures met { IsToldTo B.told (B.tells board.old) hand.old.pass → IfOk result
        (λ n. progress_in n ≡ met_in (states_held (B.tells board.old)) (progress_at attempts program.now)) }
{
    let mut first = Visited::start(alloc, program, attempts)?;
    meet(alloc, board, system, &mut first, hand)?;
    Ok(first)
}

/// The program of a node, if the numbered system has it. By its own number the same is found.
fn own_program<O: Origin>(system: &SharedOf<O, System, Global>, node: i64) -> Option<&Program>
    ensures found { option_copied result ≡ spec.program_of node (shared_of_value system.now).programs }
    ensures own { IfSome result (λ p. spec.program_of p.now.node (shared_of_value system.now).programs ≡ Some p.now) }
{
    match program_of(system.get(), node) {
        Some(program) => Some(program),
        None => None,
    }
}

/// The program of a node, if the system has it.
fn program_of(system: &System, node: i64) -> Option<&Program>
    ensures { option_copied result ≡ spec.program_of node system.now.programs }
{
    for program in system.programs() {
        if program.node() == node {
            return Some(program.as_ref());
        }
    }
    None
}

/// The endings of the nodes, in their order.
fn endings_of<O: Origin>(system: &System, nodes: &[i64], visited: &[Visited<O>]) -> Endings
    requires { length nodes.now ≤ GREATEST_NODES }
    ensures { result ≡ map (spec.ending_at system.now.programs visited.now) nodes.now }
{
    let mut endings = Endings::new();
    for node in nodes {
        endings.push(ending_at(system, *node, visited));
    }
    endings
}

/// The ending of a node.
fn ending_at<O: Origin>(system: &System, node: i64, visited: &[Visited<O>]) -> Ending
    ensures { result ≡ spec.ending_at system.now.programs visited.now node }
{
    match visited_at(node, visited) {
        Some(visited) => visited.progress.ending.unwrap_or(Ending::Spent),
        None => ending_unvisited(system, node),
    }
}

/// The first of some nodes with this number.
fn visited_at<'a, 'b, O: Origin>(
    node: i64,
    visited: &'a [Visited<'b, O>],
) -> Option<&'a Visited<'b, O>>
    ensures { option_copied result ≡ spec.visited_at node visited.now }
{
    visited.iter().find(|visited| visited.number == node)
}

/// The ending of a node that was not visited: `Unknown` (53) if the system lacks it, and else `Memory` (3), since
/// memory ran out before.
fn ending_unvisited(system: &System, node: i64) -> Ending
    ensures { result ≡ spec.ending_unvisited (spec.program_of node system.now.programs) }
{
    match program_of(system, node) {
        Some(_) => Ending::Fault(NodeFault::Memory),
        None => Ending::Fault(NodeFault::Unknown),
    }
}
