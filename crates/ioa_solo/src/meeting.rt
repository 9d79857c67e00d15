//! First looks at nodes.

ghost use Rattle.std.specs.Prelude.{◌≡◌, IfSome, OnOk, Some, is_some, true};
ghost use Rattle.ioa_commits.specs.Books.{states_held};
ghost use Rattle.ioa_commits.specs.Versions.{read_confs};
ghost use Rattle.ioa_compose.specs.Composition.{find_conf};
ghost use Rattle.ioa_sharing.specs.Named.{shared_of_value};
ghost use Rattle.ioa_turns.specs.NodeTurns.{progress_of};
ghost use Rattle.ioa_solo.specs.Meets as spec;
ghost use Rattle.ioa_solo.specs.Meets.{met_in};
ghost use Rattle.ioa_solo.specs.SomeVisits.{IsMet, IsMetAtSome};
ghost use Rattle.ioa_solo.specs.Told.{IsToldTo, IsUpTo};
ghost use Rattle.ioa_solo.specs.Visits.{progress_in};
ghost use Rattle.ioa_solo.specs.Works.{program_of};

use crate::firing::end_by_fault;
use crate::hand::Hand;
use crate::visited::Visited;
use crate::visiting::{fault_of_view, look_at};
use ioa_actions::Component;
use ioa_boards::{Board, Place};
use ioa_book::Snapshot;
use ioa_compose::Conf;
use ioa_record::{Ending, NodeFault};
use ioa_sharing::{Origin, SharedOf};
use ioa_system::{Program, System};
use ioa_turns::Progress;
use std::alloc::{AllocError, Global};
use std::sync::ledger::Ledger;

/// Sees before the first visit of a node that the board has it with the program that the system has for it; else the
/// node ends. If the board's book was opened with the system, that is known at once, since no step changes a node's
/// program. Else the node is looked at: to compare programs takes too long for each visit.
pub(crate) fn meet<O: Origin, L: Ledger, B: Board<O, L>>(
    alloc: Global,
    board: &mut B,
    system: &SharedOf<O, System, Global>,
    node: &mut Visited<O>,
    hand: &mut Hand<L>,
) -> Result<(), AllocError>
    requires own { program_of (progress_in node.old).program.node (shared_of_value system.now).programs
        ≡ Some (progress_in node.old).program }
    ensures kept { node.new.progress.attempts ≡ node.old.progress.attempts }
    ensures program { (progress_in node.new).program ≡ (progress_in node.old).program }
    ensures number { node.new.number ≡ node.old.number }
    ensures share { hand.new.share ≡ hand.old.share }
    ensures receipts { hand.new.receipts ≡ hand.old.receipts }
    ensures same { B.told ≡ true → B.tells board.new ≡ B.tells board.old }
    ensures not_ahead { IsToldTo B.told (B.tells board.old) hand.old.pass →
        IsUpTo (B.tells board.old) hand.new.pass }
    ensures some { OnOk result (IsMet B.opened (progress_in node.old) (progress_in node.new)) }
    ensures met { IsToldTo B.told (B.tells board.old) hand.old.pass → OnOk result
        (progress_in node.new ≡ met_in (states_held (B.tells board.old)) (progress_in node.old)) }
{
    if board.is_opened_with(system) {
        Ok(())
    } else {
        meet_by_look(alloc, board, node, hand)
    }
}

/// The same by a look at the node.
fn meet_by_look<O: Origin, L: Ledger, B: Board<O, L>>(
    alloc: Global,
    board: &mut B,
    node: &mut Visited<O>,
    hand: &mut Hand<L>,
) -> Result<(), AllocError>
    ensures kept { node.new.progress.attempts ≡ node.old.progress.attempts }
    ensures program { (progress_in node.new).program ≡ (progress_in node.old).program }
    ensures number { node.new.number ≡ node.old.number }
    ensures share { hand.new.share ≡ hand.old.share }
    ensures receipts { hand.new.receipts ≡ hand.old.receipts }
    ensures same { B.told ≡ true → B.tells board.new ≡ B.tells board.old }
    ensures not_ahead { IsToldTo B.told (B.tells board.old) hand.old.pass →
        IsUpTo (B.tells board.old) hand.new.pass }
    ensures some { OnOk result (IsMetAtSome B.opened (progress_in node.old) (progress_in node.new)) }
    ensures met { IsToldTo B.told (B.tells board.old) hand.old.pass → OnOk result
        (progress_in node.new ≡ met_in (states_held (B.tells board.old)) (progress_in node.old)) }
{
    node.is_settled = false;
    let Visited { progress, look, .. } = node;
    let number = progress.program().node();
    match look_at(alloc, board, number, look, &mut hand.pass) {
        Ok(_) => {
            recognize(progress, look);
            Ok(())
        }
        Err(fault) => end_by_fault(progress, fault_of_view(fault)),
    }
}

/// Ends a node if a look at it doesn't show its program.
fn recognize<O: Origin>(node: &mut Progress, look: &Place<O>)
    requires { is_some look.now ≡ true }
    ensures kept { node.new.attempts ≡ node.old.attempts }
    ensures same { (progress_of node.new).program ≡ (progress_of node.old).program }
    ensures met { IfSome look.now (λ s. progress_of node.new ≡ met_in (read_confs s.reads) (progress_of node.old)) }
{
    match look.look() {
        Some(snapshot) => recognize_on(node, snapshot),
        None => unreachable!(),
    }
}

/// The same on the look.
fn recognize_on<O: Origin>(node: &mut Progress, snapshot: &Snapshot<O>)
    ensures kept { node.new.attempts ≡ node.old.attempts }
    ensures same { (progress_of node.new).program ≡ (progress_of node.old).program }
    ensures met { progress_of node.new ≡ met_in (read_confs snapshot.now.reads) (progress_of node.old) }
{
    if let Some(fault) = fault_shown(node.program(), snapshot) {
        node.ending = Some(Ending::Fault(fault));
    }
}

/// The fault with which the node of a program ends if a look at it doesn't show the program.
fn fault_shown<O: Origin>(program: &Program, snapshot: &Snapshot<O>) -> Option<NodeFault>
    ensures { result ≡ spec.fault_of_conf program.now
        (find_conf (Component.Node program.now.node) (read_confs snapshot.now.reads)) }
{
    match snapshot.read_of(Component::Node(program.node())) {
        Some(read) => fault_of_conf(program, read.conf()),
        None => Some(NodeFault::Unknown),
    }
}

/// The same of a configuration that the look shows of the node.
fn fault_of_conf(program: &Program, conf: &Conf) -> Option<NodeFault>
    ensures { result ≡ spec.fault_of_conf program.now (Some conf.now) }
{
    match conf {
        Conf::Node(conf) => fault_of_program(program, conf.program()),
        Conf::Queue(_) => Some(NodeFault::Differs),
    }
}

/// The same of the configuration's program.
fn fault_of_program(program: &Program, shown: &Program) -> Option<NodeFault>
    ensures { result ≡ spec.fault_of_program program.now shown.now }
{
    if program.equals(shown) {
        None
    } else {
        Some(NodeFault::Differs)
    }
}
