//! Rounds of the nodes, once more.

ghost use Rattle.std.specs.Prelude.{◌≡◌, ◌++◌, false, IfOk, length, map, OnOk, Some, true};
ghost use Rattle.std.specs.Option.{option_copied};
ghost use Rattle.ioa_tell.specs.Nodes.{progress_in};
ghost use Rattle.ioa_tell.specs.Told.{TellsSuch};
ghost use Rattle.ioa_tell.specs.Visits.{AreGoneRound, IsDue, IsUnderWay};

use crate::fault::TellFault;
use crate::tells::Tells;
use crate::visited::{Recorded, Visited};
use crate::visits::visit_unless_ended;
use ioa_book::Book;
use ioa_rawlog::{Spare, Walk};
use ioa_record::{Ending, NodeFault};
use ioa_sharing::Origin;
use ioa_transitions::Entry;
use std::alloc::Global;

/// Goes round the nodes as long as the run went on for sure: once for each attempt, and once more at most.
pub(crate) fn go_rounds<O: Origin, T: Tells>(
    alloc: Global,
    book: &mut Book<O>,
    attempts: u64,
    nodes: &mut [Visited<O>],
    recorded: &Recorded<'_>,
    left: &mut Walk<'_, Entry>,
    out: &mut T,
) -> Result<(), TellFault>
    requires { recorded.now.length ≡ length (book.old.log ++ left.old) }
    ensures { OnOk result (TellsSuch T.hears book.old book.new left.old left.new out.old out.new
        (AreGoneRound false book.old.start (book.old.log ++ left.old) recorded.now.endings.now book.old.log
        (map progress_in nodes.old) (map progress_in nodes.new))) }
{
    let mut spare = None;
    for _round in 0..attempts {
        if !go_round(alloc, book, nodes, recorded, left, &mut spare, out)? {
            return Ok(());
        }
    }
    go_round(alloc, book, nodes, recorded, left, &mut spare, out)?;
    Ok(())
}

/// Visits the nodes in order, as long as the run went on for sure. Answers whether it went on behind all of them.
fn go_round<O: Origin, T: Tells>(
    alloc: Global,
    book: &mut Book<O>,
    nodes: &mut [Visited<O>],
    recorded: &Recorded<'_>,
    left: &mut Walk<'_, Entry>,
    spare: &mut Option<Spare<Entry>>,
    out: &mut T,
) -> Result<bool, TellFault>
    requires { recorded.now.length ≡ length (book.old.log ++ left.old) }
    ensures { IfOk result (λ b. TellsSuch T.hears book.old book.new left.old left.new out.old out.new
        (AreGoneRound b book.old.start (book.old.log ++ left.old) recorded.now.endings.now book.old.log
        (map progress_in nodes.old) (map progress_in nodes.new))) }
{
    for position in 0..nodes.len() {
        if !is_due(book, nodes, recorded) {
            return Ok(false);
        }
        visit_unless_ended(alloc, book, &mut nodes[position], left, spare, out)?;
    }
    Ok(is_due(book, nodes, recorded))
}

/// Whether the run went on for sure: more actions are recorded, or a node comes to an ending of its own.
fn is_due<O: Origin>(book: &Book<O>, nodes: &[Visited<O>], recorded: &Recorded<'_>) -> bool
    ensures { result ≡ true →
        IsDue recorded.now.length recorded.now.endings.now book.now.log (map progress_in nodes.now) }
{
    book.log().len() < recorded.length || is_under_way(nodes, recorded.endings)
}

/// Whether there is a node without an ending that came to one before memory ran out.
fn is_under_way<O: Origin>(nodes: &[Visited<O>], endings: &[Ending]) -> bool
    ensures { result ≡ true → IsUnderWay endings.now (map progress_in nodes.now) }
{
    for (position, node) in nodes.iter().enumerate() {
        if node.progress.ending.is_none() && !is_memory(endings.get(position)) {
            return true;
        }
    }
    false
}

/// Whether a node is recorded to have ended since memory ran out.
fn is_memory(recorded: Option<&Ending>) -> bool
    ensures { result ≡ false → option_copied recorded.entry ≡ Some (Ending.Fault NodeFault.Memory) → ⊥ }
{
    match recorded {
        Some(ending) => *ending == Ending::Fault(NodeFault::Memory),
        None => false,
    }
}
