//! A run, told again.

ghost use Rattle.std.specs.Prelude.{◌≡◌, [], IfOk, IsSomeAnd, OnOk, map, true};
ghost use Rattle.std.specs.Option.{unwrap_or};
ghost use Rattle.std.specs.Arc.{arc_value};
ghost use Rattle.ioa_commits.specs.Books.{plain_book};
ghost use Rattle.ioa_compose.specs.Start.{start};
ghost use Rattle.ioa_sharing.specs.Shared.{maker_name};
ghost use Rattle.ioa_turns.specs.NodeTurns.{progress_at, progress_of};
ghost use Rattle.ioa_tell.specs.Nodes.{progress_in};
ghost use Rattle.ioa_tell.specs.Attempts.{stops_without};
ghost use Rattle.ioa_tell.specs.Told.{AreHeard, TellsOn, TellsRun, endings_told};
ghost use Rattle.ioa_tell.specs.Visits.{cut_off, ended_as};

use crate::event::Event;
use crate::fault::TellFault;
use crate::rounds::go_rounds;
use crate::tells::Tells;
use crate::visited::{Recorded, Visited};
use ioa_book::Book;
use ioa_record::{Ending, NodeFault, Options, Record};
use ioa_sharing::{Maker, MakerOf, Origin};
use ioa_system::{Program, System};
use ioa_turns::Progress;
use std::alloc::Global;
use std::marker::Brand;
use std::sync::Arc;

/// Tells the run by one worker that left a record and endings, with these options: the run is made once more, in a book
/// of its own, and each action that is taken is to be the next one of the record. So what is told first is the
/// schedule, action by action, in between what was missed, which turns were idle, and which nodes stopped; and at last
/// the endings of the record. No attempt of a node is left out. Takes about as long as the run.
///
/// If memory ran out in the run, the record does not say after which attempt. What is told stops behind the last
/// recorded action, or behind the last node that came to an ending of its own, whichever is later: so each attempt that
/// is told was made. Then each node stops for which memory ran out.
///
/// `Differs` (51) if the record is not one of a run of this system by one worker with these options. `Memory` (3) if
/// memory runs out. A fault of who is told ends it too. After a fault the contract says nothing of what was told.
pub fn tell<T: Tells>(
    alloc: Global,
    system: &System,
    options: &Options,
    run_record: &Record,
    endings: &[Ending],
    out: &mut T,
) -> Result<(), TellFault>
    ensures told { OnOk result
        (TellsRun T.hears system.now options.now.attempts run_record.now.schedule endings.now out.old out.new) }
{
    tell_by::<Brand, T>(
        alloc,
        Maker::new(),
        system,
        options,
        run_record,
        endings,
        out,
    )
}

/// The same by a maker of this origin, which numbers what the book holds.
fn tell_by<O: Origin, T: Tells>(
    alloc: Global,
    maker: Maker,
    system: &System,
    options: &Options,
    run_record: &Record,
    endings: &[Ending],
    out: &mut T,
) -> Result<(), TellFault>
    requires { maker_name maker ≡ O.name }
    ensures told { OnOk result
        (TellsRun T.hears system.now options.now.attempts run_record.now.schedule endings.now out.old out.new) }
{
    let maker: MakerOf<O> = MakerOf::of(maker);
    let mut book = Book::new(alloc, maker, system, options.steps() as usize)?;
    tell_in(alloc, &mut book, system, options, run_record, endings, out)
}

/// The same in a book in which nothing is recorded.
fn tell_in<O: Origin, T: Tells>(
    alloc: Global,
    book: &mut Book<O>,
    system: &System,
    options: &Options,
    run_record: &Record,
    endings: &[Ending],
    out: &mut T,
) -> Result<(), TellFault>
    requires fresh { book.old ≡ plain_book (start system.now) [] book.old.limit }
    ensures told { OnOk result
        (TellsRun T.hears system.now options.now.attempts run_record.now.schedule endings.now out.old out.new) }
{
    let attempts = options.attempts();
    let mut nodes = start_nodes(alloc, book, system.programs(), attempts)?;
    tell_nodes(
        alloc, book, system, attempts, &mut nodes, run_record, endings, out,
    )
}

/// The same with the nodes of the system before the run.
fn tell_nodes<O: Origin, T: Tells>(
    alloc: Global,
    book: &mut Book<O>,
    _system: &System,
    attempts: u64,
    nodes: &mut [Visited<O>],
    run_record: &Record,
    endings: &[Ending],
    out: &mut T,
) -> Result<(), TellFault>
    requires fresh { book.old ≡ plain_book (start _system.now) [] book.old.limit }
    requires before { map progress_in nodes.old ≡ map (progress_at attempts) _system.now.programs }
    ensures told { OnOk result
        (TellsRun T.hears _system.now attempts run_record.now.schedule endings.now out.old out.new) }
{
    let length = run_record.schedule.len();
    let mut left = run_record.schedule.walk();
    let recorded = Recorded { length, endings };
    go_rounds(alloc, book, attempts, nodes, &recorded, &mut left, out)?;
    let have_ended = have_ended_as(nodes, endings);
    match left.next() {
        Some(_) => Err(TellFault::Differs),
        None => {
            if have_ended {
                tell_cut_off(alloc, book, nodes, out)?;
                tell_endings(alloc, endings, out)
            } else {
                Err(TellFault::Differs)
            }
        }
    }
}

/// Tells of each node that has no ending that it stopped, that of the first one first.
fn tell_cut_off<O: Origin, T: Tells>(
    alloc: Global,
    book: &Book<O>,
    nodes: &[Visited<O>],
    out: &mut T,
) -> Result<(), TellFault>
    ensures { OnOk result (TellsOn T.hears book.now book.now [] [] out.old out.new
        (cut_off (map progress_in nodes.now))) }
{
    for node in nodes {
        tell_node_cut_off(alloc, book, &node.progress, out)?;
    }
    Ok(())
}

/// Tells that a node stopped, if it has no ending.
fn tell_node_cut_off<O: Origin, T: Tells>(
    alloc: Global,
    book: &Book<O>,
    node: &Progress,
    out: &mut T,
) -> Result<(), TellFault>
    ensures { OnOk result (TellsOn T.hears book.now book.now [] [] out.old out.new
        (stops_without (progress_of node.now))) }
{
    match node.ending {
        Some(_) => Ok(()),
        None => {
            let number = book.log().len();
            let node = node.program().node();
            out.event(alloc, Event::Stopped { number, node })
        }
    }
}

/// The nodes before the run.
fn start_nodes<'a, O: Origin>(
    alloc: Global,
    book: &Book<O>,
    programs: &'a [Arc<Program>],
    attempts: u64,
) -> Result<Vec<Visited<'a, O>>, TellFault>
    ensures { IfOk result (λ v. map progress_in v.items
        ≡ map (progress_at attempts) (map arc_value programs.now)) }
{
    let mut nodes = Vec::new(alloc);
    for program in programs {
        nodes.push(Visited::start(alloc, book, program, attempts)?)?;
    }
    Ok(nodes)
}

/// Whether these are the endings of the nodes, if memory ran out before those without one came to theirs.
fn have_ended_as<O: Origin>(nodes: &[Visited<O>], endings: &[Ending]) -> bool
    ensures { result ≡ true → map ended_as (map progress_in nodes.now) ≡ endings.now }
{
    for (position, node) in nodes.iter().enumerate() {
        if !has_ended_as(node.progress.ending, endings.get(position)) {
            return false;
        }
    }
    endings.get(nodes.len()).is_none()
}

/// Whether this is the ending of a node, if memory ran out before it came to another.
fn has_ended_as(ending: Option<Ending>, recorded: Option<&Ending>) -> bool
    ensures { result ≡ true → IsSomeAnd recorded.entry (λ r. unwrap_or ending (Ending.Fault NodeFault.Memory) ≡ r.now) }
{
    match recorded {
        Some(recorded) => ending.unwrap_or(Ending::Fault(NodeFault::Memory)) == *recorded,
        None => false,
    }
}

/// Tells the endings, that of the first node first.
fn tell_endings<T: Tells>(alloc: Global, endings: &[Ending], out: &mut T) -> Result<(), TellFault>
    ensures { OnOk result (AreHeard T.hears (endings_told 0 endings.now) out.old out.new) }
{
    for (node, ending) in endings.iter().enumerate() {
        let ending = *ending;
        out.event(alloc, Event::Ended { node, ending })?;
    }
    Ok(())
}
