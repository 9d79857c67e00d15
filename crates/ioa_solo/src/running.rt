//! Runs of a system by one worker.

ghost use Rattle.std.specs.Prelude.{◌≡◌, [], ◌∷◌, IfOk, map};
ghost use Rattle.std.specs.Arc.{arc_value};
ghost use Rattle.ioa_sharing.specs.Named.{shared_of_value};
ghost use Rattle.ioa_sharing.specs.Shared.{maker_name};
ghost use Rattle.ioa_compose.specs.Start.{start};
ghost use Rattle.ioa_passes.specs.Passes.{first_pass};
ghost use Rattle.ioa_held.specs.Finish.{CanFinish, IsFinished};
ghost use Rattle.ioa_system.specs.Declarations.{IsWellDeclared};
ghost use Rattle.ioa_record.specs.Recorded.{IsOfOneWorker, IsRecordOf, IsRunOf};
ghost use Rattle.ioa_turns.specs.NodeTurns.{progress_at};
ghost use Rattle.ioa_solo.specs.Solo.{IsSoloRun, ending_of};
ghost use Rattle.ioa_solo.specs.Visits.{progress_in};

use crate::going::go_on;
use crate::hand::Hand;
use crate::visited::Visited;
use ioa_boards::Gate;
use ioa_held::{FinishFault, Share};
use ioa_passes::Pass;
use ioa_receipts::Receipts;
use ioa_record::{Ending, Options, Record};
use ioa_shared::{Opening, Solo};
use ioa_sharing::{Maker, MakerOf, Origin, SharedOf};
use ioa_system::{Program, System};
use std::alloc::{AllocError, Global};
use std::marker::Brand;
use std::sync::Arc;
use std::sync::ledger::{Blank, Ledger};

/// Runs a system by one worker (profile). The worker goes round the nodes in order until each has an ending. A visit of
/// a node that has no attempt left ends it; else one attempt is used: a look at the node in the book of commits, one
/// turn on what it shows, and the commit of the action that the turn fires. Returns the record, and an ending for each
/// node, node 0 first. If memory runs out in a visit, the run is left as it was before it, and each node that has no
/// ending there gets that fault. `AllocError` is returned only if a run cannot begin, or what it leaves cannot be
/// listed.
pub fn run<G: Gate>(
    alloc: Global,
    system: &Arc<System>,
    options: &Options,
    gate: &G,
) -> Result<(Record, Vec<Ending>), AllocError>
    ensures left { IfOk result (λ r. IsRecordOf (arc_value system.now) options.now.steps r.0 r.1.items) }
    ensures alone { IfOk result (λ r. IsOfOneWorker r.0) }
    ensures run { IfOk result (λ r. IsWellDeclared (arc_value system.now) →
        IsRunOf (arc_value system.now) options.now.steps r.0 r.1.items) }
    ensures solo { IfOk result (λ r. IsSoloRun (arc_value system.now) options.now r.0 r.1.items) }
{
    run_by::<Brand, Brand, G>(alloc, Maker::new(), Blank::new(1), system, options, gate)
}

/// The same by a maker of this origin, which numbers what the book of commits holds, and with a share of this ledger. The
/// book is opened with this system and this limit, for which the origin stands too.
fn run_by<O: Opening, L: Ledger, G: Gate>(
    alloc: Global,
    maker: Maker,
    blank: Blank,
    system: &Arc<System>,
    options: &Options,
    gate: &G,
) -> Result<(Record, Vec<Ending>), AllocError>
    requires maker { maker_name maker ≡ O.name }
    requires opened { (arc_value system.now ≡ O.system) × (options.now.steps ≡ O.limit) }
    requires name { blank.name ≡ L.name }
    requires parts { blank.parts ≡ L.parts }
    requires one { L.parts ≡ 1 }
    ensures left { IfOk result (λ r. IsRecordOf (arc_value system.now) options.now.steps r.0 r.1.items) }
    ensures alone { IfOk result (λ r. IsOfOneWorker r.0) }
    ensures run { IfOk result (λ r. IsWellDeclared (arc_value system.now) →
        IsRunOf (arc_value system.now) options.now.steps r.0 r.1.items) }
    ensures solo { IfOk result (λ r. IsSoloRun (arc_value system.now) options.now r.0 r.1.items) }
{
    let mut maker: MakerOf<O> = MakerOf::of(maker);
    let system = maker.share(Arc::try_clone(system)?);
    run_on::<O, L, G>(alloc, maker, blank, &system, options, gate)
}

/// The same of a system that the maker has numbered.
fn run_on<O: Opening, L: Ledger, G: Gate>(
    alloc: Global,
    maker: MakerOf<O>,
    blank: Blank,
    system: &SharedOf<O, System, Global>,
    options: &Options,
    gate: &G,
) -> Result<(Record, Vec<Ending>), AllocError>
    requires opened { (shared_of_value system.now ≡ O.system) × (options.now.steps ≡ O.limit) }
    requires name { blank.name ≡ L.name }
    requires parts { blank.parts ≡ L.parts }
    requires one { L.parts ≡ 1 }
    ensures left { IfOk result (λ r. IsRecordOf (shared_of_value system.now) options.now.steps r.0 r.1.items) }
    ensures alone { IfOk result (λ r. IsOfOneWorker r.0) }
    ensures run { IfOk result (λ r. IsWellDeclared (shared_of_value system.now) →
        IsRunOf (shared_of_value system.now) options.now.steps r.0 r.1.items) }
    ensures solo { IfOk result (λ r. IsSoloRun (shared_of_value system.now) options.now r.0 r.1.items) }
{
    let steps = options.steps() as usize;
    let attempts = options.attempts();
    let (mut solo, share) = Solo::<O, L>::open(alloc, maker, blank, system, steps)?;
    let mut hand = hand_of(alloc, share, system.get())?;
    let mut nodes = start_nodes(alloc, system.get().programs(), attempts)?;
    go_on(alloc, &mut solo, gate, 0, attempts, &mut nodes, &mut hand);
    let endings = endings_of(alloc, &nodes)?;
    let record = finish(alloc, solo, hand, system, steps)?;
    Ok((record, endings))
}

/// What the worker has before its work.
fn hand_of<L: Ledger>(
    alloc: Global,
    share: Share<L>,
    system: &System,
) -> Result<Hand<L>, AllocError>
    ensures share { IfOk result (λ h. h.share ≡ share) }
    ensures pass { IfOk result (λ h. h.pass ≡ first_pass (start system.now)) }
    ensures receipts { IfOk result (λ h. h.receipts.all ≡ []) }
{
    let pass = Pass::new(alloc, system)?;
    let receipts = Receipts::new(alloc);
    Ok(Hand {
        share,
        pass,
        receipts,
    })
}

/// Takes the book apart. There is no fault but want of memory.
fn finish<O: Opening, L: Ledger>(
    alloc: Global,
    solo: Solo<O, L>,
    hand: Hand<L>,
    system: &SharedOf<O, System, Global>,
    steps: usize,
) -> Result<Record, AllocError>
    requires { CanFinish solo (shared_of_value system.now) steps L.parts (hand.share ∷ []) (hand.receipts ∷ []) }
    ensures { IfOk result (λ r. IsFinished solo (shared_of_value system.now) steps L.parts
        (hand.share ∷ []) (hand.receipts ∷ []) r) }
{
    let Hand {
        share,
        receipts,
        ..
    } = hand;
    let shares = only(alloc, share)?;
    let receipts = only(alloc, receipts)?;
    match solo.finish(alloc, system, steps, shares, receipts) {
        Ok(record) => Ok(record),
        Err(unfinished) => Err(memory_of(unfinished.fault)),
    }
}

/// One thing alone.
fn only<T: Drop>(alloc: Global, item: T) -> Result<Vec<T>, AllocError>
    ensures { IfOk result (λ v. v.items ≡ item ∷ []) }
{
    let mut items = Vec::new(alloc);
    items.push(item)?;
    Ok(items)
}

/// The one fault that there can be, as the error that it is.
fn memory_of(fault: FinishFault) -> AllocError
    requires { fault ≡ FinishFault.Memory }
{
    match fault {
        FinishFault::Memory => AllocError,
        FinishFault::Foreign => unreachable!(),
        FinishFault::SharesMissing => unreachable!(),
        FinishFault::Unaccounted => unreachable!(),
    }
}

/// The nodes before a run.
fn start_nodes<O: Origin>(
    alloc: Global,
    programs: &[Arc<Program>],
    attempts: u64,
) -> Result<Vec<Visited<'_, O>>, AllocError>
    ensures { IfOk result (λ v. map progress_in v.items
        ≡ map (progress_at attempts) (map arc_value programs.now)) }
{
    let mut nodes = Vec::new(alloc);
    for program in programs {
        nodes.push(Visited::start(alloc, program, attempts)?)?;
    }
    Ok(nodes)
}

/// The endings of the nodes, in order.
fn endings_of<O: Origin>(alloc: Global, nodes: &[Visited<O>]) -> Result<Vec<Ending>, AllocError>
    ensures { IfOk result (λ v. v.items ≡ map ending_of (map progress_in nodes.now)) }
{
    let mut endings = Vec::new(alloc);
    for node in nodes {
        endings.push(node.progress.ending.unwrap_or(Ending::Spent))?;
    }
    Ok(endings)
}
