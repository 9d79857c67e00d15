//! Runs of a system by several workers.

ghost use Rattle.std.specs.Prelude.{◌≡◌, ◌≢◌, IfErr, IfOk, length};
ghost use Rattle.std.specs.Arc.{arc_value};
ghost use Rattle.ioa_sharing.specs.Named.{shared_of_value};
ghost use Rattle.ioa_sharing.specs.Shared.{maker_name};
ghost use Rattle.ioa_system.specs.Declarations.{IsWellDeclared};
ghost use Rattle.ioa_record.specs.Recorded.{IsOfOneWorker, IsRecordOf, IsRunOf};
ghost use Rattle.ioa_solo.specs.Solo.{IsSoloRun};

use crate::gathering::{endings_of, finish};
use crate::slot::slots_of;
use crate::threads::run_slots;
use ioa_boards::Gate;
use ioa_held::FinishFault;
use ioa_record::{Ending, Options, Record};
use ioa_shared::{Opening, open};
use ioa_sharing::{Maker, MakerOf, SharedOf};
use ioa_system::System;
use std::alloc::Global;
use std::marker::Brand;
use std::sync::ledger::{Blank, Ledger};
use std::sync::{Arc, Wait};
use std::thread::Threads;

/// How many bytes the stack of each worker's thread has.
pub const STACK_SIZE: usize = 2 * 1024 * 1024;

/// Runs a system by as many workers as the options say (profile). Node k belongs to worker k mod N. Each worker does
/// what [`ioa_solo::work`] says, in a thread of its own, at one book of commits under a lock. One worker alone takes no
/// lock and no thread: that is the run of [`ioa_solo::run`]. Waits for the end of all threads.
///
/// Returns the record, with the commits of each worker, and an ending for each node, node 0 first. The nodes of a
/// worker whose thread can't be started end with `fault NoThread`, and it commits nothing. `Memory` (3) if memory runs
/// out before or after the work. With several workers the contract leaves open that `Unaccounted` (56) comes, since only
/// finishing finds out what the threads left. `Foreign` (55) and `SharesMissing` (57) do not come.
pub fn run<R: Threads + Wait + Sync, G: Gate + Sync>(
    rt: &R,
    alloc: Global,
    system: &Arc<System>,
    options: &Options,
    gate: &G,
) -> Result<(Record, Vec<Ending>), FinishFault>
    ensures left { IfOk result (λ r. IsRecordOf (arc_value system.now) options.now.steps r.0 r.1.items) }
    ensures counted { IfOk result (λ r. length r.0.commits.items ≡ options.now.workers) }
    ensures run { IfOk result (λ r. IsWellDeclared (arc_value system.now) →
        IsRunOf (arc_value system.now) options.now.steps r.0 r.1.items) }
    ensures gathered { IfErr result (λ f. f ≢ FinishFault.SharesMissing) }
    ensures own { IfErr result (λ f. f ≢ FinishFault.Foreign) }
    ensures alone { options.now.workers ≡ 1 → IfOk result (λ r. IsOfOneWorker r.0) }
    ensures solo { options.now.workers ≡ 1 → IfOk result (λ r.
        IsSoloRun (arc_value system.now) options.now r.0 r.1.items) }
    ensures calm { options.now.workers ≡ 1 → IfErr result (λ f. f ≡ FinishFault.Memory) }
{
    let workers = options.workers();
    if workers == 1 {
        run_alone(alloc, system, options, gate)
    } else {
        run_on_stacks(rt, alloc, system, options, gate, STACK_SIZE)
    }
}

/// The run by one worker, on the calling thread. There is no fault but want of memory.
fn run_alone<G: Gate>(
    alloc: Global,
    system: &Arc<System>,
    options: &Options,
    gate: &G,
) -> Result<(Record, Vec<Ending>), FinishFault>
    requires { options.now.workers ≡ 1 }
    ensures left { IfOk result (λ r. IsRecordOf (arc_value system.now) options.now.steps r.0 r.1.items) }
    ensures counted { IfOk result (λ r. length r.0.commits.items ≡ options.now.workers) }
    ensures run { IfOk result (λ r. IsWellDeclared (arc_value system.now) →
        IsRunOf (arc_value system.now) options.now.steps r.0 r.1.items) }
    ensures alone { IfOk result (λ r. IsOfOneWorker r.0) }
    ensures solo { IfOk result (λ r. IsSoloRun (arc_value system.now) options.now r.0 r.1.items) }
    ensures calm { IfErr result (λ f. f ≡ FinishFault.Memory) }
{
    let left = ioa_solo::run(alloc, system, options, gate)?;
    Ok(left)
}

/// The same run, also by one worker in a thread, with stacks of so many bytes: so a test can have threads refused.
pub fn run_on_stacks<R: Threads + Wait + Sync, G: Gate + Sync>(
    rt: &R,
    alloc: Global,
    system: &Arc<System>,
    options: &Options,
    gate: &G,
    stack: usize,
) -> Result<(Record, Vec<Ending>), FinishFault>
    ensures left { IfOk result (λ r. IsRecordOf (arc_value system.now) options.now.steps r.0 r.1.items) }
    ensures counted { IfOk result (λ r. length r.0.commits.items ≡ options.now.workers) }
    ensures run { IfOk result (λ r. IsWellDeclared (arc_value system.now) →
        IsRunOf (arc_value system.now) options.now.steps r.0 r.1.items) }
    ensures gathered { IfErr result (λ f. f ≢ FinishFault.SharesMissing) }
    ensures own { IfErr result (λ f. f ≢ FinishFault.Foreign) }
{
    let workers = options.workers();
    run_by::<Brand, Brand, R, G>(
        rt,
        alloc,
        Maker::new(),
        Blank::new(workers),
        system,
        options,
        gate,
        stack,
    )
}

/// The same by a maker of this origin, which numbers what the book of commits holds, and with shares of this ledger. The
/// book is opened with this system and this limit, for which the origin stands too.
fn run_by<
    O: Opening + Send + Sync,
    L: Ledger + Send + Sync,
    R: Threads + Wait + Sync,
    G: Gate + Sync,
>(
    rt: &R,
    alloc: Global,
    maker: Maker,
    blank: Blank,
    system: &Arc<System>,
    options: &Options,
    gate: &G,
    stack: usize,
) -> Result<(Record, Vec<Ending>), FinishFault>
    requires maker { maker_name maker ≡ O.name }
    requires opened { (arc_value system.now ≡ O.system) × (options.now.steps ≡ O.limit) }
    requires name { blank.name ≡ L.name }
    requires parts { blank.parts ≡ L.parts }
    requires workers { L.parts ≡ options.now.workers }
    ensures left { IfOk result (λ r. IsRecordOf (arc_value system.now) options.now.steps r.0 r.1.items) }
    ensures counted { IfOk result (λ r. length r.0.commits.items ≡ options.now.workers) }
    ensures run { IfOk result (λ r. IsWellDeclared (arc_value system.now) →
        IsRunOf (arc_value system.now) options.now.steps r.0 r.1.items) }
    ensures gathered { IfErr result (λ f. f ≢ FinishFault.SharesMissing) }
    ensures own { IfErr result (λ f. f ≢ FinishFault.Foreign) }
{
    let mut maker: MakerOf<O> = MakerOf::of(maker);
    let system = maker.share(Arc::try_clone(system)?);
    run_on::<O, L, R, G>(rt, alloc, maker, blank, &system, options, gate, stack)
}

/// The same of a system that the maker has numbered.
fn run_on<
    O: Opening + Send + Sync,
    L: Ledger + Send + Sync,
    R: Threads + Wait + Sync,
    G: Gate + Sync,
>(
    rt: &R,
    alloc: Global,
    maker: MakerOf<O>,
    blank: Blank,
    system: &SharedOf<O, System, Global>,
    options: &Options,
    gate: &G,
    stack: usize,
) -> Result<(Record, Vec<Ending>), FinishFault>
    requires opened { (shared_of_value system.now ≡ O.system) × (options.now.steps ≡ O.limit) }
    requires name { blank.name ≡ L.name }
    requires parts { blank.parts ≡ L.parts }
    requires workers { L.parts ≡ options.now.workers }
    ensures left { IfOk result (λ r. IsRecordOf (shared_of_value system.now) options.now.steps r.0 r.1.items) }
    ensures counted { IfOk result (λ r. length r.0.commits.items ≡ options.now.workers) }
    ensures run { IfOk result (λ r. IsWellDeclared (shared_of_value system.now) →
        IsRunOf (shared_of_value system.now) options.now.steps r.0 r.1.items) }
    ensures gathered { IfErr result (λ f. f ≢ FinishFault.SharesMissing) }
    ensures own { IfErr result (λ f. f ≢ FinishFault.Foreign) }
{
    let steps = options.steps() as usize;
    let workers = options.workers();
    let attempts = options.attempts();
    let (shared, shares) = open::<O, L>(alloc, maker, blank, system, steps, workers)?;
    let mut slots = slots_of(alloc, system, shares)?;
    run_slots(rt, alloc, &shared, gate, attempts, stack, &mut slots);
    let endings = endings_of(alloc, system.get(), &slots)?;
    let record = finish(alloc, system, steps, shared, slots)?;
    Ok((record, endings))
}
