//! Threads that are refused.

use crate::texts::{TICK, system};
use ioa_boards::Open;
use ioa_record::{Ending, NodeFault, Options, Record};
use ioa_system::System;
use ioa_workers::run_on_stacks;
use std::alloc::Global;
use std::sync::{Arc, Wait};
use std::test::Fail;
use std::thread::Threads;

/// How the nodes of a thread that is refused end.
const NO_THREAD: Ending = Ending::Fault(NodeFault::NoThread);

#[test]
fn workers_without_threads_do_nothing(rt: HostRuntime) -> Result<(), Fail> {
    let alloc = rt.alloc();
    let tick = system(alloc, TICK)?;
    assert!(rt; is_nothing_done(&rt, alloc, &tick)?);
    Ok(())
}

/// Whether two workers whose threads are refused commit nothing, though the run is finished.
fn is_nothing_done<R: Threads + Wait + Sync>(
    rt: &R,
    alloc: Global,
    system: &Arc<System>,
) -> Result<bool, Fail> {
    let options = Options::new(2, 100, 100);
    let (record, endings) = run_on_stacks(rt, alloc, system, &options, &Open, usize::MAX)?;
    Ok(is_empty(&record) && endings.as_slice() == [NO_THREAD, NO_THREAD].as_slice())
}

/// Whether a record of two workers has no action.
fn is_empty(record: &Record) -> bool {
    record.schedule.len() == 0 && record.commits.as_slice() == [0, 0].as_slice()
}
