//! The traces of runs.

use crate::texts::{RELAY, TICK, system};
use ioa_boards::Open;
use ioa_monitor::trace;
use ioa_record::{Options, Record};
use ioa_system::System;
use ioa_transitions::Entry;
use ioa_workers::run;
use std::alloc::Global;
use std::sync::{Arc, Wait};
use std::test::Fail;
use std::thread::Threads;

#[test]
fn a_trace_has_the_sends_and_receives_and_no_internal_action(rt: HostRuntime) -> Result<(), Fail> {
    let alloc = rt.alloc();
    let relay = system(alloc, RELAY)?;
    let tick = system(alloc, TICK)?;
    assert!(rt; has_trace(&rt, alloc, &relay, 4, 4)? && has_trace(&rt, alloc, &tick, 6, 0)?);
    Ok(())
}

/// Whether a run by one worker takes so many actions, the first of which are its trace, and so many.
fn has_trace<R: Threads + Wait + Sync>(
    rt: &R,
    alloc: Global,
    system: &Arc<System>,
    actions: usize,
    external: usize,
) -> Result<bool, Fail> {
    let options = Options::new(1, 100, 100);
    let (record, _endings) = run(rt, alloc, system, &options, &Open)?;
    is_traced(alloc, system, &record, actions, external)
}

/// Whether a record has so many actions, the first of which are its trace, and so many.
fn is_traced(
    alloc: Global,
    system: &System,
    run_record: &Record,
    actions: usize,
    external: usize,
) -> Result<bool, Fail> {
    let traced = trace(alloc, system, run_record)?;
    Ok(
        run_record.schedule.len() == actions
            && traced.len() == external
            && begins_with(run_record, traced.as_slice()),
    )
}

/// Whether the first actions of a schedule are those of these entries.
fn begins_with(run_record: &Record, entries: &[Entry]) -> bool {
    for (position, entry) in entries.iter().enumerate() {
        match run_record.schedule.get(position) {
            Some(taken) if taken.equals(entry) => {}
            _ => return false,
        }
    }
    true
}
