//! The threads of workers.

use crate::slot::Slot;
use ioa_boards::{Gate, Locked};
use ioa_shared::{Opening, Shared};
use ioa_solo::work;
use std::alloc::Global;
use std::sync::Wait;
use std::sync::ledger::Ledger;
use std::thread;
use std::thread::{Builder, Threads};

/// Starts a thread for each slot, with a stack of so many bytes, and waits for the end of all of them. The slot of a
/// thread that is refused stays as it was.
pub(crate) fn run_slots<
    O: Opening + Send + Sync,
    L: Ledger + Send + Sync,
    R: Threads + Wait + Sync,
    G: Gate + Sync,
>(
    rt: &R,
    alloc: Global,
    shared: &Shared<O, L>,
    gate: &G,
    attempts: u64,
    stack: usize,
    slots: &mut [Slot<O, L>],
) {
    thread::scope(thread::scope_env(), rt, |scope| {
        for (worker, slot) in slots.iter_mut().enumerate() {
            let _ = Builder::new()
                .stack_size(stack)
                .spawn_scoped(scope, move || {
                    fill(rt, alloc, shared, gate, worker, attempts, slot)
                });
        }
    });
}

/// The work of a worker, in its thread.
fn fill<O: Opening, L: Ledger, R: Wait, G: Gate>(
    rt: &R,
    alloc: Global,
    shared: &Shared<O, L>,
    gate: &G,
    worker: usize,
    attempts: u64,
    slot: &mut Slot<O, L>,
) {
    let mut board = Locked { rt, shared };
    slot.endings = work(
        alloc,
        &slot.system,
        &mut board,
        gate,
        worker,
        &slot.nodes,
        attempts,
        &mut slot.hand,
    );
}
