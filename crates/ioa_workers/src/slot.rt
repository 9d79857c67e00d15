//! Slots: what a worker has, lent to its thread.

ghost use Rattle.std.specs.Prelude.{◌≡◌, ◌<◌, ◌≤◌, IfOk, length, replicate};
ghost use Rattle.std.specs.List.{slice_get};
ghost use Rattle.ioa_sharing.specs.Named.{shared_of_value};
ghost use Rattle.ioa_workers.specs.Slots.{AreNodesOf, AreUnbegun, node_numbers};

use ioa_held::Share;
use ioa_passes::Pass;
use ioa_receipts::Receipts;
use ioa_record::{Ending, NodeFault};
use ioa_sharing::{Origin, SharedOf};
use ioa_solo::{Endings, GREATEST_NODES, Hand};
use ioa_system::System;
use std::alloc::{AllocError, Global};
use std::marker::Model;
use std::sync::ledger::Ledger;

/// What a worker has, which is lent to its thread. A contract sees its nodes and how they ended. The type keeps that
/// there is an ending for each node: so what a thread leaves can be gathered, whether it was started or not.
#[derive(Drop)]
pub(crate) struct Slot<O: Origin, L: Ledger> {
    /// The system, with its number.
    pub(crate) system: SharedOf<O, System, Global>,
    /// The numbers of its nodes.
    pub(crate) nodes: Vec<i64>,
    /// What it has to work with.
    pub(crate) hand: Hand<L>,
    /// How its nodes ended.
    pub(crate) endings: Endings,
}

impl<O: Origin, L: Ledger> Model for Slot<O, L> {
    ghost use Rattle.std.specs.Prelude.{◌≡◌, ◌≤◌, length};
    ghost use Rattle.ioa_solo.specs.declared.endings.TheConstants.{GREATEST_NODES};
    ghost use Rattle.ioa_workers.specs.Slots.{PlainSlot};

    ghost Value = { PlainSlot };

    ghost view = { λ s. record { nodes = s.nodes.items; endings = s.endings } };

    ghost invariant = { λ s. (length s.endings ≡ length s.nodes.items) × (length s.nodes.items ≤ GREATEST_NODES) };
}

impl<O: Origin, L: Ledger> Slot<O, L> {
    ghost use Rattle.ioa_workers.specs.Slots.{IsUnbegun};

    /// The slot of a worker, of so many, before its thread has begun.
    fn new(
        alloc: Global,
        system: &SharedOf<O, System, Global>,
        share: Share<L>,
        worker: usize,
        workers: usize,
    ) -> Result<Self, AllocError>
        requires { (worker < workers) × (workers ≤ 64) }
        ensures { IfOk result (λ s. IsUnbegun (node_numbers (shared_of_value system.now)) worker workers s) }
    {
        let nodes = nodes_of(alloc, system.get(), worker, workers)?;
        let endings = not_begun(nodes.len());
        let pass = Pass::new(alloc, system.get())?;
        let system = system.try_clone()?;
        let receipts = Receipts::new(alloc);
        let hand = Hand {
            share,
            pass,
            receipts,
        };
        Ok(Slot {
            system,
            nodes,
            hand,
            endings,
        })
    }

    /// The ending of the node at a place among those of the worker.
    pub(crate) fn ending(&self, place: usize) -> Option<Ending>
        ensures { result ≡ slice_get self.now.endings place }
    {
        self.endings.as_slice().get(place).copied()
    }
}

/// A slot for each share, worker 0 first.
pub(crate) fn slots_of<O: Origin, L: Ledger>(
    alloc: Global,
    system: &SharedOf<O, System, Global>,
    shares: Vec<Share<L>>,
) -> Result<Vec<Slot<O, L>>, AllocError>
    requires { length shares.items ≤ 64 }
    ensures many { IfOk result (λ v. length v.items ≡ length shares.items) }
    ensures each { IfOk result (λ v.
        AreUnbegun (node_numbers (shared_of_value system.now)) (length shares.items) v.items) }
{
    let workers = shares.len();
    let mut slots = Vec::new(alloc);
    for share in shares {
        let worker = slots.len();
        let slot = Slot::new(alloc, system, share, worker, workers)?;
        slots.push(slot)?;
    }
    Ok(slots)
}

/// The numbers of the nodes of a worker, of so many. Of more than there is room for, these are the first; no checked
/// system has so many.
fn nodes_of(
    alloc: Global,
    system: &System,
    worker: usize,
    workers: usize,
) -> Result<Vec<i64>, AllocError>
    requires { (worker < workers) × (workers ≤ 64) }
    ensures { IfOk result (λ v. AreNodesOf (node_numbers system.now) worker workers GREATEST_NODES v.items) }
{
    let mut nodes = Vec::new(alloc);
    for place in 0..GREATEST_NODES {
        if let Some(node) = node_at(system, worker + place * workers) {
            nodes.push(node)?;
        }
    }
    Ok(nodes)
}

/// The number of the node at a place of the system.
fn node_at(system: &System, place: usize) -> Option<i64>
    ensures { result ≡ slice_get (node_numbers system.now) place }
{
    match system.programs().get(place) {
        Some(program) => Some(program.node()),
        None => None,
    }
}

/// The endings of so many nodes whose thread hasn't begun.
fn not_begun(count: usize) -> Endings
    requires { count ≤ GREATEST_NODES }
    ensures { result ≡ replicate count (Ending.Fault NodeFault.NoThread) }
{
    let mut endings = Endings::new();
    for _ in 0..count {
        endings.push(Ending::Fault(NodeFault::NoThread));
    }
    endings
}
