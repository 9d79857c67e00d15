//! What the slots leave, put together.

ghost use Rattle.std.specs.Prelude.{◌≡◌, ◌≢◌, ◌<◌, IfErr, IfOk, length};
ghost use Rattle.ioa_compose.specs.Start.{start};
ghost use Rattle.ioa_record.specs.Recorded.{ReplaysWithin};
ghost use Rattle.ioa_sharing.specs.Named.{shared_of_value};
ghost use Rattle.ioa_workers.specs.Slots.{AreEndingsIn, ending_in};

use crate::slot::Slot;
use ioa_held::{FinishFault, Share};
use ioa_receipts::Receipts;
use ioa_record::{Ending, NodeFault, Record};
use ioa_shared::{Opening, Shared};
use ioa_sharing::{Origin, SharedOf};
use ioa_solo::Hand;
use ioa_system::System;
use std::alloc::{AllocError, Global};
use std::sync::ledger::Ledger;

/// Takes the book apart with the shares and the receipts of all slots. It was opened with this system and this limit.
pub(crate) fn finish<O: Opening, L: Ledger>(
    alloc: Global,
    system: &SharedOf<O, System, Global>,
    steps: usize,
    shared: Shared<O, L>,
    slots: Vec<Slot<O, L>>,
) -> Result<Record, FinishFault>
    requires opened { (shared_of_value system.now ≡ O.system) × (steps ≡ O.limit) }
    requires shares { length slots.items ≡ L.parts }
    ensures replayed { IfOk result (λ r.
        ReplaysWithin steps (start (shared_of_value system.now)) r.schedule r.states.items) }
    ensures counted { IfOk result (λ r. length r.commits.items ≡ L.parts) }
    ensures gathered { IfErr result (λ f. f ≢ FinishFault.SharesMissing) }
    ensures own { IfErr result (λ f. f ≢ FinishFault.Foreign) }
{
    let (shares, receipts) = handed_in(alloc, slots)?;
    match shared.finish(alloc, system, steps, shares, receipts) {
        Ok(record) => Ok(record),
        Err(unfinished) => Err(unfinished.fault),
    }
}

/// The share and the receipts of each slot.
fn handed_in<O: Origin, L: Ledger>(
    alloc: Global,
    slots: Vec<Slot<O, L>>,
) -> Result<(Vec<Share<L>>, Vec<Receipts>), AllocError>
    ensures { IfOk result (λ r. length r.0.items ≡ length slots.items) }
{
    let mut shares = Vec::new(alloc);
    let mut receipts = Vec::new(alloc);
    for slot in slots {
        let Slot { hand, .. } = slot;
        shares.push(hand.share)?;
        receipts.push(hand.receipts)?;
    }
    Ok((shares, receipts))
}

/// The endings of all nodes, in their order.
pub(crate) fn endings_of<O: Origin, L: Ledger>(
    alloc: Global,
    system: &System,
    slots: &[Slot<O, L>],
) -> Result<Vec<Ending>, AllocError>
    requires { 0 < length slots.now }
    ensures { IfOk result (λ v. AreEndingsIn slots.now (length system.now.programs) v.items) }
{
    let mut endings = Vec::new(alloc);
    for node in 0..system.programs().len() {
        endings.push(ending_of(slots, node))?;
    }
    Ok(endings)
}

/// The ending of a node, by its place in the system. `Memory` (3) if the slot of its worker has no room for it.
fn ending_of<O: Origin, L: Ledger>(slots: &[Slot<O, L>], node: usize) -> Ending
    requires { 0 < length slots.now }
    ensures { result ≡ ending_in slots.now node }
{
    let workers = slots.len();
    let ending = match slots.get(node % workers) {
        Some(slot) => slot.ending(node / workers),
        None => None,
    };
    ending.unwrap_or(Ending::Fault(NodeFault::Memory))
}
