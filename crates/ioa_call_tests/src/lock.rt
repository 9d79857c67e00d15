//! Two threads on one book under its lock: one sends and looks again, the other looks twice. Then the book is finished,
//! and only with its own limit and with the shares of both.

ghost use Rattle.std.specs.Prelude.{◌≡◌};
ghost use Rattle.std.specs.Arc.{arc_value};
ghost use Rattle.ioa_sharing.specs.Shared.{maker_name};

use crate::texts::{LIST, send, sent, system};
use crate::whole::Whole;
use ioa_actions::Component;
use ioa_book::{Proposal, Snapshot};
use ioa_compose::Conf;
use ioa_held::{FinishFault, Share};
use ioa_passes::Pass;
use ioa_rawlog::Spare;
use ioa_receipts::Receipts;
use ioa_record::Record;
use ioa_shared::{Opening, Shared, open};
use ioa_sharing::{Maker, MakerOf, Origin, SharedOf};
use ioa_system::System;
use ioa_transitions::Entry;
use ioa_values::Value;
use std::alloc::{AllocError, Global};
use std::marker::Brand;
use std::sync::ledger::{Blank, Ledger};
use std::sync::{Arc, Wait};
use std::test::Fail;
use std::thread;
use std::thread::Threads;

/// What a worker has of its own, and whether all that it met was right.
#[derive(Drop)]
struct Slot<L: Ledger> {
    share: Share<L>,
    pass: Pass,
    receipts: Receipts,
    is_right: bool,
}

#[test]
fn fresh_looks(rt: HostRuntime) -> Result<(), Fail> {
    let alloc = rt.alloc();
    let list = system(alloc, LIST)?;
    let is_right = are_fresh::<Brand, Brand, HostRuntime>(
        &rt,
        alloc,
        Maker::new(),
        Blank::new(2),
        &list,
    )?;
    assert!(rt; is_right);
    Ok(())
}

/// Whether all is right with two workers on one book, and with what they leave.
fn are_fresh<O: Opening + Send + Sync, L: Ledger + Send + Sync, R: Threads + Wait + Sync>(
    rt: &R,
    alloc: Global,
    maker: Maker,
    blank: Blank,
    system: &Arc<System>,
) -> Result<bool, Fail>
    requires maker { maker_name maker ≡ O.name }
    requires opened { (arc_value system.now ≡ O.system) × (10 ≡ O.limit) }
    requires name { blank.name ≡ L.name }
    requires parts { (blank.parts ≡ L.parts) × (L.parts ≡ 2) }
{
    let mut maker: MakerOf<O> = MakerOf::of(maker);
    let own = maker.share(Arc::try_clone(system)?);
    let equal = maker.share(Arc::try_clone(system)?);
    let (shared, shares) = open::<O, L>(alloc, maker, blank, &own, 10, 2)?;
    let knows = shared.is_opened_with(rt, &own) && !shared.is_opened_with(rt, &equal);
    let mut slots = slots_of(alloc, system, shares)?;
    run_slots(rt, &shared, alloc, slots.as_mut_slice());
    let are_right = slots.iter().all(|slot| slot.is_right);
    let whole = gathered(alloc, shared, slots)?;
    Ok(knows && are_right && is_finished(alloc, &own, whole)?)
}

/// What the workers had, put together.
fn gathered<O: Opening, L: Ledger>(
    alloc: Global,
    shared: Shared<O, L>,
    slots: Vec<Slot<L>>,
) -> Result<Box<Whole<O, L>>, Fail> {
    let mut shares = Vec::new(alloc);
    let mut receipts = Vec::new(alloc);
    for slot in slots {
        shares.push(slot.share)?;
        receipts.push(slot.receipts)?;
    }
    Ok(Box::new(
        alloc,
        Whole {
            shared,
            shares,
            receipts,
        },
    )?)
}

/// Whether the book is finished with both shares, and neither with another limit nor with the first share alone.
fn is_finished<O: Opening, L: Ledger>(
    alloc: Global,
    system: &SharedOf<O, System, Global>,
    mut whole: Box<Whole<O, L>>,
) -> Result<bool, Fail> {
    let second = whole.shares.pop().ok_or("no share")?;
    let mut whole = whole.refused(alloc, system, 10, FinishFault::SharesMissing)?;
    whole.shares.push(second)?;
    let whole = whole.refused(alloc, system, 11, FinishFault::Foreign)?;
    let record = whole.finish(alloc, system, 10)?;
    Ok(has_one_send(&record))
}

/// Whether a record of two workers has the send of 7 alone, by the first.
fn has_one_send(record: &Record) -> bool {
    let is_sent = match record.schedule.get(0) {
        Some(entry) => entry.action().equals(&sent(7)),
        None => false,
    };
    is_sent && record.schedule.len() == 1 && record.commits.as_slice() == [1, 0].as_slice()
}

/// A slot for each share.
fn slots_of<L: Ledger>(
    alloc: Global,
    system: &System,
    shares: Vec<Share<L>>,
) -> Result<Vec<Slot<L>>, AllocError> {
    let mut slots = Vec::new(alloc);
    for share in shares {
        let pass = Pass::new(alloc, system)?;
        slots.push(Slot {
            share,
            pass,
            receipts: Receipts::new(alloc),
            is_right: false,
        })?;
    }
    Ok(slots)
}

/// Runs a thread for each slot, and waits for all of them.
fn run_slots<O: Opening + Send + Sync, L: Ledger + Send + Sync, R: Threads + Wait + Sync>(
    rt: &R,
    shared: &Shared<O, L>,
    alloc: Global,
    slots: &mut [Slot<L>],
) {
    thread::scope(thread::scope_env(), rt, |scope| {
        for (worker, slot) in slots.iter_mut().enumerate() {
            let _ = scope.spawn(move || fill(rt, shared, alloc, worker, slot));
        }
    });
}

/// The work of a worker.
fn fill<O: Opening, L: Ledger, R: Wait>(
    rt: &R,
    shared: &Shared<O, L>,
    alloc: Global,
    worker: usize,
    slot: &mut Slot<L>,
) {
    slot.is_right = if worker == 0 {
        sends(rt, shared, alloc, slot)
    } else {
        looks_twice(rt, shared, alloc, slot)
    };
}

/// Whether node 1 can be looked at, and once more in the place of that look.
fn looks_twice<O: Opening, L: Ledger, R: Wait>(
    rt: &R,
    shared: &Shared<O, L>,
    alloc: Global,
    slot: &mut Slot<L>,
) -> bool {
    match shared.look(rt, alloc, &mut slot.pass, 1) {
        Ok(mut look) => shared.look_again(rt, &mut look, &mut slot.pass).is_ok(),
        Err(_) => false,
    }
}

/// Whether node 0 sends, and is then seen as it is after that.
fn sends<O: Opening, L: Ledger, R: Wait>(
    rt: &R,
    shared: &Shared<O, L>,
    alloc: Global,
    slot: &mut Slot<L>,
) -> bool {
    commits(rt, shared, alloc, slot) && slot.share.count() == 1 && sees(rt, shared, alloc, slot)
}

/// Whether the send of node 0 is committed as the first action.
fn commits<O: Opening, L: Ledger, R: Wait>(
    rt: &R,
    shared: &Shared<O, L>,
    alloc: Global,
    slot: &mut Slot<L>,
) -> bool {
    match (
        send(alloc, 7),
        shared.look(rt, alloc, &mut slot.pass, 0),
        Spare::make(alloc),
    ) {
        (Ok(fired), Ok(look), Ok(spare)) => match look.propose(alloc, &fired) {
            Ok(proposal) => attempts(rt, shared, slot, proposal, spare),
            Err(_) => false,
        },
        _ => false,
    }
}

/// Whether a proposal is committed as the first action.
fn attempts<O: Opening, L: Ledger, R: Wait>(
    rt: &R,
    shared: &Shared<O, L>,
    slot: &mut Slot<L>,
    proposal: Proposal<O>,
    spare: Spare<Entry>,
) -> bool {
    if slot.receipts.make_room().is_err() {
        return false;
    }
    let (tried, _left) = shared.attempt(rt, proposal, spare, &mut slot.pass, &mut slot.share);
    match tried {
        Ok(taken) => {
            let is_first = taken.receipt.index == 0;
            slot.receipts.put(taken.receipt);
            is_first
        }
        Err(_) => false,
    }
}

/// Whether node 0 is seen once after its send, and its channel and the log at least so.
fn sees<O: Opening, L: Ledger, R: Wait>(
    rt: &R,
    shared: &Shared<O, L>,
    alloc: Global,
    slot: &mut Slot<L>,
) -> bool {
    match shared.look(rt, alloc, &mut slot.pass, 0) {
        Ok(look) => {
            look.length() >= 1
                && has_counted(&look)
                && version(&look, Component::Channel { from: 0, to: 1 }) >= 1
        }
        Err(_) => false,
    }
}

/// Whether node 0 is read at version 1, with an 8 in its variable.
fn has_counted<O: Origin>(look: &Snapshot<O>) -> bool {
    match look.read_of(Component::Node(0)) {
        Some(read) => read.version() == 1 && has_eight(read.conf()),
        None => false,
    }
}

/// Whether a node has an 8 in its first variable.
fn has_eight(conf: &Conf) -> bool {
    match conf {
        Conf::Node(node) => match node.variables() {
            [first, ..] => *first == Value::number(8),
            [] => false,
        },
        Conf::Queue(_) => false,
    }
}

/// The version of a component that was read, or 0.
fn version<O: Origin>(look: &Snapshot<O>, component: Component) -> usize {
    match look.read_of(component) {
        Some(read) => read.version(),
        None => 0,
    }
}
