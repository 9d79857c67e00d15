//! The configurations that a book holds, by their slots.

ghost use Rattle.std.specs.Prelude.{◌≡◌, ◌<◌, [], IfOk, IsTrue, length, map, slice_get};
ghost use Rattle.std.specs.Arc.{arc_value};
ghost use Rattle.std.specs.List.{list_any};
ghost use Rattle.std.specs.Option.{option_copied, option_map};
ghost use Rattle.ioa_actions.specs.ComponentOrder.{same_component};
ghost use Rattle.ioa_compose.specs.Composition.{component_names};
ghost use Rattle.ioa_compose.specs.Participants.{participant_list, participants_of, takes_part};
ghost use Rattle.ioa_commits.specs.Proposals.{participants_next, participants_read};
ghost use Rattle.ioa_commits.specs.Slots as spec;
ghost use Rattle.ioa_commits.specs.Versions.{read_component, with_version};

use crate::proposal::{Participant, Parts};
use crate::versioned::VersionedConf;
use ioa_actions::{Action, Component};
use ioa_compose::{Conf, Parties, participants};
use ioa_index::Index;
use ioa_sharing::{MakerOf, Origin};
use std::alloc::{AllocError, Global};
use std::sync::Arc;

/// Copies of configurations before any action, each with its version: 0.
pub(crate) fn first_versions<O: Origin>(
    alloc: Global,
    maker: &mut MakerOf<O>,
    confs: &[Conf],
) -> Result<Vec<VersionedConf<O>>, AllocError>
    ensures { IfOk result (λ v. v.items ≡ map (with_version []) confs.now) }
{
    let mut held = Vec::new(alloc);
    for (slot, conf) in confs.iter().enumerate() {
        let copy = Arc::new(alloc, conf.try_copy(alloc)?)?;
        held.push(VersionedConf::first(maker, copy, slot))?;
    }
    Ok(held)
}

/// The components of configurations, in order.
pub(crate) fn components_of(alloc: Global, confs: &[Conf]) -> Result<Vec<Component>, AllocError>
    ensures { IfOk result (λ v. v.items ≡ component_names confs.now) }
{
    let mut components = Vec::new(alloc);
    for conf in confs {
        components.push(conf.component())?;
    }
    Ok(components)
}

/// Whether each of so many components of an index stands in no slot before its own.
pub(crate) fn are_distinct(index: &Index, many: usize) -> bool
    requires { many ≡ length index.now }
    ensures { IsTrue result → spec.AreDistinct index.now }
{
    for slot in 0..many {
        if !index.is_first(slot) {
            return false;
        }
    }
    true
}

/// What is held in a slot, if there is one.
pub(crate) fn at_slot<O: Origin>(
    held: &[VersionedConf<O>],
    slot: usize,
) -> Option<&VersionedConf<O>>
    ensures { option_copied result ≡ slice_get held.now slot }
{
    held.get(slot)
}

/// Whether a component is one of these.
fn is_among(component: Component, parties: Parties) -> bool
    ensures { result ≡ list_any (λ k. same_component component k) (participant_list parties) }
{
    match parties {
        Parties::One(node) => component == node,
        Parties::Two(queue, node) => component == queue || component == node,
    }
}

/// Raises the version of each component in these slots that takes part in an action.
pub(crate) fn raise_at<O: Origin>(
    held: &mut Vec<VersionedConf<O>>,
    slots: &[usize],
    action: &Action,
)
    ensures { held.new.items ≡ spec.raise_at action.now slots.now held.old.items }
{
    let parties = participants(action);
    for slot in slots {
        raise_in(held, *slot, action, parties);
    }
}

/// The same for the component in one slot, if there is one.
fn raise_in<O: Origin>(
    held: &mut Vec<VersionedConf<O>>,
    slot: usize,
    action: &Action,
    parties: Parties,
)
    requires { participant_list parties ≡ participants_of action.now }
    ensures { held.new.items ≡ spec.raise_found action.now slot (slice_get held.old.items slot) held.old.items }
{
    if slot < held.len() {
        raise_within(held, slot, action, parties);
    }
}

/// The same for the component in a slot that there is. No version is above the length of the log, so the sum is exact.
fn raise_within<O: Origin>(
    held: &mut Vec<VersionedConf<O>>,
    slot: usize,
    action: &Action,
    parties: Parties,
)
    requires within { slot < length held.old.items }
    requires parties { participant_list parties ≡ participants_of action.now }
    ensures { held.new.items ≡ spec.raise_found action.now slot (slice_get held.old.items slot) held.old.items }
{
    if is_party(held[slot].component(), action, parties) {
        held[slot].raise();
    }
}

/// Whether a component takes part in an action, whose participants are these.
fn is_party(component: Component, _action: &Action, parties: Parties) -> bool
    requires { participant_list parties ≡ participants_of _action.now }
    ensures { result ≡ takes_part component _action.now }
{
    is_among(component, parties)
}

/// Replaces the configurations of the participants. They come back with what was read of them, and with what was held.
pub(crate) fn put_all<O: Origin>(
    held: &mut Vec<VersionedConf<O>>,
    index: &Index,
    maker: &mut MakerOf<O>,
    queue: Option<Participant<O>>,
    node: Participant<O>,
) -> (Option<Participant<O>>, Participant<O>)
    requires { index.now ≡ map read_component held.old.items }
    ensures put { held.new.items ≡ spec.put_all_held (participants_next queue node) held.old.items }
    ensures reads { participants_read result.0 result.1 ≡ participants_read queue node }
{
    match queue {
        None => (None, put(held, index, maker, node)),
        Some(queue) => {
            let queue = put(held, index, maker, queue);
            (Some(queue), put(held, index, maker, node))
        }
    }
}

/// The slots of the participants of a proposal: that of the queue, if one takes part, and that of the node.
#[derive(Clone, Copy)]
pub(crate) struct Slots {
    pub(crate) queue: usize,
    pub(crate) node: usize,
}

/// The participants take their step in the slots in which they are held: each gets its new configuration and the next
/// version. They come back with what was read of them, and with what was held.
#[inline(always)]
pub(crate) fn advance_all<O: Origin>(
    held: &mut Vec<VersionedConf<O>>,
    slots: Slots,
    maker: &mut MakerOf<O>,
    queue: Option<Participant<O>>,
    node: Participant<O>,
) -> (Option<Participant<O>>, Participant<O>)
    ensures advanced { held.new.items
        ≡ spec.advance_both (option_map (λ p. p.next) queue) slots.queue node.next slots.node held.old.items }
    ensures reads { participants_read result.0 result.1 ≡ participants_read queue node }
{
    match queue {
        None => (None, advance(held, slots.node, maker, node)),
        Some(queue) => {
            let queue = advance(held, slots.queue, maker, queue);
            (Some(queue), advance(held, slots.node, maker, node))
        }
    }
}

/// The same of one participant.
#[inline(always)]
fn advance<O: Origin>(
    held: &mut Vec<VersionedConf<O>>,
    slot: usize,
    maker: &mut MakerOf<O>,
    mut participant: Participant<O>,
) -> Participant<O>
    ensures advanced { held.new.items ≡ spec.advance participant.next slot held.old.items }
    ensures read { result.read ≡ participant.read }
{
    advance_parts(held, slot, maker, &mut participant.parts);
    participant
}

/// The same with the parts of a participant.
#[inline(always)]
fn advance_parts<O: Origin>(
    held: &mut Vec<VersionedConf<O>>,
    slot: usize,
    maker: &mut MakerOf<O>,
    parts: &mut Parts<O>,
)
    ensures advanced { held.new.items ≡ spec.advance (arc_value parts.old.next) slot held.old.items }
    ensures read { parts.new.read ≡ parts.old.read }
{
    if slot < held.len() {
        advance_within(held, slot, maker, &mut parts.next);
    }
}

/// The same in a slot that there is.
#[inline(always)]
fn advance_within<O: Origin>(
    held: &mut Vec<VersionedConf<O>>,
    slot: usize,
    maker: &mut MakerOf<O>,
    next: &mut Arc<Conf>,
)
    requires { slot < length held.old.items }
    ensures { held.new.items ≡ spec.advance (arc_value next.old) slot held.old.items }
{
    held[slot].advance(maker, next);
}

/// Replaces the configuration of a participant; its version stays as it is. The participant comes back with what was
/// read of it, and with what was held.
fn put<O: Origin>(
    held: &mut Vec<VersionedConf<O>>,
    index: &Index,
    maker: &mut MakerOf<O>,
    mut participant: Participant<O>,
) -> Participant<O>
    requires { index.now ≡ map read_component held.old.items }
    ensures put { held.new.items ≡ spec.put_held participant.next held.old.items }
    ensures components { map read_component held.new.items ≡ map read_component held.old.items }
    ensures read { result.read ≡ participant.read }
{
    put_parts(held, index, maker, &mut participant.parts);
    participant
}

/// The same with the parts of a participant.
fn put_parts<O: Origin>(
    held: &mut Vec<VersionedConf<O>>,
    index: &Index,
    maker: &mut MakerOf<O>,
    parts: &mut Parts<O>,
)
    requires { index.now ≡ map read_component held.old.items }
    ensures put { held.new.items ≡ spec.put_held (arc_value parts.old.next) held.old.items }
    ensures components { map read_component held.new.items ≡ map read_component held.old.items }
    ensures read { parts.new.read ≡ parts.old.read }
{
    let near = parts.read.slot();
    put_conf(held, index, maker, &mut parts.next, near);
}

/// Replaces the configuration of a component, which is mostly held in the slot `near`; its version stays as it is. What
/// was held comes out.
fn put_conf<O: Origin>(
    held: &mut Vec<VersionedConf<O>>,
    index: &Index,
    maker: &mut MakerOf<O>,
    conf: &mut Arc<Conf>,
    near: usize,
)
    requires { index.now ≡ map read_component held.old.items }
    ensures put { held.new.items ≡ spec.put_held (arc_value conf.old) held.old.items }
    ensures components { map read_component held.new.items ≡ map read_component held.old.items }
{
    if let Some(slot) = index.slot_near(conf.component(), near) {
        held[slot].exchange(maker, conf);
    }
}
