//! Where the components of a list stand.

ghost use Rattle.std.specs.Prelude.{◌≡◌, ◌<◌, ◌||◌, true, IfOk, IfSome, IsTrue, OnOk, Some};
ghost use Rattle.std.specs.Prelude.{length, map, slice_get};
ghost use Rattle.std.specs.List.{AllByRecursion, position_from};
ghost use Rattle.std.specs.Option.{option_copied};
ghost use Rattle.std.specs.Ordering.{int_eq};
ghost use Rattle.ioa_actions.specs.ComponentOrder.{same_component};
ghost use Rattle.ioa_index.specs.Indexes.{AddsEntries, AreEntries, IsFirst, IsOwn, entry_of, first_of};
ghost use Rattle.ioa_index.specs.Indexes.{has_entry, has_node};
ghost use Rattle.ioa_index.specs.Own.{concerns, own_slots};

use ioa_actions::Component;
use std::alloc::{AllocError, Global};
use std::marker::Model;

/// A list of components with, for each node, the slots of the components that the node has to do with. So a look at one
/// node, and a step of one, don't go through the components of all others. A contract sees the list.
pub struct Index {
    components: Vec<Component>,
    firsts: Vec<usize>,
    by_node: Vec<NodeSlots>,
}

/// By hand, so that crates above do not prove again how the parts are let go (DECISIONS).
impl Drop for Index {
    fn drop(self) {
        let Index {
            components: _,
            firsts: _,
            by_node: _,
        } = self;
    }
}

/// The slots of the components that a node has to do with.
#[derive(Drop)]
pub(crate) struct NodeSlots {
    node: i64,
    /// Whether the node itself is one of them.
    is_there: bool,
    slots: Vec<usize>,
}

impl Model for Index {
    ghost use Rattle.std.specs.Prelude.{List};
    ghost use Rattle.ioa_actions.specs.declared.component.Component.{Component};
    ghost use Rattle.ioa_index.specs.Indexes.{IsIndexed};

    ghost Value = { List Component };

    ghost view = { λ i. i.components.items };

    ghost invariant = { λ i. IsIndexed i.components.items i.firsts.items i.by_node.items };
}

/// Whether a node has to do with a component.
fn concerns(node: i64, component: Component) -> bool
    ensures { result ≡ concerns node component }
{
    match component {
        Component::Node(own) => own == node,
        Component::Channel { from, to } => from == node || to == node,
        Component::Script(own) => own == node,
    }
}

/// The slots of the components that a node has to do with, in order.
#[inline(never)]
fn own_slots(alloc: Global, components: &[Component], node: i64) -> Result<Vec<usize>, AllocError>
    ensures { IfOk result (λ v. v.items ≡ own_slots node 0 components.now) }
{
    let mut slots = Vec::new(alloc);
    for (slot, component) in components.iter().enumerate() {
        if concerns(node, *component) {
            slots.push(slot)?;
        }
    }
    Ok(slots)
}

/// Whether a node is one of these components.
fn has_node(components: &[Component], node: i64) -> bool
    ensures { result ≡ has_node node components.now }
{
    position(components, Component::Node(node)).is_some()
}

/// The entry of a node, if there is one.
fn entry_of(by_node: &[NodeSlots], node: i64) -> Option<&NodeSlots>
    ensures { option_copied result ≡ entry_of node by_node.now }
{
    by_node.iter().find(|entry| entry.node == node)
}

/// Whether there is one.
fn has_entry(by_node: &[NodeSlots], node: i64) -> bool
    ensures { result ≡ has_entry node by_node.now }
{
    by_node.iter().any(|entry| entry.node == node)
}

/// Puts the entry of a node behind the others, if there is none yet.
fn add_node(
    alloc: Global,
    by_node: &mut Vec<NodeSlots>,
    components: &[Component],
    node: i64,
) -> Result<(), AllocError>
    ensures { OnOk result (AddsEntries components.now (λ n. int_eq node n) by_node.old.items by_node.new.items) }
{
    if has_entry(by_node, node) {
        return Ok(());
    }
    let is_there = has_node(components, node);
    let slots = own_slots(alloc, components, node)?;
    by_node.push(NodeSlots {
        node,
        is_there,
        slots,
    })?;
    Ok(())
}

/// The same for the two ends of a channel.
fn add_ends(
    alloc: Global,
    by_node: &mut Vec<NodeSlots>,
    components: &[Component],
    from: i64,
    to: i64,
) -> Result<(), AllocError>
    ensures { OnOk result
        (AddsEntries components.now (λ n. int_eq from n || int_eq to n) by_node.old.items by_node.new.items) }
{
    add_node(alloc, by_node, components, from)?;
    add_node(alloc, by_node, components, to)
}

/// The same for each node that has to do with a component.
fn add_component(
    alloc: Global,
    by_node: &mut Vec<NodeSlots>,
    components: &[Component],
    component: Component,
) -> Result<(), AllocError>
    ensures { OnOk result
        (AddsEntries components.now (λ n. concerns n component) by_node.old.items by_node.new.items) }
{
    match component {
        Component::Node(node) => add_node(alloc, by_node, components, node),
        Component::Channel { from, to } => add_ends(alloc, by_node, components, from, to),
        Component::Script(node) => add_node(alloc, by_node, components, node),
    }
}

/// The entries of all nodes that have to do with one of the components, in the order in which they come first. A node
/// of a system is a component, and these are numbered from 0: so mostly its entry stands at its number.
fn slots_by_node(alloc: Global, components: &[Component]) -> Result<Vec<NodeSlots>, AllocError>
    ensures { IfOk result (λ v. AreEntries components.now components.now v.items) }
{
    let mut by_node = Vec::new(alloc);
    for component in components {
        add_component(alloc, &mut by_node, components, *component)?;
    }
    Ok(by_node)
}

/// The first slot in which a component stands, if there is one.
fn position(components: &[Component], component: Component) -> Option<usize>
    ensures { result ≡ position_from (λ k. same_component component k) 0 components.now }
{
    components.iter().position(|other| component == *other)
}

/// The same, or the number of slots if it stands in none.
fn first_of(components: &[Component], component: Component) -> usize
    ensures { result ≡ first_of components.now component }
{
    match position(components, component) {
        Some(slot) => slot,
        None => components.len(),
    }
}

/// Of each component the first slot in which one of its name stands.
fn first_slots(alloc: Global, components: &[Component]) -> Result<Vec<usize>, AllocError>
    ensures { IfOk result (λ v. v.items ≡ map (λ k. first_of components.now k) components.now) }
{
    let mut firsts = Vec::new(alloc);
    for component in components {
        let first = first_of(components, *component);
        firsts.push(first)?;
    }
    Ok(firsts)
}

/// Whether a list of slots has a slot at its own place.
fn holds_itself(slots: &[usize], slot: usize) -> bool
    ensures { IsTrue result → slice_get slots.now slot ≡ Some slot }
{
    match slots.get(slot) {
        Some(other) => slot == *other,
        None => false,
    }
}

/// The slots of an entry, if it is that of a node.
fn slots_if(entry: &NodeSlots, node: i64) -> Option<&[usize]>
    ensures { IfSome result (λ s. (s.now ≡ entry.now.slots.items) × (entry.now.node ≡ node)) }
{
    if entry.node == node {
        Some(entry.slots.as_slice())
    } else {
        None
    }
}

/// An entry, if it is that of a node.
fn entry_if(entry: &NodeSlots, node: i64) -> Option<&NodeSlots>
    ensures { IfSome result (λ e. (e.now ≡ entry.now) × (entry.now.node ≡ node)) }
{
    if entry.node == node {
        Some(entry)
    } else {
        None
    }
}

impl Index {
    /// The index of a list of components. Costs time in proportion to the square of the number of components.
    pub fn new(alloc: Global, components: Vec<Component>) -> Result<Self, AllocError>
        ensures { IfOk result (λ i. i ≡ components.items) }
    {
        let firsts = first_slots(alloc, &components)?;
        let by_node = slots_by_node(alloc, &components)?;
        Ok(Index {
            components,
            firsts,
            by_node,
        })
    }

    /// The slots of the components that a node has to do with, in order: none, if there is no such node.
    #[inline(always)]
    pub fn own(&self, node: i64) -> &[usize]
        ensures slots { result.now ≡ own_slots node 0 self.now }
        ensures within { AllByRecursion (λ slot. slot < length self.now) result.now }
    {
        match self.own_near(node) {
            Some(slots) => slots,
            None => self.own_anywhere(node),
        }
    }

    /// The same by the entry at the node's number, if that is the node's.
    fn own_near(&self, node: i64) -> Option<&[usize]>
        ensures { IfSome result (λ s. s.now ≡ own_slots node 0 self.now) }
    {
        let near = usize::try_from(node).ok()?;
        slots_if(self.by_node.get(near)?, node)
    }

    /// The same by a search of all entries.
    #[inline(never)]
    fn own_anywhere(&self, node: i64) -> &[usize]
        ensures { result.now ≡ own_slots node 0 self.now }
    {
        match entry_of(&self.by_node, node) {
            Some(entry) => &entry.slots,
            None => &[],
        }
    }

    /// Whether a node is itself a component. It takes constant time if the node's entry stands at its number.
    pub fn has_node(&self, node: i64) -> bool
        ensures { result ≡ has_node node self.now }
    {
        if self.is_there_near(node) {
            return true;
        }
        has_node(&self.components, node)
    }

    /// The same by the entry at the node's number, if that is the node's.
    fn is_there_near(&self, node: i64) -> bool
        ensures { IsTrue result → has_node node self.now ≡ true }
    {
        match self.entry_near(node) {
            Some(entry) => entry.is_there,
            None => false,
        }
    }

    /// The entry at the node's number, if that is the node's.
    fn entry_near(&self, node: i64) -> Option<&NodeSlots>
        ensures { IfSome result (λ e. IsOwn self.now e.now × (e.now.node ≡ node)) }
    {
        let near = usize::try_from(node).ok()?;
        entry_if(self.by_node.get(near)?, node)
    }

    /// The component in a slot.
    pub fn component(&self, slot: usize) -> Component
        requires { slot < length self.now }
        ensures { slice_get self.now slot ≡ Some result }
    {
        self.components[slot]
    }

    /// The slot of a component; of the first one if the list has the component more than once. It takes constant time
    /// if the component stands in the slot `near`, and else a search of all.
    #[inline(always)]
    pub fn slot_of(&self, component: Component, near: usize) -> Option<usize>
        ensures { result ≡ position_from (λ k. same_component component k) 0 self.now }
    {
        if self.stands_at(component, near) {
            return Some(self.firsts[near]);
        }
        position(&self.components, component)
    }

    /// The same by a quick test: what is small is tried first, and the rest is a call.
    #[inline(always)]
    pub fn slot_near(&self, component: Component, near: usize) -> Option<usize>
        ensures { result ≡ position_from (λ k. same_component component k) 0 self.now }
    {
        if self.stands_first(component, near) {
            return Some(near);
        }
        self.slot_of(component, near)
    }

    /// Whether a component stands in a slot, and in none before it. It takes constant time.
    #[inline(always)]
    pub fn stands_first(&self, component: Component, slot: usize) -> bool
        ensures { IsTrue result → position_from (λ k. same_component component k) 0 self.now ≡ Some slot }
    {
        self.is_first(slot) && self.stands_at(component, slot)
    }

    /// Whether the component in a slot stands in none before it. It takes constant time.
    #[inline(always)]
    pub fn is_first(&self, slot: usize) -> bool
        ensures { IsTrue result → IsFirst self.now slot }
    {
        holds_itself(&self.firsts, slot)
    }

    /// Whether a component stands in a slot.
    #[inline(always)]
    fn stands_at(&self, component: Component, slot: usize) -> bool
        ensures { IsTrue result → slice_get self.now slot ≡ Some component }
    {
        match self.components.get(slot) {
            Some(other) => component == *other,
            None => false,
        }
    }
}
