//! What waits to be written of a node.

ghost use Rattle.std.specs.Prelude.{◌≡◌, IfOk};
ghost use Rattle.ioa_channels.specs.Fronts.{front_item};
ghost use Rattle.ioa_channels.specs.Queues.{same_item};
ghost use Rattle.ioa_reasons.specs.PlainReasons.{reason_of};
ghost use Rattle.ioa_tell_text.specs.Kept as spec;
ghost use Rattle.ioa_tell_text.specs.Kept.{same_passing, same_why, why_of};

use crate::kept::KeptText;
use crate::tests::false_text;
use ioa_actions::{Action, Component};
use ioa_channels::{Front, Item};
use ioa_reasons::Reason;
use ioa_values::Names;
use std::alloc::{AllocError, Global};

/// Why an action was not enabled, kept.
#[derive(Drop)]
pub(crate) enum Why {
    /// This queue has no item.
    Empty(Component),
    /// This is the first item of the queue.
    First(Component, Item),
    /// This queue, which keeps no order, has not the message.
    Absent(Component),
    /// The node's own step is not enabled.
    Node,
    /// A test of the node is false, as this text tells.
    False(KeptText),
}

/// What a node did that took no action.
#[derive(Drop)]
pub(crate) enum Passing {
    /// It was idle.
    Idle,
    /// It fired this action, which was not enabled.
    Missed(Action, Why),
}

/// What a node did last, so many times, if that took no action. It waits until the node does something else.
#[derive(Drop)]
pub(crate) struct Waiting {
    pub(crate) node: i64,
    pub(crate) passing: Passing,
    pub(crate) times: usize,
}

/// What is told, kept; a part of a test as text, by these names of constants.
pub(crate) fn kept(alloc: Global, names: &Names, reason: Reason<'_>) -> Result<Why, AllocError>
    ensures { IfOk result (λ w. w ≡ why_of names.now (reason_of reason.entry)) }
{
    match reason {
        Reason::Empty(queue) => Ok(Why::Empty(queue)),
        Reason::First(queue, front) => Ok(Why::First(queue, item_of(alloc, front)?)),
        Reason::Absent(queue) => Ok(Why::Absent(queue)),
        Reason::Node => Ok(Why::Node),
        Reason::False(test, part, values) => {
            Ok(Why::False(false_text(alloc, names, test, part, values)?))
        }
    }
}

/// An item that is lent, kept.
fn item_of(alloc: Global, front: Front<'_>) -> Result<Item, AllocError>
    ensures { IfOk result (λ x. x ≡ front_item front.entry) }
{
    match front {
        Front::Message(message) => Ok(Item::Message(message.try_copy()?)),
        Front::Stimulus(stimulus) => Ok(Item::Stimulus(stimulus.try_copy(alloc)?)),
    }
}

impl Waiting {
    /// What a node did once.
    pub(crate) fn once(node: i64, passing: Passing) -> Self
        ensures { result ≡ spec.once node passing }
    {
        Waiting {
            node,
            passing,
            times: 1,
        }
    }

    /// The same once more.
    pub(crate) fn once_more(mut self) -> Self
        ensures { result ≡ spec.once_more self }
    {
        self.times = self.times.saturating_add(1);
        self
    }
}

impl Passing {
    /// Whether it is the miss of this action for this reason.
    pub(crate) fn is_miss(&self, action: &Action, why: &Why) -> bool
        ensures { result ≡ same_passing self.now (Passing.Missed action.now why.now) }
    {
        match self {
            Passing::Idle => false,
            Passing::Missed(kept, last) => kept.equals(action) && is_why(last, why),
        }
    }

    /// Whether it is an idle turn.
    pub(crate) fn is_idle(&self) -> bool
        ensures { result ≡ same_passing self.now Passing.Idle }
    {
        match self {
            Passing::Idle => true,
            Passing::Missed(_, _) => false,
        }
    }
}

/// Whether two reasons are the same.
fn is_why(kept: &Why, why: &Why) -> bool
    ensures { result ≡ same_why kept.now why.now }
{
    match (kept, why) {
        (Why::Empty(kept), Why::Empty(queue)) => *kept == *queue,
        (Why::First(kept, item), Why::First(queue, front)) => {
            *kept == *queue && is_item(item, front)
        }
        (Why::Absent(kept), Why::Absent(queue)) => *kept == *queue,
        (Why::Node, Why::Node) => true,
        (Why::False(kept), Why::False(text)) => kept.is_same(text),
        _ => false,
    }
}

/// Whether two items are the same.
fn is_item(item: &Item, front: &Item) -> bool
    ensures { result ≡ same_item item.now front.now }
{
    match (item, front) {
        (Item::Message(kept), Item::Message(message)) => kept.equals(message),
        (Item::Stimulus(kept), Item::Stimulus(stimulus)) => kept.equals(stimulus),
        _ => false,
    }
}
