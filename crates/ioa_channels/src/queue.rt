//! Queues of channels and scripts, and their steps.

ghost use Rattle.std.specs.Prelude.{◌≡◌, [], ◌∷◌, ◌↔◌, IsTrue, IfOk, Ok, IfSome, IsErrOf, List, OnOk, length, map};
ghost use Rattle.std.specs.Prelude.{slice_get};
ghost use Rattle.std.specs.List.{list_any};
ghost use Rattle.std.specs.Option.{option_map};
ghost use Rattle.ioa_values.specs.Outcome.{Answers, and_then};
ghost use Rattle.ioa_channels.specs.Queues.{queue_state, queue_items, messages_of, same_item};
ghost use Rattle.ioa_channels.specs.Queues.{with_last, items_behind, without_equal, without_item, without_message};
ghost use Rattle.ioa_channels.specs.Queues.{queue_answer};
ghost use Rattle.ioa_channels.specs.QueueSteps.{ComesOut};
ghost use Rattle.ioa_channels.specs.Fronts.{front_item};
ghost use Rattle.ioa_channels.specs.SameQueues.{same_queue};

use crate::head::Head;
use crate::stimuli::Stimuli;
use ioa_actions::{Action, ChannelKind, Component, NodeAction, StepFault};
use ioa_values::{Sequence, Value};
use std::alloc::{AllocError, Global};
use std::marker::Model;

/// An item of a queue.
#[derive(Debug)]
pub enum Item {
    /// A message on its way through a channel.
    Message(Value),
    /// A stimulus that a script has left.
    Stimulus(NodeAction),
}

/// By hand, so that crates above do not prove again how the parts are let go (DECISIONS).
impl Drop for Item {
    #[inline(always)]
    fn drop(self) {
        match self {
            Item::Message(_) | Item::Stimulus(_) => {}
        }
    }
}

/// The first item of a queue, which the queue lends.
#[derive(Clone, Copy, Debug)]
pub enum Front<'a> {
    /// A message.
    Message(&'a Value),
    /// A stimulus.
    Stimulus(&'a NodeAction),
}

/// Equal stimuli with their own memory, in order.
pub fn copy_stimuli(alloc: Global, stimuli: &[NodeAction]) -> Result<Vec<NodeAction>, AllocError>
    ensures { IfOk result (λ v. v.items ≡ stimuli.now) }
{
    let mut copied = Vec::new(alloc);
    for stimulus in stimuli {
        copied.push(stimulus.try_copy(alloc)?)?;
    }
    Ok(copied)
}

/// The queue of a channel or of a script: the items that were put in and have not come out, in order. A contract sees
/// the name of its component, whether it keeps the order, and the list of its items. A queue begins with the stimuli of
/// a script or with nothing, and only messages are put in, so the stimuli that are left are in front of all messages.
#[derive(Debug)]
pub struct Queue {
    component: Component,
    head: Head,
    messages: Sequence,
}

/// By hand, so that crates above do not prove again how the parts are let go (DECISIONS).
impl Drop for Queue {
    #[inline(always)]
    fn drop(self) {
        let Queue {
            component: _,
            head: _,
            messages: _,
        } = self;
    }
}

impl Model for Queue {
    ghost use Rattle.ioa_channels.specs.Queues.{QueueState, queue_state, queue_state_code, queue_items};

    ghost Value = { QueueState };

    ghost coded = { queue_state_code };

    ghost use Rattle.ioa_channels.specs.Heads.{kind_in, stimuli_in};

    ghost view = { λ q. queue_state q.component (kind_in q.head) (queue_items (stimuli_in q.head) q.messages) };
}

impl Queue {
    /// The queue of a component with nothing in it; takes no memory.
    pub fn empty(component: Component, kind: ChannelKind) -> Self
        ensures { result ≡ queue_state component kind [] }
    {
        Queue {
            component,
            head: Head::Nothing(kind),
            messages: Sequence::new(),
        }
    }

    /// The queue of a component with these stimuli, first to last.
    pub fn of_stimuli(
        alloc: Global,
        component: Component,
        stimuli: Vec<NodeAction>,
    ) -> Result<Self, AllocError>
        ensures { IfOk result (λ q. q ≡ queue_state component ChannelKind.Ordered (map Item.Stimulus stimuli.items)) }
    {
        Ok(Queue {
            component,
            head: Head::Stimuli(Stimuli::of(alloc, stimuli)?),
            messages: Sequence::new(),
        })
    }

    /// The name of its component.
    pub fn component(&self) -> Component
        ensures { result ≡ self.now.component }
    {
        self.component
    }

    /// Whether it keeps the order of its messages.
    pub fn kind(&self) -> ChannelKind
        ensures { result ≡ self.now.kind }
    {
        self.head.kind()
    }

    /// How many items it has.
    #[tactic(auto, using(crate::proofs::Parts::length_of_parts))]
    pub fn len(&self) -> usize
        ensures { result ≡ length self.now.items }
    {
        self.head.as_slice().len() + self.messages.len()
    }

    /// Its first item, if it has one: what comes out next, if the queue keeps the order.
    pub fn front(&self) -> Option<Front<'_>>
        ensures { option_map front_item result ≡ slice_get self.now.items 0 }
    {
        match self.head.as_slice() {
            [] => match self.messages.first() {
                Some(message) => Some(Front::Message(message)),
                None => None,
            },
            [stimulus, ..] => Some(Front::Stimulus(stimulus)),
        }
    }

    /// Its items in two lists: the stimuli that are left, and the messages behind them, each first to last.
    pub fn items(&self) -> (&[NodeAction], &Sequence)
        ensures { self.now.items ≡ queue_items result.0.now result.1.now }
    {
        (self.head.as_slice(), &self.messages)
    }

    /// Its messages, first to last, if no stimulus is left in it.
    pub fn messages(&self) -> Option<&Sequence>
        ensures exact { option_map (λ m. m.now) result ≡ messages_of self.now.items }
        ensures items { IfSome result (λ m. self.now.items ≡ map Item.Message m.now) }
    {
        match self.head.as_slice() {
            [] => Some(&self.messages),
            [_, ..] => None,
        }
    }

    /// Whether a message is among its items. Costs time in proportion to the messages.
    #[tactic(auto, using(crate::proofs::Parts::message_among))]
    pub fn holds(&self, message: &Value) -> bool
        ensures { result ≡ list_any (same_item (Item.Message message.now)) self.now.items }
    {
        self.messages.contains(message)
    }

    /// Whether two queues are the same, whatever memory they are kept in. Costs time in proportion to the shorter one.
    #[tactic(auto, using(crate::proofs::SameQueues::same_queue_is))]
    pub fn equals(&self, other: &Self) -> bool
        ensures value { result ≡ same_queue self.now other.now }
        ensures equality { IsTrue result ↔ (self.now ≡ other.now) }
    {
        self.is_same(other)
    }

    /// Whether two queues are of one component and one kind and have the same items.
    #[tactic(auto, using(crate::proofs::SameQueues::same_parts))]
    fn is_same(&self, other: &Self) -> bool
        ensures { result ≡ same_queue self.now other.now }
    {
        self.component == other.component
            && self.head.kind() == other.head.kind()
            && self.head.as_slice() == other.head.as_slice()
            && self.messages.equals(&other.messages)
    }

    /// The same queue once more, which shares its items with this one. Costs the same at any length, and takes
    /// no memory.
    pub fn try_copy(&self) -> Result<Self, AllocError>
        ensures { IfOk result (λ q. q ≡ self.now) }
    {
        Ok(Queue {
            component: self.component,
            head: self.head.try_clone()?,
            messages: self.messages.try_clone()?,
        })
    }

    /// The queue with one more message at the end (Lynch 14.1).
    #[tactic(auto, using(crate::proofs::Parts::one_more_message))]
    pub fn after_send(&self, alloc: Global, message: Value) -> Result<Self, AllocError>
        ensures { IfOk result (λ q. q ≡ with_last (Item.Message message) self.now) }
    {
        Ok(Queue {
            component: self.component,
            head: self.head.try_clone()?,
            messages: self.messages.append(alloc, message)?,
        })
    }

    /// The queue without this item: it is to be the first (Lynch 14.1), but of a queue that keeps no order any message
    /// may come out, and then the first that is equal to it does. `NotEnabled` (40) if the item cannot come out, which
    /// takes no memory. Of a queue that keeps no order a message costs a comparison with each in front of it.
    pub fn after_receive(&self, alloc: Global, item: &Item) -> Result<Self, StepFault>
        ensures answer { Answers StepFault.Memory (λ q. q) result (without_item item.now self.now) }
        ensures out { IfOk result (λ q. ComesOut item.now self.now.kind self.now.items q.items) }
        ensures not_out { IsErrOf result StepFault.NotEnabled
            → (rest : List Item) → ComesOut item.now self.now.kind self.now.items rest → ⊥ }
    {
        self.after_item(alloc, item)
    }

    /// The queue without this item.
    fn after_item(&self, alloc: Global, item: &Item) -> Result<Self, StepFault>
        ensures { Answers StepFault.Memory (λ q. q) result (without_item item.now self.now) }
    {
        match item {
            Item::Message(message) => self.after_message(alloc, message),
            Item::Stimulus(action) => self.after_stimulus(action),
        }
    }

    /// The queue without this message.
    fn after_message(&self, alloc: Global, message: &Value) -> Result<Self, StepFault>
        ensures { Answers StepFault.Memory (λ q. q) result (without_item (Item.Message message.now) self.now) }
    {
        let mut next = self.try_copy()?;
        self.receive_over(alloc, message, &mut next)?;
        Ok(next)
    }

    /// The queue without the first message that is equal to this one. It is the rare way, so its code does not stand in
    /// that of a step.
    #[tactic(auto, using(crate::proofs::Parts::any_message))]
    #[inline(never)]
    fn after_any(&self, alloc: Global, message: &Value) -> Result<Self, StepFault>
        ensures { Answers StepFault.Memory (λ q. q) result
            (and_then (without_equal (Item.Message message.now) self.now.items)
            (λ items. Ok (queue_state self.now.component self.now.kind items))) }
    {
        let messages = without_message(alloc, &self.messages, message)?;
        Ok(Queue {
            component: self.component,
            head: self.head.try_clone()?,
            messages,
        })
    }

    /// The queue without its first item, which is to be this stimulus; takes no memory.
    fn after_stimulus(&self, action: &NodeAction) -> Result<Self, StepFault>
        ensures { Answers StepFault.Memory (λ q. q) result (without_item (Item.Stimulus action.now) self.now) }
    {
        match self.head.as_slice() {
            [] => Err(StepFault::NotEnabled),
            [first, ..] => {
                if !first.equals(action) {
                    return Err(StepFault::NotEnabled);
                }
                Ok(Queue {
                    component: self.component,
                    head: self.head.behind_first()?,
                    messages: self.messages.try_clone()?,
                })
            }
        }
    }

    /// The queue after an action (Lynch 8.1 and 14.1): a send puts its message in, a receive takes its message out, and
    /// a stimulus takes itself out. `NotEnabled` (40) if the item to come out is not the first, or if the queue keeps
    /// no order and has no such message; `NotMine` (41) for an action that has no queue. It is meant for an action in
    /// which the queue takes part, and does not test that.
    pub fn step(&self, alloc: Global, action: &Action) -> Result<Self, StepFault>
        ensures { Answers StepFault.Memory (λ q. q) result (queue_answer self.now action.now) }
    {
        match action {
            Action::Send { message, .. } => {
                let message = message.try_copy()?;
                Ok(self.after_send(alloc, message)?)
            }
            Action::Receive { message, .. } => self.after_message(alloc, message),
            Action::Local(_) => Err(StepFault::NotMine),
            Action::Stimulus(stimulus) => self.after_stimulus(stimulus),
        }
    }

    /// The same step, written over another queue, which after a fault is some queue.
    pub fn step_over(
        &self,
        alloc: Global,
        action: &Action,
        next: &mut Queue,
    ) -> Result<(), StepFault>
        ensures { Answers StepFault.Memory (λ _. next.new) result (queue_answer self.now action.now) }
    {
        match action {
            Action::Send { message, .. } => {
                let message = message.try_copy()?;
                self.send_over(alloc, message, next)?;
                Ok(())
            }
            Action::Receive { message, .. } => self.receive_over(alloc, message, next),
            _ => {
                *next = self.step(alloc, action)?;
                Ok(())
            }
        }
    }

    /// The queue with one more message at the end, written over another queue.
    #[tactic(auto, using(crate::proofs::Parts::one_more_message))]
    fn send_over(&self, alloc: Global, message: Value, next: &mut Queue) -> Result<(), AllocError>
        ensures { OnOk result (next.new ≡ with_last (Item.Message message) self.now) }
    {
        next.messages = self.messages.append(alloc, message)?;
        next.head = self.head.try_clone()?;
        next.component = self.component;
        Ok(())
    }

    /// The queue without this message, written over another queue.
    #[inline(always)]
    fn receive_over(
        &self,
        alloc: Global,
        message: &Value,
        next: &mut Queue,
    ) -> Result<(), StepFault>
        ensures { Answers StepFault.Memory (λ _. next.new) result (without_item (Item.Message message.now) self.now) }
    {
        match self.head.kind() {
            ChannelKind::Ordered => self.first_over(alloc, message, next),
            ChannelKind::Unordered => {
                *next = self.after_any(alloc, message)?;
                Ok(())
            }
        }
    }

    /// The queue without its first item, which is to be this message, written over another queue.
    #[inline(always)]
    fn first_over(&self, alloc: Global, message: &Value, next: &mut Queue) -> Result<(), StepFault>
        ensures { Answers StepFault.Memory (λ _. next.new) result
            (and_then (items_behind (Item.Message message.now) self.now.items)
            (λ items. Ok (queue_state self.now.component self.now.kind items))) }
    {
        match (self.head.as_slice(), self.messages.first()) {
            ([], Some(first)) => {
                if !first.equals(message) {
                    return Err(StepFault::NotEnabled);
                }
                next.messages = self.messages.without_first(alloc)?;
                next.head = Head::Nothing(self.head.kind());
                next.component = self.component;
                Ok(())
            }
            ([], None) => Err(StepFault::NotEnabled),
            ([_, ..], _) => Err(StepFault::NotEnabled),
        }
    }
}

/// Messages without the first that is equal to this one; `NotEnabled` (40) if there is none, which takes no memory.
/// Costs a comparison with each message up to that one.
#[tactic(auto, using(crate::proofs::Parts::taking_rules))]
fn without_message(
    alloc: Global,
    messages: &Sequence,
    message: &Value,
) -> Result<Sequence, StepFault>
    ensures { Answers StepFault.Memory (λ s. s) result (without_message message.now messages.now) }
{
    match messages.position_of(message) {
        None => Err(StepFault::NotEnabled),
        Some(position) => Ok(messages.without_item(alloc, position)?),
    }
}
