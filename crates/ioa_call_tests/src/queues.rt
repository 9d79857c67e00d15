//! Queues that hand out their first message, and those that hand out any.

use ioa_actions::{ChannelKind, Component, StepFault};
use ioa_channels::{Front, Item, Queue};
use ioa_values::Value;
use std::alloc::{AllocError, Global};
use std::test::Fail;

/// A channel's queue of this kind with the messages 7 and 8.
fn two_messages(alloc: Global, kind: ChannelKind) -> Result<Queue, AllocError> {
    let component = Component::Channel { from: 0, to: 1 };
    let none = Box::new(alloc, Queue::empty(component, kind))?;
    let one = Box::new(alloc, none.after_send(alloc, Value::number(7))?)?;
    one.after_send(alloc, Value::number(8))
}

/// Whether this message is received.
fn is_received(alloc: Global, queue: &Queue, message: i64) -> bool {
    queue
        .after_receive(alloc, &Item::Message(Value::number(message)))
        .is_ok()
}

/// Whether this message cannot be received.
fn is_missed(alloc: Global, queue: &Queue, message: i64) -> bool {
    match queue.after_receive(alloc, &Item::Message(Value::number(message))) {
        Err(StepFault::NotEnabled) => true,
        Ok(_) | Err(_) => false,
    }
}

/// Whether this message is first.
fn is_first(queue: &Queue, message: i64) -> bool {
    match queue.front() {
        Some(Front::Message(first)) => first.equals(&Value::number(message)),
        Some(Front::Stimulus(_)) | None => false,
    }
}

/// Whether this message is first once the message 7 is received.
fn is_next(alloc: Global, queue: &Queue, message: i64) -> bool {
    match queue.after_receive(alloc, &Item::Message(Value::number(7))) {
        Ok(rest) => is_first(&rest, message),
        Err(_) => false,
    }
}

#[test]
fn queues_hand_out_their_first(rt: HostRuntime) -> Result<(), Fail> {
    let messages = two_messages(rt.alloc(), ChannelKind::Ordered)?;
    let queue = Box::new(rt.alloc(), messages)?;
    let is_in_order = queue.len() == 2
        && !is_received(rt.alloc(), &queue, 8)
        && is_next(rt.alloc(), &queue, 8);
    assert!(rt; is_in_order);
    Ok(())
}

// The program of the gate runs this test and the next one. Both ask for memory equally often, so a miss asks for none.
#[test]
fn a_queue_without_order_is_filled(rt: HostRuntime) -> Result<(), Fail> {
    let messages = two_messages(rt.alloc(), ChannelKind::Unordered)?;
    let queue = Box::new(rt.alloc(), messages)?;
    let has_two = queue.len() == 2;
    assert!(rt; has_two);
    Ok(())
}

#[test]
fn a_message_that_is_not_there_is_missed(rt: HostRuntime) -> Result<(), Fail> {
    let messages = two_messages(rt.alloc(), ChannelKind::Unordered)?;
    let queue = Box::new(rt.alloc(), messages)?;
    let missed = is_missed(rt.alloc(), &queue, 9);
    assert!(rt; missed);
    Ok(())
}
