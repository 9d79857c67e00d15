//! What is read at places.

ghost use Rattle.std.specs.Prelude.{◌≡◌, if◌then◌else◌, IfOk, None, Some, slice_get};
ghost use Rattle.std.specs.Option.{option_and_then, option_copied, option_map};
ghost use Rattle.ioa_values.specs.Data.{items_of, sequence};
ghost use Rattle.ioa_channels.specs.Queues.{messages_of};
ghost use Rattle.ioa_compose.specs.Readings.{queue_messages};
ghost use Rattle.ioa_verdicts.specs.Places.{reading_at, readings_at, variable_in};

use crate::places::{Place, at_slot};
use ioa_channels::Queue;
use ioa_compose::Conf;
use ioa_terms::Value;
use std::alloc::{AllocError, Global};

/// Puts what is read at places in place of what the list holds. Answers whether something is read at each.
pub fn read_all(
    confs: &[Conf],
    places: &[Place],
    values: &mut Vec<Value>,
) -> Result<bool, AllocError>
    ensures { IfOk result (λ b. readings_at places.now confs.now ≡ (if b then Some values.new.items else None)) }
{
    values.clear();
    for place in places {
        match read(confs, *place)? {
            Some(value) => values.push(value)?,
            None => return Ok(false),
        }
    }
    Ok(true)
}

/// What is read at a place, if there is something.
fn read(confs: &[Conf], place: Place) -> Result<Option<Value>, AllocError>
    ensures { IfOk result (λ v. v ≡ reading_at place confs.now) }
{
    match place {
        Place::Nowhere => Ok(None),
        Place::Variable { slot, position } => copied(variable_in(at_slot(confs, slot), position)),
        Place::Messages(slot) => messages_in(at_slot(confs, slot)),
    }
}

/// The value of the state variable at a position, if there is one.
fn variable_in(conf: Option<&Conf>, position: usize) -> Option<&Value>
    ensures { option_copied result ≡ option_and_then (variable_in position) (option_copied conf.entry) }
{
    match conf {
        Some(Conf::Node(node)) => value_at(node.variables(), position),
        Some(Conf::Queue(_)) | None => None,
    }
}

/// The value at a position, if there is one.
fn value_at(values: &[Value], position: usize) -> Option<&Value>
    ensures { option_copied result ≡ slice_get values.now position }
{
    values.get(position)
}

/// A copy of a value, if there is one.
fn copied(value: Option<&Value>) -> Result<Option<Value>, AllocError>
    ensures { IfOk result (λ v. v ≡ option_copied value.entry) }
{
    match value {
        Some(value) => Ok(Some(value.try_copy()?)),
        None => Ok(None),
    }
}

/// The messages in a queue, as a sequence, if it holds nothing else.
fn messages_in(conf: Option<&Conf>) -> Result<Option<Value>, AllocError>
    ensures { IfOk result (λ v. v ≡ option_and_then queue_messages (option_copied conf.entry)) }
{
    match conf {
        Some(Conf::Queue(queue)) => sequence_of(queue),
        Some(Conf::Node(_)) | None => Ok(None),
    }
}

/// The messages in a queue, as a sequence, if it holds nothing else.
fn sequence_of(queue: &Queue) -> Result<Option<Value>, AllocError>
    ensures { IfOk result (λ v. v ≡ option_map (λ ms. sequence (items_of ms)) (messages_of queue.now.items)) }
{
    match queue.messages() {
        Some(messages) => Ok(Some(Value::sequence(messages.try_clone()?))),
        None => Ok(None),
    }
}
