//! Which receive takes which send.

ghost use Rattle.std.specs.Prelude.{◌≡◌, ◌++◌, ◌∷◌, ◌<◌, [], IfOk, OnOk, length, slice_set};
ghost use Rattle.std.specs.List.{position_from};
ghost use Rattle.ioa_show.specs.Matching.{and_receive, first_of, matched_with, partner_at, partners_of, rest_of};
ghost use Rattle.ioa_show.specs.Matching.{with_queue};
ghost use Rattle.ioa_show.specs.Traffics.{has_message, is_on, matching, waiting_on, waits};

use ioa_actions::Action;
use ioa_rawlog::RawLog;
use ioa_transitions::Entry;
use ioa_values::Value;
use std::alloc::{AllocError, Global};
use std::collections::VecDeque;

/// A send whose message was not received.
#[derive(Clone, Copy)]
pub struct Waiting<'a> {
    /// Its position in the schedule.
    pub position: usize,
    /// Its message.
    pub message: &'a Value,
}

/// What is under way on a channel.
#[derive(Drop)]
pub struct Traffic<'a> {
    /// The node that sends.
    pub from: i64,
    /// The node that receives.
    pub to: i64,
    /// The sends whose messages were not received, in order.
    pub waiting: VecDeque<Waiting<'a>>,
}

/// For each action of a schedule the position of its partner: of a receive that of the first send on its channel whose
/// message is equal and was not received before, and of that send that of the receive. A send whose message was not
/// received has none, and neither has an action that is neither a send nor a receive. Takes memory for a few numbers an
/// action.
pub fn partners(alloc: Global, schedule: &RawLog<Entry>) -> Result<Vec<Option<usize>>, AllocError>
    ensures { IfOk result (λ v. v.items ≡ partners_of schedule.now) }
{
    let mut found = Vec::new(alloc);
    let mut channels = Vec::new(alloc);
    for entry in schedule.walk() {
        note(alloc, &mut channels, &mut found, entry.action())?;
    }
    Ok(found)
}

/// Notes one more action, and its partner if that is known already.
fn note<'a>(
    alloc: Global,
    channels: &mut Vec<Traffic<'a>>,
    found: &mut Vec<Option<usize>>,
    action: &'a Action,
) -> Result<(), AllocError>
    ensures { OnOk result (matching channels.new.items found.new.items
        ≡ matched_with action.now (matching channels.old.items found.old.items)) }
{
    match action {
        Action::Send { message, from, to } => {
            note_send(alloc, channels, found, *from, *to, message)
        }
        Action::Receive { message, from, to } => {
            note_receive(channels, found, *from, *to, message)
        }
        Action::Local(_) => note_other(found),
        Action::Stimulus(_) => note_other(found),
    }
}

/// Notes an action that is neither a send nor a receive.
fn note_other(found: &mut Vec<Option<usize>>) -> Result<(), AllocError>
    ensures { OnOk result (found.new.items ≡ found.old.items ++ (None ∷ [])) }
{
    found.push(None)?;
    Ok(())
}

/// Notes a send on a channel.
fn note_send<'a>(
    alloc: Global,
    channels: &mut Vec<Traffic<'a>>,
    found: &mut Vec<Option<usize>>,
    from: i64,
    to: i64,
    message: &'a Value,
) -> Result<(), AllocError>
    ensures way { OnOk result (waiting_on channels.new.items ≡ with_queue from to
        (waiting_on channels.old.items from to ++ ((length found.old.items, message.now) ∷ []))
        (waiting_on channels.old.items)) }
    ensures found { OnOk result (found.new.items ≡ found.old.items ++ (None ∷ [])) }
{
    put_under_way(alloc, channels, from, to, found.len(), message)?;
    note_other(found)
}

/// Notes a receive from a channel, and at the send that it takes, if there is one, that its message was received.
fn note_receive(
    channels: &mut Vec<Traffic<'_>>,
    found: &mut Vec<Option<usize>>,
    from: i64,
    to: i64,
    message: &Value,
) -> Result<(), AllocError>
    ensures way { OnOk result (waiting_on channels.new.items ≡ with_queue from to
        (rest_of message.now (waiting_on channels.old.items from to)) (waiting_on channels.old.items)) }
    ensures found { OnOk result (found.new.items
        ≡ and_receive (first_of message.now (waiting_on channels.old.items from to)) found.old.items) }
{
    let sent = take_first(channels, from, to, message);
    note_partners(found, sent)
}

/// Notes an action with its partner, which stands before it, and at that the action.
fn note_partners(found: &mut Vec<Option<usize>>, sent: Option<usize>) -> Result<(), AllocError>
    ensures { OnOk result (found.new.items ≡ and_receive sent found.old.items) }
{
    let position = found.len();
    match sent {
        None => {}
        Some(sent) => mark(found, sent, position),
    }
    found.push(sent)?;
    Ok(())
}

/// Notes a partner at a position.
fn mark(found: &mut Vec<Option<usize>>, position: usize, partner: usize)
    ensures { found.new.items ≡ slice_set found.old.items position (Some partner) }
{
    if position < found.len() {
        found[position] = Some(partner);
    }
}

/// Puts a send behind what is under way on its channel.
fn put_under_way<'a>(
    alloc: Global,
    channels: &mut Vec<Traffic<'a>>,
    from: i64,
    to: i64,
    position: usize,
    message: &'a Value,
) -> Result<(), AllocError>
    ensures { OnOk result (waiting_on channels.new.items ≡ with_queue from to
        (waiting_on channels.old.items from to ++ ((position, message.now) ∷ [])) (waiting_on channels.old.items)) }
{
    match place_of(channels, from, to) {
        Some(place) => put_last(&mut channels[place], position, message),
        None => {
            let channel = first_send(alloc, from, to, position, message)?;
            channels.push(channel)?;
            Ok(())
        }
    }
}

/// Puts a send behind those that wait.
#[tactic(auto, using(crate::proofs::Waiting::one_more))]
fn put_last<'a>(
    channel: &mut Traffic<'a>,
    position: usize,
    message: &'a Value,
) -> Result<(), AllocError>
    ensures from { channel.new.from ≡ channel.old.from }
    ensures to { channel.new.to ≡ channel.old.to }
    ensures waiting { OnOk result (waits channel.new ≡ waits channel.old ++ ((position, message.now) ∷ [])) }
{
    channel.waiting.push_back(Waiting { position, message })?;
    Ok(())
}

/// A channel with one send.
fn first_send<'a>(
    alloc: Global,
    from: i64,
    to: i64,
    position: usize,
    message: &'a Value,
) -> Result<Traffic<'a>, AllocError>
    ensures { IfOk result (λ t. (t.from ≡ from) × (t.to ≡ to) × (waits t ≡ (position, message.now) ∷ [])) }
{
    let mut waiting = VecDeque::new(alloc);
    waiting.push_back(Waiting { position, message })?;
    Ok(Traffic { from, to, waiting })
}

/// Takes the first send with this message of what is under way on a channel, if there is one: its position.
fn take_first(channels: &mut Vec<Traffic<'_>>, from: i64, to: i64, message: &Value) -> Option<usize>
    ensures way { waiting_on channels.new.items ≡ with_queue from to
        (rest_of message.now (waiting_on channels.old.items from to)) (waiting_on channels.old.items) }
    ensures first { result ≡ first_of message.now (waiting_on channels.old.items from to) }
{
    match place_of(channels, from, to) {
        Some(place) => take_equal(&mut channels[place], message),
        None => None,
    }
}

/// Takes the first send that waits with this message.
fn take_equal(channel: &mut Traffic<'_>, message: &Value) -> Option<usize>
    ensures from { channel.new.from ≡ channel.old.from }
    ensures to { channel.new.to ≡ channel.old.to }
    ensures first { result ≡ first_of message.now (waits channel.old) }
    ensures rest { waits channel.new ≡ rest_of message.now (waits channel.old) }
{
    match place_of_message(&channel.waiting, message) {
        Some(place) => match channel.waiting.remove(place) {
            Some(sent) => Some(sent.position),
            None => None,
        },
        None => None,
    }
}

/// Where the first send that waits with this message stands, if there is one.
fn place_of_message(waiting: &VecDeque<Waiting<'_>>, message: &Value) -> Option<usize>
    ensures { result ≡ position_from (λ w. has_message message.now w) 0 waiting.now.items }
{
    waiting.iter().position(|sent| message.equals(sent.message))
}

/// Where the traffic of a channel is noted, if it is.
fn place_of(channels: &[Traffic<'_>], from: i64, to: i64) -> Option<usize>
    ensures { result ≡ position_from (λ t. is_on from to t) 0 channels.now }
{
    channels
        .iter()
        .position(|channel| channel.from == from && channel.to == to)
}

/// The partner of the action at a position, if it has one.
pub fn partner_at(partners: &[Option<usize>], position: usize) -> Option<usize>
    ensures { result ≡ partner_at position partners.now }
{
    match partners.get(position) {
        Some(partner) => *partner,
        None => None,
    }
}
