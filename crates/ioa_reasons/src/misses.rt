//! Why an action was not enabled.

ghost use Rattle.std.specs.Prelude.{◌≡◌, true, Some, slice_get};
ghost use Rattle.std.specs.Option.{option_copied};
ghost use Rattle.ioa_channels.specs.Fronts.{front_item};
ghost use Rattle.ioa_commits.specs.Versions.{read_confs};
ghost use Rattle.ioa_compose.specs.Participants.{participants_of};
ghost use Rattle.ioa_reasons.specs.PlainReasons as told;
ghost use Rattle.ioa_reasons.specs.Reasons as spec;
ghost use Rattle.ioa_reasons.specs.Reasons.{IsReason};
ghost use Rattle.ioa_reasons.specs.Reasons.{is_by_order, queue_among};

use crate::reason::Reason;
use crate::shown::queue_of;
use ioa_actions::{Action, ChannelKind};
use ioa_book::Snapshot;
use ioa_channels::{Front, Queue};
use ioa_compose::Conf;
use ioa_sharing::Origin;

/// Why an action that is not enabled on what a look shows is not, by the queue that takes part in it: the queue has no
/// item, or its first item is another one, or it keeps no order and has not the message that is received. Else the
/// reason is the node's, of which `find_falsified` says more.
pub fn reason_of<'a, O: Origin>(look: &'a Snapshot<O>, action: &Action) -> Reason<'a>
    ensures { IsReason (queue_among (participants_of action.now) (read_confs look.now.reads)) action.now
        (told.reason_of result) }
{
    reason_with(queue_of(look, action), action)
}

/// Why an action that is not enabled is not, by the configuration of the queue that takes part in it. The node's reason
/// if none does.
pub fn reason_with<'a>(queue: Option<&'a Conf>, action: &Action) -> Reason<'a>
    ensures { IsReason (option_copied queue.entry) action.now (told.reason_of result) }
{
    match queue {
        Some(conf) => reason_of_conf(conf, action),
        None => Reason::Node,
    }
}

/// The same by the configuration of the queue.
fn reason_of_conf<'a>(conf: &'a Conf, action: &Action) -> Reason<'a>
    ensures { IsReason (Some conf.now) action.now (told.reason_of result) }
{
    match conf {
        Conf::Node(_) => Reason::Node,
        Conf::Queue(queue) => reason_of_queue(queue, action),
    }
}

/// The same by the queue. A send puts an item in, which nothing hinders.
fn reason_of_queue<'a>(queue: &'a Queue, action: &Action) -> Reason<'a>
    ensures { IsReason (Some (Conf.Queue queue.now)) action.now (told.reason_of result) }
{
    match action {
        Action::Send { .. } | Action::Local(_) => Reason::Node,
        Action::Receive { .. } | Action::Stimulus(_) => reason_of_items(queue, action),
    }
}

/// The same of an action that takes an item out.
fn reason_of_items<'a>(queue: &'a Queue, action: &Action) -> Reason<'a>
    ensures { IsReason (Some (Conf.Queue queue.now)) action.now (told.reason_of result) }
{
    match queue.front() {
        None => Reason::Empty(queue.component()),
        Some(front) => reason_of_kind(queue, front, action),
    }
}

/// The same by the kind of the queue, whose first item this is.
fn reason_of_kind<'a>(queue: &Queue, front: Front<'a>, action: &Action) -> Reason<'a>
    requires { Some (front_item front) ≡ slice_get queue.now.items 0 }
    ensures { IsReason (Some (Conf.Queue queue.now)) action.now (told.reason_of result) }
{
    match queue.kind() {
        ChannelKind::Ordered => reason_of_front(queue, front, action),
        ChannelKind::Unordered => reason_of_any(queue, front, action),
    }
}

/// The same of a queue that keeps no order.
fn reason_of_any<'a>(queue: &Queue, front: Front<'a>, action: &Action) -> Reason<'a>
    requires first { Some (front_item front) ≡ slice_get queue.now.items 0 }
    requires kind { queue.now.kind ≡ ChannelKind.Unordered }
    ensures { IsReason (Some (Conf.Queue queue.now)) action.now (told.reason_of result) }
{
    match action {
        Action::Receive { message, .. } => {
            if queue.holds(message) {
                Reason::Node
            } else {
                Reason::Absent(queue.component())
            }
        }
        Action::Send { .. } | Action::Local(_) | Action::Stimulus(_) => {
            reason_of_front(queue, front, action)
        }
    }
}

/// The same by the first item of the queue, if that alone comes out.
fn reason_of_front<'a>(queue: &Queue, front: Front<'a>, action: &Action) -> Reason<'a>
    requires first { Some (front_item front) ≡ slice_get queue.now.items 0 }
    requires in_order { is_by_order queue.now.kind action.now ≡ true }
    ensures { IsReason (Some (Conf.Queue queue.now)) action.now (told.reason_of result) }
{
    if is_taken_out(front, action) {
        Reason::Node
    } else {
        Reason::First(queue.component(), front)
    }
}

/// Whether an action takes this item out of its queue.
fn is_taken_out(front: Front<'_>, action: &Action) -> bool
    ensures { result ≡ spec.is_taken_out (front_item front.entry) action.now }
{
    match (front, action) {
        (Front::Message(first), Action::Receive { message, .. }) => first.equals(message),
        (Front::Stimulus(first), Action::Stimulus(stimulus)) => first.equals(stimulus),
        _ => false,
    }
}
