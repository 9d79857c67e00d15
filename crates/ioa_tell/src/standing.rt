//! What a course has of the components that take part in an entry.

ghost use Rattle.std.specs.Prelude.{◌≡◌, IfOk, Some, slice_get};
ghost use Rattle.std.specs.Option.{option_copied};
ghost use Rattle.ioa_actions.specs.ActionParts.{node_of};
ghost use Rattle.ioa_compose.specs.Composition.{find_conf};
ghost use Rattle.ioa_compose.specs.Participants.{participants_of};
ghost use Rattle.ioa_reasons.specs.Reasons.{queue_among};

use crate::fault::TellFault;
use ioa_actions::Component;
use ioa_compose::{Conf, Parties, participants};
use ioa_course::Course;
use ioa_transitions::Entry;
use std::alloc::Global;

/// The node of an entry, once more. `Differs` (51) if there is none.
pub(crate) fn node_copied(alloc: Global, course: &Course, entry: &Entry) -> Result<Conf, TellFault>
    ensures { IfOk result (λ c. find_conf (Component.Node (node_of entry.now.action)) course.now ≡ Some c) }
{
    match node_at(course, entry) {
        Some(conf) => Ok(conf.try_copy(alloc)?),
        None => Err(TellFault::Differs),
    }
}

/// The node of an entry, if there is one.
pub(crate) fn node_at<'a>(course: &'a Course, entry: &Entry) -> Option<&'a Conf>
    ensures { option_copied result ≡ find_conf (Component.Node (node_of entry.now.action)) course.now }
{
    conf_at(course, Component::Node(entry.action().node()))
}

/// The queue that takes part in an entry. None if no queue does, or if there is none.
pub(crate) fn queue_at<'a>(course: &'a Course, entry: &Entry) -> Option<&'a Conf>
    ensures { option_copied result ≡ queue_among (participants_of entry.now.action) course.now }
{
    match participants(entry.action()) {
        Parties::One(_) => None,
        Parties::Two(queue, _) => conf_at(course, queue),
    }
}

/// The configuration of a component, if there is one. It takes no search of all components.
fn conf_at(course: &Course, component: Component) -> Option<&Conf>
    ensures { option_copied result ≡ find_conf component course.now }
{
    match course.slot_of(component) {
        Some(slot) => conf_in(course.confs(), slot),
        None => None,
    }
}

/// The configuration in a slot, if there is one.
fn conf_in(confs: &[Conf], slot: usize) -> Option<&Conf>
    ensures { option_copied result ≡ slice_get confs.now slot }
{
    confs.get(slot)
}
