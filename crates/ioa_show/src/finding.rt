//! What is found among the components: a configuration, and the shape of the messages that a node takes.

ghost use Rattle.std.specs.Prelude.{◌≡◌, slice_get};
ghost use Rattle.std.specs.Option.{option_copied};
ghost use Rattle.ioa_compose.specs.Composition.{find_conf};
ghost use Rattle.ioa_show.specs.Receivers as spec;

use ioa_actions::Component;
use ioa_compose::Conf;
use ioa_course::Course;
use ioa_system::message_shape;
use ioa_terms::Shape;

/// The configuration of a component, if there is one.
#[tactic(auto, using(ioa_verdicts::proofs::Found::found_at, ioa_verdicts::proofs::Found::found_nowhere))]
pub fn conf_of(course: &Course, component: Component) -> Option<&Conf>
    ensures { option_copied result ≡ find_conf component course.now }
{
    match course.slot_of(component) {
        Some(slot) => conf_at(course.confs(), slot),
        None => None,
    }
}

/// The configuration in a slot, if there is one.
fn conf_at(confs: &[Conf], slot: usize) -> Option<&Conf>
    ensures { option_copied result ≡ slice_get confs.now slot }
{
    confs.get(slot)
}

/// The shape of the messages that a node takes, if it takes messages.
pub fn taken_shape(course: &Course, node: i64) -> Option<&Shape>
    ensures { option_copied result ≡ spec.taken_shape course.now node }
{
    match conf_of(course, Component::Node(node)) {
        Some(conf) => conf_takes(conf),
        None => None,
    }
}

/// The shape of the messages that a component takes, if it is a node that takes messages.
fn conf_takes(conf: &Conf) -> Option<&Shape>
    ensures { option_copied result ≡ spec.conf_takes conf.now }
{
    match conf {
        Conf::Node(node) => message_shape(node.program().automaton().rules()),
        Conf::Queue(_) => None,
    }
}
