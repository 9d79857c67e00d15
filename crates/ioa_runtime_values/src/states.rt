//! What the type of values keeps of the values in configurations.

ghost use Rattle.ioa_runtime_values.specs.RuntimeValues.{AreRuntimeConfs, AreRuntimeValues, IsRuntimeConf};
ghost use Rattle.ioa_runtime_values.specs.RuntimeValues.{IsRuntimeQueue};

use crate::actions::values_law;
use crate::values::bounded_law;
use ioa_channels::Queue;
use ioa_compose::Conf;
use ioa_values::Sequence;

/// The values of all nodes' variables, and all messages under way, are values of the runtime, and each queue has as
/// many items as the runtime counts. Does nothing.
pub fn states_values_law(states: &[Conf])
    ensures { AreRuntimeConfs states.now }
{
    for state in states {
        conf_law(state);
    }
}

/// The same of one configuration.
fn conf_law(state: &Conf)
    ensures { IsRuntimeConf state.now }
{
    match state {
        Conf::Node(node) => values_law(node.variables()),
        Conf::Queue(queue) => queue_law(queue),
    }
}

/// The same of a queue.
fn queue_law(queue: &Queue)
    ensures { IsRuntimeQueue queue.now.items }
{
    let _len = queue.len();
    let (_, messages) = queue.items();
    messages_law(messages);
}

/// The messages of a queue are values of the runtime. Does nothing.
fn messages_law(messages: &Sequence)
    ensures { AreRuntimeValues messages.now }
{
    for position in 0..messages.len() {
        let message = messages.at(position);
        bounded_law(message);
        message.canonical_law();
    }
}
