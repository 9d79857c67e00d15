//! What the type of values keeps of the arguments of actions, and of chosen values.

ghost use Rattle.std.specs.List.{AllByRecursion};
ghost use Rattle.std.specs.Prelude.{[], ◌∷◌};
ghost use Rattle.ioa_values.specs.Data.{number};
ghost use Rattle.ioa_actions.specs.ActionParts.{action_arguments};
ghost use Rattle.ioa_runtime_values.specs.RuntimeValues.{AreRuntimeValues, HasRuntimeValues};

use crate::values::bounded_law;
use ioa_actions::{Action, NodeAction};
use ioa_rawlog::RawLog;
use ioa_transitions::Entry;
use ioa_values::Value;

/// The arguments of all actions of a schedule, and all values that effects chose, are values of the runtime. Does
/// nothing.
pub fn schedule_values_law(schedule: &RawLog<Entry>)
    ensures { AllByRecursion HasRuntimeValues schedule.now }
{
    for entry in schedule.walk() {
        entry_values_law(entry);
    }
}

/// The arguments of an entry's action, and the values that its effect chose, are values of the runtime. Does nothing.
pub fn entry_values_law(entry: &Entry)
    ensures { HasRuntimeValues entry.now }
{
    action_values_law(entry.action());
    values_law(entry.chosen());
}

/// The arguments of an action are values of the runtime. Does nothing.
pub fn action_values_law(action: &Action)
    ensures { AreRuntimeValues (action_arguments action.now) }
{
    match action {
        Action::Send { message, from, to } => message_law(message, *from, *to),
        Action::Receive { message, from, to } => message_law(message, *from, *to),
        Action::Local(action) => node_action_law(action),
        Action::Stimulus(action) => node_action_law(action),
    }
}

/// The same of a message and the two ends of its channel.
fn message_law(message: &Value, from: i64, to: i64)
    ensures { AreRuntimeValues (message.now ∷ number from ∷ number to ∷ []) }
{
    bounded_law(message);
    message.canonical_law();
}

/// The same of the arguments of an action of a node.
fn node_action_law(action: &NodeAction)
    ensures { AreRuntimeValues action.now.arguments }
{
    values_law(action.arguments.as_slice());
}

/// The same of the values of a list.
pub(crate) fn values_law(values: &[Value])
    ensures { AreRuntimeValues values.now }
{
    for value in values {
        bounded_law(value);
        value.canonical_law();
    }
}
