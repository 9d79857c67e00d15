//! The components that take part in an action.

ghost use Rattle.std.specs.Prelude.{◌≡◌};
ghost use Rattle.ioa_compose.specs.Participants.{participants_of, participant_list, takes_part};

use ioa_actions::{Action, Component};

/// The one or two components that take part in an action.
#[derive(Clone, Copy, Debug)]
pub enum Parties {
    /// A node alone.
    One(Component),
    /// A queue and then a node.
    Two(Component, Component),
}

/// The components that have an action in their signature, the queue first (Lynch 8.2); takes no memory.
#[inline(always)]
pub fn participants(action: &Action) -> Parties
    ensures { participant_list result ≡ participants_of action.now }
{
    let node = Component::Node(action.node());
    match action {
        Action::Send { from, to, .. } | Action::Receive { from, to, .. } => {
            let channel = Component::Channel {
                from: *from,
                to: *to,
            };
            Parties::Two(channel, node)
        }
        Action::Local(_) => Parties::One(node),
        Action::Stimulus(stimulus) => Parties::Two(Component::Script(stimulus.node), node),
    }
}

/// Whether a component takes part in an action.
pub fn takes_part_in(component: Component, action: &Action) -> bool
    ensures { result ≡ takes_part component action.now }
{
    match participants(action) {
        Parties::One(node) => component == node,
        Parties::Two(queue, node) => component == queue || component == node,
    }
}
