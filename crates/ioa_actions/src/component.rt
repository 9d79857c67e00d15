//! The components of a system.

ghost use Rattle.std.specs.Prelude.{◌≡◌};
ghost use Rattle.ioa_actions.specs.ComponentOrder.{component_cmp};

use std::cmp::Ordering;
use std::fmt;

/// The name of a component: a node's automaton, the queue of a declared channel, or the queue of a
/// node's scripted stimuli (Lynch 8.2 and 14.1, and profile for scripts). Components are ordered by
/// kind, in the order of the variants, and then by their nodes from left to right.
#[derive(Clone, Copy, Debug, PartialEq, Eq, PartialOrd, Ord)]
pub enum Component {
    /// The node of a number.
    Node(i64),
    /// The channel from one node to another.
    Channel {
        /// The node that sends.
        from: i64,
        /// The node that receives.
        to: i64,
    },
    /// The script of a node.
    Script(i64),
}

/// Whether a channel keeps the order of its messages: reliable FIFO channels (Lynch 14.1), and reliable ones without an
/// order (profile).
#[derive(Clone, Copy, Debug, PartialEq, Eq)]
pub enum ChannelKind {
    /// The message that was sent first comes out first.
    Ordered,
    /// Any message that is on the channel may come out.
    Unordered,
}

impl Component {
    /// How two components compare: by kind, and then by their nodes from left to right.
    pub fn compare(&self, other: &Self) -> Ordering
        ensures { result ≡ component_cmp self.now other.now }
    {
        self.cmp(other)
    }
}

impl fmt::Display for Component {
    ghost use Rattle.std.specs.Prelude.{Some};
    ghost use Rattle.ioa_actions.specs.ComponentText.{component_text};

    ghost output = { λ c. Some (component_text c) };

    fn fmt<W: fmt::Write>(&self, f: &mut fmt::Formatter<W>) -> fmt::Result {
        match self {
            Component::Node(node) => write!(f, "node {node}"),
            Component::Channel { from, to } => write!(f, "channel {from} -> {to}"),
            Component::Script(node) => write!(f, "script {node}"),
        }
    }
}
