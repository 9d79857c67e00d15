//! What hands do.

ghost use Rattle.std.specs.Prelude.{◌≡◌};
ghost use Rattle.ioa_core.specs.Cores.{hand_of};

use ioa_actions::Action;

/// What a hand does. Hands are numbered from 0.
#[derive(Debug, Drop)]
pub enum Event {
    /// It looks at a node.
    Look {
        /// The hand.
        hand: usize,
        /// The node.
        node: i64,
    },
    /// It proposes an action on its look.
    Propose {
        /// The hand.
        hand: usize,
        /// The action.
        action: Action,
    },
    /// It commits its proposal.
    Commit {
        /// The hand.
        hand: usize,
    },
    /// It lets go what it holds.
    Abandon {
        /// The hand.
        hand: usize,
    },
}

impl Event {
    /// The hand.
    pub fn hand(&self) -> usize
        ensures { result ≡ hand_of self.now }
    {
        match self {
            Event::Look { hand, .. } => *hand,
            Event::Propose { hand, .. } => *hand,
            Event::Commit { hand } => *hand,
            Event::Abandon { hand } => *hand,
        }
    }
}
