//! What events come to.

ghost use Rattle.std.specs.Prelude.{◌≡◌, Some, false, is_some, true};
ghost use Rattle.ioa_core.specs.Replies.{is_memory, reply_to_refusal};

use ioa_actions::{Component, StepFault};
use ioa_book::CommitRefusal;
use std::fmt;

/// What an event comes to. There is no word for `Differs` (51) and `Unknown` (53): they never come of what a hand of
/// the core has read itself.
#[derive(Debug, Drop)]
pub enum Reply {
    /// The hand holds a look at the node. What it held before is let go.
    Looked,
    /// There is no such node. Nothing changes.
    NoNode,
    /// The hand holds the proposal in place of its look.
    Proposed,
    /// The action is no step on the look: `NotMine` (41) if it is another node's, else the joint step's fault. The hand
    /// keeps its look.
    Refused(StepFault),
    /// The hand holds no look to propose on. Nothing changes.
    NothingLooked,
    /// The proposal is committed, and its entry has this index in the log. The hand is empty.
    Committed(usize),
    /// `Stale` (50): this participant of the action took part in another one since the look. The hand is empty.
    Stale {
        /// The first such participant.
        component: Component,
        /// Its version at the look: in how many actions it had taken part.
        read: usize,
        /// Its version now.
        held: usize,
    },
    /// `Full` (52): the log has as many entries as it may. The hand is empty.
    Full,
    /// The hand holds no proposal to commit. Nothing changes.
    NothingProposed,
    /// The hand is empty now, whatever it held.
    Abandoned,
    /// There is no such hand. Nothing changes.
    NoHand,
}

impl fmt::Display for Reply {
    ghost use Rattle.std.specs.Prelude.{Some};
    ghost use Rattle.ioa_core.specs.Replies.{reply_text};

    ghost output = { λ r. Some (reply_text r) };

    fn fmt<W: fmt::Write>(&self, f: &mut fmt::Formatter<W>) -> fmt::Result {
        match self {
            Reply::Looked => f.write_str("Looked"),
            Reply::NoNode => f.write_str("NoNode"),
            Reply::Proposed => f.write_str("Proposed"),
            Reply::Refused(fault) => write!(f, "Refused {fault}"),
            Reply::NothingLooked => f.write_str("NothingLooked"),
            Reply::Committed(index) => write!(f, "Committed {index}"),
            Reply::Stale {
                component,
                read,
                held,
            } => write!(f, "50 Stale {component}: read {read}, held {held}"),
            Reply::Full => f.write_str("52 Full"),
            Reply::NothingProposed => f.write_str("NothingProposed"),
            Reply::Abandoned => f.write_str("Abandoned"),
            Reply::NoHand => f.write_str("NoHand"),
        }
    }
}

/// The reply to a commit that is refused. A proposal of the core's own is never of another book.
pub(crate) fn reply_to_refusal(refusal: CommitRefusal) -> Reply
    requires { is_some (reply_to_refusal refusal) ≡ true }
    ensures reply { reply_to_refusal refusal ≡ Some result }
    ensures calm { is_memory result ≡ false }
{
    match refusal {
        CommitRefusal::Stale {
            component,
            read,
            held,
        } => Reply::Stale {
            component,
            read,
            held,
        },
        CommitRefusal::Full => Reply::Full,
        CommitRefusal::Unknown(_) => unreachable!(),
        CommitRefusal::Differs(_) => unreachable!(),
    }
}
