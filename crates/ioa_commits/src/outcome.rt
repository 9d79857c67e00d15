//! What comes of commits.

use crate::proposal::{Participant, Proposal};
use ioa_actions::Component;
use ioa_sharing::Origin;
use ioa_transitions::Entry;
use std::fmt;
use thiserror::Error;

/// Why a proposal is not committed, in the order in which the reasons are tested.
#[derive(Clone, Copy, Debug, PartialEq, Eq, Error)]
pub enum CommitRefusal {
    /// `Unknown` (53): the participant is no component of the book.
    Unknown(Component),
    /// `Stale` (50): the participant took a step since the look.
    Stale {
        /// The participant.
        component: Component,
        /// The version that was read.
        read: usize,
        /// The version that the book holds.
        held: usize,
    },
    /// `Differs` (51): the participant's configuration is another one than was read, though its version is the same. So
    /// the proposal is of another book.
    Differs(Component),
    /// `Full` (52): the log has as many entries as the limit allows.
    Full,
}

impl fmt::Display for CommitRefusal {
    ghost use Rattle.std.specs.Prelude.{Some};
    ghost use Rattle.ioa_commits.specs.Refusals.{refusal_text};

    ghost output = { λ r. Some (refusal_text r) };

    fn fmt<W: fmt::Write>(&self, f: &mut fmt::Formatter<W>) -> fmt::Result {
        match self {
            CommitRefusal::Unknown(component) => write!(f, "53 Unknown {component}"),
            CommitRefusal::Stale {
                component,
                read,
                held,
            } => write!(f, "50 Stale {component}: read {read}, held {held}"),
            CommitRefusal::Differs(component) => write!(f, "51 Differs {component}"),
            CommitRefusal::Full => f.write_str("52 Full"),
        }
    }
}

/// A commit that was made. What was read and what was held goes out with it, so that nothing is let go in the commit.
#[derive(Drop)]
pub struct Committed<O: Origin> {
    /// The index of the entry in the log.
    pub index: usize,
    /// The entry.
    pub entry: Entry,
    /// What was read of the queue, if one took part, with what was held of it.
    pub queue: Option<Participant<O>>,
    /// What was read of the node, with what was held of it.
    pub node: Participant<O>,
}

/// A commit that was refused. Nothing is lost: the proposal is handed back.
#[derive(Drop)]
pub struct Refused<O: Origin> {
    /// Why.
    pub refusal: CommitRefusal,
    /// The proposal.
    pub proposal: Proposal<O>,
}
