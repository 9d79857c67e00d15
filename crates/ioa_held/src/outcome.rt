//! What comes of attempts.

use ioa_book::{CommitRefusal, Participant, Proposal};
use ioa_passes::Older;
use ioa_receipts::Receipt;
use ioa_sharing::Origin;
use std::fmt;
use thiserror::Error;

/// Why an attempt is missed.
#[derive(Clone, Copy, Debug, PartialEq, Eq, Error)]
pub enum Miss {
    /// `Older` (54): the log is shorter than it was seen.
    Older(Older),
    /// The book refuses the proposal.
    Refused(CommitRefusal),
}

/// An attempt that was missed. Nothing is lost: the proposal is handed back.
#[derive(Drop)]
pub struct Missed<O: Origin> {
    /// Why.
    pub why: Miss,
    /// The proposal.
    pub proposal: Proposal<O>,
}

/// A commit that was made. What was read goes out with it, so that its last owner lets it go outside of the lock.
#[derive(Drop)]
pub struct Taken<O: Origin> {
    /// Where the action stands in the log.
    pub receipt: Receipt,
    /// What was read of the queue, if one took part, with what was held of it.
    pub queue: Option<Participant<O>>,
    /// What was read of the node, with what was held of it.
    pub node: Participant<O>,
}

impl fmt::Display for Miss {
    ghost use Rattle.std.specs.Prelude.{Some};
    ghost use Rattle.ioa_held.specs.Texts.{miss_text};

    ghost output = { λ m. Some (miss_text m) };

    fn fmt<W: fmt::Write>(&self, f: &mut fmt::Formatter<W>) -> fmt::Result {
        match self {
            Miss::Older(older) => write!(f, "{older}"),
            Miss::Refused(refusal) => write!(f, "{refusal}"),
        }
    }
}
