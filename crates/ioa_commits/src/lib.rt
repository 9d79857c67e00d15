//! Commits: the configurations held with their versions and an index of their components, the log of what was recorded,
//! the tests of what a proposal read, and the commit of a proposal.
//!
//! **A crate of its own**, since eight wrong bodies of a commit are tried in it, each over a check of this crate.
//!
//! **Must not know**: how a node is looked at and how a proposal is computed, threads and locks.
#![tactic(auto)]

mod holding;
mod journal;
mod outcome;
mod proposal;
mod standing;
mod versioned;

pub use journal::Journal;
pub use outcome::{CommitRefusal, Committed, Refused};
pub use proposal::{Participant, Parts, Proposal};
pub use standing::Test;
pub use versioned::VersionedConf;
