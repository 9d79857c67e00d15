//! The book of commits: looks at a node, proposals of actions on what a look shows, and their commits.
//!
//! **A crate of its own**, since what computes proposals is checked apart from what tests and records them.
//!
//! **Must not know**: threads and locks, schedule blocks, and who commits.
//!
//! **Laws**: `fresh_look_law`, `stands_law`.
#![tactic(auto)]

mod book;
mod laws;
mod outcome;
mod proposing;
mod reading;
mod reads;
mod rooms;
mod snapshot;

pub use book::Book;
pub use ioa_commits::{CommitRefusal, Committed, Participant, Proposal, Refused, VersionedConf};
pub use laws::{fresh_look_law, stands_law};
pub use outcome::LookFault;
pub use reads::Reads;
pub use rooms::Rooms;
pub use snapshot::Snapshot;
