//! The core machine: hands that look at nodes, propose and commit over one book, one event after another.
//!
//! **A crate of its own**, since it says of every order of looks, proposals and commits what each comes to, by the
//! events alone: so a commit is refused exactly if there is a conflict.
//!
//! **Must not know**: threads and locks, what a run leaves, and how a commit is tested.
//!
//! **Laws**: `commit_law`, `old_look_law`, `tally_law`.
#![tactic(auto)]

mod event;
mod hand;
mod laws;
mod machine;
mod reply;

pub use event::Event;
pub use laws::{commit_law, old_look_law, tally_law};
pub use machine::{Core, Halt, interleave};
pub use reply::Reply;
