//! Passes: what a worker has seen of a book of commits, and looks under a pass, which is shown nothing older than that.
//!
//! **A crate of its own**, since what a pass lets through is proved apart from who holds the book and what is
//! committed.
//!
//! **Must not know**: shares, receipts, and what stands under the commit lock.
//!
//! **Laws**: `pass_law`.
#![tactic(auto)]

mod laws;
mod outcome;
mod pass;

pub use laws::pass_law;
pub use outcome::{Aged, Older, ViewFault};
pub use pass::{Pass, Seen};
