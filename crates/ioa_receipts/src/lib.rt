//! What a worker gets for its commits, and whether receipts account for a log.
//!
//! **A crate of its own**, since a log is held against receipts from anywhere, with no book beside it.
//!
//! **Must not know**: books, locks, and how a receipt came about.
#![tactic(auto)]

mod covering;
mod receipts;
mod table;

pub use covering::covers;
pub use receipts::{Receipt, Receipts};
