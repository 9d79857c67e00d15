//! A log that grows by one item at a time and takes no memory when it does: blocks of 64 items linked by raw
//! pointers, with the next block made before, as a spare.
//!
//! **A crate of its own**, since it is the one place with raw pointers; what is above sees a list.
//!
//! **Must not know**: what is logged.
#![tactic(auto)]

mod log;
mod nodes;
mod spare;
mod walk;

pub use log::RawLog;
pub use spare::Spare;
pub use walk::Walk;

#[cfg(test)]
mod tests;
