//! Where a worker looks and commits: at a book that it has for itself, or at one under a lock; and what is called in
//! between.
//!
//! **A crate of its own**, since a worker does the same at each, and its contracts say what it read and wrote.
//!
//! **Must not know**: turns of blocks, and how a lock is held.
#![tactic(auto)]

mod board;
mod gate;
mod locked;
mod place;
mod solo;

pub use board::Board;
pub use gate::{Gate, Open};
pub use locked::Locked;
pub use place::Place;
