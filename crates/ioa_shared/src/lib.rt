//! The books at which workers look and commit: one under a lock, which several workers share, and one that a worker has
//! for itself, with no lock. The type of each says with which system it was opened.
//!
//! **A crate of its own**, since the lock stands here alone: who has a book, and what is known of it then, is no part
//! of what a book does.
//!
//! **Must not know**: how a look, an attempt and a finish come about, schedule blocks, and texts.
#![tactic(auto)]

mod opening;
mod shared;
mod solo;

pub use opening::Opening;
pub use shared::{Shared, open};
pub use solo::Solo;
