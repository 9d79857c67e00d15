//! Where the components of a list stand, and the slots of those that a node has to do with.
//!
//! **A crate of its own**, since commits find what is held by it, and so does a schedule that is gone through again.
//!
//! **Must not know**: what stands in a slot.
#![tactic(auto)]

mod index;

pub use index::Index;
