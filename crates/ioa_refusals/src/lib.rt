//! The refusals of the check, with their numbers and names.
//!
//! **A crate of its own**, a leaf, since whoever tells a refusal needs no rule of sorts.
//!
//! **Must not know**: what is checked, and in which order.
#![tactic(auto)]

mod refusal;

pub use refusal::Refusal;
