//! Values with several owners, each with a number by which it is told in constant time that two owners own one
//! value.
//!
//! **A crate of its own**, since it holds the project's only tokens whose proofs are by hand.
//!
//! **Must not know**: what is shared.
#![tactic(auto)]

mod named;
mod shared;
mod tokens;

pub use named::{MakerOf, Origin, SharedOf};
pub use shared::Maker;
