//! Terms: from tokens to trees, by precedence climbing, with the height of each tree.
//!
//! **A crate of its own**, since it is the cycle of the grammar, and one proof.
//!
//! **Must not know**: shapes, and programs.
#![tactic(auto)]

mod after;
mod built;
mod levels;
mod reading;

pub use built::{Built, QUEUE};
pub use levels::{infix_mark, prefix_mark};
pub use reading::{BRACKET_LIMIT, term};
