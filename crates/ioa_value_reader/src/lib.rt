//! Values: from tokens to the value that they spell, by the shape that it has to have.
//!
//! **A crate of its own**, since schedule lines and whatever else is written as values are read by it, and its cycle is
//! one proof.
//!
//! **Must not know**: terms, systems, and actions.
//!
//! **Laws**: `constants_law`, `reading_law`.
#![tactic(auto)]

mod ascent;
mod laws;
mod reading;

pub use laws::{constants_law, reading_law};
pub use reading::read_value;
