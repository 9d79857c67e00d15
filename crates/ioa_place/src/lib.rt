//! Places of a text, for people: lines and columns, the line that is shown, where each declaration begins, and the
//! token at a place.
//!
//! **A crate of its own**, since whoever tells a person of a place counts lines and columns in the same way.
//!
//! **Must not know**: trees, and why a text is refused.
#![tactic(auto)]

mod found;
mod picture;
mod place;

pub use found::{declaration_at, digits_at, token_at, token_length};
pub use picture::show_part;
pub use place::{Place, line_at, line_before, place_at, width_of};
