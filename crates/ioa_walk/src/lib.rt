//! A walk over the tokens of a text beside its tree, and where a part of the text stands. The tree decides, and the
//! tokens follow: each name and number of the tree is the next one, and brackets, commas and reserved words before it
//! are passed.
//!
//! **A crate of its own**, since it is proved without trees, and what finds a part needs no place.
//!
//! **Must not know**: trees, and what a part is looked for.
#![tactic(auto)]

mod part;
mod span;
mod walk;

pub use part::{Part, joined, one_token};
pub use span::{Span, is_mark, span_of};
pub use walk::{Lost, Walk};
