//! The tokens of a text read one after another, why reading stops and where, and each form of list of the grammar
//! with its relation, its reading and the lemmas that the two agree.
//!
//! **A crate of its own**, since the readers of terms and of texts share the forms of lists.
//!
//! **Must not know**: shapes, and programs.
#![tactic(auto)]

mod cursor;

pub use cursor::{Tokens, Unread, offset_of};
