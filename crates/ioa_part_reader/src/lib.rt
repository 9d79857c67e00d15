//! Parts of texts: from tokens to the trees of declarations, placements and invariants, one small function for each
//! production; and the grammar of texts, with the lemmas that parts are read as they are spelled.
//!
//! **A crate of its own**, since the grammar above terms has no cycle but that of statements, and what reads whole
//! texts is small without it.
//!
//! **Must not know**: shapes, programs, and where in a text a token stands.
#![tactic(auto)]

mod automaton;
mod built;
mod call;
mod declared;
mod signature;
mod sort;
mod statement;
mod system;

pub use system::{declarations, invariants, placements};
