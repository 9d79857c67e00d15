//! From the tree of a source to its system: what its declarations and its system section come to, with its invariants;
//! or the refusal with the index of its declaration.
//!
//! **A crate of its own**, since what holds of a whole text is proved over what its parts have come to.
//!
//! **Must not know**: tokens, the reader, and how terms, automata, nodes, channels and scripts are checked.
//!
//! **Laws**: `check_law`.
#![tactic(auto)]

mod checking;
mod invariants;
mod laws;

pub use checking::check;
pub use laws::check_law;
