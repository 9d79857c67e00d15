//! Invariants: the names `x@k` and `queue(i, j)` that the term of one reads, the shape of each, and from an invariant
//! of a text and the section that it speaks of the checked one, or the refusal.
//!
//! **A crate of its own**, since it needs of a system only programs and channels, and no automaton as it was declared.
//!
//! **Must not know**: how nodes and channels were checked, and what value a name has in a state.
//!
//! **Laws**: `invariants_law`.
#![tactic(auto)]

mod invariants;
mod laws;
mod names;
mod shapes;

pub use invariants::{Section, check_invariant};
pub use laws::invariants_law;
