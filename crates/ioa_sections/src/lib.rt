//! What the declarations and the system section of a text come to: types and automata with sorts, the programs of nodes
//! with their values, channels and scripts; or the refusal, in declarations with the index of the one that is refused.
//!
//! **A crate of its own**, since the rules of the system section are proved over what automata have become, beside
//! invariants and apart from whole texts.
//!
//! **Must not know**: tokens, the reader, invariants, and how a term or an automaton gets its sorts.
#![tactic(auto)]

mod channels;
mod checked;
mod declarations;
mod fault;
mod ground;
mod nodes;
mod placed;
mod scripts;
mod values;

pub use channels::MOST_CHANNELS;
pub use checked::CheckedDeclarations;
pub use fault::{CheckFault, fault_at};
pub use nodes::MOST_NODES;
pub use placed::Placed;
