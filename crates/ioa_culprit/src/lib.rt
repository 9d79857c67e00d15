//! Which part of a refused text is the culprit: from a text that was read and what the check refused, the smallest part
//! of the refused declaration that is refused with the same number when it is asked alone, its place in the text, and
//! what is found there.
//!
//! **A crate of its own**, since the check knows no places, and nothing that runs needs them.
//!
//! **Must not know**: the sentences in which a refusal is told, the check of whole texts, and runs.
#![tactic(auto)]

mod asking;
mod automaton;
mod block;
mod choices;
mod cut;
mod declared;
mod finding;
mod halt;
mod heading;
mod index;
mod invariant;
mod near;
mod offers;
mod passed;
mod readings;
mod roles;
mod rules;
mod section;
mod sections;
mod statements;
mod terms;
mod types;
mod unknown;
mod words;

pub use finding::{Search, Spot, culprit};
pub use ioa_walk::Span;
pub use sections::ChecksSections;
