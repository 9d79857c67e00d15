//! Automata with slots and shapes: from an automaton as spelled and the types of its text, the automaton with the
//! slot of each name and the shape of each sort and display, or the refusal.
//!
//! **A crate of its own**, since the rules about one automaton are proved apart from nodes, channels and values.
//!
//! **Must not know**: nodes, channels, values, and which declaration the automaton is.
//!
//! **Laws**: `automata_law`, `heads_law`.
#![tactic(auto)]

mod automata;
mod laws;
mod names;
mod parts;
mod rules;
mod schedules;

pub use automata::sort_automaton;
pub use laws::{automata_law, heads_law};
