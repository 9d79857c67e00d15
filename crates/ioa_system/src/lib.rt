//! Checked systems: a program for each node, which nodes of one automaton share, channels, scripts, and invariants; and
//! what a term may read, by where it is written.
//!
//! **A crate of its own**, since what checks a text ends with a system and what runs begins with one, so either
//! side changes without the other.
//!
//! **Must not know**: how it was checked.
#![tactic(auto)]

mod automaton;
mod invariant;
mod program;
mod rules;
mod script;
mod system;

pub use automaton::{CheckedAutomaton, Rule, message_shape};
pub use invariant::CheckedInvariant;
pub use program::{Program, program_numbered};
pub use rules::Rules;
pub use script::Script;
pub use system::System;
