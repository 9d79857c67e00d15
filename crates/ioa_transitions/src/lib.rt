//! The steps of a node: its configuration, what an action of its automaton does to the values of its state variables,
//! and what a log holds of a step.
//!
//! **A crate of its own**, since it is proved beside queues.
//!
//! **Must not know**: queues, and other components.
//!
//! **Laws**: `node_step_law`.
#![tactic(auto)]

mod entry;
mod laws;
mod node;
mod rule;

pub use entry::Entry;
pub use laws::node_step_law;
pub use node::NodeConf;
