//! Laws of how a worker ends a node: a node that is met with another program, and the fault to which a refusal, a fault
//! of a step or a fault of a look comes. It has no code.
//!
//! **A crate of its own**, since it needs the run, and nothing waits for it.
//!
//! **Must not know**: texts, the check, and reports.
//!
//! **Laws**: `faults_law`, `met_law`.
#![tactic(auto)]

mod laws;

pub use laws::{faults_law, met_law};
