//! What is wrong with a schedule, in words for people: the line for which it is refused, where in it reading stopped
//! and what could stand there, or why its entry is no step.
//!
//! **A crate of its own**, since it alone joins the check of a schedule with what is told of the state in which it
//! stops.
//!
//! **Must not know**: how lines are read, how steps are taken, and how reasons are found.
#![tactic(auto)]

mod candidates;
mod explaining;
mod fault;
mod line;
mod page;
mod reason;
mod refused;

pub use explaining::{LineFinding, explain_lines};
pub use fault::ExplainLinesFault;
pub use reason::reason_of;
