//! What any worker does with a node: how far the node has come, its turn on what a look shows, the action that the turn
//! fires, and the fault with which it ends.
//!
//! **A crate of its own**, since every way to run takes the same turns.
//!
//! **Must not know**: rounds, whether a look is fresh, and locks.
//!
//! **Laws**: `fired_law`, `inboxes_law`.
#![tactic(auto)]

mod block;
mod faults;
mod firing;
mod going;
mod laws;
mod node;
mod progress;
mod turn;

pub use block::BlockSteps;
pub use faults::{fault_of_refusal, fault_of_step};
pub use laws::{fired_law, inboxes_law};
pub use progress::Progress;
pub use turn::turn_of;
