//! Runs of a system by several workers: each goes round its own nodes in a thread of its own, and all commit to one
//! book under a lock.
//!
//! **A crate of its own**, since it alone starts threads: what a worker does in one is proved without them.
//!
//! **Must not know**: texts, reports, and what a worker does with a node.
#![tactic(auto)]

mod gathering;
mod hold_gate;
mod running;
mod slot;
mod threads;

pub use hold_gate::HoldGate;
pub use ioa_held::FinishFault;
pub use running::{STACK_SIZE, run, run_on_stacks};
