//! Queues, of the messages under way on a channel and of the stimuli left in a script, and their steps. A channel's
//! queue keeps the order of its messages or hands out any of them.
//!
//! **A crate of its own**, since it is proved beside nodes, and small, since wrong bodies are tried in it.
//!
//! **Must not know**: terms, programs, nodes' states, and other components.
//!
//! **Laws**: `queue_step_law`, `handed_out_law`.
#![tactic(auto)]

mod head;
mod laws;
mod queue;
mod stimuli;

pub use laws::{handed_out_law, queue_step_law};
pub use queue::{Front, Item, Queue, copy_stimuli};
