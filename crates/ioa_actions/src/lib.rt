//! Actions, components and kinds of channels of a system: their order, their text, what an action has (its node, its
//! name, its arguments, its message), and why an action is no step.
//!
//! **A crate of its own**, since nodes, queues and the composition share it and are proved side by side; the words
//! `send` and `receive` stand here and nowhere else.
//!
//! **Must not know**: terms and programs.
//!
//! **Laws**: `parts_law`.
#![tactic(auto)]

mod action;
mod component;
mod fault;
mod laws;
mod text;

pub use action::{Action, NodeAction, RECEIVE, SEND, Values, are_same};
pub use component::{ChannelKind, Component};
pub use fault::StepFault;
pub use laws::parts_law;
pub use text::{push_listed, show_action, show_node_action};
