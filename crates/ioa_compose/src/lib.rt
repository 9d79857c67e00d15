//! The composition: configurations of components, who takes part in an action, the start of a system, the joint
//! step, replay and projection.
//!
//! **A crate of its own**, since the laws of executions are proved here once, for whoever makes them.
//!
//! **Must not know**: schedule blocks.
//!
//! **Laws**: `delivery_law`, `execution_law`, `joint_step_law`, `pick_law`, `projection_law`, `signature_law`,
//! `start_law`.
#![tactic(auto)]

mod composition;
mod configuration;
mod laws;
mod parties;
mod projection;
mod replaying;
mod starting;

pub use composition::{
    changes, copy_confs, find_conf, joint_redo, joint_step, pick, put_conf, put_confs,
};
pub use configuration::Conf;
pub use laws::{
    delivery_law, execution_law, joint_step_law, pick_law, projection_law, signature_law, start_law,
};
pub use parties::{Parties, participants, takes_part_in};
pub use projection::project;
pub use replaying::{ReplayFault, replay, replay_from};
pub use starting::start;
