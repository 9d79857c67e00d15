//! Schedule blocks that run: what a turn of one performs, at which fire it stands, and how it moves past that.
//!
//! **A crate of its own**, since a turn is proved over what a block sees, whoever shows it.
//!
//! **Must not know**: nodes, channels, and which action a fire is.
//!
//! **Laws**: `turn_law`.
#![tactic(auto)]

mod arguments;
mod control;
mod laws;
mod lists;
mod position;
mod rounds;
mod state;
mod step;
mod stepping;
mod turn;
mod turning;

pub use control::Control;
pub use ioa_terms::View;
pub use laws::turn_law;
pub use stepping::Stepping;
pub use turn::{TURN_LIMIT, Turn};
pub use turning::{next, passed};
