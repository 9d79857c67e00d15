//! The run of a system by one worker, who goes round the nodes: what a fire comes to, visits and rounds.
//!
//! **A crate of its own**, since the run is defined here apart from the code, without texts.
//!
//! **Must not know**: texts, how a system was checked, and reports.
//!
//! **Laws**: `cut_law`, `solo_law`.
#![tactic(auto)]

mod endings;
mod firing;
mod going;
mod hand;
mod laws;
mod meeting;
mod running;
mod visited;
mod visiting;
mod working;

pub use endings::{Endings, GREATEST_NODES};
pub use hand::Hand;
pub use laws::{cut_law, solo_law};
pub use running::run;
pub use working::work;
