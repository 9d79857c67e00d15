//! What a run leaves: its schedule, its last configurations, the commits of its workers, and how its nodes ended; what
//! that says of a run; and the options of runs.
//!
//! **A crate of its own**, since reports and runs share it, and neither stands on the other.
//!
//! **Must not know**: how a run was made, and in which book.
#![tactic(auto)]

mod ending;
mod options;
mod record;

pub use ending::{Ending, NodeFault};
pub use options::{
    DEFAULT_ATTEMPTS, DEFAULT_STEPS, DEFAULT_WORKERS, GREATEST_ATTEMPTS, GREATEST_STEPS,
    GREATEST_WORKERS, Options,
};
pub use record::Record;
