//! Whether the lines of a schedule are an execution of a system: each line is read, and its entry, an action and what
//! its effect chose, is taken as a step of the composition. The steps are kept for whoever goes through them again.
//!
//! **A crate of its own**, since it alone joins lines and steps.
//!
//! **Must not know**: how a system was checked, how a line is read, and runs.
//!
//! **Laws**: `schedule_law`, `taken_law`.
#![tactic(auto)]

mod checking;
mod fault;
mod given;
mod going;
mod laws;

pub use checking::check_schedule;
pub use fault::ScheduleFault;
pub use given::{GivenSchedule, given_schedule};
pub use laws::{schedule_law, taken_law};
