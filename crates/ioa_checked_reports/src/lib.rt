//! The law that the schedule of each report of a run passes the check of schedules, and no code.
//!
//! **A crate of its own**, since it needs the whole run and the whole check, and nothing waits for it.
//!
//! **Must not know**: how lines are written or read.
//!
//! **Laws**: `checked_report_law`.
#![tactic(auto)]

mod laws;

pub use laws::checked_report_law;
