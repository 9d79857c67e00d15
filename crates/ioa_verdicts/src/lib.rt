//! The verdicts on a system's invariants along a schedule: in each state of it, or the first in which one is not true.
//!
//! **A crate of its own**, since reports and tests of runs stand on it, and it needs neither.
//!
//! **Must not know**: how a run was made, how an invariant was checked, and how a verdict is reported.
//!
//! **Laws**: `verdict_law`.
#![tactic(auto)]

mod evaluation;
mod findings;
mod laws;
mod places;
mod readers;
mod readings;
mod verdict;
mod watch;

pub use laws::verdict_law;
pub use verdict::Verdict;
pub use watch::verdicts;
