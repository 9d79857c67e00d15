//! The report of a run, put out piece by piece: no text of the whole run, and none of a line, is kept. Beside it the
//! trace of a run, the verdicts along a schedule, and what ioa_verdicts and ioa_schedule_check have.
//!
//! **A crate of its own**, since reports stand on runs alone, and neither on texts nor on how a system was checked.
//!
//! **Must not know**: how a run was made.
#![tactic(auto)]

mod commits;
mod endings;
mod findings;
mod invariants;
mod judging;
mod nodes;
mod queues;
mod reporting;
mod schedule;
mod traces;

pub use endings::put_ending;
pub use findings::{Findings, findings_of};
pub use invariants::put_verdicts;
pub use ioa_paper::ReportFault;
pub use ioa_schedule_check::{ScheduleFault, check_schedule, schedule_law};
pub use ioa_verdicts::{Verdict, verdict_law, verdicts};
pub use judging::judge;
pub use reporting::report;
pub use traces::trace;
