//! Whole runs, from a text to its report; runs and schedules shown step by step; checks of schedules, from a text and
//! a schedule to what is to be said of them, for programs and for people; and texts laid out anew. Reading, checking, running, reporting and
//! printing meet here and nowhere else.
//!
//! **A crate of its own**, since it alone stands on all five.
//!
//! **Must not know**: how threads run, and the command line.
#![tactic(auto)]

mod described;
mod explaining;
mod judging;
mod printing;
mod replaying;
mod schedule_check;
mod tracing;
mod whole_run;

pub use explaining::explain_schedule;
pub use ioa_boards::{Gate, Open};
pub use ioa_explain_schedule::{ExplainLinesFault, LineFinding};
pub use ioa_monitor::Findings;
pub use ioa_record::{
    DEFAULT_ATTEMPTS, DEFAULT_STEPS, DEFAULT_WORKERS, GREATEST_ATTEMPTS, GREATEST_STEPS,
    GREATEST_WORKERS, Options,
};
pub use judging::{Judging, judge_text};
pub use printing::{PrintFault, print_text};
pub use replaying::{ReplayFault, trace_schedule};
pub use schedule_check::{CheckScheduleFault, check_text};
pub use tracing::{Format, TraceFault, trace_text};
pub use whole_run::{RunFault, run_system};
