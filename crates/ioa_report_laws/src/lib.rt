//! Laws of reports and traces: each part of a report can be read back, its schedule is an execution, and a trace has
//! the external actions. It has no code.
//!
//! **A crate of its own**, since it needs the check, the run and the report, and nothing waits for it.
//!
//! **Must not know**: how a run is made.
//!
//! **Laws**: `entries_law`, `printed_run_law`, `report_law`, `told_law`, `told_run_law`, `trace_law`.
#![tactic(auto)]

mod laws;

pub use laws::{entries_law, printed_run_law, report_law, told_law, told_run_law, trace_law};
