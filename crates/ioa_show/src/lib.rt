//! Pictures, states and steps of a run: a space-time diagram as SVG, a sequence diagram for Mermaid, the states along
//! the schedule in the informal trace format, which viewers of model checkers read, and the start, the steps and the
//! ends of a run as lines of JSON. What is said of the invariants is shown as it is given.
//!
//! **A crate of its own**, since pictures change with what viewers take, and no report does.
//!
//! **Must not know**: how a run was made, how verdicts are found, texts, and the check.
//!
//! **Laws**: `shape_law`.
#![tactic(auto)]

mod arrows;
mod behind;
mod breaks;
mod dots;
mod endings;
mod finding;
mod frame;
mod judged;
mod lanes;
mod laws;
mod memory;
mod outcome;
mod partners;
mod sequence;
mod shaped_values;
mod sorts;
mod space_time;
mod start;
mod state_parts;
mod state_values;
mod states;
mod step_parts;
mod step_values;
mod steps;

pub use ioa_paper::ReportFault;
pub use laws::shape_law;
pub use sequence::mermaid;
pub use space_time::svg;
pub use states::itf;
pub use steps::json;
