//! Schedule lines: from a line's tokens to the entry of a system that it spells, its action and the values that its
//! effect chose, or to where they stop to spell one, and a text gone through line by line.
//!
//! **A crate of its own**, since it is what a schedule written as a text is read by, and stands on systems and on what
//! a log holds of a step, and not on how the texts of systems are read.
//!
//! **Must not know**: configurations, and how steps are taken.
//!
//! **Laws**: `line_law`, `lines_law`.
#![tactic(auto)]

mod action;
mod arguments;
mod choices;
mod entry;
mod fault;
mod laws;
mod lines;
mod node;
mod stops;

pub use entry::entry_spelled;
pub use fault::LineFault;
pub use laws::{line_law, lines_law};
pub use lines::{LineSpan, ScheduleLines, entries_of};
pub use stops::left_of_beginning;
