//! An input that is read whole as a text, and an output that takes a text piece by piece and knows whether it ever
//! failed.
//!
//! **A crate of its own**, since what goes in and out is proved without a word of the language.
//!
//! **Must not know**: texts of the language.
#![tactic(auto)]

mod input;
mod input_parts;
mod output;
mod schedule_lines;

pub use input::{INPUT_LIMIT, InputFault, SCHEDULE_LIMIT, read_input, read_within};
pub use input_parts::parts;
pub use output::{Out, OutFailed, Over, put_all};
pub use schedule_lines::{is_report, schedule_part};
