//! A run told as a text: a line for each action with what it changed, for misses and idle turns with how often they
//! came one after another, for each ending, and for the entry of a schedule that is no step; and where an invariant is
//! first not true. The reason for which an entry is no step stands alone too, for whoever shows a schedule otherwise.
//!
//! **A crate of its own**, since a run can be told in other forms, and no form needs another.
//!
//! **Must not know**: how a run is told again, and how a verdict is found.
#![tactic(auto)]

mod changes;
mod keeping;
mod kept;
mod lines;
mod reasons;
mod refusals;
mod stops;
mod terms;
mod tests;
mod text;
mod verdicts;
mod waiting;

pub use kept::KeptText;
pub use reasons::reason_text;
pub use text::TextTeller;
