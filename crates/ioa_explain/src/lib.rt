//! What is wrong with a text, in words for people: where it is refused, what the refusal asks for, and what could stand
//! there instead.
//!
//! **A crate of its own**, since no other crate speaks to people at length: it asks the reader and the check, whose
//! answers are a number and a place.
//!
//! **Must not know**: how a text is read and checked, and how a system runs.
#![tactic(auto)]

mod asking;
mod candidates;
mod explaining;
mod fault;
mod further;
mod kinds;
mod page;
mod reading;
mod refused;
mod sections;
mod sentences;
mod units;
mod verdict;

pub use explaining::{Finding, explain};
pub use fault::ExplainFault;
