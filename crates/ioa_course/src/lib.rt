//! The configurations of a system's components on their way along a schedule, moved in place.
//!
//! **A crate of its own**, since more than one goes through a schedule again: what decides invariants, and what checks
//! that a schedule can be taken.
//!
//! **Must not know**: how a schedule is kept, and what is looked for in the configurations.
#![tactic(auto)]

mod course;
mod moving;
mod slots;

pub use course::Course;
