//! Whether configurations are the start of a system.
//!
//! **A crate of its own**, since the start is to be told apart where no memory may be taken to build it.
//!
//! **Must not know**: steps, and what makes configurations.
#![tactic(auto)]

mod starting;

pub use starting::is_start;
