//! Laws of the systems that texts describe, and no code: their actions can be printed and read back, and a text has one
//! system at most.
//!
//! **A crate of its own**, since it needs the reader and the check, and only laws wait for it.
//!
//! **Must not know**: runs.
//!
//! **Laws**: `one_system_law`, `text_system_law`.
#![tactic(auto)]

mod laws;

pub use laws::{one_system_law, text_system_law};
