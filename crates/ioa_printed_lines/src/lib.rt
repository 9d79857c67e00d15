//! Laws of lines that a run prints: they are read back as the entries that were printed. It has no code.
//!
//! **A crate of its own**, since it needs the texts and the reading of them, and nothing waits for it.
//!
//! **Must not know**: runs, and how steps are taken.
//!
//! **Laws**: `printed_lines_law`, `printed_value_law`.
#![tactic(auto)]

mod laws;

pub use laws::{printed_lines_law, printed_value_law};
