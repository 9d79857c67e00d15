//! Scripts of rows: files of commands with the answers that are wanted, which a program writes out anew with the
//! answers that it gives. `checks/rows` says how a line is read.
//!
//! **A crate of its own**, since the programs of rows of all layers share it.
//!
//! **Must not know**: any command.
#![tactic(auto)]

mod line;
mod program;
mod session;

pub use line::{Line, line_of};
pub use program::answer_script;
pub use session::{CommandFault, Session};
