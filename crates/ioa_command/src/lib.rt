//! The command line: what its words choose, and the program as a function of its words and its streams.
//!
//! **A crate of its own**, since it alone stands on `clap`, which costs more to check than the rest of the program.
//!
//! **Must not know**: how a text is run.
#![tactic(auto)]

mod choice;
mod command_line;
mod explaining;
mod fail_on;
mod faults;
mod formats;
mod inputs;
mod replaying;
mod words;

pub use choice::{
    CheckChoice, ExplainChoice, InputName, ReplayChoice, RunChoice, Subcommand, TraceChoice,
};
pub use command_line::{BAD_WORDS, command};
pub use faults::FAILED;
pub use ioa_pipeline::Gate;
pub use words::options;
