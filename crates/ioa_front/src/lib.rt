//! The front of the language for tools: what the reader has, and sources printed as texts.
//!
//! **A crate of its own**, since the program does not print sources, so nothing of it waits for this.
//!
//! **Must not know**: shapes, and programs.
#![tactic(auto)]

mod declarations;
mod layout;
mod piece;
mod printing;
mod statements;
mod terms;
mod texts;
mod writing;

pub use ioa_text_reader::{FrontFault, LeftOut, Source, one_source, parse};
pub use ioa_tokens::cut_line;
pub use printing::print;
