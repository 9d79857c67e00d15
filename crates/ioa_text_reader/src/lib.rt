//! Texts: from a text to its tree, or the refusal with its place.
//!
//! **A crate of its own**, and small, since a wrong body is tried in it, over a check of this crate.
//!
//! **Must not know**: shapes, and programs.
#![tactic(auto)]

mod fault;
mod parsing;
mod source;
mod whole;

pub use fault::FrontFault;
pub use ioa_tokens::LeftOut;
pub use parsing::{one_source, parse};
pub use source::Source;
