//! The sorts of terms and statements: from a term as spelled and the names in view, the term with slots and shapes,
//! or the refusal; so of statements, of the arguments of firings, nodes and scripts.
//!
//! **A crate of its own**, since it is one cycle of calls, and one proof.
//!
//! **Must not know**: what an automaton declares, and what a value of a shape is.
//!
//! **Laws**: `sorts_law`, `statements_law`.
#![tactic(auto)]

mod calls;
mod choices;
mod displays;
mod firings;
mod laws;
mod parts;
mod site;
mod sorting;
mod statements;
mod targets;

pub use choices::simple_shape;
pub use firings::sort_arguments;
pub use laws::{sorts_law, statements_law};
pub use site::StatementSite;
pub use sorting::{fit, infer};
pub use statements::sort_statements;
