//! Papers: texts on their way to an output, on which values and actions are written piece by piece, and whether such a
//! text went out whole. No text is kept, and what writes on a paper meets no fault.
//!
//! **A crate of its own**, since reports and pictures of runs are written by it, and it knows neither.
//!
//! **Must not know**: systems, runs, and what a text is for.
#![tactic(auto)]

mod actions;
mod fault;
mod handed;
mod outlet;
mod paper;
mod piece;
mod values;

pub use actions::{
    put_action, put_arguments, put_choices, put_entry, put_listed, put_message, put_node_action,
};
pub use fault::ReportFault;
pub use paper::{Paper, room};
pub use piece::{LENGTH, Piece};
pub use values::{put_separator, put_value};
