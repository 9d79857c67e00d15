//! Terms with their shapes, and what is made of such parts: displays that have got their sort, operators and
//! functions over parts whose shapes are known.
//!
//! **A crate of its own**, since it is no part of the cycle of sorts, and is proved beside types.
//!
//! **Must not know**: how a term is gone through.
#![tactic(auto)]

mod calls;
mod pairs;
mod terms;
mod updates;

pub use calls::{call_of_pair, call_of_part, call_of_tree, call_of_update};
pub use pairs::{Pair, pair_by_left, pair_by_right, right_tells, two_term};
pub use terms::{
    Typed, display_term, field_known, fit_typed, name_term, number_term, one_term, part_known,
    truth_term,
};
pub use updates::{Update, entry_known, update_by_entry, update_by_map};
