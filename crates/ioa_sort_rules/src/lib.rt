//! Which sorts operators and functions take and give, a row a kind, and why two displays have no sort.
//!
//! **A crate of its own**, since the rows are proved to be the shapes of the language without a tree in sight.
//!
//! **Must not know**: trees, names in view, and where a term is written.
//!
//! **Laws**: `sort_rules_law`.
#![tactic(auto)]

mod kinds;
mod laws;
mod rows;
mod shapes;

pub use kinds::{Alike, Arity, Pairing, Single, arity_of, pairing_of, single_of};
pub use laws::sort_rules_law;
pub use rows::{
    Sides, entry_of, other_of_left, other_of_right, undetermined, undetermined_alone,
    value_of_alike, value_of_field, value_of_one,
};
pub use shapes::{is_same_sort, map_of, shape_in_terms};
