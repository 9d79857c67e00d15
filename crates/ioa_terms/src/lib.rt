//! Terms and statements as trees, environments, their evaluation, and whether two trees are the same. A tree has
//! annotations: nothing in a text, slots and shapes in a checked system.
//!
//! **A crate of its own**, since readers, check and runs share the trees and their meaning.
//!
//! **Must not know**: byte offsets, and source texts.
//!
//! **Laws**: `ascending_law`, `defined_law`, `put_law`, `shapes_law`, `statements_law`.
#![tactic(auto)]

mod callee;
mod choices;
mod environment;
mod evaluation;
mod laws;
mod name;
mod performance;
mod quick;
mod same;
mod sort;
mod tree;

pub use callee::{Callee, is_inbox};
pub use choices::{Choices, EffectFault};
pub use environment::{Env, Inbox, LentValues, NameLists, Slot, View, inboxes_word};
pub use evaluation::{eval, evaluate, evaluate_all, evaluate_each, evaluate_test};
pub use ioa_operators::{
    BinaryOperator, DisplayForm, Function, Shape, ShapeForm, TermFault, UnaryOperator,
};
pub use ioa_values::{Names, Value, Word, show};
pub use laws::{ascending_law, defined_law, put_law, shapes_law, statements_law};
pub use name::Name;
pub use performance::{perform, perform_assignment};
pub use quick::number_at_hand;
pub use same::{
    are_same_firings, are_same_statements, are_same_terms, is_same_firing, is_same_statement,
    is_same_term,
};
pub use sort::Sort;
pub use tree::{Arm, Checked, Choice, Firing, Kind, Statement, Target, Term, Tree};
