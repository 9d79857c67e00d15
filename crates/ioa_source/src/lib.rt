//! The tree of a whole text: types, automata, schedule blocks, the system section and invariants, and sorts as
//! they are spelled; and the text of a checked tree without its annotations.
//!
//! **A crate of its own**, since readers and check share it, and neither stands on the other.
//!
//! **Must not know**: tokens, and what number a slot is.
//!
//! **Laws**: `erasure_law`.
#![tactic(auto)]

mod declaration;
mod height;
mod laws;
mod same;

pub use declaration::{
    Automaton, Call, Channel, Declaration, Declared, Entry, Invariant, Node, Parameter, Placement,
    Schedule, ScriptDeclaration, Text, Transition, TypeDeclaration, TypeForm, Variable,
};
pub use height::{HEIGHT_LIMIT, HasHeight};
pub use ioa_terms::Sort;
pub use laws::erasure_law;
pub use same::{
    are_same_variables, is_same_declared, is_same_entry, is_same_schedule, is_same_transition,
};
