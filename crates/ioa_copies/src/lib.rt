//! Values copied over other values, in the room that these have.
//!
//! **A crate of its own**, since the steps of nodes and the turns of schedule blocks both write so.
//!
//! **Must not know**: what the values are for.
#![tactic(auto)]

mod copying;

pub use copying::copy_values;
