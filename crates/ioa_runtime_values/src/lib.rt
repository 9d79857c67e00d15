//! Laws of the values that the runtime has, and no code: numbers lie in 64 bits, and sets and maps ascend, at any
//! depth.
//!
//! **A crate of its own**, since laws of texts and of runs speak of values that the runtime may not have, and few need
//! to know that it keeps this of its own.
//!
//! **Must not know**: systems, and runs.
//!
//! **Laws**: `action_values_law`, `bounded_law`, `entry_values_law`, `schedule_values_law`, `states_values_law`.
#![tactic(auto)]

mod actions;
mod states;
mod values;

pub use actions::{action_values_law, entry_values_law, schedule_values_law};
pub use states::states_values_law;
pub use values::bounded_law;
