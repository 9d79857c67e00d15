//! Laws of runs of accepted systems, and no code: each part of a term has its sort, no name is without a slot, what
//! effects choose, what a node can rely on, what looks show whoever commits meanwhile, and what invariants read; and
//! for what an attempt under the commit lock is refused.
//!
//! **A crate of its own**, since it needs the check and the run, and nothing waits for it.
//!
//! **Must not know**: texts, and reports.
//!
//! **Laws**: `attempt_law`, `block_law`, `chosen_law`, `inbox_term_law`, `invariants_law`, `receive_law`,
//! `shapes_kept_law`, `shown_law`, `well_sorted_law`.
#![tactic(auto)]

mod attempts;
mod laws;
mod looks;

pub use attempts::attempt_law;
pub use laws::{
    block_law, chosen_law, inbox_term_law, invariants_law, receive_law, shapes_kept_law,
    well_sorted_law,
};
pub use looks::shown_law;
