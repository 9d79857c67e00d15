//! What stands under the commit lock: a book of commits with the sum of what was committed, looks and attempts under a
//! pass, the share of that sum that each worker keeps, and the record that is left once all shares are gathered.
//!
//! **A crate of its own**, since what stands under the commit lock is proved without the lock, and without a thread.
//!
//! **Must not know**: locks, how a pass is kept, schedule blocks, and texts.
//!
//! **Laws**: `receipt_law`, `refusal_law`.
#![tactic(auto)]

mod finish;
mod held;
mod laws;
mod outcome;
mod share;

pub use finish::{FinishFault, Unfinished};
pub use held::Held;
pub use laws::{receipt_law, refusal_law};
pub use outcome::{Miss, Missed, Taken};
pub use share::Share;
