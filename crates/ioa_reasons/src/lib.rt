//! Why an attempt of a node did nothing, and why a step or a turn stopped: the queue or the part of a test for which an
//! action is not enabled, the part of a term at which a step or a block meets a fault, each with the values that it
//! reads, the argument that is not of the sort of its parameter, and the one that is another value than its `const`.
//!
//! **A crate of its own**, since a reason is found on one look at one node, with no run around it, and no run needs it.
//!
//! **Must not know**: how a run is told, what was taken before, and texts.
#![tactic(auto)]

mod chosen;
mod falsified;
mod faulted;
mod faulty;
mod found;
mod misfits;
mod misses;
mod other_const;
mod reason;
mod shown;
mod stops;
mod stuck;
mod unfit;

pub use falsified::{Falsified, find_falsified, find_falsified_in};
pub use faulted::{Faulted, find_faulted, find_faulted_in};
pub use found::{FoundFault, StatementFault};
pub use misses::{reason_of, reason_with};
pub use other_const::{OtherConst, find_other_const_in};
pub use reason::{Fault, NamedValue, Place, Reason, StatementPlace, Test};
pub use shown::{conf_of, queue_of};
pub use stuck::find_stuck;
pub use unfit::{Unfit, find_unfit, find_unfit_in};
