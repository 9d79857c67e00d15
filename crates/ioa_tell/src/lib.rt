//! A run told again, event by event: each action with what it changed, each miss with its reason, each idle turn, and
//! how each node stopped. So is a schedule that is given, up to the entry that is no step, with its reason. Whoever is
//! told decides what becomes of it.
//!
//! **A crate of its own**, since it goes over a run that is over, and no run needs it.
//!
//! **Must not know**: texts, how a system was checked, and what becomes of an event.
#![tactic(auto)]

mod event;
mod fault;
mod refusal;
mod refused;
mod rounds;
mod schedules;
mod standing;
mod steps;
mod telling;
mod tells;
mod visited;
mod visits;

pub use event::Event;
pub use fault::TellFault;
pub use refusal::{Refusal, TellsRefusal};
pub use refused::tell_refused;
pub use schedules::tell_schedule;
pub use telling::tell;
pub use tells::Tells;
