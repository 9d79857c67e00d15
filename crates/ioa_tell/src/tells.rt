//! Who is told of a run.

use crate::event::Event;
use crate::fault::TellFault;
use std::alloc::Global;

/// Who is told of a run, event by event. A contract sees what an event makes of it.
pub trait Tells {
    ghost use Rattle.std.specs.Prelude.{OnOk};
    ghost use Rattle.ioa_tell.specs.Events.{PlainEvent, event_of};

    /// What it is after an event, by what it was before.
    ghost hears: { PlainEvent → Self → Self → Type 0 };

    /// Takes an event. An error ends the telling.
    fn event(&mut self, alloc: Global, event: Event<'_>) -> Result<(), TellFault>
        ensures { OnOk result (hears (event_of event.entry) self.old self.new) };
}
