//! Why the lines of a schedule are no execution.

ghost use Rattle.std.specs.Prelude.{◌≡◌};
ghost use Rattle.ioa_schedule_check.specs.Schedules as spec;

use ioa_actions::StepFault;
use ioa_lines::LineFault;
use std::alloc::{AllocError, AllocFailed};
use std::fmt;
use thiserror::Error;

/// Why the lines of a schedule are no execution of a system (profile). A number counts the lines that have tokens, from
/// 0, and with them the entries.
#[derive(Clone, Copy, Debug, PartialEq, Eq, Error)]
pub enum ScheduleFault {
    /// `Undefined` (1): a part of the entry's condition, of the guard or of the effect has no value.
    Undefined(usize),
    /// `Range` (2): a number outside 64 bits is met.
    Range(usize),
    /// `Memory` (3): memory ran out.
    Memory,
    /// `NotStep` (60): the entry is no step from the state that those before it leave. Its action is none, or its
    /// effect may not choose the values behind `choose`.
    NotStep(usize),
    /// `BadLine` (61): the line spells no action of the system, or behind `choose` anything but numbers, truth values
    /// and constants.
    BadLine(usize),
}

impl fmt::Display for ScheduleFault {
    ghost use Rattle.std.specs.Prelude.{Some};
    ghost use Rattle.ioa_schedule_check.specs.Schedules.{schedule_fault_text};

    ghost output = { λ f. Some (schedule_fault_text f) };

    fn fmt<W: fmt::Write>(&self, f: &mut fmt::Formatter<W>) -> fmt::Result {
        match self {
            ScheduleFault::Undefined(place) => write!(f, "1 Undefined at {place}"),
            ScheduleFault::Range(place) => write!(f, "2 Range at {place}"),
            ScheduleFault::Memory => write!(f, "3 Memory"),
            ScheduleFault::NotStep(place) => write!(f, "60 NotStep at {place}"),
            ScheduleFault::BadLine(place) => write!(f, "61 BadLine at {place}"),
        }
    }
}

impl From<LineFault> for ScheduleFault {
    ghost use Rattle.std.specs.Prelude.{◌≡◌};
    ghost use Rattle.ioa_schedule_check.specs.Schedules.{fault_of_line};

    ghost from_gives = { λ e f. f ≡ fault_of_line e };

    fn from(fault: LineFault) -> Self {
        match fault {
            LineFault::BadLine(place) => ScheduleFault::BadLine(place),
            LineFault::Memory => ScheduleFault::Memory,
        }
    }
}

impl From<AllocError> for ScheduleFault {
    ghost use Rattle.std.specs.Prelude.{◌≡◌};
    ghost use Rattle.ioa_schedule_check.specs.declared.fault.ScheduleFault.TheVariants.{Memory};

    ghost from_gives = { λ _ f. f ≡ Memory };

    fn from(_error: AllocError) -> Self {
        ScheduleFault::Memory
    }
}

impl<T: Drop> From<AllocFailed<T>> for ScheduleFault {
    ghost use Rattle.std.specs.Prelude.{◌≡◌};
    ghost use Rattle.ioa_schedule_check.specs.declared.fault.ScheduleFault.TheVariants.{Memory};

    ghost from_gives = { λ _ f. f ≡ Memory };

    fn from(_error: AllocFailed<T>) -> Self {
        ScheduleFault::Memory
    }
}

/// The fault of a step that the entry at a place is not: four faults say that it is no step.
pub(crate) fn fault_at(place: usize, fault: StepFault) -> ScheduleFault
    ensures { result ≡ spec.fault_at place fault }
{
    match fault {
        StepFault::Undefined => ScheduleFault::Undefined(place),
        StepFault::Range => ScheduleFault::Range(place),
        StepFault::Memory => ScheduleFault::Memory,
        StepFault::NotEnabled => ScheduleFault::NotStep(place),
        StepFault::NotMine => ScheduleFault::NotStep(place),
        StepFault::NoChannel => ScheduleFault::NotStep(place),
        StepFault::NoChoice => ScheduleFault::NotStep(place),
    }
}
