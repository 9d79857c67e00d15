//! Why an action is no step.

use ioa_operators::TermFault;
use std::alloc::{AllocError, AllocFailed};
use std::fmt;
use thiserror::Error;

/// Why an action is no step of a configuration.
#[derive(Clone, Copy, Debug, PartialEq, Eq, Error)]
pub enum StepFault {
    /// `Undefined` (1): the condition of the entry, the guard or the effect meets a part that has no value, or an
    /// argument holds a negative number where its sort says Nat.
    Undefined,
    /// `Range` (2): the condition of the entry, the guard or the effect meets a number outside 64 bits.
    Range,
    /// `Memory` (3): memory ran out.
    Memory,
    /// `NotEnabled` (40): the action is not enabled.
    NotEnabled,
    /// `NotMine` (41): the action is not in the node's signature, or no queue takes part in it.
    NotMine,
    /// `NoChannel` (42): a participant of the action is no component of the system.
    NoChannel,
    /// `NoChoice` (43): a value that the effect chooses is missing, left over, not of its sort or not allowed.
    NoChoice,
}

impl fmt::Display for StepFault {
    ghost use Rattle.std.specs.Prelude.{Some};
    ghost use Rattle.ioa_actions.specs.StepFaults.{step_fault_text};

    ghost output = { λ f. Some (step_fault_text f) };

    fn fmt<W: fmt::Write>(&self, f: &mut fmt::Formatter<W>) -> fmt::Result {
        match self {
            StepFault::Undefined => f.write_str("1 Undefined"),
            StepFault::Range => f.write_str("2 Range"),
            StepFault::Memory => f.write_str("3 Memory"),
            StepFault::NotEnabled => f.write_str("40 NotEnabled"),
            StepFault::NotMine => f.write_str("41 NotMine"),
            StepFault::NoChannel => f.write_str("42 NoChannel"),
            StepFault::NoChoice => f.write_str("43 NoChoice"),
        }
    }
}

impl From<AllocError> for StepFault {
    ghost use Rattle.std.specs.Prelude.{◌≡◌};
    ghost use Rattle.ioa_actions.specs.declared.fault.StepFault.TheVariants.{Memory};

    ghost from_gives = { λ _ e. e ≡ Memory };

    fn from(_error: AllocError) -> Self {
        StepFault::Memory
    }
}

impl<T: Drop> From<AllocFailed<T>> for StepFault {
    ghost use Rattle.std.specs.Prelude.{◌≡◌};
    ghost use Rattle.ioa_actions.specs.declared.fault.StepFault.TheVariants.{Memory};

    ghost from_gives = { λ _ e. e ≡ Memory };

    fn from(_error: AllocFailed<T>) -> Self {
        StepFault::Memory
    }
}

impl From<TermFault> for StepFault {
    ghost use Rattle.std.specs.Prelude.{◌≡◌};
    ghost use Rattle.ioa_actions.specs.StepFaults.{step_fault};

    ghost from_gives = { λ t e. e ≡ step_fault t };

    fn from(fault: TermFault) -> Self {
        match fault {
            TermFault::Undefined => StepFault::Undefined,
            TermFault::Range => StepFault::Range,
            TermFault::Memory => StepFault::Memory,
        }
    }
}
