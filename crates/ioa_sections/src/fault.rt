//! Why no system is made of a text.

ghost use Rattle.std.specs.Prelude.{◌≡◌};
ghost use Rattle.ioa_sections.specs.Faults.{fault_at};

use ioa_refusals::Refusal;
use std::alloc::{AllocError, AllocFailed};
use std::fmt;
use thiserror::Error;

/// Why no system is made of a source.
#[derive(Debug, Drop, Error)]
pub enum CheckFault {
    /// 20 to 34: a refusal of the top declaration of this index, counted from 0. The system section comes after the
    /// declarations, and the invariants come after it, each with an index of its own.
    Refused {
        /// Which refusal. It is none for want of memory.
        refusal: Refusal,
        /// The index of the declaration.
        index: usize,
    },
    /// 3: no memory was left.
    Memory,
}

impl fmt::Display for CheckFault {
    ghost use Rattle.std.specs.Prelude.{Some};
    ghost use Rattle.ioa_sections.specs.Faults.{check_fault_text};

    ghost output = { λ f. Some (check_fault_text f) };

    fn fmt<W: fmt::Write>(&self, f: &mut fmt::Formatter<W>) -> fmt::Result {
        match self {
            CheckFault::Refused { refusal, index } => write!(f, "{refusal} in {index}"),
            CheckFault::Memory => write!(f, "3 Memory"),
        }
    }
}

/// The fault of a refusal in the top declaration of an index: `Memory` for want of memory, else `Refused` with both.
pub fn fault_at(index: usize, refusal: Refusal) -> CheckFault
    ensures { result ≡ fault_at index refusal }
{
    match refusal {
        Refusal::Memory => CheckFault::Memory,
        Refusal::Unknown
        | Refusal::Twice
        | Refusal::Sorts
        | Refusal::NoInitial
        | Refusal::InputPre
        | Refusal::NoTransition
        | Refusal::ScheduleAssignsState
        | Refusal::ChannelSorts
        | Refusal::InputMissing
        | Refusal::SelfChannel
        | Refusal::NodeGap
        | Refusal::Limit
        | Refusal::EmptyOfWhat
        | Refusal::InputWhere
        | Refusal::BadArgument => CheckFault::Refused { refusal, index },
    }
}

impl From<AllocError> for CheckFault {
    ghost use Rattle.std.specs.Prelude.{◌≡◌};
    ghost use Rattle.ioa_sections.specs.declared.fault.CheckFault.TheVariants.{Memory};

    ghost from_gives = { λ _ e. e ≡ Memory };

    fn from(_error: AllocError) -> Self {
        CheckFault::Memory
    }
}

impl<T: Drop> From<AllocFailed<T>> for CheckFault {
    ghost use Rattle.std.specs.Prelude.{◌≡◌};
    ghost use Rattle.ioa_sections.specs.declared.fault.CheckFault.TheVariants.{Memory};

    ghost from_gives = { λ _ e. e ≡ Memory };

    fn from(_error: AllocFailed<T>) -> Self {
        CheckFault::Memory
    }
}
