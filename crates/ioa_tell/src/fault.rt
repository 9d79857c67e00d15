//! Why a run is not told.

use ioa_book::LookFault;
use std::alloc::{AllocError, AllocFailed};
use std::fmt;
use thiserror::Error;

/// Why a run or a schedule is not told, or not to its end.
#[derive(Clone, Copy, Debug, PartialEq, Eq, Error)]
pub enum TellFault {
    /// `Memory` (3): memory ran out.
    Memory,
    /// `Differs` (51): the record is not that of a run of this system by one worker with these options; or an entry
    /// that is given as a step is none, or one that is given as none is one.
    Differs,
}

impl fmt::Display for TellFault {
    ghost use Rattle.std.specs.Prelude.{Some};
    ghost use Rattle.ioa_tell.specs.Faults.{tell_fault_text};

    ghost output = { λ f. Some (tell_fault_text f) };

    fn fmt<W: fmt::Write>(&self, f: &mut fmt::Formatter<W>) -> fmt::Result {
        match self {
            TellFault::Memory => f.write_str("3 Memory"),
            TellFault::Differs => f.write_str("51 Differs"),
        }
    }
}

impl From<AllocError> for TellFault {
    ghost use Rattle.std.specs.Prelude.{◌≡◌};
    ghost use Rattle.ioa_tell.specs.declared.fault.TellFault.TheVariants.{Memory};

    ghost from_gives = { λ _ f. f ≡ Memory };

    fn from(_error: AllocError) -> Self {
        TellFault::Memory
    }
}

impl From<LookFault> for TellFault {
    ghost use Rattle.std.specs.Prelude.{◌≡◌};
    ghost use Rattle.ioa_tell.specs.Faults.{fault_of_look};

    ghost from_gives = { λ e f. f ≡ fault_of_look e };

    fn from(fault: LookFault) -> Self {
        match fault {
            LookFault::Memory => TellFault::Memory,
            LookFault::Unknown => TellFault::Differs,
        }
    }
}

impl<T: Drop> From<AllocFailed<T>> for TellFault {
    ghost use Rattle.std.specs.Prelude.{◌≡◌};
    ghost use Rattle.ioa_tell.specs.declared.fault.TellFault.TheVariants.{Memory};

    ghost from_gives = { λ _ f. f ≡ Memory };

    fn from(_error: AllocFailed<T>) -> Self {
        TellFault::Memory
    }
}
