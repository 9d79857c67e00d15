//! What comes of looks.

use std::alloc::AllocError;
use std::fmt;
use thiserror::Error;

/// Why there is no look.
#[derive(Clone, Copy, Debug, PartialEq, Eq, Error)]
pub enum LookFault {
    /// `Memory` (3): memory ran out.
    Memory,
    /// `Unknown` (53): there is no such node.
    Unknown,
}

impl fmt::Display for LookFault {
    ghost use Rattle.std.specs.Prelude.{Some};
    ghost use Rattle.ioa_book.specs.LookFaults.{look_fault_text};

    ghost output = { λ f. Some (look_fault_text f) };

    fn fmt<W: fmt::Write>(&self, f: &mut fmt::Formatter<W>) -> fmt::Result {
        match self {
            LookFault::Memory => f.write_str("3 Memory"),
            LookFault::Unknown => f.write_str("53 Unknown"),
        }
    }
}

impl From<AllocError> for LookFault {
    ghost use Rattle.std.specs.Prelude.{◌≡◌};
    ghost use Rattle.ioa_book.specs.declared.outcome.LookFault.TheVariants.{Memory};

    ghost from_gives = { λ _ e. e ≡ Memory };

    fn from(_error: AllocError) -> Self {
        LookFault::Memory
    }
}
