//! Why a text has no tokens.

use std::alloc::{AllocError, AllocFailed};
use std::fmt;
use thiserror::Error;

/// Why a text is not cut into tokens. An offset counts bytes from 0. Source: profile.
#[derive(Debug, Drop, Error)]
pub enum CutFault {
    /// 11: the character at this offset begins no token.
    BadCharacter(usize),
    /// 13: the number that begins at this offset is above 9223372036854775807.
    NumberTooLarge(usize),
    /// 3: memory ran out.
    Memory,
}

impl fmt::Display for CutFault {
    ghost use Rattle.std.specs.Prelude.{Some};
    ghost use Rattle.ioa_tokens.specs.Faults.{cut_fault_text};

    ghost output = { λ fault. Some (cut_fault_text fault) };

    fn fmt<W: fmt::Write>(&self, f: &mut fmt::Formatter<W>) -> fmt::Result {
        match self {
            CutFault::BadCharacter(offset) => {
                write!(f, "the character at byte {offset} begins no token")
            }
            CutFault::NumberTooLarge(offset) => write!(
                f,
                "the number at byte {offset} is too large"
            ),
            CutFault::Memory => f.write_str("out of memory"),
        }
    }
}

impl From<AllocError> for CutFault {
    ghost use Rattle.std.specs.Prelude.{◌≡◌};
    ghost use Rattle.ioa_tokens.specs.declared.fault.CutFault.TheVariants.{Memory};

    ghost from_gives = { λ _ e. e ≡ Memory };

    fn from(_error: AllocError) -> CutFault {
        CutFault::Memory
    }
}

impl<T: Drop> From<AllocFailed<T>> for CutFault {
    ghost use Rattle.std.specs.Prelude.{◌≡◌};
    ghost use Rattle.ioa_tokens.specs.declared.fault.CutFault.TheVariants.{Memory};

    ghost from_gives = { λ _ e. e ≡ Memory };

    fn from(_error: AllocFailed<T>) -> CutFault {
        CutFault::Memory
    }
}
