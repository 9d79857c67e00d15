//! What evaluation returns if there is no value.

use std::alloc::{AllocError, AllocFailed};
use std::fmt;
use thiserror::Error;

/// Why a term, a list of statements or an operator has no value here.
#[derive(Debug, Drop, Error)]
pub enum TermFault {
    /// 1: a part that is evaluated has no value.
    Undefined,
    /// 2: a number met lies outside 64 bits, an intermediate one too.
    Range,
    /// 3: no memory was left.
    Memory,
}

impl fmt::Display for TermFault {
    ghost use Rattle.std.specs.Prelude.{Some};
    ghost use Rattle.ioa_operators.specs.TermFaultText.{term_fault_text};

    ghost output = { λ f. Some (term_fault_text f) };

    fn fmt<W: fmt::Write>(&self, f: &mut fmt::Formatter<W>) -> fmt::Result {
        match self {
            TermFault::Undefined => f.write_str("1 Undefined"),
            TermFault::Range => f.write_str("2 Range"),
            TermFault::Memory => f.write_str("3 Memory"),
        }
    }
}

impl From<AllocError> for TermFault {
    ghost use Rattle.std.specs.Prelude.{◌≡◌};
    ghost use Rattle.ioa_operators.specs.declared.fault.TermFault.TheVariants.{Memory};

    ghost from_gives = { λ _ e. e ≡ Memory };

    fn from(_error: AllocError) -> Self {
        TermFault::Memory
    }
}

impl<T: Drop> From<AllocFailed<T>> for TermFault {
    ghost use Rattle.std.specs.Prelude.{◌≡◌};
    ghost use Rattle.ioa_operators.specs.declared.fault.TermFault.TheVariants.{Memory};

    ghost from_gives = { λ _ e. e ≡ Memory };

    fn from(_error: AllocFailed<T>) -> Self {
        TermFault::Memory
    }
}
