//! Why an explanation did not go out whole.

use std::alloc::AllocError;
use std::fmt;
use thiserror::Error;

/// Why an explanation did not go out whole.
#[derive(Clone, Copy, Debug, PartialEq, Eq, Error)]
pub enum ExplainFault {
    /// `Memory` (3): memory ran out. Nothing went out.
    Memory,
    /// `Write` (71): the output failed, or took nothing more. A beginning of the explanation went out.
    Write,
}

impl fmt::Display for ExplainFault {
    ghost use Rattle.std.specs.Prelude.{Some};
    ghost use Rattle.ioa_explain.specs.Faults.{explain_fault_text};

    ghost output = { λ f. Some (explain_fault_text f) };

    fn fmt<W: fmt::Write>(&self, f: &mut fmt::Formatter<W>) -> fmt::Result {
        match self {
            ExplainFault::Memory => f.write_str("3 Memory"),
            ExplainFault::Write => f.write_str("71 Write"),
        }
    }
}

impl From<AllocError> for ExplainFault {
    ghost use Rattle.std.specs.Prelude.{◌≡◌};
    ghost use Rattle.ioa_explain.specs.declared.fault.ExplainFault.TheVariants.{Memory};

    ghost from_gives = { λ _ f. f ≡ Memory };

    fn from(_error: AllocError) -> Self {
        ExplainFault::Memory
    }
}
