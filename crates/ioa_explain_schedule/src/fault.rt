//! Why an explanation of a schedule did not go out whole.

use std::alloc::AllocError;
use std::fmt;
use thiserror::Error;

/// Why an explanation of a schedule did not go out whole.
#[derive(Clone, Copy, Debug, PartialEq, Eq, Error)]
pub enum ExplainLinesFault {
    /// `Memory` (3): memory ran out. Nothing went out.
    Memory,
    /// `Write` (71): the output failed, or took nothing more. A beginning of the explanation went out.
    Write,
}

impl fmt::Display for ExplainLinesFault {
    ghost use Rattle.std.specs.Prelude.{Some};
    ghost use Rattle.ioa_explain_schedule.specs.Faults.{explain_lines_fault_text};

    ghost output = { λ f. Some (explain_lines_fault_text f) };

    fn fmt<W: fmt::Write>(&self, f: &mut fmt::Formatter<W>) -> fmt::Result {
        match self {
            ExplainLinesFault::Memory => f.write_str("3 Memory"),
            ExplainLinesFault::Write => f.write_str("71 Write"),
        }
    }
}

impl From<AllocError> for ExplainLinesFault {
    ghost use Rattle.std.specs.Prelude.{◌≡◌};
    ghost use Rattle.ioa_explain_schedule.specs.declared.fault.ExplainLinesFault.TheVariants.{Memory};

    ghost from_gives = { λ _ f. f ≡ Memory };

    fn from(_error: AllocError) -> Self {
        ExplainLinesFault::Memory
    }
}
