//! Why a text did not go out whole.

use std::alloc::AllocError;
use std::fmt;
use thiserror::Error;

/// Why a text did not go out whole: a report, or a picture of a run.
#[derive(Clone, Copy, Debug, PartialEq, Eq, Error)]
pub enum ReportFault {
    /// `Memory` (3): memory ran out. Nothing went out.
    Memory,
    /// `Write` (71): the output failed, or took nothing more. A beginning of the text went out.
    Write,
}

impl fmt::Display for ReportFault {
    ghost use Rattle.std.specs.Prelude.{Some};
    ghost use Rattle.ioa_paper.specs.Outcomes.{report_fault_text};

    ghost output = { λ f. Some (report_fault_text f) };

    fn fmt<W: fmt::Write>(&self, f: &mut fmt::Formatter<W>) -> fmt::Result {
        match self {
            ReportFault::Memory => f.write_str("3 Memory"),
            ReportFault::Write => f.write_str("71 Write"),
        }
    }
}

impl From<AllocError> for ReportFault {
    ghost use Rattle.std.specs.Prelude.{◌≡◌};
    ghost use Rattle.ioa_paper.specs.declared.fault.ReportFault.TheVariants.{Memory};

    ghost from_gives = { λ _ f. f ≡ Memory };

    fn from(_error: AllocError) -> Self {
        ReportFault::Memory
    }
}
