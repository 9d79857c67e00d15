//! Why there is no report.

use ioa_pipeline::RunFault;
use ioa_streams::{InputFault, OutFailed};
use std::alloc::AllocError;
use std::{fmt, io};

/// Why there is no report.
#[derive(Debug, Drop)]
pub(crate) enum RowFault {
    /// The words are not those that are wanted.
    Words,
    /// The input gives no text.
    Input(InputFault),
    /// The text gave no report.
    Run(RunFault),
    /// The line behind the report did not go out.
    Write,
}

impl RowFault {
    /// The status of the program: 2 if the words are wrong, else 1.
    pub(crate) fn status(&self) -> u8 {
        match self {
            RowFault::Words => 2,
            RowFault::Input(_) | RowFault::Run(_) | RowFault::Write => 1,
        }
    }
}

impl fmt::Display for RowFault {
    fn fmt<W: fmt::Write>(&self, f: &mut fmt::Formatter<W>) -> fmt::Result {
        match self {
            RowFault::Words => f.write_str(
                "seven numbers are wanted: WORKERS STEPS ATTEMPTS HELD OTHER COUNT TURNS",
            ),
            RowFault::Input(fault) => write!(f, "{fault}"),
            RowFault::Run(fault) => write!(f, "{fault}"),
            RowFault::Write => f.write_str("71 Write"),
        }
    }
}

impl From<AllocError> for RowFault {
    fn from(_fault: AllocError) -> Self {
        RowFault::Run(RunFault::Memory)
    }
}

impl From<io::Error> for RowFault {
    fn from(fault: io::Error) -> Self {
        match fault.kind() {
            io::ErrorKind::OutOfMemory => RowFault::Run(RunFault::Memory),
            _ => RowFault::Words,
        }
    }
}

impl From<InputFault> for RowFault {
    fn from(fault: InputFault) -> Self {
        RowFault::Input(fault)
    }
}

impl From<RunFault> for RowFault {
    fn from(fault: RunFault) -> Self {
        RowFault::Run(fault)
    }
}

impl From<OutFailed> for RowFault {
    fn from(_fault: OutFailed) -> Self {
        RowFault::Write
    }
}
