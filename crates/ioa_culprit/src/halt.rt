//! Why a walk over a declaration ends before its end.

use ioa_refusals::Refusal;
use ioa_walk::{Lost, Part};
use std::alloc::{AllocError, AllocFailed, Global};

/// Why a walk over a declaration ends before its end.
#[derive(Debug, Drop)]
pub(crate) enum Halt {
    /// The culprit is found, and this is said of it; nothing if there is no more to say.
    Found(Part, Vec<u8>),
    /// The tokens are not those of the tree, or a part is refused with another number than was told.
    Lost,
    /// 3: no memory was left.
    Memory,
}

impl From<Lost> for Halt {
    fn from(_lost: Lost) -> Self {
        Halt::Lost
    }
}

impl From<AllocError> for Halt {
    fn from(_error: AllocError) -> Self {
        Halt::Memory
    }
}

impl<T: Drop> From<AllocFailed<T>> for Halt {
    fn from(_error: AllocFailed<T>) -> Self {
        Halt::Memory
    }
}

/// How a walk ends at the culprit, of which this is said.
pub(crate) fn found(part: Part, words: Result<Vec<u8>, AllocError>) -> Halt {
    match words {
        Ok(words) => Halt::Found(part, words),
        Err(AllocError) => Halt::Memory,
    }
}

/// How a walk ends at the culprit, of which there is no more to say.
pub(crate) fn bare(alloc: Global, part: Part) -> Halt {
    Halt::Found(part, Vec::new(alloc))
}

/// How a walk ends at a part that has to pass, and does not.
pub(crate) fn halt_of(refusal: Refusal) -> Halt {
    if refusal == Refusal::Memory {
        Halt::Memory
    } else {
        Halt::Lost
    }
}
