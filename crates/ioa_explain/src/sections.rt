//! System sections over the declarations of a refused text.

use ioa_culprit::ChecksSections;
use ioa_refusals::Refusal;
use ioa_sections::{CheckFault, CheckedDeclarations, MOST_CHANNELS, MOST_NODES};
use ioa_source::{Placement, Text};
use std::alloc::{AllocError, Global};

/// What the declarations of a text describe, if it is refused in its system section.
#[derive(Drop)]
pub(crate) struct Sections {
    declared: Option<CheckedDeclarations>,
}

impl Sections {
    /// The sections of a text that is refused in the top declaration of an index.
    pub(crate) fn of(
        alloc: Global,
        text: &Text<(), (), ()>,
        index: usize,
    ) -> Result<Self, AllocError> {
        if index != text.declarations.len() {
            return Ok(Sections { declared: None });
        }
        match CheckedDeclarations::of(alloc, &text.declarations) {
            Ok(declared) => Ok(Sections {
                declared: Some(declared),
            }),
            Err(CheckFault::Memory) => Err(AllocError),
            Err(CheckFault::Refused { .. }) => Ok(Sections { declared: None }),
        }
    }
}

impl ChecksSections for Sections {
    fn most_nodes(&self) -> usize {
        MOST_NODES
    }

    fn most_channels(&self) -> usize {
        MOST_CHANNELS
    }

    fn check_section(
        &self,
        alloc: Global,
        placements: &Vec<Placement<(), (), ()>>,
    ) -> Result<(), Refusal> {
        match &self.declared {
            None => Ok(()),
            Some(declared) => {
                let placed = declared.check_section(alloc, placements)?;
                drop(placed);
                Ok(())
            }
        }
    }
}
