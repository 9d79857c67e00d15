//! Who is asked about system sections.

use ioa_refusals::Refusal;
use ioa_source::Placement;
use std::alloc::Global;

/// The check of system sections, over the declarations of a text. The search asks it about parts of a section, and
/// stands on no check itself.
pub trait ChecksSections {
    /// How many nodes a section has at most.
    fn most_nodes(&self) -> usize;

    /// How many channels a section has at most.
    fn most_channels(&self) -> usize;

    /// Passes if a section of these nodes, channels and scripts is good. Else the refusal of the check.
    fn check_section(
        &self,
        alloc: Global,
        placements: &Vec<Placement<(), (), ()>>,
    ) -> Result<(), Refusal>;
}
