//! Projections of schedules on components.

ghost use Rattle.std.specs.Prelude.{◌≡◌, IfOk};
ghost use Rattle.ioa_compose.specs.Executions.{projection_of};

use crate::parties::takes_part_in;
use ioa_actions::Component;
use ioa_transitions::Entry;
use std::alloc::{AllocError, Global};

/// The entries in which a component takes part, in order (Lynch 8.2).
pub fn project(
    alloc: Global,
    entries: &[Entry],
    component: Component,
) -> Result<Vec<Entry>, AllocError>
    ensures { IfOk result (λ v. v.items ≡ projection_of component entries.now) }
{
    let mut kept = Vec::new(alloc);
    for entry in entries {
        if takes_part_in(component, entry.action()) {
            kept.push(entry.try_clone()?)?;
        }
    }
    Ok(kept)
}
