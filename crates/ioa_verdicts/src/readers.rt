//! Which invariants read of which component.

ghost use Rattle.std.specs.Prelude.{◌≡◌, IfOk, map, slice_get};
ghost use Rattle.std.specs.Option.{option_copied, option_map};
ghost use Rattle.ioa_compose.specs.Composition.{component_names};
ghost use Rattle.ioa_verdicts.specs.Readers.{is_reader, listed, noted_of, reads_of, readers_from};

use ioa_actions::Component;
use ioa_compose::Conf;
use ioa_course::Course;
use ioa_system::CheckedInvariant;
use ioa_terms::Name;
use std::alloc::{AllocError, Global};

/// For each component the numbers of the invariants that read of it.
pub fn readers(
    alloc: Global,
    invariants: &[CheckedInvariant],
    confs: &[Conf],
) -> Result<Vec<Vec<usize>>, AllocError>
    ensures { IfOk result (λ r. map (λ is. is.items) r.items
        ≡ map (λ k. readers_from k 0 invariants.now) (component_names confs.now)) }
{
    let mut noted = Vec::new(alloc);
    for conf in confs {
        noted.push(readers_of(alloc, invariants, conf.component())?)?;
    }
    Ok(noted)
}

/// The numbers of the invariants that read of a component.
fn readers_of(
    alloc: Global,
    invariants: &[CheckedInvariant],
    component: Component,
) -> Result<Vec<usize>, AllocError>
    ensures { IfOk result (λ r. r.items ≡ readers_from component 0 invariants.now) }
{
    let mut numbers = Vec::new(alloc);
    for (number, invariant) in invariants.iter().enumerate() {
        if is_reader(invariant, component) {
            numbers.push(number)?;
        }
    }
    Ok(numbers)
}

/// Whether an invariant reads of a component.
fn is_reader(invariant: &CheckedInvariant, component: Component) -> bool
    ensures { result ≡ is_reader component invariant.now }
{
    for name in invariant.readings() {
        if reads_of(component, name) {
            return true;
        }
    }
    false
}

/// Whether a name reads of a component.
fn reads_of(component: Component, name: &Name) -> bool
    ensures { result ≡ reads_of component name.now }
{
    match name {
        Name::Word(_) => false,
        Name::Variable { node, .. } => Component::Node(*node) == component,
        Name::Queue { from, to } => {
            let channel = Component::Channel {
                from: *from,
                to: *to,
            };
            channel == component
        }
    }
}

/// What is noted of a component: nothing if there is no such component.
pub fn noted_of<'a>(noted: &'a [Vec<usize>], course: &Course, component: Component) -> &'a [usize]
    ensures { result.now ≡ noted_of (map (λ is. is.items) noted.now) (component_names course.now) component }
{
    match course.slot_of(component) {
        Some(slot) => noted_in(noted.get(slot)),
        None => &[],
    }
}

/// The numbers in a list, if there is one.
fn noted_in(noted: Option<&Vec<usize>>) -> &[usize]
    ensures { result.now ≡ listed (option_map (λ is. is.items) (option_copied noted.entry)) }
{
    match noted {
        Some(numbers) => numbers.as_slice(),
        None => &[],
    }
}
