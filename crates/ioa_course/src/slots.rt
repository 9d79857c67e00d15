//! Where a component stands.

ghost use Rattle.std.specs.Prelude.{◌≡◌};
ghost use Rattle.std.specs.List.{position_from};
ghost use Rattle.ioa_actions.specs.ComponentOrder.{same_component};

use ioa_actions::Component;
use ioa_index::Index;

/// The slot of a component; the first one if several bear its name. It takes no search of all components where these
/// stand in the order of a system's start.
pub(crate) fn slot_of(index: &Index, component: Component) -> Option<usize>
    ensures { result ≡ position_from (λ k. same_component component k) 0 index.now }
{
    index.slot_near(component, likely_slot(index, component))
}

/// Where a component may stand: a node at its number, a channel among what one of its ends has to do with, and a script
/// behind all else of its node.
fn likely_slot(index: &Index, component: Component) -> usize {
    match component {
        Component::Node(node) => usize::try_from(node).unwrap_or(0),
        Component::Channel { from, to } => {
            slot_among(index, shorter(index.own(from), index.own(to)), component)
        }
        Component::Script(node) => index.own(node).last().copied().unwrap_or(0),
    }
}

/// The shorter one of two lists of slots.
fn shorter<'a>(first: &'a [usize], second: &'a [usize]) -> &'a [usize] {
    if second.len() < first.len() {
        second
    } else {
        first
    }
}

/// The one of these slots in which a component stands first, or 0.
fn slot_among(index: &Index, slots: &[usize], component: Component) -> usize {
    for slot in slots {
        if index.stands_first(component, *slot) {
            return *slot;
        }
    }
    0
}
