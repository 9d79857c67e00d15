//! The parts of `update`.

ghost use Rattle.std.specs.Prelude.{◌≡◌, IfOk};
ghost use Rattle.ioa_operators.specs.Shapes.{maps};
ghost use Rattle.ioa_terms.specs.View.{term_of};
ghost use Rattle.ioa_typed.specs.Parts as spec;
ghost use Rattle.ioa_typed.specs.PartsView.{pair_of, update_of};

use crate::pairs::Pair;
use crate::terms::Typed;
use ioa_sort_rules::map_of;
use ioa_terms::{Checked, Shape};
use std::alloc::{AllocError, Global};

/// The parts of `update`, and the shape of its value.
#[derive(Drop)]
pub struct Update {
    /// The map.
    pub map: Checked,
    /// The key.
    pub key: Checked,
    /// The value at the key.
    pub value: Checked,
    /// The shape of the map.
    pub whole: Shape,
}

/// A key and a value, and the shape of the maps that have such entries.
pub fn entry_known(
    alloc: Global,
    key: Box<Typed>,
    value: Box<Typed>,
) -> Result<Box<Pair>, AllocError>
    ensures { IfOk result (λ p. pair_of p.value ≡ spec.pair (term_of key.value.tree) (term_of value.value.tree)
        (maps key.value.shape value.value.shape)) }
{
    let whole = map_told(alloc, &key.shape, &value.shape)?;
    let left = Box::new(alloc, Box::into_inner(key).tree)?;
    let right = Box::new(alloc, Box::into_inner(value).tree)?;
    Ok(Box::new(alloc, Pair { left, right, whole })?)
}

/// The shape of the maps that have keys and values of these shapes.
fn map_told(alloc: Global, key: &Shape, value: &Shape) -> Result<Shape, AllocError>
    ensures { IfOk result (λ s. s ≡ maps key.now value.now) }
{
    let key = key.try_copy(alloc)?;
    let value = value.try_copy(alloc)?;
    map_of(alloc, key, value)
}

/// The parts of `update` whose map told the shapes of the others.
pub fn update_by_map(
    alloc: Global,
    map: Box<Typed>,
    key: Box<Checked>,
    value: Checked,
) -> Result<Box<Update>, AllocError>
    ensures { IfOk result (λ u. update_of u.value ≡ spec.update (term_of map.value.tree) (term_of key.value)
        (term_of value) map.value.shape) }
{
    let Typed { tree, shape } = Box::into_inner(map);
    let update = Update {
        map: tree,
        key: Box::into_inner(key),
        value,
        whole: shape,
    };
    Ok(Box::new(alloc, update)?)
}

/// The parts of `update` whose key and value told the shape of the map.
pub fn update_by_entry(
    alloc: Global,
    map: Checked,
    entry: Box<Pair>,
) -> Result<Box<Update>, AllocError>
    ensures { IfOk result (λ u. update_of u.value ≡ spec.update (term_of map) (term_of entry.value.left.value)
        (term_of entry.value.right.value) entry.value.whole) }
{
    let Pair { left, right, whole } = Box::into_inner(entry);
    let update = Update {
        map,
        key: Box::into_inner(left),
        value: Box::into_inner(right),
        whole,
    };
    Ok(Box::new(alloc, update)?)
}
