//! Calls of functions.

ghost use Rattle.std.specs.Prelude.{◌≡◌, IfOk};
ghost use Rattle.ioa_terms.specs.PlainTerm as plain;
ghost use Rattle.ioa_terms.specs.View.{term_of};
ghost use Rattle.ioa_typed.specs.Parts as spec;
ghost use Rattle.ioa_typed.specs.PartsView.{typed_of};

use crate::pairs::Pair;
use crate::terms::Typed;
use crate::updates::Update;
use ioa_terms::{Callee, Checked, Shape, Word};
use std::alloc::{AllocError, Global};

/// A function of one term, with the shape of its value.
pub fn call_of_tree(
    alloc: Global,
    name: &Word,
    callee: Callee,
    part: Checked,
    shape: &Shape,
) -> Result<Box<Typed>, AllocError>
    ensures { IfOk result (λ t. typed_of t.value
        ≡ spec.typed (plain.call name.now callee (plain.term (term_of part) plain.no_terms)) shape.now) }
{
    let mut parts = Vec::new(alloc);
    parts.push(part)?;
    let name = name.try_copy(alloc)?;
    let shape = shape.try_copy(alloc)?;
    let tree = Checked::Call(name, callee, parts);
    Ok(Box::new(alloc, Typed { tree, shape })?)
}

/// A function of one term, whose value has the shape that stands with the term.
pub fn call_of_part(
    alloc: Global,
    name: &Word,
    callee: Callee,
    part: Box<Typed>,
) -> Result<Box<Typed>, AllocError>
    ensures { IfOk result (λ t. typed_of t.value ≡ spec.typed
        (plain.call name.now callee (plain.term (term_of part.value.tree) plain.no_terms)) part.value.shape) }
{
    let Typed { tree, shape } = Box::into_inner(part);
    call_of_tree(alloc, name, callee, tree, &shape)
}

/// A function of two terms.
pub fn call_of_pair(
    alloc: Global,
    name: &Word,
    callee: Callee,
    pair: Box<Pair>,
) -> Result<Box<Typed>, AllocError>
    ensures { IfOk result (λ t. typed_of t.value ≡ spec.typed (plain.call name.now callee
        (plain.term (term_of pair.value.left.value) (plain.term (term_of pair.value.right.value) plain.no_terms)))
        pair.value.whole) }
{
    let name = name.try_copy(alloc)?;
    let Pair { left, right, whole } = Box::into_inner(pair);
    let parts = Vec::from_array(alloc, [Box::into_inner(left), Box::into_inner(right)])?;
    let tree = Checked::Call(name, callee, parts);
    Ok(Box::new(alloc, Typed { tree, shape: whole })?)
}

/// The function `update` of a map, a key and a value.
pub fn call_of_update(
    alloc: Global,
    name: &Word,
    callee: Callee,
    update: Box<Update>,
) -> Result<Box<Typed>, AllocError>
    ensures { IfOk result (λ t. typed_of t.value ≡ spec.typed (plain.call name.now callee
        (plain.term (term_of update.value.map) (plain.term (term_of update.value.key)
        (plain.term (term_of update.value.value) plain.no_terms)))) update.value.whole) }
{
    let name = name.try_copy(alloc)?;
    let Update {
        map,
        key,
        value,
        whole,
    } = Box::into_inner(update);
    let parts = Vec::from_array(alloc, [map, key, value])?;
    let tree = Checked::Call(name, callee, parts);
    Ok(Box::new(alloc, Typed { tree, shape: whole })?)
}
