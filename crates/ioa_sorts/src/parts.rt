//! The parts of forms of two and of `update`, where one part tells the sort of another.

ghost use Rattle.std.specs.Prelude.{Ok};
ghost use Rattle.ioa_values.specs.Outcome.{Answers, and_then};
ghost use Rattle.ioa_terms.specs.View.{term_of};
ghost use Rattle.ioa_typed.specs.Parts.{pair, update};
ghost use Rattle.ioa_typed.specs.PartsView.{typed_of, pair_of, update_of};
ghost use Rattle.ioa_sorts.specs.Sorting as spec;

use crate::sorting::{fit, infer_part};
use ioa_names::View;
use ioa_refusals::Refusal;
use ioa_sort_rules::{Pairing, Sides, entry_of, other_of_left, other_of_right, undetermined};
use ioa_terms::Term;
use ioa_typed::{
    Pair, Typed, Update, entry_known, pair_by_left, pair_by_right, right_tells, update_by_entry,
    update_by_map,
};
use std::alloc::Global;

/// The parts of a form of two.
#[cycle(sorting)]
pub(crate) fn two_parts(
    alloc: Global,
    view: &View,
    a: &Term,
    b: &Term,
    kind: Pairing,
) -> Result<Box<Pair>, Refusal>
    ensures { Answers Refusal.Memory (λ p. pair_of p.value) result (spec.two_parts kind
        (spec.sorting view.now (term_of a.now)) (spec.sorting view.now (term_of b.now))) }
{
    match infer_part(alloc, view, a)? {
        Some(left) => left_known(alloc, view, b, kind, left),
        None => match infer_part(alloc, view, b)? {
            Some(right) => right_known(alloc, view, a, kind, right),
            None => Err(undetermined(kind)),
        },
    }
}

/// The parts of a form of two, if the left one has a shape of its own.
#[cycle(sorting)]
#[tactic(auto, unfolding(crate::specs::Sorting::left_known))]
fn left_known(
    alloc: Global,
    view: &View,
    b: &Term,
    kind: Pairing,
    left: Box<Typed>,
) -> Result<Box<Pair>, Refusal>
    ensures { Answers Refusal.Memory (λ p. pair_of p.value) result
        (spec.left_known kind (typed_of left.value) (spec.sorting view.now (term_of b.now))) }
{
    match other_of_left(alloc, kind, &left.shape)? {
        Some(sides) => left_by(alloc, view, b, left, &sides),
        None => {
            let right = infer_part(alloc, view, b)?;
            right_tells(alloc, kind, left, right)
        }
    }
}

/// The parts of a form of two whose left one told the shapes of the right one and of the value.
#[cycle(sorting)]
fn left_by(
    alloc: Global,
    view: &View,
    b: &Term,
    left: Box<Typed>,
    sides: &Sides,
) -> Result<Box<Pair>, Refusal>
    ensures { Answers Refusal.Memory (λ p. pair_of p.value) result
        (and_then (spec.fit (spec.sorting view.now (term_of b.now)) sides.now.other)
        (λ t. Ok (pair (term_of left.value.tree) t sides.now.whole))) }
{
    let right = fit(alloc, view, b, &sides.other)?;
    Ok(pair_by_left(alloc, left, right, &sides.whole)?)
}

/// The parts of a form of two, if the left one is a display and the right one has a shape of its own.
#[cycle(sorting)]
#[tactic(auto, unfolding(crate::specs::Sorting::right_known))]
fn right_known(
    alloc: Global,
    view: &View,
    a: &Term,
    kind: Pairing,
    right: Box<Typed>,
) -> Result<Box<Pair>, Refusal>
    ensures { Answers Refusal.Memory (λ p. pair_of p.value) result
        (spec.right_known kind (spec.sorting view.now (term_of a.now)) (typed_of right.value)) }
{
    let sides = other_of_right(alloc, kind, &right.shape)?;
    right_by(alloc, view, a, right, &sides)
}

/// The parts of a form of two whose right one told the shapes of the left one and of the value.
#[cycle(sorting)]
fn right_by(
    alloc: Global,
    view: &View,
    a: &Term,
    right: Box<Typed>,
    sides: &Sides,
) -> Result<Box<Pair>, Refusal>
    ensures { Answers Refusal.Memory (λ p. pair_of p.value) result
        (and_then (spec.fit (spec.sorting view.now (term_of a.now)) sides.now.other)
        (λ t. Ok (pair t (term_of right.value.tree) sides.now.whole))) }
{
    let left = fit(alloc, view, a, &sides.other)?;
    Ok(pair_by_right(alloc, left, right, &sides.whole)?)
}

/// The parts of `update`.
#[cycle(sorting)]
pub(crate) fn three_parts(
    alloc: Global,
    view: &View,
    a: &Term,
    b: &Term,
    d: &Term,
) -> Result<Box<Update>, Refusal>
    ensures { Answers Refusal.Memory (λ u. update_of u.value) result (spec.three_parts
        (spec.sorting view.now (term_of a.now)) (spec.sorting view.now (term_of b.now))
        (spec.sorting view.now (term_of d.now))) }
{
    match infer_part(alloc, view, a)? {
        Some(map) => map_known(alloc, view, b, d, map),
        None => match infer_part(alloc, view, b)? {
            Some(key) => key_known(alloc, view, a, d, key),
            None => Err(Refusal::EmptyOfWhat),
        },
    }
}

/// The parts of `update`, if the map has a shape of its own.
#[cycle(sorting)]
#[tactic(auto, unfolding(crate::specs::Sorting::map_known))]
fn map_known(
    alloc: Global,
    view: &View,
    b: &Term,
    d: &Term,
    map: Box<Typed>,
) -> Result<Box<Update>, Refusal>
    ensures { Answers Refusal.Memory (λ u. update_of u.value) result (spec.map_known (typed_of map.value)
        (spec.sorting view.now (term_of b.now)) (spec.sorting view.now (term_of d.now))) }
{
    let sides = entry_of(alloc, &map.shape)?;
    map_by(alloc, view, b, d, map, &sides)
}

/// The parts of `update` whose map told the shapes of the key and of the value.
#[cycle(sorting)]
fn map_by(
    alloc: Global,
    view: &View,
    b: &Term,
    d: &Term,
    map: Box<Typed>,
    sides: &Sides,
) -> Result<Box<Update>, Refusal>
    ensures { Answers Refusal.Memory (λ u. update_of u.value) result
        (and_then (spec.fit (spec.sorting view.now (term_of b.now)) sides.now.other)
        (λ k. and_then (spec.fit (spec.sorting view.now (term_of d.now)) sides.now.whole)
        (λ v. Ok (update (term_of map.value.tree) k v map.value.shape)))) }
{
    let key = Box::new(alloc, fit(alloc, view, b, &sides.other)?)?;
    let value = fit(alloc, view, d, &sides.whole)?;
    Ok(update_by_map(alloc, map, key, value)?)
}

/// The parts of `update`, if the map is a display and the key has a shape of its own.
#[cycle(sorting)]
#[tactic(auto, unfolding(crate::specs::Sorting::key_known))]
fn key_known(
    alloc: Global,
    view: &View,
    a: &Term,
    d: &Term,
    key: Box<Typed>,
) -> Result<Box<Update>, Refusal>
    ensures { Answers Refusal.Memory (λ u. update_of u.value) result (spec.key_known (typed_of key.value)
        (spec.sorting view.now (term_of a.now)) (spec.sorting view.now (term_of d.now))) }
{
    match infer_part(alloc, view, d)? {
        Some(value) => {
            let entry = entry_known(alloc, key, value)?;
            let map = fit(alloc, view, a, &entry.whole)?;
            Ok(update_by_entry(alloc, map, entry)?)
        }
        None => Err(Refusal::EmptyOfWhat),
    }
}
