//! The parts of forms of two.

ghost use Rattle.std.specs.Prelude.{◌≡◌, IfOk, Ok};
ghost use Rattle.std.specs.Option.{option_map};
ghost use Rattle.ioa_values.specs.Outcome.{Answers, and_then};
ghost use Rattle.ioa_terms.specs.PlainTerm as plain;
ghost use Rattle.ioa_terms.specs.View.{term_of};
ghost use Rattle.ioa_typed.specs.Parts as spec;
ghost use Rattle.ioa_typed.specs.PartsView.{typed_of, pair_of};

use crate::terms::{Typed, fit_typed};
use ioa_refusals::Refusal;
use ioa_sort_rules::{Pairing, Sides, other_of_right, undetermined};
use ioa_terms::{BinaryOperator, Checked, Shape};
use std::alloc::{AllocError, Global};

/// The parts of a form of two, each in the box that a tree has it in, and the shape of the form's value.
#[derive(Drop)]
pub struct Pair {
    /// The left part.
    pub left: Box<Checked>,
    /// The right part.
    pub right: Box<Checked>,
    /// The shape of the value.
    pub whole: Shape,
}

/// The parts of a form of two, if both have shapes of their own and the right one tells. `Sorts` (22) if the left one
/// has another shape than is told.
#[tactic(auto, unfolding(crate::specs::Parts::right_tells))]
pub fn right_tells(
    alloc: Global,
    kind: Pairing,
    left: Box<Typed>,
    right: Option<Box<Typed>>,
) -> Result<Box<Pair>, Refusal>
    ensures { Answers Refusal.Memory (λ p. pair_of p.value) result
        (spec.right_tells kind (typed_of left.value) (option_map (λ t. typed_of t.value) right)) }
{
    match right {
        Some(right) => {
            let sides = other_of_right(alloc, kind, &right.shape)?;
            right_fits(alloc, left, right, &sides)
        }
        None => Err(undetermined(kind)),
    }
}

/// The parts of a form of two whose right one told the shapes of the left one and of the value, if the left one has
/// that shape.
fn right_fits(
    alloc: Global,
    left: Box<Typed>,
    right: Box<Typed>,
    sides: &Sides,
) -> Result<Box<Pair>, Refusal>
    ensures { Answers Refusal.Memory (λ p. pair_of p.value) result
        (and_then (spec.fit_typed sides.now.other (typed_of left.value))
        (λ t. Ok (spec.pair t (term_of right.value.tree) sides.now.whole))) }
{
    let left = fit_typed(&sides.other, left)?;
    Ok(pair_by_right(alloc, left, right, &sides.whole)?)
}

/// The parts of a form of two whose left one told the shapes of the right one and of the value.
pub fn pair_by_left(
    alloc: Global,
    left: Box<Typed>,
    right: Checked,
    whole: &Shape,
) -> Result<Box<Pair>, AllocError>
    ensures { IfOk result (λ p. pair_of p.value
        ≡ spec.pair (term_of left.value.tree) (term_of right) whole.now) }
{
    let right = Box::new(alloc, right)?;
    let left = Box::new(alloc, Box::into_inner(left).tree)?;
    let whole = whole.try_copy(alloc)?;
    Ok(Box::new(alloc, Pair { left, right, whole })?)
}

/// The parts of a form of two whose right one told the shapes of the left one and of the value.
pub fn pair_by_right(
    alloc: Global,
    left: Checked,
    right: Box<Typed>,
    whole: &Shape,
) -> Result<Box<Pair>, AllocError>
    ensures { IfOk result (λ p. pair_of p.value
        ≡ spec.pair (term_of left) (term_of right.value.tree) whole.now) }
{
    let left = Box::new(alloc, left)?;
    let right = Box::new(alloc, Box::into_inner(right).tree)?;
    let whole = whole.try_copy(alloc)?;
    Ok(Box::new(alloc, Pair { left, right, whole })?)
}

/// An operator between two terms.
pub fn two_term(
    alloc: Global,
    operator: BinaryOperator,
    parts: Box<Pair>,
) -> Result<Box<Typed>, AllocError>
    ensures { IfOk result (λ t. typed_of t.value ≡ spec.typed (plain.two operator
        (term_of parts.value.left.value) (term_of parts.value.right.value)) parts.value.whole) }
{
    let Pair { left, right, whole } = Box::into_inner(parts);
    let tree = Checked::Two(operator, left, right);
    Ok(Box::new(alloc, Typed { tree, shape: whole })?)
}
