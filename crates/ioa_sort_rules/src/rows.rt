//! The rules of sorts, a row a kind.

ghost use Rattle.std.specs.Prelude.{◌≡◌, IfOk, [], slice_get};
ghost use Rattle.std.specs.Option.{option_map, option_and_then};
ghost use Rattle.ioa_values.specs.Outcome.{Answers};
ghost use Rattle.ioa_operators.specs.Shapes.{field_position, shapes_of, tuples};
ghost use Rattle.ioa_sort_rules.specs.Rows as spec;

use crate::kinds::{Alike, Pairing, Single};
use crate::shapes::{sequence_of, set_of, shape_in_terms};
use ioa_operators::{Shape, ShapeForm};
use ioa_refusals::Refusal;
use ioa_values::Word;
use std::alloc::{AllocError, Global};

/// What one part of two tells: the shape of the other part, and that of the value.
#[derive(Drop)]
pub struct Sides {
    /// The shape of the other part.
    pub other: Shape,
    /// The shape of the value.
    pub whole: Shape,
}

/// The shape of the value of a form of one part, by that of the part. `Sorts` (22) if the form does not take it.
pub fn value_of_one(alloc: Global, kind: Single, part: &Shape) -> Result<Shape, Refusal>
    ensures { Answers Refusal.Memory (λ s. s) result (spec.value_of_one kind part.now) }
{
    match (kind, &part.form) {
        (Single::Truth, ShapeForm::Truths) => Ok(Shape::of(ShapeForm::Truths)),
        (Single::Number, ShapeForm::Integers) => Ok(Shape::of(ShapeForm::Integers)),
        (Single::Item, ShapeForm::Sequences(item)) => Ok(item.try_copy(alloc)?),
        (Single::Rest, ShapeForm::Sequences(_)) => Ok(part.try_copy(alloc)?),
        (Single::Length, ShapeForm::Sequences(_)) => Ok(Shape::of(ShapeForm::Integers)),
        (Single::Size, ShapeForm::Sets(_)) => Ok(Shape::of(ShapeForm::Integers)),
        (Single::Size, ShapeForm::Maps(_, _)) => Ok(Shape::of(ShapeForm::Integers)),
        _ => Err(Refusal::Sorts),
    }
}

/// The shape of the value of a form of two parts of one shape, by that shape. `Sorts` (22) if the form does not take
/// it.
pub fn value_of_alike(alloc: Global, kind: Alike, part: &Shape) -> Result<Shape, Refusal>
    ensures { Answers Refusal.Memory (λ s. s) result (spec.value_of_alike kind part.now) }
{
    match (kind, &part.form) {
        (Alike::Truths, ShapeForm::Truths) => Ok(Shape::of(ShapeForm::Truths)),
        (Alike::Numbers, ShapeForm::Integers) => Ok(Shape::of(ShapeForm::Integers)),
        (Alike::Order, ShapeForm::Integers) => Ok(Shape::of(ShapeForm::Truths)),
        (Alike::Equality, _) => Ok(Shape::of(ShapeForm::Truths)),
        (Alike::Concatenation, ShapeForm::Sequences(_)) => Ok(part.try_copy(alloc)?),
        (Alike::Union, ShapeForm::Sets(_)) => Ok(part.try_copy(alloc)?),
        _ => Err(Refusal::Sorts),
    }
}

/// What the left part of a form of two tells, by its shape. Nothing if the right part has to tell, as a member does not
/// tell whether it is one of a sequence or of a set. `Sorts` (22) if the form does not take this shape on the left.
pub fn other_of_left(alloc: Global, kind: Pairing, left: &Shape) -> Result<Option<Sides>, Refusal>
    ensures { Answers Refusal.Memory (option_map (λ s. spec.sides s.other s.whole)) result
        (spec.other_of_left kind left.now) }
{
    match (kind, &left.form) {
        (Pairing::Both(alike), _) => {
            let whole = value_of_alike(alloc, alike, left)?;
            let other = left.try_copy(alloc)?;
            Ok(Some(Sides { other, whole }))
        }
        (Pairing::Membership, _) => Ok(None),
        (Pairing::Prepend, _) => Ok(Some(same_sides(
            alloc,
            sequence_of(alloc, left.try_copy(alloc)?)?,
        )?)),
        (Pairing::Append, ShapeForm::Sequences(item)) => {
            let other = item.try_copy(alloc)?;
            let whole = left.try_copy(alloc)?;
            Ok(Some(Sides { other, whole }))
        }
        (Pairing::Members, _) => Ok(Some(same_sides(
            alloc,
            set_of(alloc, left.try_copy(alloc)?)?,
        )?)),
        (Pairing::At, ShapeForm::Maps(key, value)) => {
            let other = key.try_copy(alloc)?;
            let whole = value.try_copy(alloc)?;
            Ok(Some(Sides { other, whole }))
        }
        (Pairing::Removal, ShapeForm::Maps(key, _)) => {
            let other = key.try_copy(alloc)?;
            let whole = left.try_copy(alloc)?;
            Ok(Some(Sides { other, whole }))
        }
        (Pairing::Definition, ShapeForm::Maps(key, _)) => {
            let other = key.try_copy(alloc)?;
            let whole = Shape::of(ShapeForm::Truths);
            Ok(Some(Sides { other, whole }))
        }
        _ => Err(Refusal::Sorts),
    }
}

/// What the right part of a form of two tells, by its shape, if the left one is a display. `EmptyOfWhat` (32) if the
/// left part is a map: a key does not tell its sort. `Sorts` (22) if the form does not take this shape on the right.
pub fn other_of_right(alloc: Global, kind: Pairing, right: &Shape) -> Result<Sides, Refusal>
    ensures { Answers Refusal.Memory (λ s. spec.sides s.other s.whole) result
        (spec.other_of_right kind right.now) }
{
    match (kind, &right.form) {
        (Pairing::Both(alike), _) => {
            let whole = value_of_alike(alloc, alike, right)?;
            let other = right.try_copy(alloc)?;
            Ok(Sides { other, whole })
        }
        (Pairing::Membership, ShapeForm::Sequences(item)) => to_truths(alloc, item),
        (Pairing::Membership, ShapeForm::Sets(member)) => to_truths(alloc, member),
        (Pairing::Prepend, ShapeForm::Sequences(item)) => {
            let other = item.try_copy(alloc)?;
            let whole = right.try_copy(alloc)?;
            Ok(Sides { other, whole })
        }
        (Pairing::Append, _) => Ok(same_sides(alloc, sequence_of(alloc, right.try_copy(alloc)?)?)?),
        (Pairing::Members, ShapeForm::Sets(member)) => {
            let other = member.try_copy(alloc)?;
            let whole = right.try_copy(alloc)?;
            Ok(Sides { other, whole })
        }
        (Pairing::At, _) => Err(Refusal::EmptyOfWhat),
        (Pairing::Removal, _) => Err(Refusal::EmptyOfWhat),
        (Pairing::Definition, _) => Err(Refusal::EmptyOfWhat),
        _ => Err(Refusal::Sorts),
    }
}

/// Why a form of two displays has no sort: `Sorts` (22) if it takes Bool or Int, as a display is neither, else
/// `EmptyOfWhat` (32).
pub fn undetermined(kind: Pairing) -> Refusal
    ensures { result ≡ spec.undetermined kind }
{
    match kind {
        Pairing::Both(Alike::Truths) => Refusal::Sorts,
        Pairing::Both(Alike::Numbers) => Refusal::Sorts,
        Pairing::Both(Alike::Order) => Refusal::Sorts,
        _ => Refusal::EmptyOfWhat,
    }
}

/// Why a form of one part has no sort if the part is a display: `Sorts` (22) if it takes Bool or Int, else
/// `EmptyOfWhat` (32).
pub fn undetermined_alone(kind: Single) -> Refusal
    ensures { result ≡ spec.undetermined_alone kind }
{
    match kind {
        Single::Truth => Refusal::Sorts,
        Single::Number => Refusal::Sorts,
        _ => Refusal::EmptyOfWhat,
    }
}

/// The shapes of the keys (`other`) and of the values (`whole`) of a map. `Sorts` (22) if the shape is no map's.
pub fn entry_of(alloc: Global, map: &Shape) -> Result<Sides, Refusal>
    ensures { Answers Refusal.Memory (λ s. spec.sides s.other s.whole) result (spec.entry_of map.now) }
{
    match &map.form {
        ShapeForm::Maps(key, value) => {
            let other = key.try_copy(alloc)?;
            let whole = value.try_copy(alloc)?;
            Ok(Sides { other, whole })
        }
        _ => Err(Refusal::Sorts),
    }
}

/// The shape of a field in a term. `Sorts` (22) if the whole is no tuple, and `Unknown` (20) if its type has no such
/// field.
pub fn value_of_field(alloc: Global, name: &Word, whole: &Shape) -> Result<Shape, Refusal>
    ensures { Answers Refusal.Memory (λ s. s) result (spec.value_of_field name.now whole.now) }
{
    match &whole.form {
        ShapeForm::Tuples(_, names, fields) => field_among(alloc, name, names, fields),
        _ => Err(Refusal::Sorts),
    }
}

/// The shape in a term of a field among those of a type.
fn field_among(
    alloc: Global,
    name: &Word,
    names: &Vec<Word>,
    fields: &Vec<Shape>,
) -> Result<Shape, Refusal>
    ensures { Answers Refusal.Memory (λ s. s) result
        (spec.value_of_field name.now (tuples [] names.now.items (shapes_of fields.now.items))) }
{
    field_at(alloc, fields, position_of(names, name))
}

/// The position of a field's name.
fn position_of(names: &Vec<Word>, name: &Word) -> Option<usize>
    ensures { result ≡ field_position name.now names.now.items }
{
    names.iter().position(|other| name == other)
}

/// The shape in a term of the field at a position, if there is one.
fn field_at(alloc: Global, fields: &Vec<Shape>, position: Option<usize>) -> Result<Shape, Refusal>
    ensures { Answers Refusal.Memory (λ s. s) result
        (spec.declared_field (option_and_then (slice_get fields.now.items) position)) }
{
    let Some(position) = position else {
        return Err(Refusal::Unknown);
    };
    match fields.get(position) {
        Some(field) => Ok(shape_in_terms(alloc, field)?),
        None => Err(Refusal::Unknown),
    }
}

/// The sides of a form whose other part and value have one shape.
fn same_sides(alloc: Global, shape: Shape) -> Result<Sides, AllocError>
    ensures { IfOk result (λ s. spec.sides s.other s.whole ≡ spec.sides shape shape) }
{
    let other = shape.try_copy(alloc)?;
    Ok(Sides {
        other,
        whole: shape,
    })
}

/// The sides of a form whose other part has a shape, and whose value is a truth value.
fn to_truths(alloc: Global, other: &Shape) -> Result<Sides, Refusal>
    ensures { Answers Refusal.Memory (λ s. spec.sides s.other s.whole) result
        (spec.other_of_right (Pairing.Both Alike.Equality) other.now) }
{
    let other = other.try_copy(alloc)?;
    Ok(Sides {
        other,
        whole: Shape::of(ShapeForm::Truths),
    })
}
