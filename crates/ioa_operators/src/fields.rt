//! The fields of tuples.

ghost use Rattle.std.specs.Prelude.{◌≡◌, IfOk, slice_set, ◌<◌, length, true};
ghost use Rattle.ioa_values.specs.Canonical.{IsCanonical};
ghost use Rattle.ioa_values.specs.Outcome.{Answers};
ghost use Rattle.ioa_operators.specs.RangeCheck.{AnswersOrLacks, LacksMemoryOnlyIf, checked_result};
ghost use Rattle.ioa_operators.specs.Shapes.{field_position, field_value, part_named, with_field, with_part};

use crate::fault::TermFault;
use crate::parts::parts_of_tuple;
use crate::shape::{Shape, ShapeForm};
use ioa_values::{Value, Word, unshare};
use std::alloc::Global;
use std::mem;

/// The field of a name, of a value of a tuple type (profile). Returns `Undefined (1)` if the shape is no
/// tuple type's or has no such field, or if the value is no tuple or ends before that field. Returns
/// `Memory (3)` if the field has too many owners to be shared. The value is used up. Costs time in
/// proportion to the names of the fields.
pub fn field(shape: &Shape, name: &Word, value: Value) -> Result<Value, TermFault>
    ensures value { Answers TermFault.Memory (λ v. v) result
        (checked_result (field_value shape.now name.now value)) }
    ensures memory { LacksMemoryOnlyIf true result (field_value shape.now name.now value) }
    ensures canonical { IsCanonical value → IfOk result IsCanonical }
{
    field_of(shape, name, value)
}

/// The field of a name, in one exact clause.
fn field_of(shape: &Shape, name: &Word, value: Value) -> Result<Value, TermFault>
    ensures { AnswersOrLacks true result (field_value shape.now name.now value) }
{
    match &shape.form {
        ShapeForm::Tuples(_, names, _) => field_among(names, name, value),
        _ => Err(TermFault::Undefined),
    }
}

/// The tuple in which the field of a name has another value (profile). Returns `Undefined (1)` if the shape
/// is no tuple type's or has no such field, or if the value is no tuple or ends before that field. The
/// shape of the new value is not checked. Returns `Memory (3)` if no memory is left. The values are used up.
/// Costs time in proportion to the fields, which are copied if others share the tuple.
pub fn replace_field(
    alloc: Global,
    shape: &Shape,
    name: &Word,
    new: Value,
    value: Value,
) -> Result<Value, TermFault>
    ensures value { Answers TermFault.Memory (λ v. v) result
        (checked_result (with_field shape.now name.now new value)) }
    ensures memory { LacksMemoryOnlyIf true result (with_field shape.now name.now new value) }
    ensures canonical { IsCanonical new → IsCanonical value → IfOk result IsCanonical }
{
    put_field(alloc, shape, name, new, value)
}

/// The tuple in which the field of a name has another value, in one exact clause.
fn put_field(
    alloc: Global,
    shape: &Shape,
    name: &Word,
    new: Value,
    value: Value,
) -> Result<Value, TermFault>
    ensures { AnswersOrLacks true result (with_field shape.now name.now new value) }
{
    match &shape.form {
        ShapeForm::Tuples(_, names, _) => replace_among(alloc, names, name, new, value),
        _ => Err(TermFault::Undefined),
    }
}

/// The part of a tuple whose parts have these names.
fn field_among(names: &Vec<Word>, name: &Word, value: Value) -> Result<Value, TermFault>
    ensures { AnswersOrLacks true result (part_named names.now.items name.now value) }
{
    let parts = parts_of_tuple(value)?;
    match position_of(names, name) {
        Some(position) if position < parts.len() => Ok(parts[position].try_copy()?),
        _ => Err(TermFault::Undefined),
    }
}

/// The tuple, whose parts have these names, with another value for one of them.
fn replace_among(
    alloc: Global,
    names: &Vec<Word>,
    name: &Word,
    new: Value,
    value: Value,
) -> Result<Value, TermFault>
    ensures { AnswersOrLacks true result (with_part names.now.items name.now new value) }
{
    let parts = parts_of_tuple(value)?;
    match position_of(names, name) {
        Some(position) if position < parts.len() => {
            let mut parts = unshare(alloc, parts)?;
            put_at(&mut parts, position, new);
            Ok(Value::tuple(alloc, parts)?)
        }
        _ => Err(TermFault::Undefined),
    }
}

/// The position of a field's name.
fn position_of(names: &Vec<Word>, name: &Word) -> Option<usize>
    ensures { result ≡ field_position name.now names.now.items }
{
    names.iter().position(|other| name == other)
}

/// Replaces the value at a position by another, and drops the old one.
fn put_at(parts: &mut Vec<Value>, position: usize, new: Value)
    requires { position < length parts.old.items }
    ensures { parts.new.items ≡ slice_set parts.old.items position new }
{
    let _old = mem::replace(&mut parts[position], new);
}
