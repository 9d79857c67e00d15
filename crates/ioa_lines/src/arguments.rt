//! The arguments of an action, by their shapes.

ghost use Rattle.std.specs.Prelude.{◌≡◌, []};
ghost use Rattle.ioa_cursor.specs.Outcome.{Reads};
ghost use Rattle.ioa_operators.specs.Shapes.{shapes_of};
ghost use Rattle.ioa_lines.specs.Reading as spec;
ghost use Rattle.ioa_value_reader.specs.Reading as values;

use ioa_cursor::{Tokens, Unread};
use ioa_terms::{Names, Shape, ShapeForm, Value};
use ioa_tokens::Mark;
use ioa_value_reader::read_value;
use std::alloc::Global;

/// Whether a shape is of constants. The reader goes past a name before it looks for its constant.
fn is_of_constants(shape: &Shape) -> bool {
    match &shape.form {
        ShapeForm::Constants(_, _, _) => true,
        _ => false,
    }
}

/// A value of a shape. A name that is none of the shape's constants is refused itself, and not what stands behind it.
pub(crate) fn value(
    alloc: Global,
    names: &Names,
    shape: &Shape,
    tokens: &mut Tokens<'_>,
) -> Result<Value, Unread>
    ensures { Reads (λ v. v) (values.read_value names.now shape.now tokens.old) result tokens.new }
{
    let left = tokens.len();
    match read_value(alloc, names, shape, tokens)? {
        Some(value) => Ok(value),
        None => Err(refusal_of(shape, left, tokens)),
    }
}

/// The refusal of what is no value of a shape, by how many tokens are left from its first one on, and by those that the
/// reader left.
fn refusal_of(shape: &Shape, left: usize, tokens: &Tokens<'_>) -> Unread {
    if is_of_constants(shape) {
        Unread::Unexpected(left)
    } else {
        tokens.refusal()
    }
}

/// The comma in front of a value behind those that are done.
#[tactic(auto, unfolding(crate::specs::between))]
fn expect_between(done: &Vec<Value>, tokens: &mut Tokens<'_>) -> Result<(), Unread>
    ensures { Reads (λ u. u) (values.between done.now.items tokens.old) result tokens.new }
{
    match done.as_slice() {
        [] => Ok(()),
        [_, ..] => tokens.expect(Mark::Comma),
    }
}

/// A value of each shape, with commas between.
#[tactic(auto, unfolding(crate::specs::read_parts, crate::specs::bind))]
fn listed_values(
    alloc: Global,
    names: &Names,
    shapes: &Vec<Shape>,
    tokens: &mut Tokens<'_>,
) -> Result<Vec<Value>, Unread>
    ensures { Reads (λ v. v.items)
        (values.read_parts names.now (shapes_of shapes.now.items) [] tokens.old) result tokens.new }
{
    let mut done = Vec::new(alloc);
    for shape in shapes {
        expect_between(&done, tokens)?;
        let next = value(alloc, names, shape, tokens)?;
        done.push(next)?;
    }
    Ok(done)
}

/// The arguments of an action, of these shapes: nothing if there is no shape, and otherwise in round brackets.
#[tactic(auto, unfolding(crate::specs::Reading::read_arguments, crate::specs::bind))]
pub(crate) fn arguments(
    alloc: Global,
    names: &Names,
    shapes: &Vec<Shape>,
    tokens: &mut Tokens<'_>,
) -> Result<Vec<Value>, Unread>
    ensures { Reads (λ v. v.items) (spec.read_arguments names.now shapes.now.items tokens.old) result tokens.new }
{
    if shapes.is_empty() {
        return Ok(Vec::new(alloc));
    }
    tokens.expect(Mark::OpenRound)?;
    let done = listed_values(alloc, names, shapes, tokens)?;
    tokens.expect(Mark::CloseRound)?;
    Ok(done)
}
