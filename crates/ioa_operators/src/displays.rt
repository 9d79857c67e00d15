//! Displays: `{..}` and `[..]`.

ghost use Rattle.std.specs.Prelude.{IfOk};
ghost use Rattle.ioa_values.specs.Canonical.{AllCanonical, IsCanonical};
ghost use Rattle.ioa_values.specs.Outcome.{Answers};
ghost use Rattle.ioa_operators.specs.RangeCheck.{AnswersOrLacks, LacksMemoryOnlyIf, checked_result};
ghost use Rattle.ioa_operators.specs.Shapes.{display_value, display_takes_memory};

use crate::fault::TermFault;
use crate::sets::set_of_values;
use crate::shape::{DisplayForm, Shape, ShapeForm, each_admits};
use ioa_values::{FiniteMap, Sequence, Value};
use std::alloc::Global;

/// The value of a display of these parts that has a shape (profile). Returns `Undefined (1)` if no such
/// display has the shape, if the display of a map has parts, or if the parts of a tuple are not as many as
/// its fields or lack their shapes. Returns `Memory (3)` if no memory is left for the value. The shapes of
/// the items of a sequence or a set are not checked. The parts are used up. Costs time in proportion to the
/// parts, and for a set what `FiniteSet::of` costs.
pub fn display(
    alloc: Global,
    form: DisplayForm,
    shape: &Shape,
    parts: Vec<Value>,
) -> Result<Value, TermFault>
    ensures value { Answers TermFault.Memory (λ v. v) result
        (checked_result (display_value form shape.now parts.items)) }
    ensures memory { LacksMemoryOnlyIf (display_takes_memory form shape.now) result
        (display_value form shape.now parts.items) }
    ensures canonical { AllCanonical parts.items → IfOk result IsCanonical }
{
    make_display(alloc, form, shape, parts)
}

/// The value of a display, in one exact clause.
fn make_display(
    alloc: Global,
    form: DisplayForm,
    shape: &Shape,
    parts: Vec<Value>,
) -> Result<Value, TermFault>
    ensures { AnswersOrLacks (display_takes_memory form shape.now) result
        (display_value form shape.now parts.items) }
{
    match form {
        DisplayForm::Braces => braces(alloc, shape, parts),
        DisplayForm::Brackets => brackets(alloc, shape, parts),
    }
}

/// The value of `{..}`.
fn braces(alloc: Global, shape: &Shape, parts: Vec<Value>) -> Result<Value, TermFault>
    ensures { AnswersOrLacks (display_takes_memory DisplayForm.Braces shape.now) result
        (display_value DisplayForm.Braces shape.now parts.items) }
{
    match &shape.form {
        ShapeForm::Sequences(_) => Ok(Value::sequence(Sequence::from_vec(alloc, parts)?)),
        ShapeForm::Sets(_) => set_of_values(alloc, parts),
        ShapeForm::Maps(_, _) => match parts.as_slice() {
            [] => Ok(Value::map(FiniteMap::new())),
            [_, ..] => Err(TermFault::Undefined),
        },
        _ => Err(TermFault::Undefined),
    }
}

/// The value of `[..]`: a tuple whose parts have the shapes of its fields.
fn brackets(alloc: Global, shape: &Shape, parts: Vec<Value>) -> Result<Value, TermFault>
    ensures { AnswersOrLacks (display_takes_memory DisplayForm.Brackets shape.now) result
        (display_value DisplayForm.Brackets shape.now parts.items) }
{
    match &shape.form {
        ShapeForm::Tuples(_, _, shapes) => {
            if each_admits(shapes, &parts) {
                Ok(Value::tuple(alloc, parts)?)
            } else {
                Err(TermFault::Undefined)
            }
        }
        _ => Err(TermFault::Undefined),
    }
}
