//! Values that have not the shape of their place.

ghost use Rattle.std.specs.Prelude.{◌≡◌, [], IfOk, IfSome, Some, length, slice_get};
ghost use Rattle.std.specs.Option.{option_and_then, option_copied};
ghost use Rattle.ioa_operators.specs.Shapes.{field_position, shapes_of, tuples};
ghost use Rattle.ioa_terms.specs.Meaning.{answer};
ghost use Rattle.ioa_terms.specs.PlainTerm.{assign};
ghost use Rattle.ioa_terms.specs.Resolved.{IsResolved, IsResolvedStatement};
ghost use Rattle.ioa_terms.specs.Sorted.{field_shape};
ghost use Rattle.ioa_terms.specs.View.{target_of, term_of};
ghost use Rattle.ioa_terms.specs.Views.{IsNamed, environment_of, names_in_view, own_names};
ghost use Rattle.ioa_reasons.specs.Misfits as spec;
ghost use Rattle.ioa_reasons.specs.Misfits.{PutsAt};
ghost use Rattle.ioa_reasons.specs.Stops.{IsMisfitPut, IsStopIn};

use crate::reason::StatementPlace;
use crate::stops::Stop;
use ioa_terms::{Callee, Checked, Shape, ShapeForm, Target, TermFault, View, Word, eval};
use ioa_values::Value;
use std::alloc::{AllocError, Global};

/// Where an assignment stops: at a part whose value has not the shape of its place.
pub(crate) fn misfit_in_assignment<'a>(
    alloc: Global,
    target: &'a Target<usize, Callee, Shape>,
    term: &'a Checked,
    view: &View,
    values: &[Value],
) -> Result<Stop<'a>, AllocError>
    requires resolved { IsResolvedStatement (assign (target_of target.now) (term_of term.now))
        (own_names view.now (length values.now)) (names_in_view view.now) }
    requires named { IsNamed view.now values.now }
    ensures { IfOk result (λ s. IsStopIn view.now values.now s) }
{
    match misfit_where_put(alloc, target, term, view, values)? {
        Some(part) => Ok(Stop::Misfit(StatementPlace::Assigned(target, term), part)),
        None => Ok(Stop::Unknown),
    }
}

/// The part of an assignment whose value has not the shape of its place: the key comes first.
pub(crate) fn misfit_where_put<'a>(
    alloc: Global,
    target: &'a Target<usize, Callee, Shape>,
    term: &'a Checked,
    view: &View,
    values: &[Value],
) -> Result<Option<&'a Checked>, AllocError>
    requires resolved { IsResolvedStatement (assign (target_of target.now) (term_of term.now))
        (own_names view.now (length values.now)) (names_in_view view.now) }
    requires named { IsNamed view.now values.now }
    ensures { IfOk result (λ o. IfSome o
        (λ t. IsMisfitPut view.now values.now (target_of target.now) (term_of term.now) (term_of t.now))) }
{
    match target {
        Target::Variable(_, _, shape) => misfit_at(alloc, target, term, term, shape, view, values),
        Target::At(_, _, map, key) => match &map.form {
            ShapeForm::Maps(keys, items) => {
                match misfit_at(alloc, target, term, key, keys, view, values)? {
                    None => misfit_at(alloc, target, term, term, items, view, values),
                    Some(part) => Ok(Some(part)),
                }
            }
            _ => Ok(None),
        },
        Target::Field(_, _, whole, field) => match shape_of_field(whole, field) {
            None => Ok(None),
            Some(shape) => misfit_at(alloc, target, term, term, shape, view, values),
        },
    }
}

/// The shape of a field of a tuple type, if it has a field of this name.
fn shape_of_field<'a>(whole: &'a Shape, field: &Word) -> Option<&'a Shape>
    ensures { IfSome result (λ s. field_shape field.now whole.now ≡ Some s.now) }
{
    match &whole.form {
        ShapeForm::Tuples(_, names, shapes) => shape_among(names, shapes, field),
        _ => None,
    }
}

/// The shape of a field among those of a type.
fn shape_among<'a>(names: &Vec<Word>, shapes: &'a Vec<Shape>, field: &Word) -> Option<&'a Shape>
    ensures { IfSome result (λ s. field_shape field.now
        (tuples [] names.now.items (shapes_of shapes.now.items)) ≡ Some s.now) }
{
    shape_at(shapes, position_of(names, field))
}

/// The position of a field's name.
fn position_of(names: &Vec<Word>, name: &Word) -> Option<usize>
    ensures { result ≡ field_position name.now names.now.items }
{
    names.iter().position(|other| name == other)
}

/// The shape at a position, if there is one.
fn shape_at(shapes: &Vec<Shape>, position: Option<usize>) -> Option<&Shape>
    ensures { option_copied result ≡ option_and_then (slice_get shapes.now.items) position }
{
    match position {
        None => None,
        Some(position) => shapes.get(position),
    }
}

/// A part of an assignment, if its value has not this shape, which is asked for at its place.
fn misfit_at<'a>(
    alloc: Global,
    target: &Target<usize, Callee, Shape>,
    term: &Checked,
    part: &'a Checked,
    shape: &Shape,
    view: &View,
    values: &[Value],
) -> Result<Option<&'a Checked>, AllocError>
    requires puts { PutsAt (target_of target.now) (term_of term.now) (term_of part.now) shape.now }
    requires resolved { IsResolved (term_of part.now) (names_in_view view.now) }
    requires named { IsNamed view.now values.now }
    ensures { IfOk result (λ o. IfSome o
        (λ t. IsMisfitPut view.now values.now (target_of target.now) (term_of term.now) (term_of t.now))) }
{
    if is_misfit(alloc, part, shape, view, values)? {
        Ok(Some(part))
    } else {
        Ok(None)
    }
}

/// Whether a term has a value that has not this shape.
pub(crate) fn is_misfit(
    alloc: Global,
    term: &Checked,
    shape: &Shape,
    view: &View,
    values: &[Value],
) -> Result<bool, AllocError>
    requires resolved { IsResolved (term_of term.now) (names_in_view view.now) }
    requires named { IsNamed view.now values.now }
    ensures { IfOk result
        (λ b. b ≡ spec.is_misfit shape.now (answer (term_of term.now) (environment_of view.now values.now))) }
{
    match eval(alloc, term, &view.env(values)) {
        Ok(value) => Ok(!shape.admits(&value)),
        Err(TermFault::Undefined) => Ok(false),
        Err(TermFault::Range) => Ok(false),
        Err(TermFault::Memory) => Err(AllocError),
    }
}
