//! The sorts of terms.

ghost use Rattle.std.specs.Option.{option_map};
ghost use Rattle.ioa_values.specs.Outcome.{Answers};
ghost use Rattle.ioa_operators.specs.Shapes.{truths};
ghost use Rattle.ioa_terms.specs.Sorted.{shape_in_terms};
ghost use Rattle.ioa_terms.specs.View.{term_of};
ghost use Rattle.ioa_names.specs.Views.{named};
ghost use Rattle.ioa_typed.specs.PartsView.{typed_of};
ghost use Rattle.ioa_sorts.specs.Sorting as spec;

use crate::calls::call;
use crate::displays::display;
use crate::parts::two_parts;
use ioa_names::View;
use ioa_refusals::Refusal;
use ioa_sort_rules::{pairing_of, shape_in_terms, single_of};
use ioa_terms::{Checked, Name, Shape, ShapeForm, Term};
use ioa_typed::{
    Typed, field_known, fit_typed, name_term, number_term, one_term, part_known, truth_term,
    two_term,
};
use std::alloc::Global;

/// The term with the slot of each name and the shape of each display, and the shape of its value. Nothing if the term
/// is a display, which takes its shape from where it stands. Returns `Unknown` (20) if a name, a function or a field
/// is not declared, `Sorts` (22) if a part has another sort than its operator or function takes, or if there are more
/// or fewer parts, `EmptyOfWhat` (32) if nothing gives a display its sort, and `Memory` (3) if no memory is left.
/// Costs time in proportion to the term and to the shapes of its parts.
pub fn infer(alloc: Global, view: &View, term: &Term) -> Result<Option<Typed>, Refusal>
    ensures { Answers Refusal.Memory (option_map typed_of) result
        (spec.infer (spec.sorting view.now (term_of term.now))) }
{
    match infer_part(alloc, view, term)? {
        None => Ok(None),
        Some(found) => Ok(Some(Box::into_inner(found))),
    }
}

/// What `infer` finds, in the box that it is passed on in.
#[cycle(sorting)]
pub(crate) fn infer_part(
    alloc: Global,
    view: &View,
    term: &Term,
) -> Result<Option<Box<Typed>>, Refusal>
    ensures { Answers Refusal.Memory (option_map (λ t. typed_of t.value)) result
        (spec.infer (spec.sorting view.now (term_of term.now))) }
{
    match term {
        Term::Display(_, _, _) => Ok(None),
        _ => Ok(Some(own_of(alloc, view, term)?)),
    }
}

/// The term at a shape, in which naturals count as integers. Returns what `infer` does, and `Sorts` (22) if the term
/// has another shape.
#[cycle(sorting)]
pub fn fit(alloc: Global, view: &View, term: &Term, want: &Shape) -> Result<Checked, Refusal>
    ensures { Answers Refusal.Memory term_of result
        (spec.fit (spec.sorting view.now (term_of term.now)) want.now) }
{
    match term {
        Term::Display(form, _, parts) => display(alloc, view, parts, *form, want),
        _ => fit_typed(want, own_of(alloc, view, term)?),
    }
}

/// The term at a declared shape, as that is in terms.
#[cycle(sorting)]
pub(crate) fn fit_declared(
    alloc: Global,
    view: &View,
    term: &Term,
    declared: &Shape,
) -> Result<Checked, Refusal>
    ensures { Answers Refusal.Memory term_of result
        (spec.fit (spec.sorting view.now (term_of term.now)) (shape_in_terms declared.now)) }
{
    let want = shape_in_terms(alloc, declared)?;
    fit(alloc, view, term, &want)
}

/// A term that is no display, and the shape of its value.
#[cycle(sorting)]
fn own_of(alloc: Global, view: &View, term: &Term) -> Result<Box<Typed>, Refusal>
    ensures { Answers Refusal.Memory (λ t. typed_of t.value) result
        (spec.own_of (spec.sorting view.now (term_of term.now))) }
{
    match term {
        Term::Number(number) => Ok(number_term(alloc, *number)?),
        Term::Truth(truth) => Ok(truth_term(alloc, *truth)?),
        Term::Name(name, _) => name_known(alloc, view, name),
        Term::One(operator, a) => {
            let part = infer_part(alloc, view, a)?;
            let part = part_known(alloc, single_of(*operator), part)?;
            Ok(one_term(alloc, *operator, part)?)
        }
        Term::Two(operator, a, b) => {
            let parts = two_parts(alloc, view, a, b, pairing_of(*operator))?;
            Ok(two_term(alloc, *operator, parts)?)
        }
        Term::Call(name, _, parts) => call(alloc, view, parts, name),
        Term::Display(_, _, _) => Err(Refusal::EmptyOfWhat),
        Term::Field(a, name, _) => {
            let whole = infer_part(alloc, view, a)?;
            field_known(alloc, name, whole)
        }
    }
}

/// The term that a name is. `Unknown` (20) if it is not in view.
fn name_known(alloc: Global, view: &View, name: &Name) -> Result<Box<Typed>, Refusal>
    ensures { Answers Refusal.Memory (λ t. typed_of t.value) result
        (spec.name_known name.now (named name.now view.now)) }
{
    match view.find(name) {
        Some((slot, shape)) => Ok(name_term(alloc, name, slot, shape)?),
        None => Err(Refusal::Unknown),
    }
}

/// A test with slots and shapes: a truth value.
pub(crate) fn truth_of(alloc: Global, view: &View, test: &Term) -> Result<Checked, Refusal>
    ensures { Answers Refusal.Memory term_of result
        (spec.fit (spec.sorting view.now (term_of test.now)) truths) }
{
    let want = Shape::of(ShapeForm::Truths);
    fit(alloc, view, test, &want)
}
