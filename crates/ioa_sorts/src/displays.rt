//! The sorts of displays, which take them from where they stand.

ghost use Rattle.std.specs.Prelude.{map};
ghost use Rattle.ioa_values.specs.Outcome.{Answers};
ghost use Rattle.ioa_operators.specs.Shapes.{shapes_of};
ghost use Rattle.ioa_terms.specs.PlainTerm.{terms_of};
ghost use Rattle.ioa_terms.specs.Sorted.{shape_in_terms, listed_shapes};
ghost use Rattle.ioa_terms.specs.View.{term_of};
ghost use Rattle.ioa_sorts.specs.Sorting as spec;

use crate::sorting::{fit, fit_declared};
use ioa_names::View;
use ioa_refusals::Refusal;
use ioa_terms::{Checked, DisplayForm, Shape, ShapeForm, Term};
use ioa_typed::display_term;
use std::alloc::Global;

/// A display of parts at a shape.
#[cycle(sorting)]
pub(crate) fn display(
    alloc: Global,
    view: &View,
    parts: &Vec<Term>,
    form: DisplayForm,
    want: &Shape,
) -> Result<Checked, Refusal>
    ensures { Answers Refusal.Memory term_of result (spec.display_at form
        (spec.sortings view.now (terms_of (map term_of parts.now.items))) want.now) }
{
    let parts = display_parts(alloc, view, parts, form, want)?;
    Ok(display_term(alloc, form, want, parts)?)
}

/// The parts of a display at a shape.
#[cycle(sorting)]
#[tactic(auto, unfolding(crate::specs::Sorting::display_parts))]
fn display_parts(
    alloc: Global,
    view: &View,
    parts: &Vec<Term>,
    form: DisplayForm,
    want: &Shape,
) -> Result<Vec<Checked>, Refusal>
    ensures { Answers Refusal.Memory (λ ts. map term_of ts.items) result (spec.display_parts form
        (spec.sortings view.now (terms_of (map term_of parts.now.items))) want.now) }
{
    match (form, &want.form) {
        (DisplayForm::Braces, ShapeForm::Sequences(item)) => fit_all(alloc, view, parts, item),
        (DisplayForm::Braces, ShapeForm::Sets(member)) => fit_all(alloc, view, parts, member),
        (DisplayForm::Braces, ShapeForm::Maps(_, _)) => fit_each(
            alloc,
            view,
            parts,
            &Vec::new(alloc),
        ),
        (DisplayForm::Brackets, ShapeForm::Tuples(_, _, fields)) => {
            fit_fields(alloc, view, parts, fields)
        }
        _ => Err(Refusal::Sorts),
    }
}

/// Terms that all have one shape.
#[cycle(sorting)]
fn fit_all(
    alloc: Global,
    view: &View,
    parts: &Vec<Term>,
    want: &Shape,
) -> Result<Vec<Checked>, Refusal>
    ensures { Answers Refusal.Memory (λ ts. map term_of ts.items) result
        (spec.all_fit (spec.sortings view.now (terms_of (map term_of parts.now.items))) want.now) }
{
    let mut terms = Vec::new(alloc);
    for part in parts {
        let term = fit(alloc, view, part, want)?;
        terms.push(term)?;
    }
    Ok(terms)
}

/// Terms that have the shapes of a type's fields, one by one.
#[cycle(sorting)]
fn fit_fields(
    alloc: Global,
    view: &View,
    parts: &Vec<Term>,
    fields: &Vec<Shape>,
) -> Result<Vec<Checked>, Refusal>
    ensures { Answers Refusal.Memory (λ ts. map term_of ts.items) result (spec.each_fit
        (spec.sortings view.now (terms_of (map term_of parts.now.items)))
        (map shape_in_terms (listed_shapes (shapes_of fields.now.items)))) }
{
    fit_each(alloc, view, parts, fields)
}

/// Terms that have declared shapes as these are in terms, one by one.
#[cycle(sorting)]
pub(crate) fn fit_each(
    alloc: Global,
    view: &View,
    parts: &Vec<Term>,
    fields: &Vec<Shape>,
) -> Result<Vec<Checked>, Refusal>
    ensures { Answers Refusal.Memory (λ ts. map term_of ts.items) result (spec.each_fit
        (spec.sortings view.now (terms_of (map term_of parts.now.items)))
        (map shape_in_terms fields.now.items)) }
{
    let mut terms = Vec::new(alloc);
    for position in 0..parts.len().min(fields.len()) {
        let term = fit_declared(alloc, view, &parts[position], &fields[position])?;
        terms.push(term)?;
    }
    if parts.len() == fields.len() {
        Ok(terms)
    } else {
        Err(Refusal::Sorts)
    }
}
