//! The sorts of choices.

ghost use Rattle.std.specs.Prelude.{◌≡◌, ◌∷◌};
ghost use Rattle.ioa_values.specs.Outcome.{Answers, and_then};
ghost use Rattle.ioa_operators.specs.Shapes.{truths};
ghost use Rattle.ioa_terms.specs.Sorted as sorted;
ghost use Rattle.ioa_terms.specs.SortView.{sort_of};
ghost use Rattle.ioa_terms.specs.View.{term_of, target_of, choice_of};
ghost use Rattle.ioa_sorts.specs.SimpleShapes as simple;
ghost use Rattle.ioa_sorts.specs.SiteView.{site_of, is_block};
ghost use Rattle.ioa_sorts.specs.Sorting as sorting;
ghost use Rattle.ioa_sorts.specs.SortingView.{typed_target_of};
ghost use Rattle.ioa_sorts.specs.Statements as spec;

use crate::site::{Place, StatementSite};
use crate::sorting::{fit_declared, truth_of};
use crate::targets::{TypedTarget, sort_target};
use ioa_names::{NameTable, View};
use ioa_refusals::Refusal;
use ioa_sort_rules::{is_same_sort, shape_in_terms};
use ioa_terms::{Callee, Checked, Choice, Name, Shape, ShapeForm, Sort, Target, Term, Word};
use ioa_types::Types;
use std::alloc::Global;

/// A choice with slots and shapes. `Unknown` (20) in a schedule block.
#[tactic(auto, unfolding(crate::specs::Statements::if_in_effect, crate::specs::Statements::choice_sorting))]
pub(crate) fn sort_choice(
    alloc: Global,
    site: &StatementSite,
    choice: &Choice<(), (), ()>,
) -> Result<Choice<usize, Callee, Shape>, Refusal>
    ensures { Answers Refusal.Memory choice_of result (spec.if_in_effect (is_block site.now.place)
        (spec.choice_sorting (site_of site.now) (choice_of choice.now))) }
{
    match site.place {
        Place::Block => Err(Refusal::Unknown),
        Place::Effect(types) => choice_by_types(alloc, site, types, choice),
    }
}

/// A choice of a value of these types.
fn choice_by_types(
    alloc: Global,
    site: &StatementSite,
    types: &Types,
    choice: &Choice<(), (), ()>,
) -> Result<Choice<usize, Callee, Shape>, Refusal>
    ensures { Answers Refusal.Memory choice_of result (and_then
        (spec.target_sorting (site_of site.now) (choice_of choice.now).target)
        (λ q. and_then (spec.simple_shape types.now (choice_of choice.now).sort)
        (spec.shape_sorting (site_of site.now) (choice_of choice.now) q))) }
{
    let target = Box::new(alloc, sort_target(alloc, site, &choice.target)?)?;
    let shape = simple_shape(alloc, types, &choice.sort)?;
    choice_by_shape(alloc, site, choice, target, shape)
}

/// The shape of a sort whose values an effect may choose. `Unknown` (20) if it names no type that is declared, `Sorts`
/// (22) if it is no `Bool`, `Int`, `Nat` or enumeration, `Limit` (31) if it is too high.
pub fn simple_shape(alloc: Global, types: &Types, sort: &Sort) -> Result<Shape, Refusal>
    ensures { Answers Refusal.Memory (λ s. s) result (spec.simple_shape types.now (sort_of sort.now)) }
{
    let shape = types.shape_of(alloc, sort)?;
    simple_or(shape.into_shape())
}

/// A shape whose values an effect may choose. `Sorts` (22) if it is another.
#[tactic(auto, unfolding(crate::specs::Statements::simple_or))]
fn simple_or(shape: Shape) -> Result<Shape, Refusal>
    ensures { Answers Refusal.Memory (λ s. s) result (spec.simple_or shape) }
{
    if is_simple(&shape) {
        Ok(shape)
    } else {
        Err(Refusal::Sorts)
    }
}

/// Whether an effect may choose values of a shape.
fn is_simple(shape: &Shape) -> bool
    ensures { result ≡ simple.is_simple shape.now }
{
    match &shape.form {
        ShapeForm::Truths => true,
        ShapeForm::Integers => true,
        ShapeForm::Naturals => true,
        ShapeForm::Constants(_, _, _) => true,
        ShapeForm::Tuples(_, _, _) => false,
        ShapeForm::Sequences(_) => false,
        ShapeForm::Sets(_) => false,
        ShapeForm::Maps(_, _) => false,
    }
}

/// A choice of a value of this shape, which is put where the target says.
#[tactic(auto, unfolding(crate::specs::Statements::shape_sorting))]
fn choice_by_shape(
    alloc: Global,
    site: &StatementSite,
    choice: &Choice<(), (), ()>,
    target: Box<TypedTarget>,
    shape: Shape,
) -> Result<Choice<usize, Callee, Shape>, Refusal>
    ensures { Answers Refusal.Memory choice_of result (spec.shape_sorting (site_of site.now)
        (choice_of choice.now) (typed_target_of target.value) shape) }
{
    pass_shape(alloc, &shape, &target.shape)?;
    pass_new(site.view, &choice.name)?;
    choice_by_terms(alloc, site, choice, Box::into_inner(target).target, shape)
}

/// Passes if values of a declared shape are of the shape that a target holds. Else `Sorts` (22).
#[tactic(auto, unfolding(crate::specs::Statements::same_or))]
fn pass_shape(alloc: Global, declared: &Shape, wanted: &Shape) -> Result<(), Refusal>
    ensures { Answers Refusal.Memory (λ _. sorted.shape_in_terms declared.now) result
        (spec.same_or (sorted.shape_in_terms declared.now) wanted.now) }
{
    let shape = shape_in_terms(alloc, declared)?;
    if is_same_sort(&shape, wanted) {
        Ok(())
    } else {
        Err(Refusal::Sorts)
    }
}

/// Passes if a name is not in view. Else `Twice` (21).
#[tactic(auto, unfolding(crate::specs::Statements::new_name))]
fn pass_new(view: &View, name: &Word) -> Result<(), Refusal>
    ensures { Answers Refusal.Memory (λ _. name.now) result (spec.new_name name.now view.now) }
{
    if view.declares(name) {
        Err(Refusal::Twice)
    } else {
        Ok(())
    }
}

/// A choice of this target and shape, by its condition and what yields its value.
#[tactic(auto, unfolding(crate::specs::Statements::terms_sorting))]
fn choice_by_terms(
    alloc: Global,
    site: &StatementSite,
    choice: &Choice<(), (), ()>,
    target: Target<usize, Callee, Shape>,
    shape: Shape,
) -> Result<Choice<usize, Callee, Shape>, Refusal>
    ensures { Answers Refusal.Memory choice_of result (spec.terms_sorting (site_of site.now)
        (choice_of choice.now) (target_of target) shape) }
{
    let condition = sort_condition(alloc, site.view, &choice.name, &shape, &choice.condition)?;
    let condition = Box::new(alloc, condition)?;
    let yields = fit_declared(alloc, site.view, &choice.yields, &shape)?;
    let name = choice.name.try_copy(alloc)?;
    let sort = choice.sort.try_copy(alloc)?;
    Ok(Choice {
        target,
        name,
        sort,
        shape,
        condition: Box::into_inner(condition),
        yields,
    })
}

/// The condition of a choice, in which the name of the value stands in front of those in view: a truth value.
fn sort_condition(
    alloc: Global,
    view: &View,
    name: &Word,
    shape: &Shape,
    condition: &Term,
) -> Result<Checked, Refusal>
    ensures { Answers Refusal.Memory term_of result (sorting.fit
        (sorting.sorting ((Name.Word name.now, shape.now) ∷ view.now) (term_of condition.now)) truths) }
{
    let name = name.try_copy(alloc)?;
    let shape = shape.try_copy(alloc)?;
    let front = NameTable::new(alloc).with(alloc, name, shape)?;
    let in_front = view.with_front(&front)?;
    truth_of(alloc, &in_front, condition)
}
