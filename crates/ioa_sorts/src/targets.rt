//! The sorts of targets.

ghost use Rattle.std.specs.Prelude.{◌≡◌, IfOk, Ok};
ghost use Rattle.ioa_values.specs.Outcome.{Answers, and_then};
ghost use Rattle.ioa_terms.specs.PlainTerm as plain;
ghost use Rattle.ioa_terms.specs.Sorted.{shape_in_terms};
ghost use Rattle.ioa_terms.specs.View.{term_of, target_of};
ghost use Rattle.ioa_sort_rules.specs.Rows as rows;
ghost use Rattle.ioa_sorts.specs.SiteView.{site_of};
ghost use Rattle.ioa_sorts.specs.Sorting as sorting;
ghost use Rattle.ioa_sorts.specs.SortingView.{typed_target_of};
ghost use Rattle.ioa_sorts.specs.Statements as spec;

use crate::site::StatementSite;
use crate::sorting::fit;
use ioa_names::View;
use ioa_refusals::Refusal;
use ioa_sort_rules::{Sides, entry_of, shape_in_terms, value_of_field};
use ioa_terms::{Callee, Checked, Shape, Target, Term, Word};
use std::alloc::{AllocError, Global};

/// A target with the slot and the declared shape of its variable, and the shape of what is assigned to it.
#[derive(Drop)]
pub(crate) struct TypedTarget {
    pub target: Target<usize, Callee, Shape>,
    pub shape: Shape,
}

/// A target with the slot and the declared shape of its variable.
pub(crate) fn sort_target(
    alloc: Global,
    site: &StatementSite,
    target: &Target<(), (), ()>,
) -> Result<TypedTarget, Refusal>
    ensures { Answers Refusal.Memory typed_target_of result
        (spec.target_sorting (site_of site.now) (target_of target.now)) }
{
    match target {
        Target::Variable(name, _, _) => {
            let found = assigned(site, name)?;
            whole_target(alloc, name, found)
        }
        Target::At(name, _, _, key) => {
            let found = assigned(site, name)?;
            key_target(alloc, site.view, name, key, found)
        }
        Target::Field(name, _, _, field) => {
            let found = assigned(site, name)?;
            field_target(alloc, name, field, found)
        }
    }
}

/// The slot and the declared shape of a variable that may be assigned. `ScheduleAssignsState` (26) for another
/// variable, which is one of the state, and `Unknown` (20) for what is no variable.
#[tactic(auto, unfolding(crate::specs::Statements::assigned_or))]
fn assigned<'a>(site: &'a StatementSite, name: &Word) -> Result<(usize, &'a Shape), Refusal>
    ensures { Answers Refusal.Memory (λ p. (p.0, p.1.now)) result (spec.assigned (site_of site.now) name.now) }
{
    if let Some(found) = site.view.find_variable(name, site.variables) {
        return Ok(found);
    }
    match site.view.find_variable(name, site.all_variables) {
        None => Err(Refusal::Unknown),
        Some(_) => Err(Refusal::ScheduleAssignsState),
    }
}

/// A variable as a whole.
#[tactic(auto, unfolding(crate::specs::Statements::whole_target))]
fn whole_target(alloc: Global, name: &Word, found: (usize, &Shape)) -> Result<TypedTarget, Refusal>
    ensures { Answers Refusal.Memory typed_target_of result
        (Ok (spec.whole_target name.now (found.entry.0, found.entry.1.now))) }
{
    let (slot, declared) = found;
    let name = name.try_copy(alloc)?;
    let shape = shape_in_terms(alloc, declared)?;
    let target = Target::Variable(name, slot, declared.try_copy(alloc)?);
    Ok(TypedTarget { target, shape })
}

/// The value of a variable at a key.
#[tactic(auto, unfolding(crate::specs::Statements::key_target))]
fn key_target(
    alloc: Global,
    view: &View,
    name: &Word,
    key: &Term,
    found: (usize, &Shape),
) -> Result<TypedTarget, Refusal>
    ensures { Answers Refusal.Memory typed_target_of result
        (spec.key_target view.now name.now (term_of key.now) (found.entry.0, found.entry.1.now)) }
{
    let sides = declared_entry(alloc, found.1)?;
    key_by(alloc, view, name, key, found, &sides)
}

/// The shapes of the keys and of the values of a map, by its declared shape.
fn declared_entry(alloc: Global, declared: &Shape) -> Result<Sides, Refusal>
    ensures { Answers Refusal.Memory (λ p. rows.sides p.other p.whole) result
        (rows.entry_of (shape_in_terms declared.now)) }
{
    let shape = shape_in_terms(alloc, declared)?;
    entry_of(alloc, &shape)
}

/// The value of a variable at a key, by the shapes of the keys and of the values.
fn key_by(
    alloc: Global,
    view: &View,
    name: &Word,
    key: &Term,
    found: (usize, &Shape),
    sides: &Sides,
) -> Result<TypedTarget, Refusal>
    ensures { Answers Refusal.Memory typed_target_of result
        (and_then (sorting.fit (sorting.sorting view.now (term_of key.now)) sides.now.other)
        (λ t. Ok (spec.typed_target (plain.at_key name.now found.entry.0 found.entry.1.now t) sides.now.whole))) }
{
    let key = Box::new(alloc, fit(alloc, view, key, &sides.other)?)?;
    Ok(keyed(alloc, name, found, key, &sides.whole)?)
}

/// A target of a variable's slot and declared shape, a key, and the shape of the value there.
fn keyed(
    alloc: Global,
    name: &Word,
    found: (usize, &Shape),
    key: Box<Checked>,
    whole: &Shape,
) -> Result<TypedTarget, AllocError>
    ensures { IfOk result (λ t. typed_target_of t ≡ spec.typed_target
        (plain.at_key name.now found.entry.0 found.entry.1.now (term_of key.value)) whole.now) }
{
    let (slot, declared) = found;
    let name = name.try_copy(alloc)?;
    let declared = declared.try_copy(alloc)?;
    let shape = whole.try_copy(alloc)?;
    let target = Target::At(name, slot, declared, Box::into_inner(key));
    Ok(TypedTarget { target, shape })
}

/// A field of a variable.
#[tactic(auto, unfolding(crate::specs::Statements::field_target))]
fn field_target(
    alloc: Global,
    name: &Word,
    field: &Word,
    found: (usize, &Shape),
) -> Result<TypedTarget, Refusal>
    ensures { Answers Refusal.Memory typed_target_of result
        (spec.field_target name.now field.now (found.entry.0, found.entry.1.now)) }
{
    let (slot, declared) = found;
    let name = name.try_copy(alloc)?;
    let shape = value_of_field(alloc, field, declared)?;
    let field = field.try_copy(alloc)?;
    let target = Target::Field(name, slot, declared.try_copy(alloc)?, field);
    Ok(TypedTarget { target, shape })
}
