//! Terms with the shapes of their values: numbers, truth values, names, and what is made of one term.

ghost use Rattle.std.specs.Prelude.{◌≡◌, IfOk, map};
ghost use Rattle.std.specs.Option.{option_map};
ghost use Rattle.ioa_values.specs.Outcome.{Answers};
ghost use Rattle.ioa_operators.specs.Shapes.{truths, integers};
ghost use Rattle.ioa_terms.specs.PlainTerm as plain;
ghost use Rattle.ioa_terms.specs.PlainTerm.{terms_of};
ghost use Rattle.ioa_terms.specs.View.{term_of};
ghost use Rattle.ioa_typed.specs.Parts as spec;
ghost use Rattle.ioa_typed.specs.PartsView.{typed_of};

use ioa_refusals::Refusal;
use ioa_sort_rules::{Single, is_same_sort, undetermined_alone, value_of_field, value_of_one};
use ioa_terms::{Checked, DisplayForm, Name, Shape, ShapeForm, UnaryOperator, Word};
use std::alloc::{AllocError, Global};

/// A term with the slot of each name and the shape of each display, and the shape of its value. It is passed on in a
/// `Box`, so that what is made of it moves no tree.
#[derive(Drop)]
pub struct Typed {
    /// The term.
    pub tree: Checked,
    /// The shape of its value.
    pub shape: Shape,
}

/// A number, which is an integer.
pub fn number_term(alloc: Global, number: i64) -> Result<Box<Typed>, AllocError>
    ensures { IfOk result (λ t. typed_of t.value ≡ spec.typed (plain.number number) integers) }
{
    let shape = Shape::of(ShapeForm::Integers);
    let tree = Checked::Number(number);
    Ok(Box::new(alloc, Typed { tree, shape })?)
}

/// `true` or `false`, which is a truth value.
pub fn truth_term(alloc: Global, truth: bool) -> Result<Box<Typed>, AllocError>
    ensures { IfOk result (λ t. typed_of t.value ≡ spec.typed (plain.truth truth) truths) }
{
    let shape = Shape::of(ShapeForm::Truths);
    let tree = Checked::Truth(truth);
    Ok(Box::new(alloc, Typed { tree, shape })?)
}

/// A name with its slot.
pub fn name_term(
    alloc: Global,
    name: &Name,
    slot: usize,
    shape: &Shape,
) -> Result<Box<Typed>, AllocError>
    ensures { IfOk result (λ t. typed_of t.value ≡ spec.typed (plain.name name.now slot) shape.now) }
{
    let name = name.try_copy(alloc)?;
    let shape = shape.try_copy(alloc)?;
    let tree = Checked::Name(name, slot);
    Ok(Box::new(alloc, Typed { tree, shape })?)
}

/// The part of a form of one, with the shape of the form's value. Nothing is a display, which has no shape of its own,
/// and is refused by `Sorts` (22) or `EmptyOfWhat` (32); `Sorts` (22) too if the form does not take the part.
#[tactic(auto, unfolding(crate::specs::Parts::part_known))]
pub fn part_known(
    alloc: Global,
    kind: Single,
    part: Option<Box<Typed>>,
) -> Result<Box<Typed>, Refusal>
    ensures { Answers Refusal.Memory (λ t. typed_of t.value) result
        (spec.part_known kind (option_map (λ t. typed_of t.value) part)) }
{
    match part {
        Some(part) => {
            let shape = value_of_one(alloc, kind, &part.shape)?;
            Ok(with_shape(part, shape))
        }
        None => Err(undetermined_alone(kind)),
    }
}

/// The term with another shape.
fn with_shape(part: Box<Typed>, shape: Shape) -> Box<Typed>
    ensures { typed_of result.value ≡ spec.typed (term_of part.value.tree) shape }
{
    let mut part = part;
    part.shape = shape;
    part
}

/// The term, if its shape is the one asked, in which naturals count as integers. `Sorts` (22) if it has another.
#[tactic(auto, unfolding(crate::specs::Parts::fit_typed))]
pub fn fit_typed(want: &Shape, typed: Box<Typed>) -> Result<Checked, Refusal>
    ensures { Answers Refusal.Memory term_of result (spec.fit_typed want.now (typed_of typed.value)) }
{
    if is_same_sort(&typed.shape, want) {
        Ok(Box::into_inner(typed).tree)
    } else {
        Err(Refusal::Sorts)
    }
}

/// An operator before a term.
pub fn one_term(
    alloc: Global,
    operator: UnaryOperator,
    part: Box<Typed>,
) -> Result<Box<Typed>, AllocError>
    ensures { IfOk result (λ t. typed_of t.value
        ≡ spec.typed (plain.one operator (term_of part.value.tree)) part.value.shape) }
{
    let Typed { tree, shape } = Box::into_inner(part);
    let tree = Checked::One(operator, Box::new(alloc, tree)?);
    Ok(Box::new(alloc, Typed { tree, shape })?)
}

/// A display of parts, with the shape that it has.
pub fn display_term(
    alloc: Global,
    form: DisplayForm,
    shape: &Shape,
    parts: Vec<Checked>,
) -> Result<Checked, AllocError>
    ensures { IfOk result (λ t. term_of t ≡ plain.display form shape.now (terms_of (map term_of parts.items))) }
{
    Ok(Checked::Display(form, shape.try_copy(alloc)?, parts))
}

/// A field of a term. `Unknown` (20) if the term's type has no such field, `Sorts` (22) if it is no tuple, and
/// `EmptyOfWhat` (32) of a display, which has no shape of its own.
#[tactic(auto, unfolding(crate::specs::Parts::field_known))]
pub fn field_known(
    alloc: Global,
    name: &Word,
    whole: Option<Box<Typed>>,
) -> Result<Box<Typed>, Refusal>
    ensures { Answers Refusal.Memory (λ t. typed_of t.value) result
        (spec.field_known name.now (option_map (λ t. typed_of t.value) whole)) }
{
    match whole {
        Some(whole) => {
            let shape = value_of_field(alloc, name, &whole.shape)?;
            let tree = field_of(alloc, name, whole)?;
            Ok(Box::new(alloc, Typed { tree, shape })?)
        }
        None => Err(Refusal::EmptyOfWhat),
    }
}

/// A field of a term, with the shape of the term's value.
fn field_of(alloc: Global, name: &Word, whole: Box<Typed>) -> Result<Checked, AllocError>
    ensures { IfOk result (λ t. term_of t ≡ plain.field (term_of whole.value.tree) name.now whole.value.shape) }
{
    let name = name.try_copy(alloc)?;
    let Typed { tree, shape } = Box::into_inner(whole);
    let tuple = Box::new(alloc, tree)?;
    Ok(Checked::Field(tuple, name, shape))
}
