//! Shapes of terms: those with integers for naturals, and whether two are of one sort.

ghost use Rattle.std.specs.Prelude.{◌≡◌, IfOk};
ghost use Rattle.ioa_operators.specs.Shapes.{sequences, sets, maps};
ghost use Rattle.ioa_terms.specs.Sorted as sorted;
ghost use Rattle.ioa_sort_rules.specs.SameSorts as same;

use ioa_operators::{Shape, ShapeForm};
use std::alloc::{AllocError, Global};
use std::sync::Arc;

/// The shape as it is in a term, where naturals count as integers, also inside sequences, sets and maps. A tuple type
/// keeps its fields, which are shared. Costs time and memory in proportion to the shape without its tuple types.
#[cycle(in_terms)]
pub fn shape_in_terms(alloc: Global, shape: &Shape) -> Result<Shape, AllocError>
    ensures { IfOk result (λ s. s ≡ sorted.shape_in_terms shape.now) }
{
    match &shape.form {
        ShapeForm::Truths => Ok(Shape::of(ShapeForm::Truths)),
        ShapeForm::Integers => Ok(Shape::of(ShapeForm::Integers)),
        ShapeForm::Naturals => Ok(Shape::of(ShapeForm::Integers)),
        ShapeForm::Constants(_, _, _) => shape.try_copy(alloc),
        ShapeForm::Tuples(_, _, _) => shape.try_copy(alloc),
        ShapeForm::Sequences(item) => sequence_of(alloc, shape_in_terms(alloc, item)?),
        ShapeForm::Sets(member) => set_of(alloc, shape_in_terms(alloc, member)?),
        ShapeForm::Maps(key, value) => {
            let key = shape_in_terms(alloc, key)?;
            let value = shape_in_terms(alloc, value)?;
            map_of(alloc, key, value)
        }
    }
}

/// Whether two shapes are of one sort. Tuple types are compared by name, so that the cost does not grow with their
/// fields.
#[cycle(comparing_sorts)]
pub fn is_same_sort(shape: &Shape, other: &Shape) -> bool
    ensures { result ≡ same.same_sort shape.now other.now }
{
    match (&shape.form, &other.form) {
        (ShapeForm::Truths, ShapeForm::Truths) => true,
        (ShapeForm::Integers, ShapeForm::Integers) => true,
        (ShapeForm::Naturals, ShapeForm::Naturals) => true,
        (ShapeForm::Constants(w, k, m), ShapeForm::Constants(v, l, n)) => {
            w == v && (k == l && m == n)
        }
        (ShapeForm::Tuples(w, _, _), ShapeForm::Tuples(v, _, _)) => w == v,
        (ShapeForm::Sequences(item), ShapeForm::Sequences(other)) => is_same_sort(item, other),
        (ShapeForm::Sets(member), ShapeForm::Sets(other)) => is_same_sort(member, other),
        (ShapeForm::Maps(key, value), ShapeForm::Maps(k, v)) => {
            is_same_sort(key, k) && is_same_sort(value, v)
        }
        _ => false,
    }
}

/// The sequences of items of a shape.
pub(crate) fn sequence_of(alloc: Global, item: Shape) -> Result<Shape, AllocError>
    ensures { IfOk result (λ s. s ≡ sequences item) }
{
    Ok(Shape::of(ShapeForm::Sequences(Arc::new(alloc, item)?)))
}

/// The sets of members of a shape.
pub(crate) fn set_of(alloc: Global, member: Shape) -> Result<Shape, AllocError>
    ensures { IfOk result (λ s. s ≡ sets member) }
{
    Ok(Shape::of(ShapeForm::Sets(Arc::new(alloc, member)?)))
}

/// The maps of keys and values of two shapes.
pub fn map_of(alloc: Global, key: Shape, value: Shape) -> Result<Shape, AllocError>
    ensures { IfOk result (λ s. s ≡ maps key value) }
{
    let key = Arc::new(alloc, key)?;
    let value = Arc::new(alloc, value)?;
    Ok(Shape::of(ShapeForm::Maps(key, value)))
}
