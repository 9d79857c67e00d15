//! Shapes of values.

ghost use Rattle.std.specs.Prelude.{◌≡◌, ◌↔◌, ◌+◌, [], ◌&&◌, IfOk, IsTrue, nat_eq, nat_le, nat_lt};
ghost use Rattle.ioa_operators.specs.SameShapes.{same_shape, same_shapes};
ghost use lib.Pointwise.{pointwise};
ghost use Rattle.ioa_values.specs.Collections.{keys_of, values_of};
ghost use Rattle.ioa_values.specs.Data.{items_of};
ghost use Rattle.ioa_operators.specs.Shapes.{naturals, constants, shapes_of, has_shape, have_shapes, all_have};
ghost use Rattle.ioa_operators.specs.Shapes.{wide_shape, wide_shape_if, wide_shapes_if};
ghost use Rattle.ioa_operators.specs.ShapeKinds.{AdmitsKind};
ghost use Rattle.ioa_operators.specs.ShapeView.{shape_of};

use ioa_values::{FiniteMap, FiniteSet, ItemKind, Sequence, Value, ValueForm, Word};
use std::alloc::{AllocError, Global};
use std::marker::Model;
use std::sync::Arc;

/// What a sort means, with the enumerations and tuple types that it names written out (profile).
/// Parts are shared, so a shape takes no more memory than the text that it was made of. A contract sees
/// plain data.
#[cycle(shape)]
pub struct Shape {
    /// What the shape is.
    pub form: ShapeForm,
}

/// By hand, so that crates above do not prove again how the parts are let go (DECISIONS).
impl Drop for Shape {
    #[cycle(letting_go)]
    #[inline(always)]
    fn drop(self) {
        let Shape { form: _ } = self;
    }
}

/// What a shape is.
#[cycle(shape)]
#[derive(Drop)]
pub enum ShapeForm {
    /// `Bool`.
    Truths,
    /// `Int`.
    Integers,
    /// `Nat`.
    Naturals,
    /// An enumeration: its name, the index of its first constant, and how many there are.
    Constants(Word, usize, usize),
    /// A tuple type: its name, and the names and the shapes of its fields.
    Tuples(Word, Arc<Vec<Word>>, Arc<Vec<Shape>>),
    /// `Seq`.
    Sequences(Arc<Shape>),
    /// `Set`.
    Sets(Arc<Shape>),
    /// `Map`: keys and values.
    Maps(Arc<Shape>, Arc<Shape>),
}

/// How a display is written (profile).
#[derive(Clone, Copy, Debug, PartialEq, Eq)]
pub enum DisplayForm {
    /// `{..}`: a sequence, a set or an empty map.
    Braces,
    /// `[..]`: a tuple.
    Brackets,
}

impl Model for Shape {
    ghost use Rattle.ioa_operators.specs.Shapes.{PlainShape};
    ghost use Rattle.ioa_operators.specs.ShapeCode.{shape_code};

    ghost Value = { PlainShape };

    ghost coded = { shape_code };

    ghost use Rattle.ioa_operators.specs.ShapeHeight.{height};
    ghost use Rattle.ioa_operators.specs.ShapeKinds.{AdmitsKind};
    ghost use Rattle.ioa_operators.specs.ShapeView.{shape_of};

    ghost view = { λ s. shape_of s.form };

    ghost size = { height };

    ghost use Rattle.ioa_operators.specs.PartHeights.{deep-le-height};

    ghost size_decreases = { λ s h. deep-le-height s.form };
}

impl Shape {
    /// The shape of a form.
    pub fn of(form: ShapeForm) -> Self
        ensures { result ≡ shape_of form }
    {
        Shape { form }
    }

    /// The same shape once more. Its parts are shared, so that it takes memory for a name alone.
    pub fn try_copy(&self, alloc: Global) -> Result<Self, AllocError>
        ensures { IfOk result (λ s. s ≡ self.now) }
    {
        let form = match &self.form {
            ShapeForm::Truths => ShapeForm::Truths,
            ShapeForm::Integers => ShapeForm::Integers,
            ShapeForm::Naturals => ShapeForm::Naturals,
            ShapeForm::Constants(name, from, many) => {
                ShapeForm::Constants(name.try_copy(alloc)?, *from, *many)
            }
            ShapeForm::Tuples(name, names, shapes) => {
                let name = name.try_copy(alloc)?;
                let names = Arc::try_clone(names)?;
                let shapes = Arc::try_clone(shapes)?;
                ShapeForm::Tuples(name, names, shapes)
            }
            ShapeForm::Sequences(items) => ShapeForm::Sequences(Arc::try_clone(items)?),
            ShapeForm::Sets(members) => ShapeForm::Sets(Arc::try_clone(members)?),
            ShapeForm::Maps(keys, values) => {
                let keys = Arc::try_clone(keys)?;
                let values = Arc::try_clone(values)?;
                ShapeForm::Maps(keys, values)
            }
        };
        Ok(Shape { form })
    }

    /// Whether a value has the shape. Costs time in proportion to the value, but looks at no item of a sequence
    /// of numbers, truth values or constants that has the shape.
    #[inline(always)]
    #[tactic(auto, using(crate::proofs::WideShapes::narrow))]
    pub fn admits(&self, value: &Value) -> bool
        ensures { result ≡ has_shape self.now value.now }
    {
        match (&self.form, &value.form) {
            (ShapeForm::Naturals, ValueForm::Number(n)) => 0 <= *n,
            (ShapeForm::Integers, ValueForm::Number(_)) => true,
            _ => self.fits(value, false),
        }
    }

    /// Whether a value has the shape if signs do not matter: a negative number passes for a natural too,
    /// at any depth. Costs what `admits` costs.
    #[inline(always)]
    pub fn admits_negative(&self, value: &Value) -> bool
        ensures { result ≡ has_shape (wide_shape self.now) value.now }
    {
        match (&self.form, &value.form) {
            (ShapeForm::Naturals, ValueForm::Number(_)) => true,
            (ShapeForm::Integers, ValueForm::Number(_)) => true,
            _ => self.fits(value, true),
        }
    }

    /// Whether a value has the shape; if `negative` is true, a negative number passes for a natural too.
    #[cycle(admitting)]
    #[tactic(auto, using(crate::proofs::Falls::most_shapes, crate::proofs::ShapeLists::entries_have_both))]
    fn fits(&self, value: &Value, negative: bool) -> bool
        ensures { result ≡ has_shape (wide_shape_if negative self.now) value.now }
    {
        match &self.form {
            ShapeForm::Truths => matches!(&value.form, ValueForm::Truth(_)),
            ShapeForm::Integers => matches!(&value.form, ValueForm::Number(_)),
            ShapeForm::Naturals => is_natural(value, negative),
            ShapeForm::Constants(_, from, many) => is_constant(value, *from, *many),
            ShapeForm::Tuples(_, _, shapes) => match &value.form {
                ValueForm::Tuple(parts) => each_fits(shapes, parts, negative),
                _ => false,
            },
            ShapeForm::Sequences(items) => match &value.form {
                ValueForm::Sequence(values) => all_items_fit(items, values, negative),
                _ => false,
            },
            ShapeForm::Sets(members) => match &value.form {
                ValueForm::Set(values) => all_members_fit(members, values, negative),
                _ => false,
            },
            ShapeForm::Maps(keys, values) => match &value.form {
                ValueForm::Map(entries) => {
                    all_keys_fit(keys, entries, negative)
                        && all_values_fit(values, entries, negative)
                }
                _ => false,
            },
        }
    }

    /// Whether all values of a kind have the shape, as far as the kind alone tells; if `negative` is true, a
    /// negative number passes for a natural too. Costs the same for each shape.
    fn fits_kind(&self, kind: ItemKind, negative: bool) -> bool
        ensures { IsTrue result → AdmitsKind (wide_shape_if negative self.now) kind }
    {
        match (&self.form, kind) {
            (ShapeForm::Truths, ItemKind::Truths) => true,
            (ShapeForm::Integers, ItemKind::Naturals) => true,
            (ShapeForm::Integers, ItemKind::Integers) => true,
            (ShapeForm::Naturals, ItemKind::Naturals) => true,
            (ShapeForm::Naturals, ItemKind::Integers) => negative,
            (ShapeForm::Constants(_, from, many), ItemKind::Constants(least, greatest)) => {
                lies_among(usize::from(least), *from, *many)
                    && lies_among(usize::from(greatest), *from, *many)
            }
            _ => false,
        }
    }

    /// Whether two shapes are the same. Costs time in proportion to the shorter one.
    #[tactic(auto, using(crate::specs::ShapeEquality::same_shape_is))]
    pub fn equals(&self, other: &Self) -> bool
        ensures equality { IsTrue result ↔ (self.now ≡ other.now) }
    {
        self.is_same(other)
    }

    /// Whether two shapes are the same, part by part.
    #[cycle(comparing)]
    #[tactic(auto, using(crate::proofs::Falls::most_shapes))]
    fn is_same(&self, other: &Self) -> bool
        ensures { result ≡ same_shape self.now other.now }
    {
        match (&self.form, &other.form) {
            (ShapeForm::Truths, ShapeForm::Truths) => true,
            (ShapeForm::Integers, ShapeForm::Integers) => true,
            (ShapeForm::Naturals, ShapeForm::Naturals) => true,
            (ShapeForm::Constants(w, k, m), ShapeForm::Constants(v, l, n)) => {
                w == v && (k == l && m == n)
            }
            (ShapeForm::Tuples(w, names, shapes), ShapeForm::Tuples(v, words, others)) => {
                w == v && (are_same_words(names, words) && are_same(shapes, others))
            }
            (ShapeForm::Sequences(items), ShapeForm::Sequences(others)) => items.is_same(others),
            (ShapeForm::Sets(members), ShapeForm::Sets(others)) => members.is_same(others),
            (ShapeForm::Maps(keys, values), ShapeForm::Maps(k, v)) => {
                keys.is_same(k) && values.is_same(v)
            }
            _ => false,
        }
    }
}

impl PartialEq for Shape {
    ghost use Rattle.ioa_operators.specs.SameShapes.{same_shape};
    ghost use Rattle.ioa_operators.specs.ShapeEquality.{same_shape_partial};

    ghost eq = { same_shape };

    ghost laws = { same_shape_partial };

    fn eq(&self, other: &Self) -> bool {
        self.is_same(other)
    }
}

/// Whether shapes are the same, one by one, and as many.
#[cycle(comparing)]
fn are_same(shapes: &Vec<Shape>, others: &Vec<Shape>) -> bool
    ensures { result ≡ same_shapes (shapes_of shapes.now.items) (shapes_of others.now.items) }
{
    for position in 0..shapes.len().min(others.len()) {
        if !shapes[position].is_same(&others[position]) {
            return false;
        }
    }
    shapes.len() == others.len()
}

/// Whether words are the same, one by one, and as many.
fn are_same_words(words: &Vec<Word>, others: &Vec<Word>) -> bool
    ensures { result ≡ pointwise (pointwise nat_eq) words.now.items others.now.items }
{
    words == others
}

/// Whether a value is a natural number; if `negative` is true, a negative number passes too.
fn is_natural(value: &Value, negative: bool) -> bool
    ensures { result ≡ has_shape (wide_shape_if negative naturals) value.now }
{
    match &value.form {
        ValueForm::Number(n) => negative || 0 <= *n,
        _ => false,
    }
}

/// Whether a value is one of the constants from an index on.
fn is_constant(value: &Value, from: usize, many: usize) -> bool
    ensures { result ≡ has_shape (constants [] from many) value.now }
{
    match &value.form {
        ValueForm::Constant(index) => lies_among(*index, from, many),
        _ => false,
    }
}

/// Whether an index is one of the indices from another on.
fn lies_among(index: usize, from: usize, many: usize) -> bool
    ensures { result ≡ (nat_le from index && nat_lt index (from + many)) }
{
    from <= index && index - from < many
}

/// Whether values have shapes, one by one.
#[tactic(auto, using(crate::proofs::WideShapes::all_narrow))]
pub(crate) fn each_admits(shapes: &Vec<Shape>, values: &Vec<Value>) -> bool
    ensures { result ≡ have_shapes (shapes_of shapes.now.items) (items_of values.now.items) }
{
    each_fits(shapes, values, false)
}

/// Whether values have shapes, one by one; if `negative` is true, negative numbers pass for naturals too.
#[cycle(admitting)]
fn each_fits(shapes: &Vec<Shape>, values: &Vec<Value>, negative: bool) -> bool
    ensures { result ≡ have_shapes (wide_shapes_if negative (shapes_of shapes.now.items))
        (items_of values.now.items) }
{
    for position in 0..shapes.len().min(values.len()) {
        if !shapes[position].fits(&values[position], negative) {
            return false;
        }
    }
    shapes.len() == values.len()
}

/// Whether the items of a sequence all have a shape; if `negative` is true, negative numbers pass for
/// naturals too. Looks at each item only if what the sequence knows of all its items does not tell.
#[cycle(admitting)]
fn all_items_fit(shape: &Shape, items: &Sequence, negative: bool) -> bool
    ensures { result ≡ all_have (wide_shape_if negative shape.now) (items_of items.now) }
{
    if shape.fits_kind(items.kind(), negative) {
        return true;
    }
    for position in 0..items.len() {
        if !shape.fits(items.at(position), negative) {
            return false;
        }
    }
    true
}

/// Whether the members of a set all have a shape; if `negative` is true, negative numbers pass for naturals too. Looks
/// at each member only if what the set knows of all its members does not tell.
#[cycle(admitting)]
fn all_members_fit(shape: &Shape, members: &FiniteSet, negative: bool) -> bool
    ensures { result ≡ all_have (wide_shape_if negative shape.now) (items_of members.now) }
{
    if shape.fits_kind(members.kind(), negative) {
        return true;
    }
    for position in 0..members.len() {
        if !shape.fits(members.at(position), negative) {
            return false;
        }
    }
    true
}

/// Whether the keys of a map all have a shape; if `negative` is true, negative numbers pass for naturals too. Looks at
/// each key only if what the map knows of all its keys does not tell.
#[cycle(admitting)]
fn all_keys_fit(shape: &Shape, entries: &FiniteMap, negative: bool) -> bool
    ensures { result ≡ all_have (wide_shape_if negative shape.now) (items_of (keys_of entries.now)) }
{
    if shape.fits_kind(entries.key_kind(), negative) {
        return true;
    }
    for position in 0..entries.len() {
        if !shape.fits(entries.at(position).0, negative) {
            return false;
        }
    }
    true
}

/// The same of its values.
#[cycle(admitting)]
fn all_values_fit(shape: &Shape, entries: &FiniteMap, negative: bool) -> bool
    ensures { result ≡ all_have (wide_shape_if negative shape.now) (items_of (values_of entries.now)) }
{
    if shape.fits_kind(entries.value_kind(), negative) {
        return true;
    }
    for position in 0..entries.len() {
        if !shape.fits(entries.at(position).1, negative) {
            return false;
        }
    }
    true
}
