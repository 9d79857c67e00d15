//! Shapes with their heights.

ghost use Rattle.std.specs.Prelude.{◌≡◌, ◌++◌, [], ◌∷◌, IfOk};
ghost use Rattle.ioa_values.specs.Outcome.{Answers};
ghost use Rattle.ioa_operators.specs.Shapes.{truths, integers, naturals, constants, tuples, shapes_of};
ghost use Rattle.ioa_operators.specs.Shapes.{sequences, sets, maps};
ghost use Rattle.ioa_types.specs.TypeTables as spec;

use ioa_operators::{Shape, ShapeForm};
use ioa_refusals::Refusal;
use ioa_values::Word;
use std::alloc::{AllocError, Global};
use std::marker::Model;
use std::sync::Arc;

/// How high a shape may be, with tuple types written out; that of `Int` is 1 high (profile).
pub const SHAPE_LIMIT: usize = 64;

/// A shape that is not too high, with its height beside it: it is counted once for each declared type, and not once for
/// each use. A contract sees the shape.
#[derive(Drop)]
pub struct ShapeWithHeight {
    shape: Shape,
    height: usize,
}

impl Model for ShapeWithHeight {
    ghost use Rattle.ioa_operators.specs.Shapes.{PlainShape};
    ghost use Rattle.ioa_operators.specs.ShapeCode.{shape_code};
    ghost use Rattle.ioa_types.specs.Heights.{IsHeight};

    ghost Value = { PlainShape };

    ghost coded = { shape_code };

    ghost view = { λ s. s.shape };

    ghost invariant = { λ s. IsHeight s.height s.shape };
}

impl ShapeWithHeight {
    /// The shape.
    pub fn shape(&self) -> &Shape
        ensures { result.now ≡ self.now }
    {
        &self.shape
    }

    /// The shape, without its height.
    pub fn into_shape(self) -> Shape
        ensures { result ≡ self }
    {
        self.shape
    }

    /// The same shape once more.
    pub(crate) fn try_copy(&self, alloc: Global) -> Result<Self, AllocError>
        ensures { IfOk result (λ s. s ≡ self.now) }
    {
        let shape = self.shape.try_copy(alloc)?;
        let height = self.height;
        Ok(ShapeWithHeight { shape, height })
    }

    /// The truth values.
    pub(crate) fn truths() -> Self
        ensures { result ≡ truths }
    {
        ShapeWithHeight {
            shape: Shape::of(ShapeForm::Truths),
            height: 0,
        }
    }

    /// The whole numbers.
    pub(crate) fn integers() -> Self
        ensures { result ≡ integers }
    {
        ShapeWithHeight {
            shape: Shape::of(ShapeForm::Integers),
            height: 0,
        }
    }

    /// The whole numbers from 0 on.
    pub(crate) fn naturals() -> Self
        ensures { result ≡ naturals }
    {
        ShapeWithHeight {
            shape: Shape::of(ShapeForm::Naturals),
            height: 0,
        }
    }

    /// The constants of an enumeration, by the index of the first and their number.
    pub(crate) fn constants(name: Word, from: usize, many: usize) -> Self
        ensures { result ≡ constants name from many }
    {
        ShapeWithHeight {
            shape: Shape::of(ShapeForm::Constants(name, from, many)),
            height: 0,
        }
    }

    /// The sequences of items of a shape.
    #[tactic(auto, unfolding(crate::specs::TypeTables::limited))]
    pub(crate) fn sequences(alloc: Global, item: Self) -> Result<Self, Refusal>
        ensures { Answers Refusal.Memory (λ s. s) result (spec.limited (sequences item)) }
    {
        let height = item.height + 1;
        if height < SHAPE_LIMIT {
            let item = Arc::new(alloc, item.shape)?;
            let shape = Shape::of(ShapeForm::Sequences(item));
            Ok(ShapeWithHeight { shape, height })
        } else {
            Err(Refusal::Limit)
        }
    }

    /// The sets of members of a shape.
    #[tactic(auto, unfolding(crate::specs::TypeTables::limited))]
    pub(crate) fn sets(alloc: Global, member: Self) -> Result<Self, Refusal>
        ensures { Answers Refusal.Memory (λ s. s) result (spec.limited (sets member)) }
    {
        let height = member.height + 1;
        if height < SHAPE_LIMIT {
            let member = Arc::new(alloc, member.shape)?;
            let shape = Shape::of(ShapeForm::Sets(member));
            Ok(ShapeWithHeight { shape, height })
        } else {
            Err(Refusal::Limit)
        }
    }

    /// The maps of keys and values of two shapes.
    #[tactic(auto, unfolding(crate::specs::TypeTables::limited))]
    pub(crate) fn maps(alloc: Global, key: Self, value: Self) -> Result<Self, Refusal>
        ensures { Answers Refusal.Memory (λ s. s) result (spec.limited (maps key value)) }
    {
        let height = key.height.max(value.height) + 1;
        if height < SHAPE_LIMIT {
            let key = Arc::new(alloc, key.shape)?;
            let value = Arc::new(alloc, value.shape)?;
            let shape = Shape::of(ShapeForm::Maps(key, value));
            Ok(ShapeWithHeight { shape, height })
        } else {
            Err(Refusal::Limit)
        }
    }
}

/// The shapes of the fields of a tuple type, with the height of the highest. A contract sees the shapes.
#[derive(Drop)]
pub(crate) struct FieldShapes {
    shapes: Vec<Shape>,
    highest: usize,
}

impl Model for FieldShapes {
    ghost use Rattle.std.specs.Prelude.{List};
    ghost use Rattle.std.specs.Coded.{coded_list};
    ghost use Rattle.ioa_operators.specs.Shapes.{PlainShape};
    ghost use Rattle.ioa_operators.specs.ShapeCode.{shape_code};
    ghost use Rattle.ioa_types.specs.Heights.{IsHighest};

    ghost Value = { List PlainShape };

    ghost coded = { coded_list shape_code };

    ghost view = { λ s. s.shapes.items };

    ghost invariant = { λ s. IsHighest s.highest s.shapes.items };
}

impl FieldShapes {
    /// No shapes.
    pub(crate) fn new(alloc: Global) -> Self
        ensures { result ≡ [] }
    {
        FieldShapes {
            shapes: Vec::new(alloc),
            highest: 0,
        }
    }

    /// The shapes with one more.
    pub(crate) fn with(self, shape: ShapeWithHeight) -> Result<Self, AllocError>
        ensures { IfOk result (λ s. s ≡ self ++ shape ∷ []) }
    {
        let FieldShapes {
            mut shapes,
            highest,
        } = self;
        shapes.push(shape.shape)?;
        let highest = highest.max(shape.height);
        Ok(FieldShapes { shapes, highest })
    }

    /// The tuples of a type, with fields of these names and shapes.
    #[tactic(auto, unfolding(crate::specs::TypeTables::limited))]
    pub(crate) fn tuples(
        self,
        alloc: Global,
        name: Word,
        names: Vec<Word>,
    ) -> Result<ShapeWithHeight, Refusal>
        ensures { Answers Refusal.Memory (λ s. s) result
            (spec.limited (tuples name names.items (shapes_of self))) }
    {
        let height = self.highest + 1;
        if height < SHAPE_LIMIT {
            let names = Arc::new(alloc, names)?;
            let fields = Arc::new(alloc, self.shapes)?;
            let shape = Shape::of(ShapeForm::Tuples(name, names, fields));
            Ok(ShapeWithHeight { shape, height })
        } else {
            Err(Refusal::Limit)
        }
    }
}
