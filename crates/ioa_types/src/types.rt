//! The types that a text declares.

ghost use Rattle.std.specs.Prelude.{◌≡◌, [], IfOk, map};
ghost use Rattle.ioa_values.specs.Outcome.{Answers};
ghost use Rattle.ioa_terms.specs.Sorted.{shape_named};
ghost use Rattle.ioa_terms.specs.SortView.{sort_of};
ghost use Rattle.ioa_source.specs.TextView.{declared_of};
ghost use Rattle.ioa_names.specs.NameTables.{with_name};
ghost use Rattle.ioa_types.specs.TypeTables as spec;

use crate::height::{FieldShapes, ShapeWithHeight};
use indexmap::IndexMap;
use ioa_names::Scope;
use ioa_refusals::Refusal;
use ioa_source::{Declared, Sort};
use ioa_terms::{Name, Word};
use std::alloc::{AllocError, Global};
use std::marker::Model;

/// The types that are declared so far, each with its shape. A contract sees the pairs of names and shapes.
pub struct Types {
    shapes: IndexMap<Word, ShapeWithHeight>,
}

/// By hand, so that crates above do not prove again how the parts are let go (DECISIONS).
impl Drop for Types {
    fn drop(self) {
        let Types { shapes: _ } = self;
    }
}

impl Model for Types {
    ghost use Rattle.std.specs.Coded.{coded×, coded_list};
    ghost use Rattle.ioa_operators.specs.ShapeCode.{shape_code};
    ghost use Rattle.ioa_terms.specs.contracts.name.Name as called;
    ghost use Rattle.ioa_terms.specs.Sorted.{NameShapes};
    ghost use Rattle.ioa_types.specs.TypeTables.{named_shapes};

    ghost Value = { NameShapes };

    ghost coded = { coded_list (coded× called.the_row.coded shape_code) };

    ghost view = { λ t. named_shapes t.shapes.entries };
}

impl Types {
    /// No types.
    pub fn new(alloc: Global) -> Self
        ensures { result ≡ [] }
    {
        Types {
            shapes: IndexMap::new(alloc),
        }
    }

    /// The shape of a sort. `Unknown` (20) if it names no type that is declared, `Limit` (31) if it is too high.
    pub fn shape_of(&self, alloc: Global, sort: &Sort) -> Result<ShapeWithHeight, Refusal>
        ensures { Answers Refusal.Memory (λ s. s) result (spec.shape_of_sort self.now (sort_of sort.now)) }
    {
        match sort {
            Sort::Bool => Ok(ShapeWithHeight::truths()),
            Sort::Int => Ok(ShapeWithHeight::integers()),
            Sort::Nat => Ok(ShapeWithHeight::naturals()),
            Sort::Seq(item) => {
                let item = self.shape_of(alloc, item)?;
                ShapeWithHeight::sequences(alloc, item)
            }
            Sort::Set(member) => {
                let member = self.shape_of(alloc, member)?;
                ShapeWithHeight::sets(alloc, member)
            }
            Sort::Map(key, value) => {
                let key = self.shape_of(alloc, key)?;
                let value = self.shape_of(alloc, value)?;
                ShapeWithHeight::maps(alloc, key, value)
            }
            Sort::Named(name) => self.shape_named(alloc, name),
        }
    }

    /// The shape of a type, by its name.
    #[tactic(auto, using(crate::proofs::NamedShapes::found_by_word))]
    fn shape_named(&self, alloc: Global, name: &Word) -> Result<ShapeWithHeight, Refusal>
        ensures { Answers Refusal.Memory (λ s. s) result
            (spec.known_type (shape_named (Name.Word name.now) self.now)) }
    {
        match self.shapes.get(name) {
            Some(shape) => Ok(shape.try_copy(alloc)?),
            None => Err(Refusal::Unknown),
        }
    }

    /// The tuple type of a name, with these fields. `Twice` (21) if two fields have one name; `Unknown` (20) and
    /// `Limit` (31) as `shape_of`.
    pub fn tuple_shape(
        &self,
        alloc: Global,
        name: &Word,
        fields: &Vec<Declared<()>>,
    ) -> Result<ShapeWithHeight, Refusal>
        ensures { Answers Refusal.Memory (λ s. s) result
            (spec.tuple_shape self.now name.now (map declared_of fields.now.items)) }
    {
        let names = field_names(alloc, fields)?;
        let shapes = self.field_shapes(alloc, fields)?;
        let name = name.try_copy(alloc)?;
        shapes.tuples(alloc, name, names)
    }

    /// The shapes of the sorts of fields.
    fn field_shapes(
        &self,
        alloc: Global,
        fields: &Vec<Declared<()>>,
    ) -> Result<FieldShapes, Refusal>
        ensures { Answers Refusal.Memory (λ s. s) result
            (spec.field_shapes self.now (map declared_of fields.now.items)) }
    {
        let mut shapes = FieldShapes::new(alloc);
        for field in fields {
            let shape = self.shape_of(alloc, &field.sort)?;
            shapes = shapes.with(shape)?;
        }
        Ok(shapes)
    }

    /// The types with one more. `Twice` (21) if its name is that of another.
    pub fn with(self, name: Word, shape: ShapeWithHeight) -> Result<Self, Refusal>
        ensures { Answers Refusal.Memory (λ t. t) result (with_name self name shape) }
    {
        let Types { mut shapes } = self;
        match shapes.insert(name, shape)? {
            None => Ok(Types { shapes }),
            Some(_) => Err(Refusal::Twice),
        }
    }
}

/// The names of fields, which differ.
fn field_names(alloc: Global, fields: &Vec<Declared<()>>) -> Result<Vec<Word>, Refusal>
    ensures { Answers Refusal.Memory (λ ns. ns.items) result (spec.field_names (map declared_of fields.now.items)) }
{
    let mut before = Scope::new(alloc);
    for field in fields {
        if !before.declare(field.name.try_copy(alloc)?)? {
            return Err(Refusal::Twice);
        }
    }
    Ok(names_of(alloc, fields)?)
}

/// The names of fields.
fn names_of(alloc: Global, fields: &Vec<Declared<()>>) -> Result<Vec<Word>, AllocError>
    ensures { IfOk result (λ ns. ns.items ≡ map (λ f. f.name) (map declared_of fields.now.items)) }
{
    let mut names = Vec::new(alloc);
    for field in fields {
        let name = field.name.try_copy(alloc)?;
        names.push(name)?;
    }
    Ok(names)
}
