//! The types and the constants that a text declares.

ghost use Rattle.std.specs.Prelude.{◌≡◌, map};
ghost use Rattle.ioa_values.specs.Outcome.{Answers};
ghost use Rattle.ioa_source.specs.TextView.{declared_of, type_of};
ghost use Rattle.ioa_types.specs.Meanings.{AreTextTypes};
ghost use Rattle.ioa_types.specs.TextTypes as spec;

use crate::height::ShapeWithHeight;
use crate::types::Types;
use ioa_names::NameTable;
use ioa_refusals::Refusal;
use ioa_source::{Declared, TypeDeclaration, TypeForm};
use ioa_terms::{Shape, Word};
use std::alloc::Global;
use std::marker::Model;

/// The types that a text declares, and the constants of its enumerations, each with the shape of its enumeration. Its
/// type guarantees that each was declared behind those that it uses.
pub struct TextTypes {
    types: Types,
    constants: NameTable,
}

/// By hand, so that crates above do not prove again how the parts are let go (DECISIONS).
impl Drop for TextTypes {
    fn drop(self) {
        let TextTypes {
            types: _,
            constants: _,
        } = self;
    }
}

impl Model for TextTypes {
    ghost use Rattle.ioa_types.specs.TextTypes.{PlainTextTypes, text_types, text_types_code};

    ghost Value = { PlainTextTypes };

    ghost coded = { text_types_code };

    ghost view = { λ t. text_types t.types t.constants };

    ghost use Rattle.ioa_types.specs.Meanings.{AreTextTypes};

    ghost invariant = { λ t. AreTextTypes (text_types t.types t.constants) };
}

impl TextTypes {
    /// No types.
    pub fn new(alloc: Global) -> Self
        ensures { result ≡ spec.no_types }
    {
        TextTypes {
            types: Types::new(alloc),
            constants: NameTable::new(alloc),
        }
    }

    /// The types.
    pub fn types(&self) -> &Types
        ensures { result.now ≡ self.now.types }
    {
        &self.types
    }

    /// The constants of the enumerations, in the order of their declaration. Types and constants were declared one
    /// behind the other.
    pub fn constants(&self) -> &NameTable
        ensures value { result.now ≡ self.now.constants }
        ensures declared { AreTextTypes self.now }
    {
        &self.constants
    }

    /// The types with one more. `Twice` (21) if its name is that of a type before, if one of its constants is declared
    /// before, or if two of its fields have one name. `Unknown` (20) if a field's sort names no type before, `Limit`
    /// (31) if the type is too high.
    pub fn with(self, alloc: Global, declaration: &TypeDeclaration<()>) -> Result<Self, Refusal>
        ensures { Answers Refusal.Memory (λ t. t) result (spec.with_type self (type_of declaration.now)) }
    {
        match &declaration.form {
            TypeForm::Enumeration(constants) => {
                self.with_enumeration(alloc, &declaration.name, constants)
            }
            TypeForm::Tuple(fields) => self.with_tuple(alloc, &declaration.name, fields),
        }
    }

    /// The types with an enumeration of these constants.
    fn with_enumeration(
        self,
        alloc: Global,
        name: &Word,
        constants: &Vec<Word>,
    ) -> Result<Self, Refusal>
        ensures { Answers Refusal.Memory (λ t. t) result
            (spec.with_enumeration self name.now constants.now.items) }
    {
        let TextTypes {
            types,
            constants: before,
        } = self;
        let shape = ShapeWithHeight::constants(
            name.try_copy(alloc)?,
            before.len(),
            constants.len(),
        );
        let constants = with_constants(alloc, before, shape.shape(), constants)?;
        let types = types.with(name.try_copy(alloc)?, shape)?;
        Ok(TextTypes { types, constants })
    }

    /// The types with a tuple type of these fields.
    fn with_tuple(
        self,
        alloc: Global,
        name: &Word,
        fields: &Vec<Declared<()>>,
    ) -> Result<Self, Refusal>
        ensures { Answers Refusal.Memory (λ t. t) result
            (spec.with_tuple self name.now (map declared_of fields.now.items)) }
    {
        let TextTypes { types, constants } = self;
        let shape = types.tuple_shape(alloc, name, fields)?;
        let types = types.with(name.try_copy(alloc)?, shape)?;
        Ok(TextTypes { types, constants })
    }
}

/// The constants with those of an enumeration of a shape behind them.
fn with_constants(
    alloc: Global,
    before: NameTable,
    shape: &Shape,
    constants: &Vec<Word>,
) -> Result<NameTable, Refusal>
    ensures { Answers Refusal.Memory (λ t. t) result (spec.with_constants before shape.now constants.now.items) }
{
    let mut table = before;
    for constant in constants {
        let name = constant.try_copy(alloc)?;
        let shape = shape.try_copy(alloc)?;
        table = table.with(alloc, name, shape)?;
    }
    Ok(table)
}
