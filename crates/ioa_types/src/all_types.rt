//! All types of a text, with the list of the names of its constants.

ghost use Rattle.std.specs.Prelude.{◌≡◌, IfOk};
ghost use Rattle.std.specs.Arc.{arc_value};
ghost use Rattle.ioa_names.specs.NameTables.{words};
ghost use Rattle.ioa_types.specs.Meanings.{AreTextTypes};

use crate::text_types::TextTypes;
use ioa_terms::{Names, Word};
use std::alloc::{AllocError, Global};
use std::marker::Model;
use std::sync::Arc;

/// All types that a text declares, with its constants, and the list of the constants' names, which whatever is checked
/// over them shares. A contract sees the types with the constants.
pub struct AllTypes {
    types: TextTypes,
    names: Arc<Names>,
}

/// By hand, so that crates above do not prove again how the parts are let go (DECISIONS).
impl Drop for AllTypes {
    fn drop(self) {
        let AllTypes { types: _, names: _ } = self;
    }
}

impl Model for AllTypes {
    ghost use Rattle.std.specs.Prelude.{◌≡◌};
    ghost use Rattle.std.specs.Arc.{arc_value};
    ghost use Rattle.ioa_names.specs.NameTables.{words};
    ghost use Rattle.ioa_types.specs.Meanings.{AreTextTypes};
    ghost use Rattle.ioa_types.specs.TextTypes.{PlainTextTypes, text_types_code};

    ghost Value = { PlainTextTypes };

    ghost coded = { text_types_code };

    ghost view = { λ t. t.types };

    ghost invariant = { λ t. (arc_value t.names ≡ words t.types.constants) × AreTextTypes t.types };
}

impl AllTypes {
    /// These types, if no more are declared.
    pub fn of(alloc: Global, types: TextTypes) -> Result<Self, AllocError>
        ensures { IfOk result (λ t. t ≡ types) }
    {
        let names = copied_names(alloc, types.constants().words())?;
        let names = Arc::new(alloc, names)?;
        Ok(AllTypes { types, names })
    }

    /// The types, with the constants of their enumerations. Types and constants were declared one behind the other.
    pub fn types(&self) -> &TextTypes
        ensures value { result.now ≡ self.now }
        ensures declared { AreTextTypes self.now }
    {
        &self.types
    }

    /// The names of the constants, in the order of their declaration.
    pub fn names(&self) -> &Arc<Names>
        ensures { arc_value result.now ≡ words self.now.constants }
    {
        &self.names
    }
}

/// Names with their own memory.
fn copied_names(alloc: Global, words: &[Word]) -> Result<Names, AllocError>
    ensures { IfOk result (λ ns. ns ≡ words.now) }
{
    let mut names = Vec::new(alloc);
    for word in words {
        let name = word.try_copy(alloc)?;
        names.push(name)?;
    }
    Ok(Names::new(names))
}
