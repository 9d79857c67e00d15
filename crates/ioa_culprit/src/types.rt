//! The walk over a type.

use crate::asking::Ask;
use crate::declared::{Group, pass_named};
use crate::halt::{Halt, bare};
use crate::index::NameIndex;
use crate::unknown::is_type;
use ioa_refusals::Refusal;
use ioa_source::{Declared, TypeDeclaration, TypeForm};
use ioa_terms::Word;
use ioa_walk::{Part, Walk, one_token};

/// The walk over a type, in a text of the types before it. It ends at the whole type if no smaller part is the culprit.
pub(crate) fn seek_type(
    walk: &mut Walk<'_>,
    ask: &Ask<'_>,
    declaration: &TypeDeclaration<()>,
) -> Result<(), Halt> {
    let name = walk.word(&declaration.name)?;
    if is_type(ask.alloc, ask.types, &declaration.name)? {
        ask.told_at(Refusal::Twice, one_token(name))?;
    }
    let last = match &declaration.form {
        TypeForm::Enumeration(constants) => seek_constants(walk, ask, constants)?,
        TypeForm::Tuple(fields) => seek_fields(walk, ask, fields)?,
    };
    Err(bare(ask.alloc, Part { first: name, last }))
}

/// Passes the constants of an enumeration. Returns the position of the last one.
fn seek_constants(walk: &mut Walk<'_>, ask: &Ask<'_>, constants: &[Word]) -> Result<usize, Halt> {
    let mut before = NameIndex::new(ask.alloc);
    pass_constants(walk, ask, &mut before, constants)
}

/// Passes constants, and adds them to names. Returns the position of the last one.
fn pass_constants(
    walk: &mut Walk<'_>,
    ask: &Ask<'_>,
    before: &mut NameIndex,
    constants: &[Word],
) -> Result<usize, Halt> {
    let mut last = walk.next();
    for (position, constant) in constants.iter().enumerate() {
        last = walk.word(constant)?;
        let fresh = before.add(ask.alloc, constant, position)?;
        if ask.constants.declares(constant) || !fresh {
            ask.told_at(Refusal::Twice, one_token(last))?;
        }
    }
    Ok(last)
}

/// Passes the fields of a tuple type. Returns the position of the last token.
fn seek_fields(walk: &mut Walk<'_>, ask: &Ask<'_>, fields: &[Declared<()>]) -> Result<usize, Halt> {
    let mut before = NameIndex::new(ask.alloc);
    pass_fields(walk, ask, &mut before, fields)
}

/// Passes fields, which are to differ, and adds them to names. Returns the position of the last token.
fn pass_fields(
    walk: &mut Walk<'_>,
    ask: &Ask<'_>,
    before: &mut NameIndex,
    fields: &[Declared<()>],
) -> Result<usize, Halt> {
    let mut last = walk.next();
    let mut group = Group::none();
    for (position, field) in fields.iter().enumerate() {
        let part = pass_named(walk, ask, &mut group, field)?;
        last = part.last;
        if !before.add(ask.alloc, &field.name, position)? {
            ask.told_at(Refusal::Twice, one_token(part.first))?;
        }
    }
    Ok(last)
}
