//! Walks over sorts and declared names.

use crate::asking::Ask;
use crate::halt::Halt;
use ioa_names::NameTable;
use ioa_refusals::Refusal;
use ioa_source::{Declared, Sort};
use ioa_terms::Word;
use ioa_tokens::Mark;
use ioa_walk::{Part, Walk, one_token};

/// Passes a sort. The walk ends at the first part of it that is refused as was told, and has no such part.
pub(crate) fn pass_sort(walk: &mut Walk<'_>, ask: &Ask<'_>, sort: &Sort) -> Result<Part, Halt> {
    let part = match sort {
        Sort::Bool => one_token(walk.mark(Mark::Bool)?),
        Sort::Int => one_token(walk.mark(Mark::Int)?),
        Sort::Nat => one_token(walk.mark(Mark::Nat)?),
        Sort::Seq(item) => {
            let first = walk.mark(Mark::Seq)?;
            let brackets = walk.opened(Mark::OpenSquare)?;
            let _item = pass_sort(walk, ask, item)?;
            behind(walk, first, brackets)
        }
        Sort::Set(member) => {
            let first = walk.mark(Mark::Set)?;
            let brackets = walk.opened(Mark::OpenSquare)?;
            let _member = pass_sort(walk, ask, member)?;
            behind(walk, first, brackets)
        }
        Sort::Map(key, value) => {
            let first = walk.mark(Mark::Map)?;
            let brackets = walk.opened(Mark::OpenSquare)?;
            let _key = pass_sort(walk, ask, key)?;
            let _value = pass_sort(walk, ask, value)?;
            behind(walk, first, brackets)
        }
        Sort::Named(name) => one_token(walk.word(name)?),
    };
    ask.sort_at(sort, part)?;
    Ok(part)
}

/// Goes on behind brackets. Returns the part from a token to the last of them.
fn behind(walk: &mut Walk<'_>, first: usize, brackets: Part) -> Part {
    walk.go_behind(brackets.last);
    Part {
        first,
        last: brackets.last,
    }
}

/// Names of one sort, one behind the other: where their sort stands.
#[derive(Clone, Copy)]
pub(crate) struct Group {
    /// The position of the colon behind the names.
    colon: usize,
    /// The position of the last token of the sort.
    last: usize,
}

impl Group {
    /// Before the first names.
    pub(crate) fn none() -> Self {
        Group { colon: 0, last: 0 }
    }
}

/// The names of one sort among which the next token stands. The sort is passed if they are others than those before.
fn group_at(
    walk: &Walk<'_>,
    ask: &Ask<'_>,
    before: Group,
    declared: &Declared<()>,
) -> Result<Group, Halt> {
    if walk.next() <= before.colon {
        return Ok(before);
    }
    let colon = walk.colon()?;
    let mut ahead = *walk;
    ahead.go_behind(colon);
    let last = pass_sort(&mut ahead, ask, &declared.sort)?.last;
    Ok(Group { colon, last })
}

/// Passes a declared name. Its sort may stand behind other names.
pub(crate) fn pass_named(
    walk: &mut Walk<'_>,
    ask: &Ask<'_>,
    group: &mut Group,
    declared: &Declared<()>,
) -> Result<Part, Halt> {
    let first = walk.word(&declared.name)?;
    let names = group_at(&*walk, ask, *group, declared)?;
    *group = names;
    if names.colon == walk.next() {
        walk.go_behind(names.last);
    }
    Ok(Part {
        first,
        last: names.last,
    })
}

/// Whether a word is one of the names of a table, of names outside, or of the text's constants.
fn is_declared(ask: &Ask<'_>, outer: &NameTable, table: &NameTable, name: &Word) -> bool {
    table.declares(name) || outer.declares(name) || ask.constants.declares(name)
}

/// Passes a declared name, which is to differ from those of a table and from those outside.
pub(crate) fn pass_declared(
    walk: &mut Walk<'_>,
    ask: &Ask<'_>,
    outer: &NameTable,
    table: &NameTable,
    group: &mut Group,
    declared: &Declared<()>,
) -> Result<Part, Halt> {
    let part = pass_named(walk, ask, group, declared)?;
    if is_declared(ask, outer, table, &declared.name) {
        ask.told_at(Refusal::Twice, one_token(part.first))?;
    }
    Ok(part)
}

/// Puts a declared name, which was passed, behind those of a table.
pub(crate) fn declare(
    ask: &Ask<'_>,
    table: &mut NameTable,
    declared: &Declared<()>,
) -> Result<(), Halt> {
    declare_as(ask, table, &declared.name, &declared.sort)
}

/// Puts a name of a sort, both of which were passed, behind those of a table.
pub(crate) fn declare_as(
    ask: &Ask<'_>,
    table: &mut NameTable,
    name: &Word,
    sort: &Sort,
) -> Result<(), Halt> {
    let name = name.try_copy(ask.alloc)?;
    let shape = ask.shape_of(sort)?;
    ask.declare(table, name, shape)
}

/// Puts declared names, which were passed, behind those of a table.
pub(crate) fn declare_all(
    ask: &Ask<'_>,
    table: &mut NameTable,
    all: &[Declared<()>],
) -> Result<(), Halt> {
    for declared in all {
        declare(ask, table, declared)?;
    }
    Ok(())
}
