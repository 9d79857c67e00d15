//! What could stand at a place, in words.

use crate::asking::standing_at;
use crate::kinds::{GROUPS, Group, KINDS, Kind};
use ioa_tokens::LocatedToken;
use std::alloc::{AllocError, Global};

/// A line of what could stand at a place, without its indentation; empty if that is not known.
pub(crate) fn candidates(
    alloc: Global,
    text: &str,
    tokens: &[LocatedToken<'_>],
    place: usize,
) -> Result<String, AllocError> {
    let standing = standing_at(alloc, text, tokens, place)?;
    let mut line = String::new(alloc);
    for group in GROUPS.iter() {
        if is_told(*group, &standing) {
            push_item(&mut line, group.name())?;
        }
    }
    for kind in standing.iter() {
        if !is_in_group(*kind, &standing) {
            push_kind(&mut line, *kind)?;
        }
    }
    Ok(line)
}

/// Adds an item to a line, behind what the line begins with, or behind a comma.
fn push_item(line: &mut String, item: &str) -> Result<(), AllocError> {
    if line.is_empty() {
        line.push_str("here could stand: ")?;
    } else {
        line.push_str(", ")?;
    }
    line.push_str(item)
}

/// Adds a kind to a line.
fn push_kind(line: &mut String, kind: Kind) -> Result<(), AllocError> {
    match kind {
        Kind::Mark(mark) => {
            push_item(line, "`")?;
            line.push_str(mark.as_str())?;
            line.push_str("`")
        }
        Kind::Word => push_item(line, "a name"),
        Kind::Number => push_item(line, "a number"),
        Kind::End => push_item(line, "the end of the text"),
    }
}

/// Whether all kinds of a group could stand.
fn is_whole(group: Group, standing: &[Kind]) -> bool {
    KINDS
        .iter()
        .all(|kind| !group.has(*kind) || standing.contains(kind))
}

/// Whether a group is a part of another.
fn is_part(group: Group, other: Group) -> bool {
    group != other
        && KINDS
            .iter()
            .all(|kind| !group.has(*kind) || other.has(*kind))
}

/// Whether a group is told: all of its kinds could stand, and it is no part of another that is told.
fn is_told(group: Group, standing: &[Kind]) -> bool {
    is_whole(group, standing)
        && !GROUPS.iter().any(|other| is_part(group, *other) && is_whole(*other, standing))
}

/// Whether a kind is in a group that is told.
fn is_in_group(kind: Kind, standing: &[Kind]) -> bool {
    GROUPS
        .iter()
        .any(|group| group.has(kind) && is_whole(*group, standing))
}
