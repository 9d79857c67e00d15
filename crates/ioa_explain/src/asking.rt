//! Which kinds of tokens could stand at a place: the reader is asked.

use crate::kinds::{KINDS, Kind};
use ioa_text_reader::{FrontFault, parse};
use ioa_tokens::{LocatedToken, Mark, Token};
use std::alloc::{AllocError, Global};

/// Between the beginning of a declaration and the place that is asked for there are at most so many tokens.
const MOST_TOKENS: usize = 5_000;

/// And at most so many bytes.
const MOST_BYTES: usize = 200_000;

/// The kinds that could stand at a place, in their order, or none if there is too much before the place to ask.
pub(crate) fn standing_at(
    alloc: Global,
    text: &str,
    tokens: &[LocatedToken<'_>],
    place: usize,
) -> Result<Vec<Kind>, AllocError> {
    let begin = beginning_before(tokens, place);
    match text.get(begin.offset..place) {
        Some(before) if begin.tokens <= MOST_TOKENS && before.len() <= MOST_BYTES => {
            standing_behind(alloc, begin.opening, before)
        }
        _ => Ok(Vec::new(alloc)),
    }
}

/// Where the declaration begins in which a place is, as far as the reader has to know.
#[derive(Drop)]
struct Beginning {
    /// What has to stand before it, so that a text can begin with it.
    opening: &'static str,
    /// The offset of its first token.
    offset: usize,
    /// How many tokens stand from there on up to the place.
    tokens: usize,
}

/// Where the declaration begins that is the last one before a place. A place before each declaration has the beginning
/// of the text.
fn beginning_before(tokens: &[LocatedToken<'_>], place: usize) -> Beginning {
    let mut begin = Beginning {
        opening: "",
        offset: 0,
        tokens: 0,
    };
    for token in tokens {
        if token.offset >= place {
            return begin;
        }
        match opening_of(&token.token) {
            Some(opening) => {
                begin = Beginning {
                    opening,
                    offset: token.offset,
                    tokens: 1,
                }
            }
            None => begin.tokens = begin.tokens.saturating_add(1),
        }
    }
    begin
}

/// What has to stand before a token with which a declaration begins; `None` for another token.
fn opening_of(token: &Token<'_>) -> Option<&'static str> {
    match token {
        Token::Mark(Mark::Type | Mark::Automaton | Mark::System) => Some(""),
        Token::Mark(Mark::Invariant) => Some("system "),
        _ => None,
    }
}

/// The kinds that could stand behind the beginning of a text.
fn standing_behind(alloc: Global, opening: &str, before: &str) -> Result<Vec<Kind>, AllocError> {
    let mut standing = Vec::new(alloc);
    for kind in KINDS.iter() {
        if stands_behind(alloc, opening, before, *kind)? {
            standing.push(*kind)?;
        }
    }
    Ok(standing)
}

/// Whether a token of a kind could stand behind the beginning of a text: the reader does not refuse it.
fn stands_behind(
    alloc: Global,
    opening: &str,
    before: &str,
    kind: Kind,
) -> Result<bool, AllocError> {
    let lexeme = lexeme_of(kind);
    let asked = format!(in alloc; "{opening}{before}\n{lexeme}")?;
    let place = asked.len().saturating_sub(lexeme.len());
    match parse(alloc, asked.as_str()) {
        Ok(_) => Ok(true),
        Err(FrontFault::Unexpected(offset)) => Ok(offset > place),
        Err(FrontFault::Memory) => Err(AllocError),
        Err(_) => Ok(false),
    }
}

/// A token of a kind.
fn lexeme_of(kind: Kind) -> &'static str {
    match kind {
        Kind::Mark(mark) => mark.as_str(),
        Kind::Word => "x",
        Kind::Number => "0",
        Kind::End => "",
    }
}
