//! Places in a text.

ghost use Rattle.std.specs.Prelude.{◌≡◌, ◌<◌, IfSome, drop};
ghost use Rattle.std.specs.List.{prefix_len};
ghost use Rattle.std.specs.Char.{is_ascii_digit};
ghost use Rattle.ioa_walk.specs.Leaves as leaves;
ghost use Rattle.ioa_walk.specs.Places as spec;

use crate::part::Part;
use ioa_tokens::{LocatedToken, Mark, Token};

/// A part of a text, from the first byte of its first token to the end of its last one.
#[derive(Clone, Copy, Debug, PartialEq, Eq)]
pub struct Span {
    /// The offset of the first token: how many bytes of the text come before it.
    pub offset: usize,
    /// The offset behind the last token.
    pub end: usize,
}

/// How many digits a text has from an offset on.
fn digits_from(bytes: &[u8], offset: usize) -> usize
    ensures { result ≡ prefix_len is_ascii_digit (drop offset bytes.now) }
{
    match bytes.get(offset..) {
        None => 0,
        Some(rest) => digits_at(rest),
    }
}

/// How many digits a text begins with.
fn digits_at(text: &[u8]) -> usize
    ensures { result ≡ prefix_len is_ascii_digit text.now }
{
    text.iter().take_while(|c| c.is_ascii_digit()).count()
}

/// How many bytes a token has, at an offset of a text. A text that is read has no left-out words.
fn size_of(bytes: &[u8], located: &LocatedToken<'_>) -> usize
    ensures { result ≡ spec.size_at bytes.now located.now.offset located.now.token }
{
    match &located.token {
        Token::Word(word) => word.as_bytes().len(),
        Token::Number(_) => digits_from(bytes, located.offset),
        Token::Mark(mark) => mark.as_str().len(),
        Token::LeftOut(_) => 0,
    }
}

/// The offset behind a token.
fn end_of(bytes: &[u8], located: &LocatedToken<'_>) -> Option<usize>
    ensures { IfSome result (λ end. end ≡ spec.end_of bytes.now located.now) }
{
    located.offset.checked_add(size_of(bytes, located))
}

/// The place of a part, if these tokens of a text have it.
pub fn span_of(text: &str, tokens: &[LocatedToken<'_>], part: Part) -> Option<Span>
    ensures { IfSome result (spec.IsSpanOf text.now tokens.now part) }
{
    let first = tokens.get(part.first)?;
    let last = tokens.get(part.last)?;
    let end = end_of(text.as_bytes(), last)?;
    filled(first.offset, end)
}

/// The span between two offsets, if it is not empty.
fn filled(offset: usize, end: usize) -> Option<Span>
    ensures { IfSome result (λ s. (s.offset ≡ offset) × ((s.end ≡ end) × (s.offset < s.end))) }
{
    if offset < end {
        Some(Span { offset, end })
    } else {
        None
    }
}

/// Whether a token is a sign or a reserved word.
pub fn is_mark(located: &LocatedToken<'_>, wanted: Mark) -> bool
    ensures { result ≡ leaves.is_mark wanted located.now.token }
{
    match &located.token {
        Token::Mark(mark) => *mark == wanted,
        Token::Word(_) | Token::Number(_) | Token::LeftOut(_) => false,
    }
}
