//! A text with its tokens.

ghost use Rattle.std.specs.Prelude.{IfSome};
ghost use Rattle.ioa_walk.specs.Places.{IsSpanOf};

use ioa_tokens::LocatedToken;
use ioa_walk::{Part, Span, Walk, span_of};

/// A text with its tokens.
#[derive(Clone, Copy)]
pub(crate) struct Cut<'a> {
    pub text: &'a str,
    pub tokens: &'a [LocatedToken<'a>],
}

impl<'a> Cut<'a> {
    /// The place of a part.
    pub(crate) fn span(&self, part: Part) -> Option<Span>
        ensures { IfSome result (IsSpanOf self.now.text.now self.now.tokens.now part) }
    {
        span_of(self.text, self.tokens, part)
    }

    /// A walk over the tokens, from a position on.
    pub(crate) fn walk_from(&self, position: usize) -> Walk<'a> {
        Walk::from(self.tokens, position)
    }
}

/// Puts spaces in the place of what stands between two offsets.
pub(crate) fn blank(bytes: &mut Vec<u8>, span: Span) {
    for position in span.offset..span.end {
        if position < bytes.len() {
            bytes[position] = b' ';
        }
    }
}
