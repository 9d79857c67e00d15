//! Parts of a text, by their tokens.

ghost use Rattle.std.specs.Prelude.{◌≡◌};

/// A part of a text, by the positions of its tokens.
#[derive(Clone, Copy, Debug, PartialEq, Eq)]
pub struct Part {
    /// The position of its first token.
    pub first: usize,
    /// The position of its last token.
    pub last: usize,
}

/// The part that is one token.
pub fn one_token(position: usize) -> Part
    ensures { result ≡ record { first = position; last = position } }
{
    Part {
        first: position,
        last: position,
    }
}

/// The part from the first token of one part to the last of another.
pub fn joined(first: Part, last: Part) -> Part
    ensures { result ≡ record { first = first.first; last = last.last } }
{
    Part {
        first: first.first,
        last: last.last,
    }
}
