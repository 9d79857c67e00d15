//! Tokens and their offsets.

ghost use Rattle.std.specs.Prelude.{◌≡◌, ◌<◌, All};

use crate::mark::{LeftOut, Mark};
use std::marker::Model;

/// A word that is neither reserved nor left out: a name. A contract sees its bytes, which are ASCII.
/// Source: profile.
#[derive(Debug, Drop)]
pub struct TokenWord<'a> {
    pub(crate) text: &'a [u8],
}

impl<'a> Model for TokenWord<'a> {
    ghost use Rattle.std.specs.Prelude.{ℕ, List, ◌<◌, All};

    ghost Value = { List ℕ };

    ghost view = { λ w. w.text.now };

    ghost invariant = { λ w. All (λ b. b < 128) w.text.now };
}

impl<'a> TokenWord<'a> {
    /// The bytes of the word, in the text that it was cut from.
    pub fn as_bytes(&self) -> &'a [u8]
        ensures value { result.now ≡ self.now }
        ensures ascii { All (λ b. b < 128) result.now }
    {
        self.text
    }
}

/// A token of the language. Source: profile.
#[derive(Debug, Drop)]
pub enum Token<'a> {
    /// A name.
    Word(TokenWord<'a>),
    /// A number from 0 to 9223372036854775807. Behind a `-` in a line it may be -9223372036854775808, whose amount it
    /// stands for.
    Number(i64),
    /// A sign or a reserved word.
    Mark(Mark),
    /// A word that the profile leaves out.
    LeftOut(LeftOut),
}

/// A token, and its offset in a text. Source: profile.
#[derive(Debug, Drop)]
pub struct LocatedToken<'a> {
    /// The token.
    pub token: Token<'a>,
    /// The offset of its first byte: how many bytes of the text come before it.
    pub offset: usize,
}
