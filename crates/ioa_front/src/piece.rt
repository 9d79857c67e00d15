//! The pieces that a text is printed from.

ghost use Rattle.std.specs.Prelude.{◌≡◌, ◌∷◌, [], map};
ghost use Rattle.ioa_tokens.specs.declared.token.Token.TheVariants as token;
ghost use Rattle.ioa_front.specs.Pieces.{piece_token, Puts};
ghost use Rattle.ioa_front.specs.Listing.{before};

use ioa_tokens::Mark;
use ioa_values::Word;
use std::alloc::{AllocError, Global};
use std::marker::Model;

/// A token that is to be written.
#[derive(Clone, Copy)]
pub(crate) enum Piece<'a> {
    /// A name, by its text.
    Word(&'a str),
    /// A number.
    Number(i64),
    /// A sign or a reserved word.
    Mark(Mark),
}

/// The pieces of a text in order. A contract sees their tokens.
#[derive(Drop)]
pub(crate) struct Pieces<'a> {
    list: Vec<Piece<'a>>,
}

impl<'a> Model for Pieces<'a> {
    ghost use Rattle.std.specs.Prelude.{List, map};
    ghost use Rattle.ioa_tokens.specs.declared.token.Token.{Token};
    ghost use Rattle.ioa_front.specs.Pieces.{piece_token};

    ghost Value = { List Token };

    ghost view = { λ p. map piece_token p.list.items };
}

impl<'a> Pieces<'a> {
    /// No pieces yet.
    pub(crate) fn new(alloc: Global) -> Self
        ensures { result ≡ [] }
    {
        Pieces {
            list: Vec::new(alloc),
        }
    }

    /// The pieces.
    pub(crate) fn as_slice(&self) -> &[Piece<'a>]
        ensures { map piece_token result.now ≡ self.now }
    {
        self.list.as_slice()
    }

    /// Adds a name.
    pub(crate) fn put_word(&mut self, word: &'a Word) -> Result<(), AllocError>
        ensures { Puts (token.Word word.now ∷ []) result self.old self.new }
    {
        self.put_text(word.as_str())
    }

    /// Adds a name by its text.
    pub(crate) fn put_text(&mut self, text: &'a str) -> Result<(), AllocError>
        ensures { Puts (token.Word text.now ∷ []) result self.old self.new }
    {
        self.list.push(Piece::Word(text))?;
        Ok(())
    }

    /// Adds a number.
    pub(crate) fn put_number(&mut self, number: i64) -> Result<(), AllocError>
        ensures { Puts (token.Number number ∷ []) result self.old self.new }
    {
        self.list.push(Piece::Number(number))?;
        Ok(())
    }

    /// Adds a sign or a reserved word.
    pub(crate) fn put_mark(&mut self, mark: Mark) -> Result<(), AllocError>
        ensures { Puts (token.Mark mark ∷ []) result self.old self.new }
    {
        self.list.push(Piece::Mark(mark))?;
        Ok(())
    }

    /// Adds a mark before an item of a list, but nothing before the first item.
    pub(crate) fn put_between(&mut self, mark: Mark, first: bool) -> Result<(), AllocError>
        ensures { Puts (before mark first) result self.old self.new }
    {
        if first { Ok(()) } else { self.put_mark(mark) }
    }
}
