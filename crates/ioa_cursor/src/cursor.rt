//! The tokens of a text that are still to be read, and why they are not read further.

ghost use Rattle.std.specs.Prelude.{◌≡◌, ◌⊎◌, IfErr, length, map};
ghost use Rattle.ioa_cursor.specs.Outcome as outcome;
ghost use Rattle.ioa_cursor.specs.Outcome.{Reads};
ghost use Rattle.ioa_cursor.specs.declared.cursor.Unread.TheVariants.{Memory, TooDeep};
ghost use Rattle.ioa_cursor.specs.Reading as spec;

use ioa_tokens::{LeftOut, LocatedToken, Mark, Token};
use ioa_values::Word;
use std::alloc::{AllocError, AllocFailed, Global};
use std::marker::Model;

/// Why the tokens are not read further. A number counts the tokens that were left, from the one that is
/// refused on; `offset_of` gives its offset in the text. Source: profile.
#[derive(Debug, Drop)]
pub enum Unread {
    /// 12: no text can go on with this token, or the text ends too early, and then no token was left.
    Unexpected(usize),
    /// 14: a tree is too high, or too many brackets are open.
    TooDeep(usize),
    /// 16: this word comes next, which the profile leaves out.
    LeftOut(LeftOut, usize),
    /// 3: memory ran out.
    Memory,
}

impl From<AllocError> for Unread {
    ghost use Rattle.std.specs.Prelude.{◌≡◌};
    ghost use Rattle.ioa_cursor.specs.declared.cursor.Unread.TheVariants.{Memory};

    ghost from_gives = { λ _ e. e ≡ Memory };

    fn from(_error: AllocError) -> Self {
        Unread::Memory
    }
}

impl<T: Drop> From<AllocFailed<T>> for Unread {
    ghost use Rattle.std.specs.Prelude.{◌≡◌};
    ghost use Rattle.ioa_cursor.specs.declared.cursor.Unread.TheVariants.{Memory};

    ghost from_gives = { λ _ e. e ≡ Memory };

    fn from(_error: AllocFailed<T>) -> Self {
        Unread::Memory
    }
}

/// The offset of the token at which `left` tokens were left, itself among them, of all tokens of a text;
/// `end`, the text's length in bytes, if none was left.
pub fn offset_of(located: &[LocatedToken<'_>], left: usize, end: usize) -> usize
    ensures { result ≡ outcome.offset_of located.now left end }
{
    match located.get(located.len().saturating_sub(left)) {
        Some(token) => token.offset,
        None => end,
    }
}

/// The tokens that are still to be read.
#[derive(Drop)]
pub struct Tokens<'a> {
    rest: &'a [LocatedToken<'a>],
}

impl<'a> Model for Tokens<'a> {
    ghost use Rattle.std.specs.Prelude.{List, map};
    ghost use Rattle.ioa_tokens.specs.declared.token.Token.{Token};

    ghost Value = { List Token };

    ghost view = { λ t. map (λ p. p.token) t.rest.now };
}

impl<'a> Tokens<'a> {
    /// All tokens of a text.
    pub fn new(rest: &'a [LocatedToken<'a>]) -> Self
        ensures { result ≡ map (λ p. p.token) rest.now }
    {
        Tokens { rest }
    }

    /// How many tokens are left.
    pub fn len(&self) -> usize
        ensures { result ≡ length self.now }
    {
        self.rest.len()
    }

    /// The refusal of the next token, with which no text can go on: `LeftOut` (16) if it is a word that
    /// the profile leaves out, otherwise `Unexpected` (12). Source: profile.
    pub fn refusal(&self) -> Unread
        ensures { result ≡ outcome.refusal self.now }
    {
        match self.rest {
            [first, ..] => match &first.token {
                Token::LeftOut(word) => Unread::LeftOut(*word, self.rest.len()),
                Token::Word(_) | Token::Number(_) | Token::Mark(_) => {
                    Unread::Unexpected(self.rest.len())
                }
            },
            [] => Unread::Unexpected(0),
        }
    }

    /// The refusal of a part that is too deep, at the next token: `TooDeep` (14). Source: profile.
    pub fn too_deep(&self) -> Unread
        ensures { result ≡ TooDeep (length self.now) }
    {
        Unread::TooDeep(self.rest.len())
    }

    /// The refusal at the greatest depth. If a part begins here, it would be too deep: `TooDeep` (14).
    /// Otherwise it is the refusal of the next token. Source: profile.
    pub fn refusal_at_depth(&self, begins: bool) -> Unread
        ensures { result ≡ outcome.refusal_at_depth begins self.now }
    {
        if begins {
            self.too_deep()
        } else {
            self.refusal()
        }
    }

    /// The mark that comes next, if one does.
    #[tactic(auto, unfolding(crate::specs::Reading::peek_mark))]
    pub fn peek_mark(&self) -> Option<Mark>
        ensures { result ≡ spec.peek_mark self.now }
    {
        match self.rest {
            [first, ..] => match &first.token {
                Token::Mark(mark) => Some(*mark),
                Token::Word(_) | Token::Number(_) | Token::LeftOut(_) => None,
            },
            [] => None,
        }
    }

    /// Goes past the next token, whatever it is.
    #[tactic(auto, unfolding(crate::specs::Reading::advance))]
    pub fn advance(&mut self)
        ensures { self.new ≡ spec.advance self.old }
    {
        if let [_, rest @ ..] = self.rest {
            self.rest = rest;
        }
    }

    /// Goes past a mark if it comes next, and returns whether it does.
    #[tactic(auto, unfolding(crate::specs::Reading::skip))]
    pub fn skip(&mut self, mark: Mark) -> bool
        ensures { (result, self.new) ≡ spec.skip mark self.old }
    {
        match self.rest {
            [first, rest @ ..] => match &first.token {
                Token::Mark(found) => {
                    if *found == mark {
                        self.rest = rest;
                        true
                    } else {
                        false
                    }
                }
                Token::Word(_) | Token::Number(_) | Token::LeftOut(_) => false,
            },
            [] => false,
        }
    }

    /// Goes past a mark that has to come next. Anything else is refused, as `refusal` says.
    #[tactic(auto, unfolding(crate::specs::Reading::expect), using(crate::proofs::Steps::skip_left))]
    pub fn expect(&mut self, mark: Mark) -> Result<(), Unread>
        ensures reads { Reads (λ u. u) (spec.expect mark self.old) result self.new }
        ensures refusal { IfErr result (λ e. e ≡ outcome.refusal self.old) }
        ensures kept { IfErr result (λ _. self.new ≡ self.old) }
    {
        let refusal = self.refusal();
        if self.skip(mark) {
            Ok(())
        } else {
            Err(refusal)
        }
    }

    /// Reads a word that has to come next. Anything else is refused, as `refusal` says; `Memory` (3) if
    /// memory runs out.
    #[tactic(auto, unfolding(crate::specs::Reading::word))]
    pub fn word(&mut self, alloc: Global) -> Result<Word, Unread>
        ensures reads { Reads (λ w. w) (spec.word self.old) result self.new }
        ensures refusal { IfErr result (λ e. (e ≡ Memory) ⊎ e ≡ outcome.refusal self.old) }
        ensures kept { IfErr result (λ _. self.new ≡ self.old) }
    {
        match self.rest {
            [first, rest @ ..] => match &first.token {
                Token::Word(word) => {
                    let word = Word::from_ascii(alloc, word.as_bytes())?;
                    self.rest = rest;
                    Ok(word)
                }
                Token::Mark(_) | Token::Number(_) | Token::LeftOut(_) => Err(self.refusal()),
            },
            [] => Err(self.refusal()),
        }
    }

    /// Reads a number that has to come next. Anything else is refused, as `refusal` says.
    #[tactic(auto, unfolding(crate::specs::Reading::number))]
    pub fn number(&mut self) -> Result<i64, Unread>
        ensures reads { Reads (λ n. n) (spec.number self.old) result self.new }
        ensures refusal { IfErr result (λ e. e ≡ outcome.refusal self.old) }
        ensures kept { IfErr result (λ _. self.new ≡ self.old) }
    {
        match self.rest {
            [first, rest @ ..] => match &first.token {
                Token::Number(number) => {
                    let number = *number;
                    self.rest = rest;
                    Ok(number)
                }
                Token::Word(_) | Token::Mark(_) | Token::LeftOut(_) => Err(self.refusal()),
            },
            [] => Err(self.refusal()),
        }
    }

    /// Whether a mark comes next.
    #[tactic(auto, unfolding(crate::specs::Reading::at))]
    pub fn at(&self, mark: Mark) -> bool
        ensures { result ≡ spec.at mark self.now }
    {
        match self.rest {
            [first, ..] => match &first.token {
                Token::Mark(found) => *found == mark,
                Token::Word(_) | Token::Number(_) | Token::LeftOut(_) => false,
            },
            [] => false,
        }
    }

    /// Whether a word comes next.
    #[tactic(auto, unfolding(crate::specs::Reading::at_word))]
    pub fn at_word(&self) -> bool
        ensures { result ≡ spec.at_word self.now }
    {
        match self.rest {
            [first, ..] => match &first.token {
                Token::Word(_) => true,
                Token::Mark(_) | Token::Number(_) | Token::LeftOut(_) => false,
            },
            [] => false,
        }
    }

    /// Whether a number comes next.
    #[tactic(auto, unfolding(crate::specs::Reading::at_number))]
    pub fn at_number(&self) -> bool
        ensures { result ≡ spec.at_number self.now }
    {
        match self.rest {
            [first, ..] => match &first.token {
                Token::Number(_) => true,
                Token::Word(_) | Token::Mark(_) | Token::LeftOut(_) => false,
            },
            [] => false,
        }
    }

    /// Goes past a mark if it comes next, and returns whether a word comes behind it: the next item of a
    /// list.
    #[tactic(auto, unfolding(crate::specs::Reading::resumes_with))]
    pub fn resumes_with_word(&mut self, mark: Mark) -> bool
        ensures { (result, self.new) ≡ spec.resumes_with mark spec.at_word self.old }
    {
        if self.skip(mark) {
            self.at_word()
        } else {
            false
        }
    }

    /// Goes past a mark if it comes next, and returns whether `first` comes behind it: the next item of a
    /// list.
    #[tactic(auto, unfolding(crate::specs::Reading::resumes_with))]
    pub fn resumes_with(&mut self, mark: Mark, first: Mark) -> bool
        ensures { (result, self.new) ≡ spec.resumes_with mark (spec.at first) self.old }
    {
        if self.skip(mark) {
            self.at(first)
        } else {
            false
        }
    }

    /// Reads the end of the text. A token that is left is refused, as `refusal` says.
    #[tactic(auto, unfolding(crate::specs::Reading::end))]
    pub fn end(&mut self) -> Result<(), Unread>
        ensures reads { Reads (λ u. u) (spec.end self.old) result self.new }
        ensures refusal { IfErr result (λ e. e ≡ outcome.refusal self.old) }
        ensures kept { IfErr result (λ _. self.new ≡ self.old) }
    {
        match self.rest {
            [] => Ok(()),
            [_, ..] => Err(self.refusal()),
        }
    }
}
