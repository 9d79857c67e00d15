//! A walk over the tokens of a text beside its tree: the tree decides, and the tokens follow.

ghost use Rattle.std.specs.Prelude.{◌≡◌, ◌⊎◌, ◌<◌, IfOk, length};
ghost use Rattle.ioa_walk.specs.Leaves as spec;
ghost use Rattle.ioa_walk.specs.Leaves.{PassesAt};

use crate::part::Part;
use crate::span::is_mark;
use ioa_tokens::{LocatedToken, Mark, Token};
use ioa_values::Word;

/// The tokens are not those of the tree.
#[derive(Clone, Copy, Debug, PartialEq, Eq)]
pub struct Lost;

/// A place on a walk over tokens: the position of the next one.
#[derive(Clone, Copy)]
pub struct Walk<'a> {
    tokens: &'a [LocatedToken<'a>],
    next: usize,
}

impl<'a> Walk<'a> {
    /// A walk from a position on.
    pub fn from(tokens: &'a [LocatedToken<'a>], next: usize) -> Self
        ensures tokens { result.tokens.now ≡ tokens.now }
        ensures next { result.next ≡ next }
    {
        Walk { tokens, next }
    }

    /// The position of the next token.
    pub fn next(&self) -> usize
        ensures { result ≡ self.now.next }
    {
        self.next
    }

    /// Goes on behind a token.
    pub fn go_behind(&mut self, position: usize)
        ensures { self.new.tokens.now ≡ self.old.tokens.now }
    {
        self.next = position.saturating_add(1);
    }

    /// The position of the next word, number or truth value. Brackets and signs before it are passed.
    fn leaf(&self) -> Result<usize, Lost>
        ensures { IfOk result (λ p. p < length self.now.tokens.now) }
    {
        for position in self.next..self.tokens.len() {
            if is_leaf(&self.tokens[position]) {
                return Ok(position);
            }
        }
        Err(Lost)
    }

    /// Passes the next leaf, which is this word.
    pub fn word(&mut self, word: &Word) -> Result<usize, Lost>
        ensures { IfOk result (λ p. PassesAt (spec.is_word word.now) self.old.tokens.now p) }
    {
        let position = self.leaf()?;
        if !is_word(&self.tokens[position], word) {
            return Err(Lost);
        }
        self.go_behind(position);
        Ok(position)
    }

    /// Passes the next leaf, which is a word.
    pub fn any_word(&mut self) -> Result<usize, Lost>
        ensures { IfOk result (λ p. PassesAt spec.is_any_word self.old.tokens.now p) }
    {
        let position = self.leaf()?;
        if !is_any_word(&self.tokens[position]) {
            return Err(Lost);
        }
        self.go_behind(position);
        Ok(position)
    }

    /// Passes the next leaf, which is this number.
    pub fn number(&mut self, number: i64) -> Result<usize, Lost>
        ensures { IfOk result (λ p. PassesAt (spec.is_number number) self.old.tokens.now p) }
    {
        let position = self.leaf()?;
        if !is_number(&self.tokens[position], number) {
            return Err(Lost);
        }
        self.go_behind(position);
        Ok(position)
    }

    /// Passes the next leaf, which is this truth value.
    pub fn truth(&mut self, truth: bool) -> Result<usize, Lost>
        ensures { IfOk result (λ p. PassesAt (spec.is_mark (spec.truth_mark truth)) self.old.tokens.now p) }
    {
        let position = self.leaf()?;
        if !is_mark(&self.tokens[position], truth_mark(truth)) {
            return Err(Lost);
        }
        self.go_behind(position);
        Ok(position)
    }

    /// The position of the next sign or reserved word of this kind.
    fn position_of(&self, mark: Mark) -> Result<usize, Lost>
        ensures { IfOk result (λ p. PassesAt (spec.is_mark mark) self.now.tokens.now p) }
    {
        for position in self.next..self.tokens.len() {
            if is_mark(&self.tokens[position], mark) {
                return Ok(position);
            }
        }
        Err(Lost)
    }

    /// Passes the next sign or reserved word of this kind, and what stands before it.
    pub fn mark(&mut self, mark: Mark) -> Result<usize, Lost>
        ensures there { IfOk result (λ p. PassesAt (spec.is_mark mark) self.old.tokens.now p) }
        ensures same { self.new.tokens.now ≡ self.old.tokens.now }
    {
        let position = self.position_of(mark)?;
        self.go_behind(position);
        Ok(position)
    }

    /// Passes the next opening bracket of this kind. Returns the part from it to the bracket that closes it.
    pub fn opened(&mut self, mark: Mark) -> Result<Part, Lost>
        ensures first { IfOk result (λ part. PassesAt (spec.is_mark mark) self.old.tokens.now part.first) }
        ensures last { IfOk result (λ part. PassesAt spec.is_closing self.old.tokens.now part.last) }
    {
        let first = self.mark(mark)?;
        let last = self.closing(first)?;
        Ok(Part { first, last })
    }

    /// Passes the opening bracket right behind the token that was passed last, if there is one. Returns the last token
    /// of what is called so: the closing bracket, or that token.
    pub fn called(&mut self, name: usize) -> Result<usize, Lost>
        ensures { IfOk result (λ p. (p ≡ name) ⊎ PassesAt spec.is_closing self.old.tokens.now p) }
    {
        match self.tokens.get(self.next) {
            None => Ok(name),
            Some(token) => {
                if is_mark(token, Mark::OpenRound) {
                    Ok(self.opened(Mark::OpenRound)?.last)
                } else {
                    Ok(name)
                }
            }
        }
    }

    /// The position of the bracket that closes the one at a position.
    fn closing(&self, open: usize) -> Result<usize, Lost>
        ensures { IfOk result (λ p. PassesAt spec.is_closing self.now.tokens.now p) }
    {
        let mut depth: usize = 0;
        for position in open..self.tokens.len() {
            let token = &self.tokens[position];
            if is_opening(token) {
                depth = depth.saturating_add(1);
            } else if is_closing(token) {
                depth = depth.saturating_sub(1);
                if depth == 0 {
                    return Ok(position);
                }
            }
        }
        Err(Lost)
    }

    /// The position of the colon behind names with commas between them.
    pub fn colon(&self) -> Result<usize, Lost>
        ensures { IfOk result (λ p. PassesAt (spec.is_mark Mark.Colon) self.now.tokens.now p) }
    {
        for position in self.next..self.tokens.len() {
            let token = &self.tokens[position];
            if is_mark(token, Mark::Colon) {
                return Ok(position);
            }
            if !(is_mark(token, Mark::Comma) || is_any_word(token)) {
                return Err(Lost);
            }
        }
        Err(Lost)
    }

    /// The part with the round brackets about it that open or close in it alone.
    pub fn balanced(&self, part: Part) -> Part {
        let mut open: usize = 0;
        let mut unopened: usize = 0;
        for position in part.first..part.last.saturating_add(1) {
            if let Some(token) = self.tokens.get(position) {
                if is_opening(token) {
                    open = open.saturating_add(1);
                } else if is_closing(token) {
                    if open == 0 {
                        unopened = unopened.saturating_add(1);
                    }
                    open = open.saturating_sub(1);
                }
            }
        }
        Part {
            first: self.first_with(part.first, unopened),
            last: self.last_with(part.last, open),
        }
    }

    /// The first of so many opening round brackets before a position, as far as there are.
    fn first_with(&self, first: usize, count: usize) -> usize {
        let mut found = first;
        for _turn in 0..count {
            if found == 0 {
                return found;
            }
            match self.tokens.get(found - 1) {
                None => return found,
                Some(token) => {
                    if !is_mark(token, Mark::OpenRound) {
                        return found;
                    }
                }
            }
            found -= 1;
        }
        found
    }

    /// The last of so many closing round brackets behind a position, as far as there are.
    fn last_with(&self, last: usize, count: usize) -> usize {
        let mut found = last;
        for _turn in 0..count {
            let behind = found.saturating_add(1);
            match self.tokens.get(behind) {
                None => return found,
                Some(token) => {
                    if !is_mark(token, Mark::CloseRound) {
                        return found;
                    }
                }
            }
            found = behind;
        }
        found
    }
}

/// The reserved word of a truth value.
fn truth_mark(truth: bool) -> Mark
    ensures { result ≡ spec.truth_mark truth }
{
    if truth { Mark::True } else { Mark::False }
}

/// Whether a token is a word, a number or a truth value.
fn is_leaf(located: &LocatedToken<'_>) -> bool {
    match &located.token {
        Token::Mark(mark) => *mark == Mark::True || *mark == Mark::False,
        Token::Word(_) | Token::Number(_) | Token::LeftOut(_) => true,
    }
}

/// Whether a token is this word.
fn is_word(located: &LocatedToken<'_>, wanted: &Word) -> bool
    ensures { result ≡ spec.is_word wanted.now located.now.token }
{
    match &located.token {
        Token::Word(word) => word.as_bytes() == wanted.as_str().as_bytes(),
        Token::Mark(_) | Token::Number(_) | Token::LeftOut(_) => false,
    }
}

/// Whether a token is a word.
fn is_any_word(located: &LocatedToken<'_>) -> bool
    ensures { result ≡ spec.is_any_word located.now.token }
{
    match &located.token {
        Token::Word(_) => true,
        Token::Mark(_) | Token::Number(_) | Token::LeftOut(_) => false,
    }
}

/// Whether a token is this number.
fn is_number(located: &LocatedToken<'_>, wanted: i64) -> bool
    ensures { result ≡ spec.is_number wanted located.now.token }
{
    match &located.token {
        Token::Number(number) => *number == wanted,
        Token::Word(_) | Token::Mark(_) | Token::LeftOut(_) => false,
    }
}

/// Whether a token opens a bracket.
fn is_opening(located: &LocatedToken<'_>) -> bool {
    is_mark(located, Mark::OpenRound)
        || is_mark(located, Mark::OpenSquare)
        || is_mark(located, Mark::OpenBrace)
}

/// Whether a token closes a bracket.
fn is_closing(located: &LocatedToken<'_>) -> bool
    ensures { result ≡ spec.is_closing located.now.token }
{
    is_mark(located, Mark::CloseRound)
        || (is_mark(located, Mark::CloseSquare) || is_mark(located, Mark::CloseBrace))
}
