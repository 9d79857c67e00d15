//! From a text to its source.

ghost use Rattle.std.specs.Prelude.{◌≡◌, ◌<◌, ◌≤◌, ◌⊎◌, List, length, true, IfOk, IfErr, MatchResult};
ghost use Rattle.ioa_part_reader.specs.Grammar.{Spells};
ghost use Rattle.ioa_text_reader.specs.Parsing.{Parses, refusal_of};
ghost use Rattle.ioa_text_reader.specs.Texts.{length_limit, TextSpells, StandsInText, is_exact};
ghost use Rattle.ioa_text_reader.specs.declared.fault.FrontFault.{FrontFault};
ghost use Rattle.ioa_source.specs.Sides.{SourceText};
ghost use Rattle.ioa_source.specs.TextView.{text_of};
ghost use Rattle.ioa_tokens.specs.declared.token.Token.{Token};

use crate::fault::FrontFault;
use crate::source::Source;
use crate::whole::whole;
use ioa_cursor::{Tokens, Unread, offset_of};
use ioa_tokens::{CutFault, LocatedToken, tokens};
use std::alloc::Global;

/// How many bytes a text has at most.
pub(crate) const LENGTH_LIMIT: usize = 1_048_576;

/// Reads a text.
fn read(alloc: Global, text: &str) -> Result<Source, FrontFault>
    ensures { Parses result text.now }
{
    if text.len() > LENGTH_LIMIT {
        return Err(FrontFault::TooLong);
    }
    let located = match tokens(alloc, text) {
        Ok(located) => located,
        Err(CutFault::BadCharacter(offset)) => return Err(FrontFault::BadCharacter(offset)),
        Err(CutFault::NumberTooLarge(offset)) => return Err(FrontFault::NumberTooLarge(offset)),
        Err(CutFault::Memory) => return Err(FrontFault::Memory),
    };
    if located.is_empty() {
        return Err(FrontFault::Empty);
    }
    let mut rest = Tokens::new(located.as_slice());
    match whole(alloc, &mut rest) {
        Ok(text) => Ok(Source::new(text)),
        Err(unread) => Err(refusal(&unread, located.as_slice(), text.len())),
    }
}

/// The refusal of a text with these tokens and of length `end`, for the reader's `unread`.
fn refusal(unread: &Unread, located: &[LocatedToken<'_>], end: usize) -> FrontFault
    ensures { result ≡ refusal_of unread.now located.now end }
{
    match unread {
        Unread::Unexpected(left) => FrontFault::Unexpected(offset_of(located, *left, end)),
        Unread::TooDeep(left) => FrontFault::TooDeep(offset_of(located, *left, end)),
        Unread::LeftOut(word, left) => FrontFault::LeftOut(*word, offset_of(located, *left, end)),
        Unread::Memory => FrontFault::Memory,
    }
}

/// The source that a text spells. A text that spells none is refused. The refusal is `TooLong` (15) if
/// the text is longer than 1048576 bytes. Else it is `BadCharacter` (11) or `NumberTooLarge` (13) for the
/// first character or number that is no token, and else `Empty` (10) if there is no token. Else the first
/// token with which no text goes on is `Unexpected` (12), or `LeftOut` (16) if it is a word that the
/// profile leaves out, and a part that is too high is `TooDeep` (14). `Memory` (3) may come instead of any
/// of these but 15, if memory runs out. Source: profile.
pub fn parse(alloc: Global, text: &str) -> Result<Source, FrontFault>
    // What comes is right.
    ensures found { IfOk result (λ s. TextSpells (text_of s.text) text.now) }
    ensures refused { IfErr result (λ e. StandsInText e text.now) }
    // What is right comes, or Memory.
    ensures exact { (e : FrontFault) → is_exact e ≡ true → StandsInText e text.now →
        MatchResult result (λ _. ⊥) (λ f. (f ≡ FrontFault.Memory) ⊎ (f ≡ e)) }
    ensures long { length_limit < length text.now → MatchResult result (λ _. ⊥) (λ e. e ≡ FrontFault.TooLong) }
    ensures only { (p : SourceText) → length text.now ≤ length_limit → TextSpells p text.now →
        MatchResult result (λ s. text_of s.text ≡ p) (λ e. e ≡ FrontFault.Memory) }
{
    read(alloc, text)
}

/// The law that tokens spell at most one source.
pub fn one_source()
    ensures { (p q : SourceText) (tokens : List Token) → Spells p tokens → Spells q tokens → p ≡ q }
{}
