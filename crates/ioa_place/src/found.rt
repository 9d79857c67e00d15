//! Declarations and tokens at places.

ghost use Rattle.std.specs.Prelude.{◌≡◌, ◌≤◌, ◌==◌, drop, IfNone, IfOk, IfSome};
ghost use Rattle.std.specs.Char.{is_ascii_digit};
ghost use Rattle.std.specs.List.{count_by, position, prefix_len};
ghost use Rattle.ioa_place.specs.Found as spec;

use crate::place::rest;
use ioa_tokens::{LocatedToken, Mark, Token};
use std::alloc::{AllocError, Global};

/// Whether a top declaration begins with a token: with one of these four reserved words, which stand nowhere else.
fn begins_declaration(token: &Token<'_>) -> bool
    ensures { result ≡ spec.begins_declaration token.now }
{
    match token {
        Token::Mark(mark) => matches!(
            mark,
            Mark::Type | Mark::Automaton | Mark::System | Mark::Invariant
        ),
        Token::Word(_) | Token::Number(_) | Token::LeftOut(_) => false,
    }
}

/// Where the top declaration of an index begins: the position of its first token. The types and the automata come
/// first, then the system section, then each invariant. `None` if the tokens have no more declarations.
#[tactic(auto, using(crate::proofs::Ends::count_lemmas))]
pub fn declaration_at(tokens: &[LocatedToken<'_>], index: usize) -> Option<usize>
    ensures found { IfSome result (λ p. spec.IsDeclarationAt tokens.now index p) }
    ensures missing { IfNone result (count_by spec.begins tokens.now ≤ index) }
{
    let mut before = 0;
    for (position, token) in tokens.iter().enumerate() {
        if begins_declaration(&token.token) {
            if before == index {
                return Some(position);
            }
            before += 1;
        }
    }
    None
}

/// The position of the token that begins at an offset, if one does.
pub fn token_at(tokens: &[LocatedToken<'_>], offset: usize) -> Option<usize>
    ensures { result ≡ position (λ t. t.offset == offset) tokens.now }
{
    tokens.iter().position(|token| token.offset == offset)
}

/// How many digits a text begins with.
fn digits_length(text: &[u8]) -> usize
    ensures { result ≡ prefix_len is_ascii_digit text.now }
{
    text.iter().take_while(|byte| byte.is_ascii_digit()).count()
}

/// How many digits stand at an offset of a text, one behind the other.
pub fn digits_at(text: &str, offset: usize) -> usize
    ensures { result ≡ prefix_len is_ascii_digit (drop offset text.now) }
{
    digits_length(rest(text.as_bytes(), offset))
}

/// How many bytes a token has that begins at an offset of a text.
pub fn token_length(
    alloc: Global,
    text: &str,
    token: &Token<'_>,
    offset: usize,
) -> Result<usize, AllocError>
    ensures { IfOk result (λ n. n ≡ spec.token_length text.now token.now offset) }
{
    match token {
        Token::Word(word) => Ok(word.as_bytes().len()),
        Token::Number(_) => Ok(digits_at(text, offset)),
        Token::Mark(mark) => Ok(mark.as_str().len()),
        Token::LeftOut(word) => Ok(word.to_string(alloc)?.len()),
    }
}
