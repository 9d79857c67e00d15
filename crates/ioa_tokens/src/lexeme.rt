//! The piece at the head of a text: white space, a token, or what is refused.

ghost use Rattle.std.specs.Prelude.{◌≡◌, ◌<◌, ◌≤◌, All, pos, length};
ghost use Rattle.std.specs.Char.{IsAsciiDigit};
ghost use Rattle.std.specs.Option.{SomeIff};
ghost use Rattle.std.specs.Str.Parse.{digits_value};
ghost use Rattle.ioa_tokens.specs.Tables.{sign_at_head};
ghost use Rattle.ioa_tokens.specs.Lexeme as spec;

use crate::prefixes::{backslash_word, digits_at, is_space, line_length, word_at};
use crate::table::{left_out_word, reserved_word, sign_at};
use crate::token::{Token, TokenWord};

/// The greatest number.
const GREATEST: u64 = 9223372036854775807;

/// The piece at the head of a text.
#[derive(Debug, Drop)]
pub(crate) enum Lexeme<'a> {
    /// White space, or a comment.
    Gap,
    /// A token.
    Token(Token<'a>),
    /// A number that is too large.
    TooLarge,
    /// A character that begins no token.
    Stray,
}

/// The token of a word that is reserved or left out.
fn fixed_token<'a>(word: &[u8]) -> Option<Token<'a>>
    ensures { result ≡ spec.fixed_token word.now }
{
    if let Some(mark) = reserved_word(word) {
        return Some(Token::Mark(mark));
    }
    match left_out_word(word) {
        Some(left_out) => Some(Token::LeftOut(left_out)),
        None => None,
    }
}

/// The number that digits write, if it is not above the greatest.
pub(crate) fn number(digits: &[u8]) -> Option<i64>
    requires { All IsAsciiDigit digits.now }
    ensures { let n = digits_value 10 digits.now in
        SomeIff result (n ≤ spec.greatest_number) (pos n) }
{
    let mut value: u64 = 0;
    for byte in digits {
        let digit = u64::from(*byte - b'0');
        if value > (GREATEST - digit) / 10 {
            return None;
        }
        value = 10 * value + digit;
    }
    Some(value as i64)
}

/// A reserved word, a left-out word or a name.
fn word_lexeme<'a>(word: &'a [u8]) -> (Lexeme<'a>, usize)
    requires { All (λ c. c < 128) word.now }
    ensures { result ≡ spec.word_lexeme word.now }
{
    let token = match fixed_token(word) {
        Some(token) => token,
        None => Token::Word(TokenWord { text: word }),
    };
    (Lexeme::Token(token), word.len())
}

/// A number, or one that is too large.
fn number_lexeme<'a>(digits: &'a [u8]) -> (Lexeme<'a>, usize)
    requires { All IsAsciiDigit digits.now }
    ensures { result ≡ spec.number_lexeme digits.now }
{
    let lexeme = match number(digits) {
        Some(number) => Lexeme::Token(Token::Number(number)),
        None => Lexeme::TooLarge,
    };
    (lexeme, digits.len())
}

/// The longest sign that a text begins with. If there is none, the word that a backslash begins, and
/// otherwise a character that begins no token.
fn sign_lexeme<'a>(text: &'a [u8]) -> (Lexeme<'a>, usize)
    requires { 0 < length text.now }
    ensures { result ≡ spec.sign_lexeme (sign_at_head text.now) text.now }
{
    if let Some((spelling, mark)) = sign_at(text) {
        return (Lexeme::Token(Token::Mark(mark)), spelling.len());
    }
    if text[0] != b'\\' {
        return (Lexeme::Stray, 1);
    }
    let word = backslash_word(text);
    match fixed_token(word) {
        Some(token) => (Lexeme::Token(token), word.len()),
        None => (Lexeme::Stray, word.len()),
    }
}

/// The piece at the head of a text, and how many bytes it has.
#[tactic(auto, unfolding(crate::specs::Lexeme::lexeme_at))]
pub(crate) fn lexeme_at<'a>(text: &'a [u8]) -> (Lexeme<'a>, usize)
    requires { 0 < length text.now }
    ensures { result ≡ spec.lexeme_at text.now }
{
    let first = text[0];
    if is_space(first) {
        (Lexeme::Gap, 1)
    } else if first == b'%' {
        (Lexeme::Gap, line_length(text))
    } else if first.is_ascii_alphabetic() {
        word_lexeme(word_at(text))
    } else if first.is_ascii_digit() {
        number_lexeme(digits_at(text))
    } else {
        sign_lexeme(text)
    }
}
