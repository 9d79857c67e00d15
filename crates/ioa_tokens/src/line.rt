//! A line that spells values, cut into tokens.

ghost use Rattle.std.specs.Prelude.{◌≡◌, ◌<◌, All, length};
ghost use Rattle.std.specs.Char.{IsAsciiDigit};
ghost use Rattle.ioa_values.specs.Outcome.{Answers};
ghost use Rattle.ioa_tokens.specs.Lexeme as lexeme;
ghost use Rattle.ioa_tokens.specs.LineTokens as spec;

use crate::fault::CutFault;
use crate::lexeme::{Lexeme, lexeme_at, number};
use crate::mark::Mark;
use crate::prefixes::digits_at;
use crate::token::{LocatedToken, Token};
use std::alloc::Global;

/// The amount of the least number, without its last digit.
const LEAST_FRONT: i64 = 922337203685477580;

/// The last digit of the amount of the least number.
const LEAST_LAST: u8 = b'8';

/// Whether digits write the amount of the least number.
fn is_least_amount(digits: &[u8]) -> bool
    requires { All IsAsciiDigit digits.now }
    ensures { result ≡ spec.is_least_amount digits.now }
{
    match digits.split_last() {
        Some((last, front)) => *last == LEAST_LAST && number(front) == Some(LEAST_FRONT),
        None => false,
    }
}

/// A number that is too large, but for the least number behind a `-`.
fn least_or_too_large<'a>(behind_minus: bool, digits: &[u8]) -> Lexeme<'a>
    requires { All IsAsciiDigit digits.now }
    ensures { result ≡ spec.least_or_too_large behind_minus digits.now }
{
    if behind_minus && is_least_amount(digits) {
        Lexeme::Token(Token::Number(i64::MIN))
    } else {
        Lexeme::TooLarge
    }
}

/// The sign that a byte is alone, whatever comes next.
fn lone_sign(byte: u8) -> Option<Mark>
    ensures { result ≡ spec.lone_sign byte }
{
    match byte {
        b',' => Some(Mark::Comma),
        b'(' => Some(Mark::OpenRound),
        b')' => Some(Mark::CloseRound),
        b'@' => Some(Mark::AtSign),
        b'[' => Some(Mark::OpenSquare),
        b']' => Some(Mark::CloseSquare),
        b'{' => Some(Mark::OpenBrace),
        b'}' => Some(Mark::CloseBrace),
        _ => None,
    }
}

/// The piece at the head of a text, and how many bytes it has. The signs that values are written with
/// are looked for first.
#[tactic(auto, using(crate::proofs::LineCuts::lone_sign_at))]
fn quick_lexeme_at<'a>(text: &'a [u8]) -> (Lexeme<'a>, usize)
    requires { 0 < length text.now }
    ensures { result ≡ lexeme.lexeme_at text.now }
{
    match lone_sign(text[0]) {
        Some(mark) => (Lexeme::Token(Token::Mark(mark)), 1),
        None => lexeme_at(text),
    }
}

/// The piece at the head of a text that may stand behind a `-`, and how many bytes it has.
#[tactic(auto, unfolding(crate::specs::LineTokens::line_lexeme_at))]
fn line_lexeme_at<'a>(behind_minus: bool, text: &'a [u8]) -> (Lexeme<'a>, usize)
    requires { 0 < length text.now }
    ensures { result ≡ spec.line_lexeme_at behind_minus text.now }
{
    let (lexeme, size) = quick_lexeme_at(text);
    match lexeme {
        Lexeme::TooLarge => (least_or_too_large(behind_minus, digits_at(text)), size),
        Lexeme::Gap => (Lexeme::Gap, size),
        Lexeme::Token(token) => (Lexeme::Token(token), size),
        Lexeme::Stray => (Lexeme::Stray, size),
    }
}

/// Whether a token is the sign `-`.
fn is_minus(token: &Token<'_>) -> bool
    ensures { result ≡ spec.is_minus token.now }
{
    match token {
        Token::Mark(mark) => *mark == Mark::Minus,
        Token::Word(_) | Token::Number(_) | Token::LeftOut(_) => false,
    }
}

/// The tokens of a line, each with its offset, in a list that is emptied first, so that one list serves many lines.
/// They are those of `tokens`, but for one number: right behind a `-` the digits of 9223372036854775808 are the
/// number -9223372036854775808, so a `-` before a number n means minus the amount of n. A line is refused as
/// `tokens` refuses a text, and the list then has some tokens. `Memory` (3) if memory runs out. Source: profile.
#[tactic(auto, using(crate::proofs::LineCuts::line_lexeme_sized))]
pub fn cut_line_into<'a>(line: &'a str, tokens: &mut Vec<LocatedToken<'a>>) -> Result<(), CutFault>
    ensures { Answers CutFault.Memory (λ _. tokens.new.items) result (spec.line_tokens line.now) }
{
    let bytes = line.as_bytes();
    tokens.clear();
    let mut offset = 0;
    let mut behind_minus = false;
    while offset < bytes.len() {
        let (lexeme, size) = line_lexeme_at(behind_minus, &bytes[offset..]);
        match lexeme {
            Lexeme::Gap => {}
            Lexeme::Token(token) => {
                behind_minus = is_minus(&token);
                tokens.push(LocatedToken { token, offset })?;
            }
            Lexeme::TooLarge => return Err(CutFault::NumberTooLarge(offset)),
            Lexeme::Stray => return Err(CutFault::BadCharacter(offset)),
        }
        offset += size;
    }
    Ok(())
}

/// The tokens of a line, each with its offset, as `cut_line_into` cuts it. Source: profile.
pub fn cut_line<'a>(alloc: Global, line: &'a str) -> Result<Vec<LocatedToken<'a>>, CutFault>
    ensures { Answers CutFault.Memory (λ v. v.items) result (spec.line_tokens line.now) }
{
    let mut tokens = Vec::new(alloc);
    cut_line_into(line, &mut tokens)?;
    Ok(tokens)
}
