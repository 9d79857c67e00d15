//! A text, cut into tokens.

ghost use Rattle.ioa_values.specs.Outcome.{Answers};
ghost use Rattle.ioa_tokens.specs.Tokens as spec;

use crate::fault::CutFault;
use crate::lexeme::{Lexeme, lexeme_at};
use crate::token::LocatedToken;
use std::alloc::Global;

/// The tokens of a text, each with its offset. White space and comments are no tokens. A text is refused
/// at the first character that begins no token (`BadCharacter`, 11) or the first number that is too large
/// (`NumberTooLarge`, 13), whichever comes first. `Memory` (3) if memory runs out. Source: profile.
#[tactic(auto, using(crate::proofs::Sizes::lexeme_sized))]
pub fn tokens<'a>(alloc: Global, text: &'a str) -> Result<Vec<LocatedToken<'a>>, CutFault>
    ensures { Answers CutFault.Memory (λ v. v.items) result (spec.tokens text.now) }
{
    let bytes = text.as_bytes();
    let mut found = Vec::new(alloc);
    let mut offset = 0;
    while offset < bytes.len() {
        let (lexeme, size) = lexeme_at(&bytes[offset..]);
        match lexeme {
            Lexeme::Gap => {}
            Lexeme::Token(token) => found.push(LocatedToken { token, offset })?,
            Lexeme::TooLarge => return Err(CutFault::NumberTooLarge(offset)),
            Lexeme::Stray => return Err(CutFault::BadCharacter(offset)),
        }
        offset += size;
    }
    Ok(found)
}
