//! Texts that the check refuses.

ghost use Rattle.std.specs.Prelude.{◌≡◌, ◌++◌, ℕ, IfOk, OnOk, drop};
ghost use Rattle.ioa_place.specs.Found.{IsDeclarationAt};
ghost use Rattle.ioa_culprit.specs.Cuts.{AreTokensOf};
ghost use Rattle.ioa_explain.specs.Whereabouts as place;
ghost use Rattle.ioa_explain.specs.Pages as spec;

use crate::page::{push_detail, push_if_any, push_title};
use crate::sentences::rule_of;
use ioa_culprit::Span;
use ioa_place::{declaration_at, place_at, show_part, token_length};
use ioa_refusals::Refusal;
use ioa_tokens::{LocatedToken, Mark, Token};
use std::alloc::{AllocError, Global};

/// What is told of a text of these tokens that the check refuses in the top declaration of an index, for the part of it
/// that is refused, or else for its name. `words` say what is found there, if they say anything.
pub(crate) fn refused_page(
    alloc: Global,
    name: &str,
    text: &str,
    tokens: &[LocatedToken<'_>],
    refusal: Refusal,
    index: usize,
    part: Option<Span>,
    words: &[u8],
) -> Result<Vec<u8>, AllocError>
    requires { AreTokensOf text.now tokens.now }
    ensures { IfOk result (λ page. spec.TellsRefused name.now text.now refusal index part page.items) }
{
    let position = position_of(tokens, index);
    let part = part_or_name(alloc, text, rest_of(tokens, position), part)?;
    let whereabouts = whereabouts(alloc, text, tokens, position)?;
    let page = page_of(alloc, name, text, refusal, part, &whereabouts, words)?;
    Ok(page)
}

/// What is told of a text that the check refuses for a part of it.
fn page_of(
    alloc: Global,
    name: &str,
    text: &str,
    refusal: Refusal,
    part: Span,
    whereabouts: &[u8],
    words: &[u8],
) -> Result<Vec<u8>, AllocError>
    ensures { IfOk result (λ page. page.items ≡ spec.refused_text name.now text.now
        refusal part.offset part.end whereabouts.now words.now) }
{
    let mut page = Vec::new(alloc);
    let what = what_of(alloc, refusal, whereabouts)?;
    push_title(alloc, &mut page, name, place_at(text, part.offset), &what)?;
    show_part(alloc, &mut page, text, part.offset, part.end)?;
    push_detail(&mut page, rule_of(refusal).as_bytes())?;
    push_if_any(&mut page, words)?;
    Ok(page)
}

/// The number and the name of a refusal, and where it is.
fn what_of(alloc: Global, refusal: Refusal, whereabouts: &[u8]) -> Result<Vec<u8>, AllocError>
    ensures { IfOk result (λ what. what.items ≡ spec.refusal_in refusal whereabouts.now) }
{
    let mut what = Vec::new(alloc);
    let named = format!(in alloc; "{refusal}, in ")?;
    what.extend_from_slice(named.as_bytes())?;
    what.extend_from_slice(whereabouts)?;
    Ok(what)
}

/// The position of the first token of the declaration of an index; 0 if there is no such declaration.
#[tactic(auto, using(crate::proofs::Positions::once, crate::proofs::Positions::missing))]
fn position_of(tokens: &[LocatedToken<'_>], index: usize) -> usize
    ensures { (p : ℕ) → IsDeclarationAt tokens.now index p → result ≡ p }
{
    match declaration_at(tokens, index) {
        Some(position) => position,
        None => 0,
    }
}

/// A part, or the name of the declaration that begins with the first of these tokens.
fn part_or_name(
    alloc: Global,
    text: &str,
    tokens: &[LocatedToken<'_>],
    part: Option<Span>,
) -> Result<Span, AllocError>
    ensures { IfOk result (λ s. s.offset ≡ place.refused_offset tokens.now part) }
{
    match part {
        Some(part) => Ok(part),
        None => name_part(alloc, text, tokens),
    }
}

/// The name of the declaration that begins with the first of these tokens, or that token if it has no name.
fn name_part(alloc: Global, text: &str, tokens: &[LocatedToken<'_>]) -> Result<Span, AllocError>
    ensures { IfOk result (λ s. s.offset ≡ place.name_offset tokens.now) }
{
    match tokens {
        [first, second, ..] => {
            if is_name(&second.token) {
                part_at(alloc, text, second)
            } else {
                part_at(alloc, text, first)
            }
        }
        [first] => part_at(alloc, text, first),
        [] => Ok(Span { offset: 0, end: 0 }),
    }
}

/// The tokens from a position on.
fn rest_of<'a, 'b>(tokens: &'b [LocatedToken<'a>], position: usize) -> &'b [LocatedToken<'a>]
    ensures { result.now ≡ drop position tokens.now }
{
    &tokens[position.min(tokens.len())..]
}

/// Whether a token is a name.
fn is_name(token: &Token<'_>) -> bool
    ensures { result ≡ place.is_name token.now }
{
    matches!(token, Token::Word(_))
}

/// The part of a text that a token is.
fn part_at(alloc: Global, text: &str, token: &LocatedToken<'_>) -> Result<Span, AllocError>
    ensures { IfOk result (λ s. s.offset ≡ token.now.offset) }
{
    let offset = token.offset;
    let length = token_length(alloc, text, &token.token, offset)?;
    Ok(Span {
        offset,
        end: offset.saturating_add(length),
    })
}

/// Which declaration begins at a position, in words: what it declares, its name, and the line of its first token.
fn whereabouts(
    alloc: Global,
    text: &str,
    tokens: &[LocatedToken<'_>],
    position: usize,
) -> Result<Vec<u8>, AllocError>
    ensures { IfOk result (λ words. words.items ≡ place.whereabouts text.now tokens.now position) }
{
    let rest = rest_of(tokens, position);
    let mut words = Vec::new(alloc);
    words.extend_from_slice(kind_at(rest).as_bytes())?;
    push_name(&mut words, rest)?;
    push_line(alloc, &mut words, text, rest)?;
    Ok(words)
}

/// What the declaration declares with which tokens begin.
fn kind_at(tokens: &[LocatedToken<'_>]) -> &'static str
    ensures { result.now ≡ place.kind_at tokens.now }
{
    match tokens {
        [first, ..] => kind_of(&first.token),
        [] => "",
    }
}

/// What a declaration declares that begins with a token.
fn kind_of(token: &Token<'_>) -> &'static str
    ensures { result.now ≡ place.kind_of token.now }
{
    match token {
        Token::Mark(mark) => kind_of_mark(*mark),
        Token::Word(_) | Token::Number(_) | Token::LeftOut(_) => "",
    }
}

/// What a declaration declares that begins with a reserved word.
fn kind_of_mark(mark: Mark) -> &'static str
    ensures { result.now ≡ place.kind_of_mark mark }
{
    match mark {
        Mark::Type => "type",
        Mark::Automaton => "automaton",
        Mark::System => "the system section",
        Mark::Invariant => "invariant",
        _ => "",
    }
}

/// Adds the name that stands second among tokens, if one does.
fn push_name(words: &mut Vec<u8>, tokens: &[LocatedToken<'_>]) -> Result<(), AllocError>
    ensures { OnOk result (words.new.items ≡ words.old.items ++ place.name_at tokens.now) }
{
    match tokens {
        [_, second, ..] => push_word(words, &second.token),
        [] | [_] => Ok(()),
    }
}

/// Adds a name behind a blank; nothing for another token.
fn push_word(words: &mut Vec<u8>, token: &Token<'_>) -> Result<(), AllocError>
    ensures { OnOk result (words.new.items ≡ words.old.items ++ place.name_of token.now) }
{
    match token {
        Token::Word(word) => {
            words.extend_from_slice(b" ")?;
            words.extend_from_slice(word.as_bytes())
        }
        Token::Mark(_) | Token::Number(_) | Token::LeftOut(_) => Ok(()),
    }
}

/// Adds the line of the first of these tokens, if there is one.
fn push_line(
    alloc: Global,
    words: &mut Vec<u8>,
    text: &str,
    tokens: &[LocatedToken<'_>],
) -> Result<(), AllocError>
    ensures { OnOk result (words.new.items ≡ words.old.items ++ place.line_at text.now tokens.now) }
{
    match tokens {
        [first, ..] => {
            let line = place_at(text, first.offset).line;
            let shown = format!(in alloc; " (line {line})")?;
            words.extend_from_slice(shown.as_bytes())
        }
        [] => Ok(()),
    }
}
