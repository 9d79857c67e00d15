//! The values that an effect chose, from the first `choose` of a line on.

ghost use Rattle.std.specs.Prelude.{◌≡◌, ◌≤◌, [], IfOk, length};
ghost use Rattle.ioa_values.specs.Outcome.{Matches};
ghost use Rattle.ioa_cursor.specs.Outcome.{Reads};
ghost use Rattle.ioa_cursor.specs.Reading.{several_more, skip};
ghost use Rattle.ioa_tokens.specs.declared.mark.Mark.TheVariants as mark;
ghost use Rattle.ioa_lines.specs.Lines.{tokens_of};
ghost use Rattle.ioa_lines.specs.Reading as spec;

use crate::arguments::value;
use ioa_cursor::{Tokens, Unread};
use ioa_terms::{Names, Shape, ShapeForm, Value, Word};
use ioa_tokens::{LocatedToken, Mark, Token};
use std::alloc::{AllocError, Global};

/// Whether a token is the word `choose`.
fn is_choose(located: &LocatedToken<'_>) -> bool
    ensures { result ≡ spec.is_choose located.now.token }
{
    match &located.token {
        Token::Mark(mark) => *mark == Mark::Choose,
        Token::Word(_) | Token::Number(_) | Token::LeftOut(_) => false,
    }
}

/// Where the first `choose` stands; at the end if there is none.
fn choose_place(tokens: &[LocatedToken<'_>]) -> usize
    ensures place { result ≡ spec.choose_place (tokens_of tokens.now) }
    ensures within { result ≤ length tokens.now }
{
    let mut place = 0;
    for located in tokens {
        if is_choose(located) {
            return place;
        }
        place += 1;
    }
    place
}

/// The tokens in front of the first `choose`, and those from it on.
pub(crate) fn parted<'t>(
    tokens: &'t [LocatedToken<'t>],
) -> (&'t [LocatedToken<'t>], &'t [LocatedToken<'t>])
    ensures action { tokens_of result.0.now ≡ spec.action_tokens (tokens_of tokens.now) }
    ensures choice { tokens_of result.1.now ≡ spec.choice_tokens (tokens_of tokens.now) }
{
    tokens.split_at(choose_place(tokens))
}

/// The shape by which a chosen value is read: no rule tells it, so its first token does.
#[tactic(auto, unfolding(crate::specs::Reading::simple_shape, crate::specs::choose))]
fn simple_shape(alloc: Global, names: &Names, tokens: &Tokens<'_>) -> Result<Shape, AllocError>
    ensures { IfOk result (λ s. s ≡ spec.simple_shape names.now tokens.now) }
{
    if tokens.at_word() {
        let unnamed = Word::from_ascii(alloc, b"")?;
        return Ok(Shape::of(ShapeForm::Constants(unnamed, 0, names.as_slice().len())));
    }
    if tokens.at_number() || tokens.at(Mark::Minus) {
        return Ok(Shape::of(ShapeForm::Integers));
    }
    Ok(Shape::of(ShapeForm::Truths))
}

/// A number, a truth value or a constant.
fn simple_value(alloc: Global, names: &Names, tokens: &mut Tokens<'_>) -> Result<Value, Unread>
    ensures { Reads (λ v. v) (spec.read_simple names.now tokens.old) result tokens.new }
{
    let shape = simple_shape(alloc, names, tokens)?;
    value(alloc, names, &shape, tokens)
}

/// Value {`,` Value}
#[tactic(auto, unfolding(crate::specs::bind))]
fn listed_choices(
    alloc: Global,
    names: &Names,
    tokens: &mut Tokens<'_>,
) -> Result<Vec<Value>, Unread>
    ensures { Reads (λ v. v.items)
        (several_more (skip mark.Comma) (spec.read_simple names.now) [] tokens.old) result tokens.new }
{
    let first = simple_value(alloc, names, tokens)?;
    let mut values = Vec::new(alloc);
    values.push(first)?;
    for _turn in 0..tokens.len() {
        if !tokens.skip(Mark::Comma) {
            return Ok(values);
        }
        let next = simple_value(alloc, names, tokens)?;
        values.push(next)?;
    }
    Ok(values)
}

/// The values that tokens from `choose` on spell, with nothing behind; none if there is no token.
#[tactic(auto, unfolding(crate::specs::Reading::read_chosen, crate::specs::bind))]
pub(crate) fn read_chosen<'t>(
    alloc: Global,
    names: &Names,
    tokens: &'t [LocatedToken<'t>],
) -> Result<Vec<Value>, Unread>
    ensures { Matches Unread.Memory (λ v. v.items) result (spec.read_chosen names.now (tokens_of tokens.now)) }
{
    if tokens.is_empty() {
        return Ok(Vec::new(alloc));
    }
    let mut rest = Tokens::new(tokens);
    rest.expect(Mark::Choose)?;
    let values = listed_choices(alloc, names, &mut rest)?;
    rest.end()?;
    Ok(values)
}
