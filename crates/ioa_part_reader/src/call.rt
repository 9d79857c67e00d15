//! Calls, kinds of actions, and firings.

ghost use Rattle.std.specs.Prelude.{◌≡◌, map};
ghost use Rattle.ioa_cursor.specs.Outcome.{Reads};
ghost use Rattle.ioa_source.specs.TextView.{call_of};
ghost use Rattle.ioa_terms.specs.View.{term_of};
ghost use Rattle.ioa_part_reader.specs.Built.{built_call_of, built_firing_of};
ghost use Rattle.ioa_part_reader.specs.Reading as spec;

use crate::built::BuiltTerms;
use ioa_cursor::{Tokens, Unread};
use ioa_source::Call;
use ioa_term_reader::{BRACKET_LIMIT, term};
use ioa_terms::{Kind, Word};
use ioa_tokens::Mark;
use std::alloc::Global;

/// How many brackets may be opened within the brackets of a call, an entry, an automaton or a target:
/// these are open, too.
pub(crate) const INNER_LIMIT: usize = BRACKET_LIMIT - 1;

/// Term {`,` Term}, in brackets
#[tactic(auto, unfolding(crate::specs::Reading::terms, crate::specs::bind))]
fn terms(alloc: Global, tokens: &mut Tokens<'_>) -> Result<BuiltTerms, Unread>
    ensures { Reads (λ b. map term_of b.tree.items) (spec.terms tokens.old) result tokens.new }
{
    let first = term(alloc, tokens, INNER_LIMIT)?;
    let mut terms = BuiltTerms::none(alloc).with_next(first)?;
    for _turn in 0..tokens.len() {
        if !tokens.skip(Mark::Comma) {
            return Ok(terms);
        }
        let next = term(alloc, tokens, INNER_LIMIT)?;
        terms = terms.with_next(next)?;
    }
    Ok(terms)
}

/// [`(` [Term {`,` Term}] `)`]
#[tactic(auto, unfolding(crate::specs::Reading::arguments, crate::specs::bind, crate::specs::choose))]
fn arguments(alloc: Global, tokens: &mut Tokens<'_>) -> Result<BuiltTerms, Unread>
    ensures { Reads (λ b. map term_of b.tree.items) (spec.arguments tokens.old) result tokens.new }
{
    if !tokens.skip(Mark::OpenRound) {
        return Ok(BuiltTerms::none(alloc));
    }
    if tokens.skip(Mark::CloseRound) {
        return Ok(BuiltTerms::none(alloc));
    }
    let arguments = terms(alloc, tokens)?;
    tokens.expect(Mark::CloseRound)?;
    Ok(arguments)
}

/// A call, with the height of its highest argument.
#[derive(Drop)]
pub(crate) struct BuiltCall {
    pub name: Word,
    pub arguments: BuiltTerms,
}

/// Word [`(` [Term {`,` Term}] `)`]
#[tactic(auto, unfolding(crate::specs::Reading::call, crate::specs::bind))]
pub(crate) fn built_call(alloc: Global, tokens: &mut Tokens<'_>) -> Result<BuiltCall, Unread>
    ensures { Reads built_call_of (spec.call tokens.old) result tokens.new }
{
    let name = tokens.word(alloc)?;
    let arguments = arguments(alloc, tokens)?;
    Ok(BuiltCall { name, arguments })
}

/// The same without the height.
pub(crate) fn call(alloc: Global, tokens: &mut Tokens<'_>) -> Result<Call<(), (), ()>, Unread>
    ensures { Reads call_of (spec.call tokens.old) result tokens.new }
{
    let call = built_call(alloc, tokens)?;
    Ok(Call {
        name: call.name,
        arguments: call.arguments.into_tree(),
    })
}

/// Call {`,` Call}
#[tactic(auto, unfolding(crate::specs::Reading::calls, crate::specs::bind))]
pub(crate) fn calls(alloc: Global, tokens: &mut Tokens<'_>) -> Result<Vec<Call<(), (), ()>>, Unread>
    ensures { Reads (λ v. map call_of v.items) (spec.calls tokens.old) result tokens.new }
{
    let mut calls = Vec::new(alloc);
    calls.push(call(alloc, tokens)?)?;
    for _turn in 0..tokens.len() {
        if !tokens.skip(Mark::Comma) {
            return Ok(calls);
        }
        calls.push(call(alloc, tokens)?)?;
    }
    Ok(calls)
}

/// The kind that a mark says, if it says one.
fn kind_of(mark: Mark) -> Option<Kind>
    ensures { result ≡ spec.kind_of mark }
{
    match mark {
        Mark::Input => Some(Kind::Input),
        Mark::Output => Some(Kind::Output),
        Mark::Internal => Some(Kind::Internal),
        _ => None,
    }
}

/// The kind that comes first, if one does.
#[tactic(auto, unfolding(crate::specs::Reading::kind_first, crate::specs::bind))]
fn kind_first(tokens: &Tokens<'_>) -> Option<Kind>
    ensures { result ≡ spec.kind_first tokens.now }
{
    kind_of(tokens.peek_mark()?)
}

/// Whether a kind comes first.
#[tactic(auto, unfolding(crate::specs::Reading::at_kind))]
pub(crate) fn at_kind(tokens: &Tokens<'_>) -> bool
    ensures { result ≡ spec.at_kind tokens.now }
{
    kind_first(tokens).is_some()
}

/// `input`, `output` or `internal`
#[tactic(auto, unfolding(crate::specs::Reading::kind, crate::specs::bind))]
pub(crate) fn kind(tokens: &mut Tokens<'_>) -> Result<Kind, Unread>
    ensures { Reads (λ k. k) (spec.kind tokens.old) result tokens.new }
{
    let refusal = tokens.refusal();
    match kind_first(tokens) {
        None => Err(refusal),
        Some(kind) => {
            tokens.advance();
            Ok(kind)
        }
    }
}

/// A firing, with the height of its highest argument.
#[derive(Drop)]
pub(crate) struct BuiltFiring {
    pub kind: Option<Kind>,
    pub call: BuiltCall,
}

/// [Kind] Call, after `fire`
#[tactic(auto, unfolding(crate::specs::Reading::firing, crate::specs::bind, crate::specs::choose))]
pub(crate) fn firing(alloc: Global, tokens: &mut Tokens<'_>) -> Result<BuiltFiring, Unread>
    ensures { Reads built_firing_of (spec.firing tokens.old) result tokens.new }
{
    if !at_kind(tokens) {
        let call = built_call(alloc, tokens)?;
        return Ok(BuiltFiring { kind: None, call });
    }
    let kind = kind(tokens)?;
    let call = built_call(alloc, tokens)?;
    Ok(BuiltFiring {
        kind: Some(kind),
        call,
    })
}
