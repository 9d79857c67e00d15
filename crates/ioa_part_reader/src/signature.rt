//! Signatures.

ghost use Rattle.std.specs.Prelude.{map};
ghost use Rattle.std.specs.Option.{option_map};
ghost use Rattle.ioa_cursor.specs.Outcome.{Reads};
ghost use Rattle.ioa_source.specs.TextView.{parameter_of, entry_of};
ghost use Rattle.ioa_terms.specs.View.{term_of};
ghost use Rattle.ioa_part_reader.specs.Reading as spec;

use crate::call::{INNER_LIMIT, at_kind, kind};
use crate::declared::parameters;
use ioa_cursor::{Tokens, Unread};
use ioa_source::{Entry, Parameter};
use ioa_term_reader::{BRACKET_LIMIT, term};
use ioa_terms::{Kind, Term};
use ioa_tokens::Mark;
use std::alloc::Global;

/// [`(` [Param {`,` Param}] `)`]
#[tactic(auto, unfolding(crate::specs::Reading::entry_parameters, crate::specs::bind, crate::specs::choose))]
fn entry_parameters(
    alloc: Global,
    tokens: &mut Tokens<'_>,
) -> Result<Vec<Parameter<(), (), ()>>, Unread>
    ensures { Reads (λ v. map parameter_of v.items) (spec.entry_parameters tokens.old) result tokens.new }
{
    if !tokens.skip(Mark::OpenRound) {
        return Ok(Vec::new(alloc));
    }
    if tokens.skip(Mark::CloseRound) {
        return Ok(Vec::new(alloc));
    }
    let parameters = parameters(alloc, tokens, INNER_LIMIT)?;
    tokens.expect(Mark::CloseRound)?;
    Ok(parameters)
}

/// [`where` Term]
#[tactic(auto, unfolding(crate::specs::Reading::condition, crate::specs::bind, crate::specs::choose))]
fn condition(alloc: Global, tokens: &mut Tokens<'_>) -> Result<Option<Term>, Unread>
    ensures { Reads (option_map term_of) (spec.condition tokens.old) result tokens.new }
{
    if !tokens.skip(Mark::Where) {
        return Ok(None);
    }
    let condition = term(alloc, tokens, BRACKET_LIMIT)?;
    Ok(Some(condition.into_tree()))
}

/// Word [`(` [Param {`,` Param}] `)`] [`where` Term]
#[tactic(auto, unfolding(crate::specs::Reading::entry, crate::specs::bind))]
fn entry(alloc: Global, tokens: &mut Tokens<'_>, kind: Kind) -> Result<Entry<(), (), ()>, Unread>
    ensures { Reads entry_of (spec.entry kind tokens.old) result tokens.new }
{
    let name = tokens.word(alloc)?;
    let parameters = entry_parameters(alloc, tokens)?;
    let condition = condition(alloc, tokens)?;
    Ok(Entry {
        kind,
        name,
        parameters,
        condition,
    })
}

/// Entry {`,` Entry} [`,`]
#[tactic(auto, unfolding(crate::specs::Reading::entries, crate::specs::bind))]
fn entries(
    alloc: Global,
    tokens: &mut Tokens<'_>,
    kind: Kind,
) -> Result<Vec<Entry<(), (), ()>>, Unread>
    ensures { Reads (λ v. map entry_of v.items) (spec.entries kind tokens.old) result tokens.new }
{
    let mut entries = Vec::new(alloc);
    entries.push(entry(alloc, tokens, kind)?)?;
    for _turn in 0..tokens.len() {
        if !tokens.resumes_with_word(Mark::Comma) {
            return Ok(entries);
        }
        entries.push(entry(alloc, tokens, kind)?)?;
    }
    Ok(entries)
}

/// Kind Entry {`,` Entry} [`,`]
#[tactic(auto, unfolding(crate::specs::Reading::group, crate::specs::bind))]
fn group(alloc: Global, tokens: &mut Tokens<'_>) -> Result<Vec<Entry<(), (), ()>>, Unread>
    ensures { Reads (λ v. map entry_of v.items) (spec.group tokens.old) result tokens.new }
{
    let kind = kind(tokens)?;
    entries(alloc, tokens, kind)
}

/// {Kind Entry {`,` Entry} [`,`]}
#[tactic(auto, unfolding(crate::specs::Reading::groups))]
fn groups(alloc: Global, tokens: &mut Tokens<'_>) -> Result<Vec<Entry<(), (), ()>>, Unread>
    ensures { Reads (λ v. map entry_of v.items) (spec.groups tokens.old) result tokens.new }
{
    let mut entries = Vec::new(alloc);
    for _turn in 0..tokens.len() {
        if !at_kind(tokens) {
            return Ok(entries);
        }
        let mut more = group(alloc, tokens)?;
        entries.append(&mut more)?;
    }
    Ok(entries)
}

/// [`signature` {Kind Entry {`,` Entry} [`,`]}]
#[tactic(auto, unfolding(crate::specs::Reading::signature_part, crate::specs::choose))]
pub(crate) fn signature_part(
    alloc: Global,
    tokens: &mut Tokens<'_>,
) -> Result<Vec<Entry<(), (), ()>>, Unread>
    ensures { Reads (λ v. map entry_of v.items) (spec.signature_part tokens.old) result tokens.new }
{
    if !tokens.skip(Mark::Signature) {
        return Ok(Vec::new(alloc));
    }
    groups(alloc, tokens)
}
