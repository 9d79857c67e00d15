//! The entry that the tokens of a line spell.

ghost use Rattle.std.specs.Prelude.{◌≡◌, IfOk};
ghost use Rattle.ioa_transitions.specs.Entries as entries;
ghost use Rattle.ioa_values.specs.Outcome.{Matches};
ghost use Rattle.ioa_lines.specs.Lines.{tokens_of};
ghost use Rattle.ioa_lines.specs.Reading as spec;

use crate::action::action_of;
use crate::choices::{parted, read_chosen};
use crate::stops::in_front_of;
use ioa_actions::Action;
use ioa_cursor::Unread;
use ioa_system::System;
use ioa_terms::{Choices, Value};
use ioa_tokens::LocatedToken;
use ioa_transitions::Entry;
use std::alloc::{AllocError, Global};

/// The entry of a step by an action whose effect chose these values.
fn entry_choosing(alloc: Global, action: Action, chosen: Vec<Value>) -> Result<Entry, AllocError>
    ensures { IfOk result (λ e. e ≡ entries.entry action chosen.items) }
{
    Entry::of(alloc, action)?.with_choices(alloc, Choices::Yielded(chosen))
}

/// The action that the tokens of a line spell, in front of so many others.
fn action_in_front<'t>(
    alloc: Global,
    system: &System,
    tokens: &'t [LocatedToken<'t>],
    behind: usize,
) -> Result<Action, Unread>
    ensures { Matches Unread.Memory (λ a. a) result (spec.line_action system.now (tokens_of tokens.now)) }
{
    match action_of(alloc, system, tokens) {
        Ok(action) => Ok(action),
        Err(refusal) => Err(in_front_of(refusal, behind)),
    }
}

/// The entry of a system that the tokens of a line spell: an action of the system, and behind `choose` values of which
/// it is not asked whether the action's effect may choose them. If they spell none, the refusal tells how many tokens
/// are left, from the one on that does not fit. Costs time in proportion to the tokens, to the programs and to the
/// rules of one; and if they spell none, to the rules of all.
#[tactic(auto, unfolding(crate::specs::Reading::line_entry, crate::specs::bind))]
pub fn entry_spelled<'t>(
    alloc: Global,
    system: &System,
    tokens: &'t [LocatedToken<'t>],
) -> Result<Entry, Unread>
    ensures { Matches Unread.Memory (λ e. e) result (spec.line_entry system.now (tokens_of tokens.now)) }
{
    let (action, choice) = parted(tokens);
    let action = action_in_front(alloc, system, action, choice.len())?;
    let chosen = read_chosen(alloc, system.names(), choice)?;
    let entry = entry_choosing(alloc, action, chosen)?;
    Ok(entry)
}
