//! Where the tokens of a line stop to spell an entry, if no rule tells it.

ghost use Rattle.std.specs.Prelude.{◌≡◌};

use crate::action::{behind_number, is_message_name, rule_named};
use crate::arguments::arguments;
use crate::choices::{parted, read_chosen};
use crate::node::{node_at_end, node_place};
use ioa_cursor::{Tokens, Unread};
use ioa_system::{Rule, System, program_numbered};
use ioa_terms::Names;
use ioa_tokens::{LocatedToken, Mark, Token};
use std::alloc::{AllocError, Global};

/// The refusal of the token in front of these.
pub(crate) fn refusal_in_front_of(tokens: &[LocatedToken<'_>]) -> Unread {
    Unread::Unexpected(tokens.len().saturating_add(1))
}

/// The refusal of the tokens behind a name, if the node at their end has no rule of this name. If they spell an action
/// of another node, it is that of the node's number, if no program is there, or else that of the name.
pub(crate) fn refusal_without_rule<'t>(
    alloc: Global,
    system: &System,
    name: &[u8],
    tokens: &'t [LocatedToken<'t>],
) -> Unread {
    match read_by_any(alloc, system, name, tokens) {
        Err(refusal) => refusal,
        Ok(()) => {
            if is_missing(system, node_at_end(name, tokens)) {
                Unread::Unexpected(node_place(name, tokens))
            } else {
                refusal_in_front_of(tokens)
            }
        }
    }
}

/// Whether no program is at a node.
fn is_missing(system: &System, node: Option<i64>) -> bool {
    match node {
        Some(node) => program_numbered(system.programs(), node).is_none(),
        None => true,
    }
}

/// Reads the tokens behind a name as those of an action of any node. The refusal is that of the rule of this name by
/// which they are read furthest, or that of the name if there is no such rule.
fn read_by_any<'t>(
    alloc: Global,
    system: &System,
    name: &[u8],
    tokens: &'t [LocatedToken<'t>],
) -> Result<(), Unread> {
    let mut furthest = refusal_in_front_of(tokens);
    for program in system.programs() {
        if let Some(rule) = rule_named(program.automaton().rules(), name) {
            match read_by(alloc, system.names(), rule, tokens) {
                Ok(()) => return Ok(()),
                Err(Unread::Memory) => return Err(Unread::Memory),
                Err(refusal) => furthest = further(furthest, refusal),
            }
        }
    }
    Err(furthest)
}

/// Reads the tokens behind the name of a rule as those of its action at any node.
fn read_by<'t>(
    alloc: Global,
    names: &Names,
    rule: &Rule,
    tokens: &'t [LocatedToken<'t>],
) -> Result<(), Unread> {
    let mut rest = Tokens::new(tokens);
    let values = arguments(alloc, names, &rule.shapes, &mut rest)?;
    drop(values);
    if !is_message_name(&rule.entry.name) {
        rest.expect(Mark::AtSign)?;
        rest.number()?;
    }
    rest.end()
}

/// A refusal of tokens, if so many others stand behind them.
pub(crate) fn in_front_of(refusal: Unread, behind: usize) -> Unread
    ensures { refusal ≡ Unread.Memory → result ≡ Unread.Memory }
{
    match refusal {
        Unread::Unexpected(left) => Unread::Unexpected(left.saturating_add(behind)),
        Unread::TooDeep(left) => Unread::TooDeep(left.saturating_add(behind)),
        Unread::LeftOut(word, left) => Unread::LeftOut(word, left.saturating_add(behind)),
        Unread::Memory => Unread::Memory,
    }
}

/// How many tokens a refusal leaves, from the refused one on; none for want of memory.
fn left_of(refusal: &Unread) -> usize {
    match refusal {
        Unread::Unexpected(left) | Unread::TooDeep(left) | Unread::LeftOut(_, left) => *left,
        Unread::Memory => 0,
    }
}

/// The refusal that leaves fewer tokens.
fn further(first: Unread, second: Unread) -> Unread {
    if left_of(&second) < left_of(&first) {
        second
    } else {
        first
    }
}

/// How many tokens of a line are left, if reading stopped with so many: one more if it stopped behind a name that is no
/// constant, since the reader of values goes past a name before it looks for its constant.
pub(crate) fn left_from_name<'t>(
    names: &Names,
    tokens: &'t [LocatedToken<'t>],
    left: usize,
) -> usize {
    let Some(behind_name) = behind_number(tokens).get(1..) else {
        return left;
    };
    let more = left.saturating_add(1);
    match behind_name.len().checked_sub(more) {
        Some(place) if is_unknown(names, behind_name.get(place)) => more,
        _ => left,
    }
}

/// Whether a token is a name that is none of these.
fn is_unknown(names: &Names, located: Option<&LocatedToken<'_>>) -> bool {
    match located.map(|located| &located.token) {
        Some(Token::Word(word)) => {
            let name = word.as_bytes();
            !names
                .as_slice()
                .iter()
                .any(|other| other.as_str().as_bytes() == name)
        }
        _ => false,
    }
}

/// How many tokens are left where these stop to be the beginning of a line of a system, whatever the node of its action
/// is; none if they do not.
pub fn left_of_beginning<'t>(
    alloc: Global,
    system: &System,
    tokens: &'t [LocatedToken<'t>],
) -> Result<usize, AllocError> {
    match read_beginning(alloc, system, tokens) {
        Ok(()) => Ok(0),
        Err(Unread::Memory) => Err(AllocError),
        Err(refusal) => Ok(left_from_name(system.names(), tokens, left_of(&refusal))),
    }
}

/// Reads the tokens of a line, whatever the node of its action is.
fn read_beginning<'t>(
    alloc: Global,
    system: &System,
    tokens: &'t [LocatedToken<'t>],
) -> Result<(), Unread> {
    let (action, choice) = parted(tokens);
    match read_action(alloc, system, action) {
        Ok(()) => {
            let chosen = read_chosen(alloc, system.names(), choice)?;
            drop(chosen);
            Ok(())
        }
        Err(refusal) => Err(in_front_of(refusal, choice.len())),
    }
}

/// Reads tokens as those of an action of any node, with a number in front or none.
fn read_action<'t>(
    alloc: Global,
    system: &System,
    tokens: &'t [LocatedToken<'t>],
) -> Result<(), Unread> {
    match behind_number(tokens) {
        [first, rest @ ..] => match &first.token {
            Token::Word(name) => read_by_any(alloc, system, name.as_bytes(), rest),
            Token::Number(_) | Token::Mark(_) | Token::LeftOut(_) => {
                Err(refusal_in_front_of(rest))
            }
        },
        [] => Err(Unread::Unexpected(0)),
    }
}
