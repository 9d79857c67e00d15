//! The action that the tokens of a line spell in front of `choose`.

ghost use Rattle.std.specs.Prelude.{◌≡◌, IfOk};
ghost use Rattle.std.specs.Option.{option_copied};
ghost use Rattle.ioa_values.specs.Outcome.{Matches};
ghost use Rattle.ioa_cursor.specs.Outcome.{Reads};
ghost use Rattle.ioa_system.specs.Parts.{rule_named};
ghost use Rattle.ioa_terms.specs.Bindings.{same_word};
ghost use Rattle.ioa_terms.specs.SameTerms.{same_kind};
ghost use Rattle.ioa_terms.specs.declared.tree.Kind.TheVariants.{Input};
ghost use Rattle.ioa_lines.specs.Grammar.{is_message_name};
ghost use Rattle.ioa_lines.specs.Lines.{tokens_of};
ghost use Rattle.ioa_lines.specs.Reading as spec;

use crate::arguments::arguments;
use crate::node::node_at_end;
use crate::stops::{refusal_in_front_of, refusal_without_rule};
use ioa_actions::{Action, RECEIVE, SEND};
use ioa_cursor::{Tokens, Unread};
use ioa_system::{Rule, System, program_numbered};
use ioa_terms::{Kind, Names, Value, Word};
use ioa_tokens::{LocatedToken, Mark, Token};
use std::alloc::{AllocError, Global};

/// Whether a name is that of sends or that of receives.
pub(crate) fn is_message_name(name: &Word) -> bool
    ensures { result ≡ is_message_name name.now }
{
    name.as_str() == SEND || name.as_str() == RECEIVE
}

/// The action of a rule's name and arguments at a node: an input, or one that the node controls.
fn action_by(
    alloc: Global,
    node: i64,
    rule: &Rule,
    arguments: Vec<Value>,
) -> Result<Action, AllocError>
    ensures { IfOk result
        (λ a. a ≡ spec.action_by (same_kind rule.now.entry.kind Input) node rule.now.entry.name arguments.items) }
{
    let name = &rule.entry.name;
    if rule.entry.kind == Kind::Input {
        Action::input_at(alloc, node, name, &arguments)
    } else {
        Action::locally_controlled_at(alloc, node, name, &arguments)
    }
}

/// Whether an action is of a node, and a send or a receive if it has the name of these.
fn is_written(messages: bool, node: i64, action: &Action) -> bool
    ensures { result ≡ spec.is_written messages node action.now }
{
    match action {
        Action::Send { from, .. } => *from == node,
        Action::Receive { to, .. } => *to == node,
        Action::Local(_) | Action::Stimulus(_) => !messages,
    }
}

/// What comes behind the arguments: nothing behind those of a send or a receive, otherwise `@` and the node.
#[tactic(auto, unfolding(crate::specs::Reading::read_end, crate::specs::bind, crate::specs::choose))]
fn end_of_action(messages: bool, node: i64, tokens: &mut Tokens<'_>) -> Result<(), Unread>
    ensures { Reads (λ u. u) (spec.read_end messages node tokens.old) result tokens.new }
{
    if messages {
        return tokens.end();
    }
    tokens.expect(Mark::AtSign)?;
    let left = tokens.len();
    let number = tokens.number()?;
    if number == node {
        tokens.end()
    } else {
        tokens.end()?;
        Err(Unread::Unexpected(left))
    }
}

/// The action of a node's rule that the tokens behind its name spell.
#[tactic(auto, unfolding(crate::specs::Reading::rule_action, crate::specs::bind))]
fn rule_action(
    alloc: Global,
    names: &Names,
    node: i64,
    rule: &Rule,
    tokens: &mut Tokens<'_>,
) -> Result<Action, Unread>
    ensures { Matches Unread.Memory (λ a. a) result (spec.rule_action names.now node rule.now tokens.old) }
{
    let messages = is_message_name(&rule.entry.name);
    let values = arguments(alloc, names, &rule.shapes, tokens)?;
    end_of_action(messages, node, tokens)?;
    let action = action_by(alloc, node, rule, values)?;
    if is_written(messages, node, &action) {
        Ok(action)
    } else {
        Err(tokens.refusal())
    }
}

/// Whether a rule is for actions of a name.
fn is_named(rule: &Rule, name: &[u8]) -> bool
    ensures { result ≡ same_word rule.now.entry.name name.now }
{
    rule.entry.name.as_str().as_bytes() == name
}

/// The rule of a name, if there is one. Costs time in proportion to the number of rules.
pub(crate) fn rule_named<'a>(rules: &'a [Rule], name: &[u8]) -> Option<&'a Rule>
    ensures { option_copied result ≡ rule_named name.now rules.now }
{
    for rule in rules {
        if is_named(rule, name) {
            return Some(rule);
        }
    }
    None
}

/// The rule of a name that the program of a node has.
#[tactic(auto, unfolding(crate::specs::Reading::rule_at, crate::specs::bind))]
fn rule_at<'a>(system: &'a System, node: i64, name: &[u8]) -> Option<&'a Rule>
    ensures { option_copied result ≡ spec.rule_at system.now node name.now }
{
    let program = program_numbered(system.programs(), node)?;
    rule_named(program.automaton().rules(), name)
}

/// The action of a name, by the tokens behind it.
#[tactic(auto, unfolding(crate::specs::Reading::named_action, crate::specs::bind))]
fn named_action<'t>(
    alloc: Global,
    system: &System,
    name: &[u8],
    tokens: &'t [LocatedToken<'t>],
) -> Result<Action, Unread>
    ensures { Matches Unread.Memory (λ a. a) result
        (spec.named_action system.now name.now (tokens_of tokens.now)) }
{
    let Some(node) = node_at_end(name, tokens) else {
        return Err(refusal_without_rule(alloc, system, name, tokens));
    };
    let Some(rule) = rule_at(system, node, name) else {
        return Err(refusal_without_rule(alloc, system, name, tokens));
    };
    let mut rest = Tokens::new(tokens);
    rule_action(alloc, system.names(), node, rule, &mut rest)
}

/// The tokens behind the number that a line may begin with.
pub(crate) fn behind_number<'t>(tokens: &'t [LocatedToken<'t>]) -> &'t [LocatedToken<'t>]
    ensures { tokens_of result.now ≡ spec.behind_number (tokens_of tokens.now) }
{
    match tokens {
        [first, rest @ ..] => match &first.token {
            Token::Number(_) => rest,
            Token::Mark(_) | Token::Word(_) | Token::LeftOut(_) => tokens,
        },
        [] => tokens,
    }
}

/// The action of a system that tokens spell, with a number in front or none. Costs time in proportion to the tokens, to
/// the programs and to the rules of one; and if they spell none, to the rules of all.
#[tactic(auto, unfolding(crate::specs::Reading::line_action, crate::specs::bind, crate::specs::word))]
pub(crate) fn action_of<'t>(
    alloc: Global,
    system: &System,
    tokens: &'t [LocatedToken<'t>],
) -> Result<Action, Unread>
    ensures { Matches Unread.Memory (λ a. a) result (spec.line_action system.now (tokens_of tokens.now)) }
{
    match behind_number(tokens) {
        [first, rest @ ..] => match &first.token {
            Token::Word(name) => named_action(alloc, system, name.as_bytes(), rest),
            Token::Number(_) | Token::Mark(_) | Token::LeftOut(_) => {
                Err(refusal_in_front_of(rest))
            }
        },
        [] => Err(Unread::Unexpected(0)),
    }
}
