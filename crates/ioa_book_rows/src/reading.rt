//! How the words of a command are read.

ghost use Rattle.std.specs.Prelude.{◌≤◌, IfOk};

use ioa_actions::{Action, Component, NodeAction};
use ioa_rows::CommandFault;
use ioa_values::{Value, Word};
use std::alloc::{AllocError, Global};

/// Says that there are no more words.
pub(crate) fn no_more(words: &[&str]) -> Result<(), CommandFault> {
    match words {
        [] => Ok(()),
        [_, ..] => Err(CommandFault::Bad("no more words are wanted")),
    }
}

/// The number from 0 that is the only word.
pub(crate) fn only_count(words: &[&str]) -> Result<usize, CommandFault> {
    match words {
        [word] => count_of(word),
        _ => Err(CommandFault::Bad("one number is wanted")),
    }
}

/// The number that is the only word.
pub(crate) fn only_number(words: &[&str]) -> Result<i64, CommandFault> {
    match words {
        [word] => number_of(word),
        _ => Err(CommandFault::Bad("one number is wanted")),
    }
}

/// The two numbers from 0 that are the only words.
pub(crate) fn two_counts(words: &[&str]) -> Result<(usize, usize), CommandFault> {
    match words {
        [word, other] => {
            let count = count_of(word)?;
            Ok((count, count_of(other)?))
        }
        _ => Err(CommandFault::Bad("two numbers are wanted")),
    }
}

/// The number from 0 that a word is.
pub(crate) fn count_of(word: &str) -> Result<usize, CommandFault> {
    match word.parse::<usize>() {
        Ok(count) => Ok(count),
        Err(_) => Err(CommandFault::Bad("a number from 0 is wanted")),
    }
}

/// The number from 0 up to the most that a word is.
pub(crate) fn count_within(
    word: &str,
    most: usize,
    wanted: &'static str,
) -> Result<usize, CommandFault>
    ensures { IfOk result (λ n. n ≤ most) }
{
    match word.parse::<usize>() {
        Ok(count) if count <= most => Ok(count),
        _ => Err(CommandFault::Bad(wanted)),
    }
}

/// The number that a word is.
pub(crate) fn number_of(word: &str) -> Result<i64, CommandFault> {
    match word.parse::<i64>() {
        Ok(number) => Ok(number),
        Err(_) => Err(CommandFault::Bad("a number is wanted")),
    }
}

/// The component of a kind, with the words behind it.
pub(crate) fn component_of(kind: &str, nodes: &[&str]) -> Result<Component, CommandFault> {
    match kind.as_bytes() {
        b"node" => Ok(Component::Node(only_number(nodes)?)),
        b"channel" => channel_of(nodes),
        b"script" => Ok(Component::Script(only_number(nodes)?)),
        _ => Err(CommandFault::Bad("node, channel or script is wanted")),
    }
}

/// The channel of two nodes.
fn channel_of(nodes: &[&str]) -> Result<Component, CommandFault> {
    match nodes {
        [from, to] => {
            let from = number_of(from)?;
            let to = number_of(to)?;
            Ok(Component::Channel { from, to })
        }
        _ => Err(CommandFault::Bad("two nodes are wanted")),
    }
}

/// The action that words are, in a text that declares these constants.
pub(crate) fn action_of(
    alloc: Global,
    constants: &[Word],
    words: &[&str],
) -> Result<Action, CommandFault> {
    match words {
        [kind, rest @ ..] => action_of_kind(alloc, constants, kind, rest),
        [] => Err(CommandFault::Bad("an action is wanted")),
    }
}

/// The action of a kind, with the words behind it.
fn action_of_kind(
    alloc: Global,
    constants: &[Word],
    kind: &str,
    words: &[&str],
) -> Result<Action, CommandFault> {
    match kind.as_bytes() {
        b"send" => send_of(constants, words),
        b"receive" => receive_of(constants, words),
        b"local" => Ok(Action::Local(node_action_of(alloc, constants, words)?)),
        b"stimulus" => Ok(Action::Stimulus(node_action_of(alloc, constants, words)?)),
        _ => Err(CommandFault::Bad("send, receive, local or stimulus is wanted")),
    }
}

/// The send of a message and two nodes.
fn send_of(constants: &[Word], words: &[&str]) -> Result<Action, CommandFault> {
    match words {
        [message, from, to] => {
            let from = number_of(from)?;
            let to = number_of(to)?;
            let message = value_of(constants, message)?;
            Ok(Action::Send { message, from, to })
        }
        _ => Err(CommandFault::Bad("a message and two nodes are wanted")),
    }
}

/// The receive of a message and two nodes.
fn receive_of(constants: &[Word], words: &[&str]) -> Result<Action, CommandFault> {
    match words {
        [message, from, to] => {
            let from = number_of(from)?;
            let to = number_of(to)?;
            let message = value_of(constants, message)?;
            Ok(Action::Receive { message, from, to })
        }
        _ => Err(CommandFault::Bad("a message and two nodes are wanted")),
    }
}

/// The action of a node, a name and values.
fn node_action_of(
    alloc: Global,
    constants: &[Word],
    words: &[&str],
) -> Result<NodeAction, CommandFault> {
    match words {
        [node, name, values @ ..] => {
            let node = number_of(node)?;
            let name = name_of(alloc, name)?;
            let arguments = values_of(alloc, constants, values)?;
            Ok(NodeAction::new(alloc, node, &name, arguments)?)
        }
        _ => Err(CommandFault::Bad("a node and a name are wanted")),
    }
}

/// The name of an action.
fn name_of(alloc: Global, name: &str) -> Result<Word, CommandFault> {
    let bytes = name.as_bytes();
    if bytes
        .iter()
        .all(|&byte| byte.is_ascii_alphanumeric() || byte == b'_')
    {
        Ok(Word::from_ascii(alloc, bytes)?)
    } else {
        Err(CommandFault::Bad("a name of letters, digits and _ is wanted"))
    }
}

/// The values that words are.
fn values_of(
    alloc: Global,
    constants: &[Word],
    words: &[&str],
) -> Result<Vec<Value>, CommandFault> {
    let mut values = Vec::new(alloc);
    for word in words {
        push_value(&mut values, value_of(constants, word)?)?;
    }
    Ok(values)
}

/// Adds a value.
fn push_value(values: &mut Vec<Value>, value: Value) -> Result<(), AllocError> {
    values.push(value)?;
    Ok(())
}

/// The value that a word is.
fn value_of(constants: &[Word], word: &str) -> Result<Value, CommandFault> {
    match word.as_bytes() {
        b"true" => Ok(Value::truth(true)),
        b"false" => Ok(Value::truth(false)),
        _ => match word.parse::<i64>() {
            Ok(number) => Ok(Value::number(number)),
            Err(_) => constant_of(constants, word),
        },
    }
}

/// The constant of a name.
fn constant_of(constants: &[Word], word: &str) -> Result<Value, CommandFault> {
    match constants.iter().position(|name| name.as_str() == word) {
        Some(position) => Ok(Value::constant(position)),
        None => Err(CommandFault::Bad("a number, true, false or a constant of the text is wanted")),
    }
}
