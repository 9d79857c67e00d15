//! Actions as text.

ghost use Rattle.std.specs.Prelude.{◌≡◌, ◌++◌, IfOk, OnOk, map, string_bytes, codes};
ghost use Rattle.std.specs.Fmt.{signed_decimal};
ghost use Rattle.ioa_values.specs.Outcome.{Writes};
ghost use Rattle.ioa_values.specs.Text.{text, with_commas, separator};
ghost use Rattle.ioa_actions.specs.ActionText.{arguments_text, node_action_text, message_text, action_text};

use crate::action::{Action, NodeAction, RECEIVE, SEND};
use ioa_values::{Names, Value, push_separator, show};
use std::alloc::{AllocError, Global};

/// Writes a piece of a list behind the pieces before it, with a comma and a space between; `position` is
/// the position of the piece in the list.
pub fn push_listed(list: &mut String, position: usize, item: &str) -> Result<(), AllocError>
    ensures { OnOk result (Writes list.old list.new (separator position ++ item.now)) }
{
    push_separator(list, position)?;
    list.push_str(item)
}

/// The texts of values, with a comma and a space between.
fn show_listed(alloc: Global, names: &Names, values: &[Value]) -> Result<String, AllocError>
    ensures { IfOk result (λ s. string_bytes s ≡ with_commas (map (text names.now) values.now)) }
{
    let mut list = String::new(alloc);
    for (position, value) in values.iter().enumerate() {
        let item = show(alloc, names, value)?;
        push_listed(&mut list, position, item.as_str())?;
    }
    Ok(list)
}

/// The arguments of an action in round brackets, or nothing if it has none.
fn show_arguments(alloc: Global, names: &Names, values: &[Value]) -> Result<String, AllocError>
    ensures { IfOk result (λ s. string_bytes s ≡ arguments_text names.now values.now) }
{
    match values {
        [] => Ok(String::new(alloc)),
        [_, ..] => {
            let list = show_listed(alloc, names, values)?;
            format!(in alloc; "({list})")
        }
    }
}

/// The text of an action of a node: name, arguments and node.
fn show_at_node(alloc: Global, name: &str, arguments: &str, node: i64) -> Result<String, AllocError>
    ensures { IfOk result
        (λ s. string_bytes s ≡ name.now ++ (arguments.now ++ (codes "@" ++ signed_decimal node))) }
{
    format!(in alloc; "{name}{arguments}@{node}")
}

/// The text of an action of a node (profile): `a(v, w)@k`, or `a@k` if it has no arguments.
pub fn show_node_action(
    alloc: Global,
    names: &Names,
    action: &NodeAction,
) -> Result<String, AllocError>
    ensures { IfOk result (λ s. string_bytes s ≡ node_action_text names.now action.now) }
{
    let arguments = show_arguments(alloc, names, action.arguments.as_slice())?;
    show_at_node(alloc, action.name.as_str(), arguments.as_str(), action.node)
}

/// The text of a send or a receive.
fn show_message(
    alloc: Global,
    name: &str,
    message: &str,
    from: i64,
    to: i64,
) -> Result<String, AllocError>
    ensures { IfOk result (λ s. string_bytes s ≡ message_text name.now message.now from to) }
{
    format!(in alloc; "{name}({message}, {from}, {to})")
}

/// The text of an action (profile): `send(m, i, j)`, `receive(m, i, j)`, and for all others `a(v, w)@k`,
/// or `a@k` if it has no arguments.
pub fn show_action(alloc: Global, names: &Names, action: &Action) -> Result<String, AllocError>
    ensures { IfOk result (λ s. string_bytes s ≡ action_text names.now action.now) }
{
    match action {
        Action::Send { message, from, to } => {
            let message = show(alloc, names, message)?;
            show_message(alloc, SEND, message.as_str(), *from, *to)
        }
        Action::Receive { message, from, to } => {
            let message = show(alloc, names, message)?;
            show_message(alloc, RECEIVE, message.as_str(), *from, *to)
        }
        Action::Local(action) => show_node_action(alloc, names, action),
        Action::Stimulus(action) => show_node_action(alloc, names, action),
    }
}
