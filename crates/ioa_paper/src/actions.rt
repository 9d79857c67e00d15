//! Actions, written on a paper.

ghost use Rattle.std.specs.Prelude.{◌≡◌, ◌++◌, codes, map};
ghost use Rattle.ioa_values.specs.Text.{text, with_commas};
ghost use Rattle.std.specs.Fmt.{signed_decimal};
ghost use Rattle.ioa_actions.specs.ActionText.{action_text, arguments_text, chosen_text, entry_text};
ghost use Rattle.ioa_actions.specs.ActionText.{message_text, node_action_text};
ghost use Rattle.ioa_paper.specs.Papers.{and_text};

use crate::paper::Paper;
use crate::values::{put_separator, put_value};
use ioa_actions::{Action, NodeAction, RECEIVE, SEND};
use ioa_streams::Out;
use ioa_values::{Names, Value};

/// Writes the text of an action with the values that its effect chose: `a@k choose v, w`, or as `put_action` does if it
/// chose none.
pub fn put_entry<O: Out>(paper: &mut Paper<'_, O>, names: &Names, action: &Action, chosen: &[Value])
    ensures { paper.new ≡ and_text paper.old (entry_text names.now action.now chosen.now) }
{
    put_action(paper, names, action);
    put_choices(paper, names, chosen);
}

/// Writes the text of an action: `send(m, i, j)`, `receive(m, i, j)`, and `a(v, w)@k` or `a@k` for all others.
pub fn put_action<O: Out>(paper: &mut Paper<'_, O>, names: &Names, action: &Action)
    ensures { paper.new ≡ and_text paper.old (action_text names.now action.now) }
{
    match action {
        Action::Send { message, from, to } => {
            put_message(paper, names, SEND, message, *from, *to)
        }
        Action::Receive { message, from, to } => {
            put_message(paper, names, RECEIVE, message, *from, *to)
        }
        Action::Local(action) => put_node_action(paper, names, action),
        Action::Stimulus(action) => put_node_action(paper, names, action),
    }
}

/// Writes a send or a receive, whose name it is.
pub fn put_message<O: Out>(
    paper: &mut Paper<'_, O>,
    names: &Names,
    name: &str,
    message: &Value,
    from: i64,
    to: i64,
)
    ensures { paper.new ≡ and_text paper.old (message_text name.now (text names.now message.now) from to) }
{
    paper.put(name);
    paper.put("(");
    put_value(paper, names, message);
    put_ends(paper, from, to);
}

/// Writes the two nodes of a send or a receive, each behind a comma, and the bracket behind them.
fn put_ends<O: Out>(paper: &mut Paper<'_, O>, from: i64, to: i64)
    ensures { paper.new ≡ and_text paper.old
        (codes ", " ++ (signed_decimal from ++ (codes ", " ++ (signed_decimal to ++ codes ")")))) }
{
    paper.put(", ");
    paper.put_number(from);
    paper.put(", ");
    paper.put_number(to);
    paper.put(")");
}

/// Writes the text of an action of a node: `a(v, w)@k`, or `a@k` if it has no arguments.
pub fn put_node_action<O: Out>(paper: &mut Paper<'_, O>, names: &Names, action: &NodeAction)
    ensures { paper.new ≡ and_text paper.old (node_action_text names.now action.now) }
{
    paper.put(action.name.as_str());
    put_arguments(paper, names, action.arguments.as_slice());
    paper.put("@");
    paper.put_number(action.node);
}

/// Writes the arguments of an action in round brackets, or nothing if it has none.
pub fn put_arguments<O: Out>(paper: &mut Paper<'_, O>, names: &Names, values: &[Value])
    ensures { paper.new ≡ and_text paper.old (arguments_text names.now values.now) }
{
    match values {
        [] => {}
        [_, ..] => {
            paper.put("(");
            put_listed(paper, names, values);
            paper.put(")");
        }
    }
}

/// Writes the values that an effect chose, behind its action, or nothing if it chose none.
pub fn put_choices<O: Out>(paper: &mut Paper<'_, O>, names: &Names, chosen: &[Value])
    ensures { paper.new ≡ and_text paper.old (chosen_text names.now chosen.now) }
{
    match chosen {
        [] => {}
        [_, ..] => {
            paper.put(" choose ");
            put_listed(paper, names, chosen);
        }
    }
}

/// Writes values with commas between them.
pub fn put_listed<O: Out>(paper: &mut Paper<'_, O>, names: &Names, values: &[Value])
    ensures { paper.new ≡ and_text paper.old (with_commas (map (text names.now) values.now)) }
{
    for (position, value) in values.iter().enumerate() {
        put_separator(paper, position);
        put_value(paper, names, value);
    }
}
