//! The schedule, written on a paper.

ghost use Rattle.std.specs.Prelude.{◌≡◌, ◌++◌, ◌≤◌, [], codes, length};
ghost use Rattle.std.specs.Fmt.{decimal, signed_decimal};
ghost use Rattle.ioa_values.specs.Text.{text};
ghost use Rattle.ioa_actions.specs.ActionText.{action_text, entry_text, message_text, node_action_text};
ghost use Rattle.ioa_paper.specs.Papers.{and_text};
ghost use Rattle.ioa_monitor.specs.Reports.{entry_lines, schedule_text};

use ioa_actions::{Action, NodeAction, RECEIVE, SEND};
use ioa_paper::{Paper, Piece, put_entry, put_node_action, put_value};
use ioa_rawlog::RawLog;
use ioa_streams::Out;
use ioa_transitions::Entry;
use ioa_values::{Names, Value};

/// How long the name of an action is at most whose line is put out at once.
const NAME_LENGTH: usize = 48;

/// Writes the length of the schedule, and then its actions.
pub fn put_schedule<O: Out>(paper: &mut Paper<'_, O>, names: &Names, schedule: &RawLog<Entry>)
    ensures { paper.new ≡ and_text paper.old (schedule_text names.now schedule.now) }
{
    paper.put_line("schedule ", schedule.len());
    put_entries(paper, names, schedule);
}

/// Writes the actions, each with its position.
fn put_entries<O: Out>(paper: &mut Paper<'_, O>, names: &Names, schedule: &RawLog<Entry>)
    ensures { paper.new ≡ and_text paper.old (entry_lines names.now 0 schedule.now) }
{
    let mut position = 0;
    for entry in schedule.walk() {
        put_entry_line(paper, names, position, entry.action(), entry.chosen());
        position += 1;
    }
}

/// Writes an action with its position, and with what its effect chose. Few effects choose something.
#[inline(always)]
fn put_entry_line<O: Out>(
    paper: &mut Paper<'_, O>,
    names: &Names,
    position: usize,
    action: &Action,
    chosen: &[Value],
)
    ensures { paper.new ≡ and_text paper.old
        (decimal position ++ (codes " " ++ (entry_text names.now action.now chosen.now ++ codes "\n"))) }
{
    match chosen {
        [] => put_plain(paper, names, position, action),
        [_, ..] => put_choosing(paper, names, position, action, chosen),
    }
}

/// Writes an action with its position, and with what its effect chose. Apart from the others, so that their lines cost
/// nothing more.
#[inline(never)]
fn put_choosing<O: Out>(
    paper: &mut Paper<'_, O>,
    names: &Names,
    position: usize,
    action: &Action,
    chosen: &[Value],
)
    ensures { paper.new ≡ and_text paper.old
        (decimal position ++ (codes " " ++ (entry_text names.now action.now chosen.now ++ codes "\n"))) }
{
    paper.put_number(position);
    paper.put(" ");
    put_entry(paper, names, action, chosen);
    paper.put("\n");
}

/// Writes an action whose effect chose nothing, with its position.
#[inline(always)]
fn put_plain<O: Out>(paper: &mut Paper<'_, O>, names: &Names, position: usize, action: &Action)
    ensures { paper.new ≡ and_text paper.old
        (decimal position ++ (codes " " ++ (action_text names.now action.now ++ codes "\n"))) }
{
    match action {
        Action::Send { message, from, to } => {
            put_message(paper, names, position, SEND, message, *from, *to)
        }
        Action::Receive { message, from, to } => {
            put_message(paper, names, position, RECEIVE, message, *from, *to)
        }
        Action::Local(action) => put_at_node(paper, names, position, action),
        Action::Stimulus(action) => put_at_node(paper, names, position, action),
    }
}

/// Writes a send or a receive with its position. The whole line is one piece if the message is a number.
#[inline(always)]
fn put_message<O: Out>(
    paper: &mut Paper<'_, O>,
    names: &Names,
    position: usize,
    name: &str,
    message: &Value,
    from: i64,
    to: i64,
)
    requires { length name.now ≤ 8 }
    ensures { paper.new ≡ and_text paper.old (decimal position ++ (codes " "
        ++ (message_text name.now (text names.now message.now) from to ++ codes "\n"))) }
{
    let mut line = Piece::new();
    add_ends(&mut line, from, to);
    match message.as_number() {
        Some(n) => {
            line.add_number(n);
            add_head(&mut line, position, name);
        }
        None => put_start(paper, names, position, name, message),
    }
    paper.put_piece(&line);
}

/// Adds the two nodes of a send or a receive, to the end of the line.
#[inline(always)]
fn add_ends(line: &mut Piece, from: i64, to: i64)
    requires { line.old ≡ [] }
    ensures text { line.new ≡ codes ", "
        ++ (signed_decimal from ++ (codes ", " ++ (signed_decimal to ++ codes ")\n"))) }
    ensures short { length line.new ≤ 46 }
{
    line.add(")\n");
    line.add_number(to);
    line.add(", ");
    line.add_number(from);
    line.add(", ");
}

/// Adds what stands in front of the message of a send or a receive.
#[inline(always)]
fn add_head(line: &mut Piece, position: usize, name: &str)
    requires { (length name.now ≤ 8) × (length line.old ≤ 66) }
    ensures { line.new ≡ decimal position ++ (codes " " ++ (name.now ++ (codes "(" ++ line.old))) }
{
    line.add("(");
    line.add(name);
    line.add(" ");
    line.add_count(position);
}

/// Writes the line of a send or a receive as far as its message.
fn put_start<O: Out>(
    paper: &mut Paper<'_, O>,
    names: &Names,
    position: usize,
    name: &str,
    message: &Value,
)
    requires { length name.now ≤ 8 }
    ensures { paper.new ≡ and_text paper.old (decimal position ++ (codes " "
        ++ (name.now ++ (codes "(" ++ text names.now message.now)))) }
{
    let mut head = Piece::new();
    add_head(&mut head, position, name);
    paper.put_piece(&head);
    put_value(paper, names, message);
}

/// Writes an action of a node with its position. The whole line is one piece if the action has no arguments and no long
/// name.
#[inline(always)]
fn put_at_node<O: Out>(
    paper: &mut Paper<'_, O>,
    names: &Names,
    position: usize,
    action: &NodeAction,
)
    ensures { paper.new ≡ and_text paper.old
        (decimal position ++ (codes " " ++ (node_action_text names.now action.now ++ codes "\n"))) }
{
    let name = action.name.as_str();
    if action.arguments.as_slice().is_empty() && name.len() <= NAME_LENGTH {
        put_bare(paper, position, name, action.node);
    } else {
        paper.put_number(position);
        paper.put(" ");
        put_node_action(paper, names, action);
        paper.put("\n");
    }
}

/// Writes an action of a node that has no arguments, with its position.
#[inline(always)]
fn put_bare<O: Out>(paper: &mut Paper<'_, O>, position: usize, name: &str, node: i64)
    requires { length name.now ≤ NAME_LENGTH }
    ensures { paper.new ≡ and_text paper.old (decimal position ++ (codes " "
        ++ (name.now ++ (codes "@" ++ (signed_decimal node ++ codes "\n"))))) }
{
    let mut line = Piece::new();
    line.add("\n");
    line.add_number(node);
    line.add("@");
    line.add(name);
    line.add(" ");
    line.add_count(position);
    paper.put_piece(&line);
}
