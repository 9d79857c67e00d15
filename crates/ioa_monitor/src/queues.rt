//! The queues of channels and scripts, written on a paper.

ghost use Rattle.std.specs.Prelude.{◌≡◌, ◌++◌, codes, map};
ghost use Rattle.std.specs.Fmt.{decimal, signed_decimal};
ghost use Rattle.ioa_values.specs.Text.{with_commas};
ghost use Rattle.ioa_paper.specs.Papers.{and_text};
ghost use Rattle.ioa_monitor.specs.Reports.{item_text, queue_line, script_line};

use ioa_actions::Component;
use ioa_channels::Queue;
use ioa_paper::{Paper, put_node_action, put_separator, put_value};
use ioa_streams::Out;
use ioa_system::System;
use ioa_values::Names;

/// Writes a channel's queue, or how many stimuli are left of a declared script; nothing for a node without one.
pub fn put_queue<O: Out>(paper: &mut Paper<'_, O>, system: &System, queue: &Queue)
    ensures { paper.new ≡ and_text paper.old (queue_line system.now queue.now.component queue.now.items) }
{
    match queue.component() {
        Component::Node(_) => {}
        Component::Channel { from, to } => put_channel(paper, system.names(), from, to, queue),
        Component::Script(node) => put_script(paper, system, node, queue.len()),
    }
}

/// Writes a channel with its queue.
fn put_channel<O: Out>(paper: &mut Paper<'_, O>, names: &Names, from: i64, to: i64, queue: &Queue)
    ensures { paper.new ≡ and_text paper.old
        (codes "channel " ++ (signed_decimal from ++ (codes " -> " ++ (signed_decimal to
        ++ (codes " {" ++ (with_commas (map (item_text names.now) queue.now.items) ++ codes "}\n")))))) }
{
    paper.put("channel ");
    paper.put_number(from);
    paper.put(" -> ");
    paper.put_number(to);
    put_contents(paper, names, queue);
}

/// Writes the items of a queue in curly brackets, to the end of a line.
fn put_contents<O: Out>(paper: &mut Paper<'_, O>, names: &Names, queue: &Queue)
    ensures { paper.new ≡ and_text paper.old
        (codes " {" ++ (with_commas (map (item_text names.now) queue.now.items) ++ codes "}\n")) }
{
    paper.put(" {");
    put_items(paper, names, queue);
    paper.put("}\n");
}

/// Writes the items of a queue, with commas between them.
fn put_items<O: Out>(paper: &mut Paper<'_, O>, names: &Names, queue: &Queue)
    ensures { paper.new ≡ and_text paper.old (with_commas (map (item_text names.now) queue.now.items)) }
{
    let (stimuli, messages) = queue.items();
    for (position, stimulus) in stimuli.iter().enumerate() {
        put_separator(paper, position);
        put_node_action(paper, names, stimulus);
    }
    for position in 0..messages.len() {
        put_separator(paper, stimuli.len() + position);
        put_value(paper, names, messages.at(position));
    }
}

/// Writes how many stimuli are left of a node's script, if one is declared.
fn put_script<O: Out>(paper: &mut Paper<'_, O>, system: &System, node: i64, left: usize)
    ensures { paper.new ≡ and_text paper.old (script_line system.now.scripts node left) }
{
    match system.script_of(node) {
        None => {}
        Some(_) => put_rest(paper, node, left),
    }
}

/// Writes how many stimuli are left of a node's script.
fn put_rest<O: Out>(paper: &mut Paper<'_, O>, node: i64, left: usize)
    ensures { paper.new ≡ and_text paper.old
        (codes "script " ++ (signed_decimal node ++ (codes " " ++ (decimal left ++ codes "\n")))) }
{
    paper.put("script ");
    paper.put_number(node);
    paper.put_line(" ", left);
}
