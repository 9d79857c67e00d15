//! What an action changed, written on a paper.

ghost use Rattle.std.specs.Prelude.{◌≡◌, ◌++◌, codes, false, length, map};
ghost use Rattle.std.specs.Fmt.{decimal, signed_decimal};
ghost use Rattle.std.specs.Option.{option_copied};
ghost use Rattle.ioa_source.specs.TextView.{variable_of};
ghost use Rattle.ioa_values.specs.DataOrder.{same};
ghost use Rattle.ioa_paper.specs.Papers.{and_text};
ghost use Rattle.ioa_tell_text.specs.Changes.{change_text, change_unless, changes_behind, changes_text, component_text};
ghost use Rattle.ioa_tell_text.specs.Changes.{has_changed, has_written, holds_text, lead_text, mark_text, node_text};
ghost use Rattle.ioa_tell_text.specs.Changes.{queue_text, written_then};

use ioa_actions::Component;
use ioa_channels::Queue;
use ioa_compose::Conf;
use ioa_paper::{Paper, put_value};
use ioa_source::Variable;
use ioa_streams::Out;
use ioa_terms::{Callee, Shape};
use ioa_values::{Names, Value};

/// Writes what an action changed: behind three spaces the variables of its node with their values before and after it,
/// and the queue that took part with its length. Writes nothing if nothing changed.
pub(crate) fn put_changes<O: Out>(
    paper: &mut Paper<'_, O>,
    names: &Names,
    before: &Conf,
    after: &Conf,
    queue: Option<&Conf>,
)
    ensures { paper.new ≡ and_text paper.old (changes_text names.now before.now after.now (option_copied queue.entry)) }
{
    let written = put_node(paper, names, before, after);
    put_queue(paper, written, queue);
}

/// Writes the variables of a node that were changed. Answers whether there are any.
fn put_node<O: Out>(paper: &mut Paper<'_, O>, names: &Names, before: &Conf, after: &Conf) -> bool
    ensures text { paper.new ≡ and_text paper.old (node_text names.now before.now after.now) }
    ensures written { result ≡ has_changed before.now after.now }
{
    match (before, after) {
        (Conf::Node(before), Conf::Node(after)) => {
            let first = before.variables();
            let second = after.variables();
            let variables = after.program().automaton().variables();
            put_all(paper, names, after.node(), first, second, variables)
        }
        _ => false,
    }
}

/// Writes each variable that has another value. Answers whether there is one.
fn put_all<O: Out>(
    paper: &mut Paper<'_, O>,
    names: &Names,
    node: i64,
    before: &[Value],
    after: &[Value],
    variables: &[Variable<usize, Callee, Shape>],
) -> bool
    ensures text { paper.new ≡ and_text paper.old
        (changes_behind names.now node false before.now after.now (map variable_of variables.now)) }
    ensures written { result ≡ has_written false before.now after.now (map variable_of variables.now) }
{
    let mut written = false;
    for (position, old) in before.iter().enumerate() {
        let Some(new) = after.get(position) else {
            return written;
        };
        let Some(variable) = variables.get(position) else {
            return written;
        };
        let name = variable.declared.name.as_str();
        written = put_changed(paper, names, node, written, name, old, new);
    }
    written
}

/// Writes a variable unless it has the same value. Answers whether a change is written, if one was written or not.
fn put_changed<O: Out>(
    paper: &mut Paper<'_, O>,
    names: &Names,
    node: i64,
    written: bool,
    name: &str,
    old: &Value,
    new: &Value,
) -> bool
    ensures text { paper.new ≡ and_text paper.old
        (change_unless (same old.now new.now) names.now node written name.now old.now new.now) }
    ensures written { result ≡ written_then (same old.now new.now) written }
{
    if old.equals(new) {
        return written;
    }
    put_lead(paper, node, written);
    put_change(paper, names, name, old, new);
    true
}

/// Writes what stands in front of a change.
fn put_lead<O: Out>(paper: &mut Paper<'_, O>, node: i64, written: bool)
    ensures { paper.new ≡ and_text paper.old (lead_text written node) }
{
    if written {
        paper.put("; ");
    } else {
        put_first(paper, node);
    }
}

/// Writes what stands in front of the first change.
fn put_first<O: Out>(paper: &mut Paper<'_, O>, node: i64)
    ensures { paper.new ≡ and_text paper.old (codes "   node " ++ (signed_decimal node ++ codes ": ")) }
{
    paper.put("   node ");
    paper.put_number(node);
    paper.put(": ");
}

/// Writes a variable with its values before and after.
fn put_change<O: Out>(paper: &mut Paper<'_, O>, names: &Names, name: &str, old: &Value, new: &Value)
    ensures { paper.new ≡ and_text paper.old (change_text names.now name.now old.now new.now) }
{
    paper.put(name);
    paper.put(" = ");
    put_value(paper, names, old);
    paper.put(" -> ");
    put_value(paper, names, new);
}

/// Writes the queue that took part with its length, if one did. It may stand behind changes of a node.
fn put_queue<O: Out>(paper: &mut Paper<'_, O>, written: bool, queue: Option<&Conf>)
    ensures { paper.new ≡ and_text paper.old (queue_text written (option_copied queue.entry)) }
{
    match queue {
        Some(queue) => put_conf(paper, written, queue),
        None => {}
    }
}

/// The same of a configuration; nothing of one of a node.
fn put_conf<O: Out>(paper: &mut Paper<'_, O>, written: bool, conf: &Conf)
    ensures { paper.new ≡ and_text paper.old (holds_text written conf.now) }
{
    match conf {
        Conf::Node(_) => {}
        Conf::Queue(queue) => put_holds(paper, written, queue),
    }
}

/// Writes a queue with its length.
fn put_holds<O: Out>(paper: &mut Paper<'_, O>, written: bool, queue: &Queue)
    ensures { paper.new ≡ and_text paper.old (mark_text written
        ++ (component_text queue.now.component ++ (codes " holds " ++ decimal (length queue.now.items)))) }
{
    put_mark(paper, written);
    put_component(paper, queue.component());
    paper.put(" holds ");
    paper.put_number(queue.len());
}

/// Writes what stands in front of a queue.
fn put_mark<O: Out>(paper: &mut Paper<'_, O>, written: bool)
    ensures { paper.new ≡ and_text paper.old (mark_text written) }
{
    if written {
        paper.put("; ");
    } else {
        paper.put("   ");
    }
}

/// Writes the name of a component.
pub(crate) fn put_component<O: Out>(paper: &mut Paper<'_, O>, component: Component)
    ensures { paper.new ≡ and_text paper.old (component_text component) }
{
    match component {
        Component::Node(node) => put_word(paper, "node ", node),
        Component::Channel { from, to } => {
            put_word(paper, "channel ", from);
            put_word(paper, " -> ", to);
        }
        Component::Script(node) => put_word(paper, "script ", node),
    }
}

/// Writes a word and a number.
pub(crate) fn put_word<O: Out>(paper: &mut Paper<'_, O>, word: &str, number: i64)
    ensures { paper.new ≡ and_text paper.old (word.now ++ signed_decimal number) }
{
    paper.put(word);
    paper.put_number(number);
}
