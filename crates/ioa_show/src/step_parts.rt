//! The parts of the line of a step.

ghost use Rattle.std.specs.Prelude.{◌≡◌, ◌++◌, ◌∷◌, [], codes, false, map};
ghost use Rattle.std.specs.Fmt.{decimal, signed_decimal};
ghost use Rattle.std.specs.Option.{option_copied};
ghost use Rattle.ioa_actions.specs.ActionParts.{action_arguments};
ghost use Rattle.ioa_compose.specs.Participants.{participants_of};
ghost use Rattle.ioa_source.specs.TextView.{variable_of};
ghost use Rattle.ioa_values.specs.Data.{number};
ghost use Rattle.ioa_values.specs.DataOrder.{same};
ghost use Rattle.ioa_paper.specs.Papers.{and_text};
ghost use Rattle.ioa_show.specs.Steps.{behind_then, change_told, change_unless, changes_behind, changes_of};
ghost use Rattle.ioa_show.specs.Steps.{chosen_told, conf_changes, conf_length, queue_among, queue_name, queue_told};
ghost use Rattle.ioa_show.specs.Steps.{values_told};
ghost use Rattle.ioa_show.specs.Steps as spec;

use crate::behind::put_between;
use crate::finding::conf_of;
use crate::step_values::put_tagged;
use ioa_actions::{Action, Component};
use ioa_compose::{Conf, Parties, participants};
use ioa_course::Course;
use ioa_paper::{Paper, put_separator};
use ioa_source::Variable;
use ioa_streams::Out;
use ioa_terms::{Callee, Shape};
use ioa_values::{Names, Value};

/// Writes the arguments of an action.
pub fn put_arguments<O: Out>(paper: &mut Paper<'_, O>, names: &Names, action: &Action)
    ensures { paper.new ≡ and_text paper.old (values_told names.now (action_arguments action.now)) }
{
    match action {
        Action::Send { message, from, to } => put_message(paper, names, message, *from, *to),
        Action::Receive { message, from, to } => put_message(paper, names, message, *from, *to),
        Action::Local(action) => put_values(paper, names, action.arguments.as_slice()),
        Action::Stimulus(action) => put_values(paper, names, action.arguments.as_slice()),
    }
}

/// Writes a message and the two nodes.
fn put_message<O: Out>(paper: &mut Paper<'_, O>, names: &Names, message: &Value, from: i64, to: i64)
    ensures { paper.new ≡ and_text paper.old
        (values_told names.now (message.now ∷ (number from ∷ (number to ∷ [])))) }
{
    put_tagged(paper, names, message);
    paper.put(", ");
    paper.put_number(from);
    paper.put(", ");
    paper.put_number(to);
}

/// Writes values with commas between them.
fn put_values<O: Out>(paper: &mut Paper<'_, O>, names: &Names, values: &[Value])
    ensures { paper.new ≡ and_text paper.old (values_told names.now values.now) }
{
    for (position, value) in values.iter().enumerate() {
        put_separator(paper, position);
        put_tagged(paper, names, value);
    }
}

/// Writes which variables of a component have other values than before; nothing if it is no node.
pub fn put_changes<O: Out>(
    paper: &mut Paper<'_, O>,
    names: &Names,
    before: &[Value],
    conf: Option<&Conf>,
)
    ensures { paper.new ≡ and_text paper.old (changes_of names.now before.now (option_copied conf.entry)) }
{
    match conf {
        Some(conf) => put_conf_changes(paper, names, before, conf),
        None => {}
    }
}

/// Writes which variables of a component have other values than before.
fn put_conf_changes<O: Out>(paper: &mut Paper<'_, O>, names: &Names, before: &[Value], conf: &Conf)
    ensures { paper.new ≡ and_text paper.old (conf_changes names.now before.now conf.now) }
{
    match conf {
        Conf::Node(node) => {
            let after = node.variables();
            let variables = node.program().automaton().variables();
            put_all(paper, names, before, after, variables)
        }
        Conf::Queue(_) => {}
    }
}

/// Writes each variable that has another value.
fn put_all<O: Out>(
    paper: &mut Paper<'_, O>,
    names: &Names,
    before: &[Value],
    after: &[Value],
    variables: &[Variable<usize, Callee, Shape>],
)
    ensures { paper.new ≡ and_text paper.old
        (changes_behind names.now false before.now after.now (map variable_of variables.now)) }
{
    let mut behind = false;
    for (position, old) in before.iter().enumerate() {
        let Some(new) = after.get(position) else {
            return;
        };
        let Some(variable) = variables.get(position) else {
            return;
        };
        let name = variable.declared.name.as_str();
        behind = put_changed(paper, names, behind, name, old, new);
    }
}

/// Writes a variable unless it has the same value. Answers whether there are changes now, if there were some or not.
fn put_changed<O: Out>(
    paper: &mut Paper<'_, O>,
    names: &Names,
    behind: bool,
    name: &str,
    old: &Value,
    new: &Value,
) -> bool
    ensures text { paper.new ≡ and_text paper.old
        (change_unless (same old.now new.now) names.now behind name.now old.now new.now) }
    ensures behind { result ≡ behind_then (same old.now new.now) behind }
{
    if old.equals(new) {
        return behind;
    }
    put_between(paper, behind);
    put_change(paper, names, name, old, new);
    true
}

/// Writes a variable with its new and its old value.
fn put_change<O: Out>(paper: &mut Paper<'_, O>, names: &Names, name: &str, old: &Value, new: &Value)
    ensures { paper.new ≡ and_text paper.old (change_told names.now name.now old.now new.now) }
{
    paper.put("{\"new\":");
    put_tagged(paper, names, new);
    paper.put(",\"old\":");
    put_tagged(paper, names, old);
    paper.put(",\"variable\":\"");
    paper.put(name);
    paper.put("\"}");
}

/// Writes the values that an effect chose, and ends the list of changes in front of them; nothing if it chose none.
pub fn put_chosen<O: Out>(paper: &mut Paper<'_, O>, names: &Names, chosen: &[Value])
    ensures { paper.new ≡ and_text paper.old (chosen_told names.now chosen.now) }
{
    match chosen {
        [] => {}
        [_, ..] => {
            paper.put("],\"chosen\":[");
            put_values(paper, names, chosen);
        }
    }
}

/// Writes the queue of which an action takes or to which it adds, with its length.
pub fn put_queue<O: Out>(paper: &mut Paper<'_, O>, course: &Course, action: &Action)
    ensures { paper.new ≡ and_text paper.old (queue_among (participants_of action.now) course.now) }
{
    match participants(action) {
        Parties::One(_) => {}
        Parties::Two(queue, _) => put_length(paper, queue, length_of(conf_of(course, queue))),
    }
}

/// How many items a queue has; none if there is no such queue.
fn length_of(conf: Option<&Conf>) -> usize
    ensures { result ≡ spec.length_of (option_copied conf.entry) }
{
    match conf {
        Some(conf) => conf_length(conf),
        None => 0,
    }
}

/// How many items a queue has; none if it is a node.
fn conf_length(conf: &Conf) -> usize
    ensures { result ≡ conf_length conf.now }
{
    match conf {
        Conf::Node(_) => 0,
        Conf::Queue(queue) => queue.len(),
    }
}

/// Writes a queue with its length.
fn put_length<O: Out>(paper: &mut Paper<'_, O>, component: Component, length: usize)
    ensures { paper.new ≡ and_text paper.old (queue_told component length) }
{
    put_name(paper, component);
    paper.put(",\"length\":");
    paper.put_number(length);
    paper.put("}");
}

/// Writes which queue it is.
fn put_name<O: Out>(paper: &mut Paper<'_, O>, component: Component)
    ensures { paper.new ≡ and_text paper.old (queue_name component) }
{
    match component {
        Component::Channel { from, to } => put_channel(paper, from, to),
        Component::Node(node) => put_script(paper, node),
        Component::Script(node) => put_script(paper, node),
    }
}

/// Writes which channel it is.
pub fn put_channel<O: Out>(paper: &mut Paper<'_, O>, from: i64, to: i64)
    ensures { paper.new ≡ and_text paper.old
        (codes "{\"channel\":[" ++ (signed_decimal from ++ (codes ", " ++ (signed_decimal to ++ codes "]")))) }
{
    paper.put("{\"channel\":[");
    paper.put_number(from);
    paper.put(", ");
    paper.put_number(to);
    paper.put("]");
}

/// Writes the script of a node.
fn put_script<O: Out>(paper: &mut Paper<'_, O>, node: i64)
    ensures { paper.new ≡ and_text paper.old (codes "{\"script\":" ++ signed_decimal node) }
{
    paper.put("{\"script\":");
    paper.put_number(node);
}
