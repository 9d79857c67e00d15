//! What a state has, in the informal trace format.

ghost use Rattle.std.specs.Prelude.{◌≡◌, ◌++◌, codes, map};
ghost use Rattle.std.specs.List.{flat_map};
ghost use Rattle.std.specs.Option.{option_copied, option_map};
ghost use Rattle.ioa_source.specs.TextView.{variable_of};
ghost use Rattle.ioa_values.specs.Data.{Data};
ghost use Rattle.ioa_paper.specs.Papers.{and_text};
ghost use Rattle.ioa_show.specs.Json.{shaped_json};
ghost use Rattle.ioa_show.specs.States.{channel_key, conf_fields, conf_keys, queue_field, queue_key};
ghost use Rattle.ioa_show.specs.States.{variable_fields, variable_key, variable_keys, waiting};

use crate::finding::taken_shape;
use crate::shaped_values::{put_sequence_of, put_shaped};
use crate::state_values::put_sequence;
use ioa_actions::Component;
use ioa_channels::Queue;
use ioa_compose::Conf;
use ioa_course::Course;
use ioa_paper::Paper;
use ioa_source::Variable;
use ioa_streams::Out;
use ioa_terms::{Callee, Shape};
use ioa_values::{Names, Sequence, Value};

/// Writes the keys of all variables and channels, each behind a comma.
pub fn put_keys<O: Out>(paper: &mut Paper<'_, O>, confs: &[Conf])
    ensures { paper.new ≡ and_text paper.old (flat_map conf_keys confs.now) }
{
    for conf in confs {
        put_conf_keys(paper, conf);
    }
}

/// Writes the keys of a component.
fn put_conf_keys<O: Out>(paper: &mut Paper<'_, O>, conf: &Conf)
    ensures { paper.new ≡ and_text paper.old (conf_keys conf.now) }
{
    match conf {
        Conf::Node(node) => {
            let values = node.variables();
            let variables = node.program().automaton().variables();
            put_variable_keys(paper, node.node(), values, variables)
        }
        Conf::Queue(queue) => put_queue_key(paper, queue.component()),
    }
}

/// Writes the keys of a node's variables, one for each value.
fn put_variable_keys<O: Out>(
    paper: &mut Paper<'_, O>,
    node: i64,
    values: &[Value],
    variables: &[Variable<usize, Callee, Shape>],
)
    ensures { paper.new ≡ and_text paper.old (variable_keys node values.now (map variable_of variables.now)) }
{
    for (position, _value) in values.iter().enumerate() {
        let Some(variable) = variables.get(position) else {
            return;
        };
        put_variable_key(paper, variable.declared.name.as_str(), node);
    }
}

/// Writes a comma, and the key of a variable of a node.
fn put_variable_key<O: Out>(paper: &mut Paper<'_, O>, name: &str, node: i64)
    ensures { paper.new ≡ and_text paper.old (variable_key name.now node) }
{
    paper.put(",\"");
    paper.put(name);
    paper.put("@");
    paper.put_number(node);
    paper.put("\"");
}

/// Writes a comma, and the key of a channel; nothing for a script.
fn put_queue_key<O: Out>(paper: &mut Paper<'_, O>, component: Component)
    ensures { paper.new ≡ and_text paper.old (queue_key component) }
{
    match component {
        Component::Node(_) => {}
        Component::Channel { from, to } => put_channel_key(paper, from, to),
        Component::Script(_) => {}
    }
}

/// Writes a comma, and the key of a channel.
fn put_channel_key<O: Out>(paper: &mut Paper<'_, O>, from: i64, to: i64)
    ensures { paper.new ≡ and_text paper.old (channel_key from to) }
{
    paper.put(",\"queue(");
    paper.put_number(from);
    paper.put(", ");
    paper.put_number(to);
    paper.put(")\"");
}

/// Writes all variables and channels among some components with what they hold, each behind a comma.
pub fn put_confs<O: Out>(paper: &mut Paper<'_, O>, names: &Names, course: &Course, confs: &[Conf])
    ensures { paper.new ≡ and_text paper.old (flat_map (conf_fields names.now course.now) confs.now) }
{
    for conf in confs {
        put_conf(paper, names, course, conf);
    }
}

/// Writes what a component has.
fn put_conf<O: Out>(paper: &mut Paper<'_, O>, names: &Names, course: &Course, conf: &Conf)
    ensures { paper.new ≡ and_text paper.old (conf_fields names.now course.now conf.now) }
{
    match conf {
        Conf::Node(node) => {
            let values = node.variables();
            let variables = node.program().automaton().variables();
            put_variables(paper, names, node.node(), values, variables)
        }
        Conf::Queue(queue) => put_queue(paper, names, course, queue),
    }
}

/// Writes a node's variables with their values.
fn put_variables<O: Out>(
    paper: &mut Paper<'_, O>,
    names: &Names,
    node: i64,
    values: &[Value],
    variables: &[Variable<usize, Callee, Shape>],
)
    ensures { paper.new ≡ and_text paper.old
        (variable_fields names.now node values.now (map variable_of variables.now)) }
{
    for (position, value) in values.iter().enumerate() {
        let Some(variable) = variables.get(position) else {
            return;
        };
        let (name, shape) = (variable.declared.name.as_str(), &variable.declared.shape);
        put_variable(paper, names, node, name, shape, value);
    }
}

/// Writes a variable with its value.
fn put_variable<O: Out>(
    paper: &mut Paper<'_, O>,
    names: &Names,
    node: i64,
    name: &str,
    shape: &Shape,
    value: &Value,
)
    ensures { paper.new ≡ and_text paper.old
        (variable_key name.now node ++ (codes ":" ++ shaped_json names.now shape.now value.now)) }
{
    put_variable_key(paper, name, node);
    paper.put(":");
    put_shaped(paper, names, value, shape);
}

/// Writes what waits on a channel; nothing for a script.
fn put_queue<O: Out>(paper: &mut Paper<'_, O>, names: &Names, course: &Course, queue: &Queue)
    ensures { paper.new ≡ and_text paper.old
        (queue_field names.now course.now queue.now.component queue.now.items) }
{
    match queue.component() {
        Component::Node(_) => {}
        Component::Channel { from, to } => {
            let shape = taken_shape(course, to);
            put_channel(paper, names, from, to, shape, queue.messages())
        }
        Component::Script(_) => {}
    }
}

/// Writes a channel with what waits on it, by the shape of its messages.
fn put_channel<O: Out>(
    paper: &mut Paper<'_, O>,
    names: &Names,
    from: i64,
    to: i64,
    shape: Option<&Shape>,
    messages: Option<&Sequence>,
)
    ensures { paper.new ≡ and_text paper.old
        (channel_key from to ++ (codes ":"
        ++ waiting names.now (option_copied shape.entry) (option_map (λ m. m.now) messages.entry))) }
{
    put_channel_key(paper, from, to);
    paper.put(":");
    put_waiting(paper, names, shape, messages);
}

/// Writes messages, first to last, by their shape.
fn put_waiting<O: Out>(
    paper: &mut Paper<'_, O>,
    names: &Names,
    shape: Option<&Shape>,
    messages: Option<&Sequence>,
)
    ensures { paper.new ≡ and_text paper.old
        (waiting names.now (option_copied shape.entry) (option_map (λ m. m.now) messages.entry)) }
{
    match (messages, shape) {
        (None, _) => paper.put("[]"),
        (Some(messages), None) => put_sequence(paper, names, messages),
        (Some(messages), Some(shape)) => put_sequence_of(paper, names, messages, shape),
    }
}
