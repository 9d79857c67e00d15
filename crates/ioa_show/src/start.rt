//! The line of the start of a run as JSON.

ghost use Rattle.std.specs.Prelude.{◌≡◌, ◌++◌, false, map};
ghost use Rattle.std.specs.Option.{option_copied};
ghost use Rattle.ioa_source.specs.TextView.{variable_of};
ghost use Rattle.ioa_paper.specs.Papers.{and_text};
ghost use Rattle.ioa_show.specs.Behind.{behind_all, listed_behind, told_behind};
ghost use Rattle.ioa_show.specs.Start.{channel_told, conf_queues, conf_variables, queue_told, script_told, sort_told};
ghost use Rattle.ioa_show.specs.Start.{sort_words, sorted_words, start_line, valued_words, variables_told};

use crate::behind::put_between;
use crate::finding::taken_shape;
use crate::sorts::put_sort;
use crate::step_parts::put_channel;
use crate::step_values::put_tagged;
use ioa_actions::Component;
use ioa_compose::Conf;
use ioa_course::Course;
use ioa_paper::Paper;
use ioa_source::Variable;
use ioa_streams::Out;
use ioa_terms::{Callee, Shape};
use ioa_values::{Names, Value};

/// Writes the line of the start: the queues with their lengths, and the variables of all nodes with their sorts and
/// values.
#[tactic(auto, unfolding(crate::specs::Start::start_line))]
pub fn put_start<O: Out>(paper: &mut Paper<'_, O>, names: &Names, course: &Course)
    ensures { paper.new ≡ and_text paper.old (start_line names.now course.now) }
{
    paper.put("{\"kind\":\"start\",\"queues\":[");
    put_queues(paper, course, course.confs());
    paper.put("],\"variables\":[");
    put_variables(paper, names, course.confs());
    paper.put("]}\n");
}

/// Writes the queues among some components.
fn put_queues<O: Out>(paper: &mut Paper<'_, O>, course: &Course, confs: &[Conf])
    ensures { paper.new ≡ and_text paper.old (told_behind (conf_queues course.now) false confs.now) }
{
    let mut behind = false;
    for conf in confs {
        behind = put_conf_queue(paper, course, behind, conf);
    }
}

/// Writes a component if it is a queue. Answers whether there are queues now, if there were some or not.
fn put_conf_queue<O: Out>(
    paper: &mut Paper<'_, O>,
    course: &Course,
    behind: bool,
    conf: &Conf,
) -> bool
    ensures text { paper.new ≡ and_text paper.old (listed_behind behind (conf_queues course.now conf.now)) }
    ensures behind { result ≡ behind_all behind (conf_queues course.now conf.now) }
{
    match conf {
        Conf::Node(_) => behind,
        Conf::Queue(queue) => {
            put_between(paper, behind);
            put_queue(paper, course, queue.component(), queue.len());
            true
        }
    }
}

/// Writes a queue with the number of its items.
fn put_queue<O: Out>(paper: &mut Paper<'_, O>, course: &Course, component: Component, length: usize)
    ensures { paper.new ≡ and_text paper.old (queue_told course.now component length) }
{
    match component {
        Component::Node(node) => put_script(paper, node, length),
        Component::Channel { from, to } => {
            put_channel_queue(paper, from, to, length, taken_shape(course, to))
        }
        Component::Script(node) => put_script(paper, node, length),
    }
}

/// Writes a channel with the number of its messages and their sort.
fn put_channel_queue<O: Out>(
    paper: &mut Paper<'_, O>,
    from: i64,
    to: i64,
    length: usize,
    shape: Option<&Shape>,
)
    ensures { paper.new ≡ and_text paper.old (channel_told from to length (option_copied shape.entry)) }
{
    put_channel(paper, from, to);
    paper.put(",\"length\":");
    paper.put_number(length);
    put_messages_sort(paper, shape);
    paper.put("}");
}

/// Writes the sort of the messages of a channel, if they have one.
fn put_messages_sort<O: Out>(paper: &mut Paper<'_, O>, shape: Option<&Shape>)
    ensures { paper.new ≡ and_text paper.old (sort_told (option_copied shape.entry)) }
{
    match shape {
        Some(shape) => put_sort_words(paper, shape),
        None => {}
    }
}

/// Writes a sort, behind what says that it is one.
fn put_sort_words<O: Out>(paper: &mut Paper<'_, O>, shape: &Shape)
    ensures { paper.new ≡ and_text paper.old (sort_words shape.now) }
{
    paper.put(",\"sort\":\"");
    put_sort(paper, shape);
    paper.put("\"");
}

/// Writes the script of a node, with the number of its inputs.
fn put_script<O: Out>(paper: &mut Paper<'_, O>, node: i64, length: usize)
    ensures { paper.new ≡ and_text paper.old (script_told node length) }
{
    paper.put("{\"length\":");
    paper.put_number(length);
    paper.put(",\"script\":");
    paper.put_number(node);
    paper.put("}");
}

/// Writes the variables of the nodes among some components.
fn put_variables<O: Out>(paper: &mut Paper<'_, O>, names: &Names, confs: &[Conf])
    ensures { paper.new ≡ and_text paper.old (told_behind (conf_variables names.now) false confs.now) }
{
    let mut behind = false;
    for conf in confs {
        behind = put_conf_variables(paper, names, behind, conf);
    }
}

/// Writes the variables of a component. Answers whether there are variables now, if there were some or not.
fn put_conf_variables<O: Out>(
    paper: &mut Paper<'_, O>,
    names: &Names,
    behind: bool,
    conf: &Conf,
) -> bool
    ensures text { paper.new ≡ and_text paper.old (listed_behind behind (conf_variables names.now conf.now)) }
    ensures behind { result ≡ behind_all behind (conf_variables names.now conf.now) }
{
    match conf {
        Conf::Node(node) => {
            let values = node.variables();
            let variables = node.program().automaton().variables();
            put_node_variables(paper, names, behind, node.node(), values, variables)
        }
        Conf::Queue(_) => behind,
    }
}

/// Writes the variables of a node, one for each value. Answers whether there are variables now.
fn put_node_variables<O: Out>(
    paper: &mut Paper<'_, O>,
    names: &Names,
    behind: bool,
    node: i64,
    values: &[Value],
    variables: &[Variable<usize, Callee, Shape>],
) -> bool
    ensures text { paper.new ≡ and_text paper.old
        (listed_behind behind (variables_told names.now node values.now (map variable_of variables.now))) }
    ensures behind { result ≡ behind_all behind
        (variables_told names.now node values.now (map variable_of variables.now)) }
{
    let mut has_some = behind;
    for (position, value) in values.iter().enumerate() {
        let Some(variable) = variables.get(position) else {
            return has_some;
        };
        let (name, shape) = (variable.declared.name.as_str(), &variable.declared.shape);
        put_between(paper, has_some);
        put_variable(paper, names, node, shape, name, value);
        has_some = true;
    }
    has_some
}

/// Writes a variable of a node, with its sort and its value.
fn put_variable<O: Out>(
    paper: &mut Paper<'_, O>,
    names: &Names,
    node: i64,
    shape: &Shape,
    name: &str,
    value: &Value,
)
    ensures { paper.new ≡ and_text paper.old
        (sorted_words node shape.now ++ valued_words names.now value.now name.now) }
{
    put_sorted(paper, node, shape);
    put_valued(paper, names, value, name);
}

/// Writes the node of a variable and the variable's sort.
fn put_sorted<O: Out>(paper: &mut Paper<'_, O>, node: i64, shape: &Shape)
    ensures { paper.new ≡ and_text paper.old (sorted_words node shape.now) }
{
    paper.put("{\"node\":");
    paper.put_number(node);
    paper.put(",\"sort\":\"");
    put_sort(paper, shape);
    paper.put("\",\"value\":");
}

/// Writes the value of a variable and the variable's name.
fn put_valued<O: Out>(paper: &mut Paper<'_, O>, names: &Names, value: &Value, name: &str)
    ensures { paper.new ≡ and_text paper.old (valued_words names.now value.now name.now) }
{
    put_tagged(paper, names, value);
    paper.put(",\"variable\":\"");
    paper.put(name);
    paper.put("\"}");
}
