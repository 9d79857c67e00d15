//! Actions, misses and idle turns, written on a paper.

ghost use Rattle.std.specs.Prelude.{◌≡◌, ◌++◌, codes};
ghost use Rattle.std.specs.Fmt.{decimal};
ghost use Rattle.std.specs.Option.{option_copied};
ghost use Rattle.ioa_actions.specs.ActionText.{action_text};
ghost use Rattle.ioa_monitor.specs.Reports.{item_text};
ghost use Rattle.ioa_paper.specs.Papers.{and_text};
ghost use Rattle.ioa_tell_text.specs.Changes.{component_text};
ghost use Rattle.ioa_tell_text.specs.Lines.{at_text, fault_line, first_text, numbered_text, passing_text, taken_line};
ghost use Rattle.ioa_tell_text.specs.Lines.{times_text, waiting_text, why_text};

use crate::changes::{put_changes, put_component, put_word};
use crate::kept::KeptText;
use crate::waiting::{Passing, Waiting, Why};
use ioa_actions::{Action, Component};
use ioa_channels::Item;
use ioa_compose::Conf;
use ioa_paper::{Paper, put_action, put_entry, put_node_action, put_value};
use ioa_streams::Out;
use ioa_transitions::Entry;
use ioa_values::Names;

/// Writes the line of an action that was taken: its number, the action with what its effect chose, and what it changed.
pub(crate) fn put_taken<O: Out>(
    paper: &mut Paper<'_, O>,
    names: &Names,
    number: usize,
    entry: &Entry,
    before: &Conf,
    after: &Conf,
    queue: Option<&Conf>,
)
    ensures { paper.new ≡ and_text paper.old
        (taken_line names.now number entry.now before.now after.now (option_copied queue.entry)) }
{
    put_numbered(paper, names, number, entry);
    put_changes(paper, names, before, after, queue);
    paper.put("\n");
}

/// Writes an action behind its number, with what its effect chose.
pub(crate) fn put_numbered<O: Out>(
    paper: &mut Paper<'_, O>,
    names: &Names,
    number: usize,
    entry: &Entry,
)
    ensures { paper.new ≡ and_text paper.old (numbered_text names.now number entry.now) }
{
    paper.put_number(number);
    paper.put(" ");
    put_entry(paper, names, entry.action(), entry.chosen());
}

/// Writes the line of an action whose step met a fault.
pub(crate) fn put_fault<O: Out>(
    paper: &mut Paper<'_, O>,
    names: &Names,
    action: &Action,
    why: &KeptText,
)
    ensures { paper.new ≡ and_text paper.old (fault_line names.now action.now why.now) }
{
    paper.put("  fault ");
    put_action(paper, names, action);
    put_at(paper, action);
    paper.put(": ");
    paper.put(why.as_str());
    paper.put("\n");
}

/// Writes the line of what a node did that took no action, and how often if that was more than once.
pub(crate) fn put_waiting<O: Out>(paper: &mut Paper<'_, O>, names: &Names, waiting: &Waiting)
    ensures { paper.new ≡ and_text paper.old (waiting_text names.now waiting.now) }
{
    put_passing(paper, names, waiting.node, &waiting.passing);
    put_times(paper, waiting.times);
    paper.put("\n");
}

/// Writes how often something was done, if that was more than once.
fn put_times<O: Out>(paper: &mut Paper<'_, O>, times: usize)
    ensures { paper.new ≡ and_text paper.old (times_text times) }
{
    if times > 1 {
        put_many(paper, times);
    }
}

/// Writes how often something was done.
fn put_many<O: Out>(paper: &mut Paper<'_, O>, times: usize)
    ensures { paper.new ≡ and_text paper.old (codes "   (" ++ (decimal times ++ codes " times)")) }
{
    paper.put("   (");
    paper.put_number(times);
    paper.put(" times)");
}

/// Writes what a node did that took no action.
fn put_passing<O: Out>(paper: &mut Paper<'_, O>, names: &Names, node: i64, passing: &Passing)
    ensures { paper.new ≡ and_text paper.old (passing_text names.now node passing.now) }
{
    match passing {
        Passing::Idle => put_word(paper, "  idle @", node),
        Passing::Missed(action, why) => put_missed(paper, names, action, why),
    }
}

/// Writes a miss, with its node and its reason.
fn put_missed<O: Out>(paper: &mut Paper<'_, O>, names: &Names, action: &Action, why: &Why)
    ensures { paper.new ≡ and_text paper.old (codes "  missed " ++ (action_text names.now action.now
        ++ (at_text action.now ++ (codes ": " ++ why_text names.now why.now)))) }
{
    paper.put("  missed ");
    put_action(paper, names, action);
    put_at(paper, action);
    paper.put(": ");
    put_why(paper, names, why);
}

/// Writes the node of an action whose own text does not end with it.
fn put_at<O: Out>(paper: &mut Paper<'_, O>, action: &Action)
    ensures { paper.new ≡ and_text paper.old (at_text action.now) }
{
    match action {
        Action::Send { from, .. } => put_word(paper, "@", *from),
        Action::Receive { to, .. } => put_word(paper, "@", *to),
        Action::Local(_) => {}
        Action::Stimulus(_) => {}
    }
}

/// Writes why an action was not enabled.
fn put_why<O: Out>(paper: &mut Paper<'_, O>, names: &Names, why: &Why)
    ensures { paper.new ≡ and_text paper.old (why_text names.now why.now) }
{
    match why {
        Why::Empty(queue) => put_empty(paper, *queue),
        Why::First(queue, item) => put_first(paper, names, *queue, item),
        Why::Absent(queue) => put_absent(paper, *queue),
        Why::Node => paper.put("not enabled: its where or its guard is false"),
        Why::False(text) => paper.put(text.as_str()),
    }
}

/// Writes that a queue has no item.
fn put_empty<O: Out>(paper: &mut Paper<'_, O>, queue: Component)
    ensures { paper.new ≡ and_text paper.old (component_text queue ++ codes " is empty") }
{
    put_component(paper, queue);
    paper.put(" is empty");
}

/// Writes which item is the first of a queue.
fn put_first<O: Out>(paper: &mut Paper<'_, O>, names: &Names, queue: Component, item: &Item)
    ensures { paper.new ≡ and_text paper.old (first_text names.now queue item.now) }
{
    paper.put("first in ");
    put_component(paper, queue);
    paper.put(" is ");
    put_item(paper, names, item);
}

/// Writes that a queue has not a message.
fn put_absent<O: Out>(paper: &mut Paper<'_, O>, queue: Component)
    ensures { paper.new ≡ and_text paper.old (component_text queue ++ codes " has no such message") }
{
    put_component(paper, queue);
    paper.put(" has no such message");
}

/// Writes an item.
fn put_item<O: Out>(paper: &mut Paper<'_, O>, names: &Names, item: &Item)
    ensures { paper.new ≡ and_text paper.old (item_text names.now item.now) }
{
    match item {
        Item::Message(message) => put_value(paper, names, message),
        Item::Stimulus(stimulus) => put_node_action(paper, names, stimulus),
    }
}
