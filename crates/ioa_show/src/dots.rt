//! The actions, as dots.

ghost use Rattle.std.specs.Prelude.{◌≡◌};
ghost use Rattle.ioa_paper.specs.Papers.{and_text};
ghost use Rattle.ioa_show.specs.Marks.{action_class, dot, dot_mark, dot_title, dots};

use crate::frame::Frame;
use crate::space_time::put_number;
use ioa_actions::Action;
use ioa_paper::{Paper, put_entry};
use ioa_rawlog::RawLog;
use ioa_streams::Out;
use ioa_transitions::Entry;
use ioa_values::Names;

/// Writes a dot for each action.
pub fn put_dots<O: Out>(
    paper: &mut Paper<'_, O>,
    frame: Frame,
    names: &Names,
    schedule: &RawLog<Entry>,
)
    ensures { paper.new ≡ and_text paper.old (dots frame names.now 0 schedule.now) }
{
    let mut position = 0;
    for entry in schedule.walk() {
        put_dot(paper, frame, names, position, entry);
        position += 1;
    }
}

/// Writes the dot of an entry.
fn put_dot<O: Out>(
    paper: &mut Paper<'_, O>,
    frame: Frame,
    names: &Names,
    position: usize,
    entry: &Entry,
)
    ensures { paper.new ≡ and_text paper.old (dot frame names.now position entry.now) }
{
    put_mark(paper, frame, position, entry.action());
    put_title(paper, names, position, entry);
}

/// Writes the dot of an action at its node, as far as its title.
fn put_mark<O: Out>(paper: &mut Paper<'_, O>, frame: Frame, position: usize, action: &Action)
    ensures { paper.new ≡ and_text paper.old (dot_mark frame position action.now) }
{
    let place = frame.point(position, action.node());
    paper.put("<circle class=\"");
    paper.put(class_of(action));
    put_number(paper, "\" cx=\"", place.x);
    put_number(paper, " cy=\"", place.y);
    paper.put(" r=\"3\"");
}

/// Writes an action with its position, and with what its effect chose, as the title of its dot, and ends the dot.
fn put_title<O: Out>(paper: &mut Paper<'_, O>, names: &Names, position: usize, entry: &Entry)
    ensures { paper.new ≡ and_text paper.old (dot_title names.now position entry.now) }
{
    paper.put("><title>");
    paper.put_number(position);
    paper.put(" ");
    put_entry(paper, names, entry.action(), entry.chosen());
    paper.put("</title></circle>\n");
}

/// The class of the dot of an action: of messages, of a node alone, or of an input that a script puts in.
fn class_of(action: &Action) -> &'static str
    ensures { result.now ≡ action_class action.now }
{
    match action {
        Action::Send { .. } | Action::Receive { .. } => "d",
        Action::Local(_) => "l",
        Action::Stimulus(_) => "i",
    }
}
