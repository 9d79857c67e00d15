//! The lines of the nodes, and the numbers of the actions above them.

ghost use Rattle.std.specs.Prelude.{◌≡◌, ◌++◌, map};
ghost use Rattle.std.specs.Arc.{arc_value};
ghost use Rattle.ioa_paper.specs.Papers.{and_text};
ghost use Rattle.ioa_show.specs.Frames.{y_of};
ghost use Rattle.ioa_show.specs.Marks.{label, lane, lane_line, lanes, tick, tick_at, ticks};

use crate::frame::{Frame, LABEL_END, Point, y};
use crate::space_time::{put_line, put_number};
use ioa_paper::Paper;
use ioa_streams::Out;
use ioa_system::Program;
use std::sync::Arc;

/// Where the line of a node begins.
const LEFT: usize = 68;

/// How far the numbers above the lines stand apart, in pixels.
const APART: usize = 120;

/// Writes a line with its label for each node.
pub fn put_lanes<O: Out>(paper: &mut Paper<'_, O>, frame: Frame, programs: &[Arc<Program>])
    ensures { paper.new ≡ and_text paper.old (lanes frame (map arc_value programs.now)) }
{
    for program in programs {
        put_lane(paper, frame, program);
    }
}

/// Writes the line of a node, and left of it the node and its automaton.
fn put_lane<O: Out>(paper: &mut Paper<'_, O>, frame: Frame, program: &Program)
    ensures { paper.new ≡ and_text paper.old (lane frame program.now) }
{
    let y = y(program.node());
    put_lane_line(paper, frame, y);
    put_label(
        paper,
        y,
        program.node(),
        program.automaton().name().as_str(),
    );
}

/// Writes a line of a node.
fn put_lane_line<O: Out>(paper: &mut Paper<'_, O>, frame: Frame, y: usize)
    ensures { paper.new ≡ and_text paper.old (lane_line frame y) }
{
    let start = Point { x: LEFT, y };
    let end = Point {
        x: frame.between(frame.count),
        y,
    };
    put_line(paper, "n", start, end);
    paper.put("/>\n");
}

/// Writes a node and its automaton.
fn put_label<O: Out>(paper: &mut Paper<'_, O>, y: usize, node: i64, name: &str)
    ensures { paper.new ≡ and_text paper.old (label y node name.now) }
{
    put_number(paper, "<text text-anchor=\"end\" x=\"", LABEL_END);
    put_number(paper, " y=\"", y.saturating_add(4));
    paper.put(">node ");
    paper.put_number(node);
    paper.put(": ");
    paper.put(name);
    paper.put("</text>\n");
}

/// Writes the numbers of some actions above the lines.
pub fn put_ticks<O: Out>(paper: &mut Paper<'_, O>, frame: Frame)
    ensures { paper.new ≡ and_text paper.old (ticks frame frame.count) }
{
    for position in 0..frame.count {
        put_tick_at(paper, frame, position);
    }
}

/// Writes the number of an action above the lines if it is one of those.
fn put_tick_at<O: Out>(paper: &mut Paper<'_, O>, frame: Frame, position: usize)
    ensures { paper.new ≡ and_text paper.old (tick_at frame position) }
{
    let every = APART / frame.step.max(1);
    if every > 0 && position % every == 0 {
        put_tick(paper, frame, position);
    }
}

/// Writes the number of an action above the lines.
fn put_tick<O: Out>(paper: &mut Paper<'_, O>, frame: Frame, position: usize)
    ensures { paper.new ≡ and_text paper.old (tick frame position) }
{
    put_number(paper, "<text class=\"k\" y=\"12\" x=\"", frame.x(position));
    paper.put(">");
    paper.put_number(position);
    paper.put("</text>\n");
}
