//! Where things stand in a diagram.

ghost use Rattle.std.specs.Prelude.{◌≡◌, map};
ghost use Rattle.std.specs.Arc.{arc_value};
ghost use Rattle.ioa_show.specs.Frames as spec;
ghost use Rattle.ioa_show.specs.Frames.{frame_of, margin_of, point_of, right_of, x_of, y_of};

use crate::memory::RAN_OUT;
use ioa_system::{CheckedInvariant, Program, System};
use std::sync::Arc;

/// From which number of actions on these stand closer together.
const WIDE_LIMIT: usize = 200;

/// How many pixels an action has.
const WIDE_STEP: usize = 24;

/// How many pixels an action has if there are many.
const CLOSE_STEP: usize = 8;

/// Where the first action's room begins.
const START: usize = 72;

/// How many pixels there are between the lines of two nodes.
const ROW: usize = 48;

/// Where the line of node 0 is.
const TOP: usize = 32;

/// How many pixels there are on the right of the lines.
const ROOM: usize = 24;

/// How many pixels a letter has at most.
const LETTER: usize = 7;

/// How many letters stand around the name of an automaton.
const AROUND_AUTOMATON: usize = 12;

/// How many letters stand around the name of an invariant.
const AROUND_INVARIANT: usize = 30;

/// Where the labels of the nodes end.
pub const LABEL_END: usize = 60;

/// How many pixels a line of text has.
pub const LINE: usize = 16;

/// A place in a diagram, in pixels from its left and its upper end.
#[derive(Clone, Copy, Debug)]
pub struct Point {
    /// How far it is to the right.
    pub x: usize,
    /// How far it is down.
    pub y: usize,
}

/// The measures of a diagram, in pixels. What stands left of 0 is for the labels of the nodes.
#[derive(Clone, Copy, Debug)]
pub struct Frame {
    /// How many actions there are.
    pub count: usize,
    /// How far two actions stand apart.
    pub step: usize,
    /// How far the labels of the nodes reach to the left of 0.
    pub margin: usize,
    /// Where the diagram ends on the right.
    pub right: usize,
    /// Where the lines of the nodes end, and the lines of text begin.
    pub base: usize,
    /// Where the diagram ends below.
    pub bottom: usize,
    /// Whether a line says that memory ran out.
    pub is_short: bool,
}

impl Frame {
    /// The measures for the runs of a system with so many actions, verdicts on so many invariants, and in which memory
    /// ran out, if it is short.
    pub fn of(system: &System, count: usize, verdicts: usize, is_short: bool) -> Frame
        ensures { result ≡ frame_of system.now count verdicts is_short }
    {
        let step = step_for(count);
        let base = row(system.programs().len());
        Frame {
            count,
            step,
            margin: margin(system.programs()),
            right: right(
                system.invariants(),
                count.saturating_mul(step).max(last_width(is_short)),
            ),
            base,
            bottom: base.saturating_add(lines(verdicts, is_short).saturating_mul(LINE)),
            is_short,
        }
    }

    /// Where an action stands at a node.
    pub fn point(self, position: usize, node: i64) -> Point
        ensures { result ≡ point_of self position node }
    {
        Point {
            x: self.x(position),
            y: y(node),
        }
    }

    /// Where an action stands.
    pub fn x(self, position: usize) -> usize
        ensures { result ≡ x_of self position }
    {
        self.between(position).saturating_add(self.step / 2)
    }

    /// Where the state behind so many actions stands: between the actions before it and those after it.
    pub fn between(self, passed: usize) -> usize
        ensures { result ≡ spec.between self passed }
    {
        START.saturating_add(passed.saturating_mul(self.step))
    }

    /// How wide the diagram is.
    pub fn width(self) -> usize
        ensures { result ≡ spec.width self }
    {
        self.margin.saturating_add(self.right)
    }
}

/// How many lines stand below the nodes.
fn lines(verdicts: usize, is_short: bool) -> usize
    ensures { result ≡ spec.lines verdicts is_short }
{
    if is_short {
        verdicts.saturating_add(1)
    } else {
        verdicts
    }
}

/// How wide the line is that says that memory ran out, if there is one.
fn last_width(is_short: bool) -> usize
    ensures { result ≡ spec.last_width is_short }
{
    if is_short {
        letters(RAN_OUT.len(), 0)
    } else {
        0
    }
}

/// How far two of so many actions stand apart.
fn step_for(count: usize) -> usize
    ensures { result ≡ spec.step_for count }
{
    if count > WIDE_LIMIT {
        CLOSE_STEP
    } else {
        WIDE_STEP
    }
}

/// Where the line of a node is.
pub fn y(node: i64) -> usize
    ensures { result ≡ y_of node }
{
    row(usize::try_from(node).unwrap_or(0))
}

/// Where the line of a number is, the first at the top.
fn row(number: usize) -> usize
    ensures { result ≡ spec.row number }
{
    number.saturating_mul(ROW).saturating_add(TOP)
}

/// How far the labels of nodes reach to the left of 0.
fn margin(programs: &[Arc<Program>]) -> usize
    ensures { result ≡ margin_of (map arc_value programs.now) }
{
    let mut longest = 0;
    for program in programs {
        longest = program.automaton().name().as_str().len().max(longest);
    }
    letters(longest, AROUND_AUTOMATON).saturating_sub(LABEL_END)
}

/// Where the diagram ends on the right, if its actions and its last line take so many pixels.
fn right(invariants: &[CheckedInvariant], length: usize) -> usize
    ensures { result ≡ right_of invariants.now length }
{
    let mut longest = 0;
    for invariant in invariants {
        let text = letters(invariant.name().as_str().len(), AROUND_INVARIANT);
        longest = text.max(longest);
    }
    length.max(longest).saturating_add(START + ROOM)
}

/// How many pixels a name has with so many letters around it.
fn letters(name: usize, around: usize) -> usize
    ensures { result ≡ spec.letters name around }
{
    name.saturating_add(around).saturating_mul(LETTER)
}
