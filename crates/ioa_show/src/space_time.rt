//! Space-time diagrams.

ghost use Rattle.std.specs.Prelude.{◌≡◌, false, map};
ghost use Rattle.ioa_paper.specs.Papers.{and_text};
ghost use Rattle.ioa_show.specs.Marks.{attribute, backing, box_words, line};
ghost use Rattle.ioa_show.specs.Diagrams.{diagram_of, diagram_text, drawing, head_words};
ghost use Rattle.ioa_show.specs.Shown.{PutsWhole};

use crate::arrows::{entries_of, put_messages};
use crate::breaks::put_below;
use crate::dots::put_dots;
use crate::frame::{Frame, Point};
use crate::lanes::{put_lanes, put_ticks};
use crate::memory::ran_out;
use crate::partners::partners;
use ioa_paper::{Paper, ReportFault, room};
use ioa_rawlog::RawLog;
use ioa_record::Ending;
use ioa_streams::{Out, OutFailed};
use ioa_system::System;
use ioa_transitions::Entry;
use ioa_verdicts::Verdict;
use std::alloc::Global;

/// What a diagram begins with, before its measures.
const OPENING: &str = "<svg xmlns=\"http://www.w3.org/2000/svg\"";

/// How lines, texts and dots look, and the heads of arrows.
const LOOKS: &str = "<style>
text { font: 11px monospace; fill: #333 }
.k { font-size: 9px; fill: #888; text-anchor: middle }
.b { fill: #c00 }
.n { stroke: #bbb }
.m { stroke: #27c; fill: none; marker-end: url(#head) }
.u { stroke: #c00; fill: none; stroke-dasharray: 4 3; marker-end: url(#lost) }
.f { stroke: #c00; stroke-width: 1.5 }
.d { fill: #27c }
.l { fill: #333 }
.i { fill: #393 }
</style>
<defs>
<marker id=\"head\" viewBox=\"0 0 8 8\" refX=\"11\" refY=\"4\" markerWidth=\"8\" markerHeight=\"8\" orient=\"auto\">\\
<path d=\"M0 1 L8 4 L0 7 z\" fill=\"#27c\"/></marker>
<marker id=\"lost\" viewBox=\"0 0 8 8\" refX=\"8\" refY=\"4\" markerWidth=\"8\" markerHeight=\"8\" orient=\"auto\">\\
<path d=\"M0 1 L8 4 L0 7\" fill=\"none\" stroke=\"#c00\"/></marker>
</defs>
";

/// Puts out the space-time diagram of a schedule (Lynch 8.1; form: profile) as SVG: a line for each node, its actions
/// as dots from left to right in their order, an arrow for each message from its send to its receive, a red dashed line
/// for one that was not received, and a red upright where an invariant is first not true, by these verdicts; the first
/// is that of the first invariant. Each dot has its line of the report as its title, and each arrow has those of its
/// send and its receive. If memory ran out in the run, by these endings, a last line of text says so. A schedule that
/// no run left has no endings.
pub fn svg<O: Out>(
    alloc: Global,
    system: &System,
    schedule: &RawLog<Entry>,
    endings: &[Ending],
    verdicts: &[Verdict],
    out: &mut O,
) -> Result<(), ReportFault>
    requires { O.failed out.old ≡ false }
    ensures { PutsWhole (diagram_of system.now schedule.now endings.now verdicts.now)
        (O.bytes out.old) (O.bytes out.new) (O.failed out.new) result }
{
    let partners = partners(alloc, schedule)?;
    let entries = entries_of(alloc, schedule)?;
    let room = room(alloc)?;
    let mut paper = Paper::new(out, room);
    put_diagram(
        &mut paper,
        system,
        &entries,
        schedule,
        &partners,
        verdicts,
        ran_out(endings),
    );
    let (out, outcome) = paper.finish();
    // No effect at run time. The proof reads what `out` holds from the reference that comes back.
    let _ = &*out;
    match outcome {
        Ok(()) => Ok(()),
        Err(OutFailed) => Err(ReportFault::Write),
    }
}

/// Writes the diagram, if these are the entries of the schedule, these their partners, and these the verdicts on it.
#[tactic(auto, unfolding(crate::specs::Diagrams::diagram_text))]
fn put_diagram<O: Out>(
    paper: &mut Paper<'_, O>,
    system: &System,
    entries: &[&Entry],
    schedule: &RawLog<Entry>,
    partners: &[Option<usize>],
    verdicts: &[Verdict],
    is_short: bool,
)
    requires { map (λ e. e.now) entries.now ≡ schedule.now }
    ensures { paper.new ≡ and_text paper.old
        (diagram_text system.now partners.now verdicts.now is_short schedule.now) }
{
    let frame = Frame::of(system, schedule.len(), verdicts.len(), is_short);
    put_drawing(paper, frame, system, entries, schedule, partners, verdicts);
}

/// Writes the diagram by its measures.
fn put_drawing<O: Out>(
    paper: &mut Paper<'_, O>,
    frame: Frame,
    system: &System,
    entries: &[&Entry],
    schedule: &RawLog<Entry>,
    partners: &[Option<usize>],
    verdicts: &[Verdict],
)
    requires { map (λ e. e.now) entries.now ≡ schedule.now }
    ensures { paper.new ≡ and_text paper.old (drawing frame system.now partners.now verdicts.now schedule.now) }
{
    put_head(paper, frame);
    put_lanes(paper, frame, system.programs());
    put_ticks(paper, frame);
    put_below(paper, frame, system.invariants(), verdicts);
    put_messages(paper, frame, system.names(), entries, schedule, partners);
    put_dots(paper, frame, system.names(), schedule);
    paper.put("</svg>\n");
}

/// Writes what stands in front of the first line: the measures, the looks, and the ground.
fn put_head<O: Out>(paper: &mut Paper<'_, O>, frame: Frame)
    ensures { paper.new ≡ and_text paper.old (head_words frame) }
{
    paper.put(OPENING);
    put_box(paper, frame);
    paper.put(">\n");
    paper.put(LOOKS);
    put_ground(paper, frame);
}

/// Writes the measures of the whole.
fn put_box<O: Out>(paper: &mut Paper<'_, O>, frame: Frame)
    ensures { paper.new ≡ and_text paper.old (box_words frame) }
{
    put_number(paper, " width=\"", frame.width());
    put_number(paper, " height=\"", frame.bottom);
    paper.put(" viewBox=\"-");
    paper.put_number(frame.margin);
    paper.put(" 0 ");
    paper.put_number(frame.width());
    put_number(paper, " ", frame.bottom);
}

/// Writes the white ground.
fn put_ground<O: Out>(paper: &mut Paper<'_, O>, frame: Frame)
    ensures { paper.new ≡ and_text paper.old (backing frame) }
{
    put_number(paper, "<rect x=\"-", frame.margin);
    put_number(paper, " width=\"", frame.width());
    put_number(paper, " height=\"", frame.bottom);
    paper.put(" fill=\"#fff\"/>\n");
}

/// Writes the beginning of an attribute with a number, and the quote behind it.
pub fn put_number<O: Out>(paper: &mut Paper<'_, O>, start: &str, n: usize)
    ensures { paper.new ≡ and_text paper.old (attribute start.now n) }
{
    paper.put(start);
    paper.put_number(n);
    paper.put("\"");
}

/// Writes a line from one point to another, as far as its last number.
pub fn put_line<O: Out>(paper: &mut Paper<'_, O>, class: &str, start: Point, end: Point)
    ensures { paper.new ≡ and_text paper.old (line class.now start end) }
{
    paper.put("<line class=\"");
    paper.put(class);
    put_number(paper, "\" x1=\"", start.x);
    put_number(paper, " y1=\"", start.y);
    put_number(paper, " x2=\"", end.x);
    put_number(paper, " y2=\"", end.y);
}
