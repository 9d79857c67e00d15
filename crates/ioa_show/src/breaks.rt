//! Where invariants are first not true, and whether memory ran out.

ghost use Rattle.std.specs.Prelude.{◌≡◌, ◌++◌};
ghost use Rattle.std.specs.Fmt.{decimal};
ghost use Rattle.ioa_verdicts.specs.Verdicts.{verdict_text};
ghost use Rattle.ioa_paper.specs.Papers.{and_text};
ghost use Rattle.ioa_show.specs.Marks.{below, break_at, break_line, break_mark, break_start, break_words, breaks};
ghost use Rattle.ioa_show.specs.Marks.{last_line, last_mark, last_start, verdict_class};

use crate::frame::{Frame, LINE, Point};
use crate::memory::RAN_OUT;
use crate::space_time::{put_line, put_number};
use ioa_paper::Paper;
use ioa_streams::Out;
use ioa_system::CheckedInvariant;
use ioa_verdicts::Verdict;

/// Where an upright begins.
const HIGH: usize = 18;

/// Writes what stands below the lines of the nodes: what is said of each invariant, and then that memory ran out, if it
/// did.
pub fn put_below<O: Out>(
    paper: &mut Paper<'_, O>,
    frame: Frame,
    invariants: &[CheckedInvariant],
    verdicts: &[Verdict],
)
    ensures { paper.new ≡ and_text paper.old (below frame invariants.now verdicts.now) }
{
    put_breaks(paper, frame, invariants, verdicts);
    put_last(paper, frame, verdicts.len());
}

/// Writes that memory ran out, if it did, below so many lines.
fn put_last<O: Out>(paper: &mut Paper<'_, O>, frame: Frame, position: usize)
    ensures { paper.new ≡ and_text paper.old (last_mark frame.is_short frame position) }
{
    if frame.is_short {
        put_last_line(paper, frame, position);
    }
}

/// Writes that memory ran out.
fn put_last_line<O: Out>(paper: &mut Paper<'_, O>, frame: Frame, position: usize)
    ensures { paper.new ≡ and_text paper.old (last_line frame position) }
{
    put_last_start(paper, frame, position);
    paper.put(">");
    paper.put(RAN_OUT);
    paper.put("</text>\n");
}

/// Writes where that line stands.
fn put_last_start<O: Out>(paper: &mut Paper<'_, O>, frame: Frame, position: usize)
    ensures { paper.new ≡ and_text paper.old (last_start frame position) }
{
    let line = position.saturating_mul(LINE);
    put_number(
        paper,
        "<text class=\"b\" x=\"72\" y=\"",
        frame.base.saturating_add(line),
    );
}

/// Writes a red upright for each invariant that does not hold, and below the lines of the nodes what is said of each.
fn put_breaks<O: Out>(
    paper: &mut Paper<'_, O>,
    frame: Frame,
    invariants: &[CheckedInvariant],
    verdicts: &[Verdict],
)
    ensures { paper.new ≡ and_text paper.old (breaks frame 0 invariants.now verdicts.now) }
{
    for (position, invariant) in invariants.iter().enumerate() {
        let Some(verdict) = verdicts.get(position) else {
            return;
        };
        put_break(paper, frame, position, invariant.name().as_str(), *verdict);
    }
}

/// Writes the upright of an invariant, if there is one, and what is said of it.
fn put_break<O: Out>(
    paper: &mut Paper<'_, O>,
    frame: Frame,
    position: usize,
    name: &str,
    verdict: Verdict,
)
    ensures { paper.new ≡ and_text paper.old (break_at frame position name.now verdict) }
{
    put_upright(paper, frame, verdict);
    put_start(paper, frame, position, verdict);
    put_words(paper, name, verdict);
}

/// Writes an upright in the first state in which an invariant is not true, if there is one.
fn put_upright<O: Out>(paper: &mut Paper<'_, O>, frame: Frame, verdict: Verdict)
    ensures { paper.new ≡ and_text paper.old (break_mark frame verdict) }
{
    match verdict {
        Verdict::Holds => {}
        Verdict::Fails(passed) => put_break_line(paper, frame, passed),
        Verdict::Undefined(passed) => put_break_line(paper, frame, passed),
        Verdict::Range(passed) => put_break_line(paper, frame, passed),
    }
}

/// Writes an upright in the state behind so many actions.
fn put_break_line<O: Out>(paper: &mut Paper<'_, O>, frame: Frame, passed: usize)
    ensures { paper.new ≡ and_text paper.old (break_line frame passed) }
{
    let x = frame.between(passed);
    let end = Point {
        x,
        y: frame.base.saturating_sub(LINE),
    };
    put_line(paper, "f", Point { x, y: HIGH }, end);
    paper.put("/>\n");
}

/// Writes where the line on an invariant stands: below the nodes, the first one at the top.
fn put_start<O: Out>(paper: &mut Paper<'_, O>, frame: Frame, position: usize, verdict: Verdict)
    ensures { paper.new ≡ and_text paper.old (break_start frame position verdict) }
{
    let line = position.saturating_mul(LINE);
    paper.put("<text class=\"");
    paper.put(class_of(verdict));
    put_number(paper, "\" x=\"72\" y=\"", frame.base.saturating_add(line));
}

/// The class of what is said of an invariant.
fn class_of(verdict: Verdict) -> &'static str
    ensures { result.now ≡ verdict_class verdict }
{
    match verdict {
        Verdict::Holds => "h",
        Verdict::Fails(_) | Verdict::Undefined(_) | Verdict::Range(_) => "b",
    }
}

/// Writes what is said of an invariant.
fn put_words<O: Out>(paper: &mut Paper<'_, O>, name: &str, verdict: Verdict)
    ensures { paper.new ≡ and_text paper.old (break_words name.now verdict) }
{
    paper.put(">invariant ");
    paper.put(name);
    paper.put(" ");
    put_verdict(paper, verdict);
    paper.put("</text>\n");
}

/// Writes a verdict.
fn put_verdict<O: Out>(paper: &mut Paper<'_, O>, verdict: Verdict)
    ensures { paper.new ≡ and_text paper.old (verdict_text verdict) }
{
    match verdict {
        Verdict::Holds => paper.put("holds"),
        Verdict::Fails(passed) => put_place(paper, "fails at ", passed),
        Verdict::Undefined(passed) => put_place(paper, "undefined at ", passed),
        Verdict::Range(passed) => put_place(paper, "range at ", passed),
    }
}

/// Writes words, and behind them after how many actions.
fn put_place<O: Out>(paper: &mut Paper<'_, O>, words: &str, passed: usize)
    ensures { paper.new ≡ and_text paper.old (words.now ++ decimal passed) }
{
    paper.put(words);
    paper.put_number(passed);
}
