//! Invariants that are first not true, written on a paper.

ghost use Rattle.std.specs.Prelude.{◌≡◌, nat_eq};
ghost use Rattle.ioa_paper.specs.Papers.{and_text};
ghost use Rattle.ioa_tell_text.specs.Verdicts as spec;

use ioa_paper::Paper;
use ioa_streams::Out;
use ioa_system::CheckedInvariant;
use ioa_verdicts::Verdict;

/// When it is told which invariants are first not true.
#[derive(Clone, Copy)]
pub(crate) enum Moment {
    /// Before all actions.
    Start,
    /// Behind an action that comes behind so many others.
    Behind(usize),
}

impl Moment {
    /// Whether a state is the one at this moment. It has the number of the actions that lead to it.
    fn is_at(self, state: usize) -> bool
        ensures { result ≡ nat_eq state (spec.state_at self) }
    {
        match self {
            Moment::Start => state == 0,
            Moment::Behind(number) => state > 0 && state - 1 == number,
        }
    }

    /// Where an invariant is told not to be true.
    fn text(self) -> &'static str
        ensures { result.now ≡ spec.moment_text self }
    {
        match self {
            Moment::Start => "at the start",
            Moment::Behind(_) => "here",
        }
    }
}

/// Writes a line for each invariant that is first not true at a moment.
pub(crate) fn put_marks<O: Out>(
    paper: &mut Paper<'_, O>,
    moment: Moment,
    invariants: &[CheckedInvariant],
    verdicts: &[Verdict],
)
    ensures { paper.new ≡ and_text paper.old (spec.marks_text moment invariants.now verdicts.now) }
{
    for (position, invariant) in invariants.iter().enumerate() {
        let Some(verdict) = verdicts.get(position) else {
            return;
        };
        put_mark(paper, moment, invariant.name().as_str(), *verdict);
    }
}

/// Writes the line of an invariant, if it is first not true at a moment.
fn put_mark<O: Out>(paper: &mut Paper<'_, O>, moment: Moment, name: &str, verdict: Verdict)
    ensures { paper.new ≡ and_text paper.old (spec.mark_text moment name.now verdict) }
{
    match verdict {
        Verdict::Holds => {}
        Verdict::Fails(state) => put_mark_if(paper, moment, name, "fails", state),
        Verdict::Undefined(state) => put_mark_if(paper, moment, name, "undefined", state),
        Verdict::Range(state) => put_mark_if(paper, moment, name, "range", state),
    }
}

/// Writes how an invariant is not true, if a state is the one at a moment.
fn put_mark_if<O: Out>(
    paper: &mut Paper<'_, O>,
    moment: Moment,
    name: &str,
    how: &str,
    state: usize,
)
    ensures { paper.new ≡ and_text paper.old (spec.mark_if moment name.now how.now state) }
{
    if moment.is_at(state) {
        put_mark_line(paper, name, how, moment.text());
    }
}

/// Writes the line of an invariant.
fn put_mark_line<O: Out>(paper: &mut Paper<'_, O>, name: &str, how: &str, place: &str)
    ensures { paper.new ≡ and_text paper.old (spec.mark_line name.now how.now place.now) }
{
    paper.put("  invariant ");
    put_named_mark(paper, name, how, place);
}

/// Writes the name of an invariant, how it is not true, where, and the end of the line.
fn put_named_mark<O: Out>(paper: &mut Paper<'_, O>, name: &str, how: &str, place: &str)
    ensures { paper.new ≡ and_text paper.old (spec.named_mark name.now how.now place.now) }
{
    paper.put(name);
    paper.put(" ");
    paper.put(how);
    paper.put(" ");
    paper.put(place);
    paper.put("\n");
}
