//! What is said of the invariants by verdicts on them.

ghost use Rattle.std.specs.Prelude.{◌≡◌, false};
ghost use Rattle.ioa_paper.specs.Papers.{and_text};
ghost use Rattle.ioa_show.specs.Judged as spec;
ghost use Rattle.ioa_show.specs.Judged.{invariant_words, mark_end, mark_if, mark_start, mark_words, marks_at};
ghost use Rattle.ioa_show.specs.Judged.{marks_left, marks_then, numbered_state, state_told, verdict_end};
ghost use Rattle.ioa_show.specs.Judged.{verdict_line, verdict_lines, verdict_word};

use ioa_paper::Paper;
use ioa_streams::Out;
use ioa_system::CheckedInvariant;
use ioa_verdicts::Verdict;

/// Writes a line for each invariant with its verdict.
pub fn put_verdicts<O: Out>(
    paper: &mut Paper<'_, O>,
    invariants: &[CheckedInvariant],
    verdicts: &[Verdict],
)
    ensures { paper.new ≡ and_text paper.old (verdict_lines invariants.now verdicts.now) }
{
    for (position, invariant) in invariants.iter().enumerate() {
        let Some(verdict) = verdicts.get(position) else {
            return;
        };
        put_verdict(paper, invariant.name().as_str(), *verdict);
    }
}

/// Writes the line of an invariant with its verdict.
fn put_verdict<O: Out>(paper: &mut Paper<'_, O>, name: &str, verdict: Verdict)
    ensures { paper.new ≡ and_text paper.old (verdict_line name.now verdict) }
{
    put_invariant(paper, name);
    paper.put(",\"kind\":\"verdict\"");
    put_state(paper, verdict);
    put_word(paper, verdict);
    paper.put("\n");
}

/// Writes the name of an invariant, which begins what is said of it.
fn put_invariant<O: Out>(paper: &mut Paper<'_, O>, name: &str)
    ensures { paper.new ≡ and_text paper.old (invariant_words name.now) }
{
    paper.put("{\"invariant\":\"");
    paper.put(name);
    paper.put("\"");
}

/// Writes in which state an invariant is first not true, if there is such a state.
fn put_state<O: Out>(paper: &mut Paper<'_, O>, verdict: Verdict)
    ensures { paper.new ≡ and_text paper.old (state_told verdict) }
{
    match verdict {
        Verdict::Holds => {}
        Verdict::Fails(passed) => put_number(paper, passed),
        Verdict::Undefined(passed) => put_number(paper, passed),
        Verdict::Range(passed) => put_number(paper, passed),
    }
}

/// Writes the number of a state.
fn put_number<O: Out>(paper: &mut Paper<'_, O>, passed: usize)
    ensures { paper.new ≡ and_text paper.old (numbered_state passed) }
{
    paper.put(",\"state\":");
    paper.put_number(passed);
}

/// Writes the word of a verdict, which ends what is said of an invariant.
fn put_word<O: Out>(paper: &mut Paper<'_, O>, verdict: Verdict)
    ensures { paper.new ≡ and_text paper.old (verdict_end verdict) }
{
    paper.put(",\"verdict\":\"");
    paper.put(word_of(verdict));
    paper.put("\"}");
}

/// The word of a verdict.
fn word_of(verdict: Verdict) -> &'static str
    ensures { result.now ≡ verdict_word verdict }
{
    match verdict {
        Verdict::Holds => "holds",
        Verdict::Fails(_) => "fails",
        Verdict::Undefined(_) => "undefined",
        Verdict::Range(_) => "range",
    }
}

/// Writes which invariants are first not true in the state behind so many actions; nothing if none is.
#[tactic(auto, using(crate::proofs::Judgements::marks_are))]
pub fn put_marks<O: Out>(
    paper: &mut Paper<'_, O>,
    invariants: &[CheckedInvariant],
    verdicts: &[Verdict],
    passed: usize,
)
    ensures { paper.new ≡ and_text paper.old (marks_at invariants.now verdicts.now passed) }
{
    let has_some = put_open_marks(paper, invariants, verdicts, passed);
    put_mark_end(paper, has_some);
}

/// Writes the same, but not its end. Answers whether there is one.
fn put_open_marks<O: Out>(
    paper: &mut Paper<'_, O>,
    invariants: &[CheckedInvariant],
    verdicts: &[Verdict],
    passed: usize,
) -> bool
    ensures { and_text paper.new (mark_end result)
        ≡ and_text paper.old (marks_left passed false invariants.now verdicts.now) }
{
    let mut has_some = false;
    for (position, invariant) in invariants.iter().enumerate() {
        let Some(verdict) = verdicts.get(position) else {
            return has_some;
        };
        has_some = put_mark(paper, has_some, invariant.name().as_str(), *verdict, passed);
    }
    has_some
}

/// Writes an invariant if it is first not true in the state behind so many actions. Answers whether there are such
/// invariants now, if there were some or not.
fn put_mark<O: Out>(
    paper: &mut Paper<'_, O>,
    behind: bool,
    name: &str,
    verdict: Verdict,
    passed: usize,
) -> bool
    ensures text { paper.new ≡ and_text paper.old
        (mark_if (spec.breaks_at passed verdict) behind name.now verdict) }
    ensures behind { result ≡ marks_then (spec.breaks_at passed verdict) behind }
{
    if !breaks_at(verdict, passed) {
        return behind;
    }
    put_mark_start(paper, behind);
    put_mark_words(paper, name, verdict);
    true
}

/// Whether a verdict says that its invariant is first not true in the state behind so many actions.
fn breaks_at(verdict: Verdict, passed: usize) -> bool
    ensures { result ≡ spec.breaks_at passed verdict }
{
    match verdict {
        Verdict::Holds => false,
        Verdict::Fails(first) => first == passed,
        Verdict::Undefined(first) => first == passed,
        Verdict::Range(first) => first == passed,
    }
}

/// Writes what a state says of an invariant that is first not true in it.
fn put_mark_words<O: Out>(paper: &mut Paper<'_, O>, name: &str, verdict: Verdict)
    ensures { paper.new ≡ and_text paper.old (mark_words name.now verdict) }
{
    put_invariant(paper, name);
    put_word(paper, verdict);
}

/// Writes what stands in front of an invariant, behind others or as the first.
fn put_mark_start<O: Out>(paper: &mut Paper<'_, O>, behind: bool)
    ensures { paper.new ≡ and_text paper.old (mark_start behind) }
{
    if behind {
        paper.put(", ");
    } else {
        paper.put(",\"verdicts\":[");
    }
}

/// Writes the end of the marks, if there are some.
fn put_mark_end<O: Out>(paper: &mut Paper<'_, O>, has_some: bool)
    ensures { paper.new ≡ and_text paper.old (mark_end has_some) }
{
    if has_some {
        paper.put("]");
    }
}
