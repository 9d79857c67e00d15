//! The verdicts on invariants, written on a paper.

ghost use Rattle.std.specs.Prelude.{◌≡◌, ◌++◌};
ghost use Rattle.std.specs.Fmt.{decimal};
ghost use Rattle.ioa_paper.specs.Papers.{and_text};
ghost use Rattle.ioa_monitor.specs.Reports.{invariant_line, invariant_lines};
ghost use Rattle.ioa_verdicts.specs.Verdicts.{verdict_text};

use ioa_paper::Paper;
use ioa_streams::Out;
use ioa_system::CheckedInvariant;
use ioa_verdicts::Verdict;

/// Writes the invariants with their verdicts, in the order of their declaration.
pub fn put_verdicts<O: Out>(
    paper: &mut Paper<'_, O>,
    invariants: &[CheckedInvariant],
    verdicts: &[Verdict],
)
    ensures { paper.new ≡ and_text paper.old (invariant_lines invariants.now verdicts.now) }
{
    for (position, invariant) in invariants.iter().enumerate() {
        let Some(verdict) = verdicts.get(position) else {
            return;
        };
        put_verdict(paper, invariant.name().as_str(), *verdict);
    }
}

/// Writes an invariant with its verdict.
fn put_verdict<O: Out>(paper: &mut Paper<'_, O>, name: &str, verdict: Verdict)
    ensures { paper.new ≡ and_text paper.old (invariant_line name.now verdict) }
{
    paper.put("invariant ");
    paper.put(name);
    paper.put(" ");
    put_text(paper, verdict);
    paper.put("\n");
}

/// Writes whether an invariant holds, or since when it does not.
fn put_text<O: Out>(paper: &mut Paper<'_, O>, verdict: Verdict)
    ensures { paper.new ≡ and_text paper.old (verdict_text verdict) }
{
    match verdict {
        Verdict::Holds => paper.put("holds"),
        Verdict::Fails(passed) => put_place(paper, "fails at ", passed),
        Verdict::Undefined(passed) => put_place(paper, "undefined at ", passed),
        Verdict::Range(passed) => put_place(paper, "range at ", passed),
    }
}

/// Writes words, and behind them after how many actions.
fn put_place<O: Out>(paper: &mut Paper<'_, O>, words: &str, passed: usize)
    ensures { paper.new ≡ and_text paper.old (words.now ++ decimal passed) }
{
    paper.put(words);
    paper.put_number(passed);
}
