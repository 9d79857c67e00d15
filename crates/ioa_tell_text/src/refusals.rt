//! Entries of a schedule that are no steps, written on a paper.

ghost use Rattle.std.specs.Prelude.{◌≡◌, OnOk};
ghost use Rattle.ioa_paper.specs.Papers.{and_text};
ghost use Rattle.ioa_tell.specs.Refusals.{refusal_of};
ghost use Rattle.ioa_tell_text.specs.Refusals.{no_step_text, refusal_text, refused_line};

use crate::lines::put_numbered;
use crate::reasons::reason_text;
use ioa_paper::Paper;
use ioa_streams::Out;
use ioa_tell::Refusal;
use ioa_transitions::Entry;
use ioa_values::Names;
use std::alloc::{AllocError, Global};

/// Writes the line of an entry that is no step: how many steps are before it, the action with what its effect is to
/// choose, and why it is none. Writes nothing if memory runs out.
pub(crate) fn put_refused<O: Out>(
    alloc: Global,
    paper: &mut Paper<'_, O>,
    names: &Names,
    number: usize,
    entry: &Entry,
    refusal: Refusal<'_>,
) -> Result<(), AllocError>
    ensures { OnOk result (paper.new ≡ and_text paper.old
        (refused_line names.now number entry.now (refusal_text names.now (refusal_of refusal.entry)))) }
{
    let why = reason_text(alloc, names, refusal)?;
    put_line(paper, names, number, entry, why.as_str());
    Ok(())
}

/// Writes the line of an entry that is no step, for the reason that this text tells.
fn put_line<O: Out>(
    paper: &mut Paper<'_, O>,
    names: &Names,
    number: usize,
    entry: &Entry,
    why: &str,
)
    ensures { paper.new ≡ and_text paper.old (refused_line names.now number entry.now why.now) }
{
    put_no_step(paper, names, number, entry);
    paper.put(": ");
    paper.put(why);
    paper.put("\n");
}

/// Writes that an entry is no step.
fn put_no_step<O: Out>(paper: &mut Paper<'_, O>, names: &Names, number: usize, entry: &Entry)
    ensures { paper.new ≡ and_text paper.old (no_step_text names.now number entry.now) }
{
    paper.put("not a step: ");
    put_numbered(paper, names, number, entry);
}
