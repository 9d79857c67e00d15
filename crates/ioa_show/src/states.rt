//! The states of a run in the informal trace format.

ghost use Rattle.std.specs.Prelude.{◌≡◌, ◌++◌, false, IfOk, OnOk, OnErr, codes};
ghost use Rattle.std.specs.List.{flat_map};
ghost use Rattle.ioa_actions.specs.ActionText.{entry_text};
ghost use Rattle.ioa_compose.specs.Composition.{joint_answer};
ghost use Rattle.ioa_compose.specs.Start.{start};
ghost use Rattle.ioa_paper.specs.Papers.{and_text};
ghost use Rattle.ioa_show.specs.Judged.{marks_at};
ghost use Rattle.ioa_show.specs.Shown.{Continues, HasBeginning, PutsText};
ghost use Rattle.ioa_show.specs.States.{Steps, conf_fields, described, description, head_text, index_words};
ghost use Rattle.ioa_show.specs.States.{later_states, opening_words, state_text, states_from, states_text};
ghost use Rattle.ioa_show.specs.States.{states_words};

use crate::judged::put_marks;
use crate::memory::{RAN_OUT, ran_out};
use crate::outcome::outcome_of;
use crate::state_parts::{put_confs, put_keys};
use ioa_actions::StepFault;
use ioa_course::Course;
use ioa_paper::{Paper, ReportFault, put_entry, room};
use ioa_rawlog::RawLog;
use ioa_record::Ending;
use ioa_streams::Out;
use ioa_system::{CheckedInvariant, System};
use ioa_transitions::Entry;
use ioa_values::Names;
use ioa_verdicts::Verdict;
use std::alloc::{AllocError, Global};

/// Puts out the states along a schedule in the informal trace format (form: profile), which is JSON: the names of what
/// a state has, and then a state a line, the start first, each with the action that leads to it and what its effect
/// chose. A state has each variable `x` of node k as `x@k`, and the messages that wait on a channel as `queue(i, j)`. A
/// value of a tuple type is the record of its fields, by the sort of its variable or of what the channel's receiver
/// takes. A state in which an invariant is first not true, by these verdicts, says so; the first verdict is that of the
/// first invariant. Behind an entry that is no step there is no state. If memory ran out in the run, by these endings,
/// the description of the whole says so. A schedule that no run left has no endings. `Memory` (3) can come when a
/// beginning is out already, since each state is made when the one before it is written.
pub fn itf<O: Out>(
    alloc: Global,
    system: &System,
    schedule: &RawLog<Entry>,
    endings: &[Ending],
    verdicts: &[Verdict],
    out: &mut O,
) -> Result<(), ReportFault>
    requires { O.failed out.old ≡ false }
    ensures { PutsText (states_text system.now schedule.now endings.now verdicts.now)
        (O.bytes out.old) (O.bytes out.new) (O.failed out.new) result }
{
    let mut course = Course::start(alloc, system)?;
    let room = room(alloc)?;
    let mut paper = Paper::new(out, room);
    let walked = put_all(
        alloc,
        &mut paper,
        system,
        &mut course,
        schedule,
        endings,
        verdicts,
    );
    let (out, sent) = paper.finish();
    // No effect at run time. The proof reads what `out` holds from the reference that comes back.
    let _ = &*out;
    outcome_of(walked, sent)
}

/// Writes the names of what a state has, and all states of a system from its start.
#[tactic(auto, unfolding(crate::specs::States::states_text))]
fn put_all<O: Out>(
    alloc: Global,
    paper: &mut Paper<'_, O>,
    system: &System,
    course: &mut Course,
    schedule: &RawLog<Entry>,
    endings: &[Ending],
    verdicts: &[Verdict],
) -> Result<(), AllocError>
    requires { course.old ≡ start system.now }
    ensures whole { OnOk result
        (paper.new ≡ and_text paper.old (states_text system.now schedule.now endings.now verdicts.now)) }
    ensures beginning { OnErr result
        (HasBeginning (states_text system.now schedule.now endings.now verdicts.now) paper.old paper.new) }
    ensures part { Continues paper.old paper.new }
{
    let (names, invariants) = (system.names(), system.invariants());
    let is_short = ran_out(endings);
    put_states(
        alloc, paper, names, invariants, verdicts, course, schedule, is_short,
    )
}

/// Writes the names of what a state has, and all states from this one on.
fn put_states<O: Out>(
    alloc: Global,
    paper: &mut Paper<'_, O>,
    names: &Names,
    invariants: &[CheckedInvariant],
    verdicts: &[Verdict],
    course: &mut Course,
    schedule: &RawLog<Entry>,
    is_short: bool,
) -> Result<(), AllocError>
    ensures whole { OnOk result (paper.new ≡ and_text paper.old
        (states_from names.now (marks_at invariants.now verdicts.now) is_short schedule.now course.old)) }
    ensures beginning { OnErr result (HasBeginning
        (states_from names.now (marks_at invariants.now verdicts.now) is_short schedule.now course.old)
        paper.old paper.new) }
    ensures part { Continues paper.old paper.new }
{
    put_head(paper, names, invariants, verdicts, is_short, course);
    put_later(alloc, paper, names, invariants, verdicts, course, schedule)?;
    paper.put("\n]}\n");
    Ok(())
}

/// Writes the names of what a state has, and the first state.
fn put_head<O: Out>(
    paper: &mut Paper<'_, O>,
    names: &Names,
    invariants: &[CheckedInvariant],
    verdicts: &[Verdict],
    is_short: bool,
    course: &Course,
)
    ensures { paper.new ≡ and_text paper.old
        (head_text names.now (marks_at invariants.now verdicts.now) is_short course.now) }
{
    put_opening(paper, is_short);
    put_keys(paper, course.confs());
    put_between(paper);
    put_start(paper, names, invariants, verdicts, course);
}

/// Writes what stands in front of the names of what a state has.
fn put_opening<O: Out>(paper: &mut Paper<'_, O>, is_short: bool)
    ensures { paper.new ≡ and_text paper.old (opening_words is_short) }
{
    paper.put("{\"#meta\":{");
    put_description(paper, is_short);
    paper.put("\"format\":\"ITF\",\"varTypes\":{}},\"vars\":[\"action\"");
}

/// Writes the description of the whole, if memory ran out.
fn put_description<O: Out>(paper: &mut Paper<'_, O>, is_short: bool)
    ensures { paper.new ≡ and_text paper.old (description is_short) }
{
    if is_short {
        put_described(paper);
    }
}

/// Writes the description of a run in which memory ran out.
fn put_described<O: Out>(paper: &mut Paper<'_, O>)
    ensures { paper.new ≡ and_text paper.old described }
{
    paper.put("\"description\":\"");
    paper.put(RAN_OUT);
    paper.put("\",");
}

/// Writes what stands behind these names.
fn put_between<O: Out>(paper: &mut Paper<'_, O>)
    ensures { paper.new ≡ and_text paper.old states_words }
{
    paper.put("],\"states\":[\n");
}

/// Writes the first state.
fn put_start<O: Out>(
    paper: &mut Paper<'_, O>,
    names: &Names,
    invariants: &[CheckedInvariant],
    verdicts: &[Verdict],
    course: &Course,
)
    ensures { paper.new ≡ and_text paper.old
        (state_text names.now 0 (marks_at invariants.now verdicts.now 0) (codes "start") course.now) }
{
    put_index(paper, invariants, verdicts, 0);
    paper.put("start");
    put_end(paper, names, course);
}

/// Writes the states behind the entries of a schedule, as far as these are steps.
fn put_later<O: Out>(
    alloc: Global,
    paper: &mut Paper<'_, O>,
    names: &Names,
    invariants: &[CheckedInvariant],
    verdicts: &[Verdict],
    course: &mut Course,
    schedule: &RawLog<Entry>,
) -> Result<(), AllocError>
    ensures whole { OnOk result (paper.new ≡ and_text paper.old
        (later_states names.now (marks_at invariants.now verdicts.now) 0 schedule.now course.old)) }
    ensures beginning { OnErr result (HasBeginning
        (later_states names.now (marks_at invariants.now verdicts.now) 0 schedule.now course.old)
        paper.old paper.new) }
    ensures part { Continues paper.old paper.new }
{
    let mut passed = 0;
    for entry in schedule.walk() {
        passed += 1;
        if !put_step(
            alloc, paper, names, invariants, verdicts, course, entry, passed,
        )? {
            return Ok(());
        }
    }
    Ok(())
}

/// Takes the step of an entry, the last of so many, and writes the state behind it. Answers whether it is a step.
fn put_step<O: Out>(
    alloc: Global,
    paper: &mut Paper<'_, O>,
    names: &Names,
    invariants: &[CheckedInvariant],
    verdicts: &[Verdict],
    course: &mut Course,
    entry: &Entry,
    passed: usize,
) -> Result<bool, AllocError>
    ensures step { IfOk result (λ b. Steps b (joint_answer entry.now course.old) course.new paper.old paper.new
        (codes ",\n" ++ state_text names.now passed (marks_at invariants.now verdicts.now passed)
        (entry_text names.now entry.now.action entry.now.chosen) course.new)) }
    ensures nothing { OnErr result (paper.new ≡ paper.old) }
    ensures part { Continues paper.old paper.new }
{
    match course.advance(alloc, entry) {
        Ok(()) => {
            put_state(paper, names, invariants, verdicts, course, entry, passed);
            Ok(true)
        }
        Err(StepFault::Memory) => Err(AllocError),
        Err(_) => Ok(false),
    }
}

/// Writes the state behind so many entries, of which this is the last one.
fn put_state<O: Out>(
    paper: &mut Paper<'_, O>,
    names: &Names,
    invariants: &[CheckedInvariant],
    verdicts: &[Verdict],
    course: &Course,
    entry: &Entry,
    passed: usize,
)
    ensures { paper.new ≡ and_text paper.old
        (codes ",\n" ++ state_text names.now passed (marks_at invariants.now verdicts.now passed)
        (entry_text names.now entry.now.action entry.now.chosen) course.now) }
{
    paper.put(",\n");
    put_index(paper, invariants, verdicts, passed);
    put_entry(paper, names, entry.action(), entry.chosen());
    put_end(paper, names, course);
}

/// Writes the beginning of a state, as far as the words of what leads to it.
fn put_index<O: Out>(
    paper: &mut Paper<'_, O>,
    invariants: &[CheckedInvariant],
    verdicts: &[Verdict],
    passed: usize,
)
    ensures { paper.new ≡ and_text paper.old (index_words passed (marks_at invariants.now verdicts.now passed)) }
{
    paper.put("{\"#meta\":{\"index\":");
    paper.put_number(passed);
    put_marks(paper, invariants, verdicts, passed);
    paper.put("},\"action\":\"");
}

/// Writes what a state has behind these words.
fn put_end<O: Out>(paper: &mut Paper<'_, O>, names: &Names, course: &Course)
    ensures { paper.new ≡ and_text paper.old
        (codes "\"" ++ (flat_map (conf_fields names.now course.now) course.now ++ codes "}")) }
{
    paper.put("\"");
    put_confs(paper, names, course, course.confs());
    paper.put("}");
}
