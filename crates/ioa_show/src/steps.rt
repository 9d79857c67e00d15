//! The steps of a run as JSON.

ghost use Rattle.std.specs.Prelude.{◌≡◌, false, IfOk, OnErr, OnOk};
ghost use Rattle.std.specs.Option.{option_copied};
ghost use Rattle.ioa_actions.specs.declared.component.Component.TheVariants as component;
ghost use Rattle.ioa_compose.specs.Composition.{joint_answer};
ghost use Rattle.ioa_compose.specs.Start.{start};
ghost use Rattle.ioa_paper.specs.Papers.{and_text};
ghost use Rattle.ioa_show.specs.Shown.{Continues, HasBeginning, PutsText};
ghost use Rattle.ioa_show.specs.States.{Steps};
ghost use Rattle.ioa_show.specs.Steps.{closing, done_told, end_told, head_told, last_line, last_words, line_told};
ghost use Rattle.ioa_show.specs.Steps.{lines_from, place_told, step_line, step_lines, steps_text, values_of};

use crate::endings::put_endings;
use crate::finding::conf_of;
use crate::judged::put_verdicts;
use crate::memory::{RAN_OUT, ran_out};
use crate::outcome::outcome_of;
use crate::start::put_start;
use crate::step_parts::{put_arguments, put_changes, put_chosen, put_queue};
use ioa_actions::{Action, Component, StepFault};
use ioa_compose::Conf;
use ioa_course::Course;
use ioa_paper::{Paper, ReportFault, put_entry, room};
use ioa_rawlog::RawLog;
use ioa_record::Ending;
use ioa_streams::Out;
use ioa_system::{CheckedInvariant, System};
use ioa_transitions::Entry;
use ioa_values::{Names, Value, copies};
use ioa_verdicts::Verdict;
use std::alloc::{AllocError, Global};

/// Puts out a run as JSON (form: profile), an object a line. The first line is the start: the queues, and the variables
/// of all nodes with their sorts and values. Then comes a line for each action of the schedule: the action with its
/// arguments, its node, its number and its text, which variables of the node changed, what the effect chose, if it
/// chose something, and the queue that took part with its new length. Behind an entry that is no step there is no such
/// line. Then come a line for each ending and a line for each invariant with its verdict. If memory ran out in the run,
/// by these endings, a last line says so. A schedule that no run left has no endings. The verdicts are shown as they
/// are given, the first with the first invariant. `Memory` (3) can come when a beginning is out already.
pub fn json<O: Out>(
    alloc: Global,
    system: &System,
    schedule: &RawLog<Entry>,
    endings: &[Ending],
    verdicts: &[Verdict],
    out: &mut O,
) -> Result<(), ReportFault>
    requires { O.failed out.old ≡ false }
    ensures { PutsText (steps_text system.now schedule.now endings.now verdicts.now)
        (O.bytes out.old) (O.bytes out.new) (O.failed out.new) result }
{
    let mut course = Course::start(alloc, system)?;
    let room = room(alloc)?;
    let mut paper = Paper::new(out, room);
    let walked = put_all(
        alloc,
        &mut paper,
        system,
        &mut course,
        schedule,
        endings,
        verdicts,
    );
    let (out, sent) = paper.finish();
    // No effect at run time. The proof reads what `out` holds from the reference that comes back.
    let _ = &*out;
    outcome_of(walked, sent)
}

/// Writes all lines of a system from its start.
#[tactic(auto, unfolding(crate::specs::Steps::steps_text))]
fn put_all<O: Out>(
    alloc: Global,
    paper: &mut Paper<'_, O>,
    system: &System,
    course: &mut Course,
    schedule: &RawLog<Entry>,
    endings: &[Ending],
    verdicts: &[Verdict],
) -> Result<(), AllocError>
    requires { course.old ≡ start system.now }
    ensures whole { OnOk result
        (paper.new ≡ and_text paper.old (steps_text system.now schedule.now endings.now verdicts.now)) }
    ensures beginning { OnErr result
        (HasBeginning (steps_text system.now schedule.now endings.now verdicts.now) paper.old paper.new) }
    ensures part { Continues paper.old paper.new }
{
    let (names, invariants) = (system.names(), system.invariants());
    put_lines(
        alloc, paper, names, invariants, course, schedule, endings, verdicts,
    )
}

/// Writes all lines from the start on, at which the course is.
fn put_lines<O: Out>(
    alloc: Global,
    paper: &mut Paper<'_, O>,
    names: &Names,
    invariants: &[CheckedInvariant],
    course: &mut Course,
    schedule: &RawLog<Entry>,
    endings: &[Ending],
    verdicts: &[Verdict],
) -> Result<(), AllocError>
    ensures whole { OnOk result (paper.new ≡ and_text paper.old
        (lines_from names.now invariants.now schedule.now endings.now verdicts.now course.old)) }
    ensures beginning { OnErr result (HasBeginning
        (lines_from names.now invariants.now schedule.now endings.now verdicts.now course.old) paper.old paper.new) }
    ensures part { Continues paper.old paper.new }
{
    put_start(paper, names, course);
    put_steps(alloc, paper, names, course, schedule)?;
    put_closing(paper, invariants, endings, verdicts);
    Ok(())
}

/// Writes what stands behind the steps.
fn put_closing<O: Out>(
    paper: &mut Paper<'_, O>,
    invariants: &[CheckedInvariant],
    endings: &[Ending],
    verdicts: &[Verdict],
)
    ensures { paper.new ≡ and_text paper.old (closing invariants.now endings.now verdicts.now) }
{
    put_endings(paper, endings);
    put_verdicts(paper, invariants, verdicts);
    put_last(paper, ran_out(endings));
}

/// Writes the last line, if memory ran out.
fn put_last<O: Out>(paper: &mut Paper<'_, O>, is_short: bool)
    ensures { paper.new ≡ and_text paper.old (last_line is_short) }
{
    if is_short {
        put_last_line(paper);
    }
}

/// Writes the last line.
fn put_last_line<O: Out>(paper: &mut Paper<'_, O>)
    ensures { paper.new ≡ and_text paper.old last_words }
{
    paper.put("{\"kind\":\"end\",\"text\":\"");
    paper.put(RAN_OUT);
    paper.put("\"}\n");
}

/// Writes the lines of the entries of a schedule, as far as these are steps.
fn put_steps<O: Out>(
    alloc: Global,
    paper: &mut Paper<'_, O>,
    names: &Names,
    course: &mut Course,
    schedule: &RawLog<Entry>,
) -> Result<(), AllocError>
    ensures whole { OnOk result (paper.new ≡ and_text paper.old (step_lines names.now 0 schedule.now course.old)) }
    ensures beginning { OnErr result
        (HasBeginning (step_lines names.now 0 schedule.now course.old) paper.old paper.new) }
    ensures part { Continues paper.old paper.new }
{
    let mut position = 0;
    for entry in schedule.walk() {
        if !put_step(alloc, paper, names, course, entry, position)? {
            return Ok(());
        }
        position += 1;
    }
    Ok(())
}

/// Takes the step of an entry at a position, and writes its line. Answers whether it is a step.
fn put_step<O: Out>(
    alloc: Global,
    paper: &mut Paper<'_, O>,
    names: &Names,
    course: &mut Course,
    entry: &Entry,
    position: usize,
) -> Result<bool, AllocError>
    ensures step { IfOk result (λ b. Steps b (joint_answer entry.now course.old) course.new paper.old paper.new
        (step_line names.now position entry.now course.old course.new)) }
    ensures nothing { OnErr result (paper.new ≡ paper.old) }
    ensures part { Continues paper.old paper.new }
{
    let node = Component::Node(entry.action().node());
    let before = values_in(alloc, conf_of(course, node))?;
    match course.advance(alloc, entry) {
        Ok(()) => {
            put_line(paper, names, position, entry, before.as_slice(), course);
            Ok(true)
        }
        Err(StepFault::Memory) => Err(AllocError),
        Err(_) => Ok(false),
    }
}

/// Copies of the values of a node's variables; none if it is no node.
fn values_in(alloc: Global, conf: Option<&Conf>) -> Result<Vec<Value>, AllocError>
    ensures { IfOk result (λ v. v.items ≡ values_of (option_copied conf.entry)) }
{
    match conf {
        Some(Conf::Node(node)) => copies(alloc, node.variables()),
        Some(Conf::Queue(_)) | None => Ok(Vec::new(alloc)),
    }
}

/// Writes the line of an entry at a position, whose node had these values before.
fn put_line<O: Out>(
    paper: &mut Paper<'_, O>,
    names: &Names,
    position: usize,
    entry: &Entry,
    before: &[Value],
    course: &Course,
)
    ensures { paper.new ≡ and_text paper.old (line_told names.now position entry.now before.now course.now) }
{
    put_head(paper, names, entry.action());
    put_done(paper, names, entry, before, course);
    put_place(paper, entry.action(), position);
    put_queue(paper, course, entry.action());
    put_end(paper, names, entry);
}

/// Writes what an entry changed of its node, which had these values before, and what its effect chose.
fn put_done<O: Out>(
    paper: &mut Paper<'_, O>,
    names: &Names,
    entry: &Entry,
    before: &[Value],
    course: &Course,
)
    ensures { paper.new ≡ and_text paper.old (done_told names.now entry.now before.now course.now) }
{
    let node = Component::Node(entry.action().node());
    put_changes(paper, names, before, conf_of(course, node));
    put_chosen(paper, names, entry.chosen());
}

/// Writes the beginning of the line of an action, as far as its changes.
fn put_head<O: Out>(paper: &mut Paper<'_, O>, names: &Names, action: &Action)
    ensures { paper.new ≡ and_text paper.old (head_told names.now action.now) }
{
    paper.put("{\"action\":\"");
    paper.put(action.name());
    paper.put("\",\"arguments\":[");
    put_arguments(paper, names, action);
    paper.put("],\"changes\":[");
}

/// Writes what stands between these and the queue.
fn put_place<O: Out>(paper: &mut Paper<'_, O>, action: &Action, position: usize)
    ensures { paper.new ≡ and_text paper.old (place_told action.now position) }
{
    paper.put("],\"kind\":\"step\",\"node\":");
    paper.put_number(action.node());
    paper.put(",\"number\":");
    paper.put_number(position);
    paper.put(",\"queues\":[");
}

/// Writes what stands behind the queue, to the end of the line.
fn put_end<O: Out>(paper: &mut Paper<'_, O>, names: &Names, entry: &Entry)
    ensures { paper.new ≡ and_text paper.old (end_told names.now entry.now) }
{
    paper.put("],\"text\":\"");
    put_entry(paper, names, entry.action(), entry.chosen());
    paper.put("\"}\n");
}
