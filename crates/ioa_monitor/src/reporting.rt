//! The report of a run.

ghost use Rattle.std.specs.Prelude.{◌≡◌, ◌++◌, false, IfOk};
ghost use Rattle.ioa_monitor.specs.Findings.{findings_of};
ghost use Rattle.ioa_paper.specs.Outcomes.{PutsOut};
ghost use Rattle.ioa_paper.specs.Papers.{and_text};
ghost use Rattle.ioa_monitor.specs.Reports.{component_lines, invariant_lines, report_text, run_text, states_text};
ghost use Rattle.ioa_verdicts.specs.Verdicts.{verdicts_of};

use crate::commits::put_commits;
use crate::endings::put_endings;
use crate::findings::{Findings, findings_of};
use crate::invariants::put_verdicts;
use crate::nodes::put_variables;
use crate::queues::put_queue;
use crate::schedule::put_schedule;
use ioa_compose::Conf;
use ioa_paper::{Paper, ReportFault, room};
use ioa_record::{Ending, Record};
use ioa_streams::{Out, OutFailed};
use ioa_system::System;
use ioa_verdicts::{Verdict, verdicts};
use std::alloc::Global;

/// Puts out the report of a run that left this record, with an ending for each node, node 0 first (profile): the
/// schedule, the nodes' variables, the channels' queues, what is left of the declared scripts, the endings, the
/// commits, and the verdicts on the invariants along the schedule. Returns what the endings and the verdicts come to.
/// All memory is asked for before anything goes out: as much for every report, and what the verdicts take if there are
/// invariants.
pub fn report<O: Out>(
    alloc: Global,
    system: &System,
    run_record: &Record,
    endings: &[Ending],
    out: &mut O,
) -> Result<Findings, ReportFault>
    requires { O.failed out.old ≡ false }
    ensures written { PutsOut (report_text system.now run_record.now endings.now)
        (O.bytes out.old) (O.bytes out.new) (O.failed out.new) result }
    ensures found { IfOk result (λ f. f ≡ findings_of endings.now (verdicts_of system.now run_record.now.schedule)) }
{
    let verdicts = verdicts(alloc, system, &run_record.schedule)?;
    let room = room(alloc)?;
    let mut paper = Paper::new(out, room);
    put_report(&mut paper, system, run_record, endings, &verdicts);
    let (out, outcome) = paper.finish();
    // No effect at run time. The proof reads what `out` holds from the reference that comes back.
    let _ = &*out;
    match outcome {
        Ok(()) => Ok(findings_of(endings, &verdicts)),
        Err(OutFailed) => Err(ReportFault::Write),
    }
}

/// Writes the report, if these are the verdicts.
fn put_report<O: Out>(
    paper: &mut Paper<'_, O>,
    system: &System,
    run_record: &Record,
    endings: &[Ending],
    verdicts: &[Verdict],
)
    ensures { paper.new ≡ and_text paper.old
        (run_text system.now run_record.now endings.now ++ invariant_lines system.now.invariants verdicts.now) }
{
    put_run(paper, system, run_record, endings);
    put_verdicts(paper, system.invariants(), verdicts);
}

/// Writes what a run left.
fn put_run<O: Out>(
    paper: &mut Paper<'_, O>,
    system: &System,
    run_record: &Record,
    endings: &[Ending],
)
    ensures { paper.new ≡ and_text paper.old (run_text system.now run_record.now endings.now) }
{
    put_schedule(paper, system.names(), &run_record.schedule);
    put_states(paper, system, &run_record.states);
    put_endings(paper, endings);
    put_commits(paper, run_record);
}

/// Writes the components, in the order of their configurations.
fn put_states<O: Out>(paper: &mut Paper<'_, O>, system: &System, states: &[Conf])
    ensures { paper.new ≡ and_text paper.old (states_text system.now states.now) }
{
    for state in states {
        put_component(paper, system, state);
    }
}

/// Writes a node's variables, a channel's queue, or how much is left of a declared script.
fn put_component<O: Out>(paper: &mut Paper<'_, O>, system: &System, state: &Conf)
    ensures { paper.new ≡ and_text paper.old (component_lines system.now state.now) }
{
    match state {
        Conf::Node(node) => {
            let names = system.names();
            let values = node.variables();
            let variables = node.program().automaton().variables();
            put_variables(paper, names, node.node(), values, variables)
        }
        Conf::Queue(queue) => put_queue(paper, system, queue),
    }
}
