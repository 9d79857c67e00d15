//! Runs that are shown step by step, or as pictures.

ghost use Rattle.std.specs.Prelude.{◌≡◌, false, IfErr, OnOk};
ghost use Rattle.ioa_show.specs.Shown.{Continues};
ghost use Rattle.ioa_tell.specs.Told.{TellsRun};
ghost use Rattle.ioa_tell_text.specs.Teller.{teller_after, teller_ended};
ghost use Rattle.ioa_pipeline.specs.Tracing as spec;
ghost use Rattle.ioa_pipeline.specs.Tracing.{IsRefusalOfTrace, ShowsJudged, ShowsLeft, ShowsRun};

use crate::whole_run::{RunFault, run_of};
use ioa_boards::Open;
use ioa_monitor::{Findings, ReportFault, Verdict, findings_of, verdicts};
use ioa_paper::room;
use ioa_record::{Ending, Options, Record};
use ioa_show::{itf, json, mermaid, svg};
use ioa_streams::{Out, OutFailed};
use ioa_system::System;
use ioa_tell::{TellFault, tell};
use ioa_tell_text::TextTeller;
use std::alloc::{AllocError, Global};
use std::fmt;
use std::sync::Wait;
use std::thread::Threads;
use thiserror::Error;

/// How a run is shown.
#[derive(Clone, Copy, Debug, PartialEq, Eq)]
pub enum Format {
    /// As text: each action with what it changed, each miss with its reason.
    Text,
    /// As JSON: an object a line for each action, with what it changed.
    Json,
    /// The states along the schedule, in the informal trace format.
    States,
    /// A space-time diagram, as SVG.
    Diagram,
    /// A sequence diagram, for Mermaid.
    Sequence,
}

/// Why a run was not shown.
#[derive(Debug, Drop, Error)]
pub enum TraceFault {
    /// The run came to no record, or the output failed.
    Run(RunFault),
    /// `Differs` (51): the run that was told is not that of the record. No run is known to come to it.
    Differs,
}

impl fmt::Display for TraceFault {
    ghost use Rattle.std.specs.Prelude.{Some};
    ghost use Rattle.ioa_pipeline.specs.Tracing.{trace_fault_text};

    ghost output = { λ f. Some (trace_fault_text f) };

    fn fmt<W: fmt::Write>(&self, f: &mut fmt::Formatter<W>) -> fmt::Result {
        match self {
            TraceFault::Run(fault) => write!(f, "{fault}"),
            TraceFault::Differs => write!(f, "51 Differs"),
        }
    }
}

impl From<RunFault> for TraceFault {
    ghost use Rattle.std.specs.Prelude.{◌≡◌};
    ghost use Rattle.ioa_pipeline.specs.declared.tracing.TraceFault.TheVariants.{Run};

    ghost from_gives = { λ e f. f ≡ Run e };

    fn from(fault: RunFault) -> Self {
        TraceFault::Run(fault)
    }
}

/// Runs the system that a text describes, with these options, and shows the run in a format, with the verdicts on the
/// invariants along its schedule. With the options of one worker it is the run that
/// [`run_system`](crate::run_system) reports. Returns what the verdicts come to. Memory for them is asked for before
/// anything is shown. `Memory` (3) may come when a beginning went out; but of a picture, as SVG or for Mermaid, nothing
/// did then.
#[tactic(auto, using(crate::proofs::Shown::runs))]
pub fn trace_text<R: Threads + Wait + Sync, O: Out>(
    rt: &R,
    alloc: Global,
    text: &str,
    options: &Options,
    format: Format,
    out: &mut O,
) -> Result<Findings, TraceFault>
    requires { O.failed out.old ≡ false }
    ensures shown { ShowsRun text.now options.now format
        (O.bytes out.old) (O.bytes out.new) (O.failed out.new) result }
    ensures refused { IfErr result (λ f. IsRefusalOfTrace f text.now) }
{
    let (system, record, endings) = run_of(rt, alloc, text, options, &Open)?;
    show_judged(alloc, &system, options, &record, &endings, format, out)
}

/// Shows a run that left this record and these endings, with its verdicts, and returns what they come to.
#[tactic(auto, using(crate::proofs::Shown::judged_rules))]
fn show_judged<O: Out>(
    alloc: Global,
    system: &System,
    options: &Options,
    run_record: &Record,
    endings: &[Ending],
    format: Format,
    out: &mut O,
) -> Result<Findings, TraceFault>
    requires { O.failed out.old ≡ false }
    ensures { ShowsJudged system.now options.now.attempts run_record.now endings.now format
        (O.bytes out.old) (O.bytes out.new) (O.failed out.new) result }
{
    match verdicts(alloc, system, &run_record.schedule) {
        Ok(verdicts) => {
            let verdicts = verdicts.as_slice();
            match show(
                alloc, system, options, run_record, endings, verdicts, format, out,
            ) {
                Ok(()) => Ok(findings_of(&[], verdicts)),
                Err(fault) => Err(fault),
            }
        }
        Err(AllocError) => Err(TraceFault::Run(RunFault::Memory)),
    }
}

/// Shows a run that left this record and these endings, with these verdicts.
#[tactic(auto, using(crate::proofs::Shown::pictures))]
fn show<O: Out>(
    alloc: Global,
    system: &System,
    options: &Options,
    run_record: &Record,
    endings: &[Ending],
    verdicts: &[Verdict],
    format: Format,
    out: &mut O,
) -> Result<(), TraceFault>
    requires { O.failed out.old ≡ false }
    ensures { ShowsLeft system.now options.now.attempts run_record.now endings.now verdicts.now format
        (O.bytes out.old) (O.bytes out.new) (O.failed out.new) result }
{
    match format {
        Format::Text => tell_as_text(alloc, system, options, run_record, endings, verdicts, out),
        Format::Json => shown(json(alloc, system, &run_record.schedule, endings, verdicts, out)),
        Format::States => shown(itf(alloc, system, &run_record.schedule, endings, verdicts, out)),
        Format::Diagram => shown(svg(alloc, system, &run_record.schedule, endings, verdicts, out)),
        Format::Sequence => shown(mermaid(alloc, system, &run_record.schedule, endings, out)),
    }
}

/// What a picture came to.
fn shown(outcome: Result<(), ReportFault>) -> Result<(), TraceFault>
    ensures { result ≡ spec.shown outcome }
{
    match outcome {
        Ok(()) => Ok(()),
        Err(ReportFault::Memory) => Err(TraceFault::Run(RunFault::Memory)),
        Err(ReportFault::Write) => Err(TraceFault::Run(RunFault::Write)),
    }
}

/// Tells a run as text, with these verdicts.
#[tactic(auto, using(crate::proofs::Tellings::telling_shown))]
fn tell_as_text<O: Out>(
    alloc: Global,
    system: &System,
    options: &Options,
    run_record: &Record,
    endings: &[Ending],
    verdicts: &[Verdict],
    out: &mut O,
) -> Result<(), TraceFault>
    requires { O.failed out.old ≡ false }
    ensures { ShowsLeft system.now options.now.attempts run_record.now endings.now verdicts.now Format.Text
        (O.bytes out.old) (O.bytes out.new) (O.failed out.new) result }
{
    let room = match room(alloc) {
        Ok(room) => room,
        Err(AllocError) => return Err(TraceFault::Run(RunFault::Memory)),
    };
    let mut teller = TextTeller::new(
        alloc,
        system.names(),
        system.invariants(),
        verdicts,
        out,
        room,
    );
    teller.begin();
    let told = tell_on(alloc, system, options, run_record, endings, &mut teller);
    end_if_told(&told, &mut teller);
    let (out, sent) = teller.finish();
    // No effect at run time. The proof reads what `out` holds from the reference that comes back.
    let _ = &*out;
    told_outcome(told, sent)
}

/// Tells a run to who writes it as text.
#[tactic(auto, using(crate::proofs::Tellings::telling_kept))]
fn tell_on<O: Out>(
    alloc: Global,
    system: &System,
    options: &Options,
    run_record: &Record,
    endings: &[Ending],
    teller: &mut TextTeller<'_, O>,
) -> Result<(), TellFault>
    ensures told { OnOk result (TellsRun (λ e a b. b ≡ teller_after e a) system.now options.now.attempts
        run_record.now.schedule endings.now teller.old teller.new) }
    ensures kept { OnOk result (Continues teller.old.paper teller.new.paper) }
{
    tell(alloc, system, options, run_record, endings, teller)
}

/// Writes the verdicts behind what was told, if all of it was.
pub(crate) fn end_if_told<O: Out>(told: &Result<(), TellFault>, teller: &mut TextTeller<'_, O>)
    ensures ended { OnOk told.now (teller.new ≡ teller_ended teller.old) }
    ensures kept { Continues teller.old.paper teller.new.paper }
{
    match told {
        Ok(()) => teller.end(),
        Err(_) => {}
    }
}

/// What a telling came to.
fn told_outcome(told: Result<(), TellFault>, sent: Result<(), OutFailed>) -> Result<(), TraceFault>
    ensures { result ≡ spec.told_outcome told sent }
{
    match (told, sent) {
        (Err(TellFault::Memory), _) => Err(TraceFault::Run(RunFault::Memory)),
        (Err(TellFault::Differs), _) => Err(TraceFault::Differs),
        (Ok(()), Err(OutFailed)) => Err(TraceFault::Run(RunFault::Write)),
        (Ok(()), Ok(())) => Ok(()),
    }
}
