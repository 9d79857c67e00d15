//! Schedules that are given beside a text, shown step by step, or as pictures.

ghost use Rattle.std.specs.Prelude.{◌≡◌, false, IfErr, IfOk, OnOk, Some};
ghost use Rattle.std.specs.Option.{option_copied};
ghost use Rattle.ioa_compose.specs.Executions.{replay};
ghost use Rattle.ioa_compose.specs.Start.{start};
ghost use Rattle.ioa_show.specs.Shown.{Continues};
ghost use Rattle.ioa_tell.specs.Schedules.{TellsSchedule};
ghost use Rattle.ioa_tell_text.specs.Teller.{teller_after, teller_refused};
ghost use Rattle.ioa_pipeline.specs.Replaying as spec;
ghost use Rattle.ioa_pipeline.specs.Replaying.{IsExactForReplay, IsFaultOfReplay, ReplaysIn, ShowsGiven, ShowsReplay};
ghost use Rattle.ioa_pipeline.specs.Replaying.{IsReasonBeside, ShowsJudged, ShowsRefused, ShowsSteps};

use crate::schedule_check::{CheckScheduleFault, system_to_check};
use crate::tracing::{Format, end_if_told};
use ioa_explain_schedule::reason_of;
use ioa_monitor::{Findings, ReportFault, Verdict, findings_of, verdicts};
use ioa_paper::room;
use ioa_rawlog::RawLog;
use ioa_schedule_check::{GivenSchedule, ScheduleFault, given_schedule};
use ioa_show::{itf, json, mermaid, svg};
use ioa_streams::{Out, OutFailed};
use ioa_system::System;
use ioa_tell::{TellFault, tell_schedule};
use ioa_tell_text::{KeptText, TextTeller};
use ioa_transitions::Entry;
use std::alloc::{AllocError, Global};
use std::fmt;
use thiserror::Error;

/// Why a schedule was not shown to its end.
#[derive(Debug, Drop, Error)]
pub enum ReplayFault {
    /// The text or the lines are refused, memory ran out, or the output failed. If the lines are refused, the steps
    /// before that were shown.
    Check(CheckScheduleFault),
    /// The lines are refused for an action that is no step, and the format does not tell why: the text does. The steps
    /// before that were shown.
    NoStep(ScheduleFault, KeptText),
    /// `Differs` (51): the steps that were told are not those that were taken. No schedule is known to come to it.
    Differs,
}

impl fmt::Display for ReplayFault {
    ghost use Rattle.std.specs.Prelude.{Some};
    ghost use Rattle.ioa_pipeline.specs.Replaying.{replay_fault_text};

    ghost output = { λ f. Some (replay_fault_text f) };

    fn fmt<W: fmt::Write>(&self, f: &mut fmt::Formatter<W>) -> fmt::Result {
        match self {
            ReplayFault::Check(fault) => write!(f, "{fault}"),
            ReplayFault::NoStep(fault, why) => write!(f, "{fault}: {}", why.as_str()),
            ReplayFault::Differs => write!(f, "51 Differs"),
        }
    }
}

/// Takes the steps that the lines of a schedule spell, from the start of the system that a text describes, and shows
/// them in a format, as a run is shown. It stops at the first line that spells no entry, and at the first entry that
/// is no step. As text, a line then says which entry that is, and why; of another format the fault says why. Nothing tells of endings, since a schedule has
/// none. The verdicts on the invariants along what is shown are shown, too; if the lines are an execution, what they
/// come to is returned. Memory for the verdicts is asked for before anything is shown. `Memory` (3) may come when a
/// beginning went out; but of a picture, as SVG or for Mermaid, nothing did then. What it takes of memory grows with the
/// steps.
pub fn trace_schedule<O: Out>(
    alloc: Global,
    text: &str,
    lines: &str,
    format: Format,
    out: &mut O,
) -> Result<Findings, ReplayFault>
    requires { O.failed out.old ≡ false }
    ensures shown { ShowsReplay text.now lines.now format
        (O.bytes out.old) (O.bytes out.new) (O.failed out.new) result }
    ensures refused { IfErr result (λ f. IsFaultOfReplay f text.now lines.now) }
    ensures exact { IsExactForReplay result text.now }
{
    show_schedule(alloc, text, lines, format, out)
}

/// The same, by the system that the text describes.
#[tactic(auto, using(crate::proofs::Replays::text_rules, crate::proofs::Replays::handed_on))]
fn show_schedule<O: Out>(
    alloc: Global,
    text: &str,
    lines: &str,
    format: Format,
    out: &mut O,
) -> Result<Findings, ReplayFault>
    requires { O.failed out.old ≡ false }
    ensures shown { ShowsReplay text.now lines.now format
        (O.bytes out.old) (O.bytes out.new) (O.failed out.new) result }
    ensures refused { IfErr result (λ f. IsFaultOfReplay f text.now lines.now) }
    ensures exact { IsExactForReplay result text.now }
{
    match system_to_check(alloc, text) {
        Ok(system) => show_in(alloc, &system, lines, format, out),
        Err(fault) => Err(ReplayFault::Check(fault)),
    }
}

/// Shows the steps that lines take from the start of a system, or says why not.
#[tactic(auto, using(crate::proofs::Replays::given_rules))]
fn show_in<O: Out>(
    alloc: Global,
    system: &System,
    lines: &str,
    format: Format,
    out: &mut O,
) -> Result<Findings, ReplayFault>
    requires { O.failed out.old ≡ false }
    ensures { ReplaysIn system.now lines.now format
        (O.bytes out.old) (O.bytes out.new) (O.failed out.new) result }
{
    match given_schedule(alloc, system, lines) {
        Ok(mut given) => show_given(alloc, system, &mut given, format, out),
        Err(AllocError) => Err(ReplayFault::Check(CheckScheduleFault::Memory)),
    }
}

/// Shows the steps of a schedule, and tells of its refusal if it has one.
#[tactic(auto, using(crate::proofs::Replays::kept_replay))]
fn show_given<O: Out>(
    alloc: Global,
    system: &System,
    given: &mut GivenSchedule,
    format: Format,
    out: &mut O,
) -> Result<Findings, ReplayFault>
    requires well { O.failed out.old ≡ false }
    requires reached { replay given.old.taken (start system.now) ≡ Some given.old.course }
    ensures { ShowsGiven system.now given.old.taken given.old.refused given.old.refusal format
        (O.bytes out.old) (O.bytes out.new) (O.failed out.new) result }
{
    match given.refusal {
        None => show_judged(
            alloc,
            system,
            &given.taken,
            given.refused.as_ref(),
            format,
            out,
        ),
        Some(ScheduleFault::Memory) => Err(ReplayFault::Check(CheckScheduleFault::Memory)),
        Some(fault) => show_refused(alloc, system, given, fault, format, out),
    }
}

/// Shows the steps of a schedule with its verdicts, and behind them the entry that is no step. Returns what the verdicts
/// come to.
#[tactic(auto, using(crate::proofs::Replays::judged_rules))]
fn show_judged<O: Out>(
    alloc: Global,
    system: &System,
    taken: &RawLog<Entry>,
    refused: Option<&Entry>,
    format: Format,
    out: &mut O,
) -> Result<Findings, ReplayFault>
    requires { O.failed out.old ≡ false }
    ensures { ShowsJudged system.now taken.now (option_copied refused.entry) format
        (O.bytes out.old) (O.bytes out.new) (O.failed out.new) result }
{
    match verdicts(alloc, system, taken) {
        Ok(verdicts) => {
            let verdicts = verdicts.as_slice();
            match show_steps(alloc, system, taken, refused, verdicts, format, out) {
                Ok(()) => Ok(findings_of(&[], verdicts)),
                Err(fault) => Err(fault),
            }
        }
        Err(AllocError) => Err(ReplayFault::Check(CheckScheduleFault::Memory)),
    }
}

/// Shows the steps of a schedule, and then tells of its refusal, which is not want of memory. Memory for its reason is
/// asked for first.
#[tactic(auto, using(crate::proofs::Replays::refused_rules))]
fn show_refused<O: Out>(
    alloc: Global,
    system: &System,
    given: &mut GivenSchedule,
    fault: ScheduleFault,
    format: Format,
    out: &mut O,
) -> Result<Findings, ReplayFault>
    requires well { O.failed out.old ≡ false }
    requires other { fault ≡ ScheduleFault.Memory → ⊥ }
    requires reached { replay given.old.taken (start system.now) ≡ Some given.old.course }
    ensures { ShowsRefused system.now given.old.taken given.old.refused fault format
        (O.bytes out.old) (O.bytes out.new) (O.failed out.new) result }
{
    match reason_beside(alloc, system, given, format) {
        Ok(why) => show_stopped(alloc, system, given, fault, why, format, out),
        Err(AllocError) => Err(ReplayFault::Check(CheckScheduleFault::Memory)),
    }
}

/// Why the entry is no step for which a schedule is refused, if there is one and the format does not tell it.
#[tactic(auto, using(crate::proofs::Replays::reason_rules))]
fn reason_beside(
    alloc: Global,
    system: &System,
    given: &mut GivenSchedule,
    format: Format,
) -> Result<Option<KeptText>, AllocError>
    requires { replay given.old.taken (start system.now) ≡ Some given.old.course }
    ensures taken { given.new.taken ≡ given.old.taken }
    ensures refused { given.new.refused ≡ given.old.refused }
    ensures reason { IfOk result (IsReasonBeside system.now given.old.taken given.old.refused) }
{
    match format {
        Format::Text => Ok(None),
        Format::Json | Format::States | Format::Diagram | Format::Sequence => {
            reason_of(alloc, system.names(), given)
        }
    }
}

/// The same, once its reason is known if it is to be told beside.
#[tactic(auto, using(crate::proofs::Replays::refused_rules))]
fn show_stopped<O: Out>(
    alloc: Global,
    system: &System,
    given: &GivenSchedule,
    fault: ScheduleFault,
    why: Option<KeptText>,
    format: Format,
    out: &mut O,
) -> Result<Findings, ReplayFault>
    requires well { O.failed out.old ≡ false }
    requires other { fault ≡ ScheduleFault.Memory → ⊥ }
    requires reason { IsReasonBeside system.now given.now.taken given.now.refused why }
    ensures { ShowsRefused system.now given.now.taken given.now.refused fault format
        (O.bytes out.old) (O.bytes out.new) (O.failed out.new) result }
{
    match show_judged(
        alloc,
        system,
        &given.taken,
        given.refused.as_ref(),
        format,
        out,
    ) {
        Ok(_found) => Err(refusal_with(fault, why)),
        Err(fault) => Err(fault),
    }
}

/// The refusal of lines, with its reason if that is to be told beside.
fn refusal_with(fault: ScheduleFault, why: Option<KeptText>) -> ReplayFault
    ensures { result ≡ spec.refusal_with fault why }
{
    match why {
        None => ReplayFault::Check(CheckScheduleFault::Schedule(fault)),
        Some(why) => ReplayFault::NoStep(fault, why),
    }
}

/// Shows steps from the start of a system with these verdicts, and behind them the entry that is no step.
#[tactic(auto, using(crate::proofs::Replays::pictures))]
fn show_steps<O: Out>(
    alloc: Global,
    system: &System,
    taken: &RawLog<Entry>,
    refused: Option<&Entry>,
    verdicts: &[Verdict],
    format: Format,
    out: &mut O,
) -> Result<(), ReplayFault>
    requires { O.failed out.old ≡ false }
    ensures { ShowsSteps system.now taken.now (option_copied refused.entry) verdicts.now format
        (O.bytes out.old) (O.bytes out.new) (O.failed out.new) result }
{
    match format {
        Format::Text => tell_steps(alloc, system, taken, refused, verdicts, out),
        Format::Json => shown(json(alloc, system, taken, &[], verdicts, out)),
        Format::States => shown(itf(alloc, system, taken, &[], verdicts, out)),
        Format::Diagram => shown(svg(alloc, system, taken, &[], verdicts, out)),
        Format::Sequence => shown(mermaid(alloc, system, taken, &[], out)),
    }
}

/// What a picture came to.
fn shown(outcome: Result<(), ReportFault>) -> Result<(), ReplayFault>
    ensures { result ≡ spec.replay_shown outcome }
{
    match outcome {
        Ok(()) => Ok(()),
        Err(ReportFault::Memory) => Err(ReplayFault::Check(CheckScheduleFault::Memory)),
        Err(ReportFault::Write) => Err(ReplayFault::Check(CheckScheduleFault::Write)),
    }
}

/// Tells steps as text, and behind them the entry that is no step.
#[tactic(auto, using(crate::proofs::Replays::telling_shown))]
fn tell_steps<O: Out>(
    alloc: Global,
    system: &System,
    taken: &RawLog<Entry>,
    refused: Option<&Entry>,
    verdicts: &[Verdict],
    out: &mut O,
) -> Result<(), ReplayFault>
    requires { O.failed out.old ≡ false }
    ensures { ShowsSteps system.now taken.now (option_copied refused.entry) verdicts.now Format.Text
        (O.bytes out.old) (O.bytes out.new) (O.failed out.new) result }
{
    let room = match room(alloc) {
        Ok(room) => room,
        Err(AllocError) => return Err(ReplayFault::Check(CheckScheduleFault::Memory)),
    };
    let mut teller = TextTeller::new(
        alloc,
        system.names(),
        system.invariants(),
        verdicts,
        out,
        room,
    );
    teller.begin();
    let told = tell_on(alloc, system, taken, refused, &mut teller);
    end_if_told(&told, &mut teller);
    let (out, sent) = teller.finish();
    // No effect at run time. The proof reads what `out` holds from the reference that comes back.
    let _ = &*out;
    told_outcome(told, sent)
}

/// Tells steps to who writes them as text.
#[tactic(auto, using(crate::proofs::Replays::telling_kept))]
fn tell_on<O: Out>(
    alloc: Global,
    system: &System,
    taken: &RawLog<Entry>,
    refused: Option<&Entry>,
    teller: &mut TextTeller<'_, O>,
) -> Result<(), TellFault>
    ensures told { OnOk result (TellsSchedule (λ e a b. b ≡ teller_after e a) (λ k e r a b. b ≡ teller_refused k e r a)
        system.now taken.now (option_copied refused.entry) teller.old teller.new) }
    ensures kept { OnOk result (Continues teller.old.paper teller.new.paper) }
{
    tell_schedule(alloc, system, taken, refused, teller)
}

/// What a telling came to.
fn told_outcome(told: Result<(), TellFault>, sent: Result<(), OutFailed>) -> Result<(), ReplayFault>
    ensures { result ≡ spec.replay_told told sent }
{
    match (told, sent) {
        (Err(TellFault::Memory), _) => Err(ReplayFault::Check(CheckScheduleFault::Memory)),
        (Err(TellFault::Differs), _) => Err(ReplayFault::Differs),
        (Ok(()), Err(OutFailed)) => Err(ReplayFault::Check(CheckScheduleFault::Write)),
        (Ok(()), Ok(())) => Ok(()),
    }
}
