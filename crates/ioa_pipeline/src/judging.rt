//! Checks of schedules with the verdicts on the invariants along them.

ghost use Rattle.std.specs.Prelude.{◌≡◌, false, IfErr};
ghost use Rattle.ioa_pipeline.specs.Judging.{SaysGiven, SaysIn, SaysJudged, asked_with};
ghost use Rattle.ioa_pipeline.specs.ScheduleChecks.{IsExactForCheck, IsFaultOfCheck};
ghost use Rattle.ioa_pipeline.specs.declared.judging.Judging.TheVariants.{Unasked};

use crate::schedule_check::{CheckScheduleFault, EXECUTION, check_text, system_to_check};
use ioa_monitor::{Findings, ReportFault, judge};
use ioa_schedule_check::{GivenSchedule, given_schedule};
use ioa_streams::Out;
use ioa_system::System;
use std::alloc::Global;

/// What becomes of a system's invariants if a schedule is checked.
#[derive(Clone, Copy, Debug, PartialEq, Eq)]
pub enum Judging {
    /// They are not evaluated.
    Unasked,
    /// They are evaluated, and what the verdicts come to is returned.
    Silent,
    /// The verdicts are told, too.
    Told,
}

/// Says `execution` if the lines of a schedule are an execution of the system that a text describes, as [`check_text`]
/// does, and behind it, if so asked, the verdicts on the invariants along the schedule, as the report of a run has
/// them. Returns what the verdicts come to; nothing is found if they are not asked for, and then no entry is kept.
/// Memory for the verdicts is asked for before anything is said.
pub fn judge_text<O: Out>(
    alloc: Global,
    text: &str,
    lines: &str,
    judging: Judging,
    out: &mut O,
) -> Result<Findings, CheckScheduleFault>
    requires { O.failed out.old ≡ false }
    ensures written { SaysJudged judging text.now lines.now
        (O.bytes out.old) (O.bytes out.new) (O.failed out.new) result }
    ensures refused { IfErr result (λ f. IsFaultOfCheck f text.now lines.now) }
    ensures exact { IsExactForCheck result text.now }
{
    match judging {
        Judging::Unasked => say_unjudged(alloc, text, lines, out),
        Judging::Silent => say_judged(alloc, text, lines, false, out),
        Judging::Told => say_judged(alloc, text, lines, true, out),
    }
}

/// Says whether the lines are an execution, and nothing of the invariants.
#[tactic(auto, using(crate::proofs::JudgedSchedules::unjudged_rules))]
fn say_unjudged<O: Out>(
    alloc: Global,
    text: &str,
    lines: &str,
    out: &mut O,
) -> Result<Findings, CheckScheduleFault>
    requires { O.failed out.old ≡ false }
    ensures written { SaysJudged Unasked text.now lines.now
        (O.bytes out.old) (O.bytes out.new) (O.failed out.new) result }
    ensures refused { IfErr result (λ f. IsFaultOfCheck f text.now lines.now) }
    ensures exact { IsExactForCheck result text.now }
{
    match check_text(alloc, text, lines, out) {
        Ok(()) => Ok(Findings {
            fault: false,
            spent: false,
            invariant: false,
        }),
        Err(fault) => Err(fault),
    }
}

/// Says whether the lines are an execution, with the verdicts.
#[tactic(auto, using(crate::proofs::JudgedSchedules::judged_rules, crate::proofs::Judged::handed_on))]
fn say_judged<O: Out>(
    alloc: Global,
    text: &str,
    lines: &str,
    is_told: bool,
    out: &mut O,
) -> Result<Findings, CheckScheduleFault>
    requires { O.failed out.old ≡ false }
    ensures written { SaysJudged (asked_with is_told) text.now lines.now
        (O.bytes out.old) (O.bytes out.new) (O.failed out.new) result }
    ensures refused { IfErr result (λ f. IsFaultOfCheck f text.now lines.now) }
    ensures exact { IsExactForCheck result text.now }
{
    match system_to_check(alloc, text) {
        Ok(system) => judge_in(alloc, &system, lines, is_told, out),
        Err(fault) => Err(fault),
    }
}

/// Says whether the lines are an execution of a system, with the verdicts.
#[tactic(auto, using(crate::proofs::JudgedSchedules::given_says))]
fn judge_in<O: Out>(
    alloc: Global,
    system: &System,
    lines: &str,
    is_told: bool,
    out: &mut O,
) -> Result<Findings, CheckScheduleFault>
    requires { O.failed out.old ≡ false }
    ensures { SaysIn is_told system.now lines.now
        (O.bytes out.old) (O.bytes out.new) (O.failed out.new) result }
{
    match given_schedule(alloc, system, lines) {
        Ok(given) => judge_given(alloc, system, &given, is_told, out),
        Err(_) => Err(CheckScheduleFault::Memory),
    }
}

/// Says the verdicts along the steps of a schedule, if it is not refused.
fn judge_given<O: Out>(
    alloc: Global,
    system: &System,
    given: &GivenSchedule,
    is_told: bool,
    out: &mut O,
) -> Result<Findings, CheckScheduleFault>
    requires { O.failed out.old ≡ false }
    ensures { SaysGiven is_told system.now given.now.refusal given.now.taken
        (O.bytes out.old) (O.bytes out.new) (O.failed out.new) result }
{
    if let Some(fault) = given.refusal {
        return Err(CheckScheduleFault::from(fault));
    }
    match judge(alloc, system, &given.taken, EXECUTION, is_told, out) {
        Ok(found) => Ok(found),
        Err(ReportFault::Memory) => Err(CheckScheduleFault::Memory),
        Err(ReportFault::Write) => Err(CheckScheduleFault::Write),
    }
}
