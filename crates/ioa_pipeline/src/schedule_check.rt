//! Checks of schedules: from a text and the lines of a schedule to whether they are an execution.

ghost use Rattle.std.specs.Prelude.{◌≡◌, false, IfErr, IfOk};
ghost use Rattle.ioa_pipeline.specs.ScheduleChecks.{IsEarlyCheck, IsExactForCheck, IsExecutionOfText, IsFaultOfCheck};
ghost use Rattle.std.specs.Arc.{arc_value};
ghost use Rattle.ioa_pipeline.specs.Described.{IsDescribed};
ghost use Rattle.ioa_pipeline.specs.ScheduleChecks.{IsFaultBefore, IsFaultIn, SaysExecution};
ghost use Rattle.ioa_schedule_check.specs.Schedules.{IsExecutionSpelled};

use crate::described::{SystemFault, system_of};
use ioa_schedule_check::{ScheduleFault, check_schedule};
use ioa_sections::CheckFault;
use ioa_streams::{Out, OutFailed, put_all};
use ioa_system::System;
use ioa_text_reader::FrontFault;
use std::alloc::Global;
use std::fmt;
use std::sync::Arc;
use thiserror::Error;

/// What is said of an execution.
pub(crate) const EXECUTION: &str = "execution\n";

/// Why a schedule is not said to be an execution.
#[derive(Debug, Drop, Error)]
pub enum CheckScheduleFault {
    /// Numbers 10 to 16: the text spells no source.
    Front(FrontFault),
    /// Numbers 20 to 34: the source describes no system.
    Check(CheckFault),
    /// `NotStep` (60), `BadLine` (61), `Undefined` (1) or `Range` (2): the lines are no execution of the system, or the
    /// runtime can't tell.
    Schedule(ScheduleFault),
    /// `Memory` (3): memory ran out.
    Memory,
    /// `Write` (71): the output failed, or took nothing more.
    Write,
}

impl fmt::Display for CheckScheduleFault {
    ghost use Rattle.std.specs.Prelude.{Some};
    ghost use Rattle.ioa_pipeline.specs.ScheduleChecks.{check_schedule_fault_text};

    ghost output = { λ f. Some (check_schedule_fault_text f) };

    fn fmt<W: fmt::Write>(&self, f: &mut fmt::Formatter<W>) -> fmt::Result {
        match self {
            CheckScheduleFault::Front(fault) => write!(f, "{fault}"),
            CheckScheduleFault::Check(fault) => write!(f, "{fault}"),
            CheckScheduleFault::Schedule(fault) => write!(f, "{fault}"),
            CheckScheduleFault::Memory => write!(f, "3 Memory"),
            CheckScheduleFault::Write => write!(f, "71 Write"),
        }
    }
}

impl From<SystemFault> for CheckScheduleFault {
    ghost use Rattle.std.specs.Prelude.{◌≡◌};
    ghost use Rattle.ioa_pipeline.specs.ScheduleChecks.{check_fault_of_system};

    ghost from_gives = { λ e f. f ≡ check_fault_of_system e };

    fn from(fault: SystemFault) -> Self {
        match fault {
            SystemFault::Front(fault) => CheckScheduleFault::Front(fault),
            SystemFault::Check(fault) => CheckScheduleFault::Check(fault),
            SystemFault::Memory => CheckScheduleFault::Memory,
        }
    }
}

impl From<ScheduleFault> for CheckScheduleFault {
    ghost use Rattle.std.specs.Prelude.{◌≡◌};
    ghost use Rattle.ioa_pipeline.specs.ScheduleChecks.{check_fault_of_schedule};

    ghost from_gives = { λ e f. f ≡ check_fault_of_schedule e };

    fn from(fault: ScheduleFault) -> Self {
        match fault {
            ScheduleFault::Memory => CheckScheduleFault::Memory,
            refusal => CheckScheduleFault::Schedule(refusal),
        }
    }
}

/// Says `execution` if the lines of a schedule are an execution of the system that a text describes; each line has one
/// action, in the form of a report. The text is read and checked first, then all lines are read, and only then is a
/// step that is none refused.
#[tactic(auto, using(crate::proofs::Judged::handed_on))]
pub fn check_text<O: Out>(
    alloc: Global,
    text: &str,
    lines: &str,
    out: &mut O,
) -> Result<(), CheckScheduleFault>
    requires { O.failed out.old ≡ false }
    ensures written { SaysExecution text.now lines.now
        (O.bytes out.old) (O.bytes out.new) (O.failed out.new) result }
    ensures refused { IfErr result (λ f. IsFaultOfCheck f text.now lines.now) }
    ensures exact { IsExactForCheck result text.now }
{
    follow(alloc, text, lines)?;
    match put_all(out, EXECUTION.as_bytes()) {
        Ok(()) => Ok(()),
        Err(OutFailed) => Err(CheckScheduleFault::Write),
    }
}

/// Whether the lines are an execution of the system that the text describes, or why not.
#[tactic(auto, using(crate::proofs::Refusals::follow_rules, crate::proofs::Judged::handed_on))]
fn follow(alloc: Global, text: &str, lines: &str) -> Result<(), CheckScheduleFault>
    ensures execution { IfOk result (λ _. IsExecutionOfText text.now lines.now) }
    ensures refused { IfErr result (λ f. IsFaultOfCheck f text.now lines.now) }
    ensures early { IfErr result (λ f. IsEarlyCheck f) }
    ensures exact { IsExactForCheck result text.now }
{
    match system_to_check(alloc, text) {
        Ok(system) => follow_in(alloc, &system, lines),
        Err(fault) => Err(fault),
    }
}

/// The system that a text describes, or why no schedule of it is checked.
#[tactic(auto, using(crate::proofs::Refusals::check_rules))]
pub(crate) fn system_to_check(alloc: Global, text: &str) -> Result<Arc<System>, CheckScheduleFault>
    ensures described { IfOk result (λ s. IsDescribed text.now (arc_value s)) }
    ensures refused { IfErr result (λ f. IsFaultBefore f text.now) }
    ensures exact { IsExactForCheck result text.now }
{
    match system_of(alloc, text) {
        Ok(system) => Ok(system),
        Err(fault) => Err(CheckScheduleFault::from(fault)),
    }
}

/// Whether the lines are an execution of a system, or why not.
#[tactic(auto, using(crate::proofs::Refusals::lines_fault))]
fn follow_in(alloc: Global, system: &System, lines: &str) -> Result<(), CheckScheduleFault>
    ensures execution { IfOk result (λ _. IsExecutionSpelled system.now lines.now) }
    ensures fault { IfErr result (λ f. IsFaultIn f system.now lines.now) }
{
    match check_schedule(alloc, system, lines) {
        Ok(()) => Ok(()),
        Err(fault) => Err(CheckScheduleFault::from(fault)),
    }
}
