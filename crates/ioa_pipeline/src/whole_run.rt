//! Whole runs: from a text to its report.

ghost use Rattle.std.specs.Prelude.{◌≡◌, ℕ, false, IfOk, IfErr};
ghost use Rattle.std.specs.Arc.{arc_value};
ghost use Rattle.ioa_monitor.specs.Reports.{report_text};
ghost use Rattle.ioa_pipeline.specs.Described.{IsDescribed};
ghost use Rattle.ioa_pipeline.specs.WholeRun.{IsEarly, IsExactFor, IsFaultOfWorkers, IsLeftBy, found_in};
ghost use Rattle.ioa_pipeline.specs.WholeRun.{IsRefusalOf, WritesReport, WritesText};

use crate::described::{SystemFault, system_of};
use ioa_boards::Gate;
use ioa_held::FinishFault;
use ioa_monitor::{Findings, ReportFault, report};
use ioa_record::{Ending, Options, Record};
use ioa_sections::CheckFault;
use ioa_streams::Out;
use ioa_system::System;
use ioa_text_reader::FrontFault;
use ioa_workers::run;
use std::alloc::Global;
use std::fmt;
use std::mem::ManuallyDrop;
use std::sync::{Arc, Wait};
use std::thread::Threads;
use thiserror::Error;

/// Why a whole run wrote no report.
#[derive(Debug, Drop, Error)]
pub enum RunFault {
    /// Numbers 10 to 16: the text spells no source.
    Front(FrontFault),
    /// Numbers 20 to 34: the source describes no system.
    Check(CheckFault),
    /// `Unaccounted` (56): what several workers left could not be put together. `Foreign` (55) and `SharesMissing` (57)
    /// do not come.
    Finish(FinishFault),
    /// `Memory` (3): memory ran out.
    Memory,
    /// `Write` (71): the output failed, or took nothing more. A beginning of the report went out.
    Write,
}

impl fmt::Display for RunFault {
    ghost use Rattle.std.specs.Prelude.{Some};
    ghost use Rattle.ioa_pipeline.specs.WholeRun.{run_fault_text};

    ghost output = { λ f. Some (run_fault_text f) };

    fn fmt<W: fmt::Write>(&self, f: &mut fmt::Formatter<W>) -> fmt::Result {
        match self {
            RunFault::Front(fault) => write!(f, "{fault}"),
            RunFault::Check(fault) => write!(f, "{fault}"),
            RunFault::Finish(fault) => write!(f, "{fault}"),
            RunFault::Memory => write!(f, "3 Memory"),
            RunFault::Write => write!(f, "71 Write"),
        }
    }
}

impl From<SystemFault> for RunFault {
    ghost use Rattle.std.specs.Prelude.{◌≡◌};
    ghost use Rattle.ioa_pipeline.specs.WholeRun.{run_fault_of_system};

    ghost from_gives = { λ e f. f ≡ run_fault_of_system e };

    fn from(fault: SystemFault) -> Self {
        match fault {
            SystemFault::Front(fault) => RunFault::Front(fault),
            SystemFault::Check(fault) => RunFault::Check(fault),
            SystemFault::Memory => RunFault::Memory,
        }
    }
}

impl From<FinishFault> for RunFault {
    ghost use Rattle.std.specs.Prelude.{◌≡◌};
    ghost use Rattle.ioa_pipeline.specs.WholeRun.{run_fault_of_finish};

    ghost from_gives = { λ e f. f ≡ run_fault_of_finish e };

    fn from(fault: FinishFault) -> Self {
        match fault {
            FinishFault::Memory => RunFault::Memory,
            fault => RunFault::Finish(fault),
        }
    }
}

/// Runs the system that a text describes, by as many workers as the options say, and writes the report. Returns what
/// the report's endings and verdicts come to. With one worker the run is on the calling thread; with several each has a
/// thread of its own, and all of them have ended when this returns. The gate is called between the steps of the
/// workers.
#[tactic(auto, using(crate::proofs::Reported::late, crate::proofs::Reported::calm, crate::proofs::Judged::handed_on))]
pub fn run_system<R: Threads + Wait + Sync, G: Gate + Sync, O: Out>(
    rt: &R,
    alloc: Global,
    text: &str,
    options: &Options,
    gate: &G,
    out: &mut O,
) -> Result<Findings, RunFault>
    requires { O.failed out.old ≡ false }
    ensures written { WritesReport text.now options.now
        (O.bytes out.old) (O.bytes out.new) (O.failed out.new) result }
    ensures refused { IfErr result (λ f. IsRefusalOf f text.now) }
    ensures exact { IsExactFor result text.now }
    // with one worker no fault is of finishing, and with several only that receipts do not account for the log (56)
    ensures alone { IfErr result (λ f. IsFaultOfWorkers options.now.workers f) }
{
    let (system, record, endings) = run_of(rt, alloc, text, options, gate)?;
    let written = write_report(alloc, &system, &record, &endings, out);
    // the program ends now, and to free what the run left would cost as much as many of its steps
    let _left = ManuallyDrop::new((system, record, endings));
    written
}

/// Writes the report of a run that left this record and these endings.
fn write_report<O: Out>(
    alloc: Global,
    system: &System,
    run_record: &Record,
    endings: &[Ending],
    out: &mut O,
) -> Result<Findings, RunFault>
    requires { O.failed out.old ≡ false }
    ensures { WritesText (report_text system.now run_record.now endings.now)
        (found_in system.now run_record.now endings.now)
        (O.bytes out.old) (O.bytes out.new) (O.failed out.new) result }
{
    match report(alloc, system, run_record, endings, out) {
        Ok(findings) => Ok(findings),
        Err(ReportFault::Memory) => Err(RunFault::Memory),
        Err(ReportFault::Write) => Err(RunFault::Write),
    }
}

/// The system that a text describes, what a run of it left, and how its nodes ended.
#[tactic(auto, using(crate::proofs::Refusals::finish_calm, crate::proofs::Judged::handed_on))]
pub(crate) fn run_of<R: Threads + Wait + Sync, G: Gate + Sync>(
    rt: &R,
    alloc: Global,
    text: &str,
    options: &Options,
    gate: &G,
) -> Result<(Arc<System>, Record, Vec<Ending>), RunFault>
    ensures left { IfOk result (λ r. IsLeftBy text.now options.now (arc_value r.0) r.1 r.2.items) }
    ensures early { IfErr result (λ f. IsEarly f) }
    ensures refused { IfErr result (λ f. IsRefusalOf f text.now) }
    ensures exact { IsExactFor result text.now }
    ensures alone { IfErr result (λ f. IsFaultOfWorkers options.now.workers f) }
{
    let system = system_to_run(alloc, text)?;
    let (record, endings) = run(rt, alloc, &system, options, gate)?;
    Ok((system, record, endings))
}

/// The system that a text describes, or why it is not run.
#[tactic(auto, using(crate::proofs::Refusals::run_rules))]
fn system_to_run(alloc: Global, text: &str) -> Result<Arc<System>, RunFault>
    ensures described { IfOk result (λ s. IsDescribed text.now (arc_value s)) }
    ensures early { IfErr result (λ f. IsEarly f) }
    ensures refused { IfErr result (λ f. IsRefusalOf f text.now) }
    ensures exact { IsExactFor result text.now }
    ensures calm { IfErr result (λ f. (workers : ℕ) → IsFaultOfWorkers workers f) }
{
    match system_of(alloc, text) {
        Ok(system) => Ok(system),
        Err(fault) => Err(RunFault::from(fault)),
    }
}
