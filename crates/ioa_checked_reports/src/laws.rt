//! Laws of a run's report and the check of schedules: what functions ensure that do nothing.

ghost use Rattle.std.specs.Prelude.{ℕ, List};
ghost use Rattle.ioa_streams.specs.ScheduleParts.{schedule_part};
ghost use Rattle.ioa_system.specs.Systems.{SystemParts};
ghost use Rattle.ioa_record.specs.declared.ending.Ending.{Ending};
ghost use Rattle.ioa_schedule_check.specs.declared.fault.ScheduleFault.{ScheduleFault};
ghost use Rattle.ioa_monitor.specs.Reports.{entry_lines, report_text};
ghost use Rattle.ioa_pipeline.specs.ScheduleChecks.{IsExecutionOfText, IsFaultOfLines};
ghost use Rattle.ioa_pipeline.specs.WholeRun.{IsLeftBy};

use ioa_record::{Options, Record};
use ioa_report_laws::printed_run_law;
use ioa_schedule_check::schedule_law;
use ioa_text_laws::one_system_law;

/// The schedule of the report of a run passes the check of schedules, whatever the text and the options: its lines are
/// an execution of the text (Lynch 8.1), and the check has no fault of them. So is what the check takes out of the whole
/// report.
pub fn checked_report_law(run_record: &Record, options: &Options)
    ensures execution { (text : List ℕ) (s : SystemParts) (endings : List Ending) →
        IsLeftBy text options.now s run_record.now endings →
        IsExecutionOfText text (entry_lines s.names 0 run_record.now.schedule) }
    ensures no_fault { (text : List ℕ) (s : SystemParts) (endings : List Ending) (f : ScheduleFault) →
        IsLeftBy text options.now s run_record.now endings →
        IsFaultOfLines f text (entry_lines s.names 0 run_record.now.schedule) → ⊥ }
    ensures report { (text : List ℕ) (s : SystemParts) (endings : List Ending) →
        IsLeftBy text options.now s run_record.now endings →
        IsExecutionOfText text (schedule_part (report_text s run_record.now endings)) }
    ensures no_fault_of_report { (text : List ℕ) (s : SystemParts) (endings : List Ending) (f : ScheduleFault) →
        IsLeftBy text options.now s run_record.now endings →
        IsFaultOfLines f text (schedule_part (report_text s run_record.now endings)) → ⊥ }
{
    printed_run_law(run_record, options);
    one_system_law();
    schedule_law();
}
