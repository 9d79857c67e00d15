//! Laws of reports: what functions ensure that do nothing.

ghost use Rattle.std.specs.Prelude.{◌≡◌, ◌↔◌, ◌++◌, ℕ, List, [], ◌∷◌, Ok, Some, length};
ghost use Rattle.std.specs.List.{AllByRecursion, Contains};
ghost use Rattle.ioa_source.specs.Sides.{SourceText};
ghost use Rattle.ioa_terms.specs.declared.tree.Kind.{Kind};
ghost use Rattle.ioa_streams.specs.ScheduleParts.{schedule_part};
ghost use Rattle.ioa_system.specs.Systems.{SystemParts};
ghost use Rattle.ioa_text_reader.specs.Texts.{TextSpells};
ghost use Rattle.ioa_check.specs.Systems.{IsSystemOf};
ghost use Rattle.ioa_transitions.specs.Entries.{PlainEntry};
ghost use Rattle.ioa_compose.specs.Automata.{IsExecution};
ghost use Rattle.ioa_compose.specs.Executions.{replay};
ghost use Rattle.ioa_compose.specs.JointStep.{IsJointStep};
ghost use Rattle.ioa_compose.specs.Start.{start};
ghost use Rattle.ioa_compose.specs.Steps.{IsStep};
ghost use Rattle.ioa_compose.specs.declared.configuration.Conf.{Conf};
ghost use Rattle.ioa_lines.specs.Lines.{Lines, lines_answer};
ghost use Rattle.ioa_record.specs.declared.ending.Ending.{Ending};
ghost use Rattle.ioa_record.specs.declared.record.Record.{Record};
ghost use Rattle.ioa_schedule_check.specs.Schedules.{IsExecutionSpelled, schedule_answer};
ghost use Rattle.ioa_monitor.specs.Reports.{entry_lines, report_text, schedule_text};
ghost use Rattle.ioa_monitor.specs.Traces.{trace_of};
ghost use Rattle.ioa_printed_lines.specs.PrintedLines.{printed_lines};
ghost use Rattle.ioa_report_laws.specs.Reported.{IsReported, IsRunOfText};
ghost use Rattle.ioa_report_laws.specs.Signatures.{IsExternal, IsInSignature};
ghost use Rattle.ioa_report_laws.specs.Taken.{IsTaken};
ghost use Rattle.ioa_report_laws.specs.Told.{HasPart, MayBeTold, Told, told_by, telling, total_line};

use ioa_printed_lines::printed_lines_law;
use ioa_record::{Options, Record};
use ioa_run_laws::shapes_kept_law;
use ioa_runtime_values::{schedule_values_law, states_values_law};
use ioa_schedule_check::schedule_law;
use ioa_text_laws::text_system_law;

/// Each action of an execution of an accepted system is one of the system's, and only sends and receives have the
/// names of messages. Each value that an effect chose is a number, a truth value, or one of the constants of the text.
/// So it is with each execution from the start (Lynch 8.1), and with each replay.
pub fn entries_law()
    ensures execution { (p : SourceText) (s : SystemParts) (entries : List PlainEntry) (cs : List Conf) →
        IsSystemOf p s → IsExecution (IsJointStep IsStep) (start s) entries cs →
        AllByRecursion (IsTaken s) entries }
    ensures replay { (p : SourceText) (s : SystemParts) (entries : List PlainEntry) (cs : List Conf) →
        IsSystemOf p s → replay entries (start s) ≡ Some cs → AllByRecursion (IsTaken s) entries }
{}

/// The schedule of a report passes the check of schedules, if the values of its actions and of its choices are values
/// of the runtime. A report begins with it. Its lines are those of the run's entries, they spell these and are read
/// back as these, with the values that effects chose, and they are an execution of the text's system (Lynch 8.1). That
/// the values are values of the runtime is asked for: numbers lie in 64 bits, and sets and maps ascend. `Value` keeps
/// this of each value, and a replay does not know it. What the check of schedules takes out of a whole report spells
/// the same entries, so the report passes the check as it is.
pub fn report_law()
    ensures stands { (s : SystemParts) (r : Record) (endings : List Ending) → (behind : List ℕ)
        × (report_text s r endings ≡ schedule_text s.names r.schedule ++ behind) }
    ensures lines { (names : List (List ℕ)) (k : ℕ) (entries : List PlainEntry) →
        entry_lines names k entries ≡ printed_lines names k entries }
    ensures spelled { (text : List ℕ) (s : SystemParts) (r : Record) → IsReported text s r →
        Lines s (entry_lines s.names 0 r.schedule) r.schedule }
    ensures read { (text : List ℕ) (s : SystemParts) (r : Record) → IsReported text s r →
        lines_answer s (entry_lines s.names 0 r.schedule) ≡ Ok r.schedule }
    ensures execution { (text : List ℕ) (s : SystemParts) (r : Record) → IsReported text s r →
        IsExecutionSpelled s (entry_lines s.names 0 r.schedule) }
    ensures accepted { (text : List ℕ) (s : SystemParts) (r : Record) → IsReported text s r →
        schedule_answer s (entry_lines s.names 0 r.schedule) ≡ Ok tt }
    ensures part { (text : List ℕ) (s : SystemParts) (r : Record) (endings : List Ending) → IsReported text s r →
        Lines s (schedule_part (report_text s r endings)) r.schedule }
    ensures whole { (text : List ℕ) (s : SystemParts) (r : Record) (endings : List Ending) → IsReported text s r →
        schedule_answer s (schedule_part (report_text s r endings)) ≡ Ok tt }
{
    entries_law();
    text_system_law();
    printed_lines_law();
    schedule_law();
}

/// The schedule of the report of a run, whatever the text and the options, passes the check of schedules: the values of
/// a record are values of the runtime, and the options keep the lines few. Its lines spell the run's entries, and are
/// read back as these. So the report passes it as it is.
pub fn printed_run_law(run_record: &Record, options: &Options)
    ensures spelled { (text : List ℕ) (s : SystemParts) → IsRunOfText text s options.now.steps run_record.now →
        Lines s (entry_lines s.names 0 run_record.now.schedule) run_record.now.schedule }
    ensures read { (text : List ℕ) (s : SystemParts) → IsRunOfText text s options.now.steps run_record.now →
        lines_answer s (entry_lines s.names 0 run_record.now.schedule) ≡ Ok run_record.now.schedule }
    ensures execution { (text : List ℕ) (s : SystemParts) → IsRunOfText text s options.now.steps run_record.now →
        IsExecutionSpelled s (entry_lines s.names 0 run_record.now.schedule) }
    ensures accepted { (text : List ℕ) (s : SystemParts) → IsRunOfText text s options.now.steps run_record.now →
        schedule_answer s (entry_lines s.names 0 run_record.now.schedule) ≡ Ok tt }
    ensures part { (text : List ℕ) (s : SystemParts) (endings : List Ending) →
        IsRunOfText text s options.now.steps run_record.now →
        Lines s (schedule_part (report_text s run_record.now endings)) run_record.now.schedule }
    ensures whole { (text : List ℕ) (s : SystemParts) (endings : List Ending) →
        IsRunOfText text s options.now.steps run_record.now →
        schedule_answer s (schedule_part (report_text s run_record.now endings)) ≡ Ok tt }
{
    schedule_values_law(&run_record.schedule);
    options.steps();
    report_law();
}

/// The trace of a schedule is the sequence of its external actions (Lynch 8.1). An entry is in it exactly if it is in
/// the schedule and its action is an input or an output in the signature of its node, and it stands there in the order
/// of the schedule, as often as in it: the trace of two schedules, one behind the other, is that of the one and behind
/// it that of the other, and of one entry it is this entry, or nothing if the action is internal. The actions of an
/// execution of an accepted system are in the signatures of their nodes.
pub fn trace_law()
    ensures joined { (s : SystemParts) (es fs : List PlainEntry) →
        trace_of s (es ++ fs) ≡ trace_of s es ++ trace_of s fs }
    ensures external { (s : SystemParts) (e : PlainEntry) (k : Kind) → IsInSignature s e.action k → IsExternal k →
        trace_of s (e ∷ []) ≡ e ∷ [] }
    ensures internal { (s : SystemParts) (e : PlainEntry) → IsInSignature s e.action Kind.Internal →
        trace_of s (e ∷ []) ≡ [] }
    ensures members { (s : SystemParts) (es : List PlainEntry) (e : PlainEntry) (k : Kind) →
        IsInSignature s e.action k → Contains (trace_of s es) e ↔ (Contains es e × IsExternal k) }
    ensures execution { (p : SourceText) (s : SystemParts) (entries : List PlainEntry) (cs : List Conf) →
        IsSystemOf p s → IsExecution (IsJointStep IsStep) (start s) entries cs →
        AllByRecursion (λ e. (k : Kind) × IsInSignature s e.action k) entries }
{}

/// Each part of a report can be read back from its lines. If two reports of one system are the same text, they tell the
/// same schedule, the same values of all variables, the same messages under way, what is left of the scripts, the same
/// endings, the same counts of all workers, and the same verdicts. So it is whatever the parts are: a schedule of any
/// execution, states that any execution reaches (Lynch 8.1), and any endings, counts and verdicts. Of a script the
/// lines tell how many stimuli are left, and that tells which, since they are the last of those declared. The total is
/// the number of the actions.
pub fn told_law()
    ensures whole { (s : SystemParts) (r : Record) (endings : List Ending) →
        report_text s r endings ≡ telling s (told_by s r endings) }
    ensures total { (s : SystemParts) (r : Record) (endings : List Ending) →
        HasPart (report_text s r endings) (total_line (length r.schedule)) }
    ensures tells { (p : SourceText) (text : List ℕ) (s : SystemParts) (t u : Told) → TextSpells p text →
        IsSystemOf p s → MayBeTold s t → MayBeTold s u → telling s t ≡ telling s u → t ≡ u }
{
    entries_law();
    text_system_law();
    shapes_kept_law();
    printed_lines_law();
}

/// What the report of a run tells may be told, whatever the text and the options.
fn run_told(run_record: &Record, options: &Options)
    ensures { (text : List ℕ) (s : SystemParts) (endings : List Ending) →
        IsRunOfText text s options.now.steps run_record.now → MayBeTold s (told_by s run_record.now endings) }
{
    schedule_values_law(&run_record.schedule);
    states_values_law(&run_record.states);
    options.steps();
}

/// Two runs of one text whose reports are the same text have the same schedule, states, endings, counts and verdicts,
/// whatever the text and the options.
pub fn told_run_law(first: &Record, second: &Record, options: &Options, others: &Options)
    ensures { (text : List ℕ) (s : SystemParts) (endings later : List Ending) →
        IsRunOfText text s options.now.steps first.now → IsRunOfText text s others.now.steps second.now →
        report_text s first.now endings ≡ report_text s second.now later →
        told_by s first.now endings ≡ told_by s second.now later }
{
    run_told(first, options);
    run_told(second, others);
    told_law();
}
