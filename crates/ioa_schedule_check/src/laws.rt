//! Laws of schedules that are given as lines: what functions ensure that do nothing.

ghost use Rattle.std.specs.Prelude.{◌≡◌, ℕ, List, Ok, Err, Some, take};
ghost use Rattle.ioa_actions.specs.declared.fault.StepFault.{StepFault};
ghost use Rattle.ioa_system.specs.Systems.{SystemParts};
ghost use Rattle.ioa_compose.specs.declared.configuration.Conf.{Conf};
ghost use Rattle.ioa_compose.specs.Executions.{replay};
ghost use Rattle.ioa_compose.specs.Start.{start};
ghost use Rattle.ioa_lines.specs.Lines.{Lines};
ghost use Rattle.ioa_schedule_check.specs.declared.fault.ScheduleFault.{ScheduleFault};
ghost use Rattle.ioa_schedule_check.specs.Schedules.{IsExecutionSpelled, IsRefusedAs, StopsAtStep, schedule_answer};
ghost use Rattle.ioa_schedule_check.specs.Taken.{taken_of};

/// What is answered of lines, against its meaning: they are accepted exactly if they spell an execution (Lynch 8.1)
/// whose steps meet no number outside 64 bits, and each refusal is told of the first place at which it stands.
pub fn schedule_law()
    ensures accepted { (s : SystemParts) (text : List ℕ) → schedule_answer s text ≡ Ok tt → IsExecutionSpelled s text }
    ensures execution { (s : SystemParts) (text : List ℕ) → IsExecutionSpelled s text → schedule_answer s text ≡ Ok tt }
    ensures refused { (s : SystemParts) (text : List ℕ) (f : ScheduleFault) → schedule_answer s text ≡ Err f →
        IsRefusedAs f s text }
{}

/// The steps that the lines of a text take from the start of a system, against their meaning: they replay from there
/// (Lynch 8.1). If the lines spell an execution, they are its entries; if the lines spell a schedule that stops at an
/// entry, they are those before it.
pub fn taken_law()
    ensures replayed { (s : SystemParts) (text : List ℕ) →
        (states : List Conf) × (replay (taken_of s text) (start s) ≡ Some states) }
    ensures whole { (s : SystemParts) (text : List ℕ) → (execution : IsExecutionSpelled s text) →
        taken_of s text ≡ execution.entries }
    ensures before { (s : SystemParts) (text : List ℕ) (k : ℕ) (f : StepFault) → (stops : StopsAtStep s text k f) →
        taken_of s text ≡ take k stops.entries }
{}
