//! Laws of runs. Each law is the contract of a function that does nothing.

ghost use Rattle.std.specs.Prelude.{◌≡◌, ◌≢◌, true, ℕ, List, Some};
ghost use Rattle.std.specs.List.{AllByRecursion, list_all};
ghost use Rattle.ioa_compose.specs.Automata.{IsExecution};
ghost use Rattle.ioa_compose.specs.JointStep.{IsJointStep};
ghost use Rattle.ioa_compose.specs.Start.{start};
ghost use Rattle.ioa_compose.specs.Steps.{IsStep};
ghost use Rattle.ioa_system.specs.Declarations.{IsWellDeclared};
ghost use Rattle.ioa_system.specs.Systems.{SystemParts};
ghost use Rattle.ioa_record.specs.declared.ending.Ending.{Ending};
ghost use Rattle.ioa_record.specs.declared.ending.NodeFault.{NodeFault};
ghost use Rattle.ioa_record.specs.Recorded.{ReplaysWithin};
ghost use Rattle.ioa_solo.specs.Solo.{IsBeginningOf, IsSoloCut, PlainCourse, has_ended, rounds, solo};

/// The run by one worker comes to its end: each node has an ending, and more rounds change nothing, so there are rounds
/// enough (profile). Its schedule is no longer than the limit. If the system declares each thing once, the schedule is
/// an execution of the composition from the start to the states that the run leaves (Lynch 8.1 and 8.2), and no node
/// ends with `Differs (51)` or `Unknown (53)`.
pub fn solo_law()
    ensures ends { (s : SystemParts) (attempts limit : ℕ) → list_all has_ended (solo s attempts limit).1 ≡ true }
    ensures settled { (s : SystemParts) (attempts limit more : ℕ) →
        rounds limit more (solo s attempts limit).0 (solo s attempts limit).1 ≡ solo s attempts limit }
    ensures replays { (s : SystemParts) (attempts limit : ℕ) → ReplaysWithin limit (start s)
        (solo s attempts limit).0.schedule (solo s attempts limit).0.states }
    ensures execution { (s : SystemParts) (attempts limit : ℕ) → IsWellDeclared s → IsExecution (IsJointStep IsStep)
        (start s) (solo s attempts limit).0.schedule (solo s attempts limit).0.states }
    ensures own { (s : SystemParts) (attempts limit : ℕ) → IsWellDeclared s →
        AllByRecursion (λ p. p.ending ≢ Some (Ending.Fault NodeFault.Differs)) (solo s attempts limit).1 }
    ensures there { (s : SystemParts) (attempts limit : ℕ) → IsWellDeclared s →
        AllByRecursion (λ p. p.ending ≢ Some (Ending.Fault NodeFault.Unknown)) (solo s attempts limit).1 }
{}

/// A run that memory cut short is a beginning of the whole run (profile): its schedule is a beginning of that run's, an
/// ending says that memory ran out, and each other ending is the one that its node has at the end of that run.
pub fn cut_law()
    ensures { (s : SystemParts) (attempts limit : ℕ) (left : PlainCourse) (endings : List Ending) →
        IsSoloCut s attempts limit left endings → IsBeginningOf (solo s attempts limit) left endings }
{}
