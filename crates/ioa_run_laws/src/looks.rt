//! The law of what looks show of a run of an accepted system. A law is the contract of a function that does nothing.

ghost use Rattle.std.specs.Prelude.{◌≡◌, Ok, length};
ghost use Rattle.std.specs.List.{AllByRecursion, Contains};
ghost use Rattle.ioa_terms.specs.Inboxes.{inbox_values};
ghost use Rattle.ioa_source.specs.Sides.{SourceText};
ghost use Rattle.ioa_system.specs.Parts.{Parts, message_shape};
ghost use Rattle.ioa_system.specs.Systems.{SystemParts};
ghost use Rattle.ioa_check.specs.Systems.{IsSystemOf};
ghost use Rattle.ioa_commits.specs.Books.{PlainBook, states_held};
ghost use Rattle.ioa_commits.specs.Versions.{read_confs};
ghost use Rattle.ioa_book.specs.Looks.{PlainSnapshot};
ghost use Rattle.ioa_held.specs.Openings.{BeginsAt};
ghost use Rattle.ioa_schedules.specs.Turns.{TurnEnd};
ghost use Rattle.ioa_turns.specs.Inboxes.{inboxes_seen};
ghost use Rattle.ioa_turns.specs.NodeTurns.{PlainProgress, turn_at};
ghost use Rattle.ioa_run_laws.specs.BlockStates.{IsBlockState};
ghost use Rattle.ioa_run_laws.specs.Invariants.{IsWellRead};
ghost use Rattle.ioa_run_laws.specs.Shaped.{AreShaped, FitInboxes};
ghost use Rattle.ioa_run_laws.specs.SimpleValues.{AreSimpleValues};
ghost use Rattle.ioa_run_laws.specs.UnderWay.{IsShownOf, IsUnderWay};
ghost use Rattle.ioa_run_laws.specs.WellSorted.{AreConfsWellSorted};

/// What a look shows of a run of an accepted system has its sorts, whoever commits between two looks (profile), if the
/// book that shows it is lawful and begins at the start of the system. The look has read configurations with their
/// declared shapes, and the nodes among them are well sorted. The inboxes that a block sees on it have their shape. A
/// turn on it leaves a block whose variables have values of their shapes, and of which what is to do is well sorted, if
/// it was so before. So it is with each node however far it has come, by whichever turns on whichever such looks. Each
/// value that an entry of such a book has chosen is simple, and each invariant reads what is there in the
/// configurations held.
pub fn shown_law()
    ensures read { (x : SourceText) (s : SystemParts) (look : PlainSnapshot) → IsSystemOf x s → IsShownOf s look →
        AreShaped s (read_confs look.reads) }
    ensures nodes { (x : SourceText) (s : SystemParts) (look : PlainSnapshot) → IsSystemOf x s → IsShownOf s look →
        AreConfsWellSorted (read_confs look.reads) }
    ensures inboxes { (x : SourceText) (s : SystemParts) (p : Parts) (look : PlainSnapshot) →
        IsSystemOf x s → Contains s.programs p → IsShownOf s look →
        FitInboxes (message_shape p.automaton.rules) (inbox_values (inboxes_seen p (read_confs look.reads))) }
    ensures turn { (x : SourceText) (s : SystemParts) (p : PlainProgress) (look : PlainSnapshot)
        (t : TurnEnd × PlainProgress) → IsSystemOf x s → Contains s.programs p.program → IsShownOf s look →
        IsBlockState p.program p.todo p.own → turn_at (read_confs look.reads) p ≡ Ok t →
        IsBlockState t.1.program t.1.todo t.1.own }
    ensures under_way { (x : SourceText) (s : SystemParts) (p : PlainProgress) → IsSystemOf x s → IsUnderWay s p →
        IsBlockState p.program p.todo p.own }
    ensures chosen { (x : SourceText) (s : SystemParts) (b : PlainBook) → IsSystemOf x s → BeginsAt s b →
        AllByRecursion (λ e. AreSimpleValues (length s.names) e.chosen) b.log }
    ensures invariants { (x : SourceText) (s : SystemParts) (b : PlainBook) → IsSystemOf x s → BeginsAt s b →
        AllByRecursion (IsWellRead s (states_held b)) s.invariants }
{}
