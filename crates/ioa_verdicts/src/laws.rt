//! What a verdict says of a schedule, in words that know nothing of how it is found.

ghost use Rattle.std.specs.Prelude.{◌≡◌, List, Some};
ghost use Rattle.ioa_system.specs.Invariants.{InvariantParts};
ghost use Rattle.ioa_transitions.specs.Entries.{PlainEntry};
ghost use Rattle.ioa_compose.specs.declared.configuration.Conf.{Conf};
ghost use Rattle.ioa_compose.specs.Executions.{replay};
ghost use Rattle.ioa_verdicts.specs.Meant.{IsVerdictOf};
ghost use Rattle.ioa_verdicts.specs.Verdicts.{verdict_from};
ghost use Rattle.ioa_verdicts.specs.declared.verdict.Verdict.{Verdict};

/// The verdict on an invariant along a schedule that replays says in which state the invariant is first not true, and
/// why: the first k entries lead to a state in which its term has another value, none, or meets a number outside 64
/// bits, and in each state before that it is true. It holds if it is true in each state, the start and the last among
/// them. No other verdict says what is so.
pub fn verdict_law()
    ensures verdict { (v : InvariantParts) (entries : List PlainEntry) (from last : List Conf) →
        replay entries from ≡ Some last → IsVerdictOf v entries from (verdict_from v 0 entries from) }
    ensures one { (v : InvariantParts) (entries : List PlainEntry) (from : List Conf) (w : Verdict) →
        IsVerdictOf v entries from w → verdict_from v 0 entries from ≡ w }
{}
