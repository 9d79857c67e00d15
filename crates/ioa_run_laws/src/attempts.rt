//! The law of attempts at what stands under the commit lock. A law is the contract of a function that does nothing.

ghost use Rattle.std.specs.Prelude.{◌≡◌, ◌↔◌, ◌<◌, ◌≤◌, ◌++◌, ℤ, List, Ok, length};
ghost use Rattle.ioa_transitions.specs.Entries.{PlainEntry};
ghost use Rattle.ioa_commits.specs.Books.{PlainBook};
ghost use Rattle.ioa_commits.specs.Proposals.{PlainProposal};
ghost use Rattle.ioa_book.specs.BookLaws.{IsLawful};
ghost use Rattle.ioa_book.specs.Looks.{PlainSnapshot};
ghost use Rattle.ioa_passes.specs.Looks.{view_answer};
ghost use Rattle.ioa_passes.specs.Passes.{PlainPass, risen_by_look};
ghost use Rattle.ioa_run_laws.specs.Attempts.{GoesOnBy, IsAttempt, IsDecidedBy, IsOlder, IsProposedAt, Told, recorded_by};

/// Optimism is sound under the commit lock too (Lynch 8.2). A proposal was made on a look that a book showed. Since
/// then the book has gone on by some entries, whoever recorded them, and is lawful. An attempt of the proposal is
/// refused exactly if one of these entries has a component in common with it, or the book is full: it is `Full` (52) if
/// there is no such entry, and else `Stale` (50), of a component whose version has risen by as many entries as it took
/// part in. So `Unknown` (53) and `Differs` (51) never come of it.
///
/// A pass comes before that: an attempt is `Older` (54) exactly if its pass has seen a longer log than the book has. A
/// pass of one book never has: a look at the book, or an attempt, leaves it at the length of the log at most. Each
/// attempt takes the book on by the entry that it records, or by none, so it does not matter how many are made between
/// a look and an attempt.
pub fn attempt_law()
    ensures decided { (since : List PlainEntry) (old now new : PlainBook) (x : PlainProposal) (p q : PlainPass)
        (r : Told) → GoesOnBy since old now → IsLawful now → IsProposedAt old x → p.length ≤ length now.log →
        IsAttempt now x p r new q → IsDecidedBy since now x r }
    ensures older { (b new : PlainBook) (x : PlainProposal) (p q : PlainPass) (r : Told) → IsAttempt b x p r new q →
        (IsOlder r ↔ (length b.log < p.length)) }
    ensures goes_on { (b new : PlainBook) (x : PlainProposal) (p q : PlainPass) (r : Told) →
        IsAttempt b x p r new q → GoesOnBy (recorded_by r) b new }
    ensures further { (es fs : List PlainEntry) (b c d : PlainBook) → GoesOnBy es b c → GoesOnBy fs c d →
        GoesOnBy (es ++ fs) b d }
    ensures seen { (b : PlainBook) (p : PlainPass) (n : ℤ) (look : PlainSnapshot) → view_answer b p n ≡ Ok look →
        (risen_by_look look p).length ≡ length b.log }
    ensures attempted { (b new : PlainBook) (x : PlainProposal) (p q : PlainPass) (r : Told) →
        IsAttempt b x p r new q → p.length ≤ length b.log → q.length ≤ length new.log }
{}
