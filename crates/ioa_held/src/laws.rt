//! Laws of attempts under a pass. Each law is the contract of a function that does nothing.

ghost use Rattle.std.specs.Prelude.{◌≡◌, ℕ, ℤ, Err};
ghost use Rattle.ioa_commits.specs.Books.{PlainBook};
ghost use Rattle.ioa_commits.specs.Proposals.{PlainProposal};
ghost use Rattle.ioa_transitions.specs.Entries.{PlainEntry};
ghost use Rattle.ioa_actions.specs.declared.component.Component.{Component};
ghost use Rattle.ioa_commits.specs.declared.outcome.CommitRefusal.TheVariants.{Stale};
ghost use Rattle.ioa_passes.specs.Looks.{view_answer};
ghost use Rattle.ioa_passes.specs.Passes.{PlainPass};
ghost use Rattle.ioa_passes.specs.declared.outcome.Older.{Older};
ghost use Rattle.ioa_passes.specs.declared.outcome.ViewFault.TheVariants as view;
ghost use Rattle.ioa_held.specs.AttemptLaws.{IsOlderThan, IsReceiptOf, IsStaleBy};
ghost use Rattle.ioa_held.specs.Attempts.{IsMissed, IsTaken};
ghost use Rattle.ioa_held.specs.declared.outcome.Miss.TheVariants as miss;

/// A receipt is of the proposal's entry, stands behind all that the pass had seen, and is seen by the pass from then
/// on.
pub fn receipt_law()
    ensures { (old new : PlainBook) (x : PlainProposal) (p q : PlainPass) (i : ℕ) (e : PlainEntry) →
        IsTaken old x p i e new q → IsReceiptOf p x i e q }
{}

/// `Older` (54) of a look or an attempt tells what the pass has seen, and something less that is held. `Stale` (50)
/// tells two versions that differ; the pass has seen the one that is held from then on, so that no look with it shows
/// an older one.
pub fn refusal_law()
    ensures look { (b : PlainBook) (p : PlainPass) (n : ℤ) (o : Older) →
        view_answer b p n ≡ Err (view.Older o) → IsOlderThan p o }
    ensures attempt { (old new : PlainBook) (x back : PlainProposal) (p q : PlainPass) (o : Older) →
        IsMissed old x p (miss.Older o) back new q → IsOlderThan p o }
    ensures stale { (old new : PlainBook) (x back : PlainProposal) (p q : PlainPass) (k : Component) (read held : ℕ) →
        IsMissed old x p (miss.Refused (Stale k read held)) back new q → IsStaleBy p x k read held back q }
{}
