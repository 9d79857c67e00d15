//! The law of passes. A law is the contract of a function that does nothing.

ghost use Rattle.std.specs.Prelude.{◌≡◌, ℕ, ℤ, List, Ok};
ghost use Rattle.ioa_actions.specs.declared.component.Component.{Component};
ghost use Rattle.ioa_book.specs.Looks.{PlainSnapshot};
ghost use Rattle.ioa_commits.specs.Books.{PlainBook};
ghost use Rattle.ioa_commits.specs.Slots.{next_version};
ghost use Rattle.ioa_commits.specs.Versions.{PlainVersionedConf};
ghost use Rattle.ioa_commits.specs.declared.outcome.CommitRefusal.{CommitRefusal};
ghost use Rattle.ioa_passes.specs.Looks.{view_answer};
ghost use Rattle.ioa_passes.specs.PassLaws.{HasSeen, IsFresh, IsRisen, IsSeenSince};
ghost use Rattle.ioa_passes.specs.Passes.{PlainPass, risen_by_commit, risen_by_look, risen_by_refusal};

/// A pass never falls, whatever is looked at, committed and refused, and no component is added to it. It rises to what
/// it is shown: after a look it has seen all that was read, after a commit all that was read one version later, and
/// after a refusal the version that a stale proposal met. What it lets through is not older than what it has seen.
pub fn pass_law()
    ensures look { (p : PlainPass) (s : PlainSnapshot) → IsRisen p (risen_by_look s p) }
    ensures commit { (p : PlainPass) (rs : List PlainVersionedConf) (n : ℕ) → IsRisen p (risen_by_commit rs n p) }
    ensures refusal { (p : PlainPass) (why : CommitRefusal) → IsRisen p (risen_by_refusal why p) }
    ensures shown { (p : PlainPass) (s : PlainSnapshot) → HasSeen (risen_by_look s p) s.reads (λ v. v) s.length }
    ensures committed { (p : PlainPass) (rs : List PlainVersionedConf) (n : ℕ) →
        HasSeen (risen_by_commit rs n p) rs next_version n }
    ensures met { (p : PlainPass) (k : Component) (read held : ℕ) →
        IsSeenSince k held (risen_by_refusal (CommitRefusal.Stale k read held) p).seen }
    ensures fresh { (b : PlainBook) (p : PlainPass) (n : ℤ) (s : PlainSnapshot) →
        view_answer b p n ≡ Ok s → IsFresh p s }
{}
