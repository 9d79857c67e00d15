//! Laws of looks and proposals. Each law is the contract of a function that does nothing.

ghost use Rattle.std.specs.Prelude.{◌≡◌, ◌<◌, ◌↔◌, true, ℤ, List, None, Ok, filter, length};
ghost use Rattle.std.specs.List.{AllByRecursion};
ghost use Rattle.std.specs.Ordering.{int_eq};
ghost use Rattle.ioa_values.specs.Outcome.{and_then};
ghost use Rattle.ioa_actions.specs.ActionParts.{node_of};
ghost use Rattle.ioa_actions.specs.declared.action.Action.{Action};
ghost use Rattle.ioa_actions.specs.declared.component.Component.{Component};
ghost use Rattle.ioa_index.specs.Own.{concerns};
ghost use Rattle.ioa_compose.specs.Composition.{component_of, find_conf, find_confs, picks_of};
ghost use Rattle.ioa_compose.specs.Participants.{participants_of};
ghost use Rattle.ioa_commits.specs.Books.{PlainBook, states_held};
ghost use Rattle.ioa_commits.specs.Commits.{StandsIn, full, refusal_of};
ghost use Rattle.ioa_commits.specs.Proposals.{plain_proposal};
ghost use Rattle.ioa_commits.specs.Versions.{PlainVersionedConf, read_confs};
ghost use Rattle.ioa_book.specs.Looks.{snapshot_after};
ghost use Rattle.ioa_book.specs.Proposals.{proposal_answer, reads_held};

/// A look at a node shows of each component that the node has to do with what the book holds. So a proposal of one of
/// the node's actions has the steps of the participants from the configurations held (Lynch 8.2), or the fault that
/// these have, and what it has read is what the book holds of them. As long as nothing else is committed, the proposal
/// stands: it is refused only if the book is full.
pub fn fresh_look_law()
    ensures shown { (b : PlainBook) (n : ℤ) → read_confs (snapshot_after n b.start b.log).reads
        ≡ filter (λ c. concerns n (component_of c)) (states_held b) }
    ensures seen { (b : PlainBook) (n : ℤ) (k : Component) → concerns n k ≡ true →
        find_conf k (read_confs (snapshot_after n b.start b.log).reads) ≡ find_conf k (states_held b) }
    ensures proposal { (b : PlainBook) (n : ℤ) (a : Action) → int_eq (node_of a) n ≡ true →
        proposal_answer a (snapshot_after n b.start b.log)
        ≡ and_then (picks_of a (find_confs (participants_of a) (states_held b)))
        (λ t. Ok (plain_proposal t.0 (length b.log) (reads_held b (participants_of a)))) }
    ensures stands { (b : PlainBook) (ks : List Component) → refusal_of b (reads_held b ks) ≡ full b }
{}

/// A proposal is refused for no reason exactly if all that was read of its participants still stands in the book, and
/// the log is shorter than the limit (profile).
pub fn stands_law()
    ensures { (b : PlainBook) (rs : List PlainVersionedConf) →
        (refusal_of b rs ≡ None) ↔ (AllByRecursion (StandsIn b) rs × (length b.log < b.limit)) }
{}
