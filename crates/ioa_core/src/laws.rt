//! Laws of the core machine. Each law is the contract of a function that does nothing.

ghost use Rattle.std.specs.Prelude.{◌≡◌, ℕ, List, Some, false, find, slice_get};
ghost use Rattle.std.specs.List.{list_any};
ghost use Rattle.std.specs.Option.{is_none, option_map, option_or};
ghost use Rattle.ioa_actions.specs.declared.action.Action.{Action};
ghost use Rattle.ioa_commits.specs.Books.{PlainBook, states_held};
ghost use Rattle.ioa_commits.specs.Commits.{full, refusal_of};
ghost use Rattle.ioa_compose.specs.Composition.{find_confs};
ghost use Rattle.ioa_compose.specs.Executions.{replay};
ghost use Rattle.ioa_compose.specs.Participants.{participants_of};
ghost use Rattle.ioa_transitions.specs.Entries.{PlainEntry};
ghost use Rattle.ioa_book.specs.Proposals.{reads_held};
ghost use Rattle.ioa_core.specs.CommitLaws.{AreAlike, IsCommitReply, stale_at};
ghost use Rattle.ioa_core.specs.Cores.{PlainCore, answer, proposed, replies, touched};
ghost use Rattle.ioa_core.specs.Hands.{book_at};
ghost use Rattle.ioa_core.specs.declared.event.Event.{Event};
ghost use Rattle.ioa_core.specs.declared.event.Event.TheVariants as event;

/// Optimism is sound. A commit is made exactly if no action since its look has a component in common with it (Lynch
/// 8.2) and there is room; it is `Full` (52) if there is no such action and no room; and else it is `Stale` (50), of a
/// component whose version has risen since by as many actions as it took part in.
pub fn commit_law()
    ensures { (c : PlainCore) (w : ℕ) (e : PlainEntry) (n : ℕ) → slice_get c.hands w ≡ Some (proposed e n) →
        IsCommitReply c e n (answer c (event.Commit w)).0 }
{}

/// A proposal that has read what the book held when n entries were recorded is refused as stale of the first
/// participant that took part in an entry since, and else only if the book is full. So `Unknown` (53) and `Differs`
/// (51) never come of it: where the version is the one that was read, the configuration is too.
pub fn old_look_law()
    ensures { (b : PlainBook) (n : ℕ) (a : Action) → replay b.log b.start ≡ Some (states_held b)
        → list_any is_none (find_confs (participants_of a) (states_held (book_at b n))) ≡ false
        → refusal_of b (reads_held (book_at b n) (participants_of a))
        ≡ option_or (option_map (stale_at b n) (find (touched b.log n) (participants_of a))) (full b) }
{}

/// Two cores that get the same events give the same replies, if they began alike. Their counts may differ: a count is a
/// tally, by which nothing is decided.
pub fn tally_law()
    ensures { (c d : PlainCore) (events : List Event) → AreAlike c d → replies c events ≡ replies d events }
{}
