//! Boards.

use crate::place::Place;
use ioa_book::Proposal;
use ioa_held::{Missed, Share, Taken};
use ioa_passes::{Pass, ViewFault};
use ioa_rawlog::Spare;
use ioa_sharing::{Origin, SharedOf};
use ioa_system::System;
use ioa_transitions::Entry;
use std::alloc::Global;
use std::sync::ledger::Ledger;

/// Where a worker looks at nodes and attempts commits. A contract may be told which book it holds: then a look and an
/// attempt are exactly those of that book. If it isn't told, since others commit to it too, some lawful book answers that
/// begins at the start of the system with which the board's was opened.
pub trait Board<O: Origin, L: Ledger> {
    ghost use Rattle.std.specs.Prelude.{◌≡◌, ◌+◌, ◌%◌, Bool, IfErr, IfOk, IfSome, IsSome, IsTrue, None, OnErr, OnSome};
    ghost use Rattle.std.specs.Prelude.{Some, if◌then◌else◌, length, nat_eq, true};
    ghost use Rattle.ioa_boards.specs.Places.{IsSeenAgain, Puts, PutsSome};
    ghost use Rattle.ioa_commits.specs.Books.{PlainBook};
    ghost use Rattle.ioa_compose.specs.Start.{start};
    ghost use Rattle.ioa_held.specs.Attempts.{IsMissed, IsTaken, commits};
    ghost use Rattle.ioa_held.specs.Openings.{BeginsAt};
    ghost use Rattle.ioa_shared.specs.SomeBook.{MissesInSome, TakesInSome};
    ghost use Rattle.ioa_sharing.specs.Named.{shared_of_value};
    ghost use Rattle.ioa_system.specs.Systems.{SystemParts};

    /// Whether the book is told.
    ghost told: { Bool };

    /// Which book it is; any, if it is not told.
    ghost tells: { Self → PlainBook };

    /// The system with which its book was opened.
    ghost opened: { SystemParts };

    /// Whether this is the system with which the book was opened, in constant time. It is false of another system, and
    /// also of an equal one that was given another number.
    fn is_opened_with(&self, system: &SharedOf<O, System, Global>) -> bool
        ensures same { IsTrue result → start (shared_of_value system.now) ≡ start opened }
        ensures told { told ≡ true → IsTrue result → BeginsAt (shared_of_value system.now) (tells self.now) };

    /// A look at a node, which is put into its place. A look at the node that is there already is refreshed; else one
    /// is made. `Unknown` (53) if there is no such node; `Older` (54) if what it would show is older than the pass has
    /// seen. The pass rises to what is seen. After a fault there is no look in the place. Returns whether the look that
    /// was there before showed the same, as of `look_again` of the book.
    fn look(
        &mut self,
        alloc: Global,
        place: &mut Place<O>,
        pass: &mut Pass,
        node: i64,
    ) -> Result<bool, ViewFault>
        ensures some { PutsSome opened pass.old node place.new pass.new result }
        ensures told { told ≡ true → Puts (tells self.old) pass.old node place.new result }
        ensures again { IfOk result (λ b. b ≡ true → IsSeenAgain place.old place.new) }
        ensures emptied { OnErr result (place.new ≡ None) }
        ensures same { told ≡ true → tells self.new ≡ tells self.old };

    /// The commit of the proposal that is offered, if the board can tell quickly that it stands. If not, nothing is
    /// told of it, nothing is done, and [`Board::attempt`] is for it. If the commit is made, the share counts one more,
    /// and the proposal is taken out of its place.
    fn attempt_quickly(
        &mut self,
        offer: &mut Option<Proposal<O>>,
        pass: &mut Pass,
        share: &mut Share<L>,
    ) -> Option<Taken<O>>
        ensures taken { IfSome result (λ t. IfSome offer.old (λ x.
            TakesInSome opened x pass.old t.receipt.index t.receipt.entry pass.new)) }
        ensures offered { OnSome result (IsSome offer.old) }
        ensures share { OnSome result (share.new ≡ share.old + 1) }
        ensures kept { result ≡ None →
            (offer.new ≡ offer.old) × (pass.new ≡ pass.old) × (share.new ≡ share.old) }
        ensures told_taken { told ≡ true → IfSome result (λ t. IfSome offer.old (λ x.
            IsTaken (tells self.old) x pass.old t.receipt.index t.receipt.entry (tells self.new) pass.new)) }
        ensures told_kept { told ≡ true → result ≡ None → tells self.new ≡ tells self.old };

    /// The same as [`Board::attempt`], which calls it. The board takes the proposal out of the place where it is
    /// offered.
    fn attempt_offer(
        &mut self,
        offer: &mut Option<Proposal<O>>,
        spare: Spare<Entry>,
        pass: &mut Pass,
        share: &mut Share<L>,
    ) -> (Result<Taken<O>, Missed<O>>, Option<Spare<Entry>>)
        requires { IsSome offer.old }
        ensures spent { offer.new ≡ None }
        ensures taken { IfSome offer.old (λ x. IfOk result.0 (λ t.
            TakesInSome opened x pass.old t.receipt.index t.receipt.entry pass.new)) }
        ensures missed { IfSome offer.old (λ x. IfErr result.0 (λ m.
            MissesInSome opened x pass.old m.why m.proposal pass.new)) }
        ensures share { share.new ≡ share.old + commits result.0 }
        ensures linked { IfOk result.0 (λ t.
            result.1 ≡ (if nat_eq (t.receipt.index % 64) 0 then None else Some spare)) }
        ensures kept { IfErr result.0 (λ _. result.1 ≡ Some spare) }
        ensures told_taken { told ≡ true → IfSome offer.old (λ x. IfOk result.0 (λ t.
            IsTaken (tells self.old) x pass.old t.receipt.index t.receipt.entry (tells self.new) pass.new)) }
        ensures told_missed { told ≡ true → IfSome offer.old (λ x. IfErr result.0 (λ m.
            IsMissed (tells self.old) x pass.old m.why m.proposal (tells self.new) pass.new)) }
        ensures told_linked { told ≡ true → IfOk result.0 (λ _.
            result.1 ≡ (if nat_eq (length (tells self.old).log % 64) 0 then None else Some spare)) };

    /// The commit of a proposal. `Older` (54) if the log is shorter than the pass has seen; else as the book's commit.
    /// If the commit is made, the share counts one more. The spare comes back unless it was linked to the log, which
    /// takes one for each 64 entries: for the first of them.
    final fn attempt(
        &mut self,
        proposal: Proposal<O>,
        spare: Spare<Entry>,
        pass: &mut Pass,
        share: &mut Share<L>,
    ) -> (Result<Taken<O>, Missed<O>>, Option<Spare<Entry>>)
        ensures taken { IfOk result.0 (λ t.
            TakesInSome opened proposal pass.old t.receipt.index t.receipt.entry pass.new) }
        ensures missed { IfErr result.0 (λ m. MissesInSome opened proposal pass.old m.why m.proposal pass.new) }
        ensures share { share.new ≡ share.old + commits result.0 }
        ensures linked { IfOk result.0 (λ t.
            result.1 ≡ (if nat_eq (t.receipt.index % 64) 0 then None else Some spare)) }
        ensures kept { IfErr result.0 (λ _. result.1 ≡ Some spare) }
        ensures told_taken { told ≡ true → IfOk result.0 (λ t.
            IsTaken (tells self.old) proposal pass.old t.receipt.index t.receipt.entry (tells self.new) pass.new) }
        ensures told_missed { told ≡ true → IfErr result.0 (λ m.
            IsMissed (tells self.old) proposal pass.old m.why m.proposal (tells self.new) pass.new) }
        ensures told_linked { told ≡ true → IfOk result.0 (λ _.
            result.1 ≡ (if nat_eq (length (tells self.old).log % 64) 0 then None else Some spare)) }
    {
        let mut offer = Some(proposal);
        self.attempt_offer(&mut offer, spare, pass, share)
    }

    /// What a worker does after a round in which it has committed nothing, so that it does not keep others waiting.
    fn rest(&self);
}
