//! The board of one worker.

ghost use Rattle.std.specs.Prelude.{◌≡◌, ◌+◌, ◌%◌, IfErr, IfOk, IfSome, IsSome, IsTrue, None, OnErr, OnSome, Some};
ghost use Rattle.std.specs.Prelude.{if◌then◌else◌, length, nat_eq, true};
ghost use Rattle.ioa_boards.specs.Places.{IsSeenAgain, Puts, PutsSome};
ghost use Rattle.ioa_compose.specs.Start.{start};
ghost use Rattle.ioa_held.specs.Attempts.{IsMissed, IsTaken, commits};
ghost use Rattle.ioa_held.specs.Openings.{BeginsAt};
ghost use Rattle.ioa_shared.specs.SomeBook.{MissesInSome, TakesInSome};
ghost use Rattle.ioa_sharing.specs.Named.{shared_of_value};

use crate::board::Board;
use crate::place::Place;
use ioa_book::Proposal;
use ioa_held::{Missed, Share, Taken};
use ioa_passes::{Pass, ViewFault};
use ioa_rawlog::Spare;
use ioa_shared::{Opening, Solo};
use ioa_sharing::SharedOf;
use ioa_system::System;
use ioa_transitions::Entry;
use std::alloc::Global;
use std::sync::ledger::Ledger;

impl<O: Opening, L: Ledger> Board<O, L> for Solo<O, L> {
    ghost use Rattle.std.specs.Prelude.{true};

    ghost told = { true };

    ghost tells = { λ s. s };

    ghost opened = { O.system };

    fn is_opened_with(&self, system: &SharedOf<O, System, Global>) -> bool
        ensures same { IsTrue result → start (shared_of_value system.now) ≡ start O.system }
        ensures told { IsTrue result → BeginsAt (shared_of_value system.now) self.now }
    {
        Solo::is_opened_with(self, system)
    }

    #[inline(always)]
    fn look(
        &mut self,
        alloc: Global,
        place: &mut Place<O>,
        pass: &mut Pass,
        node: i64,
    ) -> Result<bool, ViewFault>
        ensures some { PutsSome O.system pass.old node place.new pass.new result }
        ensures told { Puts self.old pass.old node place.new result }
        ensures again { IfOk result (λ b. b ≡ true → IsSeenAgain place.old place.new) }
        ensures emptied { OnErr result (place.new ≡ None) }
        ensures same { self.new ≡ self.old }
    {
        match look_in(self, alloc, place, pass, node) {
            Ok(is_same) => Ok(is_same),
            Err(fault) => {
                place.clear();
                Err(fault)
            }
        }
    }

    #[inline(always)]
    fn attempt_quickly(
        &mut self,
        offer: &mut Option<Proposal<O>>,
        pass: &mut Pass,
        share: &mut Share<L>,
    ) -> Option<Taken<O>>
        ensures taken { IfSome result (λ t. IfSome offer.old (λ x.
            TakesInSome O.system x pass.old t.receipt.index t.receipt.entry pass.new)) }
        ensures offered { OnSome result (IsSome offer.old) }
        ensures share { OnSome result (share.new ≡ share.old + 1) }
        ensures kept { result ≡ None →
            (offer.new ≡ offer.old) × (pass.new ≡ pass.old) × (share.new ≡ share.old) }
        ensures told_taken { IfSome result (λ t. IfSome offer.old (λ x.
            IsTaken self.old x pass.old t.receipt.index t.receipt.entry self.new pass.new)) }
        ensures told_kept { result ≡ None → self.new ≡ self.old }
    {
        Solo::attempt_quickly(self, offer, pass, share)
    }

    fn attempt_offer(
        &mut self,
        offer: &mut Option<Proposal<O>>,
        spare: Spare<Entry>,
        pass: &mut Pass,
        share: &mut Share<L>,
    ) -> (Result<Taken<O>, Missed<O>>, Option<Spare<Entry>>)
        requires { IsSome offer.old }
        ensures spent { offer.new ≡ None }
        ensures taken { IfSome offer.old (λ x. IfOk result.0 (λ t.
            TakesInSome O.system x pass.old t.receipt.index t.receipt.entry pass.new)) }
        ensures missed { IfSome offer.old (λ x. IfErr result.0 (λ m.
            MissesInSome O.system x pass.old m.why m.proposal pass.new)) }
        ensures share { share.new ≡ share.old + commits result.0 }
        ensures linked { IfOk result.0 (λ t.
            result.1 ≡ (if nat_eq (t.receipt.index % 64) 0 then None else Some spare)) }
        ensures kept { IfErr result.0 (λ _. result.1 ≡ Some spare) }
        ensures told_taken { IfSome offer.old (λ x. IfOk result.0 (λ t.
            IsTaken self.old x pass.old t.receipt.index t.receipt.entry self.new pass.new)) }
        ensures told_missed { IfSome offer.old (λ x. IfErr result.0 (λ m.
            IsMissed self.old x pass.old m.why m.proposal self.new pass.new)) }
        ensures told_linked { IfOk result.0 (λ _.
            result.1 ≡ (if nat_eq (length self.old.log % 64) 0 then None else Some spare)) }
    {
        match offer.take() {
            Some(proposal) => Solo::attempt(self, proposal, spare, pass, share),
            None => unreachable!(),
        }
    }

    /// Nobody waits for this board.
    fn rest(&self) {}
}

/// The same look, which may leave in the place what a fault left of the look that was there.
#[inline(always)]
fn look_in<O: Opening, L: Ledger>(
    board: &Solo<O, L>,
    alloc: Global,
    place: &mut Place<O>,
    pass: &mut Pass,
    node: i64,
) -> Result<bool, ViewFault>
    ensures some { PutsSome O.system pass.old node place.new pass.new result }
    ensures told { Puts board.now pass.old node place.new result }
    ensures again { IfOk result (λ b. b ≡ true → IsSeenAgain place.old place.new) }
{
    if let Some(last) = &mut *place.room {
        if last.node() == node {
            return board.look_again(last, pass);
        }
    }
    look_first(board, alloc, place, pass, node)?;
    Ok(false)
}

/// The first look at a node. It has a function of its own, since a function fills the room of its large locals each
/// time that it begins.
#[inline(never)]
fn look_first<O: Opening, L: Ledger>(
    board: &Solo<O, L>,
    alloc: Global,
    place: &mut Place<O>,
    pass: &mut Pass,
    node: i64,
) -> Result<(), ViewFault>
    ensures some { PutsSome O.system pass.old node place.new pass.new result }
    ensures told { Puts board.now pass.old node place.new result }
{
    *place.room = Some(board.look(alloc, pass, node)?);
    Ok(())
}
