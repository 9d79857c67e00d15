//! The board of one of several workers.

ghost use Rattle.std.specs.Prelude.{◌≡◌, ◌+◌, ◌%◌, IfErr, IfOk, IfSome, IsSome, IsTrue, None, OnErr, OnSome};
ghost use Rattle.std.specs.Prelude.{Some, if◌then◌else◌, nat_eq, true};
ghost use Rattle.ioa_boards.specs.Places.{IsSeenAgain, PutsSome};
ghost use Rattle.ioa_compose.specs.Start.{start};
ghost use Rattle.ioa_held.specs.Attempts.{commits};
ghost use Rattle.ioa_shared.specs.SomeBook.{MissesInSome, TakesInSome};
ghost use Rattle.ioa_sharing.specs.Named.{shared_of_value};

use crate::board::Board;
use crate::place::Place;
use ioa_book::Proposal;
use ioa_held::{Missed, Share, Taken};
use ioa_passes::{Pass, ViewFault};
use ioa_rawlog::Spare;
use ioa_shared::{Opening, Shared};
use ioa_sharing::SharedOf;
use ioa_system::System;
use ioa_transitions::Entry;
use std::alloc::Global;
use std::sync::Wait;
use std::sync::ledger::Ledger;
use std::{hint, thread};

/// How often a worker spins before it lets another thread run.
const SPINS: u32 = 64;

/// A book under a lock, with the runtime that may wait for the lock: each call holds it once.
#[derive(Drop)]
pub struct Locked<'a, R, O: Opening, L: Ledger> {
    /// The runtime.
    pub rt: &'a R,
    /// The book under its lock.
    pub shared: &'a Shared<O, L>,
}

impl<'a, R: Wait, O: Opening, L: Ledger> Board<O, L> for Locked<'a, R, O, L> {
    ghost use Rattle.std.specs.Prelude.{[], false};
    ghost use Rattle.ioa_commits.specs.Books.{plain_book};

    ghost told = { false };

    ghost tells = { λ _. plain_book [] [] 0 };

    ghost opened = { O.system };

    fn is_opened_with(&self, system: &SharedOf<O, System, Global>) -> bool
        ensures same { IsTrue result → start (shared_of_value system.now) ≡ start O.system }
    {
        self.shared.is_opened_with(self.rt, system)
    }

    fn look(
        &mut self,
        alloc: Global,
        place: &mut Place<O>,
        pass: &mut Pass,
        node: i64,
    ) -> Result<bool, ViewFault>
        ensures some { PutsSome O.system pass.old node place.new pass.new result }
        ensures again { IfOk result (λ b. b ≡ true → IsSeenAgain place.old place.new) }
        ensures emptied { OnErr result (place.new ≡ None) }
    {
        match look_in(self.rt, self.shared, alloc, place, pass, node) {
            Ok(is_same) => Ok(is_same),
            Err(fault) => {
                place.clear();
                Err(fault)
            }
        }
    }

    /// It tells nothing quickly, so that each commit takes the lock once: what stands under the lock has a quick way of
    /// its own.
    #[inline(always)]
    fn attempt_quickly(
        &mut self,
        _offer: &mut Option<Proposal<O>>,
        _pass: &mut Pass,
        _share: &mut Share<L>,
    ) -> Option<Taken<O>>
        ensures taken { IfSome result (λ t. IfSome _offer.old (λ x.
            TakesInSome O.system x _pass.old t.receipt.index t.receipt.entry _pass.new)) }
        ensures offered { OnSome result (IsSome _offer.old) }
        ensures share { OnSome result (_share.new ≡ _share.old + 1) }
        ensures kept { result ≡ None →
            (_offer.new ≡ _offer.old) × (_pass.new ≡ _pass.old) × (_share.new ≡ _share.old) }
    {
        None
    }

    fn attempt_offer(
        &mut self,
        offer: &mut Option<Proposal<O>>,
        spare: Spare<Entry>,
        pass: &mut Pass,
        share: &mut Share<L>,
    ) -> (Result<Taken<O>, Missed<O>>, Option<Spare<Entry>>)
        requires { IsSome offer.old }
        ensures spent { offer.new ≡ None }
        ensures taken { IfSome offer.old (λ x. IfOk result.0 (λ t.
            TakesInSome O.system x pass.old t.receipt.index t.receipt.entry pass.new)) }
        ensures missed { IfSome offer.old (λ x. IfErr result.0 (λ m.
            MissesInSome O.system x pass.old m.why m.proposal pass.new)) }
        ensures share { share.new ≡ share.old + commits result.0 }
        ensures linked { IfOk result.0 (λ t.
            result.1 ≡ (if nat_eq (t.receipt.index % 64) 0 then None else Some spare)) }
        ensures kept { IfErr result.0 (λ _. result.1 ≡ Some spare) }
    {
        match offer.take() {
            Some(proposal) => self.shared.attempt(self.rt, proposal, spare, pass, share),
            None => unreachable!(),
        }
    }

    /// Spins a little, and then lets another thread run: so those that have something to commit get the lock.
    fn rest(&self) {
        for _ in 0..SPINS {
            hint::spin_loop();
        }
        thread::yield_now();
    }
}

/// The same look, which may leave in the place what a fault left of the look that was there.
#[inline(always)]
fn look_in<R: Wait, O: Opening, L: Ledger>(
    rt: &R,
    shared: &Shared<O, L>,
    alloc: Global,
    place: &mut Place<O>,
    pass: &mut Pass,
    node: i64,
) -> Result<bool, ViewFault>
    ensures some { PutsSome O.system pass.old node place.new pass.new result }
    ensures again { IfOk result (λ b. b ≡ true → IsSeenAgain place.old place.new) }
{
    if let Some(last) = &mut *place.room {
        if last.node() == node {
            return shared.look_again(rt, last, pass);
        }
    }
    look_first(rt, shared, alloc, place, pass, node)?;
    Ok(false)
}

/// The first look at a node. It has a function of its own, since a function fills the room of its large locals each
/// time that it begins.
fn look_first<R: Wait, O: Opening, L: Ledger>(
    rt: &R,
    shared: &Shared<O, L>,
    alloc: Global,
    place: &mut Place<O>,
    pass: &mut Pass,
    node: i64,
) -> Result<(), ViewFault>
    ensures some { PutsSome O.system pass.old node place.new pass.new result }
{
    *place.room = Some(shared.look(rt, alloc, pass, node)?);
    Ok(())
}
