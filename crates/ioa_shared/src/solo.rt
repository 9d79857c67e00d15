//! The book of one worker.

ghost use Rattle.std.specs.Prelude.{◌≡◌, ◌<◌, ◌≤◌, ◌+◌, ◌%◌, [], IfErr, IfOk, IfSome, IsSome, IsTrue, None};
ghost use Rattle.std.specs.Prelude.{OnErr, OnOk, OnSome, Some, if◌then◌else◌, length, nat_eq, replicate, true};
ghost use Rattle.ioa_commits.specs.Books.{plain_book};
ghost use Rattle.ioa_compose.specs.Start.{start};
ghost use Rattle.ioa_sharing.specs.Named.{shared_of_value};
ghost use Rattle.ioa_held.specs.Attempts.{IsMissed, IsTaken, commits};
ghost use Rattle.ioa_held.specs.Finish.{IsBookOf, IsFinished, IsUnfinished};
ghost use Rattle.ioa_held.specs.Openings.{BeginsAt};
ghost use Rattle.ioa_passes.specs.Looks.{pass_after, view_answer};
ghost use Rattle.ioa_passes.specs.Passes.{risen_by_look};
ghost use Rattle.ioa_values.specs.Outcome.{Answers};

use crate::opening::Opening;
use ioa_book::{Proposal, Snapshot};
use ioa_held::{Held, Missed, Share, Taken, Unfinished};
use ioa_passes::{Pass, ViewFault};
use ioa_rawlog::Spare;
use ioa_receipts::Receipts;
use ioa_record::Record;
use ioa_sharing::{MakerOf, SharedOf};
use ioa_system::System;
use ioa_transitions::Entry;
use std::alloc::{AllocError, Global};
use std::marker::Model;
use std::sync::ledger::{Blank, Ledger};

/// A book of commits that one worker has for itself, so that it takes no lock. (Under a lock, who holds the lock has it
/// so.) A contract sees the book. The type keeps that it begins at the start of the system with which it was opened, and
/// has the limit of then.
#[derive(Drop)]
pub struct Solo<O: Opening, L: Ledger> {
    held: Held<O, L>,
}

impl<O: Opening, L: Ledger> Model for Solo<O, L> {
    ghost use Rattle.ioa_commits.specs.Books.{PlainBook, plain_book_code};
    ghost use Rattle.ioa_held.specs.Finish.{IsBookOf};

    ghost Value = { PlainBook };

    ghost coded = { plain_book_code };

    ghost view = { λ s. s.held };

    ghost invariant = { λ s. IsBookOf s.held O.system O.limit };
}

impl<O: Opening, L: Ledger> Solo<O, L> {
    /// The book of a system in which nothing is recorded yet, and the one share. The maker gives what the book holds
    /// its numbers, and has given the system one. The blank is spent.
    pub fn open(
        alloc: Global,
        maker: MakerOf<O>,
        blank: Blank,
        system: &SharedOf<O, System, Global>,
        limit: usize,
    ) -> Result<(Self, Share<L>), AllocError>
        requires opened { (shared_of_value system.now ≡ O.system) × (limit ≡ O.limit) }
        requires limit { limit ≤ 1000000 }
        requires name { blank.name ≡ L.name }
        requires parts { blank.parts ≡ L.parts }
        requires one { L.parts ≡ 1 }
        ensures book { IfOk result (λ r. r.0 ≡ plain_book (start (shared_of_value system.now)) [] limit) }
        ensures share { IfOk result (λ r. r.1 ≡ 0) }
    {
        let (solo, mut shares) = Solo::with_shares(alloc, maker, blank, system, limit, 1)?;
        match shares.pop() {
            Some(share) => Ok((solo, share)),
            None => unreachable!(),
        }
    }

    /// The same with so many shares.
    pub(crate) fn with_shares(
        alloc: Global,
        maker: MakerOf<O>,
        blank: Blank,
        system: &SharedOf<O, System, Global>,
        limit: usize,
        workers: u64,
    ) -> Result<(Self, Vec<Share<L>>), AllocError>
        requires opened { (shared_of_value system.now ≡ O.system) × (limit ≡ O.limit) }
        requires limit { limit ≤ 1000000 }
        requires name { blank.name ≡ L.name }
        requires parts { blank.parts ≡ L.parts }
        requires workers { (workers ≡ L.parts) × (0 < workers) }
        ensures book { IfOk result (λ r. r.0 ≡ plain_book (start (shared_of_value system.now)) [] limit) }
        ensures shares { IfOk result (λ r. r.1.items ≡ replicate workers 0) }
    {
        let (held, shares) = Held::open(alloc, maker, blank, system, limit, workers)?;
        Ok((Solo { held }, shares))
    }

    /// Whether this is the system with which the book was opened, as of [`Held::is_opened_with`].
    pub fn is_opened_with(&self, system: &SharedOf<O, System, Global>) -> bool
        ensures same { IsTrue result → start (shared_of_value system.now) ≡ start O.system }
        ensures begins { IsTrue result → BeginsAt (shared_of_value system.now) self.now }
    {
        self.held.is_opened_with(system)
    }

    /// A look at a node, as of [`Held::look`].
    #[inline(always)]
    pub fn look(&self, alloc: Global, pass: &mut Pass, node: i64) -> Result<Snapshot<O>, ViewFault>
        ensures look { Answers ViewFault.Memory (λ s. s) result (view_answer self.now pass.old node) }
        ensures pass { pass.new ≡ pass_after pass.old result }
        ensures begins { BeginsAt O.system self.now }
    {
        self.held.look(alloc, pass, node)
    }

    /// The same look once more, in its place, as of [`Held::look_again`].
    #[inline(always)]
    pub fn look_again(&self, look: &mut Snapshot<O>, pass: &mut Pass) -> Result<bool, ViewFault>
        ensures again { Answers ViewFault.Memory (λ _. look.new) result (view_answer self.now pass.old look.old.node) }
        ensures risen { OnOk result (pass.new ≡ risen_by_look look.new pass.old) }
        ensures kept { OnErr result (pass.new ≡ pass.old) }
        ensures node { look.new.node ≡ look.old.node }
        ensures same { IfOk result (λ b. b ≡ true → look.new.reads ≡ look.old.reads) }
        ensures begins { BeginsAt O.system self.now }
    {
        self.held.look_again(look, pass)
    }

    /// The quick commit of the proposal that is offered, as of [`Held::attempt_quickly`].
    #[inline(always)]
    pub fn attempt_quickly(
        &mut self,
        offer: &mut Option<Proposal<O>>,
        pass: &mut Pass,
        share: &mut Share<L>,
    ) -> Option<Taken<O>>
        ensures taken { IfSome result (λ t. IfSome offer.old (λ x.
            IsTaken self.old x pass.old t.receipt.index t.receipt.entry self.new pass.new)) }
        ensures offered { OnSome result (IsSome offer.old) }
        ensures share { OnSome result (share.new ≡ share.old + 1) }
        ensures kept { result ≡ None → (self.new ≡ self.old) × (offer.new ≡ offer.old)
            × (pass.new ≡ pass.old) × (share.new ≡ share.old) }
        ensures before { BeginsAt O.system self.old }
        ensures behind { BeginsAt O.system self.new }
    {
        self.held.attempt_quickly(offer, pass, share)
    }

    /// The commit of a proposal, as of [`Held::attempt`].
    #[inline(always)]
    pub fn attempt(
        &mut self,
        proposal: Proposal<O>,
        spare: Spare<Entry>,
        pass: &mut Pass,
        share: &mut Share<L>,
    ) -> (Result<Taken<O>, Missed<O>>, Option<Spare<Entry>>)
        ensures taken { IfOk result.0 (λ t.
            IsTaken self.old proposal pass.old t.receipt.index t.receipt.entry self.new pass.new) }
        ensures missed { IfErr result.0 (λ m.
            IsMissed self.old proposal pass.old m.why m.proposal self.new pass.new) }
        ensures share { share.new ≡ share.old + commits result.0 }
        ensures linked { IfOk result.0 (λ _.
            result.1 ≡ (if nat_eq (length self.old.log % 64) 0 then None else Some spare)) }
        ensures kept { IfErr result.0 (λ _. result.1 ≡ Some spare) }
        ensures before { BeginsAt O.system self.old }
        ensures behind { BeginsAt O.system self.new }
    {
        self.held.attempt(proposal, spare, pass, share)
    }

    /// Takes the book apart, as of [`Held::finish`].
    pub fn finish(
        self,
        alloc: Global,
        system: &SharedOf<O, System, Global>,
        limit: usize,
        shares: Vec<Share<L>>,
        receipts: Vec<Receipts>,
    ) -> Result<Record, Unfinished<Self, L>>
        ensures finished { IfOk result (λ r.
            IsFinished self (shared_of_value system.now) limit L.parts shares.items receipts.items r) }
        ensures unfinished { IfErr result (λ u.
            IsUnfinished self (shared_of_value system.now) limit L.parts shares.items receipts.items u.fault) }
        ensures object { IfErr result (λ u. u.object ≡ self) }
        ensures shares { IfErr result (λ u. u.shares.items ≡ shares.items) }
        ensures receipts { IfErr result (λ u. u.receipts.items ≡ receipts.items) }
        ensures begins { BeginsAt O.system self }
        ensures of_opening { IsBookOf self O.system O.limit }
    {
        match self.held.finish(alloc, system, limit, shares, receipts) {
            Ok(record) => Ok(record),
            Err(left) => {
                let Unfinished {
                    fault,
                    object,
                    shares,
                    receipts,
                } = left;
                let object = Solo { held: object };
                Err(Unfinished {
                    fault,
                    object,
                    shares,
                    receipts,
                })
            }
        }
    }
}
