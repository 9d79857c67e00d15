//! The commit lock.

ghost use Rattle.std.specs.Prelude.{◌≡◌, ◌+◌, ◌%◌, ◌<◌, ◌≤◌, IfErr, IfOk, IsTrue, None, OnErr, OnOk, Some};
ghost use Rattle.std.specs.Prelude.{if◌then◌else◌, nat_eq, replicate, true};
ghost use Rattle.ioa_compose.specs.Start.{start};
ghost use Rattle.ioa_sharing.specs.Named.{shared_of_value};
ghost use Rattle.ioa_sharing.specs.Shared.{maker_name};
ghost use Rattle.ioa_held.specs.Attempts.{commits};
ghost use Rattle.ioa_passes.specs.Looks.{pass_after, told_again};
ghost use Rattle.ioa_passes.specs.Passes.{risen_by_look};
ghost use Rattle.ioa_shared.specs.SomeBook.{BeginsSome, FinishesSome, LeavesSome, LooksAtSome, MissesInSome};
ghost use Rattle.ioa_shared.specs.SomeBook.{TakesInSome};

use crate::opening::Opening;
use crate::solo::Solo;
use ioa_book::{Proposal, Snapshot};
use ioa_held::{Missed, Share, Taken, Unfinished};
use ioa_passes::{Pass, ViewFault};
use ioa_rawlog::Spare;
use ioa_receipts::Receipts;
use ioa_record::Record;
use ioa_sharing::{MakerOf, SharedOf};
use ioa_system::System;
use ioa_transitions::Entry;
use std::alloc::{AllocError, Global};
use std::sync::ledger::{Blank, Ledger};
use std::sync::{Mutex, Wait};

/// A book of commits under a lock. Each call holds the lock once, for one look or one commit. What a contract says of a
/// call is said of some lawful book that begins at the start of the system with which the lock's own was opened, since
/// other workers may have committed since the last call.
#[derive(Drop)]
pub struct Shared<O: Opening, L: Ledger> {
    solo: Mutex<Solo<O, L>>,
}

impl<O: Opening, L: Ledger> Shared<O, L> {
    /// Whether this is the system with which the book was opened, as of [`Solo::is_opened_with`], while the lock is
    /// held.
    pub fn is_opened_with(&self, rt: &impl Wait, system: &SharedOf<O, System, Global>) -> bool
        ensures same { IsTrue result → start (shared_of_value system.now) ≡ start O.system }
        ensures some { IsTrue result → BeginsSome (shared_of_value system.now) }
    {
        self.solo.lock(rt).is_opened_with(system)
    }

    /// A look at a node, as of [`Solo::look`], while the lock is held.
    pub fn look(
        &self,
        rt: &impl Wait,
        alloc: Global,
        pass: &mut Pass,
        node: i64,
    ) -> Result<Snapshot<O>, ViewFault>
        ensures look { LooksAtSome O.system pass.old node result }
        ensures pass { pass.new ≡ pass_after pass.old result }
    {
        self.solo.lock(rt).look(alloc, pass, node)
    }

    /// The same look once more, in its place, as of [`Solo::look_again`], while the lock is held.
    pub fn look_again(
        &self,
        rt: &impl Wait,
        look: &mut Snapshot<O>,
        pass: &mut Pass,
    ) -> Result<bool, ViewFault>
        ensures again { LooksAtSome O.system pass.old look.old.node (told_again look.new result) }
        ensures risen { OnOk result (pass.new ≡ risen_by_look look.new pass.old) }
        ensures kept { OnErr result (pass.new ≡ pass.old) }
        ensures node { look.new.node ≡ look.old.node }
        ensures same { IfOk result (λ b. b ≡ true → look.new.reads ≡ look.old.reads) }
    {
        self.solo.lock(rt).look_again(look, pass)
    }

    /// The commit of a proposal, as of [`Solo::attempt`], while the lock is held. The spare is linked to the log for
    /// each entry whose index is a multiple of 64, and else comes back.
    pub fn attempt(
        &self,
        rt: &impl Wait,
        proposal: Proposal<O>,
        spare: Spare<Entry>,
        pass: &mut Pass,
        share: &mut Share<L>,
    ) -> (Result<Taken<O>, Missed<O>>, Option<Spare<Entry>>)
        ensures taken { IfOk result.0 (λ t.
            TakesInSome O.system proposal pass.old t.receipt.index t.receipt.entry pass.new) }
        ensures missed { IfErr result.0 (λ m.
            MissesInSome O.system proposal pass.old m.why m.proposal pass.new) }
        ensures share { share.new ≡ share.old + commits result.0 }
        ensures linked { IfOk result.0 (λ t.
            result.1 ≡ (if nat_eq (t.receipt.index % 64) 0 then None else Some spare)) }
        ensures kept { IfErr result.0 (λ _. result.1 ≡ Some spare) }
    {
        self.solo.lock(rt).attempt(proposal, spare, pass, share)
    }

    /// Takes the book apart, as of [`Solo::finish`], once nobody else has it. After a fault it stands under a lock
    /// again.
    pub fn finish(
        self,
        alloc: Global,
        system: &SharedOf<O, System, Global>,
        limit: usize,
        shares: Vec<Share<L>>,
        receipts: Vec<Receipts>,
    ) -> Result<Record, Unfinished<Self, L>>
        ensures finished { IfOk result (λ r.
            FinishesSome (shared_of_value system.now) limit L.parts shares.items receipts.items r) }
        ensures unfinished { IfErr result (λ u.
            LeavesSome O.system O.limit (shared_of_value system.now) limit L.parts shares.items receipts.items u.fault) }
        ensures shares { IfErr result (λ u. u.shares.items ≡ shares.items) }
        ensures receipts { IfErr result (λ u. u.receipts.items ≡ receipts.items) }
    {
        match self
            .solo
            .into_inner()
            .finish(alloc, system, limit, shares, receipts)
        {
            Ok(record) => Ok(record),
            Err(left) => {
                let Unfinished {
                    fault,
                    object,
                    shares,
                    receipts,
                } = left;
                let solo = Mutex::new(object);
                let object = Shared { solo };
                Err(Unfinished {
                    fault,
                    object,
                    shares,
                    receipts,
                })
            }
        }
    }
}

/// The book of a system in which nothing is recorded yet, under a lock, and a share for each worker, each of which
/// counts nothing yet. The maker gives what the book holds its numbers, and has given the system one. The blank is
/// spent.
pub fn open<O: Opening, L: Ledger>(
    alloc: Global,
    maker: MakerOf<O>,
    blank: Blank,
    system: &SharedOf<O, System, Global>,
    limit: usize,
    workers: u64,
) -> Result<(Shared<O, L>, Vec<Share<L>>), AllocError>
    requires opened { (shared_of_value system.now ≡ O.system) × (limit ≡ O.limit) }
    requires limit { limit ≤ 1000000 }
    requires name { blank.name ≡ L.name }
    requires parts { blank.parts ≡ L.parts }
    requires workers { (workers ≡ L.parts) × (0 < workers) × (workers ≤ 64) }
    ensures { IfOk result (λ r. r.1.items ≡ replicate workers 0) }
{
    let (solo, shares) = Solo::with_shares(alloc, maker, blank, system, limit, workers)?;
    let solo = Mutex::new(solo);
    Ok((Shared { solo }, shares))
}
