//! What stands under the commit lock.

ghost use Rattle.std.specs.Prelude.{◌≡◌, ◌<◌, ◌≤◌, ◌+◌, ◌%◌, [], IfErr, IfOk, IfSome, IsSome, IsTrue, None};
ghost use Rattle.std.specs.Prelude.{OnErr, OnOk, OnSome, Some, if◌then◌else◌, length, nat_eq, replicate, true};
ghost use Rattle.ioa_book.specs.BookLaws.{IsLawful};
ghost use Rattle.ioa_commits.specs.Books.{plain_book};
ghost use Rattle.ioa_compose.specs.Start.{start};
ghost use Rattle.ioa_sharing.specs.Named.{shared_of_value};
ghost use Rattle.ioa_held.specs.Openings.{BeginsAt};
ghost use Rattle.ioa_held.specs.Attempts.{IsMissed, IsTaken, commits};
ghost use Rattle.ioa_passes.specs.Looks as spec;
ghost use Rattle.ioa_passes.specs.Looks.{pass_after, view_answer};
ghost use Rattle.ioa_commits.specs.Proposals.{participants_read};
ghost use Rattle.ioa_passes.specs.Passes.{older, risen_by_commit, risen_by_look, risen_by_refusal};
ghost use Rattle.ioa_values.specs.Outcome.{Answers};

use crate::outcome::{Miss, Missed, Taken};
use crate::share::{Share, shares_of};
use ioa_book::{Book, CommitRefusal, LookFault, Proposal, Snapshot};
use ioa_commits::Committed;
use ioa_passes::{Pass, ViewFault};
use ioa_rawlog::Spare;
use ioa_receipts::Receipt;
use ioa_sharing::{MakerOf, Origin, SharedOf};
use ioa_system::System;
use ioa_transitions::Entry;
use std::alloc::{AllocError, Global};
use std::marker::Model;
use std::sync::ledger;
use std::sync::ledger::{Blank, Ledger};

/// A book with the sum of the commits of all shares, and the system with which it was opened. A contract sees the book.
/// The type keeps the book's law, that it begins at the start of the system, and that the sum is the length of its log.
#[derive(Drop)]
pub struct Held<O: Origin, L: Ledger> {
    pub(crate) book: Book<O>,
    pub(crate) total: ledger::Book<L>,
    pub(crate) system: SharedOf<O, System, Global>,
    /// How many shares there are.
    pub(crate) parts: u64,
}

impl<O: Origin, L: Ledger> Model for Held<O, L> {
    ghost use Rattle.std.specs.Prelude.{◌≡◌, ◌<◌, length};
    ghost use Rattle.ioa_commits.specs.Books.{PlainBook, plain_book_code};
    ghost use Rattle.ioa_compose.specs.Start.{start};
    ghost use Rattle.ioa_sharing.specs.Named.{shared_of_value};

    ghost Value = { PlainBook };

    ghost coded = { plain_book_code };

    ghost view = { λ h. h.book };

    ghost invariant = { λ h. (h.total.total ≡ length h.book.log) × (h.parts ≡ L.parts) × (0 < h.parts)
        × (h.book.start ≡ start (shared_of_value h.system)) };
}

impl<O: Origin, L: Ledger> Held<O, L> {
    /// The book of a system in which nothing is recorded yet, and so many shares, each of which counts nothing yet. The
    /// maker gives what the book holds its numbers, and has given the system one. The blank is spent.
    pub fn open(
        alloc: Global,
        maker: MakerOf<O>,
        blank: Blank,
        system: &SharedOf<O, System, Global>,
        limit: usize,
        workers: u64,
    ) -> Result<(Self, Vec<Share<L>>), AllocError>
        requires limit { limit ≤ 1000000 }
        requires name { blank.name ≡ L.name }
        requires parts { blank.parts ≡ L.parts }
        requires workers { (workers ≡ L.parts) × (0 < workers) }
        ensures book { IfOk result (λ r. r.0 ≡ plain_book (start (shared_of_value system.now)) [] limit) }
        ensures shares { IfOk result (λ r. r.1.items ≡ replicate workers 0) }
    {
        let system = system.try_clone()?;
        let book = Book::new(alloc, maker, system.get(), limit)?;
        let (total, share) = blank.open();
        let shares = shares_of(alloc, share, workers)?;
        let parts = workers;
        let held = Held {
            book,
            total,
            system,
            parts,
        };
        Ok((held, shares))
    }

    /// Whether this is the system with which the book was opened, by its number, in constant time. It is false of
    /// another system, and also of an equal one that was given another number.
    pub fn is_opened_with(&self, system: &SharedOf<O, System, Global>) -> bool
        ensures { IsTrue result → BeginsAt (shared_of_value system.now) self.now }
    {
        let _law = self.book.log();
        self.system.is_shared(system)
    }

    /// A look at a node. `Unknown` (53) if there is no such node; `Older` (54) if what it would show is older than the
    /// pass has seen: the first such component, or else the log. The pass rises to what is seen.
    pub fn look(&self, alloc: Global, pass: &mut Pass, node: i64) -> Result<Snapshot<O>, ViewFault>
        ensures look { Answers ViewFault.Memory (λ s. s) result (view_answer self.now pass.old node) }
        ensures pass { pass.new ≡ pass_after pass.old result }
        ensures lawful { IsLawful self.now }
    {
        let _law = self.book.log();
        match self.book.look(alloc, node) {
            Ok(look) => admitted(look, pass),
            Err(LookFault::Unknown) => Err(ViewFault::Unknown),
            Err(LookFault::Memory) => Err(ViewFault::Memory),
        }
    }

    /// The same look once more, in its place, with the same answer. After a fault nothing is said of it but its node,
    /// and whoever has it lets it go. Returns whether it shows the same as before, as of [`Book::look_again`].
    #[inline(always)]
    pub fn look_again(&self, look: &mut Snapshot<O>, pass: &mut Pass) -> Result<bool, ViewFault>
        ensures again { Answers ViewFault.Memory (λ _. look.new) result (view_answer self.now pass.old look.old.node) }
        ensures risen { OnOk result (pass.new ≡ risen_by_look look.new pass.old) }
        ensures kept { OnErr result (pass.new ≡ pass.old) }
        ensures node { look.new.node ≡ look.old.node }
        ensures same { IfOk result (λ b. b ≡ true → look.new.reads ≡ look.old.reads) }
        ensures lawful { IsLawful self.now }
    {
        let _law = self.book.log();
        match self.book.look_again(look) {
            Ok(is_same) => {
                admitted_again(look, pass)?;
                Ok(is_same)
            }
            Err(LookFault::Unknown) => Err(ViewFault::Unknown),
            Err(LookFault::Memory) => Err(ViewFault::Memory),
        }
    }

    /// Commits the proposal that is offered, if a quick test shows that it stands, and if the log needs no spare. If
    /// not, nothing is told of it, nothing is done, and [`Held::attempt`] is for it. If the commit is made, the share
    /// counts one more, the pass rises to what it leaves, and the proposal is taken out of its place.
    #[inline(always)]
    pub fn attempt_quickly(
        &mut self,
        offer: &mut Option<Proposal<O>>,
        pass: &mut Pass,
        share: &mut Share<L>,
    ) -> Option<Taken<O>>
        ensures taken { IfSome result (λ t. IfSome offer.old (λ x.
            IsTaken self.old x pass.old t.receipt.index t.receipt.entry self.new pass.new)) }
        ensures offered { OnSome result (IsSome offer.old) }
        ensures share { OnSome result (share.new ≡ share.old + 1) }
        ensures kept { result ≡ None → (self.new ≡ self.old) × (offer.new ≡ offer.old)
            × (pass.new ≡ pass.old) × (share.new ≡ share.old) }
        ensures before { IsLawful self.old }
        ensures behind { IsLawful self.new }
    {
        let before = self.book.log().len();
        if before < pass.length() {
            return None;
        }
        self.total.audit(&mut share.part);
        let committed = self.book.commit_quickly(offer)?;
        let length = self.book.log().len();
        self.total.add(&mut share.part, 1);
        share.count += 1;
        Some(taken(committed, length, pass))
    }

    /// Commits a proposal. `Older` (54) if the log is shorter than the pass has seen; else as the book's commit. If the
    /// commit is made, the share counts one more, and the pass rises to what it leaves. If a proposal is stale, the
    /// pass rises to the version that is held. The spare comes back unless it was linked to the log.
    pub fn attempt(
        &mut self,
        proposal: Proposal<O>,
        spare: Spare<Entry>,
        pass: &mut Pass,
        share: &mut Share<L>,
    ) -> (Result<Taken<O>, Missed<O>>, Option<Spare<Entry>>)
        ensures taken { IfOk result.0 (λ t.
            IsTaken self.old proposal pass.old t.receipt.index t.receipt.entry self.new pass.new) }
        ensures missed { IfErr result.0 (λ m.
            IsMissed self.old proposal pass.old m.why m.proposal self.new pass.new) }
        ensures share { share.new ≡ share.old + commits result.0 }
        ensures linked { IfOk result.0 (λ _.
            result.1 ≡ (if nat_eq (length self.old.log % 64) 0 then None else Some spare)) }
        ensures kept { IfErr result.0 (λ _. result.1 ≡ Some spare) }
        ensures before { IsLawful self.old }
        ensures behind { IsLawful self.new }
    {
        if self.book.log().needs_spare() {
            return self.attempt_tested(proposal, spare, pass, share);
        }
        let mut offer = Some(proposal);
        match self.attempt_quickly(&mut offer, pass, share) {
            Some(taken) => (Ok(taken), Some(spare)),
            None => match offer {
                Some(proposal) => self.attempt_tested(proposal, spare, pass, share),
                None => unreachable!(),
            },
        }
    }

    /// The same commit, of which nothing was told quickly.
    #[inline(never)]
    fn attempt_tested(
        &mut self,
        proposal: Proposal<O>,
        spare: Spare<Entry>,
        pass: &mut Pass,
        share: &mut Share<L>,
    ) -> (Result<Taken<O>, Missed<O>>, Option<Spare<Entry>>)
        ensures taken { IfOk result.0 (λ t.
            IsTaken self.old proposal pass.old t.receipt.index t.receipt.entry self.new pass.new) }
        ensures missed { IfErr result.0 (λ m.
            IsMissed self.old proposal pass.old m.why m.proposal self.new pass.new) }
        ensures share { share.new ≡ share.old + commits result.0 }
        ensures linked { IfOk result.0 (λ _.
            result.1 ≡ (if nat_eq (length self.old.log % 64) 0 then None else Some spare)) }
        ensures kept { IfErr result.0 (λ _. result.1 ≡ Some spare) }
        ensures before { IsLawful self.old }
        ensures behind { IsLawful self.new }
    {
        let before = self.book.log().len();
        match pass.older_length(before) {
            Some(older) => {
                let why = Miss::Older(older);
                (Err(Missed { why, proposal }), Some(spare))
            }
            None => self.commit(proposal, spare, pass, share),
        }
    }
}

impl<O: Origin, L: Ledger> Held<O, L> {
    /// The commit of a proposal at a log that is not shorter than the pass has seen.
    fn commit(
        &mut self,
        proposal: Proposal<O>,
        spare: Spare<Entry>,
        pass: &mut Pass,
        share: &mut Share<L>,
    ) -> (Result<Taken<O>, Missed<O>>, Option<Spare<Entry>>)
        requires current { pass.old.length ≤ length self.old.log }
        ensures taken { IfOk result.0 (λ t.
            IsTaken self.old proposal pass.old t.receipt.index t.receipt.entry self.new pass.new) }
        ensures missed { IfErr result.0 (λ m.
            IsMissed self.old proposal pass.old m.why m.proposal self.new pass.new) }
        ensures share { share.new ≡ share.old + commits result.0 }
        ensures linked { IfOk result.0 (λ _.
            result.1 ≡ (if nat_eq (length self.old.log % 64) 0 then None else Some spare)) }
        ensures kept { IfErr result.0 (λ _. result.1 ≡ Some spare) }
        ensures before { IsLawful self.old }
        ensures behind { IsLawful self.new }
    {
        let _before = self.book.log();
        self.total.audit(&mut share.part);
        let (outcome, left) = self.book.commit(proposal, spare);
        let length = self.book.log().len();
        match outcome {
            Ok(committed) => {
                self.total.add(&mut share.part, 1);
                share.count += 1;
                (Ok(taken(committed, length, pass)), left)
            }
            Err(refused) => {
                rise_by_refusal(&refused.refusal, pass);
                let why = Miss::Refused(refused.refusal);
                let proposal = refused.proposal;
                (Err(Missed { why, proposal }), left)
            }
        }
    }
}

/// A look that is not older than the pass has seen. The pass rises to it.
fn admitted<O: Origin>(look: Snapshot<O>, pass: &mut Pass) -> Result<Snapshot<O>, ViewFault>
    ensures look { Answers ViewFault.Memory (λ s. s) result (spec.unless_older (older pass.old look) look) }
    ensures pass { pass.new ≡ pass_after pass.old result }
{
    match admitted_again(&look, pass) {
        Ok(()) => Ok(look),
        Err(fault) => Err(fault),
    }
}

/// The same of a look in its place.
#[inline(always)]
fn admitted_again<O: Origin>(look: &Snapshot<O>, pass: &mut Pass) -> Result<(), ViewFault>
    ensures again { Answers ViewFault.Memory (λ _. look.now) result
        (spec.unless_older (older pass.old look.now) look.now) }
    ensures risen { OnOk result (pass.new ≡ risen_by_look look.now pass.old) }
    ensures kept { OnErr result (pass.new ≡ pass.old) }
{
    match pass.rise_unless_older(look) {
        None => Ok(()),
        Some(older) => Err(ViewFault::Older(older)),
    }
}

/// What comes of a commit that leaves a log of this length. The pass rises to it.
#[inline(always)]
fn taken<O: Origin>(committed: Committed<O>, length: usize, pass: &mut Pass) -> Taken<O>
    ensures receipt { (result.receipt.index ≡ committed.index) × (result.receipt.entry ≡ committed.entry) }
    ensures pass { pass.new ≡ risen_by_commit (participants_read committed.queue committed.node) length pass.old }
{
    let Committed {
        index,
        entry,
        queue,
        node,
    } = committed;
    pass.rise_by_commit(&queue, &node, length);
    let receipt = Receipt { index, entry };
    Taken {
        receipt,
        queue,
        node,
    }
}

/// A pass rises to the version that a stale proposal met.
#[inline(never)]
fn rise_by_refusal(refusal: &CommitRefusal, pass: &mut Pass)
    ensures { pass.new ≡ risen_by_refusal refusal.now pass.old }
{
    if let CommitRefusal::Stale {
        component,
        held,
        ..
    } = refusal
    {
        pass.rise_to(*component, *held);
    }
}
