//! Finishing: what is left once all shares are gathered.

ghost use Rattle.std.specs.Prelude.{◌≡◌, ◌↔◌, IfErr, IfOk, IsTrue, OnOk, length};
ghost use Rattle.ioa_commits.specs.Books.{states_held};
ghost use Rattle.ioa_book.specs.BookLaws.{IsLawful};
ghost use Rattle.ioa_compose.specs.Start.{start};
ghost use Rattle.ioa_receipts.specs.Covers.{CoversOnce, all_receipts};
ghost use Rattle.ioa_sharing.specs.Named.{shared_of_value};
ghost use Rattle.ioa_held.specs.Finish.{CanFinish, IsBookOf, IsFinished, IsLeftBy, IsUnaccounted, IsUnfinished};

use crate::held::Held;
use crate::share::{Share, counts_of, whole_of};
use ioa_compose::Conf;
use ioa_receipts::{Receipts, covers};
use ioa_record::Record;
use ioa_sharing::{Origin, SharedOf};
use ioa_starts::is_start;
use ioa_system::System;
use std::alloc::{AllocError, Global};
use std::fmt;
use std::sync::ledger::Ledger;
use thiserror::Error;

/// Why a book is not finished.
#[derive(Clone, Copy, Debug, PartialEq, Eq, Error)]
pub enum FinishFault {
    /// `Foreign` (55): the book does not begin at the start of this system, or has another limit.
    Foreign,
    /// `SharesMissing` (57): these are not as many shares as there were at the opening.
    SharesMissing,
    /// `Memory` (3): memory ran out.
    Memory,
    /// `Unaccounted` (56): the receipts are not each entry of the log once, at its index.
    Unaccounted,
}

impl From<AllocError> for FinishFault {
    ghost use Rattle.std.specs.Prelude.{◌≡◌};
    ghost use Rattle.ioa_held.specs.declared.finish.FinishFault.TheVariants.{Memory};

    ghost from_gives = { λ _ f. f ≡ Memory };

    fn from(_error: AllocError) -> Self {
        FinishFault::Memory
    }
}

impl fmt::Display for FinishFault {
    ghost use Rattle.std.specs.Prelude.{Some};
    ghost use Rattle.ioa_held.specs.Texts.{finish_fault_text};

    ghost output = { λ f. Some (finish_fault_text f) };

    fn fmt<W: fmt::Write>(&self, f: &mut fmt::Formatter<W>) -> fmt::Result {
        match self {
            FinishFault::Foreign => f.write_str("55 Foreign"),
            FinishFault::SharesMissing => f.write_str("57 SharesMissing"),
            FinishFault::Memory => f.write_str("3 Memory"),
            FinishFault::Unaccounted => f.write_str("56 Unaccounted"),
        }
    }
}

/// What is not finished. Nothing is lost: all that was handed in is handed back.
#[derive(Drop)]
pub struct Unfinished<T: Drop, L: Ledger> {
    /// Why.
    pub fault: FinishFault,
    /// What was to be finished.
    pub object: T,
    /// The shares.
    pub shares: Vec<Share<L>>,
    /// The receipts.
    pub receipts: Vec<Receipts>,
}

impl<O: Origin, L: Ledger> Held<O, L> {
    /// Takes the book apart once all shares are gathered: its schedule, the configurations that it holds, and what each
    /// share counts. The faults are tested in this order: `Foreign` (55), `SharesMissing` (57), `Memory` (3),
    /// `Unaccounted` (56).
    pub fn finish(
        self,
        alloc: Global,
        system: &SharedOf<O, System, Global>,
        limit: usize,
        shares: Vec<Share<L>>,
        receipts: Vec<Receipts>,
    ) -> Result<Record, Unfinished<Self, L>>
        ensures finished { IfOk result (λ r.
            IsFinished self (shared_of_value system.now) limit L.parts shares.items receipts.items r) }
        ensures unfinished { IfErr result (λ u.
            IsUnfinished self (shared_of_value system.now) limit L.parts shares.items receipts.items u.fault) }
        ensures object { IfErr result (λ u. u.object ≡ self) }
        ensures shares { IfErr result (λ u. u.shares.items ≡ shares.items) }
        ensures receipts { IfErr result (λ u. u.receipts.items ≡ receipts.items) }
        ensures lawful { IsLawful self }
    {
        let _law = self.book.log();
        match self.lists(alloc, system, limit, &shares, &receipts) {
            Ok((states, commits)) => Ok(self.close(shares, states, commits)),
            Err(fault) => Err(Unfinished {
                fault,
                object: self,
                shares,
                receipts,
            }),
        }
    }

    /// The configurations held and what each share counts, if the book can be finished.
    fn lists(
        &self,
        alloc: Global,
        system: &SharedOf<O, System, Global>,
        limit: usize,
        shares: &[Share<L>],
        receipts: &[Receipts],
    ) -> Result<(Vec<Conf>, Vec<u64>), FinishFault>
        ensures finishes { OnOk result
            (CanFinish self.now (shared_of_value system.now) limit L.parts shares.now receipts.now) }
        ensures states { IfOk result (λ t. t.0.items ≡ states_held self.now) }
        ensures commits { IfOk result (λ t. t.1.items ≡ shares.now) }
        ensures unfinished { IfErr result (λ f.
            IsUnfinished self.now (shared_of_value system.now) limit L.parts shares.now receipts.now f) }
    {
        if !self.is_of(system, limit) {
            Err(FinishFault::Foreign)
        } else if !self.has_all(shares) {
            Err(FinishFault::SharesMissing)
        } else {
            self.lists_accounted(alloc, shares, receipts)
        }
    }

    /// Whether the book is of this system, with this limit. Takes no memory.
    fn is_of(&self, system: &SharedOf<O, System, Global>, limit: usize) -> bool
        ensures { IsTrue result ↔ IsBookOf self.now (shared_of_value system.now) limit }
    {
        self.book.limit() == limit && self.begins_at(system)
    }

    /// Whether the book begins at the start of a system. That is known at once of the system with which it was opened.
    /// Else the configurations at its start are compared, and that takes long where types share their fields.
    fn begins_at(&self, system: &SharedOf<O, System, Global>) -> bool
        ensures { IsTrue result ↔ (self.now.start ≡ start (shared_of_value system.now)) }
    {
        self.is_opened_with(system) || is_start(system.get(), self.book.start())
    }

    /// Whether these are as many shares as there were at the opening. Then they count all that was committed.
    fn has_all(&self, shares: &[Share<L>]) -> bool
        ensures { IsTrue result ↔ (length shares.now ≡ L.parts) }
    {
        shares.len() as u64 == self.parts
    }

    /// The configurations held and what each share counts, if the receipts account for the log.
    fn lists_accounted(
        &self,
        alloc: Global,
        shares: &[Share<L>],
        receipts: &[Receipts],
    ) -> Result<(Vec<Conf>, Vec<u64>), FinishFault>
        ensures accounted { OnOk result (CoversOnce self.now.log (all_receipts receipts.now)) }
        ensures states { IfOk result (λ t. t.0.items ≡ states_held self.now) }
        ensures commits { IfOk result (λ t. t.1.items ≡ shares.now) }
        ensures unaccounted { IfErr result (λ f. IsUnaccounted self.now receipts.now f) }
    {
        let states = self.book.states(alloc)?;
        let commits = counts_of(alloc, shares)?;
        if covers(alloc, self.book.log(), receipts)? {
            Ok((states, commits))
        } else {
            Err(FinishFault::Unaccounted)
        }
    }

    /// Takes the book apart with all its shares.
    fn close(self, shares: Vec<Share<L>>, states: Vec<Conf>, commits: Vec<u64>) -> Record
        requires gathered { length shares.items ≡ L.parts }
        requires states { states.items ≡ states_held self }
        requires commits { commits.items ≡ shares.items }
        ensures left { IsLeftBy self shares.items result }
        ensures lawful { IsLawful self }
    {
        let Held {
            book,
            mut total,
            ..
        } = self;
        let mut whole = whole_of(shares);
        total.audit(&mut whole);
        let (schedule, _maker) = book.into_parts();
        Record {
            schedule,
            states,
            commits,
        }
    }
}
