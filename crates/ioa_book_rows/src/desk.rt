//! A book as it stands under the commit lock, with what a worker keeps of it.

ghost use Rattle.std.specs.Prelude.{◌≤◌};

use crate::answers::{committed_text, record_text, refused_text};
use crate::blank::BlankOf;
use ioa_book::{Proposal, Snapshot};
use ioa_held::{Held, Missed, Share, Taken, Unfinished};
use ioa_passes::{Pass, ViewFault};
use ioa_rawlog::Spare;
use ioa_receipts::{Receipt, Receipts};
use ioa_rows::CommandFault;
use ioa_sharing::{MakerOf, Origin, SharedOf};
use ioa_system::System;
use ioa_transitions::Entry;
use std::alloc::{AllocError, Global};
use std::sync::ledger::Ledger;

/// A book as it stands under the commit lock, with its one share, and the receipts of its commits.
pub(crate) struct Desk<O: Origin, L: Ledger> {
    held: Held<O, L>,
    shares: Vec<Share<L>>,
    receipts: Receipts,
}

/// By hand, so that no function proves again how the parts are let go.
impl<O: Origin, L: Ledger> Drop for Desk<O, L> {
    fn drop(self) {
        let Desk {
            held: _,
            shares: _,
            receipts: _,
        } = self;
    }
}

impl<O: Origin, L: Ledger> Desk<O, L> {
    /// The desk of a book in which nothing is recorded.
    pub(crate) fn open(
        alloc: Global,
        maker: MakerOf<O>,
        blank: BlankOf<L>,
        system: &SharedOf<O, System, Global>,
        limit: usize,
    ) -> Result<Box<Self>, AllocError>
        requires { limit ≤ 1000000 }
    {
        let (held, shares) = Held::open(alloc, maker, blank.blank, system, limit, 1)?;
        let receipts = Receipts::new(alloc);
        let desk = Desk {
            held,
            shares,
            receipts,
        };
        Ok(Box::new(alloc, desk)?)
    }

    /// A look at a node under a pass.
    pub(crate) fn look(
        &self,
        alloc: Global,
        pass: &mut Pass,
        node: i64,
    ) -> Result<Snapshot<O>, ViewFault> {
        self.held.look(alloc, pass, node)
    }

    /// The same look once more, in its place.
    pub(crate) fn look_again(
        &self,
        look: &mut Snapshot<O>,
        pass: &mut Pass,
    ) -> Result<bool, ViewFault> {
        self.held.look_again(look, pass)
    }

    /// Whether this is the system with which the book was opened.
    pub(crate) fn is_opened_with(&self, system: &SharedOf<O, System, Global>) -> bool {
        self.held.is_opened_with(system)
    }

    /// How many commits the share counts.
    pub(crate) fn count(&self) -> u64 {
        match self.shares.as_slice() {
            [share, ..] => share.count(),
            [] => 0,
        }
    }

    /// Attempts the proposal in a place, which is then empty. One that is missed stays in its place.
    pub(crate) fn attempt(
        &mut self,
        alloc: Global,
        pass: &mut Pass,
        place: &mut Option<Proposal<O>>,
        spare: Spare<Entry>,
        kept: &mut Option<Spare<Entry>>,
    ) -> Result<String, CommandFault> {
        match (self.shares.first_mut(), place.take()) {
            (Some(share), Some(proposal)) => {
                let (tried, left) = self.held.attempt(proposal, spare, pass, share);
                *kept = left;
                Ok(tried_text(alloc, &mut self.receipts, place, tried)?)
            }
            _ => Err(CommandFault::Bad("the proposal is committed")),
        }
    }

    /// The book, its share and the receipts.
    fn into_parts(self) -> (Held<O, L>, Vec<Share<L>>, Receipts) {
        let Desk {
            held,
            shares,
            receipts,
        } = self;
        (held, shares, receipts)
    }

    /// Each receipt so many times.
    pub(crate) fn receipts(
        &self,
        alloc: Global,
        times: usize,
    ) -> Result<Vec<Receipts>, AllocError> {
        let mut copies = Receipts::new(alloc);
        for _ in 0..times {
            put_copies(&mut copies, &self.receipts)?;
        }
        let mut all = Vec::new(alloc);
        all.push(copies)?;
        Ok(all)
    }

    /// Finishes the book, or puts what is handed back into a place and tells why.
    pub(crate) fn finish(
        self: Box<Self>,
        alloc: Global,
        system: &SharedOf<O, System, Global>,
        limit: usize,
        receipts: Vec<Receipts>,
        place: &mut Option<Box<Self>>,
    ) -> Result<String, AllocError> {
        let (held, shares, own) = Box::into_inner(self).into_parts();
        match held.finish(alloc, system, limit, shares, receipts) {
            Ok(left) => record_text(alloc, &left),
            Err(left) => put_back(alloc, left, own, place),
        }
    }
}

/// What comes of an attempt of the proposal, which comes into this place if it is missed.
fn tried_text<O: Origin>(
    alloc: Global,
    receipts: &mut Receipts,
    place: &mut Option<Proposal<O>>,
    tried: Result<Taken<O>, Missed<O>>,
) -> Result<String, AllocError> {
    match tried {
        Ok(taken) => taken_text(alloc, receipts, taken.receipt),
        Err(missed) => missed_text(alloc, place, missed),
    }
}

/// Keeps the receipt of a commit, and tells its index and its action.
fn taken_text(
    alloc: Global,
    receipts: &mut Receipts,
    receipt: Receipt,
) -> Result<String, AllocError> {
    let text = committed_text(alloc, receipt.index, receipt.entry.action());
    put(receipts, receipt)?;
    text
}

/// Puts a missed proposal back into its place, and tells why it was missed.
fn missed_text<O: Origin>(
    alloc: Global,
    place: &mut Option<Proposal<O>>,
    missed: Missed<O>,
) -> Result<String, AllocError> {
    let Missed { why, proposal } = missed;
    let proposal = place.insert(proposal);
    refused_text(alloc, &why, proposal.entry().action())
}

/// Puts a receipt behind others.
fn put(receipts: &mut Receipts, receipt: Receipt) -> Result<(), AllocError> {
    receipts.make_room()?;
    receipts.put(receipt);
    Ok(())
}

/// Puts copies of receipts behind others.
fn put_copies(receipts: &mut Receipts, others: &Receipts) -> Result<(), AllocError> {
    for receipt in others.as_slice() {
        let index = receipt.index;
        let entry = receipt.entry.try_clone()?;
        put(receipts, Receipt { index, entry })?;
    }
    Ok(())
}

/// Puts what was not finished back into a place, with its own receipts, and tells why.
fn put_back<O: Origin, L: Ledger>(
    alloc: Global,
    left: Unfinished<Held<O, L>, L>,
    receipts: Receipts,
    place: &mut Option<Box<Desk<O, L>>>,
) -> Result<String, AllocError> {
    let Unfinished {
        fault,
        object,
        shares,
        receipts: _,
    } = left;
    let desk = Desk {
        held: object,
        shares,
        receipts,
    };
    *place = Some(Box::new(alloc, desk)?);
    format!(in alloc; "{fault}")
}
