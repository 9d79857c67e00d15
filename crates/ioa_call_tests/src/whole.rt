//! A book under its lock, with the shares and the receipts with which it can be finished.

use ioa_held::{FinishFault, Share, Unfinished};
use ioa_receipts::Receipts;
use ioa_record::Record;
use ioa_shared::{Opening, Shared};
use ioa_sharing::SharedOf;
use ioa_system::System;
use std::alloc::Global;
use std::sync::ledger::Ledger;
use std::test::Fail;

/// What is to be finished, with its shares and receipts.
pub(crate) struct Whole<O: Opening, L: Ledger> {
    pub shared: Shared<O, L>,
    pub shares: Vec<Share<L>>,
    pub receipts: Vec<Receipts>,
}

/// By hand, so that no test proves again how the parts are let go.
impl<O: Opening, L: Ledger> Drop for Whole<O, L> {
    fn drop(self) {
        let Whole {
            shared: _,
            shares: _,
            receipts: _,
        } = self;
    }
}

impl<O: Opening, L: Ledger> Whole<O, L> {
    /// The book, the shares and the receipts.
    fn into_parts(self) -> (Shared<O, L>, Vec<Share<L>>, Vec<Receipts>) {
        let Whole {
            shared,
            shares,
            receipts,
        } = self;
        (shared, shares, receipts)
    }

    /// The same, once it was refused for this fault and handed back.
    pub(crate) fn refused(
        self: Box<Self>,
        alloc: Global,
        system: &SharedOf<O, System, Global>,
        limit: usize,
        wanted: FinishFault,
    ) -> Result<Box<Self>, Fail> {
        let (shared, shares, receipts) = Box::into_inner(self).into_parts();
        match shared.finish(alloc, system, limit, shares, receipts) {
            Ok(_) => Err("finished".into()),
            Err(left) => handed_back(alloc, left, wanted),
        }
    }

    /// The record that it leaves.
    pub(crate) fn finish(
        self: Box<Self>,
        alloc: Global,
        system: &SharedOf<O, System, Global>,
        limit: usize,
    ) -> Result<Record, Fail> {
        let (shared, shares, receipts) = Box::into_inner(self).into_parts();
        match shared.finish(alloc, system, limit, shares, receipts) {
            Ok(record) => Ok(record),
            Err(_) => Err("not finished".into()),
        }
    }
}

/// What is handed back, if it was refused for this fault.
fn handed_back<O: Opening, L: Ledger>(
    alloc: Global,
    left: Unfinished<Shared<O, L>, L>,
    wanted: FinishFault,
) -> Result<Box<Whole<O, L>>, Fail> {
    let Unfinished {
        fault,
        object,
        shares,
        receipts,
    } = left;
    let whole = Whole {
        shared: object,
        shares,
        receipts,
    };
    let whole = Box::new(alloc, whole)?;
    if fault == wanted {
        Ok(whole)
    } else {
        Err("another fault".into())
    }
}
