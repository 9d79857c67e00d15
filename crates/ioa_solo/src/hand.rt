//! What a worker has of its own.

use ioa_held::Share;
use ioa_passes::Pass;
use ioa_receipts::Receipts;
use std::sync::ledger::Ledger;

/// What a worker has of its own, whatever board it works at. It is lent to its work, and handed in at the end.
#[derive(Drop)]
pub struct Hand<L: Ledger> {
    /// How many commits the worker has made.
    pub share: Share<L>,
    /// What it has seen of the book.
    pub pass: Pass,
    /// What it got for its commits.
    pub receipts: Receipts,
}
