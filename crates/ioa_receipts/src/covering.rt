//! Whether receipts account for a log.

ghost use Rattle.std.specs.Prelude.{◌≡◌, ◌↔◌, IfOk, IsTrue};
ghost use Rattle.ioa_receipts.specs.Covers.{CoversOnce, all_receipts, numbered};
ghost use Rattle.ioa_receipts.specs.Receipts.{receipt};

use crate::receipts::{Receipt, Receipts};
use crate::table::Table;
use ioa_rawlog::RawLog;
use ioa_transitions::Entry;
use std::alloc::{AllocError, Global};

/// Whether the receipts of all workers are each entry of the log once, at its index, and no other. They may come from
/// anywhere: of another log, given twice, or for an index beyond the end. If one worker has them all in the order of
/// the log, it goes over both once. Else each is put into a table as long as the log, beside which the log is walked.
/// Its one fault is want of memory for that table, which it asks for before it begins.
#[tactic(auto, using(crate::proofs::Filling::covered))]
pub fn covers(alloc: Global, log: &RawLog<Entry>, receipts: &[Receipts]) -> Result<bool, AllocError>
    ensures { IfOk result (λ b. IsTrue b ↔ CoversOnce log.now (all_receipts receipts.now)) }
{
    if are_all_in_order(receipts, log) {
        return Ok(true);
    }
    let mut table = Table::empty(alloc, log.len())?;
    Ok(table.put_workers(receipts) && table.shows(log))
}

/// Whether one worker has the receipts of all entries of the log, in their order.
#[tactic(auto, using(crate::proofs::Numbered::one_covers))]
fn are_all_in_order(workers: &[Receipts], log: &RawLog<Entry>) -> bool
    ensures { IsTrue result → CoversOnce log.now (all_receipts workers.now) }
{
    match workers.split_first() {
        None => false,
        Some((receipts, others)) => { others.is_empty() && are_in_order(receipts, log) }
    }
}

/// Whether receipts are the entries of a log in their order, each with its index, and no others.
fn are_in_order(receipts: &Receipts, log: &RawLog<Entry>) -> bool
    ensures { IsTrue result → receipts.now.all ≡ numbered 0 log.now }
{
    let found = receipts.as_slice();
    let mut entries = log.walk();
    for index in 0..found.len() {
        let Some(entry) = entries.next() else {
            return false;
        };
        if !is_receipt_of(&found[index], index, entry) {
            return false;
        }
    }
    entries.next().is_none()
}

/// Whether a receipt is of this entry, at this index.
#[inline(always)]
fn is_receipt_of(found: &Receipt, index: usize, entry: &Entry) -> bool
    ensures { IsTrue result → found.now ≡ receipt index entry.now }
{
    found.index == index && found.entry.equals(entry)
}
