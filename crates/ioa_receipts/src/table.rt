//! A table with a place for each entry of a log, in which each receipt is put at its index.

ghost use Rattle.std.specs.Prelude.{◌≡◌, ◌↔◌, None, Some, IfOk, IsTrue, if◌then◌else◌, map, replicate};
ghost use Rattle.std.specs.Option.{option_copied};
ghost use Rattle.ioa_receipts.specs.Covers.{all_receipts};
ghost use Rattle.ioa_receipts.specs.Tables.{put, put_all};

use crate::receipts::{Receipt, Receipts};
use ioa_rawlog::RawLog;
use ioa_transitions::Entry;
use std::alloc::{AllocError, Global};
use std::marker::Model;

/// Has a place for each index of a log. A contract sees the list of what is in the places.
#[derive(Drop)]
pub struct Table<'a> {
    places: Vec<Option<&'a Entry>>,
}

impl<'a> Model for Table<'a> {
    ghost use Rattle.std.specs.Prelude.{map};
    ghost use Rattle.std.specs.Option.{option_copied};
    ghost use Rattle.ioa_receipts.specs.Tables.{PlainTable, plain_table_code};

    ghost Value = { PlainTable };

    ghost coded = { plain_table_code };

    ghost view = { λ t. map option_copied t.places.items };
}

impl<'a> Table<'a> {
    /// A table of so many places, with nothing in them. Takes its memory here, and none later.
    pub(crate) fn empty(alloc: Global, length: usize) -> Result<Self, AllocError>
        ensures { IfOk result (λ t. t ≡ replicate length None) }
    {
        let mut places = Vec::with_capacity(alloc, length)?;
        for _index in 0..length {
            places.push_reserved(None);
        }
        Ok(Table { places })
    }

    /// Puts the entry of a receipt at its index, and says whether it did: there has to be such a place, with nothing in
    /// it.
    fn put(&mut self, receipt: &'a Receipt) -> bool
        ensures { put receipt.now self.old ≡ (if result then Some self.new else None) }
    {
        match self.places.get(receipt.index) {
            Some(None) => {
                self.places[receipt.index] = Some(&receipt.entry);
                true
            }
            Some(Some(_)) => false,
            None => false,
        }
    }

    /// Puts receipts, one after another, and says whether each found its place. It stops at the first that did not.
    fn put_all(&mut self, receipts: &'a [Receipt]) -> bool
        ensures { put_all receipts.now self.old ≡ (if result then Some self.new else None) }
    {
        for receipt in receipts {
            if !self.put(receipt) {
                return false;
            }
        }
        true
    }

    /// Puts the receipts of all workers, and says whether each found its place. It stops at the first that did not.
    pub(crate) fn put_workers(&mut self, workers: &'a [Receipts]) -> bool
        ensures { put_all (all_receipts workers.now) self.old ≡ (if result then Some self.new else None) }
    {
        for worker in workers {
            if !self.put_all(worker.as_slice()) {
                return false;
            }
        }
        true
    }

    /// Whether each place has the entry of the log at its index, and there are as many places as entries.
    pub(crate) fn shows(&self, log: &RawLog<Entry>) -> bool
        ensures { IsTrue result ↔ (self.now ≡ map Some log.now) }
    {
        let places = self.places.as_slice();
        let mut entries = log.walk();
        for place in places {
            let Some(entry) = entries.next() else {
                return false;
            };
            if !has(place, entry) {
                return false;
            }
        }
        entries.next().is_none()
    }
}

/// Whether a place has this entry.
fn has(place: &Option<&Entry>, entry: &Entry) -> bool
    ensures { IsTrue result ↔ (option_copied place.now ≡ Some entry.now) }
{
    match place {
        Some(found) => found.equals(entry),
        None => false,
    }
}
