//! Receipts: what a worker gets for its commits.

ghost use Rattle.std.specs.Prelude.{◌≡◌, ◌<◌, ◌≤◌, ◌∷◌, ◌++◌, [], OnErr, OnOk, length};
ghost use Rattle.ioa_receipts.specs.Receipts.{plain_receipts};

use ioa_transitions::Entry;
use std::alloc::{AllocError, Global};
use std::marker::Model;

/// Says that an entry stands in the log at an index.
pub struct Receipt {
    /// The index.
    pub index: usize,
    /// The entry.
    pub entry: Entry,
}

/// By hand, so that crates above do not prove again how the parts are let go (DECISIONS).
impl Drop for Receipt {
    #[inline(always)]
    fn drop(self) {
        let Receipt { index: _, entry: _ } = self;
    }
}

/// The receipts that a worker keeps, in the order in which it got them. A contract sees them and for how many there is
/// room, so that a worker can make room before it takes the lock.
pub struct Receipts {
    all: Vec<Receipt>,
}

/// By hand, so that crates above do not prove again how the parts are let go (DECISIONS).
impl Drop for Receipts {
    fn drop(self) {
        let Receipts { all: _ } = self;
    }
}

impl Model for Receipts {
    ghost use Rattle.std.specs.Prelude.{vec_capacity};
    ghost use Rattle.ioa_receipts.specs.Receipts.{PlainReceipts, plain_receipts, plain_receipts_code};

    ghost Value = { PlainReceipts };

    ghost coded = { plain_receipts_code };

    ghost view = { λ r. plain_receipts r.all.items (vec_capacity r.all) };
}

impl Receipts {
    /// No receipts, and no room. Takes no memory.
    pub fn new(alloc: Global) -> Self
        ensures { result.all ≡ [] }
    {
        Receipts {
            all: Vec::new(alloc),
        }
    }

    /// Makes room for one more, if there is none. The room that was there stays, also if memory is refused.
    pub fn make_room(&mut self) -> Result<(), AllocError>
        ensures room { OnOk result (length self.new.all < self.new.room) }
        ensures kept { self.new.all ≡ self.old.all }
        ensures stays { self.old.room ≤ self.new.room }
    {
        self.all.reserve(1)
    }

    /// Puts a receipt behind the others. There has to be room; so it takes no memory.
    pub fn put(&mut self, receipt: Receipt)
        requires { length self.old.all < self.old.room }
        ensures { self.new.all ≡ self.old.all ++ receipt ∷ [] }
    {
        self.all.push_reserved(receipt);
    }

    /// The receipts.
    pub fn as_slice(&self) -> &[Receipt]
        ensures { result.now ≡ self.now.all }
    {
        self.all.as_slice()
    }
}
