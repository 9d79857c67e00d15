//! A list of values that is only there for the proofs, and what is known of one of its places. None of these has bytes.

ghost use Rattle.std.specs.Prelude.{◌≡◌, ℕ, ◌+◌, List, [], length};
ghost use base.Stored.{Gv, coded_list};
ghost use denote.Sharing.{said};
ghost use Rattle.ioa_sharing.specs.Kept.{entry_owns, itself, ledger_owns};

use std::marker::{Model, PhantomData};

/// The right to put a value behind the others of a list. The list has a name of its own and values of any type.
#[derive(Drop)]
pub struct Ledger {
    marker: PhantomData<()>,
    pub ghost name: { ℕ },
    pub ghost log: { List Gv } by { coded_list itself },
}

impl Model for Ledger {
    ghost also_owns = { λ l. ledger_owns l.name l.log };
}

/// What is known for good of the list with this name: that its place with this number has this value.
#[derive(Drop)]
pub struct Entry<T> {
    marker: PhantomData<T>,
    pub ghost name: { ℕ },
    pub ghost number: { ℕ },
    pub ghost value: { T },
}

impl<T> Model for Entry<T> {
    ghost also_owns = { λ e. entry_owns T.row.coded.code e.name e.number e.value };

    ghost also_shares = { λ e _ κ. said (entry_owns T.row.coded.code e.name e.number e.value) κ };
}

impl Ledger {
    /// A list with no values, under a name of its own.
    pub fn new() -> Ledger
        ensures { result.log ≡ [] }
    {
        Ledger {
            marker: PhantomData,
        }
    }

    /// Puts a value behind the others. What comes back says at which place it stands.
    pub fn append<T>(&mut self, value: &T) -> Entry<T>
        ensures name { (self.new.name ≡ self.old.name) × (result.name ≡ self.old.name) }
        ensures longer { length self.new.log ≡ length self.old.log + 1 }
        ensures entry { (result.number ≡ length self.old.log) × (result.value ≡ value.now) }
    {
        Entry {
            marker: PhantomData,
        }
    }
}

impl<T> Entry<T> {
    /// A copy.
    pub fn again(&self) -> Entry<T>
        ensures { result ≡ self.now }
    {
        Entry {
            marker: PhantomData,
        }
    }

    /// Two entries of one place have one value. It does nothing: what it gives is its contract.
    pub fn agree(&self, other: &Entry<T>)
        requires { (other.now.name ≡ self.now.name) × (other.now.number ≡ self.now.number) }
        ensures { self.now.value ≡ other.now.value }
    {}
}

unsafe impl Send for Ledger {}

unsafe impl<T> Send for Entry<T> {}

unsafe impl<T> Sync for Entry<T> {}
