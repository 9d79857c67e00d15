//! The methods of shared values and of their makers. Their contracts name both types.

ghost use Rattle.std.specs.Prelude.{◌≡◌, ◌<◌, ◌+◌, ◌-◌, ◌^◌, ◌↔◌, IfOk, IsTrue, min};
ghost use Rattle.std.specs.Arc.{arc_value};
ghost use Rattle.ioa_sharing.specs.Shared.{IsOneNumber, maker_count, maker_name};
ghost use Rattle.ioa_sharing.specs.Shared.{shared_maker, shared_number, shared_value};

use super::{Maker, Shared};
use crate::tokens::{Entry, Ledger};
use std::alloc::{AllocError, Allocator};
use std::mem;
use std::sync::Arc;

impl Maker {
    /// A maker that has given no number yet.
    pub fn new() -> Maker
        ensures { maker_count result ≡ 0 }
    {
        Maker {
            count: 0,
            ledger: Ledger::new(),
        }
    }

    /// Gives a shared value its number: how many have one. From the number 2^64 - 1 on all get that one.
    pub fn share<T: Drop, A: Allocator>(&mut self, value: Arc<T, A>) -> Shared<T, A>
        ensures one_maker { maker_name self.new ≡ maker_name self.old }
        ensures maker { shared_maker result ≡ maker_name self.old }
        ensures number { shared_number result ≡ maker_count self.old }
        ensures value { shared_value result ≡ arc_value value }
        ensures count { maker_count self.new ≡ min (maker_count self.old + 1) (2 ^ 64 - 1) }
    {
        let (number, entry) = self.enter(&*value);
        Shared {
            number,
            entry,
            value,
        }
    }

    /// Puts a value in the place of a shared one, with a number as of [`Maker::share`]. The one that was there comes
    /// out.
    pub fn exchange<T: Drop, A: Allocator>(
        &mut self,
        place: &mut Shared<T, A>,
        value: &mut Arc<T, A>,
    )
        ensures one_maker { maker_name self.new ≡ maker_name self.old }
        ensures maker { shared_maker place.new ≡ maker_name self.old }
        ensures number { shared_number place.new ≡ maker_count self.old }
        ensures value { shared_value place.new ≡ arc_value value.old }
        ensures out { arc_value value.new ≡ shared_value place.old }
        ensures count { maker_count self.new ≡ min (maker_count self.old + 1) (2 ^ 64 - 1) }
    {
        let (number, entry) = self.enter(&**value);
        mem::swap(&mut place.value, value);
        place.number = number;
        place.entry = entry;
    }

    /// Enters a value into the ledger: its number, and its entry there.
    fn enter<T>(&mut self, value: &T) -> (u64, Entry<T>)
        ensures one_maker { maker_name self.new ≡ maker_name self.old }
        ensures maker { result.1.name ≡ maker_name self.old }
        ensures number { result.0 ≡ maker_count self.old }
        ensures entered { result.0 < 2 ^ 64 - 1 → result.1.number ≡ result.0 }
        ensures value { result.1.value ≡ value.now }
        ensures count { maker_count self.new ≡ min (maker_count self.old + 1) (2 ^ 64 - 1) }
    {
        let number = self.count;
        let entry = self.ledger.append(value);
        self.count = number.saturating_add(1);
        (number, entry)
    }
}

impl<T: Drop, A: Allocator> Shared<T, A> {
    /// Whether both own one value, in constant time. It is false of equal values that were given two numbers.
    pub fn is_shared(&self, other: &Shared<T, A>) -> bool
        requires { shared_maker other.now ≡ shared_maker self.now }
        ensures one_number { IsTrue result ↔ IsOneNumber (shared_number self.now) (shared_number other.now) }
        ensures one_value { IsTrue result → shared_value self.now ≡ shared_value other.now }
    {
        if self.number != other.number || self.number == u64::MAX {
            return false;
        }
        self.entry.agree(&other.entry);
        true
    }

    /// One more owner of the value. Fails if the count of the owners is full.
    pub fn try_clone(&self) -> Result<Shared<T, A>, AllocError>
        ensures maker { IfOk result (λ s. shared_maker s ≡ shared_maker self.now) }
        ensures number { IfOk result (λ s. shared_number s ≡ shared_number self.now) }
        ensures value { IfOk result (λ s. shared_value s ≡ shared_value self.now) }
    {
        let value = Arc::try_clone(&self.value)?;
        Ok(Shared {
            number: self.number,
            entry: self.entry.again(),
            value,
        })
    }

    /// The value.
    pub fn get(&self) -> &T
        ensures { result.now ≡ shared_value self.now }
    {
        &*self.value
    }
}
