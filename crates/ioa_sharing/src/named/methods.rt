//! The methods of named shared values and of their makers. Their contracts name both types.

ghost use Rattle.std.specs.Prelude.{◌≡◌, ◌+◌, ◌-◌, ◌^◌, ◌↔◌, IfOk, IsTrue, min};
ghost use Rattle.std.specs.Arc.{arc_value};
ghost use Rattle.ioa_sharing.specs.Shared.{IsOneNumber, maker_count, maker_name};
ghost use Rattle.ioa_sharing.specs.Named.{maker_of_count, shared_of_number, shared_of_value};

use super::{MakerOf, Origin, SharedOf};
use crate::shared::Maker;
use std::alloc::{AllocError, Allocator};
use std::marker::PhantomData;
use std::sync::Arc;

impl<O: Origin> MakerOf<O> {
    /// The maker as that of its origin.
    pub fn of(maker: Maker) -> MakerOf<O>
        requires { maker_name maker ≡ O.name }
        ensures { maker_of_count result ≡ maker_count maker }
    {
        MakerOf {
            maker,
            origin: PhantomData,
        }
    }

    /// Gives a shared value its number: how many have one. From the number 2^64 - 1 on all get that one.
    pub fn share<T: Drop, A: Allocator>(&mut self, value: Arc<T, A>) -> SharedOf<O, T, A>
        ensures number { shared_of_number result ≡ maker_of_count self.old }
        ensures value { shared_of_value result ≡ arc_value value }
        ensures count { maker_of_count self.new ≡ min (maker_of_count self.old + 1) (2 ^ 64 - 1) }
    {
        SharedOf {
            shared: self.maker.share(value),
            origin: PhantomData,
        }
    }

    /// Puts a value in the place of a shared one, with a number as of [`MakerOf::share`]. The one that was there comes
    /// out.
    pub fn exchange<T: Drop, A: Allocator>(
        &mut self,
        place: &mut SharedOf<O, T, A>,
        value: &mut Arc<T, A>,
    )
        ensures number { shared_of_number place.new ≡ maker_of_count self.old }
        ensures value { shared_of_value place.new ≡ arc_value value.old }
        ensures out { arc_value value.new ≡ shared_of_value place.old }
        ensures count { maker_of_count self.new ≡ min (maker_of_count self.old + 1) (2 ^ 64 - 1) }
    {
        self.maker.exchange(&mut place.shared, value);
    }
}

impl<O: Origin, T: Drop, A: Allocator> SharedOf<O, T, A> {
    /// Whether both own one value, in constant time. It is false of equal values that were given two numbers.
    pub fn is_shared(&self, other: &SharedOf<O, T, A>) -> bool
        ensures one_number { IsTrue result ↔ IsOneNumber (shared_of_number self.now) (shared_of_number other.now) }
        ensures one_value { IsTrue result → shared_of_value self.now ≡ shared_of_value other.now }
    {
        self.shared.is_shared(&other.shared)
    }

    /// One more owner of the value. Fails if the count of the owners is full.
    pub fn try_clone(&self) -> Result<SharedOf<O, T, A>, AllocError>
        ensures number { IfOk result (λ s. shared_of_number s ≡ shared_of_number self.now) }
        ensures value { IfOk result (λ s. shared_of_value s ≡ shared_of_value self.now) }
    {
        let shared = self.shared.try_clone()?;
        Ok(SharedOf {
            shared,
            origin: PhantomData,
        })
    }

    /// The value.
    pub fn get(&self) -> &T
        ensures { result.now ≡ shared_of_value self.now }
    {
        self.shared.get()
    }
}
