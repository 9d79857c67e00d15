//! Shared values whose type says which maker numbered them.

ghost use Rattle.std.specs.Prelude.{◌≡◌, ℕ};

mod methods;

use crate::shared::{Maker, Shared};
use std::alloc::Allocator;
use std::marker::{Brand, PhantomData};

/// Stands for one maker, in the types of what it numbers: so values of two makers are never compared by number.
pub trait Origin {
    ghost name: { ℕ };
}

impl Origin for Brand {
    ghost name = { 0 };
}

/// The maker of an origin.
#[derive(Drop)]
pub struct MakerOf<O: Origin> {
    maker: Maker,
    origin: PhantomData<O>,
    ghost of_origin: { maker.ledger.name ≡ O.name },
}

/// A shared value that the maker of an origin numbered.
#[derive(Drop)]
pub struct SharedOf<O: Origin, T: Drop, A: Allocator> {
    shared: Shared<T, A>,
    origin: PhantomData<O>,
    ghost of_origin: { shared.entry.name ≡ O.name },
}
