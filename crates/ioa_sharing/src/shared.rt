//! Shared values with numbers.

ghost use Rattle.std.specs.Prelude.{◌≡◌, ◌<◌, ◌-◌, ◌^◌, length};

mod methods;

use crate::tokens::{Entry, Ledger};
use std::alloc::Allocator;
use std::sync::Arc;

/// Gives shared values their numbers, no number twice but the last, 2^64 - 1, which tells nothing. Values that are to
/// be compared come from one maker.
#[derive(Drop)]
pub struct Maker {
    count: u64,
    ledger: Ledger,
    ghost counted: { count < 2 ^ 64 - 1 → length ledger.log ≡ count },
}

/// A value with several owners, and a number that tells whether two owners own one value.
#[derive(Drop)]
pub struct Shared<T: Drop, A: Allocator> {
    number: u64,
    entry: Entry<T>,
    value: Arc<T, A>,
    ghost numbered: { number < 2 ^ 64 - 1 → entry.number ≡ number },
    ghost listed: { entry.value ≡ value.value },
}
