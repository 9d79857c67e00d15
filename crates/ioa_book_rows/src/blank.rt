//! What the held book of a script is opened with.

ghost use Rattle.std.specs.Prelude.{◌≡◌};

use std::marker::PhantomData;
use std::sync::ledger::{Blank, Ledger};

/// The blank of a ledger of one share.
#[derive(Drop)]
pub(crate) struct BlankOf<L: Ledger> {
    pub(crate) blank: Blank,
    ledger: PhantomData<L>,
    ghost name: { blank.name ≡ L.name },
    ghost parts: { (blank.parts ≡ L.parts) × (L.parts ≡ 1) },
}

impl<L: Ledger> BlankOf<L> {
    /// The blank as that of its ledger.
    pub(crate) fn of(blank: Blank) -> Self
        requires name { blank.name ≡ L.name }
        requires parts { (blank.parts ≡ L.parts) × (L.parts ≡ 1) }
    {
        BlankOf {
            blank,
            ledger: PhantomData,
        }
    }
}
