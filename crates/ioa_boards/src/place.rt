//! Places of looks.

ghost use Rattle.std.specs.Prelude.{◌≡◌, IfOk, None};
ghost use Rattle.std.specs.Option.{option_copied};

use ioa_book::Snapshot;
use ioa_sharing::Origin;
use std::alloc::{AllocError, Global};
use std::marker::Model;

/// Has room for a look, so that the next one is made where the last one was. A contract sees the look, if there is one.
pub struct Place<O: Origin> {
    pub(crate) room: Box<Option<Snapshot<O>>>,
}

/// By hand, so that crates above do not prove again how the parts are let go (DECISIONS).
impl<O: Origin> Drop for Place<O> {
    fn drop(self) {
        let Place { room: _ } = self;
    }
}

impl<O: Origin> Model for Place<O> {
    ghost use Rattle.std.specs.Prelude.{Option};
    ghost use Rattle.std.specs.Coded.{coded_option};
    ghost use Rattle.ioa_book.specs.Looks.{PlainSnapshot, plain_snapshot_code};

    ghost Value = { Option PlainSnapshot };

    ghost coded = { coded_option plain_snapshot_code };

    ghost view = { λ p. p.room.value };
}

impl<O: Origin> Place<O> {
    /// A place with no look in it.
    pub fn new(alloc: Global) -> Result<Self, AllocError>
        ensures { IfOk result (λ p. p ≡ None) }
    {
        let room = Box::new(alloc, None)?;
        Ok(Place { room })
    }

    /// Lets the look go that is there. It is called after faults alone, so it has a function of its own.
    #[inline(never)]
    pub(crate) fn clear(&mut self)
        ensures { self.new ≡ None }
    {
        *self.room = None;
    }

    /// The look that is there.
    pub fn look(&self) -> Option<&Snapshot<O>>
        ensures { option_copied result ≡ self.now }
    {
        self.room.as_ref().as_ref()
    }
}
