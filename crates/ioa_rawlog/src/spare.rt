//! A block that waits to be linked (profile). To a clause all spares are one value, so `spare ≡ None` says whether one
//! is there. The only function of the crate that asks for memory is here.
use crate::nodes::Node;
use std::alloc::{AllocError, Global};
use std::marker::Model;
use std_alloc::room::Vacant;

/// Items in a block.
pub(crate) const BLOCK: usize = 64;

/// Room for one more block of a log: for its items, and for the node that links it.
pub struct Spare<T> {
    block: Vec<T>,
    room: Vacant<Node<Vec<T>, Global>, Global>,
}

impl<T> Model for Spare<T> {
    ghost use Rattle.core.specs.Prelude.{◌≡◌, ◌≤◌, []};
    ghost use Rattle.std_alloc.specs.Vec.{vec_capacity};

    ghost Value = { Unit {0} };

    ghost view = { λ _. tt };

    ghost invariant = { λ s. (s.block.items ≡ []) × (64 ≤ vec_capacity s.block) };
}

impl<T> Spare<T> {
    ghost use Rattle.core.specs.Prelude.{◌≡◌, ◌≤◌, []};
    ghost use Rattle.std_alloc.specs.Vec.{vec_capacity};

    /// Asks for memory twice: for the node, and for its 64 items. Where the second is refused, the first is given back.
    pub fn make(alloc: Global) -> Result<Spare<T>, AllocError> {
        let Ok(room) = Vacant::take(alloc) else {
            return Err(AllocError);
        };
        match Vec::with_capacity(alloc, BLOCK) {
            Ok(block) => Ok(Spare { block, room }),
            Err(refused) => {
                room.free();
                Err(refused)
            }
        }
    }

    /// Gives the memory back. A `T` that can be dropped needs no call of it.
    pub fn free(self) {
        let (block, room) = self.into_parts();
        room.free();
        block.destroy_empty();
    }

    pub(crate) fn into_parts(self) -> (Vec<T>, Vacant<Node<Vec<T>, Global>, Global>)
        ensures empty { result.0.items ≡ [] }
        ensures roomy { 64 ≤ vec_capacity result.0 }
    {
        let Spare { block, room } = self;
        (block, room)
    }
}

impl<T: Drop> Drop for Spare<T> {
    fn drop(self) {
        self.free();
    }
}
