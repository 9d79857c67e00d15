//! The log (profile). To a clause it is the list of its items. Inside it is a row of blocks of 64, all full but the
//! last, and only a push at a block's edge links another.
ghost use Rattle.core.specs.Prelude.{◌≡◌, ◌↔◌, ℕ, ◌+◌, ◌%◌, ◌^◌, ◌<◌, ◌≤◌, if◌then◌else◌, [], ◌∷◌, ◌++◌, length};
ghost use Rattle.core.specs.Prelude.{slice_get, OnOk, OnErr, IfOk, IfErr, IsErr, IsTrue};
ghost use Rattle.core.specs.List.{AllByRecursion};
ghost use Rattle.core.specs.Option.{option_copied};
ghost use Rattle.core.specs.Bool.{nat_eq};
ghost use Rattle.std_alloc.specs.Vec.{vec_len, vec_capacity};
ghost use Rattle.ioa_rawlog.specs.Blocks.{joined, IsFilled, IsLaid};
ghost use Rattle.std_collections.specs.Map.Iter.{ShowsInOrder, deref};

use crate::nodes::Nodes;
use crate::spare::{BLOCK, Spare};
use crate::walk::{BlocksLeft, Walk};
use std::alloc::Global;
use std::marker::Model;

/// A log of items. It takes no memory of its own accord: whoever pushes brings a spare where one is needed.
pub struct RawLog<T> {
    nodes: Nodes<Vec<T>, Global>,
    len: usize,
}

impl<T> Model for RawLog<T> {
    ghost use Rattle.core.specs.Prelude.{◌≡◌, List, length};
    ghost use Rattle.ioa_rawlog.specs.Blocks.{joined, IsLaid};

    ghost Value = { List T };

    ghost view = { λ l. joined l.nodes.items };

    ghost invariant = { λ l. IsLaid l.nodes.items × (l.len ≡ length (joined l.nodes.items)) };
}

impl<T> RawLog<T> {
    /// The empty log. It has no block.
    pub fn new() -> RawLog<T>
        ensures { result ≡ [] }
    {
        RawLog {
            nodes: Nodes::new(),
            len: 0,
        }
    }

    /// How many items it has, in constant time.
    #[inline(always)]
    pub fn len(&self) -> usize
        ensures { result ≡ length self.now }
    {
        self.len
    }

    /// Whether the next push needs a spare: the last block is full, or there is none.
    #[inline(always)]
    pub fn needs_spare(&self) -> bool
        ensures { IsTrue result ↔ (length self.now % 64 ≡ 0) }
    {
        self.len % BLOCK == 0
    }

    /// The item at `index`. It goes from block to block, so it costs `index / 64` steps: to read many, use `walk`.
    pub fn get(&self, index: usize) -> Option<&T>
        ensures { option_copied result ≡ slice_get self.now index }
    {
        if index >= self.len {
            return None;
        }
        let mut left = self.blocks();
        for _ in 0..index / BLOCK {
            left.next();
        }
        left.next()?.get(index % BLOCK)
    }

    /// The items in order, at a constant cost for each.
    pub fn walk(&self) -> Walk<'_, T>
        ensures rest { result ≡ self.now }
        ensures runs { ShowsInOrder (deref {X = T}) }
        ensures fits { length self.now < 2 ^ 64 }
    {
        // It is a number of 64 bits, which `fits` tells.
        let _len = self.len;
        Walk::over(self.blocks())
    }

    /// Appends the item. Where the last block is full, or there is none, it links the spare; without one it is refused,
    /// and the item comes back. A spare that it does not need comes back. It takes no memory.
    #[inline(always)]
    pub fn push(
        &mut self,
        item: T,
        spare: Option<Spare<T>>,
    ) -> Result<Option<Spare<T>>, (T, Option<Spare<T>>)>
        requires { length self.old + 1 < 2 ^ 64 }
        ensures appended { OnOk result (self.new ≡ self.old ++ item ∷ []) }
        ensures kept { OnErr result (self.new ≡ self.old) }

        // Refused exactly if a block is needed and no spare came.
        ensures refused { IsErr result ↔ ((length self.old % 64 ≡ 0) × (spare ≡ None)) }
        ensures back { IfErr result (λ r. r ≡ (item, None)) }

        // The spare is linked exactly if a block is needed.
        ensures unused { IfOk result (λ s. s ≡ (if nat_eq (length self.old % 64) 0 then None else spare)) }
    {
        if !self.needs_spare() {
            self.fill_last(item);
            return Ok(spare);
        }
        let Some(spare) = spare else {
            return Err((item, None));
        };
        self.link(item, spare);
        Ok(None)
    }

    /// Appends to the last block, which has room.
    #[inline(always)]
    fn fill_last(&mut self, item: T)
        requires room { 0 < length self.old % 64 }
        requires fits { length self.old + 1 < 2 ^ 64 }
        ensures { self.new ≡ self.old ++ item ∷ [] }
    {
        fill(self.nodes.last_mut(), item);
        self.len += 1;
    }

    /// Appends in a block of its own.
    #[inline(never)]
    fn link(&mut self, item: T, spare: Spare<T>)
        requires full { length self.old % 64 ≡ 0 }
        requires fits { length self.old + 1 < 2 ^ 64 }
        ensures { self.new ≡ self.old ++ item ∷ [] }
    {
        let (mut block, room) = spare.into_parts();
        fill(&mut block, item);
        self.nodes.link(room, block, self.len == 0);
        self.len += 1;
    }

    /// Its blocks in order.
    fn blocks(&self) -> BlocksLeft<'_, Vec<T>>
        ensures laid { IsLaid result }
        ensures filled { AllByRecursion IsFilled result }
        ensures whole { joined result ≡ self.now }
    {
        BlocksLeft::all(&self.nodes, self.len.div_ceil(BLOCK))
    }
}

impl<T: Drop> Drop for RawLog<T> {
    fn drop(self) {
        let RawLog { mut nodes, len } = self;
        for _ in 0..len.div_ceil(BLOCK) {
            let (block, room) = nodes.unlink_first();
            room.free();
            drop(block);
        }
        drop(nodes);
    }
}

/// Appends to a block that has room.
fn fill<T>(block: &mut Vec<T>, item: T)
    requires { vec_len block.old < vec_capacity block.old }
    ensures items { block.new.items ≡ block.old.items ++ item ∷ [] }
    ensures room { vec_capacity block.old ≤ vec_capacity block.new }
{
    match block.push(item) {
        Ok(()) => {}
        Err(_) => unreachable!(),
    }
}
