//! Walks over a log, block by block and item by item (profile). To a clause each is the list of what it has left.
ghost use Rattle.core.specs.Prelude.{◌≡◌, ◌≤◌, ◌<◌, ◌^◌, length};
ghost use Rattle.core.specs.Iterator.{at_most};
ghost use Rattle.core.specs.List.{AllByRecursion};
ghost use Rattle.std_collections.specs.Map.Iter.{TakesFirst, deref};
ghost use Rattle.ioa_rawlog.specs.Blocks.{joined, IsFilled};

use crate::nodes::{Nodes, Place};
use std::alloc::Global;
use std::marker::Model;

/// The nodes from `from` up to `end`, which is their number. The first of them lies at `at`.
#[derive(Drop)]
pub struct BlocksLeft<'a, B> {
    nodes: &'a Nodes<B, Global>,
    at: Place,
    from: usize,
    end: usize,
}

impl<'a, B> Model for BlocksLeft<'a, B> {
    ghost use Rattle.core.specs.Prelude.{List, drop};
    ghost use Rattle.ioa_rawlog.specs.Places.{HasComeTo};

    ghost Value = { List B };

    ghost view = { λ l. drop l.from l.nodes.now.items };

    ghost invariant = { λ l. HasComeTo l.nodes.now l.from l.end l.at };
}

impl<'a, B> BlocksLeft<'a, B> {
    /// All of them.
    pub(crate) fn all(nodes: &'a Nodes<B, Global>, end: usize) -> BlocksLeft<'a, B>
        requires { end ≡ length nodes.now.items }
        ensures { result ≡ nodes.now.items }
    {
        BlocksLeft {
            nodes,
            at: nodes.first(),
            from: 0,
            end,
        }
    }

    /// The next one, in constant time.
    pub(crate) fn next(&mut self) -> Option<&'a B>
        ensures { TakesFirst deref self.old result self.new }
    {
        if self.from == self.end {
            return None;
        }
        let (nodes, at, index) = (self.nodes, self.at, self.from);
        self.at = nodes.next(at, index);
        self.from = index + 1;
        Some(nodes.item(at, index))
    }
}

/// The items of a log that are left to be seen: of a block, and then of the blocks behind it.
#[derive(Drop)]
pub struct Walk<'a, T> {
    block: &'a [T],
    blocks: BlocksLeft<'a, Vec<T>>,
}

impl<'a, T> Model for Walk<'a, T> {
    ghost use Rattle.core.specs.Prelude.{List, ◌++◌};
    ghost use Rattle.core.specs.List.{AllByRecursion};
    ghost use Rattle.ioa_rawlog.specs.Blocks.{joined, IsFilled};

    ghost Value = { List T };

    ghost view = { λ w. w.block.now ++ joined w.blocks };

    // So one look into the next block finds an item.
    ghost invariant = { λ w. AllByRecursion IsFilled w.blocks };
}

impl<'a, T> Walk<'a, T> {
    pub(crate) fn over(blocks: BlocksLeft<'a, Vec<T>>) -> Walk<'a, T>
        requires { AllByRecursion IsFilled blocks }
        ensures { result ≡ joined blocks.entry }
    {
        Walk { block: &[], blocks }
    }
}

impl<'a, T> Iterator for Walk<'a, T> {
    type Item = &'a T;

    ghost next_gives = { TakesFirst deref };

    ghost remaining = { λ s. at_most (length s) };

    fn next(&mut self) -> Option<&'a T> {
        let block = self.block;
        let (item, rest) = match block.split_first() {
            Some(parts) => parts,
            None => self.blocks.next()?.split_first()?,
        };
        self.block = rest;
        Some(item)
    }
}
