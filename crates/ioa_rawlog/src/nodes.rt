//! Nodes that lie in blocks of their own, each with a pointer to the next. Only this module follows raw pointers. What
//! is said here is form, with no law of automata and no rule of the profile: beside its two pointers a row owns every
//! node (`also_owns`), and a `&` to it holds a `&` to every item and every pointer (`also_shares`).
ghost use Rattle.core.specs.Prelude.{◌≡◌, List, length};
ghost use Rattle.ioa_rawlog.specs.Links.{Link, links_of, IsChained};
ghost use Rattle.ioa_rawlog.specs.Ownership.{nodes_own, nodes_lent};

use core::alloc::Allocator;
use core::marker::{Model, Send, Sync};

mod ends;
mod reads;

/// One item, the handle that frees its block, and where the next node lies. Of the last node `next` means nothing.
pub struct Node<T, A> {
    next: *const Node<T, A>,
    item: T,
    alloc: A,
}

/// A row of nodes. `frames` says of each node where it lies, its `next` and its handle. Where there is none, `first`
/// and `last` mean nothing.
pub struct Nodes<T, A: Allocator> {
    first: *const Node<T, A>,
    last: *const Node<T, A>,
    ghost items: { List T },
    ghost frames: { List (Link × A) },
    ghost matched: { length items ≡ length frames },
    ghost chained: { ∥ IsChained first last (links_of frames) ∥₁ },
}

impl<T, A: Allocator> Model for Nodes<T, A> {
    ghost also_owns = { λ n. nodes_own T.row A.row A.dealloc_token n.frames n.items };

    ghost also_shares = { λ n _ κ. nodes_lent T.row (links_of n.frames) n.items κ };
}

/// It frees nothing: whoever holds nodes takes each of them out before.
impl<T, A: Allocator> Drop for Nodes<T, A> {
    fn drop(self) {
        let Nodes { first: _, last: _ } = self;
    }
}

unsafe impl<T: Send, A: Allocator + Send> Send for Nodes<T, A> {}

unsafe impl<T: Sync, A: Allocator> Sync for Nodes<T, A> {}

/// Where a node lies. It owns nothing.
#[derive(Clone, Copy)]
pub struct Place {
    pointer: *const u8,
}

unsafe impl Send for Place {}

unsafe impl Sync for Place {}
