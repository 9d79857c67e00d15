//! What is read of a row of nodes behind a `&`. `index` is the place in the row of the node that lies at `at`; only the
//! proofs need it.
ghost use Rattle.core.specs.Prelude.{◌≡◌, ◌+◌, ◌<◌, length, slice_index_or};
ghost use Rattle.ioa_rawlog.specs.Places.{IsAt};

use super::{Node, Nodes, Place};
use core::alloc::Allocator;

impl<T, A: Allocator> Nodes<T, A> {
    /// Where the first node lies, if there is one.
    pub(crate) fn first(&self) -> Place
        ensures { 0 < length self.now.items → IsAt self.now 0 result }
    {
        Place {
            pointer: self.first as *const u8,
        }
    }

    /// Where the node behind the one at `at` lies, if there is one.
    pub(crate) fn next(&self, at: Place, index: usize) -> Place
        requires { IsAt self.now index at }
        ensures { index + 1 < length self.now.items → IsAt self.now (index + 1) result }
    {
        let node = at.pointer as *const Node<T, A>;
        Place {
            pointer: unsafe { (*node).next } as *const u8,
        }
    }

    /// The item of the node at `at`.
    pub(crate) fn item(&self, at: Place, index: usize) -> &T
        requires { IsAt self.now index at }
        ensures { result.now ≡ slice_index_or self.now.items index result.now }
    {
        let node = at.pointer as *const Node<T, A>;
        unsafe { &(*node).item }
    }
}
