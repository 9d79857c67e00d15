//! What changes a row of nodes: a node is linked in, taken out, or its item is lent to be written.
ghost use types.Logic.{sem};
ghost use Rattle.core.specs.Prelude.{◌≡◌, ◌↔◌, ◌-◌, ◌<◌, [], ◌∷◌, ◌++◌, length, slice_index_or, IsTrue};
ghost use Rattle.ioa_rawlog.specs.Lending.{last_follows};

use super::{Node, Nodes};
use core::alloc::Allocator;
use std_alloc::room::Vacant;

impl<T, A: Allocator> Nodes<T, A> {
    /// A row of no node. It takes no memory.
    pub(crate) fn new() -> Nodes<T, A>
        ensures { result.items ≡ [] }
    {
        let none: [u8; 0] = [];
        let nowhere = &raw const none as *const Node<T, A>;
        Nodes {
            first: nowhere,
            last: nowhere,
        }
    }

    /// A node behind the last, if there is one.
    pub(crate) fn link(&mut self, room: Vacant<Node<T, A>, A>, item: T, is_first: bool)
        requires { IsTrue is_first ↔ (self.old.items ≡ []) }
        ensures { self.new.items ≡ self.old.items ++ item ∷ [] }
    {
        if is_first {
            self.link_first(room, item)
        } else {
            self.link_last(room, item)
        }
    }

    /// The one node of a row that had none.
    fn link_first(&mut self, room: Vacant<Node<T, A>, A>, item: T)
        requires { self.old.items ≡ [] }
        ensures { self.new.items ≡ item ∷ [] }
    {
        let Vacant { ptr, alloc } = room;
        unsafe {
            ptr.write(Node {
                next: ptr,
                item,
                alloc,
            });
        }
        self.first = ptr;
        self.last = ptr;
    }

    /// A node behind the last.
    fn link_last(&mut self, room: Vacant<Node<T, A>, A>, item: T)
        requires { 0 < length self.old.items }
        ensures { self.new.items ≡ self.old.items ++ item ∷ [] }
    {
        let Vacant { ptr, alloc } = room;
        let last = self.last.cast_mut();
        unsafe {
            ptr.write(Node {
                next: ptr,
                item,
                alloc,
            });
            (*last).next = ptr;
        }
        self.last = ptr;
    }

    /// Takes the first node out: its item, and the room in which it lay.
    pub(crate) fn unlink_first(&mut self) -> (T, Vacant<Node<T, A>, A>)
        requires { 0 < length self.old.items }
        ensures { self.old.items ≡ result.0 ∷ self.new.items }
    {
        let ptr = self.first.cast_mut();
        unsafe {
            self.first = (*ptr).next;
            let item = (&raw const (*ptr).item).read();
            let alloc = (&raw const (*ptr).alloc).read();
            (item, Vacant { ptr, alloc })
        }
    }

    /// The item of the last node.
    pub(crate) fn last_mut(&mut self) -> &mut T
        requires { 0 < length self.old.items }
        ensures* writes_back { sem 𝓛 (last_follows T.row A.row A.Allocator self.entry result) }
        ensures value { result.now ≡ slice_index_or self.old.items (length self.old.items - 1) result.now }
    {
        unsafe { &mut (*self.last.cast_mut()).item }
    }
}
