//! The endings of a worker's nodes.

ghost use Rattle.std.specs.Prelude.{◌≡◌, ◌<◌, [], ◌∷◌, ◌++◌, length};

use ioa_record::Ending;
use std::marker::Model;

/// The greatest number of nodes of a worker, which is that of a system.
pub const GREATEST_NODES: usize = 64;

/// The endings of a worker's nodes, in their order. They take no memory but this room, so that a worker can say how its
/// nodes ended even when there is none. A contract sees the list.
#[derive(Drop)]
pub struct Endings {
    all: [Ending; GREATEST_NODES],
    count: usize,
}

impl Model for Endings {
    ghost use Rattle.std.specs.Prelude.{◌≡◌, ◌≤◌, List, length, take};
    ghost use Rattle.ioa_record.specs.declared.ending.Ending.{Ending};

    ghost Value = { List Ending };

    ghost view = { λ e. take e.count e.all };

    ghost invariant = { λ e. (length e.all ≡ 64) × (e.count ≤ 64) };
}

impl Endings {
    /// No endings.
    pub fn new() -> Self
        ensures { result ≡ [] }
    {
        Endings {
            all: [Ending::Spent; GREATEST_NODES],
            count: 0,
        }
    }

    /// Puts an ending behind the others.
    pub fn push(&mut self, ending: Ending)
        requires { length self.old < GREATEST_NODES }
        ensures { self.new ≡ self.old ++ ending ∷ [] }
    {
        let count = self.count;
        prove!(count < GREATEST_NODES);
        self.all[count] = ending;
        self.count = count + 1;
    }

    /// The endings.
    pub fn as_slice(&self) -> &[Ending]
        ensures { result.now ≡ self.now }
    {
        &self.all[..self.count]
    }
}
