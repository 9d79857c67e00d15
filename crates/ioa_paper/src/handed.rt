//! What was handed over so far, which only proofs read.

ghost use Rattle.std.specs.Prelude.{◌≡◌, ◌++◌, ◌<◌, [], length};

use std::marker::Model;
use std::snapshot::Snapshot;

/// All that was handed over so far. A contract sees it as one text, and none of it is kept in memory.
#[cycle(handed)]
#[derive(Drop)]
pub struct Handed {
    part: Part,
}

/// Nothing, or what was handed over before and what came last.
#[cycle(handed)]
#[derive(Drop)]
enum Part {
    /// Nothing.
    Nothing,
    /// What was handed over before, and what came last.
    More(Snapshot<Handed>, Snapshot<Vec<u8>>),
}

impl Model for Handed {
    ghost use Rattle.std.specs.Prelude.{List, ℕ, length};

    ghost Value = { List ℕ };

    ghost use Rattle.ioa_paper.specs.Handed.{part_text, IsPart};

    ghost view = { λ h. part_text h.part };

    ghost invariant = { λ h. IsPart h.part };

    ghost size = { length };

    ghost use Rattle.std.proofs.Common.{arith, length-append};

    ghost size_decreases = { λ a h. Prim.grind (arith, length-append) };
}

impl Handed {
    /// Nothing.
    pub fn nothing() -> Handed
        ensures { result ≡ [] }
    {
        Handed {
            part: Part::Nothing,
        }
    }

    /// Adds what comes last.
    pub fn add(&mut self, last: &Vec<u8>)
        requires { 0 < length last.now.items }
        ensures { self.new ≡ self.old ++ last.now.items }
    {
        let handed = self.and(last);
        *self = handed;
    }

    /// All of it, and then what comes last.
    fn and(&self, last: &Vec<u8>) -> Handed
        requires { 0 < length last.now.items }
        ensures { result ≡ self.now ++ last.now.items }
    {
        Handed {
            part: Part::More(Snapshot::of(self), Snapshot::of(last)),
        }
    }
}
