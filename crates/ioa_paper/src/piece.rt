//! Short pieces of a text, made from their ends.

ghost use Rattle.std.specs.Prelude.{◌≡◌, ◌+◌, ◌-◌, ◌++◌, ◌≤◌, [], length, take, drop};
ghost use Rattle.std.specs.Fmt.{decimal, signed_decimal};
ghost use Rattle.std.specs.Vec.{vec_capacity, vec_len};

use itoa::write_digits;
use std::marker::Model;

/// How long a piece is at most.
pub const LENGTH: usize = 96;

/// A short piece of a text, made from its end: what is added stands in front of what is there. The piece ends in the
/// middle of its bytes, so as many of them as the longest piece has can be copied at once, whatever stands behind it.
#[derive(Drop)]
pub struct Piece {
    bytes: [u8; 2 * LENGTH],
    start: usize,
}

impl Model for Piece {
    ghost use Rattle.std.specs.Prelude.{◌≤◌, List, ℕ};
    ghost use Rattle.ioa_paper.specs.Pieces.{piece_text};
    ghost use Rattle.ioa_paper.specs.declared.piece.TheConstants.{LENGTH};

    ghost Value = { List ℕ };

    ghost view = { λ p. piece_text p.start p.bytes };

    ghost invariant = { λ p. p.start ≤ LENGTH };
}

impl Piece {
    /// An empty piece.
    #[inline(always)]
    pub fn new() -> Piece
        ensures { result ≡ [] }
    {
        Piece {
            bytes: [0; 2 * LENGTH],
            start: LENGTH,
        }
    }

    /// Adds a part for which there is room.
    #[inline(always)]
    pub fn add(&mut self, part: &str)
        requires { length part.now + length self.old ≤ LENGTH }
        ensures { self.new ≡ part.now ++ self.old }
    {
        self.start = write_before(part.as_bytes(), &mut self.bytes, self.start);
    }

    /// Adds a number that has no sign.
    #[inline(always)]
    pub fn add_count(&mut self, n: usize)
        requires { 20 + length self.old ≤ LENGTH }
        ensures text { self.new ≡ decimal n ++ self.old }
        ensures short { length (decimal n) ≤ 20 }
    {
        self.add_digits(n as u64);
    }

    /// Adds a number.
    #[inline(always)]
    pub fn add_number(&mut self, n: i64)
        requires { 20 + length self.old ≤ LENGTH }
        ensures text { self.new ≡ signed_decimal n ++ self.old }
        ensures short { length (signed_decimal n) ≤ 20 }
    {
        self.add_digits(n.unsigned_abs());
        if n < 0 {
            self.add("-");
        }
    }

    /// Adds digits for which there is room.
    #[inline(always)]
    #[tactic(auto, using(crate::proofs::Pieces::added))]
    fn add_digits(&mut self, n: u64)
        requires { length (decimal n) + length self.old ≤ LENGTH }
        ensures { self.new ≡ decimal n ++ self.old }
    {
        self.start = write_digits(n, &mut self.bytes, self.start);
    }

    /// Appends the piece to bytes that have room for the longest one.
    #[inline(always)]
    #[tactic(auto, using(crate::proofs::Pieces::cut))]
    pub fn append_to(&self, buffer: &mut Vec<u8>)
        requires { vec_len buffer.old + LENGTH ≤ vec_capacity buffer.old }
        ensures items { buffer.new.items ≡ buffer.old.items ++ self.now }
        ensures room { vec_capacity buffer.old ≤ vec_capacity buffer.new }
    {
        let end = buffer.len() + (LENGTH - self.start);
        let Ok(()) = buffer.extend_from_slice(&self.bytes[self.start..self.start + LENGTH]) else {
            unreachable!()
        };
        buffer.truncate(end);
    }

    /// The bytes of the piece.
    pub fn as_bytes(&self) -> &[u8]
        ensures { result.now ≡ self.now }
    {
        &self.bytes[self.start..LENGTH]
    }
}

/// Writes a part so that it ends at `end`, and returns where it starts.
#[inline(always)]
fn write_before(part: &[u8], bytes: &mut [u8], end: usize) -> usize
    requires { (length part.now ≤ end) × (end ≤ length bytes.old) }
    ensures start { result + length part.now ≡ end }
    ensures written { drop result bytes.new ≡ part.now ++ drop end bytes.old }
    ensures len { length bytes.new ≡ length bytes.old }
{
    let start = end - part.len();
    bytes[start..end].copy_from_slice(part);
    start
}
