//! A text on its way to an output.

ghost use Rattle.std.specs.Prelude.{◌≡◌, ◌+◌, ◌++◌, ◌≤◌, ◌<◌, [], codes, false, IfOk, take, length};
ghost use Rattle.std.specs.Vec.{vec_capacity, vec_len};
ghost use Rattle.ioa_paper.specs.Papers.{Ended, and_text};

use crate::outlet::Outlet;
use crate::piece::{LENGTH, Piece};
use ioa_streams::{Out, OutFailed};
use itoa::{Buffer, Integer};
use std::alloc::{AllocError, Global};
use std::marker::Model;

/// How many bytes a paper holds back at most.
const ROOM: usize = 65_536;

/// A text on its way to an output. A contract sees all that was written on it, whether or not it went out: once writing
/// failed, what follows goes nowhere, and `finish` tells. So what writes on a paper meets no fault.
pub struct Paper<'a, O: Out> {
    outlet: Outlet<'a, O>,
    buffer: Vec<u8>,
}

impl<'a, O: Out> Model for Paper<'a, O> {
    ghost use Rattle.std.specs.Prelude.{◌<◌, vec_capacity};
    ghost use Rattle.ioa_paper.specs.Papers.{PlainPaper, and_text};

    ghost Value = { PlainPaper };

    ghost view = { λ p. and_text p.outlet p.buffer.items };

    ghost invariant = { λ p. 0 < vec_capacity p.buffer };
}

impl<'a, O: Out> Paper<'a, O> {
    /// A paper with no text, which holds back as many bytes as there is room for.
    pub fn new(out: &'a mut O, room: Vec<u8>) -> Self
        requires well { O.failed out.old ≡ false }
        requires empty { room.items ≡ [] }
        requires room { 0 < vec_capacity room }
        ensures start { result.start ≡ O.bytes out.old }
        ensures text { result.text ≡ [] }
        ensures output { result.output ≡ out.entry.ghost_name }
    {
        Paper {
            outlet: Outlet::new(out),
            buffer: room,
        }
    }

    /// Writes a piece of the text.
    #[inline(always)]
    pub fn put(&mut self, piece: &str)
        ensures { self.new ≡ and_text self.old piece.now }
    {
        let piece = piece.as_bytes();
        if piece.len() <= self.buffer.capacity() - self.buffer.len() {
            append(&mut self.buffer, piece);
        } else {
            self.put_long(piece);
        }
    }

    /// Writes a short piece of the text.
    #[inline(always)]
    pub fn put_piece(&mut self, piece: &Piece)
        ensures { self.new ≡ and_text self.old piece.now }
    {
        if LENGTH <= self.buffer.capacity() - self.buffer.len() {
            piece.append_to(&mut self.buffer);
        } else {
            self.put_long(piece.as_bytes());
        }
    }

    /// Writes a number.
    pub fn put_number<N: Integer>(&mut self, n: N)
        ensures { self.new ≡ and_text self.old (N.text n) }
    {
        let mut digits = Buffer::new();
        self.put(digits.format(n));
    }

    /// Writes a word, a number, and the end of the line.
    pub fn put_line<N: Integer>(&mut self, word: &str, n: N)
        ensures { self.new ≡ and_text self.old (word.now ++ (N.text n ++ codes "\n")) }
    {
        self.put(word);
        self.put_number(n);
        self.put("\n");
    }

    /// Sends what is held back. The output comes back, and whether all of the text went out.
    pub fn finish(self) -> (&'a mut O, Result<(), OutFailed>)
        ensures output { result.0.ghost_name ≡ self.entry.output }
        ensures sent { Ended self.entry.start (O.bytes result.0.now) (O.failed result.0.now) self.entry.text result.1 }
    {
        let Paper { mut outlet, buffer } = self;
        outlet.hand_over(&buffer);
        outlet.finish()
    }

    /// Writes a piece of the text for which there is no room.
    #[inline(never)]
    fn put_long(&mut self, piece: &[u8])
        ensures { self.new ≡ and_text self.old piece.now }
    {
        let mut taken = 0;
        while taken < piece.len() {
            taken += self.put_some(&piece[taken..]);
        }
    }

    /// Writes the beginning of a piece, as much as there is room for.
    fn put_some(&mut self, piece: &[u8]) -> usize
        requires { 0 < length piece.now }
        ensures some { 0 < result }
        ensures within { result ≤ length piece.now }
        ensures text { self.new ≡ and_text self.old (take result piece.now) }
    {
        self.outlet.hand_over(&self.buffer);
        self.buffer.clear();
        let count = piece.len().min(self.buffer.capacity());
        append(&mut self.buffer, &piece[..count]);
        count
    }
}

/// Room for the bytes that a paper holds back: all the memory that a paper takes.
pub fn room(alloc: Global) -> Result<Vec<u8>, AllocError>
    ensures empty { IfOk result (λ v. v.items ≡ []) }
    ensures room { IfOk result (λ v. 0 < vec_capacity v) }
{
    Vec::with_capacity(alloc, ROOM)
}

/// Appends bytes for which there is room.
#[inline(always)]
fn append(buffer: &mut Vec<u8>, bytes: &[u8])
    requires { vec_len buffer.old + length bytes.now ≤ vec_capacity buffer.old }
    ensures items { buffer.new.items ≡ buffer.old.items ++ bytes.now }
    ensures room { vec_capacity buffer.old ≤ vec_capacity buffer.new }
{
    let Ok(()) = buffer.extend_from_slice(bytes) else {
        unreachable!()
    };
}
