//! Outputs: the trait [`Out`], and a writer of the standard library as one.

ghost use Rattle.std.specs.Prelude.{◌≡◌, ◌≤◌, ◌||◌, ℕ, Bool, true, false, List, length, IfOk, OnOk, OnErr, Option};
ghost use Rattle.std.specs.Io.KnownBytes.{Appends, WriteAppends};
ghost use Rattle.ioa_streams.specs.Output.{is_stuck, AppendsBeginning};

use std::fmt;
use std::io::Write;
use thiserror::Error;

/// A fault of an [`Out`]: nothing of the piece went out. The program then refuses with `Write` (71).
#[derive(Clone, Copy, Debug, PartialEq, Eq, Error)]
pub struct OutFailed;

impl fmt::Display for OutFailed {
    ghost use Rattle.std.specs.Prelude.{Some, codes};

    ghost output = { λ _. Some (codes "the output took nothing more") };

    fn fmt<W: fmt::Write>(&self, f: &mut fmt::Formatter<W>) -> fmt::Result {
        write!(f, "the output took nothing more")
    }
}

/// An output that takes a text piece by piece, and that knows whether it ever failed.
///
/// A contract sees two things of it. `bytes` is what went out so far, if that is known: of standard output nothing is
/// known. `failed` says whether a `put` of a piece that was not empty ever failed or took nothing.
pub trait Out {
    ghost bytes: { Self → Option (List ℕ) };

    ghost failed: { Self → Bool };

    /// Puts out a beginning of the piece: its first `n` bytes at `Ok(n)`, none of them at a fault.
    fn put(&mut self, chunk: &[u8]) -> Result<usize, OutFailed>
        ensures within { IfOk result (λ n. n ≤ length chunk.now) }
        ensures bytes { WriteAppends (bytes self.old) (bytes self.new) result chunk.now }
        ensures failed { failed self.new ≡ (failed self.old || is_stuck chunk.now result) };
}

/// A writer of the standard library as an [`Out`]. An interrupted write counts as a fault, and is not tried again.
#[derive(Drop)]
pub struct Over<W> {
    writer: W,
    stuck: bool,
}

impl<W: Write> Over<W> {
    /// An `Out` that has not failed yet.
    pub fn new(writer: W) -> Self
        ensures bytes { ⟦<Over<W> as Out>⟧.bytes result ≡ W.contents writer }
        ensures failed { ⟦<Over<W> as Out>⟧.failed result ≡ false }
    {
        Over {
            writer,
            stuck: false,
        }
    }

    /// Whether a `put` of a piece that was not empty ever failed or took nothing.
    pub fn has_failed(&self) -> bool
        ensures { result ≡ ⟦<Over<W> as Out>⟧.failed self.now }
    {
        self.stuck
    }

    /// The writer, with what went out.
    pub fn into_writer(self) -> W
        ensures { W.contents result ≡ ⟦<Over<W> as Out>⟧.bytes self }
    {
        self.writer
    }
}

impl<W: Write> Out for Over<W> {
    ghost bytes = { λ o. W.contents o.writer };

    ghost failed = { λ o. o.stuck };

    fn put(&mut self, chunk: &[u8]) -> Result<usize, OutFailed> {
        match self.writer.write(chunk) {
            Ok(count) => {
                self.stuck |= count == 0 && !chunk.is_empty();
                Ok(count)
            }
            Err(_) => {
                self.stuck |= !chunk.is_empty();
                Err(OutFailed)
            }
        }
    }
}

/// Puts out a whole text, piece by piece. After a fault a beginning of the text went out, and the `Out` says that it
/// failed. A piece of which nothing was taken is a fault.
pub fn put_all<O: Out>(out: &mut O, text: &[u8]) -> Result<(), OutFailed>
    requires { O.failed out.old ≡ false }
    ensures whole { OnOk result (Appends (O.bytes out.old) (O.bytes out.new) text.now) }
    ensures well { OnOk result (O.failed out.new ≡ false) }
    ensures beginning { OnErr result (AppendsBeginning (O.bytes out.old) (O.bytes out.new) text.now) }
    ensures failed { OnErr result (O.failed out.new ≡ true) }
{
    let mut sent = 0;
    while sent < text.len() {
        let count = out.put(&text[sent..])?;
        if count == 0 {
            return Err(OutFailed);
        }
        sent += count;
    }
    Ok(())
}
