//! An output with all that was handed over to it.

ghost use Rattle.std.specs.Prelude.{◌≡◌, ◌++◌, [], false};
ghost use Rattle.ioa_paper.specs.Papers.{Ended, Sends, and_text};

use crate::handed::Handed;
use ioa_streams::{Out, OutFailed, put_all};
use std::marker::Model;
use std::snapshot::Snapshot;

/// An output with all that was handed over to it. Once writing failed, it takes what comes and lets it go.
pub struct Outlet<'a, O: Out> {
    out: &'a mut O,
    start: Snapshot<O>,
    handed: Handed,
    has_failed: bool,
}

impl<'a, O: Out> Model for Outlet<'a, O> {
    ghost use Rattle.ioa_paper.specs.Papers.{PlainPaper, IsOutlet};

    ghost Value = { PlainPaper };

    ghost view = { λ o. record { start = O.bytes o.start.value; text = o.handed; output = o.out.ghost_name } };

    ghost invariant = { λ o.
        IsOutlet (O.failed o.out.now) o.has_failed (O.bytes o.start.value) (O.bytes o.out.now) o.handed };
}

impl<'a, O: Out> Outlet<'a, O> {
    /// An output to which nothing was handed over.
    pub fn new(out: &'a mut O) -> Self
        requires { O.failed out.old ≡ false }
        ensures start { result.start ≡ O.bytes out.old }
        ensures text { result.text ≡ [] }
        ensures output { result.output ≡ out.entry.ghost_name }
    {
        let start = Snapshot::of(&*out);
        Outlet {
            out,
            start,
            handed: Handed::nothing(),
            has_failed: false,
        }
    }

    /// Hands bytes over. They go out if no writing has failed.
    #[tactic(auto, using(crate::proofs::Sent::goes_on))]
    pub fn hand_over(&mut self, bytes: &Vec<u8>)
        ensures { self.new ≡ and_text self.old bytes.now.items }
    {
        if bytes.is_empty() {
            return;
        }
        self.has_failed = send(self.out, self.has_failed, bytes);
        self.handed.add(bytes);
    }

    /// The output, and whether all of what was handed over went out.
    pub fn finish(self) -> (&'a mut O, Result<(), OutFailed>)
        ensures output { result.0.ghost_name ≡ self.entry.output }
        ensures sent { Ended self.entry.start (O.bytes result.0.now) (O.failed result.0.now) self.entry.text result.1 }
    {
        let Outlet {
            out,
            start: _,
            handed: _,
            has_failed,
        } = self;
        let outcome = if has_failed { Err(OutFailed) } else { Ok(()) };
        (out, outcome)
    }
}

/// Puts bytes out if no writing has failed; whether writing has failed then.
fn send<O: Out>(out: &mut O, has_failed: bool, bytes: &[u8]) -> bool
    requires { O.failed out.old ≡ has_failed }
    ensures failed { O.failed out.new ≡ result }
    ensures sends { Sends has_failed result (O.bytes out.old) (O.bytes out.new) bytes.now }
{
    has_failed || put_all(out, bytes).is_err()
}
