//! What a node does around its turns.

ghost use Rattle.std.specs.Prelude.{◌≡◌, IfOk, IsTrue, Some};
ghost use Rattle.ioa_schedules.specs.Turns.{IsAtFire};
ghost use Rattle.ioa_turns.specs.NodeTurns.{block_of, kept_in, past_fire, progress_at, progress_of};

use crate::progress::Progress;
use ioa_schedules::{Control, passed};
use ioa_system::Program;
use std::alloc::{AllocError, Global};

impl<'a> Progress<'a> {
    /// A node before a run: all of its block is to do, and it has all its attempts.
    pub fn start(
        alloc: Global,
        program: &'a Program,
        attempts: u64,
    ) -> Result<Progress<'a>, AllocError>
        ensures { IfOk result (λ p. progress_of p ≡ progress_at attempts program.now) }
    {
        let schedule = program.automaton().schedule();
        let control = Control::start(alloc, &schedule.statements, program.block())?;
        Ok(Progress {
            program,
            control,
            last: None,
            attempts,
            ending: None,
        })
    }

    /// The program of the node.
    pub fn program(&self) -> &'a Program
        ensures { result.now ≡ (progress_of self.now).program }
    {
        self.program
    }

    /// Moves the block past the `fire` at which it stands. Takes no memory.
    #[inline(always)]
    pub fn pass(&mut self)
        requires { IsAtFire (progress_of self.old).todo }
        ensures past { progress_of self.new ≡ past_fire (progress_of self.old) }
        ensures kept { kept_in self.new ≡ kept_in self.old }
    {
        passed(&mut self.control);
    }

    /// Whether the block is again what it was before its last turn, in which it took statements, as of
    /// [`Control::has_come_back`].
    pub fn has_come_back(&self) -> bool
        ensures { IsTrue result → kept_in self.now ≡ Some (block_of (progress_of self.now)) }
    {
        self.control.has_come_back()
    }
}
