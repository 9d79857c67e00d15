//! Nodes on their way through a run once more.

use crate::fault::TellFault;
use ioa_book::{Book, Snapshot};
use ioa_record::Ending;
use ioa_sharing::Origin;
use ioa_system::Program;
use ioa_turns::Progress;
use std::alloc::Global;

/// What is recorded of how a run ended: after how many actions, and how each node ended.
#[derive(Clone, Copy)]
pub(crate) struct Recorded<'a> {
    pub(crate) length: usize,
    pub(crate) endings: &'a [Ending],
}

/// A node: how far it has come, and the last look at it.
#[derive(Drop)]
pub(crate) struct Visited<'a, O: Origin> {
    pub(crate) progress: Progress<'a>,
    pub(crate) look: Box<Snapshot<O>>,
}

impl<'a, O: Origin> Visited<'a, O> {
    ghost use Rattle.std.specs.Prelude.{◌≡◌, IfOk};
    ghost use Rattle.ioa_turns.specs.NodeTurns.{progress_at};
    ghost use Rattle.ioa_tell.specs.Nodes.{progress_in};

    /// A node before its first visit.
    pub(crate) fn start(
        alloc: Global,
        book: &Book<O>,
        program: &'a Program,
        attempts: u64,
    ) -> Result<Self, TellFault>
        ensures { IfOk result (λ n. progress_in n ≡ progress_at attempts program.now) }
    {
        let progress = Progress::start(alloc, program, attempts)?;
        let look = book.look(alloc, program.node())?;
        Ok(Visited {
            progress,
            look: Box::new(alloc, look)?,
        })
    }
}
