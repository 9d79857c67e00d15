//! A node of a worker.

ghost use Rattle.std.proofs.Props.{props};
ghost use Rattle.std.specs.Prelude.{◌≡◌, IfOk, true};
ghost use Rattle.ioa_turns.specs.NodeTurns.{progress_at, progress_of};
ghost use Rattle.ioa_solo.specs.Settled.{IsSettledIn};
ghost use Rattle.ioa_solo.specs.SettledProps.{IsSettledIn-prop};

use ioa_boards::Place;
use ioa_book::Rooms;
use ioa_sharing::Origin;
use ioa_system::Program;
use ioa_turns::Progress;
use std::alloc::{AllocError, Global};

/// A node of a worker: its number, how far it has come, the place of the last look at it, and room for its next
/// proposal. If it is settled on that look, an attempt on another one that shows the same does nothing, and need not be
/// made.
#[derive(Drop)]
pub(crate) struct Visited<'a, O: Origin> {
    pub(crate) number: i64,
    pub(crate) progress: Progress<'a>,
    pub(crate) look: Place<O>,
    pub(crate) rooms: Rooms<O>,
    pub(crate) is_settled: bool,
    ghost settled: { is_settled ≡ true → IsSettledIn (progress_of progress) look } by { Prim.hlevel (props, IsSettledIn-prop) },
}

impl<'a, O: Origin> Visited<'a, O> {
    ghost use Rattle.ioa_solo.specs.Visits.{progress_in};

    /// A node before its first visit, at which the worker has not looked.
    pub(crate) fn start(
        alloc: Global,
        program: &'a Program,
        attempts: u64,
    ) -> Result<Self, AllocError>
        ensures before { IfOk result (λ n. progress_in n ≡ progress_at attempts program.now) }
        ensures number { IfOk result (λ n. n.number ≡ program.now.node) }
    {
        let progress = Progress::start(alloc, program, attempts)?;
        let look = Place::new(alloc)?;
        Ok(Visited {
            number: program.node(),
            progress,
            look,
            rooms: Rooms::none(),
            is_settled: false,
        })
    }
}
