//! How far a node has come.

ghost use Rattle.std.proofs.Props.{props};
ghost use Rattle.std.specs.Option.{option_map};
ghost use Rattle.ioa_schedules.specs.Controls.{todo_of, values_of};
ghost use Rattle.ioa_turns.specs.LastFired.{IsFiredBy, IsFiredBy-prop, last_of};
ghost use Rattle.ioa_turns.specs.NumberedProps.{AreNumbered-prop};
ghost use Rattle.ioa_turns.specs.Ready.{IsReady};
ghost use Rattle.ioa_turns.specs.ResolvedProps.{AreAllResolved-prop};

use ioa_record::Ending;
use ioa_schedules::Control;
use ioa_system::Program;
use ioa_transitions::Entry;

/// The entry of an action that a node has fired, and the number of its rule.
#[derive(Drop)]
pub(crate) struct LastFired {
    pub rule: usize,
    pub entry: Entry,
}

/// How far a node has come: where its block stands, how many attempts the node has left, and how it ended, if it did.
/// The entry of the last firing is kept, so that one which is fired again is not built again.
#[derive(Drop)]
pub struct Progress<'a> {
    pub(crate) program: &'a Program,
    pub(crate) control: Control<'a>,
    pub(crate) last: Option<LastFired>,
    /// How many attempts are left. Whoever visits the node counts them.
    pub attempts: u64,
    /// How the node ended, if it did.
    pub ending: Option<Ending>,
    ghost ready: { IsReady program.now (todo_of control) (values_of control) } by { Prim.hlevel (props, AreAllResolved-prop, AreNumbered-prop) },
    ghost fired: { IsFiredBy program.now (option_map last_of last) } by { Prim.hlevel (props, IsFiredBy-prop) },
}
