//! The block of a node, gone through statement by statement.

ghost use Rattle.std.proofs.Props.{props};
ghost use Rattle.std.specs.Prelude.{◌≡◌, is_some, length};
ghost use Rattle.ioa_system.specs.Parts.{message_shape};
ghost use Rattle.ioa_schedules.specs.Steppings.{own_in, to_do_in};
ghost use Rattle.ioa_turns.specs.Ready.{IsSteppable};
ghost use Rattle.ioa_turns.specs.ResolvedProps.{AreAllResolved-prop};

use ioa_schedules::Stepping;
use ioa_system::Program;
use ioa_terms::Inbox;
use ioa_transitions::NodeConf;

/// A copy of the block of a node, of which one statement is taken at a time on what a look has read. The node itself
/// stays as it is. It is for whoever wants to know at which statement a turn meets a fault.
#[derive(Drop)]
pub struct BlockSteps<'a> {
    pub(crate) program: &'a Program,
    pub(crate) conf: &'a NodeConf,
    pub(crate) inboxes: Option<Vec<Inbox<'a>>>,
    pub(crate) stepping: Stepping<'a>,
    ghost shown: { length conf.now.variables ≡ length program.now.automaton.variables },
    ghost seen: { is_some inboxes ≡ is_some (message_shape program.now.automaton.rules) },
    ghost ready: { IsSteppable program.now (to_do_in stepping) (own_in stepping) } by { Prim.hlevel (props, AreAllResolved-prop) },
}
