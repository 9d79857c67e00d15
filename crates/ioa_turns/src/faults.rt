//! The fault with which a node ends.

ghost use Rattle.std.specs.Prelude.{◌≡◌};
ghost use Rattle.ioa_turns.specs.Faults as spec;

use ioa_actions::StepFault;
use ioa_book::CommitRefusal;
use ioa_record::NodeFault;

/// The fault with which a fault of a step ends its node. An action that is not enabled is missed, and ends none.
pub fn fault_of_step(fault: StepFault) -> Option<NodeFault>
    ensures { result ≡ spec.fault_of_step fault }
{
    match fault {
        StepFault::NotEnabled => None,
        StepFault::Undefined => Some(NodeFault::Undefined),
        StepFault::Range => Some(NodeFault::Range),
        StepFault::Memory => Some(NodeFault::Memory),
        StepFault::NotMine => Some(NodeFault::NotMine),
        StepFault::NoChannel => Some(NodeFault::NoChannel),
        StepFault::NoChoice => Some(NodeFault::NoChoice),
    }
}

/// The fault with which the refusal of a proposal ends its node. A `Stale (50)` one is fired anew on another look, and
/// ends none.
pub fn fault_of_refusal(refusal: CommitRefusal) -> Option<NodeFault>
    ensures { result ≡ spec.fault_of_refusal refusal }
{
    match refusal {
        CommitRefusal::Unknown(_) => Some(NodeFault::Unknown),
        CommitRefusal::Stale { .. } => None,
        CommitRefusal::Differs(_) => Some(NodeFault::Differs),
        CommitRefusal::Full => Some(NodeFault::Full),
    }
}
