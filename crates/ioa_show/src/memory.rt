//! Whether memory ran out in a run.

ghost use Rattle.std.specs.Prelude.{◌≡◌};
ghost use Rattle.std.specs.List.{list_any};
ghost use Rattle.ioa_show.specs.Memory as spec;

use ioa_record::{Ending, NodeFault};

/// The words by which each picture says that memory ran out.
pub const RAN_OUT: &str = "memory ran out";

/// Whether memory ran out in a run that left these endings.
pub fn ran_out(endings: &[Ending]) -> bool
    ensures { result ≡ spec.ran_out endings.now }
{
    endings.iter().any(|ending| is_memory(ending))
}

/// Whether a node ended since memory ran out.
fn is_memory(ending: &Ending) -> bool
    ensures { result ≡ spec.is_memory ending.now }
{
    match ending {
        Ending::Fault(fault) => is_memory_fault(*fault),
        Ending::Done | Ending::Spent => false,
    }
}

/// Whether a fault is want of memory.
fn is_memory_fault(fault: NodeFault) -> bool
    ensures { result ≡ spec.is_memory_fault fault }
{
    match fault {
        NodeFault::Memory => true,
        NodeFault::Undefined
        | NodeFault::Range
        | NodeFault::NotMine
        | NodeFault::NoChannel
        | NodeFault::NoChoice
        | NodeFault::Differs
        | NodeFault::Full
        | NodeFault::Unknown
        | NodeFault::Older
        | NodeFault::NoThread => false,
    }
}
