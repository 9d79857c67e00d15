//! The endings of nodes.

use ioa_terms::TermFault;
use std::fmt;

/// Why a node ended before its block did (profile).
#[derive(Clone, Copy, Debug, PartialEq, Eq)]
pub enum NodeFault {
    /// `Undefined` (1): an argument, a guard or an effect met a part that has no value.
    Undefined,
    /// `Range` (2): an argument, a guard or an effect met a number outside 64 bits.
    Range,
    /// `Memory` (3): memory ran out.
    Memory,
    /// `NotMine` (41): the action is another node's, or is not in the node's signature.
    NotMine,
    /// `NoChannel` (42): the action's channel is not declared.
    NoChannel,
    /// `NoChoice` (43): a value that an effect chooses is missing, not of its sort or not allowed.
    NoChoice,
    /// `Differs` (51): no configuration is one that may be the node's.
    Differs,
    /// `Full` (52): the schedule has as many actions as the step limit allows.
    Full,
    /// `Unknown` (53): there is no such node.
    Unknown,
    /// `Older` (54): the book shows an older state than this worker has seen.
    Older,
    /// The worker's thread could not be started.
    NoThread,
}

impl fmt::Display for NodeFault {
    ghost use Rattle.std.specs.Prelude.{Some};
    ghost use Rattle.ioa_record.specs.Endings.{fault_name};

    ghost output = { λ f. Some (fault_name f) };

    fn fmt<W: fmt::Write>(&self, f: &mut fmt::Formatter<W>) -> fmt::Result {
        match self {
            NodeFault::Undefined => f.write_str("Undefined"),
            NodeFault::Range => f.write_str("Range"),
            NodeFault::Memory => f.write_str("Memory"),
            NodeFault::NotMine => f.write_str("NotMine"),
            NodeFault::NoChannel => f.write_str("NoChannel"),
            NodeFault::NoChoice => f.write_str("NoChoice"),
            NodeFault::Differs => f.write_str("Differs"),
            NodeFault::Full => f.write_str("Full"),
            NodeFault::Unknown => f.write_str("Unknown"),
            NodeFault::Older => f.write_str("Older"),
            NodeFault::NoThread => f.write_str("NoThread"),
        }
    }
}

impl From<TermFault> for NodeFault {
    ghost use Rattle.std.specs.Prelude.{◌≡◌};
    ghost use Rattle.ioa_record.specs.NodeFaults.{fault_of_term};

    ghost from_gives = { λ t f. f ≡ fault_of_term t };

    fn from(fault: TermFault) -> Self {
        match fault {
            TermFault::Undefined => NodeFault::Undefined,
            TermFault::Range => NodeFault::Range,
            TermFault::Memory => NodeFault::Memory,
        }
    }
}

/// How a node ended (profile).
#[derive(Clone, Copy, Debug, PartialEq, Eq)]
pub enum Ending {
    /// It came to the end of its block.
    Done,
    /// No attempt was left.
    Spent,
    /// A turn or a step met a fault.
    Fault(NodeFault),
}

impl fmt::Display for Ending {
    ghost use Rattle.std.specs.Prelude.{Some};
    ghost use Rattle.ioa_record.specs.Endings.{ending_text};

    ghost output = { λ e. Some (ending_text e) };

    fn fmt<W: fmt::Write>(&self, f: &mut fmt::Formatter<W>) -> fmt::Result {
        match self {
            Ending::Done => f.write_str("done"),
            Ending::Spent => f.write_str("spent"),
            Ending::Fault(fault) => write!(f, "fault {fault}"),
        }
    }
}
