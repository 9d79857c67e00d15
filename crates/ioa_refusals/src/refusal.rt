//! Why a text is refused.

ghost use Rattle.std.specs.Prelude.{◌≡◌};
ghost use Rattle.ioa_refusals.specs.Refusals.{refusal_name, refusal_number};

use std::alloc::{AllocError, AllocFailed};
use std::fmt;
use thiserror::Error;

/// What is wrong with a text that is spelled as the language asks (profile).
#[derive(Clone, Copy, Debug, PartialEq, Eq, Error)]
pub enum Refusal {
    /// 20: a name, a function, a sort, a field, an action of that kind, a node or a channel is not declared, or may not
    /// be read or assigned there.
    Unknown,
    /// 21: two things have one name, or one number, which have to differ.
    Twice,
    /// 22: a term has another sort than its operator, function or place takes, or there are more or fewer parts.
    Sorts,
    /// 23: a state variable or a variable of a schedule block has no initial value.
    NoInitial,
    /// 24: an input has a guard.
    InputPre,
    /// 25: an entry of a signature has no transition.
    NoTransition,
    /// 26: a schedule block assigns a state variable.
    ScheduleAssignsState,
    /// 27: a channel's sender sends messages of another sort than its receiver takes.
    ChannelSorts,
    /// 28: a channel's receiver has no `receive` from its sender.
    InputMissing,
    /// 29: a channel is from a node to itself.
    SelfChannel,
    /// 30: the nodes' numbers are not 0 to n - 1.
    NodeGap,
    /// 31: a sort or a type is too high, with tuple types written out, or there are too many nodes or channels.
    Limit,
    /// 32: nothing gives a display its sort.
    EmptyOfWhat,
    /// 33: an input has a condition behind `where`.
    InputWhere,
    /// 34: a constant, an argument or an initial value has no value, a transition's head does not repeat its entry, or
    /// a `send` or a `receive` is not its node's.
    BadArgument,
    /// 3: no memory was left.
    Memory,
}

impl Refusal {
    /// The number of the refusal.
    pub fn number(self) -> u8
        ensures { result ≡ refusal_number self }
    {
        match self {
            Refusal::Unknown => 20,
            Refusal::Twice => 21,
            Refusal::Sorts => 22,
            Refusal::NoInitial => 23,
            Refusal::InputPre => 24,
            Refusal::NoTransition => 25,
            Refusal::ScheduleAssignsState => 26,
            Refusal::ChannelSorts => 27,
            Refusal::InputMissing => 28,
            Refusal::SelfChannel => 29,
            Refusal::NodeGap => 30,
            Refusal::Limit => 31,
            Refusal::EmptyOfWhat => 32,
            Refusal::InputWhere => 33,
            Refusal::BadArgument => 34,
            Refusal::Memory => 3,
        }
    }

    /// The name of the refusal.
    pub fn name(self) -> &'static str
        ensures { result.now ≡ refusal_name self }
    {
        match self {
            Refusal::Unknown => "Unknown",
            Refusal::Twice => "Twice",
            Refusal::Sorts => "Sorts",
            Refusal::NoInitial => "NoInitial",
            Refusal::InputPre => "InputPre",
            Refusal::NoTransition => "NoTransition",
            Refusal::ScheduleAssignsState => "ScheduleAssignsState",
            Refusal::ChannelSorts => "ChannelSorts",
            Refusal::InputMissing => "InputMissing",
            Refusal::SelfChannel => "SelfChannel",
            Refusal::NodeGap => "NodeGap",
            Refusal::Limit => "Limit",
            Refusal::EmptyOfWhat => "EmptyOfWhat",
            Refusal::InputWhere => "InputWhere",
            Refusal::BadArgument => "BadArgument",
            Refusal::Memory => "Memory",
        }
    }
}

impl fmt::Display for Refusal {
    ghost use Rattle.std.specs.Prelude.{Some};
    ghost use Rattle.ioa_refusals.specs.Refusals.{refusal_text};

    ghost output = { λ r. Some (refusal_text r) };

    fn fmt<W: fmt::Write>(&self, f: &mut fmt::Formatter<W>) -> fmt::Result {
        let number = self.number();
        let name = self.name();
        write!(f, "{number} {name}")
    }
}

impl From<AllocError> for Refusal {
    ghost use Rattle.std.specs.Prelude.{◌≡◌};
    ghost use Rattle.ioa_refusals.specs.declared.refusal.Refusal.TheVariants.{Memory};

    ghost from_gives = { λ _ e. e ≡ Memory };

    fn from(_error: AllocError) -> Self {
        Refusal::Memory
    }
}

impl<T: Drop> From<AllocFailed<T>> for Refusal {
    ghost use Rattle.std.specs.Prelude.{◌≡◌};
    ghost use Rattle.ioa_refusals.specs.declared.refusal.Refusal.TheVariants.{Memory};

    ghost from_gives = { λ _ e. e ≡ Memory };

    fn from(_error: AllocFailed<T>) -> Self {
        Refusal::Memory
    }
}
