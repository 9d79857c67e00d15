//! What a queue has in front of its messages.

ghost use Rattle.std.specs.Prelude.{◌≡◌, ◌<◌, IfOk, drop, length};
ghost use Rattle.ioa_channels.specs.Heads.{IsBehind, kind_in, stimuli_in};

use crate::stimuli::Stimuli;
use ioa_actions::{ChannelKind, NodeAction};
use std::alloc::AllocError;

/// What a queue has in front of its messages. A channel has no stimuli there, and a script keeps its order, so the two
/// share their place, and a queue is as small as it can be.
#[derive(Debug, Drop)]
pub(crate) enum Head {
    /// Nothing; and whether the queue keeps the order of its messages.
    Nothing(ChannelKind),
    /// The stimuli that a script has left. Its queue keeps the order.
    Stimuli(Stimuli),
}

impl Head {
    /// Whether the queue keeps the order of its messages.
    #[inline(always)]
    pub(crate) fn kind(&self) -> ChannelKind
        ensures { result ≡ kind_in self.now }
    {
        match self {
            Head::Nothing(kind) => *kind,
            Head::Stimuli(_) => ChannelKind::Ordered,
        }
    }

    /// The stimuli as a slice.
    #[inline(always)]
    pub(crate) fn as_slice(&self) -> &[NodeAction]
        ensures { result.now ≡ stimuli_in self.now }
    {
        match self {
            Head::Nothing(_) => &[],
            Head::Stimuli(stimuli) => stimuli.as_slice(),
        }
    }

    /// The same once more, sharing the list; takes no memory.
    #[inline(always)]
    pub(crate) fn try_clone(&self) -> Result<Self, AllocError>
        ensures { IfOk result (λ h. h ≡ self.now) }
    {
        match self {
            Head::Nothing(kind) => Ok(Head::Nothing(*kind)),
            Head::Stimuli(stimuli) => Ok(Head::Stimuli(stimuli.try_clone()?)),
        }
    }

    /// The same without the first stimulus; takes no memory.
    pub(crate) fn behind_first(&self) -> Result<Self, AllocError>
        requires { 0 < length (stimuli_in self.now) }
        ensures { IfOk result (IsBehind self.now) }
    {
        match self {
            Head::Nothing(_) => unreachable!(),
            Head::Stimuli(stimuli) => Ok(Head::Stimuli(stimuli.behind_first()?)),
        }
    }
}
