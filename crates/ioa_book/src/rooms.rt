//! Room for proposals.

use ioa_commits::Participant;
use ioa_sharing::Origin;

/// Participants that are wanted no longer, if there are such. The next proposal is written over them, and asks for no
/// memory where nobody else owns their configurations. No contract says which they are.
pub struct Rooms<O: Origin> {
    pub(crate) queue: Option<Participant<O>>,
    pub(crate) node: Option<Participant<O>>,
}

/// By hand, so that crates above do not prove again how the parts are let go (DECISIONS).
impl<O: Origin> Drop for Rooms<O> {
    #[inline(always)]
    fn drop(self) {
        let Rooms { queue: _, node: _ } = self;
    }
}

impl<O: Origin> Rooms<O> {
    /// No room yet.
    pub fn none() -> Self {
        Rooms {
            queue: None,
            node: None,
        }
    }

    /// Keeps what a commit hands out: the queue, if one took part, and the node.
    #[inline(always)]
    pub fn keep(&mut self, queue: Option<Participant<O>>, node: Participant<O>) {
        if let Some(queue) = queue {
            self.queue = Some(queue);
        }
        self.node = Some(node);
    }
}
