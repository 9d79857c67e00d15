//! The channels and the scripts of a system section that were passed.

use indexmap::IndexSet;
use ioa_names::ReadNames;
use ioa_source::Channel;
use ioa_terms::Name;
use std::alloc::{AllocError, Global};

/// The channels and the scripts of a system section that were passed.
#[derive(Drop)]
pub(crate) struct Passed {
    /// The channels, by the names of their queues.
    channels: ReadNames,
    /// The numbers of the nodes that have scripts.
    scripts: IndexSet<i64>,
}

impl Passed {
    /// Nothing was passed.
    pub(crate) fn new(alloc: Global) -> Self {
        Passed {
            channels: ReadNames::new(alloc),
            scripts: IndexSet::new(alloc),
        }
    }

    /// Adds a channel. Returns whether it is new.
    pub(crate) fn add_channel(&mut self, channel: &Channel) -> Result<bool, AllocError> {
        let queue = Name::Queue {
            from: channel.from,
            to: channel.to,
        };
        self.channels.declare(queue)
    }

    /// Adds the script of a node. Returns whether it is new.
    pub(crate) fn add_script(&mut self, node: i64) -> Result<bool, AllocError> {
        let (_, fresh) = self.scripts.insert_full(node)?;
        Ok(fresh)
    }
}
