//! What a system section places.

use ioa_names::NamedProgram;
use ioa_source::Channel;
use ioa_system::Script;

/// What a system section places: the programs of its nodes, node 0 first, and its channels and scripts as declared.
#[derive(Drop)]
pub struct Placed {
    /// The programs of the nodes.
    pub programs: Vec<NamedProgram>,
    /// The channels.
    pub channels: Vec<Channel>,
    /// The scripts.
    pub scripts: Vec<Script>,
}
