//! Configurations that are compared with what a system says of its start.

ghost use Rattle.std.specs.Prelude.{◌≡◌, ◌↔◌, IsTrue, map};
ghost use Rattle.std.specs.Arc.{arc_value};
ghost use lib.Pointwise.{pointwise};
ghost use Rattle.ioa_system.specs.Systems.{script_of};
ghost use Rattle.ioa_channels.specs.Queues.{queue_state, same_item};
ghost use Rattle.ioa_compose.specs.SameConfs.{same_conf};
ghost use Rattle.ioa_compose.specs.Start.{start, node_start, channel_start, script_start, stimuli_in};
ghost use Rattle.ioa_starts.specs.Queues.{queue_starts};

use ioa_actions::{ChannelKind, Component, NodeAction};
use ioa_channels::{Item, Queue};
use ioa_compose::Conf;
use ioa_source::Channel;
use ioa_system::{Program, System};
use std::sync::Arc;

/// Whether these are the start configurations of a system's components: of the nodes, node 0 first, then of the
/// channels in the order of their declaration, then of the scripts, node 0's first. Any configurations may come. Takes
/// no memory. Costs time in proportion to the shorter of the two, and for each script a search for its node's stimuli.
#[tactic(auto, using(crate::proofs::Starts::same_start_is))]
pub fn is_start(system: &System, confs: &[Conf]) -> bool
    ensures { IsTrue result ↔ (confs.now ≡ start system.now) }
{
    are_starts(system, confs)
}

/// Whether configurations are those of a system's start, one by one, and as many.
fn are_starts(system: &System, confs: &[Conf]) -> bool
    ensures { result ≡ pointwise same_conf confs.now (start system.now) }
{
    let programs = system.programs();
    if confs.len() < programs.len() {
        return false;
    }
    let (nodes, queues) = confs.split_at(programs.len());
    are_node_starts(nodes, programs) && are_queue_starts(queues, system)
}

/// Whether configurations are the empty queues of a system's channels and then the scripts of its nodes.
fn are_queue_starts(confs: &[Conf], system: &System) -> bool
    ensures { result ≡ pointwise same_conf confs.now (queue_starts system.now) }
{
    let channels = system.channels();
    if confs.len() < channels.len() {
        return false;
    }
    let (queues, scripts) = confs.split_at(channels.len());
    are_channel_starts(queues, channels) && are_script_starts(scripts, system, system.programs())
}

/// Whether configurations are the starts of nodes, one by one, and as many.
fn are_node_starts(confs: &[Conf], programs: &[Arc<Program>]) -> bool
    ensures { result ≡ pointwise same_conf confs.now (map node_start (map arc_value programs.now)) }
{
    for position in 0..confs.len().min(programs.len()) {
        if !is_node_start(&confs[position], &programs[position]) {
            return false;
        }
    }
    confs.len() == programs.len()
}

/// Whether configurations are the empty queues of channels, one by one, and as many.
fn are_channel_starts(confs: &[Conf], channels: &[Channel]) -> bool
    ensures { result ≡ pointwise same_conf confs.now (map channel_start channels.now) }
{
    for position in 0..confs.len().min(channels.len()) {
        if !is_channel_start(&confs[position], &channels[position]) {
            return false;
        }
    }
    confs.len() == channels.len()
}

/// Whether configurations are the scripts of nodes, one by one, and as many.
fn are_script_starts(confs: &[Conf], system: &System, programs: &[Arc<Program>]) -> bool
    ensures { result
        ≡ pointwise same_conf confs.now (map (script_start system.now.scripts) (map arc_value programs.now)) }
{
    for position in 0..confs.len().min(programs.len()) {
        if !is_script_start(&confs[position], system, &programs[position]) {
            return false;
        }
    }
    confs.len() == programs.len()
}

/// Whether a configuration is the start of a node: its program, and the initial values of its variables.
fn is_node_start(conf: &Conf, program: &Program) -> bool
    ensures { result ≡ same_conf conf.now (node_start program.now) }
{
    match conf {
        Conf::Node(node) => {
            node.variables() == program.initial() && node.program().equals(program)
        }
        Conf::Queue(_) => false,
    }
}

/// Whether a configuration is the empty queue of a channel, and of the channel's kind.
fn is_channel_start(conf: &Conf, channel: &Channel) -> bool
    ensures { result ≡ same_conf conf.now (channel_start channel.now) }
{
    let component = Component::Channel {
        from: channel.from,
        to: channel.to,
    };
    is_queue_of(conf, component, channel.kind, &[])
}

/// Whether a configuration is the script of a program's node, with the stimuli that are declared for the node.
fn is_script_start(conf: &Conf, system: &System, program: &Program) -> bool
    ensures { result ≡ same_conf conf.now (script_start system.now.scripts program.now) }
{
    let node = program.node();
    let component = Component::Script(node);
    is_queue_of(
        conf,
        component,
        ChannelKind::Ordered,
        stimuli_of(system, node),
    )
}

/// The stimuli that are declared for a node.
fn stimuli_of(system: &System, node: i64) -> &[NodeAction]
    ensures { result.now ≡ stimuli_in (script_of node system.now.scripts) }
{
    match system.script_of(node) {
        None => &[],
        Some(script) => script.stimuli(),
    }
}

/// Whether a configuration is the queue of a component, is of this kind, and holds these stimuli and no message.
fn is_queue_of(conf: &Conf, component: Component, kind: ChannelKind, stimuli: &[NodeAction]) -> bool
    ensures { result ≡ same_conf conf.now (Conf.Queue (queue_state component kind (map Item.Stimulus stimuli.now))) }
{
    match conf {
        Conf::Node(_) => false,
        Conf::Queue(queue) => {
            queue.component() == component && queue.kind() == kind && has_stimuli(queue, stimuli)
        }
    }
}

/// Whether a queue holds these stimuli and no message.
fn has_stimuli(queue: &Queue, stimuli: &[NodeAction]) -> bool
    ensures { result ≡ pointwise same_item queue.now.items (map Item.Stimulus stimuli.now) }
{
    let (left, messages) = queue.items();
    left == stimuli && messages.is_empty()
}
