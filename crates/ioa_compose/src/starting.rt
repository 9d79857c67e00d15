//! The start of a system.

ghost use Rattle.std.specs.Prelude.{◌≡◌, ◌++◌, IfOk, OnOk, map};
ghost use Rattle.std.specs.Arc.{arc_value};
ghost use Rattle.ioa_system.specs.Systems.{script_of};
ghost use Rattle.ioa_actions.specs.declared.component.ChannelKind.TheVariants as ChannelKind;
ghost use Rattle.ioa_channels.specs.Queues.{queue_state};
ghost use Rattle.ioa_compose.specs.Start.{start, node_start, channel_start, script_start, stimuli_in};

use crate::configuration::Conf;
use ioa_actions::Component;
use ioa_channels::{Item, Queue, copy_stimuli};
use ioa_source::Channel;
use ioa_system::{Program, System};
use ioa_transitions::NodeConf;
use std::alloc::{AllocError, Global};
use std::sync::Arc;

/// The start configurations of a system's components (Lynch 8.1): of the nodes, node 0 first, then of the channels in
/// the order of their declaration, then of the scripts, node 0's first.
pub fn start(alloc: Global, system: &System) -> Result<Vec<Conf>, AllocError>
    ensures { IfOk result (λ v. v.items ≡ start system.now) }
{
    let mut confs = Vec::new(alloc);
    start_nodes(alloc, &mut confs, system.programs())?;
    start_channels(&mut confs, system.channels())?;
    start_scripts(alloc, &mut confs, system)?;
    Ok(confs)
}

/// Adds the start configurations of nodes at the end.
fn start_nodes(
    alloc: Global,
    confs: &mut Vec<Conf>,
    programs: &[Arc<Program>],
) -> Result<(), AllocError>
    ensures { OnOk result (confs.new.items ≡ confs.old.items ++ map node_start (map arc_value programs.now)) }
{
    for program in programs {
        confs.push(Conf::Node(NodeConf::start(alloc, program)?))?;
    }
    Ok(())
}

/// Adds the empty queues of channels at the end, each of its channel's kind.
fn start_channels(confs: &mut Vec<Conf>, channels: &[Channel]) -> Result<(), AllocError>
    ensures { OnOk result (confs.new.items ≡ confs.old.items ++ map channel_start channels.now) }
{
    for channel in channels {
        let component = Component::Channel {
            from: channel.from,
            to: channel.to,
        };
        confs.push(Conf::Queue(Queue::empty(component, channel.kind)))?;
    }
    Ok(())
}

/// Adds the scripts of the nodes at the end.
fn start_scripts(alloc: Global, confs: &mut Vec<Conf>, system: &System) -> Result<(), AllocError>
    ensures { OnOk result
        (confs.new.items ≡ confs.old.items ++ map (script_start system.now.scripts) system.now.programs) }
{
    for program in system.programs() {
        let script = start_script(alloc, system, program.node())?;
        confs.push(script)?;
    }
    Ok(())
}

/// The script of a node, with the stimuli that are declared for the node.
fn start_script(alloc: Global, system: &System, node: i64) -> Result<Conf, AllocError>
    ensures { IfOk result (λ c. c ≡ Conf.Queue (queue_state (Component.Script node) ChannelKind.Ordered
        (map Item.Stimulus (stimuli_in (script_of node system.now.scripts))))) }
{
    let stimuli = match system.script_of(node) {
        None => Vec::new(alloc),
        Some(script) => copy_stimuli(alloc, script.stimuli())?,
    };
    let queue = Queue::of_stimuli(alloc, Component::Script(node), stimuli)?;
    Ok(Conf::Queue(queue))
}
