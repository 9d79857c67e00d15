//! Schedules of a checked text that are replayed and projected.

use crate::texts::{sent, system};
use ioa_actions::{Action, Component};
use ioa_compose::{Conf, joint_step, project, replay, start};
use ioa_system::System;
use ioa_transitions::Entry;
use ioa_values::Value;
use std::alloc::{AllocError, Global};
use std::sync::Arc;
use std::test::Fail;

/// A text whose node 0 sends 7, 8 and so on, and whose node 1 has two variables.
const PAIR: &str = "automaton Src
        signature output send(m: Int, const 0, const 1)
        states n: Int := 7
        transitions output send(m, 0, 1) pre m = n eff n := n + 1
      automaton Dst
        signature input receive(m: Int, const 0, const 1)
        states x: Int := 1, y: Int := 2
        transitions input receive(m, 0, 1) eff x := y; y := x
      system node 1: Dst channel 0 -> 1 node 0: Src";

/// The system of that text.
fn pair(alloc: Global) -> Result<Arc<System>, Fail> {
    system(alloc, PAIR)
}

/// `receive(n, 0, 1)`.
fn received(n: i64) -> Action {
    Action::Receive {
        message: Value::number(n),
        from: 0,
        to: 1,
    }
}

/// The entry of a step by an action.
fn entry(alloc: Global, action: Action) -> Result<Entry, AllocError> {
    Entry::of(alloc, action)
}

/// Two sends, and the receive of the message.
fn two_sends_and_receive(alloc: Global, message: i64) -> Result<Vec<Entry>, AllocError> {
    let mut schedule = Vec::new(alloc);
    schedule.push(entry(alloc, sent(7))?)?;
    schedule.push(entry(alloc, sent(8))?)?;
    schedule.push(entry(alloc, received(message))?)?;
    Ok(schedule)
}

/// Whether a configuration is one of a node with these numbers in its two variables.
fn has_numbers(conf: &Conf, first: i64, second: i64) -> bool {
    match conf {
        Conf::Node(node) => match node.variables() {
            [x, y] => x.as_number() == Some(first) && y.as_number() == Some(second),
            _ => false,
        },
        Conf::Queue(_) => false,
    }
}

/// Whether the schedule is an execution that leaves five configurations, with 2 in both variables of node 1.
fn is_replayed(alloc: Global, system: &System, schedule: &[Entry]) -> bool {
    match replay(alloc, system, schedule) {
        Ok(states) => match states.as_slice() {
            [_, node, _, _, _] => has_numbers(node, 2, 2),
            _ => false,
        },
        Err(_) => false,
    }
}

/// Whether the system's start has a joint step by an action.
fn begins_with(alloc: Global, system: &System, action: &Action) -> bool {
    match start(alloc, system) {
        Ok(states) => joint_step(alloc, states.as_slice(), action).is_ok(),
        Err(_) => false,
    }
}

/// Whether the schedule's first fault is at this position.
fn stops_at(alloc: Global, system: &System, schedule: &[Entry], position: usize) -> bool {
    match replay(alloc, system, schedule) {
        Ok(_) => false,
        Err(fault) => fault.position == position,
    }
}

/// How many of the entries are the component's.
fn count_of(alloc: Global, schedule: &[Entry], of: Component) -> Result<usize, AllocError> {
    Ok(project(alloc, schedule, of)?.len())
}

/// Whether the entries of node 0, of the channel and of node 0's script are so many.
fn has_projections(alloc: Global, schedule: &[Entry]) -> Result<bool, AllocError> {
    let channel = Component::Channel { from: 0, to: 1 };
    Ok(
        count_of(alloc, schedule, Component::Node(0))? == 2
            && count_of(alloc, schedule, channel)? == 3
            && count_of(alloc, schedule, Component::Script(0))? == 0,
    )
}

#[test]
fn an_enabled_action_has_a_joint_step(rt: HostRuntime) -> Result<(), Fail> {
    let system = pair(rt.alloc())?;
    let is_stepped = begins_with(rt.alloc(), &system, &sent(7))
        && !begins_with(rt.alloc(), &system, &sent(8));
    assert!(rt; is_stepped);
    Ok(())
}

#[test]
fn a_schedule_is_replayed(rt: HostRuntime) -> Result<(), Fail> {
    let system = pair(rt.alloc())?;
    let schedule = two_sends_and_receive(rt.alloc(), 7)?;
    assert!(rt; is_replayed(rt.alloc(), &system, &schedule));
    Ok(())
}

#[test]
fn a_replay_stops_at_its_first_fault(rt: HostRuntime) -> Result<(), Fail> {
    let system = pair(rt.alloc())?;
    let schedule = two_sends_and_receive(rt.alloc(), 8)?;
    assert!(rt; stops_at(rt.alloc(), &system, &schedule, 2));
    Ok(())
}

#[test]
fn a_schedule_is_projected(rt: HostRuntime) -> Result<(), Fail> {
    let schedule = two_sends_and_receive(rt.alloc(), 7)?;
    assert!(rt; has_projections(rt.alloc(), &schedule)?);
    Ok(())
}
