//! The systems of the tests.

use ioa_actions::Action;
use ioa_check::check;
use ioa_system::System;
use ioa_text_reader::parse;
use ioa_transitions::Entry;
use ioa_values::Value;
use std::alloc::{AllocError, Global};
use std::sync::Arc;
use std::test::Fail;

/// Node 0 sends what it counts, from 7 on, and node 1 keeps the last message.
pub(crate) const LIST: &str = "automaton Src
        signature output send(m: Int, const 0, const 1)
        states n: Int := 7
        transitions output send(m, 0, 1) pre m = n eff n := n + 1
      automaton Dst
        signature input receive(m: Int, const 0, const 1)
        states last: Int := 0
        transitions input receive(m, 0, 1) eff last := m
      system node 0: Src node 1: Dst channel 0 -> 1";

/// Two nodes that count on their own, once and five times.
pub(crate) const TICK: &str = "automaton Tick(c: Nat)
        signature internal tick
        states n: Int := 0
        transitions internal tick eff n := n + 1
        schedule
          states k: Nat := 0
          do while k < c do fire internal tick; k := k + 1 od od
      system node 0: Tick(1) node 1: Tick(5)";

/// The same, but node 0 counts by two.
pub(crate) const LEAP: &str = "automaton Leap(c: Nat)
        signature internal tick
        states n: Int := 0
        transitions internal tick eff n := n + 2
        schedule
          states k: Nat := 0
          do while k < c do fire internal tick; k := k + 1 od od
      automaton Tick(c: Nat)
        signature internal tick
        states n: Int := 0
        transitions internal tick eff n := n + 1
        schedule
          states k: Nat := 0
          do while k < c do fire internal tick; k := k + 1 od od
      system node 0: Leap(1) node 1: Tick(5)";

/// Two nodes that hand two messages over one channel.
pub(crate) const RELAY: &str = "automaton Src
        signature output send(m: Int, const 0, const 1)
        states n: Int := 7
        transitions output send(m, 0, 1) pre m = n eff n := n + 1
        schedule do fire send(n, 0, 1); fire send(n, 0, 1) od
      automaton Dst
        signature input receive(m: Int, const 0, const 1)
        states got: Seq[Int] := {}
        transitions input receive(m, 0, 1) eff got := got |- m
        schedule do fire receive(7, 0, 1); fire receive(8, 0, 1) od
      system node 0: Src node 1: Dst channel 0 -> 1";

/// The system of a text.
pub(crate) fn system(alloc: Global, text: &str) -> Result<Arc<System>, Fail> {
    let source = Box::new(alloc, parse(alloc, text).ok().ok_or("refused")?)?;
    let system = check(alloc, source.text()).ok().ok_or("refused")?;
    Ok(Arc::new(alloc, system)?)
}

/// The action by which node 0 sends a number to node 1.
pub(crate) fn sent(number: i64) -> Action {
    Action::Send {
        message: Value::number(number),
        from: 0,
        to: 1,
    }
}

/// An entry of the same action.
pub(crate) fn send(alloc: Global, number: i64) -> Result<Entry, AllocError> {
    Entry::of(alloc, sent(number))
}
