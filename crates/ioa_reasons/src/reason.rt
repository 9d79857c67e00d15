//! Why an action was not enabled, and where a step or a turn stopped.

use ioa_actions::Component;
use ioa_channels::Front;
use ioa_terms::{Callee, Checked, Choice, Firing, Name, Shape, Target, Value};

/// A test that an action has to pass at its node.
#[derive(Clone, Copy, Debug, PartialEq, Eq)]
pub enum Test {
    /// The condition of its entry.
    Where,
    /// The guard of its transition.
    Guard,
}

/// A statement of an effect or of a block in which a term is written.
#[derive(Clone, Copy)]
pub enum StatementPlace<'a> {
    /// An assignment of this value.
    Assigned(&'a Target<usize, Callee, Shape>, &'a Checked),
    /// An `if` with this test.
    Tested(&'a Checked),
    /// A `while` with this test.
    Repeated(&'a Checked),
    /// A `fire`.
    Fired(&'a Firing<usize, Callee, Shape>),
    /// A choice of the value that its own term yields.
    Chosen(&'a Choice<usize, Callee, Shape>),
    /// The condition of a choice.
    Allowed(&'a Choice<usize, Callee, Shape>),
}

/// Where a term of a step is written.
#[derive(Clone, Copy)]
pub enum Place<'a> {
    /// In the condition of an entry.
    Condition,
    /// In the guard of a transition.
    Guard,
    /// In this statement of its effect.
    Effect(StatementPlace<'a>),
}

/// A name that a term reads, and its value.
#[derive(Drop)]
pub struct NamedValue<'a> {
    /// The name.
    pub name: &'a Name,
    /// Its value.
    pub value: Value,
}

/// A part of a term at which a step or a turn stops.
#[derive(Clone, Copy)]
pub struct Fault<'a> {
    /// The part.
    pub part: &'a Checked,
    /// The values of its names then.
    pub values: &'a [NamedValue<'a>],
    /// Its value, which is not of the sort of its place, or `false` in the condition of a choice. None if the part has
    /// no value.
    pub value: Option<&'a Value>,
}

/// Why an action was not enabled, in the order of its step: the queue comes before the node.
#[derive(Clone, Copy)]
pub enum Reason<'a> {
    /// The action takes an item out of this queue, which has none.
    Empty(Component),
    /// The action takes an item out of this queue, whose first item is another one.
    First(Component, Front<'a>),
    /// The action receives a message from this queue, which keeps no order, has messages, and has not this one.
    Absent(Component),
    /// The node's own step is not enabled: the condition of the entry or the guard is false.
    Node,
    /// This part of the test is false, and it is the first one. Its names have these values.
    False(Test, &'a Checked, &'a [NamedValue<'a>]),
}
