//! Why an entry of a schedule is no step, as text.

ghost use Rattle.std.specs.Prelude.{◌≡◌, ◌++◌, IfOk, OnOk};
ghost use Rattle.ioa_channels.specs.Fronts.{front_item};
ghost use Rattle.ioa_monitor.specs.Reports.{item_text};
ghost use Rattle.ioa_reasons.specs.PlainReasons.{reason_of};
ghost use Rattle.ioa_tell.specs.Refusals.{refusal_of};
ghost use Rattle.ioa_tell_text.specs.Changes.{component_text};
ghost use Rattle.ioa_tell_text.specs.Kept.{why_of};
ghost use Rattle.ioa_tell_text.specs.Lines.{first_text, why_text};
ghost use Rattle.ioa_tell_text.specs.Refusals as spec;
ghost use Rattle.ioa_values.specs.Outcome.{Writes};

use crate::kept::KeptText;
use crate::stops::{push_stop, push_unfit};
use crate::terms::{push_count, push_word};
use crate::tests::push_false;
use ioa_actions::{Component, StepFault, show_node_action};
use ioa_channels::Front;
use ioa_reasons::{OtherConst, Reason};
use ioa_tell::Refusal;
use ioa_values::{Names, push_shown};
use std::alloc::{AllocError, Global};

/// Why an entry of a schedule that is given is no step, as text, by these names of constants: what
/// [`TextTeller`](crate::TextTeller) writes behind the entry. It is for whoever is told of the entry and writes it in
/// another way.
pub fn reason_text(
    alloc: Global,
    names: &Names,
    refusal: Refusal<'_>,
) -> Result<KeptText, AllocError>
    ensures { IfOk result (λ t. t ≡ spec.refusal_text names.now (refusal_of refusal.entry)) }
{
    let mut out = String::new(alloc);
    push_refusal(alloc, &mut out, names, refusal)?;
    Ok(KeptText::new(out))
}

/// Writes why an entry is no step.
fn push_refusal(
    alloc: Global,
    out: &mut String,
    names: &Names,
    refusal: Refusal<'_>,
) -> Result<(), AllocError>
    ensures { OnOk result (Writes out.old out.new (spec.refusal_text names.now (refusal_of refusal.entry))) }
{
    match refusal {
        Refusal::Missed(reason) => push_why(alloc, out, names, reason),
        Refusal::Faulted(place, fault) => push_stop(alloc, out, names, place, fault),
        Refusal::Unfit(name, value) => push_unfit(out, names, name, value),
        Refusal::OtherConst(found) => push_other_const(out, names, found),
        Refusal::Plain(fault) => out.push_str(fault_words(fault)),
    }
}

/// Writes why an action was not enabled.
fn push_why(
    alloc: Global,
    out: &mut String,
    names: &Names,
    reason: Reason<'_>,
) -> Result<(), AllocError>
    ensures { OnOk result (Writes out.old out.new (why_text names.now (why_of names.now (reason_of reason.entry)))) }
{
    match reason {
        Reason::Empty(queue) => push_queue(out, queue, " is empty"),
        Reason::First(queue, front) => push_first(alloc, out, names, queue, front),
        Reason::Absent(queue) => push_queue(out, queue, " has no such message"),
        Reason::Node => push_words(out, "not enabled: its where or its guard is false"),
        Reason::False(test, part, values) => push_false(alloc, out, names, test, part, values),
    }
}

/// Writes words.
fn push_words(out: &mut String, words: &str) -> Result<(), AllocError>
    ensures { OnOk result (Writes out.old out.new words.now) }
{
    out.push_str(words)
}

/// Writes what these words say of a queue.
fn push_queue(out: &mut String, queue: Component, words: &str) -> Result<(), AllocError>
    ensures { OnOk result (Writes out.old out.new (component_text queue ++ words.now)) }
{
    push_component(out, queue)?;
    out.push_str(words)
}

/// Writes which item is the first of a queue.
fn push_first(
    alloc: Global,
    out: &mut String,
    names: &Names,
    queue: Component,
    front: Front<'_>,
) -> Result<(), AllocError>
    ensures { OnOk result (Writes out.old out.new (first_text names.now queue (front_item front.entry))) }
{
    out.push_str("first in ")?;
    push_component(out, queue)?;
    out.push_str(" is ")?;
    push_front(alloc, out, names, front)
}

/// Writes an item that is lent.
fn push_front(
    alloc: Global,
    out: &mut String,
    names: &Names,
    front: Front<'_>,
) -> Result<(), AllocError>
    ensures { OnOk result (Writes out.old out.new (item_text names.now (front_item front.entry))) }
{
    match front {
        Front::Message(message) => push_shown(out, names, message),
        Front::Stimulus(stimulus) => {
            let shown = show_node_action(alloc, names, stimulus)?;
            out.push_str(shown.as_str())
        }
    }
}

/// Writes the name of a component.
fn push_component(out: &mut String, component: Component) -> Result<(), AllocError>
    ensures { OnOk result (Writes out.old out.new (component_text component)) }
{
    match component {
        Component::Node(node) => push_word(out, "node ", node),
        Component::Channel { from, to } => {
            push_word(out, "channel ", from)?;
            push_word(out, " -> ", to)
        }
        Component::Script(node) => push_word(out, "script ", node),
    }
}

/// Writes that a node has not an action, and which argument is another value than its `const`.
fn push_other_const(out: &mut String, names: &Names, found: &OtherConst) -> Result<(), AllocError>
    ensures { OnOk result (Writes out.old out.new (spec.other_const_text names.now found.now)) }
{
    out.push_str(fault_words(StepFault::NotMine))?;
    push_argument(out, names, found)
}

/// Writes an argument, and the value of its `const`.
fn push_argument(out: &mut String, names: &Names, found: &OtherConst) -> Result<(), AllocError>
    ensures { OnOk result (Writes out.old out.new (spec.argument_text names.now found.now)) }
{
    out.push_str(": argument ")?;
    push_count(out, found.position)?;
    out.push_str(" is ")?;
    push_shown(out, names, &found.argument)?;
    out.push_str(", and const is ")?;
    push_shown(out, names, &found.constant)
}

/// A fault of a step in words.
fn fault_words(fault: StepFault) -> &'static str
    ensures { result.now ≡ spec.fault_words fault }
{
    match fault {
        StepFault::Undefined => "undefined",
        StepFault::Range => "out of range",
        StepFault::Memory => "memory ran out",
        StepFault::NotEnabled => "not enabled",
        StepFault::NotMine => "the node has no such action",
        StepFault::NoChannel => "there is no such channel",
        StepFault::NoChoice => "its effect may not choose this",
    }
}
