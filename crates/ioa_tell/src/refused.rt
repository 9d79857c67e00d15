//! The entry of a schedule that is no step, told with its reason.

ghost use Rattle.std.specs.Prelude.{◌≡◌, IfOk, OnOk, Err, Some};
ghost use Rattle.ioa_actions.specs.ActionParts.{node_of};
ghost use Rattle.ioa_actions.specs.declared.component.Component.TheVariants as component;
ghost use Rattle.ioa_compose.specs.Composition.{find_conf, joint_answer};
ghost use Rattle.ioa_compose.specs.Participants.{participants_of};
ghost use Rattle.ioa_reasons.specs.PlainReasons as told;
ghost use Rattle.ioa_reasons.specs.Found.{false_part_found};
ghost use Rattle.ioa_reasons.specs.Reasons.{IsReason, queue_among};
ghost use Rattle.ioa_reasons.specs.Tests.{IsFalsified, IsNodeReason};
ghost use Rattle.ioa_tell.specs.Refusals.{refusal_of};
ghost use Rattle.ioa_tell.specs.Schedules.{HearsRefused, IsToldOf};

use crate::fault::TellFault;
use crate::refusal::{Refusal, TellsRefusal};
use crate::standing::{node_at, queue_at};
use ioa_actions::StepFault;
use ioa_compose::Conf;
use ioa_course::Course;
use ioa_reasons::{
    Falsified, Place, Reason, find_falsified_in, find_faulted_in, find_other_const_in,
    find_unfit_in, reason_with,
};
use ioa_transitions::Entry;
use std::alloc::Global;

/// Tells the entry that is no step from where a course stands, behind so many that are, with the reason for which it is
/// none, and nothing else. So whoever shows the steps before it in another way can tell it on an output of its own.
///
/// `Differs` (51) if it is a step: the course then stands behind it, and nothing was told. `Memory` (3) if memory runs
/// out. A fault of who is told ends it too.
pub fn tell_refused<T: TellsRefusal>(
    alloc: Global,
    course: &mut Course,
    number: usize,
    entry: &Entry,
    out: &mut T,
) -> Result<(), TellFault>
    ensures told { OnOk result (HearsRefused T.refuses course.old number entry.now out.old out.new) }
    ensures kept { OnOk result (course.new ≡ course.old) }
{
    let fault = fault_of(alloc, course, entry)?;
    tell_fault(alloc, course, number, entry, fault, out)
}

/// The fault of the step by an entry. `Differs` (51) if there is none.
fn fault_of(alloc: Global, course: &mut Course, entry: &Entry) -> Result<StepFault, TellFault>
    ensures fault { IfOk result (λ f. joint_answer entry.now course.old ≡ Err f) }
    ensures kept { IfOk result (λ _. course.new ≡ course.old) }
{
    match course.advance(alloc, entry) {
        Ok(()) => Err(TellFault::Differs),
        Err(StepFault::Memory) => Err(TellFault::Memory),
        Err(fault) => Ok(fault),
    }
}

/// Tells an entry whose step has this fault.
fn tell_fault<T: TellsRefusal>(
    alloc: Global,
    course: &Course,
    number: usize,
    entry: &Entry,
    fault: StepFault,
    out: &mut T,
) -> Result<(), TellFault>
    requires { joint_answer entry.now course.now ≡ Err fault }
    ensures { OnOk result (HearsRefused T.refuses course.now number entry.now out.old out.new) }
{
    match fault {
        StepFault::NotEnabled => tell_missed(alloc, course, number, entry, out),
        StepFault::Undefined | StepFault::Range => {
            tell_without_value(alloc, course, number, entry, fault, out)
        }
        StepFault::NotMine => tell_not_mine(alloc, course, number, entry, out),
        _ => tell_plain(alloc, course, number, entry, fault, out),
    }
}

/// Tells an entry whose action is not enabled: by the queue that takes part in it, or else by its node.
fn tell_missed<T: TellsRefusal>(
    alloc: Global,
    course: &Course,
    number: usize,
    entry: &Entry,
    out: &mut T,
) -> Result<(), TellFault>
    requires { joint_answer entry.now course.now ≡ Err StepFault.NotEnabled }
    ensures { OnOk result (HearsRefused T.refuses course.now number entry.now out.old out.new) }
{
    match reason_at(course, entry) {
        Reason::Empty(queue) => {
            tell_reason(alloc, course, number, entry, Reason::Empty(queue), out)
        }
        Reason::First(queue, front) => {
            let reason = Reason::First(queue, front);
            tell_reason(alloc, course, number, entry, reason, out)
        }
        Reason::Absent(queue) => {
            tell_reason(alloc, course, number, entry, Reason::Absent(queue), out)
        }
        Reason::Node | Reason::False(_, _, _) => {
            tell_held_back(alloc, course, number, entry, out)
        }
    }
}

/// Why an action that is not enabled where a course stands is not, by the queue that takes part in it.
fn reason_at<'a>(course: &'a Course, entry: &Entry) -> Reason<'a>
    ensures { IsReason (queue_among (participants_of entry.now.action) course.now) entry.now.action
        (told.reason_of result) }
{
    reason_with(queue_at(course, entry), entry.action())
}

/// Tells an entry whose action the node does not let pass.
fn tell_held_back<T: TellsRefusal>(
    alloc: Global,
    course: &Course,
    number: usize,
    entry: &Entry,
    out: &mut T,
) -> Result<(), TellFault>
    requires { joint_answer entry.now course.now ≡ Err StepFault.NotEnabled }
    ensures { OnOk result (HearsRefused T.refuses course.now number entry.now out.old out.new) }
{
    match node_at(course, entry) {
        None => tell_reason(alloc, course, number, entry, Reason::Node, out),
        Some(node) => tell_held_back_by(alloc, course, number, entry, node, out),
    }
}

/// The same of a node with this configuration.
fn tell_held_back_by<T: TellsRefusal>(
    alloc: Global,
    course: &Course,
    number: usize,
    entry: &Entry,
    node: &Conf,
    out: &mut T,
) -> Result<(), TellFault>
    requires missed { joint_answer entry.now course.now ≡ Err StepFault.NotEnabled }
    requires node { find_conf (component.Node (node_of entry.now.action)) course.now ≡ Some node.now }
    ensures { OnOk result (HearsRefused T.refuses course.now number entry.now out.old out.new) }
{
    match find_falsified_in(alloc, node, entry.action())? {
        None => tell_reason(alloc, course, number, entry, Reason::Node, out),
        Some(found) => tell_false(alloc, course, number, entry, &found, out),
    }
}

/// Tells an entry for which this part of a test is false.
fn tell_false<T: TellsRefusal>(
    alloc: Global,
    course: &Course,
    number: usize,
    entry: &Entry,
    found: &Falsified<'_>,
    out: &mut T,
) -> Result<(), TellFault>
    requires missed { joint_answer entry.now course.now ≡ Err StepFault.NotEnabled }
    requires found { IsFalsified (find_conf (component.Node (node_of entry.now.action)) course.now) entry.now.action
        (false_part_found found.now) }
    ensures { OnOk result (HearsRefused T.refuses course.now number entry.now out.old out.new) }
{
    let reason = Reason::False(found.test, found.part, found.values.as_slice());
    tell_reason(alloc, course, number, entry, reason, out)
}

/// Tells an entry whose action is not enabled, for this reason.
fn tell_reason<T: TellsRefusal>(
    alloc: Global,
    course: &Course,
    number: usize,
    entry: &Entry,
    reason: Reason<'_>,
    out: &mut T,
) -> Result<(), TellFault>
    requires missed { joint_answer entry.now course.now ≡ Err StepFault.NotEnabled }
    requires queue { IsReason (queue_among (participants_of entry.now.action) course.now) entry.now.action
        (told.reason_of reason) }
    requires node { IsNodeReason (find_conf (component.Node (node_of entry.now.action)) course.now) entry.now.action
        (told.reason_of reason) }
    ensures { OnOk result (HearsRefused T.refuses course.now number entry.now out.old out.new) }
{
    let refusal = Refusal::Missed(reason);
    tell_with(
        alloc,
        course,
        number,
        entry,
        StepFault::NotEnabled,
        refusal,
        out,
    )
}

/// Tells an entry in whose step something has no value.
fn tell_without_value<T: TellsRefusal>(
    alloc: Global,
    course: &Course,
    number: usize,
    entry: &Entry,
    fault: StepFault,
    out: &mut T,
) -> Result<(), TellFault>
    requires { joint_answer entry.now course.now ≡ Err fault }
    ensures { OnOk result (HearsRefused T.refuses course.now number entry.now out.old out.new) }
{
    match node_at(course, entry) {
        None => tell_plain(alloc, course, number, entry, fault, out),
        Some(node) => tell_unfit(alloc, course, number, entry, fault, node, out),
    }
}

/// Tells an entry that has an argument which is not of its sort at a node with this configuration; else, at which part
/// its step stops.
fn tell_unfit<T: TellsRefusal>(
    alloc: Global,
    course: &Course,
    number: usize,
    entry: &Entry,
    fault: StepFault,
    node: &Conf,
    out: &mut T,
) -> Result<(), TellFault>
    requires fault { joint_answer entry.now course.now ≡ Err fault }
    requires node { find_conf (component.Node (node_of entry.now.action)) course.now ≡ Some node.now }
    ensures { OnOk result (HearsRefused T.refuses course.now number entry.now out.old out.new) }
{
    match find_unfit_in(alloc, node, entry.action())? {
        None => tell_stopped(alloc, course, number, entry, fault, node, out),
        Some(found) => {
            let refusal = Refusal::Unfit(found.name, &found.value);
            tell_with(alloc, course, number, entry, fault, refusal, out)
        }
    }
}

/// Tells an entry whose step stops at a node with this configuration, at which part, if one is found.
fn tell_stopped<T: TellsRefusal>(
    alloc: Global,
    course: &Course,
    number: usize,
    entry: &Entry,
    fault: StepFault,
    node: &Conf,
    out: &mut T,
) -> Result<(), TellFault>
    requires fault { joint_answer entry.now course.now ≡ Err fault }
    requires node { find_conf (component.Node (node_of entry.now.action)) course.now ≡ Some node.now }
    ensures { OnOk result (HearsRefused T.refuses course.now number entry.now out.old out.new) }
{
    match find_faulted_in(alloc, node, entry.action())? {
        None => tell_plain(alloc, course, number, entry, fault, out),
        Some(found) => {
            if may_be_elsewhere(entry, found.place) {
                return tell_plain(alloc, course, number, entry, fault, out);
            }
            let refusal = Refusal::Faulted(found.place, found.fault.told());
            tell_with(alloc, course, number, entry, fault, refusal, out)
        }
    }
}

/// Whether the step of an entry may stop elsewhere than a search says that made the effect's choices by their own
/// terms: the entry chose values itself.
fn may_be_elsewhere(entry: &Entry, place: Place<'_>) -> bool {
    match place {
        Place::Condition | Place::Guard => false,
        Place::Effect(_) => !entry.chosen().is_empty(),
    }
}

/// Tells an entry whose node has no such action.
fn tell_not_mine<T: TellsRefusal>(
    alloc: Global,
    course: &Course,
    number: usize,
    entry: &Entry,
    out: &mut T,
) -> Result<(), TellFault>
    requires { joint_answer entry.now course.now ≡ Err StepFault.NotMine }
    ensures { OnOk result (HearsRefused T.refuses course.now number entry.now out.old out.new) }
{
    match node_at(course, entry) {
        None => tell_plain(alloc, course, number, entry, StepFault::NotMine, out),
        Some(node) => tell_other_const(alloc, course, number, entry, node, out),
    }
}

/// The same of a node with this configuration: by an argument that is another value than its `const`, if there is one.
fn tell_other_const<T: TellsRefusal>(
    alloc: Global,
    course: &Course,
    number: usize,
    entry: &Entry,
    node: &Conf,
    out: &mut T,
) -> Result<(), TellFault>
    requires fault { joint_answer entry.now course.now ≡ Err StepFault.NotMine }
    requires node { find_conf (component.Node (node_of entry.now.action)) course.now ≡ Some node.now }
    ensures { OnOk result (HearsRefused T.refuses course.now number entry.now out.old out.new) }
{
    match find_other_const_in(alloc, node, entry.action())? {
        None => tell_plain(alloc, course, number, entry, StepFault::NotMine, out),
        Some(found) => {
            let refusal = Refusal::OtherConst(&found);
            tell_with(
                alloc,
                course,
                number,
                entry,
                StepFault::NotMine,
                refusal,
                out,
            )
        }
    }
}

/// Tells an entry whose step has this fault, of which no more is known.
fn tell_plain<T: TellsRefusal>(
    alloc: Global,
    course: &Course,
    number: usize,
    entry: &Entry,
    fault: StepFault,
    out: &mut T,
) -> Result<(), TellFault>
    requires { joint_answer entry.now course.now ≡ Err fault }
    ensures { OnOk result (HearsRefused T.refuses course.now number entry.now out.old out.new) }
{
    let refusal = Refusal::Plain(fault);
    tell_with(alloc, course, number, entry, fault, refusal, out)
}

/// Tells an entry whose step has this fault, with a refusal.
fn tell_with<T: TellsRefusal>(
    alloc: Global,
    _course: &Course,
    number: usize,
    entry: &Entry,
    _fault: StepFault,
    refusal: Refusal<'_>,
    out: &mut T,
) -> Result<(), TellFault>
    requires fault { joint_answer entry.now _course.now ≡ Err _fault }
    requires told { IsToldOf _course.now entry.now _fault (refusal_of refusal) }
    ensures { OnOk result (HearsRefused T.refuses _course.now number entry.now out.old out.new) }
{
    out.refused(alloc, number, entry, refusal)
}
