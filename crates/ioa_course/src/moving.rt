//! Moves of the participants of an action.

ghost use Rattle.std.specs.Prelude.{◌≡◌, ◌∷◌, [], IfErr, Some};
ghost use Rattle.std.specs.List.{position_from};
ghost use Rattle.ioa_values.specs.Outcome.{Answers};
ghost use Rattle.ioa_actions.specs.ComponentOrder.{same_component};
ghost use Rattle.ioa_compose.specs.Composition.{component_names, component_of, joint_answer, put_conf};
ghost use Rattle.ioa_course.specs.Courses.{IsIndexOf, moved};

use crate::slots::slot_of;
use ioa_actions::{Component, StepFault};
use ioa_compose::{Conf, Parties, participants};
use ioa_index::Index;
use ioa_transitions::Entry;
use std::alloc::Global;

/// Moves the participants of an entry's action, each by its own step.
pub(crate) fn move_all(
    alloc: Global,
    confs: &mut Vec<Conf>,
    index: &Index,
    entry: &Entry,
) -> Result<(), StepFault>
    requires { IsIndexOf index.now confs.old.items }
    ensures answer { Answers StepFault.Memory (λ _. confs.new.items) result (joint_answer entry.now confs.old.items) }
    ensures kept { IfErr result (λ _. confs.new.items ≡ confs.old.items) }
{
    match participants(entry.action()) {
        Parties::One(node) => move_one(alloc, confs, index, entry, node),
        Parties::Two(queue, node) => move_two(alloc, confs, index, entry, queue, node),
    }
}

/// Moves a node alone.
fn move_one(
    alloc: Global,
    confs: &mut Vec<Conf>,
    index: &Index,
    entry: &Entry,
    node: Component,
) -> Result<(), StepFault>
    requires { IsIndexOf index.now confs.old.items }
    ensures answer { Answers StepFault.Memory (λ _. confs.new.items) result
        (moved (node ∷ []) entry.now confs.old.items) }
    ensures kept { IfErr result (λ _. confs.new.items ≡ confs.old.items) }
{
    let Some(slot) = slot_of(index, node) else {
        return Err(StepFault::NoChannel);
    };
    let next = confs[slot].redo(alloc, entry)?;
    put_in(confs, slot, next);
    Ok(())
}

/// Moves a queue and a node. None is put before both have taken their steps.
fn move_two(
    alloc: Global,
    confs: &mut Vec<Conf>,
    index: &Index,
    entry: &Entry,
    queue: Component,
    node: Component,
) -> Result<(), StepFault>
    requires { IsIndexOf index.now confs.old.items }
    ensures answer { Answers StepFault.Memory (λ _. confs.new.items) result
        (moved (queue ∷ node ∷ []) entry.now confs.old.items) }
    ensures kept { IfErr result (λ _. confs.new.items ≡ confs.old.items) }
{
    let Some(first) = slot_of(index, queue) else {
        return Err(StepFault::NoChannel);
    };
    let Some(second) = slot_of(index, node) else {
        return Err(StepFault::NoChannel);
    };
    let next_queue = confs[first].redo(alloc, entry)?;
    let next_node = confs[second].redo(alloc, entry)?;
    put_in(confs, first, next_queue);
    put_in(confs, second, next_node);
    Ok(())
}

/// Puts a configuration in the slot of its component.
fn put_in(confs: &mut Vec<Conf>, slot: usize, conf: Conf)
    requires { Some slot ≡ position_from (λ k. same_component (component_of conf) k) 0
        (component_names confs.old.items) }
    ensures { confs.new.items ≡ put_conf conf confs.old.items }
{
    confs[slot] = conf;
}
