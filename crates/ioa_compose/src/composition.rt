//! Joint steps of a system's components.

ghost use Rattle.std.specs.Prelude.{◌≡◌, IfOk, IfSome, [], ◌∷◌, Some};
ghost use Rattle.std.specs.List.{position_from};
ghost use Rattle.std.specs.Option.{option_copied};
ghost use Rattle.ioa_values.specs.Outcome.{Answers};
ghost use Rattle.ioa_compose.specs.Participants.{participants_of};
ghost use Rattle.ioa_actions.specs.ComponentOrder.{same_component};
ghost use Rattle.ioa_compose.specs.Composition.{component_of, find_conf, put_conf, put_confs};
ghost use Rattle.ioa_compose.specs.Composition.{find_confs, changes_of, joint_answer, joint_pick, picks_of};
ghost use Rattle.ioa_transitions.specs.Entries.{entry};

use crate::configuration::Conf;
use crate::parties::{Parties, participants};
use ioa_actions::{Action, Component, StepFault};
use ioa_transitions::Entry;
use ioa_values::Value;
use std::alloc::{AllocError, Global};

/// The configuration of a component; the first one if several bear its name.
#[tactic(auto, using(crate::proofs::Components::name_found))]
pub fn find_conf(confs: &[Conf], component: Component) -> Option<&Conf>
    ensures found { option_copied result ≡ find_conf component confs.now }
    ensures name { IfSome result (λ c. component_of c.now ≡ component) }
{
    confs.iter().find(|conf| component == conf.component())
}

/// The new configurations of the participants of an action, the queue's first, and the values that the node's effect
/// chose by its own terms, in order. `NoChannel` (42) if a participant has no configuration; else the first fault of
/// their own steps, the queue's first.
pub fn pick(
    alloc: Global,
    confs: &[Conf],
    action: &Action,
) -> Result<(Vec<Conf>, Vec<Value>), StepFault>
    ensures { Answers StepFault.Memory (λ t. (entry action.now t.1.items, t.0.items)) result
        (picks_of action.now (find_confs (participants_of action.now) confs.now)) }
{
    match participants(action) {
        Parties::One(node) => {
            let Some(node) = find_conf(confs, node) else {
                return Err(StepFault::NoChannel);
            };
            one_pick(alloc, action, node)
        }
        Parties::Two(queue, node) => {
            let Some(queue) = find_conf(confs, queue) else {
                return Err(StepFault::NoChannel);
            };
            let Some(node) = find_conf(confs, node) else {
                return Err(StepFault::NoChannel);
            };
            two_picks(alloc, action, queue, node)
        }
    }
}

/// What one participant picks.
#[tactic(auto, using(crate::proofs::Picks::one_pick))]
fn one_pick(
    alloc: Global,
    action: &Action,
    node: &Conf,
) -> Result<(Vec<Conf>, Vec<Value>), StepFault>
    ensures { Answers StepFault.Memory (λ t. (entry action.now t.1.items, t.0.items)) result
        (picks_of action.now (Some node.now ∷ [])) }
{
    let (next, chosen) = node.step(alloc, action)?;
    let mut changed = Vec::new(alloc);
    changed.push(next)?;
    Ok((changed, chosen))
}

/// What two participants pick.
#[tactic(auto, using(crate::proofs::Picks::two_picks))]
fn two_picks(
    alloc: Global,
    action: &Action,
    queue: &Conf,
    node: &Conf,
) -> Result<(Vec<Conf>, Vec<Value>), StepFault>
    requires { participants_of action.now ≡ component_of queue.now ∷ component_of node.now ∷ [] }
    ensures { Answers StepFault.Memory (λ t. (entry action.now t.1.items, t.0.items)) result
        (picks_of action.now (Some queue.now ∷ Some node.now ∷ [])) }
{
    let (next_queue, _) = queue.step(alloc, action)?;
    let (next_node, chosen) = node.step(alloc, action)?;
    let mut changed = Vec::new(alloc);
    changed.push(next_queue)?;
    changed.push(next_node)?;
    Ok((changed, chosen))
}

/// The new configurations of the participants of an entry, which is taken again, the queue's first. The faults are
/// those of `pick`.
pub fn changes(alloc: Global, confs: &[Conf], entry: &Entry) -> Result<Vec<Conf>, StepFault>
    ensures { Answers StepFault.Memory (λ v. v.items) result
        (changes_of entry.now (find_confs (participants_of entry.now.action) confs.now)) }
{
    let mut changed = Vec::new(alloc);
    match participants(entry.action()) {
        Parties::One(node) => {
            let Some(node) = find_conf(confs, node) else {
                return Err(StepFault::NoChannel);
            };
            changed.push(node.redo(alloc, entry)?)?;
        }
        Parties::Two(queue, node) => {
            let Some(queue) = find_conf(confs, queue) else {
                return Err(StepFault::NoChannel);
            };
            let Some(node) = find_conf(confs, node) else {
                return Err(StepFault::NoChannel);
            };
            changed.push(queue.redo(alloc, entry)?)?;
            changed.push(node.redo(alloc, entry)?)?;
        }
    }
    Ok(changed)
}

/// The position of a component's configuration; of the first one if several bear its name.
fn position_of(confs: &[Conf], component: Component) -> Option<usize>
    ensures { result ≡ position_from (λ c. same_component component (component_of c)) 0 confs.now }
{
    confs.iter().position(|conf| component == conf.component())
}

/// Replaces the configuration that bears the name of this one's component; does nothing if there is none. Takes no
/// memory.
pub fn put_conf(confs: &mut Vec<Conf>, conf: Conf)
    ensures { confs.new.items ≡ put_conf conf confs.old.items }
{
    if let Some(position) = position_of(confs.as_slice(), conf.component()) {
        confs[position] = conf;
    }
}

/// Replaces the configuration of the same component by each of these. Takes no memory.
pub fn put_confs(confs: &mut Vec<Conf>, changed: Vec<Conf>)
    ensures { confs.new.items ≡ put_confs changed.items confs.old.items }
{
    for conf in changed {
        put_conf(confs, conf);
    }
}

/// The same configurations once more, whose values share their collections with those of these.
pub fn copy_confs(alloc: Global, confs: &[Conf]) -> Result<Vec<Conf>, AllocError>
    ensures { IfOk result (λ v. v.items ≡ confs.now) }
{
    let mut copied = Vec::new(alloc);
    for conf in confs {
        copied.push(conf.try_copy(alloc)?)?;
    }
    Ok(copied)
}

/// The configurations after a joint step that an action is picked for: each participant takes its own step, and all
/// others stay (Lynch 8.2); and the values that the node's effect chose by its own terms, in order. `NoChannel` (42) if
/// a participant is no component; else the first fault of the participants' own steps, the queue's first.
pub fn joint_step(
    alloc: Global,
    confs: &[Conf],
    action: &Action,
) -> Result<(Vec<Conf>, Vec<Value>), StepFault>
    ensures { Answers StepFault.Memory (λ t. (entry action.now t.1.items, t.0.items)) result
        (joint_pick action.now confs.now) }
{
    let (changed, chosen) = pick(alloc, confs, action)?;
    let next = with_confs(alloc, confs, changed)?;
    Ok((next, chosen))
}

/// The configurations after the joint step by an entry, which is taken again. The faults are those of `joint_step`.
pub fn joint_redo(alloc: Global, confs: &[Conf], entry: &Entry) -> Result<Vec<Conf>, StepFault>
    ensures { Answers StepFault.Memory (λ v. v.items) result (joint_answer entry.now confs.now) }
{
    let changed = changes(alloc, confs, entry)?;
    Ok(with_confs(alloc, confs, changed)?)
}

/// The same configurations, but for these.
fn with_confs(alloc: Global, confs: &[Conf], changed: Vec<Conf>) -> Result<Vec<Conf>, AllocError>
    ensures { IfOk result (λ v. v.items ≡ put_confs changed.items confs.now) }
{
    let mut next = copy_confs(alloc, confs)?;
    put_confs(&mut next, changed);
    Ok(next)
}
