//! Proposals of an action on what was read of its participants.

ghost use Rattle.std.specs.Prelude.{◌≡◌, [], ◌∷◌, IfOk, OnOk, Some, Ok};
ghost use Rattle.std.specs.Arc.{arc_value};
ghost use Rattle.ioa_values.specs.Outcome.{Answers, and_then};
ghost use Rattle.ioa_terms.specs.Choices.{made_values, source_of, yielded};
ghost use Rattle.ioa_transitions.specs.Entries.{entry};
ghost use Rattle.ioa_compose.specs.Composition.{conf_pick};
ghost use Rattle.ioa_compose.specs.Participants.{participants_of};
ghost use Rattle.ioa_commits.specs.Proposals.{plain_proposal};
ghost use Rattle.ioa_commits.specs.Versions.{read_component};

use crate::rooms::Rooms;
use ioa_actions::{Action, StepFault};
use ioa_commits::{Participant, Parts, Proposal, VersionedConf};
use ioa_compose::Conf;
use ioa_sharing::Origin;
use ioa_terms::Choices;
use ioa_transitions::Entry;
use ioa_values::Value;
use std::alloc::{AllocError, Global};
use std::mem;
use std::sync::Arc;

/// The proposal of the action of an entry whose one participant was read so. A fault of the participant's own step is
/// returned. `rule_number` is that of the action's rule in the node's program, if it is known.
#[inline(always)]
#[tactic(auto, using(crate::proofs::PickedParts::one_steps))]
pub(crate) fn proposal_of_one<O: Origin>(
    alloc: Global,
    fired: Entry,
    rule_number: Option<usize>,
    length: usize,
    node: &VersionedConf<O>,
    rooms: &mut Rooms<O>,
) -> Result<Proposal<O>, StepFault>
    requires { participants_of fired.action ≡ read_component node.now ∷ [] }
    ensures { Answers StepFault.Memory (λ p. p) result
        (and_then (conf_pick fired.action node.now.conf) (λ t. Ok (plain_proposal t.0 length (node.now ∷ [])))) }
{
    let mut choices = Choices::Yielded(Vec::new(alloc));
    let room = &mut rooms.node;
    let node = participant(alloc, fired.action(), rule_number, node, room, &mut choices)?;
    let entry = recorded(alloc, fired, choices)?;
    let again = entry.try_clone()?;
    Ok(Proposal::new(entry, again, length, None, node))
}

/// The proposal of the action of an entry whose two participants were read so. The first fault of their own steps is
/// returned, the queue's first.
#[tactic(auto, using(crate::proofs::PickedParts::two_steps))]
pub(crate) fn proposal_of_two<O: Origin>(
    alloc: Global,
    fired: Entry,
    rule_number: Option<usize>,
    length: usize,
    queue: &VersionedConf<O>,
    node: &VersionedConf<O>,
    rooms: &mut Rooms<O>,
) -> Result<Proposal<O>, StepFault>
    requires { participants_of fired.action ≡ read_component queue.now ∷ read_component node.now ∷ [] }
    ensures { Answers StepFault.Memory (λ p. p) result
        (and_then (conf_pick fired.action queue.now.conf) (λ _. and_then (conf_pick fired.action node.now.conf)
        (λ t. Ok (plain_proposal t.0 length (queue.now ∷ node.now ∷ []))))) }
{
    let mut none = Choices::Yielded(Vec::new(alloc));
    let queue = participant(
        alloc,
        fired.action(),
        None,
        queue,
        &mut rooms.queue,
        &mut none,
    )?;
    // a queue chooses nothing, so there is nothing to let go
    mem::forget(none);
    let mut choices = Choices::Yielded(Vec::new(alloc));
    let room = &mut rooms.node;
    let node = participant(alloc, fired.action(), rule_number, node, room, &mut choices)?;
    let entry = recorded(alloc, fired, choices)?;
    let again = entry.try_clone()?;
    Ok(Proposal::new(entry, again, length, Some(queue), node))
}

/// What is recorded of the action of an entry whose effect made these choices.
#[inline(always)]
fn recorded(alloc: Global, fired: Entry, choices: Choices) -> Result<Entry, AllocError>
    ensures { IfOk result (λ e. e ≡ entry fired.action (made_values (source_of choices.entry))) }
{
    fired.with_choices(alloc, choices)
}

/// A participant that was read so, with its configuration after its own step by an action, or the step's fault. If
/// there is room, it is made there.
#[inline(always)]
fn participant<O: Origin>(
    alloc: Global,
    action: &Action,
    rule_number: Option<usize>,
    read: &VersionedConf<O>,
    room: &mut Option<Participant<O>>,
    choices: &mut Choices,
) -> Result<Participant<O>, StepFault>
    requires { source_of choices.old ≡ yielded [] }
    ensures step { Answers StepFault.Memory (λ p. (entry action.now (made_values (source_of choices.new)), p.next))
        result (conf_pick action.now read.now.conf) }
    ensures read { IfOk result (λ p. p.read ≡ read.now) }
{
    match room.take() {
        Some(kept) => participant_in(alloc, action, rule_number, read, kept, room, choices),
        None => {
            let (participant, chosen) = participant_anew(alloc, action, read)?;
            *choices = Choices::Yielded(chosen);
            Ok(participant)
        }
    }
}

/// The same in this room, which comes back after a fault.
#[inline(always)]
fn participant_in<O: Origin>(
    alloc: Global,
    action: &Action,
    rule_number: Option<usize>,
    read: &VersionedConf<O>,
    mut kept: Participant<O>,
    room: &mut Option<Participant<O>>,
    choices: &mut Choices,
) -> Result<Participant<O>, StepFault>
    requires { source_of choices.old ≡ yielded [] }
    ensures step { Answers StepFault.Memory (λ p. (entry action.now (made_values (source_of choices.new)), p.next))
        result (conf_pick action.now read.now.conf) }
    ensures read { IfOk result (λ p. p.read ≡ read.now) }
{
    match write_over(alloc, action, rule_number, read, &mut kept.parts, choices) {
        Ok(()) => Ok(kept),
        Err(fault) => {
            *room = Some(kept);
            Err(fault)
        }
    }
}

/// The same, written over the parts of another participant. What was read comes first: it may be the other owner of the
/// configuration that is written over then.
#[inline(always)]
fn write_over<O: Origin>(
    alloc: Global,
    action: &Action,
    rule_number: Option<usize>,
    read: &VersionedConf<O>,
    parts: &mut Parts<O>,
    choices: &mut Choices,
) -> Result<(), StepFault>
    requires { source_of choices.old ≡ yielded [] }
    ensures step { Answers StepFault.Memory
        (λ _. (entry action.now (made_values (source_of choices.new)), arc_value parts.new.next)) result
        (conf_pick action.now read.now.conf) }
    ensures read { OnOk result (parts.new.read ≡ read.now) }
{
    parts.read.refresh(read)?;
    step_over(
        alloc,
        action,
        rule_number,
        read.conf(),
        &mut parts.next,
        choices,
    )
}

/// The same, where there is no room, and the values that were chosen.
#[inline(never)]
fn participant_anew<O: Origin>(
    alloc: Global,
    action: &Action,
    read: &VersionedConf<O>,
) -> Result<(Participant<O>, Vec<Value>), StepFault>
    ensures step { Answers StepFault.Memory (λ t. (entry action.now t.1.items, t.0.next)) result
        (conf_pick action.now read.now.conf) }
    ensures read { IfOk result (λ t. t.0.read ≡ read.now) }
{
    let (next, chosen) = step_of(alloc, action, read.conf())?;
    let read = read.try_copy()?;
    let participant = Participant::new(alloc, read, next)?;
    Ok((participant, chosen))
}

/// The own step of a configuration by an action, or its fault, written over another one if nobody else owns that.
#[inline(always)]
fn step_over(
    alloc: Global,
    action: &Action,
    rule_number: Option<usize>,
    conf: &Conf,
    next: &mut Arc<Conf>,
    choices: &mut Choices,
) -> Result<(), StepFault>
    requires { source_of choices.old ≡ yielded [] }
    ensures { Answers StepFault.Memory
        (λ _. (entry action.now (made_values (source_of choices.new)), arc_value next.new)) result
        (conf_pick action.now conf.now) }
{
    match Arc::get_mut(next) {
        Some(place) => conf.step_over(alloc, action, rule_number, place, choices),
        None => {
            let (anew, chosen) = step_of(alloc, action, conf)?;
            *next = anew;
            *choices = Choices::Yielded(chosen);
            Ok(())
        }
    }
}

/// The own step of a configuration by an action, and the values that it chose; or its fault.
#[inline(never)]
fn step_of(
    alloc: Global,
    action: &Action,
    conf: &Conf,
) -> Result<(Arc<Conf>, Vec<Value>), StepFault>
    ensures { Answers StepFault.Memory (λ t. (entry action.now t.1.items, arc_value t.0)) result
        (conf_pick action.now conf.now) }
{
    let (next, chosen) = conf.step(alloc, action)?;
    let next = share(alloc, next)?;
    Ok((next, chosen))
}

/// The same configuration, so that it can be shared.
fn share(alloc: Global, conf: Conf) -> Result<Arc<Conf>, AllocError>
    ensures { IfOk result (λ shared. arc_value shared ≡ conf) }
{
    Ok(Arc::new(alloc, conf)?)
}
