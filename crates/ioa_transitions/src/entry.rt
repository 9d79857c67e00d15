//! What a log holds of steps.

ghost use Rattle.std.specs.Prelude.{◌≡◌, ◌↔◌, IfOk, IsTrue, true, []};
ghost use Rattle.ioa_terms.specs.Choices.{made_values, source_of};
ghost use Rattle.ioa_transitions.specs.Entries.{entry, entry_of};
ghost use Rattle.ioa_transitions.specs.SameEntries.{same_entry};
ghost use Rattle.ioa_actions.specs.Actions.{same_action, same_node_action};
ghost use Rattle.ioa_actions.specs.ValuesOrder.{all_same};

use ioa_actions::{Action, NodeAction, are_same};
use ioa_terms::Choices;
use ioa_values::Value;
use std::alloc::{AllocError, Global};
use std::marker::Model;
use std::mem;
use std::sync::Arc;

/// What a log holds of a step: its action, and the values that its effect chose, which are enough to take the step
/// again. All that hold it share its parts, so it is one word.
pub struct Entry {
    step: Arc<Step>,
}

/// By hand, so that crates above do not prove again how the parts are let go (DECISIONS).
impl Drop for Entry {
    #[inline(always)]
    fn drop(self) {
        let Entry { step: _ } = self;
    }
}

/// The parts of an entry. Few steps choose a value, so those that do keep theirs apart.
#[derive(Drop)]
pub(crate) struct Step {
    action: Action,
    chosen: Option<Arc<Vec<Value>>>,
}

impl Model for Entry {
    ghost use Rattle.std.specs.Arc.{arc_value};
    ghost use Rattle.ioa_transitions.specs.Choosing.{plain_step};
    ghost use Rattle.ioa_transitions.specs.Entries.{PlainEntry, entry_code};

    ghost Value = { PlainEntry };

    ghost coded = { entry_code };

    ghost view = { λ e. plain_step (arc_value e.step) };
}

impl Entry {
    /// The entry of a step by an action that chooses nothing.
    pub fn of(alloc: Global, action: Action) -> Result<Self, AllocError>
        ensures { IfOk result (λ e. e ≡ entry_of action) }
    {
        let step = Arc::new(
            alloc,
            Step {
                action,
                chosen: None,
            },
        )?;
        Ok(Entry { step })
    }

    /// The entry of a step by the same action whose effect chose the values that were yielded. It is this one, and
    /// takes no memory, if there are none.
    #[inline(always)]
    pub fn with_choices(self, alloc: Global, choices: Choices) -> Result<Self, AllocError>
        ensures { IfOk result (λ e. e ≡ entry self.action (made_values (source_of choices.entry))) }
    {
        if self.step.chosen.is_none() && has_made_none(&choices) {
            // they own nothing, and to let them go would cost as much as all else that such a step pays for choices
            mem::forget(choices);
            Ok(self)
        } else {
            self.choosing(alloc, choices.into_made(alloc))
        }
    }

    /// The same, with its own memory.
    #[inline(never)]
    fn choosing(&self, alloc: Global, chosen: Vec<Value>) -> Result<Self, AllocError>
        ensures { IfOk result (λ e. e ≡ entry self.now.action chosen.items) }
    {
        let action = self.action().try_copy(alloc)?;
        let chosen = Some(Arc::new(alloc, chosen)?);
        let step = Arc::new(alloc, Step { action, chosen })?;
        Ok(Entry { step })
    }

    /// The action of the step.
    pub fn action(&self) -> &Action
        ensures { result.now ≡ self.now.action }
    {
        &self.step.action
    }

    /// The values that the effect chose, in order.
    pub fn chosen(&self) -> &[Value]
        ensures { result.now ≡ self.now.chosen }
    {
        match &self.step.chosen {
            None => &[],
            Some(chosen) => chosen.as_slice(),
        }
    }

    /// Whether two entries have the same action and chose the same values.
    #[inline(always)]
    #[tactic(auto, using(crate::proofs::SameEntries::same_entry_is))]
    pub fn equals(&self, other: &Self) -> bool
        ensures { IsTrue result ↔ (self.now ≡ other.now) }
    {
        self.is_same(other)
    }

    /// Whether both parts are the same.
    #[inline(always)]
    fn is_same(&self, other: &Self) -> bool
        ensures { result ≡ same_entry self.now other.now }
    {
        is_same_action(self.action(), other.action()) && self.has_chosen_as(other)
    }

    /// Whether two entries chose the same values. Mostly neither chose any.
    #[inline(always)]
    fn has_chosen_as(&self, other: &Self) -> bool
        ensures { result ≡ all_same self.now.chosen other.now.chosen }
    {
        match (&self.step.chosen, &other.step.chosen) {
            (None, None) => true,
            _ => are_same(self.chosen(), other.chosen()),
        }
    }

    /// The same entry once more, which shares its parts with this one; takes no memory.
    pub fn try_clone(&self) -> Result<Self, AllocError>
        ensures { IfOk result (λ e. e ≡ self.now) }
    {
        let step = Arc::try_clone(&self.step)?;
        Ok(Entry { step })
    }
}

/// Whether two actions are the same. Most are local, and those are compared here, with no call.
#[inline(always)]
fn is_same_action(action: &Action, other: &Action) -> bool
    ensures { result ≡ same_action action.now other.now }
{
    match (action, other) {
        (Action::Local(action), Action::Local(other)) => is_same_local(action, other),
        _ => action.equals(other),
    }
}

/// Whether two local actions are the same.
#[inline(always)]
fn is_same_local(action: &NodeAction, other: &NodeAction) -> bool
    ensures { result ≡ same_node_action action.now other.now }
{
    action.node == other.node
        && action.name == other.name
        && are_same(action.arguments.as_slice(), other.arguments.as_slice())
}

/// Whether no value was yielded.
#[inline(always)]
fn has_made_none(choices: &Choices) -> bool
    ensures { result ≡ true → made_values (source_of choices.now) ≡ [] }
{
    match choices {
        Choices::Given(_) => true,
        Choices::Yielded(made) => made.is_empty(),
    }
}
