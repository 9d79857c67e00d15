//! The action that a node fires.

ghost use Rattle.std.specs.Prelude.{◌≡◌, ◌∷◌, [], IfOk, IfSome};
ghost use Rattle.std.specs.Option.{option_copied};
ghost use Rattle.ioa_values.specs.Data.{number};
ghost use Rattle.ioa_values.specs.DataOrder.{same};
ghost use Rattle.ioa_actions.specs.ActionParts.{action_arguments};
ghost use Rattle.ioa_actions.specs.ValuesOrder.{all_same};
ghost use Rattle.ioa_schedules.specs.Turns.{IsAtFiring};
ghost use Rattle.ioa_system.specs.Numbered.{IsNumberOf};
ghost use Rattle.ioa_terms.specs.View.{firing_of};
ghost use Rattle.ioa_turns.specs.Fired as spec;
ghost use Rattle.ioa_turns.specs.NodeTurns.{arguments_in, kept_in, progress_of};

use crate::progress::{LastFired, Progress};
use ioa_actions::{Action, are_same};
use ioa_system::{Program, Rule};
use ioa_terms::{Callee, Firing, Kind, Shape, Value};
use ioa_transitions::Entry;
use std::alloc::{AllocError, Global};

/// The action that a firing with these arguments gives at a node with this program: a receive or a stimulus if its rule
/// is an input, and else a send or a local action.
fn action_of(
    alloc: Global,
    program: &Program,
    firing: &Firing<usize, Callee, Shape>,
    arguments: &[Value],
) -> Result<Action, AllocError>
    requires { IsNumberOf program.now.automaton.rules firing.now.action firing.now.rule }
    ensures { IfOk result (λ a. a ≡ spec.action_fired program.now firing.now.action arguments.now) }
{
    let name = &firing.action;
    if is_input(program.automaton().rule_numbered(firing.rule)) {
        Action::input_at(alloc, program.node(), name, arguments)
    } else {
        Action::locally_controlled_at(alloc, program.node(), name, arguments)
    }
}

/// Whether a rule is there and its actions are inputs.
fn is_input(rule: Option<&Rule>) -> bool
    ensures { result ≡ spec.is_input (option_copied rule.entry) }
{
    match rule {
        None => false,
        Some(rule) => rule.entry.kind == Kind::Input,
    }
}

impl Progress<'_> {
    /// The entry of a firing at which the node stands, with the arguments that its turn found. If
    /// it is the one that the node fired last, that gets one more owner, and nothing is built.
    #[inline(always)]
    pub fn action_fired(
        &mut self,
        alloc: Global,
        firing: &Firing<usize, Callee, Shape>,
    ) -> Result<Entry, AllocError>
        requires { IsAtFiring (firing_of firing.now) (progress_of self.old).todo }
        ensures action { IfOk result (λ e. e.action ≡ spec.action_fired (progress_of self.old).program
            (firing_of firing.now).action (arguments_in self.old)) }
        ensures unchanged { progress_of self.new ≡ progress_of self.old }
        ensures kept { kept_in self.new ≡ kept_in self.old }
    {
        match self.last_fired(firing, self.control.arguments()) {
            Some(entry) => entry.try_clone(),
            None => self.fire_anew(alloc, firing),
        }
    }

    /// The entry that the node fired last, if it is of the firing's rule and has these arguments.
    #[inline(always)]
    fn last_fired(
        &self,
        firing: &Firing<usize, Callee, Shape>,
        arguments: &[Value],
    ) -> Option<&Entry>
        requires { IsNumberOf self.now.program.now.automaton.rules firing.now.action firing.now.rule }
        ensures { IfSome result
            (λ e. e.now.action ≡ spec.action_fired self.now.program.now firing.now.action arguments.now) }
    {
        match &self.last {
            Some(last) => {
                if last.rule == firing.rule && has_arguments(last.entry.action(), arguments) {
                    Some(&last.entry)
                } else {
                    None
                }
            }
            None => None,
        }
    }

    /// The same entry, which is built, and which the node keeps too.
    #[inline(never)]
    fn fire_anew(
        &mut self,
        alloc: Global,
        firing: &Firing<usize, Callee, Shape>,
    ) -> Result<Entry, AllocError>
        requires { IsNumberOf self.old.program.now.automaton.rules firing.now.action firing.now.rule }
        ensures action { IfOk result
            (λ e. e.action ≡ spec.action_fired self.old.program.now firing.now.action (arguments_in self.old)) }
        ensures unchanged { progress_of self.new ≡ progress_of self.old }
        ensures kept { kept_in self.new ≡ kept_in self.old }
    {
        let action = action_of(alloc, self.program, firing, self.control.arguments())?;
        let entry = Entry::of(alloc, action)?;
        self.last = Some(LastFired {
            rule: firing.rule,
            entry: entry.try_clone()?,
        });
        Ok(entry)
    }
}

/// Whether an action has these arguments.
#[inline(always)]
fn has_arguments(action: &Action, arguments: &[Value]) -> bool
    ensures { result ≡ all_same (action_arguments action.now) arguments.now }
{
    match action {
        Action::Send { message, from, to } => are_message(message, *from, *to, arguments),
        Action::Receive { message, from, to } => are_message(message, *from, *to, arguments),
        Action::Local(action) => are_same(action.arguments.as_slice(), arguments),
        Action::Stimulus(action) => are_same(action.arguments.as_slice(), arguments),
    }
}

/// Whether arguments are a message and the two ends of its channel.
#[tactic(auto, using(crate::proofs::LastFired::fewer, crate::proofs::LastFired::further))]
fn are_message(message: &Value, from: i64, to: i64, arguments: &[Value]) -> bool
    ensures { result ≡ all_same (message.now ∷ number from ∷ number to ∷ []) arguments.now }
{
    match arguments {
        [first, second, third] => {
            is_same(message, first) && is_number(second, from) && is_number(third, to)
        }
        _ => false,
    }
}

/// Whether two values are the same. A number is compared with nothing else.
#[tactic(auto, using(crate::proofs::LastFired::number_first))]
fn is_same(value: &Value, other: &Value) -> bool
    ensures { result ≡ same value.now other.now }
{
    match value.as_number() {
        Some(number) => is_number(other, number),
        None => value == other,
    }
}

/// Whether a value is this number.
#[tactic(auto, using(crate::proofs::LastFired::number_same, crate::proofs::LastFired::no_number))]
fn is_number(value: &Value, wanted: i64) -> bool
    ensures { result ≡ same (number wanted) value.now }
{
    match value.as_number() {
        Some(number) => number == wanted,
        None => false,
    }
}
