//! Configurations of components.

ghost use Rattle.std.specs.Prelude.{◌≡◌, ◌↔◌, IfOk, IsTrue, []};
ghost use Rattle.ioa_values.specs.Outcome.{Answers};
ghost use Rattle.ioa_terms.specs.Choices.{made_values, source_of, yielded};
ghost use Rattle.ioa_transitions.specs.Entries.{entry, entry_of};
ghost use Rattle.ioa_compose.specs.Composition.{component_of, conf_answer, conf_pick};
ghost use Rattle.ioa_compose.specs.SameConfs.{same_conf};

use ioa_actions::{Action, Component, StepFault};
use ioa_channels::Queue;
use ioa_terms::Choices;
use ioa_transitions::{Entry, NodeConf};
use ioa_values::Value;
use std::alloc::{AllocError, Global};

/// The configuration of a component, which bears the component's name.
pub enum Conf {
    /// Of a node.
    Node(NodeConf),
    /// Of a channel or a script.
    Queue(Queue),
}

/// By hand, so that crates above do not prove again how the parts are let go (DECISIONS).
impl Drop for Conf {
    #[inline(always)]
    fn drop(self) {
        match self {
            Conf::Node(_) | Conf::Queue(_) => {}
        }
    }
}

impl Conf {
    /// The name of its component.
    pub fn component(&self) -> Component
        ensures { result ≡ component_of self.now }
    {
        match self {
            Conf::Node(node) => Component::Node(node.node()),
            Conf::Queue(queue) => queue.component(),
        }
    }

    /// Whether two configurations are the same. Costs time in proportion to the shorter one.
    #[tactic(auto, using(crate::proofs::SameConfs::same_conf_is))]
    pub fn equals(&self, other: &Self) -> bool
        ensures equality { IsTrue result ↔ (self.now ≡ other.now) }
    {
        self.is_same(other)
    }

    /// Whether two configurations are of one kind and have the same parts.
    fn is_same(&self, other: &Self) -> bool
        ensures { result ≡ same_conf self.now other.now }
    {
        match (self, other) {
            (Conf::Node(node), Conf::Node(second)) => node.equals(second),
            (Conf::Queue(queue), Conf::Queue(second)) => queue.equals(second),
            _ => false,
        }
    }

    /// The same configuration once more, whose values share their collections with this one's. Costs time in
    /// proportion to the number of variables.
    pub fn try_copy(&self, alloc: Global) -> Result<Self, AllocError>
        ensures { IfOk result (λ c. c ≡ self.now) }
    {
        match self {
            Conf::Node(node) => Ok(Conf::Node(node.try_copy(alloc)?)),
            Conf::Queue(queue) => Ok(Conf::Queue(queue.try_copy()?)),
        }
    }

    /// The configuration after the component's own step by an action (Lynch 8.1) whose effect chooses by its own terms,
    /// and the values that it chose, in order; or the component's own fault. It is meant for an action in which the
    /// component takes part, and does not test that.
    #[tactic(auto, unfolding(crate::specs::Composition::conf_pick))]
    pub fn step(&self, alloc: Global, action: &Action) -> Result<(Self, Vec<Value>), StepFault>
        ensures { Answers StepFault.Memory (λ t. (entry action.now t.1.items, t.0)) result
            (conf_pick action.now self.now) }
    {
        match self {
            Conf::Node(node) => {
                let (next, chosen) = node.step(alloc, action)?;
                Ok((Conf::Node(next), chosen))
            }
            Conf::Queue(queue) => {
                let next = queue.step(alloc, action)?;
                Ok((Conf::Queue(next), Vec::new(alloc)))
            }
        }
    }

    /// The same step, written over another configuration, whose room is used again where it serves. After a fault that
    /// is some configuration. The values that are chosen stand in the choices, of which none was made before.
    #[inline(always)]
    #[tactic(auto, unfolding(crate::specs::Composition::conf_pick))]
    pub fn step_over(
        &self,
        alloc: Global,
        action: &Action,
        rule_number: Option<usize>,
        next: &mut Conf,
        choices: &mut Choices,
    ) -> Result<(), StepFault>
        requires { source_of choices.old ≡ yielded [] }
        ensures { Answers StepFault.Memory (λ _. (entry action.now (made_values (source_of choices.new)), next.new))
            result (conf_pick action.now self.now) }
    {
        match self {
            Conf::Node(node) => step_node_over(alloc, node, action, rule_number, next, choices),
            Conf::Queue(queue) => step_queue_over(alloc, queue, action, next),
        }
    }

    /// The configuration after the component's own step by an entry, which is taken again, or the component's own
    /// fault. It is meant for an entry in which the component takes part, and does not test that.
    #[tactic(auto, unfolding(crate::specs::Composition::conf_answer))]
    pub fn redo(&self, alloc: Global, entry: &Entry) -> Result<Self, StepFault>
        ensures { Answers StepFault.Memory (λ c. c) result (conf_answer entry.now self.now) }
    {
        match self {
            Conf::Node(node) => Ok(Conf::Node(node.redo(alloc, entry)?)),
            Conf::Queue(queue) => Ok(Conf::Queue(queue.step(alloc, entry.action())?)),
        }
    }
}

/// The step of a node, written over another configuration, whose room is used again if it is a node's.
#[inline(always)]
#[tactic(auto, unfolding(crate::specs::Composition::conf_pick))]
fn step_node_over(
    alloc: Global,
    node: &NodeConf,
    action: &Action,
    rule_number: Option<usize>,
    next: &mut Conf,
    choices: &mut Choices,
) -> Result<(), StepFault>
    requires { source_of choices.old ≡ yielded [] }
    ensures { Answers StepFault.Memory (λ _. (entry action.now (made_values (source_of choices.new)), next.new)) result
        (conf_pick action.now (Conf.Node node.now)) }
{
    match next {
        Conf::Node(place) => node.step_over(alloc, action, rule_number, place, choices),
        Conf::Queue(_) => {
            let (conf, chosen) = node.step(alloc, action)?;
            *next = Conf::Node(conf);
            *choices = Choices::Yielded(chosen);
            Ok(())
        }
    }
}

/// The step of a queue, written over another configuration, in its place if it is a queue's. A queue chooses nothing.
#[inline(always)]
#[tactic(auto, unfolding(crate::specs::Composition::conf_pick))]
fn step_queue_over(
    alloc: Global,
    queue: &Queue,
    action: &Action,
    next: &mut Conf,
) -> Result<(), StepFault>
    ensures { Answers StepFault.Memory (λ _. (entry_of action.now, next.new)) result
        (conf_pick action.now (Conf.Queue queue.now)) }
{
    match next {
        Conf::Queue(place) => queue.step_over(alloc, action, place),
        Conf::Node(_) => {
            *next = Conf::Queue(queue.step(alloc, action)?);
            Ok(())
        }
    }
}
