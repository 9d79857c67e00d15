//! Node configurations and their steps.

ghost use Rattle.std.specs.Prelude.{◌≡◌, ◌↔◌, IfOk, IsTrue, [], length};
ghost use Rattle.ioa_values.specs.Outcome.{Answers};
ghost use Rattle.ioa_terms.specs.Choices.{made_values, source_of, yielded};
ghost use Rattle.ioa_transitions.specs.Entries.{entry};
ghost use Rattle.ioa_transitions.specs.NodeAnswers.{pick_answer, redo_answer};
ghost use Rattle.ioa_transitions.specs.SameNodes.{same_node};
ghost use Rattle.std.specs.Arc.{arc_value};
ghost use Rattle.ioa_transitions.specs.NodeState.{node_state};

use crate::entry::Entry;
use crate::rule::values_after;
use ioa_actions::{Action, StepFault};
use ioa_system::Program;
use ioa_terms::Choices;
use ioa_values::{Value, copies};
use std::alloc::{AllocError, Global};
use std::marker::Model;
use std::sync::Arc;

/// The configuration of a node: its program, which is shared, and the values of its state variables.
pub struct NodeConf {
    program: Arc<Program>,
    variables: Vec<Value>,
}

/// By hand, so that crates above do not prove again how the parts are let go (DECISIONS).
impl Drop for NodeConf {
    #[inline(always)]
    fn drop(self) {
        let NodeConf {
            program: _,
            variables: _,
        } = self;
    }
}

impl Model for NodeConf {
    ghost use Rattle.std.specs.Arc.{arc_value};
    ghost use Rattle.ioa_transitions.specs.NodeState.{NodeState, node_state_code};

    ghost Value = { NodeState };

    ghost coded = { node_state_code };

    ghost use Rattle.ioa_transitions.specs.NodeState.{node_state, IsValued};

    ghost view = { λ c. node_state (arc_value c.program) c.variables.items };

    ghost invariant = { λ c. IsValued (node_state (arc_value c.program) c.variables.items) };
}

impl NodeConf {
    /// The start configuration of a program (Lynch 8.1): each variable has its initial value.
    pub fn start(alloc: Global, program: &Arc<Program>) -> Result<Self, AllocError>
        ensures { IfOk result (λ c. c ≡ node_state (arc_value program.now) (arc_value program.now).initial) }
    {
        let variables = copies(alloc, program.initial())?;
        let program = Arc::try_clone(program)?;
        Ok(NodeConf { program, variables })
    }

    /// The number of the node.
    pub fn node(&self) -> i64
        ensures { result ≡ self.now.program.node }
    {
        self.program.node()
    }

    /// The program of the node.
    pub fn program(&self) -> &Program
        ensures { result.now ≡ self.now.program }
    {
        &self.program
    }

    /// The values of the state variables, in the order of their declaration.
    pub fn variables(&self) -> &[Value]
        ensures value { result.now ≡ self.now.variables }
        ensures valued { length result.now ≡ length self.now.program.automaton.variables }
    {
        &self.variables
    }

    /// Whether two configurations are the same: their values, and their programs by value. Costs time in proportion to
    /// the shorter one.
    #[tactic(auto, using(crate::proofs::SameNodes::same_node_is))]
    pub fn equals(&self, other: &Self) -> bool
        ensures value { result ≡ same_node self.now other.now }
        ensures equality { IsTrue result ↔ (self.now ≡ other.now) }
    {
        self.is_same(other)
    }

    /// Whether two configurations have the same values and the same program.
    fn is_same(&self, other: &Self) -> bool
        ensures { result ≡ same_node self.now other.now }
    {
        self.variables == other.variables && self.program.equals(&other.program)
    }

    /// An equal configuration with its own values; the program is shared.
    pub fn try_copy(&self, alloc: Global) -> Result<Self, AllocError>
        ensures { IfOk result (λ c. c ≡ self.now) }
    {
        let program = Arc::try_clone(&self.program)?;
        let variables = copies(alloc, &self.variables)?;
        Ok(NodeConf { program, variables })
    }

    /// The configuration after an action (Lynch 8.1) whose effect chooses by its own terms, and the values that it
    /// chose, in order. `NotMine` (41) if the action is not in the node's signature; else the first fault of the
    /// arguments, the entry's condition, the guard and the effect: `Range` (2) if a number met lies outside 64 bits,
    /// `Undefined` (1) if a part has no value or an argument holds a negative number where its sort says Nat,
    /// `NotEnabled` (40) if the condition or the guard is not true, `NoChoice` (43) if the condition of a choice is
    /// not. It is meant for an action in which the node takes part, and does not test that.
    #[inline(never)]
    #[tactic(auto, unfolding(crate::specs::NodeAnswers::pick_answer))]
    pub fn step(&self, alloc: Global, action: &Action) -> Result<(Self, Vec<Value>), StepFault>
        ensures { Answers StepFault.Memory (λ t. (entry action.now t.1.items, t.0)) result
            (pick_answer self.now action.now) }
    {
        let mut variables = Vec::new(alloc);
        let mut choices = Choices::Yielded(Vec::new(alloc));
        values_after(
            alloc,
            &self.program,
            &self.variables,
            action,
            None,
            &mut variables,
            &mut choices,
        )?;
        let program = Arc::try_clone(&self.program)?;
        let next = NodeConf { program, variables };
        Ok((next, choices.into_made(alloc)))
    }

    /// The configuration after the step of an entry (Lynch 8.1), which is taken again: its effect chooses the values of
    /// the entry. The faults are those of `step`; `NoChoice` (43) also if a value is missing, left over or not of the
    /// choice's sort.
    #[inline(never)]
    #[tactic(auto, unfolding(crate::specs::NodeAnswers::redo_answer))]
    pub fn redo(&self, alloc: Global, entry: &Entry) -> Result<Self, StepFault>
        ensures { Answers StepFault.Memory (λ c. c) result (redo_answer self.now entry.now) }
    {
        let mut variables = Vec::new(alloc);
        let mut choices = Choices::Given(entry.chosen());
        values_after(
            alloc,
            &self.program,
            &self.variables,
            entry.action(),
            None,
            &mut variables,
            &mut choices,
        )?;
        if !choices.is_used_up() {
            return Err(StepFault::NoChoice);
        }
        let program = Arc::try_clone(&self.program)?;
        Ok(NodeConf { program, variables })
    }

    /// The same step as `step`, written over another configuration: if that has as many values, their room is used
    /// again. After a fault it is some configuration. The values that are chosen stand in the choices, of which none
    /// was made before. If `rule_number` is that of the action's rule, the rule is not searched for.
    #[inline(always)]
    #[tactic(auto, unfolding(crate::specs::NodeAnswers::pick_answer))]
    pub fn step_over(
        &self,
        alloc: Global,
        action: &Action,
        rule_number: Option<usize>,
        next: &mut NodeConf,
        choices: &mut Choices,
    ) -> Result<(), StepFault>
        requires { source_of choices.old ≡ yielded [] }
        ensures { Answers StepFault.Memory (λ _. (entry action.now (made_values (source_of choices.new)), next.new))
            result (pick_answer self.now action.now) }
    {
        if next.variables.len() == self.variables.len() {
            self.write_step(alloc, action, rule_number, next, choices)
        } else {
            let (conf, chosen) = self.step(alloc, action)?;
            *next = conf;
            *choices = Choices::Yielded(chosen);
            Ok(())
        }
    }

    /// The same over a configuration that has as many values.
    #[inline(always)]
    #[tactic(auto, unfolding(crate::specs::NodeAnswers::pick_answer))]
    fn write_step(
        &self,
        alloc: Global,
        action: &Action,
        rule_number: Option<usize>,
        next: &mut NodeConf,
        choices: &mut Choices,
    ) -> Result<(), StepFault>
        requires same { length next.old.variables ≡ length self.now.variables }
        requires none { source_of choices.old ≡ yielded [] }
        ensures { Answers StepFault.Memory (λ _. (entry action.now (made_values (source_of choices.new)), next.new))
            result (pick_answer self.now action.now) }
    {
        next.program = Arc::try_clone(&self.program)?;
        values_after(
            alloc,
            &self.program,
            &self.variables,
            action,
            rule_number,
            &mut next.variables,
            choices,
        )?;
        Ok(())
    }
}
