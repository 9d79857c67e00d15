//! An automaton of a text, made ready to step.

ghost use Rattle.std.specs.Prelude.{◌≡◌, ◌↔◌, ℕ, List, [], IsTrue, IfSome, All, map, length, slice_get};
ghost use Rattle.std.specs.List.{IsDistinct};
ghost use Rattle.std.specs.Option.{is_some, option_copied};
ghost use Rattle.std.specs.Arc.{arc_value};
ghost use Rattle.ioa_terms.specs.Bindings.{names_of, same_word};
ghost use Rattle.ioa_terms.specs.PlainTerm.{statements_of};
ghost use Rattle.ioa_source.specs.TextView.{declared_of, schedule_of, variable_of};
ghost use Rattle.ioa_system.specs.InView.{declared_names, names_at, scope_at, given_bindings, block_statement};
ghost use Rattle.ioa_system.specs.InView.{entry_constant, initial_value, entry_condition, guard_or_effect};
ghost use Rattle.ioa_system.specs.InView.{block_own_names, parameter_names, variable_names};
ghost use Rattle.ioa_system.specs.Numbered.{AreNumbered, IsNumberOf};
ghost use Rattle.ioa_system.specs.Parts.{automaton_parts, message_shape, rule_named, rule_names};
ghost use Rattle.ioa_system.specs.ResolvedPrograms.{IsCheckedAutomaton, IsResolvedRule};
ghost use Rattle.ioa_system.specs.ResolvedPrograms.{AreResolvedVariables, IsResolvedSchedule};
ghost use Rattle.ioa_system.specs.SameParts.{same_rule, same_parameters, same_automaton};

use crate::rules::Rules;
use ioa_actions::RECEIVE;
use ioa_source::{
    Declared, Entry, Schedule, Transition, Variable, are_same_variables, is_same_declared,
    is_same_entry, is_same_schedule, is_same_transition,
};
use ioa_terms::{Callee, Env, Name, NameLists, Names, Shape, Value, Word};
use std::marker::Model;
use std::sync::Arc;

/// An entry of a signature with its transition (Lynch 8.1), and the names that only its terms read. A contract sees
/// plain data.
pub struct Rule {
    /// The entry.
    pub entry: Entry<usize, Callee, Shape>,
    /// The shapes of the arguments of its actions: a parameter's is that of its sort, a constant's that of its term.
    pub shapes: Vec<Shape>,
    /// Its transition.
    pub transition: Transition<usize, Callee, Shape>,
    /// The names of the entry's own parameters, behind those that the automaton declares.
    pub own: Vec<Word>,
}

/// By hand, so that crates above do not prove again how the parts are let go (DECISIONS).
impl Drop for Rule {
    fn drop(self) {
        let Rule {
            entry: _,
            shapes: _,
            transition: _,
            own: _,
        } = self;
    }
}

impl Model for Rule {
    ghost use Rattle.ioa_system.specs.Parts.{PlainRule, rule_code};

    ghost Value = { PlainRule };

    ghost coded = { rule_code };

    ghost use Rattle.ioa_source.specs.TextView.{entry_of, transition_of};

    ghost view = { λ r.
        record {
          entry = entry_of r.entry;
          shapes = r.shapes.items;
          transition = transition_of r.transition;
          own = r.own.items;
        } };
}

impl Rule {
    /// Whether two rules are the same. Costs time in proportion to the shorter one.
    #[tactic(auto, using(crate::specs::SameParts::same_rule_is))]
    pub fn equals(&self, other: &Self) -> bool
        ensures equality { IsTrue result ↔ (self.now ≡ other.now) }
    {
        self.is_same(other)
    }

    /// Whether two rules are the same, part by part.
    fn is_same(&self, other: &Self) -> bool
        ensures { result ≡ same_rule self.now other.now }
    {
        is_same_entry(&self.entry, &other.entry)
            && (self.shapes == other.shapes
                && (is_same_transition(&self.transition, &other.transition)
                    && self.own == other.own))
    }
}

impl PartialEq for Rule {
    ghost use Rattle.ioa_system.specs.SameParts.{same_rule, same_rule_partial};

    ghost eq = { same_rule };

    ghost laws = { same_rule_partial };

    fn eq(&self, other: &Self) -> bool {
        self.is_same(other)
    }
}

/// An automaton of a text, made ready to step. The nodes on which it is placed share it. Its type
/// guarantees that each name which a step, an initial value or the schedule block reads is resolved to the
/// slot of its value.
pub struct CheckedAutomaton {
    name: Word,
    constants: Arc<Names>,
    parameters: Vec<Declared<Shape>>,
    variables: Vec<Variable<usize, Callee, Shape>>,
    /// The names of the state variables, and then those of the parameters.
    names: Vec<Word>,
    rules: Rules,
    schedule: Schedule<usize, Callee, Shape>,
    /// The names of the schedule block's own variables, and then that of the inboxes, if the automaton takes messages.
    own: Vec<Word>,
}

/// By hand, so that crates above do not prove again how the parts are let go (DECISIONS).
impl Drop for CheckedAutomaton {
    fn drop(self) {
        let CheckedAutomaton {
            name: _,
            constants: _,
            parameters: _,
            variables: _,
            names: _,
            rules: _,
            schedule: _,
            own: _,
        } = self;
    }
}

impl Model for CheckedAutomaton {
    ghost use Rattle.ioa_system.specs.Parts.{AutomatonParts, automaton_code};

    ghost Value = { AutomatonParts };

    ghost coded = { automaton_code };

    ghost use Rattle.std.specs.Prelude.{map};
    ghost use Rattle.std.specs.Arc.{arc_value};
    ghost use Rattle.ioa_source.specs.TextView.{declared_of, schedule_of, variable_of};
    ghost use Rattle.ioa_system.specs.Parts.{automaton_parts};

    ghost view = { λ a. automaton_parts a.name (arc_value a.constants) (map declared_of a.parameters.items)
        (map variable_of a.variables.items) a.rules (schedule_of a.schedule) };

    ghost use Rattle.ioa_system.specs.ResolvedPrograms.{IsCheckedAutomaton};

    ghost invariant = { λ a. IsCheckedAutomaton a.names.items a.own.items (automaton_parts a.name (arc_value a.constants)
        (map declared_of a.parameters.items) (map variable_of a.variables.items) a.rules
        (schedule_of a.schedule)) };
}

impl CheckedAutomaton {
    /// The automaton of these parts. `constants` are the names of the text's constants, `names` those of the state
    /// variables and behind them those of the parameters, and `own` those of the block's variables and behind them
    /// that of the inboxes, if the automaton takes messages.
    pub fn new(
        name: Word,
        constants: Arc<Names>,
        parameters: Vec<Declared<Shape>>,
        variables: Vec<Variable<usize, Callee, Shape>>,
        names: Vec<Word>,
        rules: Rules,
        schedule: Schedule<usize, Callee, Shape>,
        own: Vec<Word>,
    ) -> Self
        requires { IsCheckedAutomaton names.items own.items (automaton_parts name (arc_value constants)
            (map declared_of parameters.items) (map variable_of variables.items) rules (schedule_of schedule)) }
        ensures { result ≡ automaton_parts name (arc_value constants) (map declared_of parameters.items)
            (map variable_of variables.items) rules (schedule_of schedule) }
    {
        CheckedAutomaton {
            name,
            constants,
            parameters,
            variables,
            names,
            rules,
            schedule,
            own,
        }
    }

    /// Its name.
    pub fn name(&self) -> &Word
        ensures { result.now ≡ self.now.name }
    {
        &self.name
    }

    /// The names of the text's constants.
    pub fn constants(&self) -> &[Word]
        ensures { result.now ≡ self.now.constants }
    {
        self.constants.as_slice()
    }

    /// The parameters, to which a node gives values.
    pub fn parameters(&self) -> &[Declared<Shape>]
        ensures { map declared_of result.now ≡ self.now.parameters }
    {
        self.parameters.as_slice()
    }

    /// The state variables, in the order of their declaration.
    pub fn variables(&self) -> &[Variable<usize, Callee, Shape>]
        ensures value { map variable_of result.now ≡ self.now.variables }
        ensures resolved { AreResolvedVariables (names_at initial_value (declared_names self.now) [])
            (map variable_of result.now) }
    {
        self.variables.as_slice()
    }

    /// The entries with their transitions, in the order of the signature.
    pub fn rules(&self) -> &[Rule]
        ensures value { result.now ≡ self.now.rules }
        ensures resolved { All (IsResolvedRule (declared_names self.now)) result.now }
        ensures differ { IsDistinct same_word (rule_names self.now.rules) }
    {
        self.rules.as_slice()
    }

    /// The rule of a number, if there are so many: the rule of the name that has the number. Costs a constant time.
    pub fn rule_numbered(&self, number: usize) -> Option<&Rule>
        ensures rule { option_copied result ≡ slice_get self.now.rules number }
        ensures named { (w : List ℕ) → IsNumberOf self.now.rules w number →
            option_copied result ≡ rule_named w self.now.rules }
    {
        self.rules.get(number)
    }

    /// The rule of the actions that have a name, if there is one. Costs time in proportion to the number of rules.
    pub fn rule_named(&self, name: &str) -> Option<&Rule>
        ensures found { option_copied result ≡ rule_named name.now self.now.rules }
        ensures resolved { IfSome result (λ r. IsResolvedRule (declared_names self.now) r.now) }
    {
        for rule in self.rules() {
            if rule.entry.name.as_str() == name {
                return Some(rule);
            }
        }
        None
    }

    /// The schedule block.
    pub fn schedule(&self) -> &Schedule<usize, Callee, Shape>
        ensures value { schedule_of result.now ≡ self.now.schedule }
        ensures resolved { IsResolvedSchedule (declared_names self.now) (block_own_names self.now)
            (schedule_of result.now) }
        ensures numbered { AreNumbered self.now.rules (statements_of (schedule_of result.now).statements) }
    {
        &self.schedule
    }

    /// What constants of entries and initial values read, if a node gives the parameters these values.
    pub fn given_env<'a>(&'a self, arguments: &'a [Value]) -> Env<'a>
        requires { length arguments.now ≡ length self.now.parameters }
        ensures value { result ≡ given_bindings self.now arguments.now }
        ensures names { names_of result ≡ names_at entry_constant (declared_names self.now) [] }
    {
        Env::with_constants(
            NameLists::one(self.parameter_names()),
            arguments,
            self.constants.as_slice(),
        )
    }

    /// The names in view in the condition of a rule's entry.
    pub fn condition_names<'a>(&'a self, rule: &'a Rule) -> NameLists<'a>
        ensures { result ≡ map Name.Word (scope_at entry_condition (declared_names self.now) rule.now.own) }
    {
        NameLists::new(self.parameter_names(), rule.own.as_slice(), &[])
    }

    /// The names in view in the guard and the effect of a rule.
    pub fn step_names<'a>(&'a self, rule: &'a Rule) -> NameLists<'a>
        ensures { result ≡ map Name.Word (scope_at guard_or_effect (declared_names self.now) rule.now.own) }
    {
        NameLists::new(
            self.variable_names(),
            self.parameter_names(),
            rule.own.as_slice(),
        )
    }

    /// Whether the automaton takes messages, so that its schedule block sees the inboxes.
    #[tactic(auto, using(crate::proofs::Inboxes::one_name_more))]
    pub fn takes_messages(&self) -> bool
        ensures { result ≡ is_some (message_shape self.now.rules) }
    {
        self.own.len() > self.schedule.variables.len()
    }

    /// The names in view in the statements of the schedule block: its own variables' first.
    pub fn block_names(&self) -> NameLists<'_>
        ensures { result ≡ map Name.Word
            (scope_at block_statement (declared_names self.now) (block_own_names self.now)) }
    {
        NameLists::new(
            self.own.as_slice(),
            self.variable_names(),
            self.parameter_names(),
        )
    }

    /// The names of the parameters.
    fn parameter_names(&self) -> &[Word]
        ensures { result.now ≡ parameter_names self.now.parameters }
    {
        &self.names.as_slice()[self.variables.len()..]
    }

    /// The names of the state variables.
    fn variable_names(&self) -> &[Word]
        ensures { result.now ≡ variable_names self.now.variables }
    {
        &self.names.as_slice()[..self.variables.len()]
    }

    /// Whether two automata are the same, whatever memory they are kept in. Costs time in proportion to
    /// the shorter one.
    #[tactic(auto, using(crate::specs::SameParts::same_automaton_is))]
    pub fn equals(&self, other: &Self) -> bool
        ensures equality { IsTrue result ↔ (self.now ≡ other.now) }
    {
        self.is_same(other)
    }

    /// Whether two automata are the same, part by part.
    pub(crate) fn is_same(&self, other: &Self) -> bool
        ensures { result ≡ same_automaton self.now other.now }
    {
        self.name == other.name
            && (self.constants.as_slice() == other.constants.as_slice()
                && (are_same_parameters(&self.parameters, &other.parameters)
                    && (are_same_variables(&self.variables, &other.variables)
                        && (self.rules.as_slice() == other.rules.as_slice()
                            && is_same_schedule(&self.schedule, &other.schedule)))))
    }
}

/// The shape of the messages that rules take, if one of them is named `receive`.
pub fn message_shape(rules: &[Rule]) -> Option<&Shape>
    ensures { option_copied result ≡ message_shape rules.now }
{
    let rule = first_named(rules, RECEIVE)?;
    rule.shapes.first()
}

/// The first rule of a name, if there is one.
fn first_named<'a>(rules: &'a [Rule], name: &str) -> Option<&'a Rule>
    ensures { option_copied result ≡ rule_named name.now rules.now }
{
    for rule in rules {
        if rule.entry.name.as_str() == name {
            return Some(rule);
        }
    }
    None
}

/// Whether parameters are the same, one by one, and as many.
fn are_same_parameters(parameters: &Vec<Declared<Shape>>, others: &Vec<Declared<Shape>>) -> bool
    ensures { result ≡ same_parameters (map declared_of parameters.now.items) (map declared_of others.now.items) }
{
    for position in 0..parameters.len().min(others.len()) {
        if !is_same_declared(&parameters[position], &others[position]) {
            return false;
        }
    }
    parameters.len() == others.len()
}
