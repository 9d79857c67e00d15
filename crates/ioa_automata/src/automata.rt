//! Automata with slots and shapes.

ghost use Rattle.std.specs.Prelude.{◌≡◌, ◌⊎◌, true, false, [], ◌∷◌, ◌++◌, Ok, Err, IfErr, IfOk, OnOk, map};
ghost use Rattle.std.specs.List.{IsDistinct, list_any};
ghost use Rattle.std.specs.Option.{option_copied, option_map};
ghost use Rattle.ioa_values.specs.Outcome.{Answers, and_then};
ghost use Rattle.ioa_terms.specs.Bindings.{same_word};
ghost use Rattle.ioa_source.specs.TextView.{automaton_of, declared_of, entry_of, transition_of, variable_of};
ghost use Rattle.ioa_types.specs.Meanings.{AreTextTypes};
ghost use Rattle.ioa_automata.specs.Automata as spec;
ghost use Rattle.ioa_names.specs.Indexes.{AreIndexed};
ghost use Rattle.ioa_automata.specs.NamesInView.{given_names_or};
ghost use Rattle.ioa_automata.specs.Parts.{all_declared_at, variables_at};
ghost use Rattle.ioa_automata.specs.Rules.{entry_for, has_entry, have_entries, names_or, rules_at};
ghost use Rattle.ioa_automata.specs.SortedView.{body_of, heading_of, surroundings_of};

use crate::names::{given_names, outer_names};
use crate::parts::{sort_all_declared, sort_variables};
use crate::rules::{Surroundings, Transitions, sort_rules};
use crate::schedules::{block_own_words, sort_schedule};
use ioa_names::{NameTable, NamedAutomaton, RuleTable, Scope, View};
use ioa_refusals::Refusal;
use ioa_source::{Automaton, Declared, Entry, Schedule, Transition, Variable};
use ioa_system::{CheckedAutomaton, Rule};
use ioa_terms::{Callee, Shape, Word};
use ioa_types::{AllTypes, TextTypes};
use std::alloc::Global;
use std::sync::Arc;

/// The parameters and the state variables of an automaton.
#[derive(Drop)]
pub(crate) struct Heading {
    pub parameters: Vec<Declared<Shape>>,
    pub variables: Vec<Variable<usize, Callee, Shape>>,
    /// The names of the parameters.
    pub given: NameTable,
    /// The names of the state variables and of the parameters.
    pub outer: NameTable,
}

/// The parameters of an automaton, and their names.
#[derive(Drop)]
struct Given {
    parameters: Vec<Declared<Shape>>,
    names: NameTable,
}

/// What an automaton has behind its heading: its entries with their transitions, and its schedule block.
#[derive(Drop)]
pub(crate) struct Body {
    pub rules: RuleTable,
    pub schedule: Schedule<usize, Callee, Shape>,
}

/// The parameters and the state variables of an automaton.
#[tactic(auto, unfolding(crate::specs::Automata::heading_at))]
fn sort_heading(
    alloc: Global,
    types: &TextTypes,
    automaton: &Automaton<(), (), ()>,
) -> Result<Box<Heading>, Refusal>
    ensures exact { Answers Refusal.Memory (λ h. heading_of h.value) result
        (spec.heading_at types.now (automaton_of automaton.now)) }
    ensures declared { IfOk result (λ _. AreTextTypes types.now) }
{
    let given = sort_given(alloc, types, automaton)?;
    let variables = sort_states(alloc, types, &given.names, &automaton.states)?;
    let outer = outer_names(alloc, types.constants(), &given.parameters, &variables)?;
    let Given { parameters, names } = Box::into_inner(given);
    let heading = Heading {
        parameters,
        variables,
        given: names,
        outer,
    };
    Ok(Box::new(alloc, heading)?)
}

/// The parameters of an automaton, and their names.
#[tactic(auto, unfolding(crate::specs::Automata::heading_at))]
fn sort_given(
    alloc: Global,
    types: &TextTypes,
    automaton: &Automaton<(), (), ()>,
) -> Result<Box<Given>, Refusal>
    ensures parameters { IfOk result (λ g.
        all_declared_at types.now.types (automaton_of automaton.now).parameters
        ≡ Ok (map declared_of g.value.parameters.items)) }
    ensures names { IfOk result (λ g.
        given_names_or types.now.constants (map declared_of g.value.parameters.items) ≡ Ok g.value.names) }
    ensures refused { IfErr result (λ e.
        (e ≡ Refusal.Memory) ⊎ (spec.heading_at types.now (automaton_of automaton.now) ≡ Err e)) }
{
    let parameters = sort_all_declared(alloc, types.types(), &automaton.parameters)?;
    let names = given_names(alloc, types.constants(), &parameters)?;
    Ok(Box::new(alloc, Given { parameters, names })?)
}

/// State variables with their initial terms, which read these names.
fn sort_states(
    alloc: Global,
    types: &TextTypes,
    given: &NameTable,
    states: &Vec<Variable<(), (), ()>>,
) -> Result<Vec<Variable<usize, Callee, Shape>>, Refusal>
    ensures { Answers Refusal.Memory (λ vs. map variable_of vs.items) result
        (variables_at types.now.types (given.now ++ types.now.constants) (map variable_of states.now.items)) }
{
    let none = NameTable::new(alloc);
    let view = View::new(given, &none, types.constants())?;
    sort_variables(alloc, types.types(), &view, states)
}

/// Declares a name behind others. `Twice` (21) if it is one of them.
fn declare_new(alloc: Global, names: &mut Scope, name: &Word) -> Result<(), Refusal>
    ensures declared { OnOk result (names.new ≡ names.old ++ name.now ∷ []) }
    ensures fresh { OnOk result (list_any (same_word name.now) names.old ≡ false) }
    ensures differ { OnOk result (IsDistinct same_word names.old → IsDistinct same_word names.new) }
    ensures refused { IfErr result (λ e. (e ≡ Refusal.Memory)
        ⊎ ((e ≡ Refusal.Twice) × (list_any (same_word name.now) names.old ≡ true))) }
{
    if names.declare(name.try_copy(alloc)?)? {
        Ok(())
    } else {
        Err(Refusal::Twice)
    }
}

/// The names of entries. `Twice` (21) if two are the same.
fn entry_names(alloc: Global, entries: &Vec<Entry<(), (), ()>>) -> Result<Scope, Refusal>
    ensures { Answers Refusal.Memory (λ ns. ns) result
        (names_or (map (λ e. e.name) (map entry_of entries.now.items))) }
{
    let mut names = Scope::new(alloc);
    for entry in entries {
        declare_new(alloc, &mut names, &entry.name)?;
    }
    Ok(names)
}

/// The names of transitions. `Twice` (21) if two are the same.
fn transition_names(
    alloc: Global,
    transitions: &Vec<Transition<(), (), ()>>,
) -> Result<Scope, Refusal>
    ensures { Answers Refusal.Memory (λ ns. ns) result
        (names_or (map (λ t. t.name) (map transition_of transitions.now.items))) }
{
    let mut names = Scope::new(alloc);
    for transition in transitions {
        declare_new(alloc, &mut names, &transition.name)?;
    }
    Ok(names)
}

/// The entry that has the name and kind of a transition. `names` are those of the entries.
fn entry_for<'a>(
    names: &Scope,
    entries: &'a Vec<Entry<(), (), ()>>,
    transition: &Transition<(), (), ()>,
) -> Option<&'a Entry<(), (), ()>>
    requires { AreIndexed names.now (map (λ e. e.name) (map entry_of entries.now.items)) }
    ensures { option_map entry_of (option_copied result)
        ≡ entry_for (transition_of transition.now) (map entry_of entries.now.items) }
{
    let slot = names.slot_of_word(&transition.name)?;
    let entry = entries.get(slot)?;
    if entry.kind == transition.kind {
        Some(entry)
    } else {
        None
    }
}

/// Whether a transition has an entry of its name and kind. `names` are those of the entries.
fn has_entry(
    names: &Scope,
    entries: &Vec<Entry<(), (), ()>>,
    transition: &Transition<(), (), ()>,
) -> bool
    requires { AreIndexed names.now (map (λ e. e.name) (map entry_of entries.now.items)) }
    ensures { result ≡ has_entry (map entry_of entries.now.items) (transition_of transition.now) }
{
    match entry_for(names, entries, transition) {
        None => false,
        Some(_) => true,
    }
}

/// Passes if each transition has an entry of its name and kind. Else `Unknown` (20). `names` are those of the entries.
fn have_entries(
    names: &Scope,
    entries: &Vec<Entry<(), (), ()>>,
    transitions: &Vec<Transition<(), (), ()>>,
) -> Result<(), Refusal>
    requires { AreIndexed names.now (map (λ e. e.name) (map entry_of entries.now.items)) }
    ensures { Answers Refusal.Memory (λ x. x) result
        (have_entries (map entry_of entries.now.items) (map transition_of transitions.now.items)) }
{
    for transition in transitions {
        if !has_entry(names, entries, transition) {
            return Err(Refusal::Unknown);
        }
    }
    Ok(())
}

/// The entries of an automaton with their transitions.
#[tactic(auto, unfolding(crate::specs::Automata::actions_at))]
fn sort_actions(
    alloc: Global,
    around: &Surroundings,
    automaton: &Automaton<(), (), ()>,
) -> Result<RuleTable, Refusal>
    ensures { Answers Refusal.Memory (λ rs. rs) result
        (spec.actions_at (surroundings_of around.now) (automaton_of automaton.now)) }
{
    let names = entry_names(alloc, &automaton.signature)?;
    let rules = sort_entries(alloc, around, &names, automaton)?;
    Ok(RuleTable::new(rules, names))
}

/// The entries of an automaton with their transitions. `names` are those of the entries.
fn sort_entries(
    alloc: Global,
    around: &Surroundings,
    names: &Scope,
    automaton: &Automaton<(), (), ()>,
) -> Result<Vec<Rule>, Refusal>
    requires { AreIndexed names.now (map (λ e. e.name) (automaton_of automaton.now).signature) }
    ensures exact { Answers Refusal.Memory (λ rs. rs.items) result
        (and_then (names_or (map (λ t. t.name) (automaton_of automaton.now).transitions))
        (λ _. and_then (have_entries (automaton_of automaton.now).signature (automaton_of automaton.now).transitions)
        (λ _. rules_at (surroundings_of around.now) (automaton_of automaton.now).transitions
        (automaton_of automaton.now).signature))) }
    ensures rules { IfOk result (λ rs. rules_at (surroundings_of around.now) (automaton_of automaton.now).transitions
        (automaton_of automaton.now).signature ≡ Ok rs.items) }
{
    let transition_names = transition_names(alloc, &automaton.transitions)?;
    have_entries(names, &automaton.signature, &automaton.transitions)?;
    let transitions = Transitions {
        items: &automaton.transitions,
        names: &transition_names,
    };
    sort_rules(alloc, around, &transitions, &automaton.signature)
}

/// The automaton with slots and shapes, in a text that declares these types, made ready to step. Returns `Unknown`
/// (20), `Twice` (21), `Sorts` (22), `NoInitial` (23), `InputPre` (24), `NoTransition` (25), `ScheduleAssignsState`
/// (26), `Limit` (31), `EmptyOfWhat` (32), `InputWhere` (33), `BadArgument` (34), each if it applies to the automaton,
/// and `Memory` (3) if no memory is left. Costs time in proportion to the automaton, but for what the look-up of a name
/// and a sort cost.
pub fn sort_automaton(
    alloc: Global,
    types: &AllTypes,
    automaton: &Automaton<(), (), ()>,
) -> Result<NamedAutomaton, Refusal>
    ensures { Answers Refusal.Memory (λ a. a) result
        (spec.automaton_at types.now (automaton_of automaton.now)) }
{
    let declared = types.types();
    let heading = sort_heading(alloc, declared, automaton)?;
    let body = sort_body(alloc, declared, &heading, automaton)?;
    let own = block_own_words(alloc, &body.schedule.variables, body.rules.as_slice())?;
    let name = automaton.name.try_copy(alloc)?;
    let constants = Arc::try_clone(types.names())?;
    let words = heading.outer.names().to_words(alloc)?;
    let heading = Box::into_inner(heading);
    let body = Box::into_inner(body);
    let found = CheckedAutomaton::new(
        name,
        constants,
        heading.parameters,
        heading.variables,
        words,
        body.rules.into_rules(),
        body.schedule,
        own,
    );
    Ok(NamedAutomaton::new(alloc, found, heading.outer.into_names())?)
}

/// What an automaton of this heading has behind it.
fn sort_body(
    alloc: Global,
    types: &TextTypes,
    heading: &Heading,
    automaton: &Automaton<(), (), ()>,
) -> Result<Box<Body>, Refusal>
    ensures { Answers Refusal.Memory (λ b. body_of b.value) result
        (spec.body_at (spec.surroundings types.now (heading_of heading.now)) (automaton_of automaton.now)) }
{
    let around = Surroundings {
        constants: types.constants(),
        types: types.types(),
        given: &heading.given,
        outer: &heading.outer,
        variables: heading.variables.len(),
    };
    let rules = sort_actions(alloc, &around, automaton)?;
    let schedule = sort_schedule(alloc, &around, &rules, &automaton.schedule)?;
    Ok(Box::new(alloc, Body { rules, schedule })?)
}
