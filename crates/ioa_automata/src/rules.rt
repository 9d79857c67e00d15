//! The entries of an automaton with their transitions, with slots and shapes.

ghost use Rattle.std.specs.Prelude.{◌≡◌, ◌&&◌, ◌++◌, IfOk, map, slice_get};
ghost use Rattle.std.specs.Option.{option_copied, option_map, is_some};
ghost use lib.Pointwise.{pointwise};
ghost use Rattle.ioa_values.specs.Outcome.{Answers, and_then};
ghost use Rattle.ioa_terms.specs.Bindings.{same_name};
ghost use Rattle.ioa_terms.specs.SameTerms.{same_kind};
ghost use Rattle.ioa_terms.specs.View.{term_of};
ghost use Rattle.ioa_source.specs.TextView.{parameter_of, entry_of, transition_of};
ghost use Rattle.ioa_system.specs.InView.{own_names};
ghost use Rattle.ioa_automata.specs.Rules as spec;
ghost use Rattle.ioa_names.specs.Indexes.{AreIndexed};
ghost use Rattle.ioa_automata.specs.Parts.{entry_at, transition_at};
ghost use Rattle.ioa_automata.specs.SortedView.{sorted_entry_of, sorted_parameters_of, surroundings_of, transitions_of};

use crate::names::own_names;
use crate::parts::{SortedEntry, SortedParameters, sort_entry, sort_parameters, sort_transition};
use ioa_actions::{RECEIVE, SEND};
use ioa_names::{NameTable, Scope, View};
use ioa_refusals::Refusal;
use ioa_source::{Entry, Parameter, Transition};
use ioa_system::Rule;
use ioa_terms::{Callee, Kind, Name, Shape, ShapeForm, Term, Tree, Word, is_same_term};
use ioa_types::Types;
use std::alloc::{AllocError, Global};

/// What the entries of an automaton read.
#[derive(Drop)]
pub(crate) struct Surroundings<'a> {
    /// The text's constants.
    pub constants: &'a NameTable,
    /// The text's types.
    pub types: &'a Types,
    /// The names of the automaton's parameters.
    pub given: &'a NameTable,
    /// The names of its state variables and of its parameters.
    pub outer: &'a NameTable,
    /// How many state variables there are.
    pub variables: usize,
}

/// Transitions, with an index of their names.
#[derive(Drop)]
pub(crate) struct Transitions<'a> {
    pub items: &'a Vec<Transition<(), (), ()>>,
    pub names: &'a Scope,
}

/// Whether an argument of a transition's head repeats a parameter.
fn repeats(parameter: &Parameter<(), (), ()>, argument: &Term) -> bool
    ensures { result ≡ spec.repeats (parameter_of parameter.now) (term_of argument.now) }
{
    match parameter {
        Parameter::Const(term) => is_same_term(term, argument),
        Parameter::Declared(declared) => match argument {
            Tree::Name(name, _) => is_word(name, &declared.name),
            _ => false,
        },
    }
}

/// Whether a name is this word.
fn is_word(name: &Name, word: &Word) -> bool
    ensures { result ≡ same_name name.now (Name.Word word.now) }
{
    match name {
        Name::Word(other) => other == word,
        Name::Variable { .. } => false,
        Name::Queue { .. } => false,
    }
}

/// Whether the arguments of a transition's head repeat the parameters of its entry, one by one.
fn head_repeats(parameters: &Vec<Parameter<(), (), ()>>, arguments: &Vec<Term>) -> bool
    ensures { result ≡ pointwise spec.repeats (map parameter_of parameters.now.items)
        (map term_of arguments.now.items) }
{
    for (position, argument) in arguments.iter().enumerate() {
        match parameters.get(position) {
            None => return false,
            Some(parameter) => {
                if !repeats(parameter, argument) {
                    return false;
                }
            }
        }
    }
    parameters.len() == arguments.len()
}

/// The transition that has the name and kind of an entry.
fn transition_for<'a>(
    transitions: &Transitions<'a>,
    entry: &Entry<(), (), ()>,
) -> Option<&'a Transition<(), (), ()>>
    requires { AreIndexed transitions.now.names.now (map (λ t. t.name) (transitions_of transitions.now)) }
    ensures { option_map transition_of (option_copied result)
        ≡ spec.transition_for (entry_of entry.now) (transitions_of transitions.now) }
{
    let slot = transitions.names.slot_of_word(&entry.name)?;
    let transition = transitions.items.get(slot)?;
    if transition.kind == entry.kind {
        Some(transition)
    } else {
        None
    }
}

/// The transition of an entry, whose head repeats it. `NoTransition` (25) if there is none, `BadArgument` (34) if its
/// head does not repeat the entry, `InputPre` (24) if the entry is an input's and the transition has a guard.
#[tactic(auto, unfolding(crate::specs::Rules::transition_or))]
fn transition_of_entry<'a>(
    transitions: &Transitions<'a>,
    entry: &Entry<(), (), ()>,
) -> Result<&'a Transition<(), (), ()>, Refusal>
    requires { AreIndexed transitions.now.names.now (map (λ t. t.name) (transitions_of transitions.now)) }
    ensures { Answers Refusal.Memory (λ t. transition_of t.now) result (spec.transition_or (entry_of entry.now)
        (spec.transition_for (entry_of entry.now) (transitions_of transitions.now))) }
{
    let Some(transition) = transition_for(transitions, entry) else {
        return Err(Refusal::NoTransition);
    };
    if !head_repeats(&entry.parameters, &transition.arguments) {
        return Err(Refusal::BadArgument);
    }
    if has_input_guard(entry, transition) {
        return Err(Refusal::InputPre);
    }
    Ok(transition)
}

/// Whether a transition has a guard although its entry is an input's.
fn has_input_guard(entry: &Entry<(), (), ()>, transition: &Transition<(), (), ()>) -> bool
    ensures { result ≡ is_some (transition_of transition.now).pre && same_kind (entry_of entry.now).kind Kind.Input }
{
    match &transition.pre {
        None => false,
        Some(_) => entry.kind == Kind::Input,
    }
}

/// Whether a shape is that of `Int` or `Nat`.
fn is_number(shape: &Shape) -> bool
    ensures { result ≡ spec.is_number shape.now }
{
    match &shape.form {
        ShapeForm::Integers => true,
        ShapeForm::Naturals => true,
        _ => false,
    }
}

/// Whether there is a shape at a position, and it is that of numbers.
fn is_number_at(shapes: &Vec<Shape>, position: usize) -> bool
    ensures { result ≡ spec.is_number_if (slice_get shapes.now.items position) }
{
    match shapes.get(position) {
        None => false,
        Some(shape) => is_number(shape),
    }
}

/// Whether arguments are a message and the numbers of two nodes.
fn has_message_shapes(shapes: &Vec<Shape>) -> bool
    ensures { result ≡ spec.has_message_shapes shapes.now.items }
{
    shapes.len() == 3 && (is_number_at(shapes, 1) && is_number_at(shapes, 2))
}

/// Whether a parameter is there and is a constant.
fn is_constant(parameters: &Vec<Parameter<usize, Callee, Shape>>, position: usize) -> bool
    ensures { result ≡ spec.is_constant (slice_get (map parameter_of parameters.now.items) position) }
{
    match parameters.get(position) {
        None => false,
        Some(parameter) => match parameter {
            Parameter::Const(_) => true,
            Parameter::Declared(_) => false,
        },
    }
}

/// Whether an entry is one that `send` may name.
fn is_send(sorted: &SortedEntry) -> bool
    ensures { result ≡ spec.is_send (sorted_entry_of sorted.now) }
{
    sorted.entry.kind == Kind::Output
        && (has_message_shapes(&sorted.shapes) && is_constant(&sorted.entry.parameters, 1))
}

/// Whether an entry is one that `receive` may name.
fn is_receive(sorted: &SortedEntry) -> bool
    ensures { result ≡ spec.is_receive (sorted_entry_of sorted.now) }
{
    sorted.entry.kind == Kind::Input
        && (has_message_shapes(&sorted.shapes)
            && (is_constant(&sorted.entry.parameters, 2)
                && !is_constant(&sorted.entry.parameters, 0)))
}

/// Whether an entry may have its name.
fn may_have_name(sorted: &SortedEntry) -> bool
    ensures { result ≡ spec.may_have_name (sorted_entry_of sorted.now) }
{
    (sorted.entry.name.as_str() != SEND || is_send(sorted))
        && (sorted.entry.name.as_str() != RECEIVE || is_receive(sorted))
}

/// Passes if a sorted entry may have its name. Else `BadArgument` (34).
#[tactic(auto, unfolding(crate::specs::Rules::message_at))]
fn pass_name(sorted: &SortedEntry) -> Result<(), Refusal>
    ensures { Answers Refusal.Memory (λ _. sorted_entry_of sorted.now) result
        (spec.message_at (sorted_entry_of sorted.now)) }
{
    if may_have_name(sorted) {
        Ok(())
    } else {
        Err(Refusal::BadArgument)
    }
}

/// A sorted entry with its transition. Its own parameters have these names.
#[tactic(auto, unfolding(crate::specs::Rules::rule_of))]
fn rule_of(
    alloc: Global,
    around: &Surroundings,
    own: &NameTable,
    transition: &Transition<(), (), ()>,
    sorted: Box<SortedEntry>,
) -> Result<Rule, Refusal>
    ensures { Answers Refusal.Memory (λ r. r) result
        (spec.rule_of (surroundings_of around.now) own.now (transition_of transition.now)
        (sorted_entry_of sorted.value)) }
{
    let words = own_words(alloc, &sorted.entry.parameters)?;
    let transition = sort_step(alloc, around, own, transition)?;
    let SortedEntry { entry, shapes } = Box::into_inner(sorted);
    Ok(Rule {
        entry,
        shapes,
        transition,
        own: words,
    })
}

/// The transition of an entry whose own parameters have these names.
fn sort_step(
    alloc: Global,
    around: &Surroundings,
    own: &NameTable,
    transition: &Transition<(), (), ()>,
) -> Result<Transition<usize, Callee, Shape>, Refusal>
    ensures { Answers Refusal.Memory transition_of result
        (transition_at around.now.types.now (around.now.outer.now ++ (own.now ++ around.now.constants.now))
        around.now.variables (transition_of transition.now)) }
{
    let view = View::new(around.outer, own, around.constants)?;
    sort_transition(alloc, around.types, &view, around.variables, transition)
}

/// The names of an entry's own parameters, with their own memory.
fn own_words(
    alloc: Global,
    parameters: &Vec<Parameter<usize, Callee, Shape>>,
) -> Result<Vec<Word>, AllocError>
    ensures { IfOk result (λ ws. ws.items ≡ own_names (map parameter_of parameters.now.items)) }
{
    let mut names = Vec::new(alloc);
    for parameter in parameters {
        if let Parameter::Declared(declared) = parameter {
            names.push(declared.name.try_copy(alloc)?)?;
        }
    }
    Ok(names)
}

/// An entry with its transition. `view` has the names in view of its constants.
#[tactic(auto, unfolding(crate::specs::Rules::rule_at))]
fn sort_rule(
    alloc: Global,
    around: &Surroundings,
    view: &View,
    transitions: &Transitions,
    entry: &Entry<(), (), ()>,
) -> Result<Rule, Refusal>
    requires constants { view.now ≡ around.now.given.now ++ around.now.constants.now }
    requires transitions { AreIndexed transitions.now.names.now (map (λ t. t.name) (transitions_of transitions.now)) }
    ensures { Answers Refusal.Memory (λ r. r) result
        (spec.rule_at (surroundings_of around.now) (transitions_of transitions.now) (entry_of entry.now)) }
{
    let transition = transition_of_entry(transitions, entry)?;
    let sorted = sort_parameters(alloc, around.types, view, &entry.parameters)?;
    let own = own_names(alloc, around.outer, around.constants, &sorted.parameters)?;
    rule_with(alloc, around, &own, transition, entry, sorted)
}

/// An entry of these parameters, whose names are `own`, with its transition.
fn rule_with(
    alloc: Global,
    around: &Surroundings,
    own: &NameTable,
    transition: &Transition<(), (), ()>,
    entry: &Entry<(), (), ()>,
    sorted: Box<SortedParameters>,
) -> Result<Rule, Refusal>
    ensures { Answers Refusal.Memory (λ r. r) result (and_then
        (entry_at (around.now.given.now ++ (own.now ++ around.now.constants.now)) (entry_of entry.now)
        (sorted_parameters_of sorted.value)) (λ x. and_then (spec.message_at x)
        (spec.rule_of (surroundings_of around.now) own.now (transition_of transition.now)))) }
{
    let view = View::new(around.given, own, around.constants)?;
    let sorted = sort_entry(alloc, &view, entry, sorted)?;
    pass_name(&sorted)?;
    rule_of(alloc, around, own, transition, sorted)
}

/// The entries of an automaton with their transitions.
pub(crate) fn sort_rules(
    alloc: Global,
    around: &Surroundings,
    transitions: &Transitions,
    entries: &Vec<Entry<(), (), ()>>,
) -> Result<Vec<Rule>, Refusal>
    requires { AreIndexed transitions.now.names.now (map (λ t. t.name) (transitions_of transitions.now)) }
    ensures { Answers Refusal.Memory (λ rs. rs.items) result
        (spec.rules_at (surroundings_of around.now) (transitions_of transitions.now)
        (map entry_of entries.now.items)) }
{
    let none = NameTable::new(alloc);
    let view = View::new(around.given, &none, around.constants)?;
    rules_in_view(alloc, around, &view, transitions, entries)
}

/// Entries with their transitions. `view` has the names in view of their constants.
fn rules_in_view(
    alloc: Global,
    around: &Surroundings,
    view: &View,
    transitions: &Transitions,
    entries: &Vec<Entry<(), (), ()>>,
) -> Result<Vec<Rule>, Refusal>
    requires constants { view.now ≡ around.now.given.now ++ around.now.constants.now }
    requires transitions { AreIndexed transitions.now.names.now (map (λ t. t.name) (transitions_of transitions.now)) }
    ensures { Answers Refusal.Memory (λ rs. rs.items) result
        (spec.rules_at (surroundings_of around.now) (transitions_of transitions.now)
        (map entry_of entries.now.items)) }
{
    let mut rules = Vec::new(alloc);
    for entry in entries {
        let rule = sort_rule(alloc, around, view, transitions, entry)?;
        rules.push(rule)?;
    }
    Ok(rules)
}
