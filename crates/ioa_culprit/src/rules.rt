//! Walks over the entries and the transitions of an automaton.

use crate::asking::Ask;
use crate::declared::{Group, declare, pass_declared};
use crate::halt::{Halt, bare, halt_of};
use crate::heading::Heading;
use crate::statements::{Site, pass_statements};
use crate::terms::{pass_own, pass_term, pass_truth};
use crate::unknown::Sought;
use ioa_actions::{RECEIVE, SEND};
use ioa_names::{NameTable, View};
use ioa_refusals::Refusal;
use ioa_sorts::infer;
use ioa_source::{Entry, Parameter, Transition};
use ioa_terms::{Kind, Name, Shape, ShapeForm, Term, Tree, Word, is_same_term};
use ioa_tokens::Mark;
use ioa_walk::{Part, Walk, one_token};
use std::alloc::Global;

/// Whether an entry has a transition of its name and kind.
fn has_transition(heading: &Heading<'_>, entry: &Entry<(), (), ()>) -> bool {
    match heading.transition_named(&entry.name) {
        None => false,
        Some(transition) => transition.kind == entry.kind,
    }
}

/// The entry that has the name and the kind of a transition.
fn entry_for<'a>(
    heading: &Heading<'a>,
    transition: &Transition<(), (), ()>,
) -> Option<&'a Entry<(), (), ()>> {
    let entry = heading.entry_named(&transition.name)?;
    if entry.kind == transition.kind {
        Some(entry)
    } else {
        None
    }
}

/// The reserved word of a kind.
fn kind_mark(kind: Kind) -> Mark {
    match kind {
        Kind::Input => Mark::Input,
        Kind::Output => Mark::Output,
        Kind::Internal => Mark::Internal,
    }
}

/// The walk over a signature.
pub(crate) fn seek_signature(walk: &mut Walk<'_>, heading: &Heading<'_>) -> Result<(), Halt> {
    let entries = &heading.automaton.signature;
    if entries.is_empty() {
        return Ok(());
    }
    let _signature = walk.mark(Mark::Signature)?;
    for (position, entry) in entries.iter().enumerate() {
        seek_entry(walk, heading, position, entry)?;
    }
    Ok(())
}

/// The walk over the entry at a position.
fn seek_entry(
    walk: &mut Walk<'_>,
    heading: &Heading<'_>,
    position: usize,
    entry: &Entry<(), (), ()>,
) -> Result<(), Halt> {
    let first = walk.word(&entry.name)?;
    let last = walk.called(first)?;
    let part = Part { first, last };
    if heading.entries.stands_before(&entry.name, position) {
        heading.ask.told_at(Refusal::Twice, one_token(first))?;
    }
    if !has_transition(heading, entry) {
        heading.ask.told_at(Refusal::NoTransition, part)?;
    }
    let mut own = NameTable::new(heading.ask.alloc);
    seek_behind_name(walk, heading, &mut own, entry, part)
}

/// The walk over what an entry has behind its name; with the name its head has this part. Puts the names of its
/// parameters behind those of a table.
fn seek_behind_name(
    walk: &mut Walk<'_>,
    heading: &Heading<'_>,
    own: &mut NameTable,
    entry: &Entry<(), (), ()>,
    part: Part,
) -> Result<(), Halt> {
    seek_own(walk, heading, own, &entry.parameters)?;
    walk.go_behind(part.last);
    seek_where(walk, heading, &*own, entry)?;
    seek_message(heading, entry, part)
}

/// The walk over the parameters of an entry. Puts their names behind those of a table.
fn seek_own(
    walk: &mut Walk<'_>,
    heading: &Heading<'_>,
    own: &mut NameTable,
    parameters: &Vec<Parameter<(), (), ()>>,
) -> Result<(), Halt> {
    let ask = heading.ask;
    let view = View::new(heading.given, &ask.whole.none, ask.constants)?;
    let mut group = Group::none();
    for parameter in parameters {
        seek_parameter(walk, heading, &view, own, &mut group, parameter)?;
    }
    Ok(())
}

/// The walk over a parameter of an entry, whose constants read the names of a view. Puts its name, if it declares one,
/// behind those of a table.
fn seek_parameter(
    walk: &mut Walk<'_>,
    heading: &Heading<'_>,
    view: &View<'_>,
    own: &mut NameTable,
    group: &mut Group,
    parameter: &Parameter<(), (), ()>,
) -> Result<(), Halt> {
    let ask = heading.ask;
    match parameter {
        Parameter::Const(term) => {
            let _part = pass_own(walk, &ask.in_view(view), term)?;
            Ok(())
        }
        Parameter::Declared(declared) => {
            let _part = pass_declared(walk, ask, heading.outer, &*own, group, declared)?;
            declare(ask, own, declared)
        }
    }
}

/// The names of the parameters of an entry that was passed.
fn own_of(ask: &Ask<'_>, entry: &Entry<(), (), ()>) -> Result<NameTable, Halt> {
    let mut own = NameTable::new(ask.alloc);
    match declare_own(ask, &mut own, &entry.parameters) {
        Ok(()) => Ok(own),
        Err(halt) => Err(halt),
    }
}

/// Puts the names of parameters, which were passed, behind those of a table.
fn declare_own(
    ask: &Ask<'_>,
    own: &mut NameTable,
    parameters: &Vec<Parameter<(), (), ()>>,
) -> Result<(), Halt> {
    for parameter in parameters {
        match parameter {
            Parameter::Const(_) => {}
            Parameter::Declared(declared) => declare(ask, own, declared)?,
        }
    }
    Ok(())
}

/// The walk over the condition of an entry whose parameters have these names.
fn seek_where(
    walk: &mut Walk<'_>,
    heading: &Heading<'_>,
    own: &NameTable,
    entry: &Entry<(), (), ()>,
) -> Result<(), Halt> {
    match &entry.condition {
        None => Ok(()),
        Some(term) => {
            let view = View::new(heading.given, own, heading.ask.constants)?;
            seek_condition(
                walk,
                heading.ask,
                &view,
                entry.kind,
                Refusal::InputWhere,
                term,
            )
        }
    }
}

/// The walk over a condition or a guard. An input has none.
fn seek_condition(
    walk: &mut Walk<'_>,
    ask: &Ask<'_>,
    view: &View<'_>,
    kind: Kind,
    refusal: Refusal,
    term: &Term,
) -> Result<(), Halt> {
    if kind == Kind::Input {
        let part = pass_term(walk, &ask.in_passing(), term)?;
        return ask.told_at(refusal, part);
    }
    let _part = pass_truth(walk, &ask.in_view(view), term)?;
    Ok(())
}

/// The shape of the value of a term, which was passed. A display has none of its own.
fn shape_of_term(alloc: Global, view: &View<'_>, term: &Term) -> Result<Shape, Halt> {
    match infer(alloc, view, term) {
        Ok(Some(typed)) => Ok(typed.shape),
        Ok(None) => Err(Halt::Lost),
        Err(refusal) => Err(halt_of(refusal)),
    }
}

/// The shape of the arguments that a parameter takes, which was passed.
fn shape_taken(
    ask: &Ask<'_>,
    view: &View<'_>,
    parameter: &Parameter<(), (), ()>,
) -> Result<Shape, Halt> {
    match parameter {
        Parameter::Declared(declared) => ask.shape_of(&declared.sort),
        Parameter::Const(term) => shape_of_term(ask.alloc, view, term),
    }
}

/// The shapes of the arguments that an entry takes, which was passed. The parameters of its automaton have these names.
pub(crate) fn shapes_taken(
    ask: &Ask<'_>,
    given: &NameTable,
    entry: &Entry<(), (), ()>,
) -> Result<Vec<Shape>, Halt> {
    let view = View::new(given, &ask.whole.none, ask.constants)?;
    let mut shapes = Vec::new(ask.alloc);
    match push_taken(ask, &view, &mut shapes, &entry.parameters) {
        Ok(()) => Ok(shapes),
        Err(halt) => Err(halt),
    }
}

/// Adds the shapes of the arguments that parameters take, which were passed.
fn push_taken(
    ask: &Ask<'_>,
    view: &View<'_>,
    shapes: &mut Vec<Shape>,
    parameters: &Vec<Parameter<(), (), ()>>,
) -> Result<(), Halt> {
    for parameter in parameters {
        let shape = shape_taken(ask, view, parameter)?;
        shapes.push(shape)?;
    }
    Ok(())
}

/// Whether there is a shape at a position, and it is that of numbers.
fn is_number_at(shapes: &Vec<Shape>, position: usize) -> bool {
    match shapes.get(position) {
        None => false,
        Some(shape) => match &shape.form {
            ShapeForm::Integers | ShapeForm::Naturals => true,
            _ => false,
        },
    }
}

/// Whether there is a parameter at a position, and it is a constant.
fn is_constant_at(entry: &Entry<(), (), ()>, position: usize) -> bool {
    match entry.parameters.get(position) {
        None => false,
        Some(parameter) => match parameter {
            Parameter::Const(_) => true,
            Parameter::Declared(_) => false,
        },
    }
}

/// Whether an entry that takes these shapes may have its name.
fn may_have_name(entry: &Entry<(), (), ()>, shapes: &Vec<Shape>) -> bool {
    let is_message = shapes.len() == 3 && is_number_at(shapes, 1) && is_number_at(shapes, 2);
    if entry.name.as_str() == SEND {
        return is_message && entry.kind == Kind::Output && is_constant_at(entry, 1);
    }
    if entry.name.as_str() == RECEIVE {
        return is_message
            && entry.kind == Kind::Input
            && is_constant_at(entry, 2)
            && !is_constant_at(entry, 0);
    }
    true
}

/// Ends the walk at an entry that may not have its name, if that was told.
fn seek_message(heading: &Heading<'_>, entry: &Entry<(), (), ()>, part: Part) -> Result<(), Halt> {
    if heading.ask.told != Refusal::BadArgument {
        return Ok(());
    }
    let shapes = shapes_taken(heading.ask, heading.given, entry)?;
    if may_have_name(entry, &shapes) {
        Ok(())
    } else {
        Err(bare(heading.ask.alloc, part))
    }
}

/// Whether an argument of a transition's head repeats a parameter.
fn repeats(parameter: &Parameter<(), (), ()>, argument: &Term) -> bool {
    match parameter {
        Parameter::Const(term) => is_same_term(term, argument),
        Parameter::Declared(declared) => match argument {
            Tree::Name(name, _) => is_word(name, &declared.name),
            _ => false,
        },
    }
}

/// Whether a name is this word.
fn is_word(name: &Name, word: &Word) -> bool {
    match name {
        Name::Word(other) => other == word,
        Name::Variable { .. } => false,
        Name::Queue { .. } => false,
    }
}

/// Whether the arguments of a transition's head repeat the parameters of its entry, one by one.
fn head_repeats(parameters: &Vec<Parameter<(), (), ()>>, arguments: &Vec<Term>) -> bool {
    for position in 0..parameters.len().min(arguments.len()) {
        if !repeats(&parameters[position], &arguments[position]) {
            return false;
        }
    }
    parameters.len() == arguments.len()
}

/// The walk over transitions.
pub(crate) fn seek_transitions(walk: &mut Walk<'_>, heading: &Heading<'_>) -> Result<(), Halt> {
    let transitions = &heading.automaton.transitions;
    if transitions.is_empty() {
        return Ok(());
    }
    let _transitions = walk.mark(Mark::Transitions)?;
    for (position, transition) in transitions.iter().enumerate() {
        seek_transition(walk, heading, position, transition)?;
    }
    Ok(())
}

/// The walk over the transition at a position. One that has no entry is passed, but for its head, and not asked.
fn seek_transition(
    walk: &mut Walk<'_>,
    heading: &Heading<'_>,
    position: usize,
    transition: &Transition<(), (), ()>,
) -> Result<(), Halt> {
    let first = walk.mark(kind_mark(transition.kind))?;
    let name = walk.word(&transition.name)?;
    let last = walk.called(name)?;
    let head = Part { first, last };
    if heading
        .transitions
        .stands_before(&transition.name, position)
    {
        heading.ask.told_at(Refusal::Twice, head)?;
    }
    match entry_for(heading, transition) {
        None => heading
            .ask
            .unknown_at(head, Sought::Entries(heading.entries), &transition.name),
        Some(entry) => seek_rule(walk, heading, entry, head, transition),
    }
}

/// The walk over a transition of an entry, behind its head.
fn seek_rule(
    walk: &mut Walk<'_>,
    heading: &Heading<'_>,
    entry: &Entry<(), (), ()>,
    head: Part,
    transition: &Transition<(), (), ()>,
) -> Result<(), Halt> {
    let ask = heading.ask;
    if !head_repeats(&entry.parameters, &transition.arguments) {
        ask.told_at(Refusal::BadArgument, head)?;
    }
    let own = own_of(ask, entry)?;
    seek_rule_of(walk, heading, &own, head, transition)
}

/// The walk over a transition, behind its head, of an entry whose parameters have these names.
fn seek_rule_of(
    walk: &mut Walk<'_>,
    heading: &Heading<'_>,
    own: &NameTable,
    head: Part,
    transition: &Transition<(), (), ()>,
) -> Result<(), Halt> {
    let ask = heading.ask;
    let view = View::new(heading.outer, own, ask.constants)?;
    seek_arguments(walk, ask, &view, &transition.arguments)?;
    walk.go_behind(head.last);
    if let Some(term) = &transition.pre {
        seek_condition(walk, ask, &view, transition.kind, Refusal::InputPre, term)?;
    }
    seek_effect(walk, heading, &view, transition)
}

/// The walk over the arguments of a transition's head.
fn seek_arguments(
    walk: &mut Walk<'_>,
    ask: &Ask<'_>,
    view: &View<'_>,
    arguments: &Vec<Term>,
) -> Result<(), Halt> {
    for argument in arguments {
        let _part = pass_own(walk, &ask.in_view(&*view), argument)?;
    }
    Ok(())
}

/// The walk over the effect of a transition.
fn seek_effect(
    walk: &mut Walk<'_>,
    heading: &Heading<'_>,
    view: &View<'_>,
    transition: &Transition<(), (), ()>,
) -> Result<(), Halt> {
    if transition.effect.is_empty() {
        return Ok(());
    }
    let _effect = walk.mark(Mark::Eff)?;
    let variables = heading.automaton.states.len();
    let site = Site {
        heading,
        view,
        variables,
        all_variables: variables,
    };
    pass_statements(walk, &site, &transition.effect)
}
