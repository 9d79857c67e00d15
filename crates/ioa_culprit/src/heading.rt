//! Walks over the parameters and the state variables of an automaton.

use crate::asking::Ask;
use crate::declared::{Group, declare, declare_all, pass_declared};
use crate::halt::Halt;
use crate::index::NameIndex;
use crate::terms::pass_at;
use ioa_names::{NameTable, View};
use ioa_refusals::Refusal;
use ioa_source::{Automaton, Declared, Entry, Transition, Variable};
use ioa_terms::{Term, Word};
use ioa_tokens::Mark;
use ioa_walk::{Part, Walk};

/// What is known of an automaton behind its parameters and its state variables.
#[derive(Clone, Copy)]
pub(crate) struct Heading<'a> {
    /// What is looked for.
    pub ask: &'a Ask<'a>,
    /// The automaton.
    pub automaton: &'a Automaton<(), (), ()>,
    /// The names of its parameters.
    pub given: &'a NameTable,
    /// The names of its state variables and of its parameters.
    pub outer: &'a NameTable,
    /// The names of its entries.
    pub entries: &'a NameIndex,
    /// The names of its transitions.
    pub transitions: &'a NameIndex,
}

impl<'a> Heading<'a> {
    /// The first entry that has the name of an action.
    pub(crate) fn entry_named(&self, name: &Word) -> Option<&'a Entry<(), (), ()>> {
        let position = self.entries.position_of(name)?;
        self.automaton.signature.get(position)
    }

    /// The first transition that has the name of an action.
    pub(crate) fn transition_named(&self, name: &Word) -> Option<&'a Transition<(), (), ()>> {
        let position = self.transitions.position_of(name)?;
        self.automaton.transitions.get(position)
    }
}

/// The walk over parameters. Returns the table of their names.
pub(crate) fn seek_parameters(
    walk: &mut Walk<'_>,
    ask: &Ask<'_>,
    parameters: &[Declared<()>],
) -> Result<NameTable, Halt> {
    let mut table = NameTable::new(ask.alloc);
    match pass_parameters(walk, ask, &mut table, parameters) {
        Ok(()) => Ok(table),
        Err(halt) => Err(halt),
    }
}

/// Passes parameters. Puts their names behind those of a table.
fn pass_parameters(
    walk: &mut Walk<'_>,
    ask: &Ask<'_>,
    table: &mut NameTable,
    parameters: &[Declared<()>],
) -> Result<(), Halt> {
    let mut group = Group::none();
    let none = &ask.whole.none;
    for parameter in parameters {
        let _part = pass_declared(walk, ask, none, &*table, &mut group, parameter)?;
        declare(ask, table, parameter)?;
    }
    Ok(())
}

/// The walk over the state variables of an automaton that has parameters of these names. Returns the table of the names
/// of both, the variables first.
pub(crate) fn seek_states(
    walk: &mut Walk<'_>,
    ask: &Ask<'_>,
    given: &NameTable,
    automaton: &Automaton<(), (), ()>,
) -> Result<NameTable, Halt> {
    let mut table = NameTable::new(ask.alloc);
    match pass_states(walk, ask, given, &mut table, automaton) {
        Ok(()) => Ok(table),
        Err(halt) => Err(halt),
    }
}

/// Passes the state variables of an automaton. Puts their names behind those of a table, and then its parameters'.
fn pass_states(
    walk: &mut Walk<'_>,
    ask: &Ask<'_>,
    given: &NameTable,
    table: &mut NameTable,
    automaton: &Automaton<(), (), ()>,
) -> Result<(), Halt> {
    if !automaton.states.is_empty() {
        let _states = walk.mark(Mark::States)?;
    }
    seek_variables(walk, ask, given, given, table, &automaton.states)?;
    declare_all(ask, table, &automaton.parameters)
}

/// The names of the parameters of an automaton that was passed.
pub(crate) fn given_of(
    ask: &Ask<'_>,
    automaton: &Automaton<(), (), ()>,
) -> Result<NameTable, Halt> {
    let mut table = NameTable::new(ask.alloc);
    match declare_all(ask, &mut table, &automaton.parameters) {
        Ok(()) => Ok(table),
        Err(halt) => Err(halt),
    }
}

/// The names of the state variables of an automaton that was passed.
pub(crate) fn states_of(
    ask: &Ask<'_>,
    automaton: &Automaton<(), (), ()>,
) -> Result<NameTable, Halt> {
    let mut table = NameTable::new(ask.alloc);
    match declare_variables(ask, &mut table, &automaton.states) {
        Ok(()) => Ok(table),
        Err(halt) => Err(halt),
    }
}

/// Puts the names of variables, which were passed, behind those of a table.
fn declare_variables(
    ask: &Ask<'_>,
    table: &mut NameTable,
    variables: &[Variable<(), (), ()>],
) -> Result<(), Halt> {
    for variable in variables {
        declare(ask, table, &variable.declared)?;
    }
    Ok(())
}

/// The walk over variables whose initial terms read the names of an automaton's parameters, and which are to differ
/// from names outside. Puts their names behind those of a table.
pub(crate) fn seek_variables(
    walk: &mut Walk<'_>,
    ask: &Ask<'_>,
    given: &NameTable,
    outer: &NameTable,
    table: &mut NameTable,
    variables: &[Variable<(), (), ()>],
) -> Result<(), Halt> {
    let view = View::new(given, &ask.whole.none, ask.constants)?;
    seek_variables_in(walk, ask, &view, outer, table, variables)
}

/// The walk over variables whose initial terms read the names of a view. Puts their names behind those of a table.
fn seek_variables_in(
    walk: &mut Walk<'_>,
    ask: &Ask<'_>,
    view: &View<'_>,
    outer: &NameTable,
    table: &mut NameTable,
    variables: &[Variable<(), (), ()>],
) -> Result<(), Halt> {
    let mut group = Group::none();
    for variable in variables {
        let part = pass_declared(walk, ask, outer, &*table, &mut group, &variable.declared)?;
        seek_initial(walk, ask, view, part, variable)?;
        declare(ask, table, &variable.declared)?;
    }
    Ok(())
}

/// The walk over the initial term of a variable, whose name and sort have this part.
fn seek_initial(
    walk: &mut Walk<'_>,
    ask: &Ask<'_>,
    view: &View<'_>,
    part: Part,
    variable: &Variable<(), (), ()>,
) -> Result<(), Halt> {
    match &variable.initial {
        None => ask.told_at(Refusal::NoInitial, part),
        Some(term) => seek_initial_term(walk, ask, view, variable, term),
    }
}

/// The walk over a term that is the initial one of a variable.
fn seek_initial_term(
    walk: &mut Walk<'_>,
    ask: &Ask<'_>,
    view: &View<'_>,
    variable: &Variable<(), (), ()>,
    term: &Term,
) -> Result<(), Halt> {
    let shape = ask.shape_of(&variable.declared.sort)?;
    pass_at(walk, &ask.in_view(view), term, &shape)
}
