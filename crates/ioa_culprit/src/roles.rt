//! What a name is elsewhere in a text.

use ioa_source::{
    Automaton, Declaration, Declared, Entry, Parameter, Text, TypeDeclaration, TypeForm, Variable,
};
use ioa_terms::Word;

/// What a name is, and in which declaration.
#[derive(Clone, Copy)]
pub(crate) struct Role<'a> {
    /// What it is.
    pub what: &'static str,
    /// The name of the declaration, if the name is not that.
    pub owner: Option<&'a Word>,
}

/// What a name is in the first declaration of a text that has it.
pub(crate) fn role_of<'a>(source: &'a Text<(), (), ()>, name: &Word) -> Option<Role<'a>> {
    for declaration in &source.declarations {
        let found = in_declaration(declaration, name);
        if found.is_some() {
            return found;
        }
    }
    None
}

/// What a name is in a declaration.
fn in_declaration<'a>(declaration: &'a Declaration<(), (), ()>, name: &Word) -> Option<Role<'a>> {
    match declaration {
        Declaration::Type(declared) => in_type(declared, name),
        Declaration::Automaton(automaton) => in_automaton(automaton, name),
    }
}

/// A part of a declaration.
fn part_of<'a>(what: &'static str, owner: &'a Word) -> Option<Role<'a>> {
    Some(Role {
        what,
        owner: Some(owner),
    })
}

/// What a name is in a type.
fn in_type<'a>(declared: &'a TypeDeclaration<()>, name: &Word) -> Option<Role<'a>> {
    if declared.name == *name {
        return Some(Role {
            what: "a type",
            owner: None,
        });
    }
    match &declared.form {
        TypeForm::Enumeration(constants) => {
            if constants.contains(name) {
                return part_of("a constant of", &declared.name);
            }
        }
        TypeForm::Tuple(fields) => {
            if is_declared(fields, name) {
                return part_of("a field of", &declared.name);
            }
        }
    }
    None
}

/// What a name is in an automaton.
fn in_automaton<'a>(automaton: &'a Automaton<(), (), ()>, name: &Word) -> Option<Role<'a>> {
    let owner = &automaton.name;
    if automaton.name == *name {
        return Some(Role {
            what: "an automaton",
            owner: None,
        });
    }
    if is_declared(&automaton.parameters, name) {
        return part_of("a parameter of", owner);
    }
    if is_variable(&automaton.states, name) {
        return part_of("a state variable of", owner);
    }
    if is_variable(&automaton.schedule.variables, name) {
        return part_of("a variable of the schedule of", owner);
    }
    if is_action(&automaton.signature, name) {
        return part_of("an action of", owner);
    }
    if is_of_action(&automaton.signature, name) {
        return part_of("a parameter of an action of", owner);
    }
    None
}

/// Whether one of these declares a name.
fn is_declared(declared: &[Declared<()>], name: &Word) -> bool {
    declared.iter().any(|one| one.name == *name)
}

/// Whether one of these is a variable of a name.
fn is_variable(variables: &[Variable<(), (), ()>], name: &Word) -> bool {
    variables
        .iter()
        .any(|variable| variable.declared.name == *name)
}

/// Whether one of these is the entry of a name.
fn is_action(entries: &[Entry<(), (), ()>], name: &Word) -> bool {
    entries.iter().any(|entry| entry.name == *name)
}

/// Whether one of these has a parameter of a name.
fn is_of_action(entries: &[Entry<(), (), ()>], name: &Word) -> bool {
    for entry in entries {
        for parameter in &entry.parameters {
            if is_parameter(parameter, name) {
                return true;
            }
        }
    }
    false
}

/// Whether a parameter declares a name.
fn is_parameter(parameter: &Parameter<(), (), ()>, name: &Word) -> bool {
    match parameter {
        Parameter::Const(_) => false,
        Parameter::Declared(declared) => declared.name == *name,
    }
}
