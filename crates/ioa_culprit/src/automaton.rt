//! The walk over an automaton.

use crate::asking::Ask;
use crate::block::seek_schedule;
use crate::halt::Halt;
use crate::heading::{Heading, seek_parameters, seek_states};
use crate::index::{NameIndex, index_of_entries, index_of_transitions};
use crate::rules::{seek_signature, seek_transitions};
use ioa_names::NameTable;
use ioa_refusals::Refusal;
use ioa_source::{Automaton, Declaration};
use ioa_terms::Word;
use ioa_walk::{Walk, one_token};

/// Whether one of these declarations is an automaton of a name.
fn has_automaton(declarations: &[Declaration<(), (), ()>], name: &Word) -> bool {
    for declaration in declarations {
        match declaration {
            Declaration::Type(_) => {}
            Declaration::Automaton(automaton) => {
                if automaton.name == *name {
                    return true;
                }
            }
        }
    }
    false
}

/// The walk over an automaton behind other declarations.
pub(crate) fn seek_automaton(
    walk: &mut Walk<'_>,
    ask: &Ask<'_>,
    before: &[Declaration<(), (), ()>],
    automaton: &Automaton<(), (), ()>,
) -> Result<(), Halt> {
    let name = walk.word(&automaton.name)?;
    if has_automaton(before, &automaton.name) {
        ask.told_at(Refusal::Twice, one_token(name))?;
    }
    let given = seek_parameters(walk, ask, &automaton.parameters)?;
    seek_behind_parameters(walk, ask, automaton, &given)
}

/// The walk over what an automaton has behind its parameters, which have these names.
fn seek_behind_parameters(
    walk: &mut Walk<'_>,
    ask: &Ask<'_>,
    automaton: &Automaton<(), (), ()>,
    given: &NameTable,
) -> Result<(), Halt> {
    let mut states = *walk;
    let outer = seek_states(&mut states, ask, given, automaton)?;
    seek_behind_states(walk, ask, automaton, given, &outer)
}

/// The same behind its state variables, which have these names.
fn seek_behind_states(
    walk: &mut Walk<'_>,
    ask: &Ask<'_>,
    automaton: &Automaton<(), (), ()>,
    given: &NameTable,
    outer: &NameTable,
) -> Result<(), Halt> {
    let entries = index_of_entries(ask.alloc, &automaton.signature)?;
    seek_among(walk, ask, automaton, given, outer, &entries)
}

/// The same among entries of these names.
fn seek_among(
    walk: &mut Walk<'_>,
    ask: &Ask<'_>,
    automaton: &Automaton<(), (), ()>,
    given: &NameTable,
    outer: &NameTable,
    entries: &NameIndex,
) -> Result<(), Halt> {
    let transitions = index_of_transitions(ask.alloc, &automaton.transitions)?;
    let heading = Heading {
        ask,
        automaton,
        given,
        outer,
        entries,
        transitions: &transitions,
    };
    seek_parts(walk, &heading)
}

/// The walk over what an automaton has behind its heading.
fn seek_parts(walk: &mut Walk<'_>, heading: &Heading<'_>) -> Result<(), Halt> {
    let mut entries = *walk;
    seek_signature(&mut entries, heading)?;
    let mut transitions = *walk;
    seek_transitions(&mut transitions, heading)?;
    seek_schedule(walk, heading)
}
