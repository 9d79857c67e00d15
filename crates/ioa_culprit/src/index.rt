//! Where names stand first.

use indexmap::IndexMap;
use ioa_source::{Declaration, Entry, Transition, Variable};
use ioa_terms::Word;
use std::alloc::{AllocError, Global};

/// Names, each with the position at which it stands first.
#[derive(Drop)]
pub(crate) struct NameIndex {
    positions: IndexMap<Word, usize>,
}

impl NameIndex {
    /// No names.
    pub(crate) fn new(alloc: Global) -> Self {
        NameIndex {
            positions: IndexMap::new(alloc),
        }
    }

    /// Adds a name at a position, unless it is one of the names. Returns whether it was new.
    pub(crate) fn add(
        &mut self,
        alloc: Global,
        name: &Word,
        position: usize,
    ) -> Result<bool, AllocError> {
        if self.positions.get(name).is_some() {
            return Ok(false);
        }
        self.positions.insert(name.try_copy(alloc)?, position)?;
        Ok(true)
    }

    /// The position at which a name stands first.
    pub(crate) fn position_of(&self, name: &Word) -> Option<usize> {
        self.positions.get(name).copied()
    }

    /// Whether a name stands before a position.
    pub(crate) fn stands_before(&self, name: &Word, position: usize) -> bool {
        match self.position_of(name) {
            None => false,
            Some(first) => first < position,
        }
    }
}

/// The names of entries.
pub(crate) fn index_of_entries(
    alloc: Global,
    entries: &[Entry<(), (), ()>],
) -> Result<NameIndex, AllocError> {
    let mut index = NameIndex::new(alloc);
    for (position, entry) in entries.iter().enumerate() {
        let _fresh = index.add(alloc, &entry.name, position)?;
    }
    Ok(index)
}

/// The names of transitions.
pub(crate) fn index_of_transitions(
    alloc: Global,
    transitions: &[Transition<(), (), ()>],
) -> Result<NameIndex, AllocError> {
    let mut index = NameIndex::new(alloc);
    for (position, transition) in transitions.iter().enumerate() {
        let _fresh = index.add(alloc, &transition.name, position)?;
    }
    Ok(index)
}

/// The names of variables.
pub(crate) fn index_of_variables(
    alloc: Global,
    variables: &[Variable<(), (), ()>],
) -> Result<NameIndex, AllocError> {
    let mut index = NameIndex::new(alloc);
    for (position, variable) in variables.iter().enumerate() {
        let _fresh = index.add(alloc, &variable.declared.name, position)?;
    }
    Ok(index)
}

/// The names of the automata among declarations.
pub(crate) fn index_of_automata(
    alloc: Global,
    declarations: &[Declaration<(), (), ()>],
) -> Result<NameIndex, AllocError> {
    let mut index = NameIndex::new(alloc);
    for (position, declaration) in declarations.iter().enumerate() {
        match declaration {
            Declaration::Type(_) => {}
            Declaration::Automaton(automaton) => {
                let _fresh = index.add(alloc, &automaton.name, position)?;
            }
        }
    }
    Ok(index)
}
