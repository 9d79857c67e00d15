//! The walk over the schedule block of an automaton.

use crate::asking::Ask;
use crate::halt::Halt;
use crate::heading::{Heading, seek_variables};
use crate::rules::shapes_taken;
use crate::statements::{Site, pass_statements};
use ioa_actions::RECEIVE;
use ioa_names::{NameTable, View};
use ioa_sort_rules::map_of;
use ioa_source::Entry;
use ioa_terms::{Shape, ShapeForm, inboxes_word};
use ioa_tokens::Mark;
use ioa_walk::Walk;
use std::alloc::{AllocError, Global};
use std::sync::Arc;

/// The walk over a schedule block.
pub(crate) fn seek_schedule(walk: &mut Walk<'_>, heading: &Heading<'_>) -> Result<(), Halt> {
    let schedule = &heading.automaton.schedule;
    if schedule.variables.is_empty() && schedule.statements.is_empty() {
        return Ok(());
    }
    let mut own = NameTable::new(heading.ask.alloc);
    seek_block(walk, heading, &mut own)
}

/// The walk over a schedule block that has something in it. Puts the names that it alone reads behind those of a table.
fn seek_block(walk: &mut Walk<'_>, heading: &Heading<'_>, own: &mut NameTable) -> Result<(), Halt> {
    let _schedule = walk.mark(Mark::Schedule)?;
    let variables = &heading.automaton.schedule.variables;
    seek_variables(
        walk,
        heading.ask,
        heading.given,
        heading.outer,
        own,
        variables,
    )?;
    declare_inboxes(heading, own)?;
    let _do = walk.mark(Mark::Do)?;
    seek_statements(walk, heading, &*own)
}

/// The walk over the statements of a block that alone reads these names.
fn seek_statements(
    walk: &mut Walk<'_>,
    heading: &Heading<'_>,
    own: &NameTable,
) -> Result<(), Halt> {
    let schedule = &heading.automaton.schedule;
    let view = View::new(own, heading.outer, heading.ask.constants)?;
    let states = heading.automaton.states.len();
    let site = Site {
        heading,
        view: &view,
        variables: schedule.variables.len(),
        all_variables: own.len().saturating_add(states),
    };
    pass_statements(walk, &site, &schedule.statements)
}

/// Puts the inboxes behind the names of a table, if an entry takes messages.
fn declare_inboxes(heading: &Heading<'_>, table: &mut NameTable) -> Result<(), Halt> {
    let shapes = shapes_received(heading.ask, heading.given, &heading.automaton.signature)?;
    declare_inboxes_of(heading.ask, table, &shapes)
}

/// The shapes of the arguments of the entry whose actions take messages; none if there is no such entry. The message is
/// the first one. The parameters of the automaton have these names.
pub(crate) fn shapes_received(
    ask: &Ask<'_>,
    given: &NameTable,
    entries: &[Entry<(), (), ()>],
) -> Result<Vec<Shape>, Halt> {
    match receive_of(entries) {
        None => Ok(Vec::new(ask.alloc)),
        Some(entry) => shapes_taken(ask, given, entry),
    }
}

/// The entry whose actions take messages.
fn receive_of(entries: &[Entry<(), (), ()>]) -> Option<&Entry<(), (), ()>> {
    for entry in entries {
        if entry.name.as_str() == RECEIVE {
            return Some(entry);
        }
    }
    None
}

/// Puts the inboxes behind the names of a table, for messages of the first of these shapes, if there is one.
fn declare_inboxes_of(ask: &Ask<'_>, table: &mut NameTable, shapes: &[Shape]) -> Result<(), Halt> {
    match shapes.first() {
        None => Ok(()),
        Some(message) => {
            let word = inboxes_word(ask.alloc)?;
            let shape = inboxes_shape(ask.alloc, message)?;
            ask.declare(table, word, shape)
        }
    }
}

/// The shape of the inboxes, if messages have this shape: a map from the numbers of nodes to sequences.
fn inboxes_shape(alloc: Global, message: &Shape) -> Result<Shape, AllocError> {
    let message = Arc::new(alloc, message.try_copy(alloc)?)?;
    let senders = Shape::of(ShapeForm::Integers);
    map_of(alloc, senders, Shape::of(ShapeForm::Sequences(message)))
}
