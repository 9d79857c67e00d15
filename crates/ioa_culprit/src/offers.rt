//! What the nodes of a text offer to its invariants.

use crate::asking::Ask;
use crate::block::shapes_received;
use crate::halt::Halt;
use crate::heading::{given_of, states_of};
use crate::index::NameIndex;
use crate::section::automaton_named;
use ioa_names::{NameTable, View};
use ioa_source::{Automaton, Placement};
use ioa_terms::{Shape, ShapeForm, Word};
use std::alloc::{AllocError, Global};
use std::sync::Arc;

/// What an automaton offers.
#[derive(Drop)]
struct Offer {
    /// Its state variables.
    states: NameTable,
    /// The shapes of the arguments with which it takes a message, which is the first one; none if it takes none.
    received: Vec<Shape>,
}

/// What the automata that are placed on nodes offer, each of them once.
#[derive(Drop)]
pub(crate) struct Offers {
    /// The names of the automata.
    names: NameIndex,
    /// What each of them offers.
    offers: Vec<Offer>,
}

/// What the nodes of a text offer whose system section is good.
pub(crate) fn offers_of(ask: &Ask<'_>) -> Result<Offers, Halt> {
    let mut offers = Offers {
        names: NameIndex::new(ask.alloc),
        offers: Vec::new(ask.alloc),
    };
    match add_offers(ask, &mut offers) {
        Ok(()) => Ok(offers),
        Err(halt) => Err(halt),
    }
}

/// Adds what the automata offer that are placed on nodes.
fn add_offers(ask: &Ask<'_>, offers: &mut Offers) -> Result<(), Halt> {
    for placement in &ask.whole.source.system {
        match placement {
            Placement::Node(node) => add_offer(ask, offers, &node.automaton)?,
            Placement::Channel(_) | Placement::Script(_) => {}
        }
    }
    Ok(())
}

/// Adds what the automaton of a name offers, if it is new.
fn add_offer(ask: &Ask<'_>, offers: &mut Offers, name: &Word) -> Result<(), Halt> {
    match automaton_named(&ask.whole.source.declarations, name) {
        None => Ok(()),
        Some(automaton) => {
            let position = offers.offers.len();
            if offers.names.add(ask.alloc, name, position)? {
                push_offer(ask, &mut offers.offers, automaton)
            } else {
                Ok(())
            }
        }
    }
}

/// Adds what an automaton offers.
fn push_offer(
    ask: &Ask<'_>,
    offers: &mut Vec<Offer>,
    automaton: &Automaton<(), (), ()>,
) -> Result<(), Halt> {
    let offer = offer_of(ask, automaton)?;
    offers.push(offer)?;
    Ok(())
}

/// What an automaton offers.
fn offer_of(ask: &Ask<'_>, automaton: &Automaton<(), (), ()>) -> Result<Offer, Halt> {
    let received = received_by(ask, automaton)?;
    let states = states_of(ask, automaton)?;
    Ok(Offer { states, received })
}

/// The shapes of the arguments with which an automaton takes a message; none if it takes none.
fn received_by(ask: &Ask<'_>, automaton: &Automaton<(), (), ()>) -> Result<Vec<Shape>, Halt> {
    let given = given_of(ask, automaton)?;
    shapes_received(ask, &given, &automaton.signature)
}

impl Offers {
    /// What the automaton of a name offers, if it is placed on a node.
    fn offer_named(&self, name: &Word) -> Option<&Offer> {
        let position = self.names.position_of(name)?;
        self.offers.get(position)
    }

    /// Whether an automaton has a state variable.
    pub(crate) fn has_state(&self, automaton: &Word, name: &Word) -> bool {
        match self.offer_named(automaton) {
            None => false,
            Some(offer) => offer.states.declares(name),
        }
    }

    /// Whether an automaton takes messages.
    pub(crate) fn has_messages(&self, automaton: &Word) -> bool {
        match self.offer_named(automaton) {
            None => false,
            Some(offer) => !offer.received.is_empty(),
        }
    }

    /// The shape of a state variable of an automaton that has it.
    pub(crate) fn shape_of_state(
        &self,
        ask: &Ask<'_>,
        automaton: &Word,
        name: &Word,
    ) -> Result<Shape, Halt> {
        match self.offer_named(automaton) {
            None => Err(Halt::Lost),
            Some(offer) => shape_in(ask, &offer.states, name),
        }
    }

    /// The shape of a queue of messages to an automaton that takes them: sequences of messages.
    pub(crate) fn shape_of_queue(&self, alloc: Global, automaton: &Word) -> Result<Shape, Halt> {
        match self.offer_named(automaton) {
            None => Err(Halt::Lost),
            Some(offer) => match offer.received.first() {
                None => Err(Halt::Lost),
                Some(message) => Ok(sequences_of(alloc, message)?),
            },
        }
    }
}

/// The shape of a name of a table.
fn shape_in(ask: &Ask<'_>, table: &NameTable, name: &Word) -> Result<Shape, Halt> {
    let view = View::new(table, &ask.whole.none, &ask.whole.none)?;
    match view.find_variable(name, usize::MAX) {
        None => Err(Halt::Lost),
        Some((_, shape)) => Ok(shape.try_copy(ask.alloc)?),
    }
}

/// The sequences of values of a shape.
fn sequences_of(alloc: Global, item: &Shape) -> Result<Shape, AllocError> {
    let item = Arc::new(alloc, item.try_copy(alloc)?)?;
    Ok(Shape::of(ShapeForm::Sequences(item)))
}
