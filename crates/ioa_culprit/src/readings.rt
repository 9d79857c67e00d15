//! What the names of an invariant read.

ghost use Rattle.std.specs.Prelude.{◌≡◌, IfOk, length};

use crate::asking::Ask;
use crate::halt::Halt;
use crate::offers::Offers;
use crate::section::{has_channel, program_of};
use ioa_names::{ReadNames, Readings};
use ioa_terms::{Name, Shape, Term};

/// The names that the term of an invariant reads and that are there, with their shapes. A name that is not there is
/// left out, so a term that reads it is refused.
pub(crate) fn readings_of(ask: &Ask<'_>, offers: &Offers, term: &Term) -> Result<Readings, Halt> {
    let names = names_of(ask, offers, term)?;
    let shapes = shapes_of(ask, offers, names.as_slice())?;
    Ok(Readings::new(ask.alloc, names, shapes)?)
}

/// The names that a term reads and that are there.
fn names_of(ask: &Ask<'_>, offers: &Offers, term: &Term) -> Result<ReadNames, Halt> {
    let mut names = ReadNames::new(ask.alloc);
    match add_names(ask, offers, term, &mut names) {
        Ok(()) => Ok(names),
        Err(halt) => Err(halt),
    }
}

/// The shapes of names that are there.
fn shapes_of(ask: &Ask<'_>, offers: &Offers, names: &[Name]) -> Result<Vec<Shape>, Halt>
    ensures { IfOk result (λ shapes. length shapes.items ≡ length names.now) }
{
    let mut shapes = Vec::new(ask.alloc);
    for name in names {
        let shape = shape_read(ask, offers, name)?;
        shapes.push(shape)?;
    }
    Ok(shapes)
}

/// Puts the names that a term reads and that are there behind others, each that is new once.
#[cycle(adding)]
fn add_names(
    ask: &Ask<'_>,
    offers: &Offers,
    term: &Term,
    names: &mut ReadNames,
) -> Result<(), Halt> {
    match term {
        Term::Number(_) | Term::Truth(_) => Ok(()),
        Term::Name(name, _) => add_name(ask, offers, name, names),
        Term::One(_, part) => add_names(ask, offers, part, names),
        Term::Two(_, left, right) => {
            add_names(ask, offers, left, names)?;
            add_names(ask, offers, right, names)
        }
        Term::Call(_, _, parts) => add_all_names(ask, offers, parts, names),
        Term::Display(_, _, parts) => add_all_names(ask, offers, parts, names),
        Term::Field(part, _, _) => add_names(ask, offers, part, names),
    }
}

/// The same of several terms.
#[cycle(adding)]
fn add_all_names(
    ask: &Ask<'_>,
    offers: &Offers,
    terms: &Vec<Term>,
    names: &mut ReadNames,
) -> Result<(), Halt> {
    for term in terms {
        add_names(ask, offers, term, names)?;
    }
    Ok(())
}

/// Puts a name behind others, if it is there and is new.
fn add_name(
    ask: &Ask<'_>,
    offers: &Offers,
    name: &Name,
    names: &mut ReadNames,
) -> Result<(), Halt> {
    if is_there(ask, offers, name) {
        let _fresh = names.declare(name.try_copy(ask.alloc)?)?;
    }
    Ok(())
}

/// Whether what a name reads is there; a word is none that an invariant reads.
fn is_there(ask: &Ask<'_>, offers: &Offers, name: &Name) -> bool {
    match name {
        Name::Word(_) => false,
        Name::Variable { name, node } => match program_of(&ask.whole.source.system, *node) {
            None => false,
            Some(automaton) => offers.has_state(automaton, name),
        },
        Name::Queue { from, to } => is_queue_there(ask, offers, *from, *to),
    }
}

/// Whether a queue is there: a channel to a node that takes messages.
fn is_queue_there(ask: &Ask<'_>, offers: &Offers, from: i64, to: i64) -> bool {
    if !has_channel(&ask.whole.source.system, from, to) {
        return false;
    }
    match program_of(&ask.whole.source.system, to) {
        None => false,
        Some(automaton) => offers.has_messages(automaton),
    }
}

/// The shape of what a name reads that is there.
fn shape_read(ask: &Ask<'_>, offers: &Offers, name: &Name) -> Result<Shape, Halt> {
    match name {
        Name::Word(_) => Err(Halt::Lost),
        Name::Variable { name, node } => match program_of(&ask.whole.source.system, *node) {
            None => Err(Halt::Lost),
            Some(automaton) => offers.shape_of_state(ask, automaton, name),
        },
        Name::Queue { from: _, to } => match program_of(&ask.whole.source.system, *to) {
            None => Err(Halt::Lost),
            Some(automaton) => offers.shape_of_queue(ask.alloc, automaton),
        },
    }
}
