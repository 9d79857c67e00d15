//! The walk over an invariant.

use crate::asking::Ask;
use crate::halt::{Halt, bare};
use crate::offers::{Offers, offers_of};
use crate::readings::readings_of;
use crate::terms::{pass_term, pass_truth};
use ioa_names::{Readings, View};
use ioa_refusals::Refusal;
use ioa_source::Invariant;
use ioa_terms::{Term, Word};
use ioa_walk::{Walk, one_token};

/// Whether one of these invariants has a name.
fn has_invariant(invariants: &[Invariant<(), (), ()>], name: &Word) -> bool {
    invariants.iter().any(|invariant| invariant.name == *name)
}

/// The walk over an invariant behind others.
pub(crate) fn seek_invariant(
    walk: &mut Walk<'_>,
    ask: &Ask<'_>,
    before: &[Invariant<(), (), ()>],
    invariant: &Invariant<(), (), ()>,
) -> Result<(), Halt> {
    let name = walk.word(&invariant.name)?;
    if has_invariant(before, &invariant.name) {
        ask.told_at(Refusal::Twice, one_token(name))?;
    }
    seek_term(walk, ask, invariant)
}

/// The walk over the term of an invariant.
fn seek_term(
    walk: &mut Walk<'_>,
    ask: &Ask<'_>,
    invariant: &Invariant<(), (), ()>,
) -> Result<(), Halt> {
    let offers = offers_of(ask)?;
    seek_offered(walk, ask, &offers, &invariant.term)
}

/// The walk over the term of an invariant, to which the nodes offer this.
fn seek_offered(
    walk: &mut Walk<'_>,
    ask: &Ask<'_>,
    offers: &Offers,
    term: &Term,
) -> Result<(), Halt> {
    let readings = readings_of(ask, offers, term)?;
    seek_reading(walk, ask, &readings, term)
}

/// The walk over the term of an invariant that reads this.
fn seek_reading(
    walk: &mut Walk<'_>,
    ask: &Ask<'_>,
    readings: &Readings,
    term: &Term,
) -> Result<(), Halt> {
    let view = View::of_readings(readings, &ask.whole.none, ask.constants)?;
    let asked = ask.in_readings(&view);
    let mut inner = *walk;
    let part = pass_truth(walk, &asked, term)?;
    let _term = pass_term(&mut inner, &asked, term)?;
    Err(bare(ask.alloc, part))
}
