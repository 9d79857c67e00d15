//! Walks over choices in effects.

use crate::asking::Ask;
use crate::declared::{declare_as, pass_sort};
use crate::halt::{Halt, found, halt_of};
use crate::statements::{Site, pass_target};
use crate::terms::{pass_at, pass_truth};
use crate::unknown::taken_words;
use crate::words::{place_words, simple_words};
use ioa_names::{NameTable, View};
use ioa_refusals::Refusal;
use ioa_sort_rules::{is_same_sort, shape_in_terms};
use ioa_sorts::simple_shape;
use ioa_terms::{Choice, Shape, Sort, Word};
use ioa_tokens::Mark;
use ioa_walk::{Part, Walk, one_token};
use std::alloc::{AllocError, Global};

/// Passes a choice: its target, its sort and its name, its condition, and what it yields.
pub(crate) fn pass_choice(
    walk: &mut Walk<'_>,
    site: &Site<'_>,
    choice: &Choice<(), (), ()>,
) -> Result<(), Halt> {
    let place = pass_target(walk, site, &choice.target)?;
    pass_chosen(walk, site, choice, &place)?;
    pass_condition(walk, site, choice)?;
    pass_yield(walk, site, choice)
}

/// Passes the name and the sort of a choice whose value goes to a place of a shape. The sort is asked first.
fn pass_chosen(
    walk: &mut Walk<'_>,
    site: &Site<'_>,
    choice: &Choice<(), (), ()>,
    place: &Shape,
) -> Result<(), Halt> {
    let ask = site.heading.ask;
    let name = walk.word(&choice.name)?;
    let sort = pass_sort(walk, ask, &choice.sort)?;
    fits_at(ask, &choice.sort, place, sort)?;
    is_new_at(ask, site.view, &choice.name, one_token(name))
}

/// Ends the walk at a sort whose values can't be chosen, or that is not the one of a place, if that was told.
fn fits_at(ask: &Ask<'_>, sort: &Sort, place: &Shape, part: Part) -> Result<(), Halt> {
    if ask.told != Refusal::Sorts {
        return Ok(());
    }
    match simple_shape(ask.alloc, ask.types, sort) {
        Ok(shape) => is_of_place_at(ask.alloc, &shape, place, part),
        Err(Refusal::Sorts) => {
            let shape = ask.shape_of(sort)?;
            Err(found(part, simple_words(ask.alloc, &shape)))
        }
        Err(refusal) => Err(halt_of(refusal)),
    }
}

/// Ends the walk at a sort of a shape that is not the one of a place.
fn is_of_place_at(alloc: Global, shape: &Shape, place: &Shape, part: Part) -> Result<(), Halt> {
    if is_of_place(alloc, shape, place)? {
        Ok(())
    } else {
        Err(found(part, place_words(alloc, place, shape)))
    }
}

/// Whether the values of two shapes are of one sort in terms.
fn is_of_place(alloc: Global, shape: &Shape, place: &Shape) -> Result<bool, AllocError> {
    let shape = shape_in_terms(alloc, shape)?;
    let place = shape_in_terms(alloc, place)?;
    Ok(is_same_sort(&shape, &place))
}

/// Ends the walk at the name of a choice that is in view, if that was told.
fn is_new_at(ask: &Ask<'_>, view: &View<'_>, name: &Word, part: Part) -> Result<(), Halt> {
    if ask.told == Refusal::Twice && view.declares(name) {
        Err(found(part, taken_words(ask.alloc, name)))
    } else {
        Ok(())
    }
}

/// Passes the condition of a choice, which reads the value that is chosen.
fn pass_condition(
    walk: &mut Walk<'_>,
    site: &Site<'_>,
    choice: &Choice<(), (), ()>,
) -> Result<(), Halt> {
    let front = chosen_name(site.heading.ask, choice)?;
    pass_condition_behind(walk, site, &front, choice)
}

/// The table of the name of a choice.
fn chosen_name(ask: &Ask<'_>, choice: &Choice<(), (), ()>) -> Result<NameTable, Halt> {
    let mut table = NameTable::new(ask.alloc);
    match declare_as(ask, &mut table, &choice.name, &choice.sort) {
        Ok(()) => Ok(table),
        Err(halt) => Err(halt),
    }
}

/// Passes the condition of a choice, which reads the names of a table before those in view.
fn pass_condition_behind(
    walk: &mut Walk<'_>,
    site: &Site<'_>,
    front: &NameTable,
    choice: &Choice<(), (), ()>,
) -> Result<(), Halt> {
    let view = site.view.with_front(front)?;
    let _where = walk.mark(Mark::Where)?;
    let _part = pass_truth(walk, &site.heading.ask.in_view(&view), &choice.condition)?;
    Ok(())
}

/// Passes what a choice yields, which does not read the value that is chosen.
fn pass_yield(
    walk: &mut Walk<'_>,
    site: &Site<'_>,
    choice: &Choice<(), (), ()>,
) -> Result<(), Halt> {
    let ask = site.heading.ask;
    let shape = ask.shape_of(&choice.sort)?;
    let _yield = walk.mark(Mark::Yield)?;
    pass_at(walk, &ask.in_view(site.view), &choice.yields, &shape)
}
