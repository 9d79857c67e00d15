//! How a look reads what a book holds.

ghost use Rattle.std.specs.Prelude.{◌≡◌, ◌≤◌, ◌<◌, IfOk, IsTrue, OnOk, Some, length, slice_get, take, true};
ghost use Rattle.std.specs.Option.{option_copied};
ghost use Rattle.ioa_book.specs.Slots.{places_at};

use ioa_commits::VersionedConf;
use ioa_sharing::Origin;
use smallvec::SmallVec;
use std::alloc::AllocError;

/// How many components a node of a system of 64 nodes can have to do with: itself, its script, and a channel from and
/// to each of the others.
pub(crate) const ROOM: usize = 128;

/// Reads what is held in these slots, into places in which something else may have been read before. Where the same is
/// held as was read, nothing is taken anew.
pub(crate) fn read_again<O: Origin>(
    places: &mut SmallVec<Option<VersionedConf<O>>, ROOM>,
    slots: &[usize],
    held: &[VersionedConf<O>],
) -> Result<(), AllocError>
    ensures { OnOk result (places.new.items ≡ places_at slots.now held.now) }
{
    for position in 0..slots.len() {
        read_into(places, position, at_slot(held, slots[position]))?;
    }
    places.truncate(slots.len());
    Ok(())
}

/// The same if there are as many places as slots. Mostly the same is held as was read, which is told in constant time.
/// Returns whether all was there already.
#[inline(always)]
pub(crate) fn read_in_place<O: Origin>(
    places: &mut [Option<VersionedConf<O>>],
    slots: &[usize],
    held: &[VersionedConf<O>],
) -> Result<bool, AllocError>
    requires { length places.old ≡ length slots.now }
    ensures read { OnOk result (places.new ≡ places_at slots.now held.now) }
    ensures same { IfOk result (λ b. b ≡ true → places.new ≡ places.old) }
{
    let mut is_same = true;
    for position in 0..slots.len() {
        let was_there = read_here(places, position, at_slot(held, slots[position]))?;
        is_same = is_same & was_there;
    }
    Ok(is_same)
}

/// Reads what is found into a place, if it is not there. Returns whether it was.
#[inline(always)]
fn read_here<O: Origin>(
    places: &mut [Option<VersionedConf<O>>],
    position: usize,
    found: Option<&VersionedConf<O>>,
) -> Result<bool, AllocError>
    requires { position < length places.old }
    ensures before { OnOk result (take position places.new ≡ take position places.old) }
    ensures here { OnOk result (slice_get places.new position ≡ Some (option_copied found.entry)) }
    ensures many { OnOk result (length places.new ≡ length places.old) }
    ensures same { IfOk result (λ b. b ≡ true → places.new ≡ places.old) }
{
    if is_there(&places[position], found) {
        return Ok(true);
    }
    refresh(&mut places[position], found)?;
    Ok(false)
}

/// Whether what is found is in a place. It takes constant time, and is false of equal configurations made apart.
#[inline(always)]
fn is_there<O: Origin>(place: &Option<VersionedConf<O>>, found: Option<&VersionedConf<O>>) -> bool
    ensures { IsTrue result → place.now ≡ option_copied found.entry }
{
    match (place, found) {
        (Some(read), Some(held)) => read.is_held(held),
        (Some(_), None) => false,
        (None, Some(_)) => false,
        (None, None) => false,
    }
}

/// What is held in a slot, if there is one.
fn at_slot<O: Origin>(held: &[VersionedConf<O>], slot: usize) -> Option<&VersionedConf<O>>
    ensures { option_copied result ≡ slice_get held.now slot }
{
    held.get(slot)
}

/// Reads what is found into a place that there is, or into the next one.
fn read_into<O: Origin>(
    places: &mut SmallVec<Option<VersionedConf<O>>, ROOM>,
    position: usize,
    found: Option<&VersionedConf<O>>,
) -> Result<(), AllocError>
    requires { position ≤ length places.old.items }
    ensures before { OnOk result (take position places.new.items ≡ take position places.old.items) }
    ensures here { OnOk result (slice_get places.new.items position ≡ Some (option_copied found.entry)) }
{
    if let Some(place) = places.get_mut(position) {
        return refresh(place, found);
    }
    places.push(copy_of(found)?)?;
    Ok(())
}

/// Another owner of what is found.
fn copy_of<O: Origin>(
    found: Option<&VersionedConf<O>>,
) -> Result<Option<VersionedConf<O>>, AllocError>
    ensures { IfOk result (λ copy. copy ≡ option_copied found.entry) }
{
    match found {
        Some(held) => Ok(Some(held.try_copy()?)),
        None => Ok(None),
    }
}

/// Puts what is found into a place.
#[inline(always)]
fn refresh<O: Origin>(
    place: &mut Option<VersionedConf<O>>,
    found: Option<&VersionedConf<O>>,
) -> Result<(), AllocError>
    ensures { OnOk result (place.new ≡ option_copied found.entry) }
{
    match found {
        Some(held) => put(place, held),
        None => {
            *place = None;
            Ok(())
        }
    }
}

/// Puts what is held into a place.
#[inline(always)]
fn put<O: Origin>(
    place: &mut Option<VersionedConf<O>>,
    held: &VersionedConf<O>,
) -> Result<(), AllocError>
    ensures { OnOk result (place.new ≡ Some held.now) }
{
    match place {
        Some(read) => read.refresh(held),
        None => {
            *place = Some(held.try_copy()?);
            Ok(())
        }
    }
}
