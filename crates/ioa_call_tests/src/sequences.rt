//! Sequences of many items, made and taken apart in several ways.

use ioa_values::{Names, Sequence, Value, show};
use std::alloc::{AllocError, Global};
use std::test::Fail;

/// The numbers from `first` up to the one before `end`, each put behind the others.
fn appended(alloc: Global, first: u8, end: u8) -> Result<Sequence, AllocError> {
    let mut items = Sequence::new();
    for number in first..end {
        items = items.append(alloc, Value::number(i64::from(number)))?;
    }
    Ok(items)
}

/// The same numbers, each put in front of the others.
fn prepended(alloc: Global, first: u8, end: u8) -> Result<Sequence, AllocError> {
    let mut items = Sequence::new();
    for number in (first..end).rev() {
        items = items.prepend(alloc, Value::number(i64::from(number)))?;
    }
    Ok(items)
}

/// A sequence without so many items in front.
fn without(alloc: Global, items: &Sequence, count: u8) -> Result<Sequence, AllocError> {
    let mut rest = items.try_clone()?;
    for _ in 0..count {
        rest = rest.without_first(alloc)?;
    }
    Ok(rest)
}

/// Whether the items are the numbers from `first` up to the one before `end`.
fn counts(items: &Sequence, first: u8, end: u8) -> bool {
    let mut number = i64::from(first);
    for position in 0..items.len() {
        if !items.at(position).equals(&Value::number(number)) {
            return false;
        }
        number = number.saturating_add(1);
    }
    number == i64::from(end)
}

/// Whether the numbers below `end` keep their order, however they are put together, and when `gone` are taken off.
fn keeps_order(alloc: Global, end: u8, gone: u8) -> Result<bool, AllocError> {
    let behind = appended(alloc, 0, end)?;
    let before = prepended(alloc, 0, end)?;
    let rest = without(alloc, &behind, gone)?;
    let other = without(alloc, &before, gone)?;
    let rests_count = counts(&rest, gone, end) && counts(&other, gone, end);
    Ok(rests_count && counts(&behind, 0, end) && counts(&before, 0, end) && behind.equals(&before))
}

#[test]
fn items_keep_their_order(rt: HostRuntime) -> Result<(), Fail> {
    let alloc = rt.alloc();
    let rows = [
        (0, 0),
        (1, 0),
        (1, 1),
        (2, 1),
        (3, 1),
        (7, 3),
        (8, 4),
        (9, 4),
        (100, 50),
    ];
    for (end, gone) in rows {
        assert!(rt; keeps_order(alloc, end, gone)?, "{end} {gone}");
    }
    Ok(())
}

/// Whether the numbers below `middle` and those from there up to the one before `end` are joined in order.
fn joins_in_order(alloc: Global, middle: u8, end: u8) -> Result<bool, AllocError> {
    let left = appended(alloc, 0, middle)?;
    let right = prepended(alloc, middle, end)?;
    let both = left.join(alloc, &right)?;
    let rest = without(alloc, &both, middle)?;
    let twice = both.join(alloc, &both)?;
    let again = without(alloc, &twice, end)?;
    Ok(counts(&both, 0, end) && rest.equals(&right) && again.equals(&both))
}

#[test]
fn sequences_are_joined_in_order(rt: HostRuntime) -> Result<(), Fail> {
    let alloc = rt.alloc();
    for (middle, end) in [(0, 0), (0, 3), (3, 3), (3, 53), (50, 53), (50, 100)] {
        assert!(rt; joins_in_order(alloc, middle, end)?, "{middle} {end}");
    }
    Ok(())
}

/// Whether a sequence with this last item equals one with another last item, made in another way.
fn are_equal(alloc: Global, last: i64, other: i64) -> Result<bool, AllocError> {
    let items = appended(alloc, 0, 9)?.append(alloc, Value::number(last))?;
    let others = prepended(alloc, 0, 9)?.append(alloc, Value::number(other))?;
    Ok(items.equals(&others))
}

/// Whether the numbers below 3 are no sequence of one more number, and have 2 among them and not 3.
fn are_three(alloc: Global) -> Result<bool, AllocError> {
    let some = appended(alloc, 0, 3)?;
    let more = appended(alloc, 0, 4)?;
    Ok(!some.equals(&more) && some.contains(&Value::number(2)) && !some.contains(&Value::number(3)))
}

#[test]
fn sequences_differ_by_an_item_or_their_length(rt: HostRuntime) -> Result<(), Fail> {
    let alloc = rt.alloc();
    assert!(rt; are_equal(alloc, 9, 9)? && !are_equal(alloc, 9, 8)? && are_three(alloc)?);
    Ok(())
}

/// A sequence that is joined to itself so many times.
fn doubled(alloc: Global, times: u8) -> Result<Sequence, AllocError> {
    let mut items = Sequence::new().append(alloc, Value::number(7))?;
    for _ in 0..times {
        items = items.join(alloc, &items)?;
    }
    Ok(items)
}

/// How long the text of a sequence is.
fn text_length(alloc: Global, items: Sequence) -> Result<usize, AllocError> {
    Ok(show(alloc, &Names::none(alloc), &Value::sequence(items))?.len())
}

/// Whether a million items and some more are shown whole.
fn shows_a_million(alloc: Global) -> Result<bool, AllocError> {
    let items = doubled(alloc, 20)?;
    Ok(items.len() == 1_048_576 && text_length(alloc, items)? == 3_145_728)
}

#[test]
fn a_million_items_are_shown(rt: HostRuntime) -> Result<(), Fail> {
    assert!(rt; shows_a_million(rt.alloc())?);
    Ok(())
}
