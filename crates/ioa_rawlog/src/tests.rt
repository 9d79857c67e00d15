//! What no clause says: that a push takes no memory, that a long log is dropped without recursion, and that each
//! generic function works at a concrete type.
use crate::{RawLog, Spare};
use std::alloc::{AllocError, Global};
use std::test::Fail;

/// More items than any test pushes.
const MANY: usize = 2_000_000;

/// Whether the item is appended, and a spare comes back exactly if `hands_back`.
fn takes(
    log: &mut RawLog<usize>,
    item: usize,
    spare: Option<Spare<usize>>,
    hands_back: bool,
) -> bool {
    if log.len() >= MANY {
        return false;
    }
    match log.push(item, spare) {
        Ok(back) => back.is_some() == hands_back,
        Err(_) => false,
    }
}

/// Whether the item comes back if no spare comes with it.
fn refuses(log: &mut RawLog<usize>, item: usize) -> bool {
    if log.len() >= MANY {
        return false;
    }
    match log.push(item, None) {
        Ok(_) => false,
        Err((back, spare)) => back == item && spare.is_none(),
    }
}

/// Whether the numbers from `start` up to `end` are appended, each with a spare exactly if one is needed.
fn takes_numbers(
    alloc: Global,
    log: &mut RawLog<usize>,
    start: usize,
    end: usize,
) -> Result<bool, AllocError> {
    for number in start..end {
        let spare = if log.needs_spare() {
            Some(Spare::make(alloc)?)
        } else {
            None
        };
        if !takes(log, number, spare, false) {
            return Ok(false);
        }
    }
    Ok(true)
}

/// Whether the log goes from no item to 65 as it should.
fn starts_well(alloc: Global, log: &mut RawLog<usize>) -> Result<bool, AllocError> {
    Ok(
        log.needs_spare()
            && refuses(log, 0)
            && takes(log, 0, Some(Spare::make(alloc)?), false)
            && takes_numbers(alloc, log, 1, 64)?
            && refuses(log, 64)
            && log.len() == 64
            && takes(log, 64, Some(Spare::make(alloc)?), false),
    )
}

/// Whether it goes on from there to 128.
fn goes_on_well(alloc: Global, log: &mut RawLog<usize>) -> Result<bool, AllocError> {
    Ok(
        log.len() == 65
            && log.get(0) == Some(&0)
            && takes(log, 65, Some(Spare::make(alloc)?), true)
            && takes_numbers(alloc, log, 66, 128)?
            && log.needs_spare()
            && log.get(127) == Some(&127)
            && log.get(128).is_none(),
    )
}

#[test]
fn a_spare_is_asked_for_at_each_edge(rt: HostRuntime) -> Result<(), Fail> {
    let alloc = rt.alloc();
    let mut log = RawLog::new();
    assert!(rt; starts_well(alloc, &mut log)? && goes_on_well(alloc, &mut log)?);
    Ok(())
}

/// Whether a walk shows these many numbers in order, by the adapters of iterators.
fn shows_numbers(log: &RawLog<usize>, count: usize) -> bool {
    log.walk().count() == count
        && log.walk().filter(|number| **number % 2 == 0).count() == count / 2
        && log
            .walk()
            .zip(0..count)
            .all(|(item, number)| *item == number)
}

#[test]
fn a_walk_serves_the_adapters(rt: HostRuntime) -> Result<(), Fail> {
    let mut log = RawLog::new();
    assert!(rt; takes_numbers(rt.alloc(), &mut log, 0, 200)? && shows_numbers(&log, 200));
    Ok(())
}

/// A log of a million items has a chain of 15,625 blocks: a drop that called itself for each would overflow a small
/// stack.
#[test]
fn a_million_items_are_pushed_walked_and_dropped(rt: HostRuntime) -> Result<(), Fail> {
    let mut log = RawLog::new();
    assert!(rt;
        takes_numbers(rt.alloc(), &mut log, 0, 1_000_000)? && shows_numbers(&log, 1_000_000)
    );
    Ok(())
}

/// What a thread asks of the values that it is given.
fn crosses<T: Send>(value: T) -> T {
    value
}

/// What threads ask of a value that they share.
fn is_lent<T: Sync>(value: &T) -> &T {
    value
}

#[test]
fn a_log_crosses_threads(rt: HostRuntime) {
    let log: RawLog<usize> = crosses(RawLog::new());
    assert!(rt; is_lent(&log).len() == 0);
}
