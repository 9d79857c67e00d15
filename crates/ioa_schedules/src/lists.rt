//! The lists of statements of a position.

ghost use Rattle.std.specs.Prelude.{◌≡◌, ◌≤◌, OnOk, length};
ghost use Rattle.ioa_schedules.specs.Turns.{joined_statements};
ghost use Rattle.ioa_schedules.specs.Positions.{below_of, bottom_by, statements_in};

use ioa_terms::{Callee, Shape, Statement};
use std::alloc::AllocError;

/// The first list that is not empty: `first`, or else one of those below, which is taken from there with the
/// empty ones before it. An empty list if there is none.
#[inline(always)]
#[tactic(auto, using(crate::proofs::Joins::below_last))]
pub(crate) fn first_list<'a>(
    first: &'a [Statement<usize, Callee, Shape>],
    below: &mut Vec<&'a [Statement<usize, Callee, Shape>]>,
) -> &'a [Statement<usize, Callee, Shape>]
    ensures same { joined_statements (statements_in result.now) (below_of below.new.items)
        ≡ joined_statements (statements_in first.now) (below_of below.old.items) }
    ensures none { length result.now ≡ 0 → length below.new.items ≡ 0 }
    ensures fewer { length below.new.items ≤ length below.old.items }
    ensures bottom { bottom_by result.now below.new.items ≡ bottom_by first.now below.old.items }
{
    let mut top = first;
    while top.len() == 0 {
        match below.pop() {
            None => return top,
            Some(list) => top = list,
        }
    }
    top
}

/// Makes lists what others are. Takes no memory if there is room for them. If no memory is left, the first ones are
/// there.
#[inline(always)]
pub(crate) fn copy_lists<'a>(
    from: &[&'a [Statement<usize, Callee, Shape>]],
    to: &mut Vec<&'a [Statement<usize, Callee, Shape>]>,
) -> Result<(), AllocError>
    ensures same { OnOk result (to.new.items ≡ from.now) }
    ensures fewer { length to.new.items ≤ length from.now }
{
    if to.len() == from.len() {
        for position in 0..from.len() {
            to[position] = from[position];
        }
        return Ok(());
    }
    to.clear();
    for list in from {
        to.push(*list)?;
    }
    Ok(())
}
