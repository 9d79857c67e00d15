//! Sets that are shared.

use ioa_operators::{Function, TermFault, call};
use ioa_values::{FiniteSet, Names, Value, show};
use std::alloc::{AllocError, Global};
use std::test::Fail;

/// The set of one number.
fn set_of(alloc: Global, number: i64) -> Result<Value, AllocError> {
    Ok(Value::set(FiniteSet::new().insert(alloc, &Value::number(number))?))
}

/// A set with one more member, which shares the others with it.
fn with(alloc: Global, number: i64, set: &Value) -> Result<Value, TermFault> {
    let mut parts = Vec::with_capacity(alloc, 2)?;
    let set = set.try_copy()?;
    parts.push(Value::number(number))?;
    parts.push(set)?;
    call(alloc, Function::Insert, parts)
}

/// Whether a value is shown so.
fn shows(alloc: Global, value: &Value, text: &str) -> Result<bool, AllocError> {
    Ok(show(alloc, &Names::none(alloc), value)?.as_str() == text)
}

/// Whether a set stays as it is if one is made of it that has one more member.
fn stays(alloc: Global) -> Result<bool, TermFault> {
    let set = set_of(alloc, 1)?;
    let more = with(alloc, 2, &set)?;
    Ok(shows(alloc, &more, "{1, 2}")? && shows(alloc, &set, "{1}")?)
}

#[test]
fn a_shared_set_stays(rt: HostRuntime) -> Result<(), Fail> {
    assert!(rt; stays(rt.alloc())?);
    Ok(())
}
