//! The functions of the language.

ghost use Rattle.std.specs.Prelude.{◌≡◌, IfOk, None, MatchOption};
ghost use Rattle.ioa_values.specs.Canonical.{AllCanonical, IsCanonical};
ghost use Rattle.ioa_values.specs.Outcome.{Answers};
ghost use Rattle.ioa_operators.specs.RangeCheck.{AnswersOrLacks, LacksMemoryOnlyIf, checked_result};
ghost use Rattle.ioa_operators.specs.CallParts.{list_of_parts};
ghost use Rattle.ioa_operators.specs.Operators.{call_one, call_two, call_three, call_value};
ghost use Rattle.ioa_operators.specs.Operators.{call_takes_memory, function_named};

use crate::fault::TermFault;
use crate::lists::{head, length, size, tail};
use crate::maps::{key_membership, remove, update};
use crate::numbers::{quotient, remainder};
use crate::operator::Function;
use crate::sets::{delete, insert, unite};
use ioa_values::{Value, Word};
use std::alloc::Global;

impl Function {
    /// The function that a call names (profile), and none if no function has the name.
    pub fn named(name: &Word) -> Option<Function>
        ensures { result ≡ function_named name.now }
    {
        match name.as_str() {
            "head" => Some(Function::Head),
            "tail" => Some(Function::Tail),
            "len" => Some(Function::Length),
            "size" => Some(Function::Size),
            "div" => Some(Function::Quotient),
            "mod" => Some(Function::Remainder),
            "insert" => Some(Function::Insert),
            "delete" => Some(Function::Delete),
            "union" => Some(Function::Union),
            "update" => Some(Function::Update),
            "remove" => Some(Function::Remove),
            "defined" => Some(Function::Defined),
            _ => None,
        }
    }
}

/// The parts of a call, as many as a function may have.
#[derive(Drop)]
enum CallParts {
    One(Value),
    Two(Value, Value),
    Three(Value, Value, Value),
}

/// The value of a function of the values of its parts (profile). Returns `Undefined (1)` if there are more
/// or fewer parts than the function takes, one is of another kind than it takes, the sequence of `head` or
/// `tail` is empty, or a divisor is below 1. Returns `Range (2)` if the result lies outside 64 bits, and
/// `Memory (3)` if no memory is left for `head`, `tail` or a function that changes a set or a map. The
/// values are used up. The functions of sequences and `size` cost the same whatever the values hold, those of
/// one set or map time in proportion to its logarithm, and `union` in proportion to both sets.
pub fn call(alloc: Global, function: Function, parts: Vec<Value>) -> Result<Value, TermFault>
    ensures value { Answers TermFault.Memory (λ v. v) result (checked_result (call_value function parts.items)) }
    ensures memory { LacksMemoryOnlyIf (call_takes_memory function) result (call_value function parts.items) }
    ensures canonical { AllCanonical parts.items → IfOk result IsCanonical }
{
    apply_function(alloc, function, parts)
}

/// The value of a function, in one exact clause.
fn apply_function(alloc: Global, function: Function, parts: Vec<Value>) -> Result<Value, TermFault>
    ensures { AnswersOrLacks (call_takes_memory function) result (call_value function parts.items) }
{
    match few(parts) {
        Some(CallParts::One(value)) => call_of_one(alloc, function, &value),
        Some(CallParts::Two(left, right)) => call_of_two(alloc, function, &left, &right),
        Some(CallParts::Three(first, second, third)) => {
            call_of_three(alloc, function, &first, &second, &third)
        }
        None => Err(TermFault::Undefined),
    }
}

/// The parts, if there are one, two or three.
fn few(parts: Vec<Value>) -> Option<CallParts>
    ensures { MatchOption result ((f : Function) → call_value f parts.items ≡ None)
        (λ p. parts.items ≡ list_of_parts p) }
{
    let mut parts = parts.into_iter();
    let first = parts.next()?;
    let Some(second) = parts.next() else {
        return Some(CallParts::One(first));
    };
    let Some(third) = parts.next() else {
        return Some(CallParts::Two(first, second));
    };
    match parts.next() {
        Some(_) => None,
        None => Some(CallParts::Three(first, second, third)),
    }
}

/// The value of a function of one value, which is lent, with the faults of [`call`].
#[tactic(auto, using(crate::proofs::Memory::answers))]
pub fn call_lent(alloc: Global, function: Function, value: &Value) -> Result<Value, TermFault>
    ensures { Answers TermFault.Memory (λ v. v) result (checked_result (call_one function value.now)) }
{
    call_of_one(alloc, function, value)
}

/// The same, in one exact clause.
fn call_of_one(alloc: Global, function: Function, value: &Value) -> Result<Value, TermFault>
    ensures { AnswersOrLacks (call_takes_memory function) result (call_one function value.now) }
{
    match function {
        Function::Head => head(value),
        Function::Tail => tail(alloc, value),
        Function::Length => length(value),
        Function::Size => size(value),
        _ => Err(TermFault::Undefined),
    }
}

/// The value of a function of two values, which are lent, with the faults of [`call`].
#[tactic(auto, using(crate::proofs::Memory::answers))]
pub fn call_two_lent(
    alloc: Global,
    function: Function,
    left: &Value,
    right: &Value,
) -> Result<Value, TermFault>
    ensures { Answers TermFault.Memory (λ v. v) result (checked_result (call_two function left.now right.now)) }
{
    call_of_two(alloc, function, left, right)
}

/// The same, in one exact clause.
fn call_of_two(
    alloc: Global,
    function: Function,
    left: &Value,
    right: &Value,
) -> Result<Value, TermFault>
    ensures { AnswersOrLacks (call_takes_memory function) result (call_two function left.now right.now) }
{
    match function {
        Function::Quotient => quotient(left, right),
        Function::Remainder => remainder(left, right),
        Function::Insert => insert(alloc, left, right),
        Function::Delete => delete(alloc, left, right),
        Function::Union => unite(alloc, left, right),
        Function::Remove => remove(alloc, left, right),
        Function::Defined => key_membership(left, right),
        _ => Err(TermFault::Undefined),
    }
}

/// The value of a function of three values, which are lent, with the faults of [`call`].
#[tactic(auto, using(crate::proofs::Memory::answers))]
pub fn call_three_lent(
    alloc: Global,
    function: Function,
    first: &Value,
    second: &Value,
    third: &Value,
) -> Result<Value, TermFault>
    ensures { Answers TermFault.Memory (λ v. v) result
        (checked_result (call_three function first.now second.now third.now)) }
{
    call_of_three(alloc, function, first, second, third)
}

/// The same, in one exact clause.
fn call_of_three(
    alloc: Global,
    function: Function,
    first: &Value,
    second: &Value,
    third: &Value,
) -> Result<Value, TermFault>
    ensures { AnswersOrLacks (call_takes_memory function) result
        (call_three function first.now second.now third.now) }
{
    match function {
        Function::Update => update(alloc, first, second, third),
        _ => Err(TermFault::Undefined),
    }
}
