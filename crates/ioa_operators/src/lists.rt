//! Operators and functions of sequences.

ghost use Rattle.std.specs.Prelude.{◌≡◌, true, false};
ghost use Rattle.ioa_operators.specs.RangeCheck.{AnswersOrLacks};
ghost use Rattle.std.specs.Option.{option_copied};
ghost use Rattle.ioa_operators.specs.Operators.{binary_value, call_one, rest};

use crate::fault::TermFault;
use crate::operator::{BinaryOperator, Function};
use crate::parts::count_value;
use ioa_values::{Sequence, Value, ValueForm};
use std::alloc::Global;

/// A value, and then the items of a sequence. Costs the same at any length.
#[tactic(auto, using(ioa_values::proofs::ItemLists::list_of_items))]
pub(crate) fn prepend(alloc: Global, item: &Value, sequence: &Value) -> Result<Value, TermFault>
    ensures { AnswersOrLacks true result (binary_value BinaryOperator.Prepend item.now sequence.now) }
{
    match &sequence.form {
        ValueForm::Sequence(items) => {
            Ok(Value::sequence(items.prepend(alloc, item.try_copy()?)?))
        }
        _ => Err(TermFault::Undefined),
    }
}

/// The items of a sequence, and then a value. Costs the same at any length.
#[tactic(auto, using(ioa_values::proofs::ItemLists::list_of_items))]
pub(crate) fn append(alloc: Global, sequence: &Value, item: &Value) -> Result<Value, TermFault>
    ensures { AnswersOrLacks true result (binary_value BinaryOperator.Append sequence.now item.now) }
{
    match &sequence.form {
        ValueForm::Sequence(items) => {
            Ok(Value::sequence(items.append(alloc, item.try_copy()?)?))
        }
        _ => Err(TermFault::Undefined),
    }
}

/// The items of two sequences. Costs the same at any length.
#[tactic(auto, using(ioa_values::proofs::ItemLists::list_of_items))]
pub(crate) fn concatenate(alloc: Global, left: &Value, right: &Value) -> Result<Value, TermFault>
    ensures { AnswersOrLacks true result (binary_value BinaryOperator.Concatenate left.now right.now) }
{
    match (&left.form, &right.form) {
        (ValueForm::Sequence(items), ValueForm::Sequence(more)) => {
            Ok(Value::sequence(items.join(alloc, more)?))
        }
        _ => Err(TermFault::Undefined),
    }
}

/// Whether a value is an item of a sequence or a member of a set. Costs one comparison an item of a sequence, and in a
/// set comparisons in proportion to the logarithm of the members.
#[tactic(auto, using(ioa_values::proofs::ItemLists::list_of_items))]
pub(crate) fn membership(value: &Value, whole: &Value) -> Result<Value, TermFault>
    ensures { AnswersOrLacks false result (binary_value BinaryOperator.Member value.now whole.now) }
{
    match &whole.form {
        ValueForm::Sequence(items) => Ok(Value::truth(items.contains(value))),
        ValueForm::Set(members) => Ok(Value::truth(members.contains(value))),
        _ => Err(TermFault::Undefined),
    }
}

/// The first item of a sequence that is not empty, lent by it.
#[tactic(auto, using(ioa_values::proofs::ItemLists::list_of_items))]
pub fn first_item(sequence: &Value) -> Option<&Value>
    ensures { option_copied result ≡ call_one Function.Head sequence.now }
{
    match &sequence.form {
        ValueForm::Sequence(items) => items.first(),
        _ => None,
    }
}

/// The first item of a sequence that is not empty.
pub(crate) fn head(sequence: &Value) -> Result<Value, TermFault>
    ensures { AnswersOrLacks true result (call_one Function.Head sequence.now) }
{
    match first_item(sequence) {
        Some(item) => Ok(item.try_copy()?),
        None => Err(TermFault::Undefined),
    }
}

/// The items but the first of a sequence that is not empty. Costs the same at any length.
#[tactic(auto, using(ioa_values::proofs::ItemLists::list_of_items))]
pub(crate) fn tail(alloc: Global, sequence: &Value) -> Result<Value, TermFault>
    ensures { AnswersOrLacks true result (call_one Function.Tail sequence.now) }
{
    match &sequence.form {
        ValueForm::Sequence(items) => rest_of(alloc, items),
        _ => Err(TermFault::Undefined),
    }
}

/// The same of the sequence's items.
#[tactic(auto, using(crate::proofs::ItemLists::rest_of_some))]
fn rest_of(alloc: Global, items: &Sequence) -> Result<Value, TermFault>
    ensures { AnswersOrLacks true result (rest items.now) }
{
    if items.is_empty() {
        return Err(TermFault::Undefined);
    }
    Ok(Value::sequence(items.without_first(alloc)?))
}

/// How many items a sequence has.
#[tactic(auto, using(ioa_values::proofs::ItemLists::list_of_items))]
pub(crate) fn length(sequence: &Value) -> Result<Value, TermFault>
    ensures { AnswersOrLacks false result (call_one Function.Length sequence.now) }
{
    match &sequence.form {
        ValueForm::Sequence(items) => count_value(items.len()),
        _ => Err(TermFault::Undefined),
    }
}

/// How many members a set has, or how many keys a map has.
#[tactic(auto, using(ioa_values::proofs::ItemLists::list_of_items, ioa_values::proofs::ItemLists::pairs_of_entries))]
pub(crate) fn size(whole: &Value) -> Result<Value, TermFault>
    ensures { AnswersOrLacks false result (call_one Function.Size whole.now) }
{
    match &whole.form {
        ValueForm::Set(members) => count_value(members.len()),
        ValueForm::Map(entries) => count_value(entries.len()),
        _ => Err(TermFault::Undefined),
    }
}
