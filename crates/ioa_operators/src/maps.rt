//! Operators and functions of finite maps.

ghost use Rattle.std.specs.Prelude.{true, false};
ghost use Rattle.ioa_operators.specs.RangeCheck.{AnswersOrLacks};
ghost use Rattle.ioa_operators.specs.Operators.{binary_value, call_two, call_three};

use crate::fault::TermFault;
use crate::operator::{BinaryOperator, Function};
use ioa_values::{Value, ValueForm};
use std::alloc::Global;

/// The value of a map at a key. Costs comparisons in proportion to the logarithm of the map.
#[tactic(auto, using(ioa_values::proofs::ItemLists::pairs_of_entries))]
pub(crate) fn at_key(whole: &Value, key: &Value) -> Result<Value, TermFault>
    ensures { AnswersOrLacks true result (binary_value BinaryOperator.At whole.now key.now) }
{
    match &whole.form {
        ValueForm::Map(entries) => match entries.get(key) {
            Some(value) => Ok(value.try_copy()?),
            None => Err(TermFault::Undefined),
        },
        _ => Err(TermFault::Undefined),
    }
}

/// A map in which a key has a value. Costs time in proportion to the logarithm of the map.
#[tactic(auto, using(ioa_values::proofs::ItemLists::pairs_of_entries))]
pub(crate) fn update(
    alloc: Global,
    whole: &Value,
    key: &Value,
    value: &Value,
) -> Result<Value, TermFault>
    ensures { AnswersOrLacks true result (call_three Function.Update whole.now key.now value.now) }
{
    match &whole.form {
        ValueForm::Map(entries) => Ok(Value::map(entries.update(alloc, key, value)?)),
        _ => Err(TermFault::Undefined),
    }
}

/// A map without a key. Costs time in proportion to the logarithm of the map.
#[tactic(auto, using(ioa_values::proofs::ItemLists::pairs_of_entries))]
pub(crate) fn remove(alloc: Global, whole: &Value, key: &Value) -> Result<Value, TermFault>
    ensures { AnswersOrLacks true result (call_two Function.Remove whole.now key.now) }
{
    match &whole.form {
        ValueForm::Map(entries) => Ok(Value::map(entries.remove(alloc, key)?)),
        _ => Err(TermFault::Undefined),
    }
}

/// Whether a map has a key. Costs comparisons in proportion to the logarithm of the map.
#[tactic(auto, using(ioa_values::proofs::ItemLists::pairs_of_entries))]
pub(crate) fn key_membership(whole: &Value, key: &Value) -> Result<Value, TermFault>
    ensures { AnswersOrLacks false result (call_two Function.Defined whole.now key.now) }
{
    match &whole.form {
        ValueForm::Map(entries) => Ok(Value::truth(entries.get(key).is_some())),
        _ => Err(TermFault::Undefined),
    }
}
