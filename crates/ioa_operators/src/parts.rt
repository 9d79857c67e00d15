//! The parts that operators take, as what they have to be.

ghost use Rattle.std.specs.Prelude.{Some, pos, false};
ghost use Rattle.ioa_values.specs.Data.{number, as_number, as_truth};
ghost use Rattle.ioa_operators.specs.Operators.{as_tuple};
ghost use Rattle.ioa_operators.specs.RangeCheck.{AnswersOrLacks};
ghost use Rattle.ioa_operators.specs.CallParts.{Takes};

use crate::fault::TermFault;
use ioa_values::{Value, ValueForm};
use std::sync::Arc;

/// The number that a part is.
pub(crate) fn number_of(value: &Value) -> Result<i64, TermFault>
    ensures { Takes (λ n. n) result (as_number value.now) }
{
    value.as_number().ok_or(TermFault::Undefined)
}

/// The truth value that a part is.
pub(crate) fn truth_of(value: &Value) -> Result<bool, TermFault>
    ensures { Takes (λ b. b) result (as_truth value.now) }
{
    value.as_truth().ok_or(TermFault::Undefined)
}

/// The parts of a tuple, which others may share.
#[tactic(auto, using(ioa_values::proofs::ItemLists::list_of_items))]
pub(crate) fn parts_of_tuple(value: Value) -> Result<Arc<Vec<Value>>, TermFault>
    ensures { Takes (λ v. v.value.items) result (as_tuple value) }
{
    match value.into_form() {
        ValueForm::Tuple(parts) => Ok(parts),
        _ => Err(TermFault::Undefined),
    }
}

/// A part itself as the value of the whole: a number in it is kept in 64 bits, so that it is in range.
pub(crate) fn part(value: Value) -> Result<Value, TermFault>
    ensures { AnswersOrLacks false result (Some value) }
{
    match value.into_form() {
        ValueForm::Number(n) => Ok(Value::number(n)),
        form => Ok(Value { form }),
    }
}

/// How many there are, as a value.
pub(crate) fn count_value(many: usize) -> Result<Value, TermFault>
    ensures { AnswersOrLacks false result (Some (number (pos many))) }
{
    match i64::try_from(many) {
        Ok(n) => Ok(Value::number(n)),
        Err(_) => Err(TermFault::Range),
    }
}
