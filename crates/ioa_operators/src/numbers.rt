//! Operators and functions between numbers.

ghost use Rattle.std.specs.Prelude.{false};
ghost use Rattle.ioa_operators.specs.RangeCheck.{AnswersOrLacks};
ghost use Rattle.ioa_operators.specs.Operators.{unary_value, binary_value, call_two};

use crate::fault::TermFault;
use crate::operator::{BinaryOperator, Function, UnaryOperator};
use crate::parts::number_of;
use ioa_values::Value;

/// The number with the other sign.
pub(crate) fn negative(value: &Value) -> Result<Value, TermFault>
    ensures { AnswersOrLacks false result (unary_value UnaryOperator.Negative value.now) }
{
    let n = number_of(value)?;
    match ioa_numbers::negative(n) {
        Some(other) => Ok(Value::number(other)),
        None => Err(TermFault::Range),
    }
}

/// The sum of two numbers.
pub(crate) fn sum(left: &Value, right: &Value) -> Result<Value, TermFault>
    ensures { AnswersOrLacks false result (binary_value BinaryOperator.Plus left.now right.now) }
{
    let m = number_of(left)?;
    let n = number_of(right)?;
    match ioa_numbers::sum(m, n) {
        Some(total) => Ok(Value::number(total)),
        None => Err(TermFault::Range),
    }
}

/// The difference of two numbers.
pub(crate) fn difference(left: &Value, right: &Value) -> Result<Value, TermFault>
    ensures { AnswersOrLacks false result (binary_value BinaryOperator.Minus left.now right.now) }
{
    let m = number_of(left)?;
    let n = number_of(right)?;
    match ioa_numbers::difference(m, n) {
        Some(rest) => Ok(Value::number(rest)),
        None => Err(TermFault::Range),
    }
}

/// The product of two numbers.
pub(crate) fn product(left: &Value, right: &Value) -> Result<Value, TermFault>
    ensures { AnswersOrLacks false result (binary_value BinaryOperator.Times left.now right.now) }
{
    let m = number_of(left)?;
    let n = number_of(right)?;
    match ioa_numbers::product(m, n) {
        Some(total) => Ok(Value::number(total)),
        None => Err(TermFault::Range),
    }
}

/// Whether a number is below another.
pub(crate) fn less(left: &Value, right: &Value) -> Result<Value, TermFault>
    ensures { AnswersOrLacks false result (binary_value BinaryOperator.Less left.now right.now) }
{
    let m = number_of(left)?;
    let n = number_of(right)?;
    Ok(Value::truth(m < n))
}

/// Whether a number is below another or the same.
pub(crate) fn at_most(left: &Value, right: &Value) -> Result<Value, TermFault>
    ensures { AnswersOrLacks false result (binary_value BinaryOperator.AtMost left.now right.now) }
{
    let m = number_of(left)?;
    let n = number_of(right)?;
    Ok(Value::truth(m <= n))
}

/// Whether a number is above another.
pub(crate) fn greater(left: &Value, right: &Value) -> Result<Value, TermFault>
    ensures { AnswersOrLacks false result (binary_value BinaryOperator.Greater left.now right.now) }
{
    let m = number_of(left)?;
    let n = number_of(right)?;
    Ok(Value::truth(m > n))
}

/// Whether a number is above another or the same.
pub(crate) fn at_least(left: &Value, right: &Value) -> Result<Value, TermFault>
    ensures { AnswersOrLacks false result (binary_value BinaryOperator.AtLeast left.now right.now) }
{
    let m = number_of(left)?;
    let n = number_of(right)?;
    Ok(Value::truth(m >= n))
}

/// The quotient rounded down, of a divisor that is at least 1.
pub(crate) fn quotient(left: &Value, right: &Value) -> Result<Value, TermFault>
    ensures { AnswersOrLacks false result (call_two Function.Quotient left.now right.now) }
{
    let m = number_of(left)?;
    let n = number_of(right)?;
    match ioa_numbers::quotient(m, n) {
        Some(found) => Ok(Value::number(found)),
        None => Err(TermFault::Undefined),
    }
}

/// What the quotient leaves, of a divisor that is at least 1.
pub(crate) fn remainder(left: &Value, right: &Value) -> Result<Value, TermFault>
    ensures { AnswersOrLacks false result (call_two Function.Remainder left.now right.now) }
{
    let m = number_of(left)?;
    let n = number_of(right)?;
    match ioa_numbers::remainder(m, n) {
        Some(found) => Ok(Value::number(found)),
        None => Err(TermFault::Undefined),
    }
}
