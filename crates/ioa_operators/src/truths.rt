//! Operators between truth values.

ghost use Rattle.std.specs.Prelude.{◌≡◌, false};
ghost use Rattle.std.specs.Option.{option_map};
ghost use Rattle.ioa_values.specs.Data.{truth};
ghost use Rattle.ioa_operators.specs.RangeCheck.{AnswersOrLacks};
ghost use Rattle.ioa_operators.specs.Operators.{unary_value, binary_value, left_decision};

use crate::fault::TermFault;
use crate::operator::{BinaryOperator, UnaryOperator};
use crate::parts::truth_of;
use ioa_values::{Value, ValueForm};

/// The other truth value.
pub(crate) fn negation(value: &Value) -> Result<Value, TermFault>
    ensures { AnswersOrLacks false result (unary_value UnaryOperator.Not value.now) }
{
    let b = truth_of(value)?;
    Ok(Value::truth(!b))
}

/// Whether two truth values are the same.
pub(crate) fn equivalence(left: &Value, right: &Value) -> Result<Value, TermFault>
    ensures { AnswersOrLacks false result (binary_value BinaryOperator.Equivalent left.now right.now) }
{
    let a = truth_of(left)?;
    let b = truth_of(right)?;
    Ok(Value::truth(if a { b } else { !b }))
}

/// Whether the left side is false or the right side is true.
pub(crate) fn implication(left: &Value, right: &Value) -> Result<Value, TermFault>
    ensures { AnswersOrLacks false result (binary_value BinaryOperator.Implies left.now right.now) }
{
    let a = truth_of(left)?;
    let b = truth_of(right)?;
    Ok(Value::truth(!a || b))
}

/// Whether either side is true.
pub(crate) fn disjunction(left: &Value, right: &Value) -> Result<Value, TermFault>
    ensures { AnswersOrLacks false result (binary_value BinaryOperator.Or left.now right.now) }
{
    let a = truth_of(left)?;
    let b = truth_of(right)?;
    Ok(Value::truth(a || b))
}

/// Whether both sides are true.
pub(crate) fn conjunction(left: &Value, right: &Value) -> Result<Value, TermFault>
    ensures { AnswersOrLacks false result (binary_value BinaryOperator.And left.now right.now) }
{
    let a = truth_of(left)?;
    let b = truth_of(right)?;
    Ok(Value::truth(a && b))
}

/// What the left side of `/\`, `\/` or `=>` decides alone: false decides the first and the last, true
/// the second. The right side is not evaluated then.
pub fn left_decision(operator: BinaryOperator, left: &Value) -> Option<bool>
    ensures { option_map (λ b. truth b) result ≡ left_decision operator left.now }
{
    match operator {
        BinaryOperator::And => conjunction_decision(left),
        BinaryOperator::Or => disjunction_decision(left),
        BinaryOperator::Implies => implication_decision(left),
        _ => None,
    }
}

/// What the left side of `/\` decides alone.
fn conjunction_decision(left: &Value) -> Option<bool>
    ensures { option_map (λ b. truth b) result ≡ left_decision BinaryOperator.And left.now }
{
    match &left.form {
        ValueForm::Truth(false) => Some(false),
        _ => None,
    }
}

/// What the left side of `\/` decides alone.
fn disjunction_decision(left: &Value) -> Option<bool>
    ensures { option_map (λ b. truth b) result ≡ left_decision BinaryOperator.Or left.now }
{
    match &left.form {
        ValueForm::Truth(true) => Some(true),
        _ => None,
    }
}

/// What the left side of `=>` decides alone.
fn implication_decision(left: &Value) -> Option<bool>
    ensures { option_map (λ b. truth b) result ≡ left_decision BinaryOperator.Implies left.now }
{
    match &left.form {
        ValueForm::Truth(false) => Some(true),
        _ => None,
    }
}
