//! The operators of the language between values.

ghost use Rattle.std.specs.Prelude.{IfOk, false};
ghost use Rattle.ioa_values.specs.Canonical.{IsCanonical};
ghost use Rattle.ioa_values.specs.Outcome.{Answers};
ghost use Rattle.ioa_operators.specs.RangeCheck.{AnswersOrLacks, LacksMemoryOnlyIf, checked_result};
ghost use Rattle.ioa_operators.specs.Operators.{unary_value, binary_value, operator_takes_memory};

use crate::fault::TermFault;
use crate::lists::{append, concatenate, membership, prepend};
use crate::maps::at_key;
use crate::numbers::{at_least, at_most, difference, greater, less, negative, product, sum};
use crate::operator::{BinaryOperator, UnaryOperator};
use crate::truths::{conjunction, disjunction, equivalence, implication, negation};
use ioa_values::Value;
use std::alloc::Global;

/// The value of an operator before a value (profile). Returns `Undefined (1)` if the value is of another
/// kind than the operator takes, and `Range (2)` if the negative of a number lies outside 64 bits. Takes
/// no memory.
pub fn unary(operator: UnaryOperator, value: &Value) -> Result<Value, TermFault>
    ensures value { Answers TermFault.Memory (λ v. v) result (checked_result (unary_value operator value.now)) }
    ensures memory { LacksMemoryOnlyIf false result (unary_value operator value.now) }
    ensures canonical { IfOk result IsCanonical }
{
    before_value(operator, value)
}

/// The value of an operator before a value, in one exact clause.
fn before_value(operator: UnaryOperator, value: &Value) -> Result<Value, TermFault>
    ensures { AnswersOrLacks false result (unary_value operator value.now) }
{
    match operator {
        UnaryOperator::Not => negation(value),
        UnaryOperator::Negative => negative(value),
    }
}

/// The value of an operator between two values (profile). Returns `Undefined (1)` if a value is of another
/// kind than the operator takes or a map lacks the key, `Range (2)` if the result lies outside 64 bits, and
/// `Memory (3)` if no memory is left for `-|`, `|-` or `||`, or if the value of `m[k]` has too many owners
/// to be shared. Comparisons, and `\in` of a sequence, cost time in proportion to the values, `\in` of a set and
/// `m[k]` in proportion to the logarithm of the set or the map; all else costs the same whatever the values hold.
pub fn binary(
    alloc: Global,
    operator: BinaryOperator,
    left: &Value,
    right: &Value,
) -> Result<Value, TermFault>
    ensures value { Answers TermFault.Memory (λ v. v) result
        (checked_result (binary_value operator left.now right.now)) }
    ensures memory { LacksMemoryOnlyIf (operator_takes_memory operator) result
        (binary_value operator left.now right.now) }
    ensures canonical { IsCanonical left.now → IsCanonical right.now → IfOk result IsCanonical }
{
    between_values(alloc, operator, left, right)
}

/// The value of an operator between two values, in one exact clause.
fn between_values(
    alloc: Global,
    operator: BinaryOperator,
    left: &Value,
    right: &Value,
) -> Result<Value, TermFault>
    ensures { AnswersOrLacks (operator_takes_memory operator) result (binary_value operator left.now right.now) }
{
    match operator {
        BinaryOperator::Equivalent => equivalence(left, right),
        BinaryOperator::Implies => implication(left, right),
        BinaryOperator::Or => disjunction(left, right),
        BinaryOperator::And => conjunction(left, right),
        BinaryOperator::Equal => Ok(Value::truth(left.equals(right))),
        BinaryOperator::NotEqual => Ok(Value::truth(!left.equals(right))),
        BinaryOperator::Less => less(left, right),
        BinaryOperator::AtMost => at_most(left, right),
        BinaryOperator::Greater => greater(left, right),
        BinaryOperator::AtLeast => at_least(left, right),
        BinaryOperator::Member => membership(left, right),
        BinaryOperator::Prepend => prepend(alloc, left, right),
        BinaryOperator::Append => append(alloc, left, right),
        BinaryOperator::Concatenate => concatenate(alloc, left, right),
        BinaryOperator::Plus => sum(left, right),
        BinaryOperator::Minus => difference(left, right),
        BinaryOperator::Times => product(left, right),
        BinaryOperator::At => at_key(left, right),
    }
}
