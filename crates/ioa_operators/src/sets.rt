//! Functions of finite sets.

ghost use Rattle.std.specs.Prelude.{Some, true};
ghost use Rattle.ioa_values.specs.Collections.{set_of};
ghost use Rattle.ioa_operators.specs.RangeCheck.{AnswersOrLacks};
ghost use Rattle.ioa_operators.specs.Operators.{call_two, finite_set_of};

use crate::fault::TermFault;
use crate::operator::Function;
use ioa_values::{FiniteSet, Value, ValueForm};
use std::alloc::Global;

/// A set with one more member. Costs time in proportion to the logarithm of the set.
#[tactic(auto, using(ioa_values::proofs::ItemLists::list_of_items))]
pub(crate) fn insert(alloc: Global, member: &Value, whole: &Value) -> Result<Value, TermFault>
    ensures { AnswersOrLacks true result (call_two Function.Insert member.now whole.now) }
{
    match &whole.form {
        ValueForm::Set(members) => Ok(Value::set(members.insert(alloc, member)?)),
        _ => Err(TermFault::Undefined),
    }
}

/// A set without a member. Costs time in proportion to the logarithm of the set.
#[tactic(auto, using(ioa_values::proofs::ItemLists::list_of_items))]
pub(crate) fn delete(alloc: Global, member: &Value, whole: &Value) -> Result<Value, TermFault>
    ensures { AnswersOrLacks true result (call_two Function.Delete member.now whole.now) }
{
    match &whole.form {
        ValueForm::Set(members) => Ok(Value::set(members.remove(alloc, member)?)),
        _ => Err(TermFault::Undefined),
    }
}

/// The members of either of two sets. Costs time in proportion to both, as their members ascend.
#[tactic(auto, using(ioa_values::proofs::ItemLists::list_of_items))]
pub(crate) fn unite(alloc: Global, left: &Value, right: &Value) -> Result<Value, TermFault>
    ensures { AnswersOrLacks true result (call_two Function.Union left.now right.now) }
{
    match (&left.form, &right.form) {
        (ValueForm::Set(members), ValueForm::Set(others)) => {
            Ok(Value::set(members.union(alloc, others)?))
        }
        _ => Err(TermFault::Undefined),
    }
}

/// The set of values, without doubles. Costs what `FiniteSet::of` costs.
pub(crate) fn set_of_values(alloc: Global, values: Vec<Value>) -> Result<Value, TermFault>
    ensures { AnswersOrLacks true result (Some (finite_set_of (set_of values.items))) }
{
    Ok(Value::set(FiniteSet::of(alloc, values)?))
}
