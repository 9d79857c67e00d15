//! The arguments of a `fire`.

ghost use Rattle.std.specs.Prelude.{◌≡◌, ◌≤◌, ◌<◌, ◌+◌, ◌++◌, ◌∷◌, [], OnOk, length, map, take};
ghost use Rattle.ioa_values.specs.Data.{number};
ghost use Rattle.ioa_values.specs.Outcome.{Answers};
ghost use Rattle.ioa_terms.specs.PlainTerm.{terms_of};
ghost use Rattle.ioa_terms.specs.Resolved.{AreTermsResolved};
ghost use Rattle.ioa_terms.specs.Stepwise.{stepwise_answers};
ghost use Rattle.ioa_terms.specs.View.{term_of};
ghost use Rattle.ioa_terms.specs.Views.{IsNamed, environment_of, names_in_view};

use ioa_terms::{Checked, TermFault, Value, View, evaluate, number_at_hand};
use std::alloc::{AllocError, Global};

/// Evaluates terms, in order, and writes their values in the place of those that are there. The list takes no memory if
/// it has the room. The first fault is returned, and the values are some values then.
#[inline(always)]
pub(crate) fn evaluate_arguments(
    alloc: Global,
    terms: &Vec<Checked>,
    view: &View,
    values: &[Value],
    found: &mut Vec<Value>,
) -> Result<(), TermFault>
    requires named { IsNamed view.now values.now }
    requires resolved { AreTermsResolved (terms_of (map term_of terms.now.items)) (names_in_view view.now) }
    ensures { Answers TermFault.Memory (λ _. found.new.items) result
        (stepwise_answers (terms_of (map term_of terms.now.items)) (environment_of view.now values.now)) }
{
    for position in 0..terms.len() {
        match number_at_hand(&terms[position], view, values) {
            Some(n) => put_number(n, position, found)?,
            None => {
                let value = evaluate(alloc, &terms[position], view, values)?;
                put(value, position, found)?;
            }
        }
    }
    cut(found, terms.len());
    Ok(())
}

/// Leaves the first values of a list. Mostly it has no more than these.
#[inline(always)]
fn cut(values: &mut Vec<Value>, count: usize)
    ensures { values.new.items ≡ take count values.old.items }
{
    if count < values.len() {
        values.truncate(count);
    }
}

/// Writes a number over the value at a position, or behind the others.
#[inline(always)]
fn put_number(n: i64, position: usize, values: &mut Vec<Value>) -> Result<(), AllocError>
    requires { position ≤ length values.old.items }
    ensures first { OnOk result
        (take (position + 1) values.new.items ≡ take position values.old.items ++ number n ∷ []) }
    ensures further { OnOk result (position < length values.new.items) }
{
    if position < values.len() {
        values[position].set_number(n);
        return Ok(());
    }
    values.push(Value::number(n))?;
    Ok(())
}

/// Writes a value over the one at a position, or behind the others.
fn put(value: Value, position: usize, values: &mut Vec<Value>) -> Result<(), AllocError>
    requires { position ≤ length values.old.items }
    ensures first { OnOk result (take (position + 1) values.new.items ≡ take position values.old.items ++ value ∷ []) }
    ensures further { OnOk result (position < length values.new.items) }
{
    if position < values.len() {
        values[position] = value;
        return Ok(());
    }
    values.push(value)?;
    Ok(())
}
