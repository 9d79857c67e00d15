//! The value of a term.

ghost use Rattle.std.specs.Prelude.{◌≡◌, Some, None, Ok, [], map, slice_get, true, IfOk, IfSome};
ghost use Rattle.std.specs.Option.{option_and_then, option_map};
ghost use Rattle.ioa_values.specs.Outcome.{Answers, and_then};
ghost use Rattle.ioa_terms.specs.Meaning.{answer, inbox_value};
ghost use Rattle.ioa_terms.specs.Inboxes.{inbox_entries, inboxes_of, inboxes_value, inboxes_word};
ghost use Rattle.ioa_values.specs.Collections.{value_at};
ghost use Rattle.ioa_values.specs.Data as datum;
ghost use Rattle.ioa_values.specs.DataOrder.{same};
ghost use Rattle.ioa_operators.specs.Operators as spec;
ghost use Rattle.ioa_operators.specs.Operators.{binary_value, call_two, call_value};
ghost use Rattle.ioa_terms.specs.Resolved.{AreTermsResolved, IsCallee, IsResolved};
ghost use Rattle.ioa_terms.specs.Bindings.{names_of, slot_in, lookup};
ghost use Rattle.ioa_operators.specs.RangeCheck.{range_check, checked_result};
ghost use Rattle.ioa_terms.specs.Stepwise.{stepwise_answer, stepwise_answers, stepwise_test, with_right};
ghost use Rattle.ioa_terms.specs.PlainTerm as plain;
ghost use Rattle.ioa_terms.specs.PlainTerm.{terms_of};
ghost use Rattle.ioa_values.specs.Data.{is_within};
ghost use Rattle.ioa_terms.specs.View.{term_of};
ghost use Rattle.ioa_terms.specs.Views.{IsNamed, environment_of, names_in_view};

use crate::callee::Callee;
use crate::environment::{Env, Inbox, Slot, View};
use crate::name::Name;
use crate::quick::{lent_value, quick_test, quick_value};
use crate::tree::Checked;
use ioa_operators::{
    BinaryOperator, Function, TermFault, binary, call, call_lent, call_two_lent, display, field,
    left_decision, unary,
};
use ioa_values::{FiniteMap, Value, Word};
use std::alloc::{AllocError, Global};

/// The value of a term in an environment (profile). Parts are evaluated from left to right, and the first
/// fault is returned: `Undefined (1)` if a part has no value, `Range (2)` if a number lies outside 64 bits,
/// an intermediate one too, and `Memory (3)` if no memory is left. Costs time in proportion to the term and
/// to the sets and maps that it changes and the values that it compares.
#[tactic(auto, using(crate::proofs::Stepwise::stepwise_is))]
pub fn eval(alloc: Global, term: &Checked, env: &Env) -> Result<Value, TermFault>
    requires { IsResolved (term_of term.now) (names_of env.now) }
    ensures { Answers TermFault.Memory (λ v. v) result (answer (term_of term.now) env.now) }
{
    match env.quick_value(term) {
        Some(value) => Ok(value),
        None => evaluate_stepwise(alloc, term, env),
    }
}

/// The value of a term, if the values that statements may assign are these (profile). It is that of `eval`, and costs
/// less where it is a number or a truth value that is found quickly.
pub fn evaluate(
    alloc: Global,
    term: &Checked,
    view: &View,
    values: &[Value],
) -> Result<Value, TermFault>
    requires named { IsNamed view.now values.now }
    requires resolved { IsResolved (term_of term.now) (names_in_view view.now) }
    ensures { Answers TermFault.Memory (λ v. v) result
        (stepwise_answer (term_of term.now) (environment_of view.now values.now)) }
{
    match quick_value(term, view, values) {
        Some(value) => Ok(value),
        None => evaluate_lent(alloc, term, view, values),
    }
}

/// The same of a term that is no number and no truth value found quickly.
#[inline(never)]
pub(crate) fn evaluate_lent(
    alloc: Global,
    term: &Checked,
    view: &View,
    values: &[Value],
) -> Result<Value, TermFault>
    requires named { IsNamed view.now values.now }
    requires resolved { IsResolved (term_of term.now) (names_in_view view.now) }
    ensures { Answers TermFault.Memory (λ v. v) result
        (stepwise_answer (term_of term.now) (environment_of view.now values.now)) }
{
    match lent_value(term, view, values) {
        Some(value) => Ok(value.try_copy()?),
        None => match of_lent_parts(alloc, term, view, values) {
            Some(result) => result,
            None => evaluate_slowly(alloc, term, view, values),
        },
    }
}

/// What the value of a term comes to, if it is made of one or two values that are lent, or found quickly.
fn of_lent_parts(
    alloc: Global,
    term: &Checked,
    view: &View,
    values: &[Value],
) -> Option<Result<Value, TermFault>>
    requires named { IsNamed view.now values.now }
    requires resolved { IsResolved (term_of term.now) (names_in_view view.now) }
    ensures { IfSome result (λ r. Answers TermFault.Memory (λ v. v) r
        (stepwise_answer (term_of term.now) (environment_of view.now values.now))) }
{
    match term {
        Checked::Two(operator, a, b) => of_sides(alloc, *operator, a, b, view, values),
        Checked::Call(name, callee, parts) => { of_call(alloc, name, *callee, parts, view, values) }
        _ => None,
    }
}

/// The same of an operator between two terms.
fn of_sides(
    alloc: Global,
    operator: BinaryOperator,
    a: &Checked,
    b: &Checked,
    view: &View,
    values: &[Value],
) -> Option<Result<Value, TermFault>>
    requires named { IsNamed view.now values.now }
    requires left { IsResolved (term_of a.now) (names_in_view view.now) }
    requires right { IsResolved (term_of b.now) (names_in_view view.now) }
    ensures { IfSome result (λ r. Answers TermFault.Memory (λ v. v) r (stepwise_answer
        (plain.two operator (term_of a.now) (term_of b.now)) (environment_of view.now values.now))) }
{
    match lent_value(a, view, values) {
        Some(left) => of_right_side(alloc, operator, left, b, view, values),
        None => {
            let left = quick_value(a, view, values)?;
            of_right_side(alloc, operator, &left, b, view, values)
        }
    }
}

/// The same where the value of the left side is known.
fn of_right_side(
    alloc: Global,
    operator: BinaryOperator,
    left: &Value,
    b: &Checked,
    view: &View,
    values: &[Value],
) -> Option<Result<Value, TermFault>>
    requires named { IsNamed view.now values.now }
    requires right { IsResolved (term_of b.now) (names_in_view view.now) }
    ensures { IfSome result (λ r. Answers TermFault.Memory (λ v. v) r
        (with_right operator left.now (spec.left_decision operator left.now)
        (stepwise_answer (term_of b.now) (environment_of view.now values.now)))) }
{
    match lent_value(b, view, values) {
        Some(right) => Some(of_two(alloc, operator, left, right)),
        None => {
            let right = quick_value(b, view, values)?;
            Some(of_two(alloc, operator, left, &right))
        }
    }
}

/// The value of an operator between two values, which are lent.
fn of_two(
    alloc: Global,
    operator: BinaryOperator,
    left: &Value,
    right: &Value,
) -> Result<Value, TermFault>
    ensures { Answers TermFault.Memory (λ v. v) result
        (with_right operator left.now (spec.left_decision operator left.now) (Ok right.now)) }
{
    match left_decision(operator, left) {
        Some(decision) => Ok(Value::truth(decision)),
        None => binary(alloc, operator, left, right),
    }
}

/// What a call comes to, if it is of a function of one or two values that are lent, or found quickly.
fn of_call(
    alloc: Global,
    _name: &Word,
    callee: Callee,
    parts: &Vec<Checked>,
    view: &View,
    values: &[Value],
) -> Option<Result<Value, TermFault>>
    requires named { IsNamed view.now values.now }
    requires callee { IsCallee _name.now callee (names_in_view view.now) }
    requires parts { AreTermsResolved (terms_of (map term_of parts.now.items)) (names_in_view view.now) }
    ensures { IfSome result (λ r. Answers TermFault.Memory (λ v. v) r
        (stepwise_answer (plain.call _name.now callee (terms_of (map term_of parts.now.items)))
        (environment_of view.now values.now))) }
{
    match callee {
        Callee::Function(function) => of_parts(alloc, function, parts, view, values),
        Callee::Inboxes(_) => None,
    }
}

/// The same of a function.
fn of_parts(
    alloc: Global,
    function: Function,
    parts: &Vec<Checked>,
    view: &View,
    values: &[Value],
) -> Option<Result<Value, TermFault>>
    requires named { IsNamed view.now values.now }
    requires parts { AreTermsResolved (terms_of (map term_of parts.now.items)) (names_in_view view.now) }
    ensures { IfSome result (λ r. Answers TermFault.Memory (λ v. v) r
        (and_then (stepwise_answers (terms_of (map term_of parts.now.items)) (environment_of view.now values.now))
        (λ vs. checked_result (call_value function vs)))) }
{
    match parts.as_slice() {
        [part] => {
            let value = lent_value(part, view, values)?;
            Some(call_lent(alloc, function, value))
        }
        [first, second] => of_two_parts(alloc, function, first, second, view, values),
        _ => None,
    }
}

/// The same of two parts.
fn of_two_parts(
    alloc: Global,
    function: Function,
    first: &Checked,
    second: &Checked,
    view: &View,
    values: &[Value],
) -> Option<Result<Value, TermFault>>
    requires named { IsNamed view.now values.now }
    requires first { IsResolved (term_of first.now) (names_in_view view.now) }
    requires second { IsResolved (term_of second.now) (names_in_view view.now) }
    ensures { IfSome result (λ r. Answers TermFault.Memory (λ v. v) r
        (and_then (stepwise_answer (term_of first.now) (environment_of view.now values.now))
        (λ v. and_then (stepwise_answer (term_of second.now) (environment_of view.now values.now))
        (λ w. checked_result (call_two function v w))))) }
{
    match lent_value(first, view, values) {
        Some(first) => of_second_part(alloc, function, first, second, view, values),
        None => {
            let first = quick_value(first, view, values)?;
            of_second_part(alloc, function, &first, second, view, values)
        }
    }
}

/// The same where the value of the first part is known.
fn of_second_part(
    alloc: Global,
    function: Function,
    first: &Value,
    second: &Checked,
    view: &View,
    values: &[Value],
) -> Option<Result<Value, TermFault>>
    requires named { IsNamed view.now values.now }
    requires second { IsResolved (term_of second.now) (names_in_view view.now) }
    ensures { IfSome result (λ r. Answers TermFault.Memory (λ v. v) r
        (and_then (stepwise_answer (term_of second.now) (environment_of view.now values.now))
        (λ w. checked_result (call_two function first.now w)))) }
{
    match lent_value(second, view, values) {
        Some(second) => Some(call_two_lent(alloc, function, first, second)),
        None => {
            let second = quick_value(second, view, values)?;
            Some(call_two_lent(alloc, function, first, &second))
        }
    }
}

/// The same of a term whose value is not found quickly.
#[inline(never)]
fn evaluate_slowly(
    alloc: Global,
    term: &Checked,
    view: &View,
    values: &[Value],
) -> Result<Value, TermFault>
    requires named { IsNamed view.now values.now }
    requires resolved { IsResolved (term_of term.now) (names_in_view view.now) }
    ensures { Answers TermFault.Memory (λ v. v) result
        (stepwise_answer (term_of term.now) (environment_of view.now values.now)) }
{
    evaluate_stepwise(alloc, term, &view.env(values))
}

/// The values of terms, in order, if the values that statements may assign are these (profile). The first fault is
/// returned, of the first term that has one.
pub fn evaluate_each(
    alloc: Global,
    terms: &Vec<Checked>,
    view: &View,
    values: &[Value],
) -> Result<Vec<Value>, TermFault>
    requires named { IsNamed view.now values.now }
    requires resolved { AreTermsResolved (terms_of (map term_of terms.now.items)) (names_in_view view.now) }
    ensures { Answers TermFault.Memory (λ v. v.items) result
        (stepwise_answers (terms_of (map term_of terms.now.items)) (environment_of view.now values.now)) }
{
    let mut found = Vec::new(alloc);
    for term in terms {
        let value = evaluate(alloc, term, view, values)?;
        found.push(value)?;
    }
    Ok(found)
}

/// Whether a test is true, if the values that statements may assign are these (profile); `Undefined (1)` if it has no
/// truth value.
#[inline(always)]
pub fn evaluate_test(
    alloc: Global,
    test: &Checked,
    view: &View,
    values: &[Value],
) -> Result<bool, TermFault>
    requires named { IsNamed view.now values.now }
    requires resolved { IsResolved (term_of test.now) (names_in_view view.now) }
    ensures { Answers TermFault.Memory (λ b. b) result
        (stepwise_test (term_of test.now) (environment_of view.now values.now)) }
{
    match quick_test(test, view, values) {
        Some(truth) => Ok(truth),
        None => evaluate_test_slowly(alloc, test, view, values),
    }
}

/// The same of a test whose value is not found quickly.
#[inline(never)]
fn evaluate_test_slowly(
    alloc: Global,
    test: &Checked,
    view: &View,
    values: &[Value],
) -> Result<bool, TermFault>
    requires named { IsNamed view.now values.now }
    requires resolved { IsResolved (term_of test.now) (names_in_view view.now) }
    ensures { Answers TermFault.Memory (λ b. b) result
        (stepwise_test (term_of test.now) (environment_of view.now values.now)) }
{
    let value = evaluate_slowly(alloc, test, view, values)?;
    match value.as_truth() {
        Some(truth) => Ok(truth),
        None => Err(TermFault::Undefined),
    }
}

/// The value of a term, each part checked before the next is evaluated.
#[cycle(evaluating)]
pub(crate) fn evaluate_stepwise(
    alloc: Global,
    term: &Checked,
    env: &Env,
) -> Result<Value, TermFault>
    requires { IsResolved (term_of term.now) (names_of env.now) }
    ensures { Answers TermFault.Memory (λ v. v) result (stepwise_answer (term_of term.now) env.now) }
{
    match term {
        Checked::Number(n) => Ok(Value::number(*n)),
        Checked::Truth(b) => Ok(Value::truth(*b)),
        Checked::Name(name, slot) => read_name(alloc, env, name, *slot),
        Checked::One(operator, a) => {
            let part = evaluate_stepwise(alloc, a, env)?;
            unary(*operator, &part)
        }
        Checked::Two(operator, a, b) => {
            let left = evaluate_stepwise(alloc, a, env)?;
            match left_decision(*operator, &left) {
                Some(decision) => Ok(Value::truth(decision)),
                None => {
                    let right = evaluate_stepwise(alloc, b, env)?;
                    binary(alloc, *operator, &left, &right)
                }
            }
        }
        Checked::Call(_, callee, parts) => {
            let values = evaluate_all(alloc, parts, env)?;
            match callee {
                Callee::Function(function) => call(alloc, *function, values),
                Callee::Inboxes(slot) => inbox(alloc, env, *slot, &values),
            }
        }
        Checked::Display(form, shape, parts) => {
            let values = evaluate_all(alloc, parts, env)?;
            display(alloc, *form, shape, values)
        }
        Checked::Field(whole, name, shape) => {
            let value = evaluate_stepwise(alloc, whole, env)?;
            field(shape, name, value)
        }
    }
}

/// The values of terms, in order. The first fault is returned, of the first term that has one.
#[cycle(evaluating)]
pub fn evaluate_all(alloc: Global, parts: &Vec<Checked>, env: &Env) -> Result<Vec<Value>, TermFault>
    requires { AreTermsResolved (terms_of (map term_of parts.now.items)) (names_of env.now) }
    ensures { Answers TermFault.Memory (λ v. v.items) result
        (stepwise_answers (terms_of (map term_of parts.now.items)) env.now) }
{
    let mut values = Vec::new(alloc);
    for part in parts {
        let value = evaluate_stepwise(alloc, part, env)?;
        values.push(value)?;
    }
    Ok(values)
}

/// A copy of the value of a name, which is at its slot.
#[tactic(auto, using(crate::proofs::Slots::lookup_slot))]
fn read_name(alloc: Global, env: &Env, name: &Name, slot: usize) -> Result<Value, TermFault>
    requires { slot_in name.now (names_of env.now) ≡ Some slot }
    ensures { Answers TermFault.Memory (λ v. v) result (checked_result (lookup name.now env.now)) }
{
    read_slot(alloc, env, slot)
}

/// A copy of the value of a word, which is at its slot.
#[tactic(auto, using(crate::proofs::Slots::lookup_slot))]
pub(crate) fn read(alloc: Global, env: &Env, name: &Word, slot: usize) -> Result<Value, TermFault>
    requires { slot_in (Name.Word name.now) (names_of env.now) ≡ Some slot }
    ensures value { Answers TermFault.Memory (λ v. v) result (range_check [] (lookup (Name.Word name.now) env.now)) }
    ensures within { IfOk result (λ v. is_within v ≡ true) }
{
    read_slot(alloc, env, slot)
}

/// A copy of the value that is at a slot.
fn read_slot(alloc: Global, env: &Env, slot: usize) -> Result<Value, TermFault>
    ensures value { Answers TermFault.Memory (λ v. v) result
        (range_check [] (option_map (λ b. b.1) (slice_get env.now slot))) }
    ensures within { IfOk result (λ v. is_within v ≡ true) }
{
    match env.get(slot) {
        Some(Slot::Variable(value)) => Ok(value.try_copy()?),
        Some(Slot::Constant(constant)) => Ok(Value::constant(constant)),
        Some(Slot::Inboxes(inboxes)) => Ok(map_of(alloc, inboxes)?),
        None => Err(TermFault::Undefined),
    }
}

/// The map of the inboxes.
fn map_of(alloc: Global, inboxes: &[Inbox]) -> Result<Value, AllocError>
    ensures { IfOk result (λ v. v ≡ inboxes_value (inboxes_of inboxes.now)) }
{
    Ok(Value::map(entries_of(alloc, inboxes)?))
}

/// The entries of the map of the inboxes.
#[tactic(auto, using(crate::proofs::Inboxes::one_inbox_more))]
fn entries_of(alloc: Global, inboxes: &[Inbox]) -> Result<FiniteMap, AllocError>
    ensures { IfOk result (λ m. m ≡ inbox_entries (inboxes_of inboxes.now)) }
{
    let mut entries = FiniteMap::new();
    let mut left = inboxes.len();
    while left > 0 {
        left -= 1;
        let inbox = inboxes[left];
        let messages = inbox.messages.try_clone()?;
        entries = entries.update(
            alloc,
            &Value::number(inbox.sender),
            &Value::sequence(messages),
        )?;
    }
    Ok(entries)
}

/// The value of `inbox`: what waits from the node of this number, if the inboxes are at this slot.
fn inbox(alloc: Global, env: &Env, slot: usize, values: &[Value]) -> Result<Value, TermFault>
    requires { slot_in (Name.Word inboxes_word) (names_of env.now) ≡ Some slot }
    ensures { Answers TermFault.Memory (λ v. v) result (checked_result (inbox_value values.now env.now)) }
{
    match values {
        [sender] => inbox_at(alloc, env, slot, sender),
        _ => Err(TermFault::Undefined),
    }
}

/// What the map of the inboxes has at a key, if the inboxes are at this slot.
#[tactic(auto, using(ioa_values::proofs::ItemLists::pairs_of_entries, crate::proofs::Slots::lookup_slot))]
fn inbox_at(alloc: Global, env: &Env, slot: usize, sender: &Value) -> Result<Value, TermFault>
    requires { slot_in (Name.Word inboxes_word) (names_of env.now) ≡ Some slot }
    ensures { Answers TermFault.Memory (λ v. v) result (checked_result (option_and_then
        (λ m. binary_value BinaryOperator.At m sender.now) (lookup (Name.Word inboxes_word) env.now))) }
{
    match env.get(slot) {
        Some(Slot::Inboxes(inboxes)) => messages_from(alloc, inboxes, sender),
        Some(Slot::Variable(map)) => binary(alloc, BinaryOperator::At, map, sender),
        Some(Slot::Constant(_)) | None => Err(TermFault::Undefined),
    }
}

/// Whether a value is this number.
fn is_number(value: &Value, number: i64) -> bool
    ensures { result ≡ same value.now (datum.number number) }
{
    value.equals(&Value::number(number))
}

/// The messages of a sender, if there is an inbox of it.
#[tactic(auto, using(crate::proofs::Inboxes::found_here, crate::proofs::Inboxes::found_later))]
fn messages_from(alloc: Global, inboxes: &[Inbox], sender: &Value) -> Result<Value, TermFault>
    ensures { Answers TermFault.Memory (λ v. v) result
        (checked_result (value_at sender.now (inbox_entries (inboxes_of inboxes.now)))) }
{
    for inbox in inboxes {
        if is_number(sender, inbox.sender) {
            return Ok(Value::sequence(inbox.messages.try_clone()?));
        }
    }
    Err(TermFault::Undefined)
}
