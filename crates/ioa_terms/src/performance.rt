//! What a list of statements leaves of an environment.

ghost use Rattle.std.specs.Prelude.{◌≡◌, ◌<◌, ◌∷◌, [], IfOk, IfSome, OnErr, Some, ℤ, if◌then◌else◌, int_le, length, map, pos};
ghost use Rattle.std.specs.Prelude.{slice_set, true};
ghost use Rattle.std.specs.Option.{option_and_then};
ghost use Rattle.ioa_values.specs.Data.{number, truth};
ghost use Rattle.ioa_values.specs.Outcome.{Answers, and_then};
ghost use Rattle.ioa_operators.specs.RangeCheck.{checked_result};
ghost use Rattle.ioa_operators.specs.Shapes.{has_shape, with_field};
ghost use Rattle.ioa_terms.specs.Bindings.{slot_in, names_of, lookup};
ghost use Rattle.ioa_terms.specs.Performance.{answer_by, updated_map, with_chosen};
ghost use Rattle.ioa_terms.specs.Choices.{left, chosen, given, yielded, source_of, in_effect};
ghost use Rattle.ioa_terms.specs.Resolved.{AreResolved, AreAllResolved, IsResolved};
ghost use Rattle.ioa_terms.specs.Resolved.{IsResolvedStatement, IsResolvedTarget, IsResolvedChoice};
ghost use Rattle.ioa_terms.specs.Stepwise.{stepwise_answer, stepwise_all, stepwise_one};
ghost use Rattle.ioa_terms.specs.Stepwise.{stepwise_assignment, stepwise_assigned, put_fitting_value};
ghost use Rattle.ioa_terms.specs.Stepwise.{stepwise_choose, stepwise_taken, stepwise_chosen, given_next};
ghost use Rattle.ioa_terms.specs.Stepwise.{stepwise_permitted, stepwise_test};
ghost use Rattle.ioa_terms.specs.PlainTerm.{assign, statements_of};
ghost use Rattle.ioa_terms.specs.View.{statement_of, target_of, term_of, choice_of};
ghost use Rattle.ioa_terms.specs.Views.{IsNamed, environment_of, names_in_view, own_names};

use crate::callee::Callee;
use crate::choices::{Choices, EffectFault};
use crate::environment::{Env, View};
use crate::evaluation::{evaluate, evaluate_lent, evaluate_test, read};
use crate::name::Name;
use crate::quick::{quick_result, quick_truth};
use crate::tree::{Checked, Choice, Statement, Target};
use ioa_operators::{Function, Shape, ShapeForm, TermFault, call_three_lent, replace_field};
use ioa_values::{Value, Word};
use std::alloc::Global;
use std::{mem, slice};

/// Performs statements in order, each seeing what the one before left (profile). `values` are those that the
/// statements may assign, the first in view; each new value is written where it stands. The first fault is
/// returned, and what was written before it stays: `Undefined (1)` if a term has no value, a test has no truth
/// value, or a new value has not the variable's shape, `Range (2)` if a number lies outside 64 bits, an
/// intermediate one too, `NoChoice (43)` if a choice is not allowed, and `Memory (3)` if no memory is left. Costs time
/// in proportion to the statements performed, and to what their terms and the tests of shapes cost.
#[inline(always)]
#[tactic(auto, using(crate::proofs::Performed::stepwise_by_is, crate::proofs::Performed::all_resolved))]
pub fn perform(
    alloc: Global,
    statements: &[Statement<usize, Callee, Shape>],
    view: &View,
    values: &mut Vec<Value>,
    choices: &mut Choices,
) -> Result<(), EffectFault>
    requires resolved { AreResolved (map statement_of statements.now)
        (own_names view.now (length values.old.items)) (names_in_view view.now) }
    requires named { IsNamed view.now values.old.items }
    requires front { view.now.front.now ≡ [] }
    ensures after { Answers EffectFault.Memory
        (λ _. left (environment_of view.now values.new.items) (source_of choices.new)) result
        (answer_by (map statement_of statements.now)
        (left (environment_of view.now values.old.items) (source_of choices.old))) }
    ensures kept { length values.new.items ≡ length values.old.items }
{
    perform_all(alloc, statements, view, values, choices)
}

/// Performs statements, step by step.
#[cycle(performing)]
fn perform_all(
    alloc: Global,
    statements: &[Statement<usize, Callee, Shape>],
    view: &View,
    values: &mut Vec<Value>,
    choices: &mut Choices,
) -> Result<(), EffectFault>
    requires resolved { AreAllResolved (statements_of (map statement_of statements.now))
        (own_names view.now (length values.old.items)) (names_in_view view.now) }
    requires named { IsNamed view.now values.old.items }
    requires front { view.now.front.now ≡ [] }
    ensures after { Answers EffectFault.Memory
        (λ _. left (environment_of view.now values.new.items) (source_of choices.new)) result
        (stepwise_all (statements_of (map statement_of statements.now))
        (left (environment_of view.now values.old.items) (source_of choices.old))) }
    ensures kept { length values.new.items ≡ length values.old.items }
{
    for statement in statements {
        perform_one(alloc, statement, view, values, choices)?;
    }
    Ok(())
}

/// Performs one statement.
#[cycle(performing)]
fn perform_one(
    alloc: Global,
    statement: &Statement<usize, Callee, Shape>,
    view: &View,
    values: &mut Vec<Value>,
    choices: &mut Choices,
) -> Result<(), EffectFault>
    requires resolved { IsResolvedStatement (statement_of statement.now)
        (own_names view.now (length values.old.items)) (names_in_view view.now) }
    requires named { IsNamed view.now values.old.items }
    requires front { view.now.front.now ≡ [] }
    ensures after { Answers EffectFault.Memory
        (λ _. left (environment_of view.now values.new.items) (source_of choices.new)) result
        (stepwise_one (statement_of statement.now)
        (left (environment_of view.now values.old.items) (source_of choices.old))) }
    ensures kept { length values.new.items ≡ length values.old.items }
{
    match statement {
        Statement::Assign(target, term) => {
            perform_assignment(alloc, target, term, view, values)?;
            Ok(())
        }
        Statement::If(arms, rest) => {
            for arm in arms {
                if evaluate_test(alloc, &arm.test, view, values)? {
                    return perform_all(alloc, &arm.body, view, values, choices);
                }
            }
            perform_all(alloc, rest, view, values, choices)
        }
        Statement::While(_, _) | Statement::Fire(_) => Err(EffectFault::Undefined),
        Statement::Choose(choice) => perform_choice(alloc, choice, view, values, choices),
    }
}

/// Performs a choice: the key of its target is evaluated first, and the value is put as by an assignment.
#[inline(never)]
fn perform_choice(
    alloc: Global,
    choice: &Choice<usize, Callee, Shape>,
    view: &View,
    values: &mut Vec<Value>,
    choices: &mut Choices,
) -> Result<(), EffectFault>
    requires resolved { IsResolvedChoice (choice_of choice.now)
        (own_names view.now (length values.old.items)) (names_in_view view.now) }
    requires named { IsNamed view.now values.old.items }
    requires front { view.now.front.now ≡ [] }
    ensures after { Answers EffectFault.Memory
        (λ _. left (environment_of view.now values.new.items) (source_of choices.new)) result
        (stepwise_choose (target_of choice.now.target) (choice_of choice.now)
        (left (environment_of view.now values.old.items) (source_of choices.old))) }
    ensures kept { length values.new.items ≡ length values.old.items }
{
    match &choice.target {
        Target::Variable(name, at, shape) => {
            let value = take(alloc, choice, view, values, choices)?;
            put(name, *at, shape, value, view, values)?;
            Ok(())
        }
        Target::At(name, at, shape, key) => {
            let key = evaluate(alloc, key, view, values)?;
            let value = take(alloc, choice, view, values, choices)?;
            let whole = updated(alloc, name, *at, &key, &value, view, values)?;
            put(name, *at, shape, whole, view, values)?;
            Ok(())
        }
        Target::Field(name, at, shape, field) => {
            let value = take(alloc, choice, view, values, choices)?;
            let whole = replaced(alloc, name, *at, shape, field, value, view, values)?;
            put(name, *at, shape, whole, view, values)?;
            Ok(())
        }
    }
}

/// The value that a choice takes, if its condition allows that.
fn take(
    alloc: Global,
    choice: &Choice<usize, Callee, Shape>,
    view: &View,
    values: &mut Vec<Value>,
    choices: &mut Choices,
) -> Result<Value, EffectFault>
    requires condition { IsResolved (term_of choice.now.condition)
        (Name.Word choice.now.name ∷ names_in_view view.now) }
    requires yields { IsResolved (term_of choice.now.yields) (names_in_view view.now) }
    requires named { IsNamed view.now values.old.items }
    requires front { view.now.front.now ≡ [] }
    ensures taken { Answers EffectFault.Memory (λ v. chosen v (source_of choices.new)) result
        (stepwise_taken (choice_of choice.now)
        (left (environment_of view.now values.old.items) (source_of choices.old))) }
    ensures kept { values.new.items ≡ values.old.items }
{
    let value = value_of(alloc, choice, view, values, choices)?;
    pass_condition(alloc, choice, &value, view, values)?;
    Ok(value)
}

/// A value for a choice: the next that is given, or what its own term yields.
fn value_of(
    alloc: Global,
    choice: &Choice<usize, Callee, Shape>,
    view: &View,
    values: &[Value],
    choices: &mut Choices,
) -> Result<Value, EffectFault>
    requires yields { IsResolved (term_of choice.now.yields) (names_in_view view.now) }
    requires named { IsNamed view.now values.now }
    ensures { Answers EffectFault.Memory (λ v. chosen v (source_of choices.new)) result
        (stepwise_chosen choice.now.shape (term_of choice.now.yields)
        (environment_of view.now values.now) (source_of choices.old)) }
{
    match choices {
        Choices::Given(left) => next_given(&choice.shape, left),
        Choices::Yielded(made) => next_yielded(alloc, choice, view, values, made),
    }
}

/// The next value that is given, if it is of this shape.
fn next_given(shape: &Shape, left: &mut &[Value]) -> Result<Value, EffectFault>
    ensures { Answers EffectFault.Memory (λ v. chosen v (given left.new.now)) result
        (given_next shape.now left.old.now) }
{
    match left.split_first() {
        Some((value, rest)) => {
            if shape.admits(value) {
                let value = value.try_copy()?;
                *left = rest;
                Ok(value)
            } else {
                Err(EffectFault::NoChoice)
            }
        }
        None => Err(EffectFault::NoChoice),
    }
}

/// What the term of a choice yields, which is kept at the end of what was yielded before.
fn next_yielded(
    alloc: Global,
    choice: &Choice<usize, Callee, Shape>,
    view: &View,
    values: &[Value],
    made: &mut Vec<Value>,
) -> Result<Value, EffectFault>
    requires yields { IsResolved (term_of choice.now.yields) (names_in_view view.now) }
    requires named { IsNamed view.now values.now }
    ensures { Answers EffectFault.Memory (λ v. chosen v (yielded made.new.items)) result
        (stepwise_chosen choice.now.shape (term_of choice.now.yields)
        (environment_of view.now values.now) (yielded made.old.items)) }
{
    let value = evaluate(alloc, &choice.yields, view, values)?;
    if choice.shape.admits(&value) {
        made.push(value.try_copy()?)?;
        Ok(value)
    } else {
        Err(EffectFault::Undefined)
    }
}

/// Passes if the condition of a choice is true of a value.
fn pass_condition(
    alloc: Global,
    choice: &Choice<usize, Callee, Shape>,
    value: &Value,
    view: &View,
    values: &mut Vec<Value>,
) -> Result<(), EffectFault>
    requires condition { IsResolved (term_of choice.now.condition)
        (Name.Word choice.now.name ∷ names_in_view view.now) }
    requires named { IsNamed view.now values.old.items }
    requires front { view.now.front.now ≡ [] }
    ensures passed { Answers EffectFault.Memory (λ _. tt) result
        (stepwise_permitted (stepwise_test (term_of choice.now.condition)
        (with_chosen choice.now.name value.now (environment_of view.now values.old.items)))) }
    ensures kept { values.new.items ≡ values.old.items }
{
    let front = value.try_copy()?;
    values.insert(0, front)?;
    let view = view.behind(slice::from_ref(&choice.name));
    let tested = evaluate_test(alloc, &choice.condition, &view, values);
    values.remove(0);
    if tested? {
        Ok(())
    } else {
        Err(EffectFault::NoChoice)
    }
}

/// The map of a variable, in which a key has another value.
#[tactic(auto, using(crate::proofs::Slots::slot_among_all))]
fn updated(
    alloc: Global,
    name: &Word,
    at: usize,
    key: &Value,
    value: &Value,
    view: &View,
    values: &[Value],
) -> Result<Value, EffectFault>
    requires slot { slot_in (Name.Word name.now) (own_names view.now (length values.now)) ≡ Some at }
    requires named { IsNamed view.now values.now }
    ensures { Answers EffectFault.Memory (λ v. v) result
        (in_effect (checked_result (option_and_then (updated_map key.now value.now)
        (lookup (Name.Word name.now) (environment_of view.now values.now))))) }
{
    Ok(update(alloc, name, at, key, value, &view.env(values))?)
}

/// The tuple of a variable, in which a field has another value.
#[tactic(auto, using(crate::proofs::Slots::slot_among_all))]
fn replaced(
    alloc: Global,
    name: &Word,
    at: usize,
    shape: &Shape,
    field: &Word,
    value: Value,
    view: &View,
    values: &[Value],
) -> Result<Value, EffectFault>
    requires slot { slot_in (Name.Word name.now) (own_names view.now (length values.now)) ≡ Some at }
    requires named { IsNamed view.now values.now }
    ensures { Answers EffectFault.Memory (λ v. v) result
        (in_effect (checked_result (option_and_then (with_field shape.now field.now value)
        (lookup (Name.Word name.now) (environment_of view.now values.now))))) }
{
    Ok(replace(alloc, name, at, shape, field, value, &view.env(values))?)
}

/// Performs an assignment (profile): `values` are those that statements may assign, and the new value is written where
/// it stands among them. After a fault, they are what they were. Costs what its terms and the test of the variable's
/// shape cost.
#[inline(always)]
pub fn perform_assignment(
    alloc: Global,
    target: &Target<usize, Callee, Shape>,
    term: &Checked,
    view: &View,
    values: &mut Vec<Value>,
) -> Result<(), TermFault>
    requires resolved { IsResolvedStatement (assign (target_of target.now) (term_of term.now))
        (own_names view.now (length values.old.items)) (names_in_view view.now) }
    requires named { IsNamed view.now values.old.items }
    ensures after { Answers TermFault.Memory (λ _. environment_of view.now values.new.items) result
        (stepwise_assigned (target_of target.now) (term_of term.now) (environment_of view.now values.old.items)) }
    ensures kept { length values.new.items ≡ length values.old.items }
    ensures unchanged { OnErr result (values.new ≡ values.old) }
{
    match target {
        Target::Variable(name, at, shape) => match asks_natural(shape) {
            Some(asks) => match quick_result(term, view, values) {
                Some(n) => {
                    let is_admitted = !asks || 0 <= n;
                    put_number(name, *at, shape, n, is_admitted, view, values)
                }
                None => assign_evaluated(alloc, target, term, view, values),
            },
            None => assign_truth(alloc, target, term, view, values),
        },
        _ => assign_evaluated(alloc, target, term, view, values),
    }
}

/// Whether a shape is one of naturals alone, if it is one of numbers.
#[inline(always)]
fn asks_natural(shape: &Shape) -> Option<bool>
    ensures { IfSome result
        (λ b. (n : ℤ) → has_shape shape.now (number n) ≡ (if b then int_le (pos 0) n else true)) }
{
    match &shape.form {
        ShapeForm::Integers => Some(false),
        ShapeForm::Naturals => Some(true),
        _ => None,
    }
}

/// The same of a variable that has no numbers.
#[inline(always)]
fn assign_truth(
    alloc: Global,
    target: &Target<usize, Callee, Shape>,
    term: &Checked,
    view: &View,
    values: &mut Vec<Value>,
) -> Result<(), TermFault>
    requires resolved { IsResolvedStatement (assign (target_of target.now) (term_of term.now))
        (own_names view.now (length values.old.items)) (names_in_view view.now) }
    requires named { IsNamed view.now values.old.items }
    ensures after { Answers TermFault.Memory (λ _. environment_of view.now values.new.items) result
        (stepwise_assigned (target_of target.now) (term_of term.now) (environment_of view.now values.old.items)) }
    ensures kept { length values.new.items ≡ length values.old.items }
    ensures unchanged { OnErr result (values.new ≡ values.old) }
{
    match target {
        Target::Variable(name, at, shape) => match &shape.form {
            ShapeForm::Truths => match quick_truth(term, view, values) {
                Some(truth) => put_truth(name, *at, shape, truth, view, values),
                None => assign_evaluated(alloc, target, term, view, values),
            },
            _ => assign_evaluated(alloc, target, term, view, values),
        },
        _ => assign_evaluated(alloc, target, term, view, values),
    }
}

/// The same where the value is no number and no truth value that is found quickly.
#[inline(never)]
fn assign_evaluated(
    alloc: Global,
    target: &Target<usize, Callee, Shape>,
    term: &Checked,
    view: &View,
    values: &mut Vec<Value>,
) -> Result<(), TermFault>
    requires resolved { IsResolvedStatement (assign (target_of target.now) (term_of term.now))
        (own_names view.now (length values.old.items)) (names_in_view view.now) }
    requires named { IsNamed view.now values.old.items }
    ensures after { Answers TermFault.Memory (λ _. environment_of view.now values.new.items) result
        (stepwise_assigned (target_of target.now) (term_of term.now) (environment_of view.now values.old.items)) }
    ensures kept { length values.new.items ≡ length values.old.items }
    ensures unchanged { OnErr result (values.new ≡ values.old) }
{
    let value = new_value(alloc, target, term, view, values)?;
    match target {
        Target::Variable(name, at, shape) => put(name, *at, shape, value, view, values),
        Target::At(name, at, shape, _) => put(name, *at, shape, value, view, values),
        Target::Field(name, at, shape, _) => put(name, *at, shape, value, view, values),
    }
}

/// What an assignment gives its variable, whatever the variable's shape.
fn new_value(
    alloc: Global,
    target: &Target<usize, Callee, Shape>,
    term: &Checked,
    view: &View,
    values: &[Value],
) -> Result<Value, TermFault>
    requires target { IsResolvedTarget (target_of target.now) (own_names view.now (length values.now))
        (names_in_view view.now) }
    requires term { IsResolved (term_of term.now) (names_in_view view.now) }
    requires named { IsNamed view.now values.now }
    ensures { Answers TermFault.Memory (λ v. v) result (stepwise_assignment (target_of target.now) (term_of term.now)
        (environment_of view.now values.now)) }
{
    match target {
        Target::Variable(_, _, _) => evaluate_lent(alloc, term, view, values),
        _ => whole_value(alloc, target, term, view, values),
    }
}

/// The same of a target that may be a part of its variable.
#[tactic(auto, using(crate::proofs::Slots::target_among_all))]
fn whole_value(
    alloc: Global,
    target: &Target<usize, Callee, Shape>,
    term: &Checked,
    view: &View,
    values: &[Value],
) -> Result<Value, TermFault>
    requires target { IsResolvedTarget (target_of target.now) (own_names view.now (length values.now))
        (names_in_view view.now) }
    requires term { IsResolved (term_of term.now) (names_in_view view.now) }
    requires named { IsNamed view.now values.now }
    ensures { Answers TermFault.Memory (λ v. v) result (stepwise_assignment (target_of target.now) (term_of term.now)
        (environment_of view.now values.now)) }
{
    match target {
        Target::Variable(_, _, _) => evaluate(alloc, term, view, values),
        Target::At(name, at, _, key) => {
            let key = evaluate(alloc, key, view, values)?;
            value_with_key(alloc, name, *at, &key, term, view, values)
        }
        Target::Field(name, at, shape, field) => {
            let value = evaluate(alloc, term, view, values)?;
            replace(alloc, name, *at, shape, field, value, &view.env(values))
        }
    }
}

/// The map of a variable, in which a key has the value of a term.
fn value_with_key(
    alloc: Global,
    name: &Word,
    at: usize,
    key: &Value,
    term: &Checked,
    view: &View,
    values: &[Value],
) -> Result<Value, TermFault>
    requires target { slot_in (Name.Word name.now) (names_in_view view.now) ≡ Some at }
    requires term { IsResolved (term_of term.now) (names_in_view view.now) }
    requires named { IsNamed view.now values.now }
    ensures { Answers TermFault.Memory (λ v. v) result
        (and_then (stepwise_answer (term_of term.now) (environment_of view.now values.now))
        (λ v. checked_result (option_and_then (updated_map key.now v)
        (lookup (Name.Word name.now) (environment_of view.now values.now))))) }
{
    let value = evaluate(alloc, term, view, values)?;
    update(alloc, name, at, key, &value, &view.env(values))
}

/// The map of a variable, in which a key has another value.
fn update(
    alloc: Global,
    name: &Word,
    at: usize,
    key: &Value,
    value: &Value,
    env: &Env,
) -> Result<Value, TermFault>
    requires { slot_in (Name.Word name.now) (names_of env.now) ≡ Some at }
    ensures { Answers TermFault.Memory (λ v. v) result
        (checked_result (option_and_then (updated_map key.now value.now) (lookup (Name.Word name.now) env.now))) }
{
    let map = read(alloc, env, name, at)?;
    call_three_lent(alloc, Function::Update, &map, key, value)
}

/// The tuple of a variable, in which a field has another value.
fn replace(
    alloc: Global,
    name: &Word,
    at: usize,
    shape: &Shape,
    field: &Word,
    value: Value,
    env: &Env,
) -> Result<Value, TermFault>
    requires { slot_in (Name.Word name.now) (names_of env.now) ≡ Some at }
    ensures { Answers TermFault.Memory (λ v. v) result
        (checked_result (option_and_then (with_field shape.now field.now value)
        (lookup (Name.Word name.now) env.now))) }
{
    let whole = read(alloc, env, name, at)?;
    replace_field(alloc, shape, field, value, whole)
}

/// Gives a variable another value; `Undefined (1)` if that has not the variable's shape.
#[tactic(auto, using(crate::proofs::Slots::put_among_first, crate::proofs::Slots::slot_within_first))]
fn put(
    name: &Word,
    at: usize,
    shape: &Shape,
    value: Value,
    view: &View,
    values: &mut Vec<Value>,
) -> Result<(), TermFault>
    requires { slot_in (Name.Word name.now) (own_names view.now (length values.old.items)) ≡ Some at }
    ensures after { Answers TermFault.Memory (λ _. environment_of view.now values.new.items) result
        (put_fitting_value (Name.Word name.now) shape.now (environment_of view.now values.old.items) value) }
    ensures kept { length values.new.items ≡ length values.old.items }
    ensures unchanged { OnErr result (values.new ≡ values.old) }
{
    if shape.admits(&value) {
        set(values, at, value);
        Ok(())
    } else {
        Err(TermFault::Undefined)
    }
}

/// The same of a number that the shape admits or not. It is written over the one that stands there.
#[inline(always)]
#[tactic(auto, using(crate::proofs::Slots::put_among_first, crate::proofs::Slots::slot_within_first))]
fn put_number(
    name: &Word,
    at: usize,
    _shape: &Shape,
    n: i64,
    is_admitted: bool,
    view: &View,
    values: &mut Vec<Value>,
) -> Result<(), TermFault>
    requires slot { slot_in (Name.Word name.now) (own_names view.now (length values.old.items)) ≡ Some at }
    requires admitted { has_shape _shape.now (number n) ≡ is_admitted }
    ensures after { Answers TermFault.Memory (λ _. environment_of view.now values.new.items) result
        (put_fitting_value (Name.Word name.now) _shape.now (environment_of view.now values.old.items)
        (number n)) }
    ensures kept { length values.new.items ≡ length values.old.items }
    ensures unchanged { OnErr result (values.new ≡ values.old) }
{
    if is_admitted {
        set_number(values, at, n);
        Ok(())
    } else {
        Err(TermFault::Undefined)
    }
}

/// The same of a truth value.
#[inline(always)]
#[tactic(auto, using(crate::proofs::Slots::put_among_first, crate::proofs::Slots::slot_within_first))]
fn put_truth(
    name: &Word,
    at: usize,
    shape: &Shape,
    b: bool,
    view: &View,
    values: &mut Vec<Value>,
) -> Result<(), TermFault>
    requires { slot_in (Name.Word name.now) (own_names view.now (length values.old.items)) ≡ Some at }
    ensures after { Answers TermFault.Memory (λ _. environment_of view.now values.new.items) result
        (put_fitting_value (Name.Word name.now) shape.now (environment_of view.now values.old.items) (truth b)) }
    ensures kept { length values.new.items ≡ length values.old.items }
    ensures unchanged { OnErr result (values.new ≡ values.old) }
{
    if shape.admits(&Value::truth(b)) {
        set_truth(values, at, b);
        Ok(())
    } else {
        Err(TermFault::Undefined)
    }
}

/// Makes the value at a slot a truth value.
#[inline(always)]
fn set_truth(values: &mut Vec<Value>, slot: usize, b: bool)
    requires { slot < length values.old.items }
    ensures { values.new.items ≡ slice_set values.old.items slot (truth b) }
{
    values[slot].set_truth(b);
}

/// Makes the value at a slot a number.
#[inline(always)]
fn set_number(values: &mut Vec<Value>, slot: usize, n: i64)
    requires { slot < length values.old.items }
    ensures { values.new.items ≡ slice_set values.old.items slot (number n) }
{
    values[slot].set_number(n);
}

/// Replaces the value at a slot, and drops the old one.
fn set(values: &mut Vec<Value>, slot: usize, value: Value)
    requires { slot < length values.old.items }
    ensures { values.new.items ≡ slice_set values.old.items slot value }
{
    let _old = mem::replace(&mut values[slot], value);
}
