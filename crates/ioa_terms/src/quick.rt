//! Values that are found with no memory and without a fault, by reference to what is in view.

ghost use Rattle.std.specs.Prelude.{◌≡◌, [], IfSome, Ok, Some, map, not, true};
ghost use Rattle.std.specs.Option.{option_map};
ghost use Rattle.ioa_values.specs.Data.{is_within, number, truth};
ghost use Rattle.ioa_operators.specs.RangeCheck.{checked_result};
ghost use Rattle.ioa_terms.specs.Bindings.{lookup, slot_in};
ghost use Rattle.ioa_operators.specs.Operators.{call_value};
ghost use Rattle.ioa_operators.specs.Shapes.{display_value};
ghost use Rattle.ioa_values.specs.Outcome.{and_then};
ghost use Rattle.ioa_terms.specs.PlainTerm.{call, terms_of, two};
ghost use Rattle.ioa_terms.specs.Resolved.{AreTermsResolved, IsCallee, IsResolved};
ghost use Rattle.ioa_terms.specs.Slots.{slot_value};
ghost use Rattle.ioa_terms.specs.Stepwise.{stepwise_answer, stepwise_answers};
ghost use Rattle.ioa_terms.specs.View.{term_of};
ghost use Rattle.ioa_terms.specs.Views.{IsNamed, environment_of, names_in_view};

use crate::callee::Callee;
use crate::environment::{Slot, View};
use crate::name::Name;
use crate::tree::Checked;
use ioa_operators::{
    BinaryOperator, DisplayForm, Function, Shape, ShapeForm, UnaryOperator, first_item,
};
use ioa_values::{Sequence, Value, Word};

/// The value of a term, if it is a number or a truth value that is found quickly.
pub(crate) fn quick_value(term: &Checked, view: &View, values: &[Value]) -> Option<Value>
    requires named { IsNamed view.now values.now }
    requires resolved { IsResolved (term_of term.now) (names_in_view view.now) }
    ensures { IfSome result
        (λ v. stepwise_answer (term_of term.now) (environment_of view.now values.now) ≡ Ok v) }
{
    match quick_number(term, view, values) {
        Some(n) => Some(Value::number(n)),
        None => match quick_truth(term, view, values) {
            Some(b) => Some(Value::truth(b)),
            None => None,
        },
    }
}

/// The number that a term has, if it is found quickly: a number, the value of a name, or a sum, a difference or a
/// product of such.
#[inline(always)]
pub(crate) fn quick_number(term: &Checked, view: &View, values: &[Value]) -> Option<i64>
    requires named { IsNamed view.now values.now }
    requires resolved { IsResolved (term_of term.now) (names_in_view view.now) }
    ensures { IfSome result
        (λ n. stepwise_answer (term_of term.now) (environment_of view.now values.now) ≡ Ok (number n)) }
{
    match number_at_hand(term, view, values) {
        Some(n) => Some(n),
        None => quick_sum(term, view, values),
    }
}

/// The number that a term has, if it is found quickly, as of [`quick_number`]. A sum of two numbers that are at hand
/// takes no call.
#[inline(always)]
pub(crate) fn quick_result(term: &Checked, view: &View, values: &[Value]) -> Option<i64>
    requires named { IsNamed view.now values.now }
    requires resolved { IsResolved (term_of term.now) (names_in_view view.now) }
    ensures { IfSome result
        (λ n. stepwise_answer (term_of term.now) (environment_of view.now values.now) ≡ Ok (number n)) }
{
    match term {
        Checked::Two(operator, a, b) => match sum_at_hand(*operator, a, b, view, values) {
            Some(n) => Some(n),
            None => quick_sum(term, view, values),
        },
        _ => number_at_hand(term, view, values),
    }
}

/// The sum, the difference or the product of two terms, if the numbers of both are at hand.
#[inline(always)]
fn sum_at_hand(
    operator: BinaryOperator,
    a: &Checked,
    b: &Checked,
    view: &View,
    values: &[Value],
) -> Option<i64>
    requires named { IsNamed view.now values.now }
    requires left { IsResolved (term_of a.now) (names_in_view view.now) }
    requires right { IsResolved (term_of b.now) (names_in_view view.now) }
    ensures { IfSome result (λ n. stepwise_answer (two operator (term_of a.now) (term_of b.now))
        (environment_of view.now values.now) ≡ Ok (number n)) }
{
    let left = number_at_hand(a, view, values)?;
    let right = number_at_hand(b, view, values)?;
    sum_of(operator, a, left, b, right, view, values)
}

/// The number of a term, if it is a number, or the value of the term is one and lent.
#[inline(always)]
pub fn number_at_hand(term: &Checked, view: &View, values: &[Value]) -> Option<i64>
    requires named { IsNamed view.now values.now }
    requires resolved { IsResolved (term_of term.now) (names_in_view view.now) }
    ensures { IfSome result
        (λ n. stepwise_answer (term_of term.now) (environment_of view.now values.now) ≡ Ok (number n)) }
{
    match term {
        Checked::Number(n) => Some(*n),
        _ => number_lent(term, view, values),
    }
}

/// The number that is the value of a term, if it is lent.
#[inline(always)]
fn number_lent(term: &Checked, view: &View, values: &[Value]) -> Option<i64>
    requires named { IsNamed view.now values.now }
    requires resolved { IsResolved (term_of term.now) (names_in_view view.now) }
    ensures { IfSome result
        (λ n. stepwise_answer (term_of term.now) (environment_of view.now values.now) ≡ Ok (number n)) }
{
    lent_value(term, view, values)?.as_number()
}

/// The number of a term, if it is a sum, a difference or a product of terms whose numbers are found quickly.
fn quick_sum(term: &Checked, view: &View, values: &[Value]) -> Option<i64>
    requires named { IsNamed view.now values.now }
    requires resolved { IsResolved (term_of term.now) (names_in_view view.now) }
    ensures { IfSome result
        (λ n. stepwise_answer (term_of term.now) (environment_of view.now values.now) ≡ Ok (number n)) }
{
    match term {
        Checked::Two(operator, a, b) => {
            if !is_arithmetic(*operator) {
                return None;
            }
            let left = match number_at_hand(a, view, values) {
                Some(n) => n,
                None => quick_sum(a, view, values)?,
            };
            let right = match number_at_hand(b, view, values) {
                Some(n) => n,
                None => quick_sum(b, view, values)?,
            };
            sum_of(*operator, a, left, b, right, view, values)
        }
        _ => None,
    }
}

/// Whether an operator makes a number of two.
#[inline(always)]
fn is_arithmetic(operator: BinaryOperator) -> bool {
    match operator {
        BinaryOperator::Plus | BinaryOperator::Minus | BinaryOperator::Times => true,
        _ => false,
    }
}

/// The sum, the difference or the product of two terms, which have these numbers.
#[inline(always)]
fn sum_of(
    operator: BinaryOperator,
    _a: &Checked,
    left: i64,
    _b: &Checked,
    right: i64,
    _view: &View,
    _values: &[Value],
) -> Option<i64>
    requires left { stepwise_answer (term_of _a.now) (environment_of _view.now _values.now) ≡ Ok (number left) }
    requires right { stepwise_answer (term_of _b.now) (environment_of _view.now _values.now) ≡ Ok (number right) }
    ensures { IfSome result (λ n. stepwise_answer (two operator (term_of _a.now) (term_of _b.now))
        (environment_of _view.now _values.now) ≡ Ok (number n)) }
{
    match operator {
        BinaryOperator::Plus => left.checked_add(right),
        BinaryOperator::Minus => left.checked_sub(right),
        BinaryOperator::Times => left.checked_mul(right),
        _ => None,
    }
}

/// The truth value that a term has, if it is found quickly, as of [`quick_truth`]. That of a name, and the order of two
/// numbers that are at hand, take no call.
#[inline(always)]
pub(crate) fn quick_test(term: &Checked, view: &View, values: &[Value]) -> Option<bool>
    requires named { IsNamed view.now values.now }
    requires resolved { IsResolved (term_of term.now) (names_in_view view.now) }
    ensures { IfSome result
        (λ b. stepwise_answer (term_of term.now) (environment_of view.now values.now) ≡ Ok (truth b)) }
{
    match term {
        Checked::Truth(b) => Some(*b),
        Checked::Name(_, _) => truth_named(term, view, values),
        Checked::Two(operator, a, b) => match order_at_hand(*operator, a, b, view, values) {
            Some(b) => Some(b),
            None => quick_truth(term, view, values),
        },
        _ => quick_truth(term, view, values),
    }
}

/// The order of two terms' numbers, if the operator asks that and both are at hand.
#[inline(always)]
fn order_at_hand(
    operator: BinaryOperator,
    a: &Checked,
    b: &Checked,
    view: &View,
    values: &[Value],
) -> Option<bool>
    requires named { IsNamed view.now values.now }
    requires left { IsResolved (term_of a.now) (names_in_view view.now) }
    requires right { IsResolved (term_of b.now) (names_in_view view.now) }
    ensures { IfSome result (λ t. stepwise_answer (two operator (term_of a.now) (term_of b.now))
        (environment_of view.now values.now) ≡ Ok (truth t)) }
{
    let left = number_at_hand(a, view, values)?;
    let right = number_at_hand(b, view, values)?;
    match operator {
        BinaryOperator::Less => Some(left < right),
        BinaryOperator::AtMost => Some(left <= right),
        BinaryOperator::Greater => Some(right < left),
        BinaryOperator::AtLeast => Some(right <= left),
        _ => None,
    }
}

/// The truth value that a term has, if it is found quickly: a truth value, the value of a name, the other one of such,
/// a connective of such, or a comparison of numbers or of the values of names.
pub(crate) fn quick_truth(term: &Checked, view: &View, values: &[Value]) -> Option<bool>
    requires named { IsNamed view.now values.now }
    requires resolved { IsResolved (term_of term.now) (names_in_view view.now) }
    ensures { IfSome result
        (λ b. stepwise_answer (term_of term.now) (environment_of view.now values.now) ≡ Ok (truth b)) }
{
    match term {
        Checked::Truth(b) => Some(*b),
        Checked::Name(_, _) => truth_named(term, view, values),
        Checked::One(UnaryOperator::Not, a) => Some(!quick_truth(a, view, values)?),
        Checked::Two(BinaryOperator::And, a, b) => {
            if quick_truth(a, view, values)? {
                quick_truth(b, view, values)
            } else {
                Some(false)
            }
        }
        Checked::Two(BinaryOperator::Or, a, b) => {
            if quick_truth(a, view, values)? {
                Some(true)
            } else {
                quick_truth(b, view, values)
            }
        }
        Checked::Two(BinaryOperator::Implies, a, b) => {
            if quick_truth(a, view, values)? {
                quick_truth(b, view, values)
            } else {
                Some(true)
            }
        }
        Checked::Two(operator, a, b) => quick_comparison(*operator, a, b, view, values),
        _ => None,
    }
}

/// How two terms' values compare, if the operator asks that and they are found quickly.
#[inline(always)]
fn quick_comparison(
    operator: BinaryOperator,
    a: &Checked,
    b: &Checked,
    view: &View,
    values: &[Value],
) -> Option<bool>
    requires named { IsNamed view.now values.now }
    requires left { IsResolved (term_of a.now) (names_in_view view.now) }
    requires right { IsResolved (term_of b.now) (names_in_view view.now) }
    ensures { IfSome result (λ t. stepwise_answer (two operator (term_of a.now) (term_of b.now))
        (environment_of view.now values.now) ≡ Ok (truth t)) }
{
    match operator {
        BinaryOperator::Equal => quick_same(a, b, view, values),
        BinaryOperator::NotEqual => Some(!quick_same(a, b, view, values)?),
        _ => quick_order(operator, a, b, view, values),
    }
}

/// How two terms' numbers compare, if the operator asks that and they are found quickly.
#[inline(always)]
fn quick_order(
    operator: BinaryOperator,
    a: &Checked,
    b: &Checked,
    view: &View,
    values: &[Value],
) -> Option<bool>
    requires named { IsNamed view.now values.now }
    requires left { IsResolved (term_of a.now) (names_in_view view.now) }
    requires right { IsResolved (term_of b.now) (names_in_view view.now) }
    ensures { IfSome result (λ t. stepwise_answer (two operator (term_of a.now) (term_of b.now))
        (environment_of view.now values.now) ≡ Ok (truth t)) }
{
    match operator {
        BinaryOperator::Less => {
            let left = quick_number(a, view, values)?;
            let right = quick_number(b, view, values)?;
            Some(left < right)
        }
        BinaryOperator::AtMost => {
            let left = quick_number(a, view, values)?;
            let right = quick_number(b, view, values)?;
            Some(left <= right)
        }
        BinaryOperator::Greater => {
            let left = quick_number(a, view, values)?;
            let right = quick_number(b, view, values)?;
            Some(right < left)
        }
        BinaryOperator::AtLeast => {
            let left = quick_number(a, view, values)?;
            let right = quick_number(b, view, values)?;
            Some(right <= left)
        }
        _ => None,
    }
}

/// Whether two terms have the same value, if both are found quickly: numbers, or values of names.
fn quick_same(a: &Checked, b: &Checked, view: &View, values: &[Value]) -> Option<bool>
    requires named { IsNamed view.now values.now }
    requires left { IsResolved (term_of a.now) (names_in_view view.now) }
    requires right { IsResolved (term_of b.now) (names_in_view view.now) }
    ensures equal { IfSome result (λ t. stepwise_answer (two BinaryOperator.Equal (term_of a.now) (term_of b.now))
        (environment_of view.now values.now) ≡ Ok (truth t)) }
    ensures differ { IfSome result (λ t. stepwise_answer (two BinaryOperator.NotEqual (term_of a.now) (term_of b.now))
        (environment_of view.now values.now) ≡ Ok (truth (not t))) }
{
    match quick_number(a, view, values) {
        Some(left) => {
            let right = quick_number(b, view, values)?;
            Some(Value::number(left).equals(&Value::number(right)))
        }
        None => same_lent(a, b, view, values),
    }
}

/// The same, if the first value is lent.
fn same_lent(a: &Checked, b: &Checked, view: &View, values: &[Value]) -> Option<bool>
    requires named { IsNamed view.now values.now }
    requires left { IsResolved (term_of a.now) (names_in_view view.now) }
    requires right { IsResolved (term_of b.now) (names_in_view view.now) }
    ensures equal { IfSome result (λ t. stepwise_answer (two BinaryOperator.Equal (term_of a.now) (term_of b.now))
        (environment_of view.now values.now) ≡ Ok (truth t)) }
    ensures differ { IfSome result (λ t. stepwise_answer (two BinaryOperator.NotEqual (term_of a.now) (term_of b.now))
        (environment_of view.now values.now) ≡ Ok (truth (not t))) }
{
    let left = lent_value(a, view, values)?;
    match lent_value(b, view, values) {
        Some(right) => Some(left.equals(right)),
        None => {
            let right = small_value(b, view, values)?;
            Some(left.equals(&right))
        }
    }
}

/// The value of a term that is made with no memory: a constant of the text, or a sequence of no items.
fn small_value(term: &Checked, view: &View, values: &[Value]) -> Option<Value>
    requires named { IsNamed view.now values.now }
    requires resolved { IsResolved (term_of term.now) (names_in_view view.now) }
    ensures { IfSome result
        (λ v. stepwise_answer (term_of term.now) (environment_of view.now values.now) ≡ Ok v) }
{
    match term {
        Checked::Name(_, _) => constant_named(term, view, values),
        Checked::Display(form, shape, parts) => {
            if parts.is_empty() {
                empty_sequence(*form, shape)
            } else {
                None
            }
        }
        _ => None,
    }
}

/// The constant of the text that a name is, if it is one.
fn constant_named(term: &Checked, view: &View, values: &[Value]) -> Option<Value>
    requires named { IsNamed view.now values.now }
    requires resolved { IsResolved (term_of term.now) (names_in_view view.now) }
    ensures { IfSome result
        (λ v. stepwise_answer (term_of term.now) (environment_of view.now values.now) ≡ Ok v) }
{
    match slot_named(term, view, values)? {
        Slot::Constant(constant) => Some(Value::constant(constant)),
        _ => None,
    }
}

/// The value of a display of no parts, if it is a sequence.
fn empty_sequence(form: DisplayForm, shape: &Shape) -> Option<Value>
    ensures { IfSome result (λ v. checked_result (display_value form shape.now []) ≡ Ok v) }
{
    match (form, &shape.form) {
        (DisplayForm::Braces, ShapeForm::Sequences(_)) => Some(Value::sequence(Sequence::new())),
        _ => None,
    }
}

/// The value of a term, if it is lent: that of a name, or the first item of a name's sequence.
#[inline(always)]
pub(crate) fn lent_value<'a>(
    term: &Checked,
    view: &'a View,
    values: &'a [Value],
) -> Option<&'a Value>
    requires named { IsNamed view.now values.now }
    requires resolved { IsResolved (term_of term.now) (names_in_view view.now) }
    ensures { IfSome result
        (λ v. stepwise_answer (term_of term.now) (environment_of view.now values.now) ≡ Ok v.now) }
{
    match term {
        Checked::Name(_, _) => named_value(term, view, values),
        Checked::Call(name, callee, parts) => called_value(name, *callee, parts, view, values),
        _ => None,
    }
}

/// The value of a name, if it is lent.
#[inline(always)]
fn named_value<'a>(term: &Checked, view: &'a View, values: &'a [Value]) -> Option<&'a Value>
    requires named { IsNamed view.now values.now }
    requires resolved { IsResolved (term_of term.now) (names_in_view view.now) }
    ensures { IfSome result
        (λ v. stepwise_answer (term_of term.now) (environment_of view.now values.now) ≡ Ok v.now) }
{
    match slot_named(term, view, values)? {
        Slot::Variable(value) => {
            within_law(value);
            Some(value)
        }
        _ => None,
    }
}

/// The value of a call, if it is lent: the first item of a name's sequence.
#[inline(never)]
fn called_value<'a>(
    _name: &Word,
    callee: Callee,
    parts: &Vec<Checked>,
    view: &'a View,
    values: &'a [Value],
) -> Option<&'a Value>
    requires named { IsNamed view.now values.now }
    requires callee { IsCallee _name.now callee (names_in_view view.now) }
    requires parts { AreTermsResolved (terms_of (map term_of parts.now.items)) (names_in_view view.now) }
    ensures { IfSome result (λ v. stepwise_answer (call _name.now callee (terms_of (map term_of parts.now.items)))
        (environment_of view.now values.now) ≡ Ok v.now) }
{
    match callee {
        Callee::Function(Function::Head) => first_value(parts, view, values),
        _ => None,
    }
}

/// The first item of a name's sequence, if these are that name alone.
fn first_value<'a>(parts: &Vec<Checked>, view: &'a View, values: &'a [Value]) -> Option<&'a Value>
    requires named { IsNamed view.now values.now }
    requires parts { AreTermsResolved (terms_of (map term_of parts.now.items)) (names_in_view view.now) }
    ensures { IfSome result
        (λ v. and_then (stepwise_answers (terms_of (map term_of parts.now.items)) (environment_of view.now values.now))
        (λ vs. checked_result (call_value Function.Head vs)) ≡ Ok v.now) }
{
    match parts.as_slice() {
        [part] => {
            let sequence = named_value(part, view, values)?;
            let item = first_item(sequence)?;
            within_law(item);
            Some(item)
        }
        _ => None,
    }
}

/// The truth value of a name, if its value is one and lent.
fn truth_named(term: &Checked, view: &View, values: &[Value]) -> Option<bool>
    requires named { IsNamed view.now values.now }
    requires resolved { IsResolved (term_of term.now) (names_in_view view.now) }
    ensures { IfSome result
        (λ b. stepwise_answer (term_of term.now) (environment_of view.now values.now) ≡ Ok (truth b)) }
{
    match slot_named(term, view, values)? {
        Slot::Variable(value) => value.as_truth(),
        _ => None,
    }
}

/// What is at the slot of a term, if it is a name.
#[inline(always)]
#[tactic(auto, using(crate::proofs::Slots::found_there))]
fn slot_named<'a>(term: &Checked, view: &'a View, values: &'a [Value]) -> Option<Slot<'a>>
    requires named { IsNamed view.now values.now }
    requires resolved { IsResolved (term_of term.now) (names_in_view view.now) }
    ensures { IfSome result (λ s. stepwise_answer (term_of term.now) (environment_of view.now values.now)
        ≡ checked_result (Some (slot_value s))) }
{
    match term {
        Checked::Name(name, slot) => slot_of(name, *slot, view, values),
        _ => None,
    }
}

/// What is at the slot of a name.
#[inline(always)]
#[tactic(auto, using(crate::proofs::Slots::lookup_view))]
fn slot_of<'a>(name: &Name, slot: usize, view: &'a View, values: &'a [Value]) -> Option<Slot<'a>>
    requires named { IsNamed view.now values.now }
    requires own { slot_in name.now (names_in_view view.now) ≡ Some slot }
    ensures { option_map slot_value result ≡ lookup name.now (environment_of view.now values.now) }
{
    view.get(values, slot)
}

/// A value that is a number lies within 64 bits. Does nothing.
fn within_law(value: &Value)
    ensures { is_within value.now ≡ true }
{
    let _number = value.as_number();
}
