//! The sorts of calls of functions.

ghost use Rattle.std.specs.Prelude.{Ok, map};
ghost use Rattle.ioa_values.specs.Outcome.{Answers, and_then};
ghost use Rattle.ioa_operators.specs.Operators.{function_named};
ghost use Rattle.ioa_terms.specs.PlainTerm as plain;
ghost use Rattle.ioa_terms.specs.PlainTerm.{terms_of};
ghost use Rattle.ioa_terms.specs.View.{term_of};
ghost use Rattle.ioa_terms.specs.Inboxes.{inboxes_word};
ghost use Rattle.ioa_names.specs.Views.{named};
ghost use Rattle.ioa_sort_rules.specs.Rows as rows;
ghost use Rattle.ioa_typed.specs.Parts.{typed};
ghost use Rattle.ioa_typed.specs.PartsView.{typed_of};
ghost use Rattle.ioa_sorts.specs.Sorting as spec;

use crate::parts::{three_parts, two_parts};
use crate::sorting::{fit, infer_part};
use ioa_names::View;
use ioa_refusals::Refusal;
use ioa_sort_rules::{Arity, Pairing, Sides, Single, arity_of, entry_of};
use ioa_terms::{Callee, Function, Name, Term, Word, inboxes_word, is_inbox};
use ioa_typed::{Typed, call_of_pair, call_of_part, call_of_tree, call_of_update, part_known};
use std::alloc::Global;

/// A call, by its name.
#[cycle(sorting)]
pub(crate) fn call(
    alloc: Global,
    view: &View,
    parts: &Vec<Term>,
    name: &Word,
) -> Result<Box<Typed>, Refusal>
    ensures { Answers Refusal.Memory (λ t. typed_of t.value) result (spec.call_of_function view.now name.now
        (spec.sortings view.now (terms_of (map term_of parts.now.items))) (function_named name.now)) }
{
    match Function::named(name) {
        Some(function) => {
            let callee = Callee::Function(function);
            call_of_arity(alloc, view, parts, name, callee, arity_of(function))
        }
        None => call_of_none(alloc, view, parts, name),
    }
}

/// A call whose name is no function's: only `inbox` has a meaning. `Unknown` (20) for another, or if the inboxes are
/// not in view.
#[cycle(sorting)]
#[tactic(auto, unfolding(crate::specs::Sorting::call_of_none))]
fn call_of_none(
    alloc: Global,
    view: &View,
    parts: &Vec<Term>,
    name: &Word,
) -> Result<Box<Typed>, Refusal>
    ensures { Answers Refusal.Memory (λ t. typed_of t.value) result (spec.call_of_none view.now name.now
        (spec.sortings view.now (terms_of (map term_of parts.now.items)))) }
{
    if is_inbox(name) {
        inbox(alloc, view, parts, name)
    } else {
        Err(Refusal::Unknown)
    }
}

/// A call of `inbox`, by the shape of the inboxes in view.
#[cycle(sorting)]
fn inbox(alloc: Global, view: &View, parts: &Vec<Term>, name: &Word) -> Result<Box<Typed>, Refusal>
    ensures { Answers Refusal.Memory (λ t. typed_of t.value) result (spec.inbox_known name.now
        (spec.sortings view.now (terms_of (map term_of parts.now.items))) (named (Name.Word inboxes_word) view.now)) }
{
    let inboxes = Name::Word(inboxes_word(alloc)?);
    match view.find(&inboxes) {
        None => Err(Refusal::Unknown),
        Some((slot, map)) => {
            let sides = entry_of(alloc, map)?;
            inbox_of(alloc, view, parts, name, Callee::Inboxes(slot), &sides)
        }
    }
}

/// A call of `inbox`, by the shapes of a sender and of what waits from it.
#[cycle(sorting)]
fn inbox_of(
    alloc: Global,
    view: &View,
    parts: &Vec<Term>,
    name: &Word,
    callee: Callee,
    sides: &Sides,
) -> Result<Box<Typed>, Refusal>
    ensures { Answers Refusal.Memory (λ t. typed_of t.value) result (spec.inbox_of name.now callee
        (spec.sortings view.now (terms_of (map term_of parts.now.items)))
        (rows.sides sides.now.other sides.now.whole)) }
{
    if parts.len() == 1 {
        inbox_of_one(alloc, view, &parts[0], name, callee, sides)
    } else {
        Err(Refusal::Sorts)
    }
}

/// A call of `inbox` of one part, which is given.
#[cycle(sorting)]
fn inbox_of_one(
    alloc: Global,
    view: &View,
    a: &Term,
    name: &Word,
    callee: Callee,
    sides: &Sides,
) -> Result<Box<Typed>, Refusal>
    ensures { Answers Refusal.Memory (λ t. typed_of t.value) result
        (and_then (spec.fit (spec.sorting view.now (term_of a.now)) sides.now.other)
        (λ t. Ok (typed (plain.call name.now callee (plain.term t plain.no_terms)) sides.now.whole))) }
{
    let part = fit(alloc, view, a, &sides.other)?;
    Ok(call_of_tree(alloc, name, callee, part, &sides.whole)?)
}

/// A call of a function that takes as many parts as its kind says.
#[cycle(sorting)]
#[tactic(auto, unfolding(crate::specs::Sorting::call_of_arity))]
fn call_of_arity(
    alloc: Global,
    view: &View,
    parts: &Vec<Term>,
    name: &Word,
    callee: Callee,
    arity: Arity,
) -> Result<Box<Typed>, Refusal>
    ensures { Answers Refusal.Memory (λ t. typed_of t.value) result (spec.call_of_arity name.now callee
        (spec.sortings view.now (terms_of (map term_of parts.now.items))) arity) }
{
    match arity {
        Arity::One(kind) => call_one(alloc, view, parts, name, callee, kind),
        Arity::Two(kind) => call_two(alloc, view, parts, name, callee, kind),
        Arity::Update => call_three(alloc, view, parts, name, callee),
    }
}

/// A call of a function of one part.
#[cycle(sorting)]
fn call_one(
    alloc: Global,
    view: &View,
    parts: &Vec<Term>,
    name: &Word,
    callee: Callee,
    kind: Single,
) -> Result<Box<Typed>, Refusal>
    ensures { Answers Refusal.Memory (λ t. typed_of t.value) result (spec.call_one name.now callee kind
        (spec.sortings view.now (terms_of (map term_of parts.now.items)))) }
{
    if parts.len() == 1 {
        call_of_one(alloc, view, &parts[0], name, callee, kind)
    } else {
        Err(Refusal::Sorts)
    }
}

/// A call of a function of one part, which is given.
#[cycle(sorting)]
fn call_of_one(
    alloc: Global,
    view: &View,
    a: &Term,
    name: &Word,
    callee: Callee,
    kind: Single,
) -> Result<Box<Typed>, Refusal>
    ensures { Answers Refusal.Memory (λ t. typed_of t.value) result
        (and_then (spec.one_part kind (spec.sorting view.now (term_of a.now)))
        (λ t. Ok (typed (plain.call name.now callee (plain.term t.tree plain.no_terms)) t.shape))) }
{
    let part = infer_part(alloc, view, a)?;
    let part = part_known(alloc, kind, part)?;
    Ok(call_of_part(alloc, name, callee, part)?)
}

/// A call of a function of two parts.
#[cycle(sorting)]
fn call_two(
    alloc: Global,
    view: &View,
    parts: &Vec<Term>,
    name: &Word,
    callee: Callee,
    kind: Pairing,
) -> Result<Box<Typed>, Refusal>
    ensures { Answers Refusal.Memory (λ t. typed_of t.value) result (spec.call_two name.now callee kind
        (spec.sortings view.now (terms_of (map term_of parts.now.items)))) }
{
    if parts.len() == 2 {
        call_of_two(alloc, view, &parts[0], &parts[1], name, callee, kind)
    } else {
        Err(Refusal::Sorts)
    }
}

/// A call of a function of two parts, which are given.
#[cycle(sorting)]
fn call_of_two(
    alloc: Global,
    view: &View,
    a: &Term,
    b: &Term,
    name: &Word,
    callee: Callee,
    kind: Pairing,
) -> Result<Box<Typed>, Refusal>
    ensures { Answers Refusal.Memory (λ t. typed_of t.value) result
        (and_then (spec.two_parts kind (spec.sorting view.now (term_of a.now)) (spec.sorting view.now (term_of b.now)))
        (λ p. Ok (typed (plain.call name.now callee (plain.term p.left (plain.term p.right plain.no_terms)))
        p.whole))) }
{
    let pair = two_parts(alloc, view, a, b, kind)?;
    Ok(call_of_pair(alloc, name, callee, pair)?)
}

/// A call of `update`.
#[cycle(sorting)]
fn call_three(
    alloc: Global,
    view: &View,
    parts: &Vec<Term>,
    name: &Word,
    callee: Callee,
) -> Result<Box<Typed>, Refusal>
    ensures { Answers Refusal.Memory (λ t. typed_of t.value) result (spec.call_three name.now callee
        (spec.sortings view.now (terms_of (map term_of parts.now.items)))) }
{
    if parts.len() == 3 {
        call_of_three(alloc, view, &parts[0], &parts[1], &parts[2], name, callee)
    } else {
        Err(Refusal::Sorts)
    }
}

/// A call of `update`, whose parts are given.
#[cycle(sorting)]
fn call_of_three(
    alloc: Global,
    view: &View,
    a: &Term,
    b: &Term,
    d: &Term,
    name: &Word,
    callee: Callee,
) -> Result<Box<Typed>, Refusal>
    ensures { Answers Refusal.Memory (λ t. typed_of t.value) result
        (and_then (spec.three_parts (spec.sorting view.now (term_of a.now)) (spec.sorting view.now (term_of b.now))
        (spec.sorting view.now (term_of d.now)))
        (λ u. Ok (typed (plain.call name.now callee
        (plain.term u.map (plain.term u.key (plain.term u.value plain.no_terms)))) u.whole))) }
{
    let update = three_parts(alloc, view, a, b, d)?;
    Ok(call_of_update(alloc, name, callee, update)?)
}
