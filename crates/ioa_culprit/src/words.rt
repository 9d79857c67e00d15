//! What is found in the place of what was asked for, in words: sorts, and how many arguments there are.

ghost use Rattle.std.specs.Prelude.{◌≡◌, ◌++◌, IfOk, OnOk, Some};
ghost use Rattle.std.specs.Option.{option_map};
ghost use Rattle.ioa_culprit.specs.SortTexts as spec;

use ioa_names::View;
use ioa_refusals::Refusal;
use ioa_sort_rules::{Arity, Single, arity_of, single_of};
use ioa_sorts::infer;
use ioa_terms::{
    BinaryOperator, Function, Name, Shape, ShapeForm, Term, UnaryOperator, Word, is_inbox,
};
use std::alloc::{AllocError, Global};

/// Adds a sort as texts spell it.
#[cycle(writing)]
fn push_sort(words: &mut Vec<u8>, shape: &Shape) -> Result<(), AllocError>
    ensures { OnOk result (words.new.items ≡ words.old.items ++ spec.sort_text shape.now) }
{
    match &shape.form {
        ShapeForm::Truths => words.extend_from_slice(b"Bool"),
        ShapeForm::Integers => words.extend_from_slice(b"Int"),
        ShapeForm::Naturals => words.extend_from_slice(b"Nat"),
        ShapeForm::Constants(name, _, _) => words.extend_from_slice(name.as_str().as_bytes()),
        ShapeForm::Tuples(name, _, _) => words.extend_from_slice(name.as_str().as_bytes()),
        ShapeForm::Sequences(item) => {
            words.extend_from_slice(b"Seq[")?;
            push_sort(words, item)?;
            words.extend_from_slice(b"]")
        }
        ShapeForm::Sets(member) => {
            words.extend_from_slice(b"Set[")?;
            push_sort(words, member)?;
            words.extend_from_slice(b"]")
        }
        ShapeForm::Maps(key, value) => {
            words.extend_from_slice(b"Map[")?;
            push_sort(words, key)?;
            words.extend_from_slice(b", ")?;
            push_sort(words, value)?;
            words.extend_from_slice(b"]")
        }
    }
}

/// Adds the sort of what is found; a display has none of its own.
fn push_found(words: &mut Vec<u8>, found: &Option<Shape>) -> Result<(), AllocError>
    ensures { OnOk result (words.new.items ≡ words.old.items ++ spec.found_text found.now) }
{
    match found {
        Some(shape) => push_sort(words, shape),
        None => words.extend_from_slice(b"a display"),
    }
}

/// The sorts of two parts, each behind a word.
fn pair_words(
    alloc: Global,
    first: &[u8],
    left: &Option<Shape>,
    second: &[u8],
    right: &Option<Shape>,
) -> Result<Vec<u8>, AllocError>
    ensures { IfOk result (λ words. words.items ≡ spec.pair_text first.now left.now second.now right.now) }
{
    let mut words = Vec::new(alloc);
    words.extend_from_slice(first)?;
    push_found(&mut words, left)?;
    words.extend_from_slice(second)?;
    push_found(&mut words, right)?;
    Ok(words)
}

/// What is asked for, and the sort of what is found.
fn asked_words(alloc: Global, asked: &[u8], found: &Option<Shape>) -> Result<Vec<u8>, AllocError>
    ensures { IfOk result (λ words. words.items ≡ spec.asked_text asked.now found.now) }
{
    let mut words = Vec::new(alloc);
    words.extend_from_slice(b"asked for: ")?;
    words.extend_from_slice(asked)?;
    words.extend_from_slice(b"; found: ")?;
    push_found(&mut words, found)?;
    Ok(words)
}

/// How many arguments a name takes, and how many are found.
pub(crate) fn count_words(
    alloc: Global,
    name: &str,
    asked: usize,
    found: usize,
) -> Result<Vec<u8>, AllocError>
    ensures { IfOk result (λ words. words.items ≡ spec.count_text name.now asked found) }
{
    let text = format!(in alloc;
        "number of arguments of `{name}` asked for: {asked}; found: {found}"
    )?;
    let mut words = Vec::new(alloc);
    words.extend_from_slice(text.as_bytes())?;
    Ok(words)
}

/// The sort of a term, as it is declared if the term is a name; none for a display.
fn sort_found(alloc: Global, view: &View, term: &Term) -> Result<Option<Shape>, AllocError> {
    match term {
        Term::Name(Name::Word(word), _) => match view.find_variable(word, usize::MAX) {
            None => Ok(None),
            Some((_, shape)) => Ok(Some(shape.try_copy(alloc)?)),
        },
        _ => sort_inferred(alloc, view, term),
    }
}

/// The sort of a term; none for a display, and for a term that is refused.
fn sort_inferred(alloc: Global, view: &View, term: &Term) -> Result<Option<Shape>, AllocError> {
    match infer(alloc, view, term) {
        Ok(None) => Ok(None),
        Ok(Some(typed)) => Ok(Some(typed.shape)),
        Err(Refusal::Memory) => Err(AllocError),
        Err(_) => Ok(None),
    }
}

/// What is said of a term that has another sort than its place.
pub(crate) fn misfit_words(
    alloc: Global,
    view: &View,
    term: &Term,
    want: &Shape,
) -> Result<Vec<u8>, AllocError> {
    let mut asked = Vec::new(alloc);
    push_sort(&mut asked, want)?;
    let found = sort_found(alloc, view, term)?;
    asked_words(alloc, &asked, &found)
}

/// What is said of a sort at the place of another.
pub(crate) fn place_words(alloc: Global, want: &Shape, sort: &Shape) -> Result<Vec<u8>, AllocError>
    ensures { IfOk result (λ words. words.items ≡ spec.asked_text (spec.sort_text want.now) (Some sort.now)) }
{
    let mut asked = Vec::new(alloc);
    push_sort(&mut asked, want)?;
    sort_words(alloc, &asked, sort)
}

/// What is said of a sort that has other values than a choice takes.
pub(crate) fn simple_words(alloc: Global, sort: &Shape) -> Result<Vec<u8>, AllocError>
    ensures { IfOk result (λ words. words.items ≡ spec.asked_text spec.simple_text (Some sort.now)) }
{
    sort_words(alloc, b"Bool, Int, Nat or an enumeration", sort)
}

/// What is asked for, and the sort that is found.
fn sort_words(alloc: Global, asked: &[u8], sort: &Shape) -> Result<Vec<u8>, AllocError>
    ensures { IfOk result (λ words. words.items ≡ spec.asked_text asked.now (Some sort.now)) }
{
    let found = Some(sort.try_copy(alloc)?);
    asked_words(alloc, asked, &found)
}

/// What is said of a call of `queue`.
pub(crate) fn queue_words(alloc: Global) -> Result<Vec<u8>, AllocError> {
    let mut words = Vec::new(alloc);
    words.extend_from_slice(b"`queue` takes the numbers of two nodes")?;
    Ok(words)
}

/// What is said of a term whose parts have other sorts than it takes.
pub(crate) fn sorts_words(alloc: Global, view: &View, term: &Term) -> Result<Vec<u8>, AllocError> {
    match term {
        Term::One(operator, a) => one_words(alloc, view, *operator, a),
        Term::Two(operator, a, b) => two_words(alloc, view, *operator, a, b),
        Term::Call(name, _, parts) => call_words(alloc, view, name, parts),
        Term::Field(a, _, _) => single_words(alloc, view, b"a tuple", a),
        _ => Ok(Vec::new(alloc)),
    }
}

/// What is asked for, and the sort of the part that is found there.
fn single_words(
    alloc: Global,
    view: &View,
    asked: &[u8],
    part: &Term,
) -> Result<Vec<u8>, AllocError> {
    let found = sort_found(alloc, view, part)?;
    asked_words(alloc, asked, &found)
}

/// What a form of one part takes.
fn taken_by(kind: Single) -> &'static [u8] {
    match kind {
        Single::Truth => b"Bool",
        Single::Number => b"Int",
        Single::Item | Single::Rest | Single::Length => b"a sequence",
        Single::Size => b"a set or a map",
    }
}

/// What is said of an operator before a term.
fn one_words(
    alloc: Global,
    view: &View,
    operator: UnaryOperator,
    part: &Term,
) -> Result<Vec<u8>, AllocError> {
    single_words(alloc, view, taken_by(single_of(operator)), part)
}

/// What is said of an operator between two terms.
fn two_words(
    alloc: Global,
    view: &View,
    operator: BinaryOperator,
    a: &Term,
    b: &Term,
) -> Result<Vec<u8>, AllocError> {
    if operator == BinaryOperator::At {
        found_pair(alloc, view, b"before `[` stands ", a, b", behind it ", b)
    } else {
        found_pair(
            alloc,
            view,
            b"the left side is ",
            a,
            b", the right side ",
            b,
        )
    }
}

/// The sorts of two terms, each behind a word.
fn found_pair(
    alloc: Global,
    view: &View,
    first: &[u8],
    a: &Term,
    second: &[u8],
    b: &Term,
) -> Result<Vec<u8>, AllocError> {
    let left = sort_found(alloc, view, a)?;
    found_behind(alloc, view, first, &left, second, b)
}

/// A sort and that of a term, each behind a word.
fn found_behind(
    alloc: Global,
    view: &View,
    first: &[u8],
    left: &Option<Shape>,
    second: &[u8],
    b: &Term,
) -> Result<Vec<u8>, AllocError> {
    let right = sort_found(alloc, view, b)?;
    pair_words(alloc, first, left, second, &right)
}

/// How many arguments a function takes; none if it is no function.
fn count_of(name: &Word) -> Option<usize> {
    match Function::named(name) {
        None => { if is_inbox(name) { Some(1) } else { None } }
        Some(function) => match arity_of(function) {
            Arity::One(_) => Some(1),
            Arity::Two(_) => Some(2),
            Arity::Update => Some(3),
        },
    }
}

/// What is said of a call.
fn call_words(
    alloc: Global,
    view: &View,
    name: &Word,
    parts: &Vec<Term>,
) -> Result<Vec<u8>, AllocError> {
    match count_of(name) {
        Some(count) if count != parts.len() => {
            count_words(alloc, name.as_str(), count, parts.len())
        }
        _ => call_sorts(alloc, view, name, parts),
    }
}

/// What is said of the sorts of a call's parts.
fn call_sorts(
    alloc: Global,
    view: &View,
    name: &Word,
    parts: &Vec<Term>,
) -> Result<Vec<u8>, AllocError> {
    match parts.as_slice() {
        [part] => single_words(alloc, view, taken_by_function(name), part),
        [a, b] => found_pair(
            alloc,
            view,
            b"the first argument is ",
            a,
            b", the second ",
            b,
        ),
        [a, b, d] => {
            let mut words = found_pair(alloc, view, b"the map is ", a, b", the key ", b)?;
            words.extend_from_slice(b", the value ")?;
            push_sort_found(alloc, &mut words, view, d)?;
            Ok(words)
        }
        _ => Ok(Vec::new(alloc)),
    }
}

/// Adds the sort of a term.
fn push_sort_found(
    alloc: Global,
    words: &mut Vec<u8>,
    view: &View,
    term: &Term,
) -> Result<(), AllocError> {
    let found = sort_found(alloc, view, term)?;
    push_found(words, &found)
}

/// What a function of one part takes.
fn taken_by_function(name: &Word) -> &'static [u8] {
    match Function::named(name) {
        Some(function) => match arity_of(function) {
            Arity::One(kind) => taken_by(kind),
            Arity::Two(_) | Arity::Update => b"another sort",
        },
        None => b"the number of a node",
    }
}
