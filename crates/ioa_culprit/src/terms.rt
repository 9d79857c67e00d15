//! Walks over terms.

use crate::asking::TermAsk;
use crate::halt::{Halt, bare, found};
use ioa_refusals::Refusal;
use ioa_term_reader::{infix_mark, prefix_mark};
use ioa_terms::{BinaryOperator, DisplayForm, Name, Shape, ShapeForm, Term};
use ioa_tokens::Mark;
use ioa_walk::{Part, Walk, joined, one_token};

/// The opening bracket of a display.
fn display_mark(form: DisplayForm) -> Mark {
    match form {
        DisplayForm::Braces => Mark::OpenBrace,
        DisplayForm::Brackets => Mark::OpenSquare,
    }
}

/// Passes a name that a term reads.
fn pass_name(walk: &mut Walk<'_>, name: &Name) -> Result<Part, Halt> {
    match name {
        Name::Word(word) => Ok(one_token(walk.word(word)?)),
        Name::Variable { name, node } => {
            let first = walk.word(name)?;
            let last = walk.number(*node)?;
            Ok(Part { first, last })
        }
        Name::Queue { from, to } => pass_queue(walk, *from, *to),
    }
}

/// Passes `queue(i, j)`.
fn pass_queue(walk: &mut Walk<'_>, from: i64, to: i64) -> Result<Part, Halt> {
    let first = walk.any_word()?;
    let last = walk.called(first)?;
    walk.number(from)?;
    walk.number(to)?;
    walk.go_behind(last);
    Ok(Part { first, last })
}

/// Passes the sign between two terms.
fn pass_sign(walk: &mut Walk<'_>, operator: BinaryOperator) -> Result<usize, Halt> {
    Ok(walk.mark(infix_mark(operator))?)
}

/// Passes what closes a term of two parts, the first of which and the second are these: the bracket behind a key.
fn pass_end(
    walk: &mut Walk<'_>,
    operator: BinaryOperator,
    left: Part,
    right: Part,
) -> Result<Part, Halt> {
    if operator == BinaryOperator::At {
        let last = walk.mark(Mark::CloseSquare)?;
        return Ok(Part {
            first: left.first,
            last,
        });
    }
    Ok(joined(left, right))
}

/// Passes a term. The walk ends at the first part of it that is refused as was told when it is asked alone, and has no
/// such part.
#[cycle(walking)]
pub(crate) fn pass_term(
    walk: &mut Walk<'_>,
    asked: &TermAsk<'_, '_>,
    term: &Term,
) -> Result<Part, Halt> {
    let part = match term {
        Term::Number(number) => one_token(walk.number(*number)?),
        Term::Truth(truth) => one_token(walk.truth(*truth)?),
        Term::Name(name, _) => pass_name(walk, name)?,
        Term::One(operator, a) => {
            let first = walk.mark(prefix_mark(*operator))?;
            let a = pass_term(walk, asked, a)?;
            joined(one_token(first), a)
        }
        Term::Two(operator, a, b) => {
            let left = pass_term(walk, asked, a)?;
            let _sign = pass_sign(walk, *operator)?;
            let right = pass_term(walk, asked, b)?;
            pass_end(walk, *operator, left, right)?
        }
        Term::Call(name, _, parts) => {
            let first = walk.word(name)?;
            let last = walk.called(first)?;
            pass_terms(walk, asked, parts)?;
            walk.go_behind(last);
            Part { first, last }
        }
        Term::Display(form, _, parts) => {
            let brackets = walk.opened(display_mark(*form))?;
            pass_terms(walk, asked, parts)?;
            walk.go_behind(brackets.last);
            brackets
        }
        Term::Field(a, name, _) => {
            let a = pass_term(walk, asked, a)?;
            let _dot = walk.mark(Mark::Dot)?;
            let name = walk.word(name)?;
            joined(a, one_token(name))
        }
    };
    if asked.refuses(term)? {
        return Err(found(part, asked.words_of(term)));
    }
    Ok(part)
}

/// Passes terms, one after another.
#[cycle(walking)]
pub(crate) fn pass_terms(
    walk: &mut Walk<'_>,
    asked: &TermAsk<'_, '_>,
    terms: &Vec<Term>,
) -> Result<(), Halt> {
    for term in terms {
        let _part = pass_term(walk, asked, term)?;
    }
    Ok(())
}

/// Passes a term that has to have a sort of its own. The walk ends at it if it is a display, and that was told. The
/// parts of a term that is not refused are not asked.
pub(crate) fn pass_own(
    walk: &mut Walk<'_>,
    asked: &TermAsk<'_, '_>,
    term: &Term,
) -> Result<Part, Halt> {
    let mut inner = *walk;
    let part = pass_term(walk, &asked.in_passing(), term)?;
    if asked.refuses(term)? {
        let _part = pass_term(&mut inner, asked, term)?;
    }
    match term {
        Term::Display(_, _, _) => {
            if asked.told == Refusal::EmptyOfWhat {
                return Err(bare(asked.alloc, part));
            }
        }
        _ => {}
    }
    Ok(part)
}

/// Passes a term at the place of a declared shape. The parts of a term that is not refused there are not asked.
#[cycle(fitting)]
pub(crate) fn pass_fit(
    walk: &mut Walk<'_>,
    asked: &TermAsk<'_, '_>,
    term: &Term,
    declared: &Shape,
) -> Result<Part, Halt> {
    let mut inner = *walk;
    let part = pass_term(walk, &asked.in_passing(), term)?;
    if !asked.refuses_at(term, declared)? {
        return Ok(part);
    }
    let mut items = inner;
    let _part = pass_term(&mut inner, asked, term)?;
    match term {
        Term::Display(form, _, parts) => {
            let _brackets = items.opened(display_mark(*form))?;
            pass_items(&mut items, asked, parts, declared)?;
        }
        _ => {}
    }
    Err(found(part, asked.words_at(term, declared)))
}

/// Passes the items of a display at the place of a shape.
#[cycle(fitting)]
fn pass_items(
    walk: &mut Walk<'_>,
    asked: &TermAsk<'_, '_>,
    items: &Vec<Term>,
    want: &Shape,
) -> Result<(), Halt> {
    match &want.form {
        ShapeForm::Sequences(item) => pass_all(walk, asked, items, item),
        ShapeForm::Sets(member) => pass_all(walk, asked, items, member),
        ShapeForm::Tuples(_, _, fields) => pass_each(walk, asked, items, fields),
        _ => Ok(()),
    }
}

/// Passes terms that all stand at places of one shape.
#[cycle(fitting)]
fn pass_all(
    walk: &mut Walk<'_>,
    asked: &TermAsk<'_, '_>,
    terms: &Vec<Term>,
    want: &Shape,
) -> Result<(), Halt> {
    for term in terms {
        let _part = pass_fit(walk, asked, term, want)?;
    }
    Ok(())
}

/// Passes terms at the places of declared shapes, one by one, as far as there are shapes.
#[cycle(fitting)]
pub(crate) fn pass_each(
    walk: &mut Walk<'_>,
    asked: &TermAsk<'_, '_>,
    terms: &Vec<Term>,
    shapes: &Vec<Shape>,
) -> Result<(), Halt> {
    for position in 0..terms.len().min(shapes.len()) {
        let _part = pass_fit(walk, asked, &terms[position], &shapes[position])?;
    }
    Ok(())
}

/// Passes a term at the place of a declared shape.
pub(crate) fn pass_at(
    walk: &mut Walk<'_>,
    asked: &TermAsk<'_, '_>,
    term: &Term,
    declared: &Shape,
) -> Result<(), Halt> {
    let _part = pass_fit(walk, asked, term, declared)?;
    Ok(())
}

/// Passes a term that is to be a truth value.
pub(crate) fn pass_truth(
    walk: &mut Walk<'_>,
    asked: &TermAsk<'_, '_>,
    term: &Term,
) -> Result<Part, Halt> {
    let truths = Shape::of(ShapeForm::Truths);
    pass_fit(walk, asked, term, &truths)
}
