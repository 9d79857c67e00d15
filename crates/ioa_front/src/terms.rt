//! The pieces of a term: an operator term that is a part of another is put in round brackets.

ghost use Rattle.std.specs.Prelude.{◌≡◌, map};
ghost use Rattle.std.specs.Option.{option_map};
ghost use Rattle.ioa_tokens.specs.declared.mark.Mark.TheVariants as mark;
ghost use Rattle.ioa_terms.specs.PlainTerm.{terms_of};
ghost use Rattle.ioa_terms.specs.View.{term_of};
ghost use Rattle.ioa_term_reader.specs.Spelling as spec;
ghost use Rattle.ioa_front.specs.Spelling.{separated_spelling, bracketed_spelling, optional_spelling};
ghost use Rattle.ioa_front.specs.Listing as listing;
ghost use Rattle.ioa_front.specs.Pieces.{Puts};

use crate::piece::Pieces;
use ioa_term_reader::{QUEUE, infix_mark, prefix_mark};
use ioa_terms::{BinaryOperator, DisplayForm, Name, Term};
use ioa_tokens::Mark;
use std::alloc::AllocError;

/// Puts what is printed behind the second term of an operator: the last bracket of `m[k]`.
fn put_infix_end<'a>(out: &mut Pieces<'a>, operator: BinaryOperator) -> Result<(), AllocError>
    ensures { Puts (spec.infix_end operator) result out.old out.new }
{
    match operator {
        BinaryOperator::At => out.put_mark(Mark::CloseSquare),
        _ => Ok(()),
    }
}

/// The word of a truth value.
fn truth_mark(truth: bool) -> Mark
    ensures { result ≡ spec.truth_mark truth }
{
    if truth { Mark::True } else { Mark::False }
}

/// The first bracket of a display.
fn opening(form: DisplayForm) -> Mark
    ensures { result ≡ spec.opening form }
{
    match form {
        DisplayForm::Braces => Mark::OpenBrace,
        DisplayForm::Brackets => Mark::OpenSquare,
    }
}

/// The last bracket of a display.
fn closing(form: DisplayForm) -> Mark
    ensures { result ≡ spec.closing form }
{
    match form {
        DisplayForm::Braces => Mark::CloseBrace,
        DisplayForm::Brackets => Mark::CloseSquare,
    }
}

/// Whether a term is an operator with its operands; `m[k]` and `x.f` bind as tightly as they can.
fn is_operation(term: &Term) -> bool
    ensures { result ≡ spec.is_operation (term_of term.now) }
{
    match term {
        Term::One(_, _) => true,
        Term::Two(operator, _, _) => !is_key(*operator),
        _ => false,
    }
}

/// Whether an operator is that of `m[k]`.
fn is_key(operator: BinaryOperator) -> bool
    ensures { result ≡ listing.is_key operator }
{
    match operator {
        BinaryOperator::At => true,
        _ => false,
    }
}

/// Puts the two numbers of a channel.
fn put_ends<'a>(out: &mut Pieces<'a>, from: &i64, to: &i64) -> Result<(), AllocError>
    ensures { Puts (spec.ends_spelling from.now to.now) result out.old out.new }
{
    out.put_number(*from)?;
    out.put_mark(Mark::Comma)?;
    out.put_number(*to)
}

/// Puts the pieces of a name.
fn put_name<'a>(out: &mut Pieces<'a>, name: &'a Name) -> Result<(), AllocError>
    ensures { Puts (spec.name_spelling name.now) result out.old out.new }
{
    match name {
        Name::Word(word) => out.put_word(word),
        Name::Variable { name, node } => {
            out.put_word(name)?;
            out.put_mark(Mark::AtSign)?;
            out.put_number(*node)
        }
        Name::Queue { from, to } => {
            out.put_text(QUEUE)?;
            out.put_mark(Mark::OpenRound)?;
            put_ends(out, from, to)?;
            out.put_mark(Mark::CloseRound)
        }
    }
}

/// Puts the pieces of a term.
#[cycle(terms)]
pub(crate) fn put_term<'a>(out: &mut Pieces<'a>, term: &'a Term) -> Result<(), AllocError>
    ensures { Puts (spec.spelling (term_of term.now)) result out.old out.new }
{
    match term {
        Term::Number(number) => out.put_number(*number),
        Term::Truth(truth) => out.put_mark(truth_mark(*truth)),
        Term::Name(name, _) => put_name(out, name),
        Term::One(operator, operand) => {
            out.put_mark(prefix_mark(*operator))?;
            put_part(out, operand)
        }
        Term::Two(operator, left, right) => {
            put_part(out, left)?;
            out.put_mark(infix_mark(*operator))?;
            put_part(out, right)?;
            put_infix_end(out, *operator)
        }
        Term::Call(name, _, parts) => {
            out.put_word(name)?;
            out.put_mark(Mark::OpenRound)?;
            put_parts(out, parts)?;
            out.put_mark(Mark::CloseRound)
        }
        Term::Display(form, _, parts) => {
            out.put_mark(opening(*form))?;
            put_parts(out, parts)?;
            out.put_mark(closing(*form))
        }
        Term::Field(whole, name, _) => {
            put_part(out, whole)?;
            out.put_mark(Mark::Dot)?;
            out.put_word(name)
        }
    }
}

/// Puts a part of a term, in round brackets if it is an operation.
#[cycle(terms)]
fn put_part<'a>(out: &mut Pieces<'a>, part: &'a Term) -> Result<(), AllocError>
    ensures { Puts (spec.in_brackets_if (spec.is_operation (term_of part.now)) (spec.spelling (term_of part.now)))
        result out.old out.new }
{
    if is_operation(part) {
        out.put_mark(Mark::OpenRound)?;
        put_term(out, part)?;
        out.put_mark(Mark::CloseRound)
    } else {
        put_term(out, part)
    }
}

/// Puts parts of a term with commas between.
#[cycle(terms)]
fn put_parts<'a>(out: &mut Pieces<'a>, parts: &'a Vec<Term>) -> Result<(), AllocError>
    ensures { Puts (spec.parts_spelling (terms_of (map term_of parts.now.items))) result out.old out.new }
{
    let mut first = true;
    for part in parts {
        out.put_between(Mark::Comma, first)?;
        put_part(out, part)?;
        first = false;
    }
    Ok(())
}

/// Puts terms with commas between.
fn put_terms<'a>(out: &mut Pieces<'a>, terms: &'a [Term]) -> Result<(), AllocError>
    ensures { Puts (separated_spelling mark.Comma spec.spelling (map term_of terms.now)) result out.old out.new }
{
    let mut first = true;
    for term in terms {
        out.put_between(Mark::Comma, first)?;
        put_term(out, term)?;
        first = false;
    }
    Ok(())
}

/// Puts terms in round brackets, and nothing if there is no term.
pub(crate) fn put_bracketed<'a>(out: &mut Pieces<'a>, terms: &'a [Term]) -> Result<(), AllocError>
    ensures { Puts (bracketed_spelling spec.spelling (map term_of terms.now)) result out.old out.new }
{
    match terms {
        [] => Ok(()),
        [_, ..] => {
            out.put_mark(Mark::OpenRound)?;
            put_terms(out, terms)?;
            out.put_mark(Mark::CloseRound)
        }
    }
}

/// Puts a term behind its word, and nothing if there is none.
pub(crate) fn put_optional<'a>(
    out: &mut Pieces<'a>,
    mark: Mark,
    term: &'a Option<Term>,
) -> Result<(), AllocError>
    ensures { Puts (optional_spelling mark spec.spelling (option_map term_of term.now)) result out.old out.new }
{
    match term {
        None => Ok(()),
        Some(term) => {
            out.put_mark(mark)?;
            put_term(out, term)
        }
    }
}
