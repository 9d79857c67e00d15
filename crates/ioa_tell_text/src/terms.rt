//! Terms as text.

ghost use Rattle.std.specs.Prelude.{◌≡◌, ◌++◌, OnOk, codes, map, true};
ghost use Rattle.std.specs.Fmt.{decimal, signed_decimal};
ghost use Rattle.ioa_values.specs.Outcome.{Writes};
ghost use Rattle.ioa_term_reader.specs.Levels as levels;
ghost use Rattle.ioa_terms.specs.PlainTerm.{terms_of};
ghost use Rattle.ioa_terms.specs.View.{term_of};
ghost use Rattle.ioa_tell_text.specs.Terms as spec;

use ioa_term_reader::{infix_mark, prefix_mark};
use ioa_terms::{BinaryOperator, Checked, DisplayForm, Name, UnaryOperator};
use ioa_tokens::{Gap, push_mark};
use std::alloc::AllocError;

/// How tightly numbers, names, calls and displays bind.
const ATOM_LEVEL: usize = 13;

/// How tightly `.f` and `[k]` bind.
const POSTFIX_LEVEL: usize = 12;

/// Writes a term.
#[cycle(terms)]
pub(crate) fn push_term(out: &mut String, term: &Checked) -> Result<(), AllocError>
    ensures { OnOk result (Writes out.old out.new (spec.term_text (term_of term.now))) }
{
    match term {
        Checked::Number(number) => push_number(out, *number),
        Checked::Truth(truth) => out.push_str(if *truth { "true" } else { "false" }),
        Checked::Name(name, _) => push_name(out, name),
        Checked::One(operator, part) => {
            push_mark(out, Gap::Joined, prefix_mark(*operator))?;
            push_within(out, POSTFIX_LEVEL, part)
        }
        Checked::Two(operator, left, right) => {
            push_within(out, left_level(*operator), left)?;
            push_sign(out, *operator)?;
            push_within(out, right_least(*operator), right)?;
            push_end(out, *operator)
        }
        Checked::Call(name, _, parts) => {
            out.push_str(name.as_str())?;
            out.push_str("(")?;
            push_parts(out, parts)?;
            out.push_str(")")
        }
        Checked::Display(form, _, parts) => {
            out.push_str(opening(*form))?;
            push_parts(out, parts)?;
            out.push_str(closing(*form))
        }
        Checked::Field(whole, name, _) => {
            push_within(out, POSTFIX_LEVEL, whole)?;
            out.push_str(".")?;
            out.push_str(name.as_str())
        }
    }
}

/// Writes a part of a term, in round brackets if it binds more loosely than that.
#[cycle(terms)]
fn push_within(out: &mut String, least: usize, part: &Checked) -> Result<(), AllocError>
    ensures { OnOk result (Writes out.old out.new
        (spec.within least (spec.level_of (term_of part.now)) (spec.term_text (term_of part.now)))) }
{
    if level_of(part) < least {
        out.push_str("(")?;
        push_term(out, part)?;
        out.push_str(")")
    } else {
        push_term(out, part)
    }
}

/// Writes parts of a term with commas between.
#[cycle(terms)]
pub(crate) fn push_parts(out: &mut String, parts: &Vec<Checked>) -> Result<(), AllocError>
    ensures { OnOk result (Writes out.old out.new
        (spec.parts_text true (terms_of (map term_of parts.now.items)))) }
{
    let mut first = true;
    for part in parts {
        push_before(out, first)?;
        push_term(out, part)?;
        first = false;
    }
    Ok(())
}

/// Writes what stands before a part: a comma, unless it is the first.
fn push_before(out: &mut String, first: bool) -> Result<(), AllocError>
    ensures { OnOk result (Writes out.old out.new (spec.before_part first)) }
{
    if first { Ok(()) } else { out.push_str(", ") }
}

/// Writes a number.
fn push_number(out: &mut String, number: i64) -> Result<(), AllocError>
    ensures { OnOk result (Writes out.old out.new (signed_decimal number)) }
{
    write!(out, "{number}")?;
    Ok(())
}

/// Writes a word and a number.
pub(crate) fn push_word(out: &mut String, word: &str, number: i64) -> Result<(), AllocError>
    ensures { OnOk result (Writes out.old out.new (word.now ++ signed_decimal number)) }
{
    out.push_str(word)?;
    push_number(out, number)
}

/// Writes how many there are.
pub(crate) fn push_count(out: &mut String, count: usize) -> Result<(), AllocError>
    ensures { OnOk result (Writes out.old out.new (decimal count)) }
{
    write!(out, "{count}")?;
    Ok(())
}

/// Writes a name.
pub(crate) fn push_name(out: &mut String, name: &Name) -> Result<(), AllocError>
    ensures { OnOk result (Writes out.old out.new (spec.name_text name.now)) }
{
    match name {
        Name::Word(word) => out.push_str(word.as_str()),
        Name::Variable { name, node } => {
            out.push_str(name.as_str())?;
            out.push_str("@")?;
            push_number(out, *node)
        }
        Name::Queue { from, to } => push_queue(out, *from, *to),
    }
}

/// Writes the name of what waits on a channel.
fn push_queue(out: &mut String, from: i64, to: i64) -> Result<(), AllocError>
    ensures { OnOk result (Writes out.old out.new
        (codes "queue(" ++ (signed_decimal from ++ (codes ", " ++ (signed_decimal to ++ codes ")"))))) }
{
    out.push_str("queue(")?;
    push_number(out, from)?;
    out.push_str(", ")?;
    push_number(out, to)?;
    out.push_str(")")
}

/// Writes the sign of an operator, with spaces round it, or the first bracket of `m[k]`.
fn push_sign(out: &mut String, operator: BinaryOperator) -> Result<(), AllocError>
    ensures { OnOk result (Writes out.old out.new (spec.sign_text operator)) }
{
    if is_key(operator) {
        out.push_str("[")
    } else {
        push_mark(out, Gap::Spaced, infix_mark(operator))?;
        out.push_str(" ")
    }
}

/// Writes what stands behind the terms of an operator: the last bracket of `m[k]`.
fn push_end(out: &mut String, operator: BinaryOperator) -> Result<(), AllocError>
    ensures { OnOk result (Writes out.old out.new (spec.end_text operator)) }
{
    if is_key(operator) {
        out.push_str("]")
    } else {
        Ok(())
    }
}

/// Whether an operator is that of `m[k]`.
fn is_key(operator: BinaryOperator) -> bool
    ensures { result ≡ spec.is_key operator }
{
    match operator {
        BinaryOperator::At => true,
        _ => false,
    }
}

/// The first bracket of a display.
fn opening(form: DisplayForm) -> &'static str
    ensures { result.now ≡ spec.opening form }
{
    match form {
        DisplayForm::Braces => "{",
        DisplayForm::Brackets => "[",
    }
}

/// The last bracket of a display.
fn closing(form: DisplayForm) -> &'static str
    ensures { result.now ≡ spec.closing form }
{
    match form {
        DisplayForm::Braces => "}",
        DisplayForm::Brackets => "]",
    }
}

/// How tightly a term binds.
fn level_of(term: &Checked) -> usize
    ensures { result ≡ spec.level_of (term_of term.now) }
{
    match term {
        Checked::One(operator, _) => prefix_level(*operator),
        Checked::Two(operator, _, _) => level(*operator),
        _ => ATOM_LEVEL,
    }
}

/// The level of an operator before a term.
fn prefix_level(operator: UnaryOperator) -> usize
    ensures { result ≡ levels.prefix_level operator }
{
    match operator {
        UnaryOperator::Not => 5,
        UnaryOperator::Negative => 11,
    }
}

/// The level of an operator between two terms.
fn level(operator: BinaryOperator) -> usize
    ensures { result ≡ levels.level operator }
{
    match operator {
        BinaryOperator::Equivalent => 1,
        BinaryOperator::Implies => 2,
        BinaryOperator::Or => 3,
        BinaryOperator::And => 4,
        BinaryOperator::Equal => 6,
        BinaryOperator::NotEqual => 6,
        BinaryOperator::Less => 6,
        BinaryOperator::AtMost => 6,
        BinaryOperator::Greater => 6,
        BinaryOperator::AtLeast => 6,
        BinaryOperator::Member => 6,
        BinaryOperator::Prepend => 7,
        BinaryOperator::Append => 8,
        BinaryOperator::Concatenate => 8,
        BinaryOperator::Plus => 9,
        BinaryOperator::Minus => 9,
        BinaryOperator::Times => 10,
        BinaryOperator::At => POSTFIX_LEVEL,
    }
}

/// How loosely the first term of an operator may bind without round brackets.
fn left_level(operator: BinaryOperator) -> usize
    ensures { result ≡ levels.left_level operator }
{
    match operator {
        BinaryOperator::Equivalent => 1,
        BinaryOperator::Implies => 3,
        BinaryOperator::Or => 3,
        BinaryOperator::And => 4,
        BinaryOperator::Equal => 7,
        BinaryOperator::NotEqual => 7,
        BinaryOperator::Less => 7,
        BinaryOperator::AtMost => 7,
        BinaryOperator::Greater => 7,
        BinaryOperator::AtLeast => 7,
        BinaryOperator::Member => 7,
        BinaryOperator::Prepend => 8,
        BinaryOperator::Append => 8,
        BinaryOperator::Concatenate => 8,
        BinaryOperator::Plus => 9,
        BinaryOperator::Minus => 9,
        BinaryOperator::Times => 10,
        BinaryOperator::At => POSTFIX_LEVEL,
    }
}

/// The same of the second term. That of `m[k]` stands in brackets of its own.
fn right_least(operator: BinaryOperator) -> usize
    ensures { result ≡ spec.right_least operator }
{
    match operator {
        BinaryOperator::Equivalent => 2,
        BinaryOperator::Implies => 2,
        BinaryOperator::Or => 4,
        BinaryOperator::And => 5,
        BinaryOperator::Equal => 7,
        BinaryOperator::NotEqual => 7,
        BinaryOperator::Less => 7,
        BinaryOperator::AtMost => 7,
        BinaryOperator::Greater => 7,
        BinaryOperator::AtLeast => 7,
        BinaryOperator::Member => 7,
        BinaryOperator::Prepend => 7,
        BinaryOperator::Append => 9,
        BinaryOperator::Concatenate => 9,
        BinaryOperator::Plus => 10,
        BinaryOperator::Minus => 10,
        BinaryOperator::Times => 11,
        BinaryOperator::At => 0,
    }
}
