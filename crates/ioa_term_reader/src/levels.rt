//! The operators of terms as tables: their marks, how tightly they bind, and how they group.

ghost use Rattle.std.specs.List.{find};
ghost use Rattle.std.specs.Option.{option_map};
ghost use Rattle.std.specs.Prelude.{◌≡◌, ◌≤◌};
ghost use Rattle.ioa_tokens.specs.Tables.{same_mark};
ghost use Rattle.ioa_term_reader.specs.Levels as spec;
ghost use Rattle.ioa_term_reader.specs.declared.after.After.TheVariants.{Infix};
ghost use Rattle.ioa_term_reader.specs.Reading as reading;

use crate::after::After;
use ioa_cursor::Tokens;
use ioa_terms::{BinaryOperator, UnaryOperator};
use ioa_tokens::Mark;

/// The loosest level: `<=>`.
pub(crate) const LOOSEST_LEVEL: usize = 1;

/// The level of `.f` and `[k]` behind a term.
const POSTFIX_LEVEL: usize = 12;

/// The level of numbers, words, calls, displays and of terms in brackets.
pub(crate) const ATOM_LEVEL: usize = 13;

/// How the operators of a level group if several come one after another. Source: profile.
#[derive(Clone, Copy, Debug, PartialEq, Eq)]
enum Groups {
    /// The first two terms first.
    FromLeft,
    /// The last two terms first.
    FromRight,
    /// Not at all: one such operator at most.
    NoGrouping,
}

/// An operator between two terms: its mark, its level, and how it groups with others of its level.
#[derive(Clone, Copy, Debug, PartialEq, Eq)]
struct InfixRow {
    mark: Mark,
    level: usize,
    groups: Groups,
}

/// An operator before a term: its mark and its level.
#[derive(Clone, Copy, Debug, PartialEq, Eq)]
struct PrefixRow {
    mark: Mark,
    level: usize,
}

/// The operators that are written between their two terms: all but `m[k]`.
static INFIX_OPERATORS: [BinaryOperator; 17] = [
    BinaryOperator::Equivalent,
    BinaryOperator::Implies,
    BinaryOperator::Or,
    BinaryOperator::And,
    BinaryOperator::Equal,
    BinaryOperator::NotEqual,
    BinaryOperator::Less,
    BinaryOperator::AtMost,
    BinaryOperator::Greater,
    BinaryOperator::AtLeast,
    BinaryOperator::Member,
    BinaryOperator::Prepend,
    BinaryOperator::Append,
    BinaryOperator::Concatenate,
    BinaryOperator::Plus,
    BinaryOperator::Minus,
    BinaryOperator::Times,
];

/// The operators before a term.
static PREFIX_OPERATORS: [UnaryOperator; 2] = [UnaryOperator::Not, UnaryOperator::Negative];

/// A row of the operators between two terms.
fn row(mark: Mark, level: usize, groups: Groups) -> InfixRow
    ensures { result ≡ record { mark = mark; level = level; groups = groups } }
{
    InfixRow {
        mark,
        level,
        groups,
    }
}

/// The row of an operator between two terms; for `m[k]` the mark is the first bracket.
fn infix_row(operator: BinaryOperator) -> InfixRow
    ensures { result ≡ spec.infix_row operator }
{
    match operator {
        BinaryOperator::Equivalent => row(Mark::Equivalent, 1, Groups::FromLeft),
        BinaryOperator::Implies => row(Mark::Implies, 2, Groups::FromRight),
        BinaryOperator::Or => row(Mark::Or, 3, Groups::FromLeft),
        BinaryOperator::And => row(Mark::And, 4, Groups::FromLeft),
        BinaryOperator::Equal => row(Mark::Equal, 6, Groups::NoGrouping),
        BinaryOperator::NotEqual => row(Mark::NotEqual, 6, Groups::NoGrouping),
        BinaryOperator::Less => row(Mark::Less, 6, Groups::NoGrouping),
        BinaryOperator::AtMost => row(Mark::AtMost, 6, Groups::NoGrouping),
        BinaryOperator::Greater => row(Mark::Greater, 6, Groups::NoGrouping),
        BinaryOperator::AtLeast => row(Mark::AtLeast, 6, Groups::NoGrouping),
        BinaryOperator::Member => row(Mark::Member, 6, Groups::NoGrouping),
        BinaryOperator::Prepend => row(Mark::Prepend, 7, Groups::FromRight),
        BinaryOperator::Append => row(Mark::Append, 8, Groups::FromLeft),
        BinaryOperator::Concatenate => row(Mark::Concatenate, 8, Groups::FromLeft),
        BinaryOperator::Plus => row(Mark::Plus, 9, Groups::FromLeft),
        BinaryOperator::Minus => row(Mark::Minus, 9, Groups::FromLeft),
        BinaryOperator::Times => row(Mark::Times, 10, Groups::FromLeft),
        BinaryOperator::At => row(Mark::OpenSquare, POSTFIX_LEVEL, Groups::FromLeft),
    }
}

/// The row of an operator before a term.
fn prefix_row(operator: UnaryOperator) -> PrefixRow
    ensures { result ≡ spec.prefix_row operator }
{
    let (mark, level) = match operator {
        UnaryOperator::Not => (Mark::Not, 5),
        UnaryOperator::Negative => (Mark::Minus, 11),
    };
    PrefixRow { mark, level }
}

/// The mark of an operator between two terms; for `m[k]` the first bracket.
pub fn infix_mark(operator: BinaryOperator) -> Mark
    ensures { result ≡ spec.infix_mark operator }
{
    infix_row(operator).mark
}

/// The mark of an operator before a term.
pub fn prefix_mark(operator: UnaryOperator) -> Mark
    ensures { result ≡ spec.prefix_mark operator }
{
    prefix_row(operator).mark
}

/// The first of several operators between two terms that has a mark.
fn infix_with_mark(operators: &[BinaryOperator], mark: Mark) -> Option<BinaryOperator>
    ensures { result ≡ find (λ op. same_mark (spec.infix_mark op) mark) operators.now }
{
    for operator in operators {
        if infix_mark(*operator) == mark {
            return Some(*operator);
        }
    }
    None
}

/// The first of several operators before a term that has a mark.
fn prefix_with_mark(operators: &[UnaryOperator], mark: Mark) -> Option<UnaryOperator>
    ensures { result ≡ find (λ op. same_mark (spec.prefix_mark op) mark) operators.now }
{
    for operator in operators {
        if prefix_mark(*operator) == mark {
            return Some(*operator);
        }
    }
    None
}

/// The operator that a mark is between two terms.
fn infix_of(mark: Mark) -> Option<BinaryOperator>
    ensures { result ≡ spec.infix_of mark }
{
    infix_with_mark(&INFIX_OPERATORS, mark)
}

/// The operator that a mark is before a term.
pub(crate) fn prefix_of(mark: Mark) -> Option<UnaryOperator>
    ensures { result ≡ spec.prefix_of mark }
{
    prefix_with_mark(&PREFIX_OPERATORS, mark)
}

/// The level of an operator between two terms.
fn level(operator: BinaryOperator) -> usize
    ensures { result ≡ spec.level operator }
{
    infix_row(operator).level
}

/// The level of an operator before a term.
pub(crate) fn prefix_level(operator: UnaryOperator) -> usize
    ensures { result ≡ spec.prefix_level operator }
{
    prefix_row(operator).level
}

/// The loosest level of the left side of an operator of a level.
fn left_side(groups: Groups, level: usize) -> usize
    requires { level ≤ spec.atom_level }
    ensures { result ≡ spec.left_side groups level }
{
    match groups {
        Groups::FromLeft => level,
        Groups::FromRight => level + 1,
        Groups::NoGrouping => level + 1,
    }
}

/// The loosest level of the right side of an operator of a level.
fn right_side(groups: Groups, level: usize) -> usize
    requires { level ≤ spec.atom_level }
    ensures { result ≡ spec.right_side groups level }
{
    match groups {
        Groups::FromLeft => level + 1,
        Groups::FromRight => level,
        Groups::NoGrouping => level + 1,
    }
}

/// The loosest level of the left side of an operator.
fn left_level(operator: BinaryOperator) -> usize
    ensures { result ≡ spec.left_level operator }
{
    let row = infix_row(operator);
    left_side(row.groups, row.level)
}

/// The loosest level of the right side of an operator.
pub(crate) fn right_level(operator: BinaryOperator) -> usize
    ensures { result ≡ spec.right_level operator }
{
    let row = infix_row(operator);
    right_side(row.groups, row.level)
}

/// How a term goes on behind the mark of an operator.
fn infix_after(mark: Mark) -> Option<After>
    ensures { result ≡ option_map Infix (spec.infix_of mark) }
{
    match infix_of(mark) {
        Some(operator) => Some(After::Infix(operator)),
        None => None,
    }
}

/// How a term goes on behind a mark.
fn after_of(mark: Mark) -> Option<After>
    ensures { result ≡ reading.after_of mark }
{
    match mark {
        Mark::Dot => Some(After::Field),
        Mark::OpenSquare => Some(After::Key),
        _ => infix_after(mark),
    }
}

/// The level of a term that has gone on so.
pub(crate) fn level_of(after: After) -> usize
    ensures { result ≡ reading.level_of after }
{
    match after {
        After::Infix(operator) => level(operator),
        After::Field => POSTFIX_LEVEL,
        After::Key => POSTFIX_LEVEL,
    }
}

/// The loosest level of a term that goes on so.
fn left_of(after: After) -> usize
    ensures { result ≡ reading.left_of after }
{
    match after {
        After::Infix(operator) => left_level(operator),
        After::Field => POSTFIX_LEVEL,
        After::Key => POSTFIX_LEVEL,
    }
}

/// How a term of level `most` goes on if no operator looser than `least` is allowed.
#[tactic(auto, unfolding(crate::specs::Reading::accepted_after, crate::specs::bind, crate::specs::choose))]
pub(crate) fn accepted_after(tokens: &Tokens<'_>, least: usize, most: usize) -> Option<After>
    ensures { result ≡ reading.accepted_after least most tokens.now }
{
    let after = after_of(tokens.peek_mark()?)?;
    if least <= level_of(after) && left_of(after) <= most {
        Some(after)
    } else {
        None
    }
}
