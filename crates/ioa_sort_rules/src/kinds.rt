//! The kinds of operators and functions: those of one kind have one rule of sorts.

ghost use Rattle.std.specs.Prelude.{◌≡◌};
ghost use Rattle.ioa_sort_rules.specs.Kinds as spec;

use ioa_operators::{BinaryOperator, Function, UnaryOperator};

/// How a form of one part relates the sorts of its part and of its value (profile).
#[derive(Clone, Copy, Debug, PartialEq, Eq)]
pub enum Single {
    /// Bool to Bool: `~`.
    Truth,
    /// Int to Int: `-` before a term.
    Number,
    /// A sequence to an item: `head`.
    Item,
    /// A sequence to such a sequence: `tail`.
    Rest,
    /// A sequence to Int: `len`.
    Length,
    /// A set or a map to Int: `size`.
    Size,
}

/// How a form whose two parts have one sort relates that sort and the one of its value (profile).
#[derive(Clone, Copy, Debug, PartialEq, Eq)]
pub enum Alike {
    /// Bool to Bool: `<=>`, `=>`, `\/`, `/\`.
    Truths,
    /// Int to Int: `+`, `-`, `*`, `div`, `mod`.
    Numbers,
    /// Int to Bool: `<`, `<=`, `>`, `>=`.
    Order,
    /// Any sort to Bool: `=`, `~=`.
    Equality,
    /// A sequence to such a sequence: `||`.
    Concatenation,
    /// A set to such a set: `union`.
    Union,
}

/// How a form of two parts relates the sorts of its parts and of its value (profile).
#[derive(Clone, Copy, Debug, PartialEq, Eq)]
pub enum Pairing {
    /// Two parts of one sort.
    Both(Alike),
    /// An item and a sequence, or a member and a set, to Bool: `\in`.
    Membership,
    /// An item and a sequence to such a sequence: `-|`.
    Prepend,
    /// A sequence and an item to such a sequence: `|-`.
    Append,
    /// A member and a set to such a set: `insert`, `delete`.
    Members,
    /// A map and a key to a value: `m[k]`.
    At,
    /// A map and a key to such a map: `remove`.
    Removal,
    /// A map and a key to Bool: `defined`.
    Definition,
}

/// How many parts a function takes, and how it relates their sorts (profile).
#[derive(Clone, Copy, Debug, PartialEq, Eq)]
pub enum Arity {
    /// One part.
    One(Single),
    /// Two parts.
    Two(Pairing),
    /// A map, a key and a value to such a map: `update`.
    Update,
}

/// The kind of an operator before a term.
pub fn single_of(operator: UnaryOperator) -> Single
    ensures { result ≡ spec.single_of operator }
{
    match operator {
        UnaryOperator::Not => Single::Truth,
        UnaryOperator::Negative => Single::Number,
    }
}

/// The kind of an operator between two terms.
pub fn pairing_of(operator: BinaryOperator) -> Pairing
    ensures { result ≡ spec.pairing_of operator }
{
    match operator {
        BinaryOperator::Equivalent => Pairing::Both(Alike::Truths),
        BinaryOperator::Implies => Pairing::Both(Alike::Truths),
        BinaryOperator::Or => Pairing::Both(Alike::Truths),
        BinaryOperator::And => Pairing::Both(Alike::Truths),
        BinaryOperator::Equal => Pairing::Both(Alike::Equality),
        BinaryOperator::NotEqual => Pairing::Both(Alike::Equality),
        BinaryOperator::Less => Pairing::Both(Alike::Order),
        BinaryOperator::AtMost => Pairing::Both(Alike::Order),
        BinaryOperator::Greater => Pairing::Both(Alike::Order),
        BinaryOperator::AtLeast => Pairing::Both(Alike::Order),
        BinaryOperator::Member => Pairing::Membership,
        BinaryOperator::Prepend => Pairing::Prepend,
        BinaryOperator::Append => Pairing::Append,
        BinaryOperator::Concatenate => Pairing::Both(Alike::Concatenation),
        BinaryOperator::Plus => Pairing::Both(Alike::Numbers),
        BinaryOperator::Minus => Pairing::Both(Alike::Numbers),
        BinaryOperator::Times => Pairing::Both(Alike::Numbers),
        BinaryOperator::At => Pairing::At,
    }
}

/// The kind of a function.
pub fn arity_of(function: Function) -> Arity
    ensures { result ≡ spec.arity_of function }
{
    match function {
        Function::Head => Arity::One(Single::Item),
        Function::Tail => Arity::One(Single::Rest),
        Function::Length => Arity::One(Single::Length),
        Function::Size => Arity::One(Single::Size),
        Function::Quotient => Arity::Two(Pairing::Both(Alike::Numbers)),
        Function::Remainder => Arity::Two(Pairing::Both(Alike::Numbers)),
        Function::Insert => Arity::Two(Pairing::Members),
        Function::Delete => Arity::Two(Pairing::Members),
        Function::Union => Arity::Two(Pairing::Both(Alike::Union)),
        Function::Update => Arity::Update,
        Function::Remove => Arity::Two(Pairing::Removal),
        Function::Defined => Arity::Two(Pairing::Definition),
    }
}
