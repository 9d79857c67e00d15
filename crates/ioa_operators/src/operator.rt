//! The operators and functions of the language (profile).

/// An operator before a term.
#[derive(Clone, Copy, Debug, PartialEq, Eq)]
pub enum UnaryOperator {
    /// `~`: the other truth value.
    Not,
    /// `-`: the number with the other sign.
    Negative,
}

/// An operator between two terms.
#[derive(Clone, Copy, Debug, PartialEq, Eq)]
pub enum BinaryOperator {
    /// `<=>`: whether two truth values are the same.
    Equivalent,
    /// `=>`: true if the left side is false.
    Implies,
    /// `\/`: true if the left side is true.
    Or,
    /// `/\`: false if the left side is false.
    And,
    /// `=`: whether two values are the same.
    Equal,
    /// `~=`: whether two values differ.
    NotEqual,
    /// `<`: whether a number is below another.
    Less,
    /// `<=`: whether a number is below another or the same.
    AtMost,
    /// `>`: whether a number is above another.
    Greater,
    /// `>=`: whether a number is above another or the same.
    AtLeast,
    /// `\in`: whether a value is an item of a sequence or a member of a set.
    Member,
    /// `-|`: a value, and then the items of a sequence.
    Prepend,
    /// `|-`: the items of a sequence, and then a value.
    Append,
    /// `||`: the items of two sequences.
    Concatenate,
    /// `+`: the sum of two numbers.
    Plus,
    /// `-`: the difference of two numbers.
    Minus,
    /// `*`: the product of two numbers.
    Times,
    /// `m[k]`: the value of a map at a key.
    At,
}

/// A function that a term may call.
#[derive(Clone, Copy, Debug, PartialEq, Eq)]
pub enum Function {
    /// `head(s)`: the first item of a sequence.
    Head,
    /// `tail(s)`: the items of a sequence but the first.
    Tail,
    /// `len(s)`: how many items a sequence has.
    Length,
    /// `size(s)`: how many members a set has, or how many keys a map has.
    Size,
    /// `div(x, y)`: the quotient, rounded down, of a divisor of at least 1.
    Quotient,
    /// `mod(x, y)`: what the quotient leaves, from 0 to the divisor less 1.
    Remainder,
    /// `insert(e, s)`: a set with one more member.
    Insert,
    /// `delete(e, s)`: a set without a member.
    Delete,
    /// `union(s, t)`: the members of either of two sets.
    Union,
    /// `update(m, k, v)`: a map in which a key has a value.
    Update,
    /// `remove(m, k)`: a map without a key.
    Remove,
    /// `defined(m, k)`: whether a map has a key.
    Defined,
}
