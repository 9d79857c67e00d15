//! How a term goes on behind an operand.

use ioa_terms::BinaryOperator;

/// What a mark behind a term begins.
#[derive(Clone, Copy, Debug, PartialEq, Eq)]
pub(crate) enum After {
    /// An operator between two terms.
    Infix(BinaryOperator),
    /// `.f`: a field.
    Field,
    /// `[k]`: a key.
    Key,
}
