//! How high trees are.

ghost use Rattle.std.specs.Prelude.{ℕ, map};
ghost use Rattle.ioa_source.specs.Heights as heights;
ghost use Rattle.ioa_terms.specs.View.{term_of, target_of, statement_of, arm_of};

use ioa_terms::{Arm, Statement, Target, Term};

/// How high the tree of a term or a statement may be. Source: profile.
pub const HEIGHT_LIMIT: usize = 64;

/// What a text has that is a tree, or several trees. Its height is no number that runs: who builds a
/// tree keeps it. Source: profile.
pub trait HasHeight {
    /// How high it is.
    ghost height: { Self → ℕ };
}

impl HasHeight for Term {
    ghost height = { λ t. heights.height (term_of t) };
}

impl HasHeight for Target<(), (), ()> {
    ghost height = { λ t. heights.target_height (target_of t) };
}

impl HasHeight for Statement<(), (), ()> {
    ghost height = { λ s. heights.statement_height (statement_of s) };
}

impl HasHeight for Arm<(), (), ()> {
    ghost height = { λ a. heights.arm_height (arm_of a) };
}

impl<T: HasHeight> HasHeight for Vec<T> {
    ghost height = { λ v. heights.highest (map T.height v.items) };
}
