//! Where a block stands.

ghost use Rattle.std.specs.Prelude.{◌≡◌, length};

use crate::lists::{copy_lists, first_list};
use ioa_terms::{Callee, Shape, Statement};
use std::alloc::{AllocError, Global};

/// Where a block stands: what it has still to do, as lists of statements that the block itself keeps. The list
/// at the top comes first, and then those below, the last one first; there is one below for each `if` or
/// `while` around the first statement at most.
#[derive(Drop)]
pub struct Position<'a> {
    top: &'a [Statement<usize, Callee, Shape>],
    below: Vec<&'a [Statement<usize, Callee, Shape>]>,
    ghost none_below: { length top.now ≡ 0 → length below.items ≡ 0 },
}

impl<'a> Position<'a> {
    ghost use Rattle.std.specs.Prelude.{IfOk, IsTrue, MatchOption, OnOk};
    ghost use Rattle.ioa_terms.specs.PlainTerm.{no_statements};
    ghost use Rattle.ioa_terms.specs.View.{statement_of};
    ghost use Rattle.ioa_schedules.specs.Turns.{joined_statements, following_statements, IsFirst};
    ghost use Rattle.ioa_schedules.specs.Positions.{IsEndOf, bottom_of, statements_in, statements_at};

    /// The position at which all of a block is to do.
    #[tactic(auto, using(crate::proofs::Joins::joined_none))]
    pub fn start(alloc: Global, statements: &'a [Statement<usize, Callee, Shape>]) -> Self
        ensures { statements_at result ≡ statements_in statements.now }
    {
        Position {
            top: statements,
            below: Vec::new(alloc),
        }
    }

    /// Moves to the statements of another position. If no memory is left, the position is some position.
    #[inline(always)]
    pub fn copy_from(&mut self, other: &Position<'a>) -> Result<(), AllocError>
        ensures same { OnOk result (statements_at self.new ≡ statements_at other.now) }
        ensures bottom { OnOk result (bottom_of self.new ≡ bottom_of other.now) }
    {
        self.top = other.top;
        copy_lists(&other.below, &mut self.below)
    }

    /// The first statement, if there is one.
    #[inline(always)]
    pub fn first(&self) -> Option<&'a Statement<usize, Callee, Shape>>
        ensures { MatchOption result (statements_at self.now ≡ no_statements)
            (λ s. IsFirst (statement_of s.now) (statements_at self.now)) }
    {
        match self.top.split_first() {
            None => None,
            Some((first, _)) => Some(first),
        }
    }

    /// Moves behind the first statement.
    #[inline(always)]
    #[tactic(auto, using(crate::proofs::Joins::nothing_left, crate::proofs::Ends::behind_first, crate::proofs::Ends::own_end))]
    pub fn advance(&mut self)
        ensures behind { statements_at self.new ≡ following_statements (statements_at self.old) }
        ensures end { IsEndOf (bottom_of self.new) (bottom_of self.old) }
    {
        match self.top.split_first() {
            None => {}
            Some((_, rest)) => self.top = first_list(rest, &mut self.below),
        }
    }

    /// Puts a list in the place of the first statement.
    #[tactic(auto, using(crate::proofs::Joins::below_last, crate::proofs::Joins::nothing_follows, crate::proofs::Ends::in_place))]
    pub fn enter(&mut self, body: &'a [Statement<usize, Callee, Shape>]) -> Result<(), AllocError>
        ensures entered { IfOk result (λ _. statements_at self.new
            ≡ joined_statements (statements_in body.now) (following_statements (statements_at self.old))) }
        ensures end { (statements_at self.old ≡ no_statements → ⊥) →
            OnOk result (IsEndOf (bottom_of self.new) (bottom_of self.old)) }
    {
        match self.top.split_first() {
            None => {}
            Some((_, rest)) => self.below.push(rest)?,
        }
        self.top = first_list(body, &mut self.below);
        Ok(())
    }

    /// Puts a list in front of the first statement.
    #[inline(always)]
    #[tactic(auto, using(crate::proofs::Joins::below_last, crate::proofs::Ends::in_front))]
    pub fn enter_before(
        &mut self,
        body: &'a [Statement<usize, Callee, Shape>],
    ) -> Result<(), AllocError>
        ensures entered { IfOk result (λ _. statements_at self.new
            ≡ joined_statements (statements_in body.now) (statements_at self.old)) }
        ensures end { OnOk result (IsEndOf (bottom_of self.new) (bottom_of self.old)) }
    {
        self.below.push(self.top)?;
        self.top = first_list(body, &mut self.below);
        Ok(())
    }

    /// Whether the block stands here again where it stood at another position, by how much of its own list is left. It
    /// is told only of positions in that list, and not of those in the body of an `if` or a `while`. It takes constant
    /// time.
    #[tactic(auto, using(crate::proofs::Ends::same_end))]
    pub fn is_back_at(&self, other: &Position) -> bool
        ensures { IsTrue result → IsEndOf (bottom_of self.now) (bottom_of other.now) →
            statements_at self.now ≡ statements_at other.now }
    {
        self.below.is_empty() && other.below.is_empty() && self.top.len() == other.top.len()
    }
}
