//! Whether two terms, targets, statements or firings are the same, whatever memory they are kept in.

ghost use Rattle.std.specs.Prelude.{◌≡◌, ◌↔◌, ◌&&◌, IsTrue, map};
ghost use Rattle.ioa_terms.specs.PlainTerm.{terms_of, statements_of, arms_of};
ghost use Rattle.ioa_terms.specs.SameTerms.{same_term, same_terms, same_target};
ghost use lib.Pointwise.{pointwise};
ghost use Rattle.ioa_terms.specs.SameTerms.{same_statement, same_statements, same_arms, same_firing, same_choice};
ghost use Rattle.ioa_terms.specs.View.{term_of, target_of, statement_of, arm_of, firing_of, choice_of};

use crate::callee::Callee;
use crate::tree::{Arm, Choice, Firing, Statement, Target, Tree};
use ioa_operators::Shape;

impl Tree<usize, Callee, Shape> {
    /// Whether two terms are the same. Costs time in proportion to the shorter one.
    pub fn equals(&self, other: &Self) -> bool
        ensures equality { IsTrue result ↔ (term_of self.now ≡ term_of other.now) }
    {
        is_same_term(self, other)
    }
}

impl Statement<usize, Callee, Shape> {
    /// Whether two statements are the same. Costs time in proportion to the shorter one.
    pub fn equals(&self, other: &Self) -> bool
        ensures equality { IsTrue result ↔ (statement_of self.now ≡ statement_of other.now) }
    {
        is_same_statement(self, other)
    }
}

impl Firing<usize, Callee, Shape> {
    /// Whether two firings are the same. Costs time in proportion to the shorter one.
    pub fn equals(&self, other: &Self) -> bool
        ensures equality { IsTrue result ↔ (firing_of self.now ≡ firing_of other.now) }
    {
        is_same_firing(self, other)
    }
}

/// Whether two terms are the same, by the tests of their annotations.
#[cycle(comparing_terms)]
pub fn is_same_term<N: PartialEq, C: PartialEq, D: PartialEq>(
    term: &Tree<N, C, D>,
    other: &Tree<N, C, D>,
) -> bool
    ensures { result ≡ same_term N.eq C.eq D.eq (term_of term.now) (term_of other.now) }
{
    match (term, other) {
        (Tree::Number(m), Tree::Number(n)) => m == n,
        (Tree::Truth(a), Tree::Truth(b)) => a == b,
        (Tree::Name(w, x), Tree::Name(v, y)) => w == v && x == y,
        (Tree::One(op, a), Tree::One(oq, b)) => op == oq && is_same_term(a, b),
        (Tree::Two(op, a, b), Tree::Two(oq, f, g)) => {
            op == oq && (is_same_term(a, f) && is_same_term(b, g))
        }
        (Tree::Call(w, x, ts), Tree::Call(v, y, us)) => w == v
            && (x == y && are_same_terms(ts, us)),
        (Tree::Display(f, s, ts), Tree::Display(g, t, us)) => {
            f == g && (s == t && are_same_terms(ts, us))
        }
        (Tree::Field(a, w, s), Tree::Field(b, v, t)) => is_same_term(a, b) && (w == v && s == t),
        _ => false,
    }
}

/// Whether terms are the same, one by one, and as many.
#[cycle(comparing_terms)]
pub fn are_same_terms<N: PartialEq, C: PartialEq, D: PartialEq>(
    terms: &Vec<Tree<N, C, D>>,
    others: &Vec<Tree<N, C, D>>,
) -> bool
    ensures { result ≡ same_terms N.eq C.eq D.eq (terms_of (map term_of terms.now.items))
        (terms_of (map term_of others.now.items)) }
{
    for position in 0..terms.len().min(others.len()) {
        if !is_same_term(&terms[position], &others[position]) {
            return false;
        }
    }
    terms.len() == others.len()
}

/// Whether two targets are the same.
fn is_same_target<N: PartialEq, C: PartialEq, D: PartialEq>(
    target: &Target<N, C, D>,
    other: &Target<N, C, D>,
) -> bool
    ensures { result ≡ same_target N.eq C.eq D.eq (target_of target.now) (target_of other.now) }
{
    match (target, other) {
        (Target::Variable(w, x, s), Target::Variable(v, y, t)) => w == v && (x == y && s == t),
        (Target::At(w, x, s, a), Target::At(v, y, t, b)) => {
            w == v && (x == y && (s == t && is_same_term(a, b)))
        }
        (Target::Field(w, x, s, f), Target::Field(v, y, t, g)) => {
            w == v && (x == y && (s == t && f == g))
        }
        _ => false,
    }
}

/// Whether two choices are the same, by the tests of their annotations.
fn is_same_choice<N: PartialEq, C: PartialEq, D: PartialEq>(
    choice: &Choice<N, C, D>,
    other: &Choice<N, C, D>,
) -> bool
    ensures { result ≡ same_choice N.eq C.eq D.eq (choice_of choice.now) (choice_of other.now) }
{
    is_same_target(&choice.target, &other.target)
        && (choice.name == other.name
            && (choice.sort.is_same(&other.sort)
                && (choice.shape == other.shape
                    && (is_same_term(&choice.condition, &other.condition)
                        && is_same_term(&choice.yields, &other.yields)))))
}

/// Whether two statements are the same, by the tests of their annotations.
#[cycle(comparing_statements)]
pub fn is_same_statement<N: PartialEq, C: PartialEq, D: PartialEq>(
    statement: &Statement<N, C, D>,
    other: &Statement<N, C, D>,
) -> bool
    ensures { result ≡ same_statement N.eq C.eq D.eq (statement_of statement.now) (statement_of other.now) }
{
    match (statement, other) {
        (Statement::Assign(p, t), Statement::Assign(q, u)) => {
            is_same_target(p, q) && is_same_term(t, u)
        }
        (Statement::If(xs, ss), Statement::If(ys, ts)) => {
            are_same_arms(xs, ys) && are_same_statements(ss, ts)
        }
        (Statement::While(t, ss), Statement::While(u, ts)) => {
            is_same_term(t, u) && are_same_statements(ss, ts)
        }
        (Statement::Fire(f), Statement::Fire(g)) => is_same_firing(f, g),
        (Statement::Choose(a), Statement::Choose(b)) => is_same_choice(a, b),
        _ => false,
    }
}

/// Whether statements are the same, one by one, and as many.
#[cycle(comparing_statements)]
pub fn are_same_statements<N: PartialEq, C: PartialEq, D: PartialEq>(
    statements: &Vec<Statement<N, C, D>>,
    others: &Vec<Statement<N, C, D>>,
) -> bool
    ensures { result ≡ same_statements N.eq C.eq D.eq (statements_of (map statement_of statements.now.items))
        (statements_of (map statement_of others.now.items)) }
{
    for position in 0..statements.len().min(others.len()) {
        if !is_same_statement(&statements[position], &others[position]) {
            return false;
        }
    }
    statements.len() == others.len()
}

/// Whether arms are the same, one by one, and as many.
#[cycle(comparing_statements)]
fn are_same_arms<N: PartialEq, C: PartialEq, D: PartialEq>(
    arms: &Vec<Arm<N, C, D>>,
    others: &Vec<Arm<N, C, D>>,
) -> bool
    ensures { result ≡ same_arms N.eq C.eq D.eq (arms_of (map arm_of arms.now.items))
        (arms_of (map arm_of others.now.items)) }
{
    for position in 0..arms.len().min(others.len()) {
        if !is_same_arm(&arms[position], &others[position]) {
            return false;
        }
    }
    arms.len() == others.len()
}

/// Whether two arms are the same.
#[cycle(comparing_statements)]
fn is_same_arm<N: PartialEq, C: PartialEq, D: PartialEq>(
    arm: &Arm<N, C, D>,
    other: &Arm<N, C, D>,
) -> bool
    ensures { result ≡ (same_term N.eq C.eq D.eq (term_of arm.now.test) (term_of other.now.test)
        && same_statements N.eq C.eq D.eq (arm_of arm.now).1 (arm_of other.now).1) }
{
    is_same_term(&arm.test, &other.test) && are_same_statements(&arm.body, &other.body)
}

/// Whether two firings are the same, by the tests of their annotations.
pub fn is_same_firing<N: PartialEq, C: PartialEq, D: PartialEq>(
    firing: &Firing<N, C, D>,
    other: &Firing<N, C, D>,
) -> bool
    ensures { result ≡ same_firing N.eq C.eq D.eq (firing_of firing.now) (firing_of other.now) }
{
    firing.kind == other.kind
        && (firing.action == other.action
            && (firing.rule == other.rule && are_same_terms(&firing.arguments, &other.arguments)))
}

/// Whether firings are the same, one by one, and as many.
pub fn are_same_firings<N: PartialEq, C: PartialEq, D: PartialEq>(
    firings: &Vec<Firing<N, C, D>>,
    others: &Vec<Firing<N, C, D>>,
) -> bool
    ensures { result ≡ pointwise (same_firing N.eq C.eq D.eq) (map firing_of firings.now.items)
        (map firing_of others.now.items) }
{
    for position in 0..firings.len().min(others.len()) {
        if !is_same_firing(&firings[position], &others[position]) {
            return false;
        }
    }
    firings.len() == others.len()
}
