//! Terms and statements as trees, with annotations beside names and displays.

use crate::callee::Callee;
use crate::name::Name;
use crate::sort::Sort;
use ioa_operators::{BinaryOperator, DisplayForm, Shape, UnaryOperator};
use ioa_values::Word;

/// The kind of an action in a signature (Lynch 8.1).
#[derive(Clone, Copy, Debug, PartialEq, Eq)]
pub enum Kind {
    /// Put in by the environment; never refused by a guard.
    Input,
    /// Put out by the automaton.
    Output,
    /// Seen by nobody else.
    Internal,
}

/// A term. `N` is the annotation of a name: in a text nothing, in a checked system the slot of the name's
/// value. `C` is the annotation of a call: in a text nothing, in a checked system what is called. `D` is the
/// annotation of a display, a field and an assigned variable: in a text nothing, in a checked system the
/// shape of its values.
pub enum Tree<N, C, D> {
    /// A number.
    Number(i64),
    /// `true` or `false`.
    Truth(bool),
    /// What a name has.
    Name(Name, N),
    /// An operator before a term.
    One(UnaryOperator, Box<Tree<N, C, D>>),
    /// An operator between two terms, the left one first.
    Two(BinaryOperator, Box<Tree<N, C, D>>, Box<Tree<N, C, D>>),
    /// `f(t, u)`: a function of the terms' values, or what waits in an inbox.
    Call(Word, C, Vec<Tree<N, C, D>>),
    /// `{t, u}` or `[t, u]`, with the shape that it has.
    Display(DisplayForm, D, Vec<Tree<N, C, D>>),
    /// `t.f`: a field, with the shape of the tuple.
    Field(Box<Tree<N, C, D>>, Word, D),
}

/// By hand, so that crates above do not prove again how the parts are let go (DECISIONS).
impl<N: Drop, C: Drop, D: Drop> Drop for Tree<N, C, D> {
    fn drop(self) {
        match self {
            Tree::Number(_)
            | Tree::Truth(_)
            | Tree::Name(_, _)
            | Tree::One(_, _)
            | Tree::Two(_, _, _)
            | Tree::Call(_, _, _)
            | Tree::Display(_, _, _)
            | Tree::Field(_, _, _) => {}
        }
    }
}

/// A term as a text spells it.
pub type Term = Tree<(), (), ()>;

/// A term of a checked system: each name has the slot of its value in the environment, and each call what is called.
pub type Checked = Tree<usize, Callee, Shape>;

/// The target of an assignment (profile), with the shape of the variable.
pub enum Target<N, C, D> {
    /// `x`: a variable.
    Variable(Word, N, D),
    /// `x[t]`: the value of a map at a key.
    At(Word, N, D, Tree<N, C, D>),
    /// `x.f`: a field of a tuple.
    Field(Word, N, D, Word),
}

/// By hand, so that crates above do not prove again how the parts are let go (DECISIONS).
impl<N: Drop, C: Drop, D: Drop> Drop for Target<N, C, D> {
    fn drop(self) {
        match self {
            Target::Variable(_, _, _) | Target::At(_, _, _, _) | Target::Field(_, _, _, _) => {}
        }
    }
}

/// `t then s`, an arm of an `if`.
#[cycle(statement)]
pub struct Arm<N, C, D> {
    /// The test.
    pub test: Tree<N, C, D>,
    /// The statements that are performed if the test is true.
    pub body: Vec<Statement<N, C, D>>,
}

/// By hand, so that crates above do not prove again how the parts are let go (DECISIONS).
impl<N: Drop, C: Drop, D: Drop> Drop for Arm<N, C, D> {
    #[cycle(letting_go)]
    fn drop(self) {
        let Arm { test: _, body: _ } = self;
    }
}

/// `fire a(t, u)`: what a schedule block asks for (profile).
pub struct Firing<N, C, D> {
    /// The kind of the action, if it is written.
    pub kind: Option<Kind>,
    /// The name of the action.
    pub action: Word,
    /// What is beside the name: nothing in a text, the number of the rule in a checked tree.
    pub rule: N,
    /// The terms of its arguments.
    pub arguments: Vec<Tree<N, C, D>>,
}

/// By hand, so that crates above do not prove again how the parts are let go (DECISIONS).
impl<N: Drop, C: Drop, D: Drop> Drop for Firing<N, C, D> {
    fn drop(self) {
        let Firing {
            kind: _,
            action: _,
            rule: _,
            arguments: _,
        } = self;
    }
}

/// `p := choose x: S where t yield u`: a value that an effect chooses (profile). Only in an effect.
pub struct Choice<N, C, D> {
    /// What is assigned.
    pub target: Target<N, C, D>,
    /// The name that the value has in the condition.
    pub name: Word,
    /// The sort of the value, as spelled.
    pub sort: Sort,
    /// What is beside the sort: nothing in a text, the shape of the value in a checked tree.
    pub shape: D,
    /// What has to be true of the value.
    pub condition: Tree<N, C, D>,
    /// What gives the value if none is given.
    pub yields: Tree<N, C, D>,
}

/// By hand, so that crates above do not prove again how the parts are let go (DECISIONS).
impl<N: Drop, C: Drop, D: Drop> Drop for Choice<N, C, D> {
    fn drop(self) {
        let Choice {
            target: _,
            name: _,
            sort: _,
            shape: _,
            condition: _,
            yields: _,
        } = self;
    }
}

/// A statement of an effect or of a schedule block (profile). In an effect `while` and `fire` have no
/// meaning: the grammar has no such effect.
#[cycle(statement)]
pub enum Statement<N, C, D> {
    /// `x := t`.
    Assign(Target<N, C, D>, Tree<N, C, D>),
    /// `if t then s elseif u then s else s fi`: the first arm whose test is true, or the rest.
    If(Vec<Arm<N, C, D>>, Vec<Statement<N, C, D>>),
    /// `while t do s od`: the statements as long as the test is true. Only in a schedule block.
    While(Tree<N, C, D>, Vec<Statement<N, C, D>>),
    /// `fire a(t, u)`. Only in a schedule block.
    Fire(Firing<N, C, D>),
    /// `p := choose x: S where t yield u`. Only in an effect.
    Choose(Box<Choice<N, C, D>>),
}

/// By hand, so that crates above do not prove again how the parts are let go (DECISIONS).
impl<N: Drop, C: Drop, D: Drop> Drop for Statement<N, C, D> {
    #[cycle(letting_go)]
    fn drop(self) {
        match self {
            Statement::Assign(_, _)
            | Statement::If(_, _)
            | Statement::While(_, _)
            | Statement::Fire(_)
            | Statement::Choose(_) => {}
        }
    }
}
