//! The pieces of statements and blocks.

ghost use Rattle.std.specs.Prelude.{◌≡◌, map};
ghost use Rattle.ioa_terms.specs.PlainTerm.{arms_of, assign, fire};
ghost use Rattle.ioa_terms.specs.View.{term_of, target_of, statement_of, arm_of, choice_of, firing_of};
ghost use Rattle.ioa_front.specs.Pieces.{Puts};
ghost use Rattle.ioa_front.specs.Spelling as spec;

use crate::declarations::put_sort;
use crate::piece::Pieces;
use crate::terms::{put_bracketed, put_term};
use ioa_terms::{Arm, Choice, Firing, Kind, Statement, Target, Term};
use ioa_tokens::Mark;
use ioa_values::Word;
use std::alloc::AllocError;

/// The word of a kind.
pub(crate) fn kind_mark(kind: Kind) -> Mark
    ensures { result ≡ spec.kind_mark kind }
{
    match kind {
        Kind::Input => Mark::Input,
        Kind::Output => Mark::Output,
        Kind::Internal => Mark::Internal,
    }
}

/// Puts a kind, if one is written.
fn put_kind<'a>(out: &mut Pieces<'a>, kind: Option<Kind>) -> Result<(), AllocError>
    ensures { Puts (spec.kind_spelling kind) result out.old out.new }
{
    match kind {
        None => Ok(()),
        Some(kind) => out.put_mark(kind_mark(kind)),
    }
}

/// Puts a name with its arguments.
pub(crate) fn put_call<'a>(
    out: &mut Pieces<'a>,
    name: &'a Word,
    arguments: &'a [Term],
) -> Result<(), AllocError>
    ensures { Puts (spec.call_spelling name.now (map term_of arguments.now)) result out.old out.new }
{
    out.put_word(name)?;
    put_bracketed(out, arguments)
}

/// Puts the target of an assignment.
fn put_target<'a>(out: &mut Pieces<'a>, target: &'a Target<(), (), ()>) -> Result<(), AllocError>
    ensures { Puts (spec.target_spelling (target_of target.now)) result out.old out.new }
{
    match target {
        Target::Variable(name, _, _) => out.put_word(name),
        Target::At(name, _, _, key) => {
            out.put_word(name)?;
            out.put_mark(Mark::OpenSquare)?;
            put_term(out, key)?;
            out.put_mark(Mark::CloseSquare)
        }
        Target::Field(name, _, _, field) => {
            out.put_word(name)?;
            out.put_mark(Mark::Dot)?;
            out.put_word(field)
        }
    }
}

/// Puts the firing of an action.
fn put_firing<'a>(out: &mut Pieces<'a>, firing: &'a Firing<(), (), ()>) -> Result<(), AllocError>
    ensures { Puts (spec.statement_spelling (fire (firing_of firing.now))) result out.old out.new }
{
    out.put_mark(Mark::Fire)?;
    put_kind(out, firing.kind)?;
    put_call(out, &firing.action, &firing.arguments)
}

/// Puts an assignment.
fn put_assignment<'a>(
    out: &mut Pieces<'a>,
    target: &'a Target<(), (), ()>,
    term: &'a Term,
) -> Result<(), AllocError>
    ensures { Puts (spec.statement_spelling (assign (target_of target.now) (term_of term.now))) result out.old out.new }
{
    put_target(out, target)?;
    out.put_mark(Mark::Assign)?;
    put_term(out, term)
}

/// Puts a choice.
fn put_choice<'a>(out: &mut Pieces<'a>, choice: &'a Choice<(), (), ()>) -> Result<(), AllocError>
    ensures { Puts (spec.choice_spelling (choice_of choice.now)) result out.old out.new }
{
    put_target(out, &choice.target)?;
    out.put_mark(Mark::Assign)?;
    put_chosen(out, choice)
}

/// Puts what a choice assigns.
fn put_chosen<'a>(out: &mut Pieces<'a>, choice: &'a Choice<(), (), ()>) -> Result<(), AllocError>
    ensures { Puts (spec.chosen_spelling (choice_of choice.now)) result out.old out.new }
{
    out.put_mark(Mark::Choose)?;
    out.put_word(&choice.name)?;
    out.put_mark(Mark::Colon)?;
    put_sort(out, &choice.sort)?;
    put_condition(out, choice)
}

/// Puts the condition of a choice, and the term that yields its value.
fn put_condition<'a>(out: &mut Pieces<'a>, choice: &'a Choice<(), (), ()>) -> Result<(), AllocError>
    ensures { Puts (spec.condition_spelling (choice_of choice.now)) result out.old out.new }
{
    out.put_mark(Mark::Where)?;
    put_term(out, &choice.condition)?;
    out.put_mark(Mark::Yield)?;
    put_term(out, &choice.yields)
}

/// Puts a statement.
#[cycle(statements)]
fn put_statement<'a>(
    out: &mut Pieces<'a>,
    statement: &'a Statement<(), (), ()>,
) -> Result<(), AllocError>
    ensures { Puts (spec.statement_spelling (statement_of statement.now)) result out.old out.new }
{
    match statement {
        Statement::Assign(target, term) => put_assignment(out, target, term),
        Statement::If(arms, rest) => {
            out.put_mark(Mark::If)?;
            put_arms(out, arms)?;
            put_else(out, rest)?;
            out.put_mark(Mark::Fi)
        }
        Statement::While(test, body) => {
            out.put_mark(Mark::While)?;
            put_term(out, test)?;
            put_block(out, body)
        }
        Statement::Fire(firing) => put_firing(out, firing),
        Statement::Choose(choice) => put_choice(out, choice),
    }
}

/// Puts the arms of an `if`, up to its `else`.
#[cycle(statements)]
fn put_arms<'a>(out: &mut Pieces<'a>, arms: &'a Vec<Arm<(), (), ()>>) -> Result<(), AllocError>
    ensures { Puts (spec.arms_spelling (arms_of (map arm_of arms.now.items))) result out.old out.new }
{
    let mut first = true;
    for arm in arms {
        out.put_between(Mark::ElseIf, first)?;
        put_term(out, &arm.test)?;
        out.put_mark(Mark::Then)?;
        put_statements(out, &arm.body)?;
        first = false;
    }
    Ok(())
}

/// Puts the last part of an `if`, if it has one.
#[cycle(statements)]
fn put_else<'a>(
    out: &mut Pieces<'a>,
    rest: &'a Vec<Statement<(), (), ()>>,
) -> Result<(), AllocError>
    ensures { Puts (spec.rest_spelling (map statement_of rest.now.items)) result out.old out.new }
{
    match rest.as_slice() {
        [] => Ok(()),
        [_, ..] => {
            out.put_mark(Mark::Else)?;
            put_statements(out, rest)
        }
    }
}

/// Puts statements with `do` before and `od` behind them.
#[cycle(statements)]
pub(crate) fn put_block<'a>(
    out: &mut Pieces<'a>,
    statements: &'a Vec<Statement<(), (), ()>>,
) -> Result<(), AllocError>
    ensures { Puts (spec.block_spelling (map statement_of statements.now.items)) result out.old out.new }
{
    out.put_mark(Mark::Do)?;
    put_statements(out, statements)?;
    out.put_mark(Mark::Od)
}

/// Puts statements with semicolons between.
#[cycle(statements)]
pub(crate) fn put_statements<'a>(
    out: &mut Pieces<'a>,
    statements: &'a Vec<Statement<(), (), ()>>,
) -> Result<(), AllocError>
    ensures { Puts (spec.list_spelling (map statement_of statements.now.items)) result out.old out.new }
{
    let mut first = true;
    for statement in statements {
        out.put_between(Mark::Semicolon, first)?;
        put_statement(out, statement)?;
        first = false;
    }
    Ok(())
}
