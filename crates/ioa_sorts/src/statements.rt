//! The sorts of statements.

ghost use Rattle.std.specs.Prelude.{◌≡◌, map};
ghost use Rattle.ioa_values.specs.Outcome.{Answers};
ghost use Rattle.ioa_operators.specs.Shapes.{truths};
ghost use Rattle.ioa_terms.specs.PlainTerm as plain;
ghost use Rattle.ioa_terms.specs.PlainTerm.{arms_of, statements_of};
ghost use Rattle.ioa_terms.specs.View.{term_of, target_of, statement_of, arm_of, firing_of, choice_of};
ghost use Rattle.ioa_sorts.specs.SiteView.{site_of, is_block};
ghost use Rattle.ioa_sorts.specs.Sorting as sorting;
ghost use Rattle.ioa_sorts.specs.Statements as spec;

use crate::choices::sort_choice;
use crate::firings::sort_firing;
use crate::site::{Place, StatementSite};
use crate::sorting::{fit, truth_of};
use crate::targets::sort_target;
use ioa_refusals::Refusal;
use ioa_terms::{Arm, Callee, Checked, Choice, Firing, Shape, Statement, Target, Term};
use std::alloc::Global;

/// The statements with the slot of each name and the shape of each display and of each target's variable. Returns what
/// `fit` does, `Unknown` (20) if a target is no variable or has no such field, if a firing names no entry, if a choice
/// names no type, for a choice in a schedule block, or for a `while` that is not in one, `ScheduleAssignsState` (26) if
/// a schedule block assigns a state variable, `Twice` (21) if the name of a chosen value is in view, and `Sorts` (22) if
/// a target has no keys or no fields, if a term or a choice has another sort than its target, if a term is tested and no
/// truth value, or if the values of a choice are neither truth values nor numbers nor constants. The first refusal in
/// the text's order is returned; of a choice the sort comes before the name.
#[cycle(sorting_statements)]
pub fn sort_statements(
    alloc: Global,
    site: &StatementSite,
    statements: &Vec<Statement<(), (), ()>>,
) -> Result<Vec<Statement<usize, Callee, Shape>>, Refusal>
    ensures { Answers Refusal.Memory (λ ss. map statement_of ss.items) result
        (spec.all_ok (spec.statement_sortings (site_of site.now)
        (statements_of (map statement_of statements.now.items)))) }
{
    let mut sorted = Vec::new(alloc);
    for statement in statements {
        let found = sort_statement(alloc, site, statement)?;
        sorted.push(found)?;
    }
    Ok(sorted)
}

/// A statement with slots and shapes.
#[cycle(sorting_statements)]
fn sort_statement(
    alloc: Global,
    site: &StatementSite,
    statement: &Statement<(), (), ()>,
) -> Result<Statement<usize, Callee, Shape>, Refusal>
    ensures { Answers Refusal.Memory statement_of result
        (spec.statement_sorting (site_of site.now) (statement_of statement.now)) }
{
    match statement {
        Statement::Assign(target, term) => sort_assignment(alloc, site, target, term),
        Statement::If(arms, rest) => {
            let arms = sort_arms(alloc, site, arms)?;
            let rest = sort_statements(alloc, site, rest)?;
            Ok(choice(arms, rest))
        }
        Statement::While(test, body) => {
            let test = Box::new(alloc, sort_loop_test(alloc, site, test)?)?;
            let body = sort_statements(alloc, site, body)?;
            Ok(repetition(test, body))
        }
        Statement::Fire(firing) => sort_fire(alloc, site, firing),
        Statement::Choose(choice) => sort_choosing(alloc, site, choice),
    }
}

/// Arms with slots and shapes.
#[cycle(sorting_statements)]
fn sort_arms(
    alloc: Global,
    site: &StatementSite,
    arms: &Vec<Arm<(), (), ()>>,
) -> Result<Vec<Arm<usize, Callee, Shape>>, Refusal>
    ensures { Answers Refusal.Memory (λ ts. map arm_of ts.items) result
        (spec.all_ok (spec.arm_sortings (site_of site.now) (arms_of (map arm_of arms.now.items)))) }
{
    let mut sorted = Vec::new(alloc);
    for arm in arms {
        let found = sort_arm(alloc, site, arm)?;
        sorted.push(found)?;
    }
    Ok(sorted)
}

/// An arm with slots and shapes: its test is a truth value.
#[cycle(sorting_statements)]
fn sort_arm(
    alloc: Global,
    site: &StatementSite,
    arm: &Arm<(), (), ()>,
) -> Result<Arm<usize, Callee, Shape>, Refusal>
    ensures { Answers Refusal.Memory arm_of result
        (spec.arm_sorting (site_of site.now) (arm_of arm.now)) }
{
    let test = Box::new(alloc, truth_of(alloc, site.view, &arm.test)?)?;
    let body = sort_statements(alloc, site, &arm.body)?;
    Ok(Arm {
        test: Box::into_inner(test),
        body,
    })
}

/// The test of a `while` with slots and shapes: a truth value. `Unknown` (20) outside of a schedule block.
#[tactic(auto, unfolding(crate::specs::Statements::if_in_block))]
fn sort_loop_test(alloc: Global, site: &StatementSite, test: &Term) -> Result<Checked, Refusal>
    ensures { Answers Refusal.Memory term_of result (spec.if_in_block (is_block site.now.place)
        (sorting.fit (sorting.sorting site.now.view.now (term_of test.now)) truths)) }
{
    match site.place {
        Place::Block => truth_of(alloc, site.view, test),
        Place::Effect(_) => Err(Refusal::Unknown),
    }
}

/// A `fire` with slots and shapes.
fn sort_fire(
    alloc: Global,
    site: &StatementSite,
    firing: &Firing<(), (), ()>,
) -> Result<Statement<usize, Callee, Shape>, Refusal>
    ensures { Answers Refusal.Memory statement_of result
        (spec.statement_sorting (site_of site.now) (plain.fire (firing_of firing.now))) }
{
    let firing = sort_firing(alloc, site.view, site.rules, firing)?;
    Ok(Statement::Fire(firing))
}

/// A choice with slots and shapes.
fn sort_choosing(
    alloc: Global,
    site: &StatementSite,
    choice: &Choice<(), (), ()>,
) -> Result<Statement<usize, Callee, Shape>, Refusal>
    ensures { Answers Refusal.Memory statement_of result
        (spec.statement_sorting (site_of site.now) (plain.choosing (choice_of choice.now))) }
{
    let choice = sort_choice(alloc, site, choice)?;
    Ok(Statement::Choose(Box::new(alloc, choice)?))
}

/// A `while` of a test and its body.
fn repetition(
    test: Box<Checked>,
    body: Vec<Statement<usize, Callee, Shape>>,
) -> Statement<usize, Callee, Shape>
    ensures { statement_of result ≡ plain.loop (term_of test.value) (statements_of (map statement_of body.items)) }
{
    Statement::While(Box::into_inner(test), body)
}

/// An `if` of arms and the rest.
fn choice(
    arms: Vec<Arm<usize, Callee, Shape>>,
    rest: Vec<Statement<usize, Callee, Shape>>,
) -> Statement<usize, Callee, Shape>
    ensures { statement_of result
        ≡ plain.branch (arms_of (map arm_of arms.items)) (statements_of (map statement_of rest.items)) }
{
    Statement::If(arms, rest)
}

/// An assignment with slots and shapes.
fn sort_assignment(
    alloc: Global,
    site: &StatementSite,
    target: &Target<(), (), ()>,
    term: &Term,
) -> Result<Statement<usize, Callee, Shape>, Refusal>
    ensures { Answers Refusal.Memory statement_of result (spec.assignment_sorting (site_of site.now)
        (target_of target.now) (term_of term.now)) }
{
    let target = Box::new(alloc, sort_target(alloc, site, target)?)?;
    let value = fit(alloc, site.view, term, &target.shape)?;
    Ok(Statement::Assign(Box::into_inner(target).target, value))
}
