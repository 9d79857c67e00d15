//! The schedule block of an automaton, with slots and shapes.

ghost use Rattle.std.specs.Prelude.{◌≡◌, ◌++◌, IfOk, map};
ghost use Rattle.ioa_values.specs.Outcome.{Answers};
ghost use Rattle.ioa_terms.specs.PlainTerm.{statements_of};
ghost use Rattle.ioa_terms.specs.View.{statement_of};
ghost use Rattle.ioa_source.specs.TextView.{schedule_of, variable_of};
ghost use Rattle.ioa_system.specs.InView.{inbox_words, variable_names};
ghost use Rattle.ioa_system.specs.Parts.{message_shape};
ghost use Rattle.ioa_sorts.specs.Statements.{all_ok, statement_sortings};
ghost use Rattle.ioa_automata.specs.Parts.{variables_at};
ghost use Rattle.ioa_automata.specs.Schedules as spec;
ghost use Rattle.ioa_automata.specs.SortedView.{surroundings_of};

use crate::names::block_names;
use crate::parts::sort_variables;
use crate::rules::Surroundings;
use ioa_names::{NameTable, RuleTable, View};
use ioa_refusals::Refusal;
use ioa_sorts::{StatementSite, sort_statements};
use ioa_source::{Schedule, Variable};
use ioa_system::{Rule, message_shape};
use ioa_terms::{Callee, Shape, Statement, Word, inboxes_word};
use std::alloc::{AllocError, Global};

/// The variables of a block, whose initial terms read the automaton's parameters.
fn sort_block_variables(
    alloc: Global,
    around: &Surroundings,
    variables: &Vec<Variable<(), (), ()>>,
) -> Result<Vec<Variable<usize, Callee, Shape>>, Refusal>
    ensures { Answers Refusal.Memory (λ vs. map variable_of vs.items) result
        (variables_at around.now.types.now (around.now.given.now ++ around.now.constants.now)
        (map variable_of variables.now.items)) }
{
    let none = NameTable::new(alloc);
    let view = View::new(around.given, &none, around.constants)?;
    sort_variables(alloc, around.types, &view, variables)
}

/// The statements of a block of so many variables, which alone reads these names.
fn sort_block_statements(
    alloc: Global,
    around: &Surroundings,
    rules: &RuleTable,
    own: &NameTable,
    variables: usize,
    statements: &Vec<Statement<(), (), ()>>,
) -> Result<Vec<Statement<usize, Callee, Shape>>, Refusal>
    ensures { Answers Refusal.Memory (λ ss. map statement_of ss.items) result
        (all_ok (statement_sortings
        (spec.site_in (surroundings_of around.now) own.now variables rules.now)
        (statements_of (map statement_of statements.now.items)))) }
{
    let view = View::new(own, around.outer, around.constants)?;
    let all_variables = own.len().checked_add(around.variables).ok_or(AllocError)?;
    let site = StatementSite::block(&view, variables, all_variables, rules);
    sort_statements(alloc, &site, statements)
}

/// The schedule block of an automaton, in these surroundings: its variables, and then its statements.
#[tactic(auto, unfolding(crate::specs::Schedules::schedule_at))]
pub(crate) fn sort_schedule(
    alloc: Global,
    around: &Surroundings,
    rules: &RuleTable,
    schedule: &Schedule<(), (), ()>,
) -> Result<Schedule<usize, Callee, Shape>, Refusal>
    ensures { Answers Refusal.Memory schedule_of result
        (spec.schedule_at (surroundings_of around.now) rules.now (schedule_of schedule.now)) }
{
    let variables = sort_block_variables(alloc, around, &schedule.variables)?;
    let own = block_names(
        alloc,
        around.outer,
        around.constants,
        &variables,
        rules.as_slice(),
    )?;
    let statements = sort_block_statements(
        alloc,
        around,
        rules,
        &own,
        variables.len(),
        &schedule.statements,
    )?;
    Ok(Schedule {
        variables,
        statements,
    })
}

/// The names that come first in view in a block of these variables, with their own memory: theirs, and that of the
/// inboxes, if one of these rules takes messages.
pub(crate) fn block_own_words(
    alloc: Global,
    variables: &Vec<Variable<usize, Callee, Shape>>,
    rules: &[Rule],
) -> Result<Vec<Word>, AllocError>
    ensures { IfOk result (λ ws. ws.items
        ≡ variable_names (map variable_of variables.now.items) ++ inbox_words (message_shape rules.now)) }
{
    let mut names = variable_words(alloc, variables)?;
    if message_shape(rules).is_some() {
        names.push(inboxes_word(alloc)?)?;
    }
    Ok(names)
}

/// The names of variables, with their own memory.
fn variable_words(
    alloc: Global,
    variables: &Vec<Variable<usize, Callee, Shape>>,
) -> Result<Vec<Word>, AllocError>
    ensures { IfOk result (λ ws. ws.items ≡ variable_names (map variable_of variables.now.items)) }
{
    let mut names = Vec::new(alloc);
    for variable in variables {
        names.push(variable.declared.name.try_copy(alloc)?)?;
    }
    Ok(names)
}
