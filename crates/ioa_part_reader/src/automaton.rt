//! Automata: their parameters, state variables, transitions and schedule blocks.

ghost use Rattle.std.specs.Prelude.{map};
ghost use Rattle.std.specs.Option.{option_map};
ghost use Rattle.ioa_cursor.specs.Outcome.{Reads};
ghost use Rattle.ioa_source.specs.TextView.{declared_of, variable_of, transition_of, schedule_of, automaton_of};
ghost use Rattle.ioa_terms.specs.View.{term_of, statement_of};
ghost use Rattle.ioa_part_reader.specs.Reading as spec;

use crate::call::{INNER_LIMIT, at_kind, call, kind};
use crate::declared::declared_names;
use crate::signature::signature_part;
use crate::sort::sort;
use crate::statement::{Context, effect, statements};
use ioa_cursor::{Tokens, Unread};
use ioa_source::{Automaton, Declared, Schedule, Transition, Variable};
use ioa_term_reader::{BRACKET_LIMIT, term};
use ioa_terms::{Statement, Term};
use ioa_tokens::Mark;
use std::alloc::Global;

/// [`:=` Term]
#[tactic(auto, unfolding(crate::specs::Reading::initial, crate::specs::bind, crate::specs::choose))]
fn initial(alloc: Global, tokens: &mut Tokens<'_>) -> Result<Option<Term>, Unread>
    ensures { Reads (option_map term_of) (spec.initial tokens.old) result tokens.new }
{
    if !tokens.skip(Mark::Assign) {
        return Ok(None);
    }
    let initial = term(alloc, tokens, BRACKET_LIMIT)?;
    Ok(Some(initial.into_tree()))
}

/// Word `:` Sort [`:=` Term]
#[tactic(auto, unfolding(crate::specs::Reading::variable, crate::specs::bind))]
fn variable(alloc: Global, tokens: &mut Tokens<'_>) -> Result<Variable<(), (), ()>, Unread>
    ensures { Reads variable_of (spec.variable tokens.old) result tokens.new }
{
    let name = tokens.word(alloc)?;
    tokens.expect(Mark::Colon)?;
    let sort = sort(alloc, tokens, BRACKET_LIMIT)?;
    let initial = initial(alloc, tokens)?;
    Ok(Variable {
        declared: Declared {
            name,
            sort,
            shape: (),
        },
        initial,
    })
}

/// Variable {`,` Variable}
#[tactic(auto, unfolding(crate::specs::Reading::variables, crate::specs::bind))]
fn variables(alloc: Global, tokens: &mut Tokens<'_>) -> Result<Vec<Variable<(), (), ()>>, Unread>
    ensures { Reads (λ v. map variable_of v.items) (spec.variables tokens.old) result tokens.new }
{
    let mut variables = Vec::new(alloc);
    variables.push(variable(alloc, tokens)?)?;
    for _turn in 0..tokens.len() {
        if !tokens.skip(Mark::Comma) {
            return Ok(variables);
        }
        variables.push(variable(alloc, tokens)?)?;
    }
    Ok(variables)
}

/// Term [`;`]
#[tactic(auto, unfolding(crate::specs::Reading::guard, crate::specs::bind))]
fn guard(alloc: Global, tokens: &mut Tokens<'_>) -> Result<Term, Unread>
    ensures { Reads term_of (spec.guard tokens.old) result tokens.new }
{
    let guard = term(alloc, tokens, BRACKET_LIMIT)?;
    let _closed = tokens.skip(Mark::Semicolon);
    Ok(guard.into_tree())
}

/// [`pre` Term [`;`]]
#[tactic(auto, unfolding(crate::specs::Reading::guard_part, crate::specs::bind, crate::specs::choose))]
fn guard_part(alloc: Global, tokens: &mut Tokens<'_>) -> Result<Option<Term>, Unread>
    ensures { Reads (option_map term_of) (spec.guard_part tokens.old) result tokens.new }
{
    if !tokens.skip(Mark::Pre) {
        return Ok(None);
    }
    let guard = guard(alloc, tokens)?;
    Ok(Some(guard))
}

/// Kind Call [`pre` Term [`;`]] [`eff` Statements]
#[tactic(auto, unfolding(crate::specs::Reading::transition, crate::specs::bind))]
fn transition(alloc: Global, tokens: &mut Tokens<'_>) -> Result<Transition<(), (), ()>, Unread>
    ensures { Reads transition_of (spec.transition tokens.old) result tokens.new }
{
    let kind = kind(tokens)?;
    let head = call(alloc, tokens)?;
    let pre = guard_part(alloc, tokens)?;
    let effect = effect(alloc, tokens)?;
    Ok(Transition {
        kind,
        name: head.name,
        arguments: head.arguments,
        pre,
        effect,
    })
}

/// {Transition}
#[tactic(auto, unfolding(crate::specs::Reading::transitions))]
fn transitions(
    alloc: Global,
    tokens: &mut Tokens<'_>,
) -> Result<Vec<Transition<(), (), ()>>, Unread>
    ensures { Reads (λ v. map transition_of v.items) (spec.transitions tokens.old) result tokens.new }
{
    let mut transitions = Vec::new(alloc);
    for _turn in 0..tokens.len() {
        if !at_kind(tokens) {
            return Ok(transitions);
        }
        transitions.push(transition(alloc, tokens)?)?;
    }
    Ok(transitions)
}

/// `do` [Statements] `od`
#[tactic(auto, unfolding(crate::specs::Reading::block, crate::specs::bind, crate::specs::choose))]
fn block(alloc: Global, tokens: &mut Tokens<'_>) -> Result<Vec<Statement<(), (), ()>>, Unread>
    ensures { Reads (λ v. map statement_of v.items) (spec.block tokens.old) result tokens.new }
{
    tokens.expect(Mark::Do)?;
    if tokens.skip(Mark::Od) {
        return Ok(Vec::new(alloc));
    }
    let statements = statements(alloc, tokens, Context::Block)?;
    tokens.expect(Mark::Od)?;
    Ok(statements)
}

/// [`states` Variable {`,` Variable}]
#[tactic(auto, unfolding(crate::specs::Reading::states_part, crate::specs::choose))]
fn states_part(alloc: Global, tokens: &mut Tokens<'_>) -> Result<Vec<Variable<(), (), ()>>, Unread>
    ensures { Reads (λ v. map variable_of v.items) (spec.states_part tokens.old) result tokens.new }
{
    if !tokens.skip(Mark::States) {
        return Ok(Vec::new(alloc));
    }
    variables(alloc, tokens)
}

/// [`transitions` {Transition}]
#[tactic(auto, unfolding(crate::specs::Reading::transitions_part, crate::specs::choose))]
fn transitions_part(
    alloc: Global,
    tokens: &mut Tokens<'_>,
) -> Result<Vec<Transition<(), (), ()>>, Unread>
    ensures { Reads (λ v. map transition_of v.items) (spec.transitions_part tokens.old) result tokens.new }
{
    if !tokens.skip(Mark::Transitions) {
        return Ok(Vec::new(alloc));
    }
    transitions(alloc, tokens)
}

/// [`states` Variable {`,` Variable}] `do` [Statements] `od`
#[tactic(auto, unfolding(crate::specs::Reading::schedule, crate::specs::bind))]
fn schedule(alloc: Global, tokens: &mut Tokens<'_>) -> Result<Schedule<(), (), ()>, Unread>
    ensures { Reads schedule_of (spec.schedule tokens.old) result tokens.new }
{
    let variables = states_part(alloc, tokens)?;
    let statements = block(alloc, tokens)?;
    Ok(Schedule {
        variables,
        statements,
    })
}

/// [`schedule` Schedule]
#[tactic(auto, unfolding(crate::specs::Reading::schedule_part, crate::specs::choose))]
fn schedule_part(alloc: Global, tokens: &mut Tokens<'_>) -> Result<Schedule<(), (), ()>, Unread>
    ensures { Reads schedule_of (spec.schedule_part tokens.old) result tokens.new }
{
    if !tokens.skip(Mark::Schedule) {
        return Ok(Schedule {
            variables: Vec::new(alloc),
            statements: Vec::new(alloc),
        });
    }
    schedule(alloc, tokens)
}

/// [`(` Declared {`,` Declared} `)`]
#[tactic(auto, unfolding(crate::specs::Reading::head, crate::specs::bind, crate::specs::choose))]
fn head(alloc: Global, tokens: &mut Tokens<'_>) -> Result<Vec<Declared<()>>, Unread>
    ensures { Reads (λ v. map declared_of v.items) (spec.head tokens.old) result tokens.new }
{
    if !tokens.skip(Mark::OpenRound) {
        return Ok(Vec::new(alloc));
    }
    let parameters = declared_names(alloc, tokens, INNER_LIMIT)?;
    tokens.expect(Mark::CloseRound)?;
    Ok(parameters)
}

/// Word [`(` Declared {`,` Declared} `)`] [Signature] [States] [Transitions] [Schedule], after
/// `automaton`
#[tactic(auto, unfolding(crate::specs::Reading::automaton, crate::specs::bind))]
pub(crate) fn automaton(
    alloc: Global,
    tokens: &mut Tokens<'_>,
) -> Result<Automaton<(), (), ()>, Unread>
    ensures { Reads automaton_of (spec.automaton tokens.old) result tokens.new }
{
    let name = tokens.word(alloc)?;
    let parameters = head(alloc, tokens)?;
    let signature = signature_part(alloc, tokens)?;
    let states = states_part(alloc, tokens)?;
    let transitions = transitions_part(alloc, tokens)?;
    let schedule = schedule_part(alloc, tokens)?;
    Ok(Automaton {
        name,
        parameters,
        signature,
        states,
        transitions,
        schedule,
    })
}
