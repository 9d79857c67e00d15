//! Values that terms have on a node: arguments, constants of entries, and initial values.

ghost use Rattle.std.specs.Prelude.{◌≡◌, IfOk, map, length};
ghost use Rattle.std.specs.Option.{option_map};
ghost use Rattle.ioa_values.specs.Outcome.{Answers};
ghost use Rattle.ioa_terms.specs.Bindings.{names_of};
ghost use Rattle.ioa_terms.specs.Meaning.{answer};
ghost use Rattle.ioa_terms.specs.Resolved.{IsResolved};
ghost use Rattle.ioa_terms.specs.View.{term_of};
ghost use Rattle.ioa_source.specs.TextView.{parameter_of, variable_of};
ghost use Rattle.ioa_system.specs.ResolvedPrograms.{IsResolvedGuard, IsResolvedParameter, AreResolvedParameters};
ghost use Rattle.ioa_system.specs.ResolvedPrograms.{AreResolvedTerms, AreResolvedVariables};
ghost use Rattle.ioa_sections.specs.Nodes as spec;

use ioa_refusals::Refusal;
use ioa_source::{Parameter, Variable};
use ioa_terms::{Callee, Checked, Env, Shape, TermFault, Value, eval};
use std::alloc::{AllocError, Global};

/// The value of a term. `BadArgument` (34) if it has none, or if a number outside 64 bits is met.
#[tactic(auto, unfolding(crate::specs::Nodes::value_or))]
fn value_of(alloc: Global, env: &Env, term: &Checked) -> Result<Value, Refusal>
    requires { IsResolved (term_of term.now) (names_of env.now) }
    ensures { Answers Refusal.Memory (λ v. v) result (spec.value_or (answer (term_of term.now) env.now)) }
{
    match eval(alloc, term, env) {
        Ok(value) => Ok(value),
        Err(TermFault::Undefined) => Err(Refusal::BadArgument),
        Err(TermFault::Range) => Err(Refusal::BadArgument),
        Err(TermFault::Memory) => Err(Refusal::Memory),
    }
}

/// A value that has a shape. `BadArgument` (34) if a negative number is in the place of a natural.
#[tactic(auto, unfolding(crate::specs::Nodes::fitting_or))]
fn fit_value(shape: &Shape, value: Value) -> Result<Value, Refusal>
    ensures { Answers Refusal.Memory (λ v. v) result (spec.fitting_or shape.now value) }
{
    if shape.admits(&value) {
        Ok(value)
    } else {
        Err(Refusal::BadArgument)
    }
}

/// The value of a term for a place of a shape.
fn value_for(alloc: Global, env: &Env, shape: &Shape, term: &Checked) -> Result<Value, Refusal>
    requires { IsResolved (term_of term.now) (names_of env.now) }
    ensures { Answers Refusal.Memory (λ v. v) result (spec.value_for env.now shape.now (term_of term.now)) }
{
    let value = value_of(alloc, env, term)?;
    fit_value(shape, value)
}

/// The values of the arguments of a node, each for the parameter at its position.
pub(crate) fn argument_values(
    alloc: Global,
    env: &Env,
    shapes: &Vec<Shape>,
    arguments: &Vec<Checked>,
) -> Result<Vec<Value>, Refusal>
    requires { AreResolvedTerms (map term_of arguments.now.items) (names_of env.now) }
    ensures { Answers Refusal.Memory (λ vs. vs.items) result
        (spec.argument_values env.now shapes.now.items (map term_of arguments.now.items)) }
{
    let mut values = Vec::new(alloc);
    for (position, argument) in arguments.iter().enumerate() {
        match shapes.get(position) {
            None => return Ok(values),
            Some(shape) => {
                let value = value_for(alloc, env, shape, argument)?;
                values.push(value)?;
            }
        }
    }
    Ok(values)
}

/// The value of the initial term of a state variable. `NoInitial` (23) if there is no term.
#[tactic(auto, unfolding(crate::specs::Nodes::initial_value))]
fn initial_value(
    alloc: Global,
    env: &Env,
    shape: &Shape,
    initial: &Option<Checked>,
) -> Result<Value, Refusal>
    requires { IsResolvedGuard (option_map term_of initial.now) (names_of env.now) }
    ensures { Answers Refusal.Memory (λ v. v) result
        (spec.initial_value env.now shape.now (option_map term_of initial.now)) }
{
    match initial {
        None => Err(Refusal::NoInitial),
        Some(term) => value_for(alloc, env, shape, term),
    }
}

/// The values of state variables in the start state.
pub(crate) fn variable_values(
    alloc: Global,
    env: &Env,
    variables: &[Variable<usize, Callee, Shape>],
) -> Result<Vec<Value>, Refusal>
    requires { AreResolvedVariables (names_of env.now) (map variable_of variables.now) }
    ensures values { Answers Refusal.Memory (λ vs. vs.items) result
        (spec.variable_values env.now (map variable_of variables.now)) }
    ensures many { IfOk result (λ vs. length vs.items ≡ length variables.now) }
{
    let mut values = Vec::new(alloc);
    for variable in variables {
        let value = initial_value(alloc, env, &variable.declared.shape, &variable.initial)?;
        values.push(value)?;
    }
    Ok(values)
}

/// Passes if a parameter of an entry has a name, or is a constant that has a value.
#[tactic(auto, unfolding(crate::specs::Nodes::constant_at))]
fn check_constant(
    alloc: Global,
    env: &Env,
    parameter: &Parameter<usize, Callee, Shape>,
) -> Result<(), Refusal>
    requires { IsResolvedParameter (names_of env.now) (parameter_of parameter.now) }
    ensures { Answers Refusal.Memory (λ x. x) result (spec.constant_at env.now (parameter_of parameter.now)) }
{
    match parameter {
        Parameter::Declared(_) => Ok(()),
        Parameter::Const(term) => {
            let value = value_of(alloc, env, term)?;
            drop(value);
            Ok(())
        }
    }
}

/// Passes if each constant of an entry has a value.
pub(crate) fn check_constants(
    alloc: Global,
    env: &Env,
    parameters: &Vec<Parameter<usize, Callee, Shape>>,
) -> Result<(), Refusal>
    requires { AreResolvedParameters (names_of env.now) (map parameter_of parameters.now.items) }
    ensures { Answers Refusal.Memory (λ x. x) result
        (spec.constants_at env.now (map parameter_of parameters.now.items)) }
{
    for parameter in parameters {
        check_constant(alloc, env, parameter)?;
    }
    Ok(())
}

/// Whether a term has the value of a number.
pub(crate) fn gives_number(
    alloc: Global,
    env: &Env,
    term: &Checked,
    number: i64,
) -> Result<bool, AllocError>
    requires { IsResolved (term_of term.now) (names_of env.now) }
    ensures { IfOk result (λ b. b ≡ spec.gives_number number (answer (term_of term.now) env.now)) }
{
    match eval(alloc, term, env) {
        Ok(value) => Ok(is_number_of(value.as_number(), number)),
        Err(TermFault::Undefined) => Ok(false),
        Err(TermFault::Range) => Ok(false),
        Err(TermFault::Memory) => Err(AllocError),
    }
}

/// Whether a number is there and is this one.
fn is_number_of(found: Option<i64>, number: i64) -> bool
    ensures { result ≡ spec.is_number_of number found }
{
    match found {
        None => false,
        Some(other) => other == number,
    }
}
