//! The argument of an action that is another value than the `const` of its parameter.

ghost use Rattle.std.specs.Prelude.{◌≡◌, [], IfOk, IfSome, Some, map};
ghost use Rattle.ioa_actions.specs.ActionParts.{action_arguments};
ghost use Rattle.ioa_source.specs.TextView.{parameter_of};
ghost use Rattle.ioa_system.specs.InView.{declared_names, entry_constant, given_bindings, names_at};
ghost use Rattle.ioa_system.specs.ResolvedPrograms.{AreResolvedParameters, IsResolvedParameter, IsResolvedRule};
ghost use Rattle.ioa_terms.specs.Meaning.{answer};
ghost use Rattle.ioa_terms.specs.Resolved.{IsResolved};
ghost use Rattle.ioa_terms.specs.View.{term_of};
ghost use Rattle.ioa_reasons.specs.OtherConsts as spec;
ghost use Rattle.ioa_reasons.specs.OtherConsts.{IsFirstOther, IsOtherConst};

use ioa_actions::Action;
use ioa_compose::Conf;
use ioa_source::Parameter;
use ioa_system::{Program, Rule};
use ioa_terms::{Callee, Checked, Shape, TermFault, eval};
use ioa_transitions::NodeConf;
use ioa_values::Value;
use std::alloc::{AllocError, Global};

/// An argument of an action that is another value than the `const` of its parameter.
#[derive(Drop)]
pub struct OtherConst {
    /// Which argument it is, counted from 1.
    pub position: usize,
    /// The argument.
    pub argument: Value,
    /// The value of the `const`.
    pub constant: Value,
}

/// The first argument of this action that is another value than the `const` of its parameter at a node of this
/// configuration, for whoever tells why the node has no such action. None if each argument is its `const`, or has
/// none; if the node has no rule of the action's name, or one with another number of parameters; or if the
/// configuration is a queue's. A `const` that has no value is none that an argument differs from. `AllocError` if
/// memory runs out.
pub fn find_other_const_in(
    alloc: Global,
    conf: &Conf,
    action: &Action,
) -> Result<Option<OtherConst>, AllocError>
    ensures { IfOk result (λ o. IfSome o (λ c. IsOtherConst (Some conf.now) action.now c)) }
{
    match conf {
        Conf::Node(node) => other_const_at(alloc, node, action),
        Conf::Queue(_) => Ok(None),
    }
}

/// The same at a node with this configuration.
fn other_const_at(
    alloc: Global,
    conf: &NodeConf,
    action: &Action,
) -> Result<Option<OtherConst>, AllocError>
    ensures { IfOk result (λ o. IfSome o (λ c. IsOtherConst (Some (Conf.Node conf.now)) action.now c)) }
{
    match conf.program().automaton().rule_named(action.name()) {
        None => Ok(None),
        Some(rule) => other_const_for(alloc, conf.program(), rule, action),
    }
}

/// The same by a rule.
fn other_const_for(
    alloc: Global,
    program: &Program,
    rule: &Rule,
    action: &Action,
) -> Result<Option<OtherConst>, AllocError>
    requires { IsResolvedRule (declared_names program.now.automaton) rule.now }
    ensures { IfOk result (λ o. IfSome o (λ c. IsFirstOther
        (given_bindings program.now.automaton program.now.arguments) rule.now.entry.parameters
        (action_arguments action.now) c)) }
{
    let arguments = action.arguments(alloc)?;
    other_among(alloc, program, &rule.entry.parameters, arguments.as_slice())
}

/// The same of parameters, each beside its argument. None if there are more or fewer arguments.
fn other_among(
    alloc: Global,
    program: &Program,
    parameters: &[Parameter<usize, Callee, Shape>],
    arguments: &[Value],
) -> Result<Option<OtherConst>, AllocError>
    requires { AreResolvedParameters (names_at entry_constant (declared_names program.now.automaton) [])
        (map parameter_of parameters.now) }
    ensures { IfOk result (λ o. IfSome o (λ c. IsFirstOther
        (given_bindings program.now.automaton program.now.arguments) (map parameter_of parameters.now)
        arguments.now c)) }
{
    if parameters.len() != arguments.len() {
        return Ok(None);
    }
    first_other(alloc, program, parameters, arguments)
}

/// The first of as many arguments as there are parameters that is another value than the `const` of its own.
fn first_other(
    alloc: Global,
    program: &Program,
    parameters: &[Parameter<usize, Callee, Shape>],
    arguments: &[Value],
) -> Result<Option<OtherConst>, AllocError>
    requires { AreResolvedParameters (names_at entry_constant (declared_names program.now.automaton) [])
        (map parameter_of parameters.now) }
    ensures { IfOk result (λ o. o ≡ spec.first_other
        (given_bindings program.now.automaton program.now.arguments) 1 (map parameter_of parameters.now)
        arguments.now) }
{
    for i in 0..parameters.len().min(arguments.len()) {
        match other_at(alloc, program, i + 1, &parameters[i], &arguments[i])? {
            Some(found) => return Ok(Some(found)),
            None => {}
        }
    }
    Ok(None)
}

/// The same of one argument, at this position.
fn other_at(
    alloc: Global,
    program: &Program,
    position: usize,
    parameter: &Parameter<usize, Callee, Shape>,
    argument: &Value,
) -> Result<Option<OtherConst>, AllocError>
    requires { IsResolvedParameter (names_at entry_constant (declared_names program.now.automaton) [])
        (parameter_of parameter.now) }
    ensures { IfOk result (λ o. o ≡ spec.other_at (given_bindings program.now.automaton program.now.arguments)
        position (parameter_of parameter.now) argument.now) }
{
    match parameter {
        Parameter::Const(term) => other_beside(alloc, program, position, term, argument),
        Parameter::Declared(_) => Ok(None),
    }
}

/// The same of one that stands beside this `const`.
fn other_beside(
    alloc: Global,
    program: &Program,
    position: usize,
    term: &Checked,
    argument: &Value,
) -> Result<Option<OtherConst>, AllocError>
    requires { IsResolved (term_of term.now) (names_at entry_constant (declared_names program.now.automaton) []) }
    ensures { IfOk result (λ o. o ≡ spec.other_beside
        (answer (term_of term.now) (given_bindings program.now.automaton program.now.arguments)) position
        argument.now) }
{
    let env = program.automaton().given_env(program.arguments());
    match eval(alloc, term, &env) {
        Ok(constant) => unless_same(position, constant, argument),
        Err(TermFault::Undefined) => Ok(None),
        Err(TermFault::Range) => Ok(None),
        Err(TermFault::Memory) => Err(AllocError),
    }
}

/// An argument with the value of its `const`, if that is another one.
fn unless_same(
    position: usize,
    constant: Value,
    argument: &Value,
) -> Result<Option<OtherConst>, AllocError>
    ensures { IfOk result (λ o. o ≡ spec.unless_same position constant argument.now) }
{
    if constant.equals(argument) {
        return Ok(None);
    }
    let argument = argument.try_copy()?;
    Ok(Some(OtherConst {
        position,
        argument,
        constant,
    }))
}
