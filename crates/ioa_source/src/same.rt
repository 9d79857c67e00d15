//! Whether two parts of a text are the same, whatever memory they are kept in.

ghost use Rattle.std.specs.Prelude.{◌≡◌, ◌↔◌, IsTrue, map};
ghost use Rattle.std.specs.Option.{option_eq, option_map};
ghost use lib.Pointwise.{pointwise};
ghost use Rattle.ioa_terms.specs.SameTerms.{same_term};
ghost use Rattle.ioa_terms.specs.View.{term_of};
ghost use Rattle.ioa_source.specs.SameTexts.{same_declared, same_parameter};
ghost use Rattle.ioa_source.specs.SameTexts.{same_entry, same_variable, same_transition, same_schedule};
ghost use Rattle.ioa_source.specs.TextView.{declared_of, parameter_of, entry_of, variable_of, transition_of};
ghost use Rattle.ioa_source.specs.TextView.{schedule_of};

use crate::declaration::{Declared, Entry, Parameter, Schedule, Transition, Variable};
use ioa_terms::{Callee, Shape, Tree, are_same_statements, are_same_terms, is_same_term};

impl Entry<usize, Callee, Shape> {
    /// Whether two entries are the same. Costs time in proportion to the shorter one.
    pub fn equals(&self, other: &Self) -> bool
        ensures equality { IsTrue result ↔ (entry_of self.now ≡ entry_of other.now) }
    {
        is_same_entry(self, other)
    }
}

impl Variable<usize, Callee, Shape> {
    /// Whether two state variables are the same. Costs time in proportion to the shorter one.
    pub fn equals(&self, other: &Self) -> bool
        ensures equality { IsTrue result ↔ (variable_of self.now ≡ variable_of other.now) }
    {
        is_same_variable(self, other)
    }
}

impl Transition<usize, Callee, Shape> {
    /// Whether two transitions are the same. Costs time in proportion to the shorter one.
    pub fn equals(&self, other: &Self) -> bool
        ensures equality { IsTrue result ↔ (transition_of self.now ≡ transition_of other.now) }
    {
        is_same_transition(self, other)
    }
}

/// Whether two declared names are the same, by the test of their annotations.
pub fn is_same_declared<D: PartialEq>(declared: &Declared<D>, other: &Declared<D>) -> bool
    ensures { result ≡ same_declared D.eq (declared_of declared.now) (declared_of other.now) }
{
    declared.name == other.name
        && (declared.sort.is_same(&other.sort) && declared.shape == other.shape)
}

/// Whether two parameters are the same.
fn is_same_parameter<N: PartialEq, C: PartialEq, D: PartialEq>(
    parameter: &Parameter<N, C, D>,
    other: &Parameter<N, C, D>,
) -> bool
    ensures { result ≡ same_parameter N.eq C.eq D.eq (parameter_of parameter.now) (parameter_of other.now) }
{
    match (parameter, other) {
        (Parameter::Const(t), Parameter::Const(u)) => is_same_term(t, u),
        (Parameter::Declared(a), Parameter::Declared(b)) => is_same_declared(a, b),
        _ => false,
    }
}

/// Whether parameters are the same, one by one, and as many.
fn are_same_parameters<N: PartialEq, C: PartialEq, D: PartialEq>(
    parameters: &Vec<Parameter<N, C, D>>,
    others: &Vec<Parameter<N, C, D>>,
) -> bool
    ensures { result ≡ pointwise (same_parameter N.eq C.eq D.eq) (map parameter_of parameters.now.items)
        (map parameter_of others.now.items) }
{
    for position in 0..parameters.len().min(others.len()) {
        if !is_same_parameter(&parameters[position], &others[position]) {
            return false;
        }
    }
    parameters.len() == others.len()
}

/// Whether two terms, if they are written, are the same.
fn is_same_guard<N: PartialEq, C: PartialEq, D: PartialEq>(
    guard: &Option<Tree<N, C, D>>,
    other: &Option<Tree<N, C, D>>,
) -> bool
    ensures { result ≡ option_eq (same_term N.eq C.eq D.eq) (option_map term_of guard.now)
        (option_map term_of other.now) }
{
    match (guard, other) {
        (None, None) => true,
        (Some(t), Some(u)) => is_same_term(t, u),
        _ => false,
    }
}

/// Whether two entries are the same, by the tests of their annotations.
pub fn is_same_entry<N: PartialEq, C: PartialEq, D: PartialEq>(
    entry: &Entry<N, C, D>,
    other: &Entry<N, C, D>,
) -> bool
    ensures { result ≡ same_entry N.eq C.eq D.eq (entry_of entry.now) (entry_of other.now) }
{
    entry.kind == other.kind
        && (entry.name == other.name
            && (are_same_parameters(&entry.parameters, &other.parameters)
                && is_same_guard(&entry.condition, &other.condition)))
}

/// Whether two state variables are the same, by the tests of their annotations.
pub fn is_same_variable<N: PartialEq, C: PartialEq, D: PartialEq>(
    variable: &Variable<N, C, D>,
    other: &Variable<N, C, D>,
) -> bool
    ensures { result ≡ same_variable N.eq C.eq D.eq (variable_of variable.now) (variable_of other.now) }
{
    is_same_declared(&variable.declared, &other.declared)
        && is_same_guard(&variable.initial, &other.initial)
}

/// Whether two transitions are the same, by the tests of their annotations.
pub fn is_same_transition<N: PartialEq, C: PartialEq, D: PartialEq>(
    transition: &Transition<N, C, D>,
    other: &Transition<N, C, D>,
) -> bool
    ensures { result ≡ same_transition N.eq C.eq D.eq (transition_of transition.now) (transition_of other.now) }
{
    transition.kind == other.kind
        && (transition.name == other.name
            && (are_same_terms(&transition.arguments, &other.arguments)
                && (is_same_guard(&transition.pre, &other.pre)
                    && are_same_statements(&transition.effect, &other.effect))))
}

/// Whether variables are the same, one by one, and as many.
pub fn are_same_variables<N: PartialEq, C: PartialEq, D: PartialEq>(
    variables: &Vec<Variable<N, C, D>>,
    others: &Vec<Variable<N, C, D>>,
) -> bool
    ensures { result ≡ pointwise (same_variable N.eq C.eq D.eq) (map variable_of variables.now.items)
        (map variable_of others.now.items) }
{
    for position in 0..variables.len().min(others.len()) {
        if !is_same_variable(&variables[position], &others[position]) {
            return false;
        }
    }
    variables.len() == others.len()
}

/// Whether two schedule blocks are the same, by the tests of their annotations.
pub fn is_same_schedule<N: PartialEq, C: PartialEq, D: PartialEq>(
    schedule: &Schedule<N, C, D>,
    other: &Schedule<N, C, D>,
) -> bool
    ensures { result ≡ same_schedule N.eq C.eq D.eq (schedule_of schedule.now) (schedule_of other.now) }
{
    are_same_variables(&schedule.variables, &other.variables)
        && are_same_statements(&schedule.statements, &other.statements)
}
