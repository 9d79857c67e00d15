//! The part of a test of a node that is false.

ghost use Rattle.std.specs.Prelude.{◌≡◌, ◌++◌, [], IfOk, IfSome, OnOk, Ok, Some, length, map};
ghost use Rattle.std.specs.List.{list_any};
ghost use Rattle.std.specs.Option.{option_map};
ghost use Rattle.ioa_actions.specs.ActionParts.{node_of};
ghost use Rattle.ioa_commits.specs.Versions.{read_confs};
ghost use Rattle.ioa_compose.specs.Composition.{find_conf};
ghost use Rattle.ioa_source.specs.TextView.{entry_of, parameter_of};
ghost use Rattle.ioa_system.specs.InView.{declared_names, environment_at, names_at, variable_names};
ghost use Rattle.ioa_system.specs.InView.{entry_condition, guard_or_effect};
ghost use Rattle.ioa_system.specs.ResolvedPrograms.{IsResolvedGuard, IsResolvedRule};
ghost use Rattle.ioa_terms.specs.Bindings.{names_of, same_name};
ghost use Rattle.ioa_terms.specs.Meaning.{answer};
ghost use Rattle.ioa_terms.specs.PlainTerm.{terms_of};
ghost use Rattle.ioa_terms.specs.Resolved.{AreTermsResolved, IsResolved};
ghost use Rattle.ioa_terms.specs.View.{term_of};
ghost use Rattle.ioa_terms.specs.Views.{IsNamed, environment_of, names_in_view, own_names};
ghost use Rattle.ioa_transitions.specs.NodeStep.{own_value, own_values, rule_bindings};
ghost use Rattle.ioa_reasons.specs.PlainReasons.{named_value};
ghost use Rattle.ioa_reasons.specs.Found.{false_part_found};
ghost use Rattle.ioa_reasons.specs.Tests as spec;
ghost use Rattle.ioa_reasons.specs.Tests.{IsFalsified};

use crate::reason::{NamedValue, Test};
use crate::shown::conf_of;
use ioa_actions::{Action, Component};
use ioa_book::Snapshot;
use ioa_compose::Conf;
use ioa_sharing::Origin;
use ioa_source::{Entry, Parameter};
use ioa_system::{Program, Rule};
use ioa_terms::{
    BinaryOperator, Callee, Checked, Env, LentValues, Name, Shape, TermFault, View, eval,
};
use ioa_transitions::NodeConf;
use ioa_values::Value;
use std::alloc::{AllocError, Global};

/// A part of a test that is false, and the values of the names that it reads.
#[derive(Drop)]
pub struct Falsified<'a> {
    /// The test.
    pub test: Test,
    /// The part.
    pub part: &'a Checked,
    /// The values of its names.
    pub values: Vec<NamedValue<'a>>,
}

/// The first false part of the rule by which the node that a look shows takes an action, for whoever tells why the
/// action was missed: of the condition of the rule's entry, or else of its guard. None if no part is false, or if the
/// look shows no node that has a rule for the action. `AllocError` if memory runs out.
pub fn find_falsified<'a, O: Origin>(
    alloc: Global,
    look: &'a Snapshot<O>,
    action: &Action,
) -> Result<Option<Falsified<'a>>, AllocError>
    ensures { IfOk result (λ o. IfSome o (λ f. IsFalsified (find_conf (Component.Node (node_of action.now))
        (read_confs look.now.reads)) action.now (false_part_found f))) }
{
    match conf_of(look, Component::Node(action.node())) {
        Some(conf) => find_falsified_in(alloc, conf, action),
        None => Ok(None),
    }
}

/// The first false part of the rule by which a node of this configuration takes an action. None as for a look, or if
/// the configuration is a queue's.
pub fn find_falsified_in<'a>(
    alloc: Global,
    conf: &'a Conf,
    action: &Action,
) -> Result<Option<Falsified<'a>>, AllocError>
    ensures { IfOk result (λ o. IfSome o
        (λ f. IsFalsified (Some conf.now) action.now (false_part_found f))) }
{
    match conf {
        Conf::Node(node) => falsified_at(alloc, node, action),
        Conf::Queue(_) => Ok(None),
    }
}

/// The same of a node with this configuration.
fn falsified_at<'a>(
    alloc: Global,
    conf: &'a NodeConf,
    action: &Action,
) -> Result<Option<Falsified<'a>>, AllocError>
    ensures { IfOk result (λ o. IfSome o
        (λ f. IsFalsified (Some (Conf.Node conf.now)) action.now (false_part_found f))) }
{
    match conf.program().automaton().rule_named(action.name()) {
        None => Ok(None),
        Some(rule) => falsified_by(alloc, conf, rule, action),
    }
}

/// The same by a rule of the action's name. An action whose arguments are not those of the rule is none of its own.
fn falsified_by<'a>(
    alloc: Global,
    conf: &'a NodeConf,
    rule: &'a Rule,
    action: &Action,
) -> Result<Option<Falsified<'a>>, AllocError>
    requires { IsResolvedRule (declared_names conf.now.program.automaton) rule.now }
    ensures { IfOk result (λ o. IfSome o (λ f. spec.first_false rule.now
        (rule_bindings entry_condition rule.now action.now conf.now)
        (rule_bindings guard_or_effect rule.now action.now conf.now) ≡ Some (false_part_found f))) }
{
    let arguments = action.arguments(alloc)?;
    let own = own_values(alloc, &rule.entry, arguments.as_slice())?;
    if own.len() != rule.own.len() {
        return Ok(None);
    }
    first_false(
        alloc,
        conf.program(),
        rule,
        own.as_slice(),
        conf.variables(),
    )
}

/// The arguments that have names of their own.
pub(crate) fn own_values(
    alloc: Global,
    entry: &Entry<usize, Callee, Shape>,
    arguments: &[Value],
) -> Result<Vec<Value>, AllocError>
    ensures { IfOk result (λ v. v.items ≡ own_values (entry_of entry.now).parameters arguments.now) }
{
    let mut values = Vec::new(alloc);
    let count = entry.parameters.len().min(arguments.len());
    for i in 0..count {
        push_own(&mut values, &entry.parameters[i], &arguments[i])?;
    }
    Ok(values)
}

/// Adds the argument at the end if the parameter has a name of its own.
fn push_own(
    values: &mut Vec<Value>,
    parameter: &Parameter<usize, Callee, Shape>,
    argument: &Value,
) -> Result<(), AllocError>
    ensures { OnOk result
        (values.new.items ≡ values.old.items ++ own_value (parameter_of parameter.now) argument.now) }
{
    match parameter {
        Parameter::Const(_) => Ok(()),
        Parameter::Declared(_) => {
            values.push(argument.try_copy()?)?;
            Ok(())
        }
    }
}

/// The first false part of the condition of a rule's entry, or else of its guard, if the entry's own parameters have
/// these values.
fn first_false<'a>(
    alloc: Global,
    program: &'a Program,
    rule: &'a Rule,
    own: &[Value],
    variables: &[Value],
) -> Result<Option<Falsified<'a>>, AllocError>
    requires resolved { IsResolvedRule (declared_names program.now.automaton) rule.now }
    requires valued { length variables.now ≡ length program.now.automaton.variables }
    requires own { length rule.now.own ≡ length own.now }
    ensures { IfOk result (λ o. option_map false_part_found o ≡ spec.first_false rule.now
        (environment_at entry_condition (declared_names program.now.automaton) rule.now.own
        program.now.arguments [] own.now)
        (environment_at guard_or_effect (declared_names program.now.automaton) rule.now.own
        program.now.arguments variables.now own.now)) }
{
    match false_condition(alloc, program, rule, own)? {
        Some(found) => Ok(Some(found)),
        None => false_guard(alloc, program, rule, own, variables),
    }
}

/// The first false part of the condition of a rule's entry.
fn false_condition<'a>(
    alloc: Global,
    program: &'a Program,
    rule: &'a Rule,
    own: &[Value],
) -> Result<Option<Falsified<'a>>, AllocError>
    requires resolved { IsResolvedGuard rule.now.entry.condition
        (names_at entry_condition (declared_names program.now.automaton) rule.now.own) }
    requires own { length rule.now.own ≡ length own.now }
    ensures { IfOk result (λ o. option_map false_part_found o ≡ spec.false_part_of Test.Where rule.now.entry.condition
        (environment_at entry_condition (declared_names program.now.automaton) rule.now.own
        program.now.arguments [] own.now)) }
{
    match &rule.entry.condition {
        None => Ok(None),
        Some(condition) => {
            let given = program.arguments();
            let view = condition_view(program, rule, own);
            false_in(alloc, Test::Where, condition, &view.env(given))
        }
    }
}

/// What the condition of a rule's entry sees, if the entry's own parameters have these values: the values of the
/// automaton's parameters come first.
#[tactic(auto, using(crate::proofs::Viewed::condition_valued, crate::proofs::Viewed::condition_values))]
pub(crate) fn condition_view<'a>(program: &'a Program, rule: &'a Rule, own: &'a [Value]) -> View<'a>
    requires given { length program.now.arguments ≡ length program.now.automaton.parameters }
    requires own { length rule.now.own ≡ length own.now }
    ensures named { IsNamed result program.now.arguments }
    ensures names { names_in_view result
        ≡ names_at entry_condition (declared_names program.now.automaton) rule.now.own }
    ensures value { environment_of result program.now.arguments
        ≡ environment_at entry_condition (declared_names program.now.automaton) rule.now.own
        program.now.arguments [] own.now }
{
    let automaton = program.automaton();
    View {
        front: &[],
        names: automaton.condition_names(rule),
        lent: LentValues {
            inboxes: None,
            first: own,
            second: &[],
        },
        constants: automaton.constants(),
    }
}

/// The first false part of the guard of a rule.
fn false_guard<'a>(
    alloc: Global,
    program: &'a Program,
    rule: &'a Rule,
    own: &[Value],
    variables: &[Value],
) -> Result<Option<Falsified<'a>>, AllocError>
    requires resolved { IsResolvedGuard rule.now.transition.pre
        (names_at guard_or_effect (declared_names program.now.automaton) rule.now.own) }
    requires valued { length variables.now ≡ length program.now.automaton.variables }
    requires own { length rule.now.own ≡ length own.now }
    ensures { IfOk result (λ o. option_map false_part_found o ≡ spec.false_part_of Test.Guard rule.now.transition.pre
        (environment_at guard_or_effect (declared_names program.now.automaton) rule.now.own
        program.now.arguments variables.now own.now)) }
{
    match &rule.transition.pre {
        None => Ok(None),
        Some(guard) => {
            let view = step_view(program, rule, own, variables);
            false_in(alloc, Test::Guard, guard, &view.env(variables))
        }
    }
}

/// What the guard of a rule sees, if the entry's own parameters have these values: the values of the state variables
/// come first.
#[tactic(auto, using(crate::proofs::Viewed::step_named, crate::proofs::Viewed::step_own))]
pub(crate) fn step_view<'a>(
    program: &'a Program,
    rule: &'a Rule,
    own: &'a [Value],
    variables: &[Value],
) -> View<'a>
    requires valued { length variables.now ≡ length program.now.automaton.variables }
    requires own { length rule.now.own ≡ length own.now }
    ensures front { result.front.now ≡ [] }
    ensures named { IsNamed result variables.now }
    ensures own { own_names result (length variables.now)
        ≡ map Name.Word (variable_names program.now.automaton.variables) }
    ensures names { names_in_view result
        ≡ names_at guard_or_effect (declared_names program.now.automaton) rule.now.own }
    ensures value { environment_of result variables.now
        ≡ environment_at guard_or_effect (declared_names program.now.automaton) rule.now.own
        program.now.arguments variables.now own.now }
{
    let automaton = program.automaton();
    View {
        front: &[],
        names: automaton.step_names(rule),
        lent: LentValues {
            inboxes: None,
            first: program.arguments(),
            second: own,
        },
        constants: automaton.constants(),
    }
}

/// The first false part of a term, with the values of its names.
fn false_in<'a>(
    alloc: Global,
    test: Test,
    term: &'a Checked,
    env: &Env,
) -> Result<Option<Falsified<'a>>, AllocError>
    requires { IsResolved (term_of term.now) (names_of env.now) }
    ensures { IfOk result (λ o. option_map false_part_found o
        ≡ option_map (spec.false_by test env.now) (spec.false_part (term_of term.now) env.now)) }
{
    match false_part(alloc, term, env)? {
        None => Ok(None),
        Some(part) => Ok(Some(falsified_part(alloc, test, part, env)?)),
    }
}

/// A false part with the values of its names.
fn falsified_part<'a>(
    alloc: Global,
    test: Test,
    part: &'a Checked,
    env: &Env,
) -> Result<Falsified<'a>, AllocError>
    requires { IsResolved (term_of part.now) (names_of env.now) }
    ensures { IfOk result (λ f. false_part_found f ≡ spec.false_by test env.now (term_of part.now)) }
{
    let mut values = Vec::new(alloc);
    read_values(alloc, part, env, &mut values)?;
    Ok(Falsified { test, part, values })
}

/// The first part of a term that is false, from left to right.
pub(crate) fn false_part<'a>(
    alloc: Global,
    term: &'a Checked,
    env: &Env,
) -> Result<Option<&'a Checked>, AllocError>
    requires { IsResolved (term_of term.now) (names_of env.now) }
    ensures part { IfOk result
        (λ o. option_map (λ t. term_of t.now) o ≡ spec.false_part (term_of term.now) env.now) }
    ensures resolved { IfOk result (λ o. IfSome o (λ t. IsResolved (term_of t.now) (names_of env.now))) }
{
    match term {
        Checked::Two(operator, left, right) => {
            if is_and(*operator) {
                match false_part(alloc, left, env)? {
                    Some(part) => Ok(Some(part)),
                    None => false_part(alloc, right, env),
                }
            } else {
                if_false(alloc, term, env)
            }
        }
        _ => if_false(alloc, term, env),
    }
}

/// Whether an operator is `/\`.
fn is_and(operator: BinaryOperator) -> bool
    ensures { result ≡ spec.is_and operator }
{
    match operator {
        BinaryOperator::And => true,
        _ => false,
    }
}

/// A term, if it is false.
fn if_false<'a>(
    alloc: Global,
    term: &'a Checked,
    env: &Env,
) -> Result<Option<&'a Checked>, AllocError>
    requires { IsResolved (term_of term.now) (names_of env.now) }
    ensures part { IfOk result
        (λ o. option_map (λ t. term_of t.now) o ≡ spec.if_false (term_of term.now) env.now) }
    ensures resolved { IfOk result (λ o. IfSome o (λ t. IsResolved (term_of t.now) (names_of env.now))) }
{
    if is_false(alloc, term, env)? {
        Ok(Some(term))
    } else {
        Ok(None)
    }
}

/// Whether a term is false.
fn is_false(alloc: Global, term: &Checked, env: &Env) -> Result<bool, AllocError>
    requires { IsResolved (term_of term.now) (names_of env.now) }
    ensures { IfOk result (λ b. b ≡ spec.is_false (answer (term_of term.now) env.now)) }
{
    match eval(alloc, term, env) {
        Ok(value) => Ok(value.equals(&Value::truth(false))),
        Err(TermFault::Undefined) => Ok(false),
        Err(TermFault::Range) => Ok(false),
        Err(TermFault::Memory) => Err(AllocError),
    }
}

/// Adds the names that a term reads with their values, from left to right, each once.
#[cycle(reading)]
pub(crate) fn read_values<'a>(
    alloc: Global,
    term: &'a Checked,
    env: &Env,
    values: &mut Vec<NamedValue<'a>>,
) -> Result<(), AllocError>
    requires { IsResolved (term_of term.now) (names_of env.now) }
    ensures { OnOk result (map named_value values.new.items
        ≡ spec.values_read (term_of term.now) env.now (map named_value values.old.items)) }
{
    match term {
        Checked::Number(_) | Checked::Truth(_) => Ok(()),
        Checked::Name(name, _) => read_value(alloc, term, name, env, values),
        Checked::One(_, part) | Checked::Field(part, _, _) => read_values(alloc, part, env, values),
        Checked::Two(_, left, right) => {
            read_values(alloc, left, env, values)?;
            read_values(alloc, right, env, values)
        }
        Checked::Call(_, _, parts) | Checked::Display(_, _, parts) => {
            read_all_values(alloc, parts, env, values)
        }
    }
}

/// The same of terms, one after another.
#[cycle(reading)]
fn read_all_values<'a>(
    alloc: Global,
    terms: &'a Vec<Checked>,
    env: &Env,
    values: &mut Vec<NamedValue<'a>>,
) -> Result<(), AllocError>
    requires { AreTermsResolved (terms_of (map term_of terms.now.items)) (names_of env.now) }
    ensures { OnOk result (map named_value values.new.items ≡ spec.all_values_read
        (terms_of (map term_of terms.now.items)) env.now (map named_value values.old.items)) }
{
    for term in terms {
        read_values(alloc, term, env, values)?;
    }
    Ok(())
}

/// Adds a name with its value, which is that of this term, unless the name is there or has no value.
fn read_value<'a>(
    alloc: Global,
    term: &Checked,
    name: &'a Name,
    env: &Env,
    values: &mut Vec<NamedValue<'a>>,
) -> Result<(), AllocError>
    requires { IsResolved (term_of term.now) (names_of env.now) }
    ensures { OnOk result (map named_value values.new.items
        ≡ spec.and_value name.now (answer (term_of term.now) env.now) (map named_value values.old.items)) }
{
    match eval(alloc, term, env) {
        Ok(value) => add_value(name, value, values),
        Err(TermFault::Undefined) => Ok(()),
        Err(TermFault::Range) => Ok(()),
        Err(TermFault::Memory) => Err(AllocError),
    }
}

/// Adds a name with its value, unless the name is there.
fn add_value<'a>(
    name: &'a Name,
    value: Value,
    values: &mut Vec<NamedValue<'a>>,
) -> Result<(), AllocError>
    ensures { OnOk result (map named_value values.new.items
        ≡ spec.and_value name.now (Ok value) (map named_value values.old.items)) }
{
    if is_there(name, values) {
        return Ok(());
    }
    values.push(NamedValue { name, value })?;
    Ok(())
}

/// Whether a name is among those with values.
fn is_there(name: &Name, values: &[NamedValue]) -> bool
    ensures { result ≡ list_any (λ n. same_name n.0 name.now) (map named_value values.now) }
{
    for known in values {
        if *known.name == *name {
            return true;
        }
    }
    false
}
