//! The rule of a program that an action takes, and the values that the rule leaves.

ghost use Rattle.std.specs.Prelude.{◌≡◌, ◌≤◌, ◌&&◌, ◌++◌, ◌∷◌, [], IfOk, OnOk, IfSome, Ok, Some, true};
ghost use Rattle.std.specs.Prelude.{map, length, min, take, drop};
ghost use Rattle.std.specs.Option.{option_copied, option_map};
ghost use Rattle.ioa_source.specs.TextView.{entry_of, parameter_of};
ghost use Rattle.ioa_terms.specs.View.{term_of};
ghost use Rattle.ioa_values.specs.Data.{is_within, number};
ghost use Rattle.ioa_values.specs.Outcome.{Answers, and_then};
ghost use Rattle.ioa_actions.specs.ActionParts.{action_arguments, action_name};
ghost use Rattle.ioa_actions.specs.declared.action.Action.TheVariants.{Local, Stimulus};
ghost use Rattle.ioa_system.specs.InView.{declared_names, environment_at, given_bindings, names_at, variable_names};
ghost use Rattle.ioa_system.specs.InView.{entry_constant, entry_condition, guard_or_effect};
ghost use Rattle.ioa_system.specs.ResolvedPrograms.{IsResolvedRule, IsResolvedGuard};
ghost use Rattle.ioa_system.specs.ResolvedPrograms.{IsResolvedParameter, AreResolvedParameters};
ghost use Rattle.ioa_transitions.specs.NodeState.{node_state};
ghost use Rattle.ioa_transitions.specs.NodeAnswers as spec;
ghost use Rattle.ioa_transitions.specs.NodeStep.{own_value, own_values};
ghost use Rattle.ioa_terms.specs.Meaning.{answer};
ghost use Rattle.ioa_terms.specs.Performance.{answer_by};
ghost use Rattle.ioa_terms.specs.Choices.{left, source_of};
ghost use Rattle.ioa_terms.specs.Resolved.{AreResolved, IsResolved};
ghost use Rattle.ioa_terms.specs.Bindings.{lookup, same_word, slot_in};
ghost use Rattle.ioa_operators.specs.RangeCheck.{checked_result};
ghost use Rattle.ioa_terms.specs.Views.{IsNamed, environment_of, names_in_view, own_names};

use ioa_actions::{Action, NodeAction, RECEIVE, SEND, StepFault};
use ioa_copies::copy_values;
use ioa_source::{Entry, Parameter};
use ioa_system::{Program, Rule};
use ioa_terms::{
    Callee, Checked, Choices, EffectFault, Kind, LentValues, Name, Shape, TermFault, Value, View,
    Word, eval, evaluate, evaluate_test, perform,
};
use ioa_values::ValueForm;
use std::alloc::{AllocError, Global};
use std::mem::ManuallyDrop;

/// Whether an action has an entry's name, and is of the entry's kind.
#[inline(always)]
fn is_of(action: &Action, name: &Word, kind: Kind) -> bool
    ensures { result ≡ (same_word name.now (action_name action.now) && spec.kind_agrees action.now kind) }
{
    match action {
        Action::Send { .. } => name.spells(SEND) && kind == Kind::Output,
        Action::Receive { .. } => name.spells(RECEIVE) && kind == Kind::Input,
        Action::Local(local) => name.spells(local.name.as_str()) && is_local(local, kind),
        Action::Stimulus(stimulus) => {
            name.spells(stimulus.name.as_str()) && is_stimulus(stimulus, kind)
        }
    }
}

/// Whether an entry of this kind can have an action that its node controls, and that is no send.
#[inline(always)]
fn is_local(action: &NodeAction, kind: Kind) -> bool
    ensures { result ≡ spec.kind_agrees (Local action.now) kind }
{
    match kind {
        Kind::Input => false,
        Kind::Output => !action.name.spells(SEND),
        Kind::Internal => true,
    }
}

/// Whether an entry of this kind can have an input that is no receive.
#[inline(always)]
fn is_stimulus(action: &NodeAction, kind: Kind) -> bool
    ensures { result ≡ spec.kind_agrees (Stimulus action.now) kind }
{
    match kind {
        Kind::Input => !action.name.spells(RECEIVE),
        Kind::Output => false,
        Kind::Internal => false,
    }
}

/// Whether a value is one that a parameter takes at a node with this program. A negative number passes for a Nat here.
#[inline(always)]
fn parameter_agrees(
    alloc: Global,
    program: &Program,
    parameter: &Parameter<usize, Callee, Shape>,
    value: &Value,
) -> Result<bool, AllocError>
    requires { IsResolvedParameter (names_at entry_constant (declared_names program.now.automaton) [])
        (parameter_of parameter.now) }
    ensures { IfOk result (λ b. b ≡ spec.parameter_agrees
        (given_bindings program.now.automaton program.now.arguments) (parameter_of parameter.now) value.now) }
{
    match parameter {
        Parameter::Const(term) => constant_agrees(alloc, program, term, value),
        Parameter::Declared(declared) => Ok(declared.shape.admits_negative(value)),
    }
}

/// Whether a value is that of a term which reads what the node gives the automaton's parameters. Nothing is evaluated
/// for a number or the name of a parameter.
#[inline(always)]
fn constant_agrees(
    alloc: Global,
    program: &Program,
    term: &Checked,
    value: &Value,
) -> Result<bool, AllocError>
    requires { IsResolved (term_of term.now) (names_at entry_constant (declared_names program.now.automaton) []) }
    ensures { IfOk result (λ b. b ≡ spec.constant_agrees
        (answer (term_of term.now) (given_bindings program.now.automaton program.now.arguments)) value.now) }
{
    match term {
        Checked::Number(n) => Ok(Value::number(*n).equals(value)),
        _ => match given_value(program, term) {
            Some(given) => Ok(given.equals(value)),
            None => evaluated_agrees(alloc, program, term, value),
        },
    }
}

/// The value that the node gives, if the term is the name of a parameter of the automaton.
#[inline(always)]
fn given_value<'a>(program: &'a Program, term: &Checked) -> Option<&'a Value>
    requires { IsResolved (term_of term.now) (names_at entry_constant (declared_names program.now.automaton) []) }
    ensures { IfSome result (λ v. answer (term_of term.now)
        (given_bindings program.now.automaton program.now.arguments) ≡ Ok v.now) }
{
    match term {
        Checked::Name(name, slot) => given_at(program, name, *slot),
        _ => None,
    }
}

/// The value that the node gives a name, if it is that of a parameter of the automaton.
#[inline(always)]
#[tactic(auto, using(crate::proofs::Arguments::given_there))]
fn given_at<'a>(program: &'a Program, name: &Name, slot: usize) -> Option<&'a Value>
    requires { slot_in name.now (names_at entry_constant (declared_names program.now.automaton) []) ≡ Some slot }
    ensures { IfSome result (λ v. checked_result (lookup name.now
        (given_bindings program.now.automaton program.now.arguments)) ≡ Ok v.now) }
{
    let given = program.arguments();
    if slot < given.len() {
        let value = &given[slot];
        within_law(value);
        Some(value)
    } else {
        None
    }
}

/// A value that is a number lies within 64 bits. Does nothing.
fn within_law(value: &Value)
    ensures { is_within value.now ≡ true }
{
    let _number = value.as_number();
}

/// Whether a value is that of a term, which is evaluated.
#[inline(never)]
fn evaluated_agrees(
    alloc: Global,
    program: &Program,
    term: &Checked,
    value: &Value,
) -> Result<bool, AllocError>
    requires { IsResolved (term_of term.now) (names_at entry_constant (declared_names program.now.automaton) []) }
    ensures { IfOk result (λ b. b ≡ spec.constant_agrees
        (answer (term_of term.now) (given_bindings program.now.automaton program.now.arguments)) value.now) }
{
    let env = program.automaton().given_env(program.arguments());
    match eval(alloc, term, &env) {
        Ok(constant) => Ok(constant.equals(value)),
        Err(TermFault::Undefined) => Ok(false),
        Err(TermFault::Range) => Ok(false),
        Err(TermFault::Memory) => Err(AllocError),
    }
}

/// Whether arguments fit an entry's parameters at a node with this program.
#[inline(always)]
fn arguments_agree(
    alloc: Global,
    program: &Program,
    parameters: &[Parameter<usize, Callee, Shape>],
    arguments: &[Value],
) -> Result<bool, AllocError>
    requires { AreResolvedParameters (names_at entry_constant (declared_names program.now.automaton) [])
        (map parameter_of parameters.now) }
    ensures { IfOk result (λ b. b ≡ spec.arguments_agree
        (given_bindings program.now.automaton program.now.arguments) (map parameter_of parameters.now) arguments.now) }
{
    if parameters.len() != arguments.len() {
        return Ok(false);
    }
    for i in 0..parameters.len() {
        if !parameter_agrees(alloc, program, &parameters[i], &arguments[i])? {
            return Ok(false);
        }
    }
    Ok(true)
}

/// Passes if no argument holds a negative number where its sort says Nat; else `Undefined` (1).
#[inline(always)]
fn pass_naturals(
    parameters: &[Parameter<usize, Callee, Shape>],
    arguments: &[Value],
) -> Result<(), StepFault>
    ensures { result ≡ spec.naturals_answer (map parameter_of parameters.now) arguments.now }
{
    for i in 0..parameters.len().min(arguments.len()) {
        if !is_natural(&parameters[i], &arguments[i]) {
            return Err(StepFault::Undefined);
        }
    }
    Ok(())
}

/// Whether an argument holds no negative number where its sort says Nat.
#[inline(always)]
fn is_natural(parameter: &Parameter<usize, Callee, Shape>, argument: &Value) -> bool
    ensures { result ≡ spec.is_natural (parameter_of parameter.now) argument.now }
{
    match parameter {
        Parameter::Const(_) => true,
        Parameter::Declared(declared) => declared.shape.admits(argument),
    }
}

/// Whether an action with these arguments is one of an entry's at a node with this program. Kinds and numbers of
/// arguments are compared before names, and constants come last.
#[inline(always)]
fn entry_agrees(
    alloc: Global,
    program: &Program,
    entry: &Entry<usize, Callee, Shape>,
    action: &Action,
    arguments: &[Value],
) -> Result<bool, AllocError>
    requires resolved { AreResolvedParameters (names_at entry_constant (declared_names program.now.automaton) [])
        (entry_of entry.now).parameters }
    requires own { arguments.now ≡ action_arguments action.now }
    ensures { IfOk result (λ b. b ≡ spec.entry_agrees (given_bindings program.now.automaton program.now.arguments)
        action.now (entry_of entry.now)) }
{
    if entry.parameters.len() != arguments.len() {
        return Ok(false);
    }
    if !is_of(action, &entry.name, entry.kind) {
        return Ok(false);
    }
    arguments_agree(alloc, program, &entry.parameters, arguments)
}

/// The rule that an action with these arguments takes at a node with this program, if there is one. Constants of
/// entries read the values that the node gives the automaton's parameters. If `rule_number` is the rule's number, it
/// costs the same however many rules there are.
#[inline(always)]
pub fn rule_for<'a>(
    alloc: Global,
    program: &'a Program,
    action: &Action,
    rule_number: Option<usize>,
    arguments: &[Value],
) -> Result<Option<&'a Rule>, AllocError>
    requires { arguments.now ≡ action_arguments action.now }
    ensures found { IfOk result (λ r. option_copied r ≡ spec.rule_for program.now action.now) }
    ensures resolved { IfOk result
        (λ r. IfSome r (λ x. IsResolvedRule (declared_names program.now.automaton) x.now)) }
    ensures agrees { IfOk result (λ r. IfSome r (λ x. spec.entry_agrees
        (given_bindings program.now.automaton program.now.arguments) action.now x.now.entry ≡ true)) }
{
    if let Some(number) = rule_number {
        let rule = rule_numbered(alloc, program, action, number, arguments)?;
        if rule.is_some() {
            return Ok(rule);
        }
    }
    rule_among(alloc, program, action, arguments)
}

/// The same, if it is the rule of this number.
#[inline(always)]
#[tactic(auto, using(crate::proofs::NodeSignatures::found_numbered))]
fn rule_numbered<'a>(
    alloc: Global,
    program: &'a Program,
    action: &Action,
    number: usize,
    arguments: &[Value],
) -> Result<Option<&'a Rule>, AllocError>
    requires { arguments.now ≡ action_arguments action.now }
    ensures found { IfOk result (λ r. IfSome r (λ x. Some x.now ≡ spec.rule_for program.now action.now)) }
    ensures resolved { IfOk result
        (λ r. IfSome r (λ x. IsResolvedRule (declared_names program.now.automaton) x.now)) }
    ensures agrees { IfOk result (λ r. IfSome r (λ x. spec.entry_agrees
        (given_bindings program.now.automaton program.now.arguments) action.now x.now.entry ≡ true)) }
{
    let rules = program.automaton().rules();
    if number < rules.len() {
        let rule = &rules[number];
        if entry_agrees(alloc, program, &rule.entry, action, arguments)? {
            return Ok(Some(rule));
        }
    }
    Ok(None)
}

/// The same, by a search among all rules.
#[inline(never)]
fn rule_among<'a>(
    alloc: Global,
    program: &'a Program,
    action: &Action,
    arguments: &[Value],
) -> Result<Option<&'a Rule>, AllocError>
    requires { arguments.now ≡ action_arguments action.now }
    ensures found { IfOk result (λ r. option_copied r ≡ spec.rule_for program.now action.now) }
    ensures resolved { IfOk result
        (λ r. IfSome r (λ x. IsResolvedRule (declared_names program.now.automaton) x.now)) }
    ensures agrees { IfOk result (λ r. IfSome r (λ x. spec.entry_agrees
        (given_bindings program.now.automaton program.now.arguments) action.now x.now.entry ≡ true)) }
{
    for rule in program.automaton().rules() {
        if entry_agrees(alloc, program, &rule.entry, action, arguments)? {
            return Ok(Some(rule));
        }
    }
    Ok(None)
}

/// Puts the values of a node's state variables after an action into a list, in place of what is there. The action's
/// effect takes the values that it chooses as `choices` says. `rule_number` is that of the action's rule, if it is
/// known.
#[inline(always)]
pub fn values_after(
    alloc: Global,
    program: &Program,
    variables: &[Value],
    action: &Action,
    rule_number: Option<usize>,
    values: &mut Vec<Value>,
    choices: &mut Choices,
) -> Result<(), StepFault>
    requires valued { length variables.now ≡ length program.now.automaton.variables }
    ensures after { Answers StepFault.Memory (λ _. spec.taken values.new.items (source_of choices.new)) result
        (spec.values_answer (node_state program.now variables.now) action.now (source_of choices.old)) }
    ensures valued { OnOk result (length values.new.items ≡ length variables.now) }
    ensures kept { length values.old.items ≡ length variables.now → length values.new.items ≡ length variables.now }
{
    match action {
        Action::Send { message, from, to } | Action::Receive { message, from, to } => {
            values_by_message(
                alloc,
                program,
                variables,
                action,
                rule_number,
                message,
                *from,
                *to,
                values,
                choices,
            )
        }
        Action::Local(own) | Action::Stimulus(own) => {
            let arguments = own.arguments.as_slice();
            values_by(
                alloc,
                program,
                variables,
                action,
                rule_number,
                arguments,
                values,
                choices,
            )
        }
    }
}

/// The same of an action whose arguments are a message and two nodes.
#[inline(never)]
fn values_by_message(
    alloc: Global,
    program: &Program,
    variables: &[Value],
    action: &Action,
    rule_number: Option<usize>,
    message: &Value,
    from: i64,
    to: i64,
    values: &mut Vec<Value>,
    choices: &mut Choices,
) -> Result<(), StepFault>
    requires valued { length variables.now ≡ length program.now.automaton.variables }
    requires own { action_arguments action.now ≡ message.now ∷ number from ∷ number to ∷ [] }
    ensures after { Answers StepFault.Memory (λ _. spec.taken values.new.items (source_of choices.new)) result
        (spec.values_answer (node_state program.now variables.now) action.now (source_of choices.old)) }
    ensures valued { OnOk result (length values.new.items ≡ length variables.now) }
    ensures kept { length values.old.items ≡ length variables.now → length values.new.items ≡ length variables.now }
{
    match &message.form {
        ValueForm::Number(n) => values_by_numbers(
            alloc,
            program,
            variables,
            action,
            rule_number,
            *n,
            from,
            to,
            values,
            choices,
        ),
        _ => values_by_copy(
            alloc,
            program,
            variables,
            action,
            rule_number,
            message,
            from,
            to,
            values,
            choices,
        ),
    }
}

/// The same if the message is a number. Numbers own nothing, so the arguments need no drop.
#[inline(always)]
fn values_by_numbers(
    alloc: Global,
    program: &Program,
    variables: &[Value],
    action: &Action,
    rule_number: Option<usize>,
    message: i64,
    from: i64,
    to: i64,
    values: &mut Vec<Value>,
    choices: &mut Choices,
) -> Result<(), StepFault>
    requires valued { length variables.now ≡ length program.now.automaton.variables }
    requires own { action_arguments action.now ≡ number message ∷ number from ∷ number to ∷ [] }
    ensures after { Answers StepFault.Memory (λ _. spec.taken values.new.items (source_of choices.new)) result
        (spec.values_answer (node_state program.now variables.now) action.now (source_of choices.old)) }
    ensures valued { OnOk result (length values.new.items ≡ length variables.now) }
    ensures kept { length values.old.items ≡ length variables.now → length values.new.items ≡ length variables.now }
{
    let arguments = ManuallyDrop::new([
        Value::number(message),
        Value::number(from),
        Value::number(to),
    ]);
    values_by(
        alloc,
        program,
        variables,
        action,
        rule_number,
        &*arguments,
        values,
        choices,
    )
}

/// The same with a copy of the message.
#[inline(never)]
fn values_by_copy(
    alloc: Global,
    program: &Program,
    variables: &[Value],
    action: &Action,
    rule_number: Option<usize>,
    message: &Value,
    from: i64,
    to: i64,
    values: &mut Vec<Value>,
    choices: &mut Choices,
) -> Result<(), StepFault>
    requires valued { length variables.now ≡ length program.now.automaton.variables }
    requires own { action_arguments action.now ≡ message.now ∷ number from ∷ number to ∷ [] }
    ensures after { Answers StepFault.Memory (λ _. spec.taken values.new.items (source_of choices.new)) result
        (spec.values_answer (node_state program.now variables.now) action.now (source_of choices.old)) }
    ensures valued { OnOk result (length values.new.items ≡ length variables.now) }
    ensures kept { length values.old.items ≡ length variables.now → length values.new.items ≡ length variables.now }
{
    let message = message.try_copy()?;
    let arguments = [message, Value::number(from), Value::number(to)];
    values_by(
        alloc,
        program,
        variables,
        action,
        rule_number,
        &arguments,
        values,
        choices,
    )
}

/// The same of an action with these arguments.
#[inline(always)]
fn values_by(
    alloc: Global,
    program: &Program,
    variables: &[Value],
    action: &Action,
    rule_number: Option<usize>,
    arguments: &[Value],
    values: &mut Vec<Value>,
    choices: &mut Choices,
) -> Result<(), StepFault>
    requires valued { length variables.now ≡ length program.now.automaton.variables }
    requires own { arguments.now ≡ action_arguments action.now }
    ensures after { Answers StepFault.Memory (λ _. spec.taken values.new.items (source_of choices.new)) result
        (spec.values_answer (node_state program.now variables.now) action.now (source_of choices.old)) }
    ensures valued { OnOk result (length values.new.items ≡ length variables.now) }
    ensures kept { length values.old.items ≡ length variables.now → length values.new.items ≡ length variables.now }
{
    match rule_for(alloc, program, action, rule_number, arguments)? {
        None => Err(StepFault::NotMine),
        Some(rule) => take_transition(alloc, program, rule, arguments, variables, values, choices),
    }
}

/// Puts the values of the state variables after a transition into a list, in place of what is there. The arguments are
/// tested first, then the entry's condition, then the guard, and then the effect is performed. The variables are copied
/// for the effect alone.
#[inline(always)]
fn take_transition(
    alloc: Global,
    program: &Program,
    rule: &Rule,
    arguments: &[Value],
    variables: &[Value],
    values: &mut Vec<Value>,
    choices: &mut Choices,
) -> Result<(), StepFault>
    // the names in the rule are resolved, and each has a value
    requires resolved { IsResolvedRule (declared_names program.now.automaton) rule.now }
    requires valued { length variables.now ≡ length program.now.automaton.variables }
    requires own { length rule.now.own ≡ length (own_values rule.now.entry.parameters arguments.now) }
    // the new values, one for each variable
    ensures after { Answers StepFault.Memory (λ _. spec.taken values.new.items (source_of choices.new)) result
        (spec.step_answer (length variables.now) rule.now arguments.now
        (environment_at entry_condition (declared_names program.now.automaton) rule.now.own
        program.now.arguments variables.now (own_values rule.now.entry.parameters arguments.now))
        (left (environment_at guard_or_effect (declared_names program.now.automaton) rule.now.own
        program.now.arguments variables.now (own_values rule.now.entry.parameters arguments.now))
        (source_of choices.old))) }
    ensures valued { OnOk result (length values.new.items ≡ length variables.now) }
    ensures kept { length values.old.items ≡ length variables.now → length values.new.items ≡ length variables.now }
{
    pass_naturals(&rule.entry.parameters, arguments)?;
    match lent_own(&rule.entry.parameters, arguments) {
        Some(own) => pass_own(alloc, program, rule, own, variables, values, choices),
        None => pass_copies(alloc, program, rule, arguments, variables, values, choices),
    }
}

/// The same behind the test of the arguments, if the entry's own parameters do not stand side by side: their values are
/// copied.
#[inline(never)]
fn pass_copies(
    alloc: Global,
    program: &Program,
    rule: &Rule,
    arguments: &[Value],
    variables: &[Value],
    values: &mut Vec<Value>,
    choices: &mut Choices,
) -> Result<(), StepFault>
    requires resolved { IsResolvedRule (declared_names program.now.automaton) rule.now }
    requires valued { length variables.now ≡ length program.now.automaton.variables }
    requires own { length rule.now.own ≡ length (own_values rule.now.entry.parameters arguments.now) }
    ensures after { Answers StepFault.Memory (λ _. spec.taken values.new.items (source_of choices.new)) result
        (and_then (spec.guard_answer rule.now.entry.condition
        (environment_at entry_condition (declared_names program.now.automaton) rule.now.own
        program.now.arguments [] (own_values rule.now.entry.parameters arguments.now)))
        (λ _. spec.transition_answer (length variables.now) rule.now.transition
        (left (environment_at guard_or_effect (declared_names program.now.automaton) rule.now.own
        program.now.arguments variables.now (own_values rule.now.entry.parameters arguments.now))
        (source_of choices.old)))) }
    ensures valued { OnOk result (length values.new.items ≡ length variables.now) }
    ensures kept { length values.old.items ≡ length variables.now → length values.new.items ≡ length variables.now }
{
    let own = own_values(alloc, &rule.entry, arguments)?;
    pass_own(alloc, program, rule, &own, variables, values, choices)
}

/// The same, if the entry's own parameters have these values: the entry's condition is tested, then the guard, and then
/// the effect is performed.
#[inline(always)]
fn pass_own(
    alloc: Global,
    program: &Program,
    rule: &Rule,
    own: &[Value],
    variables: &[Value],
    values: &mut Vec<Value>,
    choices: &mut Choices,
) -> Result<(), StepFault>
    requires resolved { IsResolvedRule (declared_names program.now.automaton) rule.now }
    requires valued { length variables.now ≡ length program.now.automaton.variables }
    requires own { length rule.now.own ≡ length own.now }
    ensures after { Answers StepFault.Memory (λ _. spec.taken values.new.items (source_of choices.new)) result
        (and_then (spec.guard_answer rule.now.entry.condition
        (environment_at entry_condition (declared_names program.now.automaton) rule.now.own
        program.now.arguments [] own.now))
        (λ _. spec.transition_answer (length variables.now) rule.now.transition
        (left (environment_at guard_or_effect (declared_names program.now.automaton) rule.now.own
        program.now.arguments variables.now own.now) (source_of choices.old)))) }
    ensures valued { OnOk result (length values.new.items ≡ length variables.now) }
    ensures kept { length values.old.items ≡ length variables.now → length values.new.items ≡ length variables.now }
{
    pass_condition(alloc, program, rule, own)?;
    pass_step(alloc, program, rule, own, variables, values, choices)
}

/// Passes if the condition of a rule's entry is true or missing; else `NotEnabled` (40). It reads no state variable.
#[inline(always)]
fn pass_condition(
    alloc: Global,
    program: &Program,
    rule: &Rule,
    own: &[Value],
) -> Result<(), StepFault>
    requires resolved { IsResolvedGuard rule.now.entry.condition
        (names_at entry_condition (declared_names program.now.automaton) rule.now.own) }
    requires own { length rule.now.own ≡ length own.now }
    ensures { Answers StepFault.Memory (λ _. tt) result (spec.guard_answer rule.now.entry.condition
        (environment_at entry_condition (declared_names program.now.automaton) rule.now.own
        program.now.arguments [] own.now)) }
{
    match &rule.entry.condition {
        None => Ok(()),
        Some(condition) => {
            let given = program.arguments();
            let view = condition_view(program, rule, own);
            pass_test(alloc, condition, &view, given)
        }
    }
}

/// What the condition of a rule's entry sees, if the entry's own parameters have these values: the values of the
/// automaton's parameters come first.
#[tactic(auto, using(crate::proofs::Arguments::condition_valued, crate::proofs::Arguments::condition_values))]
fn condition_view<'a>(program: &'a Program, rule: &'a Rule, own: &'a [Value]) -> View<'a>
    requires given { length program.now.arguments ≡ length program.now.automaton.parameters }
    requires own { length rule.now.own ≡ length own.now }
    ensures named { IsNamed result program.now.arguments }
    ensures names { names_in_view result
        ≡ names_at entry_condition (declared_names program.now.automaton) rule.now.own }
    ensures value { environment_of result program.now.arguments
        ≡ environment_at entry_condition (declared_names program.now.automaton) rule.now.own
        program.now.arguments [] own.now }
{
    let automaton = program.automaton();
    View {
        front: &[],
        names: automaton.condition_names(rule),
        lent: LentValues {
            inboxes: None,
            first: own,
            second: &[],
        },
        constants: automaton.constants(),
    }
}

/// Puts the values of the state variables after a rule's transition into a list, in place of what is there, if the
/// entry's own parameters have these values: the guard is tested, and then the effect is performed.
#[inline(always)]
fn pass_step(
    alloc: Global,
    program: &Program,
    rule: &Rule,
    own: &[Value],
    variables: &[Value],
    values: &mut Vec<Value>,
    choices: &mut Choices,
) -> Result<(), StepFault>
    requires resolved { IsResolvedRule (declared_names program.now.automaton) rule.now }
    requires valued { length variables.now ≡ length program.now.automaton.variables }
    requires own { length rule.now.own ≡ length own.now }
    ensures after { Answers StepFault.Memory (λ _. spec.taken values.new.items (source_of choices.new)) result
        (spec.transition_answer (length variables.now) rule.now.transition
        (left (environment_at guard_or_effect (declared_names program.now.automaton) rule.now.own
        program.now.arguments variables.now own.now) (source_of choices.old))) }
    ensures valued { OnOk result (length values.new.items ≡ length variables.now) }
    ensures kept { length values.old.items ≡ length variables.now → length values.new.items ≡ length variables.now }
{
    let view = step_view(program, rule, own, variables);
    pass_guard(alloc, &rule.transition.pre, &view, variables)?;
    take_effect(alloc, rule, &view, variables, values, choices)
}

/// What the guard and the effect of a rule see, if the entry's own parameters have these values: the values of the
/// state variables come first.
#[tactic(auto, using(crate::proofs::Arguments::step_named, crate::proofs::Arguments::step_own))]
fn step_view<'a>(
    program: &'a Program,
    rule: &'a Rule,
    own: &'a [Value],
    variables: &[Value],
) -> View<'a>
    requires valued { length variables.now ≡ length program.now.automaton.variables }
    requires own { length rule.now.own ≡ length own.now }
    ensures named { IsNamed result variables.now }
    ensures front { result.front.now ≡ [] }
    ensures own { own_names result (length variables.now)
        ≡ map Name.Word (variable_names program.now.automaton.variables) }
    ensures names { names_in_view result
        ≡ names_at guard_or_effect (declared_names program.now.automaton) rule.now.own }
    ensures value { environment_of result variables.now
        ≡ environment_at guard_or_effect (declared_names program.now.automaton) rule.now.own
        program.now.arguments variables.now own.now }
{
    let automaton = program.automaton();
    View {
        front: &[],
        names: automaton.step_names(rule),
        lent: LentValues {
            inboxes: None,
            first: program.arguments(),
            second: own,
        },
        constants: automaton.constants(),
    }
}

/// Puts the values of the state variables after a rule's effect into a list, in place of what is there. The effect is
/// performed on a copy of them.
#[inline(always)]
#[tactic(auto, using(crate::proofs::Arguments::effect_answer_view))]
fn take_effect(
    alloc: Global,
    rule: &Rule,
    view: &View,
    variables: &[Value],
    values: &mut Vec<Value>,
    choices: &mut Choices,
) -> Result<(), StepFault>
    requires resolved { AreResolved rule.now.transition.effect (own_names view.now (length variables.now))
        (names_in_view view.now) }
    requires named { IsNamed view.now variables.now }
    requires front { view.now.front.now ≡ [] }
    ensures after { Answers StepFault.Memory (λ _. spec.taken values.new.items (source_of choices.new)) result
        (spec.effect_answer (length variables.now) (answer_by rule.now.transition.effect
        (left (environment_of view.now variables.now) (source_of choices.old)))) }
    ensures valued { OnOk result (length values.new.items ≡ length variables.now) }
    ensures kept { length values.old.items ≡ length variables.now → length values.new.items ≡ length variables.now }
{
    copy_values(alloc, variables, values)?;
    match perform(alloc, &rule.transition.effect, view, values, choices) {
        Ok(()) => Ok(()),
        Err(fault) => Err(step_fault(fault)),
    }
}

/// An effect's fault, as a step's.
fn step_fault(fault: EffectFault) -> StepFault
    ensures { result ≡ spec.effect_step_fault fault }
{
    match fault {
        EffectFault::Undefined => StepFault::Undefined,
        EffectFault::Range => StepFault::Range,
        EffectFault::Memory => StepFault::Memory,
        EffectFault::NoChoice => StepFault::NoChoice,
    }
}

/// The arguments that have names of their own, if they stand side by side.
#[inline(always)]
#[tactic(auto, using(crate::proofs::Arguments::own_part))]
fn lent_own<'a>(
    parameters: &[Parameter<usize, Callee, Shape>],
    arguments: &'a [Value],
) -> Option<&'a [Value]>
    ensures { IfSome result (λ own. own.now ≡ own_values (map parameter_of parameters.now) arguments.now) }
{
    let first = constants_end(parameters, arguments, 0);
    let end = own_end(parameters, arguments, first);
    let last = constants_end(parameters, arguments, end);
    if last == parameters.len().min(arguments.len()) {
        Some(&arguments[first..end])
    } else {
        None
    }
}

/// Where the constants end that begin at a position.
#[inline(always)]
fn constants_end(
    parameters: &[Parameter<usize, Callee, Shape>],
    arguments: &[Value],
    from: usize,
) -> usize
    requires { from ≤ min (length parameters.now) (length arguments.now) }
    ensures begin { from ≤ result }
    ensures end { result ≤ min (length parameters.now) (length arguments.now) }
    ensures left { own_values (map parameter_of (drop result parameters.now)) (drop result arguments.now)
        ≡ own_values (map parameter_of (drop from parameters.now)) (drop from arguments.now) }
{
    let many = parameters.len().min(arguments.len());
    for i in from..many {
        match &parameters[i] {
            Parameter::Const(_) => {}
            Parameter::Declared(_) => return i,
        }
    }
    many
}

/// Where the parameters with names of their own end that begin at a position.
#[inline(always)]
fn own_end(
    parameters: &[Parameter<usize, Callee, Shape>],
    arguments: &[Value],
    from: usize,
) -> usize
    requires { from ≤ min (length parameters.now) (length arguments.now) }
    ensures begin { from ≤ result }
    ensures end { result ≤ min (length parameters.now) (length arguments.now) }
    ensures left { drop from (take result arguments.now)
        ++ own_values (map parameter_of (drop result parameters.now)) (drop result arguments.now)
        ≡ own_values (map parameter_of (drop from parameters.now)) (drop from arguments.now) }
{
    let many = parameters.len().min(arguments.len());
    for i in from..many {
        match &parameters[i] {
            Parameter::Const(_) => return i,
            Parameter::Declared(_) => {}
        }
    }
    many
}

/// The arguments that have names of their own.
fn own_values(
    alloc: Global,
    entry: &Entry<usize, Callee, Shape>,
    arguments: &[Value],
) -> Result<Vec<Value>, AllocError>
    ensures { IfOk result (λ v. v.items ≡ own_values (entry_of entry.now).parameters arguments.now) }
{
    let mut values = Vec::new(alloc);
    let count = entry.parameters.len().min(arguments.len());
    for i in 0..count {
        push_own(&mut values, &entry.parameters[i], &arguments[i])?;
    }
    Ok(values)
}

/// Adds the argument at the end if the parameter has a name of its own.
fn push_own(
    values: &mut Vec<Value>,
    parameter: &Parameter<usize, Callee, Shape>,
    argument: &Value,
) -> Result<(), AllocError>
    ensures { OnOk result
        (values.new.items ≡ values.old.items ++ own_value (parameter_of parameter.now) argument.now) }
{
    match parameter {
        Parameter::Const(_) => Ok(()),
        Parameter::Declared(_) => {
            values.push(argument.try_copy()?)?;
            Ok(())
        }
    }
}

/// Passes if a guard is true or missing; else `NotEnabled` (40).
#[inline(always)]
fn pass_guard(
    alloc: Global,
    pre: &Option<Checked>,
    view: &View,
    values: &[Value],
) -> Result<(), StepFault>
    requires named { IsNamed view.now values.now }
    requires resolved { IsResolvedGuard (option_map term_of pre.now) (names_in_view view.now) }
    ensures { Answers StepFault.Memory (λ _. tt) result
        (spec.guard_answer (option_map term_of pre.now) (environment_of view.now values.now)) }
{
    match pre {
        None => Ok(()),
        Some(guard) => pass_test(alloc, guard, view, values),
    }
}

/// Passes if a test is true; else `NotEnabled` (40).
#[tactic(auto, using(crate::proofs::Guards::test_passes, crate::proofs::Guards::test_fails))]
fn pass_test(alloc: Global, test: &Checked, view: &View, values: &[Value]) -> Result<(), StepFault>
    requires named { IsNamed view.now values.now }
    requires resolved { IsResolved (term_of test.now) (names_in_view view.now) }
    ensures { Answers StepFault.Memory (λ _. tt) result
        (spec.value_answer (answer (term_of test.now) (environment_of view.now values.now))) }
{
    match evaluate_test(alloc, test, view, values) {
        Ok(true) => Ok(()),
        Ok(false) => Err(StepFault::NotEnabled),
        Err(_) => pass_value(alloc, test, view, values),
    }
}

/// The same, by the value of the test.
#[inline(never)]
#[tactic(auto, using(ioa_terms::proofs::Stepwise::stepwise_is))]
fn pass_value(alloc: Global, test: &Checked, view: &View, values: &[Value]) -> Result<(), StepFault>
    requires named { IsNamed view.now values.now }
    requires resolved { IsResolved (term_of test.now) (names_in_view view.now) }
    ensures { Answers StepFault.Memory (λ _. tt) result
        (spec.value_answer (answer (term_of test.now) (environment_of view.now values.now))) }
{
    match evaluate(alloc, test, view, values)?.as_truth() {
        Some(true) => Ok(()),
        _ => Err(StepFault::NotEnabled),
    }
}
