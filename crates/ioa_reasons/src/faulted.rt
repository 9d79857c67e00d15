//! The part at which a step of a node stops.

ghost use Rattle.std.specs.Prelude.{◌≡◌, [], IfOk, IfSome, Some, length};
ghost use Rattle.ioa_actions.specs.ActionParts.{node_of};
ghost use Rattle.ioa_commits.specs.Versions.{read_confs};
ghost use Rattle.ioa_compose.specs.Composition.{find_conf};
ghost use Rattle.ioa_system.specs.InView.{declared_names, entry_condition, environment_at, guard_or_effect};
ghost use Rattle.ioa_system.specs.ResolvedPrograms.{IsResolvedGuard, IsResolvedRule};
ghost use Rattle.ioa_terms.specs.Resolved.{AreResolved};
ghost use Rattle.ioa_terms.specs.Views.{IsNamed, environment_of, names_in_view, own_names};
ghost use Rattle.ioa_transitions.specs.NodeStep.{rule_bindings};
ghost use Rattle.ioa_reasons.specs.PlainReasons.{place_of, statement_place_of};
ghost use Rattle.ioa_reasons.specs.Faulted.{IsFaultAt, IsFaulted, StopsThen};
ghost use Rattle.ioa_reasons.specs.FoundFaults.{fault_found};
ghost use Rattle.ioa_reasons.specs.Stopping.{HasNoValue};
ghost use Rattle.ioa_reasons.specs.Stops.{IsStopIn};

use crate::falsified::{condition_view, own_values, step_view};
use crate::found::{FoundFault, StatementFault, fault_by, without_value};
use crate::reason::Place;
use crate::shown::conf_of;
use crate::stops::{Stop, faulty_in, stop_of_all};
use ioa_actions::{Action, Component};
use ioa_book::Snapshot;
use ioa_compose::Conf;
use ioa_sharing::Origin;
use ioa_system::{Program, Rule};
use ioa_terms::View;
use ioa_transitions::NodeConf;
use ioa_values::{Value, copies};
use std::alloc::{AllocError, Global};

/// A part at which a step stops, and where it is written.
#[derive(Drop)]
pub struct Faulted<'a> {
    /// Where the part is written.
    pub place: Place<'a>,
    /// The part, and why the step stops there.
    pub fault: FoundFault<'a>,
}

/// The part at which the step of this action stops at the node that a look shows, for whoever tells why the node ended
/// by a fault of the step. None if none is found, or if the look shows no node that has a rule for the action.
/// `AllocError` if memory runs out.
pub fn find_faulted<'a, O: Origin>(
    alloc: Global,
    look: &'a Snapshot<O>,
    action: &Action,
) -> Result<Option<Faulted<'a>>, AllocError>
    ensures { IfOk result (λ o. IfSome o (λ f. IsFaulted (find_conf (Component.Node (node_of action.now))
        (read_confs look.now.reads)) action.now (place_of f.place) (fault_found f.fault))) }
{
    match conf_of(look, Component::Node(action.node())) {
        Some(conf) => find_faulted_in(alloc, conf, action),
        None => Ok(None),
    }
}

/// The part at which the step of this action stops at a node of this configuration. None as for a look, or if the
/// configuration is a queue's.
pub fn find_faulted_in<'a>(
    alloc: Global,
    conf: &'a Conf,
    action: &Action,
) -> Result<Option<Faulted<'a>>, AllocError>
    ensures { IfOk result (λ o. IfSome o
        (λ f. IsFaulted (Some conf.now) action.now (place_of f.place) (fault_found f.fault))) }
{
    match conf {
        Conf::Node(node) => faulted_at(alloc, node, action),
        Conf::Queue(_) => Ok(None),
    }
}

/// The same at a node with this configuration.
fn faulted_at<'a>(
    alloc: Global,
    conf: &'a NodeConf,
    action: &Action,
) -> Result<Option<Faulted<'a>>, AllocError>
    ensures { IfOk result (λ o. IfSome o
        (λ f. IsFaulted (Some (Conf.Node conf.now)) action.now (place_of f.place) (fault_found f.fault))) }
{
    match conf.program().automaton().rule_named(action.name()) {
        None => Ok(None),
        Some(rule) => faulted_by(alloc, conf, rule, action),
    }
}

/// The same by a rule of the action's name. An action whose arguments are not those of the rule is none of its own.
fn faulted_by<'a>(
    alloc: Global,
    conf: &'a NodeConf,
    rule: &'a Rule,
    action: &Action,
) -> Result<Option<Faulted<'a>>, AllocError>
    requires { IsResolvedRule (declared_names conf.now.program.automaton) rule.now }
    ensures { IfOk result (λ o. IfSome o (λ f. IsFaultAt (place_of f.place)
        (rule_bindings entry_condition rule.now action.now conf.now)
        (rule_bindings guard_or_effect rule.now action.now conf.now) (fault_found f.fault))) }
{
    let arguments = action.arguments(alloc)?;
    let own = own_values(alloc, &rule.entry, arguments.as_slice())?;
    if own.len() != rule.own.len() {
        return Ok(None);
    }
    let variables = conf.variables();
    first_fault(alloc, conf.program(), rule, own.as_slice(), variables)
}

/// The part at which a step stops: of the condition of a rule's entry, or else of its guard, or else of its effect, if
/// the entry's own parameters have these values.
fn first_fault<'a>(
    alloc: Global,
    program: &'a Program,
    rule: &'a Rule,
    own: &[Value],
    variables: &[Value],
) -> Result<Option<Faulted<'a>>, AllocError>
    requires resolved { IsResolvedRule (declared_names program.now.automaton) rule.now }
    requires valued { length variables.now ≡ length program.now.automaton.variables }
    requires own { length rule.now.own ≡ length own.now }
    ensures { IfOk result (λ o. IfSome o (λ f. IsFaultAt (place_of f.place)
        (environment_at entry_condition (declared_names program.now.automaton) rule.now.own
        program.now.arguments [] own.now)
        (environment_at guard_or_effect (declared_names program.now.automaton) rule.now.own
        program.now.arguments variables.now own.now) (fault_found f.fault))) }
{
    match fault_of_condition(alloc, program, rule, own)? {
        Some(fault) => Ok(Some(Faulted {
            place: Place::Condition,
            fault,
        })),
        None => fault_of_transition(alloc, program, rule, own, variables),
    }
}

/// The part of the condition of a rule's entry that has no value.
fn fault_of_condition<'a>(
    alloc: Global,
    program: &'a Program,
    rule: &'a Rule,
    own: &[Value],
) -> Result<Option<FoundFault<'a>>, AllocError>
    requires resolved { IsResolvedRule (declared_names program.now.automaton) rule.now }
    requires own { length rule.now.own ≡ length own.now }
    ensures { IfOk result (λ o. IfSome o (λ f. HasNoValue
        (environment_at entry_condition (declared_names program.now.automaton) rule.now.own
        program.now.arguments [] own.now) (fault_found f))) }
{
    match &rule.entry.condition {
        None => Ok(None),
        Some(condition) => {
            let given = program.arguments();
            let view = condition_view(program, rule, own);
            match faulty_in(alloc, condition, &view, given)? {
                None => Ok(None),
                Some(part) => Ok(Some(without_value(alloc, part, &view, given)?)),
            }
        }
    }
}

/// The part at which a guard stops, or else an effect.
fn fault_of_transition<'a>(
    alloc: Global,
    program: &'a Program,
    rule: &'a Rule,
    own: &[Value],
    variables: &[Value],
) -> Result<Option<Faulted<'a>>, AllocError>
    requires resolved { IsResolvedRule (declared_names program.now.automaton) rule.now }
    requires valued { length variables.now ≡ length program.now.automaton.variables }
    requires own { length rule.now.own ≡ length own.now }
    ensures { IfOk result (λ o. IfSome o (λ f. IsFaultAt (place_of f.place)
        (environment_at entry_condition (declared_names program.now.automaton) rule.now.own
        program.now.arguments [] own.now)
        (environment_at guard_or_effect (declared_names program.now.automaton) rule.now.own
        program.now.arguments variables.now own.now) (fault_found f.fault))) }
{
    let view = step_view(program, rule, own, variables);
    match fault_of_guard(alloc, rule, &view, variables)? {
        Some(fault) => Ok(Some(Faulted {
            place: Place::Guard,
            fault,
        })),
        None => match fault_of_effect(alloc, rule, &view, variables)? {
            None => Ok(None),
            Some(StatementFault { place, fault }) => Ok(Some(Faulted {
                place: Place::Effect(place),
                fault,
            })),
        },
    }
}

/// The part of a guard that has no value.
fn fault_of_guard<'a>(
    alloc: Global,
    rule: &'a Rule,
    view: &View,
    variables: &[Value],
) -> Result<Option<FoundFault<'a>>, AllocError>
    requires resolved { IsResolvedGuard rule.now.transition.pre (names_in_view view.now) }
    requires named { IsNamed view.now variables.now }
    ensures { IfOk result (λ o. IfSome o
        (λ f. HasNoValue (environment_of view.now variables.now) (fault_found f))) }
{
    match &rule.transition.pre {
        None => Ok(None),
        Some(guard) => match faulty_in(alloc, guard, view, variables)? {
            None => Ok(None),
            Some(part) => Ok(Some(without_value(alloc, part, view, variables)?)),
        },
    }
}

/// The part at which an effect stops. It is performed on a copy of the variables.
fn fault_of_effect<'a>(
    alloc: Global,
    rule: &'a Rule,
    view: &View,
    variables: &[Value],
) -> Result<Option<StatementFault<'a>>, AllocError>
    requires resolved { AreResolved rule.now.transition.effect (own_names view.now (length variables.now))
        (names_in_view view.now) }
    requires named { IsNamed view.now variables.now }
    requires front { view.now.front.now ≡ [] }
    ensures { IfOk result (λ o. IfSome o
        (λ f. StopsThen (names_in_view view.now) (statement_place_of f.place) (fault_found f.fault))) }
{
    let mut values = copies(alloc, variables)?;
    let stop = stop_of_all(alloc, &rule.transition.effect, view, &mut values)?;
    fault_then(alloc, stop, view, values.as_slice())
}

/// The part at which an effect stops, if the variables have these values then.
fn fault_then<'a>(
    alloc: Global,
    stop: Stop<'a>,
    view: &View,
    values: &[Value],
) -> Result<Option<StatementFault<'a>>, AllocError>
    requires named { IsNamed view.now values.now }
    requires stop { IsStopIn view.now values.now stop }
    ensures { IfOk result (λ o. IfSome o
        (λ f. StopsThen (names_in_view view.now) (statement_place_of f.place) (fault_found f.fault))) }
{
    fault_by(alloc, stop, view, values)
}
