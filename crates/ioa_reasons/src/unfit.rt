//! The argument of an action that is not of the sort of its parameter.

ghost use Rattle.std.specs.Prelude.{◌≡◌, IfOk, IfSome, Some, map};
ghost use Rattle.std.specs.Option.{option_map};
ghost use Rattle.ioa_actions.specs.ActionParts.{action_arguments, node_of};
ghost use Rattle.ioa_commits.specs.Versions.{read_confs};
ghost use Rattle.ioa_compose.specs.Composition.{find_conf};
ghost use Rattle.ioa_source.specs.TextView.{parameter_of};
ghost use Rattle.ioa_reasons.specs.FoundUnfit.{unfit_found};
ghost use Rattle.ioa_reasons.specs.Unfit as spec;
ghost use Rattle.ioa_reasons.specs.Unfit.{IsUnfit};

use crate::shown::conf_of;
use ioa_actions::{Action, Component};
use ioa_book::Snapshot;
use ioa_compose::Conf;
use ioa_sharing::Origin;
use ioa_source::Parameter;
use ioa_system::Rule;
use ioa_terms::{Callee, Shape, Word};
use ioa_transitions::NodeConf;
use ioa_values::Value;
use std::alloc::{AllocError, Global};

/// The name of a parameter, and an argument that is not of its sort.
#[derive(Drop)]
pub struct Unfit<'a> {
    /// The name of the parameter.
    pub name: &'a Word,
    /// The argument.
    pub value: Value,
}

/// The first argument of this action that is not of the sort of its parameter at the node that a look shows, for
/// whoever tells why the node ended by a fault of its step. None if each argument fits, or if the look shows no node
/// that has a rule of the action's name. `AllocError` if memory runs out.
pub fn find_unfit<'a, O: Origin>(
    alloc: Global,
    look: &'a Snapshot<O>,
    action: &Action,
) -> Result<Option<Unfit<'a>>, AllocError>
    ensures { IfOk result (λ o. IfSome o (λ u. IsUnfit (find_conf (Component.Node (node_of action.now))
        (read_confs look.now.reads)) action.now u.name.now u.value)) }
{
    match conf_of(look, Component::Node(action.node())) {
        Some(conf) => find_unfit_in(alloc, conf, action),
        None => Ok(None),
    }
}

/// The first argument of this action that is not of the sort of its parameter at a node of this configuration. None as
/// for a look, or if the configuration is a queue's.
pub fn find_unfit_in<'a>(
    alloc: Global,
    conf: &'a Conf,
    action: &Action,
) -> Result<Option<Unfit<'a>>, AllocError>
    ensures { IfOk result (λ o. IfSome o
        (λ u. IsUnfit (Some conf.now) action.now u.name.now u.value)) }
{
    match conf {
        Conf::Node(node) => unfit_at(alloc, node, action),
        Conf::Queue(_) => Ok(None),
    }
}

/// The same at a node with this configuration.
fn unfit_at<'a>(
    alloc: Global,
    conf: &'a NodeConf,
    action: &Action,
) -> Result<Option<Unfit<'a>>, AllocError>
    ensures { IfOk result (λ o. IfSome o
        (λ u. IsUnfit (Some (Conf.Node conf.now)) action.now u.name.now u.value)) }
{
    match conf.program().automaton().rule_named(action.name()) {
        None => Ok(None),
        Some(rule) => unfit_for(alloc, rule, action),
    }
}

/// The same by a rule.
fn unfit_for<'a>(
    alloc: Global,
    rule: &'a Rule,
    action: &Action,
) -> Result<Option<Unfit<'a>>, AllocError>
    ensures { IfOk result (λ o. option_map unfit_found o
        ≡ spec.first_unfit rule.now.entry.parameters (action_arguments action.now)) }
{
    let arguments = action.arguments(alloc)?;
    first_unfit(&rule.entry.parameters, arguments.as_slice())
}

/// The same of parameters, each beside its argument.
fn first_unfit<'a>(
    parameters: &'a [Parameter<usize, Callee, Shape>],
    arguments: &[Value],
) -> Result<Option<Unfit<'a>>, AllocError>
    ensures { IfOk result (λ o. option_map unfit_found o
        ≡ spec.first_unfit (map parameter_of parameters.now) arguments.now) }
{
    for i in 0..parameters.len().min(arguments.len()) {
        match unfit_of(&parameters[i], &arguments[i])? {
            Some(found) => return Ok(Some(found)),
            None => {}
        }
    }
    Ok(None)
}

/// The same of one parameter.
fn unfit_of<'a>(
    parameter: &'a Parameter<usize, Callee, Shape>,
    argument: &Value,
) -> Result<Option<Unfit<'a>>, AllocError>
    ensures { IfOk result
        (λ o. option_map unfit_found o ≡ spec.unfit (parameter_of parameter.now) argument.now) }
{
    match parameter {
        Parameter::Const(_) => Ok(None),
        Parameter::Declared(declared) => {
            if declared.shape.admits(argument) {
                return Ok(None);
            }
            let value = argument.try_copy()?;
            Ok(Some(Unfit {
                name: &declared.name,
                value,
            }))
        }
    }
}
