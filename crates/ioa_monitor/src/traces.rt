//! The trace of a run.

ghost use Rattle.std.specs.Prelude.{◌≡◌, IfOk};
ghost use Rattle.std.specs.Arc.{arc_value};
ghost use Rattle.std.specs.Option.{option_copied, option_map};
ghost use Rattle.ioa_monitor.specs.Traces as spec;
ghost use Rattle.ioa_monitor.specs.Traces.{trace_of};

use ioa_actions::Action;
use ioa_record::Record;
use ioa_system::{Program, Rule, System, program_numbered};
use ioa_terms::Kind;
use ioa_transitions::Entry;
use std::alloc::{AllocError, Global};
use std::sync::Arc;

/// The trace of a run (Lynch 8.1): the entries of the actions that are not internal, in order.
pub fn trace(alloc: Global, system: &System, run_record: &Record) -> Result<Vec<Entry>, AllocError>
    ensures { IfOk result (λ v. v.items ≡ trace_of system.now run_record.now.schedule) }
{
    let mut external = Vec::new(alloc);
    for entry in run_record.schedule.walk() {
        if !is_internal(system, entry.action()) {
            external.push(entry.try_clone()?)?;
        }
    }
    Ok(external)
}

/// Whether an action of a system is internal.
fn is_internal(system: &System, action: &Action) -> bool
    ensures { result ≡ spec.is_internal system.now action.now }
{
    match action {
        Action::Send { .. } => false,
        Action::Receive { .. } => false,
        Action::Local(action) => has_internal(
            action.name.as_str(),
            program_numbered(system.programs(), action.node),
        ),
        Action::Stimulus(_) => false,
    }
}

/// Whether a program has an internal rule of a name, if there is the program.
fn has_internal(name: &str, program: Option<&Arc<Program>>) -> bool
    ensures { result ≡ spec.has_internal name.now (option_map arc_value (option_copied program.entry)) }
{
    match program {
        None => false,
        Some(program) => is_internal_rule(program.automaton().rule_named(name)),
    }
}

/// Whether the actions of a rule are internal, if there is the rule.
fn is_internal_rule(rule: Option<&Rule>) -> bool
    ensures { result ≡ spec.is_internal_rule (option_copied rule.entry) }
{
    match rule {
        None => false,
        Some(rule) => is_internal_kind(rule.entry.kind),
    }
}

/// Whether actions of this kind are internal.
fn is_internal_kind(kind: Kind) -> bool
    ensures { result ≡ spec.is_internal_kind kind }
{
    match kind {
        Kind::Input => false,
        Kind::Output => false,
        Kind::Internal => true,
    }
}
