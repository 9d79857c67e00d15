//! Firings of the actions of an automaton, with slots, shapes and the numbers of their rules.

ghost use Rattle.std.specs.Prelude.{◌≡◌, IfOk, IfSome, map, find};
ghost use Rattle.std.specs.Option.{option_map};
ghost use Rattle.ioa_values.specs.Outcome.{Answers};
ghost use Rattle.ioa_terms.specs.View.{firing_of, term_of};
ghost use Rattle.ioa_sorts.specs.Firings as spec;

use crate::displays::fit_each;
use ioa_names::{RuleTable, View};
use ioa_refusals::Refusal;
use ioa_system::Rule;
use ioa_terms::{Callee, Checked, Firing, Kind, Shape, Term};
use std::alloc::Global;

/// Whether a kind is the one that is written, if one is.
fn is_of_kind(written: Option<Kind>, kind: Kind) -> bool
    ensures { result ≡ spec.is_of_kind written kind }
{
    match written {
        None => true,
        Some(other) => other == kind,
    }
}

/// The number of the rule that a firing names, and the rule, if there is one.
fn rule_fired<'a>(rules: &'a RuleTable, firing: &Firing<(), (), ()>) -> Option<(usize, &'a Rule)>
    ensures rule { option_map (λ f. f.1.now) result ≡ find (spec.fires (firing_of firing.now)) rules.now }
    ensures number { IfSome result (λ f. f.0 ≡ spec.number_fired (firing_of firing.now) rules.now) }
{
    let number = rules.number_of(&firing.action)?;
    let rule = rules.get(number)?;
    if is_of_kind(firing.kind, rule.entry.kind) {
        Some((number, rule))
    } else {
        None
    }
}

/// The number of the rule that a firing names, and the shapes of the arguments that it takes. `Unknown` (20) if it
/// names no entry.
#[tactic(auto, unfolding(crate::specs::Firings::entry_fired))]
fn shapes_fired<'a>(
    rules: &'a RuleTable,
    firing: &Firing<(), (), ()>,
) -> Result<(usize, &'a Vec<Shape>), Refusal>
    ensures shapes { Answers Refusal.Memory (λ f. f.1.now.items) result (spec.entry_fired
        (find (spec.fires (firing_of firing.now)) rules.now)) }
    ensures number { IfOk result (λ f. f.0 ≡ spec.number_fired (firing_of firing.now) rules.now) }
{
    match rule_fired(rules, firing) {
        None => Err(Refusal::Unknown),
        Some((number, rule)) => Ok((number, &rule.shapes)),
    }
}

/// Arguments of an action or of a node, each of the shape at its position. `Sorts` (22) if there are more or fewer.
pub fn sort_arguments(
    alloc: Global,
    view: &View,
    shapes: &Vec<Shape>,
    arguments: &Vec<Term>,
) -> Result<Vec<Checked>, Refusal>
    ensures { Answers Refusal.Memory (λ ts. map term_of ts.items) result
        (spec.arguments_at view.now shapes.now.items (map term_of arguments.now.items)) }
{
    fit_each(alloc, view, arguments, shapes)
}

/// A firing: its arguments are of the shapes of its entry, and it bears the number of the entry's rule.
#[tactic(auto, unfolding(crate::specs::Firings::firing_at))]
pub(crate) fn sort_firing(
    alloc: Global,
    view: &View,
    rules: &RuleTable,
    firing: &Firing<(), (), ()>,
) -> Result<Firing<usize, Callee, Shape>, Refusal>
    ensures { Answers Refusal.Memory firing_of result (spec.firing_at view.now rules.now (firing_of firing.now)) }
{
    let (rule, shapes) = shapes_fired(rules, firing)?;
    let action = firing.action.try_copy(alloc)?;
    let arguments = sort_arguments(alloc, view, shapes, &firing.arguments)?;
    Ok(Firing {
        kind: firing.kind,
        action,
        rule,
        arguments,
    })
}
