//! The scripts of nodes.

ghost use Rattle.std.specs.Prelude.{◌≡◌, ◌++◌, ◌∷◌, [], IfOk, map, not, true};
ghost use Rattle.std.specs.List.{list_any};
ghost use Rattle.std.specs.Ordering.{int_eq};
ghost use Rattle.std.specs.Option.{option_copied};
ghost use Rattle.ioa_values.specs.Outcome.{Answers};
ghost use Rattle.ioa_source.specs.TextView.{call_of, placement_of, script_of};
ghost use Rattle.ioa_system.specs.Parts.{rule_named};
ghost use Rattle.ioa_sorts.specs.Statements.{all_ok};
ghost use Rattle.ioa_sections.specs.Distinct.{differ_from};
ghost use Rattle.ioa_sections.specs.Grounds.{IsGrounded};
ghost use Rattle.ioa_sections.specs.Scripts as spec;
ghost use Rattle.ioa_sections.specs.Sections.{script_behind, scripts_in};

use crate::channels::program_or;
use crate::ground::Ground;
use crate::nodes::given_values;
use indexmap::IndexSet;
use ioa_actions::{NodeAction, RECEIVE, SEND};
use ioa_refusals::Refusal;
use ioa_source::{Call, Placement, ScriptDeclaration};
use ioa_system::{CheckedAutomaton, Rule, Script};
use ioa_terms::{Kind, Word};
use ioa_types::AllTypes;
use std::alloc::{AllocError, Global};

/// The scripts of a system section, in the order of their declaration. `Twice` (21) if two are of one node.
#[tactic(auto, unfolding(crate::specs::Scripts::scripts_or))]
fn declared_scripts<'a>(
    alloc: Global,
    placements: &'a Vec<Placement<(), (), ()>>,
) -> Result<Vec<&'a ScriptDeclaration<(), (), ()>>, Refusal>
    ensures { Answers Refusal.Memory (λ ss. map script_behind ss.items) result
        (spec.scripts_or (scripts_in (map placement_of placements.now.items))) }
{
    let scripts = all_scripts(alloc, placements)?;
    if !are_of_different_nodes(alloc, &scripts)? {
        return Err(Refusal::Twice);
    }
    Ok(scripts)
}

/// The scripts of a system section, in the order of their declaration.
fn all_scripts<'a>(
    alloc: Global,
    placements: &'a Vec<Placement<(), (), ()>>,
) -> Result<Vec<&'a ScriptDeclaration<(), (), ()>>, AllocError>
    ensures { IfOk result (λ ss. map script_behind ss.items ≡ scripts_in (map placement_of placements.now.items)) }
{
    let mut scripts: Vec<&'a ScriptDeclaration<(), (), ()>> = Vec::new(alloc);
    for placement in placements {
        if let Placement::Script(script) = placement {
            scripts.push(script)?;
        }
    }
    Ok(scripts)
}

/// Whether no two scripts are of one node. The numbers of the nodes go into a set, so the time grows as the scripts do.
fn are_of_different_nodes(
    alloc: Global,
    scripts: &[&ScriptDeclaration<(), (), ()>],
) -> Result<bool, AllocError>
    ensures { IfOk result (λ b. b ≡ differ_from spec.same_node [] (map script_behind scripts.now)) }
{
    let mut numbers = IndexSet::new(alloc);
    for script in scripts {
        if !insert_number(&mut numbers, script.node)? {
            return Ok(false);
        }
    }
    Ok(true)
}

/// Puts a number behind others, and returns whether it is new.
fn insert_number(numbers: &mut IndexSet<i64>, number: i64) -> Result<bool, AllocError>
    ensures new { IfOk result (λ b. b ≡ not (list_any (int_eq number) numbers.old.keys)) }
    ensures behind { IfOk result (λ b. b ≡ true → numbers.new.keys ≡ numbers.old.keys ++ number ∷ []) }
{
    let (_, is_new) = numbers.insert_full(number)?;
    Ok(is_new)
}

/// The rule, if it is there and its actions are inputs. Else `Unknown` (20).
#[tactic(auto, unfolding(crate::specs::Scripts::input_of))]
fn input_of(rule: Option<&Rule>) -> Result<&Rule, Refusal>
    ensures { Answers Refusal.Memory (λ r. r.now) result (spec.input_of (option_copied rule.entry)) }
{
    match rule {
        None => Err(Refusal::Unknown),
        Some(rule) => {
            if rule.entry.kind == Kind::Input {
                Ok(rule)
            } else {
                Err(Refusal::Unknown)
            }
        }
    }
}

/// The rule of the input that has a name. `BadArgument` (34) for `send` and `receive`, which no script has; `Unknown`
/// (20) if the automaton has no such input.
#[tactic(auto, unfolding(crate::specs::Scripts::input_called))]
fn input_called<'a>(automaton: &'a CheckedAutomaton, name: &Word) -> Result<&'a Rule, Refusal>
    ensures { Answers Refusal.Memory (λ r. r.now) result (spec.input_called name.now automaton.now.rules) }
{
    if name.as_str() == SEND || name.as_str() == RECEIVE {
        return Err(Refusal::BadArgument);
    }
    input_of(automaton.rule_named(name.as_str()))
}

/// The stimulus of a call at the node of a number, on which this automaton is placed.
#[tactic(auto, unfolding(crate::specs::Scripts::stimulus_at))]
fn stimulus_of(
    alloc: Global,
    types: &AllTypes,
    number: i64,
    automaton: &CheckedAutomaton,
    call: &Call<(), (), ()>,
) -> Result<NodeAction, Refusal>
    requires { IsGrounded types.now.constants automaton.now }
    ensures { Answers Refusal.Memory (λ a. a) result
        (spec.stimulus_at types.now.constants number automaton.now (call_of call.now)) }
{
    let input = input_called(automaton, &call.name)?;
    let shapes = &input.shapes;
    let values = given_values(alloc, types, shapes, &call.arguments)?;
    Ok(NodeAction::new(alloc, number, &call.name, values)?)
}

/// The stimuli of calls, in their order.
fn stimuli_of(
    alloc: Global,
    types: &AllTypes,
    number: i64,
    automaton: &CheckedAutomaton,
    calls: &Vec<Call<(), (), ()>>,
) -> Result<Vec<NodeAction>, Refusal>
    requires { IsGrounded types.now.constants automaton.now }
    ensures { Answers Refusal.Memory (λ xs. xs.items) result
        (spec.stimuli_at types.now.constants number automaton.now (map call_of calls.now.items)) }
{
    let mut stimuli = Vec::new(alloc);
    for call in calls {
        let stimulus = stimulus_of(alloc, types, number, automaton, call)?;
        stimuli.push(stimulus)?;
    }
    Ok(stimuli)
}

/// The script of the node of a number. `Unknown` (20) if the node is not declared.
#[tactic(auto, unfolding(crate::specs::Scripts::script_at))]
fn script_at(
    alloc: Global,
    ground: &Ground,
    number: i64,
    calls: &Vec<Call<(), (), ()>>,
) -> Result<Script, Refusal>
    ensures { Answers Refusal.Memory (λ s. s) result
        (spec.script_at ground.now.constants ground.now.programs number (map call_of calls.now.items)) }
{
    let program = program_or(ground.programs, number)?;
    let stimuli = stimuli_of(
        alloc,
        ground.types,
        number,
        program.program().automaton(),
        calls,
    )?;
    Ok(Script::new(number, stimuli))
}

/// A script.
fn script_of(
    alloc: Global,
    ground: &Ground,
    script: &ScriptDeclaration<(), (), ()>,
) -> Result<Script, Refusal>
    ensures { Answers Refusal.Memory (λ s. s) result
        (spec.script_of ground.now.constants ground.now.programs (script_of script.now)) }
{
    script_at(alloc, ground, script.node, &script.calls)
}

/// Scripts of nodes that have these programs.
fn scripts_at(
    alloc: Global,
    ground: &Ground,
    declared: &[&ScriptDeclaration<(), (), ()>],
) -> Result<Vec<Script>, Refusal>
    ensures { Answers Refusal.Memory (λ ss. ss.items) result
        (all_ok (map (spec.script_of ground.now.constants ground.now.programs) (map script_behind declared.now))) }
{
    let mut scripts = Vec::new(alloc);
    for script in declared {
        let found = script_of(alloc, ground, script)?;
        scripts.push(found)?;
    }
    Ok(scripts)
}

/// The scripts of a system section, in the order of their declaration.
#[tactic(auto, unfolding(crate::specs::Scripts::scripts_at))]
pub(crate) fn scripts_of(
    alloc: Global,
    ground: &Ground,
    placements: &Vec<Placement<(), (), ()>>,
) -> Result<Vec<Script>, Refusal>
    ensures { Answers Refusal.Memory (λ ss. ss.items) result (spec.scripts_at ground.now.constants
        ground.now.programs (map placement_of placements.now.items)) }
{
    let declared = declared_scripts(alloc, placements)?;
    scripts_at(alloc, ground, &declared)
}
