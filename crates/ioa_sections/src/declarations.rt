//! The types and the automata that a text declares.

ghost use Rattle.std.specs.Prelude.{◌≡◌, ◌++◌, ◌∷◌, [], OnOk, map};
ghost use Rattle.ioa_values.specs.Outcome.{Answers};
ghost use Rattle.ioa_source.specs.TextView.{automaton_of, declaration_of};
ghost use Rattle.ioa_types.specs.TextTypes.{no_types};
ghost use Rattle.ioa_sections.specs.Declarations as spec;
ghost use Rattle.ioa_sections.specs.Faults.{in_declaration};

use crate::fault::{CheckFault, fault_at};
use ioa_automata::sort_automaton;
use ioa_names::{NamedAutomaton, Scope};
use ioa_refusals::Refusal;
use ioa_source::{Automaton, Declaration};
use ioa_types::{AllTypes, TextTypes};
use std::alloc::Global;

/// The types and the constants of a text.
pub(crate) fn types_of(
    alloc: Global,
    declarations: &Vec<Declaration<(), (), ()>>,
) -> Result<TextTypes, CheckFault>
    ensures { Answers CheckFault.Memory (λ t. t) result
        (spec.types_at 0 no_types (map declaration_of declarations.now.items)) }
{
    let mut types = TextTypes::new(alloc);
    for (index, declaration) in declarations.iter().enumerate() {
        match with_declaration(alloc, types, declaration) {
            Ok(more) => types = more,
            Err(refusal) => return Err(fault_at(index, refusal)),
        }
    }
    Ok(types)
}

/// The types with that of a declaration, if it declares one.
fn with_declaration(
    alloc: Global,
    types: TextTypes,
    declaration: &Declaration<(), (), ()>,
) -> Result<TextTypes, Refusal>
    ensures { Answers Refusal.Memory (λ t. t) result (spec.with_declaration types (declaration_of declaration.now)) }
{
    match declaration {
        Declaration::Type(declared) => types.with(alloc, declared),
        Declaration::Automaton(_) => Ok(types),
    }
}

/// The automata of a text, in the order of their declaration.
pub(crate) fn automata_of(
    alloc: Global,
    types: &AllTypes,
    declarations: &Vec<Declaration<(), (), ()>>,
) -> Result<Vec<NamedAutomaton>, CheckFault>
    ensures { Answers CheckFault.Memory (λ cs. cs.items) result
        (spec.automata_at types.now 0 [] (map declaration_of declarations.now.items)) }
{
    let mut names = Scope::new(alloc);
    let mut automata = Vec::new(alloc);
    for (index, declaration) in declarations.iter().enumerate() {
        match declaration {
            Declaration::Type(_) => {}
            Declaration::Automaton(automaton) => {
                let found = automaton_in_declaration(alloc, types, &mut names, index, automaton)?;
                automata.push(found)?;
            }
        }
    }
    Ok(automata)
}

/// The automaton of the declaration of an index. A fault tells the index.
fn automaton_in_declaration(
    alloc: Global,
    types: &AllTypes,
    names: &mut Scope,
    index: usize,
    automaton: &Automaton<(), (), ()>,
) -> Result<NamedAutomaton, CheckFault>
    ensures found { Answers CheckFault.Memory (λ a. a) result
        (in_declaration index (spec.new_automaton_at types.now names.old (automaton_of automaton.now))) }
    ensures named { OnOk result (names.new ≡ names.old ++ (automaton_of automaton.now).name ∷ []) }
{
    match new_automaton(alloc, types, names, automaton) {
        Ok(found) => Ok(found),
        Err(refusal) => Err(fault_at(index, refusal)),
    }
}

/// An automaton whose name is new, and is put behind the names. Else `Twice` (21).
#[tactic(auto, unfolding(crate::specs::Declarations::new_automaton_at))]
fn new_automaton(
    alloc: Global,
    types: &AllTypes,
    names: &mut Scope,
    automaton: &Automaton<(), (), ()>,
) -> Result<NamedAutomaton, Refusal>
    ensures found { Answers Refusal.Memory (λ a. a) result
        (spec.new_automaton_at types.now names.old (automaton_of automaton.now)) }
    ensures named { OnOk result (names.new ≡ names.old ++ (automaton_of automaton.now).name ∷ []) }
{
    if !names.declare(automaton.name.try_copy(alloc)?)? {
        return Err(Refusal::Twice);
    }
    sort_automaton(alloc, types, automaton)
}
