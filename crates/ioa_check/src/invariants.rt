//! The invariants that a text declares.

ghost use Rattle.std.specs.Prelude.{◌≡◌, ◌++◌, ◌∷◌, [], OnOk, map};
ghost use Rattle.ioa_values.specs.Outcome.{Answers};
ghost use Rattle.ioa_source.specs.TextView.{invariant_of};
ghost use Rattle.ioa_sections.specs.Faults.{in_declaration};
ghost use Rattle.ioa_check.specs.Checking as spec;

use ioa_invariants::{Section, check_invariant};
use ioa_names::Scope;
use ioa_refusals::Refusal;
use ioa_sections::{CheckFault, fault_at};
use ioa_source::Invariant;
use ioa_system::CheckedInvariant;
use std::alloc::{AllocError, Global};

/// The invariants of a text, in the order of their declaration. The first of them stands in the top declaration of this
/// index, and each behind it in the next one.
pub(crate) fn invariants_of(
    alloc: Global,
    section: &Section,
    first: usize,
    invariants: &Vec<Invariant<(), (), ()>>,
) -> Result<Vec<CheckedInvariant>, CheckFault>
    ensures { Answers CheckFault.Memory (λ vs. vs.items) result (spec.invariants_at section.now.constants
        section.now.programs section.now.channels first [] (map invariant_of invariants.now.items)) }
{
    let mut names = Scope::new(alloc);
    let mut found = Vec::new(alloc);
    for (position, invariant) in invariants.iter().enumerate() {
        let index = first.checked_add(position).ok_or(AllocError)?;
        let one = invariant_in_declaration(alloc, section, &mut names, index, invariant)?;
        found.push(one)?;
    }
    Ok(found)
}

/// The invariant of the declaration of an index. A fault tells the index.
fn invariant_in_declaration(
    alloc: Global,
    section: &Section,
    names: &mut Scope,
    index: usize,
    invariant: &Invariant<(), (), ()>,
) -> Result<CheckedInvariant, CheckFault>
    ensures found { Answers CheckFault.Memory (λ v. v) result
        (in_declaration index (spec.new_invariant_at section.now.constants section.now.programs section.now.channels
        names.old (invariant_of invariant.now))) }
    ensures named { OnOk result (names.new ≡ names.old ++ (invariant_of invariant.now).name ∷ []) }
{
    match new_invariant(alloc, section, names, invariant) {
        Ok(found) => Ok(found),
        Err(refusal) => Err(fault_at(index, refusal)),
    }
}

/// An invariant whose name is new, and is put behind the names. Else `Twice` (21).
#[tactic(auto, unfolding(crate::specs::Checking::new_invariant_at))]
fn new_invariant(
    alloc: Global,
    section: &Section,
    names: &mut Scope,
    invariant: &Invariant<(), (), ()>,
) -> Result<CheckedInvariant, Refusal>
    ensures found { Answers Refusal.Memory (λ v. v) result (spec.new_invariant_at section.now.constants
        section.now.programs section.now.channels names.old (invariant_of invariant.now)) }
    ensures named { OnOk result (names.new ≡ names.old ++ (invariant_of invariant.now).name ∷ []) }
{
    if !names.declare(invariant.name.try_copy(alloc)?)? {
        return Err(Refusal::Twice);
    }
    check_invariant(alloc, section, invariant)
}
