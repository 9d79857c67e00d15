//! From a text to its system.

ghost use Rattle.std.specs.Prelude.{IfErr, IfOk};
ghost use Rattle.ioa_values.specs.Outcome.{Answers};
ghost use Rattle.ioa_source.specs.TextView.{text_of};
ghost use Rattle.ioa_system.specs.Declarations.{IsWellDeclared};
ghost use Rattle.ioa_check.specs.Checking as spec;
ghost use Rattle.ioa_check.specs.Systems.{IsSystemOf, SaysNoSystem};

use crate::invariants::invariants_of;
use ioa_invariants::Section;
use ioa_names::programs_alone;
use ioa_sections::{CheckFault, CheckedDeclarations, Placed};
use ioa_source::Text;
use ioa_system::System;
use std::alloc::{AllocError, Global};
use std::sync::Arc;

/// Makes the system that the tree of a source describes. If the source describes none, one of the refusals that apply
/// is returned, with the index of its declaration. The tree is lent, so it is there after a refusal too. Costs time in
/// proportion to the text, but for what the look-ups of names and the sorts cost, and to the evaluation of constants,
/// arguments and initial values.
pub fn check(alloc: Global, text: &Text<(), (), ()>) -> Result<System, CheckFault>
    ensures exact { Answers CheckFault.Memory (λ s. s) result (spec.system_of (text_of text.now)) }
    ensures system { IfOk result (IsSystemOf (text_of text.now)) }
    ensures declared { IfOk result IsWellDeclared }
    ensures refused { IfErr result (λ f. SaysNoSystem f (text_of text.now)) }
{
    find_system(alloc, text)
}

/// The system that the tree of a source describes.
fn find_system(alloc: Global, text: &Text<(), (), ()>) -> Result<System, CheckFault>
    ensures { Answers CheckFault.Memory (λ s. s) result (spec.system_of (text_of text.now)) }
{
    match CheckedDeclarations::of(alloc, &text.declarations) {
        Ok(declared) => check_parts(alloc, &declared, text.declarations.len(), text),
        Err(fault) => Err(fault),
    }
}

/// The system of a text of these declarations, whose system section has this index.
#[tactic(auto, unfolding(crate::specs::Checking::parts_at, crate::specs::Checking::system_with))]
fn check_parts(
    alloc: Global,
    declared: &CheckedDeclarations,
    index: usize,
    text: &Text<(), (), ()>,
) -> Result<System, CheckFault>
    ensures { Answers CheckFault.Memory (λ s. s) result (spec.parts_at declared.now.types.constants
        declared.now.automata index (text_of text.now)) }
{
    let placed = declared.section_in_declaration(alloc, index, &text.system)?;
    let first = index.checked_add(1).ok_or(AllocError)?;
    let section = Section {
        types: declared.types(),
        programs: placed.programs.as_slice(),
        channels: placed.channels.as_slice(),
    };
    let found = invariants_of(alloc, &section, first, &text.invariants)?;
    let constants = Arc::try_clone(declared.types().names())?;
    let Placed {
        programs,
        channels,
        scripts,
    } = placed;
    let programs = programs_alone(alloc, programs)?;
    Ok(System::new(constants, programs, channels, scripts, found))
}
