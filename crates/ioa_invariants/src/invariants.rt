//! The check of an invariant.

ghost use Rattle.std.specs.Prelude.{◌++◌};
ghost use Rattle.ioa_values.specs.Outcome.{Answers};
ghost use Rattle.ioa_operators.specs.Shapes.{truths};
ghost use Rattle.ioa_terms.specs.View.{term_of};
ghost use Rattle.ioa_source.specs.TextView.{invariant_of};
ghost use Rattle.ioa_sorts.specs.Sorting.{fit, sorting};
ghost use Rattle.ioa_invariants.specs.Checked as spec;

use crate::names::names_read;
use crate::shapes::reading_shapes;
use ioa_names::{NameTable, NamedProgram, Readings, View};
use ioa_refusals::Refusal;
use ioa_sorts::fit;
use ioa_source::{Channel, Invariant};
use ioa_system::CheckedInvariant;
use ioa_terms::{Checked, Shape, ShapeForm, Term};
use ioa_types::AllTypes;
use std::alloc::Global;
use std::marker::Model;
use std::sync::Arc;

/// What an invariant may speak of: the text's constants, and what its system section places. Its type guarantees that
/// each tuple type in the shapes of these is the declared one of its name.
#[derive(Drop)]
pub struct Section<'a> {
    /// The text's types and constants.
    pub types: &'a AllTypes,
    /// The programs of the nodes, node 0 first.
    pub programs: &'a [NamedProgram],
    /// The channels.
    pub channels: &'a [Channel],
}

impl<'a> Model for Section<'a> {
    ghost use Rattle.ioa_invariants.specs.Sections.{SectionParts, section_parts, section_code};
    ghost use Rattle.ioa_invariants.specs.Checked.{AreDeclaredParts};

    ghost Value = { SectionParts };

    ghost coded = { section_code };

    ghost view = { λ s. section_parts s.types.now.constants s.programs.now s.channels.now };

    ghost invariant = { λ s. AreDeclaredParts s.types.now.constants s.programs.now };
}

/// Makes the checked invariant that an invariant of a text is. Returns `Unknown` (20) if it reads a name that is not
/// there: no node, state variable or channel, or a word that is no constant; `Sorts` (22) if its term is no truth value
/// or a part of it has a wrong sort, or if `queue` has other terms than two numbers; `EmptyOfWhat` (32) if nothing
/// gives a display its sort; `Memory` (3) if no memory is left. Costs time in proportion to the term and to the shapes
/// of its parts, and for each node or channel that it names to how many there are.
#[tactic(auto, unfolding(crate::specs::Checked::invariant_at))]
pub fn check_invariant(
    alloc: Global,
    section: &Section,
    invariant: &Invariant<(), (), ()>,
) -> Result<CheckedInvariant, Refusal>
    ensures { Answers Refusal.Memory (λ v. v) result (spec.invariant_at section.now.constants section.now.programs
        section.now.channels (invariant_of invariant.now)) }
{
    let table = section.types.types().constants();
    let names = names_read(alloc, &invariant.term)?;
    let shapes = reading_shapes(alloc, section.programs, section.channels, names.as_slice())?;
    let readings = Readings::new(alloc, names, shapes)?;
    let term = truth_term(alloc, &readings, table, &invariant.term)?;
    let name = invariant.name.try_copy(alloc)?;
    let constants = Arc::try_clone(section.types.names())?;
    let readings = readings.into_names(alloc)?;
    Ok(CheckedInvariant::new(name, constants, readings, term))
}

/// The term of an invariant, which is a truth value, if these are the names that it reads.
fn truth_term(
    alloc: Global,
    readings: &Readings,
    constants: &NameTable,
    term: &Term,
) -> Result<Checked, Refusal>
    ensures { Answers Refusal.Memory term_of result
        (fit (sorting (readings.now ++ constants.now) (term_of term.now)) truths) }
{
    let none = NameTable::new(alloc);
    let view = View::of_readings(readings, &none, constants)?;
    let truths = Shape::of(ShapeForm::Truths);
    let found = fit(alloc, &view, term, &truths);
    found
}
