//! What the declarations of a text describe.

ghost use Rattle.std.specs.Prelude.{◌≡◌, IfOk, map};
ghost use Rattle.ioa_values.specs.Outcome.{Answers};
ghost use Rattle.ioa_source.specs.TextView.{declaration_of, placement_of};
ghost use Rattle.ioa_sections.specs.DeclaredParts as spec;
ghost use Rattle.ioa_sections.specs.Faults.{in_declaration};
ghost use Rattle.ioa_sections.specs.Grounds.{AreGrounded, AreGroundedPrograms};
ghost use Rattle.ioa_sections.specs.PlacedView.{placed_of};
ghost use Rattle.ioa_sections.specs.Placing.{placed_at};

use crate::channels::{channels_of, check_channels};
use crate::declarations::{automata_of, types_of};
use crate::fault::{CheckFault, fault_at};
use crate::ground::Ground;
use crate::nodes::{nodes_of, programs_of};
use crate::placed::Placed;
use crate::scripts::scripts_of;
use ioa_names::NamedAutomaton;
use ioa_refusals::Refusal;
use ioa_source::{Declaration, Placement};
use ioa_types::AllTypes;
use std::alloc::Global;
use std::marker::Model;

/// What the declarations of a text describe: its types, its constants and its automata, checked. It is made once, and
/// any number of system sections can be asked over it.
pub struct CheckedDeclarations {
    types: AllTypes,
    automata: Vec<NamedAutomaton>,
}

/// By hand, so that crates above do not prove again how the parts are let go (DECISIONS).
impl Drop for CheckedDeclarations {
    fn drop(self) {
        let CheckedDeclarations {
            types: _,
            automata: _,
        } = self;
    }
}

impl Model for CheckedDeclarations {
    ghost use Rattle.ioa_sections.specs.DeclaredParts.{DeclaredParts, declared_code, declared_parts};
    ghost use Rattle.ioa_sections.specs.Grounds.{AreGrounded};

    ghost Value = { DeclaredParts };

    ghost coded = { declared_code };

    ghost view = { λ d. declared_parts d.types d.automata.items };

    ghost invariant = { λ d. AreGrounded d.types.constants d.automata.items };
}

impl CheckedDeclarations {
    /// Checks the declarations of a text. A refusal is the first that is found in them, with the index of its
    /// declaration.
    #[tactic(auto, unfolding(crate::specs::DeclaredParts::declared_at))]
    pub fn of(
        alloc: Global,
        declarations: &Vec<Declaration<(), (), ()>>,
    ) -> Result<Self, CheckFault>
        ensures { Answers CheckFault.Memory (λ d. d) result
            (spec.declared_at (map declaration_of declarations.now.items)) }
    {
        let types = AllTypes::of(alloc, types_of(alloc, declarations)?)?;
        let automata = automata_of(alloc, &types, declarations)?;
        let _declared = types.types();
        Ok(CheckedDeclarations { types, automata })
    }

    /// The types, with the constants of their enumerations.
    pub fn types(&self) -> &AllTypes
        ensures { result.now ≡ self.now.types }
    {
        &self.types
    }

    /// The automata, in the order of their declaration.
    pub(crate) fn automata(&self) -> &Vec<NamedAutomaton>
        ensures automata { result.now.items ≡ self.now.automata }
        ensures grounded { AreGrounded self.now.types.constants self.now.automata }
    {
        &self.automata
    }

    /// What all declarations keep: the shapes of their constants and automata are declared ones. Does nothing.
    pub(crate) fn grounded_law(&self)
        ensures { AreGrounded self.now.types.constants self.now.automata }
    {
        let _automata = &self.automata;
    }

    /// What a system section places over these declarations. A refusal is the first that is found in it: `Limit` (31)
    /// for too many nodes or channels; `Twice` (21) for two nodes of one number, two channels between the same nodes in
    /// the same direction, or two scripts of one node; `NodeGap` (30) for a number that no node has; `Unknown` (20) for
    /// an automaton, a node, an input or a name that is not declared; `Sorts` (22) and `EmptyOfWhat` (32) for an
    /// argument that has not the sort of its parameter; `BadArgument` (34) for an argument or a constant that has no
    /// value there, or a script of messages; `SelfChannel` (29), `InputMissing` (28) and `ChannelSorts` (27) for a
    /// channel that is no way from its sender to its receiver. Costs time in proportion to the section and to the
    /// values that it gives.
    #[tactic(auto, unfolding(crate::specs::Placing::placed_at))]
    pub fn check_section(
        &self,
        alloc: Global,
        placements: &Vec<Placement<(), (), ()>>,
    ) -> Result<Placed, Refusal>
        ensures placed { Answers Refusal.Memory placed_of result (placed_at self.now.types.constants
            self.now.automata (map placement_of placements.now.items)) }
        ensures grounded { IfOk result
            (λ s. AreGroundedPrograms self.now.types.constants s.programs.items) }
    {
        self.grounded_law();
        let nodes = nodes_of(alloc, placements)?;
        let channels = channels_of(alloc, placements)?;
        let programs = programs_of(alloc, self, &nodes)?;
        check_channels(alloc, &programs, &channels)?;
        let ground = Ground {
            types: self.types(),
            programs: &programs,
        };
        let scripts = scripts_of(alloc, &ground, placements)?;
        Ok(Placed {
            programs,
            channels,
            scripts,
        })
    }

    /// What the system section of an index places over these declarations. A refusal is that of `check_section`, with
    /// the index.
    pub fn section_in_declaration(
        &self,
        alloc: Global,
        index: usize,
        placements: &Vec<Placement<(), (), ()>>,
    ) -> Result<Placed, CheckFault>
        ensures placed { Answers CheckFault.Memory placed_of result (in_declaration index (placed_at
            self.now.types.constants self.now.automata (map placement_of placements.now.items))) }
        ensures grounded { IfOk result
            (λ s. AreGroundedPrograms self.now.types.constants s.programs.items) }
    {
        match self.check_section(alloc, placements) {
            Ok(placed) => Ok(placed),
            Err(refusal) => Err(fault_at(index, refusal)),
        }
    }
}
