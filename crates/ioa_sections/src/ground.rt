//! What the scripts of a system section are checked on.

use ioa_names::NamedProgram;
use ioa_types::AllTypes;
use std::marker::Model;

/// What scripts are checked on: the text's types and constants, and the programs of the nodes. Its type guarantees that
/// each tuple type in the shapes of these is the declared one of its name.
#[derive(Drop)]
pub(crate) struct Ground<'a> {
    /// The text's types and constants.
    pub types: &'a AllTypes,
    /// The programs of the nodes, node 0 first.
    pub programs: &'a Vec<NamedProgram>,
}

impl<'a> Model for Ground<'a> {
    ghost use Rattle.ioa_sections.specs.Grounds.{AreGroundedPrograms, GroundParts, ground_parts, ground_code};

    ghost Value = { GroundParts };

    ghost coded = { ground_code };

    ghost view = { λ g. ground_parts g.types.now.constants g.programs.now.items };

    ghost invariant = { λ g. AreGroundedPrograms g.types.now.constants g.programs.now.items };
}
