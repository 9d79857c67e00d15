//! Laws of invariants: what functions ensure that do nothing.

ghost use Rattle.std.specs.Prelude.{◌≡◌, List, Ok};
ghost use Rattle.ioa_terms.specs.Sorted.{NameShapes};
ghost use Rattle.ioa_source.specs.Sides.{SourceInvariant};
ghost use Rattle.ioa_source.specs.declared.declaration.Channel.{Channel};
ghost use Rattle.ioa_system.specs.Invariants.{InvariantParts};
ghost use Rattle.ioa_system.specs.Parts.{Parts};
ghost use Rattle.ioa_invariants.specs.Checked.{AreDeclaredParts, invariant_at};
ghost use Rattle.ioa_invariants.specs.Meant.{IsInvariantOf};

/// The check of an invariant, against its meaning: what it finds is the text's invariant with readings, slots and
/// shapes, and it finds each that there is.
pub fn invariants_law()
    ensures sound { (constants : NameShapes) (ps : List Parts) (cs : List Channel) (v : SourceInvariant)
        (found : InvariantParts) → AreDeclaredParts constants ps → invariant_at constants ps cs v ≡ Ok found →
        IsInvariantOf constants ps cs v found }
    ensures found { (constants : NameShapes) (ps : List Parts) (cs : List Channel) (v : SourceInvariant)
        (found : InvariantParts) → IsInvariantOf constants ps cs v found → invariant_at constants ps cs v ≡ Ok found }
{}
