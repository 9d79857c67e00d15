//! Laws of texts: what functions ensure that do nothing.

ghost use Rattle.std.specs.Prelude.{◌≡◌};
ghost use Rattle.ioa_source.specs.Erasure.{erase};
ghost use Rattle.ioa_source.specs.Sides.{SourceText};

/// A text as it is spelled has no annotation to erase, so `erase` leaves it as it is. It follows that
/// `erase` drops and changes no part of a text but the annotations of names, displays, fields, assigned
/// variables and declared sorts.
pub fn erasure_law()
    ensures { (t : SourceText) → erase t ≡ t }
{}
