//! Laws of checked texts: what functions ensure that do nothing.

ghost use Rattle.std.specs.Prelude.{◌≡◌, Ok};
ghost use Rattle.ioa_source.specs.Sides.{SourceText};
ghost use Rattle.ioa_system.specs.Declarations.{IsWellDeclared};
ghost use Rattle.ioa_system.specs.Systems.{SystemParts};
ghost use Rattle.ioa_check.specs.Checking.{system_of};
ghost use Rattle.ioa_check.specs.Systems.{IsSystemOf};

/// What is made of a text is the system that the text describes. There is no other such system: if there is one, it is
/// made, so that a text is refused only if there is none. It declares each thing once.
pub fn check_law()
    ensures sound { (x : SourceText) (s : SystemParts) → system_of x ≡ Ok s → IsSystemOf x s }
    ensures found { (x : SourceText) (s : SystemParts) → IsSystemOf x s → system_of x ≡ Ok s }
    ensures declared { (x : SourceText) (s : SystemParts) → IsSystemOf x s → IsWellDeclared s }
{}
