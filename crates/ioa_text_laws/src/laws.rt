//! Laws of the systems of texts: what functions ensure that do nothing.

ghost use Rattle.std.specs.Prelude.{◌≡◌, ℕ, List};
ghost use Rattle.ioa_source.specs.Sides.{SourceText};
ghost use Rattle.ioa_system.specs.Systems.{SystemParts};
ghost use Rattle.ioa_text_reader.specs.Texts.{TextSpells};
ghost use Rattle.ioa_check.specs.Systems.{IsSystemOf};
ghost use Rattle.ioa_printed_lines.specs.TextSystems.{IsTextSystem};

use ioa_check::check_law;
use ioa_text_reader::one_source;

/// The system of a text is one whose actions can be printed and read back: its constants and its actions have words
/// for names, no two constants have one name, each tuple type has a field, and the nodes are numbered.
pub fn text_system_law()
    ensures { (p : SourceText) (text : List ℕ) (s : SystemParts) → TextSpells p text → IsSystemOf p s →
        IsTextSystem s }
{}

/// A text describes at most one system.
pub fn one_system_law()
    ensures { (p q : SourceText) (text : List ℕ) (s t : SystemParts) → TextSpells p text → TextSpells q text →
        IsSystemOf p s → IsSystemOf q t → s ≡ t }
{
    one_source();
    check_law();
}
