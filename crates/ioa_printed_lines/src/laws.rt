//! Laws of printed lines: what functions ensure that do nothing.

ghost use Rattle.std.specs.Prelude.{◌≡◌, ◌+◌, ◌≤◌, ℕ, true, List, Ok, length};
ghost use Rattle.std.specs.List.{AllByRecursion};
ghost use Rattle.ioa_values.specs.Canonical.{IsCanonical};
ghost use Rattle.ioa_values.specs.Data.{Data};
ghost use Rattle.ioa_values.specs.Text.{text};
ghost use Rattle.ioa_tokens.specs.Lexeme.{greatest_number};
ghost use Rattle.ioa_operators.specs.Shapes.{PlainShape, has_shape, wide_shape};
ghost use Rattle.ioa_system.specs.Systems.{SystemParts};
ghost use Rattle.ioa_transitions.specs.Entries.{PlainEntry};
ghost use Rattle.ioa_lines.specs.Lines.{Lines, lines_answer};
ghost use Rattle.ioa_printed_lines.specs.PrintedLines.{IsReadBack, printed_lines};
ghost use Rattle.ioa_printed_lines.specs.TextSystems.{AreConstantNames, IsBounded, IsTextShape};
ghost use Rattle.ioa_printed_lines.specs.TextSystems.{IsTextSystem, MayTake};

/// The text of a value is read back: it is cut into tokens that spell the value, and that is read from them.
pub fn printed_value_law()
    ensures { (names : List (List ℕ)) (s : PlainShape) (v : Data) → AreConstantNames names →
        IsTextShape (length names) s → has_shape (wide_shape s) v ≡ true → IsBounded v → IsCanonical v →
        IsReadBack names s v (text names v) }
{}

/// The printed schedule of a text's system is read back, if each entry may be taken. Its lines spell the entries that
/// were printed, one by one, with the values that their effects chose, and these are read from it. That the entries of
/// a run may be taken is not proved here.
pub fn printed_lines_law()
    ensures spelled { (s : SystemParts) (k : ℕ) (entries : List PlainEntry) → IsTextSystem s →
        AllByRecursion (MayTake s) entries → k + length entries ≤ greatest_number →
        Lines s (printed_lines s.names k entries) entries }
    ensures read { (s : SystemParts) (k : ℕ) (entries : List PlainEntry) → IsTextSystem s →
        AllByRecursion (MayTake s) entries → k + length entries ≤ greatest_number →
        lines_answer s (printed_lines s.names k entries) ≡ Ok entries }
{}
