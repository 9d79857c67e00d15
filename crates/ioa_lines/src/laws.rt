//! What the reader of lines is held against: functions that do nothing, whose contracts are the laws.

ghost use Rattle.std.specs.Prelude.{◌≡◌, ◌↔◌, ℕ, List, Some, Ok, Err};
ghost use Rattle.ioa_lines.specs.Lines.{IsBadLine, Lines, SpellsLine, lines_answer, lines_of};
ghost use Rattle.ioa_lines.specs.Reading.{line_entry};
ghost use Rattle.ioa_lines.specs.declared.fault.LineFault.TheVariants.{BadLine};
ghost use Rattle.ioa_system.specs.Systems.{SystemParts};
ghost use Rattle.ioa_tokens.specs.declared.token.Token.{Token};
ghost use Rattle.ioa_transitions.specs.Entries.{PlainEntry};

/// The tokens of a line, against the grammar: the entry that is read is spelled, and its action is one of the system;
/// and each entry that is spelled by an action of the system is read.
pub fn line_law()
    ensures { (s : SystemParts) (xs : List Token) (e : PlainEntry) →
        (line_entry s xs ≡ Some e) ↔ SpellsLine s xs e }
{}

/// The lines of a text: the entries that are read are those that the lines with tokens spell, one by one, and the line
/// that is refused is the first with tokens that spells none.
pub fn lines_law()
    ensures entries { (s : SystemParts) (text : List ℕ) (entries : List PlainEntry) →
        (lines_answer s text ≡ Ok entries) ↔ Lines s text entries }
    ensures bad { (s : SystemParts) (text : List ℕ) (k : ℕ) →
        (lines_answer s text ≡ Err (BadLine k)) ↔ IsBadLine s k (lines_of text) }
{}
