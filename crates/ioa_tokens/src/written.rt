//! Tokens written as text.

ghost use Rattle.std.specs.Prelude.{◌++◌, OnOk, codes};
ghost use Rattle.std.specs.List.{repeat};
ghost use Rattle.ioa_values.specs.Outcome.{Writes};
ghost use Rattle.ioa_tokens.specs.declared.token.Token.TheVariants as token;
ghost use Rattle.ioa_tokens.specs.Written as spec;

use crate::mark::Mark;
use std::alloc::AllocError;

/// What is written before a token. Source: profile.
#[derive(Clone, Copy, Debug, PartialEq, Eq)]
pub enum Gap {
    /// Nothing.
    Joined,
    /// A space.
    Spaced,
    /// A line feed, and this number of spaces.
    NewLine(usize),
}

/// Writes spaces at the end of a text.
fn push_spaces(text: &mut String, count: usize) -> Result<(), AllocError>
    ensures { OnOk result (Writes text.old text.new (repeat count (codes " "))) }
{
    for _space in 0..count {
        text.push_str(" ")?;
    }
    Ok(())
}

/// Writes a line feed and spaces at the end of a text.
fn push_line(text: &mut String, indent: usize) -> Result<(), AllocError>
    ensures { OnOk result (Writes text.old text.new (codes "\n" ++ repeat indent (codes " "))) }
{
    text.push_str("\n")?;
    push_spaces(text, indent)
}

/// Writes a gap at the end of a text.
fn push_gap(text: &mut String, gap: Gap) -> Result<(), AllocError>
    ensures { OnOk result (Writes text.old text.new (spec.gap_text gap)) }
{
    match gap {
        Gap::Joined => Ok(()),
        Gap::Spaced => text.push_str(" "),
        Gap::NewLine(indent) => push_line(text, indent),
    }
}

/// Writes a gap and the text of a token at the end of a text.
fn push_lexeme(text: &mut String, gap: Gap, lexeme: &str) -> Result<(), AllocError>
    ensures { OnOk result (Writes text.old text.new (spec.gap_text gap ++ lexeme.now)) }
{
    push_gap(text, gap)?;
    text.push_str(lexeme)
}

/// Writes a gap and a name at the end of a text. If memory runs out, only a part may be written.
/// Source: profile.
pub fn push_word(text: &mut String, gap: Gap, word: &str) -> Result<(), AllocError>
    ensures { OnOk result (Writes text.old text.new (spec.gap_text gap ++ spec.token_text (token.Word word.now))) }
{
    push_lexeme(text, gap, word)
}

/// Writes a gap and a number at the end of a text. If memory runs out, only a part may be written.
/// Source: profile.
pub fn push_number(text: &mut String, gap: Gap, number: i64) -> Result<(), AllocError>
    ensures { OnOk result (Writes text.old text.new (spec.gap_text gap ++ spec.token_text (token.Number number))) }
{
    push_gap(text, gap)?;
    write!(text, "{number}")
}

/// Writes a gap and a sign or a reserved word at the end of a text. If memory runs out, only a part may
/// be written. Source: profile.
pub fn push_mark(text: &mut String, gap: Gap, mark: Mark) -> Result<(), AllocError>
    ensures { OnOk result (Writes text.old text.new (spec.gap_text gap ++ spec.token_text (token.Mark mark))) }
{
    push_lexeme(text, gap, mark.as_str())
}
