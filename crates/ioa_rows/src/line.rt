//! The lines of a script.

ghost use Rattle.std.specs.Prelude.{◌≡◌};
ghost use Rattle.ioa_rows.specs.Lines.{line_at};

/// What a line of a script is.
#[derive(Clone, Copy, Debug, PartialEq, Eq)]
pub enum Line {
    /// An answer that is wanted of the command before it.
    Wanted,
    /// A remark, or an empty line.
    Remark,
    /// A command.
    Command,
}

/// What a line is, by its first character.
pub fn line_of(text: &str) -> Line
    ensures { result ≡ line_at text.now }
{
    match text.as_bytes() {
        [] | [b'#', ..] => Line::Remark,
        [b'=', ..] => Line::Wanted,
        [_, ..] => Line::Command,
    }
}
