//! Lines and columns.

ghost use Rattle.std.specs.Prelude.{◌≡◌, ◌≤◌, length, take, drop};
ghost use Rattle.std.specs.Fmt.{is_char_start};
ghost use Rattle.std.specs.List.{after_last, count_by, prefix_len, suffix_len, take_while};
ghost use Rattle.ioa_place.specs.Lines as spec;

/// A place of a text, as people count: both numbers from 1. A tab is one character, as is each code point.
#[derive(Clone, Copy, Debug, PartialEq, Eq)]
pub struct Place {
    /// The number of the line.
    pub line: usize,
    /// The number of the character in its line.
    pub column: usize,
}

/// What stands before an offset; all of the text if the offset is behind its end.
pub(crate) fn front(text: &[u8], offset: usize) -> &[u8]
    ensures { result.now ≡ take offset text.now }
{
    &text[..offset.min(text.len())]
}

/// What stands from an offset on; nothing if the offset is behind the end of the text.
pub(crate) fn rest(text: &[u8], offset: usize) -> &[u8]
    ensures { result.now ≡ drop offset text.now }
{
    &text[offset.min(text.len())..]
}

/// How many bytes come before the end of the first line.
fn first_line_length(text: &[u8]) -> usize
    ensures { result ≡ prefix_len spec.is_in_line text.now }
{
    text.iter().take_while(|byte| **byte != b'\n').count()
}

/// How many bytes the last line has.
fn last_line_length(text: &[u8]) -> usize
    ensures { result ≡ suffix_len spec.is_in_line text.now }
{
    text.iter().rev().take_while(|byte| **byte != b'\n').count()
}

/// How many line feeds a text has.
#[tactic(auto, using(crate::proofs::Ends::line_lemmas))]
fn line_feeds(text: &[u8]) -> usize
    ensures value { result ≡ count_by spec.is_line_feed text.now }
    ensures few { result ≤ length text.now }
{
    text.iter().filter(|byte| **byte == b'\n').count()
}

/// Whether a byte is the first of a character.
pub(crate) fn begins_character(byte: u8) -> bool
    ensures { result ≡ is_char_start byte }
{
    byte & 0xC0 != 0x80
}

/// How many characters a text has.
#[tactic(auto, using(crate::proofs::Ends::line_lemmas))]
fn characters(text: &[u8]) -> usize
    ensures value { result ≡ spec.characters text.now }
    ensures few { result ≤ length text.now }
{
    text.iter().filter(|byte| begins_character(**byte)).count()
}

/// The first line of a text, without its line feed.
#[tactic(auto, using(crate::proofs::Ends::line_lemmas))]
fn first_line(text: &[u8]) -> &[u8]
    ensures { result.now ≡ take_while spec.is_in_line text.now }
{
    &text[..first_line_length(text)]
}

/// The last line of a text.
#[tactic(auto, using(crate::proofs::Ends::line_lemmas))]
fn last_line(text: &[u8]) -> &[u8]
    ensures value { result.now ≡ after_last spec.is_line_feed text.now }
    ensures short { length result.now ≤ length text.now }
{
    &text[text.len() - last_line_length(text)..]
}

/// A line without the carriage return at its end, if it has one.
fn without_return(line: &[u8]) -> &[u8]
    ensures { result.now ≡ spec.without_return line.now }
{
    match line.split_last() {
        Some((b'\r', front)) => front,
        _ => line,
    }
}

/// The line and the column of an offset. An offset behind the end of the text has the place of its end.
pub fn place_at(text: &str, offset: usize) -> Place
    ensures { result ≡ spec.place_at text.now offset }
{
    let front = front(text.as_bytes(), offset);
    Place {
        line: 1 + line_feeds(front),
        column: 1 + characters(last_line(front)),
    }
}

/// What stands before an offset in its line.
pub fn line_before(text: &str, offset: usize) -> &[u8]
    ensures { result.now ≡ spec.line_before text.now offset }
{
    last_line(front(text.as_bytes(), offset))
}

/// The line of an offset, without its line feed, and without the carriage return before it.
pub fn line_at(text: &str, offset: usize) -> &[u8]
    ensures { result.now ≡ spec.line_at text.now offset }
{
    let bytes = text.as_bytes();
    let begin = front(bytes, offset).len() - line_before(text, offset).len();
    without_return(first_line(rest(bytes, begin)))
}

/// How many characters stand from an offset to an end, in the line of the offset.
pub fn width_of(text: &str, offset: usize, end: usize) -> usize
    ensures { result ≡ spec.width_of text.now offset end }
{
    characters(first_line(rest(front(text.as_bytes(), end), offset)))
}
