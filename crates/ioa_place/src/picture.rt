//! A part of a text, shown to people.

ghost use Rattle.std.specs.Prelude.{◌≡◌, ◌++◌, ◌+◌, ℕ, codes, length, OnOk, max};
ghost use Rattle.std.specs.List.{repeat};
ghost use Rattle.ioa_place.specs.Lines as lines;
ghost use Rattle.ioa_place.specs.Pictures as spec;

use crate::place::{begins_character, line_at, line_before, place_at, width_of};
use std::alloc::{AllocError, Global};

/// How many characters the number of a line takes at least: shorter ones have blanks before them.
const NUMBER_WIDTH: usize = 5;

/// Adds a text to a page, so many times.
fn push_times(page: &mut Vec<u8>, mark: &[u8], times: usize) -> Result<(), AllocError>
    ensures { OnOk result (page.new.items ≡ page.old.items ++ repeat times mark.now) }
{
    for _turn in 0..times {
        page.extend_from_slice(mark)?;
    }
    Ok(())
}

/// What stands for a byte where nothing is shown: a tab for a tab, so that what comes behind stands in its place, a
/// blank for another character, and nothing for a byte that goes on with one.
fn blank_of(byte: u8) -> &'static str
    ensures { result.now ≡ spec.blank_of byte }
{
    if byte == b'\t' {
        "\t"
    } else if begins_character(byte) {
        " "
    } else {
        ""
    }
}

/// Adds blanks for a text.
fn push_blanks(page: &mut Vec<u8>, text: &[u8]) -> Result<(), AllocError>
    ensures { OnOk result (page.new.items ≡ page.old.items ++ spec.blanks text.now) }
{
    for byte in text {
        page.extend_from_slice(blank_of(*byte).as_bytes())?;
    }
    Ok(())
}

/// Adds a line behind its number.
fn push_line(
    alloc: Global,
    page: &mut Vec<u8>,
    number: usize,
    line: &[u8],
) -> Result<(), AllocError>
    ensures { OnOk result (page.new.items ≡ page.old.items ++ spec.numbered_line number line.now) }
{
    let digits = number.to_string(alloc)?;
    push_times(page, b" ", NUMBER_WIDTH.saturating_sub(digits.len()))?;
    page.extend_from_slice(digits.as_bytes())?;
    page.extend_from_slice(b" | ")?;
    page.extend_from_slice(line)?;
    page.extend_from_slice(b"\n")
}

/// Adds what stands below the number of a line, and behind it.
fn push_margin(alloc: Global, page: &mut Vec<u8>, number: usize) -> Result<(), AllocError>
    ensures { OnOk result (page.new.items ≡ page.old.items ++ spec.margin number) }
{
    let digits = number.to_string(alloc)?;
    push_times(page, b" ", NUMBER_WIDTH.max(digits.len()))?;
    page.extend_from_slice(b" | ")
}

/// Adds a line of carets, behind blanks for what stands before them.
fn push_carets(
    alloc: Global,
    page: &mut Vec<u8>,
    number: usize,
    before: &[u8],
    carets: usize,
) -> Result<(), AllocError>
    ensures { OnOk result (page.new.items ≡ page.old.items ++ spec.caret_line number before.now carets) }
{
    push_margin(alloc, page, number)?;
    push_blanks(page, before)?;
    push_times(page, b"^", carets)?;
    page.extend_from_slice(b"\n")
}

/// Adds to a page the line of an offset, behind its number, and below it carets under the characters of this line from
/// the offset up to the end, at least one. If memory runs out, only a part may be added.
#[tactic(auto, unfolding(crate::specs::Pictures::picture))]
pub fn show_part(
    alloc: Global,
    page: &mut Vec<u8>,
    text: &str,
    offset: usize,
    end: usize,
) -> Result<(), AllocError>
    ensures { OnOk result (page.new.items ≡ page.old.items ++ spec.picture text.now offset end) }
{
    let number = place_at(text, offset).line;
    push_line(alloc, page, number, line_at(text, offset))?;
    let carets = width_of(text, offset, end).max(1);
    push_carets(alloc, page, number, line_before(text, offset), carets)
}
