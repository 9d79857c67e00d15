//! Texts that the reader refuses.

ghost use Rattle.std.specs.Prelude.{◌≡◌, ◌++◌, IfOk, OnOk};
ghost use Rattle.ioa_explain.specs.Pages as spec;

use crate::candidates::candidates;
use crate::page::{push_detail, push_if_any, push_title, tokens_of};
use crate::sentences::{reading_rule, title_of};
use ioa_place::{digits_at, place_at, show_part, token_at, token_length};
use ioa_text_reader::FrontFault;
use ioa_tokens::LocatedToken;
use std::alloc::{AllocError, Global};

/// How many bytes a text has at most.
const LENGTH_LIMIT: usize = 1_048_576;

/// Where a text is refused.
fn offset_of(fault: &FrontFault) -> usize
    ensures { result ≡ spec.front_offset fault.now }
{
    match fault {
        FrontFault::Empty | FrontFault::Memory => 0,
        FrontFault::BadCharacter(offset)
        | FrontFault::Unexpected(offset)
        | FrontFault::NumberTooLarge(offset)
        | FrontFault::TooDeep(offset)
        | FrontFault::LeftOut(_, offset) => *offset,
        FrontFault::TooLong => LENGTH_LIMIT,
    }
}

/// Where what stands at an offset ends: a token, or a number that is too large; else the offset.
fn end_at(
    alloc: Global,
    text: &str,
    tokens: &[LocatedToken<'_>],
    offset: usize,
) -> Result<usize, AllocError> {
    let length = match token_at(tokens, offset).and_then(|position| tokens.get(position)) {
        Some(token) => token_length(alloc, text, &token.token, offset)?,
        None => digits_at(text, offset),
    };
    Ok(offset.saturating_add(length))
}

/// What is told of a text that the reader refuses.
pub(crate) fn unread_page(
    alloc: Global,
    name: &str,
    text: &str,
    fault: &FrontFault,
) -> Result<Vec<u8>, AllocError>
    ensures { IfOk result (λ page. spec.TellsUnread name.now text.now fault.now page.items) }
{
    let tokens = tokens_of(alloc, text)?;
    let end = end_at(alloc, text, &tokens, offset_of(fault))?;
    let more = more_of(alloc, text, &tokens, fault)?;
    let page = page_of(alloc, name, text, fault, end, more.as_bytes())?;
    Ok(page)
}

/// What is told of a text that the reader refuses in a part that ends there. For an unexpected token `more` is what
/// could stand there, and for a character that begins no token what it is.
fn page_of(
    alloc: Global,
    name: &str,
    text: &str,
    fault: &FrontFault,
    end: usize,
    more: &[u8],
) -> Result<Vec<u8>, AllocError>
    ensures { IfOk result (λ page. page.items ≡ spec.unread_text name.now text.now fault.now end more.now) }
{
    let mut page = Vec::new(alloc);
    let offset = offset_of(fault);
    push_title(
        alloc,
        &mut page,
        name,
        place_at(text, offset),
        title_of(fault).as_bytes(),
    )?;
    show_part(alloc, &mut page, text, offset, end)?;
    push_place(alloc, &mut page, text, fault, end, more)?;
    push_if_any(&mut page, reading_rule(fault).as_bytes())?;
    Ok(page)
}

/// Adds what is told of the place at which the reader refuses a text.
fn push_place(
    alloc: Global,
    page: &mut Vec<u8>,
    text: &str,
    fault: &FrontFault,
    end: usize,
    more: &[u8],
) -> Result<(), AllocError>
    ensures { OnOk result (page.new.items ≡ page.old.items ++ spec.told_of_place fault.now text.now end more.now) }
{
    match fault {
        FrontFault::BadCharacter(_) => push_if_any(page, more),
        FrontFault::Unexpected(offset) => {
            push_found(alloc, page, part_of(text.as_bytes(), *offset, end))?;
            push_if_any(page, more)
        }
        FrontFault::NumberTooLarge(offset) | FrontFault::LeftOut(_, offset) => {
            push_found(alloc, page, part_of(text.as_bytes(), *offset, end))
        }
        FrontFault::Empty | FrontFault::TooDeep(_) | FrontFault::TooLong | FrontFault::Memory => {
            Ok(())
        }
    }
}

/// What stands from an offset up to an end.
fn part_of(text: &[u8], offset: usize, end: usize) -> &[u8]
    ensures { result.now ≡ spec.part_of text.now offset end }
{
    let front = &text[..end.min(text.len())];
    &front[offset.min(front.len())..]
}

/// Adds a line that tells what is found, or that the text ends.
fn push_found(alloc: Global, page: &mut Vec<u8>, found: &[u8]) -> Result<(), AllocError>
    ensures { OnOk result (page.new.items ≡ page.old.items ++ spec.found_line found.now) }
{
    if found.is_empty() {
        push_detail(page, b"The text ends here.")
    } else {
        let words = found_words(alloc, found)?;
        push_detail(page, &words)
    }
}

/// What is told of a part of the text that is found.
fn found_words(alloc: Global, found: &[u8]) -> Result<Vec<u8>, AllocError>
    ensures { IfOk result (λ words. words.items ≡ spec.found_words found.now) }
{
    let mut words = Vec::new(alloc);
    words.extend_from_slice(b"found `")?;
    words.extend_from_slice(found)?;
    words.extend_from_slice(b"`")?;
    Ok(words)
}

/// What more is told of the place at which the reader refuses a text: what could stand there, or which character it is;
/// empty if there is no more to say.
fn more_of(
    alloc: Global,
    text: &str,
    tokens: &[LocatedToken<'_>],
    fault: &FrontFault,
) -> Result<String, AllocError> {
    match fault {
        FrontFault::Unexpected(offset) => candidates(alloc, text, tokens, *offset),
        FrontFault::BadCharacter(offset) => stray_line(alloc, text, *offset),
        FrontFault::Empty
        | FrontFault::NumberTooLarge(_)
        | FrontFault::TooDeep(_)
        | FrontFault::TooLong
        | FrontFault::LeftOut(_, _)
        | FrontFault::Memory => Ok(String::new(alloc)),
    }
}

/// Which character stands at an offset, where no token begins with it; empty if none does.
fn stray_line(alloc: Global, text: &str, offset: usize) -> Result<String, AllocError> {
    match text.get(offset..).and_then(|rest| rest.chars().next()) {
        Some(character) => character_line(alloc, character),
        None => Ok(String::new(alloc)),
    }
}

/// What is said of a character with which no token begins.
fn character_line(alloc: Global, character: char) -> Result<String, AllocError> {
    if character == '\u{feff}' {
        String::from_str(
            alloc,
            "This is a byte order mark: the text begins behind it.",
        )
    } else if character == '\\' {
        String::from_str(alloc, "A backslash begins `\\/` and `\\in` alone.")
    } else if character.is_ascii_graphic() {
        format!(in alloc; "No token begins with `{character}`.")
    } else if character.is_ascii() {
        let number = u32::from(character);
        format!(in alloc; "No token begins with the character of number {number}.")
    } else {
        format!(in alloc; "`{character}` is past ASCII: it may stand in comments alone.")
    }
}
