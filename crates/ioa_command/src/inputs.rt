//! Texts that are read from a file or from standard input.

ghost use Rattle.std.specs.Prelude.{◌≡◌, IfErr, IfOk, None, string_bytes};
ghost use Rattle.ioa_command.specs.Inputs.{IsFaultOfFile, IsFaultOfInput, IsFaultOfLong, IsFaultOfStandard};
ghost use Rattle.ioa_command.specs.Inputs.{IsTextOf, IsTextWithin, IsUnread, KeepsStandard};
ghost use Rattle.ioa_command.specs.Inputs.{given_by, schedule_limit, shown_name};
ghost use Rattle.ioa_streams.specs.Input.{NamesLimit};

use crate::choice::InputName;
use crate::faults::TextFault;
use ioa_streams::{INPUT_LIMIT, InputFault, SCHEDULE_LIMIT, read_input, read_within};
use std::alloc::Global;
use std::fs;
use std::io::Read;
use std::rt::Files;

/// Reads the text of an input: that of the file, if one is named, else that of standard input, which `reader` is.
pub(crate) fn text_of<R: Files, I: Read>(
    rt: &R,
    alloc: Global,
    input: &InputName,
    reader: &mut I,
) -> Result<String, TextFault>
    ensures read { IfOk result (λ s. IsTextOf (given_by input.now (I.remaining reader.old)) (string_bytes s)) }
    ensures refused { IfErr result (IsFaultOfInput input.now (I.remaining reader.old)) }
    ensures kept { KeepsStandard input.now (I.remaining reader.old) (I.remaining reader.new) }
{
    match input {
        InputName::Standard => text_of_standard(alloc, reader),
        InputName::File(name) => text_of_file(rt, alloc, name, INPUT_LIMIT),
    }
}

/// Reads a schedule, which may be longer than a text if it is that of a file.
pub(crate) fn schedule_of<R: Files, I: Read>(
    rt: &R,
    alloc: Global,
    input: &InputName,
    reader: &mut I,
) -> Result<String, TextFault>
    ensures read { IfOk result (λ s. IsTextWithin (schedule_limit input.now)
        (given_by input.now (I.remaining reader.old)) (string_bytes s)) }
    ensures refused { IfErr result (IsFaultOfLong input.now (I.remaining reader.old)) }
{
    match input {
        InputName::Standard => text_of_standard(alloc, reader),
        InputName::File(name) => text_of_file(rt, alloc, name, SCHEDULE_LIMIT),
    }
}

/// The name of an input as it is shown.
pub(crate) fn shown_name(input: &InputName) -> &str
    ensures { result.now ≡ shown_name input.now }
{
    match input {
        InputName::Standard => "-",
        InputName::File(name) => name.as_str(),
    }
}

/// Reads the text of standard input.
fn text_of_standard<I: Read>(alloc: Global, reader: &mut I) -> Result<String, TextFault>
    ensures read { IfOk result (λ s. IsTextOf (I.remaining reader.old) (string_bytes s)) }
    ensures refused { IfErr result (IsFaultOfStandard (I.remaining reader.old)) }
{
    match read_input(alloc, reader) {
        Ok(text) => {
            // No effect at run time. The proof reads from it that a text is UTF-8.
            let _text = text.as_str();
            Ok(text)
        }
        Err(fault) => Err(TextFault::Input(fault)),
    }
}

/// Reads the text of a file, of at most so many bytes.
#[tactic(auto, using(crate::proofs::Readings::unread_file))]
fn text_of_file<R: Files>(
    rt: &R,
    alloc: Global,
    name: &String,
    limit: usize,
) -> Result<String, TextFault>
    ensures read { IfOk result (λ s. IsTextWithin limit None (string_bytes s)) }
    ensures refused { IfErr result (IsFaultOfFile limit (string_bytes name.now)) }
{
    match bytes_of_file(rt, alloc, name.as_str(), limit) {
        Ok(text) => Ok(text),
        Err(InputFault::Read) => Err(unread(alloc, name)),
        Err(InputFault::TooLong(passed)) => Err(TextFault::Input(InputFault::TooLong(passed))),
        Err(InputFault::BadCharacter(offset)) => {
            Err(TextFault::Input(InputFault::BadCharacter(offset)))
        }
        Err(InputFault::Memory) => Err(TextFault::Input(InputFault::Memory)),
    }
}

/// Opens a file and reads its text, of at most so many bytes.
fn bytes_of_file<R: Files>(
    rt: &R,
    alloc: Global,
    name: &str,
    limit: usize,
) -> Result<String, InputFault>
    ensures read { IfOk result (λ s. IsTextWithin limit None (string_bytes s)) }
    ensures limit { IfErr result (NamesLimit limit) }
{
    match fs::open(rt, name) {
        Ok(file) => text_in(alloc, file, limit),
        Err(_) => Err(InputFault::Read),
    }
}

/// Reads the text of an open file, of at most so many bytes.
fn text_in<I: Read + Drop>(alloc: Global, mut file: I, limit: usize) -> Result<String, InputFault>
    ensures read { IfOk result (λ s. IsTextWithin limit None (string_bytes s)) }
    ensures limit { IfErr result (NamesLimit limit) }
{
    match read_within(alloc, &mut file, limit) {
        Ok(text) => {
            // No effect at run time. The proof reads from it that a text is UTF-8.
            let _text = text.as_str();
            Ok(text)
        }
        Err(fault) => Err(fault),
    }
}

/// The fault of a file that can't be read.
fn unread(alloc: Global, name: &String) -> TextFault
    ensures { IsUnread (string_bytes name.now) result }
{
    match String::from_str(alloc, name.as_str()) {
        Ok(name) => TextFault::Unread(name),
        Err(_) => TextFault::Input(InputFault::Memory),
    }
}
