//! An input that is read whole, within the limits of the profile.

ghost use Rattle.std.specs.Prelude.{◌≡◌, ◌≤◌, IfErr, IfOk, IfSome, vec_len, string_bytes, string_len};
ghost use Rattle.ioa_streams.specs.Input.{IsFaultOf, NamesLimit};

use std::alloc::{AllocError, Global};
use std::fmt;
use std::io::{ErrorKind, Read};
use thiserror::Error;

/// The greatest length of an input, in bytes, if it has no limit of its own.
pub const INPUT_LIMIT: usize = 8_388_608;

/// The greatest length of a schedule that is read from a file, in bytes.
pub const SCHEDULE_LIMIT: usize = 134_217_728;

/// How many bytes a turn reads at most.
const CHUNK_LENGTH: usize = 4096;

/// Why an input gives no text.
#[derive(Debug, Drop, PartialEq, Eq, Error)]
pub enum InputFault {
    /// `Read` (70): a read failed, or the input did not end within as many turns as it may have bytes, and one for its
    /// end.
    Read,
    /// `TooLong` (15): the input has more bytes than its limit, which is the number.
    TooLong(usize),
    /// `BadCharacter` (11): the input is not UTF-8. The number is the offset of the first byte of the first
    /// ill-formed sequence.
    BadCharacter(usize),
    /// `Memory` (3): memory ran out.
    Memory,
}

impl fmt::Display for InputFault {
    ghost use Rattle.std.specs.Prelude.{Some};
    ghost use Rattle.ioa_streams.specs.Input.{input_fault_text};

    ghost output = { λ f. Some (input_fault_text f) };

    fn fmt<W: fmt::Write>(&self, f: &mut fmt::Formatter<W>) -> fmt::Result {
        match self {
            InputFault::Read => write!(f, "70 Read"),
            InputFault::TooLong(limit) => write!(f, "15 TooLong at {limit}"),
            InputFault::BadCharacter(offset) => write!(f, "11 BadCharacter at {offset}"),
            InputFault::Memory => write!(f, "3 Memory"),
        }
    }
}

impl From<AllocError> for InputFault {
    ghost use Rattle.std.specs.Prelude.{◌≡◌};
    ghost use Rattle.ioa_streams.specs.declared.input.InputFault.TheVariants.{Memory};

    ghost from_gives = { λ _ e. e ≡ Memory };

    fn from(_fault: AllocError) -> InputFault {
        InputFault::Memory
    }
}

/// Reads the whole of an input of at most [`INPUT_LIMIT`] bytes as a text, as [`read_within`] does.
pub fn read_input<R: Read>(alloc: Global, reader: &mut R) -> Result<String, InputFault>
    ensures all { IfOk result (λ s. IfSome (R.remaining reader.old) (λ bs. string_bytes s ≡ bs)) }
    ensures short { IfOk result (λ s. string_len s ≤ INPUT_LIMIT) }
    ensures faults { IfErr result (λ fault. IfSome (R.remaining reader.old) (IsFaultOf INPUT_LIMIT fault)) }
    ensures limit { IfErr result (NamesLimit INPUT_LIMIT) }
{
    read_within(alloc, reader, INPUT_LIMIT)
}

/// Reads the whole of an input as a text. It has at most `limit` bytes.
///
/// The length is tested before the characters are: [`InputFault::BadCharacter`] comes only for an input that was read
/// to its end. An interrupted read is tried again, and counts as a turn. After a fault the reader keeps what was not
/// read.
#[tactic(auto, using(crate::proofs::Utf8::valid_len_below))]
pub fn read_within<R: Read>(
    alloc: Global,
    reader: &mut R,
    limit: usize,
) -> Result<String, InputFault>
    ensures all { IfOk result (λ s. IfSome (R.remaining reader.old) (λ bs. string_bytes s ≡ bs)) }
    ensures short { IfOk result (λ s. string_len s ≤ limit) }
    ensures faults { IfErr result (λ fault. IfSome (R.remaining reader.old) (IsFaultOf limit fault)) }
    ensures limit { IfErr result (NamesLimit limit) }
{
    let bytes = read_bytes(alloc, reader, limit)?;
    String::from_utf8(bytes).map_err(|fault| {
        let offset = fault.utf8_error().valid_up_to();
        InputFault::BadCharacter(offset)
    })
}

/// Reads the bytes of the whole input. A turn reads at least one, and the last one meets the end.
fn read_bytes<R: Read>(alloc: Global, reader: &mut R, limit: usize) -> Result<Vec<u8>, InputFault>
    ensures all { IfOk result (λ v. IfSome (R.remaining reader.old) (λ bs. v.items ≡ bs)) }
    ensures short { IfOk result (λ v. vec_len v ≤ limit) }
    ensures faults { IfErr result (λ fault. IfSome (R.remaining reader.old) (IsFaultOf limit fault)) }
    ensures limit { IfErr result (NamesLimit limit) }
{
    let mut bytes = Vec::new(alloc);
    let mut chunk = [0u8; CHUNK_LENGTH];
    for _turn in 0..=limit {
        match reader.read(&mut chunk) {
            Ok(0) => return Ok(bytes),
            Ok(count) => bytes.extend_from_slice(&chunk[..count])?,
            Err(fault) if fault.kind() == ErrorKind::Interrupted => {}
            Err(_) => return Err(InputFault::Read),
        }
        if bytes.len() > limit {
            return Err(InputFault::TooLong(limit));
        }
    }
    Err(InputFault::Read)
}
