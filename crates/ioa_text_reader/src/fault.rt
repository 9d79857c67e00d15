//! Why a text is refused.

use crate::parsing::LENGTH_LIMIT;
use ioa_tokens::LeftOut;
use std::fmt;
use thiserror::Error;

/// Why a text is refused. An offset counts the bytes of the text from 0. Source: profile.
#[derive(Debug, Drop, Error)]
pub enum FrontFault {
    /// 10: the text has no token. The offset is 0.
    Empty,
    /// 11: no token begins with the character at this offset.
    BadCharacter(usize),
    /// 12: no text goes on with the token at this offset, or the text ends too early. If it ends, the
    /// offset is its length.
    Unexpected(usize),
    /// 13: the number that begins at this offset is above 9223372036854775807.
    NumberTooLarge(usize),
    /// 14: the token at this offset is in a term or a statement that is more than 64 high, or more than
    /// 128 brackets are open there.
    TooDeep(usize),
    /// 15: the text is longer than 1048576 bytes. The offset is 1048576.
    TooLong,
    /// 16: this word is at this offset, and the profile leaves it out.
    LeftOut(LeftOut, usize),
    /// 3: memory ran out.
    Memory,
}

impl fmt::Display for FrontFault {
    ghost use Rattle.std.specs.Prelude.{Some};
    ghost use Rattle.ioa_text_reader.specs.FaultText.{front_fault_text};

    ghost output = { λ f. Some (front_fault_text f) };

    fn fmt<W: fmt::Write>(&self, f: &mut fmt::Formatter<W>) -> fmt::Result {
        match self {
            FrontFault::Empty => write!(f, "10 Empty at 0"),
            FrontFault::BadCharacter(offset) => write!(f, "11 BadCharacter at {offset}"),
            FrontFault::Unexpected(offset) => write!(f, "12 Unexpected at {offset}"),
            FrontFault::NumberTooLarge(offset) => write!(f, "13 NumberTooLarge at {offset}"),
            FrontFault::TooDeep(offset) => write!(f, "14 TooDeep at {offset}"),
            FrontFault::TooLong => write!(f, "15 TooLong at {LENGTH_LIMIT}"),
            FrontFault::LeftOut(_, offset) => write!(f, "16 LeftOut at {offset}"),
            FrontFault::Memory => write!(f, "3 Memory"),
        }
    }
}
