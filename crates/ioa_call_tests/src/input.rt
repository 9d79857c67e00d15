//! Readers that are read whole, and readers that fail.

use ioa_streams::{InputFault, read_input};
use std::alloc::Global;
use std::io;
use std::io::{Error, ErrorKind, Read};
use std::test::Fail;

/// A reader whose every read fails in one way.
#[derive(Drop)]
struct Failing(ErrorKind);

impl Read for Failing {
    fn read(&mut self, _buffer: &mut [u8]) -> io::Result<usize> {
        Err(Error::from(self.0))
    }
}

/// A reader that gives one byte at a time, each after an interrupted read.
#[derive(Drop)]
struct Halting<'a> {
    left: &'a [u8],
    is_next_read: bool,
}

impl Read for Halting<'_> {
    fn read(&mut self, buffer: &mut [u8]) -> io::Result<usize> {
        self.is_next_read = !self.is_next_read;
        if self.is_next_read {
            return Err(Error::from(ErrorKind::Interrupted));
        }
        match (self.left.split_first(), buffer.first_mut()) {
            (Some((byte, left)), Some(first)) => {
                *first = *byte;
                self.left = left;
                Ok(1)
            }
            _ => Ok(0),
        }
    }
}

/// Whether a reader gives this text.
fn gives<R: Read>(alloc: Global, reader: &mut R, text: &str) -> Result<bool, InputFault> {
    Ok(read_input(alloc, reader)?.as_str() == text)
}

/// Whether a text is read whole, at once and with a halt before each byte.
fn is_read_whole(alloc: Global, text: &str) -> Result<bool, InputFault> {
    let mut reader = text.as_bytes();
    let mut halting = Halting {
        left: text.as_bytes(),
        is_next_read: false,
    };
    Ok(gives(alloc, &mut reader, text)? && gives(alloc, &mut halting, text)?)
}

/// Whether a reader cannot be read to its end.
fn is_read_fault<R: Read>(alloc: Global, reader: &mut R) -> bool {
    matches!(read_input(alloc, reader), Err(InputFault::Read))
}

#[test]
fn texts_are_read_whole(rt: HostRuntime) -> Result<(), Fail> {
    for text in ["", "automaton A", "größer → kleiner"] {
        assert!(rt; is_read_whole(rt.alloc(), text)?, "{text}");
    }
    Ok(())
}

#[test]
fn failed_reads_are_read_faults(rt: HostRuntime) {
    let mut in_the_middle = b"automaton".as_slice().chain(Failing(ErrorKind::Other));
    let mut without_end = Failing(ErrorKind::Interrupted);
    let are_faults = is_read_fault(rt.alloc(), &mut in_the_middle)
        && is_read_fault(rt.alloc(), &mut without_end);
    assert!(rt; are_faults);
}
