//! A terminal that is read.

use std::io::{self, Read, Write};

/// What is told before a terminal is read.
const QUESTION: &[u8] =
    b"ioarun: reading this terminal; end with Ctrl-D on a line of its own, or name a file\n";

/// An input that may be a terminal, where somebody has to know that something is waited for.
#[derive(Drop)]
pub struct Asking<I, E> {
    input: I,
    told_on: E,
    is_to_tell: bool,
}

impl<I: Read, E: Write> Asking<I, E> {
    /// The input. If it is a terminal, the first read of it is told before on `told_on`.
    pub fn new(input: I, told_on: E, is_terminal: bool) -> Self {
        Asking {
            input,
            told_on,
            is_to_tell: is_terminal,
        }
    }
}

impl<I: Read, E: Write> Read for Asking<I, E> {
    fn read(&mut self, buffer: &mut [u8]) -> io::Result<usize> {
        if self.is_to_tell {
            self.is_to_tell = false;
            // Whether it is seen changes nothing.
            let _told = self.told_on.write(QUESTION);
        }
        self.input.read(buffer)
    }
}
