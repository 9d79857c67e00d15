//! Whole texts through writers that take all, little or nothing.

ghost use Rattle.std.specs.Prelude.{None};

use ioa_streams::{Out, OutFailed, Over, put_all};
use std::alloc::Global;
use std::io;
use std::io::Write;

/// A writer that takes one byte at a time, and no more than it has room for.
#[derive(Drop)]
struct Narrow {
    written: Vec<u8>,
    room: usize,
}

impl Write for Narrow {
    fn write(&mut self, chunk: &[u8]) -> io::Result<usize> {
        if self.written.len() >= self.room {
            return Ok(0);
        }
        match chunk.first() {
            Some(byte) => {
                self.written.push(*byte)?;
                Ok(1)
            }
            None => Ok(0),
        }
    }

    fn flush(&mut self) -> io::Result<()> {
        Ok(())
    }
}

/// An `Out` that takes three bytes at once and fails at the third piece.
#[derive(Drop)]
struct Closing {
    puts: u8,
    stuck: bool,
}

impl Out for Closing {
    ghost bytes = { λ _. None };

    ghost failed = { λ o. o.stuck };

    fn put(&mut self, chunk: &[u8]) -> Result<usize, OutFailed> {
        if chunk.is_empty() {
            return Ok(0);
        }
        if self.puts >= 2 {
            self.stuck = true;
            return Err(OutFailed);
        }
        self.puts += 1;
        Ok(chunk.len().min(3))
    }
}

/// Whether whole texts go out one after the other, an empty one too.
fn are_put_in_order(alloc: Global) -> bool {
    let mut out = Over::new(Vec::new(alloc));
    let are_put = put_all(&mut out, b"schedule 0\n").is_ok()
        && put_all(&mut out, b"").is_ok()
        && put_all(&mut out, b"total 0\n").is_ok();
    are_put
        && !out.has_failed()
        && out.into_writer().as_slice() == b"schedule 0\ntotal 0\n".as_slice()
}

/// Whether as much of a text goes out as there is room for, and the output has failed if that is not all.
fn goes_out_within(alloc: Global, text: &[u8], room: usize) -> bool {
    let mut out = Over::new(Narrow {
        written: Vec::new(alloc),
        room,
    });
    let has_room = room >= text.len();
    let is_told = put_all(&mut out, text).is_ok() == has_room && out.has_failed() != has_room;
    is_told && out.into_writer().written.as_slice() == &text[..room.min(text.len())]
}

#[test]
fn whole_texts_go_out_in_order(rt: HostRuntime) {
    assert!(rt; are_put_in_order(rt.alloc()));
}

#[test]
fn a_text_goes_out_byte_by_byte_while_there_is_room(rt: HostRuntime) {
    for room in 0..10 {
        assert!(rt;
            goes_out_within(rt.alloc(), b"total 0\n", room),
            "with room for {room}"
        );
    }
}

#[test]
fn a_fault_in_the_middle_is_told(rt: HostRuntime) {
    let mut out = Closing {
        puts: 0,
        stuck: false,
    };
    let has_failed = put_all(&mut out, b"total 0\n").is_err();
    assert!(rt; has_failed && out.stuck && out.puts == 2);
}
