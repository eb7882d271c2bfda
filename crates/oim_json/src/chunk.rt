//! Bytes that are collected before they are written.
//!
//! Not proved: how many writes are made.

ghost use Rattle.std.specs.Prelude.{◌≡◌, ◌≤◌, ◌+◌, ◌++◌, [], length};
ghost use Rattle.oim_json.specs.state.Chunks.{Puts};
ghost use Rattle.oim_json.specs.Sinks.{WritesAll};

use crate::mark::WriteFault;
use crate::sink::{Sink, write_all_of};
use std::marker::Model;

/// The capacity of a chunk in bytes.
const CHUNK: usize = 8192;

/// At most 8,192 bytes that wait to be written. A contract sees them.
///
/// They are kept in the chunk itself, so it does not allocate.
#[derive(Drop)]
pub(crate) struct Chunk {
    bytes: [u8; CHUNK],
    filled: usize,
}

impl Model for Chunk {
    ghost use Rattle.std.specs.Prelude.{◌≤◌, ℕ, List, take};

    ghost Value = { List ℕ };

    ghost view = { λ c. take c.filled c.bytes };

    ghost invariant = { λ c. c.filled ≤ 8192 };
}

impl Chunk {
    /// Makes an empty chunk.
    pub(crate) fn new() -> Chunk
        ensures { result ≡ [] }
    {
        Chunk {
            bytes: [0; CHUNK],
            filled: 0,
        }
    }

    /// Returns how many more bytes fit.
    fn room(&self) -> usize
        ensures { length self.now + result ≡ 8192 }
    {
        CHUNK - self.filled
    }

    fn append(&mut self, text: &[u8])
        requires { length self.old + length text.now ≤ 8192 }
        ensures { self.new ≡ self.old ++ text.now }
    {
        let end = self.filled + text.len();
        self.bytes[self.filled..end].copy_from_slice(text);
        self.filled = end;
    }

    /// Writes the waiting bytes. None waits afterwards, even if the write failed.
    pub(crate) fn flush<W: Sink>(&mut self, sink: &mut W) -> Result<(), WriteFault>
        ensures empty { self.new ≡ [] }
        ensures writes { WritesAll (W.seen sink.old) (W.seen sink.new) result self.old }
    {
        let answer = write_all_of(sink, &self.bytes[..self.filled]);
        self.filled = 0;
        answer
    }

    /// Adds a text to the waiting bytes.
    ///
    /// It writes the waiting bytes first if `text` does not fit, and `text` directly if it is
    /// longer than a chunk.
    pub(crate) fn put<W: Sink>(&mut self, sink: &mut W, text: &[u8]) -> Result<(), WriteFault>
        ensures { Puts (W.seen sink.old) (W.seen sink.new) self.old self.new text.now result }
    {
        if text.len() <= self.room() {
            self.append(text);
            return Ok(());
        }
        match self.flush(sink) {
            Ok(()) => {}
            Err(fault) => return Err(fault),
        }
        if text.len() <= CHUNK {
            self.append(text);
            return Ok(());
        }
        write_all_of(sink, text)
    }
}
