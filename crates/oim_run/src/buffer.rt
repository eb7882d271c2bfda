//! A buffer before a writer. Contracts see all that was written into it, and what of that the
//! writer took.
//!
//! Not proved, only tested: that a failed flush is noticed. The contract of `Write::flush` is the
//! same whether it fails or not, and `finish` promises of `true` only that the writer took all
//! bytes.

ghost use Rattle.std.specs.Prelude.{◌≡◌, ◌≤◌, ◌+◌, ◌-◌, ◌<◌, ℕ, List, [], ◌++◌, drop, take, length, true, vec_len, vec_capacity};
ghost use Rattle.std.specs.Io.{WritesAtMost};
ghost use Rattle.std.specs.Io.KnownBytes.{Appends, Keeps, WriteAppends};
ghost use Rattle.oim_run.specs.state.Buffers.{told_behind};
ghost use Rattle.oim_json.specs.declared.mark.Mark.TheVariants.{Fine};

use ghost_value::GhostValue;
use oim_json::{Mark, Sink};
use std::io;
use std::io::{ErrorKind, Write};

/// Gathers bytes before they go to a writer. As a sink it holds the writer's bytes and the waiting
/// ones.
pub(crate) struct Buffer<W> {
    /// The writer.
    writer: W,
    /// The bytes that wait for the writer.
    waiting: Vec<u8>,
    /// Whether a write failed.
    mark: Mark,
    /// The writer before the first write, only for contracts.
    first: GhostValue<W>,
}

/// Removes the first `count` bytes.
fn remove_front(bytes: &mut Vec<u8>, count: usize)
    requires { count ≤ vec_len bytes.old }
    ensures items { bytes.new.items ≡ drop count bytes.old.items }
    ensures len { vec_len bytes.new ≡ vec_len bytes.old - count }
    ensures capacity { vec_capacity bytes.new ≡ vec_capacity bytes.old }
{
    let len = bytes.len();
    bytes.as_mut_slice().copy_within(count..len, 0);
    bytes.truncate(len - count);
}

/// Writes some of the bytes. If a signal interrupts a write before any byte is written, it tries
/// again.
fn write_through_signals<W: Write>(writer: &mut W, bytes: &[u8]) -> io::Result<usize>
    ensures bound { WritesAtMost result bytes.now }
    ensures bytes { WriteAppends (W.contents writer.old) (W.contents writer.new) result bytes.now }
{
    for _ in 0..u64::MAX {
        match writer.write(bytes) {
            Ok(count) => return Ok(count),
            Err(error) => {
                if error.kind() != ErrorKind::Interrupted {
                    return Err(error);
                }
            }
        }
    }
    Err(io::Error::from(ErrorKind::Interrupted))
}

impl<W: Write> Buffer<W> {
    /// Returns an empty buffer before this writer.
    pub(crate) fn new(writer: W, waiting: Vec<u8>) -> Buffer<W>
        requires { waiting.items ≡ [] }
        ensures told { (⟦<Buffer<W> as Sink>⟧.seen result).told ≡ told_behind (W.contents writer) (W.contents writer) [] }
        ensures fine { (⟦<Buffer<W> as Sink>⟧.seen result).mark ≡ Fine }
    {
        let first = GhostValue::seen(&writer);
        Buffer {
            writer,
            waiting,
            mark: Mark::Fine,
            first,
        }
    }

    /// Writes the waiting bytes, and returns whether all were written. The others still wait.
    fn empty(&mut self) -> bool
        ensures told { Keeps (⟦<Buffer<W> as Sink>⟧.seen self.old).told (⟦<Buffer<W> as Sink>⟧.seen self.new).told }
        ensures empty { result ≡ true → self.new.waiting.items ≡ [] }
        ensures mark { self.new.mark ≡ self.old.mark }
    {
        while !self.waiting.is_empty() {
            match write_through_signals(&mut self.writer, self.waiting.as_slice()) {
                Ok(0) | Err(_) => return false,
                Ok(count) => remove_front(&mut self.waiting, count),
            }
        }
        true
    }

    /// Appends all of these bytes to the waiting ones, or none if memory runs out.
    fn put(&mut self, bytes: &[u8]) -> io::Result<usize>
        ensures bound { WritesAtMost result bytes.now }
        ensures bytes { WriteAppends (⟦<Buffer<W> as Sink>⟧.seen self.old).told (⟦<Buffer<W> as Sink>⟧.seen self.new).told result bytes.now }
        ensures mark { self.new.mark ≡ self.old.mark }
    {
        match self.waiting.extend_from_slice(bytes) {
            Ok(()) => Ok(bytes.len()),
            Err(_) => Err(io::Error::from(ErrorKind::OutOfMemory)),
        }
    }

    /// Takes some of the bytes. If they fit, they wait. Otherwise they go to the writer, after the
    /// waiting bytes.
    fn take_some(&mut self, bytes: &[u8]) -> io::Result<usize>
        ensures bound { WritesAtMost result bytes.now }
        ensures bytes { WriteAppends (⟦<Buffer<W> as Sink>⟧.seen self.old).told (⟦<Buffer<W> as Sink>⟧.seen self.new).told result bytes.now }
        ensures mark { self.new.mark ≡ self.old.mark }
    {
        if bytes.len() < self.waiting.capacity() - self.waiting.len() {
            return self.put(bytes);
        }
        if !self.empty() {
            return Err(io::Error::from(ErrorKind::WriteZero));
        }
        if bytes.len() < self.waiting.capacity() {
            return self.put(bytes);
        }
        write_through_signals(&mut self.writer, bytes)
    }

    /// Writes the waiting bytes and flushes the writer. Returns the writer, and whether both
    /// succeeded.
    pub(crate) fn finish(self) -> (W, bool)
        ensures all { result.1 ≡ true → Keeps (⟦<Buffer<W> as Sink>⟧.seen self).told (told_behind (W.contents self.first.value) (W.contents result.0) []) }
        ensures some { (rest : List ℕ) × Keeps (⟦<Buffer<W> as Sink>⟧.seen self).told (told_behind (W.contents self.first.value) (W.contents result.0) rest) }
    {
        let mut buffer = self;
        let is_written = buffer.empty();
        let Buffer {
            mut writer,
            waiting: _,
            mark: _,
            first: _,
        } = buffer;
        let is_flushed = is_written && writer.flush().is_ok();
        (writer, is_flushed)
    }
}

impl<W: Write> Sink for Buffer<W> {
    ghost use Rattle.oim_json.specs.Sinks.{sink_at};

    ghost seen = { λ s. sink_at s.mark (told_behind (W.contents s.first.value) (W.contents s.writer) s.waiting.items) };

    fn write_some(&mut self, bytes: &[u8]) -> io::Result<usize> {
        let answer = self.take_some(bytes);
        match &answer {
            Ok(0) => self.mark = Mark::Zero,
            Ok(_) => {}
            Err(_) => self.mark = Mark::Failed,
        }
        answer
    }
}
