//! Sinks that take bytes.
//!
//! Not proved, only tested: that a `Marked` calls its writer once and returns the writer's result.

ghost use Rattle.std.specs.Prelude.{◌≡◌, ◌<◌, length};
ghost use Rattle.oim_json.specs.declared.mark.Mark.TheVariants.{Fine};
ghost use Rattle.oim_json.specs.Sinks.{SinkView, WritesAll, WritesSome, sink_at};

use crate::mark::{Mark, WriteFault};
use std::io;
use std::io::Write;

/// A destination for bytes that remembers whether a write failed.
pub trait Sink {
    /// The mark that its last write left, and the bytes that it holds, if its contract gives them.
    ghost seen: { Self → SinkView };

    /// Writes some of the bytes, at least one of which must exist, and returns how many it took.
    ///
    /// It returns 0 if it took none, and took none if it returns an error. The mark is then Zero or
    /// Failed, and otherwise unchanged.
    fn write_some(&mut self, bytes: &[u8]) -> io::Result<usize>
        requires { 0 < length bytes.now }
        ensures { WritesSome (seen self.old) (seen self.new) result bytes.now };
}

/// A sink over a writer.
#[derive(Drop)]
pub struct Marked<W> {
    writer: W,
    mark: Mark,
}

impl<W: Write> Marked<W> {
    /// Makes a sink that holds what the writer holds, with the mark Fine.
    pub fn new(writer: W) -> Marked<W>
        ensures told { (⟦<Marked<W> as Sink>⟧.seen result).told ≡ W.contents writer }
        ensures fine { (⟦<Marked<W> as Sink>⟧.seen result).mark ≡ Fine }
    {
        Marked {
            writer,
            mark: Mark::Fine,
        }
    }

    /// Returns the writer, which holds what the sink holds. It writes and flushes nothing.
    pub fn into_writer(self) -> W
        ensures { W.contents result ≡ (⟦<Marked<W> as Sink>⟧.seen self).told }
    {
        self.writer
    }
}

impl<W: Write> Sink for Marked<W> {
    ghost seen = { λ s. sink_at s.mark (W.contents s.writer) };

    /// Calls the writer once with all the bytes, and returns its result, even if a write has failed
    /// before.
    fn write_some(&mut self, bytes: &[u8]) -> io::Result<usize> {
        let answer = self.writer.write(bytes);
        match &answer {
            Ok(0) => self.mark = Mark::Zero,
            Ok(_) => {}
            Err(_) => self.mark = Mark::Failed,
        }
        answer
    }
}

/// Writes all the bytes. Without bytes it returns Ok and writes nothing, even if a write has failed
/// before.
///
/// If a write returns an error (`Failed`) or takes nothing (`Zero`), a prefix of the bytes is
/// written, not all, and the mark is that fault.
pub fn write_all_of<W: Sink>(sink: &mut W, bytes: &[u8]) -> Result<(), WriteFault>
    ensures { WritesAll (W.seen sink.old) (W.seen sink.new) result bytes.now }
{
    let mut at = 0;
    while at < bytes.len() {
        match sink.write_some(&bytes[at..]) {
            Ok(0) => return Err(WriteFault::Zero),
            Ok(n) => at += n,
            Err(_) => return Err(WriteFault::Failed),
        }
    }
    Ok(())
}
