//! A reader that gives few bytes at a time if the table's facts can be long.

ghost use Rattle.std.specs.Prelude.{◌≡◌, ◌≤◌, ◌<◌};

use std::io::{self, Read};

/// A reader that gives at most as many bytes at a time as a piece of its table has, and at least
/// one if it has one. `TablePieces` makes it of the table's reader.
#[derive(Drop)]
pub struct SmallReads<R: Read + Drop> {
    reader: R,
    most: usize,
}

impl<R: Read + Drop> SmallReads<R> {
    /// Reads at most `most` bytes at a time, or one if that is 0.
    pub(crate) fn new(reader: R, most: usize) -> SmallReads<R>
        ensures { result.reader ≡ reader }
    {
        SmallReads { reader, most }
    }
}

/// Returns how many bytes to read into a buffer of `room` bytes: at least one if there is room.
fn read_size(room: usize, most: usize) -> usize
    ensures within { result ≤ room }
    ensures some { 0 < room → 0 < result }
{
    room.min(most.max(1))
}

impl<R: Read + Drop> Read for SmallReads<R> {
    ghost use Rattle.std.specs.Prelude.{◌≡◌};
    ghost use Rattle.std.specs.Io.{ReadsAtMost};
    ghost use Rattle.std.specs.Io.KnownBytes.{ReadConsumes};

    ghost remaining = { λ s. R.remaining s.reader };

    fn read(&mut self, buf: &mut [u8]) -> io::Result<usize>
        ensures bound { ReadsAtMost result buf.new }
        ensures bytes { ReadConsumes (R.remaining self.old.reader) (R.remaining self.new.reader) result buf.new }
    {
        let size = read_size(buf.len(), self.most);
        self.reader.read(&mut buf[..size])
    }
}
