//! Reading into a vector that may be longer than its data.

ghost use Rattle.std.specs.Prelude.{◌≡◌, ◌≤◌, ◌+◌, ◌<◌, IfOk, OnOk, length, take};
ghost use Rattle.std.specs.Io.KnownBytes.{IsAtEnd};
ghost use Rattle.oim_records.specs.state.PieceTaking.{IsReadBehind};

use std::alloc::AllocError;
use std::io;
use std::io::Read;

/// Makes `bytes` at least `filled + more` long and keeps its first `filled` bytes.
pub(crate) fn make_room(bytes: &mut Vec<u8>, filled: usize, more: usize) -> Result<(), AllocError>
    requires { filled ≤ length bytes.old.items }
    ensures stays { take filled bytes.new.items ≡ take filled bytes.old.items }
    ensures within { filled ≤ length bytes.new.items }
    ensures ready { OnOk result (filled + more ≤ length bytes.new.items) }
{
    let free = bytes.len() - filled;
    if more <= free {
        return Ok(());
    }
    bytes.reserve(more - free)?;
    bytes.resize(filled + more, 0)
}

/// Reads up to `most` bytes into `bytes` from index `from` on, and leaves the bytes before it
/// unchanged.
fn read_part<R: Read>(
    reader: &mut R,
    bytes: &mut [u8],
    from: usize,
    most: usize,
) -> io::Result<usize>
    requires room { from + most ≤ length bytes.old }
    requires some { 0 < most }
    ensures within { IfOk result (λ size. size ≤ most) }
    ensures before { take from bytes.new ≡ take from bytes.old }
    ensures read { IsReadBehind (R.remaining reader.old) (R.remaining reader.new) from bytes.old bytes.new result }
    ensures end { IfOk result (λ size. size ≡ 0 → IsAtEnd (R.remaining reader.new)) }
{
    reader.read(&mut bytes[from..from + most])
}

/// Reads up to `most` bytes into a vector from index `from` on, as `read_part` does.
pub(crate) fn read_to<R: Read>(
    reader: &mut R,
    bytes: &mut Vec<u8>,
    from: usize,
    most: usize,
) -> io::Result<usize>
    requires room { from + most ≤ length bytes.old.items }
    requires some { 0 < most }
    ensures within { IfOk result (λ size. size ≤ most) }
    ensures before { take from bytes.new.items ≡ take from bytes.old.items }
    ensures length { length bytes.new.items ≡ length bytes.old.items }
    ensures read { IsReadBehind (R.remaining reader.old) (R.remaining reader.new) from bytes.old.items bytes.new.items result }
    ensures end { IfOk result (λ size. size ≡ 0 → IsAtEnd (R.remaining reader.new)) }
{
    read_part(reader, bytes, from, most)
}

/// Copies `bytes` over the first bytes of `room`.
fn put_front(room: &mut [u8], bytes: &[u8])
    requires { length bytes.now ≤ length room.old }
    ensures { take (length bytes.now) room.new ≡ bytes.now }
{
    room[..bytes.len()].copy_from_slice(bytes);
}

/// Copies `bytes` to the start of `room`, a spare vector, and returns it with their count.
pub(crate) fn moved_front(room: Vec<u8>, bytes: &[u8]) -> Result<(Vec<u8>, usize), AllocError>
    ensures front { IfOk result (λ moved. take moved.1 moved.0.items ≡ bytes.now) }
    ensures within { IfOk result (λ moved. moved.1 ≤ length moved.0.items) }
{
    let mut room = room;
    let size = bytes.len();
    make_room(&mut room, 0, size)?;
    put_front(&mut room, bytes);
    Ok((room, size))
}
