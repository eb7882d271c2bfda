//! The members of a block's facts, written in a layout.
//!
//! Not proved, only tested: how many writes are made. A compact block is one text. In lines, up to
//! 8,192 bytes are collected for each write.

ghost use Rattle.std.specs.Prelude.{◌≡◌, ◌++◌};
ghost use Rattle.oim_json.specs.state.Chunks.{Puts};
ghost use Rattle.oim_json.specs.Document.{line_start, more_members, piece};
ghost use Rattle.oim_json.specs.Sinks.{WritesAll};
ghost use Rattle.oim_json.specs.declared.layout.Layout.TheVariants.{Lines};

use crate::block::Block;
use crate::chunk::Chunk;
use crate::layout::Layout;
use crate::mark::WriteFault;
use crate::sink::{Sink, write_all_of};

/// Writes the members of a block's facts, with a comma before the first if the document has `any`
/// members already.
///
/// If a write returns an error (`Failed`) or takes nothing (`Zero`), a prefix of these members is
/// written, not all, and the mark is that fault. Only the sink may take memory.
pub fn write_members<W: Sink>(
    sink: &mut W,
    layout: Layout,
    any: bool,
    block: &Block,
) -> Result<(), WriteFault>
    ensures { WritesAll (W.seen sink.old) (W.seen sink.new) result (more_members layout any block.now) }
{
    match layout {
        Layout::Compact => write_all_of(sink, block.bytes_behind(any)),
        Layout::Lines => write_lines(sink, any, block),
    }
}

// Writes each member on a line of its own.
fn write_lines<W: Sink>(sink: &mut W, any: bool, block: &Block) -> Result<(), WriteFault>
    ensures { WritesAll (W.seen sink.old) (W.seen sink.new) result (more_members Lines any block.now) }
{
    let mut chunk = Chunk::new();
    let mut has_any = any;
    for i in 0..block.count() {
        match put_line(&mut chunk, sink, has_any, block.text(i)) {
            Ok(()) => has_any = true,
            Err(fault) => return Err(fault),
        }
    }
    chunk.flush(sink)
}

// Writes the text of a fact on a line of its own, with a comma before it if a member precedes it.
fn put_line<W: Sink>(
    chunk: &mut Chunk,
    sink: &mut W,
    any: bool,
    text: &[u8],
) -> Result<(), WriteFault>
    ensures { Puts (W.seen sink.old) (W.seen sink.new) chunk.old chunk.new (piece any (line_start Lines ++ text.now)) result }
{
    match chunk.put(sink, line_break(any)) {
        Ok(()) => chunk.put(sink, text),
        Err(fault) => Err(fault),
    }
}

// Returns the text that ends a line.
fn line_break(any: bool) -> &'static [u8]
    ensures { result.now ≡ piece any (line_start Lines) }
{
    if any { b",\n" } else { b"\n" }
}
