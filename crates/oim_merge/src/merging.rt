//! Merging the rings.
//!
//! Not proved, only tested: that `merge` asks the sink for nothing more after a failed write.

ghost use Rattle.std.specs.Prelude.{◌≡◌, ◌≤◌, ◌<◌, ◌+◌, ◌++◌, [], length, vec_len, vec_capacity};
ghost use Rattle.oim_merge.specs.Histories.{refusals};
ghost use Rattle.oim_merge.specs.Merging.{IsFresh, EndEach, Merges, rings_of, taken_of};
ghost use Rattle.oim_merge.specs.Writers.{given};
ghost use Rattle.oim_ring.specs.Items.{EndsOnce};

use crate::progress::MergeEnd;
use crate::writer::DocumentWriter;
use oim_json::{Layout, Sink};
use oim_ring::{Drain, Item};
use oim_rows::TableFault;
use std::sync::Wait;

/// Writes the document that begins with `head` and has the facts of all drains, in order, in the
/// given layout (xBRL-JSON 1.0). It takes each drain to its ending and no further. After a refusal
/// or a failed write it only empties the drains. It waits for items, and allocates only what the
/// sink allocates.
///
/// Nothing may have been taken from any drain before. `faults` must be empty and have room for one
/// fault for each drain. At the end it holds the fault of each refused drain, in their order.
///
/// Returns `Complete` if every drain ended closed: the document is whole. Returns `Refused` if a
/// drain ended refused: the facts before the first such ending are written, without a tail. Returns
/// `Write` if a write failed (`Failed`) or took nothing (`Zero`): a prefix of the document is
/// written.
pub fn merge<R: Wait, W: Sink>(
    rt: &R,
    drains: &mut [Drain],
    head: &[u8],
    faults: &mut Vec<TableFault>,
    layout: Layout,
    sink: &mut W,
) -> MergeEnd
    requires fresh { IsFresh drains.old }
    requires empty { faults.old.items ≡ [] }
    requires room { length drains.old ≤ vec_capacity faults.old }
    ensures rings { rings_of drains.new ≡ rings_of drains.old }
    ensures ended { EndEach (taken_of drains.new) }
    ensures merged { Merges layout (W.seen sink.old) (W.seen sink.new) head.now (taken_of drains.new) faults.new.items result }
{
    let mut writer = DocumentWriter::begin(layout, head, sink);
    for drain in drains.iter_mut() {
        take_all(rt, drain, &mut writer, faults, sink);
    }
    writer.finish(sink)
}

/// Takes a drain to its ending, and gives its items to the writer.
fn take_all<R: Wait, W: Sink>(
    rt: &R,
    drain: &mut Drain,
    writer: &mut DocumentWriter,
    faults: &mut Vec<TableFault>,
    sink: &mut W,
)
    requires fresh { drain.old.taken ≡ [] }
    requires room { vec_len faults.old < vec_capacity faults.old }
    requires sink { writer.old.sink ≡ W.seen sink.old }
    ensures ring { drain.new.ring ≡ drain.old.ring }
    ensures ended { EndsOnce drain.new.taken }
    ensures given { writer.new ≡ given writer.old drain.new.taken (W.seen sink.new) }
    ensures faults { faults.new.items ≡ faults.old.items ++ refusals drain.new.taken }
    ensures count { vec_len faults.new ≤ vec_len faults.old + 1 }
    ensures room { vec_capacity faults.new ≡ vec_capacity faults.old }
{
    for _ in rt.forever() {
        match drain.take() {
            None => drain.wait(rt),
            Some(Item::Block(block)) => {
                writer.put(&block, sink);
                drain.give_back(rt, block);
            }
            Some(Item::Ending(ending)) => {
                writer.end_table(ending, faults);
                return;
            }
        }
    }
    unreachable!()
}
