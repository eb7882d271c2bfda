//! Decoding a table into its ring on one thread, a few facts at a time.

ghost use Rattle.std.specs.Prelude.{◌≡◌, []};
ghost use Rattle.oim_convert.specs.Histories.{IsGiven, facts_in};
ghost use Rattle.oim_convert.specs.state.Reading.{IsReading};
ghost use Rattle.oim_convert.specs.state.TableFiles.{IsSentOfFile, IsTableFile};
ghost use Rattle.oim_rows.specs.Streams.{Stream};

use crate::sending::put_waiting;
use crate::table_file::TableFile;
use oim_decode::TableBlocks;
use oim_json::Spare;
use oim_pieces::AtWork;
use oim_ring::{Ending, Feed};
use std::alloc::Global;
use std::io::Read;
use std::sync::Wait;

/// Sends the facts of a table's file, and returns the table's ending. It keeps a block of facts
/// and the current row, however long the row's facts are.
pub(crate) fn send_alone<R: Read + Drop, T: Wait>(
    rt: &T,
    alloc: Global,
    file: TableFile<'_, R>,
    at_work: &AtWork,
    feed: &mut Feed,
) -> Ending
    requires file { IsTableFile file }
    requires fresh { feed.old.sent ≡ [] }
    ensures ring { feed.new.ring ≡ feed.old.ring }
    ensures given { IsSentOfFile R.remaining file.entry (facts_in feed.new.sent) result }
{
    let TableFile {
        report,
        table,
        reader,
        limits,
    } = file;
    match TableBlocks::open(alloc, report, table, reader, limits) {
        Ok(mut blocks) => send_blocks(rt, alloc, &mut blocks, at_work, feed),
        Err(fault) => Ending::Refused(fault),
    }
}

/// Sends the blocks that are left, after the facts that were sent, and returns the table's ending.
pub(crate) fn send_blocks<R: Read + Drop, T: Wait>(
    rt: &T,
    alloc: Global,
    blocks: &mut TableBlocks<'_, R>,
    at_work: &AtWork,
    feed: &mut Feed,
) -> Ending
    ensures ring { feed.new.ring ≡ feed.old.ring }
    ensures given { (whole : Stream) → IsReading blocks.old.table whole (facts_in feed.old.sent) blocks.old.pending blocks.old.left
        → IsGiven blocks.old.table whole (facts_in feed.new.sent) result }
{
    for _ in rt.forever() {
        match blocks.next_block(spare_of(rt, alloc, feed)) {
            Ok(Some(block)) => put_waiting(rt, at_work, feed, block),
            Ok(None) => return Ending::Closed,
            Err(fault) => return Ending::Refused(fault),
        }
    }
    unreachable!()
}

/// Returns the memory of a written block, or an empty one if none came back.
fn spare_of<T: Wait>(rt: &T, alloc: Global, feed: &Feed) -> Spare {
    match feed.kept_spare(rt) {
        Some(spare) => spare,
        None => Spare::new(alloc),
    }
}
