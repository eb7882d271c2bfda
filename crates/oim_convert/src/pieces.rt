//! Decoding the pieces of a table into its ring, on more than one thread.

ghost use Rattle.std.specs.Prelude.{◌≡◌, ◌++◌, [], IfErr, IfOk, IfSome};
ghost use Rattle.oim_convert.specs.Histories.{IsGiven, facts_in};
ghost use Rattle.oim_convert.specs.state.TableFiles.{IsSentOfFile, IsTableFile};
ghost use Rattle.oim_pieces.specs.PiecesLeft.{KeepsStream};
ghost use Rattle.oim_rows.specs.Streams.{facts_of_rows};

use crate::alone::{send_alone, send_blocks};
use crate::leave::Leave;
use crate::lent::take_back;
use crate::sending::put_waiting;
use crate::table_file::TableFile;
use oim_decode::TableBlocks;
use oim_json::Block;
use oim_pieces::{AtWork, SmallReads, TablePieces, TextGrowth};
use oim_ring::{Ending, Feed};
use std::alloc::Global;
use std::io::Read;
use std::sync::Wait;
use std::thread::{self, Scope, Threads};

/// Sends the facts of a table's file, and returns the table's ending. If there are other workers,
/// helper threads decode pieces of the file while those workers rest, unless the facts can be far
/// longer than the rows.
pub(crate) fn send_table<R: Read + Drop, T: Threads + Wait>(
    rt: &T,
    alloc: Global,
    file: TableFile<'_, R>,
    at_work: &AtWork,
    feed: &mut Feed,
) -> Ending
    requires file { IsTableFile file }
    requires fresh { feed.old.sent ≡ [] }
    ensures ring { feed.new.ring ≡ feed.old.ring }
    ensures given { IsSentOfFile R.remaining file.entry (facts_in feed.new.sent) result }
{
    match at_work.growth_of(alloc, file.report, file.table) {
        Some(growth) => send_in_scope(&Leave::of(rt), alloc, file, growth, at_work, feed),
        None => send_alone(rt, alloc, file, at_work, feed),
    }
}

/// The ending of a table, and its feed.
struct Sent<'a> {
    ending: Ending,
    feed: &'a mut Feed,
}

/// Sends the facts of a table's file, with a scope for its helper threads.
fn send_in_scope<R: Read + Drop, T: Threads + Wait + Sync>(
    rt: &T,
    alloc: Global,
    file: TableFile<'_, R>,
    growth: TextGrowth,
    at_work: &AtWork,
    feed: &mut Feed,
) -> Ending
    requires file { IsTableFile file }
    requires fresh { feed.old.sent ≡ [] }
    ensures ring { feed.new.ring ≡ feed.old.ring }
    ensures given { IsSentOfFile R.remaining file.entry (facts_in feed.new.sent) result }
{
    let lent = &mut *feed;
    let sent = thread::scope(
        thread::scope_env(),
        rt,
        move |scope| -> Sent<'_>
            requires file { IsTableFile file }
            requires fresh { lent.now.sent ≡ [] }
            ensures same_feed { result.feed.ghost_name ≡ lent.entry.ghost_name }
            ensures ring { result.feed.now.ring ≡ lent.entry.now.ring }
            ensures given { IsSentOfFile R.remaining file.entry (facts_in result.feed.now.sent) result.ending }
        {
            let ending = send_pieces(scope, rt, alloc, file, growth, at_work, lent);
            Sent { ending, feed: lent }
        },
    );
    let Sent { ending, feed } = sent;
    take_back(feed);
    ending
}

/// Sends the facts of a table's file, piece by piece, in this scope.
fn send_pieces<'s, E, R: Read + Drop, T: Threads + Wait + Sync + 's>(
    scope: &Scope<'s, E>,
    rt: &'s T,
    alloc: Global,
    file: TableFile<'s, R>,
    growth: TextGrowth,
    at_work: &'s AtWork,
    feed: &mut Feed,
) -> Ending
    requires file { IsTableFile file }
    requires fresh { feed.old.sent ≡ [] }
    ensures ring { feed.new.ring ≡ feed.old.ring }
    ensures given { IsSentOfFile R.remaining file.entry (facts_in feed.new.sent) result }
{
    let TableFile {
        report,
        table,
        reader,
        limits,
    } = file;
    match TablePieces::open(alloc, at_work, growth, report, table, reader, limits) {
        Ok(pieces) => send_opened(scope, rt, alloc, pieces, at_work, feed),
        Err(fault) => Ending::Refused(fault),
    }
}

/// Sends the pieces of an opened table with spares, and returns its ending. If the facts of a piece
/// are far longer than its rows, no other thread helps with the rest of the table.
fn send_opened<'s, E, R: Read + Drop, T: Threads + Wait + Sync + 's>(
    scope: &Scope<'s, E>,
    rt: &'s T,
    alloc: Global,
    pieces: TablePieces<'s, R>,
    at_work: &AtWork,
    feed: &mut Feed,
) -> Ending
    requires fresh { feed.old.sent ≡ [] }
    ensures ring { feed.new.ring ≡ feed.old.ring }
    ensures given { IfSome pieces.entry.left (λ s. IsGiven pieces.entry.table s (facts_in feed.new.sent) result) }
{
    let mut pieces = pieces;
    for _ in rt.forever() {
        match rest_of(scope, rt, pieces, feed) {
            Ok(mut rest) => return send_blocks(rt, alloc, &mut rest, at_work, feed),
            Err(back) => pieces = back,
        }
        match pieces.next_blocks(scope, rt) {
            Ok(Some(blocks)) => {
                put_all(rt, at_work, feed, blocks);
                make_ready(rt, &mut pieces, feed);
            }
            Ok(None) => return leave(rt, pieces, feed, Ending::Closed),
            Err(fault) => return leave(rt, pieces, feed, Ending::Refused(fault)),
        }
    }
    unreachable!()
}

/// Cuts ahead. If the next piece is then one whose facts are far longer than its rows, gives the
/// table's spares back and returns the rest of the table, else the pieces.
fn rest_of<'s, E, R: Read + Drop, T: Threads + Wait + Sync + 's>(
    scope: &Scope<'s, E>,
    rt: &'s T,
    pieces: TablePieces<'s, R>,
    feed: &Feed,
) -> Result<TableBlocks<'s, SmallReads<R>>, TablePieces<'s, R>>
    ensures rest { IfOk result (λ rest. (rest.table ≡ pieces.entry.table) × (rest.pending ≡ []) × KeepsStream pieces.entry.left rest.left) }
    ensures pieces { IfErr result (λ back. (back.table ≡ pieces.entry.table) × KeepsStream pieces.entry.left back.left) }
{
    let mut pieces = pieces;
    pieces.cut_ahead(scope, rt);
    if !pieces.is_long() {
        return Err(pieces);
    }
    give_back_spares(rt, &mut pieces, feed);
    pieces.into_rest()
}

/// Gives back the spares of a table, leaves its memory to others, and returns its ending.
fn leave<R: Read + Drop, T: Wait>(
    rt: &T,
    pieces: TablePieces<'_, R>,
    feed: &Feed,
    ending: Ending,
) -> Ending
    ensures { result ≡ ending }
{
    let mut pieces = pieces;
    give_back_spares(rt, &mut pieces, feed);
    pieces.leave();
    ending
}

/// Passes to the pieces whether the writer has reached the table, and spares for the texts of the
/// next ones, if written blocks gave some back.
fn make_ready<R: Read + Drop, T: Wait>(rt: &T, pieces: &mut TablePieces<'_, R>, feed: &mut Feed)
    ensures pieces { pieces.new ≡ pieces.old }
    ensures feed { feed.new ≡ feed.old }
{
    pieces.want(feed.is_reached());
    for _ in 0..pieces.wanted_spares() {
        match feed.kept_spare(rt) {
            Some(spare) => pieces.keep_spare(rt, spare),
            None => {
                pieces.note_left(feed.waiting_blocks());
                return;
            }
        }
    }
}

/// Gives back the spares that a table kept for texts, if the rings keep them for others.
fn give_back_spares<R: Read + Drop, T: Wait>(rt: &T, pieces: &mut TablePieces<'_, R>, feed: &Feed)
    ensures { pieces.new ≡ pieces.old }
{
    for spare in pieces.free_spares(rt) {
        feed.give_back(rt, spare);
    }
}

/// Sends blocks, one after another.
#[tactic(auto, using(crate::proofs::PutBlocks::all_put))]
fn put_all<T: Wait>(rt: &T, at_work: &AtWork, feed: &mut Feed, blocks: Vec<Block>)
    ensures ring { feed.new.ring ≡ feed.old.ring }
    ensures sent { facts_in feed.new.sent ≡ facts_in feed.old.sent ++ facts_of_rows blocks.items }
{
    for block in blocks {
        put_waiting(rt, at_work, feed, block);
    }
}
