//! The facts of a table, piece by piece.

ghost use Rattle.std.specs.Prelude.{◌≡◌, ◌⊎◌, ◌+◌, ◌≤◌, ◌<◌, [], IfErr, IfNone, IfOk, IfSome, IsSome, None, OnSome, Ok, Err, Some, length};
ghost use Rattle.oim_decode.specs.Blocks.{GivesBlock, KeepsAnswer};
ghost use Rattle.oim_records.specs.Grids.{grid};
ghost use Rattle.oim_rows.specs.Header.{file_fault, file_header_fault};
ghost use Rattle.oim_rows.specs.Streams.{IsOutside, answer_of as answer_at_end, ending, stream_of};
ghost use Rattle.oim_rows.specs.declared.fault.TableKind.TheVariants as kind;
ghost use Rattle.oim_pieces.specs.PiecesLeft.{FewerSteps, GivesBlocks, KeepsStream, NoMoreSteps, steps_left};
ghost use Rattle.oim_pieces.specs.state.PiecesUnderWay.{GivesJoined};

use crate::at_work::AtWork;
use crate::pieces_under_way::PiecesUnderWay;
use crate::small_reads::SmallReads;
use crate::text_growth::TextGrowth;
use oim_decode::{JoinedPiece, TableBlocks, open_pieces};
use oim_json::{Block, Spare};
use oim_report::{Limits, Report};
use oim_rows::{TableFault, TableKind, fault_of_read, whole_fault};
use std::alloc::Global;
use std::io::Read;
use std::marker::Model;
use std::sync::Wait;
use std::thread::{Scope, Threads};

/// About how many bytes a piece has in a conversion. Decoding that many takes far longer than
/// handing them to a thread.
pub const PIECE_SIZE: usize = 32_768;

/// The remaining facts of one table, piece by piece, as blocks of text.
///
/// Contracts see the table's place and limit, the number of the next row, the stream that is left,
/// the answer of a settled table, the count of pieces under way, and the bytes that are not cut
/// yet. The stream and the bytes are known only for a reader whose bytes are known.
#[derive(Drop)]
pub struct TablePieces<'a, R: Read + Drop> {
    alloc: Global,
    pieces_under_way: PiecesUnderWay<'a, SmallReads<R>>,
    // The end or the fault of the table, once it was found.
    settled: Option<Option<TableFault>>,
}

impl<'a, R: Read + Drop> Model for TablePieces<'a, R> {
    ghost use Rattle.std.specs.Prelude.{length};
    ghost use Rattle.oim_decode.specs.state.Blocks.{end_or_left};
    ghost use Rattle.oim_pieces.specs.PiecesLeft.{PiecesLeft};
    ghost use Rattle.oim_pieces.specs.state.PiecesUnderWay.{next_row, stream_in};

    ghost Value = { PiecesLeft };

    ghost view = { λ a. record {
      table = a.pieces_under_way.cutter.table;
      limit = a.pieces_under_way.cutter.limit;
      next = next_row a.pieces_under_way;
      left = end_or_left a.settled (stream_in a.pieces_under_way);
      answered = a.settled;
      under_way = length a.pieces_under_way.pieces;
      unread = a.pieces_under_way.cutter.unread;
    } };
}

impl<'a, R: Read + Drop> TablePieces<'a, R> {
    /// Opens the table at place `table` of the report: reads its header, after an optional
    /// byte-order mark.
    ///
    /// The table may have at most `limits.rows` rows. A piece has about as many bytes as `at_work`
    /// sets, and fewer if the reader gives fewer at a time or the table's facts can be longer than
    /// its rows, as `growth` says. The facts are the same for each size.
    ///
    /// Fails with the header's first fault, in this order: NoHeader, UnknownHeader, RepeatedHeader,
    /// NoRowIdColumn. Fails with Read if the reader failed, and with Memory if memory runs out.
    #[tactic(auto, using(crate::proofs::Openings::file_fault, crate::proofs::Openings::file_stream, crate::proofs::Openings::file_unread))]
    pub fn open(
        alloc: Global,
        at_work: &'a AtWork,
        growth: TextGrowth,
        report: &'a Report,
        table: usize,
        reader: R,
        limits: Limits,
    ) -> Result<TablePieces<'a, R>, TableFault>
        requires place { table < length report.now.tables }
        requires rows { limits.rows ≤ 4294967294 }

        // The facts of the table, if its header has no fault.
        ensures start { IfOk result (λ pieces. (pieces.table ≡ table) × (pieces.answered ≡ None)) }
        ensures rows { IfOk result (λ pieces. (pieces.limit ≡ limits.rows) × (pieces.next ≡ 1)) }
        ensures unread { OnSome (R.remaining reader) (IfOk result (λ pieces. IsSome pieces.unread)) }
        ensures stream { IfSome (R.remaining reader) (λ bytes.
            IfOk result (λ pieces. pieces.left ≡ Some (stream_of report.now table limits.rows (grid bytes)))) }

        // Its fault, unless the reader failed or memory ran out.
        ensures fault { IfSome (R.remaining reader) (λ bytes.
            IfErr result (λ e. IsOutside table e ⊎ (file_header_fault report.now table (grid bytes) ≡ Some e))) }
    {
        let most = growth.piece_size(at_work.size());
        let (head, pieces) = match open_pieces(alloc, SmallReads::new(reader, most)) {
            Ok(Some(opened)) => opened,
            Ok(None) => return Err(whole_fault(table, TableKind::NoHeader)),
            Err(fault) => return Err(fault_of_read(table, fault)),
        };
        match PiecesUnderWay::after_head(alloc, at_work, report, table, limits.rows, head, pieces) {
            Ok(mut pieces_under_way) => {
                pieces_under_way.set_growth(growth);
                Ok(TablePieces {
                    alloc,
                    pieces_under_way,
                    settled: None,
                })
            }
            Err(fault) => Err(fault),
        }
    }

    /// Cuts pieces and starts their decoding, as the next call of `next_blocks` would.
    ///
    /// The caller must be counted as at work (`AtWork::start`). If the table is settled, nothing is
    /// cut.
    #[tactic(auto, using(crate::proofs::UnderWayLaws::stream_same, crate::proofs::StepLaws::steps_same))]
    pub fn cut_ahead<E, T: Threads + Wait + Sync + 'a>(&mut self, scope: &Scope<'a, E>, rt: &'a T)
        ensures left { KeepsStream self.old.left self.new.left }
        ensures settled { OnSome self.old.answered (self.new ≡ self.old) }
        ensures steps { NoMoreSteps (steps_left self.old) (steps_left self.new) }
        ensures same { (self.new.table ≡ self.old.table) × (self.new.limit ≡ self.old.limit) × (self.new.next ≡ self.old.next) × (self.new.answered ≡ self.old.answered) }
    {
        let settled = self.settled;
        match settled {
            Some(_) => return,
            None => {}
        }
        let pieces = &mut self.pieces_under_way;
        pieces.cut_ahead(scope, rt);
    }

    /// Returns whether the next piece was cut and not decoded, since its facts are far longer than
    /// its rows. Then `into_rest` gives the rest of the table.
    pub fn is_long(&self) -> bool {
        self.pieces_under_way.is_long()
    }

    /// Returns the rest of the table, to be decoded row by row, if the next piece was cut and not
    /// decoded. Its helper threads end. Else returns the pieces as they are.
    ///
    /// The rest has the stream and the number of the next row that the pieces have. It holds only a
    /// part of a row's facts at once, where `next_blocks` would hold all facts of the piece.
    pub fn into_rest(self) -> Result<TableBlocks<'a, SmallReads<R>>, TablePieces<'a, R>>
        ensures start { IfOk result (λ rest. (rest.table ≡ self.entry.table) × (rest.limit ≡ self.entry.limit)) }
        ensures begun { IfOk result (λ rest. (rest.given + 1 ≡ self.entry.next) × (rest.pending ≡ []) × (rest.answered ≡ None)) }
        ensures left { IfOk result (λ rest. (rest.left ≡ self.entry.left) × (self.entry.answered ≡ None)) }
        ensures same { IfErr result (λ pieces. pieces ≡ self.entry) }
    {
        let settled = self.settled;
        match settled {
            Some(_) => return Err(self),
            None => {}
        }
        let TablePieces {
            alloc,
            pieces_under_way,
            settled: _,
        } = self;
        match pieces_under_way.into_rest(alloc) {
            Ok(rest) => Ok(rest),
            Err(pieces_under_way) => Err(TablePieces {
                alloc,
                pieces_under_way,
                settled,
            }),
        }
    }

    /// Returns the facts of the next piece, or None at the end of the table.
    ///
    /// The facts are in header order, row by row, in blocks of 1 to 256 facts. Threads of the scope
    /// decode later pieces if they have places. The caller must be counted as at work
    /// (`AtWork::start`): it rests while it waits for an answer. After the end or a fault, each
    /// call answers the same and cuts nothing. Each call that gives blocks has read a row, and at
    /// most `limits.rows` rows are read, so even an endless file of rows ends. For a reader whose
    /// bytes are known, the calls that give blocks are at most one for each piece under way and
    /// each byte after them, and one more.
    ///
    /// After the facts of all earlier rows, fails with the first fault of the first bad row, in
    /// this order: Ragged, NotUtf8, TooManyRows, MissingRowId, BadRowId, RepeatedRowId, then the
    /// faults of its cells from left to right. Fails with Read if the reader failed, and with
    /// Memory if memory runs out.
    #[tactic(auto, using(crate::proofs::Gives::piece_given, crate::proofs::Gives::short_given, crate::proofs::Gives::end_given, crate::proofs::Gives::fault_given, crate::proofs::Gives::again_ended, crate::proofs::Gives::again_failed, crate::proofs::Gives::end_kept, crate::proofs::Gives::given_kept, crate::proofs::Gives::none_given, crate::proofs::Gives::moved, crate::proofs::Gives::counted, crate::proofs::StepLaws::steps_fewer))]
    pub fn next_blocks<E, T: Threads + Wait + Sync + 'a>(
        &mut self,
        scope: &Scope<'a, E>,
        rt: &'a T,
    ) -> Result<Option<Vec<Block>>, TableFault>
        ensures blocks { IfSome self.old.left (λ s. IfOk result (λ o. IfSome o (λ blocks. GivesBlocks self.old.table s blocks.items self.new.left))) }
        ensures end { IfSome self.old.left (λ s. IfOk result (λ o. IfNone o (GivesBlock self.old.table [] s (Ok None) [] self.new.left))) }
        ensures fault { IfSome self.old.left (λ s. IfErr result (λ e. GivesBlock self.old.table [] s (Err e) [] self.new.left)) }

        // What holds of any reader.
        ensures kept { KeepsAnswer result self.new.answered }
        ensures again { IfSome self.old.answered (λ end. (result ≡ answer_at_end end) × (self.new ≡ self.old)) }

        // The blocks are those of a piece, which has a row at least and none past the limit, or
        // they are the last.
        ensures counts { IfOk result (λ o. OnSome o (IsSome self.new.answered ⊎ ((self.old.next < self.new.next) × (self.new.next ≤ self.new.limit + 1)))) }
        ensures moves { IfOk result (λ o. OnSome o (IsSome self.new.answered ⊎ FewerSteps (steps_left self.old) (steps_left self.new))) }

        ensures same { (self.new.table ≡ self.old.table) × (self.new.limit ≡ self.old.limit) }
    {
        match self.settled {
            Some(end) => return answer_of(end),
            None => {}
        }
        self.pieces_under_way.cut_ahead(scope, rt);
        match self.pieces_under_way.join_front(rt) {
            Some(joined) => self.give(rt, joined),
            None => {
                let end = self.pieces_under_way.end();
                self.settled = Some(end);
                answer_of(end)
            }
        }
    }

    /// Records whether the writer has reached the table.
    ///
    /// Before that, no helper thread decodes a piece, and each piece is decoded when it is asked
    /// for, so that waiting tables take little memory.
    pub fn want(&mut self, is_wanted: bool)
        ensures { self.new ≡ self.old }
    {
        self.pieces_under_way.want(is_wanted);
    }

    /// Keeps the memory of a written block as a spare, or drops it if enough are kept.
    ///
    /// Once the writer has reached the table, its own blocks must return in the order they were
    /// given.
    pub fn keep_spare<T: Wait>(&mut self, rt: &T, spare: Spare)
        ensures { self.new ≡ self.old }
    {
        self.pieces_under_way.keep_spare(rt, spare);
    }

    /// Records that the memory of all given blocks has returned, except that of the last `left`.
    /// The next spares to return are then matched with the threads that wrote them.
    pub fn note_left(&mut self, left: usize)
        ensures { self.new ≡ self.old }
    {
        self.pieces_under_way.note_left(left);
    }

    /// Returns how many more spares to take for the next pieces: every one that has
    /// returned, once the writer has reached the table.
    pub fn wanted_spares(&self) -> usize {
        self.pieces_under_way.wanted_spares()
    }

    /// Returns all spares for texts.
    pub fn free_spares<T: Wait>(&mut self, rt: &T) -> Vec<Spare>
        ensures { self.new ≡ self.old }
    {
        self.pieces_under_way.free_spares(rt)
    }

    /// Drops the table, and leaves the memory of its row identifiers to those of another table.
    pub fn leave(self) {
        let TablePieces {
            alloc: _,
            pieces_under_way,
            settled: _,
        } = self;
        pieces_under_way.leave();
    }

    /// Returns the facts of a joined piece, and settles the table if the piece has a fault.
    fn give<T: Wait>(
        &mut self,
        rt: &T,
        joined: JoinedPiece,
    ) -> Result<Option<Vec<Block>>, TableFault>
        ensures blocks { IfOk result (λ o. IfSome o (λ blocks. GivesJoined joined self.old.left blocks.items self.new.left)) }
        ensures some { IfOk result (λ o. IsSome o) }
        ensures fault { IfErr result (λ e. (e ≡ file_fault self.old.table kind.Memory) × (self.new.left ≡ Some (ending (Some e)))) }
        ensures kept { IfErr result (λ e. self.new.answered ≡ Some (Some e)) }
        ensures going { IsSome self.new.answered ⊎ ((self.new.under_way ≡ self.old.under_way) × (self.new.unread ≡ self.old.unread)) }
        ensures next { IsSome self.new.answered ⊎ ((joined.fault ≡ None) × (self.new.next ≡ self.old.next)) }
        ensures same { (self.new.table ≡ self.old.table) × (self.new.limit ≡ self.old.limit) }
    {
        if let Some(fault) = joined.fault() {
            self.settle(rt, fault);
        }
        match joined.into_blocks(self.alloc) {
            Ok(blocks) => {
                self.pieces_under_way.expect(blocks.len());
                Ok(Some(blocks))
            }
            Err(_) => {
                let fault = whole_fault(self.pieces_under_way.table(), TableKind::Memory);
                self.settle(rt, fault);
                Err(fault)
            }
        }
    }

    /// Settles the table with a fault, and drops the pieces under way.
    fn settle<T: Wait>(&mut self, rt: &T, fault: TableFault)
        ensures same { (self.new.table ≡ self.old.table) × (self.new.limit ≡ self.old.limit) }
        ensures settled { (self.new.left ≡ Some (ending (Some fault))) × (self.new.answered ≡ Some (Some fault)) }
    {
        self.pieces_under_way.drain(rt);
        self.settled = Some(Some(fault));
    }
}

/// Returns the answer of a settled table.
fn answer_of(end: Option<TableFault>) -> Result<Option<Vec<Block>>, TableFault>
    ensures ok { IfOk result (λ o. IfNone o (end ≡ None) × IfSome o (λ _. ⊥)) }
    ensures err { IfErr result (λ e. end ≡ Some e) }
    ensures end { result ≡ answer_at_end end }
{
    match end {
        None => Ok(None),
        Some(fault) => Err(fault),
    }
}
