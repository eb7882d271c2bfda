//! The pieces of a table that are under way: cut, and not joined yet.

ghost use Rattle.std.specs.Prelude.{◌≡◌, ◌⊎◌, ◌++◌, ◌+◌, ◌-◌, ◌<◌, ◌≤◌, [], drop, IfNone, IfOk, IfErr, IfSome, None, OnSome, Some, length, option_map, true};
ghost use Rattle.csv.specs.declared.parser.State.TheVariants as state;
ghost use Rattle.oim_decode.specs.Heads.{table_header_in};
ghost use Rattle.oim_records.specs.Grids.{records_left};
ghost use Rattle.oim_records.specs.PieceTaking.{bytes_left};
ghost use Rattle.oim_records.specs.Reads.{left_behind};
ghost use Rattle.oim_rows.specs.Header.{file_header_fault};
ghost use Rattle.oim_rows.specs.Streams.{IsOutside, ending, stream_from, stream_of};
ghost use Rattle.oim_pieces.specs.PiecesLeft.{FewerSteps, KeepsStream, NoMoreSteps};
ghost use Rattle.oim_pieces.specs.state.PiecesUnderWay.{IsEndOfTable, IsFront, ReadsJoined, head_pieces, next_row, rows_in, steps_in, stream_in};

use crate::at_work::AtWork;
use crate::cutter::{CutPiece, Cutter};
use crate::piece_under_way::PieceUnderWay;
use crate::table_threads::TableThreads;
use crate::text_growth::TextGrowth;
use oim_decode::{FirstRecords, JoinedPiece, PieceJoin, TableBlocks};
use oim_json::Spare;
use oim_records::{PieceReader, RecordReader};
use oim_report::Report;
use oim_rows::{TableFault, TableKind, whole_fault};
use std::alloc::Global;
use std::collections::VecDeque;
use std::io::Read;
use std::marker::Model;
use std::sync::Wait;
use std::thread::{Scope, Threads};

/// A bound of the loop that cuts ahead. It exceeds the pieces that are under way at once.
const MOST_CUT: usize = 256;

/// More spares than return at once. All are taken once the writer has reached the table, since
/// most belong to helper threads, which use them again.
const MOST_TAKEN: usize = 256;

/// The pieces of a table that are under way, in order, with what cuts, decodes and joins them.
///
/// Contracts see the table's header, the identifiers of the rows that were given, the pieces, and
/// what is left to cut.
#[derive(Drop)]
pub(crate) struct PiecesUnderWay<'a, R: Read + Drop> {
    cutter: Cutter<R>,
    threads: TableThreads<'a>,
    join: PieceJoin,
    under_way: VecDeque<PieceUnderWay<'a>>,
    // Whether the rows of the head were given.
    has_given: bool,
    // Whether the writer has reached the table.
    is_wanted: bool,
    // Whether the spares that return now are from this table's blocks.
    are_own: bool,
    // Whether memory for the identifiers was asked for.
    has_asked: bool,
}

impl<'a, R: Read + Drop> Model for PiecesUnderWay<'a, R> {
    ghost use Rattle.std.specs.Prelude.{◌≡◌};
    ghost use Rattle.oim_pieces.specs.state.PiecesUnderWay.{AreChained, UnderWayLeft};

    ghost Value = { UnderWayLeft };

    ghost view = { λ a. record { header = a.threads; ids = a.join; pieces = a.under_way.items; cutter = a.cutter } };

    ghost invariant = { λ a. (a.threads.table ≡ a.cutter.table) × (a.threads.limit ≡ a.cutter.limit) × AreChained a.threads a.under_way.items a.cutter.next };
}

/// Opens the table's threads, with the rows of `head` as the only piece under way if there are any.
///
/// Fails with the header's first fault, and with Memory if memory runs out.
#[tactic(auto, using(crate::proofs::Openings::rows_opened, crate::proofs::Openings::no_rows_opened))]
fn open_table<'a>(
    alloc: Global,
    at_work: &'a AtWork,
    report: &'a Report,
    table: usize,
    limit: u32,
    head: FirstRecords,
) -> Result<(TableThreads<'a>, VecDeque<PieceUnderWay<'a>>), TableFault>
    requires place { table < length report.now.tables }
    requires rows { limit ≤ 4294967294 }
    ensures threads { IfOk result (λ off. off.0 ≡ table_header_in report.now table limit head) }
    ensures pieces { IfOk result (λ off. off.1.items ≡ head_pieces (table_header_in report.now table limit head) (drop 1 head)) }
    ensures rows { IfOk result (λ _. length head - 1 < 18446744073709551615) }
    ensures header { IfOk result (λ _. file_header_fault report.now table head ≡ None) }
    ensures fault { IfErr result (λ e. IsOutside table e ⊎ (file_header_fault report.now table head ≡ Some e)) }
{
    let rows = head.rows();
    if rows == u64::MAX {
        return Err(whole_fault(table, TableKind::Memory));
    }
    let Ok(mut under_way) = VecDeque::with_capacity(alloc, 1) else {
        return Err(whole_fault(table, TableKind::Memory));
    };
    match TableThreads::open(alloc, at_work, report, table, limit, head) {
        Ok((threads, front)) => {
            if rows > 0 {
                under_way.push_back_reserved(front);
            }
            Ok((threads, under_way))
        }
        Err(fault) => Err(fault),
    }
}

/// Joins a piece, waiting for its answer.
fn join_piece<'a, T: Wait>(
    rt: &T,
    threads: &mut TableThreads<'a>,
    join: &mut PieceJoin,
    piece: PieceUnderWay<'a>,
) -> JoinedPiece
    requires { piece.header ≡ threads.old }
    ensures joined { IsFront piece.entry join.old result join.new }
    ensures same { threads.new ≡ threads.old }
{
    let first = piece.first();
    let answer = piece.wait_for_answer(rt, threads);
    join.join(threads.header(), first, answer)
}

/// Starts the decoding of a piece, unless its facts are so long that it is not decoded as a whole.
/// Before the writer has reached the table, the worker decodes it.
fn begin<'a, E, R: Read + Drop, T: Threads + Wait + Sync + 'a>(
    scope: &Scope<'a, E>,
    rt: &'a T,
    cutter: &Cutter<R>,
    threads: &mut TableThreads<'a>,
    is_wanted: bool,
    piece: CutPiece,
) -> PieceUnderWay<'a>
    requires first { 1 ≤ piece.first }
    requires within { piece.first ≤ threads.old.limit + 1 }
    ensures piece { (result.header ≡ threads.old) × (result.first ≡ piece.first) × (result.rows ≡ records_left state.StartRecord piece.bytes.items) }
    ensures same { threads.new ≡ threads.old }
{
    if cutter.is_long_piece(piece.bytes.as_slice(), threads.header().columns()) {
        return threads.keep(piece);
    }
    let stays = !is_wanted || threads.is_alone(rt);
    threads.send_or_decode(scope, rt, piece.staying(stays))
}

impl<'a, R: Read + Drop> PiecesUnderWay<'a, R> {
    /// Opens a table with its head and the reader of its further pieces. If the head has rows, they
    /// are under way.
    ///
    /// Fails with the header's first fault, and with Memory if memory runs out.
    pub(crate) fn after_head(
        alloc: Global,
        at_work: &'a AtWork,
        report: &'a Report,
        table: usize,
        limit: u32,
        head: FirstRecords,
        pieces: PieceReader<R>,
    ) -> Result<PiecesUnderWay<'a, R>, TableFault>
        requires place { table < length report.now.tables }
        requires rows { limit ≤ 4294967294 }
        requires header { 1 ≤ length head }
        ensures table { IfOk result (λ t. (t.cutter.table ≡ table) × (t.cutter.limit ≡ limit)) }
        ensures next { IfOk result (λ t. next_row t ≡ 1) }
        ensures unread { IfOk result (λ t. t.cutter.unread ≡ bytes_left pieces) }
        ensures stream { IfSome (left_behind head pieces) (λ records. IfOk result (λ t. stream_in t ≡ Some (stream_of report.now table limit records))) }
        ensures fault { IfErr result (λ e. IsOutside table e ⊎ (file_header_fault report.now table head ≡ Some e)) }
    {
        let rows = head.rows();
        match open_table(alloc, at_work, report, table, limit, head) {
            Ok((threads, under_way)) => Ok(PiecesUnderWay {
                cutter: Cutter::new(pieces, table, limit, 1 + rows, at_work.size()),
                threads,
                join: PieceJoin::new(alloc),
                under_way,
                has_given: false,
                is_wanted: false,
                are_own: false,
                has_asked: false,
            }),
            Err(fault) => Err(fault),
        }
    }

    /// Sets how much longer than its rows the table's facts can be.
    pub(crate) fn set_growth(&mut self, growth: TextGrowth)
        ensures { self.new ≡ self.old }
    {
        self.cutter.set_growth(growth);
    }

    /// Keeps the memory of a written block as a spare, for the thread that wrote the block if that
    /// is known.
    pub(crate) fn keep_spare<T: Wait>(&mut self, rt: &T, spare: Spare)
        ensures { self.new ≡ self.old }
    {
        if self.are_own {
            self.threads.memory.keep_own(rt, spare);
        } else {
            self.threads.memory.keep_spare(spare);
        }
    }

    /// Records that the memory of all given blocks has returned, except that of the last `left`.
    pub(crate) fn note_left(&mut self, left: usize)
        ensures { self.new ≡ self.old }
    {
        self.threads.memory.note_left(left);
    }

    /// Records that the piece joined last gave `count` blocks, each with one spare.
    pub(crate) fn expect(&mut self, count: usize)
        ensures { self.new ≡ self.old }
    {
        self.threads.memory.expect(count);
    }

    /// Returns how many more spares to take for the next pieces: every one that has
    /// returned, once the writer has reached the table.
    pub(crate) fn wanted_spares(&self) -> usize {
        if self.is_wanted {
            MOST_TAKEN
        } else {
            self.threads.memory.wanted()
        }
    }

    /// Returns all spares for texts.
    pub(crate) fn free_spares<T: Wait>(&mut self, rt: &T) -> Vec<Spare>
        ensures { self.new ≡ self.old }
    {
        self.threads.memory.free_spares(rt)
    }

    /// Cuts pieces and starts their decoding while threads have places for them. If no piece is
    /// under way, cuts the next one in any case.
    #[tactic(auto, using(crate::proofs::UnderWayLaws::stream_then, crate::proofs::UnderWayLaws::stream_same, crate::proofs::StepLaws::steps_then, crate::proofs::StepLaws::steps_same))]
    pub(crate) fn cut_ahead<E, T: Threads + Wait + Sync + 'a>(
        &mut self,
        scope: &Scope<'a, E>,
        rt: &'a T,
    )
        ensures stream { KeepsStream (stream_in self.old) (stream_in self.new) }
        ensures steps { NoMoreSteps (steps_in self.old) (steps_in self.new) }
        ensures next { next_row self.new ≡ next_row self.old }
        ensures table { (self.new.cutter.table ≡ self.old.cutter.table) × (self.new.cutter.limit ≡ self.old.cutter.limit) }
    {
        for _ in 0..MOST_CUT {
            if !self.may_cut(rt) || !self.cut_next(scope, rt) {
                return;
            }
        }
    }

    /// Records whether the writer has reached the table.
    ///
    /// The spares that are kept between the first call with true and the second are from other
    /// tables' blocks, because they returned earlier. At the first one, the table before has left
    /// the memory of its identifiers.
    pub(crate) fn want(&mut self, is_wanted: bool)
        ensures { self.new ≡ self.old }
    {
        if is_wanted && !self.has_asked {
            self.has_asked = true;
            if let Some(spare) = self.threads.take_spare_ids() {
                self.join.move_ids(spare);
            }
        }
        self.are_own = self.is_wanted && is_wanted;
        self.is_wanted = is_wanted;
    }

    /// Returns whether to cut one more piece.
    ///
    /// The rows of the head, and a short piece from a slow reader, are given without waiting for
    /// others. After a longer one, others may be read before it is given, unless their facts take
    /// much memory. Nothing is read after a piece whose facts are so long that it was not decoded.
    fn may_cut<T: Threads>(&self, rt: &T) -> bool {
        match self.under_way.front() {
            Some(_) => {
                self.has_given
                    && !self.ends_kept()
                    && !self.cutter.is_slow()
                    && self.cutter.has_memory(self.under_way.len())
                    && self
                        .threads
                        .may_have(rt, self.under_way.len(), self.is_wanted)
            }
            None => true,
        }
    }

    /// Returns whether the last piece under way was not decoded.
    fn ends_kept(&self) -> bool {
        match self.under_way.back() {
            Some(piece) => piece.is_kept(),
            None => false,
        }
    }

    /// Returns whether only a piece is under way that was not decoded, since its facts are long.
    pub(crate) fn is_long(&self) -> bool {
        self.under_way.len() == 1 && self.ends_kept()
    }

    /// Cuts the next piece and starts its decoding. Returns false if no piece is left or memory
    /// runs out.
    #[tactic(auto, using(crate::proofs::UnderWayLaws::chained_more, crate::proofs::UnderWayLaws::next_more, crate::proofs::UnderWayLaws::stream_more, crate::proofs::UnderWayLaws::stream_kept, crate::proofs::UnderWayLaws::stream_same, crate::proofs::StepLaws::steps_cut, crate::proofs::StepLaws::steps_kept, crate::proofs::StepLaws::steps_same))]
    fn cut_next<E, T: Threads + Wait + Sync + 'a>(
        &mut self,
        scope: &Scope<'a, E>,
        rt: &'a T,
    ) -> bool
        ensures stream { KeepsStream (stream_in self.old) (stream_in self.new) }
        ensures steps { NoMoreSteps (steps_in self.old) (steps_in self.new) }
        ensures next { next_row self.new ≡ next_row self.old }
        ensures table { (self.new.cutter.table ≡ self.old.cutter.table) × (self.new.cutter.limit ≡ self.old.cutter.limit) }
    {
        if self.under_way.reserve(1).is_err() {
            return false;
        }
        if let Some(bytes) = self.threads.memory.free_bytes() {
            self.cutter.keep_spare(bytes);
        }
        let Some(piece) = self.cutter.cut() else {
            return false;
        };
        let under_way = begin(
            scope,
            rt,
            &self.cutter,
            &mut self.threads,
            self.is_wanted,
            piece,
        );
        self.under_way.push_back_reserved(under_way);
        true
    }

    /// Joins the first piece under way, waiting for its answer. Returns `None` if no piece is under
    /// way.
    ///
    /// A piece has a row at least. Unless it has a fault, all its rows are within the limit.
    #[tactic(auto, using(crate::proofs::StepLaws::steps_joined))]
    pub(crate) fn join_front<T: Wait>(&mut self, rt: &T) -> Option<JoinedPiece>
        ensures some { IfSome (stream_in self.old) (λ whole. IfSome result (λ s. ReadsJoined self.old.cutter.table whole s (stream_in self.new))) }
        ensures none { IfNone result ((self.old.pieces ≡ []) × (self.new ≡ self.old)) }
        ensures steps { OnSome result (FewerSteps (steps_in self.old) (steps_in self.new)) }
        ensures next { OnSome result (next_row self.old < next_row self.new) }
        ensures few { IfSome result (λ s. s.fault ≡ None → next_row self.new ≤ self.old.cutter.limit + 1) }
        ensures table { (self.new.cutter.table ≡ self.old.cutter.table) × (self.new.cutter.limit ≡ self.old.cutter.limit) }
    {
        let piece = self.under_way.pop_front()?;
        self.has_given = true;
        Some(join_piece(rt, &mut self.threads, &mut self.join, piece))
    }

    /// Drops the pieces under way. Takes those that no thread has taken, so that none is decoded in
    /// vain.
    pub(crate) fn drain<T: Wait>(&mut self, rt: &T)
        ensures { (self.new.cutter.table ≡ self.old.cutter.table) × (self.new.cutter.limit ≡ self.old.cutter.limit) }
    {
        while self.drop_front(rt) {}
    }

    /// Drops the first piece under way. Returns false if no piece is under way.
    fn drop_front<T: Wait>(&mut self, rt: &T) -> bool
        ensures fewer { result ≡ true → length self.new.pieces < length self.old.pieces }
        ensures table { (self.new.cutter.table ≡ self.old.cutter.table) × (self.new.cutter.limit ≡ self.old.cutter.limit) }
    {
        match self.under_way.pop_front() {
            Some(piece) => {
                piece.draw(rt);
                true
            }
            None => false,
        }
    }

    /// Returns what ends the table: its fault, or `None` at the end of the file.
    #[tactic(auto, using(crate::proofs::UnderWayLaws::none_left, crate::proofs::UnderWayLaws::end_found))]
    pub(crate) fn end(&self) -> Option<TableFault>
        requires { self.now.pieces ≡ [] }
        ensures { IsEndOfTable self.now.cutter.table (stream_in self.now) result }
    {
        match self.cutter.over() {
            Some(end) => end,
            None => Some(whole_fault(self.cutter.table(), TableKind::Memory)),
        }
    }

    /// Takes the piece under way if it is the only one and was not decoded. It has the next row.
    fn take_kept(&mut self) -> Option<CutPiece>
        ensures first { IfSome result (λ piece. (piece.first ≡ next_row self.old) × (1 ≤ piece.first) × (piece.first ≤ self.old.cutter.limit + 1)) }
        ensures rows { IfSome result (λ piece. rows_in self.old.pieces ≡ records_left state.StartRecord piece.bytes.items) }
        ensures same { OnSome result (self.new ≡ record self.old { pieces = [] }) }
        ensures none { IfNone result (self.new ≡ self.old) }
    {
        if self.under_way.len() != 1 {
            return None;
        }
        let Some(piece) = self.under_way.pop_front() else {
            return None;
        };
        match piece.into_cut() {
            Ok(piece) => Some(piece),
            Err(piece) => {
                self.under_way.push_front_reserved(piece);
                None
            }
        }
    }

    /// Ends the pieces, and returns the rest of the table: the rows of `piece`, which is the next
    /// one, and those that are not cut.
    fn into_blocks(self, alloc: Global, piece: CutPiece) -> TableBlocks<'a, R>
        requires going { self.cutter.over ≡ None }
        requires first { 1 ≤ piece.first }
        requires within { piece.first ≤ self.cutter.limit + 1 }
        ensures start { (result.table ≡ self.entry.cutter.table) × (result.limit ≡ self.entry.cutter.limit) }
        ensures begun { (result.given + 1 ≡ piece.first) × (result.pending ≡ []) × (result.answered ≡ None) }
        ensures left { result.left ≡ option_map (λ records. stream_from self.entry.header piece.first self.entry.ids (records_left state.StartRecord piece.bytes.items ++ records)) self.entry.cutter.left }
    {
        let PiecesUnderWay {
            cutter,
            threads,
            join,
            under_way: _,
            has_given: _,
            is_wanted: _,
            are_own: _,
            has_asked: _,
        } = self;
        let CutPiece {
            bytes,
            first,
            stays: _,
        } = piece;
        let records = RecordReader::after_pieces(alloc, bytes, cutter.into_pieces());
        TableBlocks::after_pieces(alloc, threads.into_decoder(), join, first, records)
    }

    /// Returns the rest of the table, to be decoded row by row, if only a piece is under way that
    /// was not decoded. Else returns the pieces as they are.
    pub(crate) fn into_rest(
        self,
        alloc: Global,
    ) -> Result<TableBlocks<'a, R>, PiecesUnderWay<'a, R>>
        ensures start { IfOk result (λ rest. (rest.table ≡ self.entry.cutter.table) × (rest.limit ≡ self.entry.cutter.limit)) }
        ensures begun { IfOk result (λ rest. (rest.given + 1 ≡ next_row self.entry) × (rest.pending ≡ []) × (rest.answered ≡ None)) }
        ensures left { IfOk result (λ rest. rest.left ≡ stream_in self.entry) }
        ensures same { IfErr result (λ pieces. pieces ≡ self.entry) }
    {
        let mut pieces = self;
        match pieces.cutter.over() {
            Some(_) => return Err(pieces),
            None => {}
        }
        match pieces.take_kept() {
            Some(piece) => Ok(pieces.into_blocks(alloc, piece)),
            None => Err(pieces),
        }
    }

    /// Drops the pieces and the threads, and leaves the memory of the identifiers to those of
    /// another table.
    pub(crate) fn leave(self) {
        let PiecesUnderWay {
            cutter: _,
            threads,
            join,
            under_way: _,
            has_given: _,
            is_wanted: _,
            are_own: _,
            has_asked: _,
        } = self;
        if let Some(spare) = join.into_spare_ids() {
            threads.keep_spare_ids(spare);
        }
    }

    /// Returns the table's place in the report.
    pub(crate) fn table(&self) -> usize
        ensures { result ≡ self.now.cutter.table }
    {
        self.cutter.table()
    }
}
