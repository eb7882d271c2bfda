//! Cutting a table's file into pieces.

ghost use Rattle.std.specs.Prelude.{◌≡◌, ◌≤◌, ◌+◌, [], IfNone, IfOk, IfSome, IsSome, None, OnErr, OnSome, Some, length};
ghost use Rattle.csv.specs.declared.parser.State.TheVariants as state;
ghost use Rattle.oim_records.specs.Grids.{records_left};
ghost use Rattle.oim_records.specs.PieceTaking.{bytes_left};
ghost use Rattle.oim_records.specs.Reads.{KeepsLeft, left_behind};
ghost use Rattle.oim_pieces.specs.state.Cutting.{HasAtLeast, IsOver, TakesRows};

use crate::text_growth::{TextGrowth, has_memory};
use oim_records::{FilePiece, PieceReader, ReadFault};
use oim_rows::{TableFault, TableKind, fault_of_read, whole_fault};
use std::io::Read;
use std::marker::Model;

/// A piece of a table: whole records, and the row number of the first. `stays` means that the
/// worker that cut it also decodes it, as it does if the piece has less than half of the asked-for
/// bytes.
#[derive(Drop)]
pub(crate) struct CutPiece {
    pub(crate) bytes: Vec<u8>,
    pub(crate) first: u32,
    pub(crate) stays: bool,
}

impl CutPiece {
    /// Returns the piece, which stays with the worker if `stays` or if it is short.
    pub(crate) fn staying(self, stays: bool) -> CutPiece
        ensures { (result.bytes ≡ self.bytes) × (result.first ≡ self.first) }
    {
        let CutPiece {
            bytes,
            first,
            stays: is_short,
        } = self;
        CutPiece {
            bytes,
            first,
            stays: is_short || stays,
        }
    }
}

/// The cutter of a table's file.
///
/// Contracts see the table's place, its limit of rows, the number of the next row, the records and
/// the bytes that are left (for a reader whose bytes are known), and the end or fault once nothing
/// more is cut.
pub(crate) struct Cutter<R: Read + Drop> {
    pieces: PieceReader<R>,
    table: usize,
    limit: u32,
    next: u64,
    over: Option<Option<TableFault>>,
    // How many bytes a piece should have.
    size: usize,
    // How much longer than its rows the table's facts can be.
    growth: TextGrowth,
    // How many bytes the metadata adds to the longest of the last pieces.
    longest: usize,
    // Whether the last piece or the last read was short, as at the end of a file, or with a reader
    // that gives few bytes at a time.
    is_slow: bool,
}

// Written by hand so that dropping one elsewhere compiles to a single call.
impl<R: Read + Drop> Drop for Cutter<R> {
    fn drop(self) {
        let Self {
            pieces: _,
            table: _,
            limit: _,
            next: _,
            over: _,
            size: _,
            growth: _,
            longest: _,
            is_slow: _,
        } = self;
    }
}

impl<R: Read + Drop> Model for Cutter<R> {
    ghost use Rattle.std.specs.Prelude.{◌≡◌, ◌≤◌, [], IfSome};
    ghost use Rattle.oim_records.specs.PieceTaking.{bytes_left};
    ghost use Rattle.oim_records.specs.Reads.{left_behind};
    ghost use Rattle.oim_pieces.specs.state.Cutting.{CutterLeft, IsOver, left_over};

    ghost Value = { CutterLeft };

    ghost view = { λ a. record {
      table = a.table;
      limit = a.limit;
      next = a.next;
      left = left_over a.over (left_behind [] a.pieces);
      over = a.over;
      unread = left_over a.over (bytes_left a.pieces);
    } };

    ghost invariant = { λ a. (a.limit ≤ 4294967294) × (1 ≤ a.next) × IfSome a.over (IsOver a.table (left_over a.over (left_behind [] a.pieces))) };
}

/// Returns the next piece that has a record, of about `size` bytes, or `None` at the end of the
/// file. Passes over pieces of blank lines.
#[tactic(auto, using(crate::proofs::CutLaws::left_same, crate::proofs::CutLaws::rows_passed, crate::proofs::CutLaws::rows_taken, crate::proofs::CutLaws::rows_ended, crate::proofs::CutLaws::rows_failed, crate::proofs::CutLaws::least_same, crate::proofs::CutLaws::least_passed, crate::proofs::CutLaws::least_taken, crate::proofs::CutLaws::least_failed))]
fn next_with_rows<R: Read + Drop>(
    pieces: &mut PieceReader<R>,
    size: usize,
) -> Result<Option<FilePiece>, ReadFault>
    ensures rows { IfOk result (λ o. IfSome o (λ piece. TakesRows (left_behind [] pieces.old) (records_left state.StartRecord piece.bytes.items) (left_behind [] pieces.new))) }
    ensures records { IfOk result (λ o. IfSome o (λ piece. piece.records ≡ length (records_left state.StartRecord piece.bytes.items))) }
    ensures some { IfOk result (λ o. IfSome o (λ piece. 1 ≤ length (records_left state.StartRecord piece.bytes.items))) }
    ensures bytes { IfOk result (λ o. IfSome o (λ piece. (1 ≤ length piece.bytes.items) × HasAtLeast (bytes_left pieces.old) piece.bytes.items (bytes_left pieces.new))) }
    ensures end { IfOk result (λ o. IfNone o (KeepsLeft (left_behind [] pieces.old) (Some []))) }
    ensures kept { OnErr result (KeepsLeft (left_behind [] pieces.old) (left_behind [] pieces.new)) }
    ensures least { OnErr result (HasAtLeast (bytes_left pieces.old) [] (bytes_left pieces.new)) }
{
    for _ in 0..u64::MAX {
        match pieces.next(size, true)? {
            Some(piece) => {
                if piece.records > 0 {
                    return Ok(Some(piece));
                }
            }
            None => return Ok(None),
        }
    }
    Err(ReadFault::Memory)
}

impl<R: Read + Drop> Cutter<R> {
    /// Makes a cutter of what `pieces` has left of a table, whose next row has number `next`.
    pub(crate) fn new(
        pieces: PieceReader<R>,
        table: usize,
        limit: u32,
        next: u64,
        size: usize,
    ) -> Cutter<R>
        requires rows { limit ≤ 4294967294 }
        requires first { 1 ≤ next }
        ensures { result ≡ record { table = table; limit = limit; next = next; left = left_behind [] pieces; over = None; unread = bytes_left pieces } }
    {
        Cutter {
            pieces,
            table,
            limit,
            next,
            over: None,
            size,
            growth: TextGrowth::none(),
            longest: 0,
            is_slow: false,
        }
    }

    /// Sets how much longer than its rows the table's facts can be, and so the size of its pieces.
    pub(crate) fn set_growth(&mut self, growth: TextGrowth)
        ensures { self.new ≡ self.old }
    {
        self.size = growth.piece_size(self.size);
        self.growth = growth;
    }

    /// Returns whether the facts of one more piece may take memory in addition to those of `count`
    /// pieces.
    pub(crate) fn has_memory(&self, count: usize) -> bool {
        has_memory(count, self.longest)
    }

    /// Returns whether the facts of a piece are so long that it is not decoded as a whole. The
    /// header names these columns.
    pub(crate) fn is_long_piece(&self, piece: &[u8], columns: &[Option<usize>]) -> bool {
        self.growth.is_long_piece(piece, columns)
    }

    /// Returns the reader of what is left to cut.
    pub(crate) fn into_pieces(self) -> PieceReader<R>
        requires { self.over ≡ None }
        ensures { left_behind [] result ≡ self.left }
    {
        let Cutter {
            pieces,
            table: _,
            limit: _,
            next: _,
            over: _,
            size: _,
            growth: _,
            longest: _,
            is_slow: _,
        } = self;
        pieces
    }

    /// Returns the table's place in the report.
    pub(crate) fn table(&self) -> usize
        ensures { result ≡ self.now.table }
    {
        self.table
    }

    /// Returns whether the cut records may be all that the reader has for now. They then wait for
    /// no others.
    pub(crate) fn is_slow(&self) -> bool {
        self.is_slow
    }

    /// Returns the end or fault after the cut pieces, once nothing more is cut.
    pub(crate) fn over(&self) -> Option<Option<TableFault>>
        ensures value { result ≡ self.now.over }
        ensures over { IfSome result (IsOver self.now.table self.now.left) }
    {
        self.over
    }

    /// Keeps the memory of a vector for the bytes of later pieces.
    pub(crate) fn keep_spare(&mut self, spare: Vec<u8>)
        ensures { self.new ≡ self.old }
    {
        self.pieces.keep_spare(spare);
    }

    /// Cuts the next piece, which has a row at least.
    ///
    /// Returns `None` at the end of the file, if the reader failed, or if memory runs out. Further
    /// calls then return `None` and change nothing.
    #[tactic(auto, using(crate::proofs::UnderWayLaws::rows_few, crate::proofs::CutLaws::left_same, crate::proofs::CutLaws::least_same, crate::proofs::CutLaws::least_ended))]
    pub(crate) fn cut(&mut self) -> Option<CutPiece>
        ensures some { IfSome result (λ piece. TakesRows self.old.left (records_left state.StartRecord piece.bytes.items) self.new.left) }
        ensures rows { IfSome result (λ piece. 1 ≤ length (records_left state.StartRecord piece.bytes.items)) }
        ensures first { IfSome result (λ piece. (piece.first ≡ self.old.next) × (1 ≤ piece.first) × (piece.first ≤ self.old.limit + 1)) }
        ensures next { IfSome result (λ piece. self.new.next ≡ self.old.next + length (records_left state.StartRecord piece.bytes.items)) }
        ensures bytes { IfSome result (λ piece. (1 ≤ length piece.bytes.items) × HasAtLeast self.old.unread piece.bytes.items self.new.unread) }
        ensures none { IfNone result (KeepsLeft self.old.left self.new.left × (self.new.next ≡ self.old.next)) }
        ensures kept { IfNone result (HasAtLeast self.old.unread [] self.new.unread) }
        ensures over { IfNone result (IsSome self.new.over) }
        ensures going { IfSome result (λ _. self.old.over ≡ None) }
        ensures settled { OnSome self.old.over (self.new ≡ self.old) }
        ensures same { (self.new.table ≡ self.old.table) × (self.new.limit ≡ self.old.limit) }
    {
        match self.over {
            Some(_) => return None,
            None => {}
        }
        if self.next > self.limit as u64 + 1 {
            // An earlier row has the fault TooManyRows, and nothing is asked for after it.
            self.over = Some(Some(whole_fault(self.table, TableKind::Memory)));
            return None;
        }
        match next_with_rows(&mut self.pieces, self.size) {
            Ok(Some(FilePiece { bytes, records })) => {
                let first = self.next as u32;
                let rows = records as usize;
                let may_be_long = rows == 1 || bytes.len() / 2 > self.size;
                self.longest = self
                    .growth
                    .longest(self.longest, bytes.len(), rows, may_be_long);
                let is_short = bytes.len() < self.size / 2;
                self.is_slow = is_short || self.pieces.is_short();
                self.next += records;
                Some(CutPiece {
                    bytes,
                    first,
                    stays: is_short,
                })
            }
            Ok(None) => {
                self.over = Some(None);
                None
            }
            Err(fault) => {
                self.over = Some(Some(fault_of_read(self.table, fault)));
                None
            }
        }
    }
}
