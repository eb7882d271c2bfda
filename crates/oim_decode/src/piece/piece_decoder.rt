//! Decoding pieces of a table.

ghost use Rattle.std.specs.Prelude.{◌≡◌, ◌≤◌, ◌+◌, [], IfOk, IfSome, None, drop, length, option_map};
ghost use Rattle.csv.specs.declared.parser.State.TheVariants as state;
ghost use Rattle.oim_records.specs.Grids.{records_left};
ghost use Rattle.oim_decode.specs.PieceAnswers.{IsPieceDecoded};
ghost use Rattle.oim_decode.specs.state.PieceAnswers.{StepsRow, no_rows};
ghost use Rattle.oim_rows.specs.RowFacts.{row_fault};
ghost use Rattle.oim_rows.specs.Streams.{stream_from};

use crate::piece::first_records::FirstRecords;
use crate::piece::piece_answer::PieceAnswer;
use crate::piece::piece_spares::PieceSpares;
use crate::table::row_texts::RowTexts;
use crate::table::text_rows::TextRows;
use oim_fast::TableRow;
use oim_json::Spare;
use oim_records::{Fields, PieceRecords, RecordReader, TextFields};
use oim_rows::{RowIds, TableFault, TableHeader, TableKind, whole_fault};
use std::alloc::{AllocError, Global};
use std::io::Read;
use std::marker::Model;

/// A decoder for the pieces of one table. It needs only a piece's bytes and the number of its first
/// row.
///
/// Contracts see the table's header, and the records that are left of the current piece.
pub struct PieceDecoder<'a> {
    alloc: Global,
    header: TableHeader<'a>,
    texts: RowTexts<'a>,
    records: PieceRecords,
    // Memory for texts.
    spares: PieceSpares,
    // The identifiers of other rows: always empty.
    ids: RowIds,
}

// Written by hand so that dropping one elsewhere compiles to a single call.
impl Drop for PieceDecoder<'_> {
    fn drop(self) {
        let Self {
            alloc: _,
            header: _,
            texts: _,
            records: _,
            spares: _,
            ids: _,
        } = self;
    }
}

impl<'a> Model for PieceDecoder<'a> {
    ghost use Rattle.std.specs.Prelude.{◌≡◌, ◌<◌, ◌^◌, ◌-◌, []};
    ghost use Rattle.oim_decode.specs.PieceAnswers.{PieceLeft};

    ghost Value = { PieceLeft };

    ghost view = { λ a. record { header = a.header; left = a.records.left } };

    ghost invariant = { λ a. (a.texts ≡ a.header) × (a.ids ≡ []) × (a.header.limit < 2 ^ 32 - 1) };
}

/// Returns the first fault of row `number` apart from those of its cells. `texts` is the row as
/// text if all its fields are text; they are then not tested again.
fn fault_of(
    header: &TableHeader<'_>,
    number: u32,
    ids: &RowIds,
    row: &Fields<'_>,
    texts: &Option<TextFields<'_>>,
) -> Option<TableFault>
    requires { IfSome texts.now (λ t. t ≡ row.now) }
    ensures { result ≡ row_fault header.now number ids.now row.now }
{
    match texts {
        Some(texts) => header.fault_of_texts(number, ids, texts),
        None => header.fault_of_row(number, ids, row),
    }
}

impl<'a> PieceDecoder<'a> {
    /// Makes a decoder for the table with this header.
    pub fn new(alloc: Global, header: TableHeader<'a>) -> Result<PieceDecoder<'a>, AllocError>
        requires { header.limit ≤ 4294967294 }
        ensures { IfOk result (λ decoder. decoder ≡ record { header = header.entry; left = [] }) }
    {
        let texts = RowTexts::new(alloc, &header)?;
        Ok(PieceDecoder {
            alloc,
            header,
            texts,
            records: PieceRecords::new(alloc, Vec::new(alloc)),
            spares: PieceSpares::new(alloc),
            ids: RowIds::new(alloc),
        })
    }
}

impl<'a> PieceDecoder<'a> {
    /// Returns the header of its table.
    pub fn header(&self) -> &TableHeader<'a>
        ensures { result.now ≡ self.now.header }
    {
        &self.header
    }
}

impl<'a> PieceDecoder<'a> {
    /// Returns the rows of its table after the first `given`, which have the identifiers `ids`.
    /// `records` has these rows. Takes no memory.
    pub(crate) fn into_rows<R: Read + Drop>(
        self,
        ids: RowIds,
        given: u32,
        records: RecordReader<R>,
    ) -> TextRows<'a, R>
        requires { given ≤ self.header.limit }
        ensures header { result.header ≡ self.entry.header }
        ensures given { result.given ≡ given }
        ensures left { result.left ≡ option_map (stream_from self.entry.header (given + 1) ids) records.left }
        ensures unread { result.unread ≡ records.left }
        ensures closed { result.rest ≡ None }
    {
        let PieceDecoder {
            alloc,
            header,
            texts,
            records: _,
            spares: _,
            ids: _,
        } = self;
        TextRows::after(alloc, header, texts, ids, given, records)
    }
}

impl PieceDecoder<'_> {
    /// Decodes a piece whose first row has number `first`. The piece must begin where a record may
    /// begin, and end at a record's end.
    ///
    /// The answer has the piece's first fault: Ragged, NotUtf8, TooManyRows, MissingRowId, BadRowId
    /// or one of a cell; or Memory if memory runs out.
    pub fn decode(&mut self, piece: Vec<u8>, first: u32) -> PieceAnswer
        requires { first ≤ self.old.header.limit + 1 }
        ensures answer { IsPieceDecoded self.old.header first (records_left state.StartRecord piece.items) result }
        ensures numbers { first + length result.ids ≤ 4294967296 }
        ensures header { self.new.header ≡ self.old.header }
    {
        self.records.load(piece);
        self.decode_left(first)
    }

    /// Returns the vector of the last piece, with any bytes, for reading a later piece into it. No
    /// record is left then.
    pub fn take_spare(&mut self) -> Vec<u8>
        ensures header { self.new.header ≡ self.old.header }
        ensures left { self.new.left ≡ [] }
    {
        self.records.take_spare(self.alloc)
    }

    /// Keeps the memory of a block for texts that are decoded later.
    pub fn keep_spare(&mut self, spare: Spare)
        ensures { self.new ≡ self.old }
    {
        self.spares.keep(spare);
    }

    /// Returns memory that was kept and not used, if some is left.
    pub fn free_spare(&mut self) -> Option<Spare>
        ensures { self.new ≡ self.old }
    {
        self.spares.free()
    }

    /// Decodes the rows after the header in a table's head. The answer is like that of `decode`.
    pub fn decode_head(&mut self, head: &FirstRecords) -> PieceAnswer
        ensures answer { IsPieceDecoded self.old.header 1 (drop 1 head.now) result }
        ensures numbers { 1 + length result.ids ≤ 4294967296 }
        ensures header { self.new.header ≡ self.old.header }
    {
        let Ok(piece) = head.piece(self.alloc) else {
            return PieceAnswer::refused(self.alloc, self.header.table());
        };
        self.records.load(piece);
        match self.records.read() {
            Ok(_) => self.decode_left(1),
            Err(_) => PieceAnswer::refused(self.alloc, self.header.table()),
        }
    }

    /// Makes an answer without a row, with memory for its texts if some is kept.
    fn begin(&mut self) -> PieceAnswer
        ensures answer { result ≡ no_rows }
        ensures same { self.new ≡ self.old }
    {
        PieceAnswer::within(self.alloc, self.spares.take(self.alloc))
    }

    /// Decodes the records that are left of the current piece.
    fn decode_left(&mut self, first: u32) -> PieceAnswer
        requires { first ≤ self.old.header.limit + 1 }
        ensures answer { IsPieceDecoded self.old.header first self.old.left result }
        ensures numbers { first + length result.ids ≤ 4294967296 }
        ensures header { self.new.header ≡ self.old.header }
    {
        let table = self.header.table();
        let mut answer = self.begin();
        let mut number = first;
        for _ in 0..u64::MAX {
            if !self.next_row(number, &mut answer) {
                return answer;
            }
            number += 1;
        }
        answer.end(whole_fault(table, TableKind::Memory));
        answer
    }

    /// Adds row `number`, the next record, to an answer and returns true, or ends the answer and
    /// returns false.
    fn next_row(&mut self, number: u32, answer: &mut PieceAnswer) -> bool
        requires { answer.old.fault ≡ None }
        ensures row { StepsRow self.old.header number self.old.left answer.old result self.new.left answer.new }
        ensures header { self.new.header ≡ self.old.header }
    {
        match self.records.read() {
            Ok(true) => {}
            Ok(false) => return false,
            Err(_) => {
                answer.end(whole_fault(self.header.table(), TableKind::Memory));
                return false;
            }
        }
        let fields = self.records.fields();
        let texts = self.records.text_fields();
        if let Some(fault) = fault_of(&self.header, number, &self.ids, &fields, &texts) {
            answer.end(fault);
            return false;
        }
        let Some(texts) = texts else { unreachable!() };
        let row = TableRow::new(&self.header, number, &texts);
        answer.push_row(self.alloc, &mut self.texts, &row, &fields, &mut self.spares)
    }
}
