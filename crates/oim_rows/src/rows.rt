//! The rows of one table, one at a time.

ghost use Rattle.std.specs.Prelude.{◌≡◌, ◌⊎◌, ◌≤◌, ◌<◌, ◌+◌, ◌∷◌, [], IfOk, IfErr, IfSome, OnErr, OnSome, None, Some, Ok, true, option_map, length};
ghost use Rattle.csv.specs.Records.{fields_of};
ghost use Rattle.oim_records.specs.Grids.{grid};
ghost use Rattle.oim_rows.specs.Header.{file_header_fault};
ghost use Rattle.oim_rows.specs.RowFacts.{id_place_of, ids_after, row_result};
ghost use Rattle.oim_rows.specs.Streams.{GivesNext, IsOutside, OrNoMemory, answer_of, kept_answer, stream_from, stream_of};
ghost use Rattle.oim_rows.specs.state.Streams.{GivesRow, early_row_answer, row_answer};
ghost use Rattle.oim_rows.specs.WholeTable.{IsTableStream};

use crate::decoder::Decoder;
use crate::fault::{TableFault, TableKind, fault_of_read, whole_fault};
use crate::ids::RowIds;
use crate::table_header::TableHeader;
use csv::ByteRecord;
use oim_names::Items;
use oim_records::{ReadFault, Records};
use oim_report::{Limits, Report};
use oim_resolve::Fact;
use std::alloc::Global;
use std::io::Read;
use std::marker::Model;

/// The facts of one row, in header order.
pub type RowFacts = Items<Fact>;

/// The rows left in one table (xBRL-CSV 1.0, table files: the first record is the header, and each
/// later record a row). It borrows the table's report.
///
/// A contract sees the table's index, the limit, how many rows were returned, and the result that
/// is repeated once the table has ended. If the reader's contract gives its bytes, a contract also
/// sees the stream left and the unread records.
#[derive(Drop)]
pub struct Rows<'a, R: Read + Drop> {
    alloc: Global,
    decoder: Decoder<'a>,
    records: Records<R>,
    // the record that was read last
    row: ByteRecord,
    ids: RowIds,
    given: u32,
    // the end or the fault that was found
    settled: Option<Option<TableFault>>,
}

impl<'a, R: Read + Drop> Model for Rows<'a, R> {
    ghost use Rattle.std.specs.Prelude.{◌≤◌, ◌<◌, ◌^◌, ◌-◌, ◌+◌};
    ghost use Rattle.oim_rows.specs.Left.{RowsLeft};

    ghost Value = { RowsLeft };

    ghost use Rattle.oim_rows.specs.state.Progressing.{left_of};

    ghost view = { λ a. record {
      table = a.decoder.table;
      limit = a.decoder.limit;
      given = a.given;
      answered = a.settled;
      left = left_of a.settled a.decoder (a.given + 1) a.ids a.records;
      unread = a.records;
    } };

    ghost invariant = { λ a. (a.given ≤ a.decoder.limit) × (a.decoder.limit < 2 ^ 32 - 1) };
}

/// Returns the facts of row `number`. `found` is the reader's result for it, and `row` the record.
fn take_row(
    alloc: Global,
    decoder: &Decoder,
    found: Result<bool, ReadFault>,
    row: &ByteRecord,
    ids: &mut RowIds,
    number: u32,
) -> Result<Option<RowFacts>, TableFault>
    ensures early { IfSome (early_row_answer decoder.now number ids.old found (fields_of row.now)) (λ answer. result ≡ answer) }
    ensures row { found ≡ Ok true → OrNoMemory (decoder.now).table result (row_answer (row_result decoder.now number ids.old (fields_of row.now))) }
    ensures ids { IfOk result (λ o. OnSome o (ids.new ≡ ids_after (id_place_of decoder.now) ids.old (fields_of row.now))) }
    ensures same { OnErr result (ids.new ≡ ids.old) }
    ensures within { IfOk result (λ o. OnSome o (number ≤ (decoder.now).limit)) }
{
    match found {
        Ok(true) => match decoder.facts(alloc, number, ids, row) {
            Ok(facts) => Ok(Some(facts)),
            Err(fault) => Err(fault),
        },
        Ok(false) => Ok(None),
        Err(fault) => Err(fault_of_read(decoder.table(), fault)),
    }
}

/// Reads row `number`, if it exists, and returns its facts.
fn read_row<R: Read>(
    alloc: Global,
    decoder: &Decoder,
    records: &mut Records<R>,
    row: &mut ByteRecord,
    ids: &mut RowIds,
    number: u32,
) -> Result<Option<RowFacts>, TableFault>
    ensures next { IfSome records.old (λ rs. GivesRow decoder.now number ids.old ids.new rs result records.new) }
    ensures same { OnErr result (ids.new ≡ ids.old) }
    ensures within { IfOk result (λ o. OnSome o (number ≤ (decoder.now).limit)) }
{
    let found = records.read(row);
    take_row(alloc, decoder, found, row, ids, number)
}

impl<'a, R: Read + Drop> Rows<'a, R> {
    /// Reads the header of the table at index `table` of a report, and skips one byte-order mark.
    ///
    /// The table may have at most `limits.rows` rows, itself at most 4,294,967,294. The other
    /// limits have no effect. (xBRL-CSV 1.0, table files)
    ///
    /// Returns the header's first fault, in this order: NoHeader, UnknownHeader, RepeatedHeader,
    /// NoRowIdColumn. Returns Read if the reader fails, and Memory if memory runs out.
    pub fn open(
        alloc: Global,
        report: &'a Report,
        table: usize,
        reader: R,
        limits: Limits,
    ) -> Result<Rows<'a, R>, TableFault>
        requires place { table < length report.now.tables }
        requires rows { limits.rows ≤ 4294967294 }

        // The rows of the table, if its header has no fault.
        ensures start { IfOk result (λ rows. (rows.table ≡ table) × (rows.limit ≡ limits.rows) × (rows.given ≡ 0) × (rows.answered ≡ None)) }
        ensures stream { IfSome (R.remaining reader) (λ bytes. IfOk result (λ rows. rows.left ≡ Some (stream_of report.now table limits.rows (grid bytes)))) }
        ensures header { IfSome (R.remaining reader) (λ bytes. IfOk result (λ _. file_header_fault report.now table (grid bytes) ≡ None)) }
        // The same for all rows at once.
        ensures whole { IfSome (R.remaining reader) (λ bytes.
            IfOk result (λ rows. IfSome rows.left (IsTableStream report.now table limits.rows (Some bytes)))) }

        // The header's fault, unless the reader failed or memory ran out.
        ensures fault { IfSome (R.remaining reader) (λ bytes. IfErr result (λ e. IsOutside table e
            ⊎ (file_header_fault report.now table (grid bytes) ≡ Some e))) }
    {
        let mut records = Records::new(alloc, reader);
        let mut row = ByteRecord::new(alloc);
        let limit = limits.rows;
        let header = match TableHeader::read_csv(
            alloc,
            report,
            table,
            limit,
            &mut records,
            &mut row,
        ) {
            Ok(header) => header,
            Err(fault) => return Err(fault),
        };
        let Ok(decoder) = Decoder::new(alloc, header) else {
            return Err(whole_fault(table, TableKind::Memory));
        };
        Ok(Rows {
            alloc,
            decoder,
            records,
            row,
            ids: RowIds::new(alloc),
            given: 0,
            settled: None,
        })
    }

    /// Returns the facts of the next row in header order, perhaps none, or `None` at the end.
    ///
    /// After the end or a fault it returns the same again and takes no further record.
    ///
    /// Returns the first fault of the first bad row, in this order: Ragged, NotUtf8, TooManyRows,
    /// MissingRowId, BadRowId, RepeatedRowId, then the faults of its cells from left to right.
    /// Returns Read if the reader fails, and Memory if memory runs out.
    pub fn next(&mut self) -> Result<Option<RowFacts>, TableFault>
        ensures next { IfSome self.old.left (λ stream. GivesNext self.old.table stream result self.new.left) }
        ensures kept { self.old.answered ≡ None → self.new.answered ≡ kept_answer result }
        ensures again { IfSome self.old.answered (λ kept. (result ≡ answer_of kept) × (self.new ≡ self.old)) }

        ensures same { (self.new.table ≡ self.old.table) × (self.new.limit ≡ self.old.limit) }
        ensures counts { IfOk result (λ o. OnSome o ((self.new.given ≡ self.old.given + 1) × (self.new.given ≤ self.new.limit))) }
    {
        match self.settled {
            None => {}
            Some(None) => return Ok(None),
            Some(Some(fault)) => return Err(fault),
        }
        let number = self.given + 1;
        match read_row(
            self.alloc,
            &self.decoder,
            &mut self.records,
            &mut self.row,
            &mut self.ids,
            number,
        ) {
            Ok(Some(facts)) => {
                self.given = number;
                Ok(Some(facts))
            }
            Ok(None) => {
                self.settled = Some(None);
                Ok(None)
            }
            Err(fault) => {
                self.settled = Some(Some(fault));
                Err(fault)
            }
        }
    }
}
