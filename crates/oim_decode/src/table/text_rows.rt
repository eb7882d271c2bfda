//! The rows of one table that are not read yet.

ghost use Rattle.std.specs.Prelude.{◌≡◌, ◌⊎◌, ◌≤◌, ◌<◌, ◌+◌, [], Err, IfErr, IfOk, IfSome, IsSome, None, OnErr, OnOk, Some, is_some, length, option_map, true};
ghost use Rattle.std.specs.Prelude.{◌++◌, ◌∷◌, false, not, if◌then◌else◌};
ghost use Rattle.std.specs.List.{list_any};
ghost use Rattle.std.specs.Str.{bytes_eq};
ghost use Rattle.oim_records.specs.Grids.{grid};
ghost use Rattle.oim_rows.specs.Header.{file_fault, file_header_fault};
ghost use Rattle.oim_rows.specs.RowFacts.{id_place_of, ids_after, row_fault, row_result};
ghost use Rattle.oim_rows.specs.Streams.{OrNoMemory, stream_from, stream_of};
ghost use Rattle.oim_rows.specs.state.Streams.{early_row_answer};
ghost use Rattle.oim_decode.specs.state.Blocks.{AddsNone, AddsRow, CountsRow, TakesOne, has_row};
ghost use Rattle.oim_decode.specs.state.Heads.{IsHeaderFault};
ghost use Rattle.oim_json.specs.Blocks.{behind_commas};
ghost use Rattle.oim_rows.specs.declared.fault.TableKind.TheVariants as kind;
ghost use Rattle.oim_decode.specs.state.RowParts.{AddsParts, IsLeft, with_rest};

use crate::table::pending_facts::PendingFacts;
use crate::table::row_rest::RowRest;
use crate::table::row_texts::RowTexts;
use oim_fast::TableRow;
use oim_records::{Fields, ReadFault, RecordReader};
use oim_report::Report;
use oim_rows::{
    RowId, RowIds, TableFault, TableHeader, TableKind, fault_at_place, fault_of_read, whole_fault,
};
use std::alloc::{AllocError, Global};
use std::io::Read;
use std::marker::Model;

/// The rows of one table that are not read yet.
///
/// Contracts see the header, how many rows were read, and the records left in the reader. For a
/// reader whose bytes are known, they also see the stream of the rows that are left.
#[derive(Drop)]
pub(crate) struct TextRows<'a, R: Read + Drop> {
    alloc: Global,
    header: TableHeader<'a>,
    texts: RowTexts<'a>,
    records: RecordReader<R>,
    ids: RowIds,
    // Always empty: a row's own faults are tested without identifiers, and its identifier is
    // compared with `ids` when it is added to them.
    no_ids: RowIds,
    given: u32,
    // The facts of the last row that are not written yet.
    rest: Option<RowRest>,
}

impl<'a, R: Read + Drop> Model for TextRows<'a, R> {
    ghost use Rattle.std.specs.Prelude.{◌≡◌, ◌≤◌, ◌<◌, ◌^◌, ◌-◌, ◌+◌, [], IfSome, IsSome, option_map};
    ghost use Rattle.oim_rows.specs.RowFacts.{IsTextRecord};
    ghost use Rattle.oim_rows.specs.Streams.{stream_from};
    ghost use Rattle.oim_decode.specs.state.Blocks.{RowsUnread};
    ghost use Rattle.oim_decode.specs.state.RowParts.{IsRestOf};

    ghost Value = { RowsUnread };

    ghost view = { λ a. record {
      header = a.header;
      given = a.given;
      left = option_map (stream_from a.header (a.given + 1) a.ids) a.records.left;
      unread = a.records.left;
      rest = a.rest;
    } };

    ghost invariant = { λ a. (a.texts ≡ a.header) × (a.no_ids ≡ []) × (a.given ≤ a.header.limit) × (a.header.limit < 2 ^ 32 - 1)
        × (IsSome a.rest → IsTextRecord a.records.fields) × IfSome a.rest (IsRestOf (record { header = a.header; number = a.given; fields = a.records.fields })) };
}

impl<'a, R: Read + Drop> TextRows<'a, R> {
    /// Opens a table of at most `limit` rows, and reads its header.
    ///
    /// Fails with the header's first fault, with Read if the reader failed, and with Memory if
    /// memory runs out.
    pub(crate) fn open(
        alloc: Global,
        report: &'a Report,
        table: usize,
        reader: R,
        limit: u32,
    ) -> Result<TextRows<'a, R>, TableFault>
        requires place { table < length report.now.tables }
        requires rows { limit ≤ 4294967294 }
        ensures start { IfOk result (λ rows. (rows.header.table ≡ table) × (rows.header.limit ≡ limit) × (rows.given ≡ 0)) }
        ensures closed { IfOk result (λ rows. rows.rest ≡ None) }
        ensures stream { IfSome (R.remaining reader) (λ bytes. IfOk result (λ rows. rows.left ≡ Some (stream_of report.now table limit (grid bytes)))) }
        ensures header { IfSome (R.remaining reader) (λ bytes. IfOk result (λ _. file_header_fault report.now table (grid bytes) ≡ None)) }
        ensures fault { IfSome (R.remaining reader) (λ bytes. IfErr result (IsHeaderFault report.now table bytes)) }
    {
        let mut records = match RecordReader::open(alloc, reader) {
            Ok(records) => records,
            Err(fault) => return Err(fault_of_read(table, fault)),
        };
        let header = match TableHeader::read(alloc, report, table, limit, &mut records) {
            Ok(header) => header,
            Err(fault) => return Err(fault),
        };
        let Ok(texts) = RowTexts::new(alloc, &header) else {
            return Err(whole_fault(table, TableKind::Memory));
        };
        Ok(TextRows {
            alloc,
            header,
            texts,
            records,
            ids: RowIds::new(alloc),
            no_ids: RowIds::new(alloc),
            given: 0,
            rest: None,
        })
    }
}

impl<'a, R: Read + Drop> TextRows<'a, R> {
    /// Continues a table after the first `given` rows, which have the identifiers `ids`, with the
    /// rows that `records` has. Takes no memory.
    pub(crate) fn after(
        alloc: Global,
        header: TableHeader<'a>,
        texts: RowTexts<'a>,
        ids: RowIds,
        given: u32,
        records: RecordReader<R>,
    ) -> TextRows<'a, R>
        requires texts { texts ≡ header }
        requires rows { given ≤ header.limit }
        requires limit { header.limit ≤ 4294967294 }
        ensures header { result.header ≡ header.entry }
        ensures given { result.given ≡ given }
        ensures left { result.left ≡ option_map (stream_from header.entry (given + 1) ids) records.left }
        ensures unread { result.unread ≡ records.left }
        ensures closed { result.rest ≡ None }
    {
        TextRows {
            alloc,
            header,
            texts,
            records,
            ids,
            no_ids: RowIds::new(alloc),
            given,
            rest: None,
        }
    }
}

impl<R: Read + Drop> TextRows<'_, R> {
    /// Returns how many cells a row has, which is the most facts that it can have.
    pub(crate) fn width(&self) -> usize
        ensures value { result ≡ length (self.now).header.columns }
        ensures within { (self.now).given ≤ (self.now).header.limit }
    {
        self.header.columns().len()
    }

    /// Returns the place of the table in its report.
    pub(crate) fn table(&self) -> usize
        ensures { result ≡ (self.now).header.table }
    {
        self.header.table()
    }

    /// Adds the facts of the next row to `facts`. Returns false at the end, and adds nothing then.
    ///
    /// Fails with the row's first fault, with Read if the reader failed, and with Memory if memory
    /// runs out. Then nothing is added.
    pub(crate) fn next_row(&mut self, facts: &mut PendingFacts) -> Result<bool, TableFault>
        requires { self.old.rest ≡ None }
        ensures next { IfSome self.old.left (λ s. AddsRow self.old.header.table s facts.old (with_rest facts.new self.new.rest) result self.new.left) }
        ensures header { self.new.header ≡ self.old.header }
        ensures counts { CountsRow self.old.header.limit result self.old.given self.new.given }
        ensures none { AddsNone result facts.old facts.new self.new.rest }
        ensures long { IsSome self.new.rest → 1048576 < length (behind_commas facts.new) }
        ensures unread { IfSome self.old.unread (λ rs. TakesOne self.old.header.table rs result self.new.unread) }
    {
        let found = self.records.read();
        let number = self.given + 1;
        if let Some(answer) = early_answer(
            &self.header,
            number,
            &self.no_ids,
            found,
            &self.records,
        ) {
            return answer;
        }
        let fields = self.records.fields();
        let Some(texts) = self.records.text_fields() else {
            unreachable!()
        };
        let row = TableRow::new(&self.header, number, &texts);
        match add_row(
            self.alloc,
            &mut self.texts,
            &mut self.ids,
            &row,
            &fields,
            facts,
        ) {
            Ok(rest) => {
                self.given = number;
                self.rest = rest;
                Ok(true)
            }
            Err(fault) => Err(fault),
        }
    }

    /// Returns whether facts of the last row are not written yet.
    pub(crate) fn is_open(&self) -> bool
        ensures value { result ≡ is_some (self.now).rest }
        ensures within { (self.now).given ≤ (self.now).header.limit }
    {
        self.rest.is_some()
    }

    /// Drops the facts of the last row that are not written yet.
    pub(crate) fn close(&mut self)
        ensures { self.new ≡ record self.old { rest = None } }
    {
        self.rest = None;
    }

    /// Adds more facts of the last row, those that are left, until their texts are long again.
    ///
    /// Fails only if memory runs out. Then nothing is added, and nothing is left of the row.
    #[cold]
    pub(crate) fn put_more(&mut self, facts: &mut PendingFacts) -> Result<(), TableFault>
        ensures facts { OnOk result (with_rest facts.new self.new.rest ≡ with_rest facts.old self.old.rest) }
        ensures long { OnOk result (IsSome self.new.rest → 1048576 < length (behind_commas facts.new)) }
        ensures fault { IfErr result (λ e. e ≡ file_fault self.old.header.table kind.Memory) }
        ensures lost { OnErr result ((facts.new ≡ facts.old) × (self.new.rest ≡ None)) }
        ensures same { self.new ≡ record self.old { rest = self.new.rest } }
    {
        let Some(rest) = self.rest.take() else {
            return Ok(());
        };
        let fields = self.records.fields();
        let Some(texts) = self.records.text_fields() else {
            unreachable!()
        };
        let row = TableRow::new(&self.header, self.given, &texts);
        match facts.put_more(self.alloc, &mut self.texts, &row, &fields, &rest) {
            Ok(left) => {
                self.rest = left;
                Ok(())
            }
            Err(fault) => Err(fault),
        }
    }
}

/// Returns the answer for row `number` that needs neither memory nor the earlier rows: the reader's
/// fault, the end, or a fault of the row itself. Returns None if the identifier and the cells must
/// be read.
fn early_answer<R: Read + Drop>(
    header: &TableHeader<'_>,
    number: u32,
    no_ids: &RowIds,
    found: Result<bool, ReadFault>,
    records: &RecordReader<R>,
) -> Option<Result<bool, TableFault>>
    requires { no_ids.now ≡ [] }
    ensures { result ≡ option_map has_row (early_row_answer header.now number [] found records.now.fields) }
{
    match found {
        Ok(true) => {
            let fault = header.fault_of_record(number, no_ids, records)?;
            Some(Err(fault))
        }
        Ok(false) => Some(Ok(false)),
        Err(fault) => Some(Err(fault_of_read(header.table(), fault))),
    }
}

/// Adds an identifier to `ids` unless it is there already, and returns whether it did.
///
/// Fails only if memory runs out and the identifier is new. Then nothing is added.
#[inline(never)]
fn join_id(alloc: Global, text: &str, ids: &mut RowIds) -> Result<bool, AllocError>
    ensures added { IfOk result (λ added. added ≡ not (list_any (bytes_eq text.now) ids.old)) }
    ensures new { OnErr result (list_any (bytes_eq text.now) ids.old ≡ false) }
    ensures ids { IfOk result (λ added. ids.new ≡ (if added then ids.old ++ text.now ∷ [] else ids.old)) }
    ensures same { OnErr result (ids.new ≡ ids.old) }
{
    let added = match RowId::new(alloc, text) {
        Ok(id) => ids.add(id),
        Err(short) => Err(short),
    };
    if added.is_err() && ids.has(text) {
        return Ok(false);
    }
    added
}

/// Adds the identifier of a row to `ids`, if its table has a column for it. Apart from its cells
/// and the earlier rows, the row has no fault.
///
/// Fails with RepeatedRowId if an earlier row has the same identifier, else with Memory if memory
/// runs out. Then nothing is added.
#[inline(always)]
fn keep_id(alloc: Global, row: &TableRow<'_, '_>, ids: &mut RowIds) -> Result<(), TableFault>
    requires { row_fault row.now.header row.now.number [] row.now.fields ≡ None }
    ensures new { OnOk result (row_fault row.now.header row.now.number ids.old row.now.fields ≡ None) }
    ensures added { OnOk result (ids.new ≡ ids_after (id_place_of row.now.header) ids.old row.now.fields) }
    ensures fault { IfErr result (λ fault. OrNoMemory row.now.header.table (Err fault) (row_result row.now.header row.now.number ids.old row.now.fields)) }
    ensures own { IfSome (row_fault row.now.header row.now.number ids.old row.now.fields) (λ fault. result ≡ Err fault) }
    ensures same { OnErr result (ids.new ≡ ids.old) }
{
    let Some(place) = row.header().id_place() else {
        return Ok(());
    };
    match join_id(alloc, row.text_at(Some(place)), ids) {
        Ok(true) => Ok(()),
        Ok(false) => Err(fault_at_place(
            row.table(),
            row.number(),
            place,
            TableKind::RepeatedRowId,
        )),
        Err(_) => Err(whole_fault(row.table(), TableKind::Memory)),
    }
}

/// Adds the facts of a row to `facts`. Apart from its cells and the earlier rows, the row has no
/// fault.
///
/// If it fails, at most the row's identifier was added to `ids`.
#[inline(always)]
fn add_row<'a>(
    alloc: Global,
    texts: &mut RowTexts<'a>,
    ids: &mut RowIds,
    row: &TableRow<'a, '_>,
    fields: &Fields<'_>,
    facts: &mut PendingFacts,
) -> Result<Option<RowRest>, TableFault>
    requires header { row.now.header ≡ texts.old }
    requires fields { fields.now ≡ row.now.fields }
    requires row { row_fault row.now.header row.now.number [] row.now.fields ≡ None }
    ensures facts { AddsParts row.now.header.table (row_result row.now.header row.now.number ids.old row.now.fields) facts.old facts.new result }
    ensures rest { IfOk result (IsLeft row.now facts.new) }
    ensures own { IfSome (row_fault row.now.header row.now.number ids.old row.now.fields) (λ fault. result ≡ Err fault) }
    ensures ids { OnOk result (ids.new ≡ ids_after (id_place_of row.now.header) ids.old row.now.fields) }
    ensures refused { OnErr result ((ids.new ≡ ids.old) ⊎ (ids.new ≡ ids_after (id_place_of row.now.header) ids.old row.now.fields)) }
    ensures same { texts.new ≡ texts.old }
{
    match keep_id(alloc, row, ids) {
        Ok(()) => facts.begin_row(alloc, texts, row, fields),
        Err(fault) => Err(fault),
    }
}
