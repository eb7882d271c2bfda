//! Turns the cells of a row into its facts.

ghost use Rattle.std.specs.Prelude.{◌≡◌, ◌<◌, Err, IfErr, IfOk, IfSome, IsOk, OnOk, length, map};
ghost use Rattle.std.specs.List.{range_with_len};
ghost use Rattle.std.specs.String.{string_bytes};
ghost use Rattle.oim_report.specs.Readers.{columns_of};
ghost use Rattle.oim_rows.specs.RowFacts.{IsTextRecord, fact_at, facts_from, field_or_empty};
ghost use Rattle.oim_rows.specs.state.RowFacts.{early_fact_at};
ghost use Rattle.oim_rows.specs.RowFacts.{id_place_of, is_fact_column, row_id_text, row_of, source_of_column};
ghost use Rattle.oim_rows.specs.Streams.{OrNoMemory};

use crate::cells::{Cells, text_at};
use crate::fault::{TableFault, TableKind, fault_at_place, whole_fault};
use crate::table_header::{TableHeader, push_row_number};
use oim_names::{Items, Text};
use oim_records::Fields;
use oim_report::Column;
use oim_resolve::{CellFault, Fact, Row, resolve};
use std::alloc::{AllocError, Global};
use std::marker::Model;
use std::snapshot::Snapshot;

/// What turns the cells of a row under a header into its facts. A contract sees the header.
#[derive(Drop)]
pub struct RowPlan<'a> {
    columns: &'a [Column],
    // the index in the header of each column of the template
    sources: Vec<Option<usize>>,
    header: Snapshot<TableHeader<'a>>,
}

impl<'a> Model for RowPlan<'a> {
    ghost use Rattle.oim_rows.specs.RowFacts.{TableHeaderValue};
    ghost use Rattle.oim_rows.specs.state.Decoding.{IsOfTable};

    ghost Value = { TableHeaderValue };

    ghost view = { λ a. a.header.value };

    ghost invariant = { λ a. IsOfTable a.header.value a.columns.now a.sources.items };
}

/// Returns the index in the header of each of the first `columns` columns.
fn sources_of(
    alloc: Global,
    header: &TableHeader<'_>,
    columns: usize,
) -> Result<Vec<Option<usize>>, AllocError>
    ensures { IfOk result (λ s. s.items ≡ map (source_of_column header.now.columns) (range_with_len 0 columns)) }
{
    let mut sources = Vec::new(alloc);
    for column in 0..columns {
        sources.push(header.source(column))?;
    }
    Ok(sources)
}

/// Returns the cells at these indexes of the header.
fn cells_of<C: Cells>(
    alloc: Global,
    sources: &[Option<usize>],
    row: &C,
) -> Result<Items<Text>, AllocError>
    requires { IsTextRecord (C.cells row.now) }
    ensures { IfOk result (λ cells. cells ≡ map (field_or_empty (C.cells row.now)) sources.now) }
{
    let mut cells = Items::from_vec(Vec::with_capacity(alloc, sources.len())?);
    for source in sources {
        cells.push(Text::from_str(alloc, text_at(row, *source))?)?;
    }
    Ok(cells)
}

/// Returns whether the column at an index holds facts.
fn is_fact(columns: &[Column], column: usize) -> bool
    ensures { result ≡ is_fact_column columns.now column }
{
    match columns.get(column) {
        Some(column) => column.kind.holds_facts(),
        None => false,
    }
}

/// Returns the identifier of row `number`.
fn id_text<C: Cells>(
    alloc: Global,
    header: &TableHeader<'_>,
    number: u32,
    row: &C,
) -> Result<String, AllocError>
    requires { IsTextRecord (C.cells row.now) }
    ensures { IfOk result (λ id. string_bytes id ≡ row_id_text (id_place_of header.now) number (C.cells row.now)) }
{
    match header.id_place() {
        Some(place) => String::from_str(alloc, text_at(row, Some(place))),
        None => {
            let mut id = String::new(alloc);
            push_row_number(&mut id, number)?;
            Ok(id)
        }
    }
}

impl<'a> RowPlan<'a> {
    /// Makes the plan for the rows under `header`.
    pub fn new(alloc: Global, header: &TableHeader<'a>) -> Result<RowPlan<'a>, AllocError>
        ensures { IfOk result (λ p. p ≡ header.now) }
    {
        let columns = header.report().template_columns(header.table());
        let sources = sources_of(alloc, header, columns.len())?;
        Ok(RowPlan {
            columns,
            sources,
            header: Snapshot::of(header),
        })
    }
}

impl RowPlan<'_> {
    /// Copies a record into a row, with a cell for each column of the template.
    fn row<C: Cells>(
        &self,
        alloc: Global,
        header: &TableHeader<'_>,
        number: u32,
        row: &C,
    ) -> Result<Row, AllocError>
        requires header { header.now ≡ self.now }
        requires texts { IsTextRecord (C.cells row.now) }
        ensures { IfOk result (λ r. r ≡ row_of self.now number (C.cells row.now)) }
    {
        let id = id_text(alloc, header, number, row)?;
        let cells = cells_of(alloc, self.sources.as_slice(), row)?;
        Ok(Row::new(number, Text::new(id), cells))
    }

    /// Returns the fact under one header cell of a row.
    ///
    /// If one of the first two steps of its cell settles the result, it does not depend on memory.
    fn fact_of_cell(
        &self,
        alloc: Global,
        header: &TableHeader<'_>,
        row: &Row,
        place: usize,
        column: Option<usize>,
    ) -> Result<Option<Fact>, TableFault>
        requires header { header.now ≡ self.now }
        requires cells { length row.now.cells ≡ length (columns_of (self.now).report (self.now).table) }
        ensures fact { OrNoMemory (self.now).table result (fact_at (self.now).report (self.now).table row.now place column) }
        ensures early { IfSome (early_fact_at (self.now).report (self.now).table row.now place column) (λ answer. result ≡ answer) }
    {
        let Some(column) = column else {
            return Ok(None);
        };
        if !is_fact(self.columns, column) {
            return Ok(None);
        }
        let table = header.table();
        match resolve(alloc, header.report(), table, row, column) {
            Ok(fact) => Ok(fact),
            Err(CellFault::Memory) => Err(whole_fault(table, TableKind::Memory)),
            Err(fault) => Err(fault_at_place(table, row.number, place, TableKind::Cell(fault))),
        }
    }

    /// Returns the facts of a row in header order.
    ///
    /// Returns the fault of the first cell that has one, or Memory if memory runs out.
    fn facts_of_row(
        &self,
        alloc: Global,
        header: &TableHeader<'_>,
        row: &Row,
    ) -> Result<Items<Fact>, TableFault>
        requires header { header.now ≡ self.now }
        requires cells { length row.now.cells ≡ length (columns_of (self.now).report (self.now).table) }
        ensures { OrNoMemory (self.now).table result (facts_from (self.now).report (self.now).table row.now 0 (self.now).columns) }
    {
        let columns = header.columns();
        let most = columns.len().min(self.columns.len());
        let Ok(room) = Vec::with_capacity(alloc, most) else {
            return Err(whole_fault(header.table(), TableKind::Memory));
        };
        let mut facts = Items::from_vec(room);
        for i in 0..columns.len() {
            if let Some(fact) = self.fact_of_cell(alloc, header, row, i, columns[i])? {
                if facts.push(fact).is_err() {
                    return Err(whole_fault(header.table(), TableKind::Memory));
                }
            }
        }
        Ok(facts)
    }

    /// Tests the cells of a row one by one, and keeps no fact.
    ///
    /// Returns the fault of the first cell that has one, or Memory if memory runs out.
    fn check_cells(
        &self,
        alloc: Global,
        header: &TableHeader<'_>,
        row: &Row,
    ) -> Result<(), TableFault>
        requires header { header.now ≡ self.now }
        requires cells { length row.now.cells ≡ length (columns_of (self.now).report (self.now).table) }
        ensures good { OnOk result (IsOk (facts_from (self.now).report (self.now).table row.now 0 (self.now).columns)) }
        ensures fault { IfErr result (λ e. OrNoMemory (self.now).table (Err e) (facts_from (self.now).report (self.now).table row.now 0 (self.now).columns)) }
    {
        let columns = header.columns();
        for i in 0..columns.len() {
            self.fact_of_cell(alloc, header, row, i, columns[i])?;
        }
        Ok(())
    }

    /// Tests the cells of row `number` as `facts` does, and keeps no fact. The `csv` crate reads
    /// the row again from the file's bytes.
    ///
    /// Returns the fault of the first cell that has one, or Memory if memory runs out.
    pub fn check(
        &self,
        alloc: Global,
        header: &TableHeader<'_>,
        number: u32,
        row: &Fields<'_>,
    ) -> Result<(), TableFault>
        requires header { header.now ≡ self.now }
        requires texts { IsTextRecord row.now }
        ensures good { OnOk result (IsOk (facts_from (self.now).report (self.now).table (row_of self.now number row.now) 0 (self.now).columns)) }
        ensures fault { IfErr result (λ e. OrNoMemory (self.now).table (Err e) (facts_from (self.now).report (self.now).table (row_of self.now number row.now) 0 (self.now).columns)) }
    {
        let Ok(record) = row.read_by_csv(alloc) else {
            return Err(whole_fault(header.table(), TableKind::Memory));
        };
        let Ok(cells) = self.row(alloc, header, number, &record) else {
            return Err(whole_fault(header.table(), TableKind::Memory));
        };
        self.check_cells(alloc, header, &cells)
    }

    /// Returns the facts of the cells of row `number`, in header order. It does not look for faults
    /// of the row itself, so not for those of its identifier either. The `csv` crate reads the row
    /// again from the file's bytes.
    ///
    /// Returns the fault of the first cell that has one, or Memory if memory runs out.
    pub fn facts(
        &self,
        alloc: Global,
        header: &TableHeader<'_>,
        number: u32,
        row: &Fields<'_>,
    ) -> Result<Items<Fact>, TableFault>
        requires header { header.now ≡ self.now }
        requires texts { IsTextRecord row.now }
        ensures { OrNoMemory (self.now).table result (facts_from (self.now).report (self.now).table (row_of self.now number row.now) 0 (self.now).columns) }
    {
        match row.read_by_csv(alloc) {
            Ok(record) => self.facts_of_cells(alloc, header, number, &record),
            Err(_) => Err(whole_fault(header.table(), TableKind::Memory)),
        }
    }

    /// Returns what `facts` returns, for a row of any kind.
    pub(crate) fn facts_of_cells<C: Cells>(
        &self,
        alloc: Global,
        header: &TableHeader<'_>,
        number: u32,
        row: &C,
    ) -> Result<Items<Fact>, TableFault>
        requires header { header.now ≡ self.now }
        requires texts { IsTextRecord (C.cells row.now) }
        ensures { OrNoMemory (self.now).table result (facts_from (self.now).report (self.now).table (row_of self.now number (C.cells row.now)) 0 (self.now).columns) }
    {
        let Ok(cells) = self.row(alloc, header, number, row) else {
            return Err(whole_fault(header.table(), TableKind::Memory));
        };
        self.facts_of_row(alloc, header, &cells)
    }
}
