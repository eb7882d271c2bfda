//! The fast way from a row to the texts of its facts.

ghost use Rattle.std.specs.Prelude.{◌≡◌, ◌<◌, ◌≤◌, IfOk, IfSome, length, true};
ghost use mathlib.Core.List.{IsPrefix};
ghost use Rattle.oim_fast.specs.Facts.{HasPart, WritesFacts, WritesPart, fact_columns_in};

use crate::table::cell_writer::CellWriter;
use ghost_value::GhostValue;
use oim_row::TableRow;
use oim_rows::TableHeader;
use oim_text::TextBuffer;
use std::alloc::{AllocError, Global};
use std::marker::Model;

/// The writer of the facts of a table's rows.
///
/// Contracts see the table's header.
pub struct RowWriter<'a> {
    header: GhostValue<TableHeader<'a>>,
    cells: CellWriter<'a>,
}

// Written by hand so that dropping one elsewhere compiles to a single call.
impl Drop for RowWriter<'_> {
    fn drop(self) {
        let Self {
            header: _,
            cells: _,
        } = self;
    }
}

impl<'a> Model for RowWriter<'a> {
    ghost use Rattle.oim_rows.specs.RowFacts.{TableHeaderValue};
    ghost use Rattle.oim_fast.specs.state.CellWriters.{IsCellWriter};

    ghost Value = { TableHeaderValue };

    ghost view = { λ a. a.header.value };

    ghost invariant = { λ a. IsCellWriter a.header.value a.cells };
}

impl<'a> RowWriter<'a> {
    /// Prepares the writer for the rows under a header.
    pub fn new(alloc: Global, header: &TableHeader<'a>) -> Result<RowWriter<'a>, AllocError>
        ensures { IfOk result (λ w. w ≡ header.now) }
    {
        Ok(RowWriter {
            header: GhostValue::seen(header),
            cells: CellWriter::new(alloc, header)?,
        })
    }

    /// Appends the text of each fact of a row with a comma before it (xBRL-JSON 1.0), and where
    /// each ends, in bytes from the start of the text.
    ///
    /// Returns false if the fast way leaves the row: if the row has a fault, or is good but of a
    /// rare form. After false, or if memory runs out, more may follow the old items of both lists;
    /// the caller must cut it off.
    pub fn put_row(
        &mut self,
        alloc: Global,
        row: &TableRow<'a, '_>,
        out: &mut TextBuffer,
        ends: &mut Vec<usize>,
    ) -> Result<bool, AllocError>
        requires { row.now.header ≡ self.old }
        ensures same { self.new ≡ self.old }
        ensures front { IsPrefix out.old.items out.new.items × IsPrefix ends.old.items ends.new.items }
        ensures facts { IfOk result (λ written. written ≡ true → WritesFacts row.now out.old.items out.new.items ends.old.items ends.new.items) }
    {
        self.cells.refresh(alloc, row)?;
        self.cells.put_cells(alloc, row, out, ends)
    }

    /// Returns how many columns of facts the header names.
    pub fn columns(&self) -> usize
        ensures { result ≡ length (fact_columns_in self.now self.now.columns) }
    {
        self.cells.columns.len()
    }

    /// Appends the facts of a row in the columns of facts from index `from` on as `put_row` does,
    /// until the text is longer than `most`. Returns the index of the next column.
    ///
    /// Returns None if the fast way leaves the row. After None, or if memory runs out, more may
    /// follow the old items of both lists; the caller must cut it off.
    pub fn put_part(
        &mut self,
        alloc: Global,
        row: &TableRow<'a, '_>,
        from: usize,
        most: usize,
        out: &mut TextBuffer,
        ends: &mut Vec<usize>,
    ) -> Result<Option<usize>, AllocError>
        requires header { row.now.header ≡ self.old }
        requires from { from ≤ length (fact_columns_in row.now.header row.now.header.columns) }
        ensures same { self.new ≡ self.old }
        ensures front { IsPrefix out.old.items out.new.items × IsPrefix ends.old.items ends.new.items }
        ensures facts { IfOk result (λ o. IfSome o (λ next. WritesPart row.now from next out.old.items out.new.items ends.old.items ends.new.items)) }
        ensures long { IfOk result (λ o. IfSome o (λ next. next < length (fact_columns_in row.now.header row.now.header.columns) → most < length out.new.items)) }
    {
        self.cells.refresh(alloc, row)?;
        self.cells.put_part(alloc, row, from, most, out, ends)
    }

    /// Returns whether the fast way writes the facts of a row in the columns of facts from index
    /// `from` on. Each is written after the text of `out` and taken back.
    pub fn writes_part(
        &mut self,
        alloc: Global,
        row: &TableRow<'a, '_>,
        from: usize,
        out: &mut TextBuffer,
    ) -> Result<bool, AllocError>
        requires header { row.now.header ≡ self.old }
        requires from { from ≤ length (fact_columns_in row.now.header row.now.header.columns) }
        ensures same { self.new ≡ self.old }
        ensures text { out.new.items ≡ out.old.items }
        ensures facts { IfOk result (λ written. written ≡ true → HasPart row.now from) }
    {
        self.cells.refresh(alloc, row)?;
        self.cells.writes_part(alloc, row, from, out)
    }
}
