//! From a row of a table to the texts of its facts, by the fast or the plain way.

ghost use Rattle.std.specs.Prelude.{◌≡◌, Err, IfErr, IfOk, IfSome};
ghost use mathlib.Core.List.{IsPrefix};
ghost use Rattle.oim_fast.specs.Facts.{WritesFacts, facts_of_row};
ghost use Rattle.oim_rows.specs.RowFacts.{IsTextRecord};
ghost use Rattle.oim_rows.specs.Streams.{OrNoMemory};
ghost use Rattle.oim_rows.specs.Header.{file_fault};
ghost use Rattle.oim_rows.specs.declared.fault.TableKind.TheVariants as kind;
ghost use Rattle.oim_decode.specs.state.RowParts.{BeginsTexts, ContinuesTexts, IsRestOf};

use crate::table::plain_rows::PlainRows;
use crate::table::row_rest::RowRest;
use oim_fast::{RowWriter, TableRow, TextBuffer};
use oim_records::Fields;
use oim_rows::{TableFault, TableHeader, TableKind, whole_fault};
use std::alloc::{AllocError, Global};
use std::marker::Model;

/// The length, in bytes, after which a text gets no further fact of a row at once.
const LONG: usize = 1_048_576;

/// The most facts of a row that is always written at once.
/// Without it: `positions` +1.1 %, `ids` +0.9 %, `mixed` +0.8 %, `datapoints` +0.6 %.
const FEW: usize = 16;

/// How the rows of a table become the texts of their facts.
///
/// Contracts see the table's header.
#[derive(Drop)]
pub(crate) struct RowTexts<'a> {
    fast: RowWriter<'a>,
    plain: PlainRows<'a>,
}

impl<'a> Model for RowTexts<'a> {
    ghost use Rattle.std.specs.Prelude.{◌≡◌};
    ghost use Rattle.oim_rows.specs.RowFacts.{TableHeaderValue};

    ghost Value = { TableHeaderValue };

    ghost view = { λ a. a.fast };

    ghost invariant = { λ a. a.plain ≡ a.fast };
}

impl<'a> RowTexts<'a> {
    /// Prepares both ways for the rows of a table.
    pub(crate) fn new(alloc: Global, header: &TableHeader<'a>) -> Result<RowTexts<'a>, AllocError>
        ensures { IfOk result (λ texts. texts ≡ header.now) }
    {
        Ok(RowTexts {
            fast: RowWriter::new(alloc, header)?,
            plain: PlainRows::new(header),
        })
    }

    /// Appends the texts of a row's facts in header order, each with a comma before it, and records
    /// where each ends.
    ///
    /// Fails with the fault of the row's first faulty cell, and with Memory if memory runs out.
    /// Then the old text stays, perhaps with more after it.
    pub(crate) fn put_row(
        &mut self,
        alloc: Global,
        row: &TableRow<'a, '_>,
        fields: &Fields<'_>,
        out: &mut TextBuffer,
        ends: &mut Vec<usize>,
    ) -> Result<(), TableFault>
        requires header { row.now.header ≡ self.old }
        requires fields { fields.now ≡ row.now.fields }
        requires texts { IsTextRecord fields.now }
        ensures facts { IfOk result (λ _. WritesFacts row.now out.old.items out.new.items ends.old.items ends.new.items) }
        ensures fault { IfErr result (λ e. OrNoMemory row.now.header.table (Err e) (facts_of_row row.now)) }
        ensures front { IsPrefix out.old.items out.new.items × IsPrefix ends.old.items ends.new.items }
        ensures same { self.new ≡ self.old }
    {
        let length = out.len();
        let count = ends.len();
        match self.fast.put_row(alloc, row, out, ends) {
            Ok(true) => return Ok(()),
            Ok(false) => {}
            Err(_) => return Err(whole_fault(row.table(), TableKind::Memory)),
        }
        out.truncate(length);
        ends.truncate(count);
        self.plain.put_row(alloc, row, fields, out, ends)
    }

    /// Appends the texts of a row's facts as `put_row` does. If the text becomes long, it stops
    /// after a fact and only tests the other cells. Then it returns the index of the next column
    /// of facts.
    ///
    /// Fails as `put_row` does.
    #[inline(always)]
    pub(crate) fn begin_row(
        &mut self,
        alloc: Global,
        row: &TableRow<'a, '_>,
        fields: &Fields<'_>,
        out: &mut TextBuffer,
        ends: &mut Vec<usize>,
    ) -> Result<Option<usize>, TableFault>
        requires header { row.now.header ≡ self.old }
        requires fields { fields.now ≡ row.now.fields }
        requires texts { IsTextRecord fields.now }
        ensures facts { IfOk result (λ next. BeginsTexts row.now next out.old.items out.new.items ends.old.items ends.new.items) }
        ensures fault { IfErr result (λ e. OrNoMemory row.now.header.table (Err e) (facts_of_row row.now)) }
        ensures front { IsPrefix out.old.items out.new.items × IsPrefix ends.old.items ends.new.items }
        ensures same { self.new ≡ self.old }
    {
        let length = out.len();
        let count = ends.len();
        match self.begin_fast(alloc, row, out, ends) {
            Ok(Some(next)) => return Ok(next),
            Ok(None) => {}
            Err(_) => return Err(whole_fault(row.table(), TableKind::Memory)),
        }
        out.truncate(length);
        ends.truncate(count);
        match self.plain.put_row(alloc, row, fields, out, ends) {
            Ok(()) => {}
            Err(fault) => return Err(fault),
        }
        Ok(None)
    }

    /// Begins a row as `begin_row` does, or returns None if the fast way leaves it. Then more may
    /// follow the old items of both lists. A row of few facts is not tested: it is written at once.
    #[inline(always)]
    fn begin_fast(
        &mut self,
        alloc: Global,
        row: &TableRow<'a, '_>,
        out: &mut TextBuffer,
        ends: &mut Vec<usize>,
    ) -> Result<Option<Option<usize>>, AllocError>
        requires header { row.now.header ≡ self.old }
        ensures facts { IfOk result (λ o. IfSome o (λ next. BeginsTexts row.now next out.old.items out.new.items ends.old.items ends.new.items)) }
        ensures front { IsPrefix out.old.items out.new.items × IsPrefix ends.old.items ends.new.items }
        ensures same { self.new ≡ self.old }
    {
        if self.fast.columns() <= FEW {
            self.put_few(alloc, row, out, ends)
        } else {
            self.begin_long(alloc, row, out, ends)
        }
    }

    /// Writes a row as a whole, as `begin_fast` may.
    #[inline(always)]
    fn put_few(
        &mut self,
        alloc: Global,
        row: &TableRow<'a, '_>,
        out: &mut TextBuffer,
        ends: &mut Vec<usize>,
    ) -> Result<Option<Option<usize>>, AllocError>
        requires header { row.now.header ≡ self.old }
        ensures facts { IfOk result (λ o. IfSome o (λ next. BeginsTexts row.now next out.old.items out.new.items ends.old.items ends.new.items)) }
        ensures front { IsPrefix out.old.items out.new.items × IsPrefix ends.old.items ends.new.items }
        ensures same { self.new ≡ self.old }
    {
        if self.fast.put_row(alloc, row, out, ends)? {
            Ok(Some(None))
        } else {
            Ok(None)
        }
    }

    /// Begins a row whose facts may be many, as `begin_fast` does.
    #[inline(never)]
    fn begin_long(
        &mut self,
        alloc: Global,
        row: &TableRow<'a, '_>,
        out: &mut TextBuffer,
        ends: &mut Vec<usize>,
    ) -> Result<Option<Option<usize>>, AllocError>
        requires header { row.now.header ≡ self.old }
        ensures facts { IfOk result (λ o. IfSome o (λ next. BeginsTexts row.now next out.old.items out.new.items ends.old.items ends.new.items)) }
        ensures front { IsPrefix out.old.items out.new.items × IsPrefix ends.old.items ends.new.items }
        ensures same { self.new ≡ self.old }
    {
        let most = out.len().saturating_add(LONG);
        let Some(next) = self.fast.put_part(alloc, row, 0, most, out, ends)? else {
            return Ok(None);
        };
        if next >= self.fast.columns() {
            return Ok(Some(None));
        }
        if !self.fast.writes_part(alloc, row, next, out)? {
            return Ok(None);
        }
        Ok(Some(Some(next)))
    }

    /// Appends more of the texts of a row's facts, those that are left, until the text is long
    /// again. Returns the index of the next column of facts, or None if the row is complete.
    ///
    /// Fails only if memory runs out. Then the old text stays, perhaps with more after it.
    pub(crate) fn put_more(
        &mut self,
        alloc: Global,
        row: &TableRow<'a, '_>,
        fields: &Fields<'_>,
        rest: &RowRest,
        out: &mut TextBuffer,
        ends: &mut Vec<usize>,
    ) -> Result<Option<usize>, TableFault>
        requires header { row.now.header ≡ self.old }
        requires fields { fields.now ≡ row.now.fields }
        requires texts { IsTextRecord fields.now }
        requires rest { IsRestOf row.now rest.now }
        ensures facts { IfOk result (λ next. ContinuesTexts row.now rest.now next out.old.items out.new.items ends.old.items ends.new.items) }
        ensures fault { IfErr result (λ e. e ≡ file_fault row.now.header.table kind.Memory) }
        ensures front { IsPrefix out.old.items out.new.items × IsPrefix ends.old.items ends.new.items }
        ensures same { self.new ≡ self.old }
    {
        let length = out.len();
        let count = ends.len();
        let most = length.saturating_add(LONG);
        match self.fast.put_part(alloc, row, rest.next(), most, out, ends) {
            Ok(Some(next)) => {
                if next < self.fast.columns() {
                    return Ok(Some(next));
                }
                return Ok(None);
            }
            Ok(None) => {}
            Err(_) => return Err(whole_fault(row.table(), TableKind::Memory)),
        }
        out.truncate(length);
        ends.truncate(count);
        let written = rest.written();
        match self.plain.put_rest(alloc, row, fields, written, out, ends) {
            Ok(()) => {}
            Err(fault) => return Err(fault),
        }
        Ok(None)
    }
}
