//! Writing the facts of a row cell by cell.

ghost use Rattle.std.specs.Prelude.{◌≡◌, ◌+◌, ◌<◌, ◌≤◌, ◌++◌, ◌∷◌, [], IfOk, IfSome, OnOk, Some, length, true, vec_capacity, vec_len};
ghost use mathlib.Core.List.{IsPrefix};
ghost use Rattle.oim_cells.specs.Cells.{meaning_of};
ghost use Rattle.oim_resolve.specs.Facts.{is_absent};
ghost use Rattle.oim_rows.specs.RowFacts.{field_or_empty};
ghost use Rattle.oim_fast.specs.state.CellWriters.{IsCellWriter, IsInRow, PutsCell, PutsSaid, column_at};
ghost use Rattle.oim_fast.specs.state.FactTexts.{IsOfReferences};
ghost use Rattle.oim_fast.specs.Facts.{HasPart, WritesFacts, WritesPart};

use crate::frame::fact::put_fact;
use crate::frame::fact_column::{FactColumn, fact_columns};
use crate::frame::fact_start::FactStart;
use crate::frame::frame_maker::FrameMaker;
use crate::frame::frame_text::FrameText;
use crate::frame::frames::Frames;
use crate::frame::value::{FastValue, ValueMemory, quick_value, rare_value};
use oim_cells::{CellMeaning, meaning};
use oim_row::{GroupCells, References, TableRow};
use oim_rows::TableHeader;
use oim_text::TextBuffer;
use std::alloc::{AllocError, Global};

/// What is prepared for the cells of a table's rows.
#[derive(Drop)]
pub(crate) struct CellWriter<'a> {
    pub(crate) columns: Vec<FactColumn<'a>>,
    pub(crate) maker: FrameMaker<'a>,
    pub(crate) frames: Frames,
    pub(crate) start: FactStart,
    /// For values of rare forms.
    pub(crate) value: ValueMemory,
}

/// Records the end of a text, if one was written after the first `before` bytes. The list has spare
/// capacity.
#[inline(always)]
fn note_end(before: usize, end: usize, ends: &mut Vec<usize>)
    requires { vec_len ends.old < vec_capacity ends.old }
    ensures more { before < end → ends.new.items ≡ ends.old.items ++ end ∷ [] }
    ensures none { end ≤ before → ends.new.items ≡ ends.old.items }
    ensures len { vec_len ends.new ≤ vec_len ends.old + 1 }
    ensures capacity { vec_capacity ends.new ≡ vec_capacity ends.old }
{
    if before < end {
        ends.push_reserved(end);
    }
}

/// A loop over the cells of a whole row. `put_cell` is large, and a proved program calls what is
/// large unless one place has it. So each of the three loops has a `put_cell` of its own.
///
/// Without it, by a call for each cell: `positions` +2.4 %, `ids` +2.2 %, `mixed` +2.1 %.
struct WholeRow;

/// A loop over the cells of a part of a row.
struct RowPart;

/// A loop over cells that are only tested.
struct RowTest;

/// Returns whether the cell at a place has no fact, so that nothing else of its column matters.
#[cold]
#[inline(never)]
fn has_none(row: &TableRow<'_, '_>, place: usize) -> bool
    ensures { result ≡ is_absent (meaning_of (field_or_empty row.now.fields (Some place))) }
{
    matches!(meaning(row.text_at(Some(place))), CellMeaning::Absent)
}

/// Appends the fact of a cell of any form, if it has one. Its text begins with `start`; a value is
/// copied to `memory`. Returns false, and appends nothing, if the fast way leaves it.
#[inline(never)]
fn put_rare(
    row: &TableRow<'_, '_>,
    frame: &FrameText,
    references: &References<'_>,
    start: &TextBuffer,
    cell: &str,
    memory: &mut ValueMemory,
    out: &mut TextBuffer,
) -> Result<bool, AllocError>
    requires { IsOfReferences (length references.now) frame.now }
    ensures { PutsSaid row.now references.now frame.now start.now.items cell.now out.old.items out.new.items result }
{
    match rare_value(row, frame.kind, cell, memory)? {
        FastValue::Value(value) => put_fact(frame, references, start, &value, out),
        FastValue::NoFact => Ok(true),
        FastValue::Unknown => Ok(false),
    }
}

/// Returns how many property groups the template of a header's table has.
fn groups_in(header: &TableHeader<'_>) -> usize {
    let mut count = 0usize;
    for column in header.report().template_columns(header.table()) {
        count = count.saturating_add(column.groups.len());
    }
    count
}

impl<'a> CellWriter<'a> {
    /// Prepares the cells of the rows under a header.
    pub(crate) fn new(alloc: Global, header: &TableHeader<'a>) -> Result<CellWriter<'a>, AllocError>
        ensures { IfOk result (IsCellWriter header.now) }
    {
        let mut cells = GroupCells::new(alloc);
        let columns = fact_columns(alloc, header, &mut cells)?;
        let maker = FrameMaker::new(alloc, cells);
        let frames = Frames::new(alloc, groups_in(header));
        let start = FactStart::new(alloc, header)?;
        Ok(CellWriter {
            columns,
            maker,
            frames,
            start,
            value: ValueMemory::new(alloc),
        })
    }

    /// Moves to a row.
    #[inline(always)]
    pub(crate) fn refresh(
        &mut self,
        alloc: Global,
        row: &TableRow<'a, '_>,
    ) -> Result<(), AllocError>
        requires { IsCellWriter row.now.header self.old }
        ensures header { IsCellWriter row.now.header self.new }
        ensures row { OnOk result (IsInRow row.now self.new) }
    {
        // For the proof: the number of a row is below 2^32.
        let _number = row.number();
        self.maker.refresh(alloc, row)?;
        self.start.read(row)?;
        Ok(())
    }

    /// Appends the fact of the current row in the column at a place, with a comma before it, if it
    /// has one. Returns false, and appends nothing, if the fast way leaves it.
    #[inline(always)]
    fn put_cell<Loop>(
        &mut self,
        alloc: Global,
        row: &TableRow<'a, '_>,
        i: usize,
        out: &mut TextBuffer,
    ) -> Result<bool, AllocError>
        requires row { IsInRow row.now self.old }
        requires within { i < length self.old.columns.items }
        ensures row { IsInRow row.now self.new }
        ensures cell { PutsCell row.now (column_at row.now.header i) out.old.items out.new.items result }
    {
        let column = &mut self.columns[i];
        let place = column.place;
        let (bytes, size) = row.bytes_at(place);
        if size == 0 {
            return Ok(true);
        }
        let Some(at) = self.frames.frame_for(alloc, row, column, &mut self.maker)? else {
            if has_none(row, place) {
                return Ok(true);
            }
            return Ok(false);
        };
        let Some(frame) = self.frames.text(at) else {
            if has_none(row, place) {
                return Ok(true);
            }
            return Ok(false);
        };
        let references = &self.maker.references;
        let start = &self.start.start;
        if let Some(value) = quick_value(row, place, frame.form, bytes, size) {
            return put_fact(frame, references, start, &value, out);
        }
        let cell = row.text_at(Some(place));
        put_rare(row, frame, references, start, cell, &mut self.value, out)
    }

    /// Appends the text of each fact of the current row with a comma before it, and where each
    /// ends. Returns false if the fast way leaves the row.
    ///
    /// After false, or if memory runs out, more text may follow the old one.
    #[inline(always)]
    pub(crate) fn put_cells(
        &mut self,
        alloc: Global,
        row: &TableRow<'a, '_>,
        out: &mut TextBuffer,
        ends: &mut Vec<usize>,
    ) -> Result<bool, AllocError>
        requires { IsInRow row.now self.old }
        ensures header { IsCellWriter row.now.header self.new }
        ensures front { IsPrefix out.old.items out.new.items × IsPrefix ends.old.items ends.new.items }
        ensures facts { IfOk result (λ written. written ≡ true → WritesFacts row.now out.old.items out.new.items ends.old.items ends.new.items) }
    {
        let count = self.columns.len();
        ends.reserve(count)?;
        for i in 0..count {
            let before = out.len();
            let done = self.put_cell::<WholeRow>(alloc, row, i, out)?;
            if !done {
                return Ok(false);
            }
            let end = out.len();
            note_end(before, end, ends);
        }
        Ok(true)
    }

    /// Appends the facts of the current row in the columns of facts from index `from` on, each with
    /// a comma before it, and where each ends, until the text is longer than `most`. Returns the
    /// index of the next column, or None if the fast way leaves the row.
    ///
    /// After None, or if memory runs out, more text may follow the old one.
    #[inline(always)]
    pub(crate) fn put_part(
        &mut self,
        alloc: Global,
        row: &TableRow<'a, '_>,
        from: usize,
        most: usize,
        out: &mut TextBuffer,
        ends: &mut Vec<usize>,
    ) -> Result<Option<usize>, AllocError>
        requires row { IsInRow row.now self.old }
        requires from { from ≤ length self.old.columns.items }
        ensures header { IsCellWriter row.now.header self.new }
        ensures front { IsPrefix out.old.items out.new.items × IsPrefix ends.old.items ends.new.items }
        ensures facts { IfOk result (λ o. IfSome o (λ next. WritesPart row.now from next out.old.items out.new.items ends.old.items ends.new.items)) }
        ensures long { IfOk result (λ o. IfSome o (λ next. next < length self.old.columns.items → most < length out.new.items)) }
    {
        let count = self.columns.len();
        ends.reserve(count - from)?;
        for i in from..count {
            let before = out.len();
            let done = self.put_cell::<RowPart>(alloc, row, i, out)?;
            if !done {
                return Ok(None);
            }
            let end = out.len();
            note_end(before, end, ends);
            if end > most {
                return Ok(Some(i + 1));
            }
        }
        Ok(Some(count))
    }

    /// Returns whether the fast way writes the facts of the current row in the columns of facts
    /// from index `from` on. Each is written after `out` and taken back.
    ///
    /// After false, or if memory runs out, more text may follow the old one.
    pub(crate) fn writes_part(
        &mut self,
        alloc: Global,
        row: &TableRow<'a, '_>,
        from: usize,
        out: &mut TextBuffer,
    ) -> Result<bool, AllocError>
        requires row { IsInRow row.now self.old }
        requires from { from ≤ length self.old.columns.items }
        ensures header { IsCellWriter row.now.header self.new }
        ensures text { out.new.items ≡ out.old.items }
        ensures facts { IfOk result (λ written. written ≡ true → HasPart row.now from) }
    {
        for i in from..self.columns.len() {
            let before = out.len();
            let done = self.put_cell::<RowTest>(alloc, row, i, out)?;
            if !done {
                return Ok(false);
            }
            out.truncate(before);
        }
        Ok(true)
    }
}
