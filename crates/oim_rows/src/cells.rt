//! The cells of a record.

ghost use Rattle.std.specs.Prelude.{◌≡◌, ◌<◌, List, ℕ, Some, length, option_map};
ghost use Rattle.std.specs.List.{position_from};
ghost use Rattle.csv.specs.Records.{field_at, fields_of};
ghost use Rattle.oim_rows.specs.RowFacts.{IsTextRecord, field_or_empty, is_not_text};

use csv::ByteRecord;
use oim_records::{Fields, TextFields};

/// A record whose cells can be read. Contracts see the list of their bytes.
pub(crate) trait Cells {
    ghost cells: { Self → List (List ℕ) };

    /// Returns the number of cells.
    fn count(&self) -> usize
        ensures { result ≡ length (cells self.now) };

    /// Returns the cell at an index, or `None` if it does not exist.
    fn cell(&self, place: usize) -> Option<&[u8]>
        ensures { option_map (λ cell. cell.now) result ≡ field_at (cells self.now) place };
}

impl Cells for Fields<'_> {
    ghost cells = { λ fields. fields };

    fn count(&self) -> usize {
        self.len()
    }

    fn cell(&self, place: usize) -> Option<&[u8]> {
        self.get(place)
    }
}

impl Cells for ByteRecord {
    ghost cells = { λ row. fields_of row };

    fn count(&self) -> usize {
        self.len()
    }

    fn cell(&self, place: usize) -> Option<&[u8]> {
        self.get(place)
    }
}

/// Returns the cell at index `i`.
pub(crate) fn field<C: Cells>(row: &C, i: usize) -> &[u8]
    requires { i < length (C.cells row.now) }
    ensures { field_at (C.cells row.now) i ≡ Some result.now }
{
    match row.cell(i) {
        Some(cell) => cell,
        None => unreachable!(),
    }
}

/// Returns whether a cell is not UTF-8.
fn is_not_text(cell: &[u8]) -> bool
    ensures { result ≡ is_not_text cell.now }
{
    match str::from_utf8(cell) {
        Ok(_) => false,
        Err(_) => true,
    }
}

/// Returns the index of the first cell that is not UTF-8, or `None` if each one is.
pub(crate) fn first_not_text<C: Cells>(row: &C) -> Option<usize>
    ensures { result ≡ position_from is_not_text 0 (C.cells row.now) }
{
    for i in 0..row.count() {
        if is_not_text(field(row, i)) {
            return Some(i);
        }
    }
    None
}

/// Returns the text of a cell, or the empty text if the cell does not exist.
pub(crate) fn text_at<C: Cells>(row: &C, place: Option<usize>) -> &str
    requires { IsTextRecord (C.cells row.now) }
    ensures { result.now ≡ field_or_empty (C.cells row.now) place }
{
    match place {
        Some(i) => match row.cell(i) {
            Some(cell) => match str::from_utf8(cell) {
                Ok(text) => text,
                Err(_) => unreachable!(),
            },
            None => "",
        },
        None => "",
    }
}

/// Returns the number of cells of a row whose cells are all text.
#[inline(always)]
pub(crate) fn count_of_texts(row: &TextFields<'_>) -> usize
    ensures count { result ≡ length row.now }
    ensures texts { IsTextRecord row.now }
{
    row.len()
}

/// Returns what `text_at` returns, for a row whose cells are all text.
#[inline(always)]
pub(crate) fn known_text_at<'a>(row: &TextFields<'a>, place: Option<usize>) -> &'a str
    ensures { result.now ≡ field_or_empty row.now place }
{
    match place {
        Some(place) => match row.get(place) {
            Some(text) => text,
            None => "",
        },
        None => "",
    }
}
