//! Calls of `oim_row`.

use crate::held::{Library, holds};
use oim_cells::meaning;
use oim_meta::Report;
use oim_records::RecordReader;
use oim_row::{Answer, Choice, GroupCell, GroupCells, Purpose, TableRow};
use oim_rows::TableHeader;
use oim_text::TextBuffer;
use std::alloc::{AllocError, Global};

/// Returns the decimals that the cell at a place states, as the text of a fact has them.
///
/// Returns `None` if they have a fault.
fn decimals_at(
    alloc: Global,
    row: &TableRow<'_, '_>,
    place: usize,
) -> Result<Option<TextBuffer>, AllocError> {
    let mut answer = Answer::new(alloc);
    let said = meaning(row.text_at(Some(place)));
    answer.read(alloc, row.report(), Purpose::Decimals, said)?;
    if answer.is_sound {
        Ok(Some(answer.json))
    } else {
        Ok(None)
    }
}

/// Returns whether the first cell of a row states one place, and the second has a fault as
/// decimals.
fn states_decimals(alloc: Global, row: &TableRow<'_, '_>) -> bool {
    let first = match decimals_at(alloc, row, 0) {
        Ok(Some(json)) => json.as_slice() == b"\"decimals\":1,".as_slice(),
        Ok(None) | Err(_) => false,
    };
    first && matches!(decimals_at(alloc, row, 1), Ok(None))
}

/// Returns the choice of a row in the first column of its table's template, if that is one of
/// property groups.
fn first_choice(alloc: Global, row: &TableRow<'_, '_>) -> Result<Option<Choice>, AllocError> {
    let mut cells = GroupCells::new(alloc);
    if row.report().columns(row.table()) == 0 {
        return Ok(None);
    }
    let _place = cells.place_for(row.header(), 0)?;
    cells.refresh(row);
    let first: Option<&GroupCell<'_>> = cells.list.first();
    match first {
        Some(cell) => Ok(Some(cell.choice)),
        None => Ok(None),
    }
}

/// Returns whether a row answers as it must. Its first column is not one of property groups, so it
/// has no choice there.
fn answers(alloc: Global, row: &TableRow<'_, '_>) -> bool {
    states_decimals(alloc, row) && matches!(first_choice(alloc, row), Ok(Some(Choice::Unknown)))
}

/// Does the same for the next record of a table with this header.
fn answers_a_row(
    alloc: Global,
    header: &TableHeader<'_>,
    records: &mut RecordReader<&[u8]>,
) -> bool {
    if records.read().is_err() {
        return false;
    }
    match records.text_fields() {
        Some(fields) => answers(alloc, &TableRow::new(header, 1, &fields)),
        None => false,
    }
}

/// Does the same for a report's first table, whose file has these records.
fn answers_a_table(alloc: Global, report: &Report, records: &mut RecordReader<&[u8]>) -> bool {
    if report.tables() == 0 {
        return false;
    }
    match TableHeader::read(alloc, report, 0, 10, records) {
        Ok(header) => answers_a_row(alloc, &header, records),
        Err(_) => false,
    }
}

/// Returns whether the calls over a report answer as they must.
pub(crate) fn hold(alloc: Global, report: &Report) -> bool {
    let file: &[u8] = b"cash,note\n1,n\n";
    match RecordReader::open(alloc, file) {
        Ok(mut records) => answers_a_table(alloc, report, &mut records),
        Err(_) => false,
    }
}

#[test]
fn calls_of_row_answers(rt: HostRuntime) {
    assert!(rt; holds(rt.alloc(), Library::RowAnswers));
}
