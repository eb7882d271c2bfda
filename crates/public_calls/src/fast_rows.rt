//! Calls of `oim_fast`.

use crate::held::{Library, holds};
use oim_fast::{RowWriter, TableRow, TextBuffer};
use oim_meta::Report;
use oim_records::{RecordReader, TextFields};
use oim_rows::TableHeader;
use std::alloc::{AllocError, Global};

/// Returns the texts of the facts of a table's first row, each after a comma, or `None` if that
/// row goes the plain way.
fn first_texts(
    alloc: Global,
    header: &TableHeader<'_>,
    fields: &TextFields<'_>,
) -> Result<Option<TextBuffer>, AllocError> {
    let mut writer = RowWriter::new(alloc, header)?;
    let row = TableRow::new(header, 1, fields);
    let mut texts = TextBuffer::new(alloc);
    let mut ends = Vec::new(alloc);
    if writer.put_row(alloc, &row, &mut texts, &mut ends)? {
        Ok(Some(texts))
    } else {
        Ok(None)
    }
}

/// Returns whether the facts of the next record of a table with this header are written.
fn writes_a_row(
    alloc: Global,
    header: &TableHeader<'_>,
    records: &mut RecordReader<&[u8]>,
) -> bool {
    if records.read().is_err() {
        return false;
    }
    match records.text_fields() {
        Some(fields) => matches!(first_texts(alloc, header, &fields), Ok(Some(_))),
        None => false,
    }
}

/// Does the same for a report's first table, whose file has these records.
fn writes(alloc: Global, report: &Report, records: &mut RecordReader<&[u8]>) -> bool {
    if report.tables() == 0 {
        return false;
    }
    match TableHeader::read(alloc, report, 0, 10, records) {
        Ok(header) => writes_a_row(alloc, &header, records),
        Err(_) => false,
    }
}

/// Does the same for a file of these bytes.
fn writes_rows(alloc: Global, report: &Report, file: &[u8]) -> bool {
    match RecordReader::open(alloc, file) {
        Ok(mut records) => writes(alloc, report, &mut records),
        Err(_) => false,
    }
}

/// Returns whether the calls over a report answer as they must.
pub(crate) fn hold(alloc: Global, report: &Report) -> bool {
    writes_rows(alloc, report, b"cash,note\n1,n\n")
}

#[test]
fn calls_of_fast_rows(rt: HostRuntime) {
    assert!(rt; holds(rt.alloc(), Library::FastRows));
}
