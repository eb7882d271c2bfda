//! Calls of `oim_records`.

use csv::ByteRecord;
use oim_records::{
    Cut, FieldText, ReadFault, RecordReader, Records, TextFields, last_cut, text_law,
};
use std::alloc::Global;

/// Reads the first record of a file and compares its second field.
fn reads_a_record(alloc: Global) -> Result<bool, ReadFault> {
    let mut records = RecordReader::open(alloc, b"a,\"b,c\"\nd,e\n".as_slice())?;
    Ok(records.read()? && records.fields().get(1) == Some(b"b,c".as_slice()))
}

/// A file of two records.
const FILE: &[u8] = b"a,b\nc,d\n";

/// Returns whether a record has two fields, and the first is the start of the file.
fn has_texts(fields: Option<TextFields<'_>>) -> bool {
    match fields {
        Some(fields) => fields.get(1).is_some() && begins(fields.with_rest(0)),
        None => false,
    }
}

/// Returns whether the text of a field is directly before its comma.
fn begins(field: Option<FieldText<'_>>) -> bool {
    match field {
        Some(field) => field.len() == 1 && field.rest().starts_with(b"a,"),
        None => false,
    }
}

/// Returns whether the first record of a file is read as text.
fn reads_texts(alloc: Global, file: &[u8]) -> bool {
    let Ok(mut records) = RecordReader::open(alloc, file) else {
        return false;
    };
    records.read().is_ok() && has_texts(records.text_fields())
}

/// Returns whether a file has a record by the `csv` crate's reader.
fn reads_by_csv(alloc: Global, file: &[u8]) -> bool {
    let mut records = Records::new(alloc, file);
    let mut row = ByteRecord::new(alloc);
    matches!(records.read(&mut row), Ok(true)) && row.len() == 2
}

/// Returns whether the cut is after a text's last whole record.
fn cuts() -> bool {
    let cut: Cut = last_cut(b"a\nb");
    cut.at == 2 && cut.rows == 1
}

/// Returns whether all calls answer as they must.
fn hold(alloc: Global) -> bool {
    matches!(reads_a_record(alloc), Ok(true))
        && reads_texts(alloc, FILE)
        && reads_by_csv(alloc, FILE)
        && cuts()
}

#[test]
fn calls_of_records(rt: HostRuntime) {
    text_law();
    assert!(rt; hold(rt.alloc()));
}
