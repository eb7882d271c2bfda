//! Calls with ample memory: the place of a cut, the number of records, the current record as text.

use oim_records::{PieceReader, PieceRecords, last_cut};
use std::alloc::Global;
use std::test::Fail;

/// A text, its last cut, the count of records that end before it, and the count of all its records.
type CutCase<'a> = (&'a [u8], u64, u64, u64);

const CASES: &[CutCase<'static>] = &[
    (b"a,b\r\n1,\"x\ny\"\r\n2,z", 14, 2, 3),
    (b"a,b\r", 4, 1, 1),
    (b"a,\"b\n\n", 0, 0, 1),
    (b"a\"b\nc", 4, 1, 2),
    (b"\r\n\r\n\n", 5, 0, 0),
    (b"", 0, 0, 0),
];

/// Returns the count of records in the pieces of a text.
fn rows_of(alloc: Global, text: &[u8]) -> u64 {
    let mut pieces = PieceReader::new(alloc, text);
    let mut rows = 0u64;
    for _ in 0..20 {
        match pieces.next(1, false) {
            Ok(Some(piece)) => rows = rows.saturating_add(piece.records),
            _ => return rows,
        }
    }
    rows
}

#[test]
fn cuts_by_hand(rt: HostRuntime) -> Result<(), Fail> {
    for &(text, at, before, rows) in CASES {
        let cut = last_cut(text);
        assert!(rt; cut.at == at && cut.rows == before && rows_of(rt.alloc(), text) == rows);
    }
    Ok(())
}

/// Returns whether a reader at its end reports that its last read was short, and not before a read.
fn says_short(alloc: Global, text: &[u8]) -> bool {
    let mut pieces = PieceReader::new(alloc, text);
    !pieces.is_short() && pieces.next(1, false).is_ok() && pieces.is_short()
}

#[test]
fn reads_short(rt: HostRuntime) -> Result<(), Fail> {
    assert!(rt; says_short(rt.alloc(), b"a,b\n"));
    Ok(())
}

/// Returns whether the next record of a text is UTF-8, and has this many fields and this last
/// field.
fn is_text(records: &mut PieceRecords, count: usize, last: &str) -> bool {
    if !matches!(records.read(), Ok(true)) || count == 0 {
        return false;
    }
    match records.text_fields() {
        Some(fields) => fields.len() == count && fields.get(count - 1) == Some(last),
        None => false,
    }
}

/// Returns whether the next record of a text is not UTF-8, first in this field.
fn is_no_text(records: &mut PieceRecords, place: usize) -> bool {
    matches!(records.read(), Ok(true))
        && records.text_fields().is_none()
        && records.fields().first_not_text() == Some(place)
}

/// A record of UTF-8, one with a byte that is not UTF-8, and one that reaches to the end.
const TEXT: &[u8] =
    b"period,\"Gr\xc3\xb6\xc3\x9fe, \"\"gepr\xc3\xbcft\"\" und mehr\" tail\r\n\n,\"\",\xff\nx,\"open";

fn reads_texts(alloc: Global) -> Result<bool, Fail> {
    let text = Vec::from_slice(alloc, TEXT).map_err(|_| "memory")?;
    let mut records = PieceRecords::new(alloc, text);
    let first = is_text(&mut records, 2, "Größe, \"geprüft\" und mehr tail");
    let second = is_no_text(&mut records, 2);
    let third = is_text(&mut records, 2, "open");
    Ok(first && second && third && matches!(records.read(), Ok(false)))
}

#[test]
fn records_as_text(rt: HostRuntime) -> Result<(), Fail> {
    assert!(rt; reads_texts(rt.alloc())?);
    Ok(())
}
