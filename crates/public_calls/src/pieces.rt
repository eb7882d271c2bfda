//! Calls of `oim_decode` for the pieces of a table.

ghost use Rattle.std.specs.Prelude.{◌≡◌, ◌≤◌, ◌+◌};

use crate::held::{Library, holds};
use oim_decode::{
    JoinedPiece, PieceAnswer, PieceDecoder, PieceJoin, file_in_pieces, joined_pieces_are_read,
    rows_in_pieces,
};
use oim_meta::Report;
use oim_records::RecordReader;
use oim_rows::{TableFault, TableHeader, TableKind, whole_fault};
use std::alloc::Global;

/// Returns a piece of a table, decoded and joined, whose first row has this number.
fn next_piece(
    alloc: Global,
    decoder: &mut PieceDecoder<'_>,
    join: &mut PieceJoin,
    piece: &[u8],
    first: u32,
) -> Result<JoinedPiece, TableFault>
    requires { first ≤ decoder.old.header.limit + 1 }
    ensures { decoder.new.header ≡ decoder.old.header }
{
    let mut bytes = Vec::new(alloc);
    if bytes.extend_from_slice(piece).is_err() {
        return Err(whole_fault(decoder.header().table(), TableKind::Memory));
    }
    let answer: PieceAnswer = decoder.decode(bytes, first);
    Ok(join.join(decoder.header(), first, answer))
}

/// Returns whether the first piece of a table has no fault.
fn joins(alloc: Global, decoder: &mut PieceDecoder<'_>, piece: &[u8]) -> bool {
    let mut join = PieceJoin::new(alloc);
    match next_piece(alloc, decoder, &mut join, piece, 1) {
        Ok(joined) => joined.fault().is_none(),
        Err(_) => false,
    }
}

/// Returns whether a table with this header, which has no more rows than can be numbered, decodes a
/// piece.
fn decodes(alloc: Global, header: TableHeader<'_>, piece: &[u8]) -> bool
    requires { header.limit ≤ 4294967294 }
{
    match PieceDecoder::new(alloc, header) {
        Ok(mut decoder) => joins(alloc, &mut decoder, piece),
        Err(_) => false,
    }
}

/// Does the same for a report's first table, whose header is the first of these records.
fn reads_a_piece(
    alloc: Global,
    report: &Report,
    records: &mut RecordReader<&[u8]>,
    piece: &[u8],
) -> bool {
    if report.tables() == 0 {
        return false;
    }
    match TableHeader::read(alloc, report, 0, 10, records) {
        Ok(header) => decodes(alloc, header, piece),
        Err(_) => false,
    }
}

/// Does the same for a header of these bytes.
fn reads_pieces(alloc: Global, report: &Report, header: &[u8], piece: &[u8]) -> bool {
    match RecordReader::open(alloc, header) {
        Ok(mut records) => reads_a_piece(alloc, report, &mut records, piece),
        Err(_) => false,
    }
}

/// Returns whether the calls over a report answer as they must.
pub(crate) fn hold(alloc: Global, report: &Report) -> bool {
    reads_pieces(alloc, report, b"cash,note\n", b"1,n\n2,m\n")
}

#[test]
fn calls_of_pieces(rt: HostRuntime) {
    rows_in_pieces();
    file_in_pieces();
    joined_pieces_are_read();
    assert!(rt; holds(rt.alloc(), Library::Pieces));
}
