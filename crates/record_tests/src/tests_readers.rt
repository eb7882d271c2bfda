//! Readers that give a few bytes per call, that fail after each byte, and pieces of several sizes.

use oim_records::{Fields, PieceReader, PieceRecords, ReadFault, RecordReader};
use std::alloc::{AllocError, Global};
use std::io;
use std::io::Read;
use std::sync::atomic::{AtomicUsize, Ordering};
use std::test::Fail;

/// A reader that gives these bytes, at most `step` per call, and then fails or is at its end.
#[derive(Drop)]
struct ShortReader<'a> {
    bytes: &'a [u8],
    step: usize,
    fails: bool,
}

impl Read for ShortReader<'_> {
    fn read(&mut self, buf: &mut [u8]) -> io::Result<usize> {
        if self.fails && self.bytes.is_empty() {
            return Err(io::Error::from(io::ErrorKind::Other));
        }
        let most = buf.len().min(self.step);
        self.bytes.read(&mut buf[..most])
    }
}

/// Every way to end a line and to quote, and quotes that stay open.
const TABLE: &[u8] = b"a,b\r\n\"c,\n\"\"d\"\"\"e,f\rg\n\n\xc3\xa9,\xff\n\"h";

/// Its records: a bar after each field, a line's end after each record.
const RECORDS: &[u8] = b"a|b|\nc,\n\"d\"e|f|\ng|\n\xc3\xa9|\xff|\nh|\n";

/// The counts of table bytes after which a record ends, and the count of bytes of `RECORDS` for
/// each.
const ENDS: &[(usize, usize)] = &[(0, 0), (4, 5), (19, 16), (21, 19), (27, 25)];

/// Writes the fields of a record.
fn put_fields(fields: &Fields<'_>, told: &mut Vec<u8>) -> Result<(), AllocError> {
    for place in 0..fields.len() {
        told.extend_from_slice(fields.get(place).unwrap_or(b""))?;
        told.push(b'|')?;
    }
    told.push(b'\n')?;
    Ok(())
}

/// Writes the records of a file, and returns the fault that ends them.
fn put_records<R: Read + Drop>(
    records: &mut RecordReader<R>,
    told: &mut Vec<u8>,
) -> Result<Option<ReadFault>, AllocError> {
    for _ in 0..20 {
        match records.read() {
            Ok(true) => put_fields(&records.fields(), told)?,
            Ok(false) => return Ok(None),
            Err(fault) => return Ok(Some(fault)),
        }
    }
    Ok(None)
}

/// Returns whether a reader's records are these, whether they end with a fault, and whether no
/// record follows it.
fn reads<R: Read + Drop>(
    alloc: Global,
    reader: R,
    expected: &[u8],
    fault: Option<ReadFault>,
) -> Result<bool, AllocError> {
    let mut told = Vec::new(alloc);
    let Ok(mut records) = RecordReader::open(alloc, reader) else {
        return Ok(false);
    };
    let found = put_records(&mut records, &mut told)?;
    let more = put_records(&mut records, &mut told)?;
    Ok(found == fault && more.is_none() && told.as_slice() == expected)
}

#[test]
fn a_few_bytes_a_time(rt: HostRuntime) -> Result<(), Fail> {
    for step in [1, 2, 3, 7, 64] {
        let reader = ShortReader {
            bytes: TABLE,
            step,
            fails: false,
        };
        assert!(rt; reads(rt.alloc(), reader, RECORDS, None)?);
    }
    Ok(())
}

/// Returns the count of bytes of `RECORDS` for the records that end in the first bytes of the
/// table.
fn told_before(size: usize) -> usize {
    let mut told = 0;
    for &(end, length) in ENDS {
        if end <= size {
            told = length;
        }
    }
    told
}

/// Returns whether a reader that fails after these bytes gives the records that end in them, and
/// then the fault.
fn fails_behind(alloc: Global, size: usize, step: usize) -> Result<bool, AllocError> {
    let (Some(bytes), Some(expected)) = (TABLE.get(..size), RECORDS.get(..told_before(size))) else {
        return Ok(false);
    };
    let reader = ShortReader {
        bytes,
        step,
        fails: true,
    };
    if size == 0 {
        return Ok(RecordReader::open(alloc, reader).err() == Some(ReadFault::Read));
    }
    reads(alloc, reader, expected, Some(ReadFault::Read))
}

#[test]
fn records_before_a_failed_read(rt: HostRuntime) -> Result<(), Fail> {
    for size in 0..=TABLE.len() {
        for step in [1, 64] {
            assert!(rt; fails_behind(rt.alloc(), size, step)?);
        }
    }
    Ok(())
}

/// A reader that gives a few bytes per call, and counts its calls.
#[derive(Drop)]
struct FewBytes<'a> {
    bytes: &'a [u8],
    asked: &'a AtomicUsize,
}

impl Read for FewBytes<'_> {
    fn read(&mut self, buf: &mut [u8]) -> io::Result<usize> {
        self.asked.fetch_add(1, Ordering::SeqCst);
        let most = buf.len().min(5);
        self.bytes.read(&mut buf[..most])
    }
}

/// Returns whether the first record of a slow reader is given as soon as its bytes are read,
/// without another call of the reader.
fn gives_at_once(alloc: Global) -> Result<bool, ReadFault> {
    let asked = AtomicUsize::new(0);
    let reader = FewBytes {
        bytes: b"a,b\nc,d\ne",
        asked: &asked,
    };
    let mut records = RecordReader::open(alloc, reader)?;
    let is_there = records.read()? && records.fields().get(1) == Some(b"b".as_slice());
    Ok(is_there && asked.load(Ordering::SeqCst) == 1)
}

#[test]
fn records_of_a_slow_reader(rt: HostRuntime) -> Result<(), Fail> {
    assert!(rt; gives_at_once(rt.alloc()) == Ok(true));
    Ok(())
}

/// Writes the records of a piece.
fn put_piece(records: &mut PieceRecords, told: &mut Vec<u8>) -> Result<(), AllocError> {
    for _ in 0..20 {
        if !records.read()? {
            return Ok(());
        }
        put_fields(&records.fields(), told)?;
    }
    Ok(())
}

/// Writes the bytes of the pieces of a file, and their records, and returns the count of pieces.
fn put_pieces<R: Read + Drop>(
    pieces: &mut PieceReader<R>,
    size: usize,
    records: &mut PieceRecords,
    texts: &mut Vec<u8>,
    told: &mut Vec<u8>,
) -> Result<usize, AllocError> {
    for count in 0..20usize {
        let Ok(Some(piece)) = pieces.next(size, false) else {
            return Ok(count);
        };
        texts.extend_from_slice(&piece.bytes)?;
        records.load(piece.bytes);
        put_piece(records, told)?;
    }
    Ok(20)
}

/// The size of the pieces, and the count of bytes per read: pieces of a record or a few, and the
/// whole.
const SIZES: &[(usize, usize)] = &[(1, 1), (4, 4), (5, 1), (20, 3), (64, 1), (65536, 64)];

/// Returns whether the pieces of the table give its bytes and have its records, and are several if
/// the table is longer than a piece.
fn splits(alloc: Global, size: usize, step: usize) -> Result<bool, AllocError> {
    let mut pieces = PieceReader::new(
        alloc,
        ShortReader {
            bytes: TABLE,
            step,
            fails: false,
        },
    );
    if pieces.skip_mark().is_err() {
        return Ok(false);
    }
    let mut records = PieceRecords::new(alloc, Vec::new(alloc));
    let mut texts = Vec::new(alloc);
    let mut told = Vec::new(alloc);
    let found = put_pieces(&mut pieces, size, &mut records, &mut texts, &mut told)?;
    let several = size < TABLE.len();
    Ok((found > 1) == several && texts.as_slice() == TABLE && told.as_slice() == RECORDS)
}

#[test]
fn pieces_of_a_size(rt: HostRuntime) -> Result<(), Fail> {
    for &(size, step) in SIZES {
        assert!(rt; splits(rt.alloc(), size, step)?);
    }
    Ok(())
}
