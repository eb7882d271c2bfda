//! Calls of `oim_rows`.

use crate::held::{Library, holds};
use oim_meta::{Limits, Report};
use oim_rows::{
    RowFacts, Rows, TableFault, fact_identifiers_differ, stream_is_of_all_rows,
    table_stream_is_of_all_rows,
};
use std::alloc::Global;
use std::io;
use std::io::Read;
use std::sync::atomic::{AtomicUsize, Ordering};

/// Returns the facts of the first row of a report's first table, whose file has these bytes.
fn first_row(alloc: Global, report: &Report, file: &[u8]) -> Result<Option<RowFacts>, TableFault> {
    if report.tables() == 0 {
        return Ok(None);
    }
    let mut rows = Rows::open(alloc, report, 0, file, Limits::profile())?;
    rows.next()
}

/// Returns whether a file has a row with facts.
fn reads_rows(alloc: Global, report: &Report, file: &[u8]) -> bool {
    match first_row(alloc, report, file) {
        Ok(Some(facts)) => !facts.is_empty(),
        _ => false,
    }
}

/// Returns whether the calls over a report answer as they must.
pub(crate) fn hold(alloc: Global, report: &Report) -> bool {
    fact_identifiers_differ(report);
    reads_rows(alloc, report, b"cash,note\n1,n\n")
}

#[test]
fn calls_of_rows(rt: HostRuntime) {
    stream_is_of_all_rows();
    table_stream_is_of_all_rows();
    assert!(rt; holds(rt.alloc(), Library::Rows));
}

/// A reader that counts its reads, and may fail at its end.
#[derive(Clone, Copy)]
struct CountedReader<'a> {
    bytes: &'a [u8],
    reads: &'a AtomicUsize,
    fails: bool,
}

impl Read for CountedReader<'_> {
    fn read(&mut self, buf: &mut [u8]) -> io::Result<usize> {
        self.reads.fetch_add(1, Ordering::SeqCst);
        if self.fails && self.bytes.is_empty() {
            return Err(io::Error::from(io::ErrorKind::Other));
        }
        self.bytes.read(buf)
    }
}

/// Returns the number of rows before the end or a fault, which is at most three.
fn rows_before_end(rows: &mut Rows<'_, CountedReader<'_>>) -> usize {
    for count in 0..4usize {
        match rows.next() {
            Ok(Some(_)) => {}
            Ok(None) | Err(_) => return count,
        }
    }
    4
}

/// Returns whether there are this many rows, and nothing is read after that.
fn are_all(rows: &mut Rows<'_, CountedReader<'_>>, reads: &AtomicUsize, count: usize) -> bool {
    let given = rows_before_end(rows);
    let before = reads.load(Ordering::SeqCst);
    given == count
        && before > 0
        && rows_before_end(rows) == 0
        && reads.load(Ordering::SeqCst) == before
}

/// A table, whether its reader fails at its end, and the number of its rows.
type ReadCase = (&'static [u8], bool, usize);

const CASES: &[ReadCase] = &[
    (b"cash\n1\n2\n", false, 2),
    (b"cash\n1\nx\n2\n", false, 1),
    (b"cash\n1\n2\n", true, 2),
];

/// Returns whether a report's first table has this many rows, and nothing is read after that.
fn stops_reading(alloc: Global, report: &Report, case: &ReadCase) -> bool {
    if report.tables() == 0 {
        return false;
    }
    let reads = AtomicUsize::new(0);
    let reader = CountedReader {
        bytes: case.0,
        reads: &reads,
        fails: case.1,
    };
    match Rows::open(alloc, report, 0, reader, Limits::profile()) {
        Ok(mut rows) => are_all(&mut rows, &reads, case.2),
        Err(_) => false,
    }
}

/// Returns whether each of these tables has its number of rows, and nothing is read after it.
pub(crate) fn hold_of_reads(alloc: Global, report: &Report) -> bool {
    for case in CASES {
        if !stops_reading(alloc, report, case) {
            return false;
        }
    }
    true
}

#[test]
fn nothing_is_read_after_the_end(rt: HostRuntime) {
    assert!(rt; holds(rt.alloc(), Library::Reads));
}
