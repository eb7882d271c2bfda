//! The conversion on threads at run time: tables that are open at the same time, shared out among
//! workers, and merged before they end.

use crate::endings::{WHOLE, ends_so};
use crate::readers::{AtEnd, Slow, ending};
use crate::reports::{HEAD, TAIL, file_of};
use crate::trials::{Case, Trial, holds};
use crate::writers::{counting, taking_all};
use oim_meta::{Limits, Report};
use std::alloc::{AllocError, Global};
use std::sync::Wait;
use std::sync::atomic::AtomicUsize;
use std::thread::Threads;

/// Returns readers of tables of one row, each of which waits at its end for this many ends.
fn waiting<'a>(
    alloc: Global,
    ends: &'a AtomicUsize,
    wanted: &[usize],
) -> Result<Vec<Option<Slow<'a>>>, AllocError> {
    let mut readers = Vec::new(alloc);
    for wanted in wanted {
        let at_end = AtEnd::Meets(ends, *wanted);
        readers.push(Some(ending(b"cash\n1\n", 65_536, at_end)))?;
    }
    Ok(readers)
}

/// Returns whether this many workers convert such tables to this document.
pub(crate) fn meet(
    rt: &(impl AllocGlobal + Threads + Wait + Sync),
    report: &Report,
    wanted: &[usize],
    workers: usize,
    expected: &[u8],
) -> bool {
    let ends = AtomicUsize::new(0);
    let mut writer = taking_all(expected);
    match waiting(rt.alloc(), &ends, wanted) {
        Ok(readers) => {
            let limits = Limits::profile();
            ends_so(
                rt,
                report,
                readers,
                (workers, 1024),
                limits,
                &mut writer,
                WHOLE,
            ) && writer.has_left(0, 0)
        }
        Err(_) => false,
    }
}

/// The count of ends for which each table waits, and the number of workers. As many tables are open
/// as there are workers, and a worker that waits keeps no table from the other.
const WAITS: &[(&[usize], usize)] = &[
    (&[2, 2], 2),
    (&[8, 8, 8, 8, 8, 8, 8, 8], 8),
    (&[3, 1, 1], 2),
    (&[1, 3, 1], 2),
    (&[1, 1, 3], 2),
];

/// Returns whether tables that wait so are converted.
fn are_converted(
    rt: &(impl AllocGlobal + Threads + Wait + Sync),
    wanted: &'static [usize],
    workers: usize,
) -> bool {
    let case = Case {
        tables: wanted.len(),
        written: wanted.len(),
        rows: 1,
        end: TAIL,
        trial: Trial::Meetings(wanted, workers),
    };
    holds(rt, &case)
}

/// Returns whether each of these are.
fn all_are_converted(rt: &(impl AllocGlobal + Threads + Wait + Sync)) -> bool {
    for (wanted, workers) in WAITS {
        if !are_converted(rt, wanted, *workers) {
            return false;
        }
    }
    true
}

#[test]
fn tables_that_wait_for_one_another(rt: HostRuntime) {
    assert!(rt; all_are_converted(&rt));
}

/// Returns whether a table of these bytes is converted to this document, with the workers and the
/// ring size of `way`. The bytes are given in two halves and end only after a member is written.
fn ends_late(
    rt: &(impl AllocGlobal + Threads + Wait + Sync),
    report: &Report,
    bytes: &[u8],
    way: (usize, usize),
    expected: &[u8],
) -> bool {
    let written = AtomicUsize::new(0);
    let mut writer = counting(expected, &written);
    let at_end = AtEnd::Waits(&written, HEAD.len().saturating_add(1));
    let file = ending(bytes, bytes.len().div_ceil(2), at_end);
    match vec![in rt.alloc(); Some(file)] {
        Ok(readers) => {
            let limits = Limits::profile();
            ends_so(rt, report, readers, way, limits, &mut writer, WHOLE) && writer.has_left(0, 0)
        }
        Err(_) => false,
    }
}

/// Workers and the size of a ring.
const WAYS: &[(usize, usize)] = &[(1, 1), (1, 1024), (2, 1), (2, 1024), (4, 1), (4, 1024)];

/// Returns whether it is in each of these ways.
fn ends_late_in_each_way(
    rt: &(impl AllocGlobal + Threads + Wait + Sync),
    report: &Report,
    bytes: &[u8],
    expected: &[u8],
) -> bool {
    for way in WAYS {
        if !ends_late(rt, report, bytes, *way, expected) {
            return false;
        }
    }
    true
}

/// Does the same for a table of 1,200 rows.
pub(crate) fn end_late(
    rt: &(impl AllocGlobal + Threads + Wait + Sync),
    report: &Report,
    expected: &[u8],
) -> bool {
    match file_of(rt.alloc(), 1200) {
        Ok(file) => ends_late_in_each_way(rt, report, file.as_bytes(), expected),
        Err(_) => false,
    }
}

/// A table of 1,200 rows.
const LATE: Case = Case {
    tables: 1,
    written: 1,
    rows: 1200,
    end: TAIL,
    trial: Trial::Late,
};

#[test]
fn members_are_written_before_their_table_ends(rt: HostRuntime) {
    assert!(rt; holds(&rt, &LATE));
}
