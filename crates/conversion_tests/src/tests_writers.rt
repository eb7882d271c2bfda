//! Conversions to writers that take a number of bytes and then fail or answer 0.

use crate::endings::{End, FILES, REFUSED, ends_so, ends_so_alone};
use crate::readers::{AtEnd, ending, readers_of};
use crate::reports::{TAIL, file_of};
use crate::trials::{Case, Trial, holds};
use crate::writers::{Narrow, taking};
use oim_json::WriteFault;
use oim_merge::MergeEnd;
use oim_meta::{Limits, Report};
use std::alloc::Global;
use std::sync::Wait;
use std::sync::atomic::{AtomicUsize, Ordering};
use std::thread::Threads;

/// Returns the end of a merge whose writer takes only `room` of `whole` bytes, and then fails, or
/// answers 0.
fn end_of(room: usize, whole: usize, fails: bool, end: MergeEnd) -> MergeEnd {
    if room >= whole {
        end
    } else if fails {
        MergeEnd::Write(WriteFault::Failed)
    } else {
        MergeEnd::Write(WriteFault::Zero)
    }
}

/// Returns whether a writer took as much of `whole` bytes as it had room for, and was asked once
/// for more.
fn is_filled(narrow: &Narrow<'_>, room: usize, whole: usize) -> bool {
    match whole.checked_sub(room) {
        None | Some(0) => narrow.has_left(0, 0),
        Some(left) => narrow.has_left(left, 1),
    }
}

/// The number of workers, the size of the rings, and whether the writer fails or answers 0.
type Way = (usize, usize, bool);

const WAYS: &[Way] = &[
    (1, 1, true),
    (2, 4, true),
    (8, 1, true),
    (1, 4, false),
    (2, 1, false),
    (8, 4, false),
];

/// Returns whether three tables, two of them refused, fill such a writer. All their faults are
/// given, whether a write fails or not.
fn is_full(
    rt: &(impl AllocGlobal + Threads + Wait + Sync),
    report: &Report,
    way: &Way,
    room: usize,
    whole: &[u8],
) -> bool {
    let mut narrow = taking(whole, 65_536, room, way.2);
    let merge = end_of(room, whole.len(), way.2, MergeEnd::Refused);
    let end = End {
        faults: REFUSED,
        merge,
    };
    match readers_of(rt.alloc(), &FILES) {
        Ok(readers) => {
            let limits = Limits::profile();
            ends_so(
                rt,
                report,
                readers,
                (way.0, way.1),
                limits,
                &mut narrow,
                end,
            ) && is_filled(&narrow, room, whole.len())
        }
        Err(_) => false,
    }
}

/// Does the same for each room.
fn are_full(
    rt: &(impl AllocGlobal + Threads + Wait + Sync),
    report: &Report,
    way: &Way,
    whole: &[u8],
) -> bool {
    for room in 0..=whole.len() {
        if !is_full(rt, report, way, room, whole) {
            return false;
        }
    }
    true
}

/// Does the same in each way.
pub(crate) fn fill(
    rt: &(impl AllocGlobal + Threads + Wait + Sync),
    report: &Report,
    whole: &[u8],
) -> bool {
    for way in WAYS {
        if !are_full(rt, report, way, whole) {
            return false;
        }
    }
    true
}

/// The document of three tables with two faults.
const ROOMS: Case = Case {
    tables: 3,
    written: 2,
    rows: 1,
    end: "",
    trial: Trial::Rooms,
};

#[test]
fn writers_of_each_room(rt: HostRuntime) {
    assert!(rt; holds(&rt, &ROOMS));
}

/// Writers for a conversion on one thread, each by its bytes per call, its room, and whether it
/// fails or answers 0 after that.
type WriterCase = (usize, usize, bool);

const WRITERS: &[WriterCase] = &[
    (1, 4096, true),
    (1, 40, true),
    (7, 40, true),
    (64, 40, false),
];

/// Returns whether a table of one row fills such a writer.
fn is_full_alone(alloc: Global, report: &Report, writer: &WriterCase, whole: &[u8]) -> bool {
    let (most, room, fails) = *writer;
    let mut narrow = taking(whole, most, room, fails);
    let merge = end_of(room, whole.len(), fails, MergeEnd::Complete);
    let end = End { faults: &[], merge };
    match readers_of(alloc, &FILES[..1]) {
        Ok(readers) => {
            ends_so_alone(alloc, report, readers, Limits::profile(), &mut narrow, end)
                && is_filled(&narrow, room, whole.len())
        }
        Err(_) => false,
    }
}

/// Does the same for each writer.
pub(crate) fn fill_alone(alloc: Global, report: &Report, whole: &[u8]) -> bool {
    for writer in WRITERS {
        if !is_full_alone(alloc, report, writer, whole) {
            return false;
        }
    }
    true
}

/// A table of one row.
const ALONE: Case = Case {
    tables: 1,
    written: 1,
    rows: 1,
    end: TAIL,
    trial: Trial::Alone,
};

#[test]
fn narrow_writers_on_one_thread(rt: HostRuntime) {
    assert!(rt; holds(&rt, &ALONE));
}

/// The end of a conversion whose writer fails.
const FAILED: End<'static> = End {
    faults: &[],
    merge: MergeEnd::Write(WriteFault::Failed),
};

/// Returns whether three tables of these bytes reach their ends, by three workers over rings of one
/// block, although writing fails after a part of this document.
fn comes_to_ends(
    rt: &(impl AllocGlobal + Threads + Wait + Sync),
    report: &Report,
    bytes: &[u8],
    room: usize,
    whole: &[u8],
) -> bool {
    let ended = AtomicUsize::new(0);
    let mut narrow = taking(whole, 65_536, room, true);
    let file = ending(bytes, 65_536, AtEnd::Meets(&ended, 0));
    match readers_of(rt.alloc(), &[file, file, file]) {
        Ok(readers) => {
            ends_so(
                rt,
                report,
                readers,
                (3, 1),
                Limits::profile(),
                &mut narrow,
                FAILED,
            ) && ended.load(Ordering::SeqCst) == 3
                && is_filled(&narrow, room, whole.len())
        }
        Err(_) => false,
    }
}

/// Does the same after none, a quarter, two and three quarters are written.
fn come_to_ends(
    rt: &(impl AllocGlobal + Threads + Wait + Sync),
    report: &Report,
    bytes: &[u8],
    whole: &[u8],
) -> bool {
    for quarters in 0..4usize {
        let room = whole.len().saturating_mul(quarters) / 4;
        if !comes_to_ends(rt, report, bytes, room, whole) {
            return false;
        }
    }
    true
}

/// Does the same for tables of 600 rows.
pub(crate) fn fail_behind(
    rt: &(impl AllocGlobal + Threads + Wait + Sync),
    report: &Report,
    whole: &[u8],
) -> bool {
    match file_of(rt.alloc(), 600) {
        Ok(file) => come_to_ends(rt, report, file.as_bytes(), whole),
        Err(_) => false,
    }
}

/// Three tables of 600 rows.
const BEHIND: Case = Case {
    tables: 3,
    written: 3,
    rows: 600,
    end: TAIL,
    trial: Trial::Behind,
};

#[test]
fn a_failed_write_keeps_no_table_from_its_end(rt: HostRuntime) {
    assert!(rt; holds(&rt, &BEHIND));
}
