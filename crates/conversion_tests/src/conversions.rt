//! Calls of `oim_convert`.

use crate::endings::{End, FILES, WHOLE, ends_so, is_end};
use crate::readers::readers_of;
use crate::reports::TAIL;
use crate::trials::{Case, Trial, holds};
use crate::writers::taking_all;
use oim_convert::{
    ConvertFault, LARGEST_RING, Layout, MOST_WORKERS, Run, convert_serial, convert_with_starts,
    written_identifiers_differ,
};
use oim_json::Marked;
use oim_merge::MergeEnd;
use oim_meta::{Limits, Report};
use oim_rows::{TableFault, TableKind};
use std::alloc::Global;
use std::sync::Wait;
use std::thread::Threads;

/// Converts a report with one table, on one thread.
fn converts(alloc: Global, report: &Report, file: &[u8]) -> Result<Vec<u8>, ConvertFault> {
    let readers = vec![in alloc; Some(file)].map_err(|_| ConvertFault::Memory)?;
    let mut document = Vec::new(alloc);
    let sink = &mut Marked::new(&mut document);
    convert_serial(
        alloc,
        report,
        readers,
        Limits::profile(),
        Layout::Compact,
        sink,
    )?;
    Ok(document)
}

/// Returns whether the document of a table's file is this one.
fn is_converted(alloc: Global, report: &Report, file: &[u8], expected: &[u8]) -> bool {
    match converts(alloc, report, file) {
        Ok(document) => document.as_slice() == expected,
        Err(_) => false,
    }
}

/// Returns whether it is with the greatest number of workers and the largest rings.
fn is_converted_by_most(
    rt: &(impl AllocGlobal + Threads + Wait + Sync),
    report: &Report,
    file: &[u8],
    expected: &[u8],
) -> bool {
    let mut writer = taking_all(expected);
    let way = (MOST_WORKERS, LARGEST_RING);
    match readers_of(rt.alloc(), &[file]) {
        Ok(readers) => {
            ends_so(
                rt,
                report,
                readers,
                way,
                Limits::profile(),
                &mut writer,
                WHOLE,
            ) && writer.has_left(0, 0)
        }
        Err(_) => false,
    }
}

/// Returns whether the calls over a report of one table answer as they must.
pub(crate) fn hold(
    rt: &(impl AllocGlobal + Threads + Wait + Sync),
    report: &Report,
    document: &[u8],
) -> bool {
    written_identifiers_differ(report);
    is_converted(rt.alloc(), report, FILES[0], document)
        && is_converted_by_most(rt, report, FILES[0], document)
}

/// A table of one row.
const ONE_TABLE: Case = Case {
    tables: 1,
    written: 1,
    rows: 1,
    end: TAIL,
    trial: Trial::Conversions,
};

#[test]
fn calls_of_conversions(rt: HostRuntime) {
    assert!(rt; holds(&rt, &ONE_TABLE));
}

/// The faults of three tables without a thread.
const NO_THREADS: &[TableFault] = &[
    TableFault {
        table: 0,
        row: 0,
        column: 0,
        kind: TableKind::NoThread,
    },
    TableFault {
        table: 1,
        row: 0,
        column: 0,
        kind: TableKind::NoThread,
    },
    TableFault {
        table: 2,
        row: 0,
        column: 0,
        kind: TableKind::NoThread,
    },
];

/// The end of a conversion without a started worker.
const UNSTARTED: End<'static> = End {
    faults: NO_THREADS,
    merge: MergeEnd::Refused,
};

/// Returns whether three tables end so with this number of workers, none of which is started.
pub(crate) fn are_unstarted(
    rt: &(impl AllocGlobal + Threads + Wait + Sync),
    report: &Report,
    document: &[u8],
) -> bool {
    let mut writer = taking_all(document);
    let (limits, layout) = (Limits::profile(), Layout::Compact);
    let Ok(readers) = readers_of(rt.alloc(), &FILES) else {
        return false;
    };
    let sink = &mut Marked::new(&mut writer);
    let run: Result<Run, ConvertFault> = convert_with_starts(
        rt,
        rt.alloc(),
        report,
        readers,
        8,
        0,
        1024,
        limits,
        layout,
        sink,
    );
    is_end(&run, UNSTARTED) && writer.has_left(0, 0)
}

/// Three tables, of which nothing is written after the head.
const NOTHING: Case = Case {
    tables: 3,
    written: 0,
    rows: 0,
    end: "",
    trial: Trial::Unstarted,
};

#[test]
fn no_started_worker_is_no_thread(rt: HostRuntime) {
    assert!(rt; holds(&rt, &NOTHING));
}
