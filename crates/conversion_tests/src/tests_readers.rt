//! Conversions whose readers fail or never end.

ghost use Rattle.std.specs.Prelude.{◌≤◌};

use crate::endings::{End, ends_so, ends_so_alone};
use crate::readers::{AtEnd, Slow, ending, readers_of};
use crate::trials::{Case, Trial, all_hold, holds};
use crate::writers::{Narrow, taking_all};
use oim_merge::MergeEnd;
use oim_meta::{Limits, Report};
use oim_rows::{TableFault, TableKind};
use std::sync::Wait;
use std::thread::Threads;

/// Returns whether a conversion by this many workers, or on one thread if that is 0, refuses these
/// tables.
fn ends(
    rt: &(impl AllocGlobal + Threads + Wait + Sync),
    report: &Report,
    readers: Vec<Option<Slow<'_>>>,
    workers: usize,
    limits: Limits,
    writer: &mut Narrow<'_>,
    faults: &[TableFault],
) -> bool
    requires { limits.rows ≤ 4294967294 }
{
    let merge = MergeEnd::Refused;
    let end = End { faults, merge };
    if workers == 0 {
        ends_so_alone(rt.alloc(), report, readers, limits, writer, end)
    } else {
        ends_so(rt, report, readers, (workers, 1), limits, writer, end)
    }
}

/// Returns whether it does, and writes this document without this many bytes at its end.
fn is_refused(
    rt: &(impl AllocGlobal + Threads + Wait + Sync),
    report: &Report,
    tables: &[Slow<'_>],
    workers: usize,
    limits: Limits,
    document: (&[u8], usize),
    faults: &[TableFault],
) -> bool
    requires { limits.rows ≤ 4294967294 }
{
    let mut writer = taking_all(document.0);
    match readers_of(rt.alloc(), tables) {
        Ok(readers) => {
            ends(rt, report, readers, workers, limits, &mut writer, faults)
                && writer.has_left(document.1, 0)
        }
        Err(_) => false,
    }
}

/// A table of two rows of two facts each.
const TABLE: &[u8] = b"cash,note\n100,first\n200,second\n";

/// The facts of its rows.
const BOTH: &str =
    r#""t1.r_1.cash":{"dimensions":{"concept":"eg:Cash","entity":"eg:A1","period":"2021-01-01T00:00:00/2022-01-01T00:00:00","unit":"iso4217:EUR"},"value":"100"},"t1.r_1.note":{"dimensions":{"concept":"eg:Note","entity":"eg:A1","period":"2021-01-01T00:00:00/2022-01-01T00:00:00"},"value":"first"},"t1.r_2.cash":{"dimensions":{"concept":"eg:Cash","entity":"eg:A1","period":"2021-01-01T00:00:00/2022-01-01T00:00:00","unit":"iso4217:EUR"},"value":"200"},"t1.r_2.note":{"dimensions":{"concept":"eg:Note","entity":"eg:A1","period":"2021-01-01T00:00:00/2022-01-01T00:00:00"},"value":"second"}"#;

/// The facts of its second row, after those of the first.
const SECOND: &str =
    r#","t1.r_2.cash":{"dimensions":{"concept":"eg:Cash","entity":"eg:A1","period":"2021-01-01T00:00:00/2022-01-01T00:00:00","unit":"iso4217:EUR"},"value":"200"},"t1.r_2.note":{"dimensions":{"concept":"eg:Note","entity":"eg:A1","period":"2021-01-01T00:00:00/2022-01-01T00:00:00"},"value":"second"}"#;

/// The places of a failure, from the first number up to but not including the second, and the count
/// of bytes that are not written then.
const PLACES: &[(usize, usize, usize)] = &[
    (0, 20, BOTH.len()),
    (20, 31, SECOND.len()),
    (31, 32, 0),
];

/// The number of bytes per call, and the number of workers.
type Pace = (usize, usize);

const PACES: &[Pace] = &[(64, 0), (1, 0), (64, 1), (1, 2), (64, 8)];

/// The fault of a table whose reader failed.
const FAILED: TableFault = TableFault {
    table: 0,
    row: 0,
    column: 0,
    kind: TableKind::Read,
};

/// Returns whether the first `place` bytes of the table give this document, if its reader then
/// fails.
fn is_cut(
    rt: &(impl AllocGlobal + Threads + Wait + Sync),
    report: &Report,
    place: usize,
    pace: &Pace,
    document: (&[u8], usize),
) -> bool {
    let bytes = TABLE.get(..place).unwrap_or(TABLE);
    let cut = ending(bytes, pace.0, AtEnd::Fails);
    let limits = Limits::profile();
    is_refused(rt, report, &[cut], pace.1, limits, document, &[FAILED])
}

/// Does the same for each of these places.
fn is_cut_at(
    rt: &(impl AllocGlobal + Threads + Wait + Sync),
    report: &Report,
    places: &(usize, usize, usize),
    pace: &Pace,
    document: &[u8],
) -> bool {
    for place in places.0..places.1 {
        if !is_cut(rt, report, place, pace, (document, places.2)) {
            return false;
        }
    }
    true
}

/// Does the same for each place.
fn is_cut_anywhere(
    rt: &(impl AllocGlobal + Threads + Wait + Sync),
    report: &Report,
    pace: &Pace,
    document: &[u8],
) -> bool {
    for places in PLACES {
        if !is_cut_at(rt, report, places, pace, document) {
            return false;
        }
    }
    true
}

/// Does the same at each pace.
pub(crate) fn are_cut(
    rt: &(impl AllocGlobal + Threads + Wait + Sync),
    report: &Report,
    document: &[u8],
) -> bool {
    for pace in PACES {
        if !is_cut_anywhere(rt, report, pace, document) {
            return false;
        }
    }
    true
}

/// A table of these rows.
const CUTS: Case = Case {
    tables: 1,
    written: 0,
    rows: 0,
    end: BOTH,
    trial: Trial::Cuts,
};

#[test]
fn a_reader_cut_at_each_place(rt: HostRuntime) {
    assert!(rt; holds(&rt, &CUTS));
}

/// The files of three tables, whether each reader fails after its file, and the faults.
type Between = (&'static [(&'static [u8], bool)], &'static [TableFault]);

const CASES: &[Between] = &[
    (
        &[
            (b"cash\n1\n", false),
            (b"cash\n1\n2", true),
            (b"nope\n", false),
        ],
        &[
            TableFault {
                table: 1,
                row: 0,
                column: 0,
                kind: TableKind::Read,
            },
            TableFault {
                table: 2,
                row: 0,
                column: 1,
                kind: TableKind::UnknownHeader,
            },
        ],
    ),
    (
        &[
            (b"cash\n1\nx\n2\n", true),
            (b"cash\n", false),
            (b"cash\n", false),
        ],
        &[TableFault {
            table: 0,
            row: 2,
            column: 1,
            kind: TableKind::BadNumber,
        }],
    ),
];

/// Returns a reader of a file, which may fail after it.
fn reader_of(file: &(&'static [u8], bool)) -> Slow<'static> {
    let at_end = if file.1 { AtEnd::Fails } else { AtEnd::Ends };
    ending(file.0, 64, at_end)
}

/// Returns whether the case of this number ends so, on one thread and by two workers.
pub(crate) fn fail_between(
    rt: &(impl AllocGlobal + Threads + Wait + Sync),
    report: &Report,
    case: usize,
    document: &[u8],
) -> bool {
    let Some(([a, b, c], faults)) = CASES.get(case) else {
        return false;
    };
    let readers = [reader_of(a), reader_of(b), reader_of(c)];
    let limits = Limits::profile();
    is_refused(rt, report, &readers, 0, limits, (document, 0), faults)
        && is_refused(
            rt,
            report,
            &readers,
            2,
            Limits::profile(),
            (document, 0),
            faults,
        )
}

/// The number of tables whose first row's fact is written, and the case.
const BETWEEN: &[Case] = &[
    Case {
        tables: 3,
        written: 2,
        rows: 1,
        end: "",
        trial: Trial::Between(0),
    },
    Case {
        tables: 3,
        written: 1,
        rows: 1,
        end: "",
        trial: Trial::Between(1),
    },
];

#[test]
fn readers_that_fail_between_faults(rt: HostRuntime) {
    assert!(rt; all_hold(&rt, BETWEEN));
}

/// A table without end.
const ONES_FOREVER: Slow<'static> = Slow {
    bytes: b"cash\n",
    row: b"1\n",
    step: 64,
    at_end: AtEnd::Ends,
};

/// Returns limits of a thousand rows per table.
fn thousand_rows() -> Limits
    ensures { result.rows ≤ 4294967294 }
{
    Limits {
        rows: 1_000,
        ..Limits::profile()
    }
}

/// The fault of a table that has one row more.
const TOO_MANY: TableFault = TableFault {
    table: 0,
    row: 1_001,
    column: 0,
    kind: TableKind::TooManyRows,
};

/// Returns whether the table without end is refused at the first row past the limit by this many
/// workers.
fn is_ended(
    rt: &(impl AllocGlobal + Threads + Wait + Sync),
    report: &Report,
    workers: usize,
    document: &[u8],
) -> bool {
    let tables = [ONES_FOREVER];
    is_refused(
        rt,
        report,
        &tables,
        workers,
        thousand_rows(),
        (document, 0),
        &[TOO_MANY],
    )
}

/// Returns whether it is by two workers, and on one thread.
pub(crate) fn are_ended(
    rt: &(impl AllocGlobal + Threads + Wait + Sync),
    report: &Report,
    document: &[u8],
) -> bool {
    is_ended(rt, report, 2, document) && is_ended(rt, report, 0, document)
}

/// A table of a thousand rows.
const THOUSAND: Case = Case {
    tables: 1,
    written: 1,
    rows: 1_000,
    end: "",
    trial: Trial::Endless,
};

#[test]
fn a_table_without_end(rt: HostRuntime) {
    assert!(rt; holds(&rt, &THOUSAND));
}
