//! Conversions with an expected end, and faults of tables.

ghost use Rattle.std.specs.Prelude.{◌≤◌};

use oim_convert::{ConvertFault, Run, convert, convert_here};
use oim_json::{Layout, Marked};
use oim_merge::MergeEnd;
use oim_meta::{Limits, Report};
use oim_rows::{TableFault, TableKind};
use std::alloc::Global;
use std::io::{Read, Write};
use std::sync::Wait;
use std::thread::Threads;

/// The files of three tables, of which the second and the third are refused.
pub(crate) const FILES: [&[u8]; 3] = [b"cash\n1\n", b"cash\n1\nx\n", b"nope\n1\n"];

/// Their faults.
pub(crate) const REFUSED: &[TableFault] = &[
    TableFault {
        table: 1,
        row: 2,
        column: 1,
        kind: TableKind::BadNumber,
    },
    TableFault {
        table: 2,
        row: 0,
        column: 1,
        kind: TableKind::UnknownHeader,
    },
];

/// The end of a conversion: the faults of its tables, and the end of the merge.
#[derive(Clone, Copy)]
pub(crate) struct End<'a> {
    pub(crate) faults: &'a [TableFault],
    pub(crate) merge: MergeEnd,
}

/// The end of a conversion whose document is whole.
pub(crate) const WHOLE: End<'static> = End {
    faults: &[],
    merge: MergeEnd::Complete,
};

/// Returns whether a run ended so.
pub(crate) fn is_end(answer: &Result<Run, ConvertFault>, end: End<'_>) -> bool {
    match answer {
        Ok(run) => run.end == end.merge && run.faults.as_slice() == end.faults,
        Err(_) => false,
    }
}

/// Returns whether a conversion to a writer by these workers, over rings of this size, ends so.
pub(crate) fn ends_so<R: Read + Drop + Send, W: Write>(
    rt: &(impl AllocGlobal + Threads + Wait + Sync),
    report: &Report,
    readers: Vec<Option<R>>,
    way: (usize, usize),
    limits: Limits,
    writer: &mut W,
    end: End<'_>,
) -> bool
    requires { limits.rows ≤ 4294967294 }
{
    let (alloc, layout) = (rt.alloc(), Layout::Compact);
    let sink = &mut Marked::new(writer);
    let answer = convert(
        rt, alloc, report, readers, way.0, way.1, limits, layout, sink,
    );
    is_end(&answer, end)
}

/// Returns whether a conversion on one thread does; a failed write hides the faults after it.
pub(crate) fn ends_so_alone<R: Read + Drop, W: Write>(
    alloc: Global,
    report: &Report,
    readers: Vec<Option<R>>,
    limits: Limits,
    writer: &mut W,
    end: End<'_>,
) -> bool
    requires { limits.rows ≤ 4294967294 }
{
    let sink = &mut Marked::new(writer);
    let answer = convert_here(alloc, report, readers, limits, Layout::Compact, sink);
    is_end(&answer, end)
}
