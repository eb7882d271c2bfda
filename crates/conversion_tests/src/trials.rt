//! The trials over a report and its document, and the making of both.

use crate::reports::{TYPES, document_of, metadata_of};
use crate::{conversions, pieces, tests_readers, tests_threads, tests_writers};
use oim_meta::{Limits, Parameters, Report, Types, read_report, read_types};
use std::sync::Wait;
use std::thread::Threads;

/// A trial.
#[derive(Clone, Copy)]
pub(crate) enum Trial {
    /// Tables that wait for this many others each, with this many workers.
    Meetings(&'static [usize], usize),
    /// A table that ends late.
    Late,
    /// A reader that is cut at each place.
    Cuts,
    /// Readers that fail next to other faults: the case of this number.
    Between(usize),
    /// A table that never ends.
    Endless,
    /// Writers of each room.
    Rooms,
    /// Writers of some rooms, on one thread.
    Alone,
    /// Tables after a failed write.
    Behind,
    /// A table in pieces of each size.
    Pieces,
    /// The public names of `oim_pieces`.
    Piece,
    /// No started worker.
    Unstarted,
    /// The public names of `oim_convert`.
    Conversions,
}

/// The number of the report's tables, the tables and rows of the document, the text after these,
/// and the trial over both.
#[derive(Clone, Copy)]
pub(crate) struct Case {
    pub(crate) tables: usize,
    pub(crate) written: usize,
    pub(crate) rows: usize,
    pub(crate) end: &'static str,
    pub(crate) trial: Trial,
}

/// Returns whether a trial over a report and a document ends as it must.
fn succeeds(
    rt: &(impl AllocGlobal + Threads + Wait + Sync),
    report: &Report,
    document: &[u8],
    trial: Trial,
) -> bool {
    match trial {
        Trial::Meetings(wanted, workers) => tests_threads::meet(
            rt, report, wanted, workers, document,
        ),
        Trial::Late => tests_threads::end_late(rt, report, document),
        Trial::Cuts => tests_readers::are_cut(rt, report, document),
        Trial::Between(case) => tests_readers::fail_between(rt, report, case, document),
        Trial::Endless => tests_readers::are_ended(rt, report, document),
        Trial::Rooms => tests_writers::fill(rt, report, document),
        Trial::Alone => tests_writers::fill_alone(rt.alloc(), report, document),
        Trial::Behind => tests_writers::fail_behind(rt, report, document),
        Trial::Pieces => pieces::begin(rt, report, document),
        Trial::Piece => pieces::hold(rt, report),
        Trial::Unstarted => conversions::are_unstarted(rt, report, document),
        Trial::Conversions => conversions::hold(rt, report, document),
    }
}

/// Returns whether a case over a report ends as it must.
fn holds_over(
    rt: &(impl AllocGlobal + Threads + Wait + Sync),
    report: &Report,
    case: &Case,
) -> bool {
    match document_of(rt.alloc(), case.written, case.rows, case.end) {
        Ok(document) => succeeds(rt, report, document.as_bytes(), case.trial),
        Err(_) => false,
    }
}

/// Does the same over the report of a metadata and these types.
fn holds_with(
    rt: &(impl AllocGlobal + Threads + Wait + Sync),
    metadata: &[u8],
    types: Types,
    case: &Case,
) -> bool {
    let (alloc, limits) = (rt.alloc(), Limits::profile());
    match read_report(alloc, metadata, Parameters::none(alloc), types, limits) {
        Ok(report) => holds_over(rt, &report, case),
        Err(_) => false,
    }
}

/// Does the same over the report of a metadata.
fn holds_of(rt: &(impl AllocGlobal + Threads + Wait + Sync), metadata: &[u8], case: &Case) -> bool {
    match read_types(rt.alloc(), TYPES) {
        Ok(types) => holds_with(rt, metadata, types, case),
        Err(_) => false,
    }
}

/// Returns whether a case ends as it must.
pub(crate) fn holds(rt: &(impl AllocGlobal + Threads + Wait + Sync), case: &Case) -> bool {
    match metadata_of(rt.alloc(), case.tables) {
        Ok(metadata) => holds_of(rt, metadata.as_bytes(), case),
        Err(_) => false,
    }
}

/// Returns whether each of these cases does.
pub(crate) fn all_hold(rt: &(impl AllocGlobal + Threads + Wait + Sync), cases: &[Case]) -> bool {
    for case in cases {
        if !holds(rt, case) {
            return false;
        }
    }
    true
}
