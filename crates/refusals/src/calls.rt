//! The calls that are refused memory, and the values that they are made over.

use crate::report::{FIRST, report};
use crate::scarcity::{CallOutcome, RefusedCall, are_refused};
use crate::{cells, conversions, metadata, names, rings, rows};
use oim_meta::{Limits, Report};
use oim_names::Text;
use oim_resolve::{Fact, Row};
use oim_rows::Rows;
use std::alloc::Global;

/// A call of a library.
#[derive(Clone, Copy)]
pub(crate) enum Call {
    /// Binds prefixes.
    Binds,
    /// Writes a language in lower case.
    Lowers,
    /// Copies a shared text.
    CopiesText,
    /// Writes the text of a period.
    WritesQuarter,
    /// Reads the URL of a parameters file.
    ReadsUrl,
    /// Reads the types, the parameters and the metadata of a report.
    ReadsReport,
    /// Copies a report.
    CopiesReport,
    /// Opens a single ring, or the first ring of a report.
    OpensRing(bool),
    /// Opens claims of two items, and draws them.
    Claims,
    /// Resolves a cell.
    Resolves,
    /// Reads a table, row by row or in blocks.
    ReadsTable(bool),
    /// Writes the head of a document.
    WritesHead,
    /// Writes the text of a fact, or of two.
    WritesFacts(bool),
    /// Converts a report on one thread.
    Converts,
}

/// The values that calls are made over.
#[derive(Clone, Copy)]
pub(crate) struct CallValues<'a> {
    pub(crate) text: &'a Text,
    pub(crate) report: &'a Report,
    pub(crate) row: &'a Row,
    pub(crate) facts: &'a [Fact],
}

/// Makes a call. Nothing else in it allocates memory.
pub(crate) fn made(alloc: Global, call: Call, over: CallValues<'_>) -> CallOutcome {
    match call {
        Call::Binds => names::binds(alloc),
        Call::Lowers => names::lowers(alloc),
        Call::CopiesText => names::copies(over.text),
        Call::WritesQuarter => names::writes_a_quarter(alloc),
        Call::ReadsUrl => metadata::reads_the_url(alloc),
        Call::ReadsReport => metadata::reads(alloc),
        Call::CopiesReport => metadata::copies(over.report),
        Call::OpensRing(is_alone) => rings::opens(alloc, is_alone),
        Call::Claims => rings::claims(alloc),
        Call::Resolves => cells::resolves(alloc, over.report, over.row),
        Call::ReadsTable(in_blocks) => rows::reads(alloc, over.report, in_blocks),
        Call::WritesHead => rows::writes_the_head(alloc, over.report),
        Call::WritesFacts(are_two) => rows::writes(alloc, over.facts, are_two),
        Call::Converts => conversions::converts(alloc, over.report),
    }
}

/// Returns whether these calls are refused memory over a report, a row and its facts.
fn over_facts(
    alloc: Global,
    report: &Report,
    row: &Row,
    facts: &[Fact],
    trials: &[RefusedCall],
) -> bool {
    let Ok(text) = Text::from_str(alloc, "http://example.com/eg") else {
        return false;
    };
    match text.share() {
        Ok(text) => {
            let over = CallValues {
                text: &text,
                report,
                row,
                facts,
            };
            are_refused(alloc, trials, over)
        }
        Err(_) => false,
    }
}

/// Does the same over a report and a row.
fn over_row(alloc: Global, report: &Report, row: &Row, trials: &[RefusedCall]) -> bool {
    if report.tables() == 0 {
        return false;
    }
    let Ok(mut rows) = Rows::open(alloc, report, 0, FIRST, Limits::profile()) else {
        return false;
    };
    match rows.next() {
        Ok(Some(facts)) => over_facts(alloc, report, row, facts.as_slice(), trials),
        _ => false,
    }
}

/// Does the same over a report.
fn over_report(alloc: Global, report: &Report, trials: &[RefusedCall]) -> bool {
    match cells::first_row(alloc) {
        Ok(row) => over_row(alloc, report, &row, trials),
        Err(_) => false,
    }
}

/// Returns whether these calls are refused memory as often as they must.
fn hold(alloc: Global, trials: &[RefusedCall]) -> bool {
    match report(alloc) {
        Ok(report) => over_report(alloc, &report, trials),
        Err(_) => false,
    }
}

/// The count of bytes that suffices for most calls.
const ROOM: usize = 65_536;

const NAMES: &[RefusedCall] = &[
    (Call::Binds, ROOM, 3),
    (Call::Lowers, ROOM, 1),
    (Call::WritesQuarter, ROOM, 1),
    (Call::CopiesText, 0, 0),
];

#[test]
fn names_without_memory(rt: HostRuntime) {
    assert!(rt; hold(rt.alloc(), NAMES));
}

const READERS: &[RefusedCall] = &[
    (Call::ReadsUrl, 4 * ROOM, 20),
    (Call::ReadsReport, 4 * ROOM, 1_000),
    (Call::CopiesReport, ROOM, 20),
];

#[test]
fn metadata_without_memory(rt: HostRuntime) {
    assert!(rt; hold(rt.alloc(), READERS));
}

const RINGS: &[RefusedCall] = &[
    (Call::OpensRing(true), ROOM, 3),
    (Call::OpensRing(false), ROOM, 3),
    (Call::Claims, ROOM, 5),
];

#[test]
fn rings_and_claims_without_memory(rt: HostRuntime) {
    assert!(rt; hold(rt.alloc(), RINGS));
}

const TABLES: &[RefusedCall] = &[
    (Call::Resolves, ROOM, 20),
    (Call::ReadsTable(false), 4 * ROOM, 50),
    (Call::ReadsTable(true), 4 * ROOM, 50),
];

#[test]
fn cells_and_tables_without_memory(rt: HostRuntime) {
    assert!(rt; hold(rt.alloc(), TABLES));
}

const TEXTS: &[RefusedCall] = &[
    (Call::WritesHead, ROOM, 10),
    (Call::WritesFacts(false), ROOM, 10),
    (Call::WritesFacts(true), ROOM, 20),
];

#[test]
fn texts_without_memory(rt: HostRuntime) {
    assert!(rt; hold(rt.alloc(), TEXTS));
}

const CONVERSIONS: &[RefusedCall] = &[(Call::Converts, 4 * ROOM, 50)];

#[test]
fn a_conversion_on_one_thread_without_memory(rt: HostRuntime) {
    assert!(rt; hold(rt.alloc(), CONVERSIONS));
}
