//! The report of these calls, the calls over it, and a fact.

use crate::{bad_rows, blocks, facts, fast_rows, pieces, reports, row_answers, rows, tables};
use oim_json::{Block, block_of};
use oim_meta::{Limits, Parameters, Report, Types, read_report, read_types};
use oim_names::{Items, Text};
use oim_resolve::Fact;
use std::alloc::{AllocError, Global};

/// The metadata of a report whose table `t1` has the columns `cash` and `note`.
pub(crate) const METADATA: &str =
    r#"{"documentInfo":{"documentType":"https://xbrl.org/2021/xbrl-csv",
"namespaces":{"eg":"http://example.com/eg","iso4217":"http://www.xbrl.org/2003/iso4217"},
"taxonomy":["http://example.com/eg.xsd"]},
"dimensions":{"entity":"eg:A1","period":"2021","unit":"iso4217:EUR"},
"tableTemplates":{"p":{"columns":{
"cash":{"dimensions":{"concept":"eg:Cash"}},
"note":{"dimensions":{"concept":"eg:Note"}}}}},
"tables":{"t1":{"url":"t1.csv","template":"p"}}}
"#;

/// The types of its concepts.
pub(crate) const TYPES: &str =
    "namespace,name,type\nhttp://example.com/eg,Cash,integer\nhttp://example.com/eg,Note,text\n";

/// A library whose calls are made over the report.
#[derive(Clone, Copy)]
pub(crate) enum Library {
    BadRows,
    Blocks,
    Facts,
    FastRows,
    Pieces,
    Reads,
    Reports,
    RowAnswers,
    Rows,
    Tables,
}

/// Returns whether the calls of a library over this report answer as they must.
fn hold_over(alloc: Global, report: &Report, over: Library) -> bool {
    match over {
        Library::BadRows => bad_rows::hold(alloc, report),
        Library::Blocks => blocks::hold(alloc, report),
        Library::Facts => facts::hold(alloc, report),
        Library::FastRows => fast_rows::hold(alloc, report),
        Library::Pieces => pieces::hold(alloc, report),
        Library::Reads => rows::hold_of_reads(alloc, report),
        Library::Reports => reports::hold(report),
        Library::RowAnswers => row_answers::hold(alloc, report),
        Library::Rows => rows::hold(alloc, report),
        Library::Tables => tables::hold(alloc, report),
    }
}

/// Does the same over the report with these types.
fn hold_with(alloc: Global, types: Types, over: Library) -> bool {
    let (metadata, parameters) = (METADATA.as_bytes(), Parameters::none(alloc));
    match read_report(alloc, metadata, parameters, types, Limits::profile()) {
        Ok(report) => hold_over(alloc, &report, over),
        Err(_) => false,
    }
}

/// Returns whether the calls of a library over the report answer as they must.
pub(crate) fn holds(alloc: Global, over: Library) -> bool {
    match read_types(alloc, TYPES.as_bytes()) {
        Ok(types) => hold_with(alloc, types, over),
        Err(_) => false,
    }
}

/// Returns a fact without a value and without dimensions.
pub(crate) fn nil_fact(alloc: Global) -> Result<Fact, AllocError> {
    match Text::from_str(alloc, "t1.r_1.note") {
        Ok(id) => Ok(Fact::new(id, None, None, Items::new(alloc))),
        Err(fault) => Err(fault),
    }
}

/// Returns the block with only that fact.
pub(crate) fn nil_block(alloc: Global) -> Result<Block, AllocError> {
    match nil_fact(alloc) {
        Ok(fact) => block_of(alloc, &[fact]),
        Err(fault) => Err(fault),
    }
}

/// The text of that fact.
pub(crate) const NIL_FACT: &[u8] = br#""t1.r_1.note":{"dimensions":{},"value":null}"#;
