//! The report of a run, read again.
//!
//! Not proved: `metadata` and `parameters` of `ReportAgain`, and the early fault that
//! `report_again` returns.

ghost use Rattle.std.specs.Prelude.{◌≡◌, IfOk, IfSome, Ok};
ghost use Rattle.oim_files.specs.Steps.{GivesRest};
ghost use Rattle.oim_places.specs.Reports.{IsReportOf};

use crate::json_values::after_mark;
use crate::parameter_lines::ParameterLines;
use oim_files::{EarlyFault, FileFault, Folder, Source, folder_of, metadata_at, report_with};
use oim_meta::{MetaFault, Report};
use serde_json::Value;
use std::alloc::Global;
use std::io::Read;

/// Returns the value to which keys lead, if it exists.
fn value_under<'v>(value: &'v Value, keys: &[&str]) -> Option<&'v Value> {
    let mut here = value;
    for key in keys {
        here = match here.get(*key) {
            Some(next) => next,
            None => return None,
        };
    }
    Some(here)
}

/// A report, and its metadata as it is written.
pub struct ReportAgain {
    /// The report.
    pub report: Report,
    /// The value in its metadata file.
    pub metadata: Value,
    /// Its parameters file, if it has one.
    pub parameters: Option<ParameterLines>,
}

// Written by hand so that dropping one elsewhere compiles to a single call.
impl Drop for ReportAgain {
    fn drop(self) {
        let Self {
            report: _,
            metadata: _,
            parameters: _,
        } = self;
    }
}

impl ReportAgain {
    /// Returns what is at the place of the metadata to which these keys lead.
    pub fn written_at(&self, keys: &[&str]) -> Option<&Value> {
        value_under(&self.metadata, keys)
    }
}

/// Returns the value that a metadata of these bytes is, as it is written.
fn value_of(alloc: Global, bytes: &[u8]) -> Result<Value, EarlyFault> {
    match Value::from_slice(alloc, after_mark(bytes)) {
        Ok(value) => Ok(value),
        Err(error) if error.is_memory() => Err(EarlyFault::Memory),
        Err(_) => {
            let fault = FileFault::of_whole(alloc, MetaFault::Syntax);
            Err(EarlyFault::Report(Source::Report, fault))
        }
    }
}

/// Returns the report of a metadata with these bytes, which is this value.
fn with_metadata<R: Read + Drop, F: Folder<R>>(
    alloc: Global,
    base: &str,
    types: &str,
    folder: &mut F,
    bytes: Vec<u8>,
    metadata: Value,
) -> Result<ReportAgain, EarlyFault>
    ensures same { F.files folder.new ≡ F.files folder.old }
    ensures report { IfOk result (λ a. IfSome (F.files folder.old) (λ files. GivesRest files base.now bytes.items types.now (Ok a.report))) }
{
    let report = match report_with(alloc, folder, base, bytes, types) {
        Ok(report) => report,
        Err(early) => return Err(early),
    };
    match ParameterLines::read(alloc, folder, base, &metadata) {
        Ok(parameters) => Ok(ReportAgain {
            report,
            metadata,
            parameters,
        }),
        Err(_) => Err(EarlyFault::Memory),
    }
}

/// Returns the report of a metadata with these bytes.
fn with_bytes<R: Read + Drop, F: Folder<R>>(
    alloc: Global,
    base: &str,
    types: &str,
    folder: &mut F,
    bytes: Vec<u8>,
) -> Result<ReportAgain, EarlyFault>
    ensures same { F.files folder.new ≡ F.files folder.old }
    ensures report { IfOk result (λ a. IfSome (F.files folder.old) (λ files. GivesRest files base.now bytes.items types.now (Ok a.report))) }
{
    match value_of(alloc, bytes.as_slice()) {
        Ok(metadata) => with_metadata(alloc, base, types, folder, bytes, metadata),
        Err(early) => Err(early),
    }
}

/// Reads the report whose metadata and types table are at these paths again, each file once, and
/// the lines of its parameters. May fail with an early fault, which names the file.
pub fn report_again<R: Read + Drop, F: Folder<R>>(
    alloc: Global,
    meta: &str,
    types: &str,
    folder: &mut F,
) -> Result<ReportAgain, EarlyFault>
    ensures same { F.files folder.new ≡ F.files folder.old }
    ensures report { IfOk result (λ a. IfSome (F.files folder.old) (λ files. IsReportOf files meta.now types.now a.report)) }
{
    match metadata_at(alloc, folder, meta) {
        Ok(bytes) => with_bytes(alloc, folder_of(meta), types, folder, bytes),
        Err(early) => Err(early),
    }
}
