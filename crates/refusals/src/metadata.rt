//! Reading a report's metadata, types table and parameters file while memory runs out.

use crate::report::{METADATA, report};
use crate::scarcity::CallOutcome;
use oim_meta::{Limits, MetaFault, Report, parameter_url};
use std::alloc::Global;

/// Reads the URL of the parameters file.
pub(crate) fn reads_the_url(alloc: Global) -> CallOutcome {
    match parameter_url(alloc, METADATA, &Limits::profile()) {
        Ok(Some(url)) => CallOutcome::same(url.as_str() == "parameters.csv"),
        Ok(None) => CallOutcome::Wrong,
        Err(fault) => CallOutcome::refused(fault == MetaFault::Memory),
    }
}

/// Reads the types, the parameters and the metadata.
pub(crate) fn reads(alloc: Global) -> CallOutcome {
    match report(alloc) {
        Ok(report) => CallOutcome::same(report.tables() == 2),
        Err(fault) => CallOutcome::refused(fault == MetaFault::Memory),
    }
}

/// Copies a report.
pub(crate) fn copies(report: &Report) -> CallOutcome {
    match report.clone_report() {
        Ok(copy) => CallOutcome::same(copy.tables() == report.tables()),
        Err(_) => CallOutcome::Refused,
    }
}
