//! Calls of `oim_files`.

use crate::held::{METADATA, TYPES};
use oim_files::{
    EarlyFault, Texts, folder_of, metadata_at, parameters_in, report_of, types_in, url_in,
};
use oim_meta::Report;
use std::alloc::Global;

/// Whether the files of a folder give a report of one table.
fn gives_one_table(alloc: Global, folder: &mut Texts<'_>) -> bool {
    let report: Result<Report, EarlyFault> = report_of(
        alloc,
        folder,
        folder_of("f/m.json"),
        "f/m.json",
        "t.csv",
    );
    report.is_ok_and(|report| report.tables() == 1)
}

/// Returns whether the metadata has the name of a parameters file.
fn names_parameters(alloc: Global, folder: &mut Texts<'_>) -> bool {
    let Ok(metadata) = metadata_at(alloc, folder, "f/m.json") else {
        return true;
    };
    match url_in(alloc, metadata.as_slice()) {
        Ok(url) => url.is_some(),
        Err(_) => true,
    }
}

/// Returns whether the types table is read, and no parameters without the name of a file.
fn reads_entries(alloc: Global, folder: &mut Texts<'_>) -> bool {
    types_in(alloc, folder, "t.csv").is_ok() && parameters_in(alloc, folder, "f/", None).is_ok()
}

/// Returns whether the calls over a folder of these files answer as they must.
fn hold(alloc: Global) -> bool {
    let files = [
        ("f/m.json", METADATA.as_bytes()),
        ("t.csv", TYPES.as_bytes()),
    ];
    let folder = &mut Texts { files: &files };
    gives_one_table(alloc, folder)
        && reads_entries(alloc, folder)
        && !names_parameters(alloc, folder)
}

#[test]
fn calls_of_files(rt: HostRuntime) {
    assert!(rt; hold(rt.alloc()));
}
