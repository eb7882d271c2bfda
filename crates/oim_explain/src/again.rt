//! The explanation of a fault of the metadata, the types table or the parameters file.
//!
//! Not proved: what `report_explanation` returns. Tests cover it.

use crate::entries::{entry_found, wrong_entry};
use crate::explanation::Explanation;
use crate::files::{of_file, unread};
use crate::metadata::explain_metadata;
use crate::quotes::{UNCLOSED, unclosed_quote};
use oim_entries::{BadEntry, EntryProblem};
use oim_files::{FileFault, Folder, Source, metadata_at};
use oim_meta::{Finding, MetaFault};
use oim_names::{Items, Text};
use oim_places::{line_again, place_in_file};
use std::alloc::{AllocError, Global};
use std::io::Read;

/// Returns the explanation of a fault of the metadata at this path.
fn of_metadata<R: Read + Drop, F: Folder<R>>(
    alloc: Global,
    meta: &str,
    folder: &mut F,
    finding: &Finding,
) -> Result<Explanation, AllocError> {
    match metadata_at(alloc, folder, meta) {
        Ok(bytes) => explain_metadata(alloc, meta, bytes.as_slice(), finding),
        Err(early) => unread(alloc, meta, &early),
    }
}

/// Returns the explanation of a bad record of the file at this path, whose line is counted there.
fn of_record<R: Read + Drop, F: Folder<R>>(
    alloc: Global,
    folder: &mut F,
    path: &str,
    source: Source,
    bad: &BadEntry,
) -> Result<Explanation, AllocError> {
    let (fault, row) = (bad.fault(), bad.row());
    let line = line_again(alloc, folder, path, fault.number);
    let mut cause = wrong_entry(source, &fault, row);
    let mut advice = Items::new(alloc);
    if fault.problem == EntryProblem::CellCount {
        if let Some(opened) = unclosed_quote(alloc, folder, path, line)? {
            cause = UNCLOSED;
            advice.push(opened)?;
        }
    }
    Ok(Explanation {
        place: Text::new(place_in_file(alloc, path, line, fault.column)?),
        found: Text::new(entry_found(alloc, &fault, row)?),
        source: None,
        cause,
        advice,
        path: Items::new(alloc),
    })
}

/// Returns the path of the file that has a fault.
fn path_of<'p>(meta: &'p str, types: &'p str, source: Source, fault: &'p FileFault) -> &'p str {
    match (source, &fault.path) {
        (Source::Types, _) => types,
        (Source::Parameters, Some(path)) => path.as_str(),
        _ => meta,
    }
}

/// Returns the explanation of a fault that a run found in the metadata at `meta`, in the types
/// table at `types` or in the parameters file.
///
/// The metadata is read again for what is at the fault's place, and a file of entries for the line
/// of its bad record. If the metadata cannot be read again, the explanation is about that.
pub fn report_explanation<R: Read + Drop, F: Folder<R>>(
    alloc: Global,
    meta: &str,
    types: &str,
    folder: &mut F,
    source: Source,
    fault: &FileFault,
) -> Result<Explanation, AllocError> {
    let path = path_of(meta, types, source, fault);
    if let Some(bad) = &fault.entry {
        return of_record(alloc, folder, path, source, bad);
    }
    let finding = &fault.finding;
    match finding.fault {
        MetaFault::Memory | MetaFault::Read => of_file(alloc, path, finding.fault.explanation()),
        _ => of_metadata(alloc, path, folder, finding),
    }
}
