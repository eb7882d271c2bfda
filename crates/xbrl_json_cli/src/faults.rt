//! Writes the file of `--faults`, after the run has ended and before it is told.
//!
//! Not proved: what is written to the system's files.

ghost use Rattle.std.specs.Prelude.{IfSome};
ghost use Rattle.oim_run.specs.Outputs.{IsLeftUnwritten};

use crate::files_again::FilesAgain;
use crate::known::{Known, KnownTables, Reread};
use crate::target::Target;
use crate::whole_file::{Content, can_be_made, write_whole};
use crate::write_failure::WriteFailure;
use oim_names::Text;
use oim_rows::TableFault;
use oim_run::{
    Explanation, FileFault, Outcome, Request, Settings, Source, cannot_write, fault_header,
    report_explanation, status, write_report_fault, write_table_faults,
};
use std::alloc::Global;
use std::io;
use std::io::{BufWriter, Write};

/// Returns the path of the document's file.
pub fn document_path(settings: &Settings) -> &str {
    match &settings.out {
        Some(path) => path.as_str(),
        None => "/dev/stdout",
    }
}

/// Whether the file at a path is the metadata, the types table or the document.
pub fn is_taken(rt: &HostRuntime, settings: &Settings, path: &str) -> bool {
    let target = Target::of(rt, path);
    settings.reads(path)
        || target.is_at(rt, settings.meta.as_str())
        || target.is_at(rt, settings.types.as_str())
        || target.is_at(rt, document_path(settings))
}

/// Returns the outcome of a run that cannot write the file of the faults, if that is known before
/// the run. It must not be the metadata, the types table or the document.
pub fn refused_before(rt: &HostRuntime, alloc: Global, request: &Request) -> Option<Outcome> {
    let path = request.faults.as_ref()?;
    let path = path.as_str();
    if !is_taken(rt, &request.settings, path) && can_be_made(rt, alloc, path) {
        return None;
    }
    Some(cannot_write(alloc, path))
}

/// Writes the records of refused tables. Reads the report again for them, and returns what it found
/// out.
fn write_tables<W: Write>(
    alloc: Global,
    request: &Request,
    files: &mut FilesAgain<'_>,
    tables: &[(Text, TableFault)],
    to: &mut W,
) -> io::Result<KnownTables> {
    let mut known = KnownTables::read(alloc, &request.settings, files);
    let (meta, most) = (request.settings.meta.as_str(), request.most_faults);
    known.listed = write_table_faults(alloc, meta, files, &known.report, tables, most, to)?;
    Ok(known)
}

/// Writes the record of a fault of the metadata, the types table or the parameters file. Returns
/// what it found out for it.
fn write_report<W: Write>(
    alloc: Global,
    settings: &Settings,
    files: &mut FilesAgain<'_>,
    source: Source,
    fault: &FileFault,
    to: &mut W,
) -> io::Result<Explanation> {
    let (meta, types) = (settings.meta.as_str(), settings.types.as_str());
    let told = report_explanation(alloc, meta, types, files, source, fault)?;
    write_report_fault(alloc, fault, &told, to)?;
    Ok(told)
}

/// The records of a run's faults.
#[derive(Drop)]
struct FaultRecords<'a, 'b> {
    alloc: Global,
    request: &'a Request,
    outcome: &'a Outcome,
    reread: &'a mut Reread<'b>,
}

impl<'a, 'b> FaultRecords<'a, 'b> {
    /// Writes the records.
    fn write_records<W: Write>(&mut self, to: &mut W) -> io::Result<()> {
        let alloc = self.alloc;
        match self.outcome {
            Outcome::Tables(tables) => {
                let files = &mut self.reread.files;
                let known = write_tables(alloc, self.request, files, tables.as_slice(), to)?;
                self.reread.known = Known::Tables(known);
            }
            Outcome::Report(source, fault) => {
                let settings = &self.request.settings;
                let files = &mut self.reread.files;
                let told = write_report(alloc, settings, files, *source, fault, to)?;
                self.reread.known = Known::Report(told);
            }
            _ => {}
        }
        Ok(())
    }
}

impl<'a, 'b> Content for FaultRecords<'a, 'b> {
    /// Writes the header and the records.
    fn write_to<W: Write + Drop>(&mut self, to: W) -> io::Result<()> {
        let mut buffered = BufWriter::new(self.alloc, to)?;
        buffered.write_all(fault_header().as_bytes())?;
        self.write_records(&mut buffered)?;
        buffered.flush()
    }
}

/// Writes the file of the faults, and returns whether it is whole. `failure` gets why a write
/// failed.
fn write_file(
    rt: &HostRuntime,
    records: &mut FaultRecords<'_, '_>,
    path: &str,
    failure: &WriteFailure,
) -> bool {
    if Target::of(rt, path).is_at(rt, document_path(&records.request.settings)) {
        return false;
    }
    let alloc = records.alloc;
    write_whole(rt, alloc, records, path, failure)
}

/// Writes the file of the faults, if the command line names one and the exit status is 0 or 1.
///
/// The file gets its header and the records of each refused table, or that of the fault of another
/// file of the report. It is replaced only by a whole one. `reread` gets what was found out for it.
/// Returns the outcome that it cannot be written, if so; `failure` then gets why a write failed.
pub fn write_faults(
    rt: &HostRuntime,
    alloc: Global,
    request: &Request,
    outcome: &Outcome,
    reread: &mut Reread<'_>,
    failure: &WriteFailure,
) -> Option<Outcome>
    ensures { IfSome result (λ last. IsLeftUnwritten request.now.faults outcome.now last) }
{
    let path = request.faults.as_ref()?;
    let path = path.as_str();
    let records = &mut FaultRecords {
        alloc,
        request,
        outcome,
        reread,
    };
    if status(outcome) > 1 || write_file(rt, records, path, failure) {
        return None;
    }
    Some(cannot_write(alloc, path))
}
