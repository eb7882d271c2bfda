//! A run, from the files of a folder to a document.
//!
//! Not proved: that a run with more than one worker returns, because it waits for them.

ghost use Rattle.std.specs.Prelude.{◌≡◌, IfSome, IfErr, IfOk, None, length};
ghost use Rattle.oim_convert.specs.Files.{AreFilesOf};
ghost use Rattle.oim_run.specs.Early as spec;
ghost use Rattle.oim_run.specs.Outcomes.{Leaves};
ghost use Rattle.oim_run.specs.Runs.{EndsOver, range_fault, table_files};
ghost use Rattle.oim_run.specs.state.Courses.{EndsIn};

use crate::conversion::{Course, convert_alone, convert_report, is_alone};
use crate::early::{ended_early, no_memory};
use crate::outcome::Outcome;
use crate::settings::Settings;
use oim_files::{Folder, folder_of, path_in, report_of};
use oim_json::{Layout, Sink};
use oim_meta::{Limits, Report};
use std::alloc::Global;
use std::io::Read;
use std::sync::Wait;
use std::thread::Threads;

/// Returns a reader of each table's file, in table order, which may open the file only when it is
/// read. `None` is a file that does not exist. Returns the outcome Memory if memory runs out.
fn find_tables<R: Read + Drop, F: Folder<R>>(
    alloc: Global,
    folder: &mut F,
    base: &str,
    report: &Report,
) -> Result<Vec<Option<R>>, Outcome>
    ensures finds { IfSome (F.files folder.old) (λ files. IfOk result (λ readers. AreFilesOf R.remaining readers.items (table_files files base.now report.now))) }
    ensures count { IfOk result (λ readers. length readers.items ≡ length report.now.tables) }
    ensures short { IfErr result (λ o. o ≡ spec.no_memory) }
{
    let mut readers = Vec::new(alloc);
    for table in 0..report.tables() {
        let Ok(path) = path_in(alloc, base, report.table_url(table)) else {
            return Err(no_memory());
        };
        let reader = folder.find(path);
        if readers.push(reader).is_err() {
            return Err(no_memory());
        }
    }
    Ok(readers)
}

/// Converts the tables of a report, each of whose files is in a folder at `base` followed by its
/// URL, as `run` does when it has the report.
fn run_tables<R: Read + Drop + Send, F: Folder<R>, T: Threads + Wait + Sync, W: Sink>(
    rt: &T,
    alloc: Global,
    settings: &Settings,
    folder: &mut F,
    base: &str,
    report: &Report,
    sink: &mut W,
) -> Outcome
    ensures ends { IfSome (F.files folder.old) (λ files. EndsIn files base.now report.now settings.now.workers settings.now.ring settings.now.layout (W.seen sink.old) (W.seen sink.new) result) }
    ensures leaves { Leaves settings.now.workers (range_fault settings.now.workers settings.now.ring) (W.seen sink.old) (W.seen sink.new) result }
{
    match find_tables(alloc, folder, base, report) {
        Ok(readers) => {
            let course = Course {
                workers: settings.workers,
                ring: settings.ring,
                limits: Limits::profile(),
                layout: settings.layout,
            };
            convert_report(rt, alloc, report, readers, course, sink)
        }
        Err(outcome) => outcome,
    }
}

/// Converts the tables of a report as `run_tables` does with one worker, without a runtime.
fn tables_alone<R: Read + Drop, F: Folder<R>, W: Sink>(
    alloc: Global,
    layout: Layout,
    folder: &mut F,
    base: &str,
    report: &Report,
    sink: &mut W,
) -> Outcome
    ensures ends { IfSome (F.files folder.old) (λ files. EndsIn files base.now report.now 1 1 layout (W.seen sink.old) (W.seen sink.new) result) }
    ensures leaves { Leaves 1 None (W.seen sink.old) (W.seen sink.new) result }
{
    match find_tables(alloc, folder, base, report) {
        Ok(readers) => convert_alone(alloc, report, readers, Limits::profile(), layout, sink),
        Err(outcome) => outcome,
    }
}

/// Runs as [`run`] does with one worker: on the caller's thread, without a runtime, and without a
/// ring. `NoThread`, `Lost`, `BadWorkers` and `BadSize` are impossible. Nothing is waited for.
pub fn run_alone<R: Read + Drop, F: Folder<R>, W: Sink>(
    alloc: Global,
    meta: &str,
    types: &str,
    layout: Layout,
    folder: &mut F,
    sink: &mut W,
) -> Outcome
    // If contracts see the folder's files: how the run ends.
    ensures ends { IfSome (F.files folder.old) (λ files. EndsOver files meta.now types.now 1 1 layout (W.seen sink.old) (W.seen sink.new) result) }

    // For every folder: what each outcome leaves in the sink.
    ensures leaves { Leaves 1 None (W.seen sink.old) (W.seen sink.new) result }
{
    let base = folder_of(meta);
    match report_of(alloc, folder, base, meta, types) {
        Ok(report) => tables_alone(alloc, layout, folder, base, &report, sink),
        Err(fault) => ended_early(fault),
    }
}

/// Converts a report and writes its document to the sink. The metadata file is at `settings.meta`,
/// the types table at `settings.types` (xBRL-CSV 1.0, metadata, parameters, tables and table
/// templates). The document (xBRL-JSON 1.0, the report object and the facts object) has the layout
/// `settings.layout`. The path of each table's file and of the parameters file is the folder of the
/// metadata's path followed by their URL. The run has `settings.workers` workers and rings of
/// `settings.ring` blocks. If there is more than one worker, it waits for them; one worker is
/// [`run_alone`].
///
/// Returns how the run ended. `Done` and `Tables` are the same for every number of workers, ring
/// size and schedule, apart from failed reads and running out of memory or threads:
///
/// - `Done`: exactly the document of the files' bytes is written, in this layout.
/// - `Tables`: these tables are refused, each with its first fault, in table order. The unfinished
///   document is written, up to and including the first of them. A table whose file does not exist
///   has the fault `NoFile`, unless it is optional.
/// - `Report` or `CannotRead`: the metadata, the types table or the parameters file has a fault. It
///   is the first one, in the order in which the files are read. Nothing is written.
/// - `Output`: a write failed. A prefix of the defined document is written, whatever faults
///   occurred.
/// - `Run` with `Memory`: memory ran out. Nothing is written.
/// - `Run` with `BadWorkers`: exactly if there is no early fault, memory did not run out, and the
///   number of workers is not 1 to 64. `BadSize`: likewise, if that number is in range and the
///   ring's size is not 1 to 65,536. Nothing is written.
/// - `Run` with `Lost`: a ring's token was lost, by a fault of the program itself. The document of
///   some facts, or a prefix of it, is written, and no clause ties these facts to the files. It is
///   impossible with one worker.
///
/// A failed read of the metadata, the types table or the parameters file is `Report` with its
/// source. A failed read and running out of memory or threads refuse a table with `Read`, `Memory`
/// and `NoThread`; the last is impossible with one worker.
pub fn run<R: Read + Drop + Send, F: Folder<R>, T: Threads + Wait + Sync, W: Sink>(
    rt: &T,
    alloc: Global,
    settings: &Settings,
    folder: &mut F,
    sink: &mut W,
) -> Outcome
    // If contracts see the folder's files: how the run ends.
    ensures ends { IfSome (F.files folder.old) (λ files.
        EndsOver files settings.now.meta settings.now.types settings.now.workers settings.now.ring settings.now.layout
        (W.seen sink.old) (W.seen sink.new) result) }

    // For every folder: what each outcome leaves in the sink.
    ensures leaves { Leaves settings.now.workers (range_fault settings.now.workers settings.now.ring) (W.seen sink.old) (W.seen sink.new) result }
{
    let meta = settings.meta.as_str();
    let types = settings.types.as_str();
    if is_alone(settings.workers, settings.ring) {
        return run_alone(alloc, meta, types, settings.layout, folder, sink);
    }
    let base = folder_of(meta);
    match report_of(alloc, folder, base, meta, types) {
        Ok(report) => run_tables(rt, alloc, settings, folder, base, &report, sink),
        Err(fault) => ended_early(fault),
    }
}
