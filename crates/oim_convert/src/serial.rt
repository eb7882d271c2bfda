//! The conversion on one thread.

ghost use Rattle.std.specs.Prelude.{◌≡◌, ◌≢◌, ◌↔◌, ◌≤◌, ◌<◌, ℕ, List, [], Option, Err, IfErr, IfSome, length, vec_capacity};
ghost use Rattle.oim_json.specs.JsonText.{head_text};
ghost use Rattle.oim_merge.specs.Writers.{IsBroken};
ghost use Rattle.oim_convert.specs.Answer.{streams};
ghost use Rattle.oim_convert.specs.Files.{AreFilesOf};
ghost use Rattle.oim_convert.specs.ReadAlone.{AreRead};
ghost use Rattle.oim_convert.specs.Runs.{AnswersFault, early_fault};
ghost use Rattle.oim_convert.specs.Serial.{AreFew, Converts, IsOfTables, Leaves, WritesAlone, WritesHere};
ghost use Rattle.oim_convert.specs.WrittenHistories.{WritesUntil};
ghost use Rattle.oim_convert.specs.state.Serial as spec;
ghost use Rattle.oim_convert.specs.state.Steps.{Gave, GaveFile, GaveTable, TookBlocks};
ghost use Rattle.oim_convert.specs.declared.fault.ConvertFault.TheVariants as fault;

use crate::decode::{numbered, refused, without_file};
use crate::fault::ConvertFault;
use crate::run::Run;
use crate::threaded::fault_before;
use oim_decode::TableBlocks;
use oim_json::{Layout, Sink, Spare, WriteFault, head};
use oim_merge::{DocumentWriter, MergeEnd};
use oim_report::{Limits, Report};
use oim_ring::Ending;
use oim_rows::{TableFault, TableKind};
use std::alloc::Global;
use std::io::Read;

/// Gives the remaining blocks to the writer, and returns the table's ending. Stops at a failed
/// write.
fn write_blocks<R: Read + Drop, W: Sink>(
    alloc: Global,
    blocks: &mut TableBlocks<'_, R>,
    table: usize,
    writer: &mut DocumentWriter,
    sink: &mut W,
) -> Result<Ending, WriteFault>
    requires table { blocks.old.table ≡ table }
    requires begun { blocks.old.pending ≡ [] }
    requires sink { writer.old.sink ≡ W.seen sink.old }
    ensures sink { writer.new.sink ≡ W.seen sink.new }
    ensures took { TookBlocks writer.old writer.new (λ facts. IfSome blocks.old.left (λ s. Gave table s facts result)) }
    ensures broken { IfErr result (λ fault. IsBroken writer.new fault) }
{
    let mut spare = Spare::new(alloc);
    // The bound is never reached: a table has fewer blocks.
    for _ in 0..u64::MAX {
        match blocks.next_block(spare) {
            Ok(Some(block)) => {
                writer.put(&block, sink);
                if let Some(fault) = writer.fault() {
                    return Err(fault);
                }
                spare = block.into_spare();
            }
            Ok(None) => return Ok(Ending::Closed),
            Err(fault) => return Ok(Ending::Refused(fault)),
        }
    }
    Ok(refused(table, TableKind::Memory))
}

/// Reads a table's file to its end, gives its blocks to the writer, and returns the table's ending.
/// Stops at a failed write.
fn convert_file<R: Read + Drop, W: Sink>(
    alloc: Global,
    report: &Report,
    table: usize,
    reader: R,
    limits: Limits,
    writer: &mut DocumentWriter,
    sink: &mut W,
) -> Result<Ending, WriteFault>
    requires place { table < length report.now.tables }
    requires rows { limits.rows ≤ 4294967294 }
    requires sink { writer.old.sink ≡ W.seen sink.old }
    ensures sink { writer.new.sink ≡ W.seen sink.new }
    ensures took { TookBlocks writer.old writer.new (λ facts. GaveFile (R.remaining reader) report.now table limits.rows facts result) }
    ensures broken { IfErr result (λ fault. IsBroken writer.new fault) }
{
    match TableBlocks::open(alloc, report, table, reader, limits) {
        Ok(mut blocks) => write_blocks(alloc, &mut blocks, table, writer, sink),
        Err(fault) => Ok(Ending::Refused(fault)),
    }
}

/// Reads a table to its end, gives its blocks to the writer, and returns its ending. Stops at a
/// failed write.
fn convert_table<R: Read + Drop, W: Sink>(
    alloc: Global,
    report: &Report,
    table: usize,
    reader: Option<R>,
    limits: Limits,
    writer: &mut DocumentWriter,
    sink: &mut W,
) -> Result<Ending, WriteFault>
    requires place { table < length report.now.tables }
    requires rows { limits.rows ≤ 4294967294 }
    requires sink { writer.old.sink ≡ W.seen sink.old }
    ensures sink { writer.new.sink ≡ W.seen sink.new }
    ensures took { TookBlocks writer.old writer.new (λ facts. GaveTable R.remaining report.now table limits.rows reader facts result) }
    ensures broken { IfErr result (λ fault. IsBroken writer.new fault) }
{
    match reader {
        None => Ok(without_file(report, table)),
        Some(reader) => convert_file(alloc, report, table, reader, limits, writer, sink),
    }
}

/// Reads all tables to their ends, gives them to a writer that has only begun, and ends the
/// document. Appends the fault of each refused table to `faults`, which must be empty and have room
/// for one of each. Stops at a failed write.
fn convert_tables<R: Read + Drop, W: Sink>(
    alloc: Global,
    report: &Report,
    readers: Vec<Option<R>>,
    limits: Limits,
    faults: &mut Vec<TableFault>,
    mut writer: DocumentWriter,
    sink: &mut W,
) -> MergeEnd
    requires head { writer.head ≡ head_text report.now }
    requires count { length readers.items ≡ length report.now.tables }
    requires rows { limits.rows ≤ 4294967294 }
    requires empty { faults.old.items ≡ [] }
    requires room { length readers.items ≤ vec_capacity faults.old }
    requires begun { writer.items ≡ [] }
    requires sink { writer.sink ≡ W.seen sink.old }
    ensures { WritesUntil (AreRead R.remaining report.now limits.rows 0 readers.items) writer.layout report.now writer.before (W.seen sink.new) faults.new.items result }
{
    if let Some(fault) = writer.fault() {
        return MergeEnd::Write(fault);
    }
    let mut table = 0;
    for reader in readers {
        match convert_table(alloc, report, table, reader, limits, &mut writer, sink) {
            Ok(ending) => writer.end_table(numbered(table, ending), faults),
            Err(fault) => return MergeEnd::Write(fault),
        }
        table += 1;
    }
    writer.finish(sink)
}

/// Converts a report on one thread as [`convert_serial`] does, and answers as
/// [`convert`](crate::convert) does: with a run, which has no drains, or with `WrongReaders` or
/// `Memory`. After a failed write nothing more is read, and the run has the faults of the tables
/// before it. `limits.rows` is at most 4,294,967,294.
pub fn convert_here<R: Read + Drop, W: Sink>(
    alloc: Global,
    report: &Report,
    readers: Vec<Option<R>>,
    limits: Limits,
    layout: Layout,
    sink: &mut W,
) -> Result<Run, ConvertFault>
    requires { limits.rows ≤ 4294967294 }

    // The fault is that of one worker and rings of one block.
    ensures faults { AnswersFault (early_fault 1 1 (length readers.items) (length report.now.tables)) result }
    ensures writes { WritesHere R.remaining layout report.now limits.rows readers.items (W.seen sink.old) (W.seen sink.new) result }
{
    if let Some(fault) = fault_before(1, 1, readers.len(), report.tables()) {
        return Err(fault);
    }
    let Ok(head) = head(alloc, report) else {
        return Err(ConvertFault::Memory);
    };
    let Ok(mut faults) = Vec::with_capacity(alloc, readers.len()) else {
        return Err(ConvertFault::Memory);
    };
    let drains = Vec::new(alloc);
    let writer = DocumentWriter::begin(layout, head.as_slice(), sink);
    let end = convert_tables(alloc, report, readers, limits, &mut faults, writer, sink);
    Ok(Run {
        drains,
        faults,
        end,
    })
}

/// Returns the answer of a conversion on one thread, by its run.
fn answer_of(run: Result<Run, ConvertFault>) -> Result<(), ConvertFault>
    ensures { result ≡ spec.answer_of run }
{
    let run = run?;
    match run.end {
        MergeEnd::Complete => Ok(()),
        MergeEnd::Refused => Err(ConvertFault::Tables(run.faults)),
        MergeEnd::Write(fault) => Err(ConvertFault::Write(fault)),
    }
}

/// Converts a report on one thread: reads each table with its reader, in table order, and writes
/// the document of all facts to the sink in the given layout (xBRL-CSV 1.0, tables and table
/// templates; xBRL-JSON 1.0, the report object and the facts object). A table without a reader has
/// no file. `limits.rows` is at most 4,294,967,294.
///
/// Returns `WrongReaders` exactly if the number of readers is not the number of tables, and
/// `Memory` if memory runs out before anything is written. In both cases nothing is written.
///
/// Returns `Tables` if tables have faults, with the first fault of each such table in table order.
/// All tables are then read, and the unfinished document has the facts up to the first of these
/// faults. A failed read or running out of memory refuses a table too.
///
/// Returns `Write` if a write failed: a prefix of the document is then written. It never returns
/// another fault, so never `Lost`.
pub fn convert_serial<R: Read + Drop, W: Sink>(
    alloc: Global,
    report: &Report,
    readers: Vec<Option<R>>,
    limits: Limits,
    layout: Layout,
    sink: &mut W,
) -> Result<(), ConvertFault>
    requires { limits.rows ≤ 4294967294 }

    // The text and the answer, if contracts see the readers' bytes.
    ensures converts { (files : List (Option (List ℕ))) → AreFilesOf R.remaining readers.items files
        → Converts layout report.now (streams report.now limits.rows files) (W.seen sink.old) (W.seen sink.new) result }

    // For all readers: each table has a history, which is decoded from its file if contracts see
    // the bytes of its own reader. The text and the answer are those of these histories.
    ensures writes { WritesAlone R.remaining layout report.now limits.rows readers.items (W.seen sink.old) (W.seen sink.new) result }
    ensures tables { IsOfTables (length report.now.tables) result }
    ensures readers { (result ≡ Err fault.WrongReaders) ↔ (length readers.items ≢ length report.now.tables) }
    ensures leaves { Leaves (W.seen sink.old) (W.seen sink.new) result }
    ensures few { AreFew (length report.now.tables) result }
{
    answer_of(convert_here(alloc, report, readers, limits, layout, sink))
}
