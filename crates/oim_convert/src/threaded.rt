//! The conversion on threads.

ghost use Rattle.std.specs.Prelude.{◌≡◌, ◌⊎◌, ◌≤◌, ◌<◌, ℕ, List, [], Option, None, All, IfOk, IfNone, length, map, replicate, vec_capacity};
ghost use Rattle.oim_convert.specs.Answer.{IsAnswer, streams};
ghost use Rattle.oim_convert.specs.Files.{AreFilesOf};
ghost use Rattle.oim_convert.specs.Histories.{AreUnserved};
ghost use Rattle.oim_convert.specs.Limits.{IsWorkerCount};
ghost use Rattle.oim_convert.specs.state.Preparing.{HasRun, HasTables, IsReady};
ghost use Rattle.oim_convert.specs.Runs.{AnswersFault, AreHistories, AreStreams, AreThreaded, AreUncut, Writes, early_fault};
ghost use Rattle.oim_convert.specs.Served.{AreServed};
ghost use Rattle.oim_json.specs.JsonText.{head_text};
ghost use Rattle.oim_ring.specs.Limits.{IsRingSize};

use crate::fault::ConvertFault;
use crate::lanes::open_lanes;
use crate::limits::MOST_WORKERS;
use crate::returning::{ReturnRoom, finish, return_room};
use crate::run::Run;
use crate::scope::{Unmerged, Worked, work_crew};
use crate::server::Serving;
use crate::table_task::{TableTask, TaskResult};
use oim_crew::{Crew, crew_of};
use oim_json::{Layout, Sink, head};
use oim_report::{Limits, Report};
use oim_ring::LARGEST_RING;
use std::alloc::{AllocError, Global};
use std::io::Read;
use std::sync::Wait;
use std::thread::Threads;

/// Returns the fault that is found before anything is prepared.
pub(crate) fn fault_before(
    workers: usize,
    size: usize,
    readers: usize,
    tables: usize,
) -> Option<ConvertFault>
    ensures fault { result ≡ early_fault workers size readers tables }
    ensures fine { IfNone result (IsWorkerCount workers × IsRingSize size × (readers ≡ tables)) }
{
    if workers < 1 || workers > MOST_WORKERS {
        return Some(ConvertFault::BadWorkers);
    }
    if size < 1 || size > LARGEST_RING {
        return Some(ConvertFault::BadSize);
    }
    if readers != tables {
        return Some(ConvertFault::WrongReaders);
    }
    None
}

/// Everything that a conversion needs, prepared before anything is written.
#[derive(Drop)]
struct Ready<R: Read + Drop, T: Threads + Wait> {
    crew: Crew<TableTask<R>, TaskResult, Serving, T, Report>,
    unmerged: Unmerged,
    room: ReturnRoom<R>,
}

/// Returns everything for a conversion with `workers` workers and rings of `size` blocks.
fn prepare<R: Read + Drop, T: Threads + Wait>(
    alloc: Global,
    report: &Report,
    readers: Vec<Option<R>>,
    workers: usize,
    size: usize,
    layout: Layout,
) -> Result<Ready<R, T>, AllocError>
    requires workers { IsWorkerCount workers }
    requires size { IsRingSize size }
    ensures readers { IfOk result (λ ready. map (λ task. task.reader) ready.crew.claims.items ≡ readers.items) }
    ensures ready { IfOk result (λ ready. IsReady ready) }
    ensures head { IfOk result (λ ready. ready.unmerged.head.items ≡ head_text report.now) }
    ensures layout { IfOk result (λ ready. ready.unmerged.layout ≡ layout) }
    ensures seats { IfOk result (λ ready. ready.crew.claims.workers ≡ workers) }
    ensures rings { IfOk result (λ ready. All (λ task. task.feed.size ≡ size) ready.crew.claims.items) }
{
    let (tasks, drains) = open_lanes(alloc, readers, workers, size)?;
    let room = return_room(alloc, tasks.len(), workers)?;
    let crew = crew_of(alloc, tasks, workers)?;
    let faults = Vec::with_capacity(alloc, drains.len())?;
    let unmerged = Unmerged {
        drains,
        faults,
        head: head(alloc, report)?,
        layout,
    };
    Ok(Ready {
        crew,
        unmerged,
        room,
    })
}

/// Runs a conversion for which everything is ready.
fn run_ready<R: Read + Drop + Send, T: Threads + Wait + Sync, W: Sink>(
    rt: &T,
    alloc: Global,
    report: &Report,
    limits: Limits,
    ready: Ready<R, T>,
    starts: usize,
    sink: &mut W,
) -> Result<Run, ConvertFault>
    requires ready { IsReady ready }
    requires count { length ready.crew.claims.items ≡ length report.now.tables }
    requires rows { limits.rows ≤ 4294967294 }
    requires head { ready.unmerged.head.items ≡ head_text report.now }
    ensures run { HasRun result }
    ensures tables { IfOk result (λ run. HasTables R.remaining report.now limits.rows starts ready.crew.claims.items run.drains.items) }
    ensures writes { Writes ready.unmerged.layout report.now (length report.now.tables) (W.seen sink.old) (W.seen sink.new) result }
{
    let Ready {
        crew,
        unmerged,
        room,
    } = ready;
    let server = Serving {
        alloc,
        limits,
        threaded: true,
    };
    let (claims, worked) = work_crew(rt, report, server, crew, starts, unmerged, sink);
    let Worked { shifts, merged } = worked;
    match finish(report, limits, claims, shifts, merged.drains, room) {
        Some(drains) => Ok(Run {
            drains,
            faults: merged.faults,
            end: merged.end,
        }),
        None => Err(ConvertFault::Lost),
    }
}

/// Converts a report on threads (xBRL-CSV 1.0, tables and table templates; xBRL-JSON 1.0, the
/// report object and the facts object). `workers` workers draw the tables and decode each into its
/// own ring of size `size`. The caller's thread writes the document of all facts to the sink, in
/// table order and in the given layout. While workers rest, helper threads decode pieces of tables.
/// A table without a reader has no file. `limits.rows` is at most 4,294,967,294. It waits for its
/// workers; that it returns is not proved.
///
/// The answer is the same for every number of workers, ring size and schedule: if no reader failed
/// and neither memory nor threads ran out, each history is its table's defined facts, and bytes and
/// end are the defined answer.
///
/// Returns a run in which each history is its table's stream, or a prefix of it that a failed read
/// (`Read`) or running out of memory (`Memory`) ended; or every table is refused with `NoThread`,
/// never only some. This holds of each table if contracts see the bytes of its own reader. Over any
/// reader, a fault in a table's history has that table's number. `NoThread` occurs only if no
/// worker could be started. No clause of this call can have that, because it does not know which
/// threads the system gave.
///
/// The run has the fault of each refused table, in table order. Its end is `Complete` if no table
/// is refused; `Refused` if one is, and then the document ends after the facts of the first refused
/// table; or `Write` if a write failed before, and then a prefix of the document is written.
///
/// Returns the first of these faults that applies: `BadWorkers`, if the number of workers is not 1
/// to 64; `BadSize`, if the ring's size is not 1 to 65,536; `WrongReaders`, if the number of
/// readers is not the number of tables. Returns `Memory` if memory runs out before anything is
/// written. In these cases nothing is written.
///
/// Returns `Lost` (54), a fault of the program itself, if a ring's token is lost. Then the document
/// of some histories, one for each table, or a prefix of it, is written. No clause ties them to the
/// tables.
pub fn convert<R: Read + Drop + Send, T: Threads + Wait + Sync, W: Sink>(
    rt: &T,
    alloc: Global,
    report: &Report,
    readers: Vec<Option<R>>,
    workers: usize,
    size: usize,
    limits: Limits,
    layout: Layout,
    sink: &mut W,
) -> Result<Run, ConvertFault>
    requires { limits.rows ≤ 4294967294 }

    // The headline, if contracts see all readers' bytes: the histories of the tables. NoThread ends
    // all of them or none. If none was cut short, each is its table's stream, and end and bytes are
    // the defined answer.
    ensures histories { (files : List (Option (List ℕ))) → AreFilesOf R.remaining readers.items files
        → IfOk result (λ run. AreHistories (streams report.now limits.rows files) run.drains.items) }
    ensures threads { (files : List (Option (List ℕ))) → AreFilesOf R.remaining readers.items files
        → IfOk result (λ run. AreUnserved 0 (streams report.now limits.rows files) run.drains.items ⊎ AreThreaded run.drains.items) }
    ensures headline { (files : List (Option (List ℕ))) → AreFilesOf R.remaining readers.items files
        → IfOk result (λ run. AreUncut run.drains.items → AreStreams (streams report.now limits.rows files) run.drains.items
        × IsAnswer layout report.now (streams report.now limits.rows files) (W.seen sink.old) (W.seen sink.new) run.faults.items run.end) }

    // For all readers: the history of each table by its own reader, each fault exactly if it
    // applies, and the text written.
    ensures tables { IfOk result (λ run. AreServed R.remaining report.now limits.rows workers readers.items run.drains.items) }
    ensures faults { AnswersFault (early_fault workers size (length readers.items) (length report.now.tables)) result }
    ensures writes { Writes layout report.now (length report.now.tables) (W.seen sink.old) (W.seen sink.new) result }
{
    convert_with_starts(
        rt, alloc, report, readers, workers, workers, size, limits, layout, sink,
    )
}

/// Converts a report on threads as [`convert`] does, but tries to start only the first `starts`
/// workers, and treats the others as workers that could not be started. With `starts` 0 every table
/// is refused with `NoThread`.
pub fn convert_with_starts<R: Read + Drop + Send, T: Threads + Wait + Sync, W: Sink>(
    rt: &T,
    alloc: Global,
    report: &Report,
    readers: Vec<Option<R>>,
    workers: usize,
    starts: usize,
    size: usize,
    limits: Limits,
    layout: Layout,
    sink: &mut W,
) -> Result<Run, ConvertFault>
    requires { limits.rows ≤ 4294967294 }

    // The headline, if contracts see the readers' bytes.
    ensures histories { (files : List (Option (List ℕ))) → AreFilesOf R.remaining readers.items files
        → IfOk result (λ run. AreHistories (streams report.now limits.rows files) run.drains.items) }
    ensures threads { (files : List (Option (List ℕ))) → AreFilesOf R.remaining readers.items files
        → IfOk result (λ run. AreUnserved 0 (streams report.now limits.rows files) run.drains.items ⊎ AreThreaded run.drains.items) }
    ensures headline { (files : List (Option (List ℕ))) → AreFilesOf R.remaining readers.items files
        → IfOk result (λ run. AreUncut run.drains.items → AreStreams (streams report.now limits.rows files) run.drains.items
        × IsAnswer layout report.now (streams report.now limits.rows files) (W.seen sink.old) (W.seen sink.new) run.faults.items run.end) }

    // If no worker is to be started, NoThread ends every table.
    ensures alone { starts ≡ 0 → (files : List (Option (List ℕ))) → AreFilesOf R.remaining readers.items files
        → IfOk result (λ run. AreUnserved 0 (streams report.now limits.rows files) run.drains.items) }

    // For all readers: the history of each table by its own reader, each fault exactly if it
    // applies, and the text written.
    ensures tables { IfOk result (λ run. AreServed R.remaining report.now limits.rows starts readers.items run.drains.items) }
    ensures faults { AnswersFault (early_fault workers size (length readers.items) (length report.now.tables)) result }
    ensures writes { Writes layout report.now (length report.now.tables) (W.seen sink.old) (W.seen sink.new) result }
{
    match fault_before(workers, size, readers.len(), report.tables()) {
        Some(fault) => return Err(fault),
        None => {}
    }
    let Ok(ready) = prepare(alloc, report, readers, workers, size, layout) else {
        return Err(ConvertFault::Memory);
    };
    run_ready(rt, alloc, report, limits, ready, starts, sink)
}
