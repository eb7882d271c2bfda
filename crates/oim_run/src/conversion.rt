//! Converting a report whose tables are given by readers.

ghost use Rattle.std.specs.Prelude.{◌≡◌, ◌≤◌, ◌<◌, ℕ, [], None, IfOk, false, length, slice_set, true, vec_capacity};
ghost use Rattle.oim_convert.specs.Runs.{early_fault};
ghost use Rattle.oim_run.specs.Outcomes.{ConvertsBy, LeavesBy};
ghost use Rattle.oim_run.specs.state.Courses.{alone};
ghost use Rattle.oim_run.specs.state.Naming.{outcome_by, with_names, name_in, table_ids};

use crate::outcome::Outcome;
use oim_convert::{ConvertFault, LARGEST_RING, Run, convert, convert_here};
use oim_json::{Layout, Sink};
use oim_merge::MergeEnd;
use oim_meta::{Limits, Report};
use oim_names::{Items, Text};
use oim_rows::TableFault;
use std::alloc::{AllocError, Global};
use std::io::Read;
use std::mem;
use std::sync::Wait;
use std::thread::Threads;

/// The settings of a conversion.
#[derive(Clone, Copy)]
pub struct Course {
    /// The count of tables that are decoded at once, 1 to 64.
    pub workers: usize,
    /// The count of blocks of facts of one table that may wait, 1 to 65,536.
    pub ring: usize,
    pub limits: Limits,
    pub layout: Layout,
}

/// Returns the identifiers of the tables, in table order.
fn names_of(alloc: Global, report: &Report) -> Result<Vec<Text>, AllocError>
    ensures { IfOk result (λ names. names.items ≡ table_ids report.now) }
{
    let mut names = Vec::new(alloc);
    for table in 0..report.tables() {
        let name = Text::from_str(alloc, report.table_id(table))?;
        names.push(name)?;
    }
    Ok(names)
}

/// Takes the name at a place out of the names. Returns an empty name if the place is out of range.
fn take_name(alloc: Global, names: &mut [Text], place: usize) -> Text
    ensures name { result ≡ name_in names.old place }
    ensures left { names.new ≡ slice_set names.old place [] }
{
    let none = Text::new(String::new(alloc));
    if place < names.len() {
        mem::replace(&mut names[place], none)
    } else {
        none
    }
}

/// Puts the faults of refused tables into `room`, each with the name at its table's place.
fn named(
    alloc: Global,
    names: Vec<Text>,
    faults: &[TableFault],
    room: Vec<(Text, TableFault)>,
) -> Items<(Text, TableFault)>
    requires empty { room.items ≡ [] }
    requires room { length faults.now ≤ vec_capacity room }
    ensures { result ≡ with_names names.items faults.now }
{
    let mut names = names;
    let mut list = room;
    for fault in faults {
        list.push_reserved((take_name(alloc, &mut names, fault.table), *fault));
    }
    Items::from_vec(list)
}

/// Returns the outcome of a conversion with this answer, for tables with these names.
fn ending(
    alloc: Global,
    names: Vec<Text>,
    room: Vec<(Text, TableFault)>,
    answer: Result<Run, ConvertFault>,
) -> Outcome
    requires empty { room.items ≡ [] }
    requires room { IfOk answer (λ run. length run.faults.items ≤ vec_capacity room) }
    ensures { result ≡ outcome_by names.items answer }
{
    let run = match answer {
        Ok(run) => run,
        Err(fault) => return Outcome::Run(fault),
    };
    match run.end {
        MergeEnd::Complete => Outcome::Done,
        MergeEnd::Refused => Outcome::Tables(named(alloc, names, run.faults.as_slice(), room)),
        MergeEnd::Write(fault) => Outcome::Output(fault),
    }
}

/// Returns whether a conversion works on one thread: it has one worker, and its settings are in
/// range.
pub(crate) fn is_alone(workers: usize, ring: usize) -> bool
    ensures one { result ≡ true → workers ≡ 1 }
    ensures alone { result ≡ true → (readers tables : ℕ) → early_fault workers ring readers tables ≡ early_fault 1 1 readers tables }
    ensures others { result ≡ false → (readers tables : ℕ) → early_fault workers ring readers tables ≡ None → 1 < workers }
{
    workers == 1 && ring >= 1 && ring <= LARGEST_RING
}

/// Converts a report as [`convert_report`] does with one worker and rings of one block: on the
/// caller's thread, without a runtime. `limits.rows` is at most 4,294,967,294.
pub(crate) fn convert_alone<R: Read + Drop, W: Sink>(
    alloc: Global,
    report: &Report,
    readers: Vec<Option<R>>,
    limits: Limits,
    layout: Layout,
    sink: &mut W,
) -> Outcome
    requires { limits.rows ≤ 4294967294 }
    ensures ends { ConvertsBy R.remaining (alone limits layout) report.now readers.items (W.seen sink.old) (W.seen sink.new) result }
    ensures leaves { LeavesBy (alone limits layout) (length readers.items) (length report.now.tables) (W.seen sink.old) (W.seen sink.new) result }
{
    let Ok(names) = names_of(alloc, report) else {
        return Outcome::Run(ConvertFault::Memory);
    };
    let Ok(room) = Vec::with_capacity(alloc, readers.len()) else {
        return Outcome::Run(ConvertFault::Memory);
    };
    let run = convert_here(alloc, report, readers, limits, layout, sink);
    ending(alloc, names, room, run)
}

/// Converts a report, with a reader of each table's file in table order, or `None` for a table
/// without a file (xBRL-CSV 1.0). Writes its document in xBRL-JSON 1.0 to the sink, in the layout
/// and with the workers and rings of `course`. One worker works on the caller's thread.
/// `course.limits.rows` is at most 4,294,967,294.
///
/// Returns how the conversion ended, as `run` does from the tables on. It is the same for every
/// number of workers, ring size and schedule, apart from failed reads and running out of memory or
/// threads. With one worker `NoThread` and `Lost` are impossible. Returns `Memory`, with nothing
/// written, if memory runs out for the names or for the list of refused tables, which are made
/// first. It waits for its workers.
pub fn convert_report<R: Read + Drop + Send, T: Threads + Wait + Sync, W: Sink>(
    rt: &T,
    alloc: Global,
    report: &Report,
    readers: Vec<Option<R>>,
    course: Course,
    sink: &mut W,
) -> Outcome
    requires { course.limits.rows ≤ 4294967294 }
    ensures ends { ConvertsBy R.remaining course report.now readers.items (W.seen sink.old) (W.seen sink.new) result }
    ensures leaves { LeavesBy course (length readers.items) (length report.now.tables) (W.seen sink.old) (W.seen sink.new) result }
{
    let Course {
        workers,
        ring,
        limits,
        layout,
    } = course;
    if is_alone(workers, ring) {
        return convert_alone(alloc, report, readers, limits, layout, sink);
    }
    let Ok(names) = names_of(alloc, report) else {
        return Outcome::Run(ConvertFault::Memory);
    };
    let Ok(room) = Vec::with_capacity(alloc, report.tables()) else {
        return Outcome::Run(ConvertFault::Memory);
    };
    let answer = convert(
        rt, alloc, report, readers, workers, ring, limits, layout, sink,
    );
    ending(alloc, names, room, answer)
}
