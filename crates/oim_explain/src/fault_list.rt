//! The records of the file of faults of one refused table, written as they are found.

ghost use Rattle.std.specs.Prelude.{◌≡◌, ◌<◌, ℕ, List, IfOk, IfSome, OnOk, length, true};
ghost use Rattle.std.specs.Io.KnownBytes.{Appends};
ghost use Rattle.oim_places.specs.FaultLists.{AreReadersOf, record_of};
ghost use Rattle.oim_places.specs.FaultPlaces.{unknown_place};
ghost use Rattle.oim_explain.specs.ListedFaults.{ListsAlone, ListsTable, WritesEach, WritesRows, fault_text, listed_of};
ghost use Rattle.oim_explain.specs.state.ListedRows.{ListsRows, StartsWith, located_record, more_text};
ghost use Rattle.oim_places.specs.FaultRows.{no_cause};

use crate::fault_causes::FaultCauses;
use crate::table_again::TableAgain;
use oim_files::Folder;
use oim_places::{
    BadRows, FaultCause, FaultPlace, LocatedFault, ReportAgain, RowAgain, bad_rows_at, fault_row,
    is_of_file, line_again, more_faults_row, table_path,
};
use oim_rows::TableFault;
use oim_table_faults::first_fault_is_of_stream;
use std::alloc::{AllocError, Global};
use std::io;
use std::io::{Read, Write};

/// A refused table whose faults are listed.
#[derive(Clone, Copy)]
pub struct RefusedTable<'r> {
    /// The path of the metadata.
    pub meta: &'r str,
    /// The identifier of the table.
    pub id: &'r str,
    /// The fault that the run found.
    pub fault: &'r TableFault,
    /// How many faults are listed at most.
    pub most: usize,
}

/// How many faults of a table are listed.
#[derive(Clone, Copy)]
pub struct ListedFaults {
    /// How many. A failure that ended the list does not count.
    pub count: usize,
    /// Whether the table has more.
    pub is_cut: bool,
    /// In how many rows the first fault's cause is, if that is elsewhere and known; else 0.
    pub rows: usize,
}

/// Returns how many faults of at most `most` are listed, given how many more may be. `None` is for
/// a table that has more.
fn counted(most: usize, room: Option<usize>, rows: usize) -> ListedFaults
    ensures { result ≡ listed_of most room rows }
{
    let (count, is_cut) = match room {
        Some(room) => (most.saturating_sub(room), false),
        None => (most, true),
    };
    ListedFaults {
        count,
        is_cut,
        rows,
    }
}

/// Writes the record of a fault.
fn put_fault<W: Write>(
    alloc: Global,
    id: &str,
    fault: &TableFault,
    place: &FaultPlace,
    cause: &FaultCause,
    to: &mut W,
) -> io::Result<()>
    ensures { OnOk result (Appends (W.contents to.old) (W.contents to.new) (fault_text id.now fault.now place.now cause.now)) }
{
    let row = fault_row(alloc, id, fault, place, cause)?;
    to.write_all(row.as_slice())
}

/// Writes the record of a fault whose place is not known.
fn put_alone<W: Write>(alloc: Global, id: &str, fault: &TableFault, to: &mut W) -> io::Result<()>
    ensures { OnOk result (Appends (W.contents to.old) (W.contents to.new) (fault_text id.now fault.now unknown_place no_cause)) }
{
    let place = FaultPlace::unknown(alloc)?;
    let cause = FaultCause::none(alloc)?;
    put_fault(alloc, id, fault, &place, &cause, to)
}

/// Writes the record that a table has more faults.
fn put_more<W: Write>(alloc: Global, id: &str, to: &mut W) -> io::Result<()>
    ensures { OnOk result (Appends (W.contents to.old) (W.contents to.new) (more_text id.now)) }
{
    let row = more_faults_row(alloc, id)?;
    to.write_all(row.as_slice())
}

/// Writes the records of the faults of one row, `room` at most. The row and its header are `cells`.
/// Returns how many more may be listed, or `None` after the record that the table has more.
fn put_located<W: Write>(
    alloc: Global,
    id: &str,
    causes: &mut FaultCauses<'_>,
    cells: &RowAgain,
    located: &[LocatedFault],
    room: usize,
    to: &mut W,
) -> io::Result<Option<usize>>
    ensures { IfOk result (λ left. WritesEach (W.contents to.old) (W.contents to.new) id.now room (located_record id.now) located.now left) }
{
    let mut left = room;
    for LocatedFault { fault, place } in located {
        if left == 0 {
            put_more(alloc, id, to)?;
            return Ok(None);
        }
        let cause = causes.next(alloc, fault, cells, place.line)?;
        put_fault(alloc, id, fault, place, &cause, to)?;
        left -= 1;
    }
    Ok(Some(left))
}

/// Writes the records of the faults of the rows that are left, `room` at most. Returns how many
/// more may be listed, or `None` after the record that the table has more. If the file cannot be
/// read to its end, the last record is of that failure.
fn put_rest<R: Read + Drop, W: Write>(
    alloc: Global,
    id: &str,
    causes: &mut FaultCauses<'_>,
    room: usize,
    rows: &mut BadRows<'_, R>,
    to: &mut W,
) -> io::Result<Option<usize>>
    ensures { (bytes : List ℕ) → AreReadersOf rows.old.heads rows.old.cells rows.old.lines bytes
        → IfSome rows.old.left (λ left. IfOk result (λ after. WritesRows (W.contents to.old) (W.contents to.new) rows.old.table id.now (record_of id.now bytes) room left after)) }
{
    let mut left = room;
    for _ in 0..u64::MAX {
        match rows.next_row(alloc) {
            Ok(Some(located)) => {
                let located = located.as_slice();
                match put_located(alloc, id, causes, rows.cells(), located, left, to)? {
                    Some(after) => left = after,
                    None => return Ok(None),
                }
            }
            Ok(None) => return Ok(Some(left)),
            Err(failure) => {
                put_alone(alloc, id, &failure, to)?;
                return Ok(Some(left));
            }
        }
    }
    Err(io::Error::from(AllocError))
}

/// Returns whether the faults of a row begin with this one.
fn begin_with(located: &[LocatedFault], fault: &TableFault) -> bool
    ensures { result ≡ true → StartsWith fault.now located.now }
{
    match located.first() {
        Some(first) => first.fault == *fault,
        None => false,
    }
}

/// Writes the records of the faults of the rows. If the first one is not that of the run, because
/// the file has changed or cannot be read, writes only the record of the run's fault.
fn put_rows<R: Read + Drop, W: Write>(
    alloc: Global,
    table: RefusedTable<'_>,
    causes: &mut FaultCauses<'_>,
    rows: &mut BadRows<'_, R>,
    to: &mut W,
) -> io::Result<ListedFaults>
    ensures { (bytes : List ℕ) → AreReadersOf rows.old.heads rows.old.cells rows.old.lines bytes
        → IfSome rows.old.left (λ left. IfOk result (λ listed. ListsRows (W.contents to.old) (W.contents to.new) rows.old.table table.entry.id.now table.entry.fault.now table.entry.most (record_of table.entry.id.now bytes) left listed)) }
{
    let located = match rows.next_row(alloc) {
        Ok(Some(located)) => located,
        _ => return listed_alone(alloc, table, to),
    };
    let located = located.as_slice();
    if !begin_with(located, table.fault) {
        return listed_alone(alloc, table, to);
    }
    let (id, most) = (table.id, table.most);
    match put_located(alloc, id, causes, rows.cells(), located, most, to)? {
        Some(room) => {
            let after = put_rest(alloc, id, causes, room, rows, to)?;
            Ok(counted(most, after, causes.rows))
        }
        None => Ok(counted(most, None, causes.rows)),
    }
}

/// Writes only the record of the fault that the run found, without its place.
fn listed_alone<W: Write>(
    alloc: Global,
    table: RefusedTable<'_>,
    to: &mut W,
) -> io::Result<ListedFaults>
    ensures { IfOk result (ListsAlone (W.contents to.old) (W.contents to.new) table.entry.id.now table.entry.fault.now) }
{
    put_alone(alloc, table.id, table.fault, to)?;
    Ok(ListedFaults {
        count: 1,
        is_cut: false,
        rows: 0,
    })
}

/// Writes the records of a refused table of this report, all its faults in order, and returns how
/// many are listed. The table's file is read again, in one pass. Each record has the fault's cause.
///
/// If the table has more faults than `table.most`, the last record is `more_faults_row`. If the
/// file cannot be read to its end, the last record is of that failure. A fault of the whole file
/// has one record, and so has a table whose file cannot be read again or no longer has the fault.
pub fn list_faults<R: Read + Drop, F: Folder<R>, W: Write>(
    alloc: Global,
    folder: &mut F,
    again: &ReportAgain,
    table: RefusedTable<'_>,
    to: &mut W,
) -> io::Result<ListedFaults>
    ensures same { F.files folder.new ≡ F.files folder.old }
    ensures lists { IfSome (F.files folder.old) (λ files. IfOk result (ListsTable (W.contents to.old) (W.contents to.new) files table.entry.meta.now again.now.report table.entry.id.now table.entry.fault.now table.entry.most)) }
{
    let place = table.fault.table;
    let report = &again.report;
    if is_of_file(table.fault.kind) || place >= report.tables() {
        return listed_alone(alloc, table, to);
    }
    first_fault_is_of_stream();
    let path = table_path(alloc, table.meta, report, place)?;
    let path = path.as_str();
    let line = line_again(alloc, folder, path, 0);
    let Some(mut rows) = bad_rows_at(alloc, folder, path, report, place) else {
        return listed_alone(alloc, table, to);
    };
    let header = &rows.cells().header;
    let file = TableAgain::new(alloc, again, table.meta, path, place, header, line)?;
    put_rows(alloc, table, &mut FaultCauses::new(file), &mut rows, to)
}
