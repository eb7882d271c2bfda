//! Decoding a table into its ring.

ghost use Rattle.std.specs.Prelude.{◌≡◌, ◌≤◌, ◌<◌, ℕ, [], length, None, IfSome, true};
ghost use Rattle.oim_convert.specs.Answer.{ending_of};
ghost use Rattle.oim_convert.specs.Histories.{IsEndingOf, IsOfTable};
ghost use Rattle.oim_convert.specs.Tasks.{IsKept};
ghost use Rattle.oim_ring.specs.declared.item.Ending.TheVariants.{Refused};
ghost use Rattle.oim_rows.specs.Header.{file_fault};
ghost use Rattle.oim_rows.specs.Streams.{table_stream};
ghost use Rattle.oim_rows.specs.declared.fault.TableKind.TheVariants as kind;

use crate::pieces::send_table;
use crate::sending::close_waiting;
use crate::table_file::TableFile;
use crate::table_task::TableTask;
use oim_report::{Limits, Report};
use oim_ring::{Closed, Ending};
use oim_rows::{TableFault, TableKind, whole_fault};
use std::alloc::Global;
use std::io::Read;
use std::sync::Wait;
use std::thread::Threads;

/// Returns the ending of a table that is refused as a whole.
pub(crate) fn refused(table: usize, kind: TableKind) -> Ending
    ensures { result ≡ Refused (file_fault table kind) }
{
    Ending::Refused(whole_fault(table, kind))
}

/// Returns the ending with this table's number in its fault. The contracts of decoding give that
/// number only if they see the reader's bytes.
pub(crate) fn numbered(table: usize, ending: Ending) -> Ending
    ensures own { IsEndingOf table result }
    ensures same { IsEndingOf table ending → result ≡ ending }
{
    match ending {
        Ending::Closed => ending,
        Ending::Refused(fault) => Ending::Refused(TableFault { table, ..fault }),
    }
}

/// Decodes a table: sends its facts, and closes its feed with its ending. Returns `None` if the
/// feed's token is lost.
pub(crate) fn decode<R: Read + Drop, T: Threads + Wait>(
    rt: &T,
    alloc: Global,
    report: &Report,
    limits: Limits,
    task: TableTask<R>,
) -> Option<Closed>
    requires place { task.table < length report.now.tables }
    requires rows { limits.rows ≤ 4294967294 }
    requires fresh { task.feed.sent ≡ [] }
    ensures ring { IfSome result (λ closed. closed.ring ≡ task.feed.ring) }
    ensures own { IfSome result (λ closed. IsOfTable task.table closed.sent) }
    ensures history { IfSome result (λ closed. IsKept R.remaining report.now limits.rows true task.table task.reader closed.sent) }
{
    let TableTask {
        table,
        reader,
        mut feed,
        at_work,
    } = task;
    at_work.start();
    let ending = match reader {
        None => without_file(report, table),
        Some(reader) => {
            let file = TableFile {
                report,
                table,
                reader,
                limits,
            };
            send_table(rt, alloc, file, &at_work, &mut feed)
        }
    };
    at_work.rest();
    close_waiting(rt, feed, numbered(table, ending))
}

/// Returns the ending of a table without a file.
pub(crate) fn without_file(report: &Report, table: usize) -> Ending
    requires { table < length report.now.tables }
    ensures { (limit : ℕ) → result ≡ ending_of (table_stream report.now table limit None).fault }
{
    if report.is_optional(table) {
        return Ending::Closed;
    }
    refused(table, TableKind::NoFile)
}
