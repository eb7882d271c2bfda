//! The server, which decodes the tables that workers draw.

ghost use Rattle.std.specs.Prelude.{◌≡◌, [], IfSome};
ghost use Rattle.oim_convert.specs.Histories.{IsOfTable, IsUnserved};

use crate::decode::{decode, refused};
use crate::sending::close_waiting;
use crate::table_task::{TableTask, TaskResult};
use oim_crew::Serve;
use oim_report::{Limits, Report};
use oim_ring::Closed;
use oim_rows::TableKind;
use std::alloc::Global;
use std::io::Read;
use std::sync::Wait;
use std::thread::Threads;

/// Decodes the tables of a report, or refuses them if no thread could be made.
#[derive(Clone, Copy)]
pub(crate) struct Serving {
    pub(crate) alloc: Global,
    pub(crate) limits: Limits,
    /// Whether a thread could be made.
    pub(crate) threaded: bool,
}

impl<R: Read + Drop, T: Threads + Wait> Serve<TableTask<R>, TaskResult, T, Report> for Serving {
    ghost use Rattle.oim_convert.specs.state.Tasks.{CanServe, gives_of};

    ghost can_serve = { λ s report. CanServe report s.limits.rows };

    ghost gives = { gives_of R.remaining };

    fn serve(&self, rt: &T, report: &Report, number: usize, task: TableTask<R>) -> TaskResult {
        let closed = if self.threaded {
            decode(rt, self.alloc, report, self.limits, task)
        } else {
            refuse(rt, task)
        };
        TaskResult {
            table: number,
            closed,
        }
    }
}

/// Closes the feed of a table for which no thread could be made.
fn refuse<R: Drop, T: Wait>(rt: &T, task: TableTask<R>) -> Option<Closed>
    requires { task.feed.sent ≡ [] }
    ensures ring { IfSome result (λ closed. closed.ring ≡ task.feed.ring) }
    ensures own { IfSome result (λ closed. IsOfTable task.table closed.sent) }
    ensures sent { IfSome result (λ closed. IsUnserved task.table closed.sent) }
{
    let TableTask {
        table,
        reader: _,
        feed,
        at_work: _,
    } = task;
    close_waiting(rt, feed, refused(table, TableKind::NoThread))
}
