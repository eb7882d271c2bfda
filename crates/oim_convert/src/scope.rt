//! The scope of threads in which workers decode tables while the caller's thread merges.

ghost use Rattle.std.specs.Prelude.{◌≡◌, false, true, All, length, vec_len};
ghost use Rattle.oim_convert.specs.state.Tasks.{CanServe, Gives};
ghost use Rattle.oim_crew.specs.Shifts.{CanServeAll, IsCrew, IsShift};
ghost use Rattle.oim_convert.specs.state.Working.{CanMerge, CanWork, HasWorked, IsMerged};

use crate::lent::take_back;
use crate::server::Serving;
use crate::table_task::{TableTask, TaskResult};
use oim_crew::{Claims, Crew, Posts, Shifts, Site, join_crew, start_crew};
use oim_json::{Layout, Sink};
use oim_merge::{MergeEnd, merge};
use oim_report::Report;
use oim_ring::Drain;
use oim_rows::TableFault;
use std::io::Read;
use std::sync::Wait;
use std::sync::atomic::AtomicBool;
use std::thread;
use std::thread::{Scope, Threads};

/// The fresh drains of all tables, room for a fault of each, and the head and layout of the
/// document.
#[derive(Drop)]
pub(crate) struct Unmerged {
    pub(crate) drains: Vec<Drain>,
    pub(crate) faults: Vec<TableFault>,
    pub(crate) head: Vec<u8>,
    pub(crate) layout: Layout,
}

/// The drains, taken to their endings, the faults of the refused ones, and the end of the merge.
#[derive(Drop)]
pub(crate) struct Merged {
    pub(crate) drains: Vec<Drain>,
    pub(crate) faults: Vec<TableFault>,
    pub(crate) end: MergeEnd,
}

/// Merges all drains into the sink.
fn merge_all<T: Wait, W: Sink>(rt: &T, unmerged: Unmerged, sink: &mut W) -> Merged
    requires { CanMerge unmerged }
    ensures { IsMerged unmerged (W.seen sink.old) (W.seen sink.new) result }
{
    let Unmerged {
        mut drains,
        mut faults,
        head,
        layout,
    } = unmerged;
    let all = drains.as_mut_slice();
    let end = merge(rt, all, head.as_slice(), &mut faults, layout, sink);
    Merged {
        drains,
        faults,
        end,
    }
}

/// The results of the workers and of the merge.
#[derive(Drop)]
pub(crate) struct Worked<R> {
    /// The shifts of the workers. They also have whether workers served the tables: if no thread
    /// could be made, all tables are refused.
    pub(crate) shifts: Shifts<TableTask<R>, TaskResult>,
    pub(crate) merged: Merged,
}

/// The scope's result, with the sink that was lent to it.
struct Returned<'a, R, W> {
    worked: Worked<R>,
    sink: &'a mut W,
}

/// Starts the workers, merges while they draw and decode, and then joins them.
fn serve_and_merge<'s, E, R: Read + Drop + Send + 's, T: Threads + Wait + Sync + 's, W: Sink>(
    scope: &Scope<'s, E>,
    site: &Site<'s, TableTask<R>, Serving, T, Report>,
    posts: Posts<TableTask<R>, TaskResult, Serving, T, Report>,
    stops: &'s [AtomicBool],
    starts: usize,
    unmerged: Unmerged,
    sink: &mut W,
) -> Worked<R>
    requires { CanWork site.now posts stops.now unmerged }
    ensures { HasWorked R.remaining site.now starts unmerged (W.seen sink.old) (W.seen sink.new) result }
{
    let crew = start_crew(scope, site, posts, stops, starts);
    let merged = merge_all(site.rt, unmerged, sink);
    let shifts = join_crew(site, crew);
    Worked { shifts, merged }
}

/// Works as `serve_and_merge` does, in a scope of threads that ends when all of them are joined.
fn work_and_merge<R: Read + Drop + Send, T: Threads + Wait + Sync, W: Sink>(
    site: &Site<'_, TableTask<R>, Serving, T, Report>,
    posts: Posts<TableTask<R>, TaskResult, Serving, T, Report>,
    stops: &[AtomicBool],
    starts: usize,
    unmerged: Unmerged,
    sink: &mut W,
) -> Worked<R>
    requires { CanWork site.now posts stops.now unmerged }
    ensures { HasWorked R.remaining site.now starts unmerged (W.seen sink.old) (W.seen sink.new) result }
{
    let lent = &mut *sink;
    let returned = thread::scope(
        thread::scope_env(),
        site.rt,
        move |scope| -> Returned<'_, R, W>
            requires { CanWork site.now posts stops.now unmerged }
            ensures same_sink { result.sink.ghost_name ≡ lent.entry.ghost_name }
            ensures worked { HasWorked R.remaining site.entry.now starts unmerged
                (W.seen lent.entry.now) (W.seen result.sink.now) result.worked }
        {
            let worked = serve_and_merge(scope, site, posts, stops, starts, unmerged, lent);
            Returned { worked, sink: lent }
        },
    );
    let Returned { worked, sink } = returned;
    take_back(sink);
    worked
}

/// Merges while the workers of a crew draw and decode with this server. Returns the claims and the
/// results.
pub(crate) fn work_crew<R: Read + Drop + Send, T: Threads + Wait + Sync, W: Sink>(
    rt: &T,
    report: &Report,
    server: Serving,
    crew: Crew<TableTask<R>, TaskResult, Serving, T, Report>,
    starts: usize,
    unmerged: Unmerged,
    sink: &mut W,
) -> (Claims<TableTask<R>>, Worked<R>)
    requires threaded { server.threaded ≡ true }
    requires crew { IsCrew crew }
    requires items { CanServeAll (CanServe report.now server.limits.rows) crew.claims.items }
    requires fresh { CanMerge unmerged }
    ensures claims { result.0 ≡ crew.claims }
    ensures shifts { All (IsShift (Gives R.remaining report.now server.limits.rows result.1.shifts.served) result.0) result.1.shifts.list.items }
    ensures count { vec_len result.1.shifts.list ≡ result.0.workers }
    ensures alone { starts ≡ 0 → result.1.shifts.served ≡ false }
    ensures merged { IsMerged unmerged (W.seen sink.old) (W.seen sink.new) result.1.merged }
{
    let Crew {
        claims,
        posts,
        stops,
    } = crew;
    let spare = Serving {
        threaded: false,
        ..server
    };
    let site = Site {
        rt,
        shared: report,
        server: &server,
        spare: &spare,
        claims: &claims,
    };
    let worked = work_and_merge(&site, posts, stops.as_slice(), starts, unmerged, sink);
    (claims, worked)
}
