//! The end of a conversion: the workers' results go to their tables and the seats to their claims.
//! The memory for it is kept from the start.

ghost use Rattle.std.specs.Prelude.{◌≡◌, length, map, All, IfNone, IfOk, IfSome, vec_len};
ghost use Rattle.oim_convert.specs.Tasks.{Each};
ghost use Rattle.oim_convert.specs.state.Tasks.{AreTables, Gives, IsEnded, IsLostIn, tables_promised};
ghost use Rattle.oim_crew.specs.Numbers.{EachOnceBelow};
ghost use Rattle.oim_convert.specs.state.Preparing.{IsReturnRoom};
ghost use Rattle.oim_crew.specs.Shifts.{IsShift};

use crate::closed_feeds::{Terms, place_all, settle_all};
use crate::table_task::{TableTask, TaskResult};
use oim_crew::{Claims, Seat, Shifts, all_idle};
use oim_report::{Limits, Report};
use oim_ring::{Closed, Drain, Drained};
use std::alloc::{AllocError, Global};
use std::io::Read;

/// Memory for the tokens of all tables, for the seats of all workers, and for the settled drains.
#[derive(Drop)]
pub(crate) struct ReturnRoom<R> {
    pub(crate) closed_feeds: Vec<Option<Closed>>,
    pub(crate) seats: Vec<Seat<TableTask<R>>>,
    pub(crate) settled: Vec<Drained>,
}

/// Returns memory for `tables` tables and `workers` workers.
pub(crate) fn return_room<R: Drop>(
    alloc: Global,
    tables: usize,
    workers: usize,
) -> Result<ReturnRoom<R>, AllocError>
    ensures { IfOk result (λ room. IsReturnRoom tables workers room) }
{
    let mut closed_feeds = Vec::with_capacity(alloc, tables)?;
    for _made in 0..tables {
        closed_feeds.push_reserved(None);
    }
    let seats = Vec::with_capacity(alloc, workers)?;
    let settled = Vec::with_capacity(alloc, tables)?;
    Ok(ReturnRoom {
        closed_feeds,
        seats,
        settled,
    })
}

/// Settles each drain with its table's token, and closes the claims with the seats of all workers,
/// which shows that there is one result for each table. Returns `None` if the token of a ring was
/// lost, or if no worker has drawn. Only the clauses use `report` and `limits`.
pub(crate) fn finish<R: Read + Drop>(
    report: &Report,
    limits: Limits,
    claims: Claims<TableTask<R>>,
    shifts: Shifts<TableTask<R>, TaskResult>,
    drains: Vec<Drain>,
    room: ReturnRoom<R>,
) -> Option<Vec<Drained>>
    requires shifts { All (IsShift (Gives R.remaining report.now limits.rows shifts.served) claims) shifts.list.items }
    requires workers { vec_len shifts.list ≡ claims.workers }
    requires drains { Each (IsEnded claims.items) 0 drains.items }
    requires count { length drains.items ≡ length claims.items }
    requires room { IsReturnRoom (length claims.items) claims.workers room }
    ensures cover { IfSome result (λ all. EachOnceBelow (length claims.items) (tables_promised shifts.list.items)) }
    ensures taken { IfSome result (λ all. all.items ≡ map (λ d. d.taken) drains.items) }
    ensures tables { IfSome result (λ all. AreTables R.remaining report.now limits.rows shifts.served claims.items all.items) }
    ensures lost { IfNone result (IsLostIn shifts.list.items) }
{
    // This does not happen: a started worker draws, because its flag is never set, and if none was
    // started, one seat has drawn on this thread. No contract speaks of the flag.
    if all_idle(shifts.list.as_slice()) {
        return None;
    }
    let ReturnRoom {
        mut closed_feeds,
        seats,
        settled,
    } = room;
    let closed_feeds = closed_feeds.as_mut_slice();
    let terms = Terms {
        report,
        limits,
        served: shifts.served,
        claims: &claims,
    };
    let seats = place_all(&terms, shifts.list, closed_feeds, seats);
    let all = settle_all(&terms, drains, closed_feeds, settled);
    claims.close(seats);
    all
}
