//! One ring for each table.

ghost use Rattle.std.specs.Prelude.{◌≡◌, ◌≤◌, All, length, IfOk, map};
ghost use Rattle.oim_convert.specs.Tasks.{Each};
ghost use Rattle.oim_convert.specs.state.Tasks.{IsLane, IsOpened};
ghost use Rattle.oim_ring.specs.Limits.{IsRingSize};

use crate::table_task::TableTask;
use oim_pieces::{AtWork, PIECE_SIZE};
use oim_ring::{Drain, Lanes};
use std::alloc::{AllocError, Global};
use std::sync::Arc;

/// The count of full rings whose facts may wait in all rings together, up to `MOST_AHEAD`.
const FULL_RINGS: usize = 4;

/// The most facts that may wait in all rings together before later tables wait.
const MOST_AHEAD: usize = 4_096;

/// The count of facts in a full block.
const FULL_BLOCK: usize = 256;

/// Returns a task and a drain for each reader, in order, for `workers` workers and rings of `size`
/// blocks. Nothing was sent or taken yet.
pub(crate) fn open_lanes<R: Drop>(
    alloc: Global,
    readers: Vec<Option<R>>,
    workers: usize,
    size: usize,
) -> Result<(Vec<TableTask<R>>, Vec<Drain>), AllocError>
    requires { IsRingSize size }
    ensures readers { IfOk result (λ r. map (λ task. task.reader) r.0.items ≡ readers.items) }
    ensures tasks { IfOk result (λ r. Each IsOpened 0 r.0.items) }
    ensures drains { IfOk result (λ r. Each (IsLane r.0.items) 0 r.1.items) }
    ensures count { IfOk result (λ r. length r.1.items ≡ length r.0.items) }
    ensures sizes { IfOk result (λ r. All (λ task. task.feed.size ≡ size) r.0.items) }
{
    let mut lanes = Lanes::new(
        alloc,
        size.saturating_mul(FULL_RINGS * FULL_BLOCK).min(MOST_AHEAD),
    )?;
    let at_work = Arc::new(alloc, AtWork::new(workers, PIECE_SIZE))?;
    let mut tasks = Vec::new(alloc);
    let mut drains = Vec::new(alloc);
    for reader in readers {
        let table = tasks.len();
        let (feed, drain) = lanes.open(alloc, size)?;
        let shared = Arc::try_clone(&at_work)?;
        tasks.push(TableTask {
            table,
            reader,
            feed,
            at_work: shared,
        })?;
        drains.push(drain)?;
    }
    Ok((tasks, drains))
}
