//! How many workers a run gets.
//!
//! Not proved: how many processors the system offers, and whether they are busy.

ghost use Rattle.std.specs.Prelude.{◌≡◌, ◌≤◌};
ghost use Rattle.oim_convert.specs.Limits.{IsWorkerCount};

use crate::busy_processors::are_others_busy;
use oim_run::Request;
use std::thread::{Threads, available_parallelism};

/// Returns how many workers are of use where `asked` are asked for: one if the system offers one
/// processor, or all others are busy. More workers than processors are all of use, because then it
/// is the open tables that are asked for.
fn useful_workers<T: Threads>(rt: &HostRuntime, threads: &T, asked: usize) -> usize
    ensures { 1 ≤ result }
{
    let offered = match available_parallelism(threads) {
        Ok(count) => count.get(),
        Err(_) => return asked.max(1),
    };
    if offered == 1 || (asked <= offered && are_others_busy(rt)) {
        return 1;
    }
    asked.max(1)
}

/// Returns the request with fewer workers if more would only take time. A run ends as the request
/// asks whatever the number of workers.
pub fn fitted<T: Threads>(rt: &HostRuntime, threads: &T, request: Request) -> Request
    ensures same { result ≡ record request { settings = record request.settings { workers = result.settings.workers } } }
    ensures fewer { result.settings.workers ≤ request.settings.workers }
    ensures some { IsWorkerCount request.settings.workers → IsWorkerCount result.settings.workers }
{
    let mut fitted = request;
    let useful = useful_workers(rt, threads, fitted.settings.workers);
    if useful < fitted.settings.workers {
        fitted.settings.workers = useful;
    }
    fitted
}
