//! Calls of `oim_ring`.

ghost use Rattle.std.specs.Prelude.{◌≡◌, IfOk};

use crate::held::{NIL_FACT, nil_block};
use oim_json::Block;
use oim_ring::{CloseFault, Closed, Drain, Drained, Ending, Feed, Item, lane};
use std::alloc::{AllocError, Global};

/// Passes a block and the table's ending through a ring.
fn hands_over(alloc: Global, block: Block) -> Result<bool, AllocError> {
    let (mut feed, mut drain) = lane(alloc, 2)?;
    let is_put = feed.put(block).is_ok();
    let is_closed = feed.close(Ending::Closed).is_ok();
    let is_taken = matches!(drain.take(), Some(Item::Block(block)) if block.bytes() == NIL_FACT);
    Ok(is_put && is_closed && is_taken)
}

/// Returns the token of a feed that was closed.
fn closed(feed: Feed) -> Result<Closed, CloseFault>
    ensures { IfOk result (λ closed. closed.ring ≡ feed.ring) }
{
    feed.close(Ending::Closed)
}

/// Returns whether a drain has taken the ending, and all that was sent.
fn settles(drain: Drain, closed: Closed) -> Option<Drained>
    requires { closed.ring ≡ drain.ring }
{
    let mut drain = drain;
    match drain.take() {
        Some(Item::Ending(_)) => Some(drain.settle(closed)),
        _ => None,
    }
}

/// Returns whether a ring whose ending was taken is settled.
fn ends(alloc: Global) -> Result<bool, AllocError> {
    let (feed, drain) = lane(alloc, 4)?;
    match closed(feed) {
        Ok(closed) => Ok(settles(drain, closed).is_some()),
        Err(fault) => Ok(fault.number() == 66),
    }
}

/// Returns whether the calls answer as they must.
fn hold(alloc: Global) -> bool {
    match nil_block(alloc) {
        Ok(block) => matches!(hands_over(alloc, block), Ok(true))
            && matches!(ends(alloc), Ok(true)),
        Err(_) => false,
    }
}

#[test]
fn calls_of_rings(rt: HostRuntime) {
    assert!(rt; hold(rt.alloc()));
}
