//! Sending blocks and endings into a ring, with waits while it is full.
//!
//! Not proved: that a worker counts as resting during each call that may wait, also if that call
//! returns at once.

ghost use Rattle.std.specs.Prelude.{◌≡◌, [], ◌∷◌, ◌++◌, true, IfSome};
ghost use Rattle.oim_ring.specs.Items.{blocks_only};
ghost use Rattle.oim_ring.specs.declared.item.Item.TheVariants as items;

use oim_json::Block;
use oim_pieces::AtWork;
use oim_ring::{CloseFault, Closed, Ending, Feed};
use std::sync::Wait;

/// Sends a block when it is the feed's turn. Tries again while the ring is full or as many blocks
/// wait as may.
///
/// Fewer blocks may wait before a block with long texts than before another. No wake is lost by
/// that: each try that fails says anew how few must be left, which is at least none, and the drain
/// always wakes the feed when none is left.
pub(crate) fn put_waiting<T: Wait>(rt: &T, at_work: &AtWork, feed: &mut Feed, block: Block)
    ensures ring { feed.new.ring ≡ feed.old.ring }
    ensures sent { feed.new.sent ≡ feed.old.sent ++ items.Block block ∷ [] }
{
    let bytes = block.bytes().len();
    let mut block = block;
    for _ in rt.forever() {
        at_work.rest();
        feed.wait_for_turn(rt);
        at_work.start();
        match feed.put_below(block, at_work.most_waiting(bytes)) {
            Ok(()) => return,
            Err(back) => block = back,
        }
        at_work.rest();
        feed.wait(rt);
        at_work.start();
    }
    unreachable!()
}

/// Closes a feed. Tries again while the ring is full. Returns `None` if the token is lost.
pub(crate) fn close_waiting<T: Wait>(rt: &T, feed: Feed, ending: Ending) -> Option<Closed>
    ensures ring { IfSome result (λ closed. closed.ring ≡ feed.ring) }
    ensures sent { IfSome result (λ closed. closed.sent ≡ feed.sent ++ items.Ending ending ∷ []) }
    ensures blocks { IfSome result (λ closed. blocks_only feed.sent ≡ true) }
{
    let mut feed = feed;
    for _ in rt.forever() {
        match feed.close(ending) {
            Ok(closed) => return Some(closed),
            Err(CloseFault::Full(back, _)) => feed = back,
            Err(CloseFault::Lost) => return None,
        }
        feed.wait(rt);
    }
    unreachable!()
}
