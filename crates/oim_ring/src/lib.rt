//! One bounded ring for each table, with a feed and a drain, which may be on two threads. A worker
//! fills the feed with blocks of facts, and the merge takes them from the drain.
//!
//! What is proved:
//!
//! - `lane` and `Lanes::open` return the two ends of one ring, with nothing sent or taken yet;
//! - when `put` or `close` succeeds, it has sent its item. Neither finds the ring full while fewer
//!   items were sent than its size. If the ring is full, they give everything back unchanged;
//! - of the items that a feed sent, only the last can be an ending;
//! - when `take` returns an item, it has taken it, and `None` has changed nothing;
//! - `settle` shows that the items taken are the items sent, each once and in order.
//!
//! There is no lock around a ring, and none of these calls waits. Only `Feed::wait`,
//! `Feed::wait_for_turn` and `Drain::wait` sleep: until the other end or the writer has moved, or
//! in `Drain::wait` for a few milliseconds. `Feed::kept_spare`, `Feed::give_back` and
//! `Drain::give_back` pass spares on and may wait for one another for a moment. `Lanes`
//! opens the rings of one report. Its feeds wait for their turn while too many facts wait in all
//! rings together. The contracts of these calls only keep what was sent and taken.
//!
//! The functions that wait and wake note the steps of the model in `oim_waiting`, in the order in
//! which it is proved to lose no wake.
//!
//! Not proved, only tested: that a ring holds no more items than its size; that `take` finds what
//! was put; that `close` returns the token while the drain exists; that each function does the step
//! that it notes; and that feeds are held back. What was sent if `close` fails with `Lost` is open.
//!
//! A call:
//!
//! ```
//! /// Passes a block and the table's ending through a ring.
//! fn hands_over(alloc: Global, block: Block) -> Result<bool, AllocError> {
//!     let (mut feed, mut drain) = lane(alloc, 2)?;
//!     let is_put = feed.put(block).is_ok();
//!     let is_closed = feed.close(Ending::Closed).is_ok();
//!     let is_taken = matches!(drain.take(), Some(Item::Block(block)) if block.bytes() == NIL_FACT);
//!     Ok(is_put && is_closed && is_taken)
//! }
//! ```
#![tactic(auto)]

mod backlog;
mod drain;
mod feed;
mod item;
mod opening;
mod waiting;

pub use drain::{Drain, Drained};
pub use feed::{CloseFault, Closed, Feed};
pub use item::{Ending, Item};
pub use opening::{LARGEST_RING, Lanes, lane};
