//! Opening new rings.
//!
//! Not proved: that feeds are held back, and that `close` of a feed from `Lanes::open` is never
//! `Full`.

ghost use Rattle.std.specs.Prelude.{◌≡◌, ◌≤◌, [], IfOk};
ghost use Rattle.oim_ring.specs.Limits.{IsRingSize};

use crate::backlog::{Backlog, BacklogHandle};
use crate::drain::Drain;
use crate::feed::Feed;
use crate::item::Item;
use crate::waiting::both_ends;
use rtrb::RingBuffer;
use std::alloc::{AllocError, Global};
use std::sync::Arc;

/// The largest size of a ring, in blocks.
pub const LARGEST_RING: usize = 65_536;

/// Opens the rings of one report, in table order. When the limit of waiting facts is reached, it
/// holds back feeds that wait for their turn, except that of the table from which the writer takes.
#[derive(Drop)]
pub struct Lanes {
    backlog: Arc<Backlog>,
    opened: usize,
}

impl Lanes {
    /// Opens no ring yet. `most` facts may wait in all rings together.
    pub fn new(alloc: Global, most: usize) -> Result<Lanes, AllocError> {
        Ok(Lanes {
            backlog: Backlog::new(alloc, most)?,
            opened: 0,
        })
    }

    /// Returns the two ends of the next table's ring, with nothing sent or taken yet. The ring has
    /// room for `size` blocks, 1 to `LARGEST_RING`, and one more item, the ending, so that `close`
    /// does not find it full.
    pub fn open(&mut self, alloc: Global, size: usize) -> Result<(Feed, Drain), AllocError>
        requires { IsRingSize size }
        ensures feed { IfOk result (λ r. (r.0.size ≡ size) × (r.0.sent ≡ [])) }
        ensures drain { IfOk result (λ r. r.1.taken ≡ []) }
        ensures one_ring { IfOk result (λ r. r.1.ring ≡ r.0.ring) }
    {
        self.open_keeping(alloc, size, 1)
    }

    /// Opens the next ring as `open` does, with `kept` slots for the ending: 0 or 1.
    fn open_keeping(
        &mut self,
        alloc: Global,
        size: usize,
        kept: usize,
    ) -> Result<(Feed, Drain), AllocError>
        requires size { IsRingSize size }
        requires kept { kept ≤ 1 }
        ensures feed { IfOk result (λ r. (r.0.size ≡ size) × (r.0.sent ≡ [])) }
        ensures drain { IfOk result (λ r. r.1.taken ≡ []) }
        ensures one_ring { IfOk result (λ r. r.1.ring ≡ r.0.ring) }
    {
        let (sending, taking) = both_ends(alloc, size)?;
        let (producer, consumer) = RingBuffer::<Item>::new(alloc, size + kept)?;
        let feed = Feed::new(
            producer,
            kept,
            sending,
            BacklogHandle::of(&self.backlog, self.opened)?,
        );
        let drain = Drain::new(
            consumer,
            taking,
            BacklogHandle::of(&self.backlog, self.opened)?,
        );
        self.opened = self.opened.saturating_add(1);
        Ok((feed, drain))
    }
}

/// Returns the two ends of a single ring with room for `size` items, 1 to `LARGEST_RING`. Nothing
/// was sent or taken yet.
pub fn lane(alloc: Global, size: usize) -> Result<(Feed, Drain), AllocError>
    requires { IsRingSize size }
    ensures feed { IfOk result (λ r. (r.0.size ≡ size) × (r.0.sent ≡ [])) }
    ensures drain { IfOk result (λ r. r.1.taken ≡ []) }
    ensures one_ring { IfOk result (λ r. r.1.ring ≡ r.0.ring) }
{
    Lanes::new(alloc, usize::MAX)?.open_keeping(alloc, size, 0)
}
