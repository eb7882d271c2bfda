//! How the two ends of a ring wait for each other.
//!
//! The model of `oim_waiting` proves that a feed which found no room and sleeps was woken, or an
//! item waits for its drain, or the drain is about to wake it. It also proves that both ends never
//! sleep unless one of them was woken. The functions of the two ends note the model's steps.
//!
//! Not proved: that each function does the step that it notes, and that the threads run. The rest
//! of the argument that each wait ends:
//!
//! - Elsewhere a worker waits only for its turn (`backlog`), for a piece of its table that a helper
//!   thread is decoding, and at the table's end for these threads. They have ended by then or find
//!   that no more pieces are sent. A helper thread waits only for a piece. A call that passes on a
//!   spare waits only for a call of that kind that is under way.
//! - A drain sleeps for at most a few milliseconds and then checks again. So it needs no wake; a
//!   wake only ends its sleep early.
//! - The writer waits only for the table that it has reached, and that table's feed is never held
//!   back. So it waits only while the table's reader gives nothing, or until a thread runs that can
//!   run.
//! - The table that the writer has reached is drawn, or is the next one to be drawn. Tables are
//!   drawn in order, so a later one cannot be drawn before, and the workers of all earlier tables
//!   are done and draw again. A worker that could not be started draws nothing. If no worker
//!   started, the caller's thread closes all feeds before it writes, and each ring has room for its
//!   ending.
//! - After a failed write the writer takes items as before, up to the ending of each table.

ghost use Rattle.std.specs.Prelude.{◌≡◌, ◌/◌, [], ◌∷◌, ◌++◌};
ghost use Rattle.oim_waiting.specs.state.Orders.{asking, looking_back};
ghost use Rattle.oim_waiting.specs.declared.steps.RoomStep.TheVariants.{Ask, Compare, DrainRise, DrainSleep, FeedRise, FeedSleep, Give, Tell};

use oim_waiting::{RoomStep, Steps};
use std::alloc::{AllocError, Global};
use std::sync::atomic::{AtomicU64, AtomicUsize, Ordering};
use std::sync::{Arc, Wait};
use std::thread::Parker;
use std::time::Duration;

/// The most facts that a feed sends before it wakes its drain: those of eight full blocks.
const MOST_UNTOLD: usize = 2_048;

/// Half of the facts of a full block.
const HALF_BLOCK: usize = 128;

/// The longest first sleep of a drain, in milliseconds.
const SHORT_SLEEP: u64 = 2;

/// The longest sleep of a drain that has found nothing several times, in milliseconds.
const LONG_SLEEP: u64 = 16;

/// The two Parkers of a ring's ends.
#[derive(Drop)]
struct Parkers {
    feed: Parker,
    drain: Parker,
    /// The feed is woken when at most this number of items is left in the ring.
    few: AtomicUsize,
}

/// The feed's side: it waits, and wakes the drain.
pub(crate) struct FeedWaiting {
    parkers: Arc<Parkers>,
    /// The count of facts that are sent for each wake.
    stride: usize,
    /// The count of facts that were sent since the last wake.
    untold: usize,
}

// By hand, so that dropping one elsewhere is one call.
impl Drop for FeedWaiting {
    fn drop(self) {
        let Self {
            parkers: _,
            stride: _,
            untold: _,
        } = self;
    }
}

/// The drain's side: it waits, and wakes the feed.
pub(crate) struct DrainWaiting {
    parkers: Arc<Parkers>,
    /// The longest next sleep, in milliseconds.
    limit: AtomicU64,
}

// By hand, so that dropping one elsewhere is one call.
impl Drop for DrainWaiting {
    fn drop(self) {
        let Self {
            parkers: _,
            limit: _,
        } = self;
    }
}

/// Returns the two sides for a ring of `size` items.
pub(crate) fn both_ends(
    alloc: Global,
    size: usize,
) -> Result<(FeedWaiting, DrainWaiting), AllocError> {
    let both = Parkers {
        feed: Parker::new(),
        drain: Parker::new(),
        few: AtomicUsize::new(usize::MAX),
    };
    let parkers = Arc::new(alloc, both)?;
    let feed = FeedWaiting {
        parkers: Arc::try_clone(&parkers)?,
        stride: MOST_UNTOLD.min(size.saturating_mul(HALF_BLOCK)),
        untold: 0,
    };
    let drain = DrainWaiting {
        parkers,
        limit: AtomicU64::new(SHORT_SLEEP),
    };
    Ok((feed, drain))
}

impl FeedWaiting {
    /// Notes that a block of `facts` facts was sent, and wakes the drain if enough were sent since
    /// its last wake. A drain that is not woken finds the blocks after its sleep.
    pub(crate) fn tell(&mut self, facts: usize) {
        self.untold = self.untold.saturating_add(facts);
        if self.untold >= self.stride {
            self.wake(&mut Steps::none());
        }
    }

    /// Notes that a block was sent, and that `waiting` of at most `most` blocks wait. If these are
    /// three quarters, wakes the drain. A drain that is not woken finds them after its sleep.
    pub(crate) fn tell_of(&mut self, waiting: usize, most: usize) {
        if waiting >= most - most / 4 {
            self.wake(&mut Steps::none());
        }
    }

    /// Notes that the feed is about to wait until a quarter of `most` items is left, and wakes the
    /// drain.
    pub(crate) fn await_few(&mut self, most: usize, steps: &mut Steps<RoomStep>)
        ensures { steps.new ≡ steps.old ++ asking (most / 4) }
    {
        self.ask(most / 4, steps);
        self.wake(steps);
    }

    /// Notes that the feed is about to wait until an item is taken, and wakes the drain.
    pub(crate) fn await_any(&mut self, steps: &mut Steps<RoomStep>)
        ensures { steps.new ≡ steps.old ++ asking 18446744073709551615 }
    {
        self.ask(usize::MAX, steps);
        self.wake(steps);
    }

    /// Asks to be woken when at most `few` items are left.
    fn ask(&self, few: usize, steps: &mut Steps<RoomStep>)
        ensures { steps.new ≡ steps.old ++ Ask few ∷ [] }
    {
        self.parkers.few.store(few, Ordering::SeqCst);
        steps.take(RoomStep::Ask(few));
    }

    /// Ends the drain's wait, or its next wait if it is not waiting.
    pub(crate) fn wake(&mut self, steps: &mut Steps<RoomStep>)
        ensures { steps.new ≡ steps.old ++ Tell ∷ [] }
    {
        self.untold = 0;
        self.parkers.drain.unpark();
        steps.take(RoomStep::Tell);
    }

    /// Waits until the drain wakes the feed. Returns at once if it did so since the last wait.
    pub(crate) fn wait<R: Wait>(&self, rt: &R, steps: &mut Steps<RoomStep>)
        ensures { steps.new ≡ steps.old ++ FeedSleep ∷ FeedRise ∷ [] }
    {
        self.parkers.feed.park(rt);
        steps.take(RoomStep::FeedSleep);
        steps.take(RoomStep::FeedRise);
    }
}

impl DrainWaiting {
    /// Notes that an item was taken and `left` are left. If these are few, ends the feed's wait, or
    /// its next wait if it is not waiting. Returns whether they are.
    pub(crate) fn wake(&self, left: usize, steps: &mut Steps<RoomStep>) -> bool
        ensures { steps.new ≡ steps.old ++ looking_back result }
    {
        if self.limit.load(Ordering::SeqCst) != SHORT_SLEEP {
            self.limit.store(SHORT_SLEEP, Ordering::SeqCst);
        }
        let are_few = self.compare(left, steps);
        if are_few {
            self.give(steps);
        }
        are_few
    }

    /// Looks whether `left` items are few.
    fn compare(&self, left: usize, steps: &mut Steps<RoomStep>) -> bool
        ensures { steps.new ≡ steps.old ++ Compare ∷ [] }
    {
        steps.take(RoomStep::Compare);
        left <= self.parkers.few.load(Ordering::SeqCst)
    }

    /// Ends the feed's wait, or its next wait if it is not waiting.
    fn give(&self, steps: &mut Steps<RoomStep>)
        ensures { steps.new ≡ steps.old ++ Give ∷ [] }
    {
        self.parkers.feed.unpark();
        steps.take(RoomStep::Give);
    }

    /// Waits until the feed wakes the drain, or until a limit that doubles with each wait until an
    /// item is taken. Returns at once if the feed woke it since the last wait.
    pub(crate) fn wait<R: Wait>(&self, rt: &R, steps: &mut Steps<RoomStep>)
        ensures { steps.new ≡ steps.old ++ DrainSleep ∷ DrainRise ∷ [] }
    {
        let limit = self.limit.load(Ordering::SeqCst);
        let time = Duration::from_millis(limit);
        self.parkers.drain.park_timeout(rt, time);
        let next = limit.saturating_mul(2).min(LONG_SLEEP);
        self.limit.store(next, Ordering::SeqCst);
        steps.take(RoomStep::DrainSleep);
        steps.take(RoomStep::DrainRise);
    }
}
