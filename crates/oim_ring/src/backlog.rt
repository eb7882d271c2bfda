//! What the rings of one report share: the count of facts waiting in them, the feeds that are held
//! back, and spares for new blocks.
//!
//! A feed waits at most for its turn: the writer's table is never held back, and the writer wakes
//! the feed of each table that it reaches. The model of `oim_waiting` proves that no such wake is
//! lost, and that while there is space and a feed sleeps, somebody is about to call one. The
//! functions that wait and wake note the model's steps, and their contracts name the order.
//!
//! - **One at a time.** A block that is taken frees space for one block, so one feed is called: the
//!   next in table order, counted from the writer's table, because its facts are needed first. A
//!   place from which a feed was called is skipped until that feed continues, so two blocks that
//!   are taken call two feeds. A feed that puts a block while there is space calls the next feed,
//!   and so does one whose ring turns out to be full. If a called feed finds the space used, it
//!   sleeps again, and may be called again.
//! - Feeds of 64 tables sleep at 64 places. Two feeds at one place, of tables 64 apart, are called
//!   one after the other, and are woken together when the writer reaches one of them. The other one
//!   then sleeps again.
//!
//! The limit counts facts, not blocks, because a block of a few facts takes little memory. So
//! workers that decode many short tables are not held back for each of them. A block with long
//! texts counts as more facts than it has.
//!
//! Not proved: which feeds are held back and called, and that each function does the step that it
//! notes.

ghost use Rattle.std.specs.Prelude.{◌≡◌, [], ◌∷◌, ◌++◌};
ghost use Rattle.oim_waiting.specs.state.Orders.{letting_go, one_wait};
ghost use Rattle.oim_waiting.specs.declared.steps.TurnStep.TheVariants.{Announce, Look, Sleep, Rise, Change, Wake};

use crossbeam_queue::ArrayQueue;
use crossbeam_utils::sync::{EventCount, Key};
use oim_json::{Block, Spare};
use oim_waiting::{Steps, TurnStep};
use std::alloc::{AllocError, Global};
use std::sync::atomic::{AtomicBool, AtomicUsize, Ordering};
use std::sync::{Arc, Wait};

/// The greatest count of spares.
const MOST_SPARES: usize = 160;

/// The largest vector of the texts in a spare, in bytes.
const LARGEST_SPARE: usize = 262_144;

/// The most memory of these vectors, in bytes. The vectors of ends are far smaller.
const SPARE_MEMORY: usize = 12_582_912;

/// How many bytes of a block's texts count as one fact, if its facts have more.
const LONG_FACT: usize = 2_048;

/// The count of places at which feeds sleep.
const GROUPS: usize = 64;

/// A place for feeds that are held back: those of tables with the same remainder by `GROUPS`.
#[derive(Drop)]
struct Sleepers {
    changed: EventCount,
    /// The count of feeds that are held back here.
    held: AtomicUsize,
    /// Whether a feed was called from here that has not continued yet.
    called: AtomicBool,
}

/// The facts that wait in all rings of a report, and the table from whose ring the writer takes.
/// Feeds of later tables wait while too many facts wait.
#[derive(Drop)]
pub(crate) struct Backlog {
    most: usize,
    waiting: AtomicUsize,
    turn: AtomicUsize,
    /// The count of feeds that are held back at all places.
    held: AtomicUsize,
    sleepers: Vec<Sleepers>,
    /// Spares for new blocks.
    spares: ArrayQueue<Spare>,
}

/// Returns the places, with no feed held back.
fn new_sleepers(alloc: Global) -> Result<Vec<Sleepers>, AllocError> {
    let mut sleepers = Vec::with_capacity(alloc, GROUPS)?;
    for _made in 0..GROUPS {
        sleepers.push(Sleepers {
            changed: EventCount::new(),
            held: AtomicUsize::new(0),
            called: AtomicBool::new(false),
        })?;
    }
    Ok(sleepers)
}

/// Returns how many facts a block counts as: those that it has, or more if their texts are long.
fn facts_in(block: &Block) -> usize {
    block.count().max(block.bytes().len() / LONG_FACT)
}

impl Sleepers {
    /// Calls one feed that is held back here. Returns false if no feed is held back, or if one was
    /// called that has not continued yet.
    fn call(&self) -> bool {
        if self.held.load(Ordering::SeqCst) == 0 || self.called.swap(true, Ordering::SeqCst) {
            return false;
        }
        self.changed.notify_one();
        true
    }
}

impl Backlog {
    /// Returns a backlog with no fact waiting, in which `most` facts may wait.
    pub(crate) fn new(alloc: Global, most: usize) -> Result<Arc<Backlog>, AllocError> {
        let backlog = Backlog {
            most,
            waiting: AtomicUsize::new(0),
            turn: AtomicUsize::new(0),
            held: AtomicUsize::new(0),
            sleepers: new_sleepers(alloc)?,
            spares: ArrayQueue::new(alloc, MOST_SPARES)?,
        };
        Ok(Arc::new(alloc, backlog)?)
    }

    /// Returns whether another block has to wait.
    fn is_full(&self) -> bool {
        self.waiting.load(Ordering::SeqCst) >= self.most
    }

    /// Returns whether the feed of a table has to wait: the writer has not reached the table, and
    /// the limit of waiting facts is reached.
    fn holds(&self, table: usize) -> bool {
        self.turn.load(Ordering::SeqCst) < table && self.is_full()
    }

    /// Returns the place of a table.
    fn place(&self, table: usize) -> Option<&Sleepers> {
        self.sleepers.as_slice().get(table % GROUPS)
    }

    /// Says that the writer takes from the ring of a table.
    fn set_turn(&self, table: usize, steps: &mut Steps<TurnStep>)
        ensures { steps.new ≡ steps.old ++ Change ∷ [] }
    {
        self.turn.store(table, Ordering::SeqCst);
        steps.take(TurnStep::Change);
    }

    /// Wakes the feed of a table, if it is held back.
    fn wake(&self, table: usize, steps: &mut Steps<TurnStep>)
        ensures { steps.new ≡ steps.old ++ Wake ∷ [] }
    {
        if let Some(place) = self.place(table) {
            place.changed.notify_all();
        }
        steps.take(TurnStep::Wake);
    }

    /// Lets the feed of a table go on whose turn it is.
    fn reach(&self, table: usize, steps: &mut Steps<TurnStep>)
        ensures { steps.new ≡ steps.old ++ letting_go }
    {
        self.set_turn(table, steps);
        self.wake(table, steps);
    }

    /// Counts facts that wait from now on.
    fn add(&self, facts: usize, steps: &mut Steps<TurnStep>)
        ensures { steps.new ≡ steps.old ++ Change ∷ [] }
    {
        self.waiting.fetch_add(facts, Ordering::SeqCst);
        steps.take(TurnStep::Change);
    }

    /// Counts facts that wait no more.
    fn subtract(&self, facts: usize, steps: &mut Steps<TurnStep>)
        ensures { steps.new ≡ steps.old ++ Change ∷ [] }
    {
        self.waiting.fetch_sub(facts, Ordering::SeqCst);
        steps.take(TurnStep::Change);
    }

    /// Calls a feed that is held back, if there is space for a block: the next in table order from
    /// the writer's table, without the places from which one was called already.
    fn call_next(&self, steps: &mut Steps<TurnStep>)
        ensures { steps.new ≡ steps.old ++ Wake ∷ [] }
    {
        if self.held.load(Ordering::SeqCst) > 0 && !self.is_full() {
            self.call_from(self.turn.load(Ordering::SeqCst));
        }
        steps.take(TurnStep::Wake);
    }

    /// Calls a feed of the first place that has one to call, from this table's place on.
    fn call_from(&self, table: usize) {
        for ahead in 0..GROUPS {
            let place = self.place(table.wrapping_add(ahead));
            if place.is_some_and(|place| place.call()) {
                return;
            }
        }
    }

    /// Notes that more facts wait, and calls a feed if there is space yet.
    fn put(&self, facts: usize, steps: &mut Steps<TurnStep>)
        ensures { steps.new ≡ steps.old ++ letting_go }
    {
        self.add(facts, steps);
        self.call_next(steps);
    }

    /// Notes that fewer facts wait, and calls a feed if there is space.
    fn take(&self, facts: usize, steps: &mut Steps<TurnStep>)
        ensures { steps.new ≡ steps.old ++ letting_go }
    {
        self.subtract(facts, steps);
        self.call_next(steps);
    }

    /// Announces that a feed may sleep at a place: counts it as held back.
    fn announce<'a>(&'a self, place: &'a Sleepers, steps: &mut Steps<TurnStep>) -> Key<'a>
        ensures { steps.new ≡ steps.old ++ Announce ∷ [] }
    {
        let change = place.changed.prepare_wait();
        // A call may have been made just after its feed continued.
        place.called.store(false, Ordering::SeqCst);
        place.held.fetch_add(1, Ordering::SeqCst);
        self.held.fetch_add(1, Ordering::SeqCst);
        steps.take(TurnStep::Announce);
        change
    }

    /// Looks whether the feed of a table has to wait.
    fn look(&self, table: usize, steps: &mut Steps<TurnStep>) -> bool
        ensures { steps.new ≡ steps.old ++ Look result ∷ [] }
    {
        let must_wait = self.holds(table);
        steps.take(TurnStep::Look(must_wait));
        must_wait
    }

    /// Counts a feed as held back no more.
    fn leave(&self, place: &Sleepers) {
        self.held.fetch_sub(1, Ordering::SeqCst);
        place.held.fetch_sub(1, Ordering::SeqCst);
        place.called.store(false, Ordering::SeqCst);
    }

    /// Sleeps at a place until a call, if the table's feed is held back. Returns whether it was.
    fn wait_at<R: Wait>(
        &self,
        rt: &R,
        place: &Sleepers,
        table: usize,
        steps: &mut Steps<TurnStep>,
    ) -> bool
        ensures { steps.new ≡ steps.old ++ one_wait result }
    {
        let change = self.announce(place, steps);
        let must_wait = self.look(table, steps);
        if must_wait {
            sleep(rt, change, steps);
        }
        self.leave(place);
        must_wait
    }
}

/// Sleeps until a wake after the announcement.
fn sleep<R: Wait>(rt: &R, change: Key<'_>, steps: &mut Steps<TurnStep>)
    ensures { steps.new ≡ steps.old ++ Sleep ∷ Rise ∷ [] }
{
    change.wait(rt);
    steps.take(TurnStep::Sleep);
    steps.take(TurnStep::Rise);
}

/// A handle to the report's backlog. Each end of a table's ring has one.
pub(crate) struct BacklogHandle {
    backlog: Arc<Backlog>,
    table: usize,
}

// By hand, so that dropping a handle elsewhere is one call.
impl Drop for BacklogHandle {
    fn drop(self) {
        let Self {
            backlog: _,
            table: _,
        } = self;
    }
}

impl BacklogHandle {
    /// Returns a handle for the ring of a table, counted from 0. Fails if the backlog has too many
    /// handles.
    pub(crate) fn of(backlog: &Arc<Backlog>, table: usize) -> Result<BacklogHandle, AllocError> {
        Ok(BacklogHandle {
            backlog: Arc::try_clone(backlog)?,
            table,
        })
    }

    /// Notes that a block is put into the ring.
    pub(crate) fn more(&self, block: &Block) {
        self.backlog.put(facts_in(block), &mut Steps::none());
    }

    /// Notes that a block was taken from the ring.
    pub(crate) fn less(&self, block: &Block) {
        self.backlog.take(facts_in(block), &mut Steps::none());
    }

    /// Notes that the feed cannot use the space for which it may have been called, and calls
    /// another one.
    pub(crate) fn pass_on(&self) {
        self.backlog.call_next(&mut Steps::none());
    }

    /// Notes that the writer now takes from this table's ring, and wakes its feed.
    pub(crate) fn take_turn(&self) {
        if self.backlog.turn.load(Ordering::SeqCst) != self.table {
            self.backlog.reach(self.table, &mut Steps::none());
        }
    }

    /// Keeps a spare for the texts of another block. Drops it if enough are kept or it is large.
    pub(crate) fn keep_spare<R: Wait>(&self, rt: &R, spare: Spare) {
        let size = spare.bytes.capacity();
        let kept = self.backlog.spares.len(rt);
        if size <= LARGEST_SPARE && kept.saturating_mul(size) <= SPARE_MEMORY {
            let _ = self.backlog.spares.push(rt, spare);
        }
    }

    /// Returns a spare with its old contents, if one is kept.
    pub(crate) fn kept_spare<R: Wait>(&self, rt: &R) -> Option<Spare> {
        self.backlog.spares.pop(rt)
    }

    /// Returns whether the writer has reached this table.
    pub(crate) fn is_reached(&self) -> bool {
        self.backlog.turn.load(Ordering::SeqCst) >= self.table
    }

    /// Returns whether the backlog holds back the feed of this table.
    pub(crate) fn is_held(&self) -> bool {
        self.backlog.holds(self.table)
    }

    /// Waits while the backlog holds back the feed of this table.
    pub(crate) fn wait<R: Wait>(&self, rt: &R) {
        for _ in rt.forever() {
            if !self.is_held() {
                return;
            }
            if let Some(place) = self.backlog.place(self.table) {
                self.backlog
                    .wait_at(rt, place, self.table, &mut Steps::none());
            }
        }
        unreachable!()
    }
}
