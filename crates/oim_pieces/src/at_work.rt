//! How the pieces of tables are distributed to threads.
//!
//! Not proved: the counts, and what memory is kept. They decide which thread decodes a piece and
//! where identifiers lie, and no result depends on them.

ghost use Rattle.std.specs.Prelude.{◌<◌, length};

use crate::text_growth::{TextGrowth, looks_in};
use oim_report::Report;
use oim_rows::SpareIds;
use std::alloc::Global;
use std::sync::Mutex;
use std::sync::atomic::{AtomicUsize, Ordering};
use std::thread::{Threads, available_parallelism};

/// How many pieces of a table are under way for each thread that decodes them, so that no thread
/// waits for its next piece.
const PIECES_EACH: usize = 3;

/// The most threads that decode pieces of one table at once, however many workers and processors
/// there are.
const MOST_AT_WORK: usize = 8;

/// The most blocks of a table that wait for the writer, for each thread that decodes its pieces.
/// More would only take fresh memory, whose first use is expensive; with fewer the writer is woken
/// more often.
const WAITING_EACH: usize = 12;

/// The most blocks of a table that wait for the writer if one thread decodes its pieces.
const WAITING_ALONE: usize = 32;

/// The most bytes of a table's texts that wait for the writer. The blocks of ordinary facts have
/// fewer.
const WAITING_BYTES: usize = 8_388_608;

/// How often a helper thread looks for a piece again before it sleeps. Waking it would cost its
/// worker more than that, and all others wait for the worker.
const LOOKS: usize = 10;

/// How many columns, groups and dimensions of a template are looked at for each table. To open the
/// table takes longer.
const FEW_LOOKS: usize = 2_048;

/// How many columns, groups and dimensions are looked at for all tables with larger templates. They
/// take about a tenth of a second.
const MOST_LOOKS: usize = 1_048_576;

/// How many processors to assume if the system gives no count.
const SOME_PROCESSORS: usize = 4;

/// The size of pieces, and the count of threads at work in a run.
///
/// At work are workers that do not wait for their ring or an answer, and helper threads that decode
/// pieces.
#[derive(Drop)]
pub struct AtWork {
    busy: AtomicUsize,
    workers: usize,
    size: usize,
    // The count of processors, once it was read; 0 before.
    processors: AtomicUsize,
    // How many columns, groups and dimensions of large templates may still be looked at.
    looks_left: AtomicUsize,
    // The memory of a table's row identifiers, for the next table that is written.
    spare_ids: Mutex<Option<SpareIds>>,
}

impl AtWork {
    /// Makes the counts for `workers` workers, none of them at work yet, and pieces of about `size`
    /// bytes.
    pub fn new(workers: usize, size: usize) -> AtWork {
        AtWork {
            busy: AtomicUsize::new(0),
            workers,
            size,
            processors: AtomicUsize::new(0),
            looks_left: AtomicUsize::new(MOST_LOOKS),
            spare_ids: Mutex::new(None),
        }
    }

    /// Returns about how many bytes a piece has.
    pub(crate) fn size(&self) -> usize {
        self.size
    }

    /// Returns how much longer than its rows the facts of a table can be, if it is decoded in
    /// pieces.
    ///
    /// Returns `None` if its facts can be far longer, or if its template is large and was not
    /// looked at, as those of other tables were. Then only one worker decodes the table, since a
    /// piece of it could take much memory. How long cells are is seen only as the table is read
    /// (`TablePieces::is_long`).
    pub fn growth_of(&self, alloc: Global, report: &Report, table: usize) -> Option<TextGrowth>
        requires { table < length report.now.tables }
    {
        let left = self.looks_left.load(Ordering::SeqCst);
        let looks = looks_in(report, table, left.max(FEW_LOOKS));
        if looks > FEW_LOOKS {
            self.looks_left
                .store(left.saturating_sub(looks), Ordering::SeqCst);
            if looks > left {
                return None;
            }
        }
        let growth = TextGrowth::of(alloc, report, table);
        if growth.is_long() { None } else { Some(growth) }
    }

    /// Returns whether no other thread can help a worker: there is one worker, or one processor.
    pub(crate) fn is_alone<T: Threads>(&self, rt: &T) -> bool {
        self.workers < 2 || self.processors(rt) < 2
    }

    /// Returns how often a helper thread looks for a piece again before it sleeps. On two
    /// processors it would only keep one of them from its worker or from the writer.
    pub(crate) fn looks(&self) -> usize {
        if self.known_processors() > 2 {
            LOOKS
        } else {
            0
        }
    }

    /// Returns how many blocks of a table may wait for the writer, if they have `bytes` bytes each.
    pub fn most_waiting(&self, bytes: usize) -> usize {
        let most = match self.known_processors().min(self.workers) {
            0 | 1 => WAITING_ALONE,
            count => count.min(MOST_AT_WORK) * WAITING_EACH,
        };
        most.min(WAITING_BYTES / bytes.max(1))
    }

    /// Takes the memory that the identifiers of another table left, if it is kept.
    pub(crate) fn take_spare_ids(&self) -> Option<SpareIds> {
        self.spare_ids.try_lock()?.take()
    }

    /// Keeps the memory of a table's identifiers for one other table, and drops that of an earlier
    /// table. Keeps the larger one.
    pub(crate) fn keep_spare_ids(&self, spare: SpareIds) {
        if let Some(mut kept) = self.spare_ids.try_lock() {
            let is_larger = match &*kept {
                Some(other) => other.capacity() < spare.capacity(),
                None => true,
            };
            if is_larger {
                *kept = Some(spare);
            }
        }
    }

    /// Records that a worker or a thread is at work, even if no place is free.
    pub fn start(&self) {
        self.busy.fetch_add(1, Ordering::SeqCst);
    }

    /// Records that a worker waits, or has finished its table. Until it starts again, a helper
    /// thread may take its place.
    pub fn rest(&self) {
        self.busy.fetch_sub(1, Ordering::SeqCst);
    }

    /// Returns whether fewer threads are at work than have places.
    pub(crate) fn are_idle(&self) -> bool {
        self.busy.load(Ordering::SeqCst) < self.places()
    }

    /// Returns how many threads may be at work: as many as workers, or as processors if these are
    /// fewer, and one more because the worker that starts a thread may wait for its answer.
    fn places(&self) -> usize {
        let count = match self.known_processors() {
            0 => self.workers,
            known => known.min(self.workers),
        };
        count.saturating_add(1)
    }

    /// Returns the number of processors, or 0 before it was read.
    fn known_processors(&self) -> usize {
        self.processors.load(Ordering::SeqCst)
    }

    /// Returns the number of processors.
    fn processors<T: Threads>(&self, rt: &T) -> usize {
        let known = self.known_processors();
        if known > 0 {
            return known;
        }
        let count = match available_parallelism(rt) {
            Ok(count) => count.get(),
            Err(_) => SOME_PROCESSORS,
        };
        self.processors.store(count, Ordering::SeqCst);
        count
    }

    /// Returns how many threads may decode pieces of a table at once: its worker, and helper
    /// threads while there are more processors. More threads would only take memory.
    fn most_at_work<T: Threads>(&self, rt: &T) -> usize {
        self.processors(rt).min(self.workers).clamp(1, MOST_AT_WORK)
    }

    /// Returns how many pieces of a table may be under way at once.
    pub(crate) fn window<T: Threads>(&self, rt: &T) -> usize {
        self.most_at_work(rt).saturating_mul(PIECES_EACH)
    }

    /// Returns how many helper threads a table may have.
    pub(crate) fn most_threads<T: Threads>(&self, rt: &T) -> usize {
        self.most_at_work(rt).saturating_sub(1)
    }

    /// Takes a place for a helper thread, if one is free. `give_back` returns it.
    pub(crate) fn take(&self) -> bool {
        if !self.are_idle() {
            return false;
        }
        if self.busy.fetch_add(1, Ordering::SeqCst) >= self.places() {
            self.give_back();
            return false;
        }
        true
    }

    /// Gives a place back.
    pub(crate) fn give_back(&self) {
        self.busy.fetch_sub(1, Ordering::SeqCst);
    }
}
