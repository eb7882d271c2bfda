//! Memory that goes back to the thread that last wrote to it, whose cache still holds it.

ghost use Rattle.std.specs.Prelude.{◌≡◌};

use crossbeam_queue::ArrayQueue;
use oim_decode::PieceDecoder;
use oim_json::Spare;
use std::alloc::Global;
use std::collections::VecDeque;
use std::sync::{Arc, Wait};

/// The most spares that are kept for a thread.
const MOST_KEPT: usize = 64;

/// The most bytes of spares that are kept for a thread, without the vectors of ends, which are far
/// smaller. `MOST_KEPT` ordinary ones have fewer.
const MOST_BYTES: usize = 4_194_304;

/// Spares of one thread. They are still in its processor's cache.
#[derive(Drop)]
pub(crate) struct ThreadSpares {
    spares: Arc<ArrayQueue<Spare>>,
}

impl ThreadSpares {
    /// Lends a decoder at most `most` spares.
    pub(crate) fn lend<T: Wait>(&self, rt: &T, decoder: &mut PieceDecoder<'_>, most: usize)
        ensures { decoder.new ≡ decoder.old }
    {
        for _ in 0..most {
            match self.spares.pop(rt) {
                Some(spare) => decoder.keep_spare(spare),
                None => return,
            }
        }
    }

    /// Takes back the spares that a decoder did not use.
    pub(crate) fn take_back<T: Wait>(&self, rt: &T, decoder: &mut PieceDecoder<'_>)
        ensures { decoder.new ≡ decoder.old }
    {
        for _ in 0..MOST_KEPT {
            match decoder.free_spare() {
                Some(spare) => {
                    let _ = self.spares.push(rt, spare);
                }
                None => return,
            }
        }
    }
}

/// The spares of a table's threads, and which thread wrote each block that is still out, in order.
#[derive(Drop)]
pub(crate) struct SparesByThread {
    by_thread: Vec<ThreadSpares>,
    // For each piece: its thread's number, and how many of its blocks are still out.
    written: VecDeque<(usize, usize)>,
    // How many blocks are still out.
    out: usize,
}

impl SparesByThread {
    /// Makes a list without a thread.
    pub(crate) fn new(alloc: Global) -> SparesByThread {
        SparesByThread {
            by_thread: Vec::new(alloc),
            written: VecDeque::new(alloc),
            out: 0,
        }
    }

    /// Returns the number of threads with spares: each that was started or could not be.
    pub(crate) fn count(&self) -> usize {
        self.by_thread.len()
    }

    /// Begins the spares of one more thread, and returns them with the thread's number, or `None`
    /// if memory runs out.
    pub(crate) fn open(&mut self, alloc: Global) -> Option<(ThreadSpares, usize)> {
        let queue = ArrayQueue::new(alloc, MOST_KEPT).ok()?;
        let spares = Arc::new(alloc, queue).ok()?;
        let theirs = Arc::try_clone(&spares).ok()?;
        let number = self.by_thread.len();
        self.by_thread.push(ThreadSpares { spares }).ok()?;
        Some((ThreadSpares { spares: theirs }, number))
    }

    /// Moves at most `most` spares to those of the last thread.
    pub(crate) fn supply<T: Wait>(&self, rt: &T, spares: &mut Vec<Spare>, most: usize) {
        let Some(kept) = self.by_thread.last() else {
            return;
        };
        for _ in 0..most {
            match spares.pop() {
                Some(spare) => {
                    let _ = kept.spares.push(rt, spare);
                }
                None => return,
            }
        }
    }

    /// Records that thread `number` wrote the next `count` blocks.
    pub(crate) fn note(&mut self, number: usize, count: usize) {
        if count > 0 && self.written.push_back((number, count)).is_ok() {
            self.out = self.out.saturating_add(count);
        }
    }

    /// Keeps the record of the last `left` blocks only. Earlier ones are back, or never will be.
    pub(crate) fn forget(&mut self, left: usize) {
        for _ in 0..self.written.len() {
            let over = self.out.saturating_sub(left);
            if over == 0 {
                return;
            }
            let Some((number, count)) = self.written.pop_front() else {
                return;
            };
            let gone = count.min(over);
            self.out = self.out.saturating_sub(gone);
            if count > gone {
                let _ = self.written.push_front((number, count - gone));
            }
        }
    }

    /// Keeps the memory of the next block that returns, for the thread that wrote it, or drops it
    /// if that thread has enough. Returns it if no helper thread wrote the block.
    pub(crate) fn keep<T: Wait>(&mut self, rt: &T, spare: Spare) -> Option<Spare> {
        let Some((number, count)) = self.written.pop_front() else {
            return Some(spare);
        };
        self.out = self.out.saturating_sub(1);
        if count > 1 {
            let _ = self.written.push_front((number, count - 1));
        }
        match self.by_thread.get(number) {
            Some(kept) => {
                if kept.spares.len(rt) < MOST_BYTES / spare.bytes.capacity().max(1) {
                    let _ = kept.spares.push(rt, spare);
                }
                None
            }
            None => Some(spare),
        }
    }

    /// Moves the spares of all threads to `spares`.
    pub(crate) fn empty<T: Wait>(&self, rt: &T, spares: &mut Vec<Spare>) {
        for kept in self.by_thread.iter() {
            for _ in 0..MOST_KEPT {
                match kept.spares.pop(rt) {
                    Some(spare) => {
                        let _ = spares.push(spare);
                    }
                    None => break,
                }
            }
        }
    }
}
