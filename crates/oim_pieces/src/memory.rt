//! Memory for the pieces of a table.

ghost use Rattle.std.specs.Prelude.{◌≡◌};

use crate::thread_spares::{SparesByThread, ThreadSpares};
use oim_decode::PieceDecoder;
use oim_json::Spare;
use std::alloc::Global;
use std::mem;
use std::sync::Wait;

/// A piece whose texts take fewer spares than this needs no returned ones.
const FEW: usize = 4;

/// The most bytes of spares for texts that the worker keeps, without the vectors of ends, which are
/// far smaller. Those of the blocks of a few ordinary pieces have fewer.
const MOST_BYTES: usize = 4_194_304;

/// Spares for the texts of pieces and vectors for their bytes, for the worker and its helper
/// threads.
#[derive(Drop)]
pub(crate) struct Memory {
    alloc: Global,
    // For texts that the worker decodes.
    spares: Vec<Spare>,
    // For texts, thread by thread.
    by_thread: SparesByThread,
    // For the bytes of pieces.
    bytes: Vec<Vec<u8>>,
    // How many spares the texts of a piece take, by the last piece.
    usual: usize,
    // The thread whose answer was joined last, until its blocks are counted. `usize::MAX` is the
    // worker.
    by: usize,
}

impl Memory {
    /// Makes a memory without a spare.
    pub(crate) fn new(alloc: Global) -> Memory {
        Memory {
            alloc,
            spares: Vec::new(alloc),
            by_thread: SparesByThread::new(alloc),
            bytes: Vec::new(alloc),
            usual: 0,
            by: usize::MAX,
        }
    }

    /// Keeps a spare for texts that are decoded later, or drops it if enough are kept or memory
    /// runs out.
    pub(crate) fn keep_spare(&mut self, spare: Spare) {
        if self.spares.len() < MOST_BYTES / spare.bytes.capacity().max(1) {
            let _ = self.spares.push(spare);
        }
    }

    /// Keeps the memory of a written block of this table, for the thread that wrote it if that is
    /// known.
    pub(crate) fn keep_own<T: Wait>(&mut self, rt: &T, spare: Spare) {
        if let Some(spare) = self.by_thread.keep(rt, spare) {
            self.keep_spare(spare);
        }
    }

    /// Records that the memory of all given blocks has returned, except that of the last `left`.
    pub(crate) fn note_left(&mut self, left: usize) {
        self.by_thread.forget(left);
    }

    /// Records that the piece joined last gave `count` blocks, each with one spare.
    pub(crate) fn expect(&mut self, count: usize) {
        self.by_thread.note(self.by, count);
        self.by = usize::MAX;
        self.usual = count;
    }

    /// Returns how many more spares the texts of two pieces would take on the worker.
    pub(crate) fn wanted(&self) -> usize {
        if self.usual < FEW {
            return 0;
        }
        self.usual
            .saturating_mul(2)
            .saturating_sub(self.spares.len())
    }

    /// Returns how many spares the texts of a piece may take.
    pub(crate) fn usual(&self) -> usize {
        self.usual.saturating_add(1).max(FEW)
    }

    /// Returns all spares for texts, and keeps none.
    pub(crate) fn free_spares<T: Wait>(&mut self, rt: &T) -> Vec<Spare> {
        let mut spares = mem::replace(&mut self.spares, Vec::new(self.alloc));
        self.by_thread.empty(rt, &mut spares);
        spares
    }

    /// Takes the vector of a decoded piece's bytes, if one is kept.
    pub(crate) fn free_bytes(&mut self) -> Option<Vec<u8>> {
        self.bytes.pop()
    }

    /// Keeps the vector of a decoded piece's bytes, if it has memory; drops it if memory runs out.
    pub(crate) fn keep_bytes(&mut self, bytes: Vec<u8>) {
        if bytes.capacity() > 0 {
            let _ = self.bytes.push(bytes);
        }
    }

    /// Returns a vector without memory.
    pub(crate) fn no_bytes(&self) -> Vec<u8> {
        Vec::new(self.alloc)
    }

    /// Records which thread gave the answer that is joined next.
    pub(crate) fn note(&mut self, by: usize) {
        self.by = by;
    }

    /// Lends the worker's decoder spares for the texts of a piece.
    pub(crate) fn lend(&mut self, decoder: &mut PieceDecoder<'_>)
        ensures { decoder.new ≡ decoder.old }
    {
        for _ in 0..self.usual() {
            match self.spares.pop() {
                Some(spare) => decoder.keep_spare(spare),
                None => return,
            }
        }
    }

    /// Takes back a decoder's memory: the vector of the decoded bytes, and the spares for texts
    /// that it did not use.
    pub(crate) fn take_back(&mut self, decoder: &mut PieceDecoder<'_>)
        ensures { decoder.new.header ≡ decoder.old.header }
    {
        self.take_spares(decoder);
        self.keep_bytes(decoder.take_spare());
    }

    /// Takes back the spares for texts that a decoder did not use.
    fn take_spares(&mut self, decoder: &mut PieceDecoder<'_>)
        ensures { decoder.new ≡ decoder.old }
    {
        for _ in 0..usize::MAX {
            match decoder.free_spare() {
                Some(spare) => self.keep_spare(spare),
                None => return,
            }
        }
    }

    /// Returns how many helper threads were started or could not be.
    pub(crate) fn threads(&self) -> usize {
        self.by_thread.count()
    }

    /// Begins the spares of one more thread, and returns them with the thread's number, or `None`
    /// if memory runs out.
    pub(crate) fn open_kept(&mut self) -> Option<(ThreadSpares, usize)> {
        self.by_thread.open(self.alloc)
    }

    /// Gives the last thread its share of the spares for texts, one of `count` shares.
    pub(crate) fn supply<T: Wait>(&mut self, rt: &T, count: usize) {
        let most = self.spares.len() / count.max(1);
        self.by_thread.supply(rt, &mut self.spares, most);
    }
}
