//! The places in a list at which a value may be, by its hash.

ghost use Rattle.std.specs.Prelude.{◌<◌};

use std::alloc::{AllocError, Global};

/// An index from a hash to places of a list.
///
/// It is only a hint. Callers test whether the right value is at a place, so no contract speaks of
/// it.
#[derive(Drop)]
pub(crate) struct HashIndex {
    /// The low bits of a hash and a place, or `NONE`. The length is 0 or a power of two.
    entries: Vec<(u32, u32)>,
    count: usize,
}

const NONE: u32 = u32::MAX;

/// How many consecutive entries a search tries.
pub(crate) const STEPS: usize = 16;

/// Returns the hash of a hash and one more number.
#[inline(always)]
pub(crate) fn hash_with(hash: u64, number: u64) -> u64 {
    let mixed = (hash ^ number).wrapping_mul(0x9e37_79b9_7f4a_7c15);
    mixed ^ (mixed >> 29)
}

/// Returns the hash of a text.
#[inline]
pub(crate) fn hash_of(text: &[u8]) -> u64 {
    let mut hash = text.len() as u64;
    for i in 0..text.len() {
        hash = (hash ^ u64::from(text[i])).wrapping_mul(0x100_0000_01b3);
    }
    hash_with(hash, 0)
}

/// Returns the low 32 bits of a hash.
#[inline(always)]
fn end_of(hash: u64) -> u32 {
    (hash & 0xffff_ffff) as u32
}

/// Returns which of `entries` entries is `step` steps after the first one for a hash.
#[inline(always)]
fn entry_at(hash: u64, step: usize, entries: usize) -> usize
    requires { 0 < entries }
    ensures { result < entries }
{
    (hash as usize).wrapping_add(step) & (entries - 1)
}

impl HashIndex {
    /// Makes an empty index, without taking memory.
    pub(crate) fn new(alloc: Global) -> HashIndex {
        HashIndex {
            entries: Vec::new(alloc),
            count: 0,
        }
    }

    /// Returns the place in the entry at a step from a hash: any place, or None if the entry is
    /// free.
    #[inline(always)]
    pub(crate) fn place_at(&self, hash: u64, step: usize) -> Option<usize> {
        let len = self.entries.len();
        if len == 0 {
            return None;
        }
        let (noted, place) = self.entries[entry_at(hash, step, len)];
        if place == NONE {
            None
        } else if noted == end_of(hash) {
            Some(place as usize)
        } else {
            Some(usize::MAX)
        }
    }

    /// Adds a place to a free entry. If none is free, it replaces another place.
    fn note(&mut self, hash: u64, place: u32) {
        let len = self.entries.len();
        if len == 0 {
            return;
        }
        for step in 0..STEPS {
            let at = entry_at(hash, step, len);
            if self.entries[at].1 == NONE {
                self.entries[at] = (end_of(hash), place);
                return;
            }
        }
        self.entries[entry_at(hash, 0, len)] = (end_of(hash), place);
    }

    /// Doubles the entries.
    fn widen(&mut self, alloc: Global) -> Result<(), AllocError> {
        let mut wider = HashIndex::new(alloc);
        let len = self.entries.len().saturating_mul(2);
        wider
            .entries
            .resize(if len < STEPS { STEPS } else { len }, (0, NONE))?;
        for i in 0..self.entries.len() {
            let (hash, place) = self.entries[i];
            if place != NONE {
                wider.note(u64::from(hash), place);
            }
        }
        wider.count = self.count;
        *self = wider;
        Ok(())
    }

    /// Adds a place.
    pub(crate) fn add(&mut self, alloc: Global, hash: u64, place: usize) -> Result<(), AllocError> {
        if self.count >= self.entries.len() / 2 {
            self.widen(alloc)?;
        }
        if place < NONE as usize {
            self.note(hash, place as u32);
        }
        self.count = self.count.saturating_add(1);
        Ok(())
    }

    /// Removes all places, and keeps the memory.
    pub(crate) fn clear(&mut self) {
        for i in 0..self.entries.len() {
            self.entries[i] = (0, NONE);
        }
        self.count = 0;
    }
}
