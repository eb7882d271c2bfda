//! Guesses of where the groups are that rows name.

use crate::text_places::{TextPlaces, hash_of_text};
use std::alloc::{AllocError, Global};

/// The number of names that are searched for among the groups before their indexes are cached.
const SEVERAL: u32 = 64;

/// An index from a name's hash to the group that rows named by it.
///
/// It is only a hint. Callers compare the name of the group, so no contract speaks of it.
///
/// Without it: `datapoints` +9.5 %.
#[derive(Drop)]
pub(crate) struct GroupHints {
    slots: TextPlaces,
    places: Vec<u32>,
    missed: u32,
}

/// Returns the number of places for `groups` groups, a power of two.
fn slots_for(groups: usize) -> usize {
    if groups <= 1 << 9 {
        1 << 10
    } else if groups <= 1 << 14 {
        1 << 15
    } else {
        1 << 17
    }
}

impl GroupHints {
    /// Makes an empty index. It takes no memory.
    pub(crate) fn new(alloc: Global) -> GroupHints {
        GroupHints {
            slots: TextPlaces::new(alloc),
            places: Vec::new(alloc),
            missed: 0,
        }
    }

    /// Returns the index at which the group with this name may be.
    #[inline(always)]
    pub(crate) fn guess(&self, name: &str) -> usize {
        let count = self.places.len();
        if count == 0 {
            return usize::MAX;
        }
        let slot = self.slots.likely(hash_of_text(name.as_bytes()), count);
        self.places[slot] as usize
    }

    /// Reserves the places for `groups` groups.
    fn open(&mut self, groups: usize) -> Result<(), AllocError> {
        let count = slots_for(groups);
        self.slots.widen(count)?;
        self.places.resize(count, u32::MAX)
    }

    /// Records the index of the group with this name among `groups` groups. If memory runs out, it
    /// records nothing.
    #[inline(never)]
    pub(crate) fn note(&mut self, name: &str, place: usize, groups: usize) {
        if self.places.is_empty() {
            self.missed = self.missed.saturating_add(1);
            if self.missed < SEVERAL || self.open(groups).is_err() {
                return;
            }
        }
        let hash = hash_of_text(name.as_bytes());
        let count = self.places.len();
        if count == 0 || place >= u32::MAX as usize {
            return;
        }
        let _ = self.slots.count(hash, count);
        let slot = self.slots.free(hash, count);
        self.slots.note(hash, slot);
        self.places[slot] = place as u32;
    }
}
