//! How many row identifiers begin in each group and each stretch of a hash set's table.

ghost use Rattle.std.specs.Prelude.{◌≡◌};

use crate::row_id::RowId;
use indexmap::IndexSet;
use std::alloc::{AllocError, Global};
use std::hash::{FoldHasher, Hash, Hasher};

/// The groups of the table with the first identifier.
const FIRST: usize = 256;

/// The identifiers of a group, which has 12 places, that are counted only there. In a good report,
/// few groups have more.
///
/// Without it, if all are counted for their stretch too: `ids` +0.7 %, `mixed` +0.6 %.
const FEW_OF_GROUP: u8 = 8;

/// The most identifiers that begin in a group. If they are of one hash, a search compares all of
/// them.
const MOST_OF_GROUP: u8 = 28;

/// The last place of a stretch: two places for each of its 16 groups.
const LAST: usize = 31;

/// The most identifiers of a stretch, which has 192 places, beyond the few of each group: 176 in
/// all. So those that do not fit into their group find a place within some thirty groups.
const MORE_OF_STRETCH: u8 = 48;

/// The identifiers for which the table has memory, for each group.
const USED: usize = 9;

/// The most identifiers, for each group, before the table grows. With so few, a group or a stretch
/// of a good report is seldom full; if one is, the table grows before.
const LOAD: usize = 8;

/// How many of the identifiers in a hash set begin in each group and each stretch of its table, so
/// that none begins in one that is full. A wrong count costs only time.
///
/// Without it: `ids` about -2 %, `mixed` about -1 %, but `hash_ids` of 3,000 rows 9 times.
#[derive(Drop)]
pub(crate) struct GroupCounts {
    /// The identifiers with which the table grows.
    load: usize,
    /// Two places for each group: its own count and, for the last group of a stretch, how many
    /// identifiers of the stretch are beyond the few of their group.
    counts: Vec<u8>,
}

/// Returns a number whose lowest bits are the group at which the table looks for an identifier.
#[inline(always)]
fn group_of(id: &RowId) -> usize {
    let mut state = FoldHasher::default();
    id.hash(&mut state);
    let hash = state.finish();
    (hash ^ (hash >> 32)) as usize
}

impl GroupCounts {
    /// Makes the counts of an empty set. They take no memory.
    pub(crate) fn new(alloc: Global) -> GroupCounts {
        GroupCounts {
            load: 0,
            counts: Vec::new(alloc),
        }
    }

    /// Returns whether the count at a place is this large.
    fn has_reached(&self, place: usize, most: u8) -> bool {
        match self.counts.get(place) {
            Some(count) => *count >= most,
            None => false,
        }
    }

    /// Adds one to the count at a place.
    fn count_at(&mut self, place: usize) {
        if let Some(count) = self.counts.get_mut(place) {
            *count = count.saturating_add(1);
        }
    }

    /// Counts an identifier that is to be added, unless its group or its stretch is full. Returns
    /// whether one is.
    #[inline(always)]
    fn is_full(&mut self, id: &RowId) -> bool {
        let own = group_of(id).wrapping_mul(2) & self.counts.len().saturating_sub(1);
        match self.counts.get_mut(own) {
            Some(count) => {
                if *count < FEW_OF_GROUP {
                    *count += 1;
                    return false;
                }
            }
            None => return false,
        }
        self.is_stretch_full(own)
    }

    /// Counts an identifier as `is_full` does, in the group of the count at `own`, which has more
    /// than a few.
    #[cold]
    #[inline(never)]
    fn is_stretch_full(&mut self, own: usize) -> bool {
        let near = own | LAST;
        if self.has_reached(own, MOST_OF_GROUP) || self.has_reached(near, MORE_OF_STRETCH) {
            return true;
        }
        self.count_at(own);
        self.count_at(near);
        false
    }

    /// Makes room for one more identifier, if memory allows, and counts it. Returns false if its
    /// group or its stretch is full.
    #[inline(always)]
    pub(crate) fn make_room(&mut self, ids: &mut IndexSet<RowId>, id: &RowId) -> bool
        ensures { ids.new.keys ≡ ids.old.keys }
    {
        if ids.len() >= self.load {
            let _ = self.grow(ids);
        }
        if !self.is_full(id) {
            return true;
        }
        self.make_place(ids, id)
    }

    /// Counts an identifier whose group or stretch was full, after the table grew. It grows if it
    /// is at least half full, as it may be in a good report. Returns whether it counted it.
    ///
    /// Without it: `short_ids` +26 %, since a search among those in order follows for each row.
    #[cold]
    #[inline(never)]
    fn make_place(&mut self, ids: &mut IndexSet<RowId>, id: &RowId) -> bool
        ensures { ids.new.keys ≡ ids.old.keys }
    {
        if ids.len() < self.load / 2 || self.grow(ids).is_err() {
            return false;
        }
        !self.is_full(id)
    }

    /// Doubles the groups, and counts the identifiers anew.
    #[inline(never)]
    fn grow(&mut self, ids: &mut IndexSet<RowId>) -> Result<(), AllocError>
        ensures { ids.new.keys ≡ ids.old.keys }
    {
        let groups = FIRST.max(self.groups().saturating_mul(2));
        ids.reserve(groups.saturating_mul(USED).saturating_sub(ids.len()))?;
        self.counts.clear();
        self.counts.resize(groups.saturating_mul(2), 0)?;
        self.load = groups.saturating_mul(LOAD);
        self.count_all(ids);
        Ok(())
    }

    /// Counts the identifiers of a set, in addition to those that were counted.
    pub(crate) fn count_all(&mut self, ids: &IndexSet<RowId>) {
        for id in ids.as_slice() {
            let _ = self.is_full(id);
        }
    }

    /// Forgets the identifiers. The groups stay.
    pub(crate) fn clear(&mut self) {
        self.counts.as_mut_slice().fill(0);
    }

    /// Returns the count of groups.
    pub(crate) fn groups(&self) -> usize {
        self.counts.len() / 2
    }
}
