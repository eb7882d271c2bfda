//! Memory for the row identifiers of a table, which those of another one have left.

ghost use Rattle.std.specs.Prelude.{◌≡◌};

use crate::group_counts::GroupCounts;
use crate::row_id::RowId;
use indexmap::IndexSet;
use std::marker::Model;

/// The fewest groups of a table that is kept.
const FEWEST: usize = 512;

/// The most groups of a table that is kept. With its identifiers, at most about 131,000, it takes
/// about 6 MB.
const MOST: usize = 16_384;

/// Memory for the row identifiers of a table. None of them is in it.
///
/// Contracts see how many identifiers fit.
#[derive(Drop)]
pub struct SpareIds {
    pub(crate) hashed: IndexSet<RowId>,
    pub(crate) counts: GroupCounts,
}

impl Model for SpareIds {
    ghost use Rattle.std.specs.Prelude.{◌≡◌, ◌+◌, ℕ, []};
    ghost use Rattle.indexmap.specs.IndexSet.{index_set_len, spare};

    ghost Value = { ℕ };

    ghost view = { λ a. index_set_len a.hashed + spare a.hashed };

    ghost invariant = { λ a. a.hashed.keys ≡ [] };
}

impl SpareIds {
    /// Empties a hash set and its counts, and keeps their memory.
    ///
    /// Returns `None` if it is small or large. A small one costs little to make anew.
    pub(crate) fn of(hashed: IndexSet<RowId>, counts: GroupCounts) -> Option<SpareIds> {
        let (mut hashed, mut counts) = (hashed, counts);
        let groups = counts.groups();
        if groups < FEWEST || groups > MOST {
            return None;
        }
        hashed.clear();
        counts.clear();
        Some(SpareIds { hashed, counts })
    }

    /// Returns how many identifiers fit.
    pub fn capacity(&self) -> usize
        ensures { result ≡ self.now }
    {
        self.hashed.capacity()
    }
}
