//! Row identifiers, found without a search through all of them.

ghost use Rattle.std.specs.Prelude.{◌≡◌, ◌++◌, ◌∷◌, ◌||◌, ◌&&◌, [], List, ℕ, IfOk, OnErr, OnOk, true, false, not, if◌then◌else◌, string_cmp};
ghost use Rattle.std.specs.BTreeSet.{UpdatesBy, contains_text};
ghost use Rattle.std.specs.Cmp.Lexicographic.{slice_cmp};
ghost use Rattle.std.specs.Ordering.{nat_cmp};
ghost use Rattle.std.specs.String.{string_bytes};
ghost use Rattle.oim_rows.specs.state.KeptIds.{is_kept};
ghost use Rattle.std.specs.List.{list_any};
ghost use Rattle.std.specs.Str.{bytes_eq};

use crate::group_counts::GroupCounts;
use crate::row_id::{RowId, Sought};
use crate::spare_ids::SpareIds;
use indexmap::IndexSet;
use std::alloc::{AllocError, Global};
use std::collections::BTreeSet;

/// Row identifiers.
///
/// A search among `hashed` looks at few groups of its table, since fewer identifiers begin in a
/// stretch of groups than these have places. The identifiers past these are in `ordered`. So those
/// whose hashes a stranger chose cost little more than a search in an ordered set.
#[derive(Drop)]
pub(crate) struct KeptIds {
    alloc: Global,
    hashed: IndexSet<RowId>,
    counts: GroupCounts,
    ordered: BTreeSet<String>,
}

/// Returns whether an identifier is one of those in order.
#[inline(always)]
fn is_ordered(ordered: &BTreeSet<String>, id: &str) -> bool
    ensures { result ≡ contains_text ordered.now id.now }
{
    !ordered.is_empty() && ordered.contains(id)
}

/// Adds an identifier to those of a hash set unless it is there, and returns whether it did.
#[inline(always)]
fn insert_hashed(hashed: &mut IndexSet<RowId>, id: RowId) -> Result<bool, AllocError>
    ensures added { IfOk result (λ added. added ≡ not (list_any (bytes_eq id) hashed.old.keys)) }
    ensures ids { IfOk result (λ added. hashed.new.keys ≡ (if added then hashed.old.keys ++ id ∷ [] else hashed.old.keys)) }
    ensures same { OnErr result (hashed.new.keys ≡ hashed.old.keys) }
{
    match hashed.insert(id) {
        Ok(added) => Ok(added),
        Err(_) => Err(AllocError),
    }
}

/// Adds an identifier to those in order unless it is there, and returns whether it did.
fn insert_text(ordered: &mut BTreeSet<String>, id: String) -> Result<bool, AllocError>
    ensures added { IfOk result (λ added. added ≡ not (contains_text ordered.old (string_bytes id))) }
    ensures updates { OnOk result (UpdatesBy string_cmp (λ k. slice_cmp nat_cmp (string_bytes id) (string_bytes k)) ordered.old ordered.new true) }
    ensures same { OnErr result (ordered.new.keys ≡ ordered.old.keys) }
{
    match ordered.insert(id) {
        Ok(added) => Ok(added),
        Err(_) => Err(AllocError),
    }
}

/// Adds an identifier to those in order unless it is there, and returns whether it did.
#[inline(never)]
fn insert_ordered(
    alloc: Global,
    ordered: &mut BTreeSet<String>,
    id: &str,
) -> Result<bool, AllocError>
    ensures added { IfOk result (λ added. added ≡ not (contains_text ordered.old id.now)) }
    ensures updates { OnOk result (UpdatesBy string_cmp (λ k. slice_cmp nat_cmp id.now (string_bytes k)) ordered.old ordered.new true) }
    ensures same { OnErr result (ordered.new.keys ≡ ordered.old.keys) }
{
    let id = String::from_str(alloc, id)?;
    insert_text(ordered, id)
}

impl KeptIds {
    /// Makes an empty set. It takes no memory.
    pub(crate) fn new(alloc: Global) -> KeptIds
        ensures { (id : List ℕ) → is_kept result.hashed.keys result.ordered id ≡ false }
    {
        KeptIds {
            alloc,
            hashed: IndexSet::new(alloc),
            counts: GroupCounts::new(alloc),
            ordered: BTreeSet::new(alloc),
        }
    }

    /// Moves the identifiers of the hash set to the memory of `spare`, if that is larger.
    #[tactic(auto, using(crate::proofs::MovedIds::all_moved))]
    pub(crate) fn move_to(&mut self, spare: SpareIds)
        ensures { (other : List ℕ) → is_kept (self.new).hashed.keys (self.new).ordered other ≡ is_kept (self.old).hashed.keys (self.old).ordered other }
    {
        if spare.capacity() <= self.hashed.capacity() {
            return;
        }
        let SpareIds {
            mut hashed,
            mut counts,
        } = spare;
        if hashed.append(&mut self.hashed).is_ok() {
            counts.count_all(&hashed);
            self.hashed = hashed;
            self.counts = counts;
        }
    }

    /// Drops the identifiers, and returns the memory of the hash set for those of another table.
    ///
    /// Returns `None` if it is small or large, or if identifiers are in order.
    pub(crate) fn into_spare(self) -> Option<SpareIds> {
        let KeptIds {
            alloc: _,
            hashed,
            counts,
            ordered,
        } = self;
        if ordered.is_empty() {
            SpareIds::of(hashed, counts)
        } else {
            None
        }
    }

    /// Returns whether no identifier is kept.
    #[inline(always)]
    pub(crate) fn is_empty(&self) -> bool
        ensures { result ≡ true → (id : List ℕ) → is_kept (self.now).hashed.keys (self.now).ordered id ≡ false }
    {
        self.hashed.is_empty() && self.ordered.is_empty()
    }

    /// Returns whether a text is one of the identifiers.
    pub(crate) fn has(&self, id: &str) -> bool
        ensures { result ≡ is_kept (self.now).hashed.keys (self.now).ordered id.now }
    {
        self.hashed.contains(&Sought::new(id)) || is_ordered(&self.ordered, id)
    }

    /// Returns whether an identifier is one of these.
    pub(crate) fn has_id(&self, id: &RowId) -> bool
        ensures { result ≡ is_kept (self.now).hashed.keys (self.now).ordered id.now }
    {
        self.hashed.contains(id) || is_ordered(&self.ordered, id.as_str())
    }

    /// Adds an identifier unless it is there, and returns whether it did. If memory runs out,
    /// nothing is added.
    pub(crate) fn add(&mut self, id: RowId) -> Result<bool, AllocError>
        ensures added { IfOk result (λ added. added ≡ not (is_kept (self.old).hashed.keys (self.old).ordered id)) }
        ensures more { IfOk result (λ added. (other : List ℕ) → is_kept (self.new).hashed.keys (self.new).ordered other ≡ (is_kept (self.old).hashed.keys (self.old).ordered other || (added && bytes_eq other id))) }
        ensures same { OnErr result ((other : List ℕ) → is_kept (self.new).hashed.keys (self.new).ordered other ≡ is_kept (self.old).hashed.keys (self.old).ordered other) }
    {
        if is_ordered(&self.ordered, id.as_str()) {
            return Ok(false);
        }
        if self.counts.make_room(&mut self.hashed, &id) {
            return insert_hashed(&mut self.hashed, id);
        }
        if self.hashed.contains(&id) {
            return Ok(false);
        }
        insert_ordered(self.alloc, &mut self.ordered, id.as_str())
    }
}
