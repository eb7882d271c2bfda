//! The dimensions that the levels of a table write, each prepared once.
//!
//! Without it, each prepared anew for a frame: `datapoints` +36 %, `wide` +2.0 %.

ghost use Rattle.std.specs.Prelude.{◌≡◌, [], Some, IfOk, IfSome, map, true};
ghost use Rattle.std.specs.List.{All, slice_get};
ghost use Rattle.std.specs.Option.{option_map};
ghost use Rattle.oim_fast.specs.state.Frames.{entry_of};
ghost use Rattle.oim_fast.specs.state.FrameParts.{IsPart};
ghost use Rattle.oim_row.specs.References.{Grows, IsFresh, key_of};
ghost use Rattle.oim_fast.specs.state.StillHolds.{HoldsStill, HoldsWith};

use crate::frame::hash_index::{HashIndex, STEPS, hash_of, hash_with};
use crate::frame::part::FramePart;
use oim_report::Written;
use oim_row::{References, TableRow, is_same_side};
use std::alloc::{AllocError, Global};

/// The most parts that are kept. One more removes them all.
const MOST: usize = 4096;

/// The prepared dimensions. A place is valid until another part is asked for.
#[derive(Drop)]
pub(crate) struct FrameParts<'a> {
    pub(crate) list: Vec<FramePart<'a>>,
    by_written: HashIndex,
}

/// Returns a hash of a name and the value that is written for it.
fn hash_of_written(name: &str, written: &Written) -> u64 {
    let text = match written {
        Written::Text(text) | Written::Named(text, _) => text.as_str(),
        Written::Absent | Written::Nil | Written::Empty | Written::RowNumber(_) => "",
    };
    hash_with(hash_of(name.as_bytes()), hash_of(text.as_bytes()))
}

/// Returns whether two written values are equal.
fn is_same_written(first: &Written, second: &Written) -> bool
    ensures { result ≡ true → first.now ≡ second.now }
{
    match (first, second) {
        (Written::Absent, Written::Absent) => true,
        (Written::Nil, Written::Nil) => true,
        (Written::Empty, Written::Empty) => true,
        (Written::Text(first), Written::Text(second)) => first.as_str() == second.as_str(),
        (Written::RowNumber(side), Written::RowNumber(other)) => is_same_side(*side, *other),
        (Written::Named(first, side), Written::Named(second, other)) => is_same_side(*side, *other)
            && first.as_str() == second.as_str(),
        _ => false,
    }
}

impl<'a> FrameParts<'a> {
    /// Makes an empty list, without taking memory.
    pub(crate) fn new(alloc: Global) -> FrameParts<'a>
        ensures { result.list.items ≡ [] }
    {
        FrameParts {
            list: Vec::new(alloc),
            by_written: HashIndex::new(alloc),
        }
    }

    /// Returns whether the part at a place has this name and this written value.
    fn is_at(&self, place: usize, name: &str, written: &Written) -> bool
        ensures { result ≡ true → option_map entry_of (slice_get self.now.list.items place) ≡ Some (name.now, written.now) }
    {
        if place >= self.list.len() {
            return false;
        }
        let part = &self.list[place];
        if part.name == name {
            return is_same_written(part.written, written);
        }
        false
    }

    /// Returns the place of a kept part, if the search finds it.
    fn find(&self, hash: u64, name: &str, written: &Written) -> Option<usize>
        ensures { IfSome result (λ place. option_map entry_of (slice_get self.now.list.items place) ≡ Some (name.now, written.now)) }
    {
        for step in 0..STEPS {
            let place = self.by_written.place_at(hash, step)?;
            if self.is_at(place, name, written) {
                return Some(place);
            }
        }
        None
    }

    /// Removes all parts if the list is full.
    fn make_room(&mut self)
        ensures { HoldsStill IsPart self.old.list.items self.new.list.items }
    {
        if self.list.len() < MOST {
            return;
        }
        self.list.clear();
        self.by_written.clear();
    }

    /// Keeps a part, and returns its place.
    fn keep(&mut self, alloc: Global, hash: u64, part: FramePart<'a>) -> Result<usize, AllocError>
        ensures place { IfOk result (λ place. slice_get self.new.list.items place ≡ Some part.entry) }
        ensures parts { HoldsWith IsPart self.old.list.items part.entry self.new.list.items }
    {
        self.make_room();
        let place = self.list.len();
        self.list.push(part)?;
        self.by_written.add(alloc, hash, place)?;
        Ok(place)
    }

    /// Returns the place of the part for a name and its written value, and prepares it if it is not
    /// kept.
    pub(crate) fn place_for(
        &mut self,
        alloc: Global,
        row: &TableRow<'a, '_>,
        references: &mut References<'a>,
        name: &'a str,
        written: &'a Written,
    ) -> Result<usize, AllocError>
        requires fresh { All (IsFresh row.now) references.old }
        requires parts { All (IsPart row.now.header (map key_of references.old)) self.old.list.items }
        ensures place { IfOk result (λ place. option_map entry_of (slice_get self.new.list.items place) ≡ Some (name.now, written.now)) }
        ensures parts { All (IsPart row.now.header (map key_of references.new)) self.new.list.items }
        ensures fresh { All (IsFresh row.now) references.new }
        ensures grows { Grows references.old references.new }
    {
        let hash = hash_of_written(name, written);
        if let Some(place) = self.find(hash, name, written) {
            return Ok(place);
        }
        let part = FramePart::new(alloc, row, references, name, written)?;
        let place = self.keep(alloc, hash, part)?;
        Ok(place)
    }
}
