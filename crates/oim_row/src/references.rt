//! The references of a table.
//!
//! Not proved: `most`. Callers test it where they use it.

ghost use Rattle.std.specs.Prelude.{◌≡◌, ◌<◌, [], IfOk, IfSome, OnOk, length, map};
ghost use Rattle.std.specs.List.{All, slice_get};
ghost use Rattle.oim_row.specs.Answers.{IsAnswer};
ghost use Rattle.oim_row.specs.References.{Grows, HasKey, IsFresh, IsOfReport, key_of, key_seen, meaning_at_hand};

use crate::answer::Answer;
use crate::purpose::Purpose;
use crate::reference_target::ReferenceTarget;
use crate::row_reference::RowReference;
use crate::table_row::TableRow;
use std::alloc::{AllocError, Global};
use std::marker::Model;

/// The references of a table, each once. A contract sees the list of them.
#[derive(Drop)]
pub struct References<'a> {
    list: Vec<RowReference<'a>>,
    /// The most bytes that one of them gives in the current row. Callers test it where they use it.
    most: u32,
}

impl<'a> Model for References<'a> {
    ghost use Rattle.std.specs.Prelude.{List};
    ghost use Rattle.oim_row.specs.References.{ReferenceValue};

    ghost Value = { List ReferenceValue };

    ghost view = { λ a. a.list.items };
}

/// Returns a number of bytes, at most the largest number of 32 bits.
#[inline(always)]
fn counted(bytes: usize) -> u32 {
    if bytes < 0xffff_ffff {
        bytes as u32
    } else {
        0xffff_ffff
    }
}

/// Moves each reference on to a row, and returns the most bytes that one gives.
#[inline(always)]
fn refresh_all<'a>(
    alloc: Global,
    list: &mut Vec<RowReference<'a>>,
    row: &TableRow<'a, '_>,
) -> Result<u32, AllocError>
    requires { All (IsOfReport row.now.header.report) list.old.items }
    ensures fresh { OnOk result (All (IsFresh row.now) list.new.items) }
    ensures reports { All (IsOfReport row.now.header.report) list.new.items }
    ensures keys { map key_of list.new.items ≡ map key_of list.old.items }
{
    let mut most = 0usize;
    for i in 0..list.len() {
        let reference = &mut list[i];
        reference.refresh(alloc, row)?;
        let size = reference.answer().json.len();
        if most < size {
            most = size;
        }
    }
    Ok(counted(most))
}

impl<'a> References<'a> {
    /// Makes an empty list of references. It takes no memory.
    pub fn new(alloc: Global) -> References<'a>
        ensures { result ≡ [] }
    {
        References {
            list: Vec::new(alloc),
            most: 0,
        }
    }

    /// Moves on to a row: each reference takes the text that the row gives.
    #[inline(always)]
    pub fn refresh(&mut self, alloc: Global, row: &TableRow<'a, '_>) -> Result<(), AllocError>
        requires { All (IsOfReport row.now.header.report) self.old }
        ensures fresh { OnOk result (All (IsFresh row.now) self.new) }
        ensures reports { All (IsOfReport row.now.header.report) self.new }
        ensures keys { map key_of self.new ≡ map key_of self.old }
    {
        self.most = refresh_all(alloc, &mut self.list, row)?;
        Ok(())
    }

    /// Returns the index of a reference that is in the list already.
    fn find(&self, purpose: Purpose, source: ReferenceTarget<'_>) -> Option<usize>
        ensures { IfSome result (HasKey self.now (key_seen purpose source.entry)) }
    {
        for i in 0..self.list.len() {
            if self.list[i].is_for(purpose, source) {
                return Some(i);
            }
        }
        None
    }

    /// Returns the index of a reference, and adds it if it is missing, with the text that the row
    /// gives.
    pub fn place_for(
        &mut self,
        alloc: Global,
        row: &TableRow<'a, '_>,
        purpose: Purpose,
        source: ReferenceTarget<'a>,
    ) -> Result<usize, AllocError>
        requires { All (IsFresh row.now) self.old }
        ensures place { IfOk result (HasKey self.new (key_seen purpose source.entry)) }
        ensures fresh { All (IsFresh row.now) self.new }
        ensures grows { Grows self.old self.new }
    {
        if let Some(place) = self.find(purpose, source) {
            return Ok(place);
        }
        let mut reference = RowReference::new(alloc, row.report(), purpose, source)?;
        reference.refresh(alloc, row)?;
        let size = counted(reference.answer().json.len());
        let place = self.list.len();
        self.list.push(reference)?;
        if self.most < size {
            self.most = size;
        }
        Ok(place)
    }

    /// Returns what the reference at an index gives in the current row.
    #[inline(always)]
    pub fn at(&self, place: usize) -> &Answer
        requires { place < length self.now }
        ensures { IfSome (slice_get self.now place) (λ r. IsAnswer r.report r.key.purpose (meaning_at_hand r) result.now) }
    {
        let reference = &self.list[place];
        reference.answer()
    }

    /// Returns the most bytes that one of them gives in the current row.
    #[inline(always)]
    pub fn most(&self) -> u32 {
        self.most
    }
}
