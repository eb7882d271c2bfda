//! The columns that the cells of a header name, and where each of them is.

ghost use Rattle.std.specs.Prelude.{◌≡◌, [], IfOk, IfErr, OnOk, None, Some, is_some, nat_eq};
ghost use Rattle.indexmap.specs.IndexMap.{Updates, get};
ghost use Rattle.oim_rows.specs.Header.{repeat_from};
ghost use Rattle.oim_rows.specs.RowFacts.{source_of_column};
ghost use Rattle.oim_rows.specs.state.Decoding.{IsIndexOf, IsReason};

use indexmap::IndexMap;
use std::alloc::{AllocError, Global};
use std::marker::Model;

/// The column of each cell of a header, none of them twice. A contract sees just these.
#[derive(Drop)]
pub(crate) struct HeaderColumns {
    columns: Vec<Option<usize>>,
    // the place in the header of each column that occurs
    places: IndexMap<usize, usize>,
}

impl Model for HeaderColumns {
    ghost use Rattle.oim_rows.specs.Header.{Header};
    ghost use Rattle.oim_rows.specs.state.Decoding.{IsIndexOf};

    ghost Value = { Header };

    ghost view = { λ a. a.columns.items };

    ghost invariant = { λ a. IsIndexOf a.columns.items a.places };
}

/// Why the columns of a header were not indexed.
#[derive(Clone, Copy, Drop)]
pub(crate) enum NoIndex {
    /// The first place whose column also occurs at an earlier one.
    Repeated(usize),
    Memory,
}

/// Adds the column of the header cell at `place`, and returns whether the column was there.
fn add_column(
    places: &mut IndexMap<usize, usize>,
    column: usize,
    place: usize,
) -> Result<bool, AllocError>
    ensures was { IfOk result (λ was. was ≡ is_some (get nat_eq places.old column)) }
    ensures adds { OnOk result (Updates nat_eq places.old places.new column (Some place)) }
{
    match places.insert(column, place) {
        Ok(last) => Ok(last.is_some()),
        Err(_) => Err(AllocError),
    }
}

/// Adds the columns of a header to an empty index.
///
/// Returns the first place whose column also occurs at an earlier one.
fn add_columns(
    places: &mut IndexMap<usize, usize>,
    header: &[Option<usize>],
) -> Result<Option<usize>, AllocError>
    requires { places.old.entries ≡ [] }
    ensures repeated { IfOk result (λ r. r ≡ repeat_from 0 [] header.now) }
    ensures index { IfOk result (λ r. r ≡ None → IsIndexOf header.now places.new) }
{
    for place in 0..header.len() {
        if let Some(column) = header[place] {
            if add_column(places, column, place)? {
                return Ok(Some(place));
            }
        }
    }
    Ok(None)
}

impl HeaderColumns {
    /// Indexes the columns of a header.
    pub(crate) fn new(alloc: Global, columns: Vec<Option<usize>>) -> Result<HeaderColumns, NoIndex>
        ensures header { IfOk result (λ h. h ≡ columns.items) }
        ensures sound { OnOk result (repeat_from 0 [] columns.items ≡ None) }
        ensures fault { IfErr result (IsReason columns.items) }
    {
        let mut places = IndexMap::new(alloc);
        match add_columns(&mut places, columns.as_slice()) {
            Ok(None) => Ok(HeaderColumns { columns, places }),
            Ok(Some(place)) => Err(NoIndex::Repeated(place)),
            Err(_) => Err(NoIndex::Memory),
        }
    }

    /// Returns the column of each header cell, or `None` for an empty cell.
    pub(crate) fn as_slice(&self) -> &[Option<usize>]
        ensures { result.now ≡ self.now }
    {
        self.columns.as_slice()
    }

    /// Returns the place in the header of a column of the template, or `None` if the header lacks
    /// it.
    pub(crate) fn place_of(&self, column: usize) -> Option<usize>
        ensures { result ≡ source_of_column self.now column }
    {
        self.places.get(&column).copied()
    }
}
