//! The rows of a piece that gave their facts.

ghost use Rattle.std.specs.Prelude.{◌≡◌, ◌++◌, [], take};
ghost use Rattle.oim_fast.specs.Facts.{facts_of_row};
ghost use Rattle.oim_rows.specs.RowFacts.{IsTextRecord};
ghost use Rattle.oim_decode.specs.state.RowEnds.{IsEndIn, stretches};
ghost use Rattle.oim_decode.specs.state.RowTexts.{AddsRowFacts};

use crate::piece::piece_spares::PieceSpares;
use crate::piece::written_rows::WrittenRows;
use crate::table::row_texts::RowTexts;
use crate::table::table_blocks::has_room;
use oim_fast::TableRow;
use oim_json::Spare;
use oim_records::Fields;
use oim_rows::{TableFault, TableKind, whole_fault};
use std::alloc::{AllocError, Global};
use std::marker::Model;
use std::mem;

/// How many stretches a piece has room for at first.
const FEW: usize = 16;

/// The texts of the facts of a piece's rows, in stretches of whole rows. Each stretch has the facts
/// of one block, if they fit, and ends early if their texts are long.
///
/// Contracts see the facts of each row.
pub(crate) struct PieceRows {
    full: Vec<WrittenRows>,
    last: WrittenRows,
}

// Written by hand so that dropping one elsewhere compiles to a single call.
impl Drop for PieceRows {
    fn drop(self) {
        let Self { full: _, last: _ } = self;
    }
}

impl Model for PieceRows {
    ghost use Rattle.std.specs.Prelude.{◌++◌, List};
    ghost use Rattle.oim_resolve.specs.FactParts.{FactParts as FactValue};
    ghost use Rattle.oim_decode.specs.state.RowEnds.{stretches};

    ghost Value = { List (List FactValue) };

    ghost view = { λ a. stretches a.full.items ++ a.last };
}

/// Returns the stretch in which the first `count` rows end, and how many of them it has. If the
/// stretches have fewer rows, it is the one after them.
#[tactic(auto, using(crate::proofs::RowCuts::stretch_found, crate::proofs::RowCuts::stretch_passed, crate::proofs::RowCuts::none_found))]
fn end_of(full: &[WrittenRows], count: usize) -> (usize, usize)
    ensures { IsEndIn full.now count result }
{
    let mut left = count;
    for i in 0..full.len() {
        let size = full[i].len();
        if left <= size {
            return (i, left);
        }
        left -= size;
    }
    (full.len(), left)
}

impl PieceRows {
    /// Makes a list without a row, whose first texts go to the memory of `spare`, without taking
    /// memory.
    pub(crate) fn within(alloc: Global, spare: Spare) -> PieceRows
        ensures { result ≡ [] }
    {
        PieceRows {
            full: Vec::new(alloc),
            last: WrittenRows::within(alloc, spare),
        }
    }

    /// Starts a new stretch, whose texts go to the memory of `spare`. The rows stay.
    #[tactic(auto, using(crate::proofs::RowCounts::closed))]
    fn close(&mut self, alloc: Global, spare: Spare) -> Result<(), AllocError>
        ensures { self.new ≡ self.old }
    {
        if self.full.is_empty() {
            self.full.reserve(FEW)?;
        }
        let next = self.last.like(alloc, spare)?;
        let full = mem::replace(&mut self.last, next);
        match self.full.push(full) {
            Ok(()) => Ok(()),
            Err(failed) => {
                self.last = failed.value;
                Err(AllocError)
            }
        }
    }

    /// Keeps the first `count` rows, or all if there are fewer.
    pub(crate) fn cut(&mut self, count: usize)
        ensures { self.new ≡ take count self.old }
    {
        let (place, left) = end_of(self.full.as_slice(), count);
        if place >= self.full.len() {
            self.last.cut(left);
            return;
        }
        self.full.truncate(place + 1);
        self.last = self.full.take_last();
        self.last.cut(left);
    }

    /// Returns the full stretches, and the last one.
    pub(crate) fn into_stretches(self) -> (Vec<WrittenRows>, WrittenRows)
        ensures { self ≡ stretches result.0.items ++ result.1 }
    {
        let PieceRows { full, last } = self;
        (full, last)
    }

    /// Adds the facts of a row. `spares` has memory for their texts.
    ///
    /// Fails with the fault of the row's first faulty cell, and with Memory if memory runs out.
    /// Then nothing is added.
    #[tactic(auto, using(crate::proofs::RowCounts::adds_behind))]
    pub(crate) fn push_row<'a>(
        &mut self,
        alloc: Global,
        texts: &mut RowTexts<'a>,
        row: &TableRow<'a, '_>,
        fields: &Fields<'_>,
        spares: &mut PieceSpares,
    ) -> Result<(), TableFault>
        requires header { row.now.header ≡ texts.old }
        requires fields { fields.now ≡ row.now.fields }
        requires texts { IsTextRecord fields.now }
        ensures facts { AddsRowFacts row.now.header.table (facts_of_row row.now) self.old self.new result }
        ensures same { texts.new ≡ texts.old }
    {
        let width = row.header().columns().len();
        let is_full = !has_room(self.last.count(), width, self.last.bytes());
        if is_full && self.close(alloc, spares.take(alloc)).is_err() {
            return Err(whole_fault(row.table(), TableKind::Memory));
        }
        self.last.push_row(alloc, texts, row, fields)
    }
}
