//! Joining the pieces of a table.

ghost use Rattle.std.specs.Prelude.{◌≡◌, ◌≤◌, ◌+◌, ◌++◌, ◌<◌, [], IfOk, IfSome, None, Ok, ℕ, length, take};
ghost use Rattle.oim_decode.specs.Apart.{repeated_from, repeated_id};
ghost use Rattle.oim_rows.specs.Streams.{facts_of_rows};
ghost use Rattle.oim_decode.specs.PieceAnswers.{IsJoined};

use crate::piece::piece_answer::PieceAnswer;
use crate::piece::piece_blocks::blocks_of;
use crate::piece::piece_rows::PieceRows;
use oim_json::{Block, Spare};
use oim_rows::{
    RowId, RowIds, SpareIds, TableFault, TableHeader, TableKind, fault_at_place, whole_fault,
};
use std::alloc::{AllocError, Global};
use std::marker::Model;

/// The join of a table's pieces, in order.
///
/// Contracts see the row identifiers of the joined pieces.
#[derive(Drop)]
pub struct PieceJoin {
    alloc: Global,
    ids: RowIds,
}

impl Model for PieceJoin {
    ghost use Rattle.std.specs.Prelude.{List, ℕ};

    ghost Value = { List (List ℕ) };

    ghost view = { λ a. a.ids };
}

/// The facts of a piece up to the first row that repeats an earlier identifier, and the fault after
/// them.
///
/// Contracts see the facts of each row and the fault.
#[derive(Drop)]
pub struct JoinedPiece {
    rows: PieceRows,
    fault: Option<TableFault>,
}

impl Model for JoinedPiece {
    ghost use Rattle.oim_rows.specs.Streams.{Stream};

    ghost Value = { Stream };

    ghost view = { λ a. record { rows = a.rows; fault = a.fault } };
}

/// Returns the place of the first identifier that is in `before` or earlier in `ids`, or None. If
/// None, all of `ids` are added to `before`.
///
/// In each other case, also if memory runs out, only a prefix of `ids` is added. All identifiers
/// are searched before one is added, so that reads of distant memory overlap.
fn first_repeated(before: &mut RowIds, ids: Vec<RowId>) -> Result<Option<usize>, AllocError>
    ensures place { IfOk result (λ place. place ≡ repeated_from 0 before.old ids.items) }
    ensures within { IfOk result (λ place. IfSome place (λ k. k < length ids.items)) }
    ensures ids { result ≡ Ok None → before.new ≡ before.old ++ ids.items }
    ensures begun { (k : ℕ) × (before.new ≡ before.old ++ take k ids.items) }
{
    let known = before.first_of(ids.as_slice());
    let mut place = 0;
    for id in ids {
        if known == Some(place) {
            return Ok(Some(place));
        }
        if !before.add(id)? {
            return Ok(Some(place));
        }
        place += 1;
    }
    Ok(None)
}

/// Returns RepeatedRowId for row `number`.
fn fault_of_repeated_id(header: &TableHeader<'_>, number: u32) -> TableFault
    ensures { result ≡ repeated_id header.now number }
{
    let place = match header.id_place() {
        Some(place) => place,
        None => 0,
    };
    fault_at_place(header.table(), number, place, TableKind::RepeatedRowId)
}

impl PieceJoin {
    /// Makes a join without a piece, without taking memory.
    pub fn new(alloc: Global) -> PieceJoin
        ensures { result ≡ [] }
    {
        PieceJoin {
            alloc,
            ids: RowIds::new(alloc),
        }
    }

    /// Moves the identifiers of the joined pieces to the memory that another table left, if that is
    /// larger.
    pub fn move_ids(&mut self, spare: SpareIds)
        ensures { self.new ≡ self.old }
    {
        self.ids.move_to(spare);
    }

    /// Ends the join, and returns the identifiers of the joined pieces.
    pub(crate) fn into_ids(self) -> RowIds
        ensures { result ≡ self }
    {
        let PieceJoin { alloc: _, ids } = self;
        ids
    }

    /// Ends the join, and returns the memory of its identifiers for another table, if it is worth
    /// keeping.
    pub fn into_spare_ids(self) -> Option<SpareIds> {
        let PieceJoin { alloc: _, ids } = self;
        ids.into_spare()
    }

    /// Joins the table's next piece, whose first row has number `first`.
    ///
    /// Returns the piece's rows and its own fault, if it has one. If a row repeats an earlier row's
    /// identifier, returns the rows before it and RepeatedRowId. If memory runs out, returns no row
    /// and Memory.
    ///
    /// Remembers the identifiers for later pieces: all of them if there is no fault, else a prefix.
    pub fn join(&mut self, header: &TableHeader<'_>, first: u32, answer: PieceAnswer) -> JoinedPiece
        requires { first + length answer.ids ≤ 4294967296 }
        ensures stream { IsJoined header.now first self.old answer result }
        ensures ids { result.fault ≡ None → self.new ≡ self.old ++ answer.ids }
        ensures begun { (k : ℕ) × (self.new ≡ self.old ++ take k answer.ids) }
    {
        let PieceAnswer {
            mut rows,
            ids,
            fault,
        } = answer;
        match first_repeated(&mut self.ids, ids) {
            Ok(None) => JoinedPiece { rows, fault },
            Ok(Some(place)) => {
                rows.cut(place);
                let fault = fault_of_repeated_id(header, first + place as u32);
                JoinedPiece {
                    rows,
                    fault: Some(fault),
                }
            }
            Err(_) => JoinedPiece {
                rows: PieceRows::within(self.alloc, Spare::new(self.alloc)),
                fault: Some(whole_fault(header.table(), TableKind::Memory)),
            },
        }
    }
}

impl JoinedPiece {
    /// Returns the fault after the piece's rows, if it has one.
    pub fn fault(&self) -> Option<TableFault>
        ensures { result ≡ self.now.fault }
    {
        self.fault
    }

    /// Returns the facts of the piece in blocks of 1 to 256, in header order, row by row.
    pub fn into_blocks(self, alloc: Global) -> Result<Vec<Block>, AllocError>
        ensures { IfOk result (λ blocks. facts_of_rows blocks.items ≡ facts_of_rows self.rows) }
    {
        let JoinedPiece { rows, fault: _ } = self;
        blocks_of(alloc, rows)
    }
}
