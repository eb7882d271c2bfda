//! What a piece gives without the other pieces.

ghost use Rattle.std.specs.Prelude.{◌≡◌, ◌++◌, ◌<◌, IfOk, IfSome, None, Some, option_to_list, vec_capacity, vec_len};
ghost use Rattle.std.specs.Option.{is_none};
ghost use Rattle.oim_rows.specs.RowFacts.{IsTextRecord, id_place_of};
ghost use Rattle.oim_decode.specs.Apart.{id_in};
ghost use Rattle.oim_decode.specs.PieceAnswers.{refused as no_memory};
ghost use Rattle.oim_decode.specs.state.PieceAnswers.{AddsApart, cells_apart, no_rows};

use crate::piece::piece_rows::PieceRows;
use crate::piece::piece_spares::PieceSpares;
use crate::table::row_texts::RowTexts;
use oim_fast::TableRow;
use oim_json::Spare;
use oim_records::Fields;
use oim_rows::{RowId, TableFault, TableKind, whole_fault};
use std::alloc::{AllocError, Global};
use std::marker::Model;

/// The decoded rows of a piece: the texts of the facts of each row before the first bad one, the
/// identifiers of these rows if the table has a column for them, and the first fault.
///
/// If only the cells of the bad row have a fault, its identifier is the last.
///
/// Contracts see the facts of each row, the identifiers and the fault.
#[derive(Drop)]
pub struct PieceAnswer {
    pub(crate) rows: PieceRows,
    pub(crate) ids: Vec<RowId>,
    pub(crate) fault: Option<TableFault>,
}

impl Model for PieceAnswer {
    ghost use Rattle.oim_decode.specs.Apart.{Apart};

    ghost Value = { Apart };

    ghost view = { λ a. record { rows = a.rows; ids = a.ids.items; fault = a.fault } };
}

/// Returns the identifier of a row, if its table has a column for it, and reserves room for it in
/// `ids`.
#[inline]
fn id_of(
    alloc: Global,
    row: &TableRow<'_, '_>,
    ids: &mut Vec<RowId>,
) -> Result<Option<RowId>, AllocError>
    ensures id { IfOk result (λ o. id_in (id_place_of row.now.header) row.now.fields ≡ option_to_list o) }
    ensures room { IfOk result (λ o. IfSome o (λ _. vec_len ids.new < vec_capacity ids.new)) }
    ensures same { ids.new.items ≡ ids.old.items }
{
    match row.header().id_place() {
        Some(place) => {
            ids.reserve(1)?;
            Ok(Some(RowId::new(alloc, row.text_at(Some(place)))?))
        }
        None => Ok(None),
    }
}

/// Adds an identifier, for which there is room.
#[inline]
fn keep_id(ids: &mut Vec<RowId>, id: Option<RowId>)
    requires { IfSome id (λ _. vec_len ids.old < vec_capacity ids.old) }
    ensures { ids.new.items ≡ ids.old.items ++ option_to_list id }
{
    if let Some(id) = id {
        ids.push_reserved(id);
    }
}

impl PieceAnswer {
    /// Makes an answer without a row or a fault, whose first texts go to the memory of `spare`,
    /// without taking memory.
    pub(crate) fn within(alloc: Global, spare: Spare) -> PieceAnswer
        ensures { result ≡ no_rows }
    {
        PieceAnswer {
            rows: PieceRows::within(alloc, spare),
            ids: Vec::new(alloc),
            fault: None,
        }
    }

    /// Makes an answer of Memory without a row, for the table at this place, without taking memory.
    pub fn refused(alloc: Global, table: usize) -> PieceAnswer
        ensures { result ≡ no_memory table }
    {
        let mut answer = PieceAnswer::within(alloc, Spare::new(alloc));
        answer.end(whole_fault(table, TableKind::Memory));
        answer
    }

    /// Ends the answer with a fault.
    pub(crate) fn end(&mut self, fault: TableFault)
        ensures { self.new ≡ record self.old { fault = Some fault } }
    {
        self.fault = Some(fault);
    }

    /// Adds a row that has no fault apart from its cells, and returns whether it did.
    ///
    /// Otherwise ends the answer with the fault of the row's first faulty cell, or with Memory if
    /// memory runs out. `spares` has memory for the texts.
    pub(crate) fn push_row<'a>(
        &mut self,
        alloc: Global,
        texts: &mut RowTexts<'a>,
        row: &TableRow<'a, '_>,
        fields: &Fields<'_>,
        spares: &mut PieceSpares,
    ) -> bool
        requires header { row.now.header ≡ texts.old }
        requires fields { fields.now ≡ row.now.fields }
        requires texts { IsTextRecord fields.now }
        requires good { self.old.fault ≡ None }
        ensures row { AddsApart row.now.header.table self.old (cells_apart row.now) self.new }
        ensures added { result ≡ is_none self.new.fault }
        ensures same { texts.new ≡ texts.old }
    {
        let Ok(id) = id_of(alloc, row, &mut self.ids) else {
            self.end(whole_fault(row.table(), TableKind::Memory));
            return false;
        };
        match self.rows.push_row(alloc, texts, row, fields, spares) {
            Ok(()) => {
                keep_id(&mut self.ids, id);
                true
            }
            Err(fault) => {
                if fault.kind == TableKind::Memory {
                    self.fault = Some(whole_fault(row.table(), TableKind::Memory));
                    return false;
                }
                keep_id(&mut self.ids, id);
                self.fault = Some(fault);
                false
            }
        }
    }
}
