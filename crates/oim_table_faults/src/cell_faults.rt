//! The plain way from a row to the faults of its cells.

ghost use Rattle.std.specs.Prelude.{◌≡◌, [], IfOk, map, length};
ghost use Rattle.std.specs.List.{range_with_len};
ghost use Rattle.std.specs.String.{string_bytes};
ghost use Rattle.oim_report.specs.Readers.{columns_of};
ghost use Rattle.oim_row.specs.Rows.{row_in};
ghost use Rattle.oim_rows.specs.RowFacts.{cell_at, fact_at, id_place_of, is_fact_column, row_id_text};
ghost use Rattle.oim_table_faults.specs.TableFaults.{alone_or, cell_faults, fault_in};

use oim_fast::TableRow;
use oim_names::{Items, Text};
use oim_report::Column;
use oim_resolve::{CellFault, Row, resolve};
use oim_rows::{TableFault, TableKind, fault_at_place, push_row_number};
use std::alloc::{AllocError, Global};

/// Returns the identifier of a row.
fn id_text(alloc: Global, row: &TableRow<'_, '_>) -> Result<String, AllocError>
    ensures { IfOk result (λ id. string_bytes id ≡ row_id_text (id_place_of row.now.header) row.now.number row.now.fields) }
{
    match row.header().id_place() {
        Some(place) => String::from_str(alloc, row.text_at(Some(place))),
        None => {
            let mut id = String::new(alloc);
            push_row_number(&mut id, row.number())?;
            Ok(id)
        }
    }
}

/// Returns the cell of each column of the template.
fn cells_of(alloc: Global, row: &TableRow<'_, '_>) -> Result<Items<Text>, AllocError>
    ensures { IfOk result (λ cells. cells ≡ map (cell_at row.now.header.columns row.now.fields) (range_with_len 0 (length (columns_of row.now.header.report row.now.header.table)))) }
{
    let mut cells = Items::new(alloc);
    for column in 0..row.report().columns(row.table()) {
        let text = row.text_at(row.header().source(column));
        cells.push(Text::from_str(alloc, text)?)?;
    }
    Ok(cells)
}

/// Copies a row, with a cell for each column of the template.
fn copied(alloc: Global, row: &TableRow<'_, '_>) -> Result<Row, AllocError>
    ensures { IfOk result (λ copy. copy ≡ row_in row.now) }
{
    let id = id_text(alloc, row)?;
    let cells = cells_of(alloc, row)?;
    Ok(Row::new(row.number(), Text::new(id), cells))
}

/// Returns whether the column at an index holds facts.
fn is_fact(columns: &[Column], column: usize) -> bool
    ensures { result ≡ is_fact_column columns.now column }
{
    match columns.get(column) {
        Some(column) => column.kind.holds_facts(),
        None => false,
    }
}

/// Returns the fault of the cell under one header cell, if it has one. `cells` is the row's copy.
fn fault_of_cell(
    alloc: Global,
    row: &TableRow<'_, '_>,
    cells: &Row,
    place: usize,
    column: Option<usize>,
) -> Result<Option<TableFault>, AllocError>
    requires { cells.now ≡ row_in row.now }
    ensures { IfOk result (λ fault. alone_or fault [] ≡ fault_in (fact_at row.now.header.report row.now.header.table (row_in row.now) place column)) }
{
    let Some(column) = column else {
        return Ok(None);
    };
    if !is_fact(row.report().template_columns(row.table()), column) {
        return Ok(None);
    }
    match resolve(alloc, row.report(), row.table(), cells, column) {
        Ok(_) => Ok(None),
        Err(CellFault::Memory) => Err(AllocError),
        Err(fault) => Ok(Some(fault_at_place(
            row.table(),
            row.number(),
            place,
            TableKind::Cell(fault),
        ))),
    }
}

/// Returns the faults of the cells of a row, in header order.
pub(crate) fn faults_of_cells(
    alloc: Global,
    row: &TableRow<'_, '_>,
) -> Result<Items<TableFault>, AllocError>
    ensures { IfOk result (λ faults. faults ≡ cell_faults row.now.header row.now.number row.now.fields) }
{
    let cells = copied(alloc, row)?;
    let columns = row.header().columns();
    let mut faults = Items::new(alloc);
    for place in 0..columns.len() {
        if let Some(fault) = fault_of_cell(alloc, row, &cells, place, columns[place])? {
            faults.push(fault)?;
        }
    }
    Ok(faults)
}
