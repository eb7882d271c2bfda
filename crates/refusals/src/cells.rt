//! The fact of a cell while memory runs out.

use crate::scarcity::CallOutcome;
use oim_meta::{ColumnKind, Report};
use oim_names::{Items, Text};
use oim_resolve::{CellFault, Fact, Row, resolve};
use std::alloc::{AllocError, Global};

/// Adds a cell.
fn push_cell(alloc: Global, cells: &mut Items<Text>, text: &str) -> Result<(), AllocError> {
    cells.push(Text::from_str(alloc, text)?)?;
    Ok(())
}

/// Returns the cells of the first row of the first table, in the order of the template's columns.
fn first_cells(alloc: Global) -> Result<Items<Text>, AllocError> {
    let mut cells = Items::new(alloc);
    for cell in ["100", "x", "first"] {
        push_cell(alloc, &mut cells, cell)?;
    }
    Ok(cells)
}

/// Returns that row.
pub(crate) fn first_row(alloc: Global) -> Result<Row, AllocError> {
    let cells = first_cells(alloc)?;
    match Text::from_str(alloc, "r_1") {
        Ok(id) => Ok(Row::new(1, id, cells)),
        Err(fault) => Err(fault),
    }
}

/// Returns what a call did that gives the fact of that row's first cell.
fn of_fact(answer: Result<Option<Fact>, CellFault>) -> CallOutcome {
    match answer {
        Ok(Some(fact)) => CallOutcome::same(fact.id() == "t1.r_1.cash"),
        Err(CellFault::Memory) => CallOutcome::Refused,
        _ => CallOutcome::Wrong,
    }
}

/// Resolves the first cell of a row of the first table.
pub(crate) fn resolves(alloc: Global, report: &Report, row: &Row) -> CallOutcome {
    if report.tables() == 0 || report.columns(0) == 0 || row.cells.len() != report.columns(0) {
        return CallOutcome::Wrong;
    }
    if report.column(0, 0).kind != ColumnKind::Fact {
        return CallOutcome::Wrong;
    }
    of_fact(resolve(alloc, report, 0, row, 0))
}
