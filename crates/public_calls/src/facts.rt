//! Calls of `oim_resolve`.

use crate::held::{Library, holds};
use oim_meta::{ColumnKind, Report};
use oim_names::{Items, Text};
use oim_resolve::{
    CellFault, CellOf, CellSource, Fact, FaultOrigin, Row, Writer, fault_origin, resolve,
};
use std::alloc::{AllocError, Global};

/// Returns the fact of a row's first cell.
fn fact_of(alloc: Global, report: &Report, row: &Row) -> Result<Option<Fact>, CellFault> {
    if report.tables() == 0 || report.columns(0) == 0 || row.cells.len() != report.columns(0) {
        return Ok(None);
    }
    if report.column(0, 0).kind != ColumnKind::Fact {
        return Ok(None);
    }
    resolve(alloc, report, 0, row, 0)
}

/// Adds a cell.
fn push_cell(alloc: Global, cells: &mut Items<Text>, text: &str) -> Result<(), AllocError> {
    cells.push(Text::from_str(alloc, text)?)?;
    Ok(())
}

/// Returns the cells of a row: this one, and an empty second one.
fn cells_of(alloc: Global, cash: &str) -> Result<Items<Text>, AllocError> {
    let mut cells = Items::new(alloc);
    push_cell(alloc, &mut cells, cash)?;
    push_cell(alloc, &mut cells, "")?;
    Ok(cells)
}

/// Returns whether an answer is a fact with an identifier.
fn is_fact(answer: Result<Option<Fact>, CellFault>) -> bool {
    match answer {
        Ok(Some(fact)) => !fact.id().is_empty(),
        _ => false,
    }
}

/// Returns whether the first row with these cells gives a fact.
fn gives(alloc: Global, report: &Report, cells: Items<Text>) -> bool {
    match Text::from_str(alloc, "r_1") {
        Ok(id) => is_fact(fact_of(alloc, report, &Row::new(1, id, cells))),
        Err(_) => false,
    }
}

/// Returns whether the concept of a cell is written by its column, and no value has this name.
fn is_written(cell: CellOf<'_>, name: &str) -> bool {
    let writer = match cell.writer_of("concept") {
        Some((writer, _)) => writer,
        None => Writer::Report,
    };
    writer == Writer::Column && cell.source_of(name) == CellSource::Nothing
}

/// Returns whether the number of a row's first cell is wrong because of the cell itself.
fn is_of_cell(alloc: Global, report: &Report, row: &Row) -> bool {
    let Some(cell) = CellOf::new(report, 0, row, 0) else {
        return false;
    };
    match fault_origin(alloc, cell, CellFault::BadNumber) {
        Ok(Some(FaultOrigin::Cell)) => is_written(cell, "nothing"),
        _ => false,
    }
}

/// Returns whether the first row with these cells has a wrong number in its first cell.
fn is_wrong(alloc: Global, report: &Report, cells: Items<Text>) -> bool {
    match Text::from_str(alloc, "r_1") {
        Ok(id) => is_of_cell(alloc, report, &Row::new(1, id, cells)),
        Err(_) => false,
    }
}

/// Returns whether the calls over a report answer as they must.
pub(crate) fn hold(alloc: Global, report: &Report) -> bool {
    match (cells_of(alloc, "12"), cells_of(alloc, "x")) {
        (Ok(right), Ok(wrong)) => gives(alloc, report, right) && is_wrong(alloc, report, wrong),
        _ => false,
    }
}

#[test]
fn calls_of_facts(rt: HostRuntime) {
    assert!(rt; holds(rt.alloc(), Library::Facts));
}
