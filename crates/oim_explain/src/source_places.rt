//! A place that leads to a fault: for a person, and for the file of faults.

use crate::levels::RowOfFault;
use crate::sources::SourcePlace;
use oim_names::Text;
use oim_places::{
    FaultCause, cell_shown, field_as_text, place_in_file, pointer_to, quoted, standing,
};
use std::alloc::{AllocError, Global};

/// Returns the file of a place, and outside of the metadata its line and its cell there.
fn place_of<'r>(
    row: &RowOfFault<'r>,
    source: &SourcePlace<'_>,
) -> (&'r str, Option<u64>, Option<usize>) {
    let table = row.table;
    match source {
        SourcePlace::Cell(place) => (table.path, row.line, Some(*place)),
        SourcePlace::HeaderCell(place) => (table.path, table.line, Some(*place)),
        SourcePlace::NoColumn(_) => (table.path, row.line, None),
        SourcePlace::Property(_) => (table.meta, None, None),
        SourcePlace::Given(name, _) => match &table.again.parameters {
            Some(parameters) => (parameters.path(), parameters.line(*name), Some(1)),
            None => ("", None, Some(1)),
        },
    }
}

/// Returns what is at a place, for a person.
fn found_at(
    alloc: Global,
    row: &RowOfFault<'_>,
    source: &SourcePlace<'_>,
) -> Result<String, AllocError> {
    match source {
        SourcePlace::Cell(place) => cell_shown(alloc, &row.cells.row, *place),
        SourcePlace::HeaderCell(place) => cell_shown(alloc, &row.cells.header, *place),
        SourcePlace::NoColumn(name) => {
            let name = quoted(alloc, *name)?;
            let name = name.as_str();
            format!(in alloc; "the header has no column {name}")
        }
        SourcePlace::Property(keys) => {
            standing(alloc, row.table.again.written_at(keys.as_slice()))
        }
        SourcePlace::Given(_, text) => quoted(alloc, *text),
    }
}

/// Returns the line of a place for a person.
pub(crate) fn line_of(
    alloc: Global,
    row: &RowOfFault<'_>,
    source: &SourcePlace<'_>,
) -> Result<Text, AllocError> {
    let place = match source {
        SourcePlace::Property(keys) => pointer_to(alloc, keys.as_slice())?,
        _ => {
            let (path, line, place) = place_of(row, source);
            place_in_file(alloc, path, line, place)?
        }
    };
    let found = found_at(alloc, row, source)?;
    let (place, found) = (place.as_str(), found.as_str());
    Ok(Text::new(format!(in alloc; "{place}: {found}")?))
}

/// Returns the cell of a place for the file of faults.
fn cell_of(
    alloc: Global,
    source: &SourcePlace<'_>,
    place: Option<usize>,
) -> Result<String, AllocError> {
    if let SourcePlace::Property(keys) = source {
        return pointer_to(alloc, keys.as_slice());
    }
    match place {
        Some(place) => {
            let cell = place.saturating_add(1);
            format!(in alloc; "{cell}")
        }
        None => Ok(String::new(alloc)),
    }
}

/// Returns the whole text at a place.
fn text_of(
    alloc: Global,
    row: &RowOfFault<'_>,
    source: &SourcePlace<'_>,
) -> Result<Text, AllocError> {
    match source {
        SourcePlace::Cell(place) => field_as_text(alloc, &row.cells.row, Some(*place)),
        SourcePlace::HeaderCell(place) => field_as_text(alloc, &row.cells.header, Some(*place)),
        SourcePlace::Given(_, text) => Text::from_str(alloc, *text),
        _ => Ok(Text::new(found_at(alloc, row, source)?)),
    }
}

/// Returns a place for the file of faults.
pub(crate) fn cause_of(
    alloc: Global,
    row: &RowOfFault<'_>,
    source: &SourcePlace<'_>,
) -> Result<FaultCause, AllocError> {
    let (file, line, place) = place_of(row, source);
    Ok(FaultCause {
        file: Text::from_str(alloc, file)?,
        line,
        cell: Text::new(cell_of(alloc, source, place)?),
        text: text_of(alloc, row, source)?,
    })
}
