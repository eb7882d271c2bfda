//! What is wrong with the cell of a fact, and where that comes from.

use crate::forms::{PERIOD, form_of};
use crate::groups::known_groups;
use crate::levels::RowOfFault;
use crate::numbers::wrong_numeral;
use crate::quotes::{UNCLOSED, unclosed_quote};
use crate::source_places::line_of;
use crate::sources::sources;
use crate::spreadsheet::{SPREADSHEET_ERROR, is_spreadsheet_error};
use oim_files::Folder;
use oim_meta::{Written, WrittenDecimals};
use oim_names::{Items, Text};
use oim_resolve::{CellFault, FaultOrigin, fault_origin};
use std::alloc::{AllocError, Global};
use std::io::Read;

/// What is told of a record of a table's file.
#[derive(Drop)]
pub(crate) struct Told {
    /// The places elsewhere that lead to the fault. The last one is to be mended.
    pub(crate) sources: Vec<Text>,
    /// What is wrong there.
    pub(crate) cause: &'static str,
    /// What could be meant, or where a text begins that has no end.
    pub(crate) advice: Items<Text>,
}

/// Returns the text that has a fault, by what causes it.
fn faulty_text<'r>(row: &RowOfFault<'r>, origin: Option<FaultOrigin<'r>>) -> &'r str {
    match origin {
        Some(FaultOrigin::Cell) | None => row.own_cell(),
        Some(FaultOrigin::GroupCell(place)) => row.cell_of(row.column_id(place)),
        Some(FaultOrigin::Dimension(name)) => match row.cell.writer_of(name) {
            Some((_, Written::Text(text))) => text.as_str(),
            Some((_, Written::Named(name, _))) => row.text_referred(name.as_str()),
            _ => "",
        },
        Some(FaultOrigin::Decimals) => match row.cell.decimals_writer() {
            Some((_, WrittenDecimals::Named(name))) => row.text_referred(name.as_str()),
            _ => "",
        },
    }
}

/// Returns what is wrong with the text that has a fault, or `None` if nothing more than the fault
/// is known.
fn wrong_text(row: &RowOfFault<'_>, fault: CellFault, text: &str) -> Option<&'static str> {
    match fault {
        CellFault::BadNumber => wrong_numeral(text),
        CellFault::UnknownSpecial if is_spreadsheet_error(text) => Some(SPREADSHEET_ERROR),
        CellFault::BadPeriod => Some(PERIOD),
        CellFault::BadFactValue => form_of(row.cell.concept_kind()),
        _ => None,
    }
}

/// Returns the line that names the quotation mark which opens a text that the file does not close,
/// if the text that has the fault may be one: it has a line feed.
fn swallowing_quote<R: Read + Drop, F: Folder<R>>(
    alloc: Global,
    folder: &mut F,
    row: &RowOfFault<'_>,
    text: &str,
) -> Result<Option<Text>, AllocError> {
    if text.split_once('\n').is_some() {
        unclosed_quote(alloc, folder, row.table.path, row.line)
    } else {
        Ok(None)
    }
}

/// Returns what is told of a fault of the cell of a fact.
pub(crate) fn of_fact<R: Read + Drop, F: Folder<R>>(
    alloc: Global,
    folder: &mut F,
    row: &RowOfFault<'_>,
    fault: CellFault,
) -> Result<Told, AllocError> {
    let origin = fault_origin(alloc, row.cell, fault)?;
    let text = faulty_text(row, origin);
    let places = sources(alloc, row, origin)?;
    let mut lines = Vec::new(alloc);
    for place in &places {
        lines.push(line_of(alloc, row, place)?)?;
    }
    let mut advice = Items::new(alloc);
    if let (CellFault::UnknownGroup, Some(FaultOrigin::GroupCell(place))) = (fault, origin) {
        if let Some(column) = row.table.columns.get(place) {
            advice.push(known_groups(alloc, column, text)?)?;
        }
    }
    let mut cause = wrong_text(row, fault, text).unwrap_or(fault.explanation());
    if let Some(line) = swallowing_quote(alloc, folder, row, text)? {
        cause = UNCLOSED;
        advice.push(line)?;
    }
    Ok(Told {
        sources: lines,
        cause,
        advice,
    })
}
