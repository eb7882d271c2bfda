//! What is wrong with a header or a record as a whole.

use crate::facts::Told;
use crate::headers::{column_meant, wrong_header};
use crate::quotes::{UNCLOSED, unclosed_quote};
use csv::ByteRecord;
use oim_files::Folder;
use oim_meta::Column;
use oim_names::{Items, Text};
use oim_places::{RowAgain, place_in_record, text_at};
use oim_rows::{TableFault, TableKind};
use std::alloc::{AllocError, Global};
use std::io::Read;

/// Returns this cause with a line after it, if there is one.
fn told(alloc: Global, cause: &'static str, line: Option<Text>) -> Result<Told, AllocError> {
    let mut advice = Items::new(alloc);
    if let Some(line) = line {
        advice.push(line)?;
    }
    let sources = Vec::new(alloc);
    Ok(Told {
        sources,
        cause,
        advice,
    })
}

/// Returns what is told of a fault of the header.
fn of_header(
    alloc: Global,
    columns: &[Column],
    fault: &TableFault,
    header: &ByteRecord,
) -> Result<Told, AllocError> {
    if let Some(cause) = wrong_header(header) {
        return told(alloc, cause, None);
    }
    let meant = match place_in_record(fault) {
        Some(place) if fault.kind == TableKind::UnknownHeader => {
            column_meant(alloc, columns, text_at(header, place).unwrap_or(""))?
        }
        _ => None,
    };
    told(alloc, fault.kind.explanation(), meant)
}

/// Returns what is told of a fault of the header, or of a record that begins at this line.
pub(crate) fn of_record<R: Read + Drop, F: Folder<R>>(
    alloc: Global,
    folder: &mut F,
    path: &str,
    columns: &[Column],
    fault: &TableFault,
    cells: &RowAgain,
    line: Option<u64>,
) -> Result<Told, AllocError> {
    if fault.row == 0 {
        return of_header(alloc, columns, fault, &cells.header);
    }
    if fault.kind == TableKind::Ragged {
        if let Some(opened) = unclosed_quote(alloc, folder, path, line)? {
            return told(alloc, UNCLOSED, Some(opened));
        }
    }
    told(alloc, fault.kind.explanation(), None)
}
