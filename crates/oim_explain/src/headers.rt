//! What is wrong with the header of a file, beyond its fault.

use crate::nearest::Nearest;
use csv::ByteRecord;
use oim_meta::Column;
use oim_names::Text;
use oim_places::{quoted, text_at};
use std::alloc::{AllocError, Global};

/// What is wrong with a file in UTF-16.
pub(crate) const UTF_16: &str = "the file is in UTF-16: save it as UTF-8";

/// Returns whether bytes begin with the byte order mark of UTF-16.
pub(crate) fn is_utf_16(bytes: &[u8]) -> bool {
    bytes.starts_with(b"\xff\xfe") || bytes.starts_with(b"\xfe\xff")
}

/// Returns what is wrong with a header that is one cell.
fn wrong_cell(cell: &str) -> Option<&'static str> {
    if cell.split_once(';').is_some() {
        return Some("semicolons are between the cells: save the file with commas");
    }
    if cell.split_once('\t').is_some() {
        return Some("tabs are between the cells: save the file with commas");
    }
    None
}

/// Returns what is wrong with a header as a whole, or `None` if nothing more is known.
pub(crate) fn wrong_header(header: &ByteRecord) -> Option<&'static str> {
    if is_utf_16(header.get(0)?) {
        return Some(UTF_16);
    }
    let first = text_at(header, 0)?;
    if first.starts_with("sep=") {
        return Some("the first line is a spreadsheet's own, with sep= in it: delete the line");
    }
    if header.len() == 1 {
        wrong_cell(first)
    } else {
        None
    }
}

/// Returns the line that names the column that a header cell may mean, if there is one.
pub(crate) fn column_meant(
    alloc: Global,
    columns: &[Column],
    cell: &str,
) -> Result<Option<Text>, AllocError> {
    let mut nearest = Nearest::none();
    for column in columns {
        nearest.offer(alloc, cell, column.id.as_str())?;
    }
    let Some(name) = nearest.meant() else {
        return Ok(None);
    };
    let name = quoted(alloc, name)?;
    let name = name.as_str();
    Ok(Some(Text::new(format!(in alloc; "did you mean {name}?")?)))
}
