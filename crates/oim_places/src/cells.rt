//! The cells of a record that is read again.

ghost use Rattle.std.specs.Prelude.{◌≡◌, ◌++◌, IfOk, flat_map, string_bytes};
ghost use Rattle.std.specs.Option.{option_map};
ghost use Rattle.csv.specs.Records.{field_at, fields_of};
ghost use Rattle.oim_entries.specs.CsvFiles.{text_field};
ghost use Rattle.oim_places.specs.Cells as spec;
ghost use Rattle.oim_places.specs.Cells.{as_text, byte_shown, cell_text, record_text};
ghost use Rattle.oim_places.specs.FaultPlaces as places;

use crate::excerpts::{excerpt, in_quotes};
use crate::terminal::put_control;
use csv::ByteRecord;
use oim_names::Text;
use std::alloc::{AllocError, Global};

/// How many bytes are shown of a cell that is not UTF-8.
const MOST_BYTES: usize = 80;

/// Returns the cell of a record at a place, if it is text.
pub fn text_at(row: &ByteRecord, place: usize) -> Option<&str>
    ensures { option_map (λ t. t.now) result ≡ text_field (fields_of row.now) place }
{
    match row.get(place) {
        Some(field) => match str::from_utf8(field) {
            Ok(text) => Some(text),
            Err(_) => None,
        },
        None => None,
    }
}

/// Appends a byte of a cell that is not UTF-8: as itself if it is a printable ASCII character, else
/// as `\x` and its two hexadecimal digits.
fn put_byte(out: &mut String, byte: u8) -> Result<(), AllocError>
    ensures { IfOk result (λ u. string_bytes out.new ≡ string_bytes out.old ++ byte_shown byte) }
{
    if byte >= b' ' && byte < 127 {
        out.push(char::from(byte))
    } else {
        put_control(out, char::from(byte))
    }
}

/// Returns the whole of a field that is not UTF-8, each byte as it is shown.
fn all_bytes(alloc: Global, field: &[u8]) -> Result<String, AllocError>
    ensures { IfOk result (λ s. string_bytes s ≡ flat_map byte_shown field.now) }
{
    let mut out = String::new(alloc);
    for byte in field {
        put_byte(&mut out, *byte)?;
    }
    Ok(out)
}

/// Returns the beginning of a field that is not UTF-8, with two dots if there is more.
fn bytes_excerpt(alloc: Global, field: &[u8]) -> Result<String, AllocError>
    ensures { IfOk result (λ s. string_bytes s ≡ spec.bytes_excerpt field.now) }
{
    if field.len() <= MOST_BYTES {
        return all_bytes(alloc, field);
    }
    let mut out = all_bytes(alloc, &field[..MOST_BYTES])?;
    out.push_str("..")?;
    Ok(out)
}

/// Returns a whole field as a text. If it is not UTF-8, each byte is shown as `put_byte` does.
fn field_text(alloc: Global, field: &[u8]) -> Result<Text, AllocError>
    ensures { IfOk result (λ t. t ≡ as_text field.now) }
{
    match str::from_utf8(field) {
        Ok(text) => Text::from_str(alloc, text),
        Err(_) => Ok(Text::new(all_bytes(alloc, field)?)),
    }
}

/// Returns the field of a record at a place, or the empty field if it does not exist.
fn field_of(row: &ByteRecord, place: Option<usize>) -> &[u8]
    ensures { result.now ≡ places.field_of (fields_of row.now) place }
{
    match place {
        Some(place) => match row.get(place) {
            Some(field) => field,
            None => b"",
        },
        None => b"",
    }
}

/// Returns the field of a record at a place, as a text, or the empty text if it does not exist.
pub fn field_as_text(
    alloc: Global,
    row: &ByteRecord,
    place: Option<usize>,
) -> Result<Text, AllocError>
    ensures { IfOk result (λ t. t ≡ as_text (places.field_of (fields_of row.now) place)) }
{
    field_text(alloc, field_of(row, place))
}

/// Returns the beginning of a field: its first 80 characters, or if it is not UTF-8 bytes.
fn field_excerpt(alloc: Global, field: &[u8]) -> Result<String, AllocError>
    ensures { IfOk result (λ s. string_bytes s ≡ spec.field_excerpt field.now) }
{
    match str::from_utf8(field) {
        Ok(text) => excerpt(alloc, text),
        Err(_) => bytes_excerpt(alloc, field),
    }
}

/// Returns what is in the cell of a record at a place, in quotes and cut.
pub fn cell_shown(alloc: Global, row: &ByteRecord, place: usize) -> Result<String, AllocError>
    ensures { IfOk result (λ s. string_bytes s ≡ cell_text (field_at (fields_of row.now) place)) }
{
    match row.get(place) {
        Some(field) => in_quotes(alloc, field_excerpt(alloc, field)?.as_str()),
        None => String::from_str(alloc, "(nothing)"),
    }
}

/// Returns what a record has as a whole: how many cells.
pub fn record_shown(alloc: Global, row: &ByteRecord) -> Result<String, AllocError>
    ensures { IfOk result (λ s. string_bytes s ≡ record_text (fields_of row.now)) }
{
    let count = row.len();
    format!(in alloc; "(a record of {count})")
}
