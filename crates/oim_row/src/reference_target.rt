//! The source of a reference whose meaning each row of a table gives.

ghost use Rattle.std.specs.Prelude.{◌≡◌, MatchOption, true};
ghost use Rattle.std.specs.Option.{option_map};
ghost use Rattle.oim_row.specs.Sources.{RowNumber, seen_source, source_decimals, source_named, source_text, source_written};

use crate::table_row::TableRow;
use oim_report::{Written, WrittenDecimals};
use oim_rows::TableHeader;

/// What a reference names.
#[derive(Clone, Copy)]
pub enum ReferenceTarget<'a> {
    /// The number of the row.
    RowNumber,
    /// The index in the header of a column, and the text of the parameter of the same name, or the
    /// empty text if it does not exist.
    Column(usize, &'a str),
}

impl<'a> ReferenceTarget<'a> {
    /// Returns whether both references name the same.
    pub(crate) fn is_same(self, other: ReferenceTarget<'_>) -> bool
        ensures same { result ≡ true → seen_source self.entry ≡ seen_source other.entry }
        ensures all { seen_source self.entry ≡ seen_source other.entry → result ≡ true }
    {
        match (self, other) {
            (ReferenceTarget::RowNumber, ReferenceTarget::RowNumber) => true,
            (
                ReferenceTarget::Column(place, parameter),
                ReferenceTarget::Column(other_place, other_parameter),
            ) => place == other_place && parameter == other_parameter,
            (ReferenceTarget::RowNumber, ReferenceTarget::Column(_, _))
            | (ReferenceTarget::Column(_, _), ReferenceTarget::RowNumber) => false,
        }
    }

    /// Returns the text of a column in a row, or of its parameter if the cell is empty. Returns
    /// `None` for the number of the row.
    #[inline(always)]
    pub(crate) fn column_text<'r>(self, row: &TableRow<'_, 'r>) -> Option<&'r str>
    where
        'a: 'r,
        ensures { MatchOption result (seen_source self.entry ≡ RowNumber) (λ text. text.now ≡ source_text row.now (seen_source self.entry)) }
    {
        let ReferenceTarget::Column(place, parameter) = self else {
            return None;
        };
        let cell = row.text_at(Some(place));
        Some(if cell.is_empty() { parameter } else { cell })
    }
}

/// Returns what a reference to a name names, or `None` if the header has no column of that name.
fn named<'a>(header: &TableHeader<'a>, name: &str) -> Option<ReferenceTarget<'a>>
    ensures { option_map seen_source result ≡ source_named header.now name.now }
{
    let column = header
        .report()
        .place_of_column(header.table(), name.as_bytes())?;
    let place = header.source(column)?;
    match header.report().parameter(header.table(), name) {
        Some(text) => Some(ReferenceTarget::Column(place, text)),
        None => Some(ReferenceTarget::Column(place, "")),
    }
}

/// Returns what a written value refers to, or `None` if it means the same in each row.
pub fn source_of<'a>(header: &TableHeader<'a>, written: &Written) -> Option<ReferenceTarget<'a>>
    ensures { option_map seen_source result ≡ source_written header.now written.now }
{
    match written {
        Written::RowNumber(_) => Some(ReferenceTarget::RowNumber),
        Written::Named(name, _) => named(header, name.as_str()),
        Written::Absent | Written::Nil | Written::Empty | Written::Text(_) => None,
    }
}

/// Returns what written decimals refer to, or `None` if they state the same in each row.
pub fn source_of_decimals<'a>(
    header: &TableHeader<'a>,
    written: &WrittenDecimals,
) -> Option<ReferenceTarget<'a>>
    ensures { option_map seen_source result ≡ source_decimals header.now written.now }
{
    match written {
        WrittenDecimals::RowNumber => Some(ReferenceTarget::RowNumber),
        WrittenDecimals::Named(name) => named(header, name.as_str()),
        WrittenDecimals::Absent | WrittenDecimals::Fixed(_) => None,
    }
}
