//! A row of a table.

ghost use Rattle.std.specs.Prelude.{◌≡◌, ◌<◌, ◌≤◌, ◌^◌, Some, length, take};
ghost use Rattle.oim_rows.specs.RowFacts.{field_or_empty};

use oim_records::TextFields;
use oim_report::Report;
use oim_rows::TableHeader;
use std::marker::Model;

/// A row of a table: its fields under the table's header, and its number. A contract sees all
/// three.
#[derive(Drop)]
pub struct TableRow<'a, 'r> {
    header: &'r TableHeader<'a>,
    number: u32,
    fields: &'r TextFields<'r>,
}

impl<'a, 'r> Model for TableRow<'a, 'r> {
    ghost use Rattle.oim_row.specs.Rows.{RowValue};

    ghost Value = { RowValue };

    ghost view = { λ a. record { header = a.header.now; number = a.number; fields = a.fields.now } };
}

impl<'a, 'r> TableRow<'a, 'r> {
    /// Makes row `number`.
    #[inline(always)]
    pub fn new(
        header: &'r TableHeader<'a>,
        number: u32,
        fields: &'r TextFields<'r>,
    ) -> TableRow<'a, 'r>
        ensures { result ≡ record { header = header.now; number = number; fields = fields.now } }
    {
        TableRow {
            header,
            number,
            fields,
        }
    }

    /// Returns the header of its table.
    #[inline(always)]
    pub fn header(&self) -> &'r TableHeader<'a>
        ensures { result.now ≡ self.now.header }
    {
        self.header
    }

    /// Returns the report of its table.
    #[inline(always)]
    pub fn report(&self) -> &'a Report
        ensures { result.now ≡ self.now.header.report }
    {
        self.header.report()
    }

    /// Returns the index of its table in the report.
    #[inline(always)]
    pub fn table(&self) -> usize
        ensures value { result ≡ self.now.header.table }
        ensures within { result < length self.now.header.report.tables }
    {
        self.header.table()
    }

    /// Returns its number.
    #[inline(always)]
    pub fn number(&self) -> u32
        ensures value { result ≡ self.now.number }
        ensures within { self.now.number < 2 ^ 32 }
    {
        self.number
    }

    /// Returns the text at an index of the header, or the empty text if it does not exist.
    #[inline(always)]
    pub fn text_at(&self, place: Option<usize>) -> &'r str
        ensures { result.now ≡ field_or_empty self.now.fields place }
    {
        match place {
            Some(place) => match self.fields.get(place) {
                Some(text) => text,
                None => "",
            },
            None => "",
        }
    }

    /// Returns the bytes from the text at an index on, with bytes after the text if they can be
    /// read, and the text's length. No contract fixes the bytes after the text.
    #[inline(always)]
    pub fn bytes_at(&self, place: usize) -> (&'r [u8], usize)
        ensures bytes { take result.1 result.0.now ≡ field_or_empty self.now.fields (Some place) }
        ensures within { result.1 ≤ length result.0.now }
    {
        match self.fields.with_rest(place) {
            Some(field) => (field.rest(), field.len()),
            None => (b"", 0),
        }
    }
}
