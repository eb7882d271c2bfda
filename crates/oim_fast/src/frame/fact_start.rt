//! The text of a fact up to the identifier of its row.

ghost use Rattle.std.specs.Prelude.{◌≡◌, ◌++◌, IfOk, OnOk, flat_map, true};
ghost use mathlib.Core.List.{IsPrefix};
ghost use Rattle.oim_json.specs.JsonText.{escaped_byte};
ghost use Rattle.oim_fast.specs.state.CellWriters.{IsStartOf};
ghost use Rattle.oim_fast.specs.state.Facts.{start_text};
ghost use Rattle.oim_row.specs.Rows.{row_in};

use itoa::Buffer;
use oim_row::TableRow;
use oim_rows::TableHeader;
use oim_text::{TextBuffer, put_escaped, put_escaped_front};
use std::alloc::{AllocError, Global};

/// The text of a fact up to the identifier of its row, which is its first `lead` bytes, and with
/// that identifier.
#[derive(Drop)]
pub(crate) struct FactStart {
    pub(crate) lead: usize,
    pub(crate) start: TextBuffer,
    /// The number of the row, if the text is known to end with its digits.
    pub(crate) number: Option<u32>,
}

/// Appends the escaped identifier of a row.
fn put_id(out: &mut TextBuffer, row: &TableRow<'_, '_>) -> Result<(), AllocError>
    ensures id { OnOk result (out.new.items ≡ out.old.items ++ flat_map escaped_byte (row_in row.now).id) }
    ensures stays { IsPrefix out.old.items out.new.items }
{
    match row.header().id_place() {
        Some(place) => {
            let (bytes, len) = row.bytes_at(place);
            put_escaped_front(out, bytes, len)
        }
        None => {
            let mut digits = Buffer::new();
            out.put(b"r_")?;
            out.put(digits.format(row.number()).as_bytes())
        }
    }
}

impl FactStart {
    /// Makes the start of a table's facts, before its first row.
    pub(crate) fn new(alloc: Global, header: &TableHeader<'_>) -> Result<FactStart, AllocError>
        ensures { IfOk result (IsStartOf header.now) }
    {
        let mut start = TextBuffer::new(alloc);
        start.put(b",\"")?;
        put_escaped(&mut start, header.report().table_id(header.table()))?;
        start.push(b'.')?;
        Ok(FactStart {
            lead: start.len(),
            start,
            number: None,
        })
    }

    /// Moves to a row whose number is one more than that of the last row, if only the last digit
    /// changes, and returns true. Otherwise changes nothing and returns false.
    ///
    /// Without it: `positions` +2.1 %, `datapoints` +1.6 %.
    #[inline(always)]
    fn step(&mut self, row: &TableRow<'_, '_>) -> bool
        requires { IsStartOf row.now.header self.old }
        ensures lead { IsStartOf row.now.header self.new }
        ensures start { result ≡ true → self.new.start.items ≡ start_text row.now }
    {
        let Some(before) = self.number else {
            return false;
        };
        let number = row.number();
        let text = self.start.as_slice();
        if text.is_empty() || number < before || number - before != 1 {
            return false;
        }
        let digit = text[text.len() - 1];
        if digit >= b'9' {
            return false;
        }
        self.start.set_last(digit + 1);
        self.number = Some(number);
        true
    }

    /// Moves to a row.
    #[inline(always)]
    pub(crate) fn read(&mut self, row: &TableRow<'_, '_>) -> Result<(), AllocError>
        requires { IsStartOf row.now.header self.old }
        ensures lead { IsStartOf row.now.header self.new }
        ensures start { OnOk result (self.new.start.items ≡ start_text row.now) }
    {
        if self.step(row) {
            return Ok(());
        }
        self.number = None;
        self.start.truncate(self.lead);
        put_id(&mut self.start, row)?;
        if row.header().id_place().is_none() {
            self.number = Some(row.number());
        }
        Ok(())
    }
}
