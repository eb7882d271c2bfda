//! The rows that the fast way writes. None of their cells has a fault.

ghost use Rattle.std.specs.Prelude.{◌≡◌, [], IfOk, true};
ghost use Rattle.oim_table_faults.specs.TableFaults.{cell_faults};

use oim_fast::{RowWriter, TableRow, TextBuffer};
use oim_rows::TableHeader;
use std::alloc::{AllocError, Global};
use std::marker::Model;

/// The fast way for the rows of a table. What it writes is thrown away.
///
/// Contracts see the table's header.
#[derive(Drop)]
pub(crate) struct GoodRows<'a> {
    writer: RowWriter<'a>,
    texts: TextBuffer,
    ends: Vec<usize>,
}

impl<'a> Model for GoodRows<'a> {
    ghost use Rattle.oim_rows.specs.RowFacts.{TableHeaderValue};

    ghost Value = { TableHeaderValue };

    ghost view = { λ a. a.writer };
}

impl<'a> GoodRows<'a> {
    /// Prepares the fast way for the rows under a header.
    pub(crate) fn new(alloc: Global, header: &TableHeader<'a>) -> Result<GoodRows<'a>, AllocError>
        ensures { IfOk result (λ rows. rows ≡ header.now) }
    {
        Ok(GoodRows {
            writer: RowWriter::new(alloc, header)?,
            texts: TextBuffer::new(alloc),
            ends: Vec::new(alloc),
        })
    }

    /// Returns whether the fast way writes a row. Then no cell of it has a fault.
    #[tactic(auto, using(crate::proofs::FirstFaults::written_has_none))]
    pub(crate) fn writes(
        &mut self,
        alloc: Global,
        row: &TableRow<'a, '_>,
    ) -> Result<bool, AllocError>
        requires { row.now.header ≡ self.old }
        ensures good { IfOk result (λ written. written ≡ true → cell_faults row.now.header row.now.number row.now.fields ≡ []) }
        ensures same { self.new ≡ self.old }
    {
        self.texts.truncate(0);
        self.ends.truncate(0);
        self.writer
            .put_row(alloc, row, &mut self.texts, &mut self.ends)
    }
}
