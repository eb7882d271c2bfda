//! The fast way from a row of a table to the texts of its facts.
//!
//! It writes the texts straight from the bytes of the row's cells, or leaves the row. It finds no
//! faults: a row with any fault, or of a rare form, is left, and goes the plain way (`oim_rows`
//! gives its facts or its first fault, `oim_json` the texts of the facts). So the contract has one
//! side: what the fast way wrote is the texts of the facts that the definition gives.
//!
//! - `frame`: a column of facts under the property groups that a row names: all of its text that is
//!   the same in each row;
//! - `table`: the rows of a table.
//!
//! `oim_row` reads what a row's cells give the references and the columns of property groups.
//! `oim_text` has the texts that grow, and the escapes. `TableRow` and `TextBuffer` are theirs.
//!
//! Here and in the crates below, "Without it:" names the price of code that is only for speed: how
//! many more instructions one worker then runs for 2 MB of a shape of `bench/`, or of a kind of
//! `bench/growth.py`. A shape that is not named feels less than 0.5 %. `ids` is `positions` with
//! `--row-ids`.
//!
//! Not proved: which good rows are left; what `HashIndex`, the hashes and the counted sizes hold.
//!
//! A call, which returns the texts of the facts of a table's first row, each with a comma before
//! it, or None if that row goes the plain way:
//!
//! ```
//! fn first_texts(
//!     alloc: Global,
//!     header: &TableHeader<'_>,
//!     fields: &TextFields<'_>,
//! ) -> Result<Option<TextBuffer>, AllocError> {
//!     let mut writer = RowWriter::new(alloc, header)?;
//!     let row = TableRow::new(header, 1, fields);
//!     let mut texts = TextBuffer::new(alloc);
//!     let mut ends = Vec::new(alloc);
//!     if writer.put_row(alloc, &row, &mut texts, &mut ends)? {
//!         Ok(Some(texts))
//!     } else {
//!         Ok(None)
//!     }
//! }
//! ```
#![tactic(auto)]

mod frame;
mod table;

pub use oim_row::TableRow;
pub use oim_text::TextBuffer;
pub use table::row_writer::RowWriter;
