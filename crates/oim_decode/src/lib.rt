//! The rows of one table as blocks of JSON text.
//!
//! `TableBlocks` reads a table's file record by record, and gives the texts of its facts in blocks.
//! What it gives is exactly the table's stream: the facts of each row before the first bad one, in
//! header order, and then the end or the table's first fault. A row with any fault gives no fact. A
//! failed read, or running out of memory, may end a table at any row. After the end or a fault each
//! call answers the same and takes no record.
//!
//! A table can also be decoded in pieces. `open_pieces` gives the head of its file and a reader of
//! the pieces after it. A `PieceDecoder` decodes the records of one piece without the other pieces.
//! A `PieceJoin` takes the decoded pieces in order and finds row identifiers that repeat earlier
//! ones. However the records are cut, the result is the table's stream (`rows_in_pieces`,
//! `file_in_pieces`, `joined_pieces_are_read`).
//!
//! A row goes one of two ways. The fast way (`oim_fast`) writes the texts of its facts straight
//! from the bytes of its cells, or leaves the row to the plain way. Each row with a fault in its
//! cells is left. The plain way takes the facts as values, or the first of these faults, from
//! `oim_rows`, and `oim_json` writes them. The fast way keeps no fact in memory as a value: only
//! contracts see the list of facts.
//!
//! Not proved: that a caller takes the pieces in order and counts their rows.
//!
//! A call, which returns how many facts the first block of a report's first table has:
//!
//! ```
//! fn first_block(alloc: Global, report: &Report, file: &[u8]) -> Result<usize, TableFault> {
//!     if report.tables() == 0 {
//!         return Ok(0);
//!     }
//!     let mut table = TableBlocks::open(alloc, report, 0, file, Limits::profile())?;
//!     match table.next_block(Spare::new(alloc))? {
//!         Some(block) => Ok(block.count()),
//!         None => Ok(0),
//!     }
//! }
//! ```
#![tactic(auto)]

mod laws;
mod piece;
mod table;

pub use laws::{file_in_pieces, joined_pieces_are_read, rows_in_pieces, settled_tables_stay};
pub use piece::first_records::{FirstRecords, open_pieces};
pub use piece::piece_answer::PieceAnswer;
pub use piece::piece_decoder::PieceDecoder;
pub use piece::piece_join::{JoinedPiece, PieceJoin};
pub use table::table_blocks::TableBlocks;
