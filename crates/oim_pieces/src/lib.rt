//! The pieces of one table, decoded on more than one thread.
//!
//! The worker that drew a table cuts its file into pieces that end between two records, and queues
//! them. Helper threads, which stay until the table ends, take pieces from the queue and decode
//! them. The worker does the same while it waits for the next answer. Short pieces, and the rows
//! that were read with the header, it decodes at once.
//!
//! A piece whose facts would be far longer than its rows is cut and not decoded. `into_rest` then
//! gives the rest of the table to one worker, which writes its rows in parts.
//!
//! `TablePieces` joins the answers in the order of the pieces. What it gives is the table's stream,
//! or a prefix of it before Read or Memory, whichever thread decoded a piece and whenever it
//! finished. Each piece has a channel of its own, which holds the piece until a thread takes it,
//! and then its answer. Both ends of the channel know the rows that the piece has.
//!
//! Names in this crate:
//!
//! - `Cutter` cuts the table's file into pieces.
//! - `PiecesUnderWay`: the pieces that are cut and not joined yet; `PieceUnderWay` is one of them.
//! - `InChannel`: what is in a piece's channel: the piece to decode, or its decoded rows.
//! - `Job`, `Pending`: the ends of that channel: one takes the piece and answers, one receives.
//! - `TableThreads`: a table's threads, which are its worker and its helper threads.
//! - `PieceQueue`, `PieceQueueEnd`: the ends of a table's queue: the worker's, a helper thread's.
//! - `HelperThread`, `HelperSetup`: what a helper thread is started with.
//! - `ThreadSpares`, `SparesByThread`: the memory of blocks, kept for the thread that last wrote to
//!   it.
//! - `Memory`: all spare memory of a table.
//! - `TextGrowth`: how much longer than its rows a table's facts can be. It makes pieces small, and
//!   says which are not decoded as a whole.
//! - `AtWork`: the count of the threads at work in the run.
//!
//! Not proved: what `AtWork`, `Memory` and `TextGrowth` hold, and how many pieces the worker cuts
//! ahead. No result depends on them.
//!
//! A call, which returns how many blocks the first piece of a report's first table has:
//!
//! ```
//! fn first_piece<'s, E, T: Threads + Wait + Sync + 's>(
//!     scope: &Scope<'s, E>,
//!     at_work: &'s AtWork,
//!     rt: &'s T,
//!     alloc: Global,
//!     report: &'s Report,
//!     file: &[u8],
//! ) -> Result<usize, TableFault> {
//!     if report.tables() == 0 {
//!         return Ok(0);
//!     }
//!     let (growth, limits) = (TextGrowth::none(), Limits::profile());
//!     let mut table = TablePieces::open(alloc, at_work, growth, report, 0, file, limits)?;
//!     let first = table.next_blocks(scope, rt);
//!     mem::drop(table);
//!     match first? {
//!         Some(blocks) => Ok(blocks.len()),
//!         None => Ok(0),
//!     }
//! }
//! ```
#![tactic(auto)]

mod at_work;
mod cutter;
mod decoded;
mod decoders;
mod helper_thread;
mod in_channel;
mod memory;
mod piece_under_way;
mod pieces_under_way;
mod small_reads;
mod table_pieces;
mod table_threads;
mod text_growth;
mod thread_spares;

pub use at_work::AtWork;
pub use small_reads::SmallReads;
pub use table_pieces::{PIECE_SIZE, TablePieces};
pub use text_growth::TextGrowth;
