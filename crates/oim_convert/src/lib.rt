//! The conversion of a whole report: from its tables to its document.
//!
//! What is proved of `convert_serial`, which works on one thread, if contracts see the readers'
//! bytes:
//!
//! - `Ok`: exactly the document of all facts was written, in table order and in the given layout
//!   (`specs/Answer.antt`);
//! - `Tables` has the first fault of each refused table, in table order. Exactly the unfinished
//!   document was written, up to and including the first refused table. A failed read or running
//!   out of memory refuses a table too, after a prefix of its facts (`specs/Serial.antt`);
//! - `Write`: a prefix of the defined bytes was written, and the fault is the sink's mark;
//! - `WrongReaders` is returned exactly if the number of readers is not the number of tables. With
//!   it and with `Memory` nothing is written. It has no other end: `Lost` is impossible here.
//!
//! `convert_here` is the same with the answer of `convert`.
//!
//! Over any readers there is one history for each, in table order, with one ending, which is that
//! table's own. If contracts see the bytes of a table's reader, its history is decoded from these
//! (`specs/ReadAlone.antt`). The faults, the end and the text are those of these histories.
//!
//! What is proved of `convert`, which works on threads, if it returns, for every number of workers,
//! ring size and schedule:
//!
//! - the history of each table is the table's stream, or a prefix of it that a failed read or
//!   running out of memory ended. `NoThread` ends all tables or none (`specs/Histories.antt`).
//!   There is one history for each reader, in table order. The clause for a table requires only
//!   that contracts see the bytes of its own reader. Over any readers each history has one ending,
//!   which is that table's own (`specs/Served.antt`);
//! - the faults and the end are those of the histories, each of which has one ending. Their
//!   document is written: whole, unfinished up to and including the first refused table, or after a
//!   failed write a prefix of it;
//! - if nothing cut a history short, each is its table's stream, and faults, end and bytes are the
//!   defined answer of the report (`specs/Runs.antt`);
//! - `BadWorkers`, `BadSize` and `WrongReaders` are returned exactly if each is the first that
//!   applies. With them and with `Memory` nothing is written;
//! - `Lost` (54), a fault of the program itself, is the one remaining end. Then the document of
//!   some histories, one for each table, or a prefix of it, was written. No clause ties them to the
//!   tables. `run` of `oim_run` calls `convert_here` for one worker, which excludes this end.
//!
//! A run is returned only after its claims were closed with all their seats, so the workers gave
//! one result for each table (`finish` in `src/returning.rt`).
//!
//! What is proved of the facts (`written_identifiers_differ`): whatever files the tables have, no
//! two facts of the defined answer have one identifier. Nor have two facts that a run's histories
//! write, also if tables were cut short or none was served (`specs/Identifiers.antt`).
//!
//! Not proved:
//!
//! - that memory or a read failed if `Memory` or `Read` is the fault; either may also replace a
//!   table's own fault or its end, and rows that were read before it may be missing;
//! - that `NoThread` occurs only if no thread started: `under_way` of `start_crew` has it, and no
//!   clause of `convert` can.
//!
//! Not proved, only tested: that workers are started and run in parallel, that each started worker
//! is joined, and that memory, threads and tokens are given. `tests/test_refused.py` counts the
//! threads that decode pieces of a table. No test shows that they run only while workers rest.
//!
//! A call:
//!
//! ```
//! /// Converts a report with one table, on one thread.
//! fn converts(alloc: Global, report: &Report, file: &[u8]) -> Result<Vec<u8>, ConvertFault> {
//!     let readers = vec![in alloc; Some(file)].map_err(|_| ConvertFault::Memory)?;
//!     let mut document = Vec::new(alloc);
//!     let sink = &mut Marked::new(&mut document);
//!     convert_serial(
//!         alloc,
//!         report,
//!         readers,
//!         Limits::profile(),
//!         Layout::Compact,
//!         sink,
//!     )?;
//!     Ok(document)
//! }
//! ```
#![tactic(auto)]

mod alone;
mod closed_feeds;
mod decode;
mod fault;
mod lanes;
mod laws;
mod leave;
mod lent;
mod limits;
mod pieces;
mod returning;
mod run;
mod scope;
mod sending;
mod serial;
mod server;
mod table_file;
mod table_task;
mod threaded;

pub use fault::ConvertFault;
pub use laws::written_identifiers_differ;
pub use limits::MOST_WORKERS;
pub use oim_crew::{Claims, Seat};
pub use oim_json::Layout;
pub use oim_ring::LARGEST_RING;
pub use run::Run;
pub use serial::{convert_here, convert_serial};
pub use threaded::{convert, convert_with_starts};
