//! The writer of documents, and the merge of all tables' rings in table order.
//!
//! What is proved of `DocumentWriter`, which begins, writes and ends each document:
//!
//! - its sink took the text of the items that it was given (`specs/Histories.antt`) in the given
//!   layout: the head and the facts of the blocks before the first refusal. After a failed write,
//!   which `fault` returns, the sink took a prefix of that text;
//! - `finish` writes the tail if no table is refused and no write fails, and nothing if a table is
//!   refused.
//!
//! What is proved of `merge`:
//!
//! - it takes each drain to its ending and no further;
//! - it writes the text of the items taken in the given layout: the head, the facts of the blocks
//!   before the first refusal, and the tail exactly if no table is refused;
//! - it returns the fault of each ending that is `Refused`, in table order, however the merge ends;
//! - it returns `Complete` only if no ending is `Refused`, and `Refused` only if one is;
//! - if it returns `Write`, it wrote a proper prefix of the text, and the fault is the sink's mark.
//!   At any other end it wrote the whole text, and the mark is unchanged.
//!
//! Not proved: that `merge` returns, because it waits.
//!
//! A call:
//!
//! ```
//! /// Merges the ring of one table into a document.
//! fn merges(rt: &(impl AllocGlobal + Wait), block: Block) -> Result<bool, AllocError> {
//!     let mut drains = [filled(rt.alloc(), block)?];
//!     let mut faults = Vec::with_capacity(rt.alloc(), 1)?;
//!     let mut document = Vec::new(rt.alloc());
//!     let sink = &mut Marked::new(&mut document);
//!     let end = merge(rt, &mut drains, b"", &mut faults, Layout::Compact, sink);
//!     Ok(end == MergeEnd::Complete && document.as_slice().starts_with(NIL_FACT))
//! }
//! ```
#![tactic(auto)]

mod merging;
mod progress;
mod remember;
mod writer;

pub use merging::merge;
pub use progress::MergeEnd;
pub use writer::DocumentWriter;
