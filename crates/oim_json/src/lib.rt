//! The xBRL-JSON text of facts and of a report, and sinks that take it.
//!
//! What the contracts promise:
//! - The bytes of a `Member` are the text of its fact, and the bytes of a `Block` the texts of its
//!   facts joined by commas. `head` and `tail` are the text before and after the members (xBRL-JSON
//!   1.0, compact JSON with texts escaped as `serde_json` does, or a member on each line).
//! - A text of a fact contains no line feed. A document in lines, cut at its line feeds, gives the
//!   head, each fact's text with its comma, and the closing braces (`specs/Lines.antt`).
//! - `write_members`, if it returns Ok, has written the members of a block in the given layout.
//! - `write_all_of`, if it returns Ok, has written all of its bytes. Otherwise it has written a
//!   prefix of them, not all, and the sink's mark is the fault that it returns.
//! - A `Marked` holds what its writer holds, and returns the writer with what was written.
//!
//! Not proved, only tested: that a `Marked` calls its writer once and returns the writer's result,
//! and how many writes the members need in lines.
//!
//! A call:
//!
//! ```
//! /// Returns the text of facts, with commas between them.
//! fn text_of(alloc: Global, facts: &[Fact]) -> Result<Option<Block>, AllocError> {
//!     if facts.is_empty() || facts.len() > 256 {
//!         return Ok(None);
//!     }
//!     Ok(Some(block_of(alloc, facts)?))
//! }
//! ```
#![tactic(auto)]

mod block;
mod chunk;
mod document;
mod laws;
mod layout;
mod mark;
mod member;
mod sink;
mod spare;
mod write;
mod writing;

pub use block::{Block, block_of};
pub use document::{TAIL, head, tail};
pub use laws::{fact_lists_are_one_line, facts_are_one_line, lines_are_members};
pub use layout::Layout;
pub use mark::{Mark, WriteFault};
pub use member::{Member, member_of};
pub use sink::{Marked, Sink, write_all_of};
pub use spare::Spare;
pub use writing::write_members;
