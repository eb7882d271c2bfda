//! Growing texts, copies of many bytes at once, JSON escapes, and the numerals of cells, for the
//! fast way of `oim_fast`.
//!
//! A `TextBuffer` is a text in a buffer that is initialized ahead of it, so that a piece is
//! appended with one capacity test and one copy. A contract sees its bytes. If memory runs out,
//! `put` and `push` append nothing, and a call that escapes may append a part of its text.
//!
//! `copy`, `copy_short`, `copy_padded`, `copy_some`, `copy_text` and `copy_escaped` write into a
//! large enough buffer and return where the copy ends. They escape bytes by themselves, for speed;
//! `put_escaped` and `put_quoted` leave it to `serde_json`. The definition is that of `oim_json`.
//! `numeral_len` reports no fault: if it finds no numeral of the kind it returns 0, and the cell
//! may still be a numeral in another form.
//!
//! Not proved: what bytes the copies leave after the end that they return.
//!
//! A call:
//!
//! ```
//! /// Returns a text as JSON writes it.
//! fn json_of(alloc: Global, text: &str) -> Result<TextBuffer, AllocError> {
//!     let mut out = TextBuffer::new(alloc);
//!     put_quoted(&mut out, text)?;
//!     Ok(out)
//! }
//! ```
#![tactic(auto)]

mod buffer;
mod copies;
mod escape;
mod numeral;
mod quoted;

pub use buffer::{TextBuffer, make_room};
pub use copies::{
    copy, copy_escaped, copy_padded, copy_short, copy_some, copy_text, put_escaped_front,
    put_quoted_front,
};
pub use numeral::{numeral_len, suffix_behind};
pub use quoted::{put_escaped, put_quoted};
