//! The meaning of a cell's, parameter's or literal's text in xBRL-CSV 1.0 and the Open Information
//! Model 1.0.
//!
//! What is proved, for every text:
//!
//! - [`meaning`] separates the special values (`#none`, `#nil`, `#empty`, a doubled `#`) from plain
//!   text. Each text has one meaning.
//! - [`split_numeral`] returns the numeral between the blanks at a text's ends, and the decimals
//!   after it, as in `1250.5d-2`, exactly if the text writes a numeral. No text can be split in two
//!   ways.
//! - [`decimals`] returns `Infinite` or a number of places exactly if the text states it.
//! - [`is_boolean`] accepts exactly the four boolean values, and [`trimmed`] removes the blanks at
//!   both ends of a text.
//!
//! The calls take no memory and never fail.
//!
//! Example:
//!
//! ```
//! /// A number and the places that its suffix states.
//! fn splits_a_numeral() -> bool {
//!     split_numeral(NumberKind::Decimal, "1250.5d-2") == Some(("1250.5", Some(Accuracy::Places(-2))))
//! }
//! ```
#![tactic(auto)]

mod blanks;
mod boolean;
mod cells;
mod numeral;

pub use blanks::trimmed;
pub use boolean::is_boolean;
pub use cells::{Accuracy, CellMeaning, NumberKind, meaning};
pub use numeral::{decimals, split_numeral};
