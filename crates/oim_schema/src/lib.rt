//! The forms that XML Schema Part 2 (second edition) gives the values of simple types, and the
//! units of XBRL 2.1's monetary and share items.
//!
//! What is proved, for every text:
//!
//! - [`is_bounded_integer`] accepts exactly the integers within the bounds of one of twelve types.
//!   Numerals may have any length.
//! - [`is_date_form`] accepts exactly the dates and times of one of eight types, with or without a
//!   time zone.
//! - [`is_duration`] accepts exactly the durations, and [`is_hex_binary`] exactly the binary texts
//!   of hexadecimal digits.
//! - [`is_currency`] and [`is_shares`] accept exactly the units that are one measure, a currency by
//!   the form of its code or `shares`.
//!
//! - [`is_member_set`] accepts exactly the sets of QNames between blanks, without two of one name.
//! - [`joined_members`] returns the parts between blanks, joined by one space. [`next_part`] takes
//!   one part after another.
//!
//! Only these three know blanks. Only the first two take memory, and fail if it runs out.
//!
//! Example:
//!
//! ```
//! /// The least and the greatest byte, and their neighbors.
//! fn bounds_a_byte() -> bool {
//!     is_bounded_integer(IntegerType::Byte, "-128")
//!         && is_bounded_integer(IntegerType::Byte, "+00127")
//!         && !is_bounded_integer(IntegerType::Byte, "-129")
//!         && !is_bounded_integer(IntegerType::Byte, "128")
//! }
//! ```
#![tactic(auto)]

mod dates;
mod digits;
mod durations;
mod held_members;
mod hex_binary;
mod integers;
mod joined;
mod members;
mod units;

pub use dates::{DateForm, is_date_form};
pub use durations::is_duration;
pub use hex_binary::is_hex_binary;
pub use integers::{IntegerType, is_bounded_integer};
pub use joined::joined_members;
pub use members::{is_member_set, next_part};
pub use units::{is_currency, is_shares};
