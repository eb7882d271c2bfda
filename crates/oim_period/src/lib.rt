//! Periods of facts, and the texts that mean them.
//!
//! A period is an instant, or a duration from one moment to a later one, in the years 0001 to 9999
//! of the Gregorian calendar (Open Information Model 1.0, the period core dimension). A text names
//! it in one of ten forms (xBRL-CSV 1.0, the short forms of periods; weeks, dates and times by ISO
//! 8601). The forms are a year, month, quarter, half year, week or day, a range of days, a date and
//! time, two of these with `/` between them, and one side of a duration.
//!
//! What is proved, for every text and every period:
//!
//! - [`read`] returns the period that the text means by the table of forms in `specs/Table.antt`,
//!   or `None` if it means none. No text means two periods.
//! - [`Period::start_instant`] and [`Period::end_instant`] return the sides of a duration, and
//!   `None` for an instant.
//! - [`is_date`] accepts exactly the texts that write one day of the calendar.
//! - [`Period::text`] returns the only written form, and reading it gives the period again. Its
//!   only error is `AllocError`.
//!
//! `read`, `is_date` and the sides take no memory. `specs/Periods.antt` has the same rules as
//! functions that the contracts of other crates cite.
//!
//! Example:
//!
//! ```
//! /// The last quarter of a year, as documents write it.
//! fn writes_a_quarter(alloc: Global) -> Result<bool, AllocError> {
//!     match read("2021Q4") {
//!         Some(quarter) => Ok(
//!             quarter.text(alloc)?.as_str() == "2021-10-01T00:00:00/2022-01-01T00:00:00",
//!         ),
//!         None => Ok(false),
//!     }
//! }
//! ```
#![tactic(auto)]

mod calendar;
mod days;
mod moments;
mod parts;
mod period;
mod reader;
mod short_form;
mod writer;
mod written_date;

pub use period::{Moment, Period, Span};
pub use reader::read;
pub use written_date::is_date;
