//! Written dates.

ghost use Rattle.std.specs.Prelude.{◌≡◌, ◌↔◌, IsTrue};
ghost use Rattle.oim_period.specs.Dates.{IsDateText, is_date_text};

use crate::parts;

/// Returns whether a text is a date: `yyyy-mm-dd`, a day of the Gregorian calendar in the years
/// 0001 to 9999 (ISO 8601, extended format).
///
/// A text with a time zone, a sign, blanks or another count of digits is not a date. `9999-12-31`
/// is a date, although [`read`](crate::read) returns `None` for it.
pub fn is_date(text: &str) -> bool
    ensures means { IsTrue result ↔ IsDateText text.now }
    ensures value { result ≡ is_date_text text.now }
{
    parts::date(text.as_bytes()).is_some()
}
