//! Reading a period from a text.

ghost use Rattle.std.specs.Prelude.{◌≡◌, option_map};
ghost use Rattle.oim_period.specs.Periods.{period_of};
ghost use Rattle.oim_period.specs.Reads.{IsOnly, reading_of};
ghost use Rattle.oim_period.specs.Table.{Means};

use crate::moments;
use crate::period::Period;

/// Reads the period that a text means, in any of its ten forms (xBRL-CSV 1.0, the short forms of
/// periods).
///
/// A duration of whole days starts at the midnight before its first day, and ends at the midnight
/// after its last day. `24:00:00` is the next midnight. Letters are capitals, and spaces around the
/// text are not allowed. Returns `None` if the text does not mean a period, or if a moment would be
/// after 9999-12-31T23:59:59.
pub fn read(text: &str) -> Option<Period>
    ensures exact { IsOnly (Means text.now) (option_map reading_of result) }
    ensures value { option_map reading_of result ≡ period_of text.now }
{
    let bytes = text.as_bytes();
    if let Some(whole) = bytes.strip_suffix(b"@start") {
        let span = moments::duration(whole)?;
        return Some(Period::Instant(span.start));
    }
    if let Some(whole) = bytes.strip_suffix(b"@end") {
        let span = moments::duration(whole)?;
        return Some(Period::Instant(span.end));
    }
    if let Some(at) = moments::moment(bytes) {
        return Some(Period::Instant(at));
    }
    let span = moments::duration(bytes)?;
    Some(Period::Duration(span))
}
