//! The side of a duration that a reference takes.

ghost use Rattle.std.specs.Prelude.{◌≡◌};
ghost use Rattle.oim_resolve.specs.Values.{side_of};

use oim_report::{Side, Written};

/// Returns the side of a duration that a reference takes: the whole if it names no side. (xBRL-CSV
/// 1.0, period suffixes)
pub fn side_of(written: &Written) -> Side
    ensures { result ≡ side_of written.now }
{
    match written {
        Written::RowNumber(side) | Written::Named(_, side) => *side,
        Written::Absent | Written::Nil | Written::Empty | Written::Text(_) => Side::Whole,
    }
}
