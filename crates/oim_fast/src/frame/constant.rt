//! The meaning of a written value that does not depend on the row.

ghost use Rattle.std.specs.Prelude.{◌≡◌};
ghost use Rattle.oim_cells.specs.Cells.{seen_meaning};
ghost use Rattle.oim_fast.specs.state.Pieces.{constant_meaning, parameter_meaning};

use oim_cells::{CellMeaning, meaning};
use oim_report::Written;
use oim_rows::TableHeader;

/// Returns the meaning of the parameter `name`, or Absent if it does not exist.
pub(crate) fn parameter_of<'a>(header: &TableHeader<'a>, name: &str) -> CellMeaning<'a>
    ensures { seen_meaning result ≡ parameter_meaning header.now name.now }
{
    match header.report().parameter(header.table(), name) {
        Some(text) => meaning(text),
        None => CellMeaning::Absent,
    }
}

/// Returns the meaning of a written value that does not depend on the row: a literal, or the
/// parameter that a reference names.
pub(crate) fn constant_of<'a>(header: &TableHeader<'a>, written: &'a Written) -> CellMeaning<'a>
    ensures { seen_meaning result ≡ constant_meaning header.now written.now }
{
    match written {
        Written::Nil => CellMeaning::Nil,
        Written::Empty => CellMeaning::Empty,
        Written::Text(text) => CellMeaning::Text(text.as_str()),
        Written::Named(name, _) => parameter_of(header, name.as_str()),
        Written::Absent | Written::RowNumber(_) => CellMeaning::Absent,
    }
}
