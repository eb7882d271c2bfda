//! Columns by name.

ghost use Rattle.std.specs.Prelude.{◌≡◌, map};
ghost use Rattle.oim_report.specs.Readers.{place_of_name};
ghost use Rattle.oim_report.specs.Rising.{IsRising};
ghost use Rattle.oim_report.specs.declared.data.Column.{Column as ColumnValue};

use crate::data::Column;

/// Up to this many columns a walk is used instead of a binary search.
const SHORT: usize = 8;

/// Returns the place of the column with this name, by a walk.
fn place_by_walk(columns: &[Column], name: &[u8]) -> Option<usize>
    ensures { result ≡ place_of_name columns.now name.now }
{
    columns
        .iter()
        .position(|column| column.id.as_str().as_bytes() == name)
}

/// Returns the place of the column with this name, or `None` if no column has it. The columns'
/// names are in strict byte order.
pub(crate) fn place_in_order(columns: &[Column], name: &[u8]) -> Option<usize>
    requires { IsRising (map (λ (c : ColumnValue). c.id) columns.now) }
    ensures { result ≡ place_of_name columns.now name.now }
{
    if columns.len() <= SHORT {
        return place_by_walk(columns, name);
    }
    match columns.binary_search_by(|column| column.id.as_str().as_bytes().cmp(name)) {
        Ok(place) => Some(place),
        Err(_) => None,
    }
}
