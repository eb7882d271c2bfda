//! The kinds of columns.

ghost use Rattle.std.specs.Prelude.{◌≡◌, []};
ghost use Rattle.serde_json.specs.View.{view};
ghost use Rattle.oim_meta.specs.Faults.{is_mixed_column as mixed};
ghost use Rattle.oim_meta.specs.Value.{kind_of as kind_in};

use crate::build::made::flag;
use oim_report::ColumnKind;
use serde_json::Value;

/// Returns the kind of a column's cells.
pub(crate) fn kind_of(column: &Value) -> ColumnKind
    ensures { result ≡ kind_in (view column.now) }
{
    if column.get("dimensions").is_some() {
        ColumnKind::Fact
    } else if column.get("propertyGroups").is_some() {
        ColumnKind::Groups
    } else if flag(column, "comment") {
        ColumnKind::Comment
    } else {
        ColumnKind::Plain
    }
}

/// Returns whether a column is of two or three of the kinds fact, property group and comment.
pub(crate) fn is_mixed(column: &Value) -> bool
    ensures { result ≡ mixed [] (view column.now) }
{
    let is_fact = column.get("dimensions").is_some();
    let is_groups = column.get("propertyGroups").is_some();
    let is_comment = flag(column, "comment");
    (is_fact && is_groups) || (is_fact && is_comment) || (is_groups && is_comment)
}
