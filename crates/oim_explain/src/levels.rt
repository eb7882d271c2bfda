//! The row of a fault, and the keys that lead to what a level of the report writes for the fact of
//! one of its cells.

ghost use Rattle.std.specs.Prelude.{◌≤◌};

use crate::table_again::TableAgain;
use oim_cells::{CellMeaning, meaning};
use oim_places::{RowAgain, text_at};
use oim_resolve::{CellOf, CellSource, Row, Writer};
use serde_json::Value;
use std::alloc::{AllocError, Global};

/// Returns a value of the metadata, if it is there and a text.
pub(crate) fn text_of(value: Option<&Value>) -> Option<&str> {
    match value {
        Some(value) => value.as_str(),
        None => None,
    }
}

/// Returns how many keys lead to a level: the template's name, the column's, the group's.
fn depth(writer: Writer) -> usize
    ensures { result ≤ 6 }
{
    match writer {
        Writer::Report => 0,
        Writer::Template => 2,
        Writer::Column => 4,
        Writer::Group(_) => 6,
    }
}

/// The row of a fault of a cell.
#[derive(Clone, Copy)]
pub(crate) struct RowOfFault<'r> {
    /// The table.
    pub(crate) table: &'r TableAgain<'r>,
    /// The cell, by the places of the template.
    pub(crate) cell: CellOf<'r>,
    /// The place of the fact's column in the template.
    pub(crate) column: usize,
    /// The row and its header.
    pub(crate) cells: &'r RowAgain,
    /// The line of the file at which the row begins.
    pub(crate) line: Option<u64>,
}

impl<'r> RowOfFault<'r> {
    /// Makes that of a row of a table, or returns `None` if the column does not hold facts.
    pub(crate) fn new(
        table: &'r TableAgain<'r>,
        row: &'r Row,
        column: usize,
        cells: &'r RowAgain,
        line: Option<u64>,
    ) -> Option<RowOfFault<'r>> {
        match CellOf::new(&table.again.report, table.table, row, column) {
            Some(cell) => Some(RowOfFault {
                table,
                cell,
                column,
                cells,
                line,
            }),
            None => None,
        }
    }

    /// Returns the identifier of the template.
    fn template_id(&self) -> &'r str {
        let table = self.table.id;
        let keys = ["tables", table, "template"];
        text_of(self.table.again.written_at(&keys)).unwrap_or(table)
    }

    /// Returns the identifier of the column at a place of the template.
    pub(crate) fn column_id(&self, place: usize) -> &'r str {
        match self.table.columns.get(place) {
            Some(column) => column.id.as_str(),
            None => "",
        }
    }

    /// Returns the row's cell in the column of this name, empty if it does not exist.
    pub(crate) fn cell_of(&self, column: &str) -> &'r str {
        match self.table.place_in_file(column) {
            Some(place) => text_at(&self.cells.row, place).unwrap_or(""),
            None => "",
        }
    }

    /// Returns the fact's own cell.
    pub(crate) fn own_cell(&self) -> &'r str {
        self.cell_of(self.column_id(self.column))
    }

    /// Returns the text to which a name refers, empty if it refers to nothing.
    pub(crate) fn text_referred(&self, name: &str) -> &'r str {
        match self.cell.source_of(name) {
            CellSource::Cell(_) => self.cell_of(name),
            CellSource::Parameter => self.table.parameter(name).unwrap_or(""),
            CellSource::Nothing => "",
        }
    }

    /// Returns the places of the columns from which the fact's column takes property groups.
    pub(crate) fn from(&self) -> &'r [usize] {
        match self.table.columns.get(self.column) {
            Some(column) => column.from.as_slice(),
            None => &[],
        }
    }

    /// Returns whether the row's cell in the column of property groups at a place is absent.
    pub(crate) fn is_group_absent(&self, place: usize) -> bool {
        meaning(self.cell_of(self.column_id(place))) == CellMeaning::Absent
    }

    /// Returns the keys that lead to a property that a level writes.
    pub(crate) fn keys_of<'k>(
        &self,
        alloc: Global,
        writer: Writer,
        property: &[&'k str],
    ) -> Result<Vec<&'k str>, AllocError>
    where
        'r: 'k,
    {
        let column = match writer {
            Writer::Group(place) => self.column_id(place),
            _ => self.column_id(self.column),
        };
        let levels = [
            "tableTemplates",
            self.template_id(),
            "columns",
            column,
            "propertyGroups",
            self.group_name(column),
        ];
        let mut keys = Vec::new(alloc);
        keys.extend_from_slice(&levels[..depth(writer)])?;
        keys.extend_from_slice(property)?;
        Ok(keys)
    }

    /// Returns the name that the row's cell in a column of property groups has.
    fn group_name(&self, column: &str) -> &'r str {
        match meaning(self.cell_of(column)) {
            CellMeaning::Text(name) => name,
            _ => "",
        }
    }
}
