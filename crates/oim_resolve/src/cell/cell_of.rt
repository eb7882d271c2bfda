//! The cell of a fact, and the cells of its row.

ghost use Rattle.oim_resolve.specs.Cell.{IsCell, cell_of};

use crate::fact::Row;
use oim_cells::{CellMeaning, meaning};
use oim_names::Text;
use oim_report::{ColumnKind, Report};
use std::alloc::{AllocError, Global};

/// The cell of a fact: a row of a table of a report, and the place of a column in the table's
/// template.
#[derive(Clone, Copy)]
pub struct CellOf<'a> {
    pub(crate) report: &'a Report,
    pub(crate) table: usize,
    pub(crate) row: &'a Row,
    pub(crate) column: usize,
    ghost in_range: { IsCell (cell_of report.now table row.now column) },
}

impl<'a> CellOf<'a> {
    ghost use Rattle.std.specs.Prelude.{◌≡◌, ◌<◌, IfOk, IfSome, IsSome, length};
    ghost use Rattle.oim_cells.specs.Cells.{seen_meaning};
    ghost use Rattle.oim_resolve.specs.Cell.{IsCell, cell_of, meaning_at, text_at};
    ghost use Rattle.oim_resolve.specs.Facts.{fact_meaning, id_of};
    ghost use Rattle.oim_resolve.specs.ProgramOrigins.{seen_cell};

    /// Makes the cell of these places, which are there.
    pub(crate) fn at(report: &'a Report, table: usize, row: &'a Row, column: usize) -> CellOf<'a>
        requires { IsCell (cell_of report.now table row.now column) }
        ensures { seen_cell result ≡ cell_of report.now table row.now column }
    {
        CellOf {
            report,
            table,
            row,
            column,
        }
    }

    /// Returns the row's cell in a column of a table's template.
    ///
    /// Returns `None` if there is no such table or column, if the column does not hold facts, or if
    /// the row does not have a cell for each column of the template.
    pub fn new(report: &'a Report, table: usize, row: &'a Row, column: usize) -> Option<CellOf<'a>>
        ensures cell { IfSome result (λ c. seen_cell c ≡ cell_of report.now table row.now column) }
        ensures found { IsCell (cell_of report.now table row.now column) → IsSome result }
    {
        if table >= report.tables() || column >= report.columns(table) {
            return None;
        }
        if row.cells.len() != report.columns(table) {
            return None;
        }
        match report.column(table, column).kind {
            ColumnKind::Fact => Some(CellOf::at(report, table, row, column)),
            ColumnKind::Groups | ColumnKind::Comment | ColumnKind::Plain => None,
        }
    }

    /// Returns the text of the row's cell at index `i`.
    pub(crate) fn text_at(&self, i: usize) -> &'a str
        requires { i < length self.now.row.now.cells }
        ensures { result.now ≡ text_at (seen_cell self.now) i }
    {
        let row = self.row;
        row.cells.as_slice()[i].as_str()
    }

    /// Returns the meaning of the row's cell at index `i`.
    pub(crate) fn meaning_at(&self, i: usize) -> CellMeaning<'a>
        requires { i < length self.now.row.now.cells }
        ensures { seen_meaning result ≡ meaning_at (seen_cell self.now) i }
    {
        meaning(self.text_at(i))
    }

    /// Returns the meaning of the fact's cell.
    pub(crate) fn fact_meaning(&self) -> CellMeaning<'a>
        ensures { seen_meaning result ≡ fact_meaning (seen_cell self.now) }
    {
        self.meaning_at(self.column)
    }

    /// Returns the identifier of the cell's fact.
    pub(crate) fn fact_id(&self, alloc: Global) -> Result<Text, AllocError>
        ensures { IfOk result (λ t. t ≡ id_of (seen_cell self.now)) }
    {
        let table = self.report.table_id(self.table);
        let row = self.row.id.as_str();
        let column = self.report.column(self.table, self.column).id.as_str();
        let names = table
            .len()
            .saturating_add(row.len())
            .saturating_add(column.len());
        let mut id = String::with_capacity(alloc, names.saturating_add(2))?;
        id.push_str(table)?;
        id.push_str(".")?;
        id.push_str(row)?;
        id.push_str(".")?;
        id.push_str(column)?;
        Ok(Text::new(id))
    }
}
