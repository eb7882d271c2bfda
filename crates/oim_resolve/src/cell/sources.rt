//! Where the value of a reference comes from: a cell of the row, or a parameter.

use crate::cell::cell_of::CellOf;
use oim_cells::{CellMeaning, meaning};

/// Where the value of a reference comes from.
#[derive(Clone, Copy, Debug, PartialEq, Eq)]
pub enum CellSource {
    /// The row's cell at this place of the template. It is not empty.
    Cell(usize),
    /// The parameter of the table or of the report.
    Parameter,
    /// Neither exists: the value is absent.
    Nothing,
}

impl<'a> CellOf<'a> {
    ghost use Rattle.std.specs.Prelude.{◌≡◌};
    ghost use Rattle.oim_cells.specs.Cells.{seen_meaning};
    ghost use Rattle.oim_resolve.specs.ProgramOrigins.{seen_cell};
    ghost use Rattle.oim_resolve.specs.Sources.{cell_named, source_of, value_from};
    ghost use Rattle.oim_resolve.specs.Values.{referred};

    /// Returns the place of the column of this name, if the row's cell there is not empty.
    fn cell_named(&self, name: &str) -> Option<usize>
        ensures { result ≡ cell_named (seen_cell self.now) name.now }
    {
        let place = self.report.place_of_column(self.table, name.as_bytes())?;
        if self.text_at(place).is_empty() {
            None
        } else {
            Some(place)
        }
    }

    /// Returns where the value of a reference to `name` comes from. (xBRL-CSV 1.0, column and
    /// parameter references)
    ///
    /// It is the row's cell in the column of this name if it is not empty, else the parameter of
    /// this name, if the table or the report has one. It takes no memory.
    pub fn source_of(&self, name: &str) -> CellSource
        ensures source { result ≡ source_of (seen_cell self.now) name.now }
        ensures value { value_from (seen_cell self.now) name.now result ≡ referred (seen_cell self.now) name.now }
    {
        if let Some(place) = self.cell_named(name) {
            return CellSource::Cell(place);
        }
        match self.report.parameter(self.table, name) {
            Some(_) => CellSource::Parameter,
            None => CellSource::Nothing,
        }
    }

    /// Returns the meaning of the cell or parameter that a reference names.
    pub(crate) fn referred(&self, name: &str) -> CellMeaning<'a>
        ensures { seen_meaning result ≡ referred (seen_cell self.now) name.now }
    {
        if let Some(place) = self.cell_named(name) {
            return self.meaning_at(place);
        }
        match self.report.parameter(self.table, name) {
            Some(text) => meaning(text),
            None => CellMeaning::Absent,
        }
    }
}
