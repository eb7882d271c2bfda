//! A cell with the number of its row in digits, and the values that its row gives.

ghost use Rattle.std.specs.Prelude.{◌≡◌, decimal};

use crate::cell::cell_of::CellOf;
use crate::cell::decimals::Stated;
use crate::dimension::read_concept;
use crate::fact::CellFault;
use oim_cells::CellMeaning;
use oim_report::{Kind, Written, WrittenDecimals};

/// A cell of a row whose number is written in digits.
#[derive(Clone, Copy)]
pub(crate) struct CellAt<'a> {
    pub(crate) cell: CellOf<'a>,
    /// The row number in decimal digits.
    pub(crate) number: &'a str,
    ghost digits: { number.now ≡ decimal cell.row.now.number },
}

impl<'a> CellAt<'a> {
    ghost use Rattle.std.specs.Prelude.{◌≡◌, codes};
    ghost use Rattle.std.specs.Option.{option_map};
    ghost use Rattle.oim_cells.specs.Cells.{seen_meaning};
    ghost use Rattle.oim_resolve.specs.Facts.{concept_read, given, stated_by};
    ghost use Rattle.oim_resolve.specs.state.ProgramCell.{cell_at};
    ghost use Rattle.oim_resolve.specs.state.ProgramValues.{seen_stated};
    ghost use Rattle.oim_resolve.specs.Values.{value};

    /// Returns the value that a level writes for a dimension, as the row gives it.
    pub(crate) fn value(&self, written: &'a Written) -> CellMeaning<'a>
        ensures { seen_meaning result ≡ value (cell_at self.now) written.now }
    {
        match written {
            Written::Absent => CellMeaning::Absent,
            Written::Nil => CellMeaning::Nil,
            Written::Empty => CellMeaning::Empty,
            Written::Text(text) => CellMeaning::Text(text.as_str()),
            Written::RowNumber(_) => CellMeaning::Text(self.number),
            Written::Named(name, _) => self.cell.referred(name.as_str()),
        }
    }

    /// Returns the decimals that the row gives for a level's decimals.
    pub(crate) fn stated(&self, written: Option<&'a WrittenDecimals>) -> Stated<'a>
        ensures { seen_stated result ≡ stated_by (cell_at self.now) (option_map (λ w. w.now) written.entry) }
    {
        match written {
            Some(WrittenDecimals::Fixed(accuracy)) => Stated::Fixed(*accuracy),
            Some(WrittenDecimals::RowNumber) => Stated::Read(CellMeaning::Text(self.number)),
            Some(WrittenDecimals::Named(name)) => Stated::Read(self.cell.referred(name.as_str())),
            Some(WrittenDecimals::Absent) | None => Stated::Read(CellMeaning::Absent),
        }
    }

    /// Returns the kind of the cell's concept, or the least fault of its value. It takes no memory.
    pub(crate) fn read_concept(&self) -> Result<Kind, CellFault>
        ensures { result ≡ concept_read (cell_at self.now).report (given (cell_at self.now) (codes "concept")) }
    {
        match self.cell.writer_of("concept") {
            Some((_, concept)) => read_concept(self.cell.report, self.value(concept)),
            None => read_concept(self.cell.report, CellMeaning::Absent),
        }
    }
}
