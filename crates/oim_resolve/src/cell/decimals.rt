//! The decimals that the properties of a cell state.

ghost use Rattle.std.specs.Prelude.{◌≡◌};
ghost use Rattle.oim_resolve.specs.Facts.{stated_read};
ghost use Rattle.oim_resolve.specs.state.ProgramValues.{seen_stated};

use crate::fact::CellFault;
use oim_cells::{Accuracy, CellMeaning, decimals};

/// The decimals that the properties of a cell give: an accuracy, or a text to read.
#[derive(Clone, Copy)]
pub(crate) enum Stated<'a> {
    Fixed(Accuracy),
    Read(CellMeaning<'a>),
}

impl Stated<'_> {
    /// Returns the stated accuracy, if any, or the least fault of its text.
    pub(crate) fn read(self) -> Result<Option<Accuracy>, CellFault>
        ensures { result ≡ stated_read (seen_stated self.entry) }
    {
        match self {
            Stated::Fixed(accuracy) => Ok(Some(accuracy)),
            Stated::Read(CellMeaning::Absent) => Ok(None),
            Stated::Read(CellMeaning::Unknown) => Err(CellFault::UnknownSpecial),
            Stated::Read(CellMeaning::Nil | CellMeaning::Empty) => Err(CellFault::BadDecimals),
            Stated::Read(CellMeaning::Text(text)) => match decimals(text) {
                Some(accuracy) => Ok(Some(accuracy)),
                None => Err(CellFault::BadDecimals),
            },
        }
    }
}
