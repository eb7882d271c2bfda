//! The concept of a fact.

ghost use Rattle.std.specs.Prelude.{◌≡◌};
ghost use Rattle.oim_cells.specs.Cells.{seen_meaning};
ghost use Rattle.oim_resolve.specs.Facts.{concept_read};
ghost use Rattle.oim_resolve.specs.Kinds.{concept_type_of};

use crate::fact::CellFault;
use crate::kinds::{concept_type, kind_of_name};
use oim_cells::CellMeaning;
use oim_report::{Kind, Report};

/// Returns the kind of the concept that `text`, a declared QName, refers to.
fn concept_type_of(report: &Report, text: &str) -> Option<Kind>
    ensures { result ≡ concept_type_of report.now text.now }
{
    match kind_of_name(report, text) {
        Some(kind) => concept_type(kind),
        None => None,
    }
}

/// Returns the kind of the concept that a value names, or the value's least fault. (xBRL-CSV 1.0,
/// the concept of a fact)
///
/// - `UnknownSpecial`: it begins with a single `#` and is not a special value.
/// - `NoConcept`: no value is given.
/// - `BadReference`: it is nil or empty.
/// - `UnknownName`: it does not name a concept of the types table.
pub fn read_concept(report: &Report, value: CellMeaning<'_>) -> Result<Kind, CellFault>
    ensures { result ≡ concept_read report.now (seen_meaning value.entry) }
{
    match value {
        CellMeaning::Unknown => Err(CellFault::UnknownSpecial),
        CellMeaning::Absent => Err(CellFault::NoConcept),
        CellMeaning::Nil | CellMeaning::Empty => Err(CellFault::BadReference),
        CellMeaning::Text(text) => match concept_type_of(report, text) {
            Some(kind) => Ok(kind),
            None => Err(CellFault::UnknownName),
        },
    }
}
