//! One cell of a table, from its texts to its fact.

mod cell_at;
mod cell_of;
mod decimals;
mod dimensions;
mod groups;
mod origins;
mod sources;
mod texts;
mod value;
mod wanted;
mod writers;

ghost use Rattle.std.specs.Prelude.{◌≡◌, ◌⊎◌, IfSome};
ghost use Rattle.oim_cells.specs.Cells.{seen_meaning};
ghost use Rattle.oim_resolve.specs.Cell.{IsCell, cell_of};
ghost use Rattle.oim_resolve.specs.Facts.{cell_result, early_result, is_absent};
ghost use Rattle.oim_resolve.specs.Order.{HasNamesInOrder};
ghost use Rattle.oim_resolve.specs.state.ProgramCell.{cell_at};

use crate::cell::cell_at::CellAt;
pub use crate::cell::cell_of::CellOf;
use crate::cell::dimensions::CellDimensions;
pub use crate::cell::origins::{FaultOrigin, fault_origin};
pub use crate::cell::sources::CellSource;
pub use crate::cell::texts::side_of;
use crate::cell::value::CellValue;
pub use crate::cell::writers::Writer;
use crate::fact::{CellFault, Fact, Row};
use itoa::Buffer;
use oim_cells::CellMeaning;
use oim_report::Report;
use std::alloc::Global;

fn is_absent(meaning: CellMeaning<'_>) -> bool
    ensures { result ≡ is_absent (seen_meaning meaning.entry) }
{
    matches!(&meaning, CellMeaning::Absent)
}

/// Returns the fact of a cell, if it has one.
fn fact_at(alloc: Global, place: CellAt<'_>) -> Result<Option<Fact>, CellFault>
    ensures early { IfSome (early_result (cell_at place.entry)) (λ answer. result ≡ answer) }
    ensures result { (result ≡ Err CellFault.Memory) ⊎ (result ≡ cell_result (cell_at place.entry)) }
{
    let meaning = place.cell.fact_meaning();
    if is_absent(meaning) {
        return Ok(None);
    }
    if let Some(fault) = place.cell.cell_and_group_fault(meaning) {
        return Err(fault);
    }
    let kind = match place.read_concept() {
        Ok(kind) => kind,
        Err(fault) => return Err(fault),
    };
    match CellDimensions::fact_of(alloc, place, CellValue { kind, meaning }) {
        Ok(fact) => Ok(Some(fact)),
        Err(fault) => Err(fault),
    }
}

/// Returns the fact of a cell, if it has one. (xBRL-CSV 1.0, from cells to facts)
///
/// `table` is the index of the table in the report, `column` that of a column of facts in the
/// table's template. The row has a cell for each column of the template.
///
/// A cell that is empty or `#none` has no fact. Otherwise the result is the fault with the least
/// number of the first of three steps that has one:
///
/// - the cell and its group cells: `UnknownSpecial`, `UnknownGroup`;
/// - the concept: `UnknownSpecial`, `NoConcept`, `UnknownName`, `BadReference`;
/// - the other dimensions, the decimals, the unit and the period that the concept wants, and the
///   value: `UnknownSpecial`, `BadReference`, `BadValue`, `BadPeriod`, `NotDuration`,
///   `BadDecimals`, `BadNumber`, `BadFactValue`, `BadUnit`, `WrongPeriod`, `UnknownMember`.
///
/// Returns `Memory` if memory runs out. The first two steps take no memory, so their result does
/// not depend on it.
pub fn resolve(
    alloc: Global,
    report: &Report,
    table: usize,
    row: &Row,
    column: usize,
) -> Result<Option<Fact>, CellFault>
    requires { IsCell (cell_of report.now table row.now column) }
    ensures names { HasNamesInOrder result }
    ensures result { (result ≡ Err CellFault.Memory) ⊎ (result ≡ cell_result (cell_of report.now table row.now column)) }
    ensures early { IfSome (early_result (cell_of report.now table row.now column)) (λ answer. result ≡ answer) }
{
    let mut buffer = Buffer::new();
    let number = buffer.format(row.number);
    let cell = CellOf::at(report, table, row, column);
    fact_at(alloc, CellAt { cell, number })
}
