//! The dimensions and decimals that apply to a cell, and the fact that they give.

ghost use Rattle.std.specs.Prelude.{◌≡◌, ◌⊎◌, map, reverse, IfErr, IfOk, IsOk};
ghost use Rattle.std.specs.List.{All};
ghost use Rattle.oim_cells.specs.Cells.{seen_meaning};
ghost use Rattle.oim_report.specs.InOrder.{LevelRises};
ghost use Rattle.oim_resolve.specs.Facts.{concept_kind, fact_meaning, given, rest_result, role_of, side_given, stated, wanted_faults};
ghost use Rattle.oim_resolve.specs.Faults.{least};
ghost use Rattle.oim_resolve.specs.Order.{IsAscending};
ghost use Rattle.oim_resolve.specs.Origins.{period_faults, unit_faults};
ghost use Rattle.oim_resolve.specs.ProgramCell.{held};
ghost use Rattle.oim_resolve.specs.ProgramOrigins.{seen_cell};
ghost use Rattle.oim_resolve.specs.state.ProgramCell.{cell_at};
ghost use Rattle.oim_resolve.specs.state.ProgramValues.{seen_stated};
ghost use Rattle.oim_resolve.specs.state.ProgramDimensions.{AreMet, dimension_read, dimensions_of};
ghost use Rattle.oim_resolve.specs.Written.{levels, names};

use crate::cell::cell_at::CellAt;
use crate::cell::cell_of::CellOf;
use crate::cell::decimals::Stated;
use crate::cell::texts::side_of;
use crate::cell::value::{CellValue, text_of};
use crate::cell::wanted::{lacks_period, lacks_unit};
use crate::dimension::{Entry, read_value};
use crate::fact::{CellFault, Fact};
use crate::least::{both, lesser, or_fault};
use crate::levels::{names, written, written_decimals};
use crate::reading::fact_value;
use crate::role::Role;
use oim_cells::CellMeaning;
use oim_names::{Items, Text};
use oim_report::{Kind, Level, Side};
use std::alloc::{AllocError, Global};

/// A cell with the levels that apply to it, from the most specific to the most general.
#[derive(Drop)]
pub(crate) struct CellDimensions<'a> {
    pub(crate) place: CellAt<'a>,
    pub(crate) levels: Vec<&'a Level>,
    ghost met: { AreMet place levels.items },
}

/// The dimensions of a fact, each with its name.
type Dimensions = Items<(Text, Option<Text>)>;

/// Makes the fact with identifier `id` from its dimensions, its decimals and its value.
fn fact_with(id: Text, given: ((Dimensions, Option<i32>), Option<Text>)) -> Fact
    requires { IsAscending (map (λ d. d.0) given.0.0) }
    ensures { result ≡ record { id = id; value = given.1; decimals = given.0.1; dimensions = given.0.0 } }
{
    let ((dimensions, decimals), value) = given;
    Fact::new(id, value, decimals, dimensions)
}

/// Returns the levels of a cell, from the most specific to the most general.
pub(crate) fn levels_of<'a>(alloc: Global, cell: CellOf<'a>) -> Result<Vec<&'a Level>, AllocError>
    ensures met { IfOk result (λ v. reverse (held v.items) ≡ levels (seen_cell cell.entry)) }
    ensures rise { IfOk result (λ v. All (λ l. LevelRises l.now) v.items) }
{
    let report = cell.report;
    report.stands_in_order();
    let column = report.column(cell.table, cell.column);
    let template = report.template_level(cell.table);
    let general = report.report_level();
    let mut levels = Vec::with_capacity(alloc, column.from.len().saturating_add(3))?;
    levels.push(&column.level)?;
    cell.push_groups(&mut levels)?;
    levels.push(template)?;
    levels.push(general)?;
    Ok(levels)
}

impl<'a> CellDimensions<'a> {
    pub(crate) fn new(alloc: Global, place: CellAt<'a>) -> Result<CellDimensions<'a>, AllocError>
        ensures place { IfOk result (λ m. m.place ≡ place.entry) }
        ensures rise { IfOk result (λ m. All (λ l. LevelRises l.now) m.levels.items) }
    {
        let levels = levels_of(alloc, place.cell)?;
        Ok(CellDimensions { place, levels })
    }

    /// Returns what a dimension gives a fact, or the least fault of its value.
    pub(crate) fn read_dimension(
        &self,
        alloc: Global,
        kind: Kind,
        name: &str,
    ) -> Result<Result<Entry, CellFault>, AllocError>
        requires { All (λ l. LevelRises l.now) self.now.levels.items }
        ensures read { IfOk result (λ r. r ≡ dimension_read (cell_at self.now.place) kind name.now) }
        ensures early { IfErr result (λ _. (role_of self.now.place.cell.report.now name.now ≡ Role.Language)
            ⊎ IsOk (dimension_read (cell_at self.now.place) kind name.now)) }
    {
        let report = self.place.cell.report;
        let role = Role::of(report, name);
        if role.is_dropped(kind) {
            return Ok(Ok(None));
        }
        match written(self.levels.as_slice(), name) {
            Some(written) => read_value(
                alloc,
                report,
                role,
                side_of(written),
                self.place.value(written),
            ),
            None => Ok(Ok(None)),
        }
    }

    /// Returns what all dimensions give a fact, or their least fault.
    fn read(&self, alloc: Global, kind: Kind) -> Result<Result<Dimensions, CellFault>, AllocError>
        requires { All (λ l. LevelRises l.now) self.now.levels.items }
        ensures { IfOk result (λ r. r ≡ dimensions_of (cell_at self.now.place) kind (names (levels (cell_at self.now.place)))) }
    {
        let names = names(alloc, self.levels.as_slice())?;
        let mut given = Items::from_vec(Vec::with_capacity(alloc, names.len())?);
        let mut least = None;
        for name in names.as_slice() {
            match self.read_dimension(alloc, kind, name)? {
                Ok(Some(value)) => given.push((Text::from_str(alloc, name)?, value))?,
                Ok(None) => {}
                Err(fault) => {
                    least = Some(match least {
                        Some(first) => lesser(first, fault),
                        None => fault,
                    });
                }
            }
        }
        match least {
            Some(fault) => Ok(Err(fault)),
            None => Ok(Ok(given)),
        }
    }

    /// Returns the decimals that the properties give in this row.
    pub(crate) fn stated(&self) -> Stated<'a>
        ensures { seen_stated result ≡ stated (cell_at self.now.place) }
    {
        self.place.stated(written_decimals(self.levels.as_slice()))
    }

    /// Returns what the row gives a dimension, and the side that is asked for.
    fn given(&self, name: &str) -> (CellMeaning<'a>, Side)
        requires { All (λ l. LevelRises l.now) self.now.levels.items }
        ensures value { seen_meaning result.0 ≡ given (cell_at self.now.place) name.now }
        ensures side { result.1 ≡ side_given (cell_at self.now.place) name.now }
    {
        let Some(written) = written(self.levels.as_slice(), name) else {
            return (CellMeaning::Absent, Side::Whole);
        };
        (self.place.value(written), side_of(written))
    }

    /// Returns the fault of the unit that the concept wants.
    pub(crate) fn unit_fault(&self, kind: Kind) -> Option<CellFault>
        requires { All (λ l. LevelRises l.now) self.now.levels.items }
        ensures { result ≡ least (unit_faults (cell_at self.now.place) kind) }
    {
        let Kind::Concept(concept) = kind else {
            return None;
        };
        let (unit, _) = self.given("unit");
        if lacks_unit(self.place.cell.report, concept.value, unit) {
            Some(CellFault::BadUnit)
        } else {
            None
        }
    }

    /// Returns the fault of the period that the concept wants.
    pub(crate) fn period_fault(&self, kind: Kind) -> Option<CellFault>
        requires { All (λ l. LevelRises l.now) self.now.levels.items }
        ensures { result ≡ least (period_faults (cell_at self.now.place) kind) }
    {
        let Kind::Concept(concept) = kind else {
            return None;
        };
        let (period, side) = self.given("period");
        match concept.period {
            Some(wanted) if lacks_period(wanted, side, period) => Some(CellFault::WrongPeriod),
            _ => None,
        }
    }

    /// Returns the least fault of the unit and the period that the concept wants.
    #[tactic(auto, using(crate::proofs::Found::unit_or_period))]
    fn wanted_fault(&self, kind: Kind) -> Option<CellFault>
        requires { All (λ l. LevelRises l.now) self.now.levels.items }
        ensures { result ≡ least (wanted_faults (cell_at self.now.place) kind) }
    {
        self.unit_fault(kind).or(self.period_fault(kind))
    }

    /// Returns the fact, or the least fault of dimensions, decimals and value.
    fn fact(&self, alloc: Global, value: CellValue<'_>) -> Result<Fact, CellFault>
        requires rise { All (λ l. LevelRises l.now) self.now.levels.items }
        requires kind { value.kind ≡ concept_kind (cell_at self.now.place) }
        requires meaning { seen_meaning value.meaning ≡ fact_meaning (cell_at self.now.place) }
        ensures { (result ≡ Err CellFault.Memory) ⊎ (result ≡ rest_result (cell_at self.now.place)) }
    {
        let reading = fact_value(self.place.cell.report, value.kind, value.meaning);
        let dimensions = self.read(alloc, value.kind)?;
        let decimals = value.decimals(value.suffix(), self.stated());
        let wanted = self.wanted_fault(value.kind);
        let text = text_of(alloc, self.place.cell.report, reading)?;
        let given = match both(or_fault(both(dimensions, decimals), wanted), text) {
            Ok(given) => given,
            Err(fault) => return Err(fault),
        };
        let id = self.place.cell.fact_id(alloc)?;
        Ok(fact_with(id, given))
    }

    /// Returns the fact of a cell that is not absent and whose concept has the kind `value.kind`,
    /// or the least fault of its dimensions, decimals and value.
    pub(crate) fn fact_of(
        alloc: Global,
        place: CellAt<'a>,
        value: CellValue<'_>,
    ) -> Result<Fact, CellFault>
        requires kind { value.kind ≡ concept_kind (cell_at place) }
        requires meaning { seen_meaning value.meaning ≡ fact_meaning (cell_at place) }
        ensures { (result ≡ Err CellFault.Memory) ⊎ (result ≡ rest_result (cell_at place.entry)) }
    {
        CellDimensions::new(alloc, place)?.fact(alloc, value)
    }
}
