//! The origin of a fault of a cell: the first of the cell's sources whose least fault it is.

ghost use Rattle.std.specs.Prelude.{◌≡◌, ◌<◌, Err, IfOk, IsSome, length};
ghost use Rattle.std.specs.List.{All};
ghost use Rattle.std.specs.Option.{option_map};
ghost use Rattle.oim_report.specs.InOrder.{LevelRises};
ghost use Rattle.oim_report.specs.Readers.{columns_of};
ghost use Rattle.oim_resolve.specs.Cell.{column};
ghost use Rattle.oim_resolve.specs.Facts.{cell_result, concept_faults, concept_kind, decimals_faults, dimension_faults, fact_value};
ghost use Rattle.oim_resolve.specs.FactValues.{faults_in};
ghost use Rattle.oim_resolve.specs.Faults.{least};
ghost use Rattle.oim_resolve.specs.Origins.{Dimension, GroupCell, dimension_sources, group_faults, group_sources, is_fault, origin_in};
ghost use Rattle.oim_resolve.specs.Origins.{origin_of, other_sources, own_faults, rest_sources};
ghost use Rattle.oim_resolve.specs.ProgramCell.{held};
ghost use Rattle.oim_resolve.specs.ProgramOrigins.{seen_cell, seen_origin};
ghost use Rattle.oim_resolve.specs.Writers.{first_answer};
ghost use Rattle.oim_resolve.specs.state.ProgramCell.{cell_at};

use crate::cell::cell_at::CellAt;
use crate::cell::cell_of::CellOf;
use crate::cell::dimensions::{CellDimensions, levels_of};
use crate::cell::value::{CellValue, text_of};
use crate::fact::CellFault;
use crate::levels::names;
use crate::reading::fact_value;
use itoa::Buffer;
use oim_cells::CellMeaning;
use oim_report::Kind;
use std::alloc::{AllocError, Global};

/// What causes a fault of a cell.
#[derive(Clone, Copy, Debug, PartialEq, Eq)]
pub enum FaultOrigin<'a> {
    /// The cell itself.
    Cell,
    /// The row's cell at this place of the template, which names a property group.
    GroupCell(usize),
    /// The dimension of this name.
    Dimension(&'a str),
    /// The decimals.
    Decimals,
}

/// Returns whether the least fault of a source is this one.
fn is_fault(fault: CellFault, found: Option<CellFault>) -> bool
    ensures { result ≡ is_fault fault found }
{
    match found {
        Some(found) => found.number() == fault.number(),
        None => false,
    }
}

/// Returns the kind of the concept, and the least fault of its value. It takes no memory.
fn concept_of(place: CellAt<'_>) -> (Kind, Option<CellFault>)
    ensures kind { result.0 ≡ concept_kind (cell_at place.entry) }
    ensures fault { result.1 ≡ least (concept_faults (cell_at place.entry)) }
{
    match place.read_concept() {
        Ok(kind) => (kind, None),
        Err(fault) => (Kind::Other, Some(fault)),
    }
}

impl CellOf<'_> {
    /// Returns the kind of the concept of the cell's fact, or `Other` if its value names no
    /// concept. It takes no memory.
    pub fn concept_kind(&self) -> Kind
        ensures { result ≡ concept_kind (seen_cell self.now) }
    {
        let mut buffer = Buffer::new();
        let cell = *self;
        let number = buffer.format(cell.row.number);
        let (kind, _) = concept_of(CellAt { cell, number });
        kind
    }

    /// Returns the fault of the cell itself, before its concept is known.
    fn own_fault(&self) -> Option<CellFault>
        ensures { result ≡ least (own_faults (seen_cell self.now)) }
    {
        match self.fact_meaning() {
            CellMeaning::Unknown => Some(CellFault::UnknownSpecial),
            _ => None,
        }
    }

    /// Returns the fault of the row's cell at a place of the template, which names a property
    /// group.
    fn group_fault(&self, place: usize) -> Option<CellFault>
        requires { place < length (columns_of self.now.report.now self.now.table) }
        ensures { result ≡ least (group_faults (seen_cell self.now) place) }
    {
        match self.meaning_at(place) {
            CellMeaning::Unknown => Some(CellFault::UnknownSpecial),
            _ if self.names_no_group(place) => Some(CellFault::UnknownGroup),
            _ => None,
        }
    }

    /// Returns the place of the first cell that names a property group and has this fault.
    fn group_with(&self, fault: CellFault) -> Option<usize>
        ensures { option_map GroupCell result ≡ first_answer (origin_in fault) (group_sources (seen_cell self.now) (column (seen_cell self.now)).from) }
    {
        let column = self.report.column(self.table, self.column);
        for place in column.from.as_slice() {
            if is_fault(fault, self.group_fault(*place)) {
                return Some(*place);
            }
        }
        None
    }
}

impl CellDimensions<'_> {
    /// Returns the least fault of a dimension, in a fact whose concept has this kind.
    #[tactic(auto, using(crate::proofs::Readings::fault_unless))]
    fn dimension_fault(
        &self,
        alloc: Global,
        kind: Kind,
        name: &str,
    ) -> Result<Option<CellFault>, AllocError>
        requires { All (λ l. LevelRises l.now) self.now.levels.items }
        ensures { IfOk result (λ f. f ≡ least (dimension_faults (cell_at self.now.place) kind name.now)) }
    {
        Ok(self.read_dimension(alloc, kind, name)?.err())
    }

    /// Returns the first of these dimensions that has this fault, in a fact whose concept has this
    /// kind.
    fn dimension_with<'n>(
        &self,
        alloc: Global,
        kind: Kind,
        fault: CellFault,
        names: &[&'n str],
    ) -> Result<Option<&'n str>, AllocError>
        requires { All (λ l. LevelRises l.now) self.now.levels.items }
        ensures { IfOk result (λ o. option_map (λ n. Dimension n.now) o ≡ first_answer (origin_in fault) (dimension_sources (cell_at self.now.place) kind (held names.now))) }
    {
        for name in names {
            if is_fault(fault, self.dimension_fault(alloc, kind, *name)?) {
                return Ok(Some(*name));
            }
        }
        Ok(None)
    }

    /// Returns the fault of the decimals, in a fact whose concept has this kind.
    #[tactic(auto, using(crate::proofs::Readings::fault_unless))]
    fn decimals_fault(&self, kind: Kind) -> Option<CellFault>
        requires { All (λ l. LevelRises l.now) self.now.levels.items }
        ensures { result ≡ least (decimals_faults (cell_at self.now.place) kind) }
    {
        let meaning = self.place.cell.fact_meaning();
        let value = CellValue { kind, meaning };
        value.decimals(value.suffix(), self.stated()).err()
    }

    /// Returns the fault of the fact's value, if its concept has this kind.
    fn value_fault(&self, alloc: Global, kind: Kind) -> Result<Option<CellFault>, AllocError>
        ensures { IfOk result (λ f. f ≡ least (faults_in (fact_value (cell_at self.now.place) kind))) }
    {
        let cell = self.place.cell;
        let reading = fact_value(cell.report, kind, cell.fact_meaning());
        Ok(text_of(alloc, cell.report, reading)?.err())
    }

    /// Returns the origin of a fault among the decimals, the unit, the period and the value.
    fn other_origin(
        &self,
        alloc: Global,
        kind: Kind,
        fault: CellFault,
    ) -> Result<Option<FaultOrigin<'static>>, AllocError>
        requires { All (λ l. LevelRises l.now) self.now.levels.items }
        ensures { IfOk result (λ o. option_map seen_origin o ≡ first_answer (origin_in fault) (other_sources (cell_at self.now.place) kind)) }
    {
        if is_fault(fault, self.decimals_fault(kind)) {
            return Ok(Some(FaultOrigin::Decimals));
        }
        if is_fault(fault, self.unit_fault(kind)) {
            return Ok(Some(FaultOrigin::Dimension("unit")));
        }
        if is_fault(fault, self.period_fault(kind)) {
            return Ok(Some(FaultOrigin::Dimension("period")));
        }
        if is_fault(fault, self.value_fault(alloc, kind)?) {
            return Ok(Some(FaultOrigin::Cell));
        }
        Ok(None)
    }
}

/// Returns the origin of a fault among the dimensions and what follows them.
fn rest_origin<'a>(
    alloc: Global,
    cell: CellOf<'a>,
    place: CellAt<'_>,
    kind: Kind,
    fault: CellFault,
) -> Result<Option<FaultOrigin<'a>>, AllocError>
    requires { cell_at place ≡ seen_cell cell }
    ensures { IfOk result (λ o. option_map seen_origin o ≡ first_answer (origin_in fault) (rest_sources (seen_cell cell.entry) kind)) }
{
    let levels = levels_of(alloc, cell)?;
    let names = names(alloc, levels.as_slice())?;
    let dimensions = CellDimensions::new(alloc, place)?;
    match dimensions.dimension_with(alloc, kind, fault, names.as_slice())? {
        Some(name) => Ok(Some(FaultOrigin::Dimension(name))),
        None => dimensions.other_origin(alloc, kind, fault),
    }
}

/// Returns the origin of a fault of a cell. (xBRL-CSV 1.0, from cells to facts)
///
/// The sources of a fault are the cell, the row's cells that name property groups, the concept, the
/// other dimensions in byte order of name, the decimals, the unit and the period that the concept
/// wants, and the cell's value. The origin is the first of them whose least fault is this one.
///
/// Returns `None` if no source has the fault. A source has each fault that `resolve` gives for the
/// cell, unless memory ran out there. The error means that memory ran out.
pub fn fault_origin<'a>(
    alloc: Global,
    cell: CellOf<'a>,
    fault: CellFault,
) -> Result<Option<FaultOrigin<'a>>, AllocError>
    ensures origin { IfOk result (λ o. option_map seen_origin o ≡ origin_of (seen_cell cell.entry) fault) }
    ensures found { IfOk result (λ o. cell_result (seen_cell cell.entry) ≡ Err fault → IsSome o) }
{
    let mut buffer = Buffer::new();
    let number = buffer.format(cell.row.number);
    let place = CellAt { cell, number };
    if is_fault(fault, cell.own_fault()) {
        return Ok(Some(FaultOrigin::Cell));
    }
    if let Some(place) = cell.group_with(fault) {
        return Ok(Some(FaultOrigin::GroupCell(place)));
    }
    let (kind, found) = concept_of(place);
    if is_fault(fault, found) {
        return Ok(Some(FaultOrigin::Dimension("concept")));
    }
    rest_origin(alloc, cell, place, kind, fault)
}
