//! The maker of a table's frames.

ghost use Rattle.std.specs.Prelude.{◌≡◌, ◌<◌, ◌++◌, [], IfOk, IfSome, OnOk, length, map, true};
ghost use Rattle.std.specs.List.{All};
ghost use Rattle.std.specs.Option.{option_and_then, option_map};
ghost use Rattle.oim_cells.specs.Cells.{seen_meaning};
ghost use Rattle.oim_report.specs.InOrder.{LevelRises};
ghost use Rattle.oim_resolve.specs.ProgramCell.{held};
ghost use Rattle.oim_rows.specs.RowFacts.{TableHeaderValue};
ghost use Rattle.oim_fast.specs.state.Columns.{IsFactColumn, column_choices};
ghost use Rattle.oim_fast.specs.state.Frames.{AreKindDecimals, IsTextOfKind, constant_given, levels_chosen, period_wanted, side_written, unit_wanted};
ghost use Rattle.oim_row.specs.Groups.{IsGroupCell};
ghost use Rattle.oim_fast.specs.state.ChosenGroups.{levels_at};
ghost use Rattle.oim_fast.specs.state.KeptFrames.{IsBodyFor, IsFor, IsFrame};
ghost use Rattle.oim_fast.specs.state.Making.{AddsPeriod, AddsTest, AddsUnit, AddsWhere, IsBodyOf, IsConcept, IsMaker, IsOpening, IsReadyMaker, SaysConcept, from_general, keys_in};
ghost use Rattle.oim_fast.specs.state.Pieces.{entries_named};
ghost use Rattle.oim_resolve.specs.state.ProgramLevels.{written_entries};
ghost use Rattle.oim_row.specs.Answers.{is_sound_for};
ghost use Rattle.oim_row.specs.References.{Grows, IsFresh, key_of};
ghost use Rattle.oim_row.specs.Sources.{seen_source, source_written};

use crate::frame::constant::constant_of;
use crate::frame::fact_column::FactColumn;
use crate::frame::frame::{Frame, FrameBody};
use crate::frame::frame_decimals::{FrameDecimals, decimals_ready};
use crate::frame::frame_text::FrameText;
use crate::frame::part::{FramePart, PartValue};
use crate::frame::parts::FrameParts;
use crate::frame::value_form::has_decimals;
use oim_cells::CellMeaning;
use oim_report::{Kind, Level, PeriodType, Report, Side, ValueType, Written};
use oim_resolve::levels::{names, written, written_decimals};
use oim_resolve::side_of;
use oim_row::{
    Answer, Choice, GroupCells, Purpose, ReferenceTarget, References, TableRow, source_of,
};
use oim_rows::TableHeader;
use oim_text::TextBuffer;
use std::alloc::{AllocError, Global};

/// The maker of a table's frames: its references, its columns of groups, and the prepared
/// dimensions.
#[derive(Drop)]
pub(crate) struct FrameMaker<'a> {
    pub(crate) references: References<'a>,
    pub(crate) cells: GroupCells<'a>,
    pub(crate) parts: FrameParts<'a>,
}

/// The kind of the concept that the levels write, if it is the same in each row, or the place of
/// its reference.
#[derive(Clone, Copy)]
pub(crate) enum FrameConcept {
    Constant(Kind),
    Reference(usize),
    /// Nothing is known.
    Unknown,
}

/// Returns the body of a text, if it exists.
fn body_of(text: Option<FrameText>) -> FrameBody
    ensures { IsBodyOf text result }
{
    match text {
        Some(text) => FrameBody::Text(text),
        None => FrameBody::Unknown,
    }
}

/// Returns what a part gives for the concept.
fn concept_of(part: &FramePart<'_>) -> FrameConcept
    ensures { SaysConcept part.now result }
{
    if let PartValue::Reference(reference) = part.value {
        return FrameConcept::Reference(reference);
    }
    match part.kind {
        Some(kind) => FrameConcept::Constant(kind),
        None => FrameConcept::Unknown,
    }
}

/// Pushes the levels of the groups that the current row names.
fn push_groups<'a>(
    levels: &mut Vec<&'a Level>,
    groups: &[usize],
    cells: &GroupCells<'a>,
) -> Result<(), AllocError>
    requires { All (λ p. p < length cells.now.list.items) groups.now }
    ensures { OnOk result (held levels.new.items ≡ held levels.old.items ++ levels_at cells.now.list.items groups.now) }
{
    for group in groups {
        if let Some(level) = cells.level(*group) {
            levels.push(level)?;
        }
    }
    Ok(())
}

/// Returns the levels of a column under the groups that the current row names, from the most
/// specific to the most general.
fn levels_of<'a>(
    alloc: Global,
    row: &TableRow<'a, '_>,
    column: &FactColumn<'a>,
    cells: &GroupCells<'a>,
) -> Result<Vec<&'a Level>, AllocError>
    requires cells { All (IsGroupCell row.now.header) cells.now.list.items }
    requires column { IsFactColumn row.now.header cells.now.list.items column.now }
    ensures levels { IfOk result (λ v. from_general v.items ≡ levels_chosen row.now.header column.now.column (column_choices cells.now.list.items column.now)) }
    ensures rise { IfOk result (λ v. All (λ l. LevelRises l.now) v.items) }
{
    let report = row.report();
    report.stands_in_order();
    let template = report.template_level(row.table());
    let general = report.report_level();
    let mut levels = Vec::with_capacity(alloc, 8)?;
    levels.push(column.level)?;
    push_groups(&mut levels, column.groups.as_slice(), cells)?;
    levels.push(template)?;
    levels.push(general)?;
    Ok(levels)
}

/// Returns what the columns of groups that a column takes from choose.
fn choices_of(
    alloc: Global,
    column: &FactColumn<'_>,
    cells: &GroupCells<'_>,
) -> Result<Vec<Choice>, AllocError>
    requires { All (λ p. p < length cells.now.list.items) column.now.groups.items }
    ensures { IfOk result (λ v. v.items ≡ column_choices cells.now.list.items column.now) }
{
    let mut choices = Vec::with_capacity(alloc, column.groups.len())?;
    for i in 0..column.groups.len() {
        let group = column.groups[i];
        let choice = cells.choice(group);
        choices.push(choice)?;
    }
    Ok(choices)
}

/// Returns the decimals that the levels write for facts of a kind. Only numbers have them. Their
/// text goes into the empty `settled` if it is the same in each row.
fn decimals_of<'a>(
    alloc: Global,
    row: &TableRow<'a, '_>,
    references: &mut References<'a>,
    levels: &[&'a Level],
    kind: Kind,
    settled: &mut TextBuffer,
) -> Result<FrameDecimals, AllocError>
    requires fresh { All (IsFresh row.now) references.old }
    requires empty { settled.old.items ≡ [] }
    ensures decimals { IfOk result (AreKindDecimals row.now.header (map key_of references.new) (from_general levels.now) kind settled.new.items) }
    ensures fresh { All (IsFresh row.now) references.new }
    ensures grows { Grows references.old references.new }
{
    if !has_decimals(kind) {
        return Ok(FrameDecimals::Settled);
    }
    match written_decimals(levels) {
        Some(written) => decimals_ready(alloc, row, references, written, settled),
        None => Ok(FrameDecimals::Settled),
    }
}

/// Returns what a value that the levels write refers to, or None if it means the same in each row.
fn source_in<'a>(
    header: &TableHeader<'a>,
    written: Option<&'a Written>,
) -> Option<ReferenceTarget<'a>>
    ensures { option_map seen_source result ≡ option_and_then (source_written header.now) (option_map (λ w. w.now) written.entry) }
{
    match written {
        Some(written) => source_of(header, written),
        None => None,
    }
}

/// Returns what a value that the levels write means if it means the same in each row. Absent if
/// they write none.
fn constant_in<'a>(header: &TableHeader<'a>, written: Option<&'a Written>) -> CellMeaning<'a>
    ensures { seen_meaning result ≡ constant_given header.now (option_map (λ w. w.now) written.entry) }
{
    match written {
        Some(written) => constant_of(header, written),
        None => CellMeaning::Absent,
    }
}

/// Returns the side of the period that the levels write.
fn side_in(written: Option<&Written>) -> Side
    ensures { result ≡ side_written (option_map (λ w. w.now) written.entry) }
{
    match written {
        Some(written) => side_of(written),
        None => Side::Whole,
    }
}

/// Returns the type of a kind's values if it wants a unit.
fn unit_wanted(kind: Kind) -> Option<ValueType>
    ensures { result ≡ unit_wanted kind }
{
    match kind {
        Kind::Concept(concept) => match concept.value {
            ValueType::Monetary | ValueType::Shares => Some(concept.value),
            _ => None,
        },
        _ => None,
    }
}

/// Returns the type of a kind's periods if it has one.
fn period_wanted(kind: Kind) -> Option<PeriodType>
    ensures { result ≡ period_wanted kind }
{
    match kind {
        Kind::Concept(concept) => concept.period,
        _ => None,
    }
}

/// Returns whether a meaning has no fault for a purpose.
fn is_sound(
    alloc: Global,
    report: &Report,
    purpose: Purpose,
    value: CellMeaning<'_>,
) -> Result<bool, AllocError>
    ensures { IfOk result (λ sound. sound ≡ true → is_sound_for report.now purpose (seen_meaning value.entry) ≡ true) }
{
    let mut answer = Answer::new(alloc);
    answer.read(alloc, report, purpose, value)?;
    Ok(answer.is_sound)
}

impl<'a> FrameMaker<'a> {
    /// Makes a maker that has only the columns of groups, without taking memory.
    pub(crate) fn new(alloc: Global, cells: GroupCells<'a>) -> FrameMaker<'a>
        ensures ready { (f : TableHeaderValue) → All (IsGroupCell f) cells.entry.list.items → IsReadyMaker f result }
        ensures references { result.references ≡ [] }
        ensures cells { result.cells ≡ cells.entry }
    {
        FrameMaker {
            references: References::new(alloc),
            cells,
            parts: FrameParts::new(alloc),
        }
    }

    /// Moves to a row.
    #[inline(always)]
    pub(crate) fn refresh(
        &mut self,
        alloc: Global,
        row: &TableRow<'a, '_>,
    ) -> Result<(), AllocError>
        requires { IsReadyMaker row.now.header self.old }
        ensures maker { OnOk result (IsMaker row.now self.new) }
        ensures header { IsReadyMaker row.now.header self.new }
        ensures keys { keys_in self.new ≡ keys_in self.old }
        ensures columns { map (λ g. g.column) self.new.cells.list.items ≡ map (λ g. g.column) self.old.cells.list.items }
    {
        self.cells.refresh(row);
        self.references.refresh(alloc, row)?;
        Ok(())
    }

    /// Returns what the levels write for the concept, or the kind if it is given.
    fn concept(
        &mut self,
        alloc: Global,
        row: &TableRow<'a, '_>,
        levels: &[&'a Level],
        kind: Option<Kind>,
    ) -> Result<FrameConcept, AllocError>
        requires maker { IsMaker row.now self.old }
        requires rise { All (λ l. LevelRises l.now) levels.now }
        ensures concept { IfOk result (IsConcept row.now.header (keys_in self.new) (from_general levels.now) kind) }
        ensures maker { IsMaker row.now self.new }
        ensures grows { Grows self.old.references self.new.references }
        ensures cells { self.new.cells ≡ self.old.cells }
    {
        if let Some(kind) = kind {
            return Ok(FrameConcept::Constant(kind));
        }
        let Some(concept) = written(levels, "concept") else {
            return Ok(FrameConcept::Unknown);
        };
        let place = self
            .parts
            .place_for(alloc, row, &mut self.references, "concept", concept)?;
        let part = &self.parts.list[place];
        Ok(concept_of(part))
    }

    /// Returns the text before the dimensions.
    fn opening(
        &mut self,
        alloc: Global,
        row: &TableRow<'a, '_>,
        lead: &TextBuffer,
        levels: &[&'a Level],
        kind: Kind,
    ) -> Result<FrameText, AllocError>
        requires { IsMaker row.now self.old }
        ensures opening { IfOk result (IsOpening row.now.header (keys_in self.new) (from_general levels.now) kind lead.now.items) }
        ensures maker { IsMaker row.now self.new }
        ensures grows { Grows self.old.references self.new.references }
        ensures cells { self.new.cells ≡ self.old.cells }
    {
        let mut settled = TextBuffer::new(alloc);
        let decimals = decimals_of(alloc, row, &mut self.references, levels, kind, &mut settled)?;
        let text = FrameText::new(alloc, kind, lead.as_slice(), decimals, settled.as_slice())?;
        Ok(text)
    }

    /// Adds the dimension of a name that the levels write. Returns false if nothing is known of it.
    fn add_dimension(
        &mut self,
        alloc: Global,
        row: &TableRow<'a, '_>,
        levels: &[&'a Level],
        name: &'a str,
        text: &mut FrameText,
    ) -> Result<bool, AllocError>
        requires maker { IsMaker row.now self.old }
        requires rise { All (λ l. LevelRises l.now) levels.now }
        ensures added { IfOk result (AddsWhere row.now.header (keys_in self.new) (entries_named (from_general levels.now) name.now) text.old text.new) }
        ensures maker { IsMaker row.now self.new }
        ensures grows { Grows self.old.references self.new.references }
        ensures cells { self.new.cells ≡ self.old.cells }
    {
        let Some(written) = written(levels, name) else {
            return Ok(false);
        };
        let place = self
            .parts
            .place_for(alloc, row, &mut self.references, name, written)?;
        let part = &self.parts.list[place];
        let added = text.add(part)?;
        Ok(added)
    }

    /// Adds the dimensions that the levels write, in byte order of their names. Returns false if
    /// nothing is known of one.
    fn add_dimensions(
        &mut self,
        alloc: Global,
        row: &TableRow<'a, '_>,
        levels: &[&'a Level],
        text: &mut FrameText,
    ) -> Result<bool, AllocError>
        requires maker { IsMaker row.now self.old }
        requires rise { All (λ l. LevelRises l.now) levels.now }
        ensures added { IfOk result (AddsWhere row.now.header (keys_in self.new) (written_entries (from_general levels.now)) text.old text.new) }
        ensures maker { IsMaker row.now self.new }
        ensures grows { Grows self.old.references self.new.references }
        ensures cells { self.new.cells ≡ self.old.cells }
    {
        let names = names(alloc, levels)?;
        for i in 0..names.len() {
            let name = names[i];
            let added = self.add_dimension(alloc, row, levels, name, text)?;
            if !added {
                return Ok(false);
            }
        }
        Ok(true)
    }

    /// Adds a test for each row that what the levels write for a name has no fault for a purpose.
    /// Tests now what is the same in each row. Returns false if it has a fault.
    fn add_test(
        &mut self,
        alloc: Global,
        row: &TableRow<'a, '_>,
        written: Option<&'a Written>,
        purpose: Purpose,
        text: &mut FrameText,
    ) -> Result<bool, AllocError>
        requires { IsMaker row.now self.old }
        ensures added { IfOk result (λ added. added ≡ true → AddsTest row.now.header (keys_in self.new) (option_map (λ w. w.now) written.entry) purpose text.old text.new) }
        ensures maker { IsMaker row.now self.new }
        ensures grows { Grows self.old.references self.new.references }
        ensures cells { self.new.cells ≡ self.old.cells }
    {
        if let Some(source) = source_in(row.header(), written) {
            let place = self.references.place_for(alloc, row, purpose, source)?;
            text.add_reference(b"", place)?;
            return Ok(true);
        }
        is_sound(
            alloc,
            row.report(),
            purpose,
            constant_in(row.header(), written),
        )
    }

    /// Adds the tests of the unit that facts of a kind want. Returns false if it has a fault in
    /// each row.
    fn add_unit(
        &mut self,
        alloc: Global,
        row: &TableRow<'a, '_>,
        levels: &[&'a Level],
        kind: Kind,
        text: &mut FrameText,
    ) -> Result<bool, AllocError>
        requires maker { IsMaker row.now self.old }
        requires rise { All (λ l. LevelRises l.now) levels.now }
        ensures added { IfOk result (λ added. added ≡ true → AddsUnit row.now.header (keys_in self.new) (from_general levels.now) kind text.old text.new) }
        ensures maker { IsMaker row.now self.new }
        ensures grows { Grows self.old.references self.new.references }
        ensures cells { self.new.cells ≡ self.old.cells }
    {
        let Some(value) = unit_wanted(kind) else {
            return Ok(true);
        };
        let unit = written(levels, "unit");
        self.add_test(alloc, row, unit, Purpose::WantedUnit(value), text)
    }

    /// Adds the tests of the period that facts of a kind want. Returns false if it has a fault in
    /// each row.
    fn add_period(
        &mut self,
        alloc: Global,
        row: &TableRow<'a, '_>,
        levels: &[&'a Level],
        kind: Kind,
        text: &mut FrameText,
    ) -> Result<bool, AllocError>
        requires maker { IsMaker row.now self.old }
        requires rise { All (λ l. LevelRises l.now) levels.now }
        ensures added { IfOk result (λ added. added ≡ true → AddsPeriod row.now.header (keys_in self.new) (from_general levels.now) kind text.old text.new) }
        ensures maker { IsMaker row.now self.new }
        ensures grows { Grows self.old.references self.new.references }
        ensures cells { self.new.cells ≡ self.old.cells }
    {
        let Some(wanted) = period_wanted(kind) else {
            return Ok(true);
        };
        let period = written(levels, "period");
        let purpose = Purpose::WantedPeriod(wanted, side_in(period));
        self.add_test(alloc, row, period, purpose, text)
    }

    /// Returns the text of facts with these levels and a concept of this kind, after `lead`.
    /// Returns None if nothing is known of one of the dimensions, or the unit or the period is not
    /// wanted.
    fn text(
        &mut self,
        alloc: Global,
        row: &TableRow<'a, '_>,
        lead: &TextBuffer,
        levels: &[&'a Level],
        kind: Kind,
    ) -> Result<Option<FrameText>, AllocError>
        requires maker { IsMaker row.now self.old }
        requires rise { All (λ l. LevelRises l.now) levels.now }
        ensures text { IfOk result (λ o. IfSome o (IsTextOfKind row.now.header (keys_in self.new) (from_general levels.now) lead.now.items kind)) }
        ensures maker { IsMaker row.now self.new }
        ensures grows { Grows self.old.references self.new.references }
        ensures cells { self.new.cells ≡ self.old.cells }
    {
        let mut text = self.opening(alloc, row, lead, levels, kind)?;
        let added = self.add_dimensions(alloc, row, levels, &mut text)?;
        if !added {
            return Ok(None);
        }
        let has_unit = self.add_unit(alloc, row, levels, kind, &mut text)?;
        if !has_unit {
            return Ok(None);
        }
        let has_period = self.add_period(alloc, row, levels, kind, &mut text)?;
        if !has_period {
            return Ok(None);
        }
        text.fit(alloc);
        Ok(Some(text))
    }

    /// Returns the body of a column's frame in the current row. `kind` is that of the concept, if a
    /// reference names it.
    fn body(
        &mut self,
        alloc: Global,
        row: &TableRow<'a, '_>,
        column: &FactColumn<'a>,
        kind: Option<Kind>,
    ) -> Result<FrameBody, AllocError>
        requires maker { IsMaker row.now self.old }
        requires column { IsFactColumn row.now.header self.old.cells.list.items column.now }
        ensures body { IfOk result (IsBodyFor row.now.header (keys_in self.new) self.old.cells.list.items column.now kind) }
        ensures maker { IsMaker row.now self.new }
        ensures grows { Grows self.old.references self.new.references }
        ensures cells { self.new.cells ≡ self.old.cells }
    {
        let levels = levels_of(alloc, row, column, &self.cells)?;
        let concept = self.concept(alloc, row, levels.as_slice(), kind)?;
        match concept {
            FrameConcept::Constant(kind) => {
                let text = self.text(alloc, row, &column.lead, levels.as_slice(), kind)?;
                Ok(body_of(text))
            }
            FrameConcept::Reference(reference) => Ok(FrameBody::ByConcept(reference)),
            FrameConcept::Unknown => Ok(FrameBody::Unknown),
        }
    }

    /// Returns the frame of a column in the current row. `kind` is that of the concept, if a
    /// reference names it.
    pub(crate) fn frame(
        &mut self,
        alloc: Global,
        row: &TableRow<'a, '_>,
        column: &FactColumn<'a>,
        kind: Option<Kind>,
    ) -> Result<Frame, AllocError>
        requires maker { IsMaker row.now self.old }
        requires column { IsFactColumn row.now.header self.old.cells.list.items column.now }
        ensures frame { IfOk result (IsFrame row.now.header (keys_in self.new)) }
        ensures serves { IfOk result (IsFor self.old.cells.list.items column.now kind) }
        ensures maker { IsMaker row.now self.new }
        ensures grows { Grows self.old.references self.new.references }
        ensures cells { self.new.cells ≡ self.old.cells }
    {
        let choices = choices_of(alloc, column, &self.cells)?;
        let body = self.body(alloc, row, column, kind)?;
        Ok(Frame {
            column: column.column,
            kind,
            choices,
            body,
        })
    }
}
