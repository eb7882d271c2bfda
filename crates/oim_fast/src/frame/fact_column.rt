//! A column of facts of a header.

ghost use Rattle.std.specs.Prelude.{◌≡◌, ◌<◌, ◌++◌, Some, IfOk, codes, false, flat_map, length, map, true};
ghost use Rattle.std.specs.List.{All, slice_get};
ghost use Rattle.std.specs.Option.{option_map};
ghost use Rattle.oim_json.specs.JsonText.{escaped_byte};
ghost use Rattle.oim_fast.specs.state.Columns.{AreFactColumns, IsColumnAt};
ghost use Rattle.oim_fast.specs.state.Frames.{is_known_choice};
ghost use Rattle.oim_row.specs.Groups.{IsGroupCell};
ghost use Rattle.oim_fast.specs.state.ChosenGroups.{choices_in};
ghost use Rattle.oim_row.specs.References.{Grows};
ghost use Rattle.oim_row.specs.Rows.{columns_in};

use crate::frame::hash_index::hash_with;
use oim_cells::NumberKind;
use oim_report::{Column, Kind, Level};
use oim_row::{Choice, GroupCells};
use oim_rows::TableHeader;
use oim_text::{TextBuffer, put_escaped};
use std::alloc::{AllocError, Global};

/// How many of a column's last frames are tried first.
/// With one: `positions` +3.5 %, `mixed` +2.8 %, `ids` +2.6 %, `texts` +1.1 %.
pub(crate) const GUESSES: usize = 4;

/// A column of facts: its place in the template and in the header, and its columns of property
/// groups, by their places among those of the table.
#[derive(Drop)]
pub(crate) struct FactColumn<'a> {
    pub(crate) column: usize,
    pub(crate) place: usize,
    pub(crate) level: &'a Level,
    pub(crate) groups: Vec<usize>,
    /// The text of a fact from the dot before the column's identifier to the brace of its object.
    pub(crate) lead: TextBuffer,
    /// The places of its last frames: without a kind, by a number of the group that the row names,
    /// and with a kind. Each is a guess that is tested.
    pub(crate) last: [usize; GUESSES],
    pub(crate) last_of_kind: usize,
}

/// Returns the text from the dot after the row's identifier up to the brace of the object.
#[tactic(auto, using(std::proofs::Common::append_assoc), unfolding(oim_json::specs::JsonText::escaped_byte))]
fn lead_of(alloc: Global, column: &Column) -> Result<TextBuffer, AllocError>
    ensures { IfOk result (λ t. t.items ≡ flat_map escaped_byte (codes "." ++ column.now.id) ++ codes "\":{") }
{
    let mut lead = TextBuffer::new(alloc);
    lead.push(b'.')?;
    put_escaped(&mut lead, column.id.as_str())?;
    lead.put(b"\":{")?;
    Ok(lead)
}

/// Returns the places of the columns of property groups that a column takes from.
fn groups_of<'a>(
    alloc: Global,
    header: &TableHeader<'a>,
    column: &Column,
    cells: &mut GroupCells<'a>,
) -> Result<Vec<usize>, AllocError>
    requires from { All (λ i. i < length (columns_in header.now)) column.now.from }
    requires cells { All (IsGroupCell header.now) cells.old.list.items }
    ensures cells { All (IsGroupCell header.now) cells.new.list.items }
    ensures grows { Grows cells.old.list.items cells.new.list.items }
    ensures places { IfOk result (λ v. map (λ p. option_map (λ g. g.column) (slice_get cells.new.list.items p)) v.items ≡ map Some column.now.from) }
{
    let from = column.from.as_slice();
    let mut groups = Vec::new(alloc);
    for i in 0..from.len() {
        let place = cells.place_for(header, from[i])?;
        groups.push(place)?;
    }
    Ok(groups)
}

/// Returns the column of facts that place `i` of the header names, or None if it names none.
fn fact_column<'a>(
    alloc: Global,
    header: &TableHeader<'a>,
    cells: &mut GroupCells<'a>,
    i: usize,
) -> Result<Option<FactColumn<'a>>, AllocError>
    requires within { i < length header.now.columns }
    requires cells { All (IsGroupCell header.now) cells.old.list.items }
    ensures cells { All (IsGroupCell header.now) cells.new.list.items }
    ensures grows { Grows cells.old.list.items cells.new.list.items }
    ensures column { IfOk result (IsColumnAt header.now cells.new.list.items i) }
{
    let Some(at) = header.columns()[i] else {
        return Ok(None);
    };
    if at >= header.report().columns(header.table()) {
        return Ok(None);
    }
    let column = header.report().column(header.table(), at);
    if !column.kind.holds_facts() {
        return Ok(None);
    }
    let Some(place) = header.source(at) else {
        return Ok(None);
    };
    let groups = groups_of(alloc, header, column, cells)?;
    let lead = lead_of(alloc, column)?;
    Ok(Some(FactColumn {
        column: at,
        place,
        level: &column.level,
        groups,
        lead,
        last: [usize::MAX; GUESSES],
        last_of_kind: usize::MAX,
    }))
}

/// Returns the columns of facts of a header, in its order.
pub(crate) fn fact_columns<'a>(
    alloc: Global,
    header: &TableHeader<'a>,
    cells: &mut GroupCells<'a>,
) -> Result<Vec<FactColumn<'a>>, AllocError>
    requires { All (IsGroupCell header.now) cells.old.list.items }
    ensures cells { All (IsGroupCell header.now) cells.new.list.items }
    ensures columns { IfOk result (λ v. AreFactColumns header.now cells.new.list.items v.items) }
{
    let mut facts = Vec::new(alloc);
    for i in 0..header.columns().len() {
        if let Some(column) = fact_column(alloc, header, cells, i)? {
            facts.push(column)?;
        }
    }
    Ok(facts)
}

/// Returns a number for a kind or for no kind. Kinds with the type of their values share one.
#[inline(always)]
fn kind_number(kind: Option<Kind>) -> u64 {
    match kind {
        None => 0,
        Some(Kind::Number(NumberKind::Integer)) => 1,
        Some(Kind::Number(NumberKind::Decimal)) => 2,
        Some(Kind::Number(NumberKind::Double)) => 3,
        Some(Kind::Text) => 4,
        Some(Kind::Boolean) => 5,
        Some(Kind::Date) => 6,
        Some(Kind::Name) => 7,
        Some(Kind::Other) => 8,
        Some(_) => 9,
    }
}

impl FactColumn<'_> {
    /// Returns whether a column of groups that it takes from is unknown in the current row.
    #[cold]
    #[inline(never)]
    pub(crate) fn has_unknown(&self, cells: &GroupCells<'_>) -> bool
        requires { All (λ p. p < length cells.now.list.items) self.now.groups.items }
        ensures { result ≡ false → All (λ o. is_known_choice o ≡ true) (choices_in cells.now.list.items self.now.groups.items) }
    {
        for i in 0..self.groups.len() {
            if let Choice::Unknown = cells.choice(self.groups[i]) {
                return true;
            }
        }
        false
    }

    /// Returns a hash of the column, the groups that the current row names, and a kind.
    pub(crate) fn hash(&self, cells: &GroupCells<'_>, kind: Option<Kind>) -> u64
        requires { All (λ p. p < length cells.now.list.items) self.now.groups.items }
    {
        let mut hash = hash_with(self.column as u64, kind_number(kind));
        for i in 0..self.groups.len() {
            hash = match cells.choice(self.groups[i]) {
                Choice::Group(group) => hash_with(hash, (group as u64).wrapping_add(2)),
                Choice::Nothing => hash_with(hash, 1),
                Choice::Unknown => hash_with(hash, 0),
            };
        }
        hash
    }
}
