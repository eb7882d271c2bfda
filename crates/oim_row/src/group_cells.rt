//! The property groups that a row names.

ghost use Rattle.std.specs.Prelude.{◌≡◌, ◌<◌, [], Some, IfOk, IfSome, length, map};
ghost use Rattle.std.specs.List.{All, slice_get};
ghost use Rattle.std.specs.Map.{keys_of};
ghost use Rattle.std.specs.Option.{option_map, option_and_then};
ghost use Rattle.oim_cells.specs.Cells.{Text as a_text, meaning_of};
ghost use Rattle.oim_report.specs.Rising.{IsRising};
ghost use Rattle.oim_report.specs.declared.data.Column.{Column as ColumnValue};
ghost use Rattle.oim_rows.specs.RowFacts.{field_or_empty};
ghost use Rattle.oim_row.specs.Groups.{IsGroupCell, IsSaid, Says, level_chosen};
ghost use Rattle.oim_row.specs.References.{Grows};
ghost use Rattle.oim_row.specs.Rows.{column_in, columns_in};

use crate::group_hints::GroupHints;
use crate::table_row::TableRow;
use crate::words::is_same;
use oim_cells::{CellMeaning, meaning};
use oim_names::Text;
use oim_report::Level;
use oim_rows::TableHeader;
use std::alloc::{AllocError, Global};

/// What a row's cell gives in a column of property groups.
#[derive(Clone, Copy)]
pub enum Choice {
    Nothing,
    /// The index of the group that it names.
    Group(usize),
    /// It is not known. Facts of columns that take from it do not go the fast way.
    Unknown,
}

/// A column of property groups: its index in the template and in the header, its groups, and what
/// the current row gives.
#[derive(Drop)]
pub struct GroupCell<'a> {
    pub column: usize,
    pub place: Option<usize>,
    pub groups: &'a [(Text, Level)],
    pub choice: Choice,
}

/// The columns of property groups that the fact columns of a header take from.
#[derive(Drop)]
pub struct GroupCells<'a> {
    /// Each of them once, in the order in which they were added.
    pub list: Vec<GroupCell<'a>>,
    /// The index in the list of each column of the template. Each is a guess that is tested.
    /// Without it: `properties_from` of 1,000 columns +14 %, and it grows as their square.
    places: Vec<u32>,
    hints: GroupHints,
}

/// The most groups that are searched one by one.
/// With none: `choices` +3.4 %, `mixed` +1.4 %, `positions` +0.6 %, `ids` +0.5 %.
const FEW: usize = 8;

/// Returns the index of the group with this name among a few, if it is found.
fn place_among(groups: &[(Text, Level)], name: &str) -> Choice
    requires { IsRising (keys_of groups.now) }
    ensures { (column : ColumnValue) → groups.now ≡ column.groups → Says column (a_text name.now) result }
{
    for i in 0..groups.len() {
        if is_same(groups[i].0.as_str(), name) {
            return Choice::Group(i);
        }
    }
    Choice::Unknown
}

/// Returns the index of the group with this name, if it is found.
fn place_of(groups: &[(Text, Level)], name: &str) -> Choice
    requires { IsRising (keys_of groups.now) }
    ensures { (column : ColumnValue) → groups.now ≡ column.groups → Says column (a_text name.now) result }
{
    if groups.len() <= FEW {
        return place_among(groups, name);
    }
    match groups.binary_search_by(|group| group.0.as_str().cmp(name)) {
        Ok(place) => Choice::Group(place),
        Err(_) => Choice::Unknown,
    }
}

/// Records the index of the group that a name names, if the guess was wrong and there are many
/// groups.
#[inline(always)]
fn note_found(hints: &mut GroupHints, name: &str, guess: usize, cell: &GroupCell<'_>) {
    if let Choice::Group(place) = cell.choice {
        if place != guess && cell.groups.len() > FEW {
            hints.note(name, place, cell.groups.len());
        }
    }
}

impl<'a> GroupCell<'a> {
    /// Returns the group with this name.
    ///
    /// Often it is the group that the last row named, or it is at the guessed index.
    ///
    /// Without the last row's group: `choices` +2.6 %, `datapoints` -0.4 %, no other 0.5 %.
    #[inline(always)]
    fn find(&self, name: &str, guess: usize) -> Choice
        requires { IsRising (keys_of self.now.groups.now) }
        ensures { (column : ColumnValue) → self.now.groups.now ≡ column.groups → Says column (a_text name.now) result }
    {
        if let Choice::Group(place) = self.choice {
            if place < self.groups.len() && is_same(self.groups[place].0.as_str(), name) {
                return Choice::Group(place);
            }
        }
        if guess < self.groups.len() && is_same(self.groups[guess].0.as_str(), name) {
            return Choice::Group(guess);
        }
        place_of(self.groups, name)
    }

    /// Returns what a row gives. `guess` is the guessed index of the group that it names.
    #[inline(always)]
    fn choice_in(&self, row: &TableRow<'_, '_>, guess: usize) -> Choice
        requires { IsGroupCell row.now.header self.now }
        ensures { Says (column_in row.now.header self.now.column) (meaning_of (field_or_empty row.now.fields self.now.place)) result }
    {
        match meaning(row.text_at(self.place)) {
            CellMeaning::Absent => Choice::Nothing,
            CellMeaning::Text(name) => self.find(name, guess),
            CellMeaning::Nil | CellMeaning::Empty | CellMeaning::Unknown => Choice::Unknown,
        }
    }
}

impl<'a> GroupCells<'a> {
    /// Makes an empty list of columns. It takes no memory.
    pub fn new(alloc: Global) -> GroupCells<'a>
        ensures { result.list.items ≡ [] }
    {
        GroupCells {
            list: Vec::new(alloc),
            places: Vec::new(alloc),
            hints: GroupHints::new(alloc),
        }
    }

    /// Returns the index of a column of the template that is in the list already.
    fn find(&self, column: usize) -> Option<usize>
        ensures { IfSome result (λ place. option_map (λ g. g.column) (slice_get self.now.list.items place) ≡ Some column) }
    {
        let place = *self.places.get(column)? as usize;
        if place < self.list.len() && self.list[place].column == column {
            return Some(place);
        }
        None
    }

    /// Records the index in the list of one of the template's `count` columns.
    fn note(&mut self, column: usize, count: usize, place: usize) -> Result<(), AllocError>
        ensures { self.new.list.items ≡ self.old.list.items }
    {
        if self.places.len() < count {
            self.places.resize(count, u32::MAX)?;
        }
        if column < self.places.len() && place < u32::MAX as usize {
            self.places[column] = place as u32;
        }
        Ok(())
    }

    /// Returns the index of a column of the template, and adds the column if it is missing.
    pub fn place_for(
        &mut self,
        header: &TableHeader<'a>,
        column: usize,
    ) -> Result<usize, AllocError>
        requires column { column < length (columns_in header.now) }
        requires cells { All (IsGroupCell header.now) self.old.list.items }
        ensures place { IfOk result (λ place. option_map (λ g. g.column) (slice_get self.new.list.items place) ≡ Some column) }
        ensures cells { All (IsGroupCell header.now) self.new.list.items }
        ensures grows { Grows self.old.list.items self.new.list.items }
    {
        if let Some(place) = self.find(column) {
            return Ok(place);
        }
        header.report().stands_in_order();
        let place = self.list.len();
        self.note(column, header.report().columns(header.table()), place)?;
        self.list.push(GroupCell {
            column,
            place: header.source(column),
            groups: header
                .report()
                .column(header.table(), column)
                .groups
                .as_slice(),
            choice: Choice::Unknown,
        })?;
        Ok(place)
    }

    /// Moves on to a row.
    #[inline(always)]
    pub fn refresh(&mut self, row: &TableRow<'_, '_>)
        requires { All (IsGroupCell row.now.header) self.old.list.items }
        ensures cells { All (IsGroupCell row.now.header) self.new.list.items }
        ensures said { All (IsSaid row.now) self.new.list.items }
        ensures columns { map (λ g. g.column) self.new.list.items ≡ map (λ g. g.column) self.old.list.items }
    {
        for i in 0..self.list.len() {
            let name = row.text_at(self.list[i].place);
            let guess = self.hints.guess(name);
            let cell = &mut self.list[i];
            cell.choice = cell.choice_in(row, guess);
            note_found(&mut self.hints, name, guess, cell);
        }
    }

    /// Returns what the current row gives in a column.
    #[inline(always)]
    pub fn choice(&self, place: usize) -> Choice
        requires { place < length self.now.list.items }
        ensures { option_map (λ g. g.choice) (slice_get self.now.list.items place) ≡ Some result }
    {
        self.list[place].choice
    }

    /// Returns the level of the group that the current row names in a column.
    pub fn level(&self, place: usize) -> Option<&'a Level>
        requires { place < length self.now.list.items }
        ensures { option_map (λ l. l.now) result ≡ option_and_then level_chosen (slice_get self.now.list.items place) }
    {
        let cell = &self.list[place];
        match cell.choice {
            Choice::Group(group) => match cell.groups.get(group) {
                Some(entry) => Some(&entry.1),
                None => None,
            },
            Choice::Nothing | Choice::Unknown => None,
        }
    }
}
