//! The frames of a table that are kept.

ghost use Rattle.std.specs.Prelude.{◌≡◌, ◌<◌, [], Some, None, IfOk, IfSome, length, true};
ghost use Rattle.std.specs.List.{All, slice_get};
ghost use Rattle.oim_resolve.specs.Written.{levels};
ghost use Rattle.oim_fast.specs.state.Columns.{IsFactColumn};
ghost use Rattle.oim_fast.specs.state.Frames.{HasReferredKind, is_known_choice};
ghost use Rattle.oim_fast.specs.state.ChosenGroups.{choices_in};
ghost use Rattle.oim_fast.specs.state.KeptFrames.{HasFrame, HasTextFor, IsFor, IsFrame, IsKnownFor, IsOfConcept, text_in};
ghost use Rattle.oim_fast.specs.state.Making.{IsMaker, keys_in};
ghost use Rattle.oim_row.specs.References.{Grows};
ghost use Rattle.oim_fast.specs.state.StillHolds.{HoldsStill, HoldsWith};
ghost use Rattle.oim_row.specs.state.Rows.{cell_in};

use crate::frame::fact_column::{FactColumn, GUESSES};
use crate::frame::frame::{Frame, FrameBody};
use crate::frame::frame_maker::FrameMaker;
use crate::frame::frame_text::FrameText;
use crate::frame::hash_index::{HashIndex, STEPS};
use crate::frame::same_kind::is_same_kind;
use oim_report::Kind;
use oim_row::{Choice, GroupCells, TableRow};
use std::alloc::{AllocError, Global};

/// About how many bytes of memory the frames of a table may take, whatever its template is.
const MOST: usize = 15 << 20;

/// How many more bytes they may take for each property group of the template.
const FOR_GROUP: usize = 1_024;

/// The kept frames of a table. A place is valid until another frame is kept.
#[derive(Drop)]
pub(crate) struct Frames {
    pub(crate) list: Vec<Frame>,
    by_hash: HashIndex,
    size: usize,
    // How much memory they may take. A frame beyond it removes them all.
    most: usize,
}

/// Returns whether two choices are equal and known.
#[inline(always)]
fn is_same_choice(first: Choice, second: Choice) -> bool
    ensures { result ≡ true → (first ≡ second) × (is_known_choice first ≡ true) }
{
    match (first, second) {
        (Choice::Nothing, Choice::Nothing) => true,
        (Choice::Group(group), Choice::Group(other)) => group == other,
        _ => false,
    }
}

/// Returns whether the current row makes these choices in the columns of groups, all of them known.
#[inline(always)]
fn are_chosen(choices: &[Choice], groups: &[usize], cells: &GroupCells<'_>) -> bool
    requires { All (λ p. p < length cells.now.list.items) groups.now }
    ensures { result ≡ true → (choices.now ≡ choices_in cells.now.list.items groups.now) × All (λ o. is_known_choice o ≡ true) choices.now }
{
    if choices.len() != groups.len() {
        return false;
    }
    for i in 0..choices.len() {
        let choice = cells.choice(groups[i]);
        if !is_same_choice(choices[i], choice) {
            return false;
        }
    }
    true
}

/// Returns whether a frame is for this column and kind under the groups that the current row names.
#[inline(always)]
fn is_for(
    frame: &Frame,
    column: &FactColumn<'_>,
    cells: &GroupCells<'_>,
    kind: Option<Kind>,
) -> bool
    requires { All (λ p. p < length cells.now.list.items) column.now.groups.items }
    ensures { result ≡ true → IsKnownFor cells.now.list.items column.now kind frame.now }
{
    if frame.column != column.column {
        return false;
    }
    if !is_same_kind(frame.kind, kind) {
        return false;
    }
    are_chosen(frame.choices.as_slice(), column.groups.as_slice(), cells)
}

/// Returns which guess fits the current row, by the group that it names in the first of a column's
/// columns of groups.
#[inline(always)]
fn guess_of(groups: &[usize], cells: &GroupCells<'_>) -> usize
    requires { All (λ p. p < length cells.now.list.items) groups.now }
    ensures { result < 4 }
{
    match groups {
        [first, ..] => match cells.choice(*first) {
            Choice::Group(group) => group & (GUESSES - 1),
            Choice::Nothing | Choice::Unknown => GUESSES - 1,
        },
        [] => 0,
    }
}

impl Frames {
    /// Makes an empty list for a template with this many property groups, without taking memory.
    pub(crate) fn new(alloc: Global, groups: usize) -> Frames
        ensures { result.list.items ≡ [] }
    {
        Frames {
            list: Vec::new(alloc),
            by_hash: HashIndex::new(alloc),
            size: 0,
            most: MOST.saturating_add(groups.saturating_mul(FOR_GROUP)),
        }
    }

    /// Returns whether the frame at a place is for this column and kind in the current row.
    #[inline(always)]
    fn is_at(
        &self,
        place: usize,
        column: &FactColumn<'_>,
        cells: &GroupCells<'_>,
        kind: Option<Kind>,
    ) -> bool
        requires { All (λ p. p < length cells.now.list.items) column.now.groups.items }
        ensures { result ≡ true → HasFrame self.now.list.items (IsKnownFor cells.now.list.items column.now kind) place }
    {
        if place >= self.list.len() {
            return false;
        }
        let frame = &self.list[place];
        is_for(frame, column, cells, kind)
    }

    /// Returns the place of the frame for this column and kind in the current row, if it is kept
    /// and the search finds it.
    #[inline(never)]
    fn find(
        &self,
        hash: u64,
        column: &FactColumn<'_>,
        cells: &GroupCells<'_>,
        kind: Option<Kind>,
    ) -> Option<usize>
        requires { All (λ p. p < length cells.now.list.items) column.now.groups.items }
        ensures { IfSome result (HasFrame self.now.list.items (IsKnownFor cells.now.list.items column.now kind)) }
    {
        for step in 0..STEPS {
            let place = self.by_hash.place_at(hash, step)?;
            if self.is_at(place, column, cells, kind) {
                return Some(place);
            }
        }
        None
    }

    /// Counts one more frame of this size. If the frames then take too much memory, removes them
    /// all.
    fn make_room(&mut self, size: usize)
        ensures { HoldsStill IsFrame self.old.list.items self.new.list.items }
    {
        let together = self.size.saturating_add(size);
        if together <= self.most {
            self.size = together;
            return;
        }
        self.list.clear();
        self.by_hash.clear();
        self.size = size;
    }

    /// Keeps a frame, and returns its place.
    fn keep(&mut self, alloc: Global, hash: u64, frame: Frame) -> Result<usize, AllocError>
        ensures place { IfOk result (λ place. slice_get self.new.list.items place ≡ Some frame) }
        ensures frames { HoldsWith IsFrame self.old.list.items frame self.new.list.items }
    {
        self.make_room(frame.size());
        let place = self.list.len();
        self.list.push(frame)?;
        self.by_hash.add(alloc, hash, place)?;
        Ok(place)
    }

    /// Returns the place of the frame for this column and kind in the current row. Searches it by
    /// its hash, and makes it if it is not found.
    #[inline(never)]
    fn place<'a>(
        &mut self,
        alloc: Global,
        row: &TableRow<'a, '_>,
        column: &FactColumn<'a>,
        kind: Option<Kind>,
        maker: &mut FrameMaker<'a>,
    ) -> Result<usize, AllocError>
        requires maker { IsMaker row.now maker.old }
        requires column { IsFactColumn row.now.header maker.old.cells.list.items column.now }
        requires frames { All (IsFrame row.now.header (keys_in maker.old)) self.old.list.items }
        ensures place { IfOk result (HasFrame self.new.list.items (IsFor maker.old.cells.list.items column.now kind)) }
        ensures maker { IsMaker row.now maker.new }
        ensures grows { Grows maker.old.references maker.new.references }
        ensures cells { maker.new.cells ≡ maker.old.cells }
        ensures frames { All (IsFrame row.now.header (keys_in maker.new)) self.new.list.items }
    {
        let hash = column.hash(&maker.cells, kind);
        if let Some(place) = self.find(hash, column, &maker.cells, kind) {
            return Ok(place);
        }
        let frame = maker.frame(alloc, row, column, kind)?;
        let place = self.keep(alloc, hash, frame)?;
        Ok(place)
    }

    /// Returns the place of the column's frame in the current row, for no kind. Returns None if a
    /// group that the row names is unknown.
    #[inline(always)]
    fn first<'a>(
        &mut self,
        alloc: Global,
        row: &TableRow<'a, '_>,
        column: &mut FactColumn<'a>,
        maker: &mut FrameMaker<'a>,
    ) -> Result<Option<usize>, AllocError>
        requires maker { IsMaker row.now maker.old }
        requires column { IsFactColumn row.now.header maker.old.cells.list.items column.old }
        requires frames { All (IsFrame row.now.header (keys_in maker.old)) self.old.list.items }
        ensures place { IfOk result (λ o. IfSome o (HasFrame self.new.list.items (IsKnownFor maker.old.cells.list.items column.old None))) }
        ensures maker { IsMaker row.now maker.new }
        ensures grows { Grows maker.old.references maker.new.references }
        ensures cells { maker.new.cells ≡ maker.old.cells }
        ensures frames { All (IsFrame row.now.header (keys_in maker.new)) self.new.list.items }
        ensures column { column.new ≡ record column.old { last = column.new.last } }
    {
        let guess = guess_of(column.groups.as_slice(), &maker.cells);
        let last = column.last[guess];
        if self.is_at(last, column, &maker.cells, None) {
            return Ok(Some(last));
        }
        if column.has_unknown(&maker.cells) {
            return Ok(None);
        }
        let place = self.place(alloc, row, column, None, maker)?;
        column.last[guess] = place;
        Ok(Some(place))
    }

    /// Returns the place of the column's frame in the current row for the kind of the concept that
    /// the reference names. Returns None if the kind is not known.
    #[inline(always)]
    fn by_concept<'a>(
        &mut self,
        alloc: Global,
        row: &TableRow<'a, '_>,
        column: &mut FactColumn<'a>,
        reference: usize,
        maker: &mut FrameMaker<'a>,
    ) -> Result<Option<usize>, AllocError>
        requires maker { IsMaker row.now maker.old }
        requires column { IsFactColumn row.now.header maker.old.cells.list.items column.old }
        requires frames { All (IsFrame row.now.header (keys_in maker.old)) self.old.list.items }
        requires reference { HasReferredKind row.now.header (keys_in maker.old) (levels (cell_in row.now column.old.column)) reference }
        ensures place { IfOk result (λ o. IfSome o (HasFrame self.new.list.items (IsOfConcept row.now maker.old.cells.list.items column.old))) }
        ensures maker { IsMaker row.now maker.new }
        ensures grows { Grows maker.old.references maker.new.references }
        ensures cells { maker.new.cells ≡ maker.old.cells }
        ensures frames { All (IsFrame row.now.header (keys_in maker.new)) self.new.list.items }
        ensures column { column.new ≡ record column.old { last_of_kind = column.new.last_of_kind } }
    {
        // For the proof: the number of a row is below 2^32.
        let _number = row.number();
        let Some(kind) = maker.references.at(reference).kind else {
            return Ok(None);
        };
        if self.is_at(column.last_of_kind, column, &maker.cells, Some(kind)) {
            return Ok(Some(column.last_of_kind));
        }
        let place = self.place(alloc, row, column, Some(kind), maker)?;
        column.last_of_kind = place;
        Ok(Some(place))
    }

    /// Returns the place of a column's frame in the current row, or None if the fast way leaves its
    /// facts.
    #[inline(always)]
    pub(crate) fn frame_for<'a>(
        &mut self,
        alloc: Global,
        row: &TableRow<'a, '_>,
        column: &mut FactColumn<'a>,
        maker: &mut FrameMaker<'a>,
    ) -> Result<Option<usize>, AllocError>
        requires maker { IsMaker row.now maker.old }
        requires column { IsFactColumn row.now.header maker.old.cells.list.items column.old }
        requires frames { All (IsFrame row.now.header (keys_in maker.old)) self.old.list.items }
        ensures text { IfOk result (λ o. IfSome o (HasTextFor row.now (keys_in maker.new) column.old.column self.new.list.items)) }
        ensures maker { IsMaker row.now maker.new }
        ensures grows { Grows maker.old.references maker.new.references }
        ensures cells { maker.new.cells ≡ maker.old.cells }
        ensures frames { All (IsFrame row.now.header (keys_in maker.new)) self.new.list.items }
        ensures column { IsFactColumn row.now.header maker.new.cells.list.items column.new }
        ensures same { column.new ≡ record column.old { last = column.new.last; last_of_kind = column.new.last_of_kind } }
    {
        let first = self.first(alloc, row, column, maker)?;
        let Some(place) = first else {
            return Ok(None);
        };
        let frame = &self.list[place];
        let Some(reference) = frame.concept() else {
            return Ok(Some(place));
        };
        let found = self.by_concept(alloc, row, column, reference, maker)?;
        Ok(found)
    }

    /// Returns the text of the frame at a place, if it has one.
    #[inline(always)]
    pub(crate) fn text(&self, place: usize) -> Option<&FrameText>
        ensures { IfSome result (λ t. text_in self.now.list.items place ≡ Some t.now) }
    {
        if place >= self.list.len() {
            return None;
        }
        let frame = &self.list[place];
        match &frame.body {
            FrameBody::Text(text) => Some(text),
            FrameBody::ByConcept(_) | FrameBody::Unknown => None,
        }
    }
}
