//! A reference: what it gives in the current row, with the cached answers of its texts.

ghost use Rattle.std.specs.Prelude.{◌≡◌, ◌+◌, ◌<◌, [], IfOk, length, true};
ghost use Rattle.std.specs.List.{All};
ghost use Rattle.oim_row.specs.Answers.{IsAnswer};
ghost use Rattle.oim_row.specs.state.Kept.{AddsPlaces, IsCached, IsKept};
ghost use Rattle.oim_row.specs.state.Reading.{is_typed_purpose};
ghost use Rattle.oim_row.specs.References.{meaning_at_hand};
ghost use Rattle.oim_row.specs.Sources.{seen_source, source_text};

use crate::answer::Answer;
use crate::cached_answer::CachedAnswer;
use crate::purpose::Purpose;
use crate::reference_target::ReferenceTarget;
use crate::table_row::TableRow;
use crate::text_places::{TextPlaces, hash_of_text};
use ghost_value::{Denotes, GhostValue};
use itoa::Buffer;
use oim_names::Text;
use oim_report::Report;
use oim_resolve::Role;
use std::alloc::{AllocError, Global};
use std::marker::Model;

/// The number of texts that are cached at first.
const FEWEST: usize = 32;

/// A reference for a purpose.
///
/// A contract sees the report, the source and the purpose, and the text in the current row. It
/// caches texts with their answers, and more of them if many recur after they were replaced. For a
/// typed dimension, whose texts seldom recur, it keeps only one answer.
#[derive(Drop)]
pub(crate) struct RowReference<'a> {
    report: &'a Report,
    purpose: Purpose,
    source: ReferenceTarget<'a>,
    answers: Vec<CachedAnswer>,
    /// The index of the answer to the text of the current row.
    current: usize,
    places: TextPlaces,
    text: GhostValue<Text>,
}

impl<'a> Model for RowReference<'a> {
    ghost use Rattle.oim_row.specs.References.{ReferenceValue};
    ghost use Rattle.oim_row.specs.state.Kept.{IsKept};
    ghost use Rattle.oim_row.specs.Sources.{seen_source};

    ghost Value = { ReferenceValue };

    ghost view = { λ s. record { report = s.report.now; key = record { purpose = s.purpose; source = seen_source s.source }; text = s.text.value } };

    ghost invariant = { λ s. IsKept s.report.now s.purpose s.text.value s.current s.answers.items };
}

/// Denotes a text by itself.
#[derive(Drop)]
struct TextNote<'a> {
    text: &'a str,
}

impl Denotes<Text> for TextNote<'_> {
    ghost denoted = { λ t. t.text.now };
}

/// Denotes a text by bytes that begin with it.
#[derive(Drop)]
struct FrontNote<'a> {
    bytes: &'a [u8],
    len: usize,
}

impl Denotes<Text> for FrontNote<'_> {
    ghost use Rattle.std.specs.Prelude.{take};

    ghost denoted = { λ t. take t.len t.bytes.now };
}

/// Returns the number of texts that are cached at first for a purpose.
fn places_for(purpose: Purpose) -> usize
    ensures { 0 < result }
{
    match purpose {
        Purpose::Dimension(Role::Typed, _) => 1,
        _ => FEWEST,
    }
}

/// Adds `count` empty places. If memory runs out, the earlier places stay.
fn add_places(
    alloc: Global,
    answers: &mut Vec<CachedAnswer>,
    count: usize,
) -> Result<(), AllocError>
    ensures more { AddsPlaces answers.old.items answers.new.items }
    ensures count { IfOk result (λ _. length answers.new.items ≡ length answers.old.items + count) }
{
    for _i in 0..count {
        answers.push(CachedAnswer::new(alloc))?;
    }
    Ok(())
}

/// Grows the cache to four times as many places. If memory runs out, the earlier places stay.
fn widen(
    alloc: Global,
    answers: &mut Vec<CachedAnswer>,
    places: &mut TextPlaces,
) -> Result<(), AllocError>
    ensures { AddsPlaces answers.old.items answers.new.items }
{
    let count = answers.len();
    add_places(alloc, answers, count.saturating_mul(3))?;
    places.widen(answers.len())
}

/// Reads a text that is not cached, and returns the index of its answer.
///
/// That is its home or a neighbour. The cache grows if it has too few places.
#[cold]
#[inline(never)]
fn read_text(
    alloc: Global,
    report: &Report,
    purpose: Purpose,
    answers: &mut Vec<CachedAnswer>,
    places: &mut TextPlaces,
    text: &str,
) -> (usize, Result<(), AllocError>)
    requires some { 0 < length answers.old.items }
    requires cached { All (IsCached report.now purpose) answers.old.items }
    ensures { IsKept report.now purpose text.now result.0 answers.new.items }
{
    let count = answers.len();
    let hash = hash_of_text(text.as_bytes());
    let place = places.free(hash, count);
    let kept = &mut answers[place];
    let read = kept.read(alloc, report, purpose, text);
    places.note(if kept.is_kept { hash } else { 0 }, place);
    let are_few = places.count(hash, count);
    if read.is_err() || !are_few || count < FEWEST {
        return (place, read);
    }
    (place, widen(alloc, answers, places))
}

/// Returns the index of the answer to a text, and reads the text if it is not cached.
#[inline(always)]
fn find_text(
    alloc: Global,
    report: &Report,
    purpose: Purpose,
    answers: &mut Vec<CachedAnswer>,
    places: &mut TextPlaces,
    text: &str,
) -> (usize, Result<(), AllocError>)
    requires some { 0 < length answers.old.items }
    requires cached { All (IsCached report.now purpose) answers.old.items }
    ensures { IsKept report.now purpose text.now result.0 answers.new.items }
{
    let place = places.likely(hash_of_text(text.as_bytes()), answers.len());
    if answers[place].is_of(text) {
        return (place, Ok(()));
    }
    read_text(alloc, report, purpose, answers, places, text)
}

impl<'a> RowReference<'a> {
    /// Makes a reference that has the empty text, as before the first row.
    pub(crate) fn new(
        alloc: Global,
        report: &'a Report,
        purpose: Purpose,
        source: ReferenceTarget<'a>,
    ) -> Result<RowReference<'a>, AllocError>
        ensures { IfOk result (λ s. s ≡ record { report = report.now; key = record { purpose = purpose; source = seen_source source.entry }; text = [] }) }
    {
        let places = places_for(purpose);
        let mut answers = Vec::with_capacity(alloc, places)?;
        add_places(alloc, &mut answers, places)?;
        let mut known = TextPlaces::new(alloc);
        known.widen(places)?;
        Ok(RowReference {
            report,
            purpose,
            source,
            answers,
            current: 0,
            places: known,
            text: GhostValue::of(&TextNote { text: "" }),
        })
    }

    /// Returns whether the reference is for this purpose and to this source.
    pub(crate) fn is_for(&self, purpose: Purpose, source: ReferenceTarget<'_>) -> bool
        ensures same { result ≡ true → self.now.key ≡ record { purpose = purpose; source = seen_source source.entry } }
        ensures all { self.now.key ≡ record { purpose = purpose; source = seen_source source.entry } → result ≡ true }
    {
        if !self.purpose.is_same(purpose) {
            return false;
        }
        self.source.is_same(source)
    }

    /// Moves on to a row. If memory runs out, its answer is not sound.
    #[inline(always)]
    pub(crate) fn refresh(
        &mut self,
        alloc: Global,
        row: &TableRow<'a, '_>,
    ) -> Result<(), AllocError>
        ensures { self.new ≡ record self.old { text = source_text row.now self.old.key.source } }
    {
        if let Purpose::Dimension(Role::Typed, _) = self.purpose {
            return self.refresh_typed(alloc, row);
        }
        let Some(text) = self.source.column_text(row) else {
            return self.refresh_rare(alloc, row);
        };
        let (place, read) = find_text(
            alloc,
            self.report,
            self.purpose,
            &mut self.answers,
            &mut self.places,
            text,
        );
        self.current = place;
        self.text = GhostValue::of(&TextNote { text });
        read
    }

    /// Moves a typed dimension on to a row. Its text is read at once, and not compared with the
    /// last one.
    ///
    /// Without it, by the cache: `positions` +19 %, `mixed` +17 %, `ids` +16 %, `texts` +8.3 %.
    #[inline(always)]
    fn refresh_typed(&mut self, alloc: Global, row: &TableRow<'a, '_>) -> Result<(), AllocError>
        requires { is_typed_purpose self.old.key.purpose ≡ true }
        ensures { self.new ≡ record self.old { text = source_text row.now self.old.key.source } }
    {
        if let ReferenceTarget::Column(place, _) = self.source {
            let (bytes, len) = row.bytes_at(place);
            if len > 0 && bytes[0] != b'#' {
                self.current = 0;
                self.text = GhostValue::of(&FrontNote { bytes, len });
                let kept = &mut self.answers[0];
                return kept.read_typed(bytes, len);
            }
        }
        self.refresh_rare(alloc, row)
    }

    /// Moves on to a row if the text is not a plain one of a column.
    #[cold]
    #[inline(never)]
    fn refresh_rare(&mut self, alloc: Global, row: &TableRow<'a, '_>) -> Result<(), AllocError>
        ensures { self.new ≡ record self.old { text = source_text row.now self.old.key.source } }
    {
        match self.source.column_text(row) {
            Some(text) => self.read(alloc, text),
            None => {
                let mut digits = Buffer::new();
                self.read(alloc, digits.format(row.number()))
            }
        }
    }

    /// Moves on to a text that is not searched for in the cache. If memory runs out, its answer is
    /// not sound.
    fn read(&mut self, alloc: Global, text: &str) -> Result<(), AllocError>
        ensures { self.new ≡ record self.old { text = text.now } }
    {
        let (place, read) = read_text(
            alloc,
            self.report,
            self.purpose,
            &mut self.answers,
            &mut self.places,
            text,
        );
        self.current = place;
        self.text = GhostValue::of(&TextNote { text });
        read
    }

    /// Returns what the reference gives in the current row.
    #[inline(always)]
    pub(crate) fn answer(&self) -> &Answer
        ensures { IsAnswer self.now.report self.now.key.purpose (meaning_at_hand self.now) result.now }
    {
        &self.answers[self.current].answer
    }
}
