//! The texts of facts that wait to be given.

ghost use Rattle.std.specs.Prelude.{◌≡◌, ◌≤◌, ◌++◌, [], IfErr, IfOk, OnErr, OnOk, drop, length, take};
ghost use Rattle.oim_json.specs.Blocks.{behind_commas};
ghost use Rattle.oim_fast.specs.Facts.{facts_of_row};
ghost use Rattle.oim_rows.specs.RowFacts.{IsTextRecord};
ghost use Rattle.oim_rows.specs.Header.{file_fault};
ghost use Rattle.oim_rows.specs.declared.fault.TableKind.TheVariants as kind;
ghost use Rattle.oim_decode.specs.state.RowParts.{AddsParts, IsLeft, IsRestOf, with_rest};
ghost use Rattle.oim_decode.specs.state.RowTexts.{AddsFacts, facts_of_answer};

use crate::table::fact_list::{first, none, rest, then, then_first};
use crate::table::row_rest::RowRest;
use crate::table::row_texts::RowTexts;
use crate::table::table_blocks::MOST;
use ghost_value::{Denotes, GhostValue};
use oim_fast::{TableRow, TextBuffer};
use oim_json::{Block, Spare};
use oim_names::Items;
use oim_records::Fields;
use oim_resolve::Fact;
use oim_rows::TableFault;
use std::alloc::{AllocError, Global};
use std::marker::Model;
use std::mem;

/// How many bytes to reserve beyond the length of the last texts.
const AHEAD: usize = 2048;

/// The texts of facts, with a comma before each.
///
/// Contracts see the list of facts, which no code holds.
#[derive(Drop)]
pub(crate) struct PendingFacts {
    bytes: TextBuffer,
    // Where each text ends.
    ends: Vec<usize>,
    facts: GhostValue<Items<Fact>>,
}

impl Model for PendingFacts {
    ghost use Rattle.std.specs.Prelude.{◌≡◌, List};
    ghost use Rattle.oim_resolve.specs.FactParts.{FactParts as FactValue};
    ghost use Rattle.oim_json.specs.Blocks.{behind_commas, ends_from};

    ghost Value = { List FactValue };

    ghost view = { λ b. b.facts.value };

    ghost invariant = { λ b. (b.bytes.items ≡ behind_commas b.facts.value) × (b.ends.items ≡ ends_from 0 b.facts.value) };
}

/// A row of a table that denotes its facts.
#[derive(Drop)]
struct RowNote<'a, 'b, 'r> {
    row: &'b TableRow<'a, 'r>,
}

impl Denotes<Items<Fact>> for RowNote<'_, '_, '_> {
    ghost denoted = { λ t. facts_of_answer (facts_of_row t.row.now) };
}

/// Returns how many bytes to reserve for texts of this length: 0 if they fit, else somewhat more
/// than the length, so that they rarely move.
fn more_than(capacity: usize, length: usize) -> usize {
    if length <= capacity {
        0
    } else {
        length.saturating_add(length / 16).saturating_add(AHEAD)
    }
}

/// Returns the empty text in the memory of `spare`, without taking memory.
fn no_text(alloc: Global, spare: Vec<u8>) -> TextBuffer
    ensures { result.items ≡ [] }
{
    match TextBuffer::within(spare, 0) {
        Ok(bytes) => bytes,
        Err(_) => TextBuffer::new(alloc),
    }
}

/// Returns an empty list of ends in the memory of `spare`.
fn no_ends(spare: Vec<usize>) -> Vec<usize>
    ensures { result.items ≡ [] }
{
    let mut ends = spare;
    ends.clear();
    ends
}

/// Returns an empty list of ends in the memory of `spare`, with room for those of a block.
fn ends_of_block(spare: Vec<usize>) -> Result<Vec<usize>, AllocError>
    ensures { IfOk result (λ ends. ends.items ≡ []) }
{
    let mut ends = no_ends(spare);
    ends.reserve(MOST)?;
    Ok(ends)
}

impl PendingFacts {
    /// Makes an empty list, without taking memory.
    pub(crate) fn new(alloc: Global) -> PendingFacts
        ensures { result ≡ [] }
    {
        PendingFacts {
            bytes: TextBuffer::new(alloc),
            ends: Vec::new(alloc),
            facts: none(),
        }
    }

    /// Makes an empty list whose texts go to the memory of `spare`, without taking memory.
    pub(crate) fn within(alloc: Global, spare: Spare) -> PendingFacts
        ensures { result ≡ [] }
    {
        let Spare { bytes, ends } = spare;
        PendingFacts {
            bytes: no_text(alloc, bytes),
            ends: no_ends(ends),
            facts: none(),
        }
    }

    /// Makes an empty list with memory for texts as long as these and somewhat more, so that they
    /// are not copied as they grow. It uses the memory of `spare` first.
    pub(crate) fn like(&self, spare: Spare) -> Result<PendingFacts, AllocError>
        ensures { IfOk result (λ facts. facts ≡ []) }
    {
        let Spare { bytes, ends } = spare;
        let more = more_than(bytes.capacity(), self.bytes.len());
        Ok(PendingFacts {
            bytes: TextBuffer::within(bytes, more)?,
            ends: ends_of_block(ends)?,
            facts: none(),
        })
    }

    /// Returns the number of facts.
    pub(crate) fn count(&self) -> usize
        ensures { result ≡ length self.now }
    {
        self.ends.len()
    }

    /// Returns how many bytes the texts have.
    pub(crate) fn bytes(&self) -> usize
        ensures { result ≡ length (behind_commas self.now) }
    {
        self.bytes.len()
    }

    /// Adds the facts of a row.
    ///
    /// Fails with the fault of the row's first faulty cell, and with Memory if memory runs out.
    /// Then nothing is added.
    pub(crate) fn push_row<'a>(
        &mut self,
        alloc: Global,
        texts: &mut RowTexts<'a>,
        row: &TableRow<'a, '_>,
        fields: &Fields<'_>,
    ) -> Result<(), TableFault>
        requires header { row.now.header ≡ texts.old }
        requires fields { fields.now ≡ row.now.fields }
        requires texts { IsTextRecord fields.now }
        ensures facts { AddsFacts row.now.header.table (facts_of_row row.now) self.old self.new result }
        ensures same { texts.new ≡ texts.old }
    {
        let facts = then(&self.facts, &RowNote { row });
        let length = self.bytes.len();
        let count = self.ends.len();
        match texts.put_row(alloc, row, fields, &mut self.bytes, &mut self.ends) {
            Ok(()) => {
                self.facts = facts;
                Ok(())
            }
            Err(fault) => {
                self.bytes.truncate(length);
                self.ends.truncate(count);
                Err(fault)
            }
        }
    }

    /// Adds the facts of a row, or only the first of them if their texts are long. Then it returns
    /// the others.
    ///
    /// Fails as `push_row` does.
    #[inline(always)]
    pub(crate) fn begin_row<'a>(
        &mut self,
        alloc: Global,
        texts: &mut RowTexts<'a>,
        row: &TableRow<'a, '_>,
        fields: &Fields<'_>,
    ) -> Result<Option<RowRest>, TableFault>
        requires header { row.now.header ≡ texts.old }
        requires fields { fields.now ≡ row.now.fields }
        requires texts { IsTextRecord fields.now }
        ensures facts { AddsParts row.now.header.table (facts_of_row row.now) self.old self.new result }
        ensures rest { IfOk result (IsLeft row.now self.new) }
        ensures same { texts.new ≡ texts.old }
    {
        let whole = RowRest::whole(&RowNote { row });
        let length = self.bytes.len();
        let count = self.ends.len();
        match texts.begin_row(alloc, row, fields, &mut self.bytes, &mut self.ends) {
            Ok(next) => {
                let more = self.ends.len() - count;
                self.facts = then_first(&self.facts, whole.facts(), more);
                Ok(whole.after(next, more))
            }
            Err(fault) => {
                self.bytes.truncate(length);
                self.ends.truncate(count);
                Err(fault)
            }
        }
    }

    /// Adds more facts of a row, those that are left, until their texts are long again. Returns
    /// the others.
    ///
    /// Fails only if memory runs out. Then nothing is added.
    pub(crate) fn put_more<'a>(
        &mut self,
        alloc: Global,
        texts: &mut RowTexts<'a>,
        row: &TableRow<'a, '_>,
        fields: &Fields<'_>,
        rest: &RowRest,
    ) -> Result<Option<RowRest>, TableFault>
        requires header { row.now.header ≡ texts.old }
        requires fields { fields.now ≡ row.now.fields }
        requires texts { IsTextRecord fields.now }
        requires rest { IsRestOf row.now rest.now }
        ensures facts { IfOk result (λ left. with_rest self.new left ≡ self.old ++ rest.now.facts) }
        ensures rest { IfOk result (IsLeft row.now self.new) }
        ensures fault { IfErr result (λ e. e ≡ file_fault row.now.header.table kind.Memory) }
        ensures kept { OnErr result (self.new ≡ self.old) }
        ensures same { texts.new ≡ texts.old }
    {
        let length = self.bytes.len();
        let count = self.ends.len();
        match texts.put_more(alloc, row, fields, rest, &mut self.bytes, &mut self.ends) {
            Ok(next) => {
                let more = self.ends.len() - count;
                self.facts = then_first(&self.facts, rest.facts(), more);
                Ok(rest.after(next, more))
            }
            Err(fault) => {
                self.bytes.truncate(length);
                self.ends.truncate(count);
                Err(fault)
            }
        }
    }

    /// Takes the first `count` facts as a block, and moves the other texts to the memory of
    /// `spare`. If memory runs out, takes nothing.
    pub(crate) fn take_block(&mut self, count: usize, spare: Spare) -> Result<Block, AllocError>
        requires some { 1 ≤ count }
        requires most { count ≤ 256 }
        requires there { count ≤ length self.old }
        ensures block { IfOk result (λ b. b ≡ take count self.old) }
        ensures left { OnOk result (self.new ≡ drop count self.old) }
        ensures same { OnErr result (self.new ≡ self.old) }
    {
        let left = self.from_place(count, spare)?;
        let all = mem::replace(self, left);
        Ok(all.into_block(count))
    }

    // Copies the facts after the first `count` to the memory of `spare`.
    fn from_place(&self, count: usize, spare: Spare) -> Result<PendingFacts, AllocError>
        requires some { 1 ≤ count }
        requires there { count ≤ length self.now }
        ensures { IfOk result (λ b. b ≡ drop count self.now) }
    {
        let start = self.ends[count - 1];
        let Spare {
            bytes: memory,
            ends,
        } = spare;
        let more = more_than(memory.capacity(), self.bytes.len());
        let mut bytes = TextBuffer::within(memory, more)?;
        bytes.put(after(self.bytes.as_slice(), start))?;
        Ok(PendingFacts {
            bytes,
            ends: counted_from(ends, behind(self.ends.as_slice(), count), start)?,
            facts: rest(&self.facts, count),
        })
    }

    /// Keeps only the first `count` facts.
    pub(crate) fn keep_first(&mut self, count: usize)
        requires { count ≤ length self.old }
        ensures { self.new ≡ take count self.old }
    {
        if count == 0 {
            self.bytes.clear();
            self.ends.clear();
            self.facts = none();
            return;
        }
        self.bytes.truncate(self.ends[count - 1]);
        self.ends.truncate(count);
        self.facts = first(&self.facts, count);
    }

    // Returns the first `count` facts as a block, and drops the others.
    pub(crate) fn into_block(self, count: usize) -> Block
        requires some { 1 ≤ count }
        requires most { count ≤ 256 }
        requires there { count ≤ length self }
        ensures { result ≡ take count self }
    {
        let PendingFacts {
            mut bytes,
            mut ends,
            facts,
        } = self;
        bytes.truncate(ends[count - 1]);
        ends.truncate(count);
        Block::from_parts(bytes.into_vec(), ends, first(&facts, count))
    }
}

ghost use Rattle.std.specs.Prelude.{◌-◌, map};

fn after(text: &[u8], start: usize) -> &[u8]
    requires { start ≤ length text.now }
    ensures { result.now ≡ drop start text.now }
{
    &text[start..]
}

fn behind(ends: &[usize], count: usize) -> &[usize]
    requires { count ≤ length ends.now }
    ensures { result.now ≡ drop count ends.now }
{
    &ends[count..]
}

// Returns the ends, counted from `start`, in the memory of `spare`.
fn counted_from(spare: Vec<usize>, ends: &[usize], start: usize) -> Result<Vec<usize>, AllocError>
    ensures { IfOk result (λ counted. counted.items ≡ map (λ end. end - start) ends.now) }
{
    let mut counted = no_ends(spare);
    counted.reserve(ends.len())?;
    for end in ends {
        counted.push(end.saturating_sub(start))?;
    }
    Ok(counted)
}
