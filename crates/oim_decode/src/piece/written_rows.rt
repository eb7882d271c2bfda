//! The texts of the facts of some rows.

ghost use Rattle.std.specs.Prelude.{◌≡◌, ◌≤◌, ◌-◌, ◌∷◌, [], IfOk, get_or, length, take};
ghost use Rattle.oim_fast.specs.Facts.{facts_of_row};
ghost use Rattle.oim_rows.specs.RowFacts.{IsTextRecord};
ghost use Rattle.oim_rows.specs.Streams.{facts_of_rows};
ghost use Rattle.oim_decode.specs.state.RowTexts.{AddsRowFacts, facts_of_answer};

use crate::table::fact_list::{first, none, then};
use crate::table::pending_facts::PendingFacts;
use crate::table::row_texts::RowTexts;
use ghost_value::{Denotes, GhostValue};
use oim_fast::TableRow;
use oim_json::Spare;
use oim_names::Items;
use oim_records::Fields;
use oim_resolve::Fact;
use oim_rows::{TableFault, TableKind, whole_fault};
use std::alloc::{AllocError, Global};
use std::marker::Model;

/// How many rows a stretch has room for at first.
const FEW_ROWS: usize = 64;

/// The texts of the facts of some rows, and where those of each row end.
///
/// Contracts see the facts of each row.
#[derive(Drop)]
pub(crate) struct WrittenRows {
    facts: PendingFacts,
    // How many facts there are up to the end of each row.
    ends: Vec<usize>,
    rows: GhostValue<Items<Items<Fact>>>,
}

impl Model for WrittenRows {
    ghost use Rattle.std.specs.Prelude.{◌≡◌, List};
    ghost use Rattle.oim_resolve.specs.FactParts.{FactParts as FactValue};
    ghost use Rattle.oim_rows.specs.Streams.{facts_of_rows};
    ghost use Rattle.oim_decode.specs.state.RowEnds.{counts_from};

    ghost Value = { List (List FactValue) };

    ghost view = { λ a. a.rows.value };

    ghost invariant = { λ a. (a.facts ≡ facts_of_rows a.rows.value) × (a.ends.items ≡ counts_from 0 a.rows.value) };
}

/// A row of a table that denotes the list of its facts.
#[derive(Drop)]
struct OneRow<'a, 'b, 'r> {
    row: &'b TableRow<'a, 'r>,
}

impl Denotes<Items<Items<Fact>>> for OneRow<'_, '_, '_> {
    ghost denoted = { λ t. facts_of_answer (facts_of_row t.row.now) ∷ [] };
}

/// Returns how many facts the first `count` rows have. `ends` are the ends of all rows.
fn facts_before(ends: &[usize], count: usize) -> usize
    requires { count ≤ length ends.now }
    ensures none { count ≡ 0 → result ≡ 0 }
    ensures end { 1 ≤ count → result ≡ get_or ends.now (count - 1) result }
{
    if count == 0 {
        return 0;
    }
    ends[count - 1]
}

/// Returns how many more rows to reserve after `count`: many at first, so that the list rarely
/// grows.
fn room_for(count: usize) -> usize
    ensures { 1 ≤ result }
{
    if count == 0 { FEW_ROWS } else { 1 }
}

impl WrittenRows {
    /// Makes a list without a row, whose texts go to the memory of `spare`, without taking memory.
    pub(crate) fn within(alloc: Global, spare: Spare) -> WrittenRows
        ensures { result ≡ [] }
    {
        WrittenRows {
            facts: PendingFacts::within(alloc, spare),
            ends: Vec::new(alloc),
            rows: none(),
        }
    }

    /// Makes a list without a row, with memory for as many rows and texts as these have, so that
    /// the texts are not copied as they grow. It uses the memory of `spare` first.
    pub(crate) fn like(&self, alloc: Global, spare: Spare) -> Result<WrittenRows, AllocError>
        ensures { IfOk result (λ rows. rows ≡ []) }
    {
        Ok(WrittenRows {
            facts: self.facts.like(spare)?,
            ends: Vec::with_capacity(alloc, self.ends.len().max(FEW_ROWS))?,
            rows: none(),
        })
    }

    /// Returns the number of facts.
    pub(crate) fn count(&self) -> usize
        ensures { result ≡ length (facts_of_rows self.now) }
    {
        self.facts.count()
    }

    /// Returns how many bytes the texts of the facts have.
    pub(crate) fn bytes(&self) -> usize {
        self.facts.bytes()
    }

    /// Returns the number of rows.
    pub(crate) fn len(&self) -> usize
        ensures { result ≡ length self.now }
    {
        self.ends.len()
    }

    /// Keeps the first `count` rows, or all if there are fewer.
    pub(crate) fn cut(&mut self, count: usize)
        ensures { self.new ≡ take count self.old }
    {
        if count >= self.ends.len() {
            return;
        }
        let facts = facts_before(self.ends.as_slice(), count);
        self.facts.keep_first(facts);
        self.ends.truncate(count);
        self.rows = first(&self.rows, count);
    }

    /// Returns the facts of all rows.
    pub(crate) fn into_facts(self) -> PendingFacts
        ensures { result ≡ facts_of_rows self }
    {
        let WrittenRows {
            facts,
            ends: _,
            rows: _,
        } = self;
        facts
    }

    /// Adds the facts of a row.
    ///
    /// Fails with the fault of the row's first faulty cell, and with Memory if memory runs out.
    /// Then nothing is added.
    pub(crate) fn push_row<'a>(
        &mut self,
        alloc: Global,
        texts: &mut RowTexts<'a>,
        row: &TableRow<'a, '_>,
        fields: &Fields<'_>,
    ) -> Result<(), TableFault>
        requires header { row.now.header ≡ texts.old }
        requires fields { fields.now ≡ row.now.fields }
        requires texts { IsTextRecord fields.now }
        ensures facts { AddsRowFacts row.now.header.table (facts_of_row row.now) self.old self.new result }
        ensures same { texts.new ≡ texts.old }
    {
        if self.ends.reserve(room_for(self.ends.len())).is_err() {
            return Err(whole_fault(row.table(), TableKind::Memory));
        }
        let rows = then(&self.rows, &OneRow { row });
        match self.facts.push_row(alloc, texts, row, fields) {
            Ok(()) => {
                self.ends.push_reserved(self.facts.count());
                self.rows = rows;
                Ok(())
            }
            Err(fault) => Err(fault),
        }
    }
}
