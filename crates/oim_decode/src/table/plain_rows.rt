//! The plain way from a row to the texts of its facts.

ghost use Rattle.std.specs.Prelude.{◌≡◌, ◌++◌, ◌∷◌, [], Err, IfErr, IfOk, OnOk, drop, length};
ghost use mathlib.Core.List.{IsPrefix};
ghost use Rattle.oim_fast.specs.Facts.{WritesFacts, facts_of_row};
ghost use Rattle.oim_json.specs.Blocks.{behind_commas, ends_from};
ghost use Rattle.oim_rows.specs.RowFacts.{IsTextRecord};
ghost use Rattle.oim_rows.specs.Streams.{OrNoMemory};
ghost use Rattle.oim_decode.specs.state.RowParts.{WritesRest};

use oim_fast::{TableRow, TextBuffer};
use oim_json::member_of;
use oim_names::Items;
use oim_records::Fields;
use oim_resolve::Fact;
use oim_rows::{RowPlan, TableFault, TableHeader, TableKind, whole_fault};
use std::alloc::{AllocError, Global};
use std::marker::Model;
use std::snapshot::Snapshot;

/// The plain way for the rows of a table. Its plan is made for the first row that needs it.
///
/// Contracts see the table's header.
#[derive(Drop)]
pub(crate) struct PlainRows<'a> {
    plan: Option<RowPlan<'a>>,
    header: Snapshot<TableHeader<'a>>,
}

impl<'a> Model for PlainRows<'a> {
    ghost use Rattle.std.specs.Prelude.{◌≡◌, IfSome};
    ghost use Rattle.oim_rows.specs.RowFacts.{TableHeaderValue};

    ghost Value = { TableHeaderValue };

    ghost view = { λ a. a.header.value };

    ghost invariant = { λ a. IfSome a.plan (λ plan. plan ≡ a.header.value) };
}

/// Appends the text of each fact with a comma before it, and records where each ends.
fn put_facts(
    alloc: Global,
    facts: &[Fact],
    out: &mut TextBuffer,
    ends: &mut Vec<usize>,
) -> Result<(), AllocError>
    ensures texts { OnOk result (out.new.items ≡ out.old.items ++ behind_commas facts.now) }
    ensures ends { OnOk result (ends.new.items ≡ ends.old.items ++ ends_from (length out.old.items) facts.now) }
    ensures front { IsPrefix out.old.items out.new.items × IsPrefix ends.old.items ends.new.items }
{
    for fact in facts {
        let member = member_of(alloc, fact)?;
        out.push(b',')?;
        out.put(member.bytes())?;
        ends.push(out.len())?;
    }
    Ok(())
}

/// Returns the facts after the first `count`.
fn behind(facts: &[Fact], count: usize) -> &[Fact]
    ensures { result.now ≡ drop count facts.now }
{
    let start = count.min(facts.len());
    &facts[start..]
}

/// Returns the facts of a row. It first tests all cells, so that a bad row keeps no facts.
fn checked_facts(
    alloc: Global,
    plan: &RowPlan<'_>,
    row: &TableRow<'_, '_>,
    fields: &Fields<'_>,
) -> Result<Items<Fact>, TableFault>
    requires header { row.now.header ≡ plan.now }
    requires fields { fields.now ≡ row.now.fields }
    requires texts { IsTextRecord fields.now }
    ensures { OrNoMemory row.now.header.table result (facts_of_row row.now) }
{
    match plan.check(alloc, row.header(), row.number(), fields) {
        Ok(()) => plan.facts(alloc, row.header(), row.number(), fields),
        Err(fault) => Err(fault),
    }
}

impl<'a> PlainRows<'a> {
    /// Makes the plain way for a header, without taking memory.
    pub(crate) fn new(header: &TableHeader<'a>) -> PlainRows<'a>
        ensures { result ≡ header.now }
    {
        PlainRows {
            plan: None,
            header: Snapshot::of(header),
        }
    }

    /// Returns the facts of a row, and makes the table's plan if it does not exist yet.
    fn facts(
        &mut self,
        alloc: Global,
        row: &TableRow<'a, '_>,
        fields: &Fields<'_>,
    ) -> Result<Items<Fact>, TableFault>
        requires header { row.now.header ≡ self.old }
        requires fields { fields.now ≡ row.now.fields }
        requires texts { IsTextRecord fields.now }
        ensures facts { OrNoMemory row.now.header.table result (facts_of_row row.now) }
        ensures same { self.new ≡ self.old }
    {
        if let Some(plan) = &self.plan {
            return checked_facts(alloc, plan, row, fields);
        }
        let Ok(plan) = RowPlan::new(alloc, row.header()) else {
            return Err(whole_fault(row.table(), TableKind::Memory));
        };
        let facts = checked_facts(alloc, &plan, row, fields);
        self.plan = Some(plan);
        facts
    }

    /// Appends the texts of a row's facts in header order, each with a comma before it, and records
    /// where each ends.
    ///
    /// Fails with the fault of the row's first faulty cell, and with Memory if memory runs out.
    /// Then the old text stays, perhaps with more after it.
    #[cold]
    pub(crate) fn put_row(
        &mut self,
        alloc: Global,
        row: &TableRow<'a, '_>,
        fields: &Fields<'_>,
        out: &mut TextBuffer,
        ends: &mut Vec<usize>,
    ) -> Result<(), TableFault>
        requires header { row.now.header ≡ self.old }
        requires fields { fields.now ≡ row.now.fields }
        requires texts { IsTextRecord fields.now }
        ensures facts { IfOk result (λ _. WritesFacts row.now out.old.items out.new.items ends.old.items ends.new.items) }
        ensures fault { IfErr result (λ e. OrNoMemory row.now.header.table (Err e) (facts_of_row row.now)) }
        ensures front { IsPrefix out.old.items out.new.items × IsPrefix ends.old.items ends.new.items }
        ensures same { self.new ≡ self.old }
    {
        let facts = match self.facts(alloc, row, fields) {
            Ok(facts) => facts,
            Err(fault) => return Err(fault),
        };
        match put_facts(alloc, facts.as_slice(), out, ends) {
            Ok(()) => Ok(()),
            Err(_) => Err(whole_fault(row.table(), TableKind::Memory)),
        }
    }

    /// Appends the texts of a row's facts after the first `count` as `put_row` does.
    #[cold]
    pub(crate) fn put_rest(
        &mut self,
        alloc: Global,
        row: &TableRow<'a, '_>,
        fields: &Fields<'_>,
        count: usize,
        out: &mut TextBuffer,
        ends: &mut Vec<usize>,
    ) -> Result<(), TableFault>
        requires header { row.now.header ≡ self.old }
        requires fields { fields.now ≡ row.now.fields }
        requires texts { IsTextRecord fields.now }
        ensures facts { OnOk result (WritesRest (facts_of_row row.now) count out.old.items out.new.items ends.old.items ends.new.items) }
        ensures fault { IfErr result (λ e. OrNoMemory row.now.header.table (Err e) (facts_of_row row.now)) }
        ensures front { IsPrefix out.old.items out.new.items × IsPrefix ends.old.items ends.new.items }
        ensures same { self.new ≡ self.old }
    {
        let facts = match self.facts(alloc, row, fields) {
            Ok(facts) => facts,
            Err(fault) => return Err(fault),
        };
        match put_facts(alloc, behind(facts.as_slice(), count), out, ends) {
            Ok(()) => Ok(()),
            Err(_) => Err(whole_fault(row.table(), TableKind::Memory)),
        }
    }
}
