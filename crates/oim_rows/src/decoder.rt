//! Turns the records of one table into the facts of its rows.

ghost use Rattle.std.specs.Prelude.{◌≡◌, ◌≤◌, Err, IfOk, IfSome, OnErr, OnOk};
ghost use Rattle.csv.specs.Records.{fields_of};
ghost use Rattle.oim_rows.specs.RowFacts.{IsTextRecord, id_place_of, ids_after, row_fault, row_result};
ghost use Rattle.oim_rows.specs.state.RowFacts.{IsNewId};
ghost use Rattle.oim_rows.specs.Streams.{OrNoMemory};

use crate::cells::text_at;
use crate::fault::{TableFault, TableKind, whole_fault};
use crate::ids::RowIds;
use crate::row_plan::RowPlan;
use crate::table_header::TableHeader;
use csv::ByteRecord;
use oim_names::Items;
use oim_resolve::Fact;
use std::alloc::{AllocError, Global};
use std::marker::Model;

/// A table's header, and its plan for the cells under it. A contract sees the report, the table,
/// the limit and the header.
#[derive(Drop)]
pub(crate) struct Decoder<'a> {
    header: TableHeader<'a>,
    plan: RowPlan<'a>,
}

impl<'a> Model for Decoder<'a> {
    ghost use Rattle.std.specs.Prelude.{◌≡◌};
    ghost use Rattle.oim_rows.specs.RowFacts.{TableHeaderValue};

    ghost Value = { TableHeaderValue };

    ghost view = { λ a. a.header };

    ghost invariant = { λ a. a.plan ≡ a.header };
}

impl<'a> Decoder<'a> {
    /// Prepares the decoding of the rows under `header`.
    pub(crate) fn new(alloc: Global, header: TableHeader<'a>) -> Result<Decoder<'a>, AllocError>
        ensures { IfOk result (λ p. p ≡ header.entry) }
    {
        let plan = RowPlan::new(alloc, &header)?;
        Ok(Decoder { header, plan })
    }
}

impl Decoder<'_> {
    /// Returns the index of the table in its report.
    pub(crate) fn table(&self) -> usize
        ensures { result ≡ (self.now).table }
    {
        self.header.table()
    }

    /// Adds the identifier of a row to those of the rows before it. If memory runs out, nothing is
    /// added.
    fn add_id(&self, alloc: Global, ids: &mut RowIds, row: &ByteRecord) -> Result<(), AllocError>
        requires texts { IsTextRecord (fields_of row.now) }
        requires new { IsNewId (id_place_of self.now) ids.old (fields_of row.now) }
        ensures added { OnOk result (ids.new ≡ ids_after (id_place_of self.now) ids.old (fields_of row.now)) }
        ensures same { OnErr result (ids.new ≡ ids.old) }
    {
        if let Some(place) = self.header.id_place() {
            ids.push(alloc, text_at(row, Some(place)))?;
        }
        Ok(())
    }

    /// Returns the facts of row `number`, and adds its identifier to `ids`. Adds none if the row
    /// has a fault.
    pub(crate) fn facts(
        &self,
        alloc: Global,
        number: u32,
        ids: &mut RowIds,
        row: &ByteRecord,
    ) -> Result<Items<Fact>, TableFault>
        ensures facts { OrNoMemory (self.now).table result (row_result self.now number ids.old (fields_of row.now)) }
        ensures own { IfSome (row_fault self.now number ids.old (fields_of row.now)) (λ fault. result ≡ Err fault) }
        ensures ids { OnOk result (ids.new ≡ ids_after (id_place_of self.now) ids.old (fields_of row.now)) }
        ensures same { OnErr result (ids.new ≡ ids.old) }
        ensures within { OnOk result (number ≤ (self.now).limit) }
    {
        if let Some(fault) = self.header.fault_of_cells(number, ids, row) {
            return Err(fault);
        }
        match self.plan.facts_of_cells(alloc, &self.header, number, row) {
            Ok(facts) => {
                if self.add_id(alloc, ids, row).is_err() {
                    return Err(whole_fault(self.table(), TableKind::Memory));
                }
                Ok(facts)
            }
            Err(fault) => Err(fault),
        }
    }
}
