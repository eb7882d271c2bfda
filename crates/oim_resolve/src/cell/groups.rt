//! The property groups that the row of a cell names.

ghost use Rattle.std.specs.Prelude.{◌≡◌, ◌<◌, ◌++◌, length, IfSome, OnOk};
ghost use Rattle.std.specs.List.{All, list_any};
ghost use Rattle.std.specs.Option.{option_map};
ghost use Rattle.oim_cells.specs.Cells.{seen_meaning};
ghost use Rattle.oim_report.specs.InOrder.{LevelRises};
ghost use Rattle.oim_report.specs.Readers.{columns_of};
ghost use Rattle.oim_resolve.specs.Cell.{column, meaning_at};
ghost use Rattle.oim_resolve.specs.Facts.{cell_and_group_faults, fact_meaning, is_unknown, names_no_group};
ghost use Rattle.oim_resolve.specs.Faults.{least};
ghost use Rattle.oim_resolve.specs.ProgramCell.{held};
ghost use Rattle.oim_resolve.specs.ProgramOrigins.{seen_cell};
ghost use Rattle.oim_resolve.specs.Written.{group_of_cell, named_groups};

use crate::cell::cell_of::CellOf;
use crate::fact::CellFault;
use oim_cells::CellMeaning;
use oim_report::Level;
use std::alloc::AllocError;

impl<'a> CellOf<'a> {
    /// Returns the group that the row's cell at index `i` names.
    #[tactic(auto, using(crate::proofs::LevelOrder::group_rises))]
    pub(crate) fn named_group(&self, i: usize) -> Option<&'a Level>
        requires { i < length (columns_of self.now.report.now self.now.table) }
        ensures group { option_map (λ l. l.now) result ≡ group_of_cell (seen_cell self.now) i }
        ensures rises { IfSome result (λ l. LevelRises l.now) }
    {
        let report = self.report;
        report.stands_in_order();
        match self.meaning_at(i) {
            CellMeaning::Text(name) => report.group(self.table, i, name),
            CellMeaning::Absent | CellMeaning::Nil | CellMeaning::Empty | CellMeaning::Unknown =>
                None,
        }
    }

    /// Returns whether the row's cell at index `i` is not absent and names no group of its column.
    pub(crate) fn names_no_group(&self, i: usize) -> bool
        requires { i < length (columns_of self.now.report.now self.now.table) }
        ensures { result ≡ names_no_group (seen_cell self.now) i }
    {
        match self.meaning_at(i) {
            CellMeaning::Text(_) => self.named_group(i).is_none(),
            CellMeaning::Nil | CellMeaning::Empty => true,
            CellMeaning::Absent | CellMeaning::Unknown => false,
        }
    }

    /// Returns whether a group cell begins like a special value and is not one.
    fn has_unknown_group(&self) -> bool
        ensures { result ≡ list_any (λ i. is_unknown (meaning_at (seen_cell self.now) i)) (column (seen_cell self.now)).from }
    {
        let column = self.report.column(self.table, self.column);
        for i in column.from.as_slice() {
            if let CellMeaning::Unknown = self.meaning_at(*i) {
                return true;
            }
        }
        false
    }

    /// Returns whether a group cell is not absent and names no group of its column.
    fn has_bad_group(&self) -> bool
        ensures { result ≡ list_any (names_no_group (seen_cell self.now)) (column (seen_cell self.now)).from }
    {
        let column = self.report.column(self.table, self.column);
        for i in column.from.as_slice() {
            if self.names_no_group(*i) {
                return true;
            }
        }
        false
    }

    /// Returns the least fault of the cell and its groups. It takes no memory.
    pub(crate) fn cell_and_group_fault(&self, meaning: CellMeaning<'a>) -> Option<CellFault>
        requires { seen_meaning meaning ≡ fact_meaning (seen_cell self.now) }
        ensures { result ≡ least (cell_and_group_faults (seen_cell self.now)) }
    {
        if matches!(&meaning, CellMeaning::Unknown) || self.has_unknown_group() {
            Some(CellFault::UnknownSpecial)
        } else if self.has_bad_group() {
            Some(CellFault::UnknownGroup)
        } else {
            None
        }
    }

    /// Appends the groups, in the order of `propertiesFrom`.
    pub(crate) fn push_groups(&self, levels: &mut Vec<&'a Level>) -> Result<(), AllocError>
        requires { All (λ l. LevelRises l.now) levels.old.items }
        ensures groups { OnOk result (held levels.new.items ≡ held levels.old.items ++ named_groups (seen_cell self.now)) }
        ensures rise { OnOk result (All (λ l. LevelRises l.now) levels.new.items) }
    {
        let column = self.report.column(self.table, self.column);
        for i in column.from.as_slice() {
            if let Some(level) = self.named_group(*i) {
                levels.push(level)?;
            }
        }
        Ok(())
    }
}
