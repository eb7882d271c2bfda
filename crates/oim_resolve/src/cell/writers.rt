//! The level that writes a property of a fact: the most specific one.

ghost use Rattle.std.specs.Prelude.{◌≡◌};
ghost use Rattle.std.specs.Option.{option_map};
ghost use Rattle.oim_report.specs.InOrder.{LevelRises};
ghost use Rattle.oim_resolve.specs.ProgramOrigins.{seen_writer};
ghost use Rattle.oim_resolve.specs.Writers.{writes, writes_decimals};

use crate::cell::cell_of::CellOf;
use oim_names::find_in_order;
use oim_report::{Level, Written, WrittenDecimals};

/// A level of a report that writes properties of a fact.
#[derive(Clone, Copy, Debug, PartialEq, Eq)]
pub enum Writer {
    /// The fact's column.
    Column,
    /// The property group that the row's cell at this place of the template names.
    Group(usize),
    /// The table's template.
    Template,
    /// The report.
    Report,
}

/// Returns what a level writes for a dimension, with the level's name.
fn written_at<'a>(writer: Writer, level: &'a Level, name: &str) -> Option<(Writer, &'a Written)>
    requires { LevelRises level.now }
    ensures { option_map seen_writer result ≡ writes name.now (writer, level.now) }
{
    match find_in_order(level.dimensions.as_slice(), name) {
        Some(written) => Some((writer, written)),
        None => None,
    }
}

/// Returns what a level writes for decimals, with the level's name.
fn decimals_at<'a>(writer: Writer, level: &'a Level) -> Option<(Writer, &'a WrittenDecimals)>
    ensures { option_map seen_writer result ≡ writes_decimals (writer, level.now) }
{
    match level.decimals.as_ref() {
        Some(written) => Some((writer, written)),
        None => None,
    }
}

impl<'a> CellOf<'a> {
    ghost use Rattle.std.specs.Prelude.{◌≡◌};
    ghost use Rattle.std.specs.Option.{option_map};
    ghost use Rattle.oim_resolve.specs.Cell.{column};
    ghost use Rattle.oim_resolve.specs.ProgramOrigins.{seen_cell, seen_writer};
    ghost use Rattle.oim_resolve.specs.Writers.{decimals_writer, first_answer, group_writers, writer_of, writes, writes_decimals};
    ghost use Rattle.oim_resolve.specs.Written.{levels, written, written_decimals};

    /// Returns the first property group that writes a dimension, and what it writes.
    fn group_writer_of(&self, name: &str) -> Option<(Writer, &'a Written)>
        ensures { option_map seen_writer result ≡ first_answer (writes name.now) (group_writers (seen_cell self.now) (column (seen_cell self.now)).from) }
    {
        let column = self.report.column(self.table, self.column);
        for place in column.from.as_slice() {
            if let Some(level) = self.named_group(*place)
                && let Some(found) = written_at(Writer::Group(*place), level, name)
            {
                return Some(found);
            }
        }
        None
    }

    /// Returns the level that writes a dimension of the cell's fact, and what it writes. (xBRL-CSV
    /// 1.0, dimensions and property groups)
    ///
    /// It is the most specific level that writes the dimension: the column, else the first property
    /// group in the order of `propertiesFrom`, else the template, else the report. Returns `None`
    /// if no level writes it. It takes no memory.
    pub fn writer_of(&self, name: &str) -> Option<(Writer, &'a Written)>
        ensures writer { option_map seen_writer result ≡ writer_of (seen_cell self.now) name.now }
        ensures written { option_map (λ w. w.1.now) result ≡ written (levels (seen_cell self.now)) name.now }
    {
        let report = self.report;
        report.stands_in_order();
        let column = report.column(self.table, self.column);
        if let Some(found) = written_at(Writer::Column, &column.level, name) {
            return Some(found);
        }
        let of_group = self.group_writer_of(name);
        let of_template = written_at(Writer::Template, report.template_level(self.table), name);
        let of_report = written_at(Writer::Report, report.report_level(), name);
        of_group.or(of_template).or(of_report)
    }

    /// Returns the first property group that writes decimals, and what it writes.
    fn group_decimals_writer(&self) -> Option<(Writer, &'a WrittenDecimals)>
        ensures { option_map seen_writer result ≡ first_answer writes_decimals (group_writers (seen_cell self.now) (column (seen_cell self.now)).from) }
    {
        let column = self.report.column(self.table, self.column);
        for place in column.from.as_slice() {
            if let Some(level) = self.named_group(*place)
                && let Some(found) = decimals_at(Writer::Group(*place), level)
            {
                return Some(found);
            }
        }
        None
    }

    /// Returns the level that writes the decimals of the cell's fact, and what it writes, as
    /// `writer_of` does.
    pub fn decimals_writer(&self) -> Option<(Writer, &'a WrittenDecimals)>
        ensures writer { option_map seen_writer result ≡ decimals_writer (seen_cell self.now) }
        ensures written { option_map (λ w. w.1.now) result ≡ written_decimals (levels (seen_cell self.now)) }
    {
        let report = self.report;
        let column = report.column(self.table, self.column);
        let of_column = decimals_at(Writer::Column, &column.level);
        let of_group = self.group_decimals_writer();
        let of_template = decimals_at(Writer::Template, report.template_level(self.table));
        let of_report = decimals_at(Writer::Report, report.report_level());
        of_column.or(of_group).or(of_template).or(of_report)
    }
}
