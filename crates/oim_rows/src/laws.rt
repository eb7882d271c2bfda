//! Laws about the definitions that the contracts use.

ghost use Rattle.std.specs.Prelude.{◌≡◌, ◌↔◌, List, ℕ, Option, []};
ghost use Rattle.oim_records.specs.Grids.{Record};
ghost use Rattle.oim_report.specs.ReportValue.{ReportValue};
ghost use Rattle.oim_rows.specs.Identifiers.{FactIdsDiffer};
ghost use Rattle.oim_rows.specs.RowFacts.{TableHeaderValue};
ghost use Rattle.oim_rows.specs.Streams.{Stream, stream_from, table_stream};
ghost use Rattle.oim_rows.specs.WholeTable.{IsStreamOf, IsTableStream};

use oim_report::Report;

/// Proves what the stream of a table is for all its rows at once: the facts of each row before the
/// first bad one, and that row's fault.
pub fn stream_is_of_all_rows()
    ensures { (g : TableHeaderValue) (rows : List Record) → IsStreamOf g [] rows (stream_from g 1 [] rows) }
{}

/// Proves that a table's stream is the only one with the fault of its header, or the facts of each
/// row before the first bad one and that row's fault.
///
/// So each contract that names the stream covers all rows at once.
pub fn table_stream_is_of_all_rows()
    ensures { (r : ReportValue) (table limit : ℕ) (file : Option (List ℕ)) (s : Stream)
        → (IsTableStream r table limit file s ↔ (s ≡ table_stream r table limit file)) }
{}

/// Proves that no two facts of a report have the same identifier, whatever files its tables have.
pub fn fact_identifiers_differ(report: &Report)
    ensures { FactIdsDiffer report.now }
{
    report.stands_in_order();
}
