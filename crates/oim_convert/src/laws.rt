//! Laws over the definitions that the contracts cite.

ghost use Rattle.oim_convert.specs.Identifiers.{AnswerIdsDiffer, RunIdsDiffer};

use oim_report::Report;
use oim_rows::fact_identifiers_differ;

/// Proves that no two facts of a report's document have one identifier, whatever files its tables
/// have: neither in the defined answer (`answer`) nor in what the histories of a run write
/// (`runs`), also if tables were cut short or none was served.
pub fn written_identifiers_differ(report: &Report)
    ensures answer { AnswerIdsDiffer report.now }
    ensures runs { RunIdsDiffer report.now }
{
    fact_identifiers_differ(report);
}
