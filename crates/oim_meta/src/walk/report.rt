//! The parts of a metadata: the report's own level, its templates, tables and parameters.

ghost use Rattle.std.specs.Prelude.{◌≡◌, ◌++◌, IfOk, OnOk, codes};
ghost use Rattle.serde_json.specs.View.{view};
ghost use Rattle.oim_meta.specs.Members.{section, map_members};
ghost use Rattle.oim_meta.specs.Value.{level_of, named_text, tables_of, templates_of};
ghost use Rattle.oim_meta.specs.WalkReport.{in_parts};
ghost use Rattle.oim_meta.specs.state.Walks.{known_to};

use crate::findings::Findings;
use crate::json_path::MetadataPart;
use crate::walk::Walk;
use oim_names::{Items, Text};
use oim_report::{Level, Table, Template};
use serde_json::Value;
use std::alloc::AllocError;

/// The parts of a report that a walk makes.
#[derive(Drop)]
pub(crate) struct ReportParts {
    pub(crate) level: Level,
    pub(crate) templates: Items<Template>,
    pub(crate) tables: Items<Table>,
    pub(crate) parameters: Items<(Text, Text)>,
}

impl<'a> Walk<'a> {
    /// Makes the parts of a metadata.
    #[tactic(auto, unfolding(crate::specs::WalkReport::in_parts))]
    pub(crate) fn parts<'v>(
        &self,
        report: &'v Value,
        findings: &mut Findings<'v>,
    ) -> Result<ReportParts, AllocError>
        ensures level { IfOk result (λ made. made.level ≡ level_of (view report.now)) }
        ensures templates { IfOk result (λ made. made.templates ≡ templates_of (view report.now)) }
        ensures tables { IfOk result (λ made. made.tables ≡ tables_of (view report.now)) }
        ensures parameters { IfOk result (λ made. made.parameters ≡ map_members named_text (section (codes "parameters") (view report.now))) }
        ensures found { OnOk result (findings.new
            ≡ findings.old ++ in_parts (known_to self.now) (view report.now)) }
    {
        let level = self.level(MetadataPart::Report, report, findings)?;
        let templates = self.templates(report, findings)?;
        let tables = self.tables(report, findings)?;
        let parameters = self.own_parameters(report, findings)?;
        Ok(ReportParts {
            level,
            templates,
            tables,
            parameters,
        })
    }
}
