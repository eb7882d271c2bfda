//! The report of a metadata's JSON value, or its first finding.

ghost use Rattle.std.specs.Prelude.{◌≡◌, [], codes, None, IfOk, OnOk, IfErr};
ghost use Rattle.serde_json.specs.View.{view};
ghost use Rattle.oim_meta.specs.Members.{map_members, section};
ghost use Rattle.oim_meta.specs.Order.{IsInOrder};
ghost use Rattle.oim_meta.specs.Prefixes.{prefixes_of};
ghost use Rattle.oim_meta.specs.Findings.{first_of};
ghost use Rattle.oim_meta.specs.FirstFault.{first_fault};
ghost use Rattle.oim_meta.specs.Value.{level_of, named_text, report_of, tables_of, templates_of};
ghost use Rattle.oim_meta.specs.Refusals.{IsFirstOf};
ghost use Rattle.oim_meta.specs.WalkReport.{in_document, in_metadata};

use crate::build;
use crate::build::namespaces::prefixes;
use crate::document::find_document;
use crate::findings::Findings;
use crate::refusal::{Refusal, refuse};
use crate::walk::Walk;
use crate::walk::report::ReportParts;
use oim_names::{Items, Namespaces};
use oim_report::{Limits, Parameters, Report, Types};
use serde_json::Value;
use std::alloc::Global;

/// Walks the document and returns its prefixes. Fails with the document's first finding.
fn names_in<'v>(
    alloc: Global,
    value: &'v Value,
    findings: &mut Findings<'v>,
) -> Result<Namespaces, Refusal>
    requires { findings.old ≡ [] }
    ensures names { IfOk result (λ names. names ≡ prefixes_of (view value.now)) }
    ensures found { OnOk result (findings.new ≡ in_document (view value.now)) }
    ensures fault { IfErr result (IsFirstOf (in_document (view value.now))) }
{
    find_document(alloc, value, findings)?;
    refuse(alloc, findings)?;
    Ok(prefixes(alloc, value)?)
}

/// Walks the metadata and returns its parts. Fails with its first finding.
#[tactic(auto, unfolding(crate::specs::WalkReport::in_metadata))]
fn parts_in<'v>(
    walk: &Walk<'_>,
    value: &'v Value,
    findings: &mut Findings<'v>,
) -> Result<ReportParts, Refusal>
    requires document { findings.old ≡ in_document (view value.now) }
    requires prefixes { walk.now.names.now ≡ prefixes_of (view value.now) }
    ensures level { IfOk result (λ made. made.level ≡ level_of (view value.now)) }
    ensures templates { IfOk result (λ made. made.templates ≡ templates_of (view value.now)) }
    ensures tables { IfOk result (λ made. made.tables ≡ tables_of (view value.now)) }
    ensures parameters { IfOk result (λ made. made.parameters ≡ map_members named_text (section (codes "parameters") (view value.now))) }
    ensures sound { OnOk result (first_of (in_metadata walk.now.limits walk.now.given.now walk.now.types.now (view value.now)) ≡ None) }
    ensures fault { IfErr result (IsFirstOf (in_metadata walk.now.limits walk.now.given.now walk.now.types.now (view value.now))) }
{
    let parts = walk.parts(value, findings)?;
    refuse(walk.alloc, findings)?;
    Ok(parts)
}

/// Returns the prefixes and the parts of a metadata. Fails with its first finding.
fn walked(
    alloc: Global,
    value: &Value,
    parameters: &Parameters,
    types: &Types,
    limits: Limits,
) -> Result<(Namespaces, ReportParts), Refusal>
    ensures names { IfOk result (λ made. made.0 ≡ prefixes_of (view value.now)) }
    ensures level { IfOk result (λ made. made.1.level ≡ level_of (view value.now)) }
    ensures templates { IfOk result (λ made. made.1.templates ≡ templates_of (view value.now)) }
    ensures tables { IfOk result (λ made. made.1.tables ≡ tables_of (view value.now)) }
    ensures parameters { IfOk result (λ made. made.1.parameters ≡ map_members named_text (section (codes "parameters") (view value.now))) }
    ensures sound { OnOk result (first_of (in_metadata limits parameters.now types.now (view value.now)) ≡ None) }
    ensures fault { IfErr result (IsFirstOf (in_metadata limits parameters.now types.now (view value.now))) }
{
    let mut findings = Findings::new(&Items::new(alloc));
    let names = names_in(alloc, value, &mut findings)?;
    let walk = Walk {
        alloc,
        types,
        names: &names,
        given: parameters,
        limits,
    };
    let parts = parts_in(&walk, value, &mut findings)?;
    Ok((names, parts))
}

/// Returns the report of a JSON value. Fails with its first finding.
pub(crate) fn report_in(
    alloc: Global,
    value: Value,
    parameters: Parameters,
    types: Types,
    limits: Limits,
) -> Result<Report, Refusal>
    requires { IsInOrder (view value) }
    ensures sound { OnOk result (first_fault limits parameters types (view value) ≡ None) }
    ensures value { IfOk result (λ r. r ≡ report_of parameters types (view value)) }
    ensures fault { IfErr result (IsFirstOf (in_metadata limits parameters types (view value))) }
{
    let (names, parts) = walked(alloc, &value, &parameters, &types, limits)?;
    Ok(build::report(alloc, value, names, parts, parameters, types)?)
}
