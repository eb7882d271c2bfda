//! Faults of the whole document: its type, its namespaces, its taxonomy, and unsupported features.

ghost use Rattle.std.specs.Prelude.{◌≡◌, ◌++◌, codes, OnOk};
ghost use Rattle.serde_json.specs.Find.{get};
ghost use Rattle.serde_json.specs.View.{view, members_view};
ghost use Rattle.oim_meta.specs.Faults.{is_bad_prefix, has_no_report};
ghost use Rattle.oim_meta.specs.Faults.{is_no_empty_list as not_empty_list, is_no_empty_object as not_empty_object};
ghost use Rattle.oim_meta.specs.Members.{if_there};
ghost use Rattle.oim_meta.specs.Walk.{in_members};
ghost use Rattle.oim_meta.specs.WalkReport.{in_document, in_info, in_info_in, in_namespaces, in_prefix};

use crate::counts::count;
use crate::findings::Findings;
use crate::json_path::MetadataPart;
use crate::lookup::{object_at, text_at};
use crate::order::repeats_text;
use crate::shapes::{is_no_object_at, is_no_text_at, is_no_texts};
use oim_entries::MetaFault;
use oim_names::is_ncname;
use serde_json::{Map, Value};
use std::alloc::{AllocError, Global};

/// Returns whether the document information is missing, or its document type is another.
#[tactic(auto, unfolding(crate::specs::Faults::has_no_report))]
pub(crate) fn no_report(report: &Value) -> bool
    ensures { result ≡ has_no_report (view report.now) }
{
    let Some(info) = report.get("documentInfo") else {
        return true;
    };
    match text_at(info, "documentType") {
        Some(text) => text != "https://xbrl.org/2021/xbrl-csv",
        None => true,
    }
}

fn bad_prefix(prefix: &str, uri: &Value) -> bool
    ensures { result ≡ is_bad_prefix prefix.now (view uri.now) }
{
    !is_ncname(prefix) || !uri.is_string()
}

fn find_prefix<'v>(prefix: &'v str, uri: &Value, findings: &mut Findings<'v>)
    ensures { findings.new ≡ findings.old ++ in_prefix prefix.now (view uri.now) }
{
    findings.add_if(
        bad_prefix(prefix, uri),
        MetaFault::BadNamespaces,
        MetadataPart::Document.member("namespaces", prefix),
    );
}

/// Adds the prefixes that are not NCNames, or whose URIs are not texts.
fn find_prefixes<'v>(members: &'v Map<String, Value>, findings: &mut Findings<'v>)
    ensures { findings.new ≡ findings.old ++ in_members in_prefix (members_view members.now.entries) }
{
    for (prefix, uri) in members.iter() {
        find_prefix(prefix.as_str(), uri, findings);
    }
}

/// Adds the faults of the namespaces.
#[tactic(auto, unfolding(crate::specs::WalkReport::in_namespaces))]
fn find_namespaces<'v>(
    alloc: Global,
    info: &'v Value,
    findings: &mut Findings<'v>,
) -> Result<(), AllocError>
    ensures { OnOk result (findings.new ≡ findings.old ++ in_namespaces (view info.now)) }
{
    findings.add_if(
        is_no_object_at(info, "namespaces"),
        MetaFault::BadNamespaces,
        MetadataPart::Document.at("namespaces"),
    );
    match object_at(info, "namespaces") {
        Some(members) => {
            find_prefixes(members, findings);
            findings.add_if(
                repeats_text(alloc, members)?,
                MetaFault::BadNamespaces,
                MetadataPart::Document.at("namespaces"),
            );
            Ok(())
        }
        None => Ok(()),
    }
}

/// Returns whether `extends` exists and is not an empty list.
#[tactic(auto, using(crate::proofs::Counted::some_item))]
fn extends_another(info: &Value) -> bool
    ensures { result ≡ if_there not_empty_list (get (codes "extends") (view info.now)) }
{
    match info.get("extends") {
        Some(extended) => match extended.as_array() {
            Some(items) => !items.is_empty(),
            None => true,
        },
        None => false,
    }
}

/// Adds the faults of the document information apart from its type.
#[tactic(auto, unfolding(crate::specs::WalkReport::in_info))]
fn find_info<'v>(
    alloc: Global,
    info: &'v Value,
    findings: &mut Findings<'v>,
) -> Result<(), AllocError>
    ensures { OnOk result (findings.new ≡ findings.old ++ in_info (view info.now)) }
{
    find_namespaces(alloc, info, findings)?;
    findings.add_if(
        info.get("taxonomy").is_none_or(is_no_texts),
        MetaFault::BadTaxonomy,
        MetadataPart::Document.at("taxonomy"),
    );
    findings.add_if(
        is_no_text_at(info, "baseURL"),
        MetaFault::BadTaxonomy,
        MetadataPart::Document.at("baseURL"),
    );
    findings.add_if(
        extends_another(info),
        MetaFault::Unsupported,
        MetadataPart::Document.at("extends"),
    );
    Ok(())
}

#[tactic(auto, unfolding(crate::specs::WalkReport::in_info_in))]
fn find_info_in<'v>(
    alloc: Global,
    report: &'v Value,
    findings: &mut Findings<'v>,
) -> Result<(), AllocError>
    ensures { OnOk result (findings.new ≡ findings.old ++ in_info_in (get (codes "documentInfo") (view report.now))) }
{
    match report.get("documentInfo") {
        Some(info) => find_info(alloc, info, findings),
        None => Ok(()),
    }
}

/// Returns whether `links` exists and is not an empty object.
#[tactic(auto, using(crate::proofs::Counted::any_is_counted))]
fn has_links(report: &Value) -> bool
    ensures { result ≡ if_there not_empty_object (get (codes "links") (view report.now)) }
{
    match report.get("links") {
        Some(links) => match links.as_object() {
            Some(members) => count(members) > 0,
            None => true,
        },
        None => false,
    }
}

/// Adds the faults of the whole document.
#[tactic(auto, unfolding(crate::specs::WalkReport::in_document))]
pub(crate) fn find_document<'v>(
    alloc: Global,
    report: &'v Value,
    findings: &mut Findings<'v>,
) -> Result<(), AllocError>
    ensures { OnOk result (findings.new ≡ findings.old ++ in_document (view report.now)) }
{
    findings.add_if(
        no_report(report),
        MetaFault::NotReport,
        MetadataPart::Document.at("documentType"),
    );
    find_info_in(alloc, report, findings)?;
    findings.add_if(
        has_links(report),
        MetaFault::Unsupported,
        MetadataPart::Report.at("links"),
    );
    Ok(())
}
