//! Building a report from the parts of its metadata.

ghost use Rattle.std.specs.Prelude.{◌≡◌, ◌++◌, IfOk, false, codes};
ghost use Rattle.serde_json.specs.View.{view};
ghost use Rattle.oim_meta.specs.Members.{section, map_members};
ghost use Rattle.oim_meta.specs.Prefixes.{document_info};
ghost use Rattle.oim_meta.specs.Value.{info_of, level_of, named_text, report_of, tables_of, templates_of};
ghost use Rattle.oim_meta.specs.Faults.{has_bad_identifier, has_unknown_template};
ghost use Rattle.oim_meta.specs.Order.{IsInOrder};
ghost use Rattle.oim_meta.specs.Prefixes.{prefixes_of};
ghost use Rattle.oim_meta.specs.UnknownColumn.{has_unknown_column};

pub(crate) mod made;
pub(crate) mod names;
pub(crate) mod namespaces;
pub(crate) mod places;

use crate::build::made::{copied, take_texts};
use crate::lookup::text_at;
use crate::walk::report::ReportParts;
use oim_names::{Items, Namespaces};
use oim_report::{Info, Parameters, Report, Types};
use serde_json::Value;
use std::alloc::{AllocError, Global};

/// Makes the document's own information. The texts of its taxonomy are moved out of `document`.
fn info(alloc: Global, document: &mut Value) -> Result<Info, AllocError>
    ensures { IfOk result (λ made. made ≡ info_of (view document.old)) }
{
    let base_url = copied(alloc, text_at(document, "baseURL"))?;
    let taxonomy = take_texts(alloc, document, "taxonomy")?;
    Ok(Info { base_url, taxonomy })
}

/// Makes the information of a metadata's document, which is empty if the metadata has none.
fn info_in(alloc: Global, mut value: Value) -> Result<Info, AllocError>
    ensures { IfOk result (λ made. made ≡ info_of (document_info (view value))) }
{
    match value.get_mut("documentInfo") {
        Some(document) => info(alloc, document),
        None => Ok(Info {
            base_url: None,
            taxonomy: Items::new(alloc),
        }),
    }
}

/// Makes the report of a metadata with these prefixes and parts. The names of templates and columns
/// that its parts refer to must exist.
#[tactic(auto, unfolding(crate::specs::Value::report_of))]
pub(crate) fn report(
    alloc: Global,
    value: Value,
    namespaces: Namespaces,
    parts: ReportParts,
    parameters: Parameters,
    types: Types,
) -> Result<Report, AllocError>
    requires namespaces { namespaces ≡ prefixes_of (view value) }
    requires level { parts.level ≡ level_of (view value) }
    requires templates { parts.templates ≡ templates_of (view value) }
    requires tables { parts.tables ≡ tables_of (view value) }
    requires parameters { parts.parameters ≡ map_members named_text (section (codes "parameters") (view value)) }
    requires known_templates { has_unknown_template (view value) ≡ false }
    requires known_columns { has_unknown_column (view value) ≡ false }
    requires order { IsInOrder (view value) }
    requires identifiers { has_bad_identifier (view value) ≡ false }
    ensures { IfOk result (λ r. r ≡ report_of parameters types (view value)) }
{
    let info = info_in(alloc, value)?;
    Ok(Report::new(
        info,
        namespaces,
        types,
        parts.level,
        parts.templates,
        parts.tables,
        (parts.parameters, parameters),
    ))
}
