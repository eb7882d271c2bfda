//! Tables: making them, and finding their faults.

ghost use Rattle.std.specs.Prelude.{◌≡◌, ◌++◌, IfOk, OnOk};
ghost use Rattle.serde_json.specs.Find.{get};
ghost use Rattle.serde_json.specs.View.{view, members_view};
ghost use Rattle.oim_meta.specs.Faults.{lacks_template_of, lacks_url as without_url};
ghost use Rattle.oim_meta.specs.Members.{map_members};
ghost use Rattle.oim_meta.specs.Value.{table_of, tables_of};
ghost use Rattle.oim_meta.specs.WalkTables.{in_named_template, in_table, in_table_itself, in_tables};
ghost use Rattle.oim_meta.specs.state.Walks.{in_each, members_of, value_of};

use crate::build::made::flag;
use crate::build::names::Names;
use crate::counts::count_at;
use crate::findings::Findings;
use crate::json_path::MetadataPart;
use crate::lookup::{object_at, text_at};
use crate::shapes::{is_no_flag_at, is_no_object_at, is_no_text_at};
use crate::walk::Walk;
use oim_entries::MetaFault;
use oim_names::{Items, Text, is_identifier, is_plain_path};
use oim_report::Table;
use serde_json::{Map, Value};
use std::alloc::AllocError;

fn lacks_url(table: &Value) -> bool
    ensures { result ≡ without_url (view table.now) }
{
    match text_at(table, "url") {
        Some(url) => !is_plain_path(url),
        None => true,
    }
}

/// The templates that tables name, with their names.
#[derive(Drop)]
struct Templates<'v> {
    value: Option<&'v Value>,
    names: Names<'v>,
}

impl<'v> Templates<'v> {
    /// Returns whether the template of a table does not exist.
    fn lacks(&self, name: &str, table: &Value) -> bool
        ensures { result ≡ lacks_template_of (value_of self.now) name.now (view table.now) }
    {
        let template = text_at(table, "template").unwrap_or(name);
        match self.value {
            Some(templates) => templates.get(template).is_none(),
            None => true,
        }
    }
}

/// Adds the fault of a table whose template does not exist.
fn find_template<'v>(
    templates: &Templates<'_>,
    name: &'v str,
    table: &Value,
    findings: &mut Findings<'v>,
)
    ensures { findings.new ≡ findings.old ++ in_named_template (value_of templates.now) name.now (view table.now) }
{
    findings.add_if(
        templates.lacks(name, table),
        MetaFault::UnknownTemplate,
        MetadataPart::Table(name).at("template"),
    );
}

/// Adds the faults of a table itself.
#[tactic(auto, unfolding(crate::specs::WalkTables::in_table_itself))]
fn find<'v>(name: &'v str, table: &Value, findings: &mut Findings<'v>)
    ensures { findings.new ≡ findings.old ++ in_table_itself name.now (view table.now) }
{
    let here = MetadataPart::Table(name);
    findings.add_if(
        !is_identifier(name),
        MetaFault::BadIdentifier,
        here.itself(),
    );
    findings.add_if(lacks_url(table), MetaFault::BadTemplate, here.at("url"));
    findings.add_if(
        is_no_text_at(table, "template"),
        MetaFault::BadTemplate,
        here.at("template"),
    );
    findings.add_if(
        is_no_flag_at(table, "optional"),
        MetaFault::BadTemplate,
        here.at("optional"),
    );
}

impl<'a> Walk<'a> {
    #[tactic(auto, unfolding(crate::specs::WalkTables::in_table, crate::specs::Value::table_of))]
    fn table<'v>(
        &self,
        templates: &Templates<'_>,
        name: &'v str,
        value: &'v Value,
        findings: &mut Findings<'v>,
    ) -> Result<Table, AllocError>
        ensures value { IfOk result (λ made. made ≡ table_of (members_of templates.now.names) name.now (view value.now)) }
        ensures found { OnOk result (findings.new
            ≡ findings.old ++ in_table (value_of templates.now) name.now (view value.now)) }
    {
        find(name, value, findings);
        find_template(templates, name, value, findings);
        let parameters = self.parameters(MetadataPart::Table(name), value, findings)?;
        let template = text_at(value, "template").unwrap_or(name);
        Ok(Table {
            id: Text::from_str(self.alloc, name)?,
            url: Text::from_str(self.alloc, text_at(value, "url").unwrap_or(""))?,
            is_optional: flag(value, "optional"),
            template: templates.names.place(template),
            parameters,
        })
    }

    fn tables_in<'v>(
        &self,
        templates: &Templates<'_>,
        tables: &'v Map<String, Value>,
        findings: &mut Findings<'v>,
    ) -> Result<Vec<Table>, AllocError>
        ensures value { IfOk result (λ made. made.items
            ≡ map_members (table_of (members_of templates.now.names)) (members_view tables.now.entries)) }
        ensures found { OnOk result (findings.new
            ≡ findings.old ++ in_each (in_table (value_of templates.now)) tables.now.entries) }
    {
        let mut made = Vec::with_capacity(self.alloc, tables.len())?;
        for (name, value) in tables.iter() {
            made.push(self.table(templates, name.as_str(), value, findings)?)?;
        }
        Ok(made)
    }

    /// Makes the tables of a metadata.
    #[tactic(auto, unfolding(crate::specs::WalkTables::in_tables))]
    pub(crate) fn tables<'v>(
        &self,
        report: &'v Value,
        findings: &mut Findings<'v>,
    ) -> Result<Items<Table>, AllocError>
        ensures value { IfOk result (λ made. made ≡ tables_of (view report.now)) }
        ensures found { OnOk result (findings.new ≡ findings.old ++ in_tables self.now.limits (view report.now)) }
    {
        findings.add_if(
            is_no_object_at(report, "tables"),
            MetaFault::BadTemplate,
            MetadataPart::Report.at("tables"),
        );
        let is_too_many = count_at(report, "tables") > self.limits.tables;
        findings.add_if(
            is_too_many,
            MetaFault::TooLarge,
            MetadataPart::Report.at("tables"),
        );
        let nothing = Map::new(self.alloc);
        let members = object_at(report, "tableTemplates").unwrap_or(&nothing);
        let templates = Templates {
            value: report.get("tableTemplates"),
            names: Names::of(self.alloc, members)?,
        };
        match object_at(report, "tables") {
            Some(tables) => Ok(Items::from_vec(self.tables_in(&templates, tables, findings)?)),
            None => Ok(Items::new(self.alloc)),
        }
    }
}
