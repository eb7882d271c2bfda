//! Table templates: making them, and finding their faults.

ghost use Rattle.std.specs.Prelude.{◌≡◌, ◌++◌, IfOk, OnOk, codes};
ghost use Rattle.serde_json.specs.View.{view, members_view};
ghost use Rattle.oim_meta.specs.Members.{map_members};
ghost use Rattle.oim_meta.specs.UnknownColumn.{has_unknown_row_id};
ghost use Rattle.oim_meta.specs.Value.{columns_of, row_id_of, template_of, templates_of};
ghost use Rattle.oim_meta.specs.Walk.{in_columns, in_template, in_template_itself, in_templates};
ghost use Rattle.oim_meta.specs.state.Walks.{in_each, known_to};

use crate::build::names::Names;
use crate::build::places::place_at;
use crate::counts::count_at;
use crate::findings::Findings;
use crate::json_path::MetadataPart;
use crate::lookup::{object_at, text_at};
use crate::shapes::{is_no_object_at, is_no_text_at};
use crate::walk::Walk;
use crate::walk::sources::Columns;
use oim_entries::MetaFault;
use oim_names::{Items, Text, is_identifier};
use oim_report::{Column, Template};
use serde_json::{Map, Value};
use std::alloc::AllocError;

fn unknown_row_id(template: &Value) -> bool
    ensures { result ≡ has_unknown_row_id (view template.now) }
{
    match text_at(template, "rowIdColumn") {
        Some(name) => match template.get("columns") {
            Some(columns) => columns.get(name).is_none(),
            None => true,
        },
        None => false,
    }
}

fn row_id_column(template: &Value) -> Option<usize>
    ensures { result ≡ row_id_of (view template.now) }
{
    match text_at(template, "rowIdColumn") {
        Some(name) => Some(place_at(template, "columns", name)),
        None => None,
    }
}

/// Adds the faults of a template itself.
#[tactic(auto, unfolding(crate::specs::Walk::in_template_itself))]
fn find<'v>(name: &'v str, template: &Value, findings: &mut Findings<'v>)
    ensures { findings.new ≡ findings.old ++ in_template_itself name.now (view template.now) }
{
    let here = MetadataPart::Template(name);
    findings.add_if(
        !is_identifier(name),
        MetaFault::BadIdentifier,
        here.itself(),
    );
    findings.add_if(
        !template.get("columns").is_some_and(Value::is_object),
        MetaFault::BadTemplate,
        here.at("columns"),
    );
    findings.add_if(
        is_no_text_at(template, "rowIdColumn"),
        MetaFault::BadTemplate,
        here.at("rowIdColumn"),
    );
    findings.add_if(
        unknown_row_id(template),
        MetaFault::UnknownColumn,
        here.at("rowIdColumn"),
    );
}

impl<'a> Walk<'a> {
    /// Makes the columns of a template.
    #[tactic(auto, unfolding(crate::specs::Walk::in_columns))]
    fn template_columns<'v>(
        &self,
        template: &'v str,
        value: &'v Value,
        findings: &mut Findings<'v>,
    ) -> Result<Items<Column>, AllocError>
        ensures value { IfOk result (λ made. made ≡ columns_of (view value.now)) }
        ensures found { OnOk result (findings.new
            ≡ findings.old ++ in_columns (known_to self.now) template.now (view value.now)) }
    {
        let is_too_many = count_at(value, "columns") > self.limits.columns;
        let place = MetadataPart::Template(template).at("columns");
        findings.add_if(is_too_many, MetaFault::TooLarge, place);
        match object_at(value, "columns") {
            Some(members) => {
                let names = Names::of(self.alloc, members)?;
                let columns = Columns { value, names };
                let made = self.columns(template, &columns, findings)?;
                Ok(Items::from_vec(made))
            }
            None => Ok(Items::new(self.alloc)),
        }
    }

    #[tactic(auto, unfolding(crate::specs::Walk::in_template, crate::specs::Value::template_of))]
    fn template<'v>(
        &self,
        name: &'v str,
        value: &'v Value,
        findings: &mut Findings<'v>,
    ) -> Result<Template, AllocError>
        ensures value { IfOk result (λ made. made ≡ template_of name.now (view value.now)) }
        ensures found { OnOk result (findings.new
            ≡ findings.old ++ in_template (known_to self.now) name.now (view value.now)) }
    {
        find(name, value, findings);
        let level = self.level(MetadataPart::Template(name), value, findings)?;
        let columns = self.template_columns(name, value, findings)?;
        Ok(Template {
            id: Text::from_str(self.alloc, name)?,
            columns,
            row_id_column: row_id_column(value),
            level,
        })
    }

    fn templates_in<'v>(
        &self,
        templates: &'v Map<String, Value>,
        findings: &mut Findings<'v>,
    ) -> Result<Vec<Template>, AllocError>
        ensures value { IfOk result (λ made. made.items ≡ map_members template_of (members_view templates.now.entries)) }
        ensures found { OnOk result (findings.new
            ≡ findings.old ++ in_each (in_template (known_to self.now)) templates.now.entries) }
    {
        let mut made = Vec::with_capacity(self.alloc, templates.len())?;
        for (name, value) in templates.iter() {
            made.push(self.template(name.as_str(), value, findings)?)?;
        }
        Ok(made)
    }

    /// Makes the templates of a metadata.
    #[tactic(auto, unfolding(crate::specs::Walk::in_templates))]
    pub(crate) fn templates<'v>(
        &self,
        report: &'v Value,
        findings: &mut Findings<'v>,
    ) -> Result<Items<Template>, AllocError>
        ensures value { IfOk result (λ made. made ≡ templates_of (view report.now)) }
        ensures found { OnOk result (findings.new
            ≡ findings.old ++ in_templates (known_to self.now) (view report.now)) }
    {
        findings.add_if(
            is_no_object_at(report, "tableTemplates"),
            MetaFault::BadTemplate,
            MetadataPart::Report.at("tableTemplates"),
        );
        match object_at(report, "tableTemplates") {
            Some(templates) => Ok(Items::from_vec(self.templates_in(templates, findings)?)),
            None => Ok(Items::new(self.alloc)),
        }
    }
}
