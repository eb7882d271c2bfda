//! Parameters of a report or a table: making them, and finding their faults.

ghost use Rattle.std.specs.Prelude.{◌≡◌, ◌++◌, IfOk, OnOk, codes};
ghost use Rattle.serde_json.specs.View.{view, members_view};
ghost use Rattle.oim_meta.specs.BadParameters.{is_bad_parameter, has_bad_parameter_url};
ghost use Rattle.oim_meta.specs.Members.{map_members, section};
ghost use Rattle.oim_meta.specs.state.Places.{part_path};
ghost use Rattle.oim_meta.specs.Value.{named_text};
ghost use Rattle.oim_meta.specs.Walk.{in_members};
ghost use Rattle.oim_meta.specs.WalkTables.{in_given, in_own_parameters, in_parameter, in_parameters};
ghost use Rattle.oim_meta.specs.state.Walks.{in_each};

use crate::build::made::text_of;
use crate::findings::Findings;
use crate::json_path::MetadataPart;
use crate::lookup::object_at;
use crate::shapes::is_no_object_at;
use crate::walk::Walk;
use oim_entries::MetaFault;
use oim_names::{Items, Text, is_identifier, is_plain_path};
use serde_json::{Map, Value};
use std::alloc::AllocError;

/// Returns whether the name of the parameters file is not a plain path.
#[tactic(auto, unfolding(crate::specs::BadParameters::has_bad_parameter_url))]
pub(crate) fn bad_parameter_url(report: &Value) -> bool
    ensures { result ≡ has_bad_parameter_url (view report.now) }
{
    let Some(url) = report.get("parameterURL") else {
        return false;
    };
    match url.as_str() {
        Some(path) => !is_plain_path(path),
        None => true,
    }
}

/// Returns whether a name is not an identifier, or its value is not a text.
fn bad_parameter(name: &str, value: &Value) -> bool
    ensures { result ≡ is_bad_parameter name.now (view value.now) }
{
    !is_identifier(name) || !value.is_string()
}

impl<'a> Walk<'a> {
    fn parameter<'v>(
        &self,
        here: MetadataPart<'v>,
        name: &'v str,
        value: &Value,
        findings: &mut Findings<'v>,
    ) -> Result<(Text, Text), AllocError>
        ensures value { IfOk result (λ made. made ≡ named_text name.now (view value.now)) }
        ensures found { OnOk result (findings.new ≡ findings.old ++ in_parameter (part_path here.entry) name.now (view value.now)) }
    {
        findings.add_if(
            bad_parameter(name, value),
            MetaFault::BadParameter,
            here.member("parameters", name),
        );
        let text = text_of(self.alloc, value)?;
        Ok((Text::from_str(self.alloc, name)?, text))
    }

    fn parameters_in<'v>(
        &self,
        here: MetadataPart<'v>,
        members: &'v Map<String, Value>,
        findings: &mut Findings<'v>,
    ) -> Result<Vec<(Text, Text)>, AllocError>
        ensures value { IfOk result (λ made. made.items ≡ map_members named_text (members_view members.now.entries)) }
        ensures found { OnOk result (findings.new
            ≡ findings.old ++ in_each (in_parameter (part_path here.entry)) members.now.entries) }
    {
        let mut made = Vec::with_capacity(self.alloc, members.len())?;
        for (name, value) in members.iter() {
            made.push(self.parameter(here, name.as_str(), value, findings)?)?;
        }
        Ok(made)
    }

    /// Makes the parameters of a report or a table.
    #[tactic(auto, unfolding(crate::specs::WalkTables::in_parameters))]
    pub(crate) fn parameters<'v>(
        &self,
        here: MetadataPart<'v>,
        part: &'v Value,
        findings: &mut Findings<'v>,
    ) -> Result<Items<(Text, Text)>, AllocError>
        ensures value { IfOk result (λ made. made ≡ map_members named_text (section (codes "parameters") (view part.now))) }
        ensures found { OnOk result (findings.new ≡ findings.old ++ in_parameters (part_path here.entry) (view part.now)) }
    {
        let place = here.at("parameters");
        findings.add_if(
            is_no_object_at(part, "parameters"),
            MetaFault::BadParameter,
            place,
        );
        match object_at(part, "parameters") {
            Some(members) => Ok(Items::from_vec(self.parameters_in(here, members, findings)?)),
            None => Ok(Items::new(self.alloc)),
        }
    }

    /// Adds the report's parameters that the parameters file gives too.
    fn find_given<'v>(&self, report: &'v Value, findings: &mut Findings<'v>)
        ensures { findings.new ≡ findings.old ++ in_members (in_given self.now.given.now) (section (codes "parameters") (view report.now)) }
    {
        let Some(members) = object_at(report, "parameters") else {
            return;
        };
        for (name, _) in members.iter() {
            let is_given = self.given.has_name(name.as_str());
            let place = MetadataPart::Report.member("parameters", name.as_str());
            findings.add_if(is_given, MetaFault::BadParameter, place);
        }
    }

    /// Makes the parameters of the report.
    #[tactic(auto, unfolding(crate::specs::WalkTables::in_own_parameters))]
    pub(crate) fn own_parameters<'v>(
        &self,
        report: &'v Value,
        findings: &mut Findings<'v>,
    ) -> Result<Items<(Text, Text)>, AllocError>
        ensures value { IfOk result (λ made. made ≡ map_members named_text (section (codes "parameters") (view report.now))) }
        ensures found { OnOk result (findings.new ≡ findings.old ++ in_own_parameters self.now.given.now (view report.now)) }
    {
        let made = self.parameters(MetadataPart::Report, report, findings)?;
        self.find_given(report, findings);
        findings.add_if(
            bad_parameter_url(report),
            MetaFault::BadParameter,
            MetadataPart::Report.at("parameterURL"),
        );
        Ok(made)
    }
}
