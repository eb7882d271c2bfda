//! Property groups of a column: making them, and finding their faults.

ghost use Rattle.std.specs.Prelude.{◌≡◌, ◌++◌, IfOk, OnOk, codes};
ghost use Rattle.serde_json.specs.View.{view, members_view};
ghost use Rattle.oim_meta.specs.Members.{map_members, section};
ghost use Rattle.oim_meta.specs.Value.{named_level};
ghost use Rattle.oim_meta.specs.Walk.{in_group, in_groups};
ghost use Rattle.oim_meta.specs.state.Walks.{in_each, known_to};

use crate::findings::Findings;
use crate::json_path::MetadataPart;
use crate::lookup::object_at;
use crate::shapes::is_no_object_at;
use crate::walk::Walk;
use oim_entries::MetaFault;
use oim_names::{Items, Text};
use oim_report::Level;
use serde_json::{Map, Value};
use std::alloc::AllocError;

impl<'a> Walk<'a> {
    #[tactic(auto, unfolding(crate::specs::Walk::in_group))]
    fn group<'v>(
        &self,
        column: (&'v str, &'v str),
        name: &'v str,
        value: &'v Value,
        findings: &mut Findings<'v>,
    ) -> Result<(Text, Level), AllocError>
        ensures value { IfOk result (λ made. made ≡ named_level name.now (view value.now)) }
        ensures found { OnOk result (findings.new
            ≡ findings.old ++ in_group (known_to self.now) column.entry.0.now column.entry.1.now name.now (view value.now)) }
    {
        let here = MetadataPart::Group(column.0, column.1, name);
        let is_bad = name == "" || !value.is_object();
        findings.add_if(is_bad, MetaFault::BadTemplate, here.itself());
        let level = self.level(here, value, findings)?;
        Ok((Text::from_str(self.alloc, name)?, level))
    }

    fn groups_in<'v>(
        &self,
        column: (&'v str, &'v str),
        groups: &'v Map<String, Value>,
        findings: &mut Findings<'v>,
    ) -> Result<Vec<(Text, Level)>, AllocError>
        ensures value { IfOk result (λ made. made.items ≡ map_members named_level (members_view groups.now.entries)) }
        ensures found { OnOk result (findings.new
            ≡ findings.old ++ in_each (in_group (known_to self.now) column.entry.0.now column.entry.1.now) groups.now.entries) }
    {
        let mut made = Vec::with_capacity(self.alloc, groups.len())?;
        for (name, value) in groups.iter() {
            made.push(self.group(column, name.as_str(), value, findings)?)?;
        }
        Ok(made)
    }

    /// Makes the property groups of a column of a template.
    #[tactic(auto, unfolding(crate::specs::Walk::in_groups))]
    pub(crate) fn groups<'v>(
        &self,
        column: (&'v str, &'v str),
        value: &'v Value,
        findings: &mut Findings<'v>,
    ) -> Result<Items<(Text, Level)>, AllocError>
        ensures value { IfOk result (λ made. made ≡ map_members named_level (section (codes "propertyGroups") (view value.now))) }
        ensures found { OnOk result (findings.new
            ≡ findings.old ++ in_groups (known_to self.now) column.entry.0.now column.entry.1.now (view value.now)) }
    {
        let here = MetadataPart::Column(column.0, column.1);
        findings.add_if(
            is_no_object_at(value, "propertyGroups"),
            MetaFault::BadTemplate,
            here.at("propertyGroups"),
        );
        match object_at(value, "propertyGroups") {
            Some(groups) => Ok(Items::from_vec(self.groups_in(column, groups, findings)?)),
            None => Ok(Items::new(self.alloc)),
        }
    }
}
