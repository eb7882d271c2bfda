//! Columns of a template: making them, and finding their faults.

ghost use Rattle.std.specs.Prelude.{◌≡◌, ◌++◌, IfOk, OnOk};
ghost use Rattle.serde_json.specs.View.{view};
ghost use Rattle.oim_meta.specs.Members.{map_members};
ghost use Rattle.oim_meta.specs.state.Places.{part_path};
ghost use Rattle.oim_meta.specs.Value.{column_level as level_in, groups_of as groups_in, column_of};
ghost use Rattle.oim_meta.specs.Walk.{in_column_itself, in_column_level, in_groups, in_members};
ghost use Rattle.oim_meta.specs.state.Walks.{in_column_of, known_to, members_of};

use crate::findings::Findings;
use crate::json_path::MetadataPart;
use crate::shapes::is_no_flag_at;
use crate::walk::Walk;
use crate::walk::kinds::{is_mixed, kind_of};
use crate::walk::levels::{bad_decimals, decimals, no_level};
use crate::walk::sources::Columns;
use oim_entries::MetaFault;
use oim_names::{Items, Text, is_identifier};
use oim_report::{Column, ColumnKind, Level};
use serde_json::Value;
use std::alloc::AllocError;

/// Adds the faults of a column itself.
#[tactic(auto, unfolding(crate::specs::Walk::in_column_itself))]
fn find<'v>(template: &'v str, name: &'v str, column: &Value, findings: &mut Findings<'v>)
    ensures { findings.new ≡ findings.old ++ in_column_itself template.now name.now (view column.now) }
{
    let here = MetadataPart::Column(template, name);
    findings.add_if(
        !is_identifier(name),
        MetaFault::BadIdentifier,
        here.itself(),
    );
    findings.add_if(!column.is_object(), MetaFault::BadTemplate, here.itself());
    findings.add_if(is_mixed(column), MetaFault::ColumnKinds, here.itself());
    findings.add_if(
        is_no_flag_at(column, "comment"),
        MetaFault::BadTemplate,
        here.at("comment"),
    );
}

impl<'a> Walk<'a> {
    /// Makes a column's own level. Only a fact column's level is used.
    #[tactic(auto, unfolding(crate::specs::Walk::in_column_level, crate::specs::Value::level_of))]
    fn column_level<'v>(
        &self,
        here: MetadataPart<'v>,
        kind: ColumnKind,
        value: &'v Value,
        findings: &mut Findings<'v>,
    ) -> Result<Level, AllocError>
        ensures value { IfOk result (λ made. made ≡ level_in kind (view value.now)) }
        ensures found { OnOk result (findings.new
            ≡ findings.old ++ in_column_level (known_to self.now) (part_path here.entry) (view value.now)) }
    {
        let dimensions = self.dimensions(here, value, findings)?;
        findings.add_if(
            value.get("dimensions").is_some() && bad_decimals(value),
            MetaFault::BadDecimals,
            here.at("decimals"),
        );
        match kind {
            ColumnKind::Fact => Ok(Level {
                dimensions,
                decimals: decimals(self.alloc, value)?,
            }),
            ColumnKind::Groups | ColumnKind::Comment | ColumnKind::Plain => {
                Ok(no_level(self.alloc))
            }
        }
    }

    /// Makes the property groups of a column: empty unless it is a property group column. Adds
    /// their faults for any column.
    fn column_groups<'v>(
        &self,
        column: (&'v str, &'v str),
        kind: ColumnKind,
        value: &'v Value,
        findings: &mut Findings<'v>,
    ) -> Result<Items<(Text, Level)>, AllocError>
        ensures value { IfOk result (λ made. made ≡ groups_in kind (view value.now)) }
        ensures found { OnOk result (findings.new
            ≡ findings.old ++ in_groups (known_to self.now) column.entry.0.now column.entry.1.now (view value.now)) }
    {
        let groups = self.groups(column, value, findings)?;
        match kind {
            ColumnKind::Groups => Ok(groups),
            ColumnKind::Fact | ColumnKind::Comment | ColumnKind::Plain => {
                Ok(Items::new(self.alloc))
            }
        }
    }

    #[tactic(auto, unfolding(crate::specs::Walk::in_column, crate::specs::Value::column_of))]
    fn column<'v>(
        &self,
        columns: &Columns<'v>,
        place: (&'v str, &'v str),
        value: &'v Value,
        findings: &mut Findings<'v>,
    ) -> Result<Column, AllocError>
        ensures value { IfOk result (λ made. made ≡ column_of (members_of columns.now.names) place.entry.1.now (view value.now)) }
        ensures found { OnOk result (findings.new
            ≡ findings.old ++ in_column_of self.now columns.now place.entry.0.now place.entry.1.now (view value.now)) }
    {
        find(place.0, place.1, value, findings);
        columns.find_sources(place, value, findings);
        let kind = kind_of(value);
        let here = MetadataPart::Column(place.0, place.1);
        let level = self.column_level(here, kind, value, findings)?;
        let groups = self.column_groups(place, kind, value, findings)?;
        Ok(Column {
            id: Text::from_str(self.alloc, place.1)?,
            kind,
            level,
            groups,
            from: columns.sources(self.alloc, kind, value)?,
        })
    }

    /// Makes the columns of a template.
    pub(crate) fn columns<'v>(
        &self,
        template: &'v str,
        columns: &Columns<'v>,
        findings: &mut Findings<'v>,
    ) -> Result<Vec<Column>, AllocError>
        ensures value { IfOk result (λ made. made.items
            ≡ map_members (column_of (members_of columns.now.names)) (members_of columns.now.names)) }
        ensures found { OnOk result (findings.new
            ≡ findings.old ++ in_members (in_column_of self.now columns.now template.now) (members_of columns.now.names)) }
    {
        let mut made = Vec::with_capacity(self.alloc, columns.names.members.len())?;
        for (name, value) in columns.names.members.iter() {
            let place = (template, name.as_str());
            made.push(self.column(columns, place, value, findings)?)?;
        }
        Ok(made)
    }
}
