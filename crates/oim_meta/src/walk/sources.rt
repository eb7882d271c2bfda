//! The columns that a column takes properties from.

ghost use Rattle.std.specs.Prelude.{◌≡◌, ◌++◌, IfOk, option_map};
ghost use Rattle.serde_json.specs.View.{view, items_view};
ghost use Rattle.oim_meta.specs.Faults.{has_bad_sources};
ghost use Rattle.oim_meta.specs.Members.{any_item};
ghost use Rattle.oim_meta.specs.UnknownColumn.{column_at as column_named, is_unknown_source, has_unknown_source};
ghost use Rattle.oim_meta.specs.Value.{sources_of as sources_in};
ghost use Rattle.oim_meta.specs.Walk.{in_sources};
ghost use Rattle.oim_meta.specs.state.Walks.{members_of};

use crate::build::names::Names;
use crate::build::places::places;
use crate::findings::Findings;
use crate::json_path::MetadataPart;
use crate::lookup::list_at;
use crate::shapes::is_no_texts;
use crate::walk::kinds::kind_of;
use oim_entries::MetaFault;
use oim_names::Items;
use oim_report::ColumnKind;
use serde_json::Value;
use std::alloc::{AllocError, Global};

fn bad_sources(column: &Value) -> bool
    ensures { result ≡ has_bad_sources (view column.now) }
{
    let is_fact = column.get("dimensions").is_some();
    is_fact && column.get("propertiesFrom").is_some_and(is_no_texts)
}

/// A template whose columns are walked, with their names.
#[derive(Drop)]
pub(crate) struct Columns<'v> {
    pub(crate) value: &'v Value,
    pub(crate) names: Names<'v>,
}

impl<'v> Columns<'v> {
    /// Returns the column with this name.
    fn named(&self, name: &str) -> Option<&Value>
        ensures { option_map (λ v. view v.now) result ≡ column_named (view self.now.value.now) name.now }
    {
        match self.value.get("columns") {
            Some(columns) => columns.get(name),
            None => None,
        }
    }

    /// Returns whether a name is a text, but not that of a property group column.
    fn lacks_source(&self, name: &Value) -> bool
        ensures { result ≡ is_unknown_source (view self.now.value.now) (view name.now) }
    {
        let Some(name) = name.as_str() else {
            return false;
        };
        match self.named(name) {
            Some(column) => !matches!(kind_of(column), ColumnKind::Groups),
            None => true,
        }
    }

    fn lacks_some_source(&self, names: &[Value]) -> bool
        ensures { result ≡ any_item (is_unknown_source (view self.now.value.now)) (items_view names.now) }
    {
        for name in names {
            if self.lacks_source(name) {
                return true;
            }
        }
        false
    }

    #[tactic(auto, unfolding(crate::specs::UnknownColumn::has_unknown_source))]
    fn unknown_source(&self, column: &Value) -> bool
        ensures { result ≡ has_unknown_source (view self.now.value.now) (view column.now) }
    {
        if !matches!(kind_of(column), ColumnKind::Fact) {
            return false;
        }
        match list_at(column, "propertiesFrom") {
            Some(names) => self.lacks_some_source(names),
            None => false,
        }
    }

    /// Adds the faults of the columns that a column takes properties from.
    #[tactic(auto, unfolding(crate::specs::Walk::in_sources))]
    pub(crate) fn find_sources(
        &self,
        place: (&'v str, &'v str),
        column: &Value,
        findings: &mut Findings<'v>,
    )
        ensures { findings.new
            ≡ findings.old ++ in_sources place.entry.0.now (view self.now.value.now) place.entry.1.now (view column.now) }
    {
        let here = MetadataPart::Column(place.0, place.1);
        findings.add_if(
            bad_sources(column),
            MetaFault::BadTemplate,
            here.at("propertiesFrom"),
        );
        findings.add_if(
            self.unknown_source(column),
            MetaFault::UnknownColumn,
            here.at("propertiesFrom"),
        );
    }

    /// Returns the places of the columns that a column takes property groups from.
    pub(crate) fn sources(
        &self,
        alloc: Global,
        kind: ColumnKind,
        column: &Value,
    ) -> Result<Items<usize>, AllocError>
        ensures { IfOk result
            (λ made. made ≡ sources_in (members_of self.now.names) kind (view column.now)) }
    {
        match kind {
            ColumnKind::Fact => match list_at(column, "propertiesFrom") {
                Some(names) => Ok(Items::from_vec(places(alloc, &self.names, names)?)),
                None => Ok(Items::new(alloc)),
            },
            ColumnKind::Groups | ColumnKind::Comment | ColumnKind::Plain => Ok(Items::new(alloc)),
        }
    }
}
