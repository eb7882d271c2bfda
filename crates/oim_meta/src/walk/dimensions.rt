//! Dimensions: making their values, and finding their faults.

ghost use Rattle.std.specs.Prelude.{◌≡◌, ◌++◌, IfOk, OnOk, codes};
ghost use Rattle.serde_json.specs.View.{view, members_view};
ghost use Rattle.oim_meta.specs.BadDimensions.{is_core as core_key, is_typed as typed, is_dimension as dimension_kind, kind_named, is_bad_meaning};
ghost use Rattle.oim_meta.specs.BadDimensions.{is_bad_dimension};
ghost use Rattle.oim_meta.specs.Members.{map_members, section};
ghost use Rattle.oim_meta.specs.Value.{named_dimension};
ghost use Rattle.oim_meta.specs.Written.{name_and_side};
ghost use Rattle.oim_meta.specs.state.Places.{part_path};
ghost use Rattle.oim_meta.specs.Walk.{in_dimension, in_dimensions};
ghost use Rattle.oim_meta.specs.state.Walks.{in_each, known_to};
ghost use Rattle.oim_cells.specs.Cells.{meaning_of};

use crate::findings::Findings;
use crate::json_path::MetadataPart;
use crate::lookup::object_at;
use crate::shapes::is_no_object_at;
use crate::walk::Walk;
use crate::written::{strip_back, strip_front, written};
use oim_cells::{CellMeaning, meaning};
use oim_entries::MetaFault;
use oim_names::{Items, Text, is_identifier, qname};
use oim_report::{Kind, Written};
use serde_json::{Map, Value};
use std::alloc::AllocError;

fn is_core(key: &str) -> bool
    ensures { result ≡ core_key key.now }
{
    key == "concept" || key == "entity" || key == "period" || key == "unit" || key == "language"
}

fn is_typed(kind: Option<Kind>) -> bool
    ensures { result ≡ typed kind }
{
    matches!(kind, Some(Kind::Typed | Kind::TypedBy(_)))
}

fn is_dimension(kind: Option<Kind>) -> bool
    ensures { result ≡ dimension_kind kind }
{
    matches!(kind, Some(Kind::Explicit | Kind::Typed | Kind::TypedBy(_)))
}

fn bad_literal(kind: Option<Kind>, text: &str) -> bool
    ensures { result ≡ is_bad_meaning kind (meaning_of text.now) }
{
    match meaning(text) {
        CellMeaning::Absent | CellMeaning::Text(_) => false,
        CellMeaning::Nil | CellMeaning::Empty => !is_typed(kind),
        CellMeaning::Unknown => true,
    }
}

#[tactic(auto, unfolding(crate::specs::Written::name_and_side))]
fn name_of<'a>(key: &str, name: &'a str) -> &'a str
    ensures { result.now ≡ (name_and_side key.now name.now).0 }
{
    if key != "period" {
        return name;
    }
    if let Some(front) = strip_back(name, "@start") {
        return front;
    }
    strip_back(name, "@end").unwrap_or(name)
}

impl<'a> Walk<'a> {
    fn kind_of(&self, key: &str) -> Option<Kind>
        ensures { result ≡ kind_named self.now.types.now self.now.names.now key.now }
    {
        match qname(self.names, key) {
            Some((uri, local)) => self.types.kind_of(uri, local),
            None => None,
        }
    }

    #[tactic(auto, unfolding(crate::specs::BadDimensions::is_bad_dimension))]
    fn is_bad(&self, key: &str, value: &Value) -> bool
        ensures { result ≡ is_bad_dimension self.now.types.now self.now.names.now key.now (view value.now) }
    {
        let kind = self.kind_of(key);
        if !is_core(key) && !is_dimension(kind) {
            return true;
        }
        let Some(text) = value.as_str() else {
            return true;
        };
        match strip_front(text, "$") {
            Some(rest) => strip_front(rest, "$").is_none() && !is_identifier(name_of(key, rest)),
            None => bad_literal(kind, text),
        }
    }

    fn dimension<'v>(
        &self,
        here: MetadataPart<'v>,
        key: &'v str,
        value: &Value,
        findings: &mut Findings<'v>,
    ) -> Result<(Text, Written), AllocError>
        ensures value { IfOk result (λ made. made ≡ named_dimension key.now (view value.now)) }
        ensures found { OnOk result (findings.new
            ≡ findings.old ++ in_dimension (known_to self.now) (part_path here.entry) key.now (view value.now)) }
    {
        findings.add_if(
            self.is_bad(key, value),
            MetaFault::BadDimension,
            here.member("dimensions", key),
        );
        let meaning = written(self.alloc, key, value.as_str().unwrap_or(""))?;
        Ok((Text::from_str(self.alloc, key)?, meaning))
    }

    fn dimensions_in<'v>(
        &self,
        here: MetadataPart<'v>,
        members: &'v Map<String, Value>,
        findings: &mut Findings<'v>,
    ) -> Result<Vec<(Text, Written)>, AllocError>
        ensures value { IfOk result (λ made. made.items ≡ map_members named_dimension (members_view members.now.entries)) }
        ensures found { OnOk result (findings.new
            ≡ findings.old ++ in_each (in_dimension (known_to self.now) (part_path here.entry)) members.now.entries) }
    {
        let mut made = Vec::with_capacity(self.alloc, members.len())?;
        for (key, value) in members.iter() {
            made.push(self.dimension(here, key.as_str(), value, findings)?)?;
        }
        Ok(made)
    }

    /// Makes the dimensions of a part.
    #[tactic(auto, unfolding(crate::specs::Walk::in_dimensions))]
    pub(crate) fn dimensions<'v>(
        &self,
        here: MetadataPart<'v>,
        part: &'v Value,
        findings: &mut Findings<'v>,
    ) -> Result<Items<(Text, Written)>, AllocError>
        ensures value { IfOk result (λ made. made ≡ map_members named_dimension (section (codes "dimensions") (view part.now))) }
        ensures found { OnOk result (findings.new
            ≡ findings.old ++ in_dimensions (known_to self.now) (part_path here.entry) (view part.now)) }
    {
        let place = here.at("dimensions");
        findings.add_if(
            is_no_object_at(part, "dimensions"),
            MetaFault::BadTemplate,
            place,
        );
        match object_at(part, "dimensions") {
            Some(members) => Ok(Items::from_vec(self.dimensions_in(here, members, findings)?)),
            None => Ok(Items::new(self.alloc)),
        }
    }
}
