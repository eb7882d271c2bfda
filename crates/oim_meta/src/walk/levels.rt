//! Levels: making them, and finding their faults.

ghost use Rattle.std.specs.Prelude.{◌≡◌, ◌++◌, IfOk, OnOk, option_map, codes};
ghost use Rattle.serde_json.specs.Find.{get};
ghost use Rattle.serde_json.specs.View.{view};
ghost use Rattle.oim_meta.specs.Decimals.{decimals_of};
ghost use Rattle.oim_meta.specs.BadDecimals.{is_decimals as decimals_value, has_bad_decimals_there};
ghost use Rattle.oim_report.specs.Readers.{no_level as empty_level};
ghost use Rattle.oim_meta.specs.Value.{level_of};
ghost use Rattle.oim_meta.specs.state.Places.{part_path};
ghost use Rattle.oim_meta.specs.Walk.{in_level};
ghost use Rattle.oim_meta.specs.state.Walks.{known_to};

use crate::decimals::{whole, written_decimals};
use crate::findings::Findings;
use crate::json_path::MetadataPart;
use crate::walk::Walk;
use crate::written::strip_front;
use oim_entries::MetaFault;
use oim_names::{Items, is_identifier};
use oim_report::{Level, WrittenDecimals};
use serde_json::Value;
use std::alloc::{AllocError, Global};

#[tactic(auto, unfolding(crate::specs::BadDecimals::is_decimals))]
fn is_decimals(value: &Value) -> bool
    ensures { result ≡ decimals_value (view value.now) }
{
    if whole(value).is_some() {
        return true;
    }
    let Some(text) = value.as_str() else {
        return false;
    };
    match strip_front(text, "$") {
        Some(name) => is_identifier(name),
        None => text == "#none" || oim_cells::decimals(text).is_some(),
    }
}

/// Returns whether the decimals of a level are not well-formed.
pub(crate) fn bad_decimals(level: &Value) -> bool
    ensures { result ≡ has_bad_decimals_there (view level.now) }
{
    !level.get("decimals").is_none_or(is_decimals)
}

/// Makes the decimals of a level.
pub(crate) fn decimals(alloc: Global, level: &Value) -> Result<Option<WrittenDecimals>, AllocError>
    ensures { IfOk result (λ made. made ≡ option_map decimals_of (get (codes "decimals") (view level.now))) }
{
    match level.get("decimals") {
        Some(value) => Ok(Some(written_decimals(alloc, value)?)),
        None => Ok(None),
    }
}

/// Makes a level without properties.
pub(crate) fn no_level(alloc: Global) -> Level
    ensures { result ≡ empty_level }
{
    Level {
        dimensions: Items::new(alloc),
        decimals: None,
    }
}

impl<'a> Walk<'a> {
    /// Makes a level.
    #[tactic(auto, unfolding(crate::specs::Walk::in_level, crate::specs::Value::level_of))]
    pub(crate) fn level<'v>(
        &self,
        here: MetadataPart<'v>,
        value: &'v Value,
        findings: &mut Findings<'v>,
    ) -> Result<Level, AllocError>
        ensures value { IfOk result (λ made. made ≡ level_of (view value.now)) }
        ensures found { OnOk result (findings.new
            ≡ findings.old ++ in_level (known_to self.now) (part_path here.entry) (view value.now)) }
    {
        let dimensions = self.dimensions(here, value, findings)?;
        findings.add_if(
            bad_decimals(value),
            MetaFault::BadDecimals,
            here.at("decimals"),
        );
        Ok(Level {
            dimensions,
            decimals: decimals(self.alloc, value)?,
        })
    }
}
