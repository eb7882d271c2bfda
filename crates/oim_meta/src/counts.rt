//! Counts of members.

ghost use Rattle.std.specs.Prelude.{◌≡◌};
ghost use Rattle.serde_json.specs.View.{view, members_view};
ghost use Rattle.oim_meta.specs.Members.{section};
ghost use Rattle.oim_meta.specs.Counts.{count_of};

use crate::lookup::object_at;
use serde_json::{Map, Value};

/// Returns the count of members.
#[tactic(auto, using(crate::proofs::Counted::count_is))]
pub(crate) fn count(members: &Map<String, Value>) -> usize
    ensures { result ≡ count_of (members_view members.now.entries) }
{
    members.len()
}

/// Returns the count of members of the object at a key, or 0 if there is no object.
pub(crate) fn count_at(value: &Value, key: &str) -> usize
    ensures { result ≡ count_of (section key.now (view value.now)) }
{
    object_at(value, key).map_or(0, count)
}
