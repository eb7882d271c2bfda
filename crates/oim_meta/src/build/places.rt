//! The places of names among columns.

ghost use Rattle.std.specs.Prelude.{◌≡◌, IfOk, OnOk};
ghost use Rattle.serde_json.specs.Find.{as_str};
ghost use Rattle.serde_json.specs.View.{view, items_view, members_view};
ghost use Rattle.oim_meta.specs.Members.{section};
ghost use Rattle.oim_meta.specs.Value.{place_of, add_new, add_place, places_of};

use crate::build::names::Names;
use crate::lookup::object_at;
use serde_json::{Map, Value};
use std::alloc::{AllocError, Global};

/// Returns the place of a name among the members, or their count if no member has it.
fn place(members: &Map<String, Value>, name: &str) -> usize
    ensures { result ≡ place_of name.now (members_view members.now.entries) }
{
    let mut place = 0;
    for (key, _) in members.iter() {
        if name == key.as_str() {
            return place;
        }
        place += 1;
    }
    place
}

/// Returns the place of a name among the members of the object at a key, by a walk. Use `Names` to
/// look up many names.
pub(crate) fn place_at(value: &Value, key: &str, name: &str) -> usize
    ensures { result ≡ place_of name.now (section key.now (view value.now)) }
{
    match object_at(value, key) {
        Some(members) => place(members, name),
        None => 0,
    }
}

/// Appends a place, unless the list has it.
fn push_new(made: &mut Vec<usize>, place: usize) -> Result<(), AllocError>
    ensures { OnOk result (made.new.items ≡ add_new made.old.items place) }
{
    if !made.contains(&place) {
        made.push(place)?;
    }
    Ok(())
}

/// Appends the place of a name, unless the list has it.
fn push_place(made: &mut Vec<usize>, columns: &Names, name: &Value) -> Result<(), AllocError>
    ensures { OnOk result (made.new.items
        ≡ add_place (members_view (columns.now).members.now.entries) made.old.items (as_str (view name.now))) }
{
    match name.as_str() {
        Some(name) => push_new(made, columns.place(name)),
        None => Ok(()),
    }
}

/// Returns the places of names among columns, each once, in the order of first mention.
pub(crate) fn places(
    alloc: Global,
    columns: &Names,
    names: &[Value],
) -> Result<Vec<usize>, AllocError>
    ensures { IfOk result
        (λ made. made.items ≡ places_of (members_view (columns.now).members.now.entries) (items_view names.now)) }
{
    let mut made = Vec::new(alloc);
    for name in names {
        push_place(&mut made, columns, name)?;
    }
    Ok(made)
}
