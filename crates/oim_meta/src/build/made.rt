//! Building lists from an object's members and from lists.

ghost use Rattle.std.specs.Prelude.{◌≡◌, ℕ, List, IfOk, OnOk, option_map};
ghost use Rattle.serde_json.specs.Data.{Data};
ghost use Rattle.serde_json.specs.View.{view, items_view, members_view};
ghost use Rattle.oim_meta.specs.Members.{items_at, map_members, map_items, text_of as text_in};
ghost use Rattle.oim_meta.specs.Order.{names_of};
ghost use Rattle.oim_report.specs.Rising.{IsRising};
ghost use Rattle.oim_meta.specs.Members.{flag_at};
ghost use Rattle.oim_meta.specs.Value.{named_text};

use oim_names::{Items, Text};
use serde_json::{Map, Value};
use std::alloc::{AllocError, Global};

/// A value that is made from an object's member.
pub(crate) trait FromMember {
    ghost of: { List ℕ → Data → Self };

    fn from_member(alloc: Global, name: &str, value: &Value) -> Result<Self, AllocError>
    where
        Self: Sized,
        ensures { IfOk result (λ made. made ≡ of name.now (view value.now)) };
}

/// Makes a value from each member of an object, in byte order of name.
pub(crate) fn vec_of<T: FromMember + Drop>(
    alloc: Global,
    members: &Map<String, Value>,
) -> Result<Vec<T>, AllocError>
    ensures made { IfOk result
        (λ made. made.items ≡ map_members T.of (members_view members.now.entries)) }
    ensures rising { OnOk result (IsRising (names_of (members_view members.now.entries))) }
{
    let mut made = Vec::with_capacity(alloc, members.len())?;
    for (name, member) in members.iter() {
        made.push(T::from_member(alloc, name.as_str(), member)?)?;
    }
    Ok(made)
}

/// Copies the text of a value. Returns the empty text if the value is not a text.
pub(crate) fn text_of(alloc: Global, value: &Value) -> Result<Text, AllocError>
    ensures { IfOk result (λ made. made ≡ text_in (view value.now)) }
{
    Text::from_str(alloc, value.as_str().unwrap_or(""))
}

impl FromMember for (Text, Text) {
    ghost of = { named_text };

    fn from_member(alloc: Global, name: &str, value: &Value) -> Result<(Text, Text), AllocError> {
        let name = Text::from_str(alloc, name)?;
        Ok((name, text_of(alloc, value)?))
    }
}

/// Returns the truth value at a key, or false if there is none.
pub(crate) fn flag(value: &Value, key: &str) -> bool
    ensures { result ≡ flag_at key.now (view value.now) }
{
    value.get(key).and_then(Value::as_bool).unwrap_or(false)
}

/// Moves the text out of a value. Returns the empty text if the value is not a text.
fn into_text(alloc: Global, value: Value) -> Text
    ensures { result ≡ text_in (view value) }
{
    match value {
        Value::String(text) => Text::new(text),
        _ => Text::new(String::new(alloc)),
    }
}

fn texts(alloc: Global, items: Vec<Value>) -> Result<Vec<Text>, AllocError>
    ensures { IfOk result (λ made. made.items ≡ map_items text_in (items_view items.items)) }
{
    let mut made = Vec::with_capacity(alloc, items.len())?;
    for item in items {
        made.push(into_text(alloc, item))?;
    }
    Ok(made)
}

/// Moves the texts out of the list at a key, in its order.
pub(crate) fn take_texts(
    alloc: Global,
    value: &mut Value,
    key: &str,
) -> Result<Items<Text>, AllocError>
    ensures { IfOk result (λ made. made ≡ map_items text_in (items_at key.now (view value.old))) }
{
    match value.get_mut(key) {
        Some(list) => match list.take() {
            Value::Array(items) => Ok(Items::from_vec(texts(alloc, items)?)),
            _ => Ok(Items::new(alloc)),
        },
        None => Ok(Items::new(alloc)),
    }
}

/// Copies a text, if there is one.
pub(crate) fn copied(alloc: Global, text: Option<&str>) -> Result<Option<Text>, AllocError>
    ensures { IfOk result (λ made. made ≡ option_map (λ s. s.now) text.entry) }
{
    match text {
        Some(text) => Ok(Some(Text::from_str(alloc, text)?)),
        None => Ok(None),
    }
}
