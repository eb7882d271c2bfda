//! Values of the wrong shape.

ghost use Rattle.std.specs.Prelude.{◌≡◌};
ghost use Rattle.serde_json.specs.Find.{get};
ghost use Rattle.serde_json.specs.View.{view, items_view};
ghost use Rattle.oim_meta.specs.Faults.{has_no_text, is_no_flag as not_flag, is_no_object as not_object, is_no_text as not_text, is_no_texts as not_texts};
ghost use Rattle.oim_meta.specs.Members.{if_there};

use serde_json::Value;

/// Returns whether the value at a key exists and is not an object.
pub(crate) fn is_no_object_at(value: &Value, key: &str) -> bool
    ensures { result ≡ if_there not_object (get key.now (view value.now)) }
{
    !value.get(key).is_none_or(Value::is_object)
}

/// Returns whether the value at a key exists and is not a text.
pub(crate) fn is_no_text_at(value: &Value, key: &str) -> bool
    ensures { result ≡ if_there not_text (get key.now (view value.now)) }
{
    !value.get(key).is_none_or(Value::is_string)
}

/// Returns whether the value at a key exists and is not a truth value.
pub(crate) fn is_no_flag_at(value: &Value, key: &str) -> bool
    ensures { result ≡ if_there not_flag (get key.now (view value.now)) }
{
    !value.get(key).is_none_or(Value::is_boolean)
}

fn lacks_text(items: &[Value]) -> bool
    ensures { result ≡ has_no_text (items_view items.now) }
{
    for item in items {
        if !item.is_string() {
            return true;
        }
    }
    false
}

/// Returns whether a value is not a list of texts.
pub(crate) fn is_no_texts(value: &Value) -> bool
    ensures { result ≡ not_texts (view value.now) }
{
    match value.as_array() {
        Some(items) => lacks_text(items),
        None => true,
    }
}
