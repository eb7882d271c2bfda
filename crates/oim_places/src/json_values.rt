//! What is at a place of a JSON value.

ghost use Rattle.std.specs.Prelude.{◌≡◌, IfOk, string_bytes};
ghost use Rattle.oim_places.specs.Shown.{excerpt_of, in_quotes};

use crate::excerpts::{excerpt, in_quotes};
use serde_json::Value;
use std::alloc::{AllocError, Global};

/// Returns the bytes of a JSON text after its byte-order mark, if it has one.
pub fn after_mark(bytes: &[u8]) -> &[u8] {
    bytes.strip_prefix(b"\xef\xbb\xbf").unwrap_or(bytes)
}

/// Returns a text in quotes, cut.
pub fn quoted(alloc: Global, text: &str) -> Result<String, AllocError>
    ensures { IfOk result (λ s. string_bytes s ≡ in_quotes (excerpt_of text.now)) }
{
    in_quotes(alloc, excerpt(alloc, text)?.as_str())
}

/// Returns what a number, a truth value or null is in JSON, cut.
fn plain(alloc: Global, value: &Value) -> Result<String, AllocError> {
    excerpt(alloc, value.to_string(alloc)?.as_str())
}

/// Returns a list or an object by its size.
fn counted(alloc: Global, what: &str, count: usize) -> Result<String, AllocError> {
    format!(in alloc; "({what} of {count})")
}

/// Returns what is at a place: a text in quotes, the size of a list or an object, and anything else
/// as JSON writes it.
pub fn standing(alloc: Global, value: Option<&Value>) -> Result<String, AllocError> {
    match value {
        None => String::from_str(alloc, "(nothing)"),
        Some(Value::String(text)) => quoted(alloc, text.as_str()),
        Some(Value::Array(list)) => counted(alloc, "a list", list.len()),
        Some(Value::Object(members)) => counted(alloc, "an object", members.len()),
        Some(value) => plain(alloc, value),
    }
}
