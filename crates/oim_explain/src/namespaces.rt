//! Two prefixes of a metadata that have one URI.

use oim_places::quoted;
use serde_json::Value;
use std::alloc::{AllocError, Global};
use std::collections::HashMap;

/// Returns the text of two prefixes and their URI.
fn told(alloc: Global, first: &str, second: &str, uri: &str) -> Result<String, AllocError> {
    let mut text = quoted(alloc, first)?;
    text.push_str(" and ")?;
    text.push_str(quoted(alloc, second)?.as_str())?;
    text.push_str(": ")?;
    text.push_str(quoted(alloc, uri)?.as_str())?;
    Ok(text)
}

/// Returns the first prefix of these namespaces that has the URI of an earlier one, with that one,
/// or `None`.
pub(crate) fn with_one_uri(
    alloc: Global,
    namespaces: Option<&Value>,
) -> Result<Option<String>, AllocError> {
    let Some(Value::Object(members)) = namespaces else {
        return Ok(None);
    };
    let mut prefixes = HashMap::new(alloc);
    for (prefix, uri) in members.iter() {
        let uri = uri.as_str().unwrap_or("");
        if let Some(earlier) = prefixes.insert(uri, prefix.as_str())? {
            return Ok(Some(told(alloc, earlier, prefix.as_str(), uri)?));
        }
    }
    Ok(None)
}
