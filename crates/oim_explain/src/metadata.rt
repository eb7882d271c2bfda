//! The explanation of a fault of the metadata.

ghost use Rattle.std.specs.Prelude.{◌≡◌, IfOk};
ghost use Rattle.oim_explain.specs.Explanations.{place_shown};

use crate::causes::cause;
use crate::explanation::Explanation;
use crate::filings::{of_filing, of_no_json};
use crate::namespaces::with_one_uri;
use oim_meta::{Finding, MetaFault};
use oim_names::{Items, Text};
use oim_places::{after_mark, pointer, shown, standing};
use serde_json::Value;
use std::alloc::{AllocError, Global};

/// Returns a place in the metadata file at this path: the file for no keys.
fn place(alloc: Global, path: &str, keys: &[Text]) -> Result<Text, AllocError>
    ensures { IfOk result (λ t. t ≡ place_shown path.now keys.now) }
{
    if keys.is_empty() {
        shown(alloc, path)
    } else {
        Ok(Text::new(pointer(alloc, keys)?))
    }
}

/// Returns what is at the place of a fault. For namespaces that share a URI, it is the two
/// prefixes.
fn found_there(
    alloc: Global,
    there: Option<&Value>,
    finding: &Finding,
) -> Result<String, AllocError> {
    // One key deeper is the namespace of one prefix.
    if finding.fault == MetaFault::BadNamespaces && finding.place.as_slice().len() == 2 {
        if let Some(found) = with_one_uri(alloc, there)? {
            return Ok(found);
        }
    }
    standing(alloc, there)
}

/// Returns the value to which keys lead, if it exists.
fn value_at<'v>(metadata: &'v Value, keys: &[Text]) -> Option<&'v Value> {
    let mut here = metadata;
    for key in keys {
        here = match here.get(key.as_str()) {
            Some(next) => next,
            None => return None,
        };
    }
    Some(here)
}

/// Returns what is at the place of a finding in a metadata that is JSON, and what is wrong with it.
fn in_value(
    alloc: Global,
    metadata: &Value,
    finding: &Finding,
) -> Result<(String, &'static str), AllocError> {
    let keys = finding.place.as_slice();
    let there = value_at(metadata, keys);
    let found = found_there(alloc, there, finding)?;
    let cause = cause(finding.fault, keys, there);
    Ok((found, of_filing(metadata, finding.fault).unwrap_or(cause)))
}

/// Returns where a metadata stops being JSON, and what is wrong with it.
fn in_text(
    alloc: Global,
    bytes: &[u8],
    error: &serde_json::Error,
    finding: &Finding,
) -> Result<(String, &'static str), AllocError> {
    let line = error.line();
    let column = error.column();
    let there = format!(in alloc; "line {line}, column {column}")?;
    let cause = cause(finding.fault, &[], None);
    Ok((there, of_no_json(bytes).unwrap_or(cause)))
}

/// Returns what is at the place of a finding, and what is wrong with it. The JSON is read again.
fn told(
    alloc: Global,
    bytes: &[u8],
    finding: &Finding,
) -> Result<(String, &'static str), AllocError> {
    if finding.place.as_slice().is_empty() && finding.fault == MetaFault::TooLarge {
        let there = String::from_str(alloc, "(more bytes)")?;
        return Ok((there, cause(finding.fault, &[], None)));
    }
    match Value::from_slice(alloc, after_mark(bytes)) {
        Ok(metadata) => in_value(alloc, &metadata, finding),
        Err(error) if error.is_memory() => Err(AllocError),
        Err(error) => in_text(alloc, bytes, &error, finding),
    }
}

/// Returns the explanation of the first finding in the metadata that has these bytes and is at this
/// path. Its place is that of the finding, or the file if no keys lead to it.
pub fn explain_metadata(
    alloc: Global,
    path: &str,
    bytes: &[u8],
    finding: &Finding,
) -> Result<Explanation, AllocError>
    ensures { IfOk result (λ e. e.place ≡ place_shown path.now finding.now.place) }
{
    let place = place(alloc, path, finding.place.as_slice())?;
    let (found, cause) = told(alloc, bytes, finding)?;
    Ok(Explanation {
        place,
        found: Text::new(found),
        source: None,
        cause,
        advice: Items::new(alloc),
        path: Items::new(alloc),
    })
}
